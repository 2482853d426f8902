//! Books of configurations.
ghost use Rattle.std.specs.Prelude.{◌≡◌, ◌≤◌, ◌+◌, ◌-◌, ◌++◌, ◌∷◌, [], All, length, map, Some, IfOk, OnErr, slice_get};
ghost use Rattle.conf_book.specs.Books.{IsBook, documents_of, first_document, newest_document};
ghost use Rattle.conf_tree.specs.Document.{IsDocument};
ghost use Rattle.conf_tree.specs.View.{data_of};
ghost use Rattle.conf_validate.specs.Answers.{IsConfiguration};
ghost use Rattle.conf_validate.specs.Current.{numbered};
ghost use Rattle.unit_types.specs.Limits.{IsShortName};

use conf_tree::{Tree, TreeMap};
use conf_validate::{Conf, Current, validate};
use std::alloc::{AllocError, Global};
use std::marker::Model;
use std::sync::Arc;
use unit_types::Bytes;

/// A plain list of the documents that were published, each with the configuration that it says, and the names of the
/// handlers that they may ask for.
///
/// Contracts see the documents, the configurations under their numbers, and the names. Its type keeps that there is a
/// document, that each breaks no rule and has that configuration, and that names have at most 255 bytes (`is_book`).
#[derive(Drop)]
pub struct Book {
    names: Vec<Bytes>,
    documents: Vec<Tree>,
    currents: Vec<Current>,
}

impl Model for Book {
    ghost use Rattle.std.specs.Prelude.{map};
    ghost use Rattle.conf_book.specs.Books.{IsBook, Publications, publications_code};
    ghost use Rattle.conf_validate.specs.Current.{numbered};

    ghost Value = { Publications };

    ghost coded = { publications_code };

    ghost view = { λ b. record { documents = b.documents.items; configurations = map numbered b.currents.items; names = b.names.items } };

    ghost invariant = { λ b. IsBook (record {
      documents = b.documents.items;
      configurations = map numbered b.currents.items;
      names = b.names.items;
    }) };
}

impl Book {
    /// A book with the configuration 0, whose document is `{}`. Each name of a handler has at most 255 bytes.
    ///
    /// Fails for want of memory alone.
    pub fn open(alloc: Global, names: &[Bytes]) -> Result<Book, AllocError>
        requires { All IsShortName names.now }
        ensures documents { IfOk result (λ book. documents_of book ≡ first_document ∷ []) }
        ensures names { IfOk result (λ book. book.names ≡ names.now) }
    {
        let document = Tree::Object(TreeMap::new(alloc));
        let names = copies_of(alloc, names)?;
        let conf = first_conf(alloc, &document, &names)?;
        let mut documents = Vec::new(alloc);
        let mut currents = Vec::new(alloc);
        put_both(
            &mut documents,
            &mut currents,
            document,
            current(alloc, 0, conf)?,
        )?;
        Ok(Book {
            names,
            documents,
            currents,
        })
    }

    /// What each book keeps, as a fact of its value. It does nothing.
    pub fn is_book(&self)
        ensures { IsBook self.now }
    {
        let _names = &self.names;
    }

    /// Puts a document and what it says behind the others, and gives its number. It waits for nobody. The configuration is
    /// the valid meaning of the document.
    ///
    /// Fails for want of memory alone; the book is then as before.
    pub fn publish(&mut self, alloc: Global, tree: Tree, conf: Conf) -> Result<u64, AllocError>
        requires document { IsDocument (data_of tree) }
        requires said { IsConfiguration (data_of tree) self.old.names conf }
        ensures number { IfOk result (λ number. number ≡ length self.old.documents) }
        ensures documents { IfOk result (λ number. documents_of self.new ≡ documents_of self.old
            ++ data_of tree ∷ []) }
        ensures configurations { IfOk result (λ number. self.new.configurations
            ≡ self.old.configurations ++ (number, conf) ∷ []) }
        ensures names { self.new.names ≡ self.old.names }
        ensures err { OnErr result (self.new ≡ self.old) }
    {
        let number = self.documents.len() as u64;
        let current = current(alloc, number, conf)?;
        put_both(&mut self.documents, &mut self.currents, tree, current)?;
        Ok(number)
    }

    /// The names of the handlers that the documents may ask for.
    pub fn names(&self) -> &[Bytes]
        ensures { result.now ≡ self.now.names }
    {
        self.names.as_slice()
    }

    /// The documents in the order in which they were published. It takes no memory.
    pub fn documents(&self) -> &[Tree]
        ensures { result.now ≡ self.now.documents }
    {
        self.documents.as_slice()
    }

    /// The newest document. It takes no memory.
    pub fn newest_document(&self) -> &Tree
        ensures is { data_of result.now ≡ newest_document (documents_of self.now) }
        ensures document { IsDocument (data_of result.now) }
    {
        &self.documents[self.documents.len() - 1]
    }

    /// The configurations by their number. It takes no memory.
    pub fn currents(&self) -> &[Current]
        ensures { map numbered result.now ≡ self.now.configurations }
    {
        self.currents.as_slice()
    }

    /// The newest configuration. It takes no memory.
    pub fn newest(&self) -> &Current
        ensures { slice_get self.now.configurations (length self.now.configurations - 1)
            ≡ Some (numbered result.now) }
    {
        &self.currents[self.currents.len() - 1]
    }

    /// The documents in the order in which they were published, without a copy.
    pub fn into_documents(self) -> Vec<Tree>
        ensures { result.items ≡ self.documents }
    {
        self.documents
    }
}

fn copies_of(alloc: Global, names: &[Bytes]) -> Result<Vec<Bytes>, AllocError>
    ensures { IfOk result (λ copies. copies.items ≡ names.now) }
{
    let mut copies = Vec::with_capacity(alloc, names.len())?;
    for name in names {
        copies.push(Bytes::copy_of(alloc, name.as_slice())?)?;
    }
    Ok(copies)
}

/// What the document `{}` says, which breaks no rule.
fn first_conf(alloc: Global, document: &Tree, names: &[Bytes]) -> Result<Conf, AllocError>
    requires document { data_of document.now ≡ first_document }
    requires short { All IsShortName names.now }
    ensures { IfOk result (IsConfiguration first_document names.now) }
{
    // it breaks no rule, so that only memory can be wanting
    match validate(alloc, document, names) {
        Ok(conf) => Ok(conf),
        Err(_fault) => Err(AllocError),
    }
}

fn current(alloc: Global, number: u64, conf: Conf) -> Result<Current, AllocError>
    ensures { IfOk result (λ current. numbered current ≡ (number, conf)) }
{
    Ok(Current {
        number,
        conf: Arc::new(alloc, conf)?,
    })
}

/// Puts a document behind the documents and its configuration behind the configurations, or neither.
fn put_both(
    documents: &mut Vec<Tree>,
    currents: &mut Vec<Current>,
    document: Tree,
    current: Current,
) -> Result<(), AllocError>
    ensures documents { IfOk result (λ _. documents.new.items ≡ documents.old.items
        ++ document ∷ []) }
    ensures currents { IfOk result (λ _. currents.new.items ≡ currents.old.items ++ current ∷ []) }
    ensures err { OnErr result ((documents.new.items ≡ documents.old.items) × (currents.new.items
        ≡ currents.old.items)) }
{
    documents.reserve(1)?;
    currents.push(current)?;
    documents.push_reserved(document);
    Ok(())
}
