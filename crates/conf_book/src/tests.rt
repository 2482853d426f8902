ghost use Rattle.std.specs.Prelude.{All, IfOk};
ghost use Rattle.unit_types.specs.Limits.{IsShortName};

use crate::Book;
use conf_tree::read_tree;
use conf_validate::validate;
use std::alloc::{AllocError, Global};
use std::test::Fail;
use unit_types::Bytes;

fn hello(alloc: Global) -> Result<[Bytes; 1], AllocError>
    ensures { IfOk result (λ names. All IsShortName names) }
{
    Ok([Bytes::copy_of(alloc, b"hello")?])
}

fn published(alloc: Global, book: &mut Book, text: &[u8]) -> Result<u64, Fail> {
    book.is_book();
    match read_tree(alloc, text)? {
        Some(tree) => match validate(alloc, &tree, book.names()) {
            Ok(conf) => Ok(book.publish(alloc, tree, conf)?),
            Err(_fault) => Err("refused")?,
        },
        None => Err("no document")?,
    }
}

#[test]
fn keeps_what_was_published(rt: HostRuntime) -> Result<(), Fail> {
    let mut book = Book::open(rt.alloc(), &hello(rt.alloc())?)?;
    assert!(rt; book.newest().number == 0);
    let text = br#"{"settings":{"http":{"max_body_size":7}}}"#;
    assert!(rt; published(rt.alloc(), &mut book, text)? == 1);
    assert!(rt; book.newest().number == 1);
    assert!(rt; book.newest().conf.max_body() == 7);
    assert!(rt; book.currents().len() == 2);
    assert!(rt; book.documents().len() == 2);
    assert!(rt; book.into_documents().len() == 2);
    Ok(())
}
