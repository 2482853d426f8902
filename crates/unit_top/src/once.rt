//! One connection to one handler: the connection of a configuration that sends each request there.
ghost use Rattle.std.specs.Prelude.{◌≡◌, true, All, IfOk};
ghost use Rattle.serde_json.specs.Data.{no_members, object, string};
ghost use Rattle.conf_tree.specs.Document.{IsDocument};
ghost use Rattle.conf_tree.specs.View.{data_of};
ghost use Rattle.conf_validate.specs.Configuration.{configuration_of};
ghost use Rattle.conf_validate.specs.Current.{numbered};
ghost use Rattle.http_front.specs.Session.{once_of};
ghost use Rattle.unit_top.specs.Command.{is_listed};
ghost use Rattle.unit_top.specs.Once as spec;
ghost use Rattle.unit_types.specs.Limits.{IsShortName};

use crate::connection::{Arrived, connection_output};
use crate::fabric::{Output, open_fabric};
use conf_tree::{Path, Tree, TreeMap, put};
use conf_validate::{ConfFault, Current, validate};
use std::alloc::{AllocError, Global};
use std::sync::Arc;
use unit_types::{Bytes, Handlers};

/// The name of the listener, and its port.
const LISTENER: &str = "*:8080";

const PORT: u16 = 8080;

fn empty(alloc: Global) -> Tree
    ensures value { data_of result ≡ object no_members }
    ensures document { IsDocument (data_of result) }
{
    Tree::Object(TreeMap::new(alloc))
}

fn text_tree(alloc: Global, text: &str) -> Result<Tree, AllocError>
    ensures value { IfOk result (λ tree. data_of tree ≡ string text.now) }
    ensures document { IfOk result (λ tree. IsDocument (data_of tree)) }
{
    Ok(Tree::Text(Bytes::copy_of(alloc, text.as_bytes())?))
}

/// The object with one more member; a value that is no object stays as it is.
fn with_member(alloc: Global, mut tree: Tree, name: &str, member: Tree) -> Result<Tree, AllocError>
    requires tree { IsDocument (data_of tree) }
    requires member { IsDocument (data_of member) }
    ensures value { IfOk result
        (λ new. data_of new ≡ spec.with_member name.now (data_of member) (data_of tree)) }
    ensures document { IfOk result (λ new. IsDocument (data_of new)) }
{
    let mut keys = Vec::new(alloc);
    keys.push(Bytes::copy_of(alloc, name.as_bytes())?)?;
    let _done = put(alloc, &mut tree, &Path::of(keys), member)?;
    Ok(tree)
}

/// The application `h`, which is this handler.
fn applications(alloc: Global, handler: &str) -> Result<Tree, AllocError>
    ensures value { IfOk result (λ tree. data_of tree ≡ spec.applications handler.now) }
    ensures document { IfOk result (λ tree. IsDocument (data_of tree)) }
{
    let executable = text_tree(alloc, handler)?;
    let application = with_member(alloc, empty(alloc), "executable", executable)?;
    let external = text_tree(alloc, "external")?;
    let application = with_member(alloc, application, "type", external)?;
    with_member(alloc, empty(alloc), "h", application)
}

/// The listener, which passes to the application `h`.
fn listeners(alloc: Global) -> Result<Tree, AllocError>
    ensures value { IfOk result (λ tree. data_of tree ≡ spec.listeners) }
    ensures document { IfOk result (λ tree. IsDocument (data_of tree)) }
{
    let pass = text_tree(alloc, "applications/h")?;
    let listener = with_member(alloc, empty(alloc), "pass", pass)?;
    with_member(alloc, empty(alloc), LISTENER, listener)
}

fn once_document(alloc: Global, handler: &str) -> Result<Tree, AllocError>
    ensures value { IfOk result (λ tree. data_of tree ≡ spec.once_document handler.now) }
    ensures document { IfOk result (λ tree. IsDocument (data_of tree)) }
{
    let applications = applications(alloc, handler)?;
    let document = with_member(alloc, empty(alloc), "applications", applications)?;
    let listeners = listeners(alloc)?;
    with_member(alloc, document, "listeners", listeners)
}

/// What the document says, under the number 0.
fn once_configuration(alloc: Global, names: &[Bytes], handler: &str) -> Result<Current, AllocError>
    requires short { All IsShortName names.now }
    requires listed { is_listed names.now handler.now ≡ true }
    ensures { IfOk result (λ current. numbered current
        ≡ (0, configuration_of (spec.once_document handler.now))) }
{
    let document = once_document(alloc, handler)?;
    match validate(alloc, &document, names) {
        Ok(conf) => Ok(Current {
            number: 0,
            conf: Arc::new(alloc, conf)?,
        }),
        Err(ConfFault::Memory) => Err(AllocError),
        // It breaks no rule, since the handler is there.
        Err(ConfFault::Invalid(_)) => unreachable!(),
    }
}

/// What a connection with these bytes gets, where each request goes to the handler `name`.
///
/// Fails for want of memory alone.
pub fn once<H: Handlers>(
    alloc: Global,
    handlers: &H,
    name: &str,
    input: Bytes,
) -> Result<Bytes, AllocError>
    requires { is_listed (H.listed handlers.now) name.now ≡ true }
    ensures { IfOk result (λ out. out ≡ once_of H.reply_of name.now input) }
{
    let conf = once_configuration(alloc, handlers.names(), name)?;
    let mut plain = open_fabric(alloc)?;
    let arrived = Arrived {
        listener: Bytes::copy_of(alloc, LISTENER.as_bytes())?,
        port: PORT,
        bytes: input,
    };
    connection_output(alloc, handlers, &mut plain, Output::Replies, arrived, &conf)
}
