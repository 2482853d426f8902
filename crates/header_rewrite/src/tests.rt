ghost use Rattle.std.specs.Prelude.{◌≤◌, All, IfOk, length};
ghost use Rattle.conf_tree.specs.Document.{IsDocument};
ghost use Rattle.conf_tree.specs.View.{data_of};

use crate::{fielded, rewrite, rewritten};
use conf_tree::{Tree, read_tree};
use conf_validate::{Conf, validate};
use std::alloc::{AllocError, Global};
use std::test::Fail;
use unit_types::{Addr, Bytes, Field, Fields, Reply, Request};

/// One step that rewrites the target and changes two fields.
const DOCUMENT: &[u8] =
    br#"{"applications":{"h":{"type":"external","executable":"hello"}},"listeners":{"*:8080":{"pass":"routes"}},"routes":[{"action":{"pass":"applications/h","rewrite":"/v1$uri","response_headers":{"X-App":"one","content-type":null}}}]}"#;

fn document(alloc: Global, text: &[u8]) -> Result<Tree, Fail>
    ensures { IfOk result (λ tree. IsDocument (data_of tree)) }
{
    match read_tree(alloc, text)? {
        Some(tree) => Ok(tree),
        None => Err("no document")?,
    }
}

fn handlers(alloc: Global) -> Result<[Bytes; 1], AllocError>
    ensures { IfOk result (λ names. All (λ name. length name ≤ 255) names) }
{
    Ok([Bytes::copy_of(alloc, b"hello")?])
}

fn configuration(alloc: Global, text: &[u8]) -> Result<Conf, Fail> {
    let tree = document(alloc, text)?;
    match validate(alloc, &tree, &handlers(alloc)?) {
        Ok(conf) => Ok(conf),
        Err(_) => Err("refused")?,
    }
}

fn asked(alloc: Global) -> Result<Request, AllocError> {
    Ok(Request {
        method: Bytes::copy_of(alloc, b"GET")?,
        target: Bytes::copy_of(alloc, b"/a?x=1")?,
        path: Bytes::copy_of(alloc, b"/a")?,
        query: Bytes::copy_of(alloc, b"x=1")?,
        host: Bytes::copy_of(alloc, b"a")?,
        minor: 1,
        fields: Fields::of(Vec::new(alloc)),
        from: Addr { ip: 0, port: 4000 },
        to: Addr { ip: 0, port: 8080 },
        body: Bytes::of(Vec::new(alloc)),
    })
}

fn hello(alloc: Global) -> Result<Reply, Fail> {
    let mut list = Vec::new(alloc);
    list.push(Field {
        name: Bytes::copy_of(alloc, b"Content-Type")?,
        value: Bytes::copy_of(alloc, b"text/plain")?,
    })?;
    Ok(Reply {
        status: 200,
        fields: Fields::of(list),
        body: Bytes::copy_of(alloc, b"Hello, world!\n")?,
    })
}

#[test]
fn rewrites_path_and_target(rt: HostRuntime) -> Result<(), Fail> {
    let conf = configuration(rt.alloc(), DOCUMENT)?;
    let mut came = asked(rt.alloc())?;
    let new = rewritten(rt.alloc(), &conf, Some(0), &came)?;
    assert!(rt; new.target.as_slice() == b"/v1/a?x=1".as_slice());
    assert!(rt; new.path.as_slice() == b"/v1/a".as_slice());
    assert!(rt; new.query.as_slice() == b"x=1".as_slice());
    assert!(rt; rewrite(rt.alloc(), &conf, None, &came)?.is_none());
    let mut change = rewrite(rt.alloc(), &conf, Some(0), &came)?.ok_or("a rewrite")?;
    change.exchange(&mut came);
    assert!(rt; came.is_equal(&new));
    Ok(())
}

#[test]
fn changes_fields(rt: HostRuntime) -> Result<(), Fail> {
    let conf = configuration(rt.alloc(), DOCUMENT)?;
    let reply = hello(rt.alloc())?;
    let new = fielded(rt.alloc(), &conf, Some(0), &asked(rt.alloc())?, &reply)?;
    assert_eq!(rt; new.fields.as_slice().len(), 1);
    assert!(rt; new.fields.as_slice()[0].name.as_slice() == b"X-App".as_slice());
    assert!(rt; new.fields.as_slice()[0].value.as_slice() == b"one".as_slice());
    assert!(rt; new.body.is_equal(&reply.body));
    Ok(())
}
