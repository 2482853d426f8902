ghost use Rattle.std.specs.Prelude.{◌≤◌, All, IfOk, length};
ghost use Rattle.conf_tree.specs.Document.{IsDocument};
ghost use Rattle.conf_tree.specs.View.{data_of};

use crate::{Kind, Receipt, Receipts, closes, return_reply};
use conf_tree::{Tree, read_tree};
use conf_validate::{Conf, validate};
use http_front::write_http;
use std::alloc::{AllocError, Global};
use std::process::Abort;
use std::test::Fail;
use unit_types::{Addr, Bytes, Fields, Request};

fn document(alloc: Global, text: &[u8]) -> Result<Tree, Fail>
    ensures { IfOk result (λ tree. IsDocument (data_of tree)) }
{
    match read_tree(alloc, text)? {
        Some(tree) => Ok(tree),
        None => Err("no document")?,
    }
}

fn configuration(alloc: Global, text: &[u8]) -> Result<Conf, Fail> {
    let tree = document(alloc, text)?;
    match validate(alloc, &tree, &[]) {
        Ok(conf) => Ok(conf),
        Err(_) => Err("refused")?,
    }
}

fn get(alloc: Global, minor: u8) -> Result<Request, AllocError> {
    let addr = Addr {
        ip: 0x7F00_0001,
        port: 8080,
    };
    Ok(Request {
        method: Bytes::copy_of(alloc, b"GET")?,
        target: Bytes::copy_of(alloc, b"/")?,
        path: Bytes::copy_of(alloc, b"/")?,
        query: Bytes::of(Vec::new(alloc)),
        host: Bytes::copy_of(alloc, b"a")?,
        minor,
        fields: Fields::of(Vec::new(alloc)),
        from: addr,
        to: addr,
        body: Bytes::of(Vec::new(alloc)),
    })
}

// A function has no contract on its text, so that no proof sees the bytes.
fn moving() -> &'static str {
    r#"{"routes":[{"action":{"return":301,"location":"https://$host$request_uri"}}]}"#
}

fn moved() -> &'static str {
    "HTTP/1.1 301 Moved Permanently\r\nLocation: https://a/\r\nContent-Length: 0\r\n\r\n"
}

#[test]
fn a_return_has_its_location(rt: HostRuntime) -> Result<(), Fail> {
    let alloc = rt.alloc();
    let conf = configuration(alloc, moving().as_bytes())?;
    let reply = return_reply(alloc, &conf, 0, 301, &get(alloc, 1)?)?;
    let mut out = Bytes::of(Vec::new(alloc));
    write_http(alloc, &reply, false, false, &mut out)?;
    assert!(rt; out.as_slice() == moved().as_bytes());
    Ok(())
}

#[test]
fn the_last_request_closes(rt: HostRuntime) -> Result<(), Fail> {
    let alloc = rt.alloc();
    let request = get(alloc, 1)?;
    assert!(rt; !closes(Some(&request), 2));
    assert!(rt; closes(Some(&request), 1));
    assert!(rt; closes(Some(&get(alloc, 0)?), 2));
    assert!(rt; closes(None, 2));
    Ok(())
}

#[test]
fn receipts_keep_their_order(rt: HostRuntime) -> Result<(), Fail> {
    let mut list = Vec::new(rt.alloc());
    for stream in [1, 0] {
        list.push(Receipt {
            conf: 0,
            stream,
            kind: Kind::App,
        })?;
    }
    let receipts = Receipts::of(list);
    assert!(rt; receipts.as_slice().len() == 2);
    assert!(rt; receipts.as_slice()[0].stream == 1);
    Ok(())
}
