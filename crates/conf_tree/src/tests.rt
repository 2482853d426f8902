ghost use Rattle.std.specs.Prelude.{All, IfOk, IsUtf8, OnOk};
ghost use Rattle.conf_tree.specs.Document.{IsDocument};
ghost use Rattle.conf_tree.specs.View.{data_of};

use crate::{Append, Path, Put, Remove, Tree, append, get, put, read_tree, remove, write_tree};
use std::alloc::{AllocError, Global};
use std::process::Abort;
use std::test::Fail;
use unit_types::Bytes;

/// What is written of the tree of this text, or nothing where it is no document.
fn rewritten(alloc: Global, text: &[u8]) -> Result<Bytes, AllocError> {
    match read_tree(alloc, text)? {
        Some(tree) => write_tree(alloc, &tree),
        None => Ok(Bytes::of(Vec::new(alloc))),
    }
}

fn document(alloc: Global, text: &str) -> Result<Tree, Fail>
    ensures { IfOk result (λ tree. IsDocument (data_of tree)) }
{
    match read_tree(alloc, text.as_bytes())? {
        Some(tree) => Ok(tree),
        None => Err("no document")?,
    }
}

fn key(alloc: Global, text: &str) -> Result<Bytes, AllocError>
    ensures { IfOk result IsUtf8 }
{
    Bytes::copy_of(alloc, text.as_bytes())
}

fn add_key(alloc: Global, keys: &mut Vec<Bytes>, text: Option<&str>) -> Result<(), AllocError>
    requires { All IsUtf8 keys.old.items }
    ensures { OnOk result (All IsUtf8 keys.new.items) }
{
    match text {
        Some(text) => {
            keys.push(key(alloc, text)?)?;
            Ok(())
        }
        None => Ok(()),
    }
}

/// The path of no key, one key or two.
fn path(alloc: Global, first: Option<&str>, second: Option<&str>) -> Result<Path, AllocError> {
    let mut keys = Vec::new(alloc);
    add_key(alloc, &mut keys, first)?;
    add_key(alloc, &mut keys, second)?;
    Ok(Path::of(keys))
}

fn shows(rt: &(impl Abort + AllocGlobal), tree: &Tree, want: &str) -> Result<(), AllocError>
    requires { IsDocument (data_of tree.now) }
{
    let text = write_tree(rt.alloc(), tree)?;
    assert!(rt; text.as_slice() == want.as_bytes(), "not {want}");
    Ok(())
}

#[test]
fn rewrites_texts(rt: HostRuntime) -> Result<(), Fail> {
    for (text, want) in [
        ("{}", "{}"),
        ("[[],[[]]]", "[[],[[]]]"),
        (" [ true , false , null ] ", "[true,false,null]"),
        ("\"\\u0000\\ud83d\\ude00\\/\"", "\"\\u0000\u{1f600}/\""),
        ("-9223372036854775808", "-9223372036854775808"),
        ("18446744073709551615", "18446744073709551615"),
        ("{\"b\":1,\"a\":{\"\":2}}", "{\"a\":{\"\":2},\"b\":1}"),
        ("{\"a\":1,\"a\":2}", "{\"a\":2}"),
        ("{\"a\":0.5,\"a\":2}", "{\"a\":2}"),
    ] {
        assert!(rt;
            rewritten(rt.alloc(), text.as_bytes())?.as_slice() == want.as_bytes(),
            "at {text}"
        );
    }
    Ok(())
}

#[test]
fn refuses_texts(rt: HostRuntime) -> Result<(), Fail> {
    for text in [
        "",
        "{",
        "[1,]",
        "-9223372036854775809",
        "18446744073709551616",
        "1.0",
        "1e2",
        "-0",
        "[0.5]",
        "{\"a\":[1.5]}",
        "\"\\ud83d\"",
        "1 2",
    ] {
        assert!(rt;
            read_tree(rt.alloc(), text.as_bytes())?.is_none(),
            "at {text}"
        );
    }
    assert!(rt; read_tree(rt.alloc(), b"\"\xff\"")?.is_none(), "not UTF-8");
    Ok(())
}

#[test]
fn reads_nesting_of_127(rt: HostRuntime) -> Result<(), Fail> {
    for depth in [127u8, 128u8] {
        let mut text = Vec::new(rt.alloc());
        for _ in 0..depth {
            text.push(b'[')?;
        }
        for _ in 0..depth {
            text.push(b']')?;
        }
        assert!(rt;
            read_tree(rt.alloc(), text.as_slice())?.is_some() == (depth == 127),
            "at {depth}"
        );
    }
    Ok(())
}

#[test]
fn looks_up_by_path(rt: HostRuntime) -> Result<(), Fail> {
    let tree = document(rt.alloc(), "{\"a\":[7,\"x\"],\"b\":{\"0\":8},\"~1\":9}")?;
    for (first, second, want) in [
        ("a", Some("0"), Some("7")),
        ("a", Some("1"), Some("\"x\"")),
        ("a", Some("2"), None),
        ("a", Some("00"), None),
        ("a", Some(""), None),
        ("b", Some("0"), Some("8")),
        ("b", Some("00"), None),
        ("~1", None, Some("9")),
        ("~1", Some("0"), None),
        ("c", None, None),
    ] {
        let path = path(rt.alloc(), Some(first), second)?;
        match get(&tree, &path) {
            Some(found) => shows(&rt, found, want.unwrap_or("nothing"))?,
            None => assert!(rt; want.is_none(), "nothing at {first}"),
        }
    }
    Ok(())
}

#[test]
fn puts_by_path(rt: HostRuntime) -> Result<(), Fail> {
    let mut tree = document(rt.alloc(), "{\"a\":[1,2]}")?;
    for (first, second, want) in [
        ("a", Some("1"), Put::Done),
        ("a", Some("2"), Put::Absent),
        ("a", Some("01"), Put::Absent),
        ("b", None, Put::Done),
        ("b", Some("c"), Put::Absent),
        ("A", None, Put::Done),
        ("A", None, Put::Done),
        ("d", Some("e"), Put::Absent),
    ] {
        let path = path(rt.alloc(), Some(first), second)?;
        let answer = put(rt.alloc(), &mut tree, &path, Tree::Null)?;
        assert!(rt; answer == want, "at {first}");
    }
    shows(&rt, &tree, "{\"A\":null,\"a\":[1,null],\"b\":null}")?;
    let whole = path(rt.alloc(), None, None)?;
    assert!(rt; put(rt.alloc(), &mut tree, &whole, Tree::Truth(true))? == Put::Done);
    shows(&rt, &tree, "true")?;
    Ok(())
}

#[test]
fn appends_by_path(rt: HostRuntime) -> Result<(), Fail> {
    let mut tree = document(rt.alloc(), "{\"a\":[1,[]],\"b\":{}}")?;
    for (first, second, want) in [
        ("a", None, Append::Done),
        ("a", Some("1"), Append::Done),
        ("a", Some("0"), Append::NoArray),
        ("a", Some("3"), Append::Absent),
        ("b", None, Append::NoArray),
        ("c", None, Append::Absent),
    ] {
        let path = path(rt.alloc(), Some(first), second)?;
        assert!(rt;
            append(&mut tree, &path, Tree::Number(-(1 << 100)))? == want,
            "at {first}"
        );
    }
    shows(
        &rt,
        &tree,
        "{\"a\":[1,[-1267650600228229401496703205376],-1267650600228229401496703205376],\"b\":{}}",
    )?;
    Ok(())
}

#[test]
fn removes_by_path(rt: HostRuntime) -> Result<(), Fail> {
    let mut tree = document(rt.alloc(), "{\"a\":[1,2,3],\"b\":{\"c\":4,\"d\":5}}")?;
    for (first, second, want) in [
        ("a", Some("0"), Remove::Done),
        ("a", Some("2"), Remove::Absent),
        ("b", Some("c"), Remove::Done),
        ("b", Some("c"), Remove::Absent),
        ("e", None, Remove::Absent),
    ] {
        let path = path(rt.alloc(), Some(first), second)?;
        assert!(rt; remove(&mut tree, &path) == want, "at {first}");
    }
    shows(&rt, &tree, "{\"a\":[2,3],\"b\":{\"d\":5}}")?;
    shows(
        &rt,
        &tree.copy(rt.alloc())?,
        "{\"a\":[2,3],\"b\":{\"d\":5}}",
    )?;
    let whole = path(rt.alloc(), None, None)?;
    assert!(rt; remove(&mut tree, &whole) == Remove::Done);
    shows(&rt, &tree, "{}")?;
    Ok(())
}
