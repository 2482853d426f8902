use crate::{ServeWords, serve_words};
use std::alloc::{AllocError, Global};
use std::test::Fail;

fn words_of(alloc: Global, line: &str) -> Result<Vec<String>, AllocError> {
    let mut words = Vec::new(alloc);
    for word in line.split(' ') {
        words.push(String::from_str(alloc, word)?)?;
    }
    Ok(words)
}

fn read(alloc: Global, line: &str) -> Result<Option<ServeWords>, AllocError> {
    let words = words_of(alloc, line)?;
    serve_words(alloc, words.as_slice())
}

#[test]
fn reads_its_words(rt: HostRuntime) -> Result<(), Fail> {
    let plain = read(rt.alloc(), "serve 9000 8080")?.ok_or("words")?;
    assert!(rt; plain.control == 9000 && plain.workers == 2 && plain.accept == 8192);
    assert!(rt; plain.ports.as_slice() == [8080u16].as_slice());
    let all = read(rt.alloc(), "serve --workers 4 --accept 1 1 2 3 4 5")?.ok_or("words")?;
    assert!(rt; all.control == 1 && all.workers == 4 && all.accept == 1);
    assert!(rt; all.ports.as_slice() == [2u16, 3, 4, 5].as_slice());
    let signed = read(rt.alloc(), "serve +9000 08080")?.ok_or("words")?;
    assert!(rt; signed.control == 9000);
    assert!(rt; signed.ports.as_slice() == [8080u16].as_slice());
    Ok(())
}

#[test]
fn takes_no_other_words(rt: HostRuntime) -> Result<(), Fail> {
    let alloc = rt.alloc();
    for line in [
        "serve",
        "serve 9000",
        "serve --workers 5 1 2",
        "serve --workers 0 1 2",
        "serve --accept 8193 1 2",
        "serve 1 2 3 4 5 6",
        "serve 0 1",
        "serve 1 0",
        "serve 1 65536",
        "serve 1 -2",
        "serve --help",
        "serve 1 2 -h",
        "serve --other 1 2",
    ] {
        assert!(rt; read(alloc, line)?.is_none(), "words: {line}");
    }
    Ok(())
}
