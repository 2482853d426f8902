//! Rows of patterns and lists of them.
use super::*;
use std::alloc::{AllocError, Global};

fn patterns_of(alloc: Global, texts: &[&[u8]]) -> Result<TextPatterns, AllocError> {
    let mut list = Vec::new(alloc);
    for text in texts {
        list.push(TextPattern::parse(alloc, text)?)?;
    }
    Ok(TextPatterns::of(list))
}

#[test]
fn one_pattern(rt: HostRuntime) {
    let rows: [(&[u8], &[u8], bool); 25] = [
        (b"/a/*", b"/a/c", true),
        (b"!/x*", b"/x", false),
        (b"!/x*", b"/xy", false),
        (b"!/x*", b"/z", true),
        (b"", b"", true),
        (b"", b"a", false),
        (b"!", b"", false),
        (b"!", b"a", true),
        (b"!!x", b"!x", false),
        (b"!!x", b"x", true),
        (b"*", b"", true),
        (b"***", b"", true),
        (b"***", b"abc", true),
        (b"a*", b"a", true),
        (b"*a", b"a", true),
        (b"a*a", b"a", false),
        (b"a*a", b"aa", true),
        (b"ab*ba", b"aba", false),
        (b"ab*ba", b"abba", true),
        (b"*aab", b"aaab", true),
        (b"*ab*abc", b"ababc", true),
        (b"*a*b*c*", b"xaxbxcx", true),
        (b"*a*b*c*", b"xcxbxax", false),
        (b"a?c", b"abc", false),
        (b"A*", b"abc", false),
    ];
    for (pattern, text, wanted) in rows {
        let parsed = TextPattern::parse(rt.alloc(), pattern).expect(&rt, "parsed");
        assert!(rt; parsed.as_slice() == pattern);
        assert!(rt; parsed.matches(text) == wanted, "{pattern:?} {text:?}");
    }
}

#[test]
fn lists(rt: HostRuntime) {
    let rows: [(&[&[u8]], &[u8], bool); 9] = [
        (&[b"/x*", b"!/xy"], b"/x", true),
        (&[b"/x*", b"!/xy"], b"/xy", false),
        (&[b"/x*", b"!/xy"], b"/z", false),
        (&[b"!/x*"], b"/z", true),
        (&[b"!a", b"!b"], b"b", false),
        (&[b"!a", b"!b"], b"c", true),
        (&[b"a", b"b"], b"b", true),
        (&[b"!b", b"a"], b"a", true),
        (&[], b"anything", true),
    ];
    for (texts, text, wanted) in rows {
        let patterns = patterns_of(rt.alloc(), texts).expect(&rt, "parsed");
        assert!(rt; patterns.as_slice().len() == texts.len());
        assert!(rt; patterns.matches(text) == wanted, "{texts:?} {text:?}");
    }
}

#[test]
fn without_case(rt: HostRuntime) {
    let rows: [(&[&[u8]], &[u8], bool); 6] = [
        (&[b"*.Example.ORG"], b"WWW.example.org", true),
        (&[b"GET"], b"get", true),
        (&[b"!get"], b"GET", false),
        (&[b"[A*"], b"{a", false),
        (&[b"@"], b"`", false),
        (&[b"Z*z"], b"zZ", true),
    ];
    for (texts, text, wanted) in rows {
        let patterns = patterns_of(rt.alloc(), texts).expect(&rt, "parsed");
        assert!(rt;
            patterns.matches_ignoring_case(text) == wanted,
            "{texts:?} {text:?}"
        );
    }
}
