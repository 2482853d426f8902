use crate::{
    arguments, arguments_in, cookies, cookies_in, expand, expansion_in, normal_path, value_of,
    variable_count,
};
use std::alloc::{AllocError, Global};
use std::cmp::Ordering;
use unit_types::{Addr, Bytes, Field, Fields, Request};

#[test]
fn paths(rt: HostRuntime) {
    let rows: [(&[u8], &[u8]); 20] = [
        (b"/a//b/%2e%2e/c", b"/a/c"),
        (b"/../x/.", b"/x/"),
        (b"", b"/"),
        (b"/", b"/"),
        (b"//", b"/"),
        (b".", b"/"),
        (b"..", b"/"),
        (b"/..", b"/"),
        (b"a", b"/a"),
        (b"/a/", b"/a/"),
        (b"/a//", b"/a/"),
        (b"/a/..", b"/"),
        (b"/a/b/..", b"/a/"),
        (b"/a/b/../../../c", b"/c"),
        (b"/a/./b", b"/a/b"),
        (b"/a/...", b"/a/..."),
        (b"/a%2Fb", b"/a/b"),
        (b"/%2541", b"/%41"),
        (b"/%", b"/%"),
        (b"/%4g+", b"/%4g+"),
    ];
    for (raw, wanted) in rows {
        let path = normal_path(rt.alloc(), raw).expect(&rt, "memory");
        assert!(rt; path.as_slice() == wanted, "{raw:?}");
    }
}

fn field(alloc: Global, name: &[u8], value: &[u8]) -> Result<Field, AllocError> {
    Ok(Field {
        name: Bytes::copy_of(alloc, name)?,
        value: Bytes::copy_of(alloc, value)?,
    })
}

/// A list of fields as one text: each name and value with a line between them.
fn shown(alloc: Global, fields: &Fields) -> Result<Vec<u8>, AllocError> {
    let mut text = Vec::new(alloc);
    for field in fields.as_slice() {
        text.extend_from_slice(field.name.as_slice())?;
        text.push(b'|')?;
        text.extend_from_slice(field.value.as_slice())?;
        text.push(b'\n')?;
    }
    Ok(text)
}

#[test]
fn queries(rt: HostRuntime) {
    let rows: [(&[u8], &[u8]); 9] = [
        (b"a=1&&b=%41+c", b"a|1\nb|A c\n"),
        (b"", b""),
        (b"&&", b""),
        (b"a", b"a|\n"),
        (b"=x&", b"|x\n"),
        (b"a=b=c", b"a|b=c\n"),
        (b"%61+b=%2B%2b", b"a b|++\n"),
        (b"x=%&y=%4", b"x|%\ny|%4\n"),
        (b"x=%+41", b"x|% 41\n"),
    ];
    for (query, wanted) in rows {
        let fields = arguments(rt.alloc(), query).expect(&rt, "memory");
        let text = shown(rt.alloc(), &fields).expect(&rt, "memory");
        assert!(rt; text.as_slice() == wanted, "{query:?}");
    }
    let mut pairs = arguments_in(b"k=v+1");
    let pair = pairs.next().expect(&rt, "an argument");
    assert!(rt; pair.name.is(b"k") && pair.value.is(b"v 1") && !pair.value.is(b"v"));
    assert!(rt; pairs.next().is_none());
}

#[test]
fn cookie_fields(rt: HostRuntime) {
    let rows: [(&[u8], &[u8]); 6] = [
        (b"x=1; y=2", b"x|1\ny|2\n"),
        (b"a=1;", b"a|1\n|\n"),
        (b"", b"|\n"),
        (b"  a b = c  ", b"a b | c\n"),
        (b"p%41+q=r+%42", b"p%41+q|r+%42\n"),
        (b"a;=b;c==", b"a|\n|b\nc|=\n"),
    ];
    for (value, wanted) in rows {
        let mut list = Vec::new(rt.alloc());
        list.push(field(rt.alloc(), b"accept", b"n=0").expect(&rt, "memory"))
            .expect(&rt, "memory");
        list.push(field(rt.alloc(), b"cookie", value).expect(&rt, "memory"))
            .expect(&rt, "memory");
        let fields = Fields::of(list);
        let found = cookies(rt.alloc(), &fields).expect(&rt, "memory");
        let text = shown(rt.alloc(), &found).expect(&rt, "memory");
        assert!(rt; text.as_slice() == wanted, "{value:?}");
        assert!(rt; cookies_in(&fields).next().is_some());
    }
}

fn request(alloc: Global) -> Result<Request, AllocError> {
    let mut list = Vec::new(alloc);
    list.push(field(alloc, b"x-a", b"one")?)?;
    list.push(field(alloc, b"x-a", b"two")?)?;
    list.push(field(alloc, b"cookie", b"c=; c=2; d=3")?)?;
    let address = Addr {
        ip: u32::from_be_bytes([10, 0, 200, 7]),
        port: 80,
    };
    Ok(Request {
        method: Bytes::copy_of(alloc, b"GET")?,
        target: Bytes::copy_of(alloc, b"/")?,
        path: Bytes::copy_of(alloc, b"/p q")?,
        query: Bytes::copy_of(alloc, b"q=1&q=2&s=a+b%25%ff")?,
        host: Bytes::copy_of(alloc, b"a")?,
        minor: 1,
        fields: Fields::of(list),
        from: address,
        to: address,
        body: Bytes::copy_of(alloc, b"")?,
    })
}

#[test]
fn expansions(rt: HostRuntime) {
    let request = request(rt.alloc()).expect(&rt, "memory");
    let rows: [(&[u8], bool, &[u8]); 15] = [
        (b"https://$host$request_uri", true, b"https://a/"),
        (b"no variable", true, b"no variable"),
        (b"", false, b""),
        (b"${host}s $method.", false, b"as GET."),
        (b"$uri", false, b"/p q"),
        (b"$uri", true, b"/p%20q"),
        (b"$remote_addr", true, b"10.0.200.7"),
        (b"$arg_q-$arg_Q", false, b"1-"),
        (b"$arg_s", false, b"a b%\xff"),
        (b"$arg_s", true, b"a%20b%%FF"),
        (b"[$cookie_c][$cookie_d][$cookie_e]", false, b"[][3][]"),
        (b"$header_x_a$header_X_A-a", false, b"oneone-a"),
        (b"$dollar$dollar{host}", true, b"$${host}"),
        (b"$hosts$request_ur", false, b""),
        (b"$, ${} and ${host", true, b"$, ${} and ${host"),
    ];
    for (text, escapes, wanted) in rows {
        let bytes = expand(rt.alloc(), text, &request, escapes).expect(&rt, "memory");
        assert!(rt; bytes.as_slice() == wanted, "{text:?}");
        if !escapes {
            assert!(rt; expansion_in(text, &request).is(wanted), "{text:?}");
        }
    }
    let expansion = expansion_in(b"b$host", &request);
    assert!(rt; expansion.compare(b"bb") == Ordering::Less);
    assert!(rt; expansion.compare(b"b") == Ordering::Greater);
    assert!(rt; value_of(b"host", &request).next() == Some(b'a'));
}

#[test]
fn counts(rt: HostRuntime) {
    let rows: [(&[u8], Option<usize>); 16] = [
        (b"", Some(0)),
        (b"a}b{c", Some(0)),
        (b"$host", Some(1)),
        (b"${host}$uri$request_uri", Some(3)),
        (b"$arg_a-b$cookie_1$header__", Some(3)),
        (b"$status", Some(1)),
        (b"$", None),
        (b"$$host", None),
        (b"${host", None),
        (b"${}", None),
        (b"${host }", None),
        (b"$hosts", None),
        (b"$request", None),
        (b"$arg_", None),
        (b"${arg_a-b}", None),
        (b"$Host", None),
    ];
    for (text, wanted) in rows {
        assert!(rt; variable_count(text, &[b"status"]) == wanted, "{text:?}");
    }
    assert!(rt; variable_count(b"$status", &[]).is_none());
}
