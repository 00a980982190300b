//! Addresses on a client's command line, and the printing of a response.
//!
//! See RFC 7252, sections 6.1 and 6.4.
use coap_client::Fetched;
use coap_msg::Code;
use coap_uri::address::{Address, AddressError};
use fc_fetch::Shown;
use fc_fetch::printer::write_answer;
use std::net::{Ipv4Addr, SocketAddrV4};
use std::test::Fail;

// URIs, each with its host, port, path and arguments of the query.
static URIS: [(&str, [u8; 4], u16, &[u8], &[&[u8]]); 7] = [
    (
        "coap://127.0.0.1:5684/r/1",
        [127, 0, 0, 1],
        5684,
        b"/r/1",
        &[],
    ),
    (
        "coap://192.0.2.7/r/1?a=1&b",
        [192, 0, 2, 7],
        5683,
        b"/r/1",
        &[b"a=1", b"b"],
    ),
    ("coap://localhost", [127, 0, 0, 1], 5683, b"", &[]),
    ("coap://localhost/", [127, 0, 0, 1], 5683, b"", &[]),
    (
        "COAP://127.0.0.1/a%20b/%C3%A9?%3D",
        [127, 0, 0, 1],
        5683,
        b"/a b/\xc3\xa9",
        &[b"="],
    ),
    // An escaped ampersand doesn't separate arguments (RFC 7252, section 6.4).
    (
        "coap://127.0.0.1/a?b%26c&&d",
        [127, 0, 0, 1],
        5683,
        b"/a",
        &[b"b&c", b"", b"d"],
    ),
    (
        "coap://127.0.0.1/.well-known/core?rt=x",
        [127, 0, 0, 1],
        5683,
        b"/.well-known/core",
        &[b"rt=x"],
    ),
];

// Returns whether the arguments of a query are the expected ones.
fn are_arguments(query: &[Vec<u8>], wanted: &[&[u8]]) -> bool {
    query
        .iter()
        .map(|argument| argument.as_slice())
        .eq(wanted.iter().copied())
}

// Parsing a URI returns its server, path and query arguments.
#[test]
fn uris_are_read(rt: HostRuntime) -> Result<(), Fail> {
    for (uri, [a, b, c, d], port, path, query) in URIS.iter().copied() {
        let address = Address::parse(rt.alloc(), uri, None)?;
        let server = SocketAddrV4::new(Ipv4Addr::new(a, b, c, d), port);
        assert!(rt; address.server == server, "{uri}");
        assert!(rt;
            address.path.as_slice() == path && are_arguments(&address.query, query),
            "{uri}"
        );
    }
    Ok(())
}

// A target that is only a path is at 127.0.0.1, at the port of `--port`. Escapes in the path aren't
// decoded.
#[test]
fn a_path_is_at_a_port_of_this_host(rt: HostRuntime) -> Result<(), Fail> {
    let address = Address::parse(rt.alloc(), "/r/1%3F", Some(7))?;
    assert!(rt; address.server == SocketAddrV4::new(Ipv4Addr::LOCALHOST, 7));
    assert!(rt; address.path.as_slice() == b"/r/1%3F".as_slice() && address.query.is_empty());
    Ok(())
}

// Paths with queries, each with its parts. The first `?` ends the path, and each `&` of the query
// separates two arguments. Escapes aren't decoded.
static QUERIES: [(&str, &[u8], &[&[u8]]); 4] = [
    ("/r/1?x=1", b"/r/1", &[b"x=1"]),
    (
        "/r/1?unit=C&a%26b&&why?",
        b"/r/1",
        &[b"unit=C", b"a%26b", b"", b"why?"],
    ),
    ("/r/1?", b"/r/1", &[]),
    ("?a", b"", &[b"a"]),
];

// Parsing a path with a query returns the path and the query's arguments.
#[test]
fn a_path_has_a_query(rt: HostRuntime) -> Result<(), Fail> {
    for (text, path, query) in QUERIES.iter().copied() {
        let address = Address::parse(rt.alloc(), text, Some(7))?;
        assert!(rt;
            address.path.as_slice() == path && are_arguments(&address.query, query),
            "{text}"
        );
    }
    Ok(())
}

// Words that are no address, each with the port that `--port` gives, if any, and the error.
static NONE: [(&str, Option<u16>, AddressError); 8] = [
    ("/r/1", None, AddressError::NoPort),
    ("coap://127.0.0.1/r/1", Some(5683), AddressError::TwoPorts),
    ("coaps://127.0.0.1/r/1", None, AddressError::NoUri),
    ("coap://127.0.0.1:70000/r/1", None, AddressError::NoUri),
    ("coap://example.org/r/1", None, AddressError::Host),
    ("coap://[::1]/r/1", None, AddressError::Host),
    ("coap://127.0.0.1/r/1#x", None, AddressError::Parts),
    ("coap://127.0.0.1/a%2fb", None, AddressError::Escape),
];

// Parsing a word that is no address returns the reason.
#[test]
fn what_is_no_address_is_told(rt: HostRuntime) -> Result<(), Fail> {
    for (text, port, error) in NONE.iter().copied() {
        assert!(rt;
            Address::parse(rt.alloc(), text, port).err() == Some(error),
            "{text}"
        );
    }
    Ok(())
}

// How a response is to be shown, the response's bytes, and the whole output.
static SHOWN: [(Shown, &[u8], &[u8]); 7] = [
    (Shown::Hex, b"on", b"2.05\n6f6e\n"),
    (Shown::Text, b"on", b"2.05\non\n"),
    (Shown::Text, b"a\n\xc3\xa9", b"2.05\na\n\xc3\xa9\n"),
    (Shown::Text, b"\x1b[0m", b"2.05\n1b5b306d\n"),
    (Shown::Text, b"\xff", b"2.05\nff\n"),
    (Shown::Text, b"\xc2\x9b", b"2.05\nc29b\n"),
    (Shown::Text, b"", b"2.05\n"),
];

// The output is the code, and then the bytes in hex, or as text if that is wanted and possible.
#[test]
fn answers_are_printed_as_text_or_in_hex(rt: HostRuntime) -> Result<(), Fail> {
    for (shown, bytes, printed) in SHOWN.iter().copied() {
        let fetched = Fetched {
            code: Code::CONTENT,
            body: Vec::from_slice(rt.alloc(), bytes)?,
        };
        let mut out = Vec::new(rt.alloc());
        let written = write_answer(rt.alloc(), &mut out, shown, &fetched);
        assert!(rt; written.is_ok() && out.as_slice() == printed, "{bytes:?}");
    }
    Ok(())
}
