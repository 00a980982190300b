//! Fetches from a server that follows a script.
//!
//! The datagrams are worked out by hand (RFC 7252, section 3; RFC 7959, sections 2.2 and 3).
use crate::scripted::{answers, check_sent, comes, fetched, follows};
use coap_client::{FetchFault, Path, PathError};
use coap_opts::Method;
use fc_fixtures::datagrams::joined;
use std::test::Fail;

// A body of 1,500 bytes is sent in two blocks, of 1,024 and 476 bytes.
#[test]
fn a_large_body_goes_by_blocks(rt: HostRuntime) -> Result<(), Fail> {
    let mut server = follows(rt.alloc());
    comes(&mut server, b"\x60\x5f\x00\x07\xd1\x0e\x0e", &[])?;
    comes(
        &mut server,
        b"\x60\x44\x00\x08\xd1\x0e\x16\xff",
        b"version=2",
    )?;
    let answer = fetched(&mut server, Method::Put, "/p/1", &[7; 1500])?;
    assert!(rt; answer.code.byte == 0x44 && answer.body.as_slice() == b"version=2".as_slice());
    assert!(rt; server.sent.len() == 2);
    let first = b"\x40\x03\x00\x07\xb1\x70\x01\x31\xd1\x03\x0e\xff";
    check_sent(&rt, &server, 0, first, &[7; 1024]);
    let second = b"\x40\x03\x00\x08\xb1\x70\x01\x31\xd1\x03\x16\xff";
    check_sent(&rt, &server, 1, second, &[7; 476]);
    Ok(())
}

// If the server responds to each block with a success that has the block's Block1, the next block
// is sent. A server that executes each block by itself responds so.
#[test]
fn blocks_that_are_carried_out_one_by_one_go_on(rt: HostRuntime) -> Result<(), Fail> {
    let mut server = follows(rt.alloc());
    comes(&mut server, b"\x60\x44\x00\x07\xd1\x0e\x06", &[])?;
    comes(&mut server, b"\x60\x44\x00\x08\xd1\x0e\x16", &[])?;
    comes(&mut server, b"\x60\x44\x00\x09\xd1\x0e\x26\xff", b"done")?;
    let answer = fetched(&mut server, Method::Put, "/p/1", &[7; 3000])?;
    assert!(rt; answer.code.byte == 0x44 && answer.body.as_slice() == b"done".as_slice());
    assert!(rt; server.sent.len() == 3);
    let last = b"\x40\x03\x00\x09\xb1\x70\x01\x31\xd1\x03\x26\xff";
    check_sent(&rt, &server, 2, last, &[7; 952]);
    Ok(())
}

// Successes to the first of two blocks. The first has no Block1, the next two have the number of
// another block (2.04 and 2.31). The last two have a greater size, and a Block1 of four bytes.
static NOT_TAKEN: [&[u8]; 5] = [
    b"\x60\x44\x00\x07",
    b"\x60\x44\x00\x07\xd1\x0e\x16",
    b"\x60\x5f\x00\x07\xd1\x0e\x1e",
    b"\x60\x44\x00\x07\xd1\x0e\x07",
    b"\x60\x5f\x00\x07\xd4\x0e\x00\x00\x00\x06",
];

// A success to the first block that doesn't have the block's Block1 ends the fetch as malformed.
#[test]
fn no_success_leaves_a_block_out(rt: HostRuntime) -> Result<(), Fail> {
    for reply in NOT_TAKEN.iter().copied() {
        let mut server = follows(rt.alloc());
        comes(&mut server, reply, &[])?;
        let answer = fetched(&mut server, Method::Put, "/p/1", &[7; 1500]);
        assert!(rt; matches!(&answer, Err(FetchFault::Malformed)), "{reply:?}");
    }
    Ok(())
}

// Successes to the last of two blocks that don't match it. They are a 2.31, one with the number of
// the first block, and one whose Block1 says that more blocks follow.
static NOT_LAST: [&[u8]; 3] = [
    b"\x60\x5f\x00\x08\xd1\x0e\x16",
    b"\x60\x44\x00\x08\xd1\x0e\x06",
    b"\x60\x44\x00\x08\xd1\x0e\x1e",
];

// A success that doesn't match the last block ends the fetch as malformed, and so does a 2.31 to a
// body in one message.
#[test]
fn no_success_ends_it_before_the_server_has_all(rt: HostRuntime) -> Result<(), Fail> {
    for reply in NOT_LAST.iter().copied() {
        let mut server = answers(
            rt.alloc(),
            &[(b"\x60\x5f\x00\x07\xd1\x0e\x0e", b""), (reply, b"")],
        )?;
        let answer = fetched(&mut server, Method::Put, "/p/1", &[7; 1500]);
        assert!(rt; matches!(&answer, Err(FetchFault::Malformed)), "{reply:?}");
    }
    let mut server = answers(rt.alloc(), &[(b"\x60\x5f\x00\x07", b"")])?;
    let answer = fetched(&mut server, Method::Put, "/p/1", &[7; 100]);
    assert!(rt; matches!(&answer, Err(FetchFault::Malformed)));
    Ok(())
}

// An error response to the first block ends the fetch with that code, and no other block is sent.
#[test]
fn a_refused_block_ends_it(rt: HostRuntime) -> Result<(), Fail> {
    let mut server = follows(rt.alloc());
    comes(&mut server, b"\x60\xa3\x00\x07", &[])?;
    let answer = fetched(&mut server, Method::Put, "/p/1", &[7; 1025])?;
    assert!(rt; answer.code.byte == 0xa3 && answer.body.is_empty() && server.sent.len() == 1);
    Ok(())
}

// A response of two blocks takes two requests, and its body has the bytes of both blocks.
#[test]
fn a_large_answer_comes_by_blocks(rt: HostRuntime) -> Result<(), Fail> {
    let mut server = follows(rt.alloc());
    let tag = b"\x48\x00\x00\x00\x00\x00\x00\x00\x02\xd1\x06";
    let first = joined(rt.alloc(), b"\x60\x45\x00\x07", tag)?;
    let first = joined(rt.alloc(), &first, b"\x0e\xff")?;
    comes(&mut server, &first, &[8; 1024])?;
    let second = joined(rt.alloc(), b"\x60\x45\x00\x08", tag)?;
    let second = joined(rt.alloc(), &second, b"\x16\xff")?;
    comes(&mut server, &second, &[9; 76])?;
    let answer = fetched(&mut server, Method::Get, "/r/1", b"ask")?;
    assert!(rt; answer.code.byte == 0x45 && answer.body.len() == 1100);
    assert!(rt; answer.body.starts_with(&[8; 1024]) && answer.body.ends_with(&[9; 76]));
    check_sent(
        &rt,
        &server,
        0,
        b"\x40\x01\x00\x07\xb1\x72\x01\x31\xff",
        b"ask",
    );
    check_sent(
        &rt,
        &server,
        1,
        b"\x40\x01\x00\x08\xb1\x72\x01\x31\xc1\x16\xff",
        b"ask",
    );
    Ok(())
}

// If the ETag changes between two blocks of the response, a GET is sent again for the first block,
// and a POST ends with `Changed`.
#[test]
fn an_answer_that_changes_is_asked_for_anew(rt: HostRuntime) -> Result<(), Fail> {
    let begun: (&[u8], &[u8]) = (b"\x60\x45\x00\x07\x41\x02\xd1\x06\x0e\xff", &[8; 1024]);
    let changed: (&[u8], &[u8]) = (b"\x60\x45\x00\x08\x41\x03\xd1\x06\x16\xff", b"rest");
    let anew: (&[u8], &[u8]) = (b"\x60\x45\x00\x09\x41\x03\xff", b"new");
    let mut server = answers(rt.alloc(), &[begun, changed, anew])?;
    let answer = fetched(&mut server, Method::Get, "/r/1", &[])?;
    assert!(rt; answer.code.byte == 0x45 && answer.body.as_slice() == b"new".as_slice());
    check_sent(&rt, &server, 2, b"\x40\x01\x00\x09\xb1\x72\x01\x31", &[]);
    let mut server = answers(rt.alloc(), &[begun, changed])?;
    let answer = fetched(&mut server, Method::Post, "/r/1", &[]);
    assert!(rt; matches!(&answer, Err(FetchFault::Changed)) && server.sent.len() == 2);
    Ok(())
}

// If the ETag changes again after the GET was sent again, the fetch ends with `Changed`.
#[test]
fn an_answer_that_changes_twice_is_a_fault(rt: HostRuntime) -> Result<(), Fail> {
    let mut server = answers(
        rt.alloc(),
        &[
            (b"\x60\x45\x00\x07\x41\x02\xd1\x06\x0e\xff", &[8; 1024]),
            (b"\x60\x45\x00\x08\x41\x03\xd1\x06\x16\xff", b"rest"),
            (b"\x60\x45\x00\x09\x41\x03\xd1\x06\x0e\xff", &[8; 1024]),
            (b"\x60\x45\x00\x0a\x41\x04\xd1\x06\x16\xff", b"rest"),
        ],
    )?;
    let answer = fetched(&mut server, Method::Get, "/r/1", &[]);
    assert!(rt; matches!(&answer, Err(FetchFault::Changed)) && server.sent.len() == 4);
    Ok(())
}

// An error response to the request for a further block ends the fetch with that code, although the
// response has no ETag.
#[test]
fn a_refused_further_block_ends_it(rt: HostRuntime) -> Result<(), Fail> {
    let mut server = answers(
        rt.alloc(),
        &[
            (b"\x60\x45\x00\x07\x41\x02\xd1\x06\x0e\xff", &[8; 1024]),
            (b"\x60\xa3\x00\x08", b""),
        ],
    )?;
    let answer = fetched(&mut server, Method::Get, "/r/1", &[])?;
    assert!(rt; answer.code.byte == 0xa3 && answer.body.is_empty());
    Ok(())
}

// A request without a response is sent again after 2 and 4 seconds. Messages that don't match the
// request are ignored.
#[test]
fn a_request_is_sent_again(rt: HostRuntime) -> Result<(), Fail> {
    let mut server = follows(rt.alloc());
    comes(&mut server, &[], &[])?;
    // Messages that don't match: with another message ID, with a token, not an acknowledgement,
    // malformed, and an acknowledgement of another request.
    comes(&mut server, b"\x60\x45\x00\x06", &[])?;
    comes(&mut server, b"\x61\x45\x00\x07\x01", &[])?;
    comes(&mut server, b"\x50\x45\x00\x07", &[])?;
    comes(&mut server, b"\x60\x45\x00\x07\xff", &[])?;
    comes(&mut server, b"\x60\x00\x00\x06", &[])?;
    comes(&mut server, &[], &[])?;
    comes(&mut server, b"\x60\x84\x00\x07", &[])?;
    let answer = fetched(&mut server, Method::Delete, "/p/1", &[])?;
    assert!(rt; answer.code.byte == 0x84 && server.waits.as_slice() == [2, 4, 8].as_slice());
    check_sent(&rt, &server, 2, b"\x40\x04\x00\x07\xb1\x70\x01\x31", &[]);
    Ok(())
}

// Without a response the fetch ends with `Silence`, after waits of 2, 4, 8, 16 and 32 seconds. A
// Reset message ends a fetch with `Rejected`.
#[test]
fn silence_and_a_reset_end_it(rt: HostRuntime) -> Result<(), Fail> {
    let mut silent = follows(rt.alloc());
    let answer = fetched(&mut silent, Method::Post, "/r/1", &[]);
    assert!(rt; matches!(&answer, Err(FetchFault::Silence)));
    assert!(rt; silent.waits.as_slice() == [2, 4, 8, 16, 32].as_slice());
    let mut server = follows(rt.alloc());
    comes(&mut server, b"\x70\x00\x00\x07", &[])?;
    let answer = fetched(&mut server, Method::Post, "/r/1", &[]);
    assert!(rt; matches!(&answer, Err(FetchFault::Rejected)));
    Ok(())
}

// A path has a slash before each segment, and a segment has 1 to 255 bytes. The error has the
// number of the first segment that breaks this.
#[test]
fn paths_are_read(rt: HostRuntime) -> Result<(), Fail> {
    let path = Path::parse(rt.alloc(), b"/.well-known/core")?;
    assert!(rt; path.segments.len() == 2 && path.segments[1] == b"core".as_slice());
    let long = joined(rt.alloc(), b"/r/", &[b'x'; 256])?;
    let texts: [(&[u8], PathError); 5] = [
        (b"/", PathError::Empty(1)),
        (b"r/1", PathError::NoSlash),
        (b"/r//1", PathError::Empty(2)),
        (b"/r/1/", PathError::Empty(3)),
        (&long, PathError::Long(2)),
    ];
    for (text, error) in texts {
        assert!(rt;
            Path::parse(rt.alloc(), text).err() == Some(error),
            "{text:?}"
        );
    }
    Ok(())
}
