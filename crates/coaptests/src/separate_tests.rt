//! Separate responses (RFC 7252, sections 5.2.2 and 5.2.3).
use crate::scripted::{answers, asked, check_sent, fetched};
use coap_client::FetchFault;
use coap_opts::Method;
use std::test::Fail;

// After an empty acknowledgement, a confirmable response ends the fetch, and is acknowledged.
#[test]
fn a_confirmable_response_is_acknowledged(rt: HostRuntime) -> Result<(), Fail> {
    let mut server = answers(
        rt.alloc(),
        &[
            (b"\x60\x00\x00\x07", b""),
            (b"\x40\x45\x12\x34\xff", b"late"),
        ],
    )?;
    let answer = fetched(&mut server, Method::Get, "/r/1", &[])?;
    assert!(rt; answer.code.byte == 0x45 && answer.body.as_slice() == b"late".as_slice());
    assert!(rt; server.sent.len() == 2 && server.waits.as_slice() == [2, 93].as_slice());
    check_sent(&rt, &server, 1, b"\x60\x00\x12\x34", &[]);
    Ok(())
}

// After an empty acknowledgement, a non-confirmable response ends the fetch. It isn't acknowledged.
#[test]
fn a_non_confirmable_response_is_taken(rt: HostRuntime) -> Result<(), Fail> {
    let mut server = answers(
        rt.alloc(),
        &[(b"\x60\x00\x00\x07", b""), (b"\x50\x84\x12\x34", b"")],
    )?;
    let answer = fetched(&mut server, Method::Get, "/r/1", &[])?;
    assert!(rt; answer.code.byte == 0x84 && server.sent.len() == 1);
    Ok(())
}

// A request that was acknowledged isn't sent again. Without a response the fetch ends with
// `Silence` after a wait of 93 seconds.
#[test]
fn an_acknowledged_request_is_not_sent_again(rt: HostRuntime) -> Result<(), Fail> {
    let mut server = answers(rt.alloc(), &[(b"", b""), (b"\x60\x00\x00\x07", b"")])?;
    let answer = fetched(&mut server, Method::Get, "/r/1", &[]);
    assert!(rt; matches!(&answer, Err(FetchFault::Silence)));
    assert!(rt; server.sent.len() == 2 && server.waits.as_slice() == [2, 4, 93].as_slice());
    Ok(())
}

// A duplicate of the response to the first block is acknowledged again. It isn't accepted as the
// response to the second block.
#[test]
fn a_response_that_comes_again_answers_nothing(rt: HostRuntime) -> Result<(), Fail> {
    let first: (&[u8], &[u8]) = (b"\x40\x5f\x00\x01\xd1\x0e\x0e", b"");
    let mut server = answers(
        rt.alloc(),
        &[
            (b"\x60\x00\x00\x07", b""),
            first,
            first,
            (b"\x60\x00\x00\x08", b""),
            first,
            (b"\x40\x44\x00\x02\xd1\x0e\x16", b""),
        ],
    )?;
    let answer = fetched(&mut server, Method::Put, "/p/1", &[7; 1500])?;
    assert!(rt; answer.code.byte == 0x44 && server.sent.len() == 6);
    for place in [1, 3, 4] {
        check_sent(&rt, &server, place, b"\x60\x00\x00\x01", &[]);
    }
    check_sent(&rt, &server, 5, b"\x60\x00\x00\x02", &[]);
    Ok(())
}

// A response in a message of its own is ignored before the request was acknowledged, since the
// response may belong to another request.
#[test]
fn a_response_before_the_acknowledgement_is_passed_over(rt: HostRuntime) -> Result<(), Fail> {
    let mut server = answers(
        rt.alloc(),
        &[
            (b"\x50\x45\x12\x34\xff", b"other"),
            (b"\x60\x45\x00\x07\xff", b"own"),
        ],
    )?;
    let answer = fetched(&mut server, Method::Get, "/r/1", &[])?;
    assert!(rt; answer.body.as_slice() == b"own".as_slice() && server.sent.len() == 1);
    Ok(())
}

// A non-confirmable request is sent once. Without a response the fetch ends with `Silence` after a
// wait of 32 seconds.
#[test]
fn a_non_confirmable_request_goes_once(rt: HostRuntime) -> Result<(), Fail> {
    let mut server = answers(rt.alloc(), &[(b"\x50\x45\x12\x34\xff", b"now")])?;
    let answer = asked(&mut server, false, Method::Get, "/r/1", &[])?;
    assert!(rt; answer.body.as_slice() == b"now".as_slice());
    check_sent(&rt, &server, 0, b"\x50\x01\x00\x07\xb1\x72\x01\x31", &[]);
    let mut silent = answers(rt.alloc(), &[])?;
    let answer = asked(&mut silent, false, Method::Get, "/r/1", &[]);
    assert!(rt; matches!(&answer, Err(FetchFault::Silence)));
    assert!(rt; silent.sent.len() == 1 && silent.waits.as_slice() == [32].as_slice());
    Ok(())
}
