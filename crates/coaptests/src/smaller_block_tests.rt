//! A server that names a smaller block size: the client continues in that size.
//!
//! See RFC 7959, sections 2.3 to 2.5.
use crate::scripted::{answers, check_sent, fetched};
use coap_client::FetchFault;
use coap_opts::Method;
use std::test::Fail;

// The first block of a body has 1,024 bytes. If the server then requests blocks of 64 bytes, the
// next block is number 16 of that size.
#[test]
fn a_body_goes_on_in_smaller_blocks(rt: HostRuntime) -> Result<(), Fail> {
    let mut server = answers(
        rt.alloc(),
        &[
            (b"\x60\x5f\x00\x07\xd1\x0e\x0a", b""),
            (b"\x60\x5f\x00\x08\xd2\x0e\x01\x0a", b""),
            (b"\x60\x44\x00\x09\xd2\x0e\x01\x12", b""),
        ],
    )?;
    let answer = fetched(&mut server, Method::Put, "/p/1", &[7; 1100])?;
    assert!(rt; answer.code.byte == 0x44 && server.sent.len() == 3);
    check_sent(
        &rt,
        &server,
        0,
        b"\x40\x03\x00\x07\xb1\x70\x01\x31\xd1\x03\x0e\xff",
        &[7; 1024],
    );
    check_sent(
        &rt,
        &server,
        1,
        b"\x40\x03\x00\x08\xb1\x70\x01\x31\xd2\x03\x01\x0a\xff",
        &[7; 64],
    );
    check_sent(
        &rt,
        &server,
        2,
        b"\x40\x03\x00\x09\xb1\x70\x01\x31\xd2\x03\x01\x12\xff",
        &[7; 12],
    );
    Ok(())
}

// If the server requests smaller blocks twice, the client does so too. It sends block 0 of 1,024
// bytes, blocks 2 and 3 of 512, and block 128 of 16.
#[test]
fn a_body_goes_on_in_ever_smaller_blocks(rt: HostRuntime) -> Result<(), Fail> {
    let mut server = answers(
        rt.alloc(),
        &[
            (b"\x60\x5f\x00\x07\xd1\x0e\x0d", b""),
            (b"\x60\x5f\x00\x08\xd1\x0e\x2d", b""),
            (b"\x60\x44\x00\x09\xd1\x0e\x30", b""),
            (b"\x60\x44\x00\x0a\xd2\x0e\x08\x00", b""),
        ],
    )?;
    let answer = fetched(&mut server, Method::Put, "/p/1", &[7; 2050])?;
    assert!(rt; answer.code.byte == 0x44 && server.sent.len() == 4);
    check_sent(
        &rt,
        &server,
        2,
        b"\x40\x03\x00\x09\xb1\x70\x01\x31\xd1\x03\x3d\xff",
        &[7; 512],
    );
    check_sent(
        &rt,
        &server,
        3,
        b"\x40\x03\x00\x0a\xb1\x70\x01\x31\xd2\x03\x08\x00\xff",
        &[7; 2],
    );
    Ok(())
}

// A response of 74 bytes, whose first block has 64 bytes, is fetched in blocks of 64 bytes.
#[test]
fn an_answer_comes_in_smaller_blocks(rt: HostRuntime) -> Result<(), Fail> {
    let mut server = answers(
        rt.alloc(),
        &[
            (b"\x60\x45\x00\x07\xd1\x0a\x0a\xff", &[8; 64]),
            (b"\x60\x45\x00\x08\xd1\x0a\x12\xff", &[9; 10]),
        ],
    )?;
    let answer = fetched(&mut server, Method::Get, "/r/1", &[])?;
    assert!(rt;
        answer.body.len() == 74
            && answer.body.starts_with(&[8; 64])
            && answer.body.ends_with(&[9; 10])
    );
    check_sent(
        &rt,
        &server,
        1,
        b"\x40\x01\x00\x08\xb1\x72\x01\x31\xc1\x12",
        &[],
    );
    Ok(())
}

// The client requests block 1 of 1,024 bytes, the server responds with block 16 of 64 bytes, and
// the client requests block 17.
#[test]
fn an_answer_goes_on_in_smaller_blocks(rt: HostRuntime) -> Result<(), Fail> {
    let mut server = answers(
        rt.alloc(),
        &[
            (b"\x60\x45\x00\x07\xd1\x0a\x0e\xff", &[8; 1024]),
            (b"\x60\x45\x00\x08\xd2\x0a\x01\x0a\xff", &[9; 64]),
            (b"\x60\x45\x00\x09\xd2\x0a\x01\x12\xff", b"end"),
        ],
    )?;
    let answer = fetched(&mut server, Method::Get, "/r/1", &[])?;
    assert!(rt; answer.body.len() == 1091 && answer.body.ends_with(b"end"));
    check_sent(
        &rt,
        &server,
        2,
        b"\x40\x01\x00\x09\xb1\x72\x01\x31\xc2\x01\x12",
        &[],
    );
    Ok(())
}

// Responses to a request for block 1 of 64 bytes. They have a larger block, a block that begins
// elsewhere, a short block that isn't the last, and a last block longer than its size.
static NOT_THE_NEXT: [&[u8]; 4] = [
    b"\x60\x45\x00\x08\xd1\x0a\x03\xff\x01",
    b"\x60\x45\x00\x08\xd1\x0a\x22\xff\x01",
    b"\x60\x45\x00\x08\xd1\x0a\x1a\xff\x01",
    b"\x60\x45\x00\x08\xd1\x0a\x40\xff0123456789abcdefg",
];

// A response that isn't the requested block ends the fetch as malformed.
#[test]
fn a_block_that_was_not_asked_for_is_a_fault(rt: HostRuntime) -> Result<(), Fail> {
    for reply in NOT_THE_NEXT.iter().copied() {
        let mut server = answers(
            rt.alloc(),
            &[
                (b"\x60\x45\x00\x07\xd1\x0a\x0a\xff", &[8; 64]),
                (reply, b""),
            ],
        )?;
        let answer = fetched(&mut server, Method::Get, "/r/1", &[]);
        assert!(rt; matches!(&answer, Err(FetchFault::Malformed)), "{reply:?}");
    }
    Ok(())
}
