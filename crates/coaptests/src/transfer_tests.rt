//! Uploads, and cuts of response bodies.
//!
//! The expected results follow from RFC 7959 and the server's own limits.
use coap_block::{Added, PastEnd, Uploads, slice};
use coap_msg::Endpoint;
use coap_opts::Block;
use std::process::Abort;
use std::test::Fail;

// The bytes of which each payload has the first ones.
static BYTES: [u8; 1024] = [7; 1024];

/// The result of adding a payload; for a complete body it has the body's length.
#[derive(Clone, Copy, Debug, PartialEq, Eq)]
enum Answer {
    Continue,
    Whole(usize),
    Incomplete,
    BadLength,
    TooLarge,
    Full,
}

/// The addition of a payload, and the expected result.
///
/// The addition has a time in milliseconds, the port of an endpoint, a slot, the value of Block1,
/// and the payload's length.
type Step = (u64, u16, u8, Option<&'static [u8]>, usize, Answer);

// Returns the result of an addition, with the length of a complete body.
fn answer_of(added: &Added) -> Answer {
    match added {
        Added::Continue => Answer::Continue,
        Added::Whole(body) => Answer::Whole(body.len()),
        Added::Incomplete => Answer::Incomplete,
        Added::BadLength => Answer::BadLength,
        Added::TooLarge => Answer::TooLarge,
        Added::Full => Answer::Full,
    }
}

// Returns the endpoint with this port.
fn peer(port: u16) -> Endpoint {
    Endpoint {
        ip: [192, 0, 2, 1],
        port,
    }
}

// Returns the block of an option's value, or `None` if the value has more than three bytes.
fn block(value: &[u8]) -> Option<Block> {
    if value.len() > 3 {
        return None;
    }
    Some(Block::read(value))
}

// Makes these additions in order, and checks the result of each.
fn check_steps(rt: &impl Abort, uploads: &mut Uploads, steps: &[Step]) {
    for (at, port, slot, value, length, wanted) in steps {
        check_step(rt, uploads, (*at, *port, *slot, *value, *length, *wanted));
    }
}

// Makes an addition, and checks the result.
fn check_step(rt: &impl Abort, uploads: &mut Uploads, step: Step) {
    let (at, port, slot, value, length, wanted) = step;
    let block1 = match value {
        Some(value) => block(value),
        None => None,
    };
    let payload = BYTES.get(..length).unwrap_or(&[]);
    let added = uploads.add(at, peer(port), slot, block1, payload);
    assert!(rt;
        answer_of(&added) == wanted,
        "at {at}, slot {slot}: {value:?}"
    );
}

// The largest body has eight blocks of 1,024 bytes and a last one of 16. With a last block of 17
// bytes it is too large, and the transfer is removed.
static BOUND: [Step; 20] = [
    (0, 1, 2, Some(b"\x0e"), 1024, Answer::Continue),
    (1, 1, 2, Some(b"\x1e"), 1024, Answer::Continue),
    (2, 1, 2, Some(b"\x2e"), 1024, Answer::Continue),
    (3, 1, 2, Some(b"\x3e"), 1024, Answer::Continue),
    (4, 1, 2, Some(b"\x4e"), 1024, Answer::Continue),
    (5, 1, 2, Some(b"\x5e"), 1024, Answer::Continue),
    (6, 1, 2, Some(b"\x6e"), 1024, Answer::Continue),
    (7, 1, 2, Some(b"\x7e"), 1024, Answer::Continue),
    (8, 1, 2, Some(b"\x86"), 16, Answer::Whole(8208)),
    (9, 1, 2, Some(b"\x86"), 16, Answer::Incomplete),
    (10, 1, 2, Some(b"\x0e"), 1024, Answer::Continue),
    (11, 1, 2, Some(b"\x1e"), 1024, Answer::Continue),
    (12, 1, 2, Some(b"\x2e"), 1024, Answer::Continue),
    (13, 1, 2, Some(b"\x3e"), 1024, Answer::Continue),
    (14, 1, 2, Some(b"\x4e"), 1024, Answer::Continue),
    (15, 1, 2, Some(b"\x5e"), 1024, Answer::Continue),
    (16, 1, 2, Some(b"\x6e"), 1024, Answer::Continue),
    (17, 1, 2, Some(b"\x7e"), 1024, Answer::Continue),
    (18, 1, 2, Some(b"\x86"), 17, Answer::TooLarge),
    (19, 1, 2, Some(b"\x86"), 16, Answer::Incomplete),
];

// Additions out of order, of wrong lengths, and to several transfers.
static ORDER: [Step; 26] = [
    // Blocks of 64 bytes: number 2 doesn't follow number 0, and the transfer is removed.
    (0, 1, 2, Some(b"\x0a"), 64, Answer::Continue),
    (0, 1, 2, Some(b"\x2a"), 64, Answer::Incomplete),
    (0, 1, 2, Some(b"\x1a"), 64, Answer::Incomplete),
    // Number 0 again begins a new transfer.
    (0, 1, 2, Some(b"\x0a"), 64, Answer::Continue),
    (0, 1, 2, Some(b"\x1a"), 64, Answer::Continue),
    (0, 1, 2, Some(b"\x0a"), 64, Answer::Continue),
    (0, 1, 2, Some(b"\x12"), 5, Answer::Whole(69)),
    // Payloads whose length differs from the block size, with more to follow; and a last payload
    // that is longer than the block size.
    (0, 1, 2, Some(b"\x0a"), 63, Answer::BadLength),
    (0, 1, 2, Some(b"\x0a"), 65, Answer::BadLength),
    (0, 1, 2, Some(b"\x02"), 65, Answer::BadLength),
    (0, 1, 2, Some(b"\x02"), 64, Answer::Whole(64)),
    (0, 1, 2, Some(b""), 16, Answer::Whole(16)),
    (0, 1, 2, Some(b""), 0, Answer::Whole(0)),
    (0, 1, 2, Some(b"\x0a"), 64, Answer::Continue),
    (0, 1, 2, Some(b"\x12"), 65, Answer::BadLength),
    (0, 1, 2, Some(b"\x12"), 64, Answer::Incomplete),
    // A refused start ends the transfer before it.
    (0, 1, 2, Some(b"\x0a"), 64, Answer::Continue),
    (0, 1, 2, Some(b"\x0a"), 63, Answer::BadLength),
    (0, 1, 2, Some(b"\x12"), 64, Answer::Incomplete),
    // Without Block1 the payload is the complete body, and a transfer continues.
    (0, 1, 2, Some(b"\x0e"), 1024, Answer::Continue),
    (0, 1, 2, None, 10, Answer::Whole(10)),
    // Another endpoint and another slot have transfers of their own.
    (0, 2, 2, Some(b"\x16"), 5, Answer::Incomplete),
    (0, 1, 3, Some(b"\x16"), 5, Answer::Incomplete),
    // The size may change: number 16 of 64 bytes begins at 1,024 too.
    (0, 1, 2, Some(b"\x01\x0a"), 64, Answer::Continue),
    (0, 1, 2, Some(b"\x01\x12"), 1, Answer::Whole(1089)),
    (0, 1, 2, None, 0, Answer::Whole(0)),
];

// A transfer is removed once it has been idle for 247,000 ms.
static IDLE: [Step; 4] = [
    (1000, 1, 2, Some(b"\x0a"), 64, Answer::Continue),
    (247_999, 1, 2, Some(b"\x1a"), 64, Answer::Continue),
    (494_998, 1, 2, Some(b"\x2a"), 64, Answer::Continue),
    (741_998, 1, 2, Some(b"\x3a"), 64, Answer::Incomplete),
];

// Each addition has the result of its row.
#[test]
fn payloads_are_answered(rt: HostRuntime) -> Result<(), Fail> {
    for steps in [BOUND.as_slice(), ORDER.as_slice(), IDLE.as_slice()] {
        let mut uploads = Uploads::new(rt.alloc())?;
        check_steps(&rt, &mut uploads, steps);
    }
    Ok(())
}

// While 16 transfers are in progress, the start of another one is refused before any other check.
// One of the 16 may begin again, and those that were idle for 247,000 ms are removed.
static CROWD: [Step; 9] = [
    (5, 1, 16, Some(b"\x0a"), 64, Answer::Full),
    (5, 1, 16, Some(b"\x0a"), 63, Answer::Full),
    (5, 1, 16, Some(b"\x02"), 5, Answer::Full),
    (5, 1, 16, Some(b"\x1a"), 64, Answer::Incomplete),
    (5, 1, 16, None, 64, Answer::Whole(64)),
    (5, 1, 3, Some(b"\x0a"), 64, Answer::Continue),
    (246_999, 1, 16, Some(b"\x0a"), 64, Answer::Full),
    (247_000, 1, 16, Some(b"\x0a"), 64, Answer::Continue),
    (247_000, 1, 3, Some(b"\x12"), 1, Answer::Whole(65)),
];

// After the starts of 16 transfers, each addition of `CROWD` has the result of its row.
#[test]
fn a_17th_transfer_is_refused(rt: HostRuntime) -> Result<(), Fail> {
    let mut uploads = Uploads::new(rt.alloc())?;
    for slot in 0..16 {
        check_step(
            &rt,
            &mut uploads,
            (0, 1, slot, Some(b"\x0a"), 64, Answer::Continue),
        );
    }
    check_steps(&rt, &mut uploads, &CROWD);
    Ok(())
}

// A complete body has the payloads from one endpoint to one slot, in order.
#[test]
fn payloads_are_joined(rt: HostRuntime) -> Result<(), Fail> {
    let mut uploads = Uploads::new(rt.alloc())?;
    uploads.add(0, peer(1), 2, block(b"\x08"), b"sixteen bytes, 1");
    uploads.add(1, peer(2), 2, block(b"\x08"), b"sixteen bytes, x");
    uploads.add(2, peer(1), 2, block(b"\x18"), b"sixteen bytes, 2");
    let Added::Whole(body) = uploads.add(3, peer(1), 2, block(b"\x20"), b"end") else {
        panic!(rt; "whole")
    };
    assert!(rt; body.as_slice() == b"sixteen bytes, 1sixteen bytes, 2end".as_slice());
    Ok(())
}

// A body's length, the value of the requested Block2, and the expected cut: its start, its length,
// and the value of its Block2.
type Case = (
    usize,
    Option<&'static [u8]>,
    Result<(usize, usize, Option<&'static [u8]>), PastEnd>,
);

// Requests for cuts of bodies, each with the expected result.
static CUTS: [Case; 14] = [
    (1100, None, Ok((0, 1024, Some(b"\x0e")))),
    (1100, Some(b"\x06"), Ok((0, 1024, Some(b"\x0e")))),
    (1100, Some(b"\x16"), Ok((1024, 76, Some(b"\x16")))),
    // The M flag of a request has no effect.
    (1100, Some(b"\x1e"), Ok((1024, 76, Some(b"\x16")))),
    (1100, Some(b"\x26"), Err(PastEnd)),
    (1100, Some(b"\x12"), Ok((64, 64, Some(b"\x1a")))),
    // Up to 1,024 bytes are sent complete, unless a block is requested.
    (1024, None, Ok((0, 1024, None))),
    (1024, Some(b"\x06"), Ok((0, 1024, Some(b"\x06")))),
    (1024, Some(b"\x16"), Err(PastEnd)),
    (1025, None, Ok((0, 1024, Some(b"\x0e")))),
    (2048, Some(b"\x16"), Ok((1024, 1024, Some(b"\x16")))),
    // The first block of an empty body; the value 0 of Block2 has no bytes.
    (0, None, Ok((0, 0, None))),
    (0, Some(b""), Ok((0, 0, Some(b"")))),
    (0, Some(b"\x10"), Err(PastEnd)),
];

// Returns 2,048 bytes: 0 to 250, repeated.
fn body() -> [u8; 2048] {
    let mut bytes = [0; 2048];
    for i in 0..2048 {
        bytes[i] = (i % 251) as u8;
    }
    bytes
}

// Cuts a body of the first `length` bytes, and checks the result.
fn check_cut(rt: &impl Abort, bytes: &[u8; 2048], case: Case) {
    let (length, value, wanted) = case;
    let block2 = match value {
        Some(value) => block(value),
        None => None,
    };
    let cut = slice(bytes.get(..length).unwrap_or(&[]), block2);
    match (cut, wanted) {
        (Ok(cut), Ok((start, length, value))) => {
            let wanted = bytes.get(start..).unwrap_or(&[]).get(..length);
            assert!(rt; Some(cut.bytes) == wanted, "{value:?}");
            let answered = cut.block.map(|block| block.value());
            match (answered, value) {
                (Some(answered), Some(value)) => assert!(rt; answered.as_slice() == value),
                (answered, value) => assert!(rt; answered.is_none() && value.is_none()),
            }
        }
        (cut, wanted) => assert!(rt; cut.is_err() && wanted.is_err(), "{value:?}"),
    }
}

// Each cut of a body is that of its row.
#[test]
fn bodies_are_cut(rt: HostRuntime) {
    let bytes = body();
    for (length, value, wanted) in &CUTS {
        check_cut(&rt, &bytes, (*length, *value, *wanted));
    }
}
