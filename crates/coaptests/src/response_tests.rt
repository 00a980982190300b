//! Responses on the wire, byte by byte, by RFC 7252, RFC 7641 and RFC 7959.
ghost use Rattle.std.specs.Prelude.{◌<◌};

use coap_msg::{Code, Datagram, Emission, Endpoint};
use coap_opts::{Block, ReplyOptions};
use coap_reply::{BodyBlock, Envelope, content, ran, reply_kind, reset, respond, text};
use std::process::Abort;

// Returns the header data of a response with message ID 0x1234 and the token `q`. It is an
// acknowledgement if the request is confirmable.
fn envelope(confirmable: bool) -> Envelope<'static> {
    Envelope {
        to: Endpoint::default(),
        kind: reply_kind(confirmable),
        id: 0x1234,
        token: b"q",
    }
}

// Checks the bytes of a response.
fn check(rt: &impl Abort, bytes: &Datagram, wanted: &[u8]) {
    assert!(rt; bytes.as_slice() == wanted, "{bytes:?}");
}

// A body of 17 bytes: a block of 16 bytes, and a block of one.
static BODY: [u8; 17] = *b"sixteen bytes, 1!";

// Returns block `number` of the body, in blocks of 16 bytes, or `None` if there is no such block.
fn part(number: u32) -> Option<BodyBlock<'static>>
    requires { number < 8 }
{
    BodyBlock::cut(&BODY, Some(Block::new(number, false, 0)))
}

// The bytes of three responses. The first has an ETag, the second a text, and the third a
// Content-Format and the second block of the body.
#[test]
fn responses_are_spelled(rt: HostRuntime) {
    let mut bytes = Datagram::new();
    let version = ReplyOptions {
        etag: Some(1),
        ..ReplyOptions::default()
    };
    respond(&envelope(true), Code::VALID, version, b"", &mut bytes);
    check(&rt, &bytes, b"\x61\x43\x12\x34q\x48\0\0\0\0\0\0\0\x01");
    text(&envelope(false), Code::NOT_FOUND, b"no", &mut bytes);
    check(&rt, &bytes, b"\x51\x84\x12\x34q\xffno");
    let links = ReplyOptions {
        content_format: Some(40),
        ..ReplyOptions::default()
    };
    content(&envelope(true), links, &part(1), &mut bytes);
    check(&rt, &bytes, b"\x61\x45\x12\x34q\xc1\x28\xb1\x10\xff!");
}

// A Reset message is empty, and has the message ID of the message that it rejects.
#[test]
fn resets_are_empty(rt: HostRuntime) {
    let mut emission = Emission {
        to: Endpoint::default(),
        bytes: Datagram::new(),
    };
    let peer = Endpoint {
        ip: [192, 0, 2, 1],
        port: 5683,
    };
    reset(peer, 0x1234, &mut emission);
    assert!(rt; emission.to == peer);
    check(&rt, &emission.bytes, b"\x70\x00\x12\x34");
}

// A serial, whether the client observes the slot, and the options of a 2.05 (Content): the ETag,
// and an Observe with 0 to 3 bytes.
static VERSIONS: [(u64, bool, &[u8]); 5] = [
    (
        16_777_215,
        true,
        b"\x48\0\0\0\0\0\xff\xff\xff\x23\xff\xff\xff",
    ),
    (16_777_216, true, b"\x48\0\0\0\0\x01\0\0\0\x20"),
    (16_777_217, true, b"\x48\0\0\0\0\x01\0\0\x01\x21\x01"),
    (16_777_217, false, b"\x48\0\0\0\0\x01\0\0\x01"),
    (4_294_967_552, true, b"\x48\0\0\0\x01\0\0\x01\0\x22\x01\0"),
];

// The ETag is the whole serial, and Observe is the serial modulo 2^24.
#[test]
fn sequence_numbers_have_24_bits(rt: HostRuntime) {
    let mut bytes = Datagram::new();
    let block = BodyBlock::cut(b"", None);
    for (serial, observed, options) in &VERSIONS {
        ran(
            &envelope(false),
            Code::CONTENT,
            &block,
            *serial,
            *observed,
            &mut bytes,
        );
        assert!(rt; bytes.get(..5) == Some(b"\x51\x45\x12\x34q".as_slice()));
        assert!(rt; bytes.get(5..) == Some(*options), "{bytes:?}");
    }
}

// A 2.05 to an observer has ETag, Observe and Block2. A 2.04 has none of these, and a 4.03 has no
// payload either. A block that doesn't exist gets 4.00.
#[test]
fn observed_runs_are_answered(rt: HostRuntime) {
    let mut bytes = Datagram::new();
    ran(
        &envelope(true),
        Code::CONTENT,
        &part(0),
        2,
        true,
        &mut bytes,
    );
    check(
        &rt,
        &bytes,
        b"\x61\x45\x12\x34q\x48\0\0\0\0\0\0\0\x02\x21\x02\xd1\x04\x08\xffsixteen bytes, 1",
    );
    ran(
        &envelope(true),
        Code::CHANGED,
        &part(1),
        2,
        true,
        &mut bytes,
    );
    check(&rt, &bytes, b"\x61\x44\x12\x34q\xff!");
    ran(
        &envelope(true),
        Code::FORBIDDEN,
        &part(1),
        2,
        true,
        &mut bytes,
    );
    check(&rt, &bytes, b"\x61\x83\x12\x34q");
    ran(
        &envelope(true),
        Code::CONTENT,
        &part(2),
        2,
        true,
        &mut bytes,
    );
    check(&rt, &bytes, b"\x61\x80\x12\x34q");
}
