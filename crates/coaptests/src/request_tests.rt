//! Datagrams with their classification, from the server's own tables.
//!
//! The values are those of RFC 7252, 7641 and 7959.
use coap_msg::{Code, Datagram, MessageType, read};
use coap_opts::{
    Asking, Block, Classified, Reply, ReplyOptions, Request, classify, decode_uint, encode_uint,
};
use std::process::Abort;

/// The classification of a datagram.
#[derive(Clone, Copy, PartialEq)]
enum Outcome {
    Unread,
    Accepted,
    Refused(Code),
    Silent,
    Rejected,
    Acknowledged,
    Undone,
    Ignored,
}

const BAD_REQUEST: Outcome = Outcome::Refused(Code::BAD_REQUEST);

const BAD_OPTION: Outcome = Outcome::Refused(Code::BAD_OPTION);

const NOT_FOUND: Outcome = Outcome::Refused(Code::NOT_FOUND);

const METHOD_NOT_ALLOWED: Outcome = Outcome::Refused(Code::METHOD_NOT_ALLOWED);

const TOO_LARGE: Outcome = Outcome::Refused(Code::REQUEST_ENTITY_TOO_LARGE);

const PROXYING_NOT_SUPPORTED: Outcome = Outcome::Refused(Code::PROXYING_NOT_SUPPORTED);

// Returns the classification of a datagram, or `Unread` if it is no message.
fn outcome_of(bytes: &[u8]) -> Outcome {
    let Ok(message) = read(bytes) else {
        return Outcome::Unread;
    };
    match classify(&message) {
        Classified::Request(Asking::Serve(_)) => Outcome::Accepted,
        Classified::Request(Asking::Refuse(code)) => Outcome::Refused(code),
        Classified::Request(Asking::Silent) => Outcome::Silent,
        Classified::Reset => Outcome::Rejected,
        Classified::Signal { reset: false } => Outcome::Acknowledged,
        Classified::Signal { reset: true } => Outcome::Undone,
        Classified::Ignored => Outcome::Ignored,
    }
}

// Checks the classification of a datagram.
fn check_outcome(rt: &impl Abort, bytes: &[u8], wanted: Outcome) {
    assert!(rt; outcome_of(bytes) == wanted, "{bytes:?}");
}

// Checks the classification of each datagram.
fn check_outcomes(rt: &impl Abort, cases: &[(&[u8], Outcome)]) {
    for (bytes, wanted) in cases {
        check_outcome(rt, bytes, *wanted);
    }
}

/// Returns the request of a datagram, or `None` if it isn't an accepted request.
fn request_of(bytes: &[u8]) -> Option<Request<'_>> {
    let message = read(bytes).ok()?;
    match classify(&message) {
        Classified::Request(Asking::Serve(request)) => Some(request),
        _ => None,
    }
}

// Messages with various types, codes and methods, each with its classification.
static TYPE_CASES: [(&[u8], Outcome); 17] = [
    // Empty messages.
    (b"\x40\x00\x00\x07", Outcome::Rejected),
    (b"\x50\x00\x00\x07", Outcome::Ignored),
    (b"\x60\x00\x00\x07", Outcome::Acknowledged),
    (b"\x70\x00\x00\x07", Outcome::Undone),
    // Responses and reserved classes.
    (b"\x40\x45\x00\x07", Outcome::Rejected),
    (b"\x50\x45\x00\x07", Outcome::Ignored),
    (b"\x60\x45\x00\x07", Outcome::Ignored),
    (b"\x70\x01\x00\x07", Outcome::Ignored),
    // Each method at resources that allow it, and at others.
    (b"\x40\x01\x00\x01\xb1\x72\x01\x30", Outcome::Accepted),
    (b"\x50\x03\x00\x01\xb1\x70\x02\x36\x33", Outcome::Accepted),
    (b"\x40\x02\x00\x01\xb1\x72\x01\x30", Outcome::Accepted),
    (b"\x40\x02\x00\x01\xb1\x70\x01\x30", METHOD_NOT_ALLOWED),
    (b"\x40\x04\x00\x01\xb1\x70\x01\x30", Outcome::Accepted),
    (b"\x40\x04\x00\x01\xb1\x72\x01\x30", METHOD_NOT_ALLOWED),
    (b"\x40\x03\x00\x01\xb1\x72\x01\x30", METHOD_NOT_ALLOWED),
    (b"\x40\x01\x00\x01\xb1\x70\x01\x30", Outcome::Accepted),
    (b"\x40\x05\x00\x0e\xb1\x70\x01\x30", METHOD_NOT_ALLOWED),
];

// Requests with various paths, each with its classification.
static PATH_CASES: [(&[u8], Outcome); 7] = [
    // `/r/00`, `/r/64`, `/r`, `/r/0/0`, `/x/0`.
    (b"\x40\x01\x00\x0f\xb1\x72\x02\x30\x30", NOT_FOUND),
    (b"\x40\x01\x00\x0f\xb1\x72\x02\x36\x34", NOT_FOUND),
    (b"\x40\x01\x00\x0f\xb1\x72", NOT_FOUND),
    (b"\x40\x01\x00\x0f\xb1\x72\x01\x30\x01\x30", NOT_FOUND),
    (b"\x40\x01\x00\x0f\xb1\x78\x01\x30", NOT_FOUND),
    // `/.well-known/core`, and a POST of it.
    (
        b"\x40\x01\x00\x0b\xbb\x2e\x77\x65\x6c\x6c\x2d\x6b\x6e\x6f\x77\x6e\x04\x63\x6f\x72\x65",
        Outcome::Accepted,
    ),
    (
        b"\x40\x02\x00\x0b\xbb\x2e\x77\x65\x6c\x6c\x2d\x6b\x6e\x6f\x77\x6e\x04\x63\x6f\x72\x65",
        METHOD_NOT_ALLOWED,
    ),
];

// Requests with various critical options, each with its classification.
static CRITICAL_CASES: [(&[u8], Outcome); 13] = [
    // If-Match, and Accept after the path.
    (b"\x40\x01\x00\x0d\x10\xa1\x72\x01\x30", BAD_OPTION),
    (b"\x40\x01\x00\x09\xb1\x72\x01\x30\x60", BAD_OPTION),
    (b"\x50\x01\x00\x09\xb1\x72\x01\x30\x60", Outcome::Silent),
    // Uri-Host is ignored; without a byte it isn't recognised, and neither is a second one.
    (
        b"\x40\x01\x00\x10\x31\x61\x81\x72\x01\x30",
        Outcome::Accepted,
    ),
    (b"\x40\x01\x00\x10\x30\x81\x72\x01\x30", BAD_OPTION),
    (
        b"\x40\x01\x00\x10\x31\x61\x01\x61\x81\x72\x01\x30",
        BAD_OPTION,
    ),
    // Uri-Port of two bytes, and of three.
    (
        b"\x40\x01\x00\x10\x72\x16\x33\x41\x72\x01\x30",
        Outcome::Accepted,
    ),
    (
        b"\x40\x01\x00\x10\x73\x00\x16\x33\x41\x72\x01\x30",
        BAD_OPTION,
    ),
    // Proxy-Scheme takes precedence over an unrecognised option and an unknown path; without a byte
    // it isn't recognised.
    (b"\x40\x01\x00\x10\xd1\x1a\x61", PROXYING_NOT_SUPPORTED),
    (b"\x40\x01\x00\x10\x10\xd1\x19\x61", PROXYING_NOT_SUPPORTED),
    (b"\x40\x01\x00\x10\xd0\x1a", BAD_OPTION),
    // Proxy-Uri, once and twice.
    (b"\x40\x01\x00\x10\xd1\x16\x61", PROXYING_NOT_SUPPORTED),
    (
        b"\x40\x01\x00\x10\xd1\x16\x61\x01\x61",
        PROXYING_NOT_SUPPORTED,
    ),
];

// Requests with Block1 or Block2, each with its classification.
static BLOCK_CASES: [(&[u8], Outcome); 13] = [
    // Block2 in a GET, on an unknown path, of the reserved size, of 4 bytes, and twice.
    (
        b"\x40\x01\x00\x01\xb1\x72\x01\x30\xc1\x16",
        Outcome::Accepted,
    ),
    (b"\x40\x01\x00\x01\xb1\x78\xc1\x06", NOT_FOUND),
    (b"\x40\x01\x00\x01\xb1\x72\x01\x30\xc1\x07", BAD_REQUEST),
    (
        b"\x40\x01\x00\x01\xb1\x72\x01\x30\xc4\x00\x00\x00\x06",
        BAD_OPTION,
    ),
    (
        b"\x40\x01\x00\x01\xb1\x72\x01\x30\xc1\x16\x01\x16",
        BAD_OPTION,
    ),
    // Block1 in a PUT, and of the reserved size.
    (
        b"\x40\x03\x40\x00\xb1\x70\x01\x32\xd1\x03\x0a\xff\x00",
        Outcome::Accepted,
    ),
    (
        b"\x40\x03\x40\x00\xb1\x70\x01\x32\xd1\x03\x0f\xff\x00",
        BAD_REQUEST,
    ),
    // Block2 in a POST of an unknown path, in a PUT, and in a non-confirmable DELETE.
    (b"\x40\x02\x00\x01\xb1\x78\xc1\x06", BAD_OPTION),
    (b"\x40\x03\x00\x01\xb1\x70\x01\x32\xc1\x06", BAD_OPTION),
    (b"\x50\x04\x00\x01\xb1\x70\x01\x32\xc1\x06", Outcome::Silent),
    // Block1 in a GET, in a POST, and with a method that isn't served.
    (b"\x40\x01\x00\x01\xb1\x70\x01\x32\xd1\x03\x0a", BAD_OPTION),
    (b"\x40\x02\x00\x01\xb1\x72\x01\x32\xd1\x03\x0a", BAD_OPTION),
    (b"\x40\x05\x00\x01\xb1\x70\x01\x32\xd1\x03\x0a", BAD_OPTION),
];

// Each datagram has the classification of its row.
#[test]
fn datagrams_are_classified(rt: HostRuntime) {
    check_outcomes(&rt, &TYPE_CASES);
    check_outcomes(&rt, &PATH_CASES);
    check_outcomes(&rt, &CRITICAL_CASES);
    check_outcomes(&rt, &BLOCK_CASES);
}

// Returns whether a block has this number, this M flag and this size exponent.
fn is_block(block: Block, number: u32, more: bool, szx: u8) -> bool {
    block.number() == number && block.more() == more && block.szx() == szx
}

// A GET has the block of its Block2, and a PUT has the block of its Block1.
#[test]
fn requests_name_blocks(rt: HostRuntime) {
    let asked = request_of(b"\x40\x01\x00\x01\xb1\x72\x01\x30\xc1\x16").and_then(|it| it.block2);
    assert!(rt; asked.is_some_and(|block| is_block(block, 1, false, 6)));
    let sent = request_of(b"\x40\x03\x40\x00\xb1\x70\x01\x32\xd1\x03\x0a\xff\x00").and_then(
        |it| it.block1,
    );
    assert!(rt; sent.is_some_and(|block| is_block(block, 0, true, 2)));
}

// A block's value is read with leading zeros, and written without them.
#[test]
fn values_of_blocks(rt: HostRuntime) {
    // The least value has no byte.
    assert!(rt; Block::read(&[]).value().is_empty());
    let second = Block::read(&[0x00, 0x00, 0x16]);
    assert!(rt; is_block(second, 1, false, 6) && second.size() == 1024);
    assert!(rt; second.value().as_slice() == [0x16].as_slice());
}

/// Returns whether a request has this Content-Format and this value of Observe.
fn has_electives(bytes: &[u8], content_format: Option<u16>, observe: Option<u32>) -> bool {
    request_of(bytes).is_some_and(|request| {
        request.content_format == content_format && request.observe == observe
    })
}

// Checks the Content-Format and the value of Observe of a request.
fn check_electives(
    rt: &impl Abort,
    bytes: &[u8],
    content_format: Option<u16>,
    observe: Option<u32>,
) {
    assert!(rt; has_electives(bytes, content_format, observe), "{bytes:?}");
}

// The first of two Content-Formats counts. An elective option that is too long is ignored, and so
// is Observe outside a GET of a program's resource.
#[test]
fn elective_options(rt: HostRuntime) {
    // Content-Format: the first of two counts, and neither if the first is too long.
    check_electives(
        &rt,
        b"\x40\x01\x00\x01\xb1\x72\x01\x30\x11\x28\x01\x32",
        Some(40),
        None,
    );
    check_electives(
        &rt,
        b"\x40\x01\x00\x01\xb1\x72\x01\x30\x13\x00\x00\x28\x01\x32",
        None,
        None,
    );
    // Observe: leading zeros, too long, and at `/p`.
    check_electives(
        &rt,
        b"\x40\x01\x00\x01\x62\x00\x00\x51\x72\x01\x30",
        None,
        Some(0),
    );
    check_electives(
        &rt,
        b"\x40\x01\x00\x01\x64\x00\x00\x00\x00\x51\x72\x01\x30",
        None,
        None,
    );
    check_electives(&rt, b"\x40\x03\x00\x01\x60\x51\x70\x01\x30", None, None);
}

// The ETags of a request are those of eight bytes.
#[test]
fn etags(rt: HostRuntime) {
    // An ETag of seven bytes doesn't count.
    let tags = request_of(
        b"\x40\x01\x00\x01\x47\x01\x02\x03\x04\x05\x06\x07\x08\x00\x00\x00\x00\x00\x00\x00\x09\x71\x72\x01\x30",
    );
    assert!(rt; tags.is_some_and(|request| request.etags.as_slice() == [9].as_slice()));
}

// The arguments of a query are joined by `&`.
#[test]
fn two_queries(rt: HostRuntime) {
    let two = request_of(b"\x40\x01\x00\x01\xb1\x72\x01\x30\x41\x61\x01\x62");
    assert!(rt; two.is_some_and(|request| request.query.as_slice() == b"a&b".as_slice()));
}

// A query of at most 64 bytes and a payload of at most 1,024 bytes are accepted. A longer query
// gets 4.00, and a longer payload 4.13.
#[test]
fn queries_and_payloads(rt: HostRuntime) {
    let mut bytes = [0u8; 1280];
    bytes[..8].copy_from_slice(b"\x40\x01\x00\x01\xb1\x72\x01\x30");
    // 64 empty arguments, separated by `&`, have 63 bytes; 65 have 64, and 66 have 65.
    bytes[8] = 0x40;
    check_outcome(&rt, &bytes[..72], Outcome::Accepted);
    check_outcome(&rt, &bytes[..73], Outcome::Accepted);
    check_outcome(&rt, &bytes[..74], BAD_REQUEST);
    // A payload of 1,024 bytes, and of one more.
    bytes[8] = 0xff;
    check_outcome(&rt, &bytes[..1033], Outcome::Accepted);
    check_outcome(&rt, &bytes[..1034], TOO_LARGE);
}

// An unsigned integer is encoded without leading zeros, and decoded with or without them.
#[test]
fn integers(rt: HostRuntime) {
    assert!(rt; encode_uint(0).is_empty());
    assert!(rt; encode_uint(16_777_214).as_slice() == [0xff, 0xff, 0xfe].as_slice());
    assert!(rt; encode_uint(u64::MAX).len() == 8);
    assert!(rt; decode_uint(&[0, 0, 1, 0]) == 256);
}

/// Makes a reply in an acknowledgement, with a token of one byte.
fn reply_of<'a>(code: Code, id: u16, options: ReplyOptions, payload: &'a [u8]) -> Reply<'a> {
    Reply {
        kind: MessageType::Acknowledgement,
        code,
        id,
        token: b"o",
        options,
        payload,
    }
}

// Writes a reply, and checks the bytes.
fn check_reply(rt: &impl Abort, reply: &Reply<'_>, wanted: &[u8]) {
    let mut datagram = Datagram::new();
    if reply.code != Code::EMPTY && reply.token.len() <= 8 && reply.payload.len() <= 1024 {
        reply.write(&mut datagram);
    }
    assert!(rt; datagram.as_slice() == wanted, "{datagram:?}");
}

// A reply is written as header, token, options in the order of their numbers, and payload.
#[test]
fn replies(rt: HostRuntime) {
    let none = ReplyOptions::default();
    // Content-Format 40 (RFC 6690, section 7.1), and Block1 with number 0, more blocks and a size
    // of 64.
    let format = ReplyOptions {
        content_format: Some(40),
        ..none
    };
    let core = reply_of(Code::CONTENT, 11, format, b"x");
    check_reply(&rt, &core, b"\x61\x45\x00\x0bo\xc1\x28\xffx");
    let taken = ReplyOptions {
        block1: Some(Block::read(&[0x0a])),
        ..none
    };
    let more = reply_of(Code::CONTINUE, 0x4000, taken, b"");
    check_reply(&rt, &more, b"\x61\x5f\x40\x00o\xd1\x0e\x0a");
    // All five options; a sequence number of 0, and a Content-Format of 0, have no byte.
    let all = ReplyOptions {
        etag: Some(16_777_216),
        observe: Some(0),
        content_format: Some(0),
        block2: Some(Block::read(&[0x16])),
        block1: Some(Block::read(&[0x0e])),
    };
    check_reply(
        &rt,
        &reply_of(Code::CONTENT, 0, all, b""),
        b"\x61\x45\x00\x00o\x48\x00\x00\x00\x00\x01\x00\x00\x00\x20\x60\xb1\x16\x41\x0e",
    );
}
