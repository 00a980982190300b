//! Datagrams with their meaning, from RFC 7252 and the server's own tables.
//!
//! The tests cover what no contract says.
use coap_msg::{Bad, Code, Datagram, Message, MessageType, Outgoing, read, write};
use std::alloc::AllocError;
use std::process::Abort;

/// Returns why `read` rejects these bytes, or `None` if it parses a message.
fn refusal(bytes: &[u8]) -> Option<Bad> {
    match read(bytes) {
        Ok(_) => None,
        Err(bad) => Some(bad),
    }
}

// Checks that `read` rejects these bytes for this reason, or parses a message if `wanted` is
// `None`.
fn check_refusal(rt: &impl Abort, bytes: &[u8], wanted: Option<Bad>) {
    assert!(rt; refusal(bytes) == wanted, "{bytes:?}");
}

// Checks each of these rows. See `check_refusal`.
fn check_refusals(rt: &impl Abort, cases: &[(&[u8], Option<Bad>)]) {
    for (bytes, wanted) in cases {
        check_refusal(rt, bytes, *wanted);
    }
}

// Datagrams with various headers and tokens, each with the reason for its rejection, if any.
static HEADER_CASES: [(&[u8], Option<Bad>); 10] = [
    // Empty messages: a confirmable one, which is a ping, and a Reset message.
    (b"\x40\x00\x00\x07", None),
    (b"\x70\x00\x00\x07", None),
    // Too short, and another version.
    (b"\x40\x00\x00", Some(Bad::Ignore)),
    (b"\x81\x01\x00\x0c", Some(Bad::Ignore)),
    (b"\x00\x01\x00\x0c", Some(Bad::Ignore)),
    // A token of nine bytes, confirmable or not, and a truncated one.
    (b"\x49\x01\x00\x08", Some(Bad::Reset(8))),
    (b"\x59\x01\x00\x08", Some(Bad::Ignore)),
    (b"\x42\x01\x12\x34\x70", Some(Bad::Reset(0x1234))),
    // An empty message with bytes after the message ID.
    (b"\x41\x00\x00\x07\x70", Some(Bad::Reset(7))),
    (b"\x60\x00\x00\x07\xff\x01", Some(Bad::Ignore)),
];

// Datagrams with various options, each with the reason for its rejection, if any.
static OPTION_CASES: [(&[u8], Option<Bad>); 10] = [
    // A marker with nothing after it.
    (b"\x40\x01\x00\x0a\xff", Some(Bad::Reset(10))),
    // A nibble of 15 in either place.
    (b"\x40\x01\x00\x0a\xf0", Some(Bad::Reset(10))),
    (b"\x40\x01\x00\x0a\xbf", Some(Bad::Reset(10))),
    // A truncated value, a missing byte after the nibble 13, and missing bytes after 14.
    (b"\x40\x01\x00\x0a\xb2\x72", Some(Bad::Reset(10))),
    (b"\x40\x01\x00\x0a\xd0", Some(Bad::Reset(10))),
    (b"\x40\x01\x00\x0a\xe0\x00", Some(Bad::Reset(10))),
    (b"\x50\x01\x00\x0a\xb2\x72", Some(Bad::Ignore)),
    // The greatest option number is 65,535, which is 269 + 65,266.
    (b"\x40\x01\x00\x0a\xe0\xfe\xf2", None),
    (b"\x40\x01\x00\x0a\xe0\xfe\xf3", Some(Bad::Reset(10))),
    (b"\x40\x01\x00\x0a\xe0\xfe\xf2\x10", Some(Bad::Reset(10))),
];

// Each datagram is parsed, or rejected for its reason (RFC 7252, section 3).
#[test]
fn format_errors(rt: HostRuntime) {
    check_refusals(&rt, &HEADER_CASES);
    check_refusals(&rt, &OPTION_CASES);
}

// A datagram of 1,280 bytes is parsed, and one of 1,281 bytes is ignored.
#[test]
fn a_long_datagram(rt: HostRuntime) {
    let mut bytes = [0u8; 1281];
    bytes[0] = 0x40;
    bytes[1] = 0x01;
    bytes[4] = 0xff;
    check_refusal(&rt, &bytes[..1280], None);
    check_refusal(&rt, &bytes, Some(Bad::Ignore));
}

// A message that has each part: a token, options and a payload.
const WHOLE: &[u8] =
    b"\x52\x01\x12\x34\xaa\xbb\xb1\x72\x01\x30\xd1\x05\x0a\xe0\x01\x00\xff\x68\x69";

// Parsing `WHOLE` returns each part of the message.
#[test]
fn parts(rt: HostRuntime) {
    let message = read(WHOLE).ok().expect(&rt, "a message");
    assert!(rt; has_parts(&message));
    assert!(rt; has_options(&message));
}

// Returns whether the header, token and payload are those of `WHOLE`.
fn has_parts(message: &Message<'_>) -> bool {
    message.kind() == MessageType::NonConfirmable
        && message.code() == Code::GET
        && message.id() == 0x1234
        && message.token() == b"\xaa\xbb".as_slice()
        && message.payload() == b"hi".as_slice()
}

/// The numbers of the options of `WHOLE`, and the lengths of the options' values.
static NUMBERS: [(u16, usize); 4] = [(11, 1), (11, 1), (29, 1), (554, 0)];

// Returns whether the options have the numbers and lengths of `NUMBERS`.
fn has_options(message: &Message<'_>) -> bool {
    let found = message
        .options()
        .map(|(number, value)| (number, value.len()));
    found.eq(NUMBERS.iter().copied())
}

// `values` returns the values of the options with this number, in order, and none of the others.
#[test]
fn options_by_number(rt: HostRuntime) {
    let message = read(WHOLE).ok().expect(&rt, "a message");
    let mut path = message.values(11);
    assert!(rt; path.next() == Some(b"r".as_slice()));
    assert!(rt; path.next() == Some(b"0".as_slice()));
    assert!(rt; path.next().is_none());
    assert!(rt; message.values(12).next().is_none());
}

// A message is written as these bytes, which replace the earlier content of the datagram.
#[test]
fn written(rt: HostRuntime) {
    // 2.05 in an acknowledgement, with an ETag of eight bytes and no payload.
    static CONTENT: Outgoing<'static> = Outgoing {
        kind: MessageType::Acknowledgement,
        code: Code::CONTENT,
        id: 0x1234,
        token: b"\x71",
        options: &[(4, b"\x00\x00\x00\x00\x00\x00\x00\x01")],
        payload: b"",
    };
    // 2.31 with a Block1 option: its number 27 is encoded as 13 and a byte of 14.
    static CONTINUE: Outgoing<'static> = Outgoing {
        kind: MessageType::Acknowledgement,
        code: Code::CONTINUE,
        id: 0x4000,
        token: b"",
        options: &[(27, b"\x0a")],
        payload: b"",
    };
    let mut datagram = Datagram::new();
    write(&CONTENT, &mut datagram);
    let content = b"\x61\x45\x12\x34\x71\x48\x00\x00\x00\x00\x00\x00\x00\x01";
    assert!(rt; datagram.as_slice() == content.as_slice());
    write(&CONTINUE, &mut datagram);
    assert!(rt; datagram.as_slice() == b"\x60\x5f\x40\x00\xd1\x0e\x0a".as_slice());
}

// A code has a class and a detail: 2.31 has 2 and 31, and 4.05 has 4 and 5.
#[test]
fn codes(rt: HostRuntime) {
    assert!(rt; Code::new(2, 31) == Code::CONTINUE);
    let code = Code::METHOD_NOT_ALLOWED;
    assert!(rt; (code.class(), code.detail()) == (4, 5));
}

// A code is printed as its class, a dot, and two digits of its detail.
#[test]
fn texts_of_codes(rt: HostRuntime) -> Result<(), AllocError> {
    let text = format!(in rt.alloc(); "{} {} {}", Code::EMPTY, Code::CONTENT, Code::CONTINUE)?;
    assert!(rt; text.as_str() == "0.00 2.05 2.31");
    Ok(())
}

// The reason for a rejection is printed with the message ID.
#[test]
fn texts_of_refusals(rt: HostRuntime) -> Result<(), AllocError> {
    let text = format!(in rt.alloc(); "{}", Bad::Reset(10))?;
    let wanted = "format error in the confirmable message with id 10: reject it by a Reset message";
    assert!(rt; text.as_str() == wanted);
    Ok(())
}
