//! A client that observes a server, which follows a script (RFC 7641).
//!
//! The datagrams are worked out by hand.
use crate::scripted::{Scripted, check_sent, comes, comes_at, follows};
use coap_client::peer::BUFFER;
use coap_client::{ClientRequest, FetchFault, Path, RequestTarget};
use coap_msg::read;
use coap_observer::notice::{is_newer, notice_of};
use coap_observer::{Completion, Joining, NotificationClass, Observation, Observer, Unfetched};
use coap_opts::Method;
use fc_cli::Status;
use fc_fetch::observer::{NotePrinter, NotesError, ObservationExtent};
use fc_fetch::printer::{PrintError, write_note};
use fc_fetch::{Console, Observing, Shown, observe};
use fc_fixtures::datagrams::joined;
use fc_fixtures::faulty::{Full, Unflushed};
use fc_fixtures::ports::free_port;
use std::alloc::{AllocError, Global};
use std::test::Fail;

// The token of each observation.
const TOKEN: [u8; 4] = [1, 2, 3, 4];

// The sequence numbers and times, in milliseconds, of two states, and whether the second is newer.
// It is newer if its number is higher by less than 2^23, modulo 2^24. It is also newer if more than
// 128 s lie between the times (RFC 7641, section 3.4).
static ORDER: [(u32, u64, u32, u64, bool); 10] = [
    (0, 0, 1, 0, true),
    (1, 0, 0, 0, false),
    (7, 0, 7, 0, false),
    (0, 0, 0x7f_ffff, 0, true),
    (0, 0, 0x80_0000, 0, false),
    (0x80_0000, 0, 0, 0, false),
    (0x80_0001, 0, 0, 0, true),
    (0xff_ffff, 0, 0, 0, true),
    (7, 1_000, 7, 129_000, false),
    (7, 1_000, 3, 129_001, true),
];

// A state is newer than another exactly if its row says so.
#[test]
fn states_are_in_order(rt: HostRuntime) {
    for (first, first_at, second, second_at, newer) in ORDER.iter().copied() {
        assert!(rt;
            is_newer(first, first_at, second, second_at) == newer,
            "{first} {second}"
        );
    }
}

// Messages, each with its classification by an observing client. In their order these are:
// - states, with an Observe of no byte, of one byte and of three;
// - last responses: an error without and with Observe, and a success without Observe and with an
//   Observe of four bytes;
// - a state that is complete in its first block;
// - malformed ones: a first block that isn't full, a second block, and an unrecognized critical
//   option.
static NOTICES: [(&[u8], NotificationClass); 11] = [
    (b"\x50\x45\x00\x01\x60\xff\x61", NotificationClass::State(0)),
    (b"\x50\x45\x00\x01\x61\x05", NotificationClass::State(5)),
    (
        b"\x50\x43\x00\x01\x63\x01\x02\x03",
        NotificationClass::State(0x01_0203),
    ),
    (b"\x50\x84\x00\x01", NotificationClass::Last),
    (b"\x50\x84\x00\x01\x61\x05", NotificationClass::Last),
    (b"\x50\x45\x00\x01\xff\x61", NotificationClass::Last),
    (
        b"\x50\x45\x00\x01\x64\x00\x00\x00\x05",
        NotificationClass::Last,
    ),
    (
        b"\x50\x45\x00\x01\x61\x05\xd1\x04\x06",
        NotificationClass::State(5),
    ),
    (
        b"\x50\x45\x00\x01\x61\x05\xd1\x04\x0e\xff\x61",
        NotificationClass::Malformed,
    ),
    (
        b"\x50\x45\x00\x01\x61\x05\xd1\x04\x16\xff\x61",
        NotificationClass::Malformed,
    ),
    (
        b"\x50\x45\x00\x01\x61\x05\x30",
        NotificationClass::Malformed,
    ),
];

// Each message has the classification of its row.
#[test]
fn responses_are_noticed(rt: HostRuntime) {
    for (bytes, notice) in NOTICES.iter().copied() {
        match read(bytes) {
            Ok(message) => assert!(rt; notice_of(&message) == notice, "{bytes:?}"),
            Err(_) => assert!(rt; false, "{bytes:?} is no message"),
        }
    }
}

// Returns a confirmable GET of slot 1.
fn slot_one(alloc: Global) -> Result<ClientRequest<'static>, Fail> {
    let target = RequestTarget {
        path: Path::parse(alloc, b"/r/1")?,
        query: Vec::new(alloc),
    };
    match ClientRequest::new(true, Method::Get, target, &[]) {
        Some(client_request) => Ok(client_request),
        None => Err(Fail::new("no room")),
    }
}

// Observes slot 1 until `count` lines are printed or the script ends. Returns the output. The first
// request has the message ID 7.
fn watched(alloc: Global, server: &mut Scripted, count: u32) -> Result<Vec<u8>, Fail> {
    let client_request = slot_one(alloc)?;
    Ok(printed(alloc, server, &client_request, count)?)
}

// Observes with this request. Returns the output, or the error that ends the observation. See
// `watched`.
fn printed(
    alloc: Global,
    server: &mut Scripted,
    client_request: &ClientRequest<'_>,
    count: u32,
) -> Result<Vec<u8>, NotesError> {
    let mut err = Vec::new(alloc);
    printed_to(alloc, server, client_request, count, &mut err)
}

// Observes as `printed` does, with `err` as standard error.
fn printed_to(
    alloc: Global,
    server: &mut Scripted,
    client_request: &ClientRequest<'_>,
    count: u32,
    err: &mut Vec<u8>,
) -> Result<Vec<u8>, NotesError> {
    let observer = Observer {
        client_request,
        token: TOKEN,
        id: 7,
    };
    let printer = NotePrinter {
        observer: &observer,
        shown: Shown::Text,
        extent: ObservationExtent {
            count: Some(count),
            seconds: Some(60),
        },
    };
    let mut console = Console {
        alloc,
        out: Vec::new(alloc),
        err,
    };
    let mut buffer = [0; BUFFER];
    printer.print_notes(server, &mut console, &mut buffer)?;
    Ok(console.out)
}

// Adds to the script a response that arrives at this time. `head` is the type and token length, the
// code, and the message ID. The token of the observation and `rest` follow.
fn comes_with(
    server: &mut Scripted,
    at: u64,
    head: &[u8; 4],
    rest: &[u8],
) -> Result<(), AllocError> {
    let bytes = [head[0], head[1], head[2], head[3], 1, 2, 3, 4];
    comes_at(server, at, &bytes, rest)
}

// An observation prints the first state and each newer one once, up to an error response. It
// ignores older states and responses with other tokens. It acknowledges a confirmable state and a
// duplicate of that state.
#[test]
fn an_observer_shows_what_is_newer(rt: HostRuntime) -> Result<(), Fail> {
    let mut server = follows(rt.alloc());
    comes_with(&mut server, 0, b"\x64\x45\x00\x07", b"\x61\x02\xff\x61")?;
    comes_with(&mut server, 1, b"\x54\x45\x10\x00", b"\x61\x03\xff\x62")?;
    // An older state, a state with another token, the first response again, and one without a
    // token.
    comes_with(&mut server, 2, b"\x54\x45\x10\x01", b"\x61\x01\xff\x78")?;
    comes(
        &mut server,
        b"\x54\x45\x10\x02\x01\x02\x03\x05",
        b"\x61\x09\xff\x78",
    )?;
    comes_with(&mut server, 2, b"\x64\x45\x00\x07", b"\x61\x09\xff\x78")?;
    comes(&mut server, b"\x50\x45\x10\x02", b"\x61\x09\xff\x78")?;
    // A confirmable state, twice; an error response, which is the last; and a state after it.
    comes_with(&mut server, 3, b"\x44\x45\x10\x03", b"\x61\x04\xff\x63\x0a")?;
    comes_with(&mut server, 4, b"\x44\x45\x10\x03", b"\x61\x04\xff\x63\x0a")?;
    comes_with(&mut server, 5, b"\x54\x84\x10\x04", &[])?;
    comes_with(&mut server, 6, b"\x54\x45\x10\x05", b"\x61\x05\xff\x78")?;
    let out = watched(rt.alloc(), &mut server, 9)?;
    assert!(rt; out.as_slice() == b"2.05 a\n2.05 b\n2.05 630a\n4.04\n".as_slice());
    assert!(rt; server.sent.len() == 3);
    check_sent(
        &rt,
        &server,
        0,
        b"\x44\x01\x00\x07\x01\x02\x03\x04\x60\x51\x72\x01\x31",
        &[],
    );
    for place in [1, 2] {
        check_sent(&rt, &server, place, b"\x60\x00\x10\x03", &[]);
    }
    Ok(())
}

// Each state is newer if it arrives more than 128 s after the last one. A message whose ID was
// shown isn't shown again for 247 s.
#[test]
fn a_message_is_shown_once(rt: HostRuntime) -> Result<(), Fail> {
    let mut server = follows(rt.alloc());
    comes_with(&mut server, 0, b"\x64\x45\x00\x07", b"\x61\x05\xff\x61")?;
    comes_with(&mut server, 1_000, b"\x54\x45\x10\x00", b"\x61\x06\xff\x62")?;
    comes_with(
        &mut server,
        129_000,
        b"\x54\x45\x10\x01",
        b"\x61\x04\xff\x78",
    )?;
    comes_with(
        &mut server,
        129_001,
        b"\x54\x45\x10\x00",
        b"\x61\x06\xff\x78",
    )?;
    comes_with(
        &mut server,
        129_002,
        b"\x54\x45\x10\x01",
        b"\x61\x04\xff\x63",
    )?;
    comes_with(
        &mut server,
        247_999,
        b"\x54\x45\x10\x00",
        b"\x61\x06\xff\x78",
    )?;
    comes_with(
        &mut server,
        248_000,
        b"\x54\x45\x10\x00",
        b"\x61\x06\xff\x64",
    )?;
    let out = watched(rt.alloc(), &mut server, 9)?;
    assert!(rt; out.as_slice() == b"2.05 a\n2.05 b\n2.05 c\n2.05 d\n".as_slice());
    Ok(())
}

// A registration can be acknowledged first, and get its response later, as a confirmable message. A
// duplicate of that response is acknowledged, and not printed.
#[test]
fn a_registration_is_answered_later(rt: HostRuntime) -> Result<(), Fail> {
    let mut server = follows(rt.alloc());
    comes(&mut server, &[], &[])?;
    comes(&mut server, b"\x60\x00\x00\x07", &[])?;
    comes_with(&mut server, 0, b"\x44\x45\x20\x00", b"\x60\xff\x61")?;
    comes_with(&mut server, 130_000, b"\x44\x45\x20\x00", b"\x60\xff\x61")?;
    let out = watched(rt.alloc(), &mut server, 9)?;
    assert!(rt; out.as_slice() == b"2.05 a\n".as_slice());
    assert!(rt; server.waits.as_slice() == [2, 4, 93, 60].as_slice() && server.sent.len() == 4);
    check_sent(&rt, &server, 2, b"\x60\x00\x20\x00", &[]);
    check_sent(&rt, &server, 3, b"\x60\x00\x20\x00", &[]);
    Ok(())
}

// An observation of two lines ends after the second one.
#[test]
fn an_observer_prints_so_many_lines(rt: HostRuntime) -> Result<(), Fail> {
    let mut server = follows(rt.alloc());
    comes_with(&mut server, 0, b"\x64\x45\x00\x07", b"\x61\x02\xff\x61")?;
    comes_with(&mut server, 1, b"\x54\x45\x10\x00", b"\x61\x03")?;
    comes_with(&mut server, 1, b"\x54\x45\x10\x01", b"\x61\x04")?;
    let out = watched(rt.alloc(), &mut server, 2)?;
    assert!(rt; out.as_slice() == b"2.05 a\n2.05\n".as_slice());
    Ok(())
}

// Fetches the further blocks of a state of slot 1 whose first block is in this notification. The
// requests have message IDs from 256 on. Returns the result and the last sequence number.
fn completed(
    alloc: Global,
    server: &mut Scripted,
    first: &[u8],
) -> Result<(Completion, u32), Fail> {
    let client_request = slot_one(alloc)?;
    let mut ids = 256;
    completed_by(alloc, server, &client_request, first, &mut ids)
}

// Fetches further blocks with this request. See `completed`.
fn completed_by(
    alloc: Global,
    server: &mut Scripted,
    client_request: &ClientRequest<'_>,
    first: &[u8],
    ids: &mut u16,
) -> Result<(Completion, u32), Fail> {
    let observer = Observer {
        client_request,
        token: TOKEN,
        id: 7,
    };
    let Ok(message) = read(first) else {
        return Err(Fail::new("no message"));
    };
    let mut watch = Observation::first(alloc, 2, 0, &message)?;
    let Some(joining) = Joining::begin(alloc, &message)? else {
        return Err(Fail::new("no first block"));
    };
    let mut buffer = [0; BUFFER];
    let completion = watch.complete(alloc, server, &observer, joining, ids, &mut buffer)?;
    Ok((completion, watch.sequence))
}

// Returns a notification with the first of two blocks: Observe 2, ETag 9, and Block2 with number 0,
// more blocks and 1,024 bytes (RFC 7959, section 2.2).
fn first_of_two(alloc: Global) -> Result<Vec<u8>, AllocError> {
    joined(
        alloc,
        b"\x54\x45\x10\x00\x01\x02\x03\x04\x41\x09\x21\x02\xd1\x04\x0e\xff",
        &[7; 1024],
    )
}

// The second block has the ETag of the first, and is appended to it. The request is a GET of block
// 1 without Observe. A duplicate of the notification arrives first; the request is then sent again
// with a new message ID and token.
#[test]
fn a_state_of_two_blocks_is_joined(rt: HostRuntime) -> Result<(), Fail> {
    let alloc = rt.alloc();
    let first = first_of_two(alloc)?;
    let mut server = follows(alloc);
    comes(&mut server, &first, &[])?;
    comes(
        &mut server,
        b"\x62\x45\x01\x01\x01\x01\x41\x09\xd1\x06\x16\xff",
        b"end",
    )?;
    let (completion, sequence) = completed(alloc, &mut server, &first)?;
    let body = joined(alloc, &[7; 1024], b"end")?;
    assert!(rt;
        matches!(&completion, Completion::Whole(code, bytes) if code.byte == 0x45 && bytes.as_slice() == body.as_slice())
    );
    assert!(rt; sequence == 2 && server.sent.len() == 2);
    check_sent(
        &rt,
        &server,
        0,
        b"\x42\x01\x01\x00\x01\x00\xb1\x72\x01\x31\xc1\x16",
        &[],
    );
    check_sent(
        &rt,
        &server,
        1,
        b"\x42\x01\x01\x01\x01\x01\xb1\x72\x01\x31\xc1\x16",
        &[],
    );
    Ok(())
}

// The registration has message ID 7, and the deregistration 8. After the request with ID 6, the
// next one has ID 9; then the next ID is 10.
#[test]
fn a_further_block_never_has_the_id_of_the_deregistration(rt: HostRuntime) -> Result<(), Fail> {
    let alloc = rt.alloc();
    let first = first_of_two(alloc)?;
    let client_request = slot_one(alloc)?;
    let mut server = follows(alloc);
    comes(&mut server, &first, &[])?;
    comes(
        &mut server,
        b"\x62\x45\x00\x09\x00\x09\x41\x09\xd1\x06\x16\xff",
        b"end",
    )?;
    let mut ids = 6;
    let (completion, _) = completed_by(alloc, &mut server, &client_request, &first, &mut ids)?;
    assert!(rt; matches!(&completion, Completion::Whole(_, _)) && ids == 10);
    for (place, id) in [6, 9].iter().copied().enumerate() {
        let head = [0x42, 1, 0, id, 0, id];
        check_sent(&rt, &server, place, &head, b"\xb1\x72\x01\x31\xc1\x16");
    }
    Ok(())
}

// Adds to the script the response to a registration with message ID 7: the first of two blocks.
fn comes_large(server: &mut Scripted, alloc: Global) -> Result<(), Fail> {
    let rest = joined(alloc, b"\x41\x09\x21\x02\xd1\x04\x0e\xff", &[b'a'; 1024])?;
    comes_with(server, 0, b"\x64\x45\x00\x07", &rest)?;
    Ok(())
}

// A state of two blocks is printed on one line. Its second block, requested with message ID 9,
// arrives after 12.5 s. The next wait is the rest of the 60 s, 47.5 s rounded up to 48.
#[test]
fn an_observer_prints_a_state_of_two_blocks(rt: HostRuntime) -> Result<(), Fail> {
    let alloc = rt.alloc();
    let mut server = follows(alloc);
    comes_large(&mut server, alloc)?;
    comes_at(
        &mut server,
        12_500,
        b"\x62\x45\x00\x09\x00\x09\x41\x09\xd1\x06\x16\xff",
        b"end",
    )?;
    comes_with(
        &mut server,
        13_000,
        b"\x54\x45\x10\x00",
        b"\x61\x03\xff\x62",
    )?;
    let out = watched(alloc, &mut server, 9)?;
    let text = joined(alloc, b"2.05 ", &[b'a'; 1024])?;
    let text = joined(alloc, &text, b"end\n2.05 b\n")?;
    assert!(rt; out.as_slice() == text.as_slice());
    assert!(rt; server.waits.as_slice() == [2, 60, 2, 48].as_slice());
    check_sent(
        &rt,
        &server,
        1,
        b"\x42\x01\x00\x09\x00\x09\xb1\x72\x01\x31\xc1\x16",
        &[],
    );
    Ok(())
}

// If a newer state arrives before the second block of a state, the older state isn't printed. It
// doesn't count as one of the two lines.
#[test]
fn a_superseded_state_has_no_line(rt: HostRuntime) -> Result<(), Fail> {
    let alloc = rt.alloc();
    let mut server = follows(alloc);
    comes_large(&mut server, alloc)?;
    comes_with(&mut server, 1, b"\x54\x45\x10\x00", b"\x61\x03\xff\x62")?;
    comes_with(&mut server, 2, b"\x54\x45\x10\x01", b"\x61\x04\xff\x63")?;
    comes_with(&mut server, 3, b"\x54\x45\x10\x02", b"\x61\x05\xff\x64")?;
    let out = watched(alloc, &mut server, 2)?;
    assert!(rt; out.as_slice() == b"2.05 b\n2.05 c\n".as_slice());
    Ok(())
}

// If the request for the second block gets 5.03, the state isn't printed, and standard error says
// why. The next state is printed.
#[test]
fn a_state_without_its_blocks_is_reported(rt: HostRuntime) -> Result<(), Fail> {
    let alloc = rt.alloc();
    let client_request = slot_one(alloc)?;
    let mut server = follows(alloc);
    comes_large(&mut server, alloc)?;
    comes(&mut server, b"\x62\xa3\x00\x09\x00\x09", &[])?;
    comes_with(&mut server, 2, b"\x54\x45\x10\x00", b"\x61\x03\xff\x62")?;
    let mut err = Vec::new(alloc);
    let out = printed_to(alloc, &mut server, &client_request, 1, &mut err)?;
    assert!(rt; out.as_slice() == b"2.05 b\n".as_slice());
    let told = b"a state isn't printed: a further block was refused by 5.03\n".as_slice();
    assert!(rt; err.as_slice() == told);
    Ok(())
}

// A newer state that arrives while the second block of a state is awaited isn't printed if the 60 s
// of the observation have passed.
#[test]
fn the_time_ends_between_states(rt: HostRuntime) -> Result<(), Fail> {
    let alloc = rt.alloc();
    let mut server = follows(alloc);
    comes_large(&mut server, alloc)?;
    comes_with(
        &mut server,
        60_000,
        b"\x54\x45\x10\x00",
        b"\x61\x03\xff\x62",
    )?;
    let out = watched(alloc, &mut server, 9)?;
    assert!(rt; out.is_empty());
    assert!(rt; server.waits.as_slice() == [2, 60, 2, 0].as_slice());
    Ok(())
}

// A state isn't joined if the further block has another ETag, or if a newer notification arrives
// first. Nor is it joined if the request for the block gets an error or no response.
#[test]
fn a_state_that_changes_is_not_joined(rt: HostRuntime) -> Result<(), Fail> {
    let alloc = rt.alloc();
    let first = first_of_two(alloc)?;
    let mut server = follows(alloc);
    comes(
        &mut server,
        b"\x62\x45\x01\x00\x01\x00\x41\x08\xd1\x06\x16\xff",
        b"end",
    )?;
    let (completion, _) = completed(alloc, &mut server, &first)?;
    assert!(rt; matches!(&completion, Completion::Unfetched(Unfetched::Changed)));
    let mut server = follows(alloc);
    comes_with(&mut server, 0, b"\x54\x45\x10\x01", b"\x61\x03\xff\x62")?;
    let (completion, sequence) = completed(alloc, &mut server, &first)?;
    assert!(rt;
        matches!(&completion, Completion::Newer(noted) if !noted.last && noted.count == 12)
            && sequence == 3
    );
    let mut server = follows(alloc);
    comes(&mut server, b"\x62\x84\x01\x00\x01\x00", &[])?;
    let (completion, _) = completed(alloc, &mut server, &first)?;
    assert!(rt;
        matches!(&completion, Completion::Unfetched(Unfetched::Refused(code)) if code.byte == 0x84)
    );
    let mut server = follows(alloc);
    let (completion, _) = completed(alloc, &mut server, &first)?;
    assert!(rt; matches!(&completion, Completion::Unfetched(Unfetched::Silence)));
    Ok(())
}

// If the response to a registration is a first block without Observe, the error is `Unobserved`:
// the server doesn't notify of changes.
#[test]
fn a_large_answer_without_observe_has_its_own_error(rt: HostRuntime) -> Result<(), Fail> {
    let mut server = follows(rt.alloc());
    let rest = joined(rt.alloc(), b"\xd1\x0a\x0e\xff", &[7; 1024])?;
    comes_with(&mut server, 0, b"\x64\x45\x00\x07", &rest)?;
    let client_request = slot_one(rt.alloc())?;
    let shown = printed(rt.alloc(), &mut server, &client_request, 2);
    assert!(rt; matches!(&shown, Err(NotesError::Unobserved)));
    Ok(())
}

// Deregisters with the message ID after 0xffff, which is 0. Returns the result.
fn ended(
    alloc: Global,
    server: &mut Scripted,
    client_request: &ClientRequest<'_>,
) -> Result<(), FetchFault> {
    let observer = Observer {
        client_request,
        token: TOKEN,
        id: 0xffff,
    };
    let mut buffer = [0; BUFFER];
    observer.deregister(alloc, server, &mut buffer)
}

// A deregistration is a GET with Observe 1, and succeeds if a response to it arrives. Without a
// response it fails with `Silence`, after waits of 2, 4, 8, 16 and 32 seconds.
#[test]
fn an_observer_ends(rt: HostRuntime) -> Result<(), Fail> {
    let alloc = rt.alloc();
    let client_request = slot_one(alloc)?;
    let mut server = follows(alloc);
    comes_with(&mut server, 0, b"\x54\x45\x10\x00", b"\x61\x09\xff\x78")?;
    comes_with(&mut server, 0, b"\x64\x45\x00\x00", b"\xff\x61")?;
    ended(alloc, &mut server, &client_request)?;
    check_sent(
        &rt,
        &server,
        0,
        b"\x44\x01\x00\x00\x01\x02\x03\x04\x61\x01\x51\x72\x01\x31",
        &[],
    );
    let mut silent = follows(alloc);
    let silence = ended(alloc, &mut silent, &client_request);
    assert!(rt; matches!(&silence, Err(FetchFault::Silence)));
    assert!(rt; silent.waits.as_slice() == [2, 4, 8, 16, 32].as_slice());
    Ok(())
}

// Observes with an output that has space for three bytes. Returns whether the observation fails
// because a line can't be printed.
fn ends_by_its_output(
    alloc: Global,
    server: &mut Scripted,
    client_request: &ClientRequest<'_>,
) -> bool {
    let observer = Observer {
        client_request,
        token: TOKEN,
        id: 7,
    };
    let printer = NotePrinter {
        observer: &observer,
        shown: Shown::Hex,
        extent: ObservationExtent {
            count: None,
            seconds: None,
        },
    };
    let mut console = Console {
        alloc,
        out: Full(3),
        err: Vec::new(alloc),
    };
    let mut buffer = [0; BUFFER];
    let shown = printer.print_to_end(server, &mut console, &mut buffer);
    matches!(&shown, Err(NotesError::Print(_)))
}

// If a line can't be printed, the client still sends the deregistration, five times, with waits of
// 2, 4, 8, 16 and 32 seconds.
#[test]
fn an_observer_that_fails_deregisters_by_the_schedule(rt: HostRuntime) -> Result<(), Fail> {
    let alloc = rt.alloc();
    let client_request = slot_one(alloc)?;
    let mut server = follows(alloc);
    comes_with(&mut server, 0, b"\x64\x45\x00\x07", b"\x61\x02\xff\x61")?;
    assert!(rt; ends_by_its_output(alloc, &mut server, &client_request));
    assert!(rt; server.waits.as_slice() == [2, 86_400, 2, 4, 8, 16, 32].as_slice());
    assert!(rt; server.sent.len() == 6);
    for place in 1..6 {
        check_sent(
            &rt,
            &server,
            place,
            b"\x44\x01\x00\x08\x01\x02\x03\x04\x61\x01\x51\x72\x01\x31",
            &[],
        );
    }
    Ok(())
}

// A first block with fewer bytes than its Block2 says is a fault. Here Block2 has number 0, more
// blocks and 1,024 bytes.
#[test]
fn a_short_first_block_is_a_fault(rt: HostRuntime) -> Result<(), Fail> {
    let alloc = rt.alloc();
    let client_request = slot_one(alloc)?;
    let mut server = follows(alloc);
    comes_with(
        &mut server,
        0,
        b"\x64\x45\x00\x07",
        b"\x61\x02\xd1\x04\x0e\xff\x61",
    )?;
    let shown = printed(alloc, &mut server, &client_request, 3);
    assert!(rt; matches!(&shown, Err(NotesError::Fault(FetchFault::Part))));
    Ok(())
}

// Printing a line flushes the output, and fails if the output can't be flushed.
#[test]
fn each_line_of_an_observer_is_flushed(rt: HostRuntime) -> Result<(), Fail> {
    let alloc = rt.alloc();
    let (error, note) = (b"\x60\x84\x00\x07", b"\x60\x45\x00\x07\xff\x61");
    for bytes in [error.as_slice(), note.as_slice()] {
        if let Ok(message) = read(bytes) {
            let (code, payload) = (message.code(), message.payload());
            let shown = write_note(alloc, &mut Unflushed, Shown::Text, code, payload);
            assert!(rt; matches!(&shown, Err(PrintError::Output(_))), "{bytes:?}");
        }
    }
    Ok(())
}

// A Reset message to a registration ends the observation with `Rejected`, without a deregistration.
#[test]
fn a_registration_is_rejected(rt: HostRuntime) -> Result<(), Fail> {
    let mut server = follows(rt.alloc());
    comes(&mut server, b"\x70\x00\x00\x07", &[])?;
    let client_request = slot_one(rt.alloc())?;
    let shown = printed(rt.alloc(), &mut server, &client_request, 1);
    assert!(rt; matches!(&shown, Err(NotesError::Fault(FetchFault::Rejected))));
    assert!(rt; server.sent.len() == 1);
    Ok(())
}

// If no server listens at the port, the observation ends with `Failed`, and says why.
#[test]
fn an_observer_of_nobody_is_status_3(rt: HostRuntime) -> Result<(), Fail> {
    let alloc = rt.alloc();
    let port = free_port(&rt)?;
    let mut console = Console {
        alloc,
        out: Vec::new(alloc),
        err: Vec::new(alloc),
    };
    let observing = Observing {
        target: "/r/1",
        port: Some(port),
        shown: Shown::Hex,
        extent: ObservationExtent {
            count: Some(1),
            seconds: None,
        },
    };
    let status = observe(&rt, &mut console, &observing);
    let told = b"UDP: Connection refused (os error 111)\n".as_slice();
    assert!(rt; status == Status::Failed);
    assert!(rt; console.out.is_empty() && console.err.as_slice() == told);
    Ok(())
}
