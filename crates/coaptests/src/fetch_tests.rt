//! The client's program, with a socket of this host as its server.
//!
//! The datagrams are worked out by hand (RFC 7252, section 3; RFC 7641, section 2).
use coap_client::Fetched;
use coap_msg::Code;
use coap_opts::Method;
use fc_cli::Status;
use fc_fetch::asking::ask_by;
use fc_fetch::observer::ObservationExtent;
use fc_fetch::ping::ping;
use fc_fetch::printer::{PrintError, write_answer};
use fc_fetch::{
    Asking, BodySource, Console, FetchOptions, Observing, Pinging, Shown, System, fetch, observe,
};
use fc_fixtures::datagrams::joined;
use fc_fixtures::faulty::{Unflushed, Unreadable};
use fc_fixtures::ports::{at_port, free_port};
use std::alloc::Global;
use std::net::{Ipv4Addr, Net, SocketAddr, SocketAddrV4, UdpSocket};
use std::process::Abort;
use std::random::RandomSource;
use std::rt::Files;
use std::test::Fail;
use std::thread::Threads;
use std::time::{Clock, Duration, Instant};
use std::{fs, io, thread};

// Opens a server's socket at a free port. A receive from it fails after 20 seconds.
fn server_socket<R: Net>(rt: &R) -> io::Result<UdpSocket> {
    let socket = UdpSocket::bind(rt, at_port(0))?;
    socket.set_read_timeout(Some(Duration::from_secs(20)))?;
    Ok(socket)
}

// Receives a datagram at a server's socket. Returns the datagram and its sender.
fn received(alloc: Global, socket: &UdpSocket) -> io::Result<(Vec<u8>, SocketAddr)> {
    let mut buffer = [0; 64];
    let (count, client) = socket.recv_from(&mut buffer)?;
    let bytes = joined(alloc, buffer.get(..count).unwrap_or(&[]), &[])?;
    Ok((bytes, client))
}

// Receives one request and responds to it. The response has the type and code of `head`, the
// request's message ID and token, and then `tail`. Returns the request without its message ID.
fn answer_once(
    alloc: Global,
    socket: &UdpSocket,
    head: [u8; 2],
    tail: &[u8],
) -> io::Result<Vec<u8>> {
    let (bytes, client) = received(alloc, socket)?;
    let [kind, code] = head;
    let id = bytes.get(2..4).unwrap_or(&[]);
    let token = bytes.get(4..4 + usize::from(kind & 15)).unwrap_or(&[]);
    let answer = joined(alloc, &[kind, code], id)?;
    let answer = joined(alloc, &answer, token)?;
    let answer = joined(alloc, &answer, tail)?;
    socket.send_to(&answer, client)?;
    let front = bytes.get(..2).unwrap_or(&[]);
    Ok(joined(alloc, front, bytes.get(4..).unwrap_or(&[]))?)
}

// Two requests: a non-confirmable POST with a body (type 1, code 0.02), and a confirmable DELETE
// (type 0, code 0.04). Each row has the type and code of the response, 2.04 or 2.02, and the
// request's bytes without its message ID.
static ASKED: [(bool, Method, &[u8], [u8; 2], &[u8]); 2] = [
    (
        false,
        Method::Post,
        b"20",
        [0x50, 0x44],
        b"\x50\x02\xb1\x72\x01\x31\xff\x32\x30",
    ),
    (
        true,
        Method::Delete,
        b"",
        [0x60, 0x42],
        b"\x40\x04\xb1\x72\x01\x31",
    ),
];

// The request that is sent has the type, method and body of the options.
#[test]
fn a_request_has_the_type_the_method_and_the_body_that_are_asked_for(
    rt: HostRuntime,
) -> Result<(), Fail> {
    let alloc = rt.alloc();
    for (confirmable, method, body, answer, expected) in ASKED.iter().copied() {
        let server = server_socket(&rt)?;
        let asking = FetchOptions {
            confirmable,
            method,
            target: "/r/1",
            port: Some(server.local_addr()?.port()),
            source: "a slice",
            content_format: None,
            shown: Shown::Hex,
        };
        let (asked, ended) = thread::join(
            &rt,
            || answer_once(alloc, &server, answer, &[]),
            || {
                let mut body = body;
                fetch(&rt, &mut body, &mut captured(alloc), &asking)
            },
        );
        assert!(rt;
            asked?.as_slice() == expected && ended == Status::Done,
            "{expected:?}"
        );
    }
    Ok(())
}

// Serves an observer without any notification. The response to the registration has Observe 1, and
// the one to the deregistration has no Observe.
fn have_observer(alloc: Global, socket: &UdpSocket) -> io::Result<()> {
    answer_once(alloc, socket, [0x64, 0x45], b"\x61\x01\xff\x61")?;
    answer_once(alloc, socket, [0x64, 0x45], b"\xff\x61")?;
    Ok(())
}

// An observation of one second prints the first response, ends with `Done`, and lasts from 990 ms
// to 20 seconds.
#[test]
fn an_observation_of_one_second_ends_in_seconds(rt: HostRuntime) -> Result<(), Fail> {
    let alloc = rt.alloc();
    let server = server_socket(&rt)?;
    let observing = Observing {
        target: "/r/1",
        port: Some(server.local_addr()?.port()),
        shown: Shown::Text,
        extent: ObservationExtent {
            count: None,
            seconds: Some(1),
        },
    };
    let start = Instant::now(&rt)?;
    let (had, (ended, printed)) = thread::join(
        &rt,
        || have_observer(alloc, &server),
        || {
            let mut console = captured(alloc);
            let ended = observe(&rt, &mut console, &observing);
            (ended, console.out)
        },
    );
    had?;
    let lasted = start.elapsed(&rt)?;
    assert!(rt; ended == Status::Done && printed.as_slice() == b"2.05 a\n".as_slice());
    assert!(rt; lasted >= Duration::from_millis(990) && lasted < Duration::from_secs(20));
    Ok(())
}

// The system, but with known random bytes: 0x51 and the bytes after it.
#[derive(Drop)]
struct Known<'a, R: Net + Clock> {
    rt: &'a R,
}

impl<'a, R: Net + Clock> RandomSource for Known<'a, R> {
    fn fill_bytes(&self, buf: &mut [u8]) -> io::Result<()> {
        for (byte, known) in buf.iter_mut().zip(0x51..=0xff) {
            *byte = known;
        }
        Ok(())
    }
}

impl<'a, R: Net + Clock> Clock for Known<'a, R> {
    fn monotonic(&self) -> io::Result<Duration> {
        self.rt.monotonic()
    }

    fn since_1970(&self) -> io::Result<Duration> {
        self.rt.since_1970()
    }
}

impl<'a, R: Net + Clock> Net for Known<'a, R> {
    type Stream = R::Stream;

    type Listener = R::Listener;

    fn bind(&self, addr: SocketAddr) -> io::Result<R::Listener> {
        self.rt.bind(addr)
    }

    fn connect(&self, addr: SocketAddr) -> io::Result<R::Stream> {
        self.rt.connect(addr)
    }

    // Permits a client only the unspecified address and a free port. A socket with these reaches
    // each server of the client's network.
    fn bind_udp(&self, addr: SocketAddr) -> io::Result<UdpSocket> {
        if addr != SocketAddr::V4(SocketAddrV4::new(Ipv4Addr::UNSPECIFIED, 0)) {
            return Err(io::Error::from(io::ErrorKind::AddrNotAvailable));
        }
        self.rt.bind_udp(addr)
    }
}

// Serves an observer. Returns the registration and the deregistration, without message IDs.
fn observed(alloc: Global, socket: &UdpSocket) -> io::Result<(Vec<u8>, Vec<u8>)> {
    let registration = answer_once(alloc, socket, [0x64, 0x45], b"\x61\x01\xff\x61")?;
    let deregistration = answer_once(alloc, socket, [0x64, 0x45], b"\xff\x61")?;
    Ok((registration, deregistration))
}

// Makes a console that keeps what is written to it.
fn captured(alloc: Global) -> Console<Vec<u8>, Vec<u8>> {
    Console {
        alloc,
        out: Vec::new(alloc),
        err: Vec::new(alloc),
    }
}

// Sends a request without a body. Returns the status and the output.
fn fetched_from<R: Net + Clock + RandomSource>(
    rt: &R,
    alloc: Global,
    asking: &FetchOptions<'_>,
) -> (Status, Vec<u8>) {
    let mut body = b"".as_slice();
    let mut console = captured(alloc);
    let ended = fetch(rt, &mut body, &mut console, asking);
    (ended, console.out)
}

// Observes with known random bytes. Returns the status and the output.
fn observed_by_known<R: Net + Clock>(
    rt: &R,
    alloc: Global,
    observing: &Observing<'_>,
) -> (Status, Vec<u8>) {
    let known = Known { rt };
    let mut console = captured(alloc);
    let ended = observe(&known, &mut console, observing);
    (ended, console.out)
}

// `--count 1` ends after the first response, and the token consists of the system's random bytes
// (RFC 7252, section 5.3.1).
#[test]
fn an_observer_has_a_random_token_and_ends_by_its_count(rt: HostRuntime) -> Result<(), Fail> {
    let alloc = rt.alloc();
    let server = server_socket(&rt)?;
    let observing = Observing {
        target: "/r/1",
        port: Some(server.local_addr()?.port()),
        shown: Shown::Text,
        extent: ObservationExtent {
            count: Some(1),
            seconds: None,
        },
    };
    let (asked, (ended, printed)) = thread::join(
        &rt,
        || observed(alloc, &server),
        || observed_by_known(&rt, alloc, &observing),
    );
    assert!(rt; ended == Status::Done && printed.as_slice() == b"2.05 a\n".as_slice());
    let (registration, deregistration) = asked?;
    assert!(rt; registration.as_slice() == b"\x44\x01QRST\x60\x51\x72\x01\x31".as_slice());
    assert!(rt; deregistration.as_slice() == b"\x44\x01QRST\x61\x01\x51\x72\x01\x31".as_slice());
    Ok(())
}

// Words that are no target, each with the error that is printed.
static BAD_TARGETS: [(&str, &[u8]); 3] = [
    ("r/1", b"a path begins with a slash, as /r/1\n"),
    (
        "/r//1",
        b"segment 2 of the path is empty: between two slashes, and behind the last one, stand 1 to 255 bytes\n",
    ),
    (
        "/",
        b"segment 1 of the path is empty: between two slashes, and behind the last one, stand 1 to 255 bytes\n",
    ),
];

// A POST is sent in one datagram, and 1,263 bytes don't fit into it after a path. The program ends
// with `Bad`, and says why.
#[test]
fn a_request_without_room_is_told(rt: HostRuntime) {
    let alloc = rt.alloc();
    let asking = FetchOptions {
        confirmable: true,
        method: Method::Post,
        target: "/r/1",
        port: Some(1),
        source: "a slice",
        content_format: None,
        shown: Shown::Hex,
    };
    let bytes = [7; 1263];
    let mut body = bytes.as_slice();
    let mut console = captured(alloc);
    let ended = fetch(&rt, &mut body, &mut console, &asking);
    assert!(rt; ended == Status::Bad && console.out.is_empty());
    assert!(rt;
        console
            .err
            .as_slice()
            .starts_with(b"the request has no room in a datagram")
    );
}

// A path of five segments of 255 bytes doesn't fit into a datagram. An observation of it ends with
// `Bad`, and says why.
#[test]
fn a_registration_without_room_is_told(rt: HostRuntime) -> Result<(), Fail> {
    let alloc = rt.alloc();
    let mut target = String::new(alloc);
    for place in 0..1280u16 {
        target.push_str(if place % 256 == 0 { "/" } else { "a" })?;
    }
    let observing = Observing {
        target: target.as_str(),
        port: Some(1),
        shown: Shown::Text,
        extent: ObservationExtent {
            count: Some(1),
            seconds: None,
        },
    };
    let mut console = captured(alloc);
    let ended = observe(&rt, &mut console, &observing);
    assert!(rt; ended == Status::Bad && console.out.is_empty());
    assert!(rt;
        console
            .err
            .as_slice()
            .starts_with(b"the request has no room in a datagram")
    );
    Ok(())
}

// An observation of a path without a slash at its beginning ends with `Bad`, and says why.
#[test]
fn a_bad_target_of_an_observer_is_told(rt: HostRuntime) {
    let alloc = rt.alloc();
    let observing = Observing {
        target: "r/1",
        port: Some(1),
        shown: Shown::Text,
        extent: ObservationExtent {
            count: Some(1),
            seconds: None,
        },
    };
    let mut console = captured(alloc);
    let ended = observe(&rt, &mut console, &observing);
    assert!(rt; ended == Status::Bad && console.out.is_empty());
    assert!(rt; console.err.as_slice() == b"a path begins with a slash, as /r/1\n".as_slice());
}

// An error response of class 4 or 5 is printed, and the program ends with `Refused`.
#[test]
fn an_error_response_is_printed_and_refused(rt: HostRuntime) -> Result<(), Fail> {
    let alloc = rt.alloc();
    for (code, expected) in [(0x84, b"4.04\n"), (0xa0, b"5.00\n"), (0xa3, b"5.03\n")] {
        let server = server_socket(&rt)?;
        let asking = FetchOptions {
            confirmable: true,
            method: Method::Get,
            target: "/r/1",
            port: Some(server.local_addr()?.port()),
            source: "a slice",
            content_format: None,
            shown: Shown::Hex,
        };
        let (asked, (ended, printed)) = thread::join(
            &rt,
            || answer_once(alloc, &server, [0x60, code], &[]),
            || fetched_from(&rt, alloc, &asking),
        );
        let _asked = asked?;
        assert!(rt; ended == Status::Refused && printed.as_slice() == expected.as_slice());
    }
    Ok(())
}

// A request to a word that is no target ends with `Bad`, prints no response, and says why.
#[test]
fn a_bad_target_is_told(rt: HostRuntime) {
    let alloc = rt.alloc();
    for (target, expected) in BAD_TARGETS.iter().copied() {
        let asking = FetchOptions {
            confirmable: true,
            method: Method::Get,
            target,
            port: Some(1),
            source: "a slice",
            content_format: None,
            shown: Shown::Hex,
        };
        let mut body = b"".as_slice();
        let mut console = captured(alloc);
        let ended = fetch(&rt, &mut body, &mut console, &asking);
        assert!(rt; ended == Status::Bad && console.out.is_empty(), "{target}");
        assert!(rt; console.err.as_slice() == expected, "{target}");
    }
}

// Printing a response flushes the output, and fails if the output can't be flushed.
#[test]
fn an_answer_is_flushed(rt: HostRuntime) -> Result<(), Fail> {
    let alloc = rt.alloc();
    let mut body = Vec::new(alloc);
    body.push(7)?;
    let fetched = Fetched {
        code: Code::CONTENT,
        body,
    };
    let shown = write_answer(alloc, &mut Unflushed, Shown::Hex, &fetched);
    assert!(rt; matches!(&shown, Err(PrintError::Output(_))));
    Ok(())
}

// A POST of JSON has Content-Format 50, option 12, in one byte, between the path and the query (RFC
// 7252, sections 5.10 and 12.3).
#[test]
fn a_body_has_the_format_that_is_given(rt: HostRuntime) -> Result<(), Fail> {
    let alloc = rt.alloc();
    let server = UdpSocket::bind(&rt, at_port(0))?;
    let asking = FetchOptions {
        confirmable: true,
        method: Method::Post,
        target: "/r/1?x=1",
        port: Some(server.local_addr()?.port()),
        source: "a slice",
        content_format: Some(50),
        shown: Shown::Hex,
    };
    let (asked, ended) = thread::join(
        &rt,
        || answer_once(alloc, &server, [0x60, 0x44], &[]),
        || {
            let mut body = b"20".as_slice();
            fetch(&rt, &mut body, &mut captured(alloc), &asking)
        },
    );
    assert!(rt; asked?.as_slice() == b"\x40\x02\xb1\x72\x01\x31\x11\x32\x33x=1\xff20".as_slice());
    assert!(rt; ended == Status::Done);
    Ok(())
}

// Sends a request to this port of this host. Returns the status and the output. Reading the input
// would fail.
fn ended_at<'a, R: Net + Clock + RandomSource + Files>(
    rt: &R,
    alloc: Global,
    method: Method,
    port: u16,
    body: BodySource<'a>,
    output: Option<&'a str>,
) -> (Status, Vec<u8>) {
    let asking = Asking {
        options: FetchOptions {
            confirmable: true,
            method,
            target: "/r/1",
            port: Some(port),
            source: "an input that fails",
            content_format: None,
            shown: Shown::Text,
        },
        body,
        output,
    };
    let mut console = captured(alloc);
    let mut input = Unreadable;
    let ended = ask_by(&System { rt }, rt, &mut input, &mut console, &asking);
    (ended, console.out)
}

// With `-n` or `-e`, a POST doesn't read the input. Without them a POST reads the input as its
// body, and ends with `Failed` if the input can't be read.
#[test]
fn no_input_is_read_where_the_body_is_none_or_a_text(rt: HostRuntime) -> Result<(), Fail> {
    let alloc = rt.alloc();
    let bodies: [(BodySource<'_>, &[u8]); 2] = [
        (BodySource::None, b"\x40\x02\xb1\x72\x01\x31"),
        (BodySource::Text("20"), b"\x40\x02\xb1\x72\x01\x31\xff20"),
    ];
    for (body, expected) in bodies.iter().copied() {
        let server = UdpSocket::bind(&rt, at_port(0))?;
        let port = server.local_addr()?.port();
        let (asked, (ended, printed)) = thread::join(
            &rt,
            || answer_once(alloc, &server, [0x60, 0x44], &[]),
            || ended_at(&rt, alloc, Method::Post, port, body, None),
        );
        assert!(rt; asked?.as_slice() == expected, "{expected:?}");
        assert!(rt; ended == Status::Done && printed.as_slice() == b"2.04\n".as_slice());
    }
    let (ended, printed) = ended_at(&rt, alloc, Method::Post, 1, BodySource::Input, None);
    assert!(rt; ended == Status::Failed && printed.is_empty());
    Ok(())
}

// The name of the file that a test writes and removes.
const KEPT: &str = "answer-of-a-test";

// Sends a GET whose response has this head and tail, with `-o` and this file name. Returns the
// status and the output.
fn kept_in<R: Net + Clock + RandomSource + Files + Threads + Sync>(
    rt: &R,
    alloc: Global,
    name: &str,
    head: [u8; 2],
    tail: &[u8],
) -> Result<(Status, Vec<u8>), Fail> {
    let server = UdpSocket::bind(rt, at_port(0))?;
    let port = server.local_addr()?.port();
    let (asked, ended) = thread::join(
        rt,
        || answer_once(alloc, &server, head, tail),
        || ended_at(rt, alloc, Method::Get, port, BodySource::None, Some(name)),
    );
    let _asked = asked?;
    Ok(ended)
}

// With `-o FILE`, the bytes of a success replace those of the file, and the code is printed. An
// error response is printed, and doesn't change the file.
#[test]
fn a_success_goes_to_its_file(rt: HostRuntime) -> Result<(), Fail> {
    let alloc = rt.alloc();
    fs::write(&rt, KEPT, b"before".as_slice())?;
    let (ended, printed) = kept_in(&rt, alloc, KEPT, [0x60, 0x84], b"\xffgone")?;
    assert!(rt; ended == Status::Refused && printed.as_slice() == b"4.04\ngone\n".as_slice());
    assert!(rt; fs::read(&rt, KEPT)?.as_slice() == b"before".as_slice());
    let (ended, printed) = kept_in(&rt, alloc, KEPT, [0x60, 0x45], b"\xff\x00\x0a\xff")?;
    assert!(rt; ended == Status::Done && printed.as_slice() == b"2.05\n".as_slice());
    assert!(rt; fs::read(&rt, KEPT)?.as_slice() == b"\x00\x0a\xff".as_slice());
    let (ended, printed) = kept_in(&rt, alloc, KEPT, [0x60, 0x45], b"")?;
    assert!(rt; ended == Status::Done && printed.as_slice() == b"2.05\n".as_slice());
    assert!(rt; fs::read(&rt, KEPT)?.is_empty());
    fs::remove_file(&rt, KEPT)?;
    let (ended, _printed) = kept_in(&rt, alloc, "/", [0x60, 0x45], b"\xffa")?;
    assert!(rt; ended == Status::Failed);
    Ok(())
}

// If no server listens at the port, the system reports this immediately, and the ping ends with
// `Failed`.
#[test]
fn a_ping_without_response_fails(rt: HostRuntime) -> Result<(), Fail> {
    let port = free_port(&rt)?;
    let start = Instant::now(&rt)?;
    let mut err = Vec::new(rt.alloc());
    let pinging = Pinging {
        target: None,
        port: Some(port),
    };
    let ended = ping(&rt, rt.alloc(), &mut err, &pinging);
    assert!(rt;
        ended == Status::Failed
            && err.as_slice() == b"UDP: Connection refused (os error 111)\n".as_slice()
    );
    assert!(rt; start.elapsed(&rt)? < Duration::from_secs(2));
    Ok(())
}

// Targets that a ping refuses: a path, a query, a path without a host, and a URI together with a
// port.
static BAD_PINGS: [(&str, Option<u16>); 4] = [
    ("coap://127.0.0.1/r/1", None),
    ("coap://127.0.0.1?a", None),
    ("/r/1", None),
    ("coap://127.0.0.1", Some(5683)),
];

// A ping of a refused target ends with `Bad`, and says why.
#[test]
fn a_bad_target_of_a_ping_is_told(rt: HostRuntime) {
    let alloc = rt.alloc();
    for (target, port) in BAD_PINGS.iter().copied() {
        let mut err = Vec::new(alloc);
        let pinging = Pinging {
            target: Some(target),
            port,
        };
        let ended = ping(&rt, alloc, &mut err, &pinging);
        assert!(rt; ended == Status::Bad && !err.is_empty(), "{target}");
    }
}
