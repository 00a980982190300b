//! A server and its clients in one process, over sockets of this host.
//!
//! The expected bytes are worked out by hand.
ghost use Rattle.std.specs.Prelude.{◌≤◌, IfSome, length};

use crate::serving::{captured, extent_of, serve_without_store, slots_without_store};
use coap_msg::{Emission, Endpoint};
use coap_opts::Method;
use fc_backend::CallLog;
use fc_cli::Status;
use fc_config::options::{Extent, Listening};
use fc_fetch::observer::ObservationExtent;
use fc_fetch::{FetchOptions, Observing, Shown, fetch, observe};
use fc_fixtures::ports::{at_port, free_port};
use fc_front::{DEFAULT_POLICY, Policy};
use fc_host::sensors::{NoSensors, Sensors};
use fc_host::socket::{Buffer, Receiving, Sink, Source, open};
use fc_receive::reports::Reports;
use fc_record::{NoChanges, NoReports};
use fc_service::serve::{Records, Service, serve, serve_at};
use log::sink::Memory;
use log::{LevelFilter, Log, Logged};
use std::alloc::{AllocError, Global};
use std::net::{Net, SocketAddrV4, UdpSocket};
use std::process::Abort;
use std::random::RandomSource;
use std::sync::Wait;
use std::sync::atomic::{AtomicUsize, Ordering};
use std::test::Fail;
use std::thread::Threads;
use std::time::{Clock, Duration};
use std::{io, thread};

// The image of a program that counts POSTs in eight bytes of variables: nine slots, and a budget of
// nine steps.
pub(crate) static COUNT: [u8; 88] = [
    0x46, 0x43, 0x42, 0x31, 0x08, 0x00, 0x09, 0x00, 0x09, 0x00, 0x00, 0x00, 0x00, 0x00, 0x00, 0x00,
    0xb7, 0x01, 0x00, 0x00, 0x00, 0x00, 0x00, 0x00, 0x85, 0x00, 0x00, 0x00, 0x03, 0x00, 0x00, 0x00,
    0x07, 0x00, 0x00, 0x00, 0x01, 0x00, 0x00, 0x00, 0xbf, 0x02, 0x00, 0x00, 0x00, 0x00, 0x00, 0x00,
    0xb7, 0x01, 0x00, 0x00, 0x00, 0x00, 0x00, 0x00, 0x85, 0x00, 0x00, 0x00, 0x04, 0x00, 0x00, 0x00,
    0x85, 0x00, 0x00, 0x00, 0x07, 0x00, 0x00, 0x00, 0xb7, 0x00, 0x00, 0x00, 0x00, 0x00, 0x00, 0x00,
    0x95, 0x00, 0x00, 0x00, 0x00, 0x00, 0x00, 0x00,
];

// Sends a request to this path of the server at `port`. Checks the client's output and status, and
// that it reports no error.
pub(crate) fn check_asked<R: Abort + Net + Clock + RandomSource + AllocGlobal>(
    rt: &R,
    port: u16,
    method: Method,
    path: &str,
    mut payload: &[u8],
    status: Status,
    printed: &str,
) {
    let mut console = captured(rt.alloc());
    let asking = FetchOptions {
        confirmable: true,
        method,
        target: path,
        port: Some(port),
        source: "a slice",
        content_format: None,
        shown: Shown::Hex,
    };
    let ended = fetch(rt, &mut payload, &mut console, &asking);
    assert!(rt; ended == status && console.err.is_empty(), "{path}");
    assert!(rt; console.out.as_slice() == printed.as_bytes(), "{path}");
}

// Installs a counter in slot 1, sends a POST and a GET to it, and sends a GET to the empty slot 2.
// Checks each response.
fn ask_counter<R: Abort + Net + Clock + RandomSource + AllocGlobal>(
    rt: &R,
    port: u16,
) -> Result<(), Fail> {
    // version=16809217 cost=9 budget=9 vars=8
    let installed =
        "2.01\n76657273696f6e3d313638303932313720636f73743d39206275646765743d3920766172733d38\n";
    check_asked(
        rt,
        port,
        Method::Put,
        "/p/1",
        &COUNT,
        Status::Done,
        installed,
    );
    check_asked(rt, port, Method::Post, "/r/1", &[], Status::Done, "2.04\n");
    check_asked(rt, port, Method::Get, "/r/1", &[], Status::Done, "2.05\n");
    check_asked(
        rt,
        port,
        Method::Get,
        "/r/2",
        &[],
        Status::Refused,
        "4.04\n",
    );
    Ok(())
}

// Returns records with this logger for the end of a server, no changes, and no reports.
pub(crate) fn unrecorded<L: Log>(log: &L) -> Records<'_, L, NoChanges, NoReports> {
    Records {
        end: log,
        changes: &NoChanges,
        reports: never(),
    }
}

// Returns the setting in which a server makes no report.
pub(crate) fn never<'a>() -> Reports<'a, NoReports> {
    Reports {
        every: None,
        reporter: &NoReports,
    }
}

// Serves a socket with the slots of `slots_without_store`. Returns whether serving succeeded, and
// the log.
fn serve_logged<R: Threads + Wait + Clock + Sync, Z: Sensors + Sync>(
    rt: &R,
    alloc: Global,
    sensors: &Z,
    socket: &UdpSocket,
    started: u64,
    policy: &Policy,
    extent: Extent,
) -> (bool, Memory) {
    let memory = Memory::new(alloc);
    let log = Logged::new(rt, LevelFilter::Info, &memory);
    let mut err = Vec::new(alloc);
    let Ok(slots) = slots_without_store(alloc, started, policy) else {
        return (false, memory);
    };
    let service = Service {
        alloc,
        records: &unrecorded(&log),
        sensors,
        timers: Vec::new(alloc),
        extent,
    };
    let source = Receiving::new(socket);
    let served = serve_at(rt, &mut err, service, slots, source, socket);
    (served.is_some(), memory)
}

// Serves at a free port of this host, while `ask` sends requests to that port. Checks that serving
// succeeds. Returns the log.
pub(crate) fn serve_while<
    R: Abort + AllocGlobal + Threads + Wait + Clock + Net + Sync,
    Z: Sensors + Sync,
    F: FnOnce(u16) -> Result<(), Fail>,
>(rt: &R, sensors: &Z, extent: Extent, ask: F) -> Result<Memory, Fail>
    requires { F.IsAlwaysCallable ask }
{
    serve_since(rt, sensors, 0, &DEFAULT_POLICY, extent, ask)
}

// Serves as `serve_while` does, with slots of a server that starts at this time, in milliseconds
// since 1970, and has this policy.
pub(crate) fn serve_since<
    R: Abort + AllocGlobal + Threads + Wait + Clock + Net + Sync,
    Z: Sensors + Sync,
    F: FnOnce(u16) -> Result<(), Fail>,
>(
    rt: &R,
    sensors: &Z,
    started: u64,
    policy: &Policy,
    extent: Extent,
    ask: F,
) -> Result<Memory, Fail>
    requires { F.IsAlwaysCallable ask }
{
    let alloc = rt.alloc();
    let socket = open(rt, at_port(0))?;
    let port = socket.local_addr()?.port();
    let ((served, memory), asked) = thread::join(
        rt,
        || serve_logged(rt, alloc, sensors, &socket, started, policy, extent),
        || -> Result<(), Fail>
            requires { F.IsAlwaysCallable ask }
        { ask(port) },
    );
    asked?;
    assert!(rt; served);
    Ok(memory)
}

// Serves the four requests of `ask_counter` with this many workers. The server starts one second
// after the beginning of 1970, so that its slots begin at serial 2^24 + 32,000.
fn serve_counter<R: Abort + AllocGlobal + Threads + Wait + Clock + Net + RandomSource + Sync>(
    rt: &R,
    workers: u8,
) -> Result<(), Fail> {
    let extent = extent_of(workers, 4);
    let memory = serve_since(
        rt,
        &NoSensors,
        1_000,
        &DEFAULT_POLICY,
        extent,
        |port| ask_counter(rt, port),
    )?;
    check_logged(rt, memory, "sent 4 failed 0");
    Ok(())
}

// Checks that one line was logged, and that it ends with this message.
pub(crate) fn check_logged<R: Abort>(rt: &R, memory: Memory, message: &str) {
    let lines = memory.into_lines();
    assert!(rt; lines.len() == 1, "one line");
    for line in lines.as_slice() {
        assert!(rt; line.as_str().ends_with(message), "{message}");
    }
}

// With one worker and with two, a server answers each request of a client, and logs the number of
// responses.
#[test]
fn a_server_answers_clients(rt: HostRuntime) -> Result<(), Fail> {
    serve_counter(&rt, 1)?;
    serve_counter(&rt, 2)
}

// A server can't open a port that another socket has. The status is `Failed`, and `err` says why.
#[test]
fn a_taken_port_is_status_3(rt: HostRuntime) -> Result<(), Fail> {
    let alloc = rt.alloc();
    let socket = open(&rt, at_port(0))?;
    let port = socket.local_addr()?.port();
    let memory = Memory::new(alloc);
    let log = Logged::new(&rt, LevelFilter::Info, &memory);
    let mut err = Vec::new(alloc);
    let listening = Listening {
        address: at_port(port),
        told: true,
    };
    let service = Service {
        alloc,
        records: &unrecorded(&log),
        sensors: &NoSensors,
        timers: Vec::new(alloc),
        extent: extent_of(1, 1),
    };
    let slots = slots_without_store(alloc, 0, &DEFAULT_POLICY)?;
    let status = serve(&rt, &mut err, service, slots, listening);
    let told = format!(in alloc; "UDP 127.0.0.1:{port}: Address already in use (os error 98)\n")?;
    assert!(rt; status == Status::Failed && err.as_slice() == told.as_bytes());
    Ok(())
}

// A request to a port without a listener fails immediately. The status is `Failed`, and `err` says
// why.
#[test]
fn a_refused_port_is_status_3(rt: HostRuntime) -> Result<(), Fail> {
    let alloc = rt.alloc();
    let port = free_port(&rt)?;
    let mut console = captured(alloc);
    let asking = FetchOptions {
        confirmable: true,
        method: Method::Get,
        target: "/r/1",
        port: Some(port),
        source: "a slice",
        content_format: None,
        shown: Shown::Hex,
    };
    let mut payload: &[u8] = &[];
    let ended = fetch(&rt, &mut payload, &mut console, &asking);
    let told = b"UDP: Connection refused (os error 111)\n".as_slice();
    assert!(rt; ended == Status::Failed);
    assert!(rt; console.out.is_empty() && console.err.as_slice() == told);
    Ok(())
}

// Returns the largest image of version 1, of 512 slots and 4,112 bytes: `mov64 r0, 0`, 511 times,
// and `exit`. The budget is 512 steps.
pub(crate) fn largest_image(alloc: Global) -> Result<Vec<u8>, AllocError> {
    let mut image = Vec::new(alloc);
    image.extend_from_slice(b"FCB1\x00\x00\x00\x02\x00\x02\x00\x00\x00\x00\x00\x00")?;
    for _ in 0..511 {
        image.extend_from_slice(b"\xb7\x00\x00\x00\x00\x00\x00\x00")?;
    }
    image.extend_from_slice(b"\x95\x00\x00\x00\x00\x00\x00\x00")?;
    Ok(image)
}

// The image of a program that replies with the first 1,100 bytes of its request.
static LONG: &[u8] =
    b"FCB1\x00\x00\x04\x00\x04\x00\x00\x00\x00\x00\x00\x00\xb7\x02\x00\x00\x4c\x04\x00\x00\x85\x00\x00\x00\x05\x00\x00\x00\xb7\x00\x00\x00\x00\x00\x00\x00\x95\x00\x00\x00\x00\x00\x00\x00";

// Returns the client's output for a GET of slot 2 if the slot has the program LONG. The output is
// the code, this separator, and the reply in hex digits: the method 1, the slot 2, and zeros.
fn long_answer(alloc: Global, separator: &str) -> Result<String, AllocError> {
    let mut text = format!(in alloc; "2.05{separator}0102")?;
    for _ in 2..1100 {
        text.push_str("00")?;
    }
    text.push_str("\n")?;
    Ok(text)
}

// Sends the largest image, which takes five blocks, and LONG. Then sends a GET whose response takes
// two blocks. Checks each response.
fn ask_by_blocks<R: Abort + Net + Clock + RandomSource + AllocGlobal>(
    rt: &R,
    port: u16,
) -> Result<(), Fail> {
    let image = largest_image(rt.alloc())?;
    let answer = long_answer(rt.alloc(), "\n")?;
    // version=1 cost=512 budget=512 vars=0
    let largest =
        "2.01\n76657273696f6e3d3120636f73743d353132206275646765743d35313220766172733d30\n";
    check_asked(rt, port, Method::Put, "/p/0", &image, Status::Done, largest);
    // version=1 cost=4 budget=4 vars=0
    let installed = "2.01\n76657273696f6e3d3120636f73743d34206275646765743d3420766172733d30\n";
    check_asked(rt, port, Method::Put, "/p/2", LONG, Status::Done, installed);
    check_asked(rt, port, Method::Get, "/r/2", &[], Status::Done, &answer);
    Ok(())
}

// A server receives an image in five blocks, and sends a response in two.
#[test]
fn bodies_go_and_come_by_blocks(rt: HostRuntime) -> Result<(), Fail> {
    let extent = extent_of(2, 8);
    let memory = serve_while(&rt, &NoSensors, extent, |port| ask_by_blocks(&rt, port))?;
    check_logged(&rt, memory, "sent 8 failed 0");
    Ok(())
}

// Installs LONG in slot 2, and observes its state of 1,100 bytes. The first block is in the
// response to the registration, and the second block is requested. Checks the output.
fn observe_by_blocks<R: Abort + Net + Clock + RandomSource + AllocGlobal>(
    rt: &R,
    port: u16,
) -> Result<(), Fail> {
    let alloc = rt.alloc();
    let installed = "2.01\n76657273696f6e3d3120636f73743d34206275646765743d3420766172733d30\n";
    check_asked(rt, port, Method::Put, "/p/2", LONG, Status::Done, installed);
    let observing = Observing {
        target: "/r/2",
        port: Some(port),
        shown: Shown::Hex,
        extent: ObservationExtent {
            count: Some(1),
            seconds: None,
        },
    };
    let mut console = captured(alloc);
    let ended = observe(rt, &mut console, &observing);
    assert!(rt; ended == Status::Done && console.err.is_empty());
    assert!(rt; console.out.as_slice() == long_answer(alloc, " ")?.as_bytes());
    Ok(())
}

// A state of two blocks is observed with four datagrams: the upload, the registration, the request
// for the second block, and the deregistration.
#[test]
fn a_state_of_two_blocks_is_observed(rt: HostRuntime) -> Result<(), Fail> {
    let extent = extent_of(2, 4);
    let memory = serve_while(&rt, &NoSensors, extent, |port| observe_by_blocks(&rt, port))?;
    check_logged(&rt, memory, "sent 4 failed 0");
    Ok(())
}

// A source that returns a datagram at its second and at its fourth call, and none at the others.
// The first datagram is for a path that doesn't exist, which needs no job. The second is for slot
// 0, which is empty, and needs a job.
#[derive(Drop)]
struct Script {
    calls: usize,
}

// A GET of /x, a path that doesn't exist.
static NO_PATH: [u8; 6] = [0x40, 0x01, 0x00, 0x01, 0xb1, 0x78];

// A GET of /r/0, whose slot is empty.
static NO_PROGRAM: [u8; 8] = [0x40, 0x01, 0x00, 0x02, 0xb1, 0x72, 0x01, 0x30];

// The sender of the datagrams.
const PEER: Endpoint = Endpoint {
    ip: [127, 0, 0, 1],
    port: 5683,
};

// Copies a datagram to the start of the buffer. Returns its length and sender, or `None` if the
// buffer is too short.
pub(crate) fn put_datagram(bytes: &[u8], buffer: &mut [u8]) -> Option<(usize, Endpoint)>
    ensures { IfSome result (λ r. r.0 ≤ length buffer.new) }
{
    buffer.get_mut(..bytes.len())?.copy_from_slice(bytes);
    Some((bytes.len(), PEER))
}

impl Source for Script {
    fn receive(
        &mut self,
        wait: Option<u64>,
        buffer: &mut Buffer,
        log: &mut CallLog,
    ) -> Option<(usize, Endpoint)> {
        let _ = log;
        let _ = wait;
        self.calls = self.calls.saturating_add(1);
        match self.calls {
            2 => put_datagram(&NO_PATH, buffer),
            4 => put_datagram(&NO_PROGRAM, buffer),
            _ => None,
        }
    }
}

// A sink that fails to send every second datagram.
#[derive(Drop)]
struct Lossy {
    sends: AtomicUsize,
}

impl Sink for Lossy {
    fn send(&self, emission: &Emission, log: &mut CallLog) -> bool {
        let _ = emission;
        let _ = log;
        self.sends.fetch_add(1, Ordering::SeqCst) % 2 == 0
    }
}

// Serves the script with this many workers and this level of the log, up to two datagrams. Checks
// that the source was called four times, and the sink twice. Returns the log.
fn serve_script<R: Abort + AllocGlobal + Threads + Wait + Clock + Sync>(
    rt: &R,
    level: LevelFilter,
    workers: u8,
) -> Memory {
    let alloc = rt.alloc();
    let memory = Memory::new(alloc);
    let log = Logged::new(rt, level, &memory);
    let mut err = Vec::new(alloc);
    let script = Script { calls: 0 };
    let lossy = Lossy {
        sends: AtomicUsize::new(0),
    };
    let extent = extent_of(workers, 2);
    let served = serve_without_store(
        rt,
        alloc,
        &unrecorded(&log),
        &mut err,
        &NoSensors,
        script,
        &lossy,
        &DEFAULT_POLICY,
        extent,
    );
    let calls = served.map(|script| script.calls);
    assert!(rt; calls == Some(4) && err.is_empty());
    assert!(rt; lossy.sends.load(Ordering::SeqCst) == 2);
    memory
}

// A receive that returns no datagram isn't counted. A response that can't be sent is logged as
// failed. At the level `Off` nothing is logged.
#[test]
fn silence_is_no_datagram_and_a_loss_is_counted(rt: HostRuntime) -> Result<(), Fail> {
    check_logged(
        &rt,
        serve_script(&rt, LevelFilter::Info, 1),
        "sent 1 failed 1",
    );
    check_logged(
        &rt,
        serve_script(&rt, LevelFilter::Info, 2),
        "sent 1 failed 1",
    );
    assert!(rt;
        serve_script(&rt, LevelFilter::Off, 1)
            .into_lines()
            .is_empty()
    );
    Ok(())
}

// The image of a program that counts POSTs in eight bytes of variables, and replies to a GET with
// the count. A POST takes 12 steps, and a GET 8. The source, after the header:
//
// ldxb r6, r1, 0; mov64 r7, r2; jeq r6, 1, 7; mov64 r1, 0; call 3; mov64 r2, r0; add64 r2, 1;
// mov64 r1, 0; call 4; ja 3; mov64 r1, r7; mov64 r2, 8; call 5; mov64 r0, 0; exit
static COUNTS: &[u8] =
    b"FCB1\x08\x00\x0f\x00\x0c\x00\x00\x00\x00\x00\x00\x00\x71\x16\x00\x00\x00\x00\x00\x00\xbf\x27\x00\x00\x00\x00\x00\x00\x15\x06\x07\x00\x01\x00\x00\x00\xb7\x01\x00\x00\x00\x00\x00\x00\x85\x00\x00\x00\x03\x00\x00\x00\xbf\x02\x00\x00\x00\x00\x00\x00\x07\x02\x00\x00\x01\x00\x00\x00\xb7\x01\x00\x00\x00\x00\x00\x00\x85\x00\x00\x00\x04\x00\x00\x00\x05\x00\x03\x00\x00\x00\x00\x00\xbf\x71\x00\x00\x00\x00\x00\x00\xb7\x02\x00\x00\x08\x00\x00\x00\x85\x00\x00\x00\x05\x00\x00\x00\xb7\x00\x00\x00\x00\x00\x00\x00\x95\x00\x00\x00\x00\x00\x00\x00";

// The paths of the program and the resource of the counter that eight clients share.
const COMMON: (&str, &str) = ("/p/0", "/r/0");

// The paths of the program and the resource of each client's own counter.
static OWN: [(&str, &str); 8] = [
    ("/p/1", "/r/1"),
    ("/p/2", "/r/2"),
    ("/p/3", "/r/3"),
    ("/p/4", "/r/4"),
    ("/p/5", "/r/5"),
    ("/p/6", "/r/6"),
    ("/p/7", "/r/7"),
    ("/p/8", "/r/8"),
];

// Returns a POST with this message ID to the slot with this digit.
fn post_datagram(id: u16, digit: u8) -> [u8; 8] {
    let [high, low] = id.to_be_bytes();
    [0x40, 0x02, high, low, 0xb1, b'r', 0x01, digit]
}

// Receives a datagram. Returns whether it is a 2.04 with this message ID.
fn is_changed(client: &UdpSocket, id: u16) -> io::Result<bool> {
    let [high, low] = id.to_be_bytes();
    let mut answer = [0; 16];
    let (count, _from) = client.recv_from(&mut answer)?;
    Ok(answer[..count] == [0x60, 0x44, high, low])
}

// Sends a POST with this message ID from each client, to the client's own counter or, if `common`,
// to the shared one. Then checks the response to each client.
fn post_at_once<R: Abort>(
    rt: &R,
    clients: &[UdpSocket],
    server: SocketAddrV4,
    id: u16,
    common: bool,
) -> io::Result<()> {
    let mut digit = b'0';
    for client in clients {
        digit = digit.wrapping_add(u8::from(!common));
        client.send_to(&post_datagram(id, digit), server)?;
    }
    for client in clients {
        assert!(rt; is_changed(client, id)?, "{id}");
    }
    Ok(())
}

// Sends 120 POSTs from each of eight clients, alternately to the client's own counter and to the
// shared one.
fn post_by_eight<R: Abort + AllocGlobal + Net>(rt: &R, port: u16) -> Result<(), Fail> {
    let server = at_port(port);
    let mut clients = Vec::new(rt.alloc());
    for _client in 0..8u8 {
        clients.push(client_of(rt)?)?;
    }
    for round in 0..60u16 {
        post_at_once(rt, &clients, server, 2 * round, false)?;
        post_at_once(rt, &clients, server, 2 * round + 1, true)?;
    }
    Ok(())
}

// Installs the counters, and sends the POSTs of eight clients. Checks that each counter has counted
// all POSTs to it: 60 for a client's own, and 480 for the shared one.
fn ask_by_eight<R: Abort + AllocGlobal + Net + Clock + RandomSource>(
    rt: &R,
    port: u16,
) -> Result<(), Fail> {
    // version=1 cost=12 budget=12 vars=8
    let receipt = "2.01\n76657273696f6e3d3120636f73743d3132206275646765743d313220766172733d38\n";
    check_asked(
        rt,
        port,
        Method::Put,
        COMMON.0,
        COUNTS,
        Status::Done,
        receipt,
    );
    for (program, _path) in &OWN {
        check_asked(
            rt,
            port,
            Method::Put,
            program,
            COUNTS,
            Status::Done,
            receipt,
        );
    }
    post_by_eight(rt, port)?;
    let counts = "2.05\n3c00000000000000\n";
    for (_program, path) in &OWN {
        check_asked(rt, port, Method::Get, path, &[], Status::Done, counts);
    }
    let common = "2.05\ne001000000000000\n";
    check_asked(rt, port, Method::Get, COMMON.1, &[], Status::Done, common);
    Ok(())
}

// With two workers, each POST is counted once, also if eight clients post to one counter at a time.
#[test]
fn eight_clients_count_right(rt: HostRuntime) -> Result<(), Fail> {
    // Nine PUTs, eight times 120 POSTs, nine GETs.
    let extent = extent_of(2, 978);
    let memory = serve_while(&rt, &NoSensors, extent, |port| ask_by_eight(&rt, port))?;
    check_logged(&rt, memory, "sent 978 failed 0");
    Ok(())
}

// An image of the second version that replies with all of its readings: `mov64 r1, r4`, `mov64 r2,
// 64`, `call 5`, `mov64 r0, 0`, `exit`.
static READER: [u8; 56] = [
    0x46, 0x43, 0x42, 0x32, 0x00, 0x00, 0x05, 0x00, 0x05, 0x00, 0x00, 0x00, 0x00, 0x00, 0x00, 0x00,
    0xbf, 0x41, 0x00, 0x00, 0x00, 0x00, 0x00, 0x00, 0xb7, 0x02, 0x00, 0x00, 0x40, 0x00, 0x00, 0x00,
    0x85, 0x00, 0x00, 0x00, 0x05, 0x00, 0x00, 0x00, 0xb7, 0x00, 0x00, 0x00, 0x00, 0x00, 0x00, 0x00,
    0x95, 0x00, 0x00, 0x00, 0x00, 0x00, 0x00, 0x00,
];

// Sends a GET of /r/0. Returns the readings in the response, which are the 64 bytes after the
// header, the ETag and the payload marker. Returns zeros for a response of another form.
pub(crate) fn readings_of(
    client: &UdpSocket,
    server: SocketAddrV4,
    id: u8,
) -> io::Result<[u8; 64]> {
    client.send_to(&[0x40, 0x01, 0x00, id, 0xb1, b'r', 0x01, b'0'], server)?;
    let mut answer = [0; 128];
    let (count, _from) = client.recv_from(&mut answer)?;
    let mut readings = [0; 64];
    if let Some(bytes) = answer[..count].strip_prefix(b"\x60\x45\x00")
        && let Some(place) = bytes.get(11..75)
    {
        readings.copy_from_slice(place);
    }
    Ok(readings)
}

// Installs READER in slot 0 of the server at this port. Checks that the response is 2.01 with the
// program's receipt.
pub(crate) fn install_reader<R: Abort + Net + Clock + RandomSource + AllocGlobal>(
    rt: &R,
    port: u16,
) {
    // version=1 cost=5 budget=5 vars=0
    let receipt = "2.01\n76657273696f6e3d3120636f73743d35206275646765743d3520766172733d30\n";
    check_asked(
        rt,
        port,
        Method::Put,
        "/p/0",
        &READER,
        Status::Done,
        receipt,
    );
}

// Opens a client's socket at this host. A receive from it fails after five seconds.
pub(crate) fn client_of<R: Net>(rt: &R) -> io::Result<UdpSocket> {
    let client = open(rt, at_port(0))?;
    client.set_read_timeout(Some(Duration::from_secs(5)))?;
    Ok(client)
}

// Installs READER, and requests the readings after 300 ms. Checks that they are a time of at least
// 300 ms, and zeros.
fn ask_for_readings<R: Abort + Net + Clock + RandomSource + AllocGlobal>(
    rt: &R,
    port: u16,
) -> Result<(), Fail> {
    install_reader(rt, port);
    let client = client_of(rt)?;
    thread::sleep(rt, Duration::from_millis(300));
    let readings = readings_of(&client, at_port(port), 9)?;
    let time = u16::from_le_bytes([readings[0], readings[1]]);
    assert!(rt; time >= 300, "{time}");
    assert!(rt; readings[2..].iter().all(|byte| *byte == 0));
    Ok(())
}

// Checks the readings of a server without sensors, with this many workers. They are the
// milliseconds since the server's start, least significant byte first, and zeros.
fn check_clock<R: Abort + AllocGlobal + Threads + Wait + Clock + Net + RandomSource + Sync>(
    rt: &R,
    workers: u8,
) -> Result<(), Fail> {
    let extent = extent_of(workers, 2);
    let _memory = serve_while(rt, &NoSensors, extent, |port| ask_for_readings(rt, port))?;
    Ok(())
}

// With one worker and with two, the readings of a server without sensors are its clock, and zeros.
#[test]
fn a_server_s_readings_are_its_clock(rt: HostRuntime) -> Result<(), Fail> {
    check_clock(&rt, 1)?;
    check_clock(&rt, 2)
}
