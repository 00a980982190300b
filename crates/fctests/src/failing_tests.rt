//! A source and a sink that fail at every second call.
//!
//! The source fails to receive, and the sink to send. The expected responses are worked out by
//! hand.
ghost use Rattle.std.specs.Prelude.{◌≤◌, IfSome, length};

use crate::serving::{extent_of, serve_without_store};
use crate::socket_tests::{check_logged, put_datagram, unrecorded};
use coap_msg::{Emission, Endpoint};
use fc_backend::CallLog;
use fc_front::DEFAULT_POLICY;
use fc_host::sensors::NoSensors;
use fc_host::socket::{Buffer, Sink, Source};
use log::sink::Memory;
use log::{LevelFilter, Logged};
use std::process::Abort;
use std::sync::Wait;
use std::sync::atomic::{AtomicUsize, Ordering};
use std::thread::Threads;
use std::time::Clock;

// A PUT to slot 1 of a program that counts POSTs in eight bytes of variables.
pub(crate) const PUT: &[u8] =
    b"\x40\x03\x00\x01\xb1\x70\x01\x31\xff\x46\x43\x42\x31\x08\x00\x09\x00\x09\x00\x00\x00\x00\x00\x00\x00\xb7\x01\x00\x00\x00\x00\x00\x00\x85\x00\x00\x00\x03\x00\x00\x00\x07\x00\x00\x00\x01\x00\x00\x00\xbf\x02\x00\x00\x00\x00\x00\x00\xb7\x01\x00\x00\x00\x00\x00\x00\x85\x00\x00\x00\x04\x00\x00\x00\x85\x00\x00\x00\x07\x00\x00\x00\xb7\x00\x00\x00\x00\x00\x00\x00\x95\x00\x00\x00\x00\x00\x00\x00";

// A POST to slot 1.
pub(crate) const POST: &[u8] = b"\x40\x02\x00\x02\xb1\x72\x01\x31";

// A GET of slot 1.
const GET: &[u8] = b"\x40\x01\x00\x03\xb1\x72\x01\x31";

// A GET of the receipt of slot 1's program.
const DESCRIBE: &[u8] = b"\x40\x01\x00\x04\xb1\x70\x01\x31";

// The requests. Each datagram is received twice.
static REQUESTS: [&[u8]; 8] = [PUT, PUT, POST, POST, GET, GET, DESCRIBE, DESCRIBE];

const CREATED: &[u8] = b"\x60\x41\x00\x01\xffversion=1 cost=9 budget=9 vars=8";

const CHANGED: &[u8] = b"\x60\x44\x00\x02";

// The ETag is serial 2: the POST was executed once.
const CONTENT: &[u8] = b"\x60\x45\x00\x03\x48\x00\x00\x00\x00\x00\x00\x00\x02";

const DESCRIBED: &[u8] = b"\x60\x45\x00\x04\xffversion=1 cost=9 budget=9 vars=8";

// The responses to `REQUESTS`. A duplicate gets the same bytes as the first request.
static ANSWERS: [&[u8]; 8] = [
    CREATED, CREATED, CHANGED, CHANGED, CONTENT, CONTENT, DESCRIBED, DESCRIBED,
];

// A source that returns the next request at each call, or, if `fails`, at every second call.
#[derive(Drop)]
struct Letters {
    fails: bool,
    calls: usize,
}

impl Source for Letters {
    fn receive(
        &mut self,
        wait: Option<u64>,
        buffer: &mut Buffer,
        log: &mut CallLog,
    ) -> Option<(usize, Endpoint)> {
        let _ = log;
        let _ = wait;
        let call = self.calls;
        self.calls = call.saturating_add(1);
        if !self.fails {
            return put_datagram(REQUESTS.get(call)?, buffer);
        }
        if call % 2 == 0 {
            return None;
        }
        put_datagram(REQUESTS.get(call / 2)?, buffer)
    }
}

// A sink that counts the datagrams that aren't the next response. If `fails`, every second send
// fails, beginning with the first.
#[derive(Drop)]
struct Matching {
    fails: bool,
    sends: AtomicUsize,
    wrong: AtomicUsize,
}

impl Sink for Matching {
    fn send(&self, emission: &Emission, log: &mut CallLog) -> bool {
        let _ = log;
        let send = self.sends.fetch_add(1, Ordering::SeqCst);
        let is_right = match ANSWERS.get(send) {
            Some(answer) => emission.bytes.as_slice() == *answer,
            None => false,
        };
        if !is_right {
            self.wrong.fetch_add(1, Ordering::SeqCst);
        }
        !self.fails || send % 2 == 1
    }
}

// Serves the requests with this many workers. Checks that the eight responses, sent or not, are the
// expected ones, and that `message` is logged at the end.
fn check_served<R: Abort + AllocGlobal + Threads + Wait + Clock + Sync>(
    rt: &R,
    fails: bool,
    workers: u8,
    message: &str,
) {
    let alloc = rt.alloc();
    let memory = Memory::new(alloc);
    let log = Logged::new(rt, LevelFilter::Info, &memory);
    let mut err = Vec::new(alloc);
    let letters = Letters { fails, calls: 0 };
    let matching = Matching {
        fails,
        sends: AtomicUsize::new(0),
        wrong: AtomicUsize::new(0),
    };
    let extent = extent_of(workers, 8);
    let served = serve_without_store(
        rt,
        alloc,
        &unrecorded(&log),
        &mut err,
        &NoSensors,
        letters,
        &matching,
        &DEFAULT_POLICY,
        extent,
    );
    assert!(rt; served.is_some() && err.is_empty());
    assert!(rt;
        matching.sends.load(Ordering::SeqCst) == 8 && matching.wrong.load(Ordering::SeqCst) == 0
    );
    check_logged(rt, memory, message);
}

// A duplicate gets the same bytes as the first request, whether or not the source and the sink
// fail, with one worker and with two.
#[test]
fn repeats_are_answered_by_the_same_bytes(rt: HostRuntime) {
    check_served(&rt, false, 1, "sent 8 failed 0");
    check_served(&rt, true, 1, "sent 4 failed 4");
    check_served(&rt, false, 2, "sent 8 failed 0");
    check_served(&rt, true, 2, "sent 4 failed 4");
}
