//! How long a server waits for each datagram.
//!
//! The wait is 100 ms. After a receive without a datagram it is unlimited, as long as the server
//! has nothing to do.
ghost use Rattle.std.specs.Prelude.{◌≤◌, IfSome, length};

use crate::failing_tests::{POST, PUT};
use crate::serving::{extent_of, serve_without_store};
use crate::socket_tests::{put_datagram, unrecorded};
use coap_msg::{Emission, Endpoint};
use fc_backend::CallLog;
use fc_fixtures::datagrams::PUT_EXPENSIVE;
use fc_front::DEFAULT_POLICY;
use fc_host::sensors::NoSensors;
use fc_host::socket::{Buffer, Sink, Source};
use log::sink::Memory;
use log::{LevelFilter, Logged};
use std::process::Abort;
use std::sync::Wait;
use std::sync::atomic::{AtomicUsize, Ordering};
use std::thread;
use std::thread::Threads;
use std::time::{Clock, Duration};

// The registration of an observer of slot 1.
pub(crate) const REGISTER: &[u8] = b"\x40\x01\x00\x03\x60\x51\x72\x01\x31";

// The deregistration of an observer of slot 1.
const DEREGISTER: &[u8] = b"\x40\x01\x00\x04\x61\x01\x51\x72\x01\x31";

// The expected wait of each receive in milliseconds, or `None` for an unlimited one, and the
// datagram. The server has nothing to do if the observer was notified of the last change.
static RECEIVES: [(Option<u64>, Option<&[u8]>); 10] = [
    (Some(100), None),
    (None, Some(PUT)),
    (Some(100), None),
    (None, Some(REGISTER)),
    (Some(100), Some(POST)),
    (Some(100), None),
    (None, None),
    (None, Some(DEREGISTER)),
    (Some(100), None),
    (None, Some(POST)),
];

// A source that follows `RECEIVES`, and counts the receives whose wait was the expected one.
#[derive(Drop)]
struct Listed {
    calls: usize,
    right: usize,
}

impl Source for Listed {
    fn receive(
        &mut self,
        wait: Option<u64>,
        buffer: &mut Buffer,
        log: &mut CallLog,
    ) -> Option<(usize, Endpoint)> {
        let _ = log;
        let (expected, bytes) = RECEIVES.get(self.calls)?;
        self.calls = self.calls.saturating_add(1);
        if wait == *expected {
            self.right = self.right.saturating_add(1);
        }
        put_datagram((*bytes)?, buffer)
    }
}

// A sink that sends each datagram.
#[derive(Drop)]
struct Everywhere;

impl Sink for Everywhere {
    fn send(&self, emission: &Emission, log: &mut CallLog) -> bool {
        let _ = emission;
        let _ = log;
        true
    }
}

// Serves `RECEIVES` with this many workers, and checks that each wait is the expected one.
fn check_waits<R: Abort + AllocGlobal + Threads + Wait + Clock + Sync>(rt: &R, workers: u8) {
    let alloc = rt.alloc();
    let memory = Memory::new(alloc);
    let log = Logged::new(rt, LevelFilter::Off, &memory);
    let mut err = Vec::new(alloc);
    let listed = Listed { calls: 0, right: 0 };
    let extent = extent_of(workers, 5);
    let served = serve_without_store(
        rt,
        alloc,
        &unrecorded(&log),
        &mut err,
        &NoSensors,
        listed,
        &Everywhere,
        &DEFAULT_POLICY,
        extent,
    );
    assert!(rt; served.map(|listed| listed.right) == Some(10), "{workers}");
}

// With one worker and with two, a server that has nothing to do waits without a limit.
#[test]
fn a_server_that_has_nothing_to_do_waits_without_end(rt: HostRuntime) {
    check_waits(&rt, 1);
    check_waits(&rt, 2);
}

// A source that returns a PUT of an expensive program after 500 ms, so that a worker can ask for a
// job before. Then it returns a POST to that program. The fourth call, while the POST's job runs,
// stores its wait in `seen`. A second POST ends the server.
#[derive(Drop)]
struct Busy<'a, C: Clock> {
    clock: &'a C,
    calls: usize,
    seen: &'a AtomicUsize,
}

// The value that is stored for a wait of 100 ms.
const SHORT: usize = 1;

// The value that is stored for any other wait.
const LONG: usize = 2;

impl<'a, C: Clock> Source for Busy<'a, C> {
    fn receive(
        &mut self,
        wait: Option<u64>,
        buffer: &mut Buffer,
        log: &mut CallLog,
    ) -> Option<(usize, Endpoint)> {
        let _ = log;
        self.calls = self.calls.saturating_add(1);
        match self.calls {
            1 => {
                thread::sleep(self.clock, Duration::from_millis(500));
                put_datagram(PUT_EXPENSIVE, buffer)
            }
            2 | 5 => put_datagram(POST, buffer),
            4 => {
                let seen = if wait == Some(100) { SHORT } else { LONG };
                self.seen.store(seen, Ordering::SeqCst);
                None
            }
            _ => None,
        }
    }
}

// A sink that delays the response to a POST until `seen` is stored, for at most five seconds.
#[derive(Drop)]
struct HeldUp<'a, C: Clock> {
    clock: &'a C,
    seen: &'a AtomicUsize,
}

impl<'a, C: Clock> Sink for HeldUp<'a, C> {
    fn send(&self, emission: &Emission, log: &mut CallLog) -> bool {
        let _ = log;
        if emission.bytes.as_slice().starts_with(b"\x60\x44") {
            for _ in 0..250u16 {
                if self.seen.load(Ordering::SeqCst) != 0 {
                    break;
                }
                thread::sleep(self.clock, Duration::from_millis(20));
            }
        }
        true
    }
}

// While a worker has a job, the server waits 100 ms for the next datagram.
#[test]
fn a_server_does_not_sleep_while_a_job_is_at_work(rt: HostRuntime) {
    let alloc = rt.alloc();
    let seen = AtomicUsize::new(0);
    let busy = Busy {
        clock: &rt,
        calls: 0,
        seen: &seen,
    };
    let held = HeldUp {
        clock: &rt,
        seen: &seen,
    };
    let memory = Memory::new(alloc);
    let log = Logged::new(&rt, LevelFilter::Off, &memory);
    let mut err = Vec::new(alloc);
    let extent = extent_of(2, 3);
    let served = serve_without_store(
        &rt,
        alloc,
        &unrecorded(&log),
        &mut err,
        &NoSensors,
        busy,
        &held,
        &DEFAULT_POLICY,
        extent,
    );
    assert!(rt; served.is_some() && seen.load(Ordering::SeqCst) == SHORT);
}
