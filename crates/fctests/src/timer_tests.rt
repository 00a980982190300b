//! Timers: when their programs run, how long a server waits for them, and their texts.
ghost use Rattle.std.specs.Prelude.{◌≤◌, IfSome, length};

use crate::failing_tests::{POST, PUT};
use crate::serving::{extent_of, slots_without_store};
use crate::socket_tests::{put_datagram, unrecorded};
use crate::wait_tests::REGISTER;
use coap_msg::{Emission, Endpoint};
use fc_backend::CallLog;
use fc_config::command::command;
use fc_config::every::{BadTimer, timers_in};
use fc_fixtures::datagrams::PUT_EXPENSIVE;
use fc_front::DEFAULT_POLICY;
use fc_host::sensors::NoSensors;
use fc_host::socket::{Buffer, Sink, Source};
use fc_host::timer::{Period, Timer};
use fc_service::serve::{Service, serve_at};
use fc_ticket::SlotNumber;
use log::sink::Memory;
use log::{LevelFilter, Logged};
use std::alloc::Global;
use std::process::Abort;
use std::sync::Wait;
use std::sync::atomic::{AtomicUsize, Ordering};
use std::test::Fail;
use std::thread;
use std::thread::Threads;
use std::time::{Clock, Duration, Instant};

// A source of a program for slot 1, a registration of its observer, and after a second a POST. It
// sleeps for each other wait, and counts the waits that are longer than the timer's period.
#[derive(Drop)]
struct Sleeping<'a, C: Clock> {
    clock: &'a C,
    start: Instant,
    program: &'a [u8],
    calls: usize,
    long: usize,
}

impl<'a, C: Clock> Sleeping<'a, C> {
    fn is_over(&self) -> bool {
        match self.start.elapsed(self.clock) {
            Ok(elapsed) => elapsed.as_millis() >= 1000,
            Err(_) => true,
        }
    }
}

// The period of the timer, in milliseconds.
const PERIOD: u64 = 50;

impl<'a, C: Clock> Source for Sleeping<'a, C> {
    fn receive(
        &mut self,
        wait: Option<u64>,
        buffer: &mut Buffer,
        log: &mut CallLog,
    ) -> Option<(usize, Endpoint)> {
        let _ = log;
        self.calls = self.calls.saturating_add(1);
        let wait = wait.unwrap_or(u64::MAX);
        if wait > PERIOD {
            self.long = self.long.saturating_add(1);
        }
        match self.calls {
            1 => put_datagram(self.program, buffer),
            2 => put_datagram(REGISTER, buffer),
            _ if self.is_over() => put_datagram(POST, buffer),
            _ => {
                thread::sleep(self.clock, Duration::from_millis(wait.min(PERIOD)));
                None
            }
        }
    }
}

// A sink that counts its datagrams, none of which fails.
#[derive(Drop)]
struct Counting {
    sent: AtomicUsize,
}

impl Sink for Counting {
    fn send(&self, emission: &Emission, log: &mut CallLog) -> bool {
        let _ = emission;
        let _ = log;
        self.sent.fetch_add(1, Ordering::SeqCst);
        true
    }
}

// Serves that source with this many workers, and a timer of slot 1. Returns the number of datagrams
// that were sent, and asserts that no wait was longer than the period.
fn serve_beats<R: Abort + AllocGlobal + Threads + Wait + Clock + Sync>(
    rt: &R,
    workers: u8,
    program: &[u8],
) -> Result<usize, Fail> {
    let alloc = rt.alloc();
    let memory = Memory::new(alloc);
    let log = Logged::new(rt, LevelFilter::Off, &memory);
    let mut err = Vec::new(alloc);
    let sleeping = Sleeping {
        clock: rt,
        start: Instant::now(rt)?,
        program,
        calls: 0,
        long: 0,
    };
    let counting = Counting {
        sent: AtomicUsize::new(0),
    };
    let mut timers = Vec::new(alloc);
    if let Some(every) = Period::new(PERIOD) {
        timers.push(Timer::new(every, SlotNumber::new(1)))?;
    }
    let service = Service {
        alloc,
        records: &unrecorded(&log),
        sensors: &NoSensors,
        timers,
        extent: extent_of(workers, 3),
    };
    let slots = slots_without_store(alloc, 0, &DEFAULT_POLICY)?;
    let served = serve_at(rt, &mut err, service, slots, sleeping, &counting);
    assert!(rt;
        served.is_some_and(|sleeping| sleeping.long == 0),
        "{workers}"
    );
    Ok(counting.sent.load(Ordering::SeqCst))
}

// A program that runs each 50 ms for a second notifies its observer of each run. The other three
// datagrams are responses. Some beats may be skipped, since other programs run on the machine.
#[test]
fn a_timer_runs_its_program_at_its_beats(rt: HostRuntime) -> Result<(), Fail> {
    for workers in 1..3 {
        let sent = serve_beats(&rt, workers, PUT)?;
        assert!(rt; sent >= 8, "{workers}: {sent}");
        assert!(rt; sent <= 24, "{workers}: {sent}");
    }
    Ok(())
}

// The three datagrams that are sent are responses: those of an empty slot, and those of an
// expensive program, which notifies nobody. The second request of an empty slot is a duplicate.
#[test]
fn a_timer_sends_nothing(rt: HostRuntime) -> Result<(), Fail> {
    for workers in 1..3 {
        assert!(rt; serve_beats(&rt, workers, REGISTER)? == 3);
        assert!(rt; serve_beats(&rt, workers, PUT_EXPENSIVE)? == 3);
    }
    Ok(())
}

// Returns the timers of `fcd serve` with these further words, or why the timers are refused.
fn timers_of(alloc: Global, more: &[&str]) -> Result<Result<Vec<Timer>, BadTimer>, Fail> {
    let mut words = Vec::new(alloc);
    words.extend_from_slice(&["fcd", "serve", "--port", "5683"])?;
    words.extend_from_slice(more)?;
    let matches = command(alloc)?.try_get_matches_from(&words)?;
    match matches.subcommand_matches("serve") {
        Some(matches) => Ok(timers_in(alloc, matches)),
        None => Ok(Err(BadTimer::Form)),
    }
}

// Returns whether timers are refused because of the form of `--every`.
fn is_refused_form(timers: &Result<Vec<Timer>, BadTimer>) -> bool {
    matches!(timers, Err(BadTimer::Form))
}

// `--every` accepts a period of 1 to 86,400,000 ms, a colon, and a slot from 0 to 63. Without
// `--every` there are no timers.
#[test]
fn every_takes_a_period_and_a_slot(rt: HostRuntime) -> Result<(), Fail> {
    let alloc = rt.alloc();
    let none = timers_of(alloc, &[])?;
    assert!(rt; none.is_ok_and(|timers| timers.is_empty()));
    let two = timers_of(alloc, &["--every", "1000:7", "--every", "86400000:63"])?;
    assert!(rt; two.is_ok_and(|timers| timers.len() == 2));
    for text in [
        "0:7",
        "86400001:7",
        "1000:64",
        "1000",
        "1000:",
        ":7",
        "1000:7:7",
        "1 s:7",
    ] {
        assert!(rt;
            is_refused_form(&timers_of(alloc, &["--every", text])?),
            "{text}"
        );
    }
    Ok(())
}
