//! The trace of a pool's calls: the events of the calls, and the emission of each event.
use coap_msg::{Emission, Endpoint};
use fc_front::Handled;
use fc_help::Readings;
use fc_lines::emission::print;
use fc_observe::Ticked;
use fc_registry::Taken;
use fc_ticket::{Job, SlotNumber};
use std::alloc::{AllocError, Global};
use std::io;
use std::io::Write;

/// The number of threads that call a traced server: the driver, which is thread 0, and workers.
pub(crate) const THREADS: usize = 4;

/// The number of digits that a line has for the number of a job that isn't known yet.
const DIGITS: usize = 10;

/// The identity of a job: its exchange, its lease and its slot.
///
/// The job of a timer has the number of no exchange and no lease.
#[derive(Clone, Copy, PartialEq, Eq)]
struct JobKey {
    exchange: u64,
    lease: Option<u64>,
    slot: u8,
}

/// A job that was produced and hasn't ended, with its number.
#[derive(Clone, Copy)]
struct RunningJob {
    key: JobKey,
    number: u64,
}

/// The job of a thread, and the thread's lines that don't have the job's number yet.
#[derive(Drop)]
struct ThreadLines {
    job: u64,
    // The places of the numbers in the text of the events.
    unnumbered: Vec<usize>,
}

/// The lines of a pool's calls, in the order of the calls.
#[derive(Drop)]
pub(crate) struct CallTrace {
    alloc: Global,
    /// The events, one a line, as `fcreplay` reads them.
    pub(crate) events: Vec<u8>,
    /// The emission of each event, one a line, as `fcreplay` prints them.
    pub(crate) emissions: Vec<u8>,
    running: Vec<RunningJob>,
    produced: u64,
    threads: [ThreadLines; THREADS],
    /// Whether memory for a line was refused, or a call named an unknown job.
    pub(crate) is_broken: bool,
}

// Returns the identity of a job.
fn key_of(job: &Job) -> JobKey {
    JobKey {
        exchange: job.origin.opening.number,
        lease: job.turn,
        slot: job.origin.slot.number(),
    }
}

impl ThreadLines {
    fn new(alloc: Global) -> ThreadLines {
        ThreadLines {
            job: 0,
            unnumbered: Vec::new(alloc),
        }
    }
}

impl CallTrace {
    /// Makes a trace without calls.
    pub(crate) fn new(alloc: Global) -> CallTrace {
        CallTrace {
            alloc,
            events: Vec::new(alloc),
            emissions: Vec::new(alloc),
            running: Vec::new(alloc),
            produced: 0,
            threads: [
                ThreadLines::new(alloc),
                ThreadLines::new(alloc),
                ThreadLines::new(alloc),
                ThreadLines::new(alloc),
            ],
            is_broken: false,
        }
    }

    // Marks the trace as broken if writing failed.
    fn check(&mut self, written: io::Result<()>) {
        if written.is_err() {
            self.is_broken = true;
        }
    }

    // Appends a text and a number to the event's line.
    fn part(&mut self, text: &str, number: u64) {
        let written = write!(self.events, "{text}{number}");
        self.check(written);
    }

    // Appends a text and bytes in hex digits to the event's line.
    fn hex(&mut self, text: &str, bytes: &[u8]) {
        match hex::encode(self.alloc, bytes) {
            Ok(digits) => {
                let written = write!(self.events, "{text}{digits}");
                self.check(written);
            }
            Err(_) => self.is_broken = true,
        }
    }

    // Ends the event's line, and adds the line of its emission.
    fn end(&mut self, emission: Option<&Emission>) {
        let listed = self.events.write_all(b"\n");
        self.check(listed);
        let printed = match emission {
            Some(emission) => print(&mut self.emissions, emission),
            None => self.emissions.write_all(b"none\n"),
        };
        self.check(printed);
    }

    // Gives the next number to a job that was produced.
    fn begin(&mut self, job: &Job) {
        let begun = RunningJob {
            key: key_of(job),
            number: self.produced,
        };
        self.produced = self.produced.saturating_add(1);
        if self.running.push(begun).is_err() {
            self.is_broken = true;
        }
    }

    // Removes the job of a thread, which has ended.
    fn forget(&mut self, thread: usize) {
        let number = self.current(thread);
        self.running.retain(|it| it.number != number);
    }

    // Returns the number of the job that a thread runs.
    fn current(&self, thread: usize) -> u64 {
        match self.threads.get(thread) {
            Some(lines) => lines.job,
            None => 0,
        }
    }

    // Makes a job that of a thread, and returns the job's number. The thread's lines that have no
    // number yet get it.
    fn number(&mut self, thread: usize, job: &Job) -> u64 {
        let key = key_of(job);
        let number = match self.running.iter().find(|it| it.key == key) {
            Some(found) => found.number,
            None => {
                self.is_broken = true;
                0
            }
        };
        if let Some(lines) = self.threads.get_mut(thread) {
            lines.job = number;
            for at in &lines.unnumbered {
                write_number(&mut self.events, *at, number);
            }
            lines.unnumbered.clear();
        }
        number
    }

    /// Returns whether a job of a slot's timer was produced and hasn't ended.
    pub(crate) fn has_timer(&self, slot: SlotNumber) -> bool {
        let slot = slot.number();
        self.running.iter().any(|it| it.key.exchange == u64::MAX
            && it.key.lease.is_none()
            && it.key.slot == slot)
    }

    /// Returns whether all jobs have ended.
    pub(crate) fn is_idle(&self) -> bool {
        self.running.is_empty()
    }

    /// Adds the delivery of a datagram, with its result.
    pub(crate) fn deliver(
        &mut self,
        now: u64,
        from: Endpoint,
        bytes: &[u8],
        handled: Handled,
        job: &Job,
        reply: &Emission,
    ) {
        self.part("Deliver now=", now);
        self.part(" ep=", u64::from(from.ip[3]));
        self.hex(" data=", bytes);
        match handled {
            Handled::Reply => self.end(Some(reply)),
            Handled::Job => {
                self.end(None);
                self.begin(job);
            }
            Handled::Nothing | Handled::Signal { .. } => self.end(None),
        }
    }

    /// Adds an event with a name and a time, and no emission: `Tick`.
    pub(crate) fn tick(&mut self, now: u64) {
        self.part("Tick now=", now);
        self.end(None);
    }

    /// Adds the timer of a slot, with its job.
    pub(crate) fn fire(&mut self, slot: SlotNumber, now: u64, job: &Job) {
        self.part("Fire slot=", u64::from(slot.number()));
        self.part(" now=", now);
        self.end(None);
        self.begin(job);
    }

    /// Adds a look at a head word by a thread whose job may not be known yet.
    pub(crate) fn peek(&mut self, thread: usize, slot: SlotNumber) {
        self.part("Peek slot=", u64::from(slot.number()));
        let written = self.events.write_all(b" job=");
        self.check(written);
        let at = self.events.len();
        let written = self.events.write_all(&[b'0'; DIGITS]);
        self.check(written);
        self.end(None);
        let added = match self.threads.get_mut(thread) {
            Some(lines) => lines.unnumbered.push(at),
            None => Ok(()),
        };
        if added.is_err() {
            self.is_broken = true;
        }
    }

    /// Adds a job's snapshot, with its readings and its result.
    pub(crate) fn take(&mut self, thread: usize, job: &Job, readings: &Readings, taken: &Taken) {
        let memory = u64::from(!matches!(taken, Taken::Refused));
        let number = self.number(thread, job);
        self.part("Take job=", number);
        self.part(" memory=", memory);
        self.hex(" readings=", readings);
        self.end(None);
        if matches!(taken, Taken::Stale) {
            self.forget(thread);
        }
    }

    /// Adds an event of a job that has no other part, such as `Raise job=`.
    pub(crate) fn job_event(&mut self, text: &str, thread: usize, job: &Job) {
        let number = self.number(thread, job);
        self.part(text, number);
        self.end(None);
    }

    /// Adds an install of a job's image, which is refused or not.
    pub(crate) fn install(&mut self, thread: usize, job: &Job, is_done: bool) {
        let number = self.number(thread, job);
        self.part("Install job=", number);
        self.part(" memory=", u64::from(is_done));
        self.end(None);
    }

    /// Adds an event of a thread's job at a time, such as `Commit job=`, and no emission.
    pub(crate) fn timed_event(&mut self, text: &str, thread: usize, now: u64) {
        let number = self.current(thread);
        self.part(text, number);
        self.part(" now=", now);
        self.end(None);
    }

    /// Adds the refusal of a commit, which can't be saved, by a thread's job.
    pub(crate) fn refuse(&mut self, thread: usize) {
        let number = self.current(thread);
        self.part("Refuse job=", number);
        self.end(None);
    }

    /// Adds the release of a thread's lease, which ends the lease's job.
    pub(crate) fn give_up(&mut self, thread: usize, now: u64) {
        self.timed_event("GiveUp job=", thread, now);
        self.forget(thread);
    }

    /// Adds the notification of a thread's lease, which ends the lease's job.
    pub(crate) fn note(&mut self, thread: usize, now: u64, random: u16, sent: Option<&Emission>) {
        let number = self.current(thread);
        self.part("Note job=", number);
        self.part(" now=", now);
        self.part(" random=", u64::from(random));
        self.end(sent);
        self.forget(thread);
    }

    /// Adds the answer of a job, which ends the job.
    pub(crate) fn answer(&mut self, thread: usize, job: &Job, now: u64, sent: Option<&Emission>) {
        let number = self.number(thread, job);
        self.part("Answer job=", number);
        self.part(" now=", now);
        self.end(sent);
        self.forget(thread);
    }

    /// Adds an Acknowledgement, or a Reset message if `reset`, for a shard.
    pub(crate) fn signal(&mut self, shard: u8, from: Endpoint, id: u16, reset: bool) {
        self.part("Signal shard=", u64::from(shard));
        self.part(" ep=", u64::from(from.ip[3]));
        self.part(" mid=", u64::from(id));
        self.part(" reset=", u64::from(reset));
        self.end(None);
    }

    /// Adds the time of a shard, with its retransmission if there is one.
    pub(crate) fn tick_shard(&mut self, shard: u8, now: u64, ticked: &Ticked) {
        self.part("ShardTick shard=", u64::from(shard));
        self.part(" now=", now);
        match ticked {
            Ticked::Resend(emission) => self.end(Some(emission)),
            Ticked::Removed | Ticked::Quiet => self.end(None),
        }
    }

    /// Adds a request for a shard's next lease, with the lease's job if one is granted.
    pub(crate) fn due(&mut self, shard: u8, now: u64, is_granted: bool, job: &Job) {
        self.part("Due shard=", u64::from(shard));
        self.part(" now=", now);
        self.end(None);
        if is_granted {
            self.begin(job);
        }
    }
}

// Writes a number over the digits that begin at `at`. The number has at most that many digits.
fn write_number(events: &mut [u8], at: usize, number: u64) {
    let mut rest = number;
    if let Some(digits) = events.get_mut(at..at.saturating_add(DIGITS)) {
        for digit in digits.iter_mut().rev() {
            *digit = b'0' + (rest % 10) as u8;
            rest /= 10;
        }
    }
}
