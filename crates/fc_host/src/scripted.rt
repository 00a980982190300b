//! A scripted host: clock, sensors and transmitter of a server that plays lines.
//!
//! The player waits at the scripted host for the worker that runs a line's job.
use coap_msg::Emission;
use fc_backend::{CallLog, Device, TimeSource, Wire};
use fc_front::front::blank_emission;
use fc_help::{NO_READINGS, Readings};
use std::sync::atomic::{AtomicU64, Ordering};
use std::sync::{Condvar, Mutex, Wait};

// The state of a scripted host: whether a worker is running a line's job, the last datagram that
// the worker sent, and the readings for snapshots.
#[derive(Drop)]
struct Work {
    busy: bool,
    reply: Option<Emission>,
    readings: Readings,
}

/// The host of a server whose workers run the jobs of played lines.
///
/// The player waits here for the worker that runs a line's job. The host keeps the last datagram
/// that the worker sent. The host's time is that of the line. Its readings are those that were set
/// last.
#[derive(Drop)]
pub struct ScriptedHost {
    work: Mutex<Work>,
    done: Condvar,
    now: AtomicU64,
}

impl ScriptedHost {
    /// Makes a scripted host without a job, with time 0 and readings of zeros.
    pub fn new() -> ScriptedHost {
        let work = Work {
            busy: false,
            reply: None,
            readings: NO_READINGS,
        };
        ScriptedHost {
            work: Mutex::new(work),
            done: Condvar::new(),
            now: AtomicU64::new(0),
        }
    }

    /// Sets the readings that snapshots get from this call on.
    pub fn set<R: Wait>(&self, rt: &R, readings: Readings) {
        let mut work = self.work.lock(rt);
        work.readings = readings;
    }

    /// Sets the time to `now`, in milliseconds, and makes `wait` wait for a job to end.
    ///
    /// The player calls it before each call that may produce a job. If the call produces no job,
    /// the player doesn't call [`ScriptedHost::wait`]. An emission that was kept is dropped.
    pub fn begin<R: Wait>(&self, rt: &R, now: u64) {
        self.now.store(now, Ordering::SeqCst);
        let mut work = self.work.lock(rt);
        work.busy = true;
        work.reply = None;
    }

    /// Waits until a worker ends a job, and returns the last emission sent.
    ///
    /// Returns `None` if none was sent since [`ScriptedHost::begin`]. The call returns immediately
    /// if a job has ended since then, and never if no job ends.
    pub fn wait<R: Wait>(&self, rt: &R) -> Option<Emission> {
        let mut work = self
            .done
            .wait_while(rt, self.work.lock(rt), |work| work.busy);
        work.reply.take()
    }
}

impl Wire for ScriptedHost {
    // Keeps a copy of the emission for the player, in place of an earlier one. Returns `true`: the
    // emission counts as sent.
    fn send<R: Wait>(&self, rt: &R, number: u64, emission: &Emission, log: &mut CallLog) -> bool {
        let _ = number;
        let _ = log;
        let mut work = self.work.lock(rt);
        work.reply = Some(copy(emission));
        true
    }

    // Marks the job as ended, and wakes the player.
    fn ended<R: Wait>(&self, rt: &R, number: u64, log: &mut CallLog) {
        let _ = number;
        let _ = log;
        let mut work = self.work.lock(rt);
        work.busy = false;
        self.done.notify_all();
    }
}

impl TimeSource for ScriptedHost {
    // Returns the time of the last `begin`.
    fn now<R: Wait>(&self, rt: &R, log: &mut CallLog) -> u64 {
        let _ = rt;
        let _ = log;
        self.now.load(Ordering::SeqCst)
    }

    // Returns 0, so that the output is the same each time.
    fn random<R: Wait>(&self, rt: &R) -> u16 {
        let _ = rt;
        0
    }
}

impl Device for ScriptedHost {
    // Returns the readings that were set last, or zeros.
    fn readings<R: Wait>(&self, rt: &R, log: &mut CallLog) -> Readings {
        let _ = log;
        let work = self.work.lock(rt);
        work.readings
    }
}

// Returns a copy of an emission for the player. The worker writes its next emission over the
// original.
fn copy(emission: &Emission) -> Emission {
    let mut copy = blank_emission();
    copy.to = emission.to;
    let _fits = copy.bytes.try_extend_from_slice(emission.bytes.as_slice());
    copy
}
