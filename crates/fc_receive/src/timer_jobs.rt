//! The jobs of timers that workers have.
use coap_msg::Emission;
use fc_backend::{CallLog, Wire};
use fc_workers::dispatcher::UNSENT;
use std::alloc::{AllocError, Global};
use std::sync::Wait;
use std::sync::atomic::{AtomicU64, Ordering};

/// The jobs of timers that were sent to workers and haven't ended.
///
/// `sent` has an element for each timer: one more than the number of its job, or 0 if no worker has
/// a job of it. `ended` is one more than the greatest number of a job that has ended.
#[derive(Drop)]
pub struct TimerJobs {
    sent: Vec<AtomicU64>,
    ended: AtomicU64,
}

impl TimerJobs {
    /// Makes the jobs of `timers` timers; none is sent.
    ///
    /// # Errors
    /// Returns `AllocError` if memory can't be allocated.
    pub fn new(alloc: Global, timers: usize) -> Result<TimerJobs, AllocError> {
        let mut sent = Vec::new(alloc);
        for timer in 0..timers {
            sent.push(AtomicU64::new(0))?;
        }
        Ok(TimerJobs {
            sent,
            ended: AtomicU64::new(0),
        })
    }

    /// Stores that a timer's job was sent under this number, the greatest so far.
    ///
    /// A worker may have ended the job already.
    pub(crate) fn begin(&self, place: usize, number: u64) {
        let Some(sent) = self.sent.get(place) else {
            return;
        };
        let mark = number.saturating_add(1);
        sent.store(mark, Ordering::SeqCst);
        if self.ended.load(Ordering::SeqCst) >= mark {
            sent.store(0, Ordering::SeqCst);
        }
    }

    /// Returns whether a worker has a job of the timer at `place`.
    ///
    /// Returns `false` if no timer has this place.
    pub(crate) fn is_running(&self, place: usize) -> bool {
        match self.sent.get(place) {
            Some(sent) => sent.load(Ordering::SeqCst) != 0,
            None => false,
        }
    }

    // Stores that the job with this number has ended: its timer, if it has one, isn't running any
    // more. The number `UNSENT` changes nothing.
    fn end(&self, number: u64) {
        if number == UNSENT {
            return;
        }
        let mark = number.saturating_add(1);
        let _before = self.ended.fetch_max(mark, Ordering::SeqCst);
        for sent in &self.sent {
            let _other = sent.compare_exchange(mark, 0, Ordering::SeqCst, Ordering::SeqCst);
        }
    }
}

/// A transmitter that stores which jobs of timers have ended.
#[derive(Drop)]
pub struct TimerWire<'a, W: Wire> {
    pub wire: &'a W,
    pub jobs: &'a TimerJobs,
}

impl<'a, W: Wire> Wire for TimerWire<'a, W> {
    ghost called = { W.called };

    fn send<R: Wait>(&self, rt: &R, number: u64, emission: &Emission, log: &mut CallLog) -> bool {
        self.wire.send(rt, number, emission, log)
    }

    fn ended<R: Wait>(&self, rt: &R, number: u64, log: &mut CallLog) {
        self.wire.ended(rt, number, log);
        self.jobs.end(number);
    }
}
