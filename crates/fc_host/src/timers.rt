//! Timers: when each is due, and which is due first.
//!
//! A receiver of `fc_receive` fires them.
ghost use Rattle.std.specs.Prelude.{◌≡◌, ◌≤◌};
ghost use Rattle.fc_host.specs.Timers.{first_due, new_timer, put_off};

use crate::timer::{Period, Timer};
use fc_ticket::SlotNumber;

impl Timer {
    /// Makes a timer that is first due after one period.
    pub fn new(every: Period, slot: SlotNumber) -> Timer
        ensures { result ≡ new_timer every slot }
    {
        Timer {
            every,
            slot,
            due: every.milliseconds(),
            offloaded: false,
        }
    }

    /// Sets the timer to its first beat after `now`, a time at which the timer is due.
    ///
    /// Beats that it missed are skipped. `now` is in milliseconds.
    pub fn put_off(&mut self, now: u64)
        requires { self.old.due ≤ now }
        ensures { self.new ≡ put_off now self.old }
    {
        let every = self.every.milliseconds();
        let missed = (now - self.due) / every * every;
        self.due = self.due.saturating_add(missed).saturating_add(every);
    }
}

/// Returns the time at which the first of some timers is due, in milliseconds.
///
/// Without timers it is 2^64 - 1.
pub fn first_due(timers: &[Timer]) -> u64
    ensures { result ≡ first_due timers.now }
{
    timers
        .iter()
        .fold(u64::MAX, |due, timer| due.min(timer.due))
}
