//! A timer: a slot whose program runs periodically.
use fc_ticket::SlotNumber;
use std::marker::Model;

/// The time from one beat of a timer to the next, in milliseconds: at least 1.
#[derive(Clone, Copy)]
pub struct Period {
    milliseconds: u64,
}

impl Model for Period {
    ghost use Rattle.std.specs.Prelude.{ℕ, ◌<◌};

    ghost Value = { ℕ };

    ghost view = { λ p. p.milliseconds };

    ghost invariant = { λ p. 0 < p.milliseconds };

    ghost inverse = { λ n. record { milliseconds = n } };
}

impl Period {
    ghost use Rattle.std.specs.Prelude.{◌≡◌, ◌<◌, MatchOption};

    /// Makes a period of `milliseconds`, or returns `None` exactly if that is 0.
    pub fn new(milliseconds: u64) -> Option<Period>
        ensures { MatchOption result (milliseconds ≡ 0) (λ p. p ≡ milliseconds) }
    {
        if milliseconds == 0 {
            return None;
        }
        Some(Period { milliseconds })
    }

    /// Returns the milliseconds.
    pub fn milliseconds(self) -> u64
        ensures { (result ≡ self) × (0 < result) }
    {
        self.milliseconds
    }
}

/// A slot, the period of its program's runs, and the time of the next run.
///
/// The time is in milliseconds since the start. `offloaded` says that the last run was sent to a
/// worker.
#[derive(Clone, Copy)]
pub struct Timer {
    pub every: Period,
    pub slot: SlotNumber,
    pub due: u64,
    pub offloaded: bool,
}
