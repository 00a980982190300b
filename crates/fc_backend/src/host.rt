//! The host of a server: its times and random words, and the readings of its device.
ghost use Rattle.std.specs.Prelude.{⊤, ℕ, List};
ghost use Rattle.fc_backend.specs.declared.call_log.CallLog.{CallLog as Log};

use crate::call_log::CallLog;
use fc_help::Readings;
use std::sync::Wait;

/// A source of times and random words.
///
/// A time is in milliseconds since a start that the source chooses. A later call may return an
/// earlier time: the receiver of the times keeps the latest one.
pub trait TimeSource {
    // A call returned the time `now`, and led the caller's log from `before` to `after`.
    ghost is_time: { ℕ → Log → Log → Type 0 } = { λ now before after. ⊤ };

    // A call returned this random word.
    ghost is_random: { ℕ → Type 0 } = { λ _. ⊤ };

    /// Returns the time of the call, in milliseconds.
    fn now<R: Wait>(&self, rt: &R, log: &mut CallLog) -> u64
        ensures { is_time result log.old log.new };

    /// Returns a random word, which sets the timeout of a confirmable notification.
    fn random<R: Wait>(&self, rt: &R) -> u16
        ensures { is_random result };
}

/// The source of a server's readings.
///
/// The readings come from the sensors and the clock of the server's host, or a driver stores them
/// for the server.
pub trait Device {
    // A call returned these readings, and led the caller's log from `before` to `after`.
    ghost are_readings: { List ℕ → Log → Log → Type 0 } = { λ readings before after. ⊤ };

    /// Returns the readings at the time of the call, for one snapshot.
    fn readings<R: Wait>(&self, rt: &R, log: &mut CallLog) -> Readings
        ensures { are_readings result log.old log.new };
}
