//! Consequences of the definitions of options: each function's contract is a law.
ghost use Rattle.std.specs.Prelude.{◌≡◌, ◌*◌, ◌≤◌, ℕ, List, [], ◌∷◌, None, Some, codes, false};
ghost use Rattle.fc_host.specs.declared.timer.Timer.{Timer};
ghost use Rattle.fc_config.specs.Every.{IsNoTimerText, IsTimerText};
ghost use Rattle.fc_config.specs.Logs.{ArePeriods, IsReportText};

use crate::every::LONGEST;
use crate::options::DEFAULT_EXTENT;

/// `DEFAULT_EXTENT` has two workers and no limit.
///
/// A test shows that these are the defaults of the command line.
pub fn default_extent_has_two_workers_and_no_end()
    ensures { DEFAULT_EXTENT ≡ record { workers = 2; limit = 0 } }
{}

/// The longest period of a timer is a day.
///
/// A day is 24 hours of 60 minutes of 60 seconds of 1,000 ms. `86400000:7` is the text of a timer,
/// and no text has a longer period.
pub fn longest_period_is_a_day()
    ensures code { LONGEST ≡ 24 * 60 * 60 * 1000 }
    ensures day { IsTimerText (codes "86400000:7") (record { every = 86400000; slot = 7; due = 86400000; offloaded = false }) }
    ensures most { (text : List ℕ) (t : Timer) → IsTimerText text t → t.every ≤ 24 * 60 * 60 * 1000 }
{}

/// A timer has a period of 1 ms to a day, and a slot of 0 to 63.
///
/// `1:0` and `1000:63` are the texts of timers. `0:7`, `86400001:7` and `1000:64` are those of
/// none.
pub fn timers_have_periods_and_slots()
    ensures shortest { IsTimerText (codes "1:0") (record { every = 1; slot = 0; due = 1; offloaded = false }) }
    ensures last { IsTimerText (codes "1000:63") (record { every = 1000; slot = 63; due = 1000; offloaded = false }) }
    ensures none { IsNoTimerText (codes "0:7") }
    ensures longer { IsNoTimerText (codes "86400001:7") }
    ensures beyond { IsNoTimerText (codes "1000:64") }
{}

/// Some texts of `--log` give a period of reports.
///
/// `report:60` is each minute, and the longest period is a day. Of several texts, the last one
/// counts.
pub fn reports_have_their_periods()
    ensures minute { IsReportText (codes "report:60") 60000 }
    ensures day { (text : List ℕ) (period : ℕ) → IsReportText text period → period ≤ 24 * 60 * 60 * 1000 }
    ensures last { ArePeriods (codes "report:60" ∷ codes "info" ∷ codes "report:5" ∷ []) None (Some 5000) }
{}
