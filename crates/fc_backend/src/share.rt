//! The statistics of a worker.
ghost use Rattle.std.specs.Prelude.{◌≡◌, ◌+◌, if◌then◌else◌};
ghost use Rattle.fc_ticket.specs.Taken.{SlotSnapshot};
ghost use Rattle.fc_registry.specs.Views.{taken_with};
ghost use Rattle.fc_backend.specs.Answers.{commit_overtakings, saturated, snapshot_refusals};
ghost use Rattle.fc_backend.specs.Statistics.{new_share};

use crate::job_message::JobMessage;
use crate::track_log::TrackLog;
use fc_filed::ServerName;
use fc_jobs::Got;
use fc_registry::{Committed, Taken};

/// The statistics of a worker.
///
/// The statistics are the worker's tallies, the log of the worker's calls, and the jobs that the
/// worker received. The counters are of replies that went out, of replies that didn't, of refused
/// allocations, and of conflicts of commits. Each counter stops at 2^64 - 1.
#[derive(Drop)]
pub struct Share<T: Drop, L: Drop, M: Drop> {
    pub tallies: T,
    pub log: L,
    pub got: Got<M>,
    pub sent: u64,
    pub failed: u64,
    pub refusals: u64,
    pub overtakings: u64,
}

/// The statistics of a worker whose calls are filed in the book with the name `J`.
pub type ShareOf<T, J> = Share<T, TrackLog<J>, JobMessage<J>>;

impl<T: Drop, J: ServerName> Share<T, TrackLog<J>, JobMessage<J>> {
    /// Makes the statistics of a worker that hasn't begun.
    ///
    /// All counters are 0.
    pub fn new(got: Got<JobMessage<J>>, tallies: T, log: TrackLog<J>) -> ShareOf<T, J>
        ensures { result ≡ new_share got tallies log }
    {
        Share {
            tallies,
            log,
            got,
            sent: 0,
            failed: 0,
            refusals: 0,
            overtakings: 0,
        }
    }

    /// Counts the snapshot's refused allocation, if there is one.
    pub fn count_snapshot(&mut self, taken: &Taken)
        ensures { (found : SlotSnapshot) → self.new ≡ record self.old {
          refusals = saturated (self.old.refusals + snapshot_refusals (taken_with taken.now found));
        } }
    {
        let refused = matches!(taken, Taken::Refused);
        self.refusals = self.refusals.saturating_add(u64::from(refused));
    }

    /// Counts the commit's conflict, if there is one.
    pub fn count_commit(&mut self, committed: &Committed)
        ensures { self.new ≡ record self.old {
          overtakings = saturated (self.old.overtakings + commit_overtakings committed.now);
        } }
    {
        let overtaken = matches!(committed, Committed::Overtaken);
        self.overtakings = self.overtakings.saturating_add(u64::from(overtaken));
    }

    /// Counts a refused allocation, or a change that can't be saved.
    pub fn count_refusal(&mut self)
        ensures { self.new ≡ record self.old { refusals = saturated (self.old.refusals + 1) } }
    {
        self.refusals = self.refusals.saturating_add(1);
    }

    /// Counts a reply as sent if `out`, else as failed.
    pub fn count_reply(&mut self, out: bool)
        ensures { self.new ≡ (if out then record self.old { sent = saturated (self.old.sent + 1) }
            else record self.old { failed = saturated (self.old.failed + 1) }) }
    {
        if out {
            self.sent = self.sent.saturating_add(1);
        } else {
            self.failed = self.failed.saturating_add(1);
        }
    }
}
