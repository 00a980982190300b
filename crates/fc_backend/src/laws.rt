//! Laws about the tracks of jobs, and about the head words that a worker knows.
//!
//! Each law is the contract of an empty function.
ghost use Rattle.std.specs.Prelude.{◌≡◌, ◌<◌, ◌≤◌, ℕ, false, [], ◌∷◌};
ghost use Rattle.fc_calls.specs.Logged.{LoggedCall};
ghost use Rattle.fc_filed.specs.Threads.{known_word};
ghost use Rattle.fc_filed.specs.declared.entry.FiledEntry.{FiledEntry};
ghost use Rattle.fc_front.specs.Timers.{timer_job};
ghost use Rattle.fc_book.specs.Tracks.{own_view, track};
ghost use Rattle.fc_filed.specs.Books.{IsRightForJob};
ghost use Rattle.fc_backend.specs.declared.call_log.CallLog.{CallLog};
ghost use Rattle.fc_backend.specs.RightTracks.{HaveRightTracks, timer_entry};
ghost use Rattle.fc_backend.specs.Messages.{IsNewJob, first_brought};
ghost use Rattle.fc_filed.specs.Entries.{log_of};
ghost use Rattle.fc_linear.specs.Parts.{HaveNextNumbers, bringing};
ghost use Rattle.fc_backend.specs.Logs.{TrackedLog as Log};

use crate::bench::Bench;

/// The timers of slots 5 and 6 fired in the one thread of a server, and each job has a right track.
///
/// The thread's own track has both calls. The track of the second job may be sent to a worker: it
/// has the call that produced the job, and no other. Three messages are refused: a track with the
/// key of the thread's empty track, a track with a second call, and two tracks. One track of both
/// jobs is right for no job. In the other order the jobs don't have the next numbers. With three
/// threads, their own tracks have keys 10 to 12, their empty ones 13 to 15, and the first job's 16.
pub fn two_timers_have_right_tracks()
    ensures right { (calls : CallLog) → HaveRightTracks 11 (record {
      calls = calls;
      who = 10;
      tracks = record {
        locked = [];
        may_begin = false;
        next = 0;
        own = track 12 (timer_entry 12 6 ∷ []) ∷ track 11 (timer_entry 11 5 ∷ []) ∷ track 10 (timer_entry 11 5 ∷ timer_entry 12 6 ∷ []) ∷ [];
      };
    } ∷ []) }
    ensures new { IsNewJob 11 (record { job = timer_job 6; tracks = own_view 12 (timer_entry 12 6 ∷ []) }) }
    ensures low { IsNewJob 11 (record { job = timer_job 6; tracks = own_view 11 (timer_entry 11 6 ∷ []) }) → ⊥ }
    ensures begun { (e : FiledEntry) → IsNewJob 11 (record { job = timer_job 6; tracks = own_view 12 (timer_entry 12 6 ∷ e ∷ []) }) → ⊥ }
    ensures two { IsNewJob 11 (record { job = timer_job 6; tracks = record (own_view 12 (timer_entry 12 6 ∷ [])) { own = track 12 (timer_entry 12 6 ∷ []) ∷ track 11 [] ∷ [] } }) → ⊥ }
    ensures shared { IsRightForJob 11 (timer_entry 11 5 ∷ timer_entry 11 6 ∷ []) → ⊥ }
    ensures keys { first_brought 13 ≡ 16 }
    ensures turned { HaveNextNumbers 0 (bringing (log_of 11 (timer_entry 12 6 ∷ timer_entry 11 5 ∷ []))) → ⊥ }
{}

/// A worker still knows each head word that it knew before a logged call.
///
/// So, by `Bench::peek`, a later look of the worker returns at least the word of an earlier one, if
/// the calls in between were logged.
pub fn workers_forget_no_head_word<B: Bench>()
    ensures { (call : LoggedCall) (slot : ℕ) (before after : Log) → B.logged call before after
        → known_word slot before.tracks.own ≤ known_word slot after.tracks.own }
{}
