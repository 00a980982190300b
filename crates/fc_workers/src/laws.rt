//! Laws about workers and dispatchers.
//!
//! Each law is the contract of an empty function.
ghost use Rattle.std.specs.Prelude.{◌≡◌, ◌<◌, ◌≤◌, ◌⊎◌, ℕ, Bool, false, None, Some, List};
ghost use Rattle.coap_msg.specs.declared.types.Endpoint.{Endpoint};
ghost use Rattle.fc_front.specs.declared.by_value.Delivered.TheVariants.{Signal};
ghost use Rattle.fc_calls.specs.Logged.{HandsSignal};
ghost use Rattle.arrayvec.specs.ArrayVec.{ArrayVec};
ghost use Rattle.fc_help.specs.Request.{Request};
ghost use Rattle.fc_help.specs.declared.request.Method.TheVariants.{Get};
ghost use Rattle.fc_ticket.specs.declared.job.Ask.TheVariants.{Describe, Install, Remove, Run};
ghost use Rattle.fc_ticket.specs.declared.job.InitialVars.{InitialVars};
ghost use Rattle.fc_ticket.specs.declared.job.Job.{Job};
ghost use Rattle.fc_core.specs.Stage.{Gone};
ghost use Rattle.fc_core.specs.Stages.{first_stage};
ghost use Rattle.fc_front.specs.Timers.{timer_job};
ghost use Rattle.std.specs.List.{All};
ghost use Rattle.fc_book.specs.Tracks.{HasKey};
ghost use Rattle.fc_filed.specs.JobTracks.{HasJobAt};
ghost use Rattle.fc_filed.specs.Threads.{HasOwnTrack, key_of_first};
ghost use Rattle.fc_backend.specs.Called.{FindsSaving};
ghost use Rattle.fc_workers.specs.Views.{HasFiledFor};
ghost use Rattle.fc_backend.specs.RightTracks.{HasRightJobs};
ghost use Rattle.fc_jobs.specs.declared.protocol.Numbered.{Numbered};
ghost use Rattle.fc_backend.specs.Messages.{TrackedJob};
ghost use Rattle.fc_workers.specs.Received.{KeepsRightJobs};
ghost use Rattle.fc_workers.specs.Shares.{AreTurns};
ghost use Rattle.fc_workers.specs.Work.{IsReplied};
ghost use Rattle.fc_workers.specs.Dispatch.{HasReadCost, IsDone, IsHeldUp, IsWorkedHere, MayGo, may_change_slot, unsent};
ghost use Rattle.fc_backend.specs.Logs.{TrackedLog as Log};
ghost use Rattle.fc_backend.specs.Statistics.{Share as Done};
ghost use Rattle.fc_workers.specs.Workers.{Dispatched};
ghost use Rattle.fc_workers.specs.declared.dispatcher.Offload.{Offload};
ghost use Rattle.fc_workers.specs.declared.dispatcher.Offload.TheVariants.{ChangesAndExpensive, Expensive};

use crate::context::WorkerParts;
use fc_backend::{Bench, Gate, TimeSource, Wire};

/// A dispatcher passes each signal to shards 0 to 7.
///
/// A signal is a Reset message or an Acknowledgement. Each shard gets it once, in this order, as it
/// was received. The dispatcher's log has no other call.
pub fn signals_reach_eight_shards<B: Bench, G: Gate, W: Wire, M: TimeSource>()
    ensures { (offload : Offload) (from : Endpoint) (id : ℕ) (reset : Bool) (old new : Dispatched B.Tallies)
        → IsDone ⟦<(B, G, W, M) as WorkerParts>⟧.view offload from (Signal id reset) old new
        → (a b c d e f g : Log) × B.logged (HandsSignal 0 from id reset) old.share.log a × B.logged (HandsSignal 1 from id reset) a b
        × B.logged (HandsSignal 2 from id reset) b c × B.logged (HandsSignal 3 from id reset) c d × B.logged (HandsSignal 4 from id reset) d e
        × B.logged (HandsSignal 5 from id reset) e f × B.logged (HandsSignal 6 from id reset) f g × B.logged (HandsSignal 7 from id reset) g new.share.log }
{}

/// A worker that runs a job to its end leaves the tracks of its jobs right.
///
/// The worker has its own track, and right tracks of jobs. The job's track is first, and the job is
/// at its first stage. After the run the job is at `Gone`: the job's entries, from the call that
/// produced it, are the operations that its stages need. The worker's entries for the job are also
/// the last ones on its own track. The tracks of its other jobs are unchanged.
pub fn worked_jobs_have_right_tracks<B: Bench, G: Gate, W: Wire, M: TimeSource>()
    ensures { (first_job number : ℕ) (job : Job) (before after : Done B.Tallies)
        → HasOwnTrack first_job before.log.who before.log.tracks → HasJobAt first_job job (first_stage job) before.log.tracks → HasRightJobs first_job before.log.tracks
        → IsReplied ⟦<(B, G, W, M) as WorkerParts>⟧.view number job before after
        → HasFiledFor first_job job (first_stage job) Gone before.log after.log × HasJobAt first_job job Gone after.log.tracks × HasRightJobs first_job after.log.tracks }
{}

/// A worker that receives and runs jobs keeps its tracks right.
///
/// The worker has its own track. As in `worker`, each job comes with its track, is at its first
/// stage, and is run to its end. After any number of jobs, each job's track that the worker has is
/// right. The worker has the track of each job that it received. None of the entries that it filed
/// for these jobs produces a job.
pub fn received_jobs_have_right_tracks<B: Bench, G: Gate, W: Wire, M: TimeSource>()
    ensures kept { (first_job : ℕ) (jobs : List (Numbered TrackedJob)) (before after : Done B.Tallies)
        → HasOwnTrack first_job before.log.who before.log.tracks → HasRightJobs first_job before.log.tracks
        → AreTurns first_job ⟦<(B, G, W, M) as WorkerParts>⟧.view jobs before after
        → KeepsRightJobs first_job before.log after.log }
    ensures received { (first_job : ℕ) (jobs : List (Numbered TrackedJob)) (before after : Done B.Tallies)
        → HasOwnTrack first_job before.log.who before.log.tracks → HasRightJobs first_job before.log.tracks
        → AreTurns first_job ⟦<(B, G, W, M) as WorkerParts>⟧.view jobs before after
        → All (λ (n : Numbered TrackedJob). HasKey (key_of_first n.message.tracks.own) after.log.tracks.own) jobs }
{}

/// With the policy of changes, jobs that may change a slot go to workers at any cost.
///
/// The policy is `ChangesAndExpensive(6000)`. The jobs are an install, a removal, and a run for a
/// POST, as that of slot 5's timer. No cost is read for them. If such a job is run here, the
/// dispatcher's log has the calls of the run and no other. A GET may go if a cost of 6,000 was read
/// in its slot, or if a save of the slot's shard holds it up. Otherwise neither a GET nor a lease's
/// job goes unless a cost of 6,000 or more was read. A job that describes a program goes only if a
/// save holds it up. With the policy `Expensive(6000)` a save sends no job.
pub fn changes_go_to_workers<B: Bench, G: Gate, W: Wire, M: TimeSource>()
    ensures post { (log : Log) → MayGo ⟦<(B, G, W, M) as WorkerParts>⟧.view (ChangesAndExpensive 6000) (timer_job 5) log log }
    ensures install { (job : Job) (image : ArrayVec ℕ) (initial : InitialVars) (log : Log) → job.turn ≡ None → job.ask ≡ Install image initial
        → MayGo ⟦<(B, G, W, M) as WorkerParts>⟧.view (ChangesAndExpensive 6000) job log log }
    ensures removal { (job : Job) (log : Log) → job.turn ≡ None → job.ask ≡ Remove
        → MayGo ⟦<(B, G, W, M) as WorkerParts>⟧.view (ChangesAndExpensive 6000) job log log }
    ensures unread { (before after : Log)
        → MayGo ⟦<(B, G, W, M) as WorkerParts>⟧.view (ChangesAndExpensive 6000) (timer_job 5) before after → after ≡ before }
    ensures here { (before after : Dispatched B.Tallies)
        → IsWorkedHere ⟦<(B, G, W, M) as WorkerParts>⟧.view (ChangesAndExpensive 6000) (timer_job 5) before after
        → IsReplied ⟦<(B, G, W, M) as WorkerParts>⟧.view unsent (timer_job 5) before.share after.share }
    ensures expensive { (job : Job) (request : Request) (before after : Log) → job.ask ≡ Run request → request.method ≡ Get
        → HasReadCost ⟦<(B, G, W, M) as WorkerParts>⟧.view job (Some 6000) before after
        → MayGo ⟦<(B, G, W, M) as WorkerParts>⟧.view (ChangesAndExpensive 6000) job before after }
    ensures held { (job : Job) (request : Request) (log : Log) → job.ask ≡ Run request → B.called (FindsSaving job.origin.slot)
        → MayGo ⟦<(B, G, W, M) as WorkerParts>⟧.view (ChangesAndExpensive 6000) job log log }
    ensures cheap { (job : Job) (request : Request) (before after : Log) → job.ask ≡ Run request → request.method ≡ Get
        → MayGo ⟦<(B, G, W, M) as WorkerParts>⟧.view (ChangesAndExpensive 6000) job before after
        → IsHeldUp ⟦<(B, G, W, M) as WorkerParts>⟧.view job before after
        ⊎ (cost : ℕ) × (6000 ≤ cost) × HasReadCost ⟦<(B, G, W, M) as WorkerParts>⟧.view job (Some cost) before after }
    ensures lease { (job : Job) (number : ℕ) (before after : Log) → job.turn ≡ Some number
        → MayGo ⟦<(B, G, W, M) as WorkerParts>⟧.view (ChangesAndExpensive 6000) job before after
        → IsHeldUp ⟦<(B, G, W, M) as WorkerParts>⟧.view job before after
        ⊎ (cost : ℕ) × (6000 ≤ cost) × HasReadCost ⟦<(B, G, W, M) as WorkerParts>⟧.view job (Some cost) before after }
    ensures described { (job : Job) (before after : Log) → job.ask ≡ Describe
        → MayGo ⟦<(B, G, W, M) as WorkerParts>⟧.view (ChangesAndExpensive 6000) job before after
        → B.called (FindsSaving job.origin.slot) × (after ≡ before) }
    ensures others { (job : Job) (before after : Log)
        → MayGo ⟦<(B, G, W, M) as WorkerParts>⟧.view (Expensive 6000) job before after
        → (cost : ℕ) × (6000 ≤ cost) × HasReadCost ⟦<(B, G, W, M) as WorkerParts>⟧.view job (Some cost) before after }
{}

/// A job that may not change its slot changes no slot.
///
/// A job may change its slot if it installs or removes a program, or if it runs one for a POST, and
/// if it isn't a lease's. Any other job leaves the worker's count of the changes of each shard as
/// it was, whatever the calls of the job return.
pub fn other_jobs_change_no_slot<B: Bench, G: Gate, W: Wire, M: TimeSource>()
    ensures { (number : ℕ) (job : Job) (before after : Done B.Tallies) → may_change_slot job ≡ false
        → IsReplied ⟦<(B, G, W, M) as WorkerParts>⟧.view number job before after
        → (shard : ℕ) → shard < 8 → B.changes after.tallies shard ≡ B.changes before.tallies shard }
{}
