//! Laws about the effects of a pool's workers.
//!
//! Each law is the contract of an empty function.
ghost use Rattle.std.specs.Prelude.{◌≡◌, ℕ, List, [], None, Option, Some, length, slice_index_or};
ghost use Rattle.coap_msg.specs.declared.types.Emission.{Emission};
ghost use Rattle.fc_ticket.specs.declared.job.Ask.TheVariants.{Install, Remove};
ghost use Rattle.fc_ticket.specs.declared.job.InitialVars.{InitialVars};
ghost use Rattle.fc_ticket.specs.declared.job.Job.{Job};
ghost use Rattle.fc_front.specs.Contents.{Content};
ghost use Rattle.fc_server.specs.States.{ServerState};
ghost use Rattle.fc_server.specs.declared.gauges.Gauges.{Gauges};
ghost use Rattle.fc_backend.specs.Called.{CountsObservers, ReadsGauges};
ghost use Rattle.fc_backend.specs.Logs.{TrackedLog as Log};
ghost use Rattle.fc_locked.specs.SharedStores.{HasSaved};
ghost use Rattle.fc_record.specs.ProgramRequests.{Requested};
ghost use Rattle.fc_workers.specs.Outgoing.{GivesAnswer};
ghost use Rattle.fc_pool.specs.Pooled.{PooledIngress, locked_view, pooled_calls};

use fc_backend::{Bench, Device, Gate, TimeSource, Wire};
use fc_record::Recorder;
use fc_store::Store;
use fc_workers::WorkerParts;

/// A worker records each change that it has answered, once, right after the answer.
///
/// A change is a job that installs an image or removes a program. Its record names the job's slot
/// and the image. The answer of any other job is followed by no record. Nothing is recorded before
/// a commit.
pub fn workers_record_answered_changes<D: Device, K: Store, M: TimeSource, W: Wire, C: Recorder>()
    ensures install { (first : ServerState) (job : Job) (content : Content) (reply : Option Emission) (before after : Log) (image : List ℕ) (initial : InitialVars)
        → (answer : GivesAnswer (locked_view first D.are_readings (HasSaved K.Store) M.is_time M.is_random W.called C.recorded) job content reply before after)
        → job.ask ≡ Install (record { items = image }) initial
        → (change : Requested) × (change.slot ≡ job.origin.slot) × (change.image ≡ Some image) × C.recorded change answer.log.calls after.calls }
    ensures removal { (first : ServerState) (job : Job) (content : Content) (reply : Option Emission) (before after : Log)
        → (answer : GivesAnswer (locked_view first D.are_readings (HasSaved K.Store) M.is_time M.is_random W.called C.recorded) job content reply before after)
        → job.ask ≡ Remove
        → (change : Requested) × (change.slot ≡ job.origin.slot) × (change.image ≡ None) × C.recorded change answer.log.calls after.calls }
    ensures other { (first : ServerState) (job : Job) (content : Content) (reply : Option Emission) (before after : Log)
        → (answer : GivesAnswer (locked_view first D.are_readings (HasSaved K.Store) M.is_time M.is_random W.called C.recorded) job content reply before after)
        → ((image : List ℕ) (initial : InitialVars) → job.ask ≡ Install (record { items = image }) initial → ⊥) → (job.ask ≡ Remove → ⊥)
        → after.calls ≡ answer.log.calls }
    ensures before_commit { (first : ServerState) (number : ℕ) (before after : Log)
        → (locked_view first D.are_readings (HasSaved K.Store) M.is_time M.is_random W.called C.recorded).between number before after
        → after.calls ≡ before.calls }
{}

/// A pool's gauges are those that the front returns for their time, and have each shard's numbers.
///
/// The numbers of the first shard and of the last, 0 and 7, are those that the shard returns. If
/// three jobs were sent to workers, the gauges have three.
pub fn gauges_of_a_pool_are_of_its_front_and_shards<B: Bench, G: Gate, W: Wire, M: TimeSource>()
    ensures front { (state : PooledIngress B.Tallies) (gauges : Gauges) → (pooled_calls ⟦<(B, G, W, M) as WorkerParts>⟧.view).tells_gauges 61500 state gauges
        → B.called (ReadsGauges 61500 gauges.front) }
    ensures first { (now : ℕ) (state : PooledIngress B.Tallies) (gauges : Gauges) → (pooled_calls ⟦<(B, G, W, M) as WorkerParts>⟧.view).tells_gauges now state gauges
        → B.called (CountsObservers 0 (slice_index_or gauges.observers.shards 0 [])) }
    ensures last { (now : ℕ) (state : PooledIngress B.Tallies) (gauges : Gauges) → (pooled_calls ⟦<(B, G, W, M) as WorkerParts>⟧.view).tells_gauges now state gauges
        → B.called (CountsObservers 7 (slice_index_or gauges.observers.shards 7 [])) }
    ensures sent { (now : ℕ) (state : PooledIngress B.Tallies) (gauges : Gauges) → (pooled_calls ⟦<(B, G, W, M) as WorkerParts>⟧.view).tells_gauges now state gauges
        → length state.done.sent.sent ≡ 3 → gauges.offloaded ≡ 3 }
{}
