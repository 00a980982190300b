//! Execution of a whole list of events.
ghost use Rattle.std.specs.Prelude.{◌≡◌, ℕ, ◌<◌, ◌≤◌, [], length, IfErr, IfOk};
ghost use Rattle.fc_registry.specs.Laws.{RingBegins};
ghost use Rattle.fc_registry.specs.Record.{IsChain, IsRing};
ghost use Rattle.fc_registry.specs.Restored.{restored_slot};
ghost use Rattle.fc_registry.specs.Shards.{AreShards, shard_at, slot_in_shards};
ghost use Rattle.fc_registry.specs.Slots.{new_slot};
ghost use Rattle.fc_registry.specs.Starts.{CanRestore, IsStartError, RingContinues};
ghost use Rattle.fc_server.specs.Serving.{Serves};
ghost use Rattle.fc_server.specs.States.{CanBegin};
ghost use Rattle.fc_core.specs.History.{History, history_of, seen, slot_at};
ghost use Rattle.fc_core.specs.Legal.{IsLegal, AllMean};
ghost use Rattle.fc_store.specs.Stored.{stored_in};
ghost use Rattle.fc_world.specs.Histories.{history_from, history_over};
ghost use Rattle.fc_world.specs.Runs.{EndsWith};

use crate::state::WorldState;
use coap_msg::Emission;
use fc_core::Event;
use fc_front::Policy;
use fc_registry::{Shard, StartError};
use fc_server::{Begin, DEFAULT_BEGIN};
use fc_store::StoredSlot;
use std::alloc::{AllocError, Global};

/// The result of a list of events.
///
/// It has an entry for each event, its emission or `None`, and the eight shards after the last
/// event.
#[derive(Drop)]
pub struct World {
    pub emissions: Vec<Option<Emission>>,
    pub shards: Vec<Shard>,
}

/// Executes a list of any events, from empty slots at serial 0.
///
/// If it succeeds:
///
/// - `emissions` has an entry for each event: the event's emission, or `None`.
/// - Each emission is legal by the history of the events before it.
/// - Each of the 64 slots is that of the history's state. The slot's commits are a chain; the
///   newest commits are in the slot's ring.
/// - If a ring has all commits since the slot's last install, the first of these commits found the
///   variables that the install left.
/// - Each shard's time is that of the history's state.
/// - Each snapshot that found a program has a meaning: the run reaches the program's exit within
///   the steps of the longest path. That path is within the program's budget.
///
/// # Errors
/// Returns `AllocError` if memory can't be allocated. Then nothing is guaranteed.
pub fn run_world(alloc: Global, events: &[Event<'_>]) -> Result<World, AllocError>
    ensures legal { IfOk result (λ w. IsLegal (history_of events.now w.emissions.items)) }
    ensures count { IfOk result (λ w. length w.emissions.items ≡ length events.now) }
    ensures shards { IfOk result (λ w. AreShards w.shards.items) }
    ensures slots { IfOk result (λ w. (n : ℕ) → n < 64 →
        slot_in_shards w.shards.items n ≡ slot_at (seen (history_of events.now w.emissions.items)) n) }
    ensures times { IfOk result (λ w. (i : ℕ) → i < 8 →
        (shard_at w.shards.items i).now ≡ (seen (history_of events.now w.emissions.items)).shard_time i) }
    ensures chains { IfOk result (λ w. (n : ℕ) → n < 64 →
        IsChain (new_slot 0) ((seen (history_of events.now w.emissions.items)).changes n)) }
    ensures rings { IfOk result (λ w. (n : ℕ) → n < 64 → IsRing (slot_in_shards w.shards.items n)) }
    ensures begins { IfOk result (λ w. (n : ℕ) → n < 64 →
        RingBegins 0 ((seen (history_of events.now w.emissions.items)).changes n) (slot_in_shards w.shards.items n)) }
    ensures means { IfOk result (λ w. AllMean (history_of events.now w.emissions.items)) }
{
    run_world_from(alloc, &DEFAULT_BEGIN, events)
}

/// Executes a list of any events, on a server with the initial state `begin`.
///
/// The guarantees are those of [`run_world`]. At the start, the slots are empty, at the serial of
/// `begin`. The server has the policy of `begin`, and draws the message ID of `begin` first.
///
/// # Errors
/// Returns `AllocError` if memory can't be allocated. Then nothing is guaranteed.
pub fn run_world_from(
    alloc: Global,
    begin: &Begin,
    events: &[Event<'_>],
) -> Result<World, AllocError>
    requires { CanBegin begin.now }
    ensures legal { IfOk result (λ w. IsLegal (history_from begin.now events.now w.emissions.items)) }
    ensures count { IfOk result (λ w. length w.emissions.items ≡ length events.now) }
    ensures shards { IfOk result (λ w. AreShards w.shards.items) }
    ensures slots { IfOk result (λ w. (n : ℕ) → n < 64 →
        slot_in_shards w.shards.items n ≡ slot_at (seen (history_from begin.now events.now w.emissions.items)) n) }
    ensures times { IfOk result (λ w. (i : ℕ) → i < 8 →
        (shard_at w.shards.items i).now ≡ (seen (history_from begin.now events.now w.emissions.items)).shard_time i) }
    ensures chains { IfOk result (λ w. (n : ℕ) → n < 64 →
        IsChain (new_slot begin.now.serial) ((seen (history_from begin.now events.now w.emissions.items)).changes n)) }
    ensures rings { IfOk result (λ w. (n : ℕ) → n < 64 → IsRing (slot_in_shards w.shards.items n)) }
    ensures begins { IfOk result (λ w. (n : ℕ) → n < 64 →
        let changes = (seen (history_from begin.now events.now w.emissions.items)).changes n in
        RingBegins begin.now.serial changes (slot_in_shards w.shards.items n)) }
    ensures means { IfOk result (λ w. AllMean (history_from begin.now events.now w.emissions.items)) }
{
    run_events(alloc, WorldState::new(alloc, begin)?, events)
}

/// Executes a list of any events, on a server whose slots are restored from `stored`.
///
/// `stored` has the stored states of slots 0 to 63, for example those that an earlier run left. The
/// server has the policy, and draws the message ID `id` first. The guarantees are those of
/// [`run_world`]. At the start, each slot has its stored serial, program, version and variables,
/// and its ring is empty. A ring counts the commits from the start, or from the slot's last install
/// after it.
///
/// # Errors
/// Returns `Slot` with the number of a slot that can't be restored, and the reason. Returns
/// `Memory` if memory can't be allocated. Then nothing else is guaranteed.
pub fn run_world_over(
    alloc: Global,
    stored: &[StoredSlot],
    id: u16,
    policy: &Policy,
    events: &[Event<'_>],
) -> Result<World, StartError>
    requires { length stored.now ≡ 64 }
    ensures legal { IfOk result (λ w. IsLegal (history_over (stored_in stored.now) id policy.now events.now w.emissions.items)) }
    ensures count { IfOk result (λ w. length w.emissions.items ≡ length events.now) }
    ensures shards { IfOk result (λ w. AreShards w.shards.items) }
    ensures slots { IfOk result (λ w. (n : ℕ) → n < 64 → slot_in_shards w.shards.items n
        ≡ slot_at (seen (history_over (stored_in stored.now) id policy.now events.now w.emissions.items)) n) }
    ensures times { IfOk result (λ w. (i : ℕ) → i < 8 → (shard_at w.shards.items i).now
        ≡ (seen (history_over (stored_in stored.now) id policy.now events.now w.emissions.items)).shard_time i) }
    ensures chains { IfOk result (λ w. (n : ℕ) → n < 64 → IsChain (restored_slot (stored_in stored.now n))
        ((seen (history_over (stored_in stored.now) id policy.now events.now w.emissions.items)).changes n)) }
    ensures rings { IfOk result (λ w. (n : ℕ) → n < 64 →
        let changes = (seen (history_over (stored_in stored.now) id policy.now events.now w.emissions.items)).changes n in
        RingContinues (restored_slot (stored_in stored.now n)) changes (slot_in_shards w.shards.items n)) }
    ensures means { IfOk result (λ w. AllMean (history_over (stored_in stored.now) id policy.now events.now w.emissions.items)) }
    ensures restored { IfOk result (λ w. (n : ℕ) → n < 64 → CanRestore (stored_in stored.now n)) }
    ensures cause { IfErr result (IsStartError (stored_in stored.now)) }
{
    let state = WorldState::over(alloc, stored, id, policy)?;
    Ok(run_events(alloc, state, events)?)
}

// Executes a list of events on a server without tasks. Returns the emissions, and the shards at the
// end. Returns an error if memory can't be allocated.
fn run_events(alloc: Global, first: WorldState, events: &[Event<'_>]) -> Result<World, AllocError>
    requires begun { (h : History) × Serves h first.server [] }
    requires none { first.tasks.items ≡ [] }
    ensures { IfOk result (λ w. (h : History) → Serves h first.server [] → EndsWith h events.now w.emissions.items w.shards.items) }
{
    let mut state = first;
    let mut emissions = Vec::new(alloc);
    for event in events {
        let emitted = state.step(alloc, event)?;
        emissions.push(emitted)?;
    }
    let WorldState { server, tasks: _ } = state;
    Ok(World {
        emissions,
        shards: server.into_shards(),
    })
}
