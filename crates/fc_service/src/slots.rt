//! The slots that a server starts with: their first state, and the store that saves their changes.
ghost use Rattle.std.specs.Prelude.{◌≡◌, ◌<◌, ℕ, [], IfErr, IfOk, OnOk, length, map, true};
ghost use Rattle.fc_registry.specs.Restored.{at_least};
ghost use Rattle.fc_registry.specs.Starts.{CanRestore, IsStartError};
ghost use Rattle.fc_core.specs.History.{BeginsWith};
ghost use Rattle.fc_store.specs.Saves.{FindsStored};
ghost use Rattle.fc_filed.specs.Saves.{FindsRaised};
ghost use Rattle.fc_server.specs.Serving.{Serves};
ghost use Rattle.fc_server.specs.States.{begin_of, first_server, server_over};
ghost use Rattle.fc_service.specs.Serials.{begin_by, raised_at, serial_over};
ghost use Rattle.fc_service.specs.Starting.{IsRestoredFrom, SavesSerial};
ghost use Rattle.fc_store.specs.Stored.{stored_in};
ghost use Rattle.fc_store.specs.Updates.{AreSameSlots, program_after};

use crate::serials::{serial_of_start, serial_over};
use fc_front::Policy;
use fc_locked::ReadyStore;
use fc_registry::{StartError, raise_serials};
use fc_server::{Begin, FirstServer};
use fc_store::{NoStore, ProgramUpdate, SlotUpdate, Store, StoredProgram, StoredSlot, copy_slots};
use std::alloc::{AllocError, Global};
use std::marker::Model;

/// The first state of a server, and the store that saves the changes of its slots.
///
/// The store is ready. If it is persistent, the slots of the first state are those of the store,
/// restored.
#[derive(Drop)]
pub struct Slots<P: Store + Drop> {
    pub(crate) first: FirstServer,
    pub(crate) store: ReadyStore<P>,
}

impl<P: Store + Drop> Model for Slots<P> {
    ghost use Rattle.std.specs.Prelude.{◌≡◌, true};
    ghost use Rattle.fc_service.specs.Starting.{IsRestoredFrom, StartingSlots};

    ghost Value = { StartingSlots P };

    ghost view = { λ s. record { first = s.first; store = s.store } };

    ghost invariant = { λ s. P.persistent ≡ true → IsRestoredFrom (P.stored s.store) s.first };
}

impl<P: Store + Drop> Slots<P> {
    /// Takes the first state of a server, and the store that saves the changes of its slots.
    ///
    /// The store is ready, and a start would find the stored programs in it. If the store is
    /// persistent, `first` has its slots: see [`restored_slots`].
    pub fn of(first: FirstServer, store: P) -> Slots<P>
        requires ready { P.is_ready store }
        requires settled { P.is_clean store → FindsRaised P.Store store }
        requires restored { P.persistent ≡ true → IsRestoredFrom (P.stored store) first }
        ensures { result ≡ record { first = first; store = store } }
    {
        Slots {
            first,
            store: ReadyStore::new(store),
        }
    }

    /// Restores the slots of a store, and saves the serial at which they start.
    ///
    /// `stored` has the store's slots 0 to 63, which are restored as by [`restored_slots`]. Another
    /// start would find just these slots, as in a store that was opened. If the store is
    /// persistent, their serial is then saved with slot 0, whose program stays. After that save,
    /// each later start over the store has a greater serial, even if the clock is set back.
    ///
    /// Returns the slots, and `true` unless the store refuses the save. A server can start without
    /// it: a full disk, for example, doesn't prevent GETs.
    ///
    /// # Errors
    /// Returns `Slot` with the number of a slot that can't be restored, and the reason. Returns
    /// `Memory` if memory can't be allocated.
    pub fn restored(
        alloc: Global,
        store: P,
        stored: &[StoredSlot],
        started: u64,
        first_id: u16,
        policy: &Policy,
    ) -> Result<(Slots<P>, bool), StartError>
        requires count { length stored.now ≡ 64 }
        requires same { AreSameSlots (stored_in stored.now) (P.stored store) }
        requires ready { P.is_ready store }
        requires settled { P.is_clean store → FindsStored P.Store store }
        ensures first { IfOk result (λ r. r.0.first ≡ server_over (raised_at started stored.now) first_id policy.now) }
        ensures begins { IfOk result (λ r. Serves (BeginsWith (raised_at started stored.now) first_id policy.now) r.0.first []) }
        ensures saved { IfOk result (λ r. SavesSerial P.Store (serial_over started stored.now) (stored_in stored.now 0).program r.1 store r.0.store) }
        ensures cause { IfErr result (IsStartError (raised_at started stored.now)) }
    {
        let first = restored_slots(alloc, stored, started, first_id, policy)?;
        let mut store = store;
        let is_saved = save_serial(&mut store, &stored[0], serial_over(started, stored));
        Ok((Slots::of(first, store), is_saved))
    }
}

impl Slots<NoStore> {
    /// Makes empty slots whose changes aren't saved, by the time at which the server starts.
    ///
    /// `started` is in milliseconds since 1970, and gives the slots' serial. See
    /// [`serial_of_start`]. The server draws the message ID `first_id` first.
    ///
    /// # Errors
    /// Returns `AllocError` if memory can't be allocated.
    pub fn empty(
        alloc: Global,
        started: u64,
        first_id: u16,
        policy: &Policy,
    ) -> Result<Slots<NoStore>, AllocError>
        ensures first { IfOk result (λ s. s.first ≡ first_server (begin_by started first_id policy.now)) }
        ensures begins { IfOk result (λ s. Serves (begin_of (begin_by started first_id policy.now)) s.first []) }
    {
        let begin = Begin {
            serial: serial_of_start(started),
            id: first_id,
            policy: *policy,
        };
        let first = FirstServer::new(alloc, &begin)?;
        Ok(Slots::of(first, NoStore))
    }
}

/// Makes the first state of a server with restored slots, by the time at which the server starts.
///
/// `stored` has the states of slots 0 to 63, as a store has them. All slots start at one serial:
/// the first serial of empty slots (see [`Slots::empty`]), or one more than the greatest stored
/// serial if that is greater. So this serial is above those of earlier starts if the clock wasn't
/// set back, or if the store has their last updates (see [`Slots::restored`]). Each image is
/// verified again.
///
/// # Errors
/// Returns `Slot` with the number of a slot that can't be restored, and the reason. Returns
/// `Memory` if memory can't be allocated.
pub fn restored_slots(
    alloc: Global,
    stored: &[StoredSlot],
    started: u64,
    first_id: u16,
    policy: &Policy,
) -> Result<FirstServer, StartError>
    requires { length stored.now ≡ 64 }
    ensures first { IfOk result (λ f. f ≡ server_over (raised_at started stored.now) first_id policy.now) }
    ensures begins { IfOk result (λ f. Serves (BeginsWith (raised_at started stored.now) first_id policy.now) f []) }
    ensures serials { OnOk result ((n : ℕ) → n < 64 → (raised_at started stored.now n).serial ≡ serial_over started stored.now) }
    ensures can { OnOk result ((n : ℕ) → n < 64 → CanRestore (raised_at started stored.now n)) }
    ensures restored { IfOk result (IsRestoredFrom (stored_in stored.now)) }
    ensures cause { IfErr result (IsStartError (raised_at started stored.now)) }
{
    let slots = copy_raised(alloc, stored, started)?;
    FirstServer::over(alloc, &slots, first_id, policy)
}

// Copies stored slots, and raises their serials to the first serial of a start over them at this
// time. Returns `AllocError` if memory can't be allocated.
fn copy_raised(
    alloc: Global,
    stored: &[StoredSlot],
    started: u64,
) -> Result<Vec<StoredSlot>, AllocError>
    ensures { IfOk result (λ v. v.items ≡ map (at_least (serial_over started stored.now)) stored.now) }
{
    let mut slots = copy_slots(alloc, stored)?;
    raise_serials(&mut slots, serial_over(started, stored));
    Ok(slots)
}

// Saves `serial` with slot 0, whose stored state is `slot`, if the store is persistent. The slot
// keeps its program. Returns `false` if the store refuses the save.
fn save_serial<P: Store>(store: &mut P, slot: &StoredSlot, serial: u64) -> bool
    ensures { SavesSerial P.Store serial slot.now.program result store.old store.new }
{
    let update = SlotUpdate {
        slot: 0,
        serial,
        program: unchanged(&slot.program),
    };
    !store.is_persistent() || store.save(&update)
}

// Returns the update that keeps this stored program, or that keeps a slot empty.
fn unchanged(program: &Option<StoredProgram>) -> ProgramUpdate<'_>
    ensures { (serial : ℕ) → program_after serial result program.now ≡ program.now }
{
    match program {
        Some(program) => ProgramUpdate::Commit(&program.vars),
        None => ProgramUpdate::Remove,
    }
}
