//! Shards of slots, each with its observers and its clock.
//!
//! A single-threaded server calls a shard itself. A worker calls a shard while the worker holds the
//! shard's lock.
ghost use Rattle.std.specs.Prelude.{◌≡◌, ◌↔◌, IsTrue, if◌then◌else◌, ℕ, ◌/◌, ◌<◌, ◌≤◌, false, length, map, slice_index_or, IfErr, IfOk, IfSome, OnErr, OnOk};
ghost use Rattle.fc_registry.specs.Shards.{empty_shard};
ghost use Rattle.fc_registry.specs.Slots.{IsOwned, slot_in, with_slot, last_serial, version_in, vars_in};
ghost use Rattle.fc_registry.specs.Changes.{after_changes, vars_installed};
ghost use Rattle.fc_registry.specs.Calls.{TakesAt, CommitsTo, WouldWrite, install_in, receipt_at, remove_from, after_snapshot, NotesTo};
ghost use Rattle.fc_registry.specs.Views.{HasSize, as_seen, taken_with};
ghost use Rattle.fc_registry.specs.Record.{IsRecord};
ghost use Rattle.fc_registry.specs.Starts.{CanRestore, IsRestoreError, RestoresTo};
ghost use Rattle.fc_observe.specs.Calls.{observers_after};
ghost use Rattle.fc_observe.specs.Observers.{no_observers};
ghost use Rattle.fc_observe.specs.Quiet.{AreIdleUntil};
ghost use Rattle.fc_ticket.specs.Notes.{IsKeptUnlessSent, noted_as};
ghost use Rattle.fc_registry.specs.Turns.{due_job, written_if};
ghost use Rattle.fc_registry.specs.Watches.{AreWatched, IsSentUpTo, StaysIdleUntil, after_due, after_given_up, shard_after_tick, due_place, at_time, has_due, has_overdue, is_idle, is_idle_at, overdue_place, new_watches, noticed_at, observer_counts, signal_call, signalled, ticked_in, watch_at};

use crate::commit::Committed;
use crate::restore::RestoreError;
use crate::slot::SlotState;
use crate::turn::{next_turn, no_job};
use coap_msg::{Datagram, Emission, Endpoint};
use fc_help::Readings;
use fc_machine::Outcome;
use fc_observe::{Observers, Ticked, Turn};
use fc_store::StoredSlot;
use fc_ticket::note::note;
use fc_ticket::{
    InitialVars, Job, NoteOutcome, Noted, Notification, Receipt, SHARDS, SlotNumber, SlotSnapshot,
    Ticket,
};
use fc_verify::Verified;
use std::alloc::{AllocError, Global};
use std::marker::Model;
use std::sync::Arc;

/// The number of slots of a shard. A slot's place is its index in the shard's list.
pub const PLACES: usize = 8;

/// The slots of one shard, each with its observers.
///
/// The shard with index `i` has the slots whose numbers have the remainder `i` by 8.
#[derive(Drop)]
pub struct Shard {
    index: u8,
    now: u64,
    slots: Vec<SlotState>,
    watches: Vec<Observers>,
    // If this is `false`, no slot has an observer.
    watched: bool,
}

impl Model for Shard {
    ghost use Rattle.std.specs.Prelude.{◌≡◌, ◌<◌, length, map};
    ghost use Rattle.std.specs.List.{All};
    ghost use Rattle.fc_registry.specs.Slots.{Shard as Seen};

    ghost Value = { Seen };

    ghost use Rattle.fc_registry.specs.Views.{as_seen};
    ghost use Rattle.fc_registry.specs.Record.{IsRecord};
    ghost use Rattle.fc_registry.specs.Watches.{AreSentUpTo, AreWatched};

    ghost view = { λ s. record { index = s.index; now = s.now; slots = map as_seen s.slots.items; watches = s.watches.items } };

    ghost invariant = { λ s. (length s.slots.items ≡ 8) × All (λ x. IsRecord (as_seen x)) s.slots.items
        × (length s.watches.items ≡ 8) × (s.index < 8)
        × AreSentUpTo (map as_seen s.slots.items) s.watches.items
        × AreWatched s.watched s.watches.items };
}

/// The result of a snapshot.
#[derive(Drop)]
pub enum Taken {
    /// A handle of the slot's program; [`SlotSnapshot`] has the rest.
    Given(Arc<Verified>),
    /// The slot is empty.
    Missing,
    /// The lease isn't active.
    Stale,
    /// Memory for another handle of the program can't be allocated.
    Refused,
}

/// The result of a snapshot, with the data that the snapshot wrote.
///
/// In contracts this is the ticket if the snapshot gave one, or else the result alone.
#[derive(Drop)]
pub struct Took {
    pub taken: Taken,
    pub found: SlotSnapshot,
}

impl Model for Took {
    ghost use Rattle.fc_ticket.specs.Taken as spec;

    ghost Value = { spec.Taken };

    ghost use Rattle.fc_registry.specs.Views.{HasSize, taken_with};

    ghost view = { λ t. taken_with t.taken t.found };

    ghost invariant = { λ t. HasSize t.taken t.found };
}

/// The result of an install.
#[derive(Clone, Copy, PartialEq, Eq)]
pub enum Made {
    /// The slot's new serial, and whether the slot was empty before.
    Raised { serial: u64, created: bool },
    /// The slot is at its last serial; nothing changed.
    AtEnd,
}

/// The result of a removal.
#[derive(Clone, Copy, PartialEq, Eq)]
pub enum Removal {
    /// The program was removed; this is the slot's new serial.
    Removed { serial: u64 },
    /// The slot was empty; nothing changed.
    Absent,
    /// The slot is at its last serial; nothing changed.
    AtEnd,
}

impl Shard {
    /// Makes a shard of empty slots, each at `first_serial`.
    ///
    /// The shard's notifications are confirmable after `confirm_after` milliseconds (see
    /// [`Observers::new`]).
    ///
    /// # Errors
    /// Returns `AllocError` if memory can't be allocated.
    pub fn new(
        alloc: Global,
        index: u8,
        first_serial: u64,
        confirm_after: u64,
    ) -> Result<Shard, AllocError>
        requires index { index < 8 }
        requires serial { first_serial ≤ last_serial }
        ensures { IfOk result (λ s. s ≡ empty_shard first_serial confirm_after index) }
    {
        let mut slots = Vec::with_capacity(alloc, usize::from(SHARDS))?;
        for _slot in 0..SHARDS {
            slots.push(SlotState::empty(alloc, first_serial)?)?;
        }
        Ok(Shard {
            index,
            now: 0,
            slots,
            watches: make_watches(alloc, index, confirm_after)?,
            watched: false,
        })
    }

    /// Returns whether a commit of the run would write, for [`crate::plan_commit`].
    ///
    /// The result is `false` if the run has nothing to write or isn't that of the ticket. It is
    /// `false` too if the slot has changed since the snapshot or is at its last serial. Nothing
    /// changes.
    pub fn would_write(&self, outcome: &Outcome<'_>, ticket: &Ticket<'_>) -> bool
        ensures { IsTrue result ↔ WouldWrite outcome.now ticket.now (slot_in self.entry.now ticket.now.origin.slot) }
    {
        self.slots[ticket.origin().slot.place()].would_write(outcome, ticket)
    }

    /// Takes a snapshot of the job's slot, with these readings.
    ///
    /// Returns the program and the data (`Given`), or `Missing` if the slot is empty. Returns
    /// `Refused` if memory for a handle of the program can't be allocated; nothing else needs
    /// memory.
    ///
    /// The job's lease is checked first, at the shard's time: if it isn't active, the result is
    /// `Stale`. If the snapshot of an active lease finds the slot empty, the lease is marked as
    /// missing. The snapshot of a request changes nothing.
    pub fn take(&mut self, job: &Job, readings: &Readings) -> Took
        requires { IsOwned self.old job.now.origin.slot }
        ensures taken { TakesAt job.now readings.now self.old result }
        ensures after { self.new ≡ after_snapshot job.now self.old }
    {
        let mut found = SlotSnapshot::blank();
        let taken = self.take_into(job, readings, &mut found);
        Took { taken, found }
    }

    /// Takes a snapshot as `take` does, and writes it over `found`.
    ///
    /// The data is written in place, and isn't moved. If the result is `Given`, its program and
    /// `found` make the ticket. For any other result the contract says nothing of `found`.
    pub fn take_into(&mut self, job: &Job, readings: &Readings, found: &mut SlotSnapshot) -> Taken
        requires { IsOwned self.old job.now.origin.slot }
        ensures taken { TakesAt job.now readings.now self.old (taken_with result found.new) }
        ensures size { HasSize result found.new }
        ensures after { self.new ≡ after_snapshot job.now self.old }
    {
        let place = job.origin.slot.place();
        match job.turn {
            None => self.slots[place].find(job, readings, found),
            Some(number) => {
                let slot = job.origin.slot.number();
                let watch = &mut self.watches[place];
                let turn = Turn { slot, number };
                self.slots[place].take_turn(watch, self.now, turn, job, readings, found)
            }
        }
    }

    /// Commits a run, at a time in milliseconds.
    ///
    /// A run of the ticket writes exactly if three conditions hold:
    ///
    /// - The run answered a POST with a code of class 2.
    /// - Nothing has changed since the ticket's snapshot.
    /// - The slot is below its last serial.
    ///
    /// The result is then `Done`, as it is for a run that has nothing to write. Every other result
    /// leaves the slot unchanged. The ticket of a lease gives `Stranger`. The shard's clock
    /// advances to `now`, whatever the result.
    ///
    /// The variables that a GET's run wrote are dropped, and so is the run's notify flag. After a
    /// commit that writes, the new serial is the notify serial too if the run set the flag.
    ///
    /// A GET with Observe 0 registers the client as an observer under three conditions: the
    /// response is 2.05 (Content), the first block is requested, and there is room. Observe 1
    /// removes the client's entry, whatever the code.
    pub fn commit(&mut self, now: u64, outcome: &Outcome<'_>, ticket: &Ticket<'_>) -> Committed
        requires { IsOwned self.old ticket.now.origin.slot }
        ensures { CommitsTo outcome.now ticket.now self.old now result self.new }
    {
        self.now = self.now.max(now);
        let place = ticket.origin().slot.place();
        let slot = &mut self.slots[place];
        let watch = &mut self.watches[place];
        let answer = slot.commit(watch, self.now, outcome, ticket);
        self.watched |= !watch.is_empty();
        answer
    }

    /// Restores a slot from its stored state.
    ///
    /// The slot has the stored serial and, if there is one, the stored program with its version and
    /// variables. The image is verified again. The observers are unchanged, and the ring of the
    /// last commits is empty.
    ///
    /// # Errors
    /// Returns why the slot isn't restored; the shard is unchanged then. `State` is also returned
    /// if the stored serial is below the present one, or above the last one.
    pub fn restore(
        &mut self,
        alloc: Global,
        slot: SlotNumber,
        stored: &StoredSlot,
    ) -> Result<(), RestoreError>
        requires { IsOwned self.old slot }
        ensures restored { OnOk result (RestoresTo stored.now self.old slot self.new) }
        ensures can { OnOk result (CanRestore stored.now) }
        ensures unchanged { OnErr result (self.new ≡ self.old) }
        ensures cause { IfErr result (IsRestoreError (slot_in self.old slot) stored.now) }
    {
        let state = &mut self.slots[slot.place()];
        state.restore(alloc, stored)
    }

    /// Installs a program in a slot, and returns the slot's new serial.
    ///
    /// The program's variables are zeros. If `initial` is `Kept` and the previous program's
    /// variables have the new program's size, the new program has those variables instead. At the
    /// last serial nothing changes, and the result is `AtEnd`.
    pub fn install(
        &mut self,
        slot: SlotNumber,
        program: Arc<Verified>,
        initial: InitialVars,
    ) -> Made
        requires { IsOwned self.old slot }
        ensures answer { result ≡ (install_in (slot_in self.old slot) program.value initial).answer }
        ensures slots { let old = slot_in self.old slot in
            self.new ≡ with_slot self.old slot (after_changes old (install_in old program.value initial).changes) }
    {
        let state = &mut self.slots[slot.place()];
        state.install(program, initial)
    }

    /// Removes the program of a slot, with its variables and its ring.
    ///
    /// Returns the slot's new serial. If the slot is empty, nothing changes, and the result is
    /// `Absent`. If a program is at the last serial, nothing changes either, and the result is
    /// `AtEnd`.
    pub fn remove(&mut self, slot: SlotNumber) -> Removal
        requires { IsOwned self.old slot }
        ensures answer { result ≡ (remove_from (slot_in self.old slot)).answer }
        ensures slots { self.new ≡ with_slot self.old slot
            (after_changes (slot_in self.old slot) (remove_from (slot_in self.old slot)).changes) }
    {
        let state = &mut self.slots[slot.place()];
        state.remove()
    }

    /// Returns the receipt of the program in a slot, or `None` if the slot is empty.
    pub fn receipt(&self, slot: SlotNumber) -> Option<Receipt>
        ensures { result ≡ receipt_at (slot_in self.entry.now slot).present }
    {
        let state = &self.slots[slot.place()];
        state.receipt()
    }

    /// Returns the serial of a slot of this shard.
    ///
    /// For the slot of another shard, the result is the serial of the slot at the same place here.
    pub fn serial(&self, slot: SlotNumber) -> u64
        ensures { result ≡ (slot_in self.entry.now slot).serial }
    {
        let state = &self.slots[slot.place()];
        state.serial()
    }

    /// Returns the notify serial of a slot of this shard.
    ///
    /// The notify serial is that of the last change that observers are notified of: an install, a
    /// removal, or a commit whose run set the notify flag. Before any such change, it is the first
    /// serial.
    pub fn notify_serial(&self, slot: SlotNumber) -> u64
        ensures { result ≡ (slot_in self.entry.now slot).notify_serial }
    {
        let state = &self.slots[slot.place()];
        state.noticed()
    }

    /// Returns the version of the program in a slot, or `None` if the slot is empty.
    pub fn version(&self, slot: SlotNumber) -> Option<u64>
        ensures { result ≡ version_in (slot_in self.entry.now slot).present }
    {
        let state = &self.slots[slot.place()];
        state.version()
    }

    /// Returns the variables that an install of `program` would leave in a slot.
    ///
    /// The variables are zeros, or with `Kept` the present ones if these have the program's size.
    /// Nothing is installed; [`crate::plan_install`] calls this for the variables to save.
    pub fn vars_installed(
        &self,
        slot: SlotNumber,
        program: &Verified,
        initial: InitialVars,
    ) -> &[u8]
        ensures { result.now ≡ vars_installed initial program.now (vars_in (slot_in self.entry.now slot).present) }
    {
        let state = &self.slots[slot.place()];
        state.vars_installed(program, initial)
    }

    /// Returns the variables of a slot's program, or no bytes if the slot is empty.
    pub fn vars(&self, slot: SlotNumber) -> &[u8]
        ensures { result.now ≡ vars_in (slot_in self.entry.now slot).present }
    {
        let state = &self.slots[slot.place()];
        state.vars()
    }

    /// Grants a lease to the first observer with a pending notification.
    ///
    /// Observers are in the order of their slots, and then of their registrations. The shard's
    /// clock advances to `now`, in milliseconds. Returns the job of the lease, which answers the
    /// observer's request again, from the first block on. Returns `None` if no lease is granted.
    pub fn next_due(&mut self, now: u64) -> Option<Job>
        ensures job { result ≡ due_job (due_place (at_time self.old now)) (at_time self.old now) }
        ensures after { self.new ≡ after_due (due_place (at_time self.old now)) (at_time self.old now) }
    {
        let mut job = no_job();
        if self.write_due(now, &mut job) {
            Some(job)
        } else {
            None
        }
    }

    /// Grants a lease as `next_due` does, and writes the lease's job over `job`.
    ///
    /// The job is written in place, and isn't moved. Returns whether a lease was granted; if not,
    /// `job` is unchanged.
    pub fn write_due(&mut self, now: u64, job: &mut Job) -> bool
        ensures job { written_if result job.new ≡ due_job (due_place (at_time self.old now)) (at_time self.old now) }
        ensures kept { result ≡ false → job.new ≡ job.old }
        ensures after { self.new ≡ after_due (due_place (at_time self.old now)) (at_time self.old now) }
    {
        self.now = self.now.max(now);
        let Some(place) = self.due_place(self.now) else {
            return false;
        };
        let notify_serial = self.noticed_at(place);
        let slot = SlotNumber::new(SHARDS * place as u8 + self.index);
        let watch = &mut self.watches[place];
        next_turn(watch, self.now, notify_serial, slot, job)
    }

    /// Notifies the observer that has this lease, with the content `told`.
    ///
    /// The notification has the message ID `id`, and `now` is in milliseconds. A 2.05 (Content)
    /// response has the snapshot's serial as its sequence number, and the lease ends. Any other
    /// response, such as 4.04 for an empty slot, has no sequence number, and removes the observer.
    ///
    /// The notification is confirmable if the shard's `confirm_after` has passed since the
    /// observer's registration or last confirmable notification (RFC 7641, section 4.5). A
    /// confirmable notification waits for an acknowledgement, with a timeout that `random`
    /// determines.
    ///
    /// Returns the message, which the caller has to send, or the reason why nothing is sent (see
    /// [`Noted`]). `Stale` is tested before `Stranger`, and neither changes an observer.
    pub fn note(
        &mut self,
        turn: Turn,
        id: u16,
        now: u64,
        random: u16,
        told: &Notification<'_>,
    ) -> Noted
        requires { IsOwned self.old turn.slot }
        ensures { NotesTo told.now turn id random self.old now result self.new }
    {
        let mut emission = Emission {
            to: Endpoint::default(),
            bytes: Datagram::new(),
        };
        match self.write_note(turn, id, now, random, told, &mut emission) {
            NoteOutcome::Sent => Noted::Send(emission),
            NoteOutcome::Stale => Noted::Stale,
            NoteOutcome::Stranger => Noted::Stranger,
        }
    }

    /// Notifies an observer as `note` does, and writes the message over `emission`.
    ///
    /// The message is written in place, and isn't moved. `emission` is unchanged unless the result
    /// is `Sent`.
    pub fn write_note(
        &mut self,
        turn: Turn,
        id: u16,
        now: u64,
        random: u16,
        told: &Notification<'_>,
        emission: &mut Emission,
    ) -> NoteOutcome
        requires { IsOwned self.old turn.slot }
        ensures notes { NotesTo told.now turn id random self.old now (noted_as result emission.new) self.new }
        ensures kept { IsKeptUnlessSent result emission.old emission.new }
    {
        self.now = self.now.max(now);
        let place = usize::from(turn.slot / SHARDS);
        let serial = self.slots[place].serial();
        let watch = &mut self.watches[place];
        note(watch, self.now, serial, turn, id, random, told, emission)
    }

    /// Releases a lease, at a time in milliseconds.
    ///
    /// The lease's observer has a pending notification again at a later time. If the lease isn't
    /// active, only the clock advances.
    pub fn give_up(&mut self, turn: Turn, now: u64)
        requires { IsOwned self.old turn.slot }
        ensures { self.new ≡ after_given_up turn (at_time self.old now) }
    {
        self.now = self.now.max(now);
        self.watches[usize::from(turn.slot / SHARDS)].give_up(turn, self.now);
    }

    /// Passes an Acknowledgement or a Reset message to the observers of every slot.
    ///
    /// The message is a Reset if `reset` is `true`, and has the message ID `id`.
    pub fn signal(&mut self, endpoint: Endpoint, id: u16, reset: bool)
        ensures { self.new ≡ signalled (signal_call reset endpoint id) self.old }
    {
        signal_all(&mut self.watches, endpoint, id, reset);
    }

    /// Retransmits the first notification that has timed out, or removes its observer.
    ///
    /// Notifications are in the order of their slots, and then of their observers' registrations.
    /// The clock advances to `now`, in milliseconds. Returns which of the two happened, or `Quiet`
    /// if no notification has timed out.
    pub fn tick(&mut self, now: u64) -> Ticked
        ensures answer { result ≡ ticked_in (overdue_place (at_time self.old now)) (at_time self.old now) }
        ensures after { self.new ≡ shard_after_tick (overdue_place (at_time self.old now)) (at_time self.old now) }
    {
        self.now = self.now.max(now);
        match self.overdue_place(self.now) {
            None => Ticked::Quiet,
            Some(place) => self.watches[place].tick(self.now),
        }
    }

    // Returns the notify serial of the slot at a place: that of the last change that observers are
    // notified of.
    fn noticed_at(&self, place: usize) -> u64
        requires { place < 8 }
        ensures { result ≡ noticed_at self.entry.now place }
    {
        let state = &self.slots[place];
        state.noticed()
    }

    /// Advances the clock to `now`, in milliseconds, if the shard is idle then.
    ///
    /// A shard is idle if no notification has timed out and no observer has a pending one. Then
    /// `tick` and `next_due` would do nothing but advance the clock. Returns whether the clock was
    /// advanced; if not, nothing changes.
    pub fn advance_if_idle(&mut self, now: u64) -> bool
        ensures idle { result ≡ is_idle (at_time self.old now) }
        ensures after { self.new ≡ (if result then at_time self.old now else self.old) }
    {
        let now = self.now.max(now);
        let idle = self.check_idle(now);
        if idle {
            self.now = now;
        }
        idle
    }

    /// Returns whether the shard is idle at its present time.
    ///
    /// It is idle if no notification has timed out and no observer has a pending one. Nothing
    /// changes.
    pub fn is_idle(&mut self) -> bool
        ensures idle { result ≡ is_idle self.old }
        ensures after { self.new ≡ self.old }
    {
        self.check_idle(self.now)
    }

    /// Returns a time before which the shard stays idle, unless it is called.
    ///
    /// Before that time no notification has timed out, and no observer has a pending one. The time
    /// is in milliseconds, and needn't be the latest such time. 2^64 - 1 means that neither is
    /// expected.
    pub fn idle_until(&self) -> u64
        ensures { StaysIdleUntil result self.entry.now }
    {
        let mut until = u64::MAX;
        if self.watched {
            for place in 0..PLACES {
                until = until.min(self.idle_until_at(place));
            }
        }
        until
    }

    // Returns a time before which no notification at a place has timed out, and no observer there
    // has a pending one.
    fn idle_until_at(&self, place: usize) -> u64
        requires { place < 8 }
        ensures { AreIdleUntil result (noticed_at self.entry.now place) (watch_at self.entry.now place).held }
    {
        self.watches[place].idle_until(self.noticed_at(place))
    }

    // Returns whether the shard is idle at `now`. A shard without observers is idle.
    fn check_idle(&mut self, now: u64) -> bool
        ensures idle { result ≡ is_idle (record self.old { now = now }) }
        ensures after { self.new ≡ self.old }
    {
        if !self.watched {
            return true;
        }
        self.check_observers(now)
    }

    // Returns whether the observers of all places are idle at `now`. If they are, updates `watched`:
    // without observers, later calls needn't look at each place. The function isn't inlined, so that
    // a check of a shard without observers saves no registers.
    #[inline(never)]
    fn check_observers(&mut self, now: u64) -> bool
        ensures idle { result ≡ is_idle (record self.old { now = now }) }
        ensures after { self.new ≡ self.old }
    {
        for place in 0..PLACES {
            if !self.check_idle_at(now, place) {
                return false;
            }
        }
        self.watched = have_observers(&self.watches);
        true
    }

    // Returns whether the observers at `place` are idle at `now`, in milliseconds. They are idle if
    // no notification has timed out, and no observer has a pending one. The observers cache until
    // when they are idle, so `self` is mutable. No contract sees the cache.
    fn check_idle_at(&mut self, now: u64, place: usize) -> bool
        requires { place < 8 }
        ensures idle { result ≡ is_idle_at (record self.old { now = now }) place }
        ensures after { self.new ≡ self.old }
    {
        let notify_serial = self.noticed_at(place);
        let watch = &mut self.watches[place];
        watch.check_idle(now, notify_serial)
    }

    // Returns whether an observer at a place has a pending notification at a time.
    fn is_due_at(&self, now: u64, place: usize) -> bool
        requires { place < 8 }
        ensures { result ≡ has_due (record self.entry.now { now = now }) place }
    {
        self.watches[place].is_due(now, self.noticed_at(place))
    }

    // Returns whether a notification at a place has timed out at a time.
    fn is_overdue_at(&self, now: u64, place: usize) -> bool
        requires { place < 8 }
        ensures { result ≡ has_overdue (record self.entry.now { now = now }) place }
    {
        self.watches[place].is_overdue(now)
    }

    // Returns the first place with an observer that has a pending notification at `now`, or `None`
    // if there is none.
    fn due_place(&self, now: u64) -> Option<usize>
        ensures place { result ≡ due_place (record self.entry.now { now = now }) }
        ensures within { IfSome result (λ k. k < 8) }
    {
        (0..PLACES).find(|place| self.is_due_at(now, *place))
    }

    // Returns the first place with a notification that has timed out at `now`, or `None` if there
    // is none.
    fn overdue_place(&self, now: u64) -> Option<usize>
        ensures place { result ≡ overdue_place (record self.entry.now { now = now }) }
        ensures within { IfSome result (λ k. k < 8) }
    {
        (0..PLACES).find(|place| self.is_overdue_at(now, *place))
    }

    /// Returns how many observers each slot has, by its place in the shard.
    ///
    /// Slot n is at place n / 8.
    pub fn observer_counts(&self) -> [u8; PLACES]
        ensures { result ≡ observer_counts self.entry.now }
    {
        let watches = &self.watches;
        [
            count_at(watches, 0),
            count_at(watches, 1),
            count_at(watches, 2),
            count_at(watches, 3),
            count_at(watches, 4),
            count_at(watches, 5),
            count_at(watches, 6),
            count_at(watches, 7),
        ]
    }

    /// The ring of each slot is a chain, after any calls in any order.
    ///
    /// The entries of a ring are the last commits of the present program since its install, or
    /// since the slot was restored. Each entry begins with the variables that the one before it
    /// left. The last entry left the present variables. The call does nothing; its contract states
    /// this of every shard.
    pub fn rings_are_chains(&self)
        ensures { (n : ℕ) → IsOwned self.entry.now n → IsRecord (slot_in self.entry.now n) }
    {
        let _ = &self.index;
    }

    /// No observer of a slot was sent a serial above the slot's.
    ///
    /// This holds after any calls in any order. The serial last sent to an observer, by the
    /// response to its registration or by a notification, isn't that of a later state. The call
    /// does nothing; its contract states this of every shard.
    pub fn no_observer_is_ahead(&self)
        ensures { (n : ℕ) → IsOwned self.entry.now n → IsSentUpTo (slot_in self.entry.now n).serial (watch_at self.entry.now (n / 8)) }
    {
        let _ = &self.index;
    }
}

// Makes the empty lists of observers of the shard's slots. Returns an error if memory can't be
// allocated.
fn make_watches(alloc: Global, index: u8, confirm_after: u64) -> Result<Vec<Observers>, AllocError>
    requires { index < 8 }
    ensures { IfOk result (λ w. w.items ≡ new_watches index confirm_after 8) }
{
    let mut watches = Vec::with_capacity(alloc, usize::from(SHARDS))?;
    for place in 0..SHARDS {
        watches.push(Observers::new(alloc, 8 * place + index, confirm_after)?)?;
    }
    Ok(watches)
}

// Returns whether a slot has an observer. The contract says only that no slot has one if the result
// is `false`.
fn have_observers(watches: &[Observers]) -> bool
    ensures { AreWatched result watches.now }
{
    watches.iter().any(|watch| !watch.is_empty())
}

// Returns the number of observers of the slot at a place.
fn count_at(watches: &[Observers], place: usize) -> u8
    requires { place < length watches.now }
    ensures { result ≡ length (slice_index_or watches.now place (no_observers 0 0)).held }
{
    watches[place].len() as u8
}

// Passes a signal to the observers of each slot.
fn signal_all(watches: &mut [Observers], endpoint: Endpoint, id: u16, reset: bool)
    ensures { watches.new ≡ map (observers_after (signal_call reset endpoint id)) watches.old }
{
    for watch in watches.iter_mut() {
        signal_one(watch, endpoint, id, reset);
    }
}

// Passes a Reset message (`reset`) or an Acknowledgement to the observers of a slot.
fn signal_one(watch: &mut Observers, endpoint: Endpoint, id: u16, reset: bool)
    ensures { watch.new ≡ observers_after (signal_call reset endpoint id) watch.old }
{
    if reset {
        watch.reset(endpoint, id);
    } else {
        watch.acked(endpoint, id);
    }
}
