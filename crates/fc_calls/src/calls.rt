//! Calls of a shard.
//!
//! The contract of a call mentions only the shard that is passed to the call. A server with locks
//! (`fc_locked`) makes these calls under the shard's lock, and `fc_filed` files them.
ghost use Rattle.std.specs.Prelude.{◌≡◌, ℕ, ◌+◌, ◌<◌, ⊤, if◌then◌else◌, List, [], ◌∷◌, true, is_some, IfSome};
ghost use Rattle.fc_verify.specs.Accepted.{Accepts};
ghost use Rattle.fc_verify.specs.Judged.{judged};
ghost use Rattle.fc_registry.specs.Calls.{commit_of, wants};
ghost use Rattle.fc_ticket.specs.Runs.{initial_vars_of};
ghost use Rattle.fc_registry.specs.Changes.{Change as SlotChange, Committed as Commits, Installed, Removed};
ghost use Rattle.fc_ticket.specs.Notes.{noted_as};
ghost use Rattle.fc_registry.specs.Plans.{IsPlanned, SavesImage};
ghost use Rattle.fc_registry.specs.Slots.{IsOwned, Shard as Seen, slot_in};
ghost use Rattle.fc_registry.specs.Turns.{written_if};
ghost use Rattle.fc_core.specs.Stages.{image_of};
ghost use Rattle.fc_core.specs.Steps.{changes_of_call, Commits as CommitCall, Installs as InstallCall, Removes as RemoveCall};
ghost use Rattle.fc_calls.specs.Doings.{CommitsAt, DescribesTo, GivesTurnAt, GivesUpAt, HandsOn, InstallsTo, NotesAt, PassesIfIdle};
ghost use Rattle.fc_calls.specs.Doings.{RemovesFrom, TakesInto, FindsCost, TellsIdleUntil, TellsObservers, TicksAt};
ghost use Rattle.fc_calls.specs.Kept.{HasEightSlots, HasOwnImage, commit_changes, confirm_times, install_changes, removal_changes, serials, slots_with};

use coap_msg::{Emission, Endpoint};
use fc_core::task::image;
use fc_help::Readings;
use fc_machine::Outcome;
use fc_observe::{Ticked, Turn};
use fc_registry::{
    Committed, Made, PLACES, Removal, Shard, Taken, plan_commit, plan_install, plan_removal,
};
use fc_store::SlotUpdate;
use fc_ticket::{Job, NoteOutcome, Notification, Receipt, SlotNumber, SlotSnapshot, Ticket};
use fc_verify::Verified;
use std::sync::Arc;

/// A call of a shard, with its arguments.
///
/// A call changes neither the shard's index, nor the time after which the shard's notifications are
/// confirmable again. The result reports by how much the sum of the serials of the shard's slots
/// increased; a tally counts this number. If it is 0, no slot changed. A large result is written in
/// place, into the caller's room.
pub trait ShardCall {
    /// The shard's result.
    type Answer;

    /// The caller's room that the call writes into; `()` if it writes nothing.
    type Room;

    // The shards that may be called.
    ghost may_ask: { Self → Seen → Type 0 } = { λ call shard. ⊤ };

    // The effect: the shard before, the result, the room afterwards, and the shard afterwards.
    ghost does: { Self → Seen → Self.Answer → Self.Room → Seen → Type 0 };

    // The number of changes of a slot that a result reports.
    ghost changes: { Self.Answer → ℕ } = { λ answer. 0 };

    /// Calls `shard`, and writes a large result over `room`.
    fn call(self, shard: &mut Shard, room: &mut Self::Room) -> Self::Answer
        requires eight { HasEightSlots shard.old }
        requires may { may_ask self shard.old }
        ensures does { does self shard.old result room.new shard.new }
        ensures index { shard.new.index ≡ shard.old.index }
        ensures confirms { confirm_times shard.new ≡ confirm_times shard.old }
        ensures kept { changes result ≡ 0 → shard.new.slots ≡ shard.old.slots }
        ensures eight { HasEightSlots shard.new }
        ensures risen { serials shard.new ≡ serials shard.old + changes result };
}

/// A call of a shard that may change a slot.
///
/// A server with a store saves the update of the change before it makes the call.
pub trait Change: ShardCall {
    // The slot that the call may change.
    ghost slot: { Self → ℕ };

    // The change that the call may make.
    ghost change: { Self → SlotChange };

    // The changes that a result reports.
    ghost made: { Self → Self.Answer → List SlotChange };

    // The call may change its slot, as far as the call's arguments determine this.
    ghost may_change: { Self → Type 0 } = { λ call. ⊤ };

    // An installed program is that of the job's image.
    ghost is_verified: { Self → Type 0 } = { λ call. ⊤ };

    // The image that the update of an install has.
    ghost image: { Self → List ℕ } = { λ call. [] };

    /// Returns whether a result reports a change of a slot, which a tally counts.
    fn has_changed(answer: &Self::Answer) -> bool
        ensures { Self.changes answer.now ≡ (if result then 1 else 0) };

    /// Returns the update of the change that the call makes in `shard`.
    ///
    /// Returns `None` if the call changes no slot there. The shard isn't changed. The update of an
    /// install has an image of the program, if the program is that of the job's image. The call
    /// then makes just the changes that its result reports.
    fn plan<'p>(&'p self, shard: &'p Shard) -> Option<SlotUpdate<'p>>
        requires may { Self.may_ask self.now shard.now }
        ensures made { (answer : Self.Answer) (room : Self.Room) (after : Seen) → Self.does self.entry.now shard.entry.now answer room after
            → made self.entry.now answer ≡ (if is_some result then change self.entry.now ∷ [] else []) }
        ensures slots { (answer : Self.Answer) (room : Self.Room) (after : Seen) → Self.does self.entry.now shard.entry.now answer room after
            → after.slots ≡ slots_with shard.entry.now (slot self.entry.now) (made self.entry.now answer) }
        ensures planned { IfSome result (IsPlanned (slot_in shard.entry.now (slot self.entry.now)) (slot self.entry.now) (change self.entry.now)) }
        ensures slot { IfSome result (λ u. u.slot < 64) }
        ensures image { is_verified self.entry.now → IfSome result (λ u. SavesImage (change self.entry.now) u.program) }
        ensures own_image { IfSome result (λ u. HasOwnImage (image self.entry.now) u.program) }
        ensures may_change { IfSome result (λ _. may_change self.entry.now) };
}

/// Takes a snapshot of a job's slot, with these readings.
///
/// See [`Shard::take_into`].
#[derive(Drop)]
pub struct Take<'a> {
    pub job: &'a Job,
    pub readings: &'a Readings,
}

impl<'a> ShardCall for Take<'a> {
    type Answer = Taken;

    type Room = SlotSnapshot;

    ghost may_ask = { λ call shard. IsOwned shard call.job.now.origin.slot };

    ghost does = { λ call before answer room after. TakesInto call.job.now call.readings.now before answer room after };

    fn call(self, shard: &mut Shard, room: &mut SlotSnapshot) -> Taken {
        shard.take_into(self.job, self.readings, room)
    }
}

/// Commits a run, at a time in milliseconds. See [`Shard::commit`].
#[derive(Drop)]
pub struct Commit<'a> {
    pub now: u64,
    pub outcome: &'a Outcome<'a>,
    pub ticket: &'a Ticket<'a>,
}

impl<'a> ShardCall for Commit<'a> {
    type Answer = Committed;

    type Room = ();

    ghost may_ask = { λ call shard. IsOwned shard call.ticket.now.origin.slot };

    ghost does = { λ call before answer room after. CommitsAt call.now call.outcome.now call.ticket.now before answer after };

    ghost changes = { commit_changes };

    fn call(self, shard: &mut Shard, _: &mut ()) -> Committed {
        shard.commit(self.now, self.outcome, self.ticket)
    }
}

impl<'a> Change for Commit<'a> {
    ghost slot = { λ call. call.ticket.now.origin.slot };

    ghost change = { λ call. Commits (commit_of call.ticket.now) };

    ghost made = { λ call answer. changes_of_call (CommitCall 0 call.ticket.now answer) };

    ghost may_change = { λ call. wants call.ticket.now ≡ true };

    fn has_changed(answer: &Committed) -> bool
        ensures { commit_changes answer.now ≡ (if result then 1 else 0) }
    {
        match answer {
            Committed::Done(mark) => mark.changed(),
            Committed::Overtaken | Committed::Ended | Committed::Stranger => false,
        }
    }

    fn plan<'p>(&'p self, shard: &'p Shard) -> Option<SlotUpdate<'p>> {
        plan_commit(shard, self.outcome, self.ticket)
    }
}

/// Installs a program in the slot of a job. See [`Shard::install`].
#[derive(Drop)]
pub struct Install<'a> {
    pub job: &'a Job,
    pub program: Arc<Verified>,
}

impl<'a> ShardCall for Install<'a> {
    type Answer = Made;

    type Room = ();

    ghost may_ask = { λ call shard. IsOwned shard call.job.now.origin.slot };

    ghost does = { λ call before answer room after. InstallsTo call.job.now call.program.value before answer after };

    ghost changes = { install_changes };

    fn call(self, shard: &mut Shard, _: &mut ()) -> Made {
        let Install { job, program } = self;
        shard.install(job.origin.slot, program, job.ask.initial_vars())
    }
}

impl<'a> Change for Install<'a> {
    ghost slot = { λ call. call.job.now.origin.slot };

    ghost change = { λ call. Installed call.program.value (initial_vars_of call.job.now.ask) };

    ghost made = { λ call answer. changes_of_call (InstallCall call.program.value (initial_vars_of call.job.now.ask) answer) };

    ghost is_verified = { λ call. judged (image_of call.job.now.ask) ≡ Accepts call.program.value };

    ghost image = { λ call. image_of call.job.now.ask };

    fn has_changed(answer: &Made) -> bool
        ensures { install_changes answer.now ≡ (if result then 1 else 0) }
    {
        matches!(answer, Made::Raised { .. })
    }

    fn plan<'p>(&'p self, shard: &'p Shard) -> Option<SlotUpdate<'p>> {
        let ask = &self.job.ask;
        let slot = self.job.origin.slot;
        plan_install(shard, slot, image(ask), &self.program, ask.initial_vars())
    }
}

/// Removes the program in the slot of a job. See [`Shard::remove`].
#[derive(Drop)]
pub struct Remove<'a> {
    pub job: &'a Job,
}

impl<'a> ShardCall for Remove<'a> {
    type Answer = Removal;

    type Room = ();

    ghost may_ask = { λ call shard. IsOwned shard call.job.now.origin.slot };

    ghost does = { λ call before answer room after. RemovesFrom call.job.now before answer after };

    ghost changes = { removal_changes };

    fn call(self, shard: &mut Shard, _: &mut ()) -> Removal {
        shard.remove(self.job.origin.slot)
    }
}

impl<'a> Change for Remove<'a> {
    ghost slot = { λ call. call.job.now.origin.slot };

    ghost change = { λ call. Removed };

    ghost made = { λ call answer. changes_of_call (RemoveCall answer) };

    fn has_changed(answer: &Removal) -> bool
        ensures { removal_changes answer.now ≡ (if result then 1 else 0) }
    {
        matches!(answer, Removal::Removed { .. })
    }

    fn plan<'p>(&'p self, shard: &'p Shard) -> Option<SlotUpdate<'p>> {
        plan_removal(shard, self.job.origin.slot)
    }
}

/// Returns the receipt of the program in a job's slot. See [`Shard::receipt`].
#[derive(Drop)]
pub struct Describe<'a> {
    pub job: &'a Job,
}

impl<'a> ShardCall for Describe<'a> {
    type Answer = Option<Receipt>;

    type Room = ();

    ghost may_ask = { λ call shard. IsOwned shard call.job.now.origin.slot };

    ghost does = { λ call before answer room after. DescribesTo call.job.now before answer after };

    fn call(self, shard: &mut Shard, _: &mut ()) -> Option<Receipt> {
        shard.receipt(self.job.origin.slot)
    }
}

/// Returns the cost of the program in a slot, in steps, or `None` if the slot is empty.
///
/// See [`Shard::receipt`].
#[derive(Drop)]
pub struct ReadCost {
    pub slot: SlotNumber,
}

impl ShardCall for ReadCost {
    type Answer = Option<u32>;

    type Room = ();

    ghost may_ask = { λ call shard. IsOwned shard call.slot };

    ghost does = { λ call before answer room after. FindsCost call.slot before answer after };

    fn call(self, shard: &mut Shard, _: &mut ()) -> Option<u32> {
        let receipt = shard.receipt(self.slot)?;
        Some(receipt.cost)
    }
}

/// Passes a signal to the observers of every slot. See [`Shard::signal`].
#[derive(Drop)]
pub struct Signal {
    pub endpoint: Endpoint,
    pub id: u16,
    pub reset: bool,
}

impl ShardCall for Signal {
    type Answer = ();

    type Room = ();

    ghost does = { λ call before answer room after. HandsOn call.reset call.endpoint call.id before after };

    #[tactic(auto, unfolding(crate::specs::Doings::HandsOn))]
    fn call(self, shard: &mut Shard, _: &mut ()) {
        shard.signal(self.endpoint, self.id, self.reset);
    }
}

/// Retransmits the first notification that has timed out, or removes its observer.
///
/// `now` is in milliseconds. See [`Shard::tick`].
#[derive(Drop)]
pub struct Tick {
    pub now: u64,
}

impl ShardCall for Tick {
    type Answer = Ticked;

    type Room = ();

    ghost does = { λ call before answer room after. TicksAt call.now before answer after };

    fn call(self, shard: &mut Shard, _: &mut ()) -> Ticked {
        shard.tick(self.now)
    }
}

/// Advances an idle shard to a time in milliseconds.
///
/// A shard is idle if no notification has timed out and no observer has a pending one. See
/// [`Shard::advance_if_idle`].
#[derive(Drop)]
pub struct AdvanceIfIdle {
    pub now: u64,
}

impl ShardCall for AdvanceIfIdle {
    type Answer = bool;

    type Room = ();

    ghost does = { λ call before answer room after. PassesIfIdle call.now before answer after };

    fn call(self, shard: &mut Shard, _: &mut ()) -> bool {
        shard.advance_if_idle(self.now)
    }
}

/// Returns a time before which the shard stays idle. See [`Shard::idle_until`].
#[derive(Drop)]
pub struct IdleUntil;

impl ShardCall for IdleUntil {
    type Answer = u64;

    type Room = ();

    ghost does = { λ call before answer room after. TellsIdleUntil before answer after };

    fn call(self, shard: &mut Shard, _: &mut ()) -> u64 {
        shard.idle_until()
    }
}

/// Returns how many observers each slot has, by place. See [`Shard::observer_counts`].
#[derive(Drop)]
pub struct CountObservers;

impl ShardCall for CountObservers {
    type Answer = [u8; PLACES];

    type Room = ();

    ghost does = { λ call before answer room after. TellsObservers before answer after };

    fn call(self, shard: &mut Shard, _: &mut ()) -> [u8; PLACES] {
        shard.observer_counts()
    }
}

/// Grants a lease to the first observer with a pending notification.
///
/// `now` is in milliseconds. See [`Shard::write_due`].
#[derive(Drop)]
pub struct NextDue {
    pub now: u64,
}

impl ShardCall for NextDue {
    type Answer = bool;

    type Room = Job;

    ghost does = { λ call before answer room after. GivesTurnAt call.now before (written_if answer room) after };

    fn call(self, shard: &mut Shard, room: &mut Job) -> bool {
        shard.write_due(self.now, room)
    }
}

/// Notifies the observer of a lease, at a time in milliseconds.
///
/// See [`Shard::write_note`].
#[derive(Drop)]
pub struct Note<'a> {
    pub turn: Turn,
    pub id: u16,
    pub now: u64,
    pub random: u16,
    pub told: &'a Notification<'a>,
}

impl<'a> ShardCall for Note<'a> {
    type Answer = NoteOutcome;

    type Room = Emission;

    ghost may_ask = { λ call shard. IsOwned shard call.turn.slot };

    ghost does = { λ call before answer room after. NotesAt call.turn call.id call.now call.random call.told.now before (noted_as answer room) after };

    fn call(self, shard: &mut Shard, room: &mut Emission) -> NoteOutcome {
        let Note {
            turn,
            id,
            now,
            random,
            told,
        } = self;
        shard.write_note(turn, id, now, random, told, room)
    }
}

/// Releases a lease, at a time in milliseconds. See [`Shard::give_up`].
#[derive(Drop)]
pub struct GiveUp {
    pub turn: Turn,
    pub now: u64,
}

impl ShardCall for GiveUp {
    type Answer = ();

    type Room = ();

    ghost may_ask = { λ call shard. IsOwned shard call.turn.slot };

    ghost does = { λ call before answer room after. GivesUpAt call.now call.turn before after };

    #[tactic(auto, unfolding(crate::specs::Doings::GivesUpAt))]
    fn call(self, shard: &mut Shard, _: &mut ()) {
        shard.give_up(self.turn, self.now);
    }
}
