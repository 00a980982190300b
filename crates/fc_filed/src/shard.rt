//! A shard under its lock, together with the track of its calls.
ghost use Rattle.std.specs.Prelude.{◌≡◌, ◌⊎◌, ◌+◌, ◌%◌, ◌<◌, ◌≤◌, ◌++◌, ◌∷◌, [], ℕ, Bool, true, false, None, Option, Some, MatchOption};
ghost use Rattle.fc_store.specs.declared.store.SlotUpdate.{SlotUpdate};
ghost use Rattle.fc_registry.specs.Changes.{Change as SlotChange};
ghost use Rattle.fc_registry.specs.Plans.{IsPlanned, SavesImage};
ghost use Rattle.fc_registry.specs.Shards.{shard_at};
ghost use Rattle.fc_registry.specs.Slots.{IsOwned, Shard as Seen, slot_in};
ghost use Rattle.fc_registry.specs.Turns.{written_if};
ghost use Rattle.fc_registry.specs.Watches.{is_idle};
ghost use Rattle.fc_book.specs.Tracks.{part_view, with_part};
ghost use Rattle.fc_calls.specs.Doings.{PassesIfIdle};
ghost use Rattle.fc_calls.specs.Logged.{AdvancesIdle, GivesTurn};
ghost use Rattle.fc_calls.specs.Kept.{HasEightSlots, slots_with};
ghost use Rattle.fc_store.specs.Recovery.{Save};
ghost use Rattle.fc_store.specs.Saves.{SavesUpdate};
ghost use Rattle.fc_linear.specs.Operations.{FailsToSave, Logged, Operation, ShardPart, is_locked, part_of};
ghost use Rattle.fc_filed.specs.Entries.{EntriesLead, part_key};
ghost use Rattle.fc_filed.specs.Parts.{IsOperationOf, KeepsShard};
ghost use Rattle.fc_filed.specs.declared.shard.PlannedChange.TheVariants.{Refused, Saved, Unchanging};
ghost use Rattle.fc_filed.specs.Saves.{IsSavedAs, IsUpdateIn, InstallsImageOfJob, ShardSteps, refused_save, stored_save, update_of};
ghost use Rattle.fc_filed.specs.Threads.{HasJobFirst, HasOwnTrack, MayFile, begun_if, did_by, did_if, did_with, entry_by, entry_with};

use crate::book::{FiledTrack, ServerBook, ServerName, ServerTracks, file_as, file_saved_as};
use crate::store::{FiledStore, StoreOf};
use crate::view::FiledName;
use fc_book::Part;
use fc_calls::calls::{AdvanceIfIdle, NextDue};
use fc_calls::{Change, ShardCall};
use fc_registry::Shard;
use fc_store::Store;
use fc_ticket::Job;
use std::marker::{Brand, Model, PhantomData};

/// A call of a shard, and the operation that is filed for it.
pub trait FiledCall: ShardCall {
    // The call belongs to this shard.
    ghost is_of: { Self → Seen → Type 0 };

    // The call may be for a job.
    ghost of_job: { Bool };

    // The operation that is filed, by the shard's index, the answer and the contents of the
    // caller's buffer.
    ghost operation: { ℕ → Self → Self.Answer → Self.Room → Operation };

    // The operation is the call's effect on the shard.
    ghost right: { (call : Self) (before : Seen) (answer : Self.Answer) (room : Self.Room) (after : Seen) → is_of call before → Self.does call before answer room after
        → IsOperationOf of_job (operation before.index call answer room) before after };
}

/// A call of a shard that may change a slot, and the operation that is filed for it.
pub trait FiledChange: FiledCall + Change {
    // The call's slot is one of the shard that it belongs to.
    ghost of_slot: { (call : Self) (shard : Seen) → Self.is_of call shard → IsOwned shard (Self.slot call) };

    // If the operation is an install of its job's image, so is the call.
    ghost verified: { (index : ℕ) (call : Self) (answer : Self.Answer) (room : Self.Room) → InstallsImageOfJob (Self.operation index call answer room) → Self.is_verified call };
}

/// The name of an operation and of the update that is saved for it.
///
/// The operation is given by an answer and the contents of a buffer. Each call of
/// [`FiledShard::change`] chooses the name.
pub trait SavedName<A, B> {
    ghost operation: { A → B → Operation };

    ghost update: { SlotUpdate };
}

impl<A, B> SavedName<A, B> for Brand {
    ghost use Rattle.fc_filed.specs.Blank.{no_operation, no_update};

    ghost operation = { λ answer room. no_operation };

    ghost update = { no_update };
}

/// What came of the update of a call's change.
pub enum PlannedChange {
    /// The call changes no slot.
    Unchanging,
    /// The update is stored.
    Saved,
    /// The store refuses the update.
    Refused,
}

/// The name of an operation, by an answer and the contents of a buffer.
///
/// Each call of [`FiledShard::ask`] chooses it.
pub trait OperationName<A, B> {
    ghost operation: { A → B → Operation };
}

impl<A, B> OperationName<A, B> for Brand {
    ghost use Rattle.fc_filed.specs.Blank.{no_operation};

    ghost operation = { λ answer room. no_operation };
}

/// The shard of an index, 0 to 7, as a part: its key is one more than the index.
pub struct ShardOf<J: ServerName, const INDEX: u8> {
    of: PhantomData<J>,
}

impl<J: ServerName, const INDEX: u8> Part for ShardOf<J, INDEX> {
    ghost use Rattle.std.specs.Prelude.{◌+◌};

    ghost table = { J.table };

    ghost key = { INDEX + 1 };

    fn track_key() -> u64 {
        u64::from(INDEX) + 1
    }
}

/// A shard and the track of its calls.
///
/// The calls lead to it from the server's first shard of its index.
#[derive(Drop)]
pub struct FiledShard<J: ServerName, P: Part> {
    shard: Shard,
    track: FiledTrack<P>,
    of: PhantomData<J>,
}

impl<J: ServerName, P: Part> Model for FiledShard<J, P> {
    ghost use Rattle.fc_filed.specs.Parts.{ShardCalls};

    ghost Value = { ShardCalls };

    ghost view = { λ s. record { shard = s.shard; calls = s.track } };

    ghost use Rattle.fc_filed.specs.Parts.{AreCallsOf};

    ghost invariant = { λ s. AreCallsOf J.first J.persistent P.key s.track s.shard };
}

impl<J: ServerName, P: Part> FiledShard<J, P> {
    /// Makes a filed shard of the server's first shard of an index.
    ///
    /// Its track is empty.
    pub fn new(shard: Shard, track: FiledTrack<P>) -> FiledShard<J, P>
        requires index { shard.index < 8 }
        requires key { P.key ≡ shard.index + 1 }
        requires slots { HasEightSlots shard }
        requires shard { shard ≡ shard_at J.first.shards shard.index }
        requires track { track ≡ [] }
        ensures { result ≡ record { shard = shard; calls = [] } }
    {
        FiledShard {
            shard,
            track,
            of: PhantomData,
        }
    }

    /// Makes a call of the shard, and files it.
    ///
    /// The entry has the result, and the contents of `room` after the call. A call of a job is for
    /// the one whose track is first, and begins no track. If the server's store is persistent, the
    /// call must not change a slot.
    pub fn ask<C: FiledCall>(
        &mut self,
        book: &ServerBook<J>,
        tracks: &mut ServerTracks<J>,
        who: u64,
        call: C,
        room: &mut C::Room,
    ) -> C::Answer
        requires same { P.table ≡ J.table }
        requires is_of { C.is_of call self.old.shard }
        requires may { C.may_ask call self.old.shard }
        requires thread { HasOwnTrack J.first_job who tracks.old }
        requires job { C.of_job ≡ true → HasJobFirst J.first_job tracks.old }
        requires unsaved { J.persistent ≡ true → (answer : C.Answer) (room : C.Room) (after : Seen) → C.does call self.old.shard answer room after
            → (C.changes answer ≡ 0) ⊎ (after.slots ≡ self.old.shard.slots) }
        ensures does { C.does call self.old.shard result room.new self.new.shard }
        ensures kept { KeepsShard (C.changes result) self.old.shard self.new.shard }
        ensures filed { tracks.new ≡ did_by who (C.operation self.old.shard.index call result room.new) tracks.old }
    {
        ask_as::<C, J, P, Brand>(self, book, tracks, who, call, room)
    }

    /// Saves the change that a call makes, makes the call, and files both as one entry.
    ///
    /// If the call changes no slot, nothing is saved. If `store` refuses the update, the call isn't
    /// made, the refusal is filed, and the result is `None`. The caller holds the lock of the store
    /// too, which is persistent.
    pub fn change<C: FiledChange + Drop, K: Store>(
        &mut self,
        book: &ServerBook<J>,
        tracks: &mut ServerTracks<J>,
        who: u64,
        store: &mut FiledStore<J, K>,
        call: C,
        room: &mut C::Room,
    ) -> Option<C::Answer>
        requires same { P.table ≡ J.table }
        requires persistent { J.persistent ≡ true }
        requires is_of { C.is_of call self.old.shard }
        requires may { C.may_ask call self.old.shard }
        requires thread { HasOwnTrack J.first_job who tracks.old }
        requires job { HasJobFirst J.first_job tracks.old }
        ensures changed { let n = C.slot call in
            let slot = slot_in self.old.shard n in
            let update = update_of slot n (C.change call) (C.image call) in
            MatchOption result
            ((self.new.shard ≡ self.old.shard) × IsUpdateIn self.old.shard (C.change call) update × C.may_change call
            × SavesUpdate K.Store update false store.old.store store.new.store
            × (tracks.new ≡ did_with (Some (refused_save update)) who (FailsToSave update) tracks.old))
            (λ answer. C.does call self.old.shard answer room.new self.new.shard × KeepsShard (C.changes answer) self.old.shard self.new.shard
            × ((save : Option Save) × IsSavedAs K.Store slot n (C.change call) (C.is_verified call) update (C.made call answer) save store.old.store store.new.store
            × (tracks.new ≡ did_with save who (C.operation self.old.shard.index call answer room.new) tracks.old))) }
        ensures ready { K.is_ready store.old.store }
    {
        match save_planned(&self.shard, &mut store.store, &call) {
            PlannedChange::Unchanging => Some(self.ask(book, tracks, who, call, room)),
            PlannedChange::Saved => Some(make_as::<C, J, P, Brand>(
                &mut self.shard,
                &mut self.track,
                &mut store.track,
                book,
                tracks,
                who,
                call,
                room,
            )),
            PlannedChange::Refused => {
                refuse_as::<Brand, C, J, P>(
                    &self.shard,
                    &mut self.track,
                    &mut store.track,
                    book,
                    tracks,
                    who,
                    &call,
                );
                None
            }
        }
    }

    /// Returns the shard, for a call's plan.
    pub fn shard(&self) -> &Shard
        ensures { result.now ≡ self.now.shard }
    {
        &self.shard
    }

    /// Makes a call that leaves the shard unchanged, and files nothing.
    pub fn inspect<C: ShardCall>(&mut self, call: C, room: &mut C::Room) -> C::Answer
        requires may { C.may_ask call self.old.shard }
        requires unchanged { (before after : Seen) (answer : C.Answer) (room : C.Room) → C.does call before answer room after → after ≡ before }
        ensures does { C.does call self.old.shard result room.new self.old.shard }
        ensures unchanged { self.new ≡ self.old }
    {
        call.call(&mut self.shard, room)
    }

    /// Advances the shard to `now` ms if it is idle then, and files that.
    ///
    /// See [`Shard::advance_if_idle`]. Returns whether the shard was advanced; if not, nothing
    /// changes. An advance also notes in the book until when the shard is idle.
    pub fn advance_if_idle(
        &mut self,
        book: &ServerBook<J>,
        tracks: &mut ServerTracks<J>,
        who: u64,
        now: u64,
    ) -> bool
        requires same { P.table ≡ J.table }
        requires thread { HasOwnTrack J.first_job who tracks.old }
        ensures does { PassesIfIdle now self.old.shard result self.new.shard }
        ensures kept { KeepsShard 0 self.old.shard self.new.shard }
        ensures filed { tracks.new ≡ did_if result who (Logged (AdvancesIdle self.old.shard.index now)) tracks.old }
    {
        let idle = self.advance(book, tracks, who, now);
        if idle {
            self.note_idle(book);
        }
        idle
    }

    // Advances the shard to `now` ms if it is idle then, and files that. Returns whether it was
    // advanced; if not, nothing changes.
    fn advance(
        &mut self,
        book: &ServerBook<J>,
        tracks: &mut ServerTracks<J>,
        who: u64,
        now: u64,
    ) -> bool
        requires same { P.table ≡ J.table }
        requires thread { HasOwnTrack J.first_job who tracks.old }
        ensures does { PassesIfIdle now self.old.shard result self.new.shard }
        ensures kept { KeepsShard 0 self.old.shard self.new.shard }
        ensures filed { tracks.new ≡ did_if result who (Logged (AdvancesIdle self.old.shard.index now)) tracks.old }
    {
        let advanced = AdvanceIfIdle { now }.call(&mut self.shard, &mut ());
        if advanced {
            file_advance::<Brand, J, P>(book, tracks, &mut self.track, who, &self.shard, now);
        }
        advanced
    }

    /// Notes in the book until when the shard stays idle, if it is idle now.
    ///
    /// Until then the shard can be skipped while this lock is held, unless it is called. Nothing is
    /// filed, and nothing changes.
    pub fn note_if_idle(&mut self, book: &ServerBook<J>)
        requires same { P.table ≡ J.table }
        ensures { self.new ≡ self.old }
    {
        if self.shard.is_idle() {
            self.note_idle(book);
        }
    }

    // Notes in the book until when the shard, which is idle, stays idle.
    fn note_idle(&mut self, book: &ServerBook<J>)
        requires same { P.table ≡ J.table }
        requires idle { is_idle self.old.shard ≡ true }
        ensures { self.new ≡ self.old }
    {
        let until = self.shard.idle_until();
        let index = P::track_key() - 1;
        self.track.note_idle(book, index as usize, until);
    }

    /// Leases the first pending notification at `now` ms, and files that.
    ///
    /// See [`Shard::write_due`]. Returns whether a lease was granted. Its job is then written to
    /// `job`, and begins a track. The call is filed in both cases, on the track of the thread with
    /// the key `who`.
    pub fn next_due(
        &mut self,
        book: &ServerBook<J>,
        tracks: &mut ServerTracks<J>,
        who: u64,
        now: u64,
        job: &mut Job,
    ) -> bool
        requires same { P.table ≡ J.table }
        requires thread { HasOwnTrack J.first_job who tracks.old }
        requires may_begin { tracks.old.may_begin ≡ true }
        requires next { J.first_job ≤ tracks.old.next }
        ensures filed { let operation = Logged (GivesTurn self.old.shard.index now (written_if result job.new)) in
            tracks.new ≡ did_by who operation (begun_if result tracks.old) }
    {
        let is_due = NextDue { now }.call(&mut self.shard, job);
        begin_if(book, tracks, is_due);
        file_due::<Brand, J, P>(
            book,
            tracks,
            &mut self.track,
            who,
            &self.shard,
            now,
            is_due,
            job,
        );
        is_due
    }

    /// Moves the shard's track to `tracks`, and returns the shard.
    pub fn close(self, book: &ServerBook<J>, tracks: &mut ServerTracks<J>) -> Shard
        requires { P.table ≡ J.table }
        ensures shard { result ≡ self.shard }
        ensures led { EntriesLead (ShardSteps J.persistent) self.calls (shard_at J.first.shards result.index) result }
        ensures closed { tracks.new ≡ with_part tracks.old (part_view P.key self.calls) }
    {
        let FiledShard {
            shard,
            track,
            of: _,
        } = self;
        tracks.close(book, track);
        shard
    }
}

/// Makes a call of the shard, with the operation named by `X`.
///
/// See [`FiledShard::ask`].
fn ask_as<C: FiledCall, J: ServerName, P: Part, X: OperationName<C::Answer, C::Room>>(
    this: &mut FiledShard<J, P>,
    book: &ServerBook<J>,
    tracks: &mut ServerTracks<J>,
    who: u64,
    call: C,
    room: &mut C::Room,
) -> C::Answer
    requires named { (answer : C.Answer) (room : C.Room) → X.operation answer room ≡ C.operation this.old.shard.index call answer room }
    requires same { P.table ≡ J.table }
    requires is_of { C.is_of call this.old.shard }
    requires may { C.may_ask call this.old.shard }
    requires thread { HasOwnTrack J.first_job who tracks.old }
    requires job { C.of_job ≡ true → HasJobFirst J.first_job tracks.old }
    requires unsaved { J.persistent ≡ true → (answer : C.Answer) (room : C.Room) (after : Seen) → C.does call this.old.shard answer room after
        → (C.changes answer ≡ 0) ⊎ (after.slots ≡ this.old.shard.slots) }
    ensures does { C.does call this.old.shard result room.new this.new.shard }
    ensures kept { KeepsShard (C.changes result) this.old.shard this.new.shard }
    ensures filed { tracks.new ≡ did_by who (C.operation this.old.shard.index call result room.new) tracks.old }
{
    let answer = call.call(&mut this.shard, room);
    file_answer::<Brand, J, P, C::Answer, C::Room, X>(
        book,
        tracks,
        &mut this.track,
        who,
        &answer,
        room,
    );
    answer
}

/// Files a call with its answer and its buffer, with the entry named by `Y`.
///
/// See [`FiledShard::ask`]. Only the clauses use the answer and the buffer.
fn file_answer<Y: FiledName, J: ServerName, P: Part, A, B, X: OperationName<A, B>>(
    book: &ServerBook<J>,
    tracks: &mut ServerTracks<J>,
    track: &mut FiledTrack<P>,
    who: u64,
    answer: &A,
    room: &B,
)
    requires entry { Y.entry ≡ entry_by who tracks.old (X.operation answer.now room.now) }
    requires same { P.table ≡ J.table }
    requires part { part_key who (part_of (X.operation answer.now room.now)) ≡ P.key }
    requires locked { is_locked (part_of (X.operation answer.now room.now)) ≡ true }
    requires may { MayFile J.first_job who tracks.old (X.operation answer.now room.now) }
    ensures track { track.new ≡ track.old ++ Y.entry ∷ [] }
    ensures filed { tracks.new ≡ did_by who Y.entry.operation tracks.old }
{
    let _ = answer;
    let _ = room;
    file_as::<Y, J, P>(book, tracks, track, who);
}

/// Saves the update of the change that a call makes in a shard.
///
/// Returns `Saved` if the update is stored, and `Refused` if the store refuses it. Returns
/// `Unchanging`, and saves nothing, if the call changes no slot. The call itself isn't made here.
fn save_planned<C: Change, K: Store>(shard: &Shard, store: &mut K, call: &C) -> PlannedChange
    requires may { C.may_ask call.now shard.now }
    ensures unchanging { result ≡ Unchanging → (store.new ≡ store.old)
        × ((answer : C.Answer) (room : C.Room) (after : Seen) → C.does call.entry.now shard.entry.now answer room after
        → (C.made call.entry.now answer ≡ []) × (after.slots ≡ shard.entry.now.slots)) }
    ensures planned { (result ≡ Unchanging → ⊥) → let n = C.slot call.entry.now in let slot = slot_in shard.entry.now n in
        IsPlanned slot n (C.change call.entry.now) (update_of slot n (C.change call.entry.now) (C.image call.entry.now)) }
    ensures saved { result ≡ Saved → let n = C.slot call.entry.now in let slot = slot_in shard.entry.now n in
        let update = update_of slot n (C.change call.entry.now) (C.image call.entry.now) in
        SavesUpdate K.Store update true store.old store.new × (C.is_verified call.entry.now → SavesImage (C.change call.entry.now) update.program)
        × ((answer : C.Answer) (room : C.Room) (after : Seen) → C.does call.entry.now shard.entry.now answer room after
        → (C.made call.entry.now answer ≡ C.change call.entry.now ∷ []) × (after.slots ≡ slots_with shard.entry.now n (C.change call.entry.now ∷ []))) }
    ensures refused { result ≡ Refused → let n = C.slot call.entry.now in let slot = slot_in shard.entry.now n in
        C.may_change call.entry.now × SavesUpdate K.Store (update_of slot n (C.change call.entry.now) (C.image call.entry.now)) false store.old store.new }
{
    match call.plan(shard) {
        None => PlannedChange::Unchanging,
        Some(update) if store.save(&update) => PlannedChange::Saved,
        Some(_) => PlannedChange::Refused,
    }
}

/// Makes a call of a shard whose update is stored, and files both as one entry.
///
/// `X` names the operation and the update. See [`FiledShard::change`].
fn make_as<C: FiledChange, J: ServerName, P: Part, X: SavedName<C::Answer, C::Room>>(
    shard: &mut Shard,
    track: &mut FiledTrack<P>,
    saves: &mut FiledTrack<StoreOf<J>>,
    book: &ServerBook<J>,
    tracks: &mut ServerTracks<J>,
    who: u64,
    call: C,
    room: &mut C::Room,
) -> C::Answer
    requires named { (answer : C.Answer) (room : C.Room) → X.operation answer room ≡ C.operation shard.old.index call answer room }
    requires same { P.table ≡ J.table }
    requires index { (shard.old.index < 8) × (P.key ≡ shard.old.index + 1) }
    requires eight { HasEightSlots shard.old }
    requires is_of { C.is_of call shard.old }
    requires may { C.may_ask call shard.old }
    requires slot { IsOwned shard.old X.update.slot }
    requires thread { HasOwnTrack J.first_job who tracks.old }
    requires job { HasJobFirst J.first_job tracks.old }
    ensures does { C.does call shard.old result room.new shard.new }
    ensures kept { KeepsShard (C.changes result) shard.old shard.new }
    ensures eight { HasEightSlots shard.new }
    ensures track { track.new ≡ track.old ++ entry_with (Some (stored_save X.update)) who tracks.old (C.operation shard.old.index call result room.new) ∷ [] }
    ensures saves { saves.new ≡ saves.old ++ entry_with (Some (stored_save X.update)) who tracks.old (C.operation shard.old.index call result room.new) ∷ [] }
    ensures filed { tracks.new ≡ did_with (Some (stored_save X.update)) who (C.operation shard.old.index call result room.new) tracks.old }
{
    let answer = call.call(shard, room);
    file_saved::<Brand, J, P, C::Answer, C::Room, X>(
        book, tracks, track, saves, who, &answer, room,
    );
    answer
}

/// Files a call with its answer, its buffer and its stored update, with the entry named by `Y`.
///
/// See [`FiledShard::change`]. Only the clauses use the answer and the buffer.
fn file_saved<Y: FiledName, J: ServerName, P: Part, A, B, X: SavedName<A, B>>(
    book: &ServerBook<J>,
    tracks: &mut ServerTracks<J>,
    track: &mut FiledTrack<P>,
    saves: &mut FiledTrack<StoreOf<J>>,
    who: u64,
    answer: &A,
    room: &B,
)
    requires entry { Y.entry ≡ entry_with (Some (stored_save X.update)) who tracks.old (X.operation answer.now room.now) }
    requires same { P.table ≡ J.table }
    requires part { (part_key who (part_of (X.operation answer.now room.now)) ≡ P.key) × (0 < P.key) × (P.key < 9) }
    requires locked { is_locked (part_of (X.operation answer.now room.now)) ≡ true }
    requires of_slot { part_of (X.operation answer.now room.now) ≡ ShardPart (X.update.slot % 8) }
    requires may { MayFile J.first_job who tracks.old (X.operation answer.now room.now) }
    ensures track { track.new ≡ track.old ++ Y.entry ∷ [] }
    ensures saves { saves.new ≡ saves.old ++ Y.entry ∷ [] }
    ensures filed { tracks.new ≡ did_with Y.entry.save who Y.entry.operation tracks.old }
{
    let _ = answer;
    let _ = room;
    file_saved_as::<Y, J, P>(book, tracks, track, saves, who);
}

/// Files that the store refuses the update of a call's change, with the entry named by `X`.
///
/// See [`FiledShard::change`]. Only the clauses use the shard and the call.
fn refuse_as<X: FiledName, C: Change, J: ServerName, P: Part>(
    shard: &Shard,
    track: &mut FiledTrack<P>,
    saves: &mut FiledTrack<StoreOf<J>>,
    book: &ServerBook<J>,
    tracks: &mut ServerTracks<J>,
    who: u64,
    call: &C,
)
    requires entry { let n = C.slot call.now in let update = update_of (slot_in shard.now n) n (C.change call.now) (C.image call.now) in
        X.entry ≡ entry_with (Some (refused_save update)) who tracks.old (FailsToSave update) }
    requires same { P.table ≡ J.table }
    requires owned { IsOwned shard.now (C.slot call.now) × (P.key ≡ shard.now.index + 1) × (shard.now.index < 8) }
    requires thread { HasOwnTrack J.first_job who tracks.old }
    requires job { HasJobFirst J.first_job tracks.old }
    ensures track { track.new ≡ track.old ++ X.entry ∷ [] }
    ensures saves { saves.new ≡ saves.old ++ X.entry ∷ [] }
    ensures filed { tracks.new ≡ did_with X.entry.save who X.entry.operation tracks.old }
{
    let _ = shard;
    let _ = call;
    file_saved_as::<X, J, P>(book, tracks, track, saves, who);
}

/// Files the advance of an idle shard, with the entry named by `X`.
///
/// See [`FiledShard::advance_if_idle`]. Only the clauses use the shard and the time.
fn file_advance<X: FiledName, J: ServerName, P: Part>(
    book: &ServerBook<J>,
    tracks: &mut ServerTracks<J>,
    track: &mut FiledTrack<P>,
    who: u64,
    shard: &Shard,
    now: u64,
)
    requires entry { X.entry ≡ entry_by who tracks.old (Logged (AdvancesIdle shard.now.index now)) }
    requires same { P.table ≡ J.table }
    requires part { shard.now.index + 1 ≡ P.key }
    requires may { MayFile J.first_job who tracks.old (Logged (AdvancesIdle shard.now.index now)) }
    ensures track { track.new ≡ track.old ++ X.entry ∷ [] }
    ensures filed { tracks.new ≡ did_by who X.entry.operation tracks.old }
{
    let _ = shard;
    let _ = now;
    file_as::<X, J, P>(book, tracks, track, who);
}

/// Begins the track of an observer's job if `is_due`: if a lease was granted.
fn begin_if<J: ServerName>(book: &ServerBook<J>, tracks: &mut ServerTracks<J>, is_due: bool)
    requires { tracks.old.may_begin ≡ true }
    ensures { tracks.new ≡ begun_if is_due tracks.old }
{
    if is_due {
        tracks.begin(book);
    }
}

/// Files the result of a request for a lease, with the entry named by `X`.
///
/// See [`FiledShard::next_due`]. Only the clauses use the shard, the time and the job.
fn file_due<X: FiledName, J: ServerName, P: Part>(
    book: &ServerBook<J>,
    tracks: &mut ServerTracks<J>,
    track: &mut FiledTrack<P>,
    who: u64,
    shard: &Shard,
    now: u64,
    is_due: bool,
    job: &Job,
)
    requires entry { X.entry ≡ entry_by who tracks.old (Logged (GivesTurn shard.now.index now (written_if is_due job.now))) }
    requires same { P.table ≡ J.table }
    requires part { shard.now.index + 1 ≡ P.key }
    requires may { MayFile J.first_job who tracks.old (Logged (GivesTurn shard.now.index now (written_if is_due job.now))) }
    ensures track { track.new ≡ track.old ++ X.entry ∷ [] }
    ensures filed { tracks.new ≡ did_by who X.entry.operation tracks.old }
{
    let _ = shard;
    let _ = now;
    let _ = is_due;
    let _ = job;
    file_as::<X, J, P>(book, tracks, track, who);
}
