//! Filed shards whose changes are counted.
//!
//! A server with locks has one under each shard's lock.
ghost use Rattle.std.specs.Prelude.{◌≡◌, ℕ, ◌+◌, ◌<◌, [], ◌∷◌, true, false, None, IfSome, MatchOption, replicate};
ghost use Rattle.fc_registry.specs.Shards.{shard_at};
ghost use Rattle.fc_registry.specs.Slots.{Shard as Called, slot_in};
ghost use Rattle.fc_server.specs.States.{confirm_after_of};
ghost use Rattle.fc_calls.specs.Kept.{HasEightSlots, confirm_times, serials};
ghost use Rattle.fc_calls.specs.Doings.{PassesIfIdle};
ghost use Rattle.fc_calls.specs.Logged.{AdvancesIdle};
ghost use Rattle.fc_linear.specs.Operations.{Logged};
ghost use Rattle.fc_filed.specs.Entries.{EntriesLead};
ghost use Rattle.fc_filed.specs.Parts.{KeepsShard};
ghost use Rattle.fc_filed.specs.Saves.{ShardSteps};
ghost use Rattle.fc_filed.specs.Tracked.{IsPartClosed};
ghost use Rattle.fc_backend.specs.Answers.{changes_if};
ghost use Rattle.fc_locked.specs.Counts.{counts};
ghost use Rattle.fc_backend.specs.Logs.{FilesMaybeSaved, FilesRefusal, with_filed, with_filed_if};
ghost use Rattle.fc_locked.specs.SharedStores.{HasSaved, LeavesUnsaved, WithSave};

use crate::books::{Books, ServerOf};
use crate::shared_store::SharedStore;
use crate::tally::Tally;
use fc_backend::TrackLog;
use fc_book::Part;
use fc_calls::{Change, ShardCall};
use fc_filed::{FiledCall, FiledChange, FiledShard, FiledTrack, ServerBook, ServerTracks};
use fc_registry::Shard;
use fc_store::Store;
use std::marker::Model;
use std::sync::Wait;
use std::sync::ledger::{Blank, Book, Ledger};

/// A filed shard, and the ledger of its changes.
///
/// The sum of its serials has risen by the ledger's total since the server began. The server's
/// first state determines when its notifications are confirmable. A clause sees the shard.
#[derive(Drop)]
pub(crate) struct Counted<B: Books, P: Part, L: Ledger> {
    filed: FiledShard<ServerOf<B>, P>,
    ledger: Book<L>,
}

impl<B: Books, P: Part, L: Ledger> Model for Counted<B, P, L> {
    ghost use Rattle.fc_locked.specs.Counts.{Counted as Seen};

    ghost Value = { Seen };

    ghost use Rattle.std.specs.Prelude.{◌≡◌, ◌+◌, replicate};
    ghost use Rattle.fc_registry.specs.Shards.{shard_at};
    ghost use Rattle.fc_calls.specs.Kept.{confirm_times, serials};
    ghost use Rattle.fc_server.specs.States.{confirm_after_of};

    ghost view = { λ c. record { shard = c.filed.shard } };

    ghost invariant = { λ c. (serials c.filed.shard ≡ serials (shard_at B.first.shards c.filed.shard.index) + c.ledger.total) × (confirm_times c.filed.shard ≡ replicate 8 (confirm_after_of B.first)) };
}

impl<B: Books, P: Part, L: Ledger> Counted<B, P, L> {
    /// Opens the ledger of a server's first shard, whose track has no entry.
    ///
    /// Returns the shard with its ledger, and the tally with all parts of the ledger. `blank` is
    /// the unopened ledger.
    pub(crate) fn open(
        shard: Shard,
        track: FiledTrack<P>,
        blank: Blank,
    ) -> (Counted<B, P, L>, Tally<L>)
        requires index { shard.index < 8 }
        requires key { P.key ≡ shard.index + 1 }
        requires slots { HasEightSlots shard }
        requires confirms { confirm_times shard ≡ replicate 8 (confirm_after_of B.first) }
        requires first { shard ≡ shard_at B.first.shards shard.index }
        requires track { track ≡ [] }
        requires name { blank.name ≡ L.name }
        requires parts { (blank.parts ≡ L.parts) × (0 < L.parts) }
        ensures shard { result.0 ≡ record { shard = shard } }
        ensures tally { result.1 ≡ record { parts = L.parts; changes = 0 } }
    {
        let (ledger, share) = blank.open::<L>();
        let counted = Counted {
            filed: FiledShard::new(shard, track),
            ledger,
        };
        (counted, Tally::of(share))
    }

    /// Runs a call that leaves the shard unchanged, and files nothing.
    pub(crate) fn inspect<C: ShardCall>(&mut self, call: C, room: &mut C::Room) -> C::Answer
        requires may { C.may_ask call self.old.shard }
        requires unchanged { (before after : Called) (answer : C.Answer) (room : C.Room) → C.does call before answer room after → after ≡ before }
        ensures does { C.does call self.old.shard result room.new self.old.shard }
        ensures confirms { confirm_times self.old.shard ≡ replicate 8 (confirm_after_of B.first) }
        ensures unchanged { self.new ≡ self.old }
    {
        self.filed.inspect(call, room)
    }

    /// Runs a call that changes no slot, and files it.
    ///
    /// The call may write its result to `room`. The shard's clock, observers and leases may change.
    pub(crate) fn ask<C: FiledCall>(
        &mut self,
        book: &ServerBook<ServerOf<B>>,
        log: &mut TrackLog<ServerOf<B>>,
        call: C,
        room: &mut C::Room,
    ) -> C::Answer
        requires same { P.table ≡ B.table }
        requires is_of { C.is_of call self.old.shard }
        requires may { C.may_ask call self.old.shard }
        requires none { (answer : C.Answer) → C.changes answer ≡ 0 }
        ensures does { C.does call self.old.shard result room.new self.new.shard }
        ensures slots { self.new.shard.slots ≡ self.old.shard.slots }
        ensures index { self.new.shard.index ≡ self.old.shard.index }
        ensures confirms { confirm_times self.old.shard ≡ replicate 8 (confirm_after_of B.first) }
        ensures filed { log.new ≡ with_filed None (C.operation self.old.shard.index call result room.new) log.old }
    {
        let tracks = &mut log.tracks;
        self.filed.ask(book, tracks, log.who, call, room)
    }

    /// Advances the shard to `now` ms if it is idle then, and files that.
    ///
    /// Returns whether the shard was advanced. If it wasn't, nothing changes, and nothing is filed.
    /// An advance also notes in the book until when the shard is idle.
    pub(crate) fn advance_if_idle(
        &mut self,
        book: &ServerBook<ServerOf<B>>,
        log: &mut TrackLog<ServerOf<B>>,
        now: u64,
    ) -> bool
        requires same { P.table ≡ B.table }
        ensures does { PassesIfIdle now self.old.shard result self.new.shard }
        ensures slots { self.new.shard.slots ≡ self.old.shard.slots }
        ensures index { self.new.shard.index ≡ self.old.shard.index }
        ensures confirms { confirm_times self.old.shard ≡ replicate 8 (confirm_after_of B.first) }
        ensures filed { log.new ≡ with_filed_if result (Logged (AdvancesIdle self.old.shard.index now)) log.old }
    {
        let tracks = &mut log.tracks;
        self.filed.advance_if_idle(book, tracks, log.who, now)
    }

    // Does nothing. The contract says when the shard's notifications are confirmable again.
    fn keeps_confirm_times(&self)
        ensures { confirm_times self.now.shard ≡ replicate 8 (confirm_after_of B.first) }
    {
        let _shard = self.filed.shard();
    }

    /// Saves the change that a call makes, makes the call, and files it with its save.
    ///
    /// Returns `None` if the change can't be saved: then the shard is unchanged, and the refusal is
    /// filed. The tally counts the changes that the result reports. The call may write its result
    /// to `room`.
    pub(crate) fn change<C: FiledChange + Drop, K: Store, R: Wait>(
        &mut self,
        rt: &R,
        store: &SharedStore<B, K>,
        book: &ServerBook<ServerOf<B>>,
        log: &mut TrackLog<ServerOf<B>>,
        call: C,
        room: &mut C::Room,
        tally: &mut Tally<L>,
    ) -> Option<C::Answer>
        requires same { P.table ≡ B.table }
        requires is_of { C.is_of call self.old.shard }
        requires may { C.may_ask call self.old.shard }
        ensures changed { MatchOption result
            (LeavesUnsaved (HasSaved K.Store) (C.slot call) (C.change call) self.old.shard self.new.shard × C.may_change call
            × FilesRefusal (C.slot call) (C.change call) (C.image call) log.old log.new)
            (λ answer. WithSave (HasSaved K.Store) (C.is_verified call) (C.slot call) (C.made call answer) (λ before after. C.does call before answer room.new after) self.old.shard self.new.shard
            × FilesMaybeSaved (C.operation self.old.shard.index call answer room.new) log.old log.new) }
        ensures index { self.new.shard.index ≡ self.old.shard.index }
        ensures confirms { confirm_times self.old.shard ≡ replicate 8 (confirm_after_of B.first) }
        ensures tally { tally.new ≡ counts tally.old (changes_if C.changes result) }
    {
        self.keeps_confirm_times();
        let changed = change_saved(&mut self.filed, rt, store, book, log, call, room);
        match &changed {
            Some(answer) if C::has_changed(answer) => tally.count(&mut self.ledger),
            _ => {}
        }
        changed
    }

    /// Closes the shard and its ledger, with the tally `all` of all the ledger's parts.
    ///
    /// Moves the shard's track to `tracks`, and returns the shard. The sum of the shard's serials
    /// has risen by the tally's changes since the server began.
    pub(crate) fn close(
        self,
        book: &ServerBook<ServerOf<B>>,
        tracks: &mut ServerTracks<ServerOf<B>>,
        all: &mut Tally<L>,
    ) -> Shard
        requires same { P.table ≡ B.table }
        requires parts { all.old.parts ≡ L.parts }
        ensures shard { result ≡ self.shard }
        ensures risen { serials result ≡ serials (shard_at B.first.shards result.index) + all.old.changes }
        ensures tally { all.new ≡ all.old }
        ensures closed { IsPartClosed (EntriesLead (ShardSteps B.persistent)) P.key (shard_at B.first.shards result.index) result tracks.old tracks.new }
    {
        let Counted {
            filed,
            mut ledger,
            ..
        } = self;
        all.audit(&mut ledger);
        filed.close(book, tracks)
    }
}

// Returns the slot that a call changes in a shard, if the change has to be saved. Returns `None` if
// the store isn't persistent, or if the call changes no slot. The shard isn't changed.
fn slot_to_save<C: Change, B: Books, K: Store>(
    store: &SharedStore<B, K>,
    shard: &Shard,
    call: &C,
) -> Option<u8>
    requires { C.may_ask call.now shard.now }
    ensures none { result ≡ None → K.persistent ≡ true → (answer : C.Answer) (room : C.Room) (after : Called) → C.does call.entry.now shard.entry.now answer room after
        → (C.made call.entry.now answer ≡ []) × (after.slots ≡ shard.entry.now.slots) }
    ensures some { IfSome result (λ slot. K.persistent ≡ true) }
{
    if !store.is_persistent() {
        return None;
    }
    call.plan(shard).map(|update| update.slot)
}

// Saves the change that a call makes in a shard, makes the call, and files it with its save.
// Returns `None` if the change can't be saved: then the shard is unchanged, and the refusal is
// filed. Before the save, the book gets the time until which the shard is idle, so that other
// threads can skip the shard meanwhile.
fn change_saved<C: FiledChange + Drop, B: Books, P: Part, K: Store, R: Wait>(
    filed: &mut FiledShard<ServerOf<B>, P>,
    rt: &R,
    store: &SharedStore<B, K>,
    book: &ServerBook<ServerOf<B>>,
    log: &mut TrackLog<ServerOf<B>>,
    call: C,
    room: &mut C::Room,
) -> Option<C::Answer>
    requires same { P.table ≡ B.table }
    requires is_of { C.is_of call filed.old.shard }
    requires may { C.may_ask call filed.old.shard }
    ensures changed { let n = C.slot call in let slot = slot_in filed.old.shard n in
        MatchOption result
        ((filed.new.shard ≡ filed.old.shard) × HasSaved K.Store ⊥ slot n (C.change call ∷ []) false × C.may_change call
        × FilesRefusal n (C.change call) (C.image call) log.old log.new)
        (λ answer. C.does call filed.old.shard answer room.new filed.new.shard × KeepsShard (C.changes answer) filed.old.shard filed.new.shard
        × HasSaved K.Store (C.is_verified call) slot n (C.made call answer) true
        × FilesMaybeSaved (C.operation filed.old.shard.index call answer room.new) log.old log.new) }
{
    match slot_to_save(store, filed.shard(), &call) {
        None => {
            let tracks = &mut log.tracks;
            Some(filed.ask(book, tracks, log.who, call, room))
        }
        Some(slot) => {
            filed.note_if_idle(book);
            store.change(rt, slot, filed, book, log, call, room)
        }
    }
}
