//! A shard guarded by a lock, as [`Locked`](crate::server::Locked) has eight.
ghost use Rattle.std.specs.Prelude.{◌≡◌, ℕ, ◌+◌, ◌<◌, [], true, None, MatchOption};
ghost use Rattle.fc_book.specs.Tracks.{with_next};
ghost use Rattle.fc_registry.specs.Shards.{shard_at};
ghost use Rattle.fc_registry.specs.Slots.{Shard as Seen};
ghost use Rattle.fc_server.specs.States.{CanBeginWith};
ghost use Rattle.fc_calls.specs.Kept.{serials};
ghost use Rattle.fc_calls.specs.Doings.{PassesIfIdle};
ghost use Rattle.fc_calls.specs.Logged.{AdvancesIdle};
ghost use Rattle.fc_linear.specs.Operations.{Logged};
ghost use Rattle.fc_filed.specs.Entries.{EntriesLead};
ghost use Rattle.fc_filed.specs.Saves.{ShardSteps};
ghost use Rattle.fc_filed.specs.Tracked.{IsPartClosed};
ghost use Rattle.fc_backend.specs.Answers.{changes_if};
ghost use Rattle.fc_locked.specs.Asked.{IsAsked};
ghost use Rattle.fc_locked.specs.Counts.{counts};
ghost use Rattle.fc_backend.specs.Logs.{FilesMaybeSaved, FilesRefusal, with_filed, with_filed_if};
ghost use Rattle.fc_locked.specs.SharedStores.{HasSaved, LeavesUnsaved, WithSave};

use crate::books::{BookOf, Books, ServerOf};
use crate::counted_shard::Counted;
use crate::new_server::NewServer;
use crate::shared_store::SharedStore;
use crate::tally::Tally;
use fc_backend::TrackLog;
use fc_calls::ShardCall;
use fc_filed::{FiledCall, FiledChange, ServerBook, ServerTracks, ShardOf};
use fc_registry::Shard;
use fc_store::Store;
use std::sync::ledger::Blank;
use std::sync::{Mutex, Wait};

// The shard of an index.
#[derive(Drop)]
struct ShardState<const INDEX: u8, B: Books> {
    counted: Counted<B, ShardOf<ServerOf<B>, INDEX>, BookOf<B, INDEX>>,
    ghost index: { counted.shard.index ≡ INDEX },
}

/// The shard with this index, 0 to 7, its track and its ledger, guarded by a lock.
#[derive(Drop)]
pub(crate) struct LockedShard<const INDEX: u8, B: Books> {
    state: Mutex<ShardState<INDEX, B>>,
}

impl<const INDEX: u8, B: Books> LockedShard<INDEX, B> {
    /// Opens the ledger of a server's first shard, begins its track, and adds a lock.
    ///
    /// The track is the next one of the server's book. Returns the locked shard, and the tally with
    /// all parts of the ledger.
    pub(crate) fn new(
        shard: Shard,
        blank: Blank,
        new_server: &mut NewServer<B>,
    ) -> (LockedShard<INDEX, B>, Tally<BookOf<B, INDEX>>)
        requires index { INDEX < 8 }
        requires can { CanBeginWith B.first }
        requires first { shard ≡ shard_at B.first.shards INDEX }
        requires ledger { (blank.name ≡ B.names INDEX) × (blank.parts ≡ B.parts) × (0 < blank.parts) }
        requires may_begin { new_server.old.first.may_begin ≡ true }
        requires next { new_server.old.first.next ≡ INDEX + 1 }
        ensures tally { result.1 ≡ record { parts = blank.parts; changes = 0 } }
        ensures begun { new_server.new ≡ record new_server.old { first = with_next new_server.old.first } }
    {
        let track = new_server.first.begin_part(&new_server.book);
        let (counted, tally) = Counted::open(shard, track, blank);
        let locked = LockedShard {
            state: Mutex::new(ShardState { counted }),
        };
        (locked, tally)
    }

    /// Runs a call that leaves the shard unchanged, under the shard's lock. Nothing is filed.
    pub(crate) fn inspect<C: ShardCall, R: Wait>(
        &self,
        rt: &R,
        call: C,
        room: &mut C::Room,
    ) -> C::Answer
        requires may { (shard : Seen) → shard.index ≡ INDEX → C.may_ask call shard }
        requires unchanged { (before after : Seen) (answer : C.Answer) (room : C.Room) → C.does call before answer room after → after ≡ before }
        ensures { IsAsked B.first INDEX (λ before after. C.does call before result room.new after) }
    {
        self.state.lock(rt).counted.inspect(call, room)
    }

    /// Runs a call that changes no slot, under the shard's lock, and files it.
    ///
    /// The call may write its result to `room`.
    pub(crate) fn ask<C: FiledCall, R: Wait>(
        &self,
        rt: &R,
        book: &ServerBook<ServerOf<B>>,
        log: &mut TrackLog<ServerOf<B>>,
        call: C,
        room: &mut C::Room,
    ) -> C::Answer
        requires may { (shard : Seen) → shard.index ≡ INDEX → C.may_ask call shard }
        requires is_of { (shard : Seen) → shard.index ≡ INDEX → C.is_of call shard }
        requires none { (answer : C.Answer) → C.changes answer ≡ 0 }
        ensures does { IsAsked B.first INDEX (λ before after. C.does call before result room.new after) }
        ensures filed { log.new ≡ with_filed None (C.operation INDEX call result room.new) log.old }
    {
        self.state.lock(rt).counted.ask(book, log, call, room)
    }

    /// Advances the shard to `now` ms if it is idle then, under its lock, and files that.
    ///
    /// Returns whether the shard was advanced. If it wasn't, nothing changes, and nothing is filed.
    /// An advance also notes in the book until when the shard is idle.
    pub(crate) fn advance_if_idle<R: Wait>(
        &self,
        rt: &R,
        book: &ServerBook<ServerOf<B>>,
        log: &mut TrackLog<ServerOf<B>>,
        now: u64,
    ) -> bool
        ensures does { IsAsked B.first INDEX (λ before after. PassesIfIdle now before result after) }
        ensures filed { log.new ≡ with_filed_if result (Logged (AdvancesIdle INDEX now)) log.old }
    {
        self.state.lock(rt).counted.advance_if_idle(book, log, now)
    }

    /// Saves the change that a call makes, runs the call, and files it, under the shard's lock.
    ///
    /// Returns `None` if the change can't be saved: then the shard is unchanged, and the refusal is
    /// filed. The tally counts the changes that the result reports. The call may write to `room`.
    pub(crate) fn change<C: FiledChange + Drop, K: Store, R: Wait>(
        &self,
        rt: &R,
        store: &SharedStore<B, K>,
        book: &ServerBook<ServerOf<B>>,
        log: &mut TrackLog<ServerOf<B>>,
        call: C,
        room: &mut C::Room,
        tally: &mut Tally<BookOf<B, INDEX>>,
    ) -> Option<C::Answer>
        requires may { (shard : Seen) → shard.index ≡ INDEX → C.may_ask call shard }
        requires is_of { (shard : Seen) → shard.index ≡ INDEX → C.is_of call shard }
        ensures changed { MatchOption result
            (IsAsked B.first INDEX (LeavesUnsaved (HasSaved K.Store) (C.slot call) (C.change call)) × C.may_change call
            × FilesRefusal (C.slot call) (C.change call) (C.image call) log.old log.new)
            (λ answer. IsAsked B.first INDEX (WithSave (HasSaved K.Store) (C.is_verified call) (C.slot call) (C.made call answer) (λ before after. C.does call before answer room.new after))
            × FilesMaybeSaved (C.operation INDEX call answer room.new) log.old log.new) }
        ensures tally { tally.new ≡ counts tally.old (changes_if C.changes result) }
    {
        let mut state = self.state.lock(rt);
        state
            .counted
            .change(rt, store, book, log, call, room, tally)
    }

    /// Closes the shard and its ledger, with the tally `all` of all the ledger's parts.
    ///
    /// Moves the shard's track to `tracks`, and returns the shard. The sum of the shard's serials
    /// has risen by the changes that were counted, since the server began.
    pub(crate) fn close(
        self,
        book: &ServerBook<ServerOf<B>>,
        tracks: &mut ServerTracks<ServerOf<B>>,
        all: &mut Tally<BookOf<B, INDEX>>,
    ) -> Shard
        requires { all.old.parts ≡ B.parts }
        ensures risen { serials result ≡ serials (shard_at B.first.shards INDEX) + all.old.changes }
        ensures tally { all.new ≡ all.old }
        ensures closed { IsPartClosed (EntriesLead (ShardSteps B.persistent)) (INDEX + 1) (shard_at B.first.shards INDEX) result tracks.old tracks.new }
    {
        let ShardState { counted } = self.state.into_inner();
        counted.close(book, tracks, all)
    }
}
