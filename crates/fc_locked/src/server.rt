//! A server with ten locks: one for the front, one for each shard, and one for the store.
//!
//! Its calls are those of [`Bench`]. No lock guards its head words.
//!
//! Each shard's changes are counted in a ledger of its own, which a type represents. One type
//! parameter names all eight ([`Books`](crate::books::Books)): a function that opens a server is
//! generic in it. Its caller passes `Brand`. In its `Invariants.antt` the caller chooses the names
//! and parts of the ledgers from its argument `blanks`, and the server's table, first key and first
//! state from `book`:
//!
//! ```text
//! abbrev pub ghosts-run : goal.ghosts-run
//! ghosts-run a = record
//!     { names = names_of a.blanks; parts = a.blanks.parts;
//!       table = a.book.table; first_job = a.book.first_job; first = a.book.first }
//! ```
//!
//! No type in that function's signature may name a ledger. The function opens the server, splits
//! the unassigned shares into the tallies of its workers, and runs them. Then it merges their
//! tallies and the tracks of their logs, and closes the server.
ghost use Rattle.std.specs.Prelude.{◌≡◌, ◌+◌, ◌*◌, ◌-◌, ◌<◌, ◌≤◌, ◌%◌, true, None, List, length, map, slice_index, take, vec_len, IfOk, MatchOption};
ghost use Rattle.std.specs.List.{All};
ghost use Rattle.coap_msg.specs.declared.types.Emission.{Emission as Emitted};
ghost use Rattle.fc_front.specs.Answering.{emission_of, responded};
ghost use Rattle.fc_front.specs.Contents.{IsOf};
ghost use Rattle.fc_front.specs.Receiving.{emission_if};
ghost use Rattle.fc_calls.specs.Doings.{PassesIfIdle};
ghost use Rattle.fc_calls.specs.Logged.{AdvancesIdle};
ghost use Rattle.fc_linear.specs.Operations.{Logged};
ghost use Rattle.fc_ticket.specs.Notes.{noted_as};
ghost use Rattle.fc_registry.specs.Shards.{shard_at};
ghost use Rattle.fc_registry.specs.Slots.{IsOwned, Shard as Seen};
ghost use Rattle.fc_registry.specs.Turns.{written_if};
ghost use Rattle.fc_registry.specs.Views.{HasSize, taken_with};
ghost use Rattle.fc_backend.specs.Filed.{shard_called};
ghost use Rattle.fc_locked.specs.Asked.{IsAsked, IsLoggedCall, IsServerCall, peripherals, locked_files};
ghost use Rattle.fc_locked.specs.SharedStores.{HasSaved, LeavesUnsaved, WithSave};
ghost use Rattle.fc_server.specs.States.{CanBeginWith};
ghost use Rattle.fc_locked.specs.Closing.{each_shard};
ghost use Rattle.fc_backend.specs.Logs.{FilesMaybeSaved, FilesRefusal, TrackedLog, with_filed, with_filed_if, IsNewLog};
ghost use Rattle.fc_backend.specs.Messages.{first_brought};
ghost use Rattle.fc_locked.specs.Naming.{AreNamed};
ghost use Rattle.fc_locked.specs.OneOrder.{HasTracksOf, HaveSavedOneOrder, logs_of};
ghost use Rattle.fc_locked.specs.Counts.{no_changes, sums};
ghost use Rattle.fc_calls.specs.Kept.{commit_changes, install_changes, removal_changes, serials};
ghost use Rattle.fc_backend.specs.Answers.{AreTallied, IsSomeCommit, IsSomeInstall, IsSomeNote, IsSomeReceipt, IsSomeRemoval, IsSomeSnapshot, IsSomeTick, IsSomeTurn, changes_if, saturated};

use crate::begun_front::BegunFront;
use crate::blanks::Blanks;
use crate::books::{BookOf, Books, ServerOf};
use crate::closed::ClosedServer;
use crate::locked_shard::LockedShard;
use crate::new_server::NewServer;
use crate::ready_store::ReadyStore;
use crate::shared_store::SharedStore;
use crate::tallies::Tallies;
use crate::tally::Tally;
use crate::unassigned::Unassigned;
use coap_msg::{Emission, Endpoint};
use fc_backend::{Bench, Device, JobKeys, ShareOf, TrackLog, begin_logs};
use fc_calls::ShardCall;
use fc_calls::calls::{
    Commit, CountObservers, Describe, GiveUp, IdleUntil, Install, NextDue, Note, ReadCost, Remove,
    Signal, Take, Tick,
};
use fc_filed::calls::TakeIfCheap;
use fc_filed::{FiledCall, FiledChange, NewServerBook, ServerBook, ServerTracks};
use fc_front::{Answer, FrontGauges, Handled, Responded};
use fc_help::Readings;
use fc_machine::Outcome;
use fc_observe::{Ticked, Turn};
use fc_registry::{Committed, Made, PLACES, Removal, Shard, Taken};
use fc_store::Store;
use fc_ticket::{
    Job, NoteOutcome, Notification, Receipt, SHARDS, SlotNumber, SlotSnapshot, Ticket,
};
use fc_verify::Verified;
use std::alloc::{AllocError, Global};
use std::sync::{Arc, Mutex, Wait};

// Removes the last of `shards`, and returns it.
fn last_of(shards: &mut Vec<Shard>) -> Shard
    requires { 0 < vec_len shards.old }
    ensures last { result ≡ shard_at shards.old.items (vec_len shards.old - 1) }
    ensures others { shards.new.items ≡ take (vec_len shards.old - 1) shards.old.items }
{
    let Some(shard) = shards.pop() else {
        unreachable!();
    };
    shard
}

// Makes the unassigned shares of a new server from its shards' tallies. These have equally many
// parts, and count no change.
fn unassigned_of<B: Books>(
    tally0: Tally<BookOf<B, 0>>,
    tally1: Tally<BookOf<B, 1>>,
    tally2: Tally<BookOf<B, 2>>,
    tally3: Tally<BookOf<B, 3>>,
    tally4: Tally<BookOf<B, 4>>,
    tally5: Tally<BookOf<B, 5>>,
    tally6: Tally<BookOf<B, 6>>,
    tally7: Tally<BookOf<B, 7>>,
) -> Unassigned<B>
    requires some { tally0.changes ≡ 0 }
    requires tally1 { tally1 ≡ tally0 }
    requires tally2 { tally2 ≡ tally0 }
    requires tally3 { tally3 ≡ tally0 }
    requires tally4 { tally4 ≡ tally0 }
    requires tally5 { tally5 ≡ tally0 }
    requires tally6 { tally6 ≡ tally0 }
    requires tally7 { tally7 ≡ tally0 }
    ensures { result ≡ record { parts = tally0.parts; changes = no_changes; ended = 0 } }
{
    Unassigned {
        tally0,
        tally1,
        tally2,
        tally3,
        tally4,
        tally5,
        tally6,
        tally7,
        ended: 0,
    }
}

// Begins the track of the server's first front in the book. Returns the front, the book with its
// owner, and the server's first shards.
fn begin_front<B: Books>(book: NewServerBook) -> (BegunFront<B>, NewServer<B>, Vec<Shard>)
    requires table { book.table ≡ B.table }
    requires threads { book.first_job ≡ B.first_job }
    requires server { book.first ≡ B.first }
    ensures first { (result.1.first.may_begin ≡ true) × (result.1.first.next ≡ 1) }
    ensures shards { result.2.items ≡ each_shard B.first.shards }
    ensures can { CanBeginWith B.first }
{
    let (book, mut first, server) = book.with_name::<ServerOf<B>>();
    let (front, shards) = server.into_parts();
    let front = BegunFront::new(front, first.begin_part(&book));
    (front, NewServer { book, first }, shards)
}

// Returns the index of the shard that owns a slot.
fn shard_of(slot: SlotNumber) -> u8
    ensures { (result ≡ slot % 8) × (slot < 64) × (result < 8) }
{
    slot.number() % SHARDS
}

/// A server with a lock for its front, a lock for each shard, and a lock for its store.
///
/// A call holds the lock of the front or of one shard. A call that changes a slot saves the change
/// first: it takes the store's lock inside the shard's, until it is filed. If the
/// store isn't persistent, nothing is saved, and the store's lock isn't taken. No lock guards the
/// head words or the device. No lock is held while a program runs or an image is verified.
#[derive(Drop)]
pub struct Locked<'a, B: Books, D: Device, K: Store> {
    device: &'a D,
    store: SharedStore<B, K>,
    book: ServerBook<ServerOf<B>>,
    front: Mutex<BegunFront<B>>,
    shard0: LockedShard<0, B>,
    shard1: LockedShard<1, B>,
    shard2: LockedShard<2, B>,
    shard3: LockedShard<3, B>,
    shard4: LockedShard<4, B>,
    shard5: LockedShard<5, B>,
    shard6: LockedShard<6, B>,
    shard7: LockedShard<7, B>,
    ghost eight: { length B.first.shards ≡ 8 },
}

impl<'a, B: Books, D: Device, K: Store + Drop> Locked<'a, B, D, K> {
    /// Makes a server that begins as the first server of `book`.
    ///
    /// Its programs get the readings of `device`, and changes of its slots are saved in `store`. It
    /// opens the ledgers, and the unassigned shares are all their parts. The calls of its front,
    /// shards and head words are filed in `book`. Returns the server, the unassigned shares, a log
    /// for each thread of the book, and the right to begin the tracks of jobs. Nothing is filed in
    /// the logs yet.
    ///
    /// # Errors
    /// Returns `AllocError` if memory for the server can't be allocated.
    pub fn new(
        alloc: Global,
        device: &'a D,
        store: ReadyStore<K>,
        blanks: Blanks,
        book: NewServerBook,
    ) -> Result<
        (
            Locked<'a, B, D, K>,
            Unassigned<B>,
            Vec<TrackLog<ServerOf<B>>>,
            JobKeys<ServerOf<B>>,
        ),
        AllocError,
    >
        requires names { AreNamed blanks B.names }
        requires books { blanks.parts ≡ B.parts }
        requires table { book.table ≡ B.table }
        requires threads { book.first_job ≡ B.first_job }
        requires server { book.first ≡ B.first }
        requires persistent { B.persistent ≡ K.persistent }
        requires stored { K.stored store ≡ B.stored }
        ensures unassigned { IfOk result (λ r. r.1 ≡ record { parts = blanks.parts; changes = no_changes; ended = 0 }) }
        ensures logs { IfOk result (λ r. 10 + vec_len r.2 ≡ B.first_job) }
        ensures new_logs { IfOk result (λ r. All IsNewLog r.2.items) }
        ensures keys { IfOk result (λ r. r.3 ≡ first_brought B.first_job) }
    {
        let threads = book.threads();
        let (front, mut new_server, mut shards) = begin_front::<B>(book);
        let shard7 = last_of(&mut shards);
        let shard6 = last_of(&mut shards);
        let shard5 = last_of(&mut shards);
        let shard4 = last_of(&mut shards);
        let shard3 = last_of(&mut shards);
        let shard2 = last_of(&mut shards);
        let shard1 = last_of(&mut shards);
        let shard0 = last_of(&mut shards);
        let (shard0, tally0) = LockedShard::new(shard0, blanks.blank0, &mut new_server);
        let (shard1, tally1) = LockedShard::new(shard1, blanks.blank1, &mut new_server);
        let (shard2, tally2) = LockedShard::new(shard2, blanks.blank2, &mut new_server);
        let (shard3, tally3) = LockedShard::new(shard3, blanks.blank3, &mut new_server);
        let (shard4, tally4) = LockedShard::new(shard4, blanks.blank4, &mut new_server);
        let (shard5, tally5) = LockedShard::new(shard5, blanks.blank5, &mut new_server);
        let (shard6, tally6) = LockedShard::new(shard6, blanks.blank6, &mut new_server);
        let (shard7, tally7) = LockedShard::new(shard7, blanks.blank7, &mut new_server);
        let store = SharedStore::new(store, &mut new_server);
        let NewServer { book, mut first } = new_server;
        let logs = begin_logs(alloc, &book, &mut first, threads)?;
        let server = Locked {
            device,
            store,
            book,
            front: Mutex::new(front),
            shard0,
            shard1,
            shard2,
            shard3,
            shard4,
            shard5,
            shard6,
            shard7,
        };
        let unassigned = unassigned_of(
            tally0, tally1, tally2, tally3, tally4, tally5, tally6, tally7,
        );
        Ok((server, unassigned, logs, JobKeys::new(first)))
    }

    /// Runs a call that leaves a shard unchanged, at the shard with this index, 0 to 7.
    ///
    /// The function holds that shard's lock, and no other. The call may write its result to `room`.
    /// An index above 7 is treated as 7. Nothing is filed.
    pub fn inspect<C: ShardCall, R: Wait>(
        &self,
        rt: &R,
        index: u8,
        call: C,
        room: &mut C::Room,
    ) -> C::Answer
        requires may { (shard : Seen) → (index < 8 → shard.index ≡ index) → C.may_ask call shard }
        requires unchanged { (before after : Seen) (answer : C.Answer) (room : C.Room) → C.does call before answer room after → after ≡ before }
        ensures { IsAsked B.first index (λ before after. C.does call before result room.new after) }
    {
        match index {
            0 => self.shard0.inspect(rt, call, room),
            1 => self.shard1.inspect(rt, call, room),
            2 => self.shard2.inspect(rt, call, room),
            3 => self.shard3.inspect(rt, call, room),
            4 => self.shard4.inspect(rt, call, room),
            5 => self.shard5.inspect(rt, call, room),
            6 => self.shard6.inspect(rt, call, room),
            _ => self.shard7.inspect(rt, call, room),
        }
    }

    // Runs a call that changes no slot, at the shard with this index, 0 to 7, and files it in
    // `log`. The function holds that shard's lock, and no other. The call may write its result to
    // `room`. An index above 7 is treated as 7.
    fn ask<C: FiledCall, R: Wait>(
        &self,
        rt: &R,
        index: u8,
        call: C,
        room: &mut C::Room,
        log: &mut TrackLog<ServerOf<B>>,
    ) -> C::Answer
        requires may { (shard : Seen) → (index < 8 → shard.index ≡ index) → C.may_ask call shard }
        requires is_of { (shard : Seen) → (index < 8 → shard.index ≡ index) → C.is_of call shard }
        requires none { (answer : C.Answer) → C.changes answer ≡ 0 }
        ensures does { IsAsked B.first index (λ before after. C.does call before result room.new after) }
        ensures filed { log.new ≡ with_filed None (C.operation (shard_called index) call result room.new) log.old }
    {
        let book = &self.book;
        match index {
            0 => self.shard0.ask(rt, book, log, call, room),
            1 => self.shard1.ask(rt, book, log, call, room),
            2 => self.shard2.ask(rt, book, log, call, room),
            3 => self.shard3.ask(rt, book, log, call, room),
            4 => self.shard4.ask(rt, book, log, call, room),
            5 => self.shard5.ask(rt, book, log, call, room),
            6 => self.shard6.ask(rt, book, log, call, room),
            _ => self.shard7.ask(rt, book, log, call, room),
        }
    }

    // Advances the shard with this index, 0 to 7, to a time in milliseconds if it is idle then.
    // Returns whether the shard was advanced. An advance is filed in `log`; otherwise nothing
    // changes. The function holds that shard's lock, and no other. An index above 7 is treated as
    // 7.
    fn advance_shard<R: Wait>(
        &self,
        rt: &R,
        index: u8,
        now: u64,
        log: &mut TrackLog<ServerOf<B>>,
    ) -> bool
        ensures does { IsAsked B.first index (λ before after. PassesIfIdle now before result after) }
        ensures filed { log.new ≡ with_filed_if result (Logged (AdvancesIdle (shard_called index) now)) log.old }
    {
        let book = &self.book;
        match index {
            0 => self.shard0.advance_if_idle(rt, book, log, now),
            1 => self.shard1.advance_if_idle(rt, book, log, now),
            2 => self.shard2.advance_if_idle(rt, book, log, now),
            3 => self.shard3.advance_if_idle(rt, book, log, now),
            4 => self.shard4.advance_if_idle(rt, book, log, now),
            5 => self.shard5.advance_if_idle(rt, book, log, now),
            6 => self.shard6.advance_if_idle(rt, book, log, now),
            _ => self.shard7.advance_if_idle(rt, book, log, now),
        }
    }

    // Saves the change that a call makes in `slot`, runs the call at the shard that owns the slot,
    // and files it in `log`. The function holds that shard's lock, and inside it the store's if the
    // change has to be saved. Returns `None` if the change can't be saved: then no slot changes,
    // and the refusal is filed. The tallies count the change.
    fn change<C: FiledChange + Drop, R: Wait>(
        &self,
        rt: &R,
        slot: SlotNumber,
        call: C,
        room: &mut C::Room,
        tallies: &mut Tallies<B>,
        log: &mut TrackLog<ServerOf<B>>,
    ) -> Option<C::Answer>
        requires may { (shard : Seen) → IsOwned shard slot → C.may_ask call shard }
        requires is_of { (shard : Seen) → IsOwned shard slot → C.is_of call shard }
        ensures changed { MatchOption result
            (IsAsked B.first (slot % 8) (LeavesUnsaved (HasSaved K.Store) (C.slot call) (C.change call)) × C.may_change call
            × FilesRefusal (C.slot call) (C.change call) (C.image call) log.old log.new)
            (λ answer. IsAsked B.first (slot % 8) (WithSave (HasSaved K.Store) (C.is_verified call) (C.slot call) (C.made call answer) (λ before after. C.does call before answer room.new after))
            × FilesMaybeSaved (C.operation (slot % 8) call answer room.new) log.old log.new) }
        ensures changes { AreTallied (slice_index tallies.old.changes) (slice_index tallies.new.changes)
            slot (changes_if C.changes result) }
        ensures ended { tallies.new.ended ≡ tallies.old.ended }
    {
        if shard_of(slot) < 4 {
            self.change_low(rt, slot, call, room, tallies, log)
        } else {
            self.change_high(rt, slot, call, room, tallies, log)
        }
    }

    // Saves the change that a call makes in a slot of the shards 0 to 3, then runs the call, and
    // files it, for `change`. Returns `None` if the change can't be saved: then no slot changes,
    // and the refusal is filed.
    fn change_low<C: FiledChange + Drop, R: Wait>(
        &self,
        rt: &R,
        slot: SlotNumber,
        call: C,
        room: &mut C::Room,
        tallies: &mut Tallies<B>,
        log: &mut TrackLog<ServerOf<B>>,
    ) -> Option<C::Answer>
        requires may { (shard : Seen) → IsOwned shard slot → C.may_ask call shard }
        requires is_of { (shard : Seen) → IsOwned shard slot → C.is_of call shard }
        requires low { slot % 8 < 4 }
        ensures changed { MatchOption result
            (IsAsked B.first (slot % 8) (LeavesUnsaved (HasSaved K.Store) (C.slot call) (C.change call)) × C.may_change call
            × FilesRefusal (C.slot call) (C.change call) (C.image call) log.old log.new)
            (λ answer. IsAsked B.first (slot % 8) (WithSave (HasSaved K.Store) (C.is_verified call) (C.slot call) (C.made call answer) (λ before after. C.does call before answer room.new after))
            × FilesMaybeSaved (C.operation (slot % 8) call answer room.new) log.old log.new) }
        ensures changes { AreTallied (slice_index tallies.old.changes) (slice_index tallies.new.changes)
            slot (changes_if C.changes result) }
        ensures ended { tallies.new.ended ≡ tallies.old.ended }
    {
        let book = &self.book;
        let store = &self.store;
        match shard_of(slot) {
            0 => self
                .shard0
                .change(rt, store, book, log, call, room, &mut tallies.tally0),
            1 => self
                .shard1
                .change(rt, store, book, log, call, room, &mut tallies.tally1),
            2 => self
                .shard2
                .change(rt, store, book, log, call, room, &mut tallies.tally2),
            _ => self
                .shard3
                .change(rt, store, book, log, call, room, &mut tallies.tally3),
        }
    }

    // Saves the change that a call makes in a slot of the shards 4 to 7, then runs the call, and
    // files it, for `change`. Returns `None` if the change can't be saved: then no slot changes,
    // and the refusal is filed.
    fn change_high<C: FiledChange + Drop, R: Wait>(
        &self,
        rt: &R,
        slot: SlotNumber,
        call: C,
        room: &mut C::Room,
        tallies: &mut Tallies<B>,
        log: &mut TrackLog<ServerOf<B>>,
    ) -> Option<C::Answer>
        requires may { (shard : Seen) → IsOwned shard slot → C.may_ask call shard }
        requires is_of { (shard : Seen) → IsOwned shard slot → C.is_of call shard }
        requires high { 4 ≤ slot % 8 }
        ensures changed { MatchOption result
            (IsAsked B.first (slot % 8) (LeavesUnsaved (HasSaved K.Store) (C.slot call) (C.change call)) × C.may_change call
            × FilesRefusal (C.slot call) (C.change call) (C.image call) log.old log.new)
            (λ answer. IsAsked B.first (slot % 8) (WithSave (HasSaved K.Store) (C.is_verified call) (C.slot call) (C.made call answer) (λ before after. C.does call before answer room.new after))
            × FilesMaybeSaved (C.operation (slot % 8) call answer room.new) log.old log.new) }
        ensures changes { AreTallied (slice_index tallies.old.changes) (slice_index tallies.new.changes)
            slot (changes_if C.changes result) }
        ensures ended { tallies.new.ended ≡ tallies.old.ended }
    {
        let book = &self.book;
        let store = &self.store;
        match shard_of(slot) {
            4 => self
                .shard4
                .change(rt, store, book, log, call, room, &mut tallies.tally4),
            5 => self
                .shard5
                .change(rt, store, book, log, call, room, &mut tallies.tally5),
            6 => self
                .shard6
                .change(rt, store, book, log, call, room, &mut tallies.tally6),
            _ => self
                .shard7
                .change(rt, store, book, log, call, room, &mut tallies.tally7),
        }
    }

    /// Merges the statistics of threads that have ended: `own` and those of `workers`.
    ///
    /// Their tallies are merged into `unassigned`. The result has the tracks of all their logs.
    pub fn merge_each(
        &self,
        unassigned: &mut Unassigned<B>,
        own: ShareOf<Tallies<B>, ServerOf<B>>,
        mut workers: Vec<ShareOf<Tallies<B>, ServerOf<B>>>,
    ) -> ServerTracks<ServerOf<B>>
        ensures parts { unassigned.new.parts ≡ unassigned.old.parts + vec_len workers + 1 }
        ensures tracks { HasTracksOf B.first_job (logs_of workers.items own) result }
    {
        unassigned.merge(own.tallies);
        let mut tracks = own.log.into_tracks();
        while let Some(worker) = workers.pop() {
            unassigned.merge(worker.tallies);
            tracks.merge(&self.book, worker.log.into_tracks());
        }
        tracks
    }

    /// Closes the server, and drops its store. All parts must be unassigned again.
    ///
    /// The one order has the saves of the store too: with a persistent store each change of a slot
    /// is saved, and the saves lead from the opened store, in the order.
    ///
    /// The serials of each shard have risen by the changes that were counted. The result has these
    /// counts. If `tracks` has the tracks of all threads' logs, the filed calls have one order.
    /// Each thread's calls are in its order. Those of the front, and those of each shard, lead from
    /// the first one to the result's. Those of the head words lead from the first words.
    pub fn close(
        self,
        unassigned: &mut Unassigned<B>,
        mut tracks: ServerTracks<ServerOf<B>>,
    ) -> ClosedServer
        requires { unassigned.old.parts ≡ B.parts }
        ensures risen { map serials result.shards ≡ sums (map serials B.first.shards) unassigned.old.changes }
        ensures shown { result.changes ≡ map saturated unassigned.old.changes }
        ensures order { (logs : List TrackedLog) → HasTracksOf B.first_job logs tracks → 10 + length logs ≡ B.first_job → HaveSavedOneOrder K.Store B.first B.stored logs result }
    {
        let front = self.front.into_inner().close(&self.book, &mut tracks);
        let shard0 = self
            .shard0
            .close(&self.book, &mut tracks, &mut unassigned.tally0);
        let shard1 = self
            .shard1
            .close(&self.book, &mut tracks, &mut unassigned.tally1);
        let shard2 = self
            .shard2
            .close(&self.book, &mut tracks, &mut unassigned.tally2);
        let shard3 = self
            .shard3
            .close(&self.book, &mut tracks, &mut unassigned.tally3);
        let shard4 = self
            .shard4
            .close(&self.book, &mut tracks, &mut unassigned.tally4);
        let shard5 = self
            .shard5
            .close(&self.book, &mut tracks, &mut unassigned.tally5);
        let shard6 = self
            .shard6
            .close(&self.book, &mut tracks, &mut unassigned.tally6);
        let shard7 = self
            .shard7
            .close(&self.book, &mut tracks, &mut unassigned.tally7);
        self.store.close(&self.book, &mut tracks);
        tracks.attest(&self.book);
        ClosedServer {
            front,
            shards: [
                shard0, shard1, shard2, shard3, shard4, shard5, shard6, shard7,
            ],
            changes: unassigned.shown_each(),
        }
    }
}

/// A call of the front or of a shard locks that part and calls it.
///
/// A change of a slot is saved before the call, under the shard's lock. Reads and raises of head
/// words and skips of idle shards take no lock. Neither do a call of the device, the filing of an
/// image that isn't installed, and the question whether a shard is being saved.
impl<'a, B: Books, D: Device, K: Store + Drop> Bench for Locked<'a, B, D, K> {
    ghost called = { IsServerCall B.first (peripherals D.are_readings K.Store) };

    ghost logged = { IsLoggedCall B.first (peripherals D.are_readings K.Store) };

    ghost files = { locked_files B.first (peripherals D.are_readings K.Store) };

    type Tallies = Tallies<B>;

    type Book = ServerOf<B>;

    ghost changes = { λ t. slice_index t.changes };

    ghost ended = { λ t. t.ended };

    fn book(&self) -> &ServerBook<ServerOf<B>> {
        &self.book
    }

    fn handle<R: Wait>(
        &self,
        rt: &R,
        now: u64,
        endpoint: Endpoint,
        bytes: &[u8],
        job: &mut Job,
        reply: &mut Emission,
        log: &mut TrackLog<ServerOf<B>>,
    ) -> Handled {
        let mut front = self.front.lock(rt);
        front.handle(&self.book, log, now, endpoint, bytes, job, reply)
    }

    fn tick<R: Wait>(&self, rt: &R, now: u64, log: &mut TrackLog<ServerOf<B>>) {
        let mut front = self.front.lock(rt);
        front.tick(&self.book, log, now);
    }

    fn fire<R: Wait>(
        &self,
        rt: &R,
        slot: SlotNumber,
        now: u64,
        job: &mut Job,
        log: &mut TrackLog<ServerOf<B>>,
    ) {
        let mut front = self.front.lock(rt);
        front.fire(&self.book, log, slot, now, job);
    }

    fn fresh_id<R: Wait>(&self, rt: &R, now: u64, log: &mut TrackLog<ServerOf<B>>) -> Option<u16> {
        let mut front = self.front.lock(rt);
        front.fresh_id(&self.book, log, now)
    }

    fn readings<R: Wait>(&self, rt: &R, log: &mut TrackLog<ServerOf<B>>) -> Readings {
        self.device.readings(rt, &mut log.calls)
    }

    fn take<R: Wait>(
        &self,
        rt: &R,
        job: &Job,
        readings: &Readings,
        found: &mut SlotSnapshot,
        tallies: &mut Tallies<B>,
        log: &mut TrackLog<ServerOf<B>>,
    ) -> Taken {
        let shard = shard_of(job.origin.slot);
        let taken = self.ask(rt, shard, Take { job, readings }, found, log);
        tallies.end_snapshot(&taken);
        taken
    }

    fn take_if_cheap<R: Wait>(
        &self,
        rt: &R,
        least: u32,
        job: &Job,
        readings: &Readings,
        found: &mut SlotSnapshot,
        log: &mut TrackLog<ServerOf<B>>,
    ) -> Result<Taken, u32> {
        let shard = shard_of(job.origin.slot);
        let take = TakeIfCheap {
            job,
            readings,
            least,
        };
        self.ask(rt, shard, take, found, log)
    }

    fn signal<R: Wait>(
        &self,
        rt: &R,
        shard: u8,
        endpoint: Endpoint,
        id: u16,
        reset: bool,
        log: &mut TrackLog<ServerOf<B>>,
    ) {
        let signal = Signal {
            endpoint,
            id,
            reset,
        };
        self.ask(rt, shard, signal, &mut (), log);
    }

    fn tick_shard<R: Wait>(
        &self,
        rt: &R,
        shard: u8,
        now: u64,
        log: &mut TrackLog<ServerOf<B>>,
    ) -> Ticked {
        self.ask(rt, shard, Tick { now }, &mut (), log)
    }

    fn advance_if_idle<R: Wait>(
        &self,
        rt: &R,
        shard: u8,
        now: u64,
        log: &mut TrackLog<ServerOf<B>>,
    ) -> bool {
        self.advance_shard(rt, shard, now, log)
    }

    fn skip_if_idle(&self, shard: u8, now: u64, log: &mut TrackLog<ServerOf<B>>) -> bool {
        log.skip_if_idle(&self.book, shard.min(SHARDS - 1), now)
    }

    fn idle_until<R: Wait>(&self, rt: &R, shard: u8) -> u64 {
        self.inspect(rt, shard, IdleUntil, &mut ())
    }

    fn gauges<R: Wait>(&self, rt: &R, now: u64) -> FrontGauges {
        let front = self.front.lock(rt);
        front.gauges(now)
    }

    fn observer_counts<R: Wait>(&self, rt: &R, shard: u8) -> [u8; PLACES] {
        self.inspect(rt, shard, CountObservers, &mut ())
    }

    fn is_saving(&self, slot: SlotNumber) -> bool {
        self.store.is_saving(slot)
    }

    fn next_due<R: Wait>(
        &self,
        rt: &R,
        shard: u8,
        now: u64,
        job: &mut Job,
        log: &mut TrackLog<ServerOf<B>>,
    ) -> bool {
        self.ask(rt, shard, NextDue { now }, job, log)
    }

    fn note<R: Wait>(
        &self,
        rt: &R,
        turn: Turn,
        id: u16,
        now: u64,
        random: u16,
        told: &Notification<'_>,
        emission: &mut Emission,
        tallies: &mut Tallies<B>,
        log: &mut TrackLog<ServerOf<B>>,
    ) -> NoteOutcome {
        tallies.end_job();
        let note = Note {
            turn,
            id,
            now,
            random,
            told,
        };
        self.ask(rt, turn.slot % SHARDS, note, emission, log)
    }

    fn give_up<R: Wait>(
        &self,
        rt: &R,
        turn: Turn,
        now: u64,
        tallies: &mut Tallies<B>,
        log: &mut TrackLog<ServerOf<B>>,
    ) {
        tallies.end_job();
        self.ask(rt, turn.slot % SHARDS, GiveUp { turn, now }, &mut (), log);
    }

    fn commit<R: Wait>(
        &self,
        rt: &R,
        now: u64,
        outcome: &Outcome<'_>,
        ticket: &Ticket<'_>,
        tallies: &mut Tallies<B>,
        log: &mut TrackLog<ServerOf<B>>,
    ) -> Option<Committed> {
        let commit = Commit {
            now,
            outcome,
            ticket,
        };
        self.change(rt, ticket.origin().slot, commit, &mut (), tallies, log)
    }

    fn install<R: Wait>(
        &self,
        rt: &R,
        job: &Job,
        program: Arc<Verified>,
        tallies: &mut Tallies<B>,
        log: &mut TrackLog<ServerOf<B>>,
    ) -> Option<Made> {
        let install = Install { job, program };
        self.change(rt, job.origin.slot, install, &mut (), tallies, log)
    }

    fn remove<R: Wait>(
        &self,
        rt: &R,
        job: &Job,
        tallies: &mut Tallies<B>,
        log: &mut TrackLog<ServerOf<B>>,
    ) -> Option<Removal> {
        self.change(rt, job.origin.slot, Remove { job }, &mut (), tallies, log)
    }

    fn receipt<R: Wait>(
        &self,
        rt: &R,
        job: &Job,
        log: &mut TrackLog<ServerOf<B>>,
    ) -> Option<Receipt> {
        let shard = shard_of(job.origin.slot);
        self.ask(rt, shard, Describe { job }, &mut (), log)
    }

    fn read_cost<R: Wait>(
        &self,
        rt: &R,
        slot: SlotNumber,
        log: &mut TrackLog<ServerOf<B>>,
    ) -> Option<u32> {
        self.ask(rt, shard_of(slot), ReadCost { slot }, &mut (), log)
    }

    fn peek(&self, slot: SlotNumber, log: &mut TrackLog<ServerOf<B>>) -> u64 {
        log.look(&self.book, slot)
    }

    fn read_word(&self, slot: SlotNumber, log: &mut TrackLog<ServerOf<B>>) -> u64 {
        log.tracks.read_word(&self.book, usize::from(slot.number()))
    }

    fn raise(&self, job: &Job, word: u64, log: &mut TrackLog<ServerOf<B>>) {
        log.raise(&self.book, job.origin.slot, word);
    }

    fn reject_image(&self, job: &Job, answer: &Answer, log: &mut TrackLog<ServerOf<B>>) {
        log.tracks.reject_image(&self.book, log.who, job, answer);
    }

    fn refuse_install(&self, job: &Job, log: &mut TrackLog<ServerOf<B>>) {
        log.tracks.refuse_install(&self.book, log.who, job);
    }

    fn respond<R: Wait>(
        &self,
        rt: &R,
        now: u64,
        job: &Job,
        answer: &Answer,
        reply: &mut Emission,
        tallies: &mut Tallies<B>,
        log: &mut TrackLog<ServerOf<B>>,
    ) -> bool {
        tallies.end_job();
        let mut front = self.front.lock(rt);
        is_sent(front.respond(&self.book, log, now, job, answer, reply))
    }
}

// Returns whether a response is to be sent, by the result `answered` of the front.
fn is_sent(answered: Responded) -> bool
    ensures { (reply : Emitted) → emission_if result reply ≡ emission_of (responded answered reply) }
{
    match answered {
        Responded::Sent => true,
        Responded::Late | Responded::NoId => false,
    }
}
