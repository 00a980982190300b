//! The store of a server with locks.
ghost use Rattle.std.specs.Prelude.{◌≡◌, ◌<◌, ◌^◌, ◌%◌, [], ◌∷◌, true, false, MatchOption};
ghost use Rattle.fc_book.specs.Tracks.{with_next};
ghost use Rattle.fc_registry.specs.Slots.{slot_in};
ghost use Rattle.fc_calls.specs.Kept.{confirm_times};
ghost use Rattle.fc_filed.specs.Entries.{EntriesLead};
ghost use Rattle.fc_filed.specs.Parts.{KeepsShard};
ghost use Rattle.fc_filed.specs.Saves.{IsOpened, IsStoreAfter, StoreSteps};
ghost use Rattle.fc_filed.specs.Tracked.{IsPartClosed};
ghost use Rattle.fc_backend.specs.Logs.{FilesMaybeSaved, FilesRefusal};
ghost use Rattle.fc_locked.specs.SharedStores.{HasSaved};

use crate::books::{Books, ServerOf};
use crate::new_server::NewServer;
use crate::ready_store::ReadyStore;
use fc_backend::TrackLog;
use fc_book::Part;
use fc_filed::{FiledChange, FiledShard, FiledStore, ServerBook, ServerTracks};
use fc_store::Store;
use fc_ticket::{SHARDS, SlotNumber};
use std::sync::atomic::{AtomicU64, Ordering};
use std::sync::{Mutex, Wait};

/// A store with the track of its saves, guarded by a lock of its own.
///
/// The lock is taken inside a shard's lock, and no lock is taken inside it. A server whose store
/// isn't persistent never takes it. Each shard has a bit of the word `saving`, which is set while a
/// change of the shard is being saved, or waits for the store.
#[derive(Drop)]
pub(crate) struct SharedStore<B: Books, K: Store> {
    store: Mutex<FiledStore<ServerOf<B>, K>>,
    persistent: bool,
    saving: AtomicU64,
    ghost by_type: { persistent ≡ K.persistent },
    ghost of_server: { B.persistent ≡ K.persistent },
}

impl<B: Books, K: Store> SharedStore<B, K> {
    /// Begins the track of a server's opened store, and adds a lock.
    ///
    /// The track is the next one of the server's book.
    pub(crate) fn new(store: ReadyStore<K>, new_server: &mut NewServer<B>) -> SharedStore<B, K>
        requires persistent { B.persistent ≡ K.persistent }
        requires stored { K.stored store ≡ B.stored }
        requires may_begin { new_server.old.first.may_begin ≡ true }
        requires next { new_server.old.first.next ≡ 9 }
        ensures begun { new_server.new ≡ record new_server.old { first = with_next new_server.old.first } }
    {
        let persistent = store.is_persistent();
        let track = new_server.first.begin_part(&new_server.book);
        SharedStore {
            store: Mutex::new(store.with_track(track)),
            persistent,
            saving: AtomicU64::new(0),
        }
    }

    /// Returns whether changes have to be saved. No lock is taken.
    #[inline]
    pub(crate) fn is_persistent(&self) -> bool
        ensures { result ≡ K.persistent }
    {
        self.persistent
    }

    /// Returns whether a change of the shard that owns `slot` is being saved. No lock is taken.
    ///
    /// If so, the store is persistent. Another thread may begin or end a save at any time.
    #[inline]
    pub(crate) fn is_saving(&self, slot: SlotNumber) -> bool
        ensures { result ≡ true → K.persistent ≡ true }
    {
        self.is_persistent() && self.saving.load(Ordering::SeqCst) & shard_bit(slot.number()) != 0
    }

    /// Saves the change that `call` makes in `slot`, then makes the call, and files both as one
    /// entry.
    ///
    /// The store is persistent. The caller holds the lock of the slot's shard, `filed`. The call
    /// writes into `room`. `slot` is the call's slot; it only selects the shard's bit of `saving`.
    /// The store's lock is held until the call is filed. A call that changes no slot is filed
    /// without a save. Returns `None` if the store refuses the save: the shard is unchanged, and
    /// the refusal is filed.
    pub(crate) fn change<C: FiledChange + Drop, P: Part, R: Wait>(
        &self,
        rt: &R,
        slot: u8,
        filed: &mut FiledShard<ServerOf<B>, P>,
        book: &ServerBook<ServerOf<B>>,
        log: &mut TrackLog<ServerOf<B>>,
        call: C,
        room: &mut C::Room,
    ) -> Option<C::Answer>
        requires persistent { K.persistent ≡ true }
        requires same { P.table ≡ B.table }
        requires is_of { C.is_of call filed.old.shard }
        requires may { C.may_ask call filed.old.shard }
        ensures changed { let n = C.slot call in let slot = slot_in filed.old.shard n in
            MatchOption result
            ((filed.new.shard ≡ filed.old.shard) × HasSaved K.Store ⊥ slot n (C.change call ∷ []) false × C.may_change call
            × FilesRefusal n (C.change call) (C.image call) log.old log.new)
            (λ answer. C.does call filed.old.shard answer room.new filed.new.shard × KeepsShard (C.changes answer) filed.old.shard filed.new.shard
            × HasSaved K.Store (C.is_verified call) slot n (C.made call answer) true
            × FilesMaybeSaved (C.operation filed.old.shard.index call answer room.new) log.old log.new) }
    {
        let bit = shard_bit(slot);
        let _others = self.saving.fetch_or(bit, Ordering::SeqCst);
        let answer = self.change_locked(rt, filed, book, log, call, room);
        let _all = self.saving.fetch_and(!bit, Ordering::SeqCst);
        answer
    }

    // Saves the change of a call, makes the call, and files both, under the store's lock. The
    // shard's bit of `saving` is set meanwhile. Returns `None` if the store refuses the save: the
    // shard is unchanged, and the refusal is filed.
    fn change_locked<C: FiledChange + Drop, P: Part, R: Wait>(
        &self,
        rt: &R,
        filed: &mut FiledShard<ServerOf<B>, P>,
        book: &ServerBook<ServerOf<B>>,
        log: &mut TrackLog<ServerOf<B>>,
        call: C,
        room: &mut C::Room,
    ) -> Option<C::Answer>
        requires persistent { K.persistent ≡ true }
        requires same { P.table ≡ B.table }
        requires is_of { C.is_of call filed.old.shard }
        requires may { C.may_ask call filed.old.shard }
        ensures changed { let n = C.slot call in let slot = slot_in filed.old.shard n in
            MatchOption result
            ((filed.new.shard ≡ filed.old.shard) × HasSaved K.Store ⊥ slot n (C.change call ∷ []) false × C.may_change call
            × FilesRefusal n (C.change call) (C.image call) log.old log.new)
            (λ answer. C.does call filed.old.shard answer room.new filed.new.shard × KeepsShard (C.changes answer) filed.old.shard filed.new.shard
            × HasSaved K.Store (C.is_verified call) slot n (C.made call answer) true
            × FilesMaybeSaved (C.operation filed.old.shard.index call answer room.new) log.old log.new) }
    {
        let mut store = self.store.lock(rt);
        let tracks = &mut log.tracks;
        filed.change(book, tracks, log.who, &mut store, call, room)
    }
}

impl<B: Books, K: Store + Drop> SharedStore<B, K> {
    /// Closes the store, and drops it. Moves its track to `tracks`.
    ///
    /// Its saves lead from an opened store, with the server's first stored slots.
    pub(crate) fn close(
        self,
        book: &ServerBook<ServerOf<B>>,
        tracks: &mut ServerTracks<ServerOf<B>>,
    )
        ensures led { (first : K) × (last : K) × IsOpened K.Store first × (K.stored first ≡ B.stored)
            × IsPartClosed (EntriesLead (StoreSteps K.Store)) 9 first last tracks.old tracks.new }
        ensures persistent { B.persistent ≡ K.persistent }
    {
        let _store = self.store.into_inner().close(book, tracks);
    }
}

// Returns the bit of the shard that owns a slot.
fn shard_bit(slot: u8) -> u64
    ensures { result ≡ 2 ^ (slot % 8) }
{
    1 << (slot % SHARDS)
}
