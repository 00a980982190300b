//! A server's store under its lock, together with the track of its saves.
ghost use Rattle.std.specs.Prelude.{◌≡◌, ◌<◌, []};
ghost use Rattle.fc_book.specs.Tracks.{part_view, with_part};
ghost use Rattle.fc_filed.specs.Saves.{FindsRaised, IsStoreAfter};

use crate::book::{FiledTrack, ServerBook, ServerName, ServerTracks};
use fc_book::Part;
use fc_store::Store;
use std::marker::{Model, PhantomData};

/// The store as a part: its key is 9.
pub struct StoreOf<J: ServerName> {
    of: PhantomData<J>,
}

impl<J: ServerName> Part for StoreOf<J> {
    ghost table = { J.table };

    ghost key = { 9 };

    fn track_key() -> u64 {
        9
    }
}

/// A store and the track of its saves.
///
/// The saves lead to it from an opened store with the server's first stored slots. The store is
/// ready, also after each save.
#[derive(Drop)]
pub struct FiledStore<J: ServerName, K: Store> {
    pub(crate) store: K,
    pub(crate) track: FiledTrack<StoreOf<J>>,
    of: PhantomData<J>,
}

impl<J: ServerName, K: Store> Model for FiledStore<J, K> {
    ghost use Rattle.fc_filed.specs.Saves.{StoreCalls};

    ghost Value = { StoreCalls K };

    ghost view = { λ s. record { store = s.store; calls = s.track } };

    ghost use Rattle.fc_filed.specs.Saves.{IsStoreAfter};

    ghost invariant = { λ s. IsStoreAfter K.Store J.stored s.track s.store };
}

impl<J: ServerName, K: Store> FiledStore<J, K> {
    /// Makes a filed store of an opened one, with an empty track.
    pub fn new(store: K, track: FiledTrack<StoreOf<J>>) -> FiledStore<J, K>
        requires ready { K.is_ready store }
        requires settled { K.is_clean store → FindsRaised K.Store store }
        requires stored { K.stored store ≡ J.stored }
        requires track { track ≡ [] }
        ensures { result ≡ record { store = store; calls = [] } }
    {
        FiledStore {
            store,
            track,
            of: PhantomData,
        }
    }

    /// Moves the store's track to `tracks`, and returns the store.
    pub fn close(self, book: &ServerBook<J>, tracks: &mut ServerTracks<J>) -> K
        ensures store { result ≡ self.store }
        ensures led { IsStoreAfter K.Store J.stored self.calls result }
        ensures closed { tracks.new ≡ with_part tracks.old (part_view 9 self.calls) }
    {
        let FiledStore {
            store,
            track,
            of: _,
        } = self;
        tracks.close(book, track);
        store
    }
}
