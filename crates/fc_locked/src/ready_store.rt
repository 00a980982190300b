//! A store that is opened and ready (`Store::is_ready`).
ghost use Rattle.std.specs.Prelude.{◌≡◌, []};
ghost use Rattle.fc_filed.specs.Saves.{FindsRaised};

use fc_filed::{FiledStore, FiledTrack, ServerName, StoreOf};
use fc_store::Store;
use std::marker::Model;

/// A store that is opened, and ready to save updates.
///
/// If its medium has returned the data that was written to it, a start would find the stored
/// programs, each at its stored serial or a higher one. A clause sees the store.
#[derive(Drop)]
pub struct ReadyStore<K: Store> {
    store: K,
}

impl<K: Store> Model for ReadyStore<K> {
    ghost use Rattle.fc_filed.specs.Saves.{IsOpened};

    ghost Value = { K };

    ghost view = { λ s. s.store };

    ghost invariant = { λ s. IsOpened K.Store s.store };
}

impl<K: Store> ReadyStore<K> {
    /// Takes a store that is ready.
    ///
    /// While its medium is clean, a start would find the stored programs. A serial may be higher
    /// than the stored one: that of a start whose save was refused.
    pub fn new(store: K) -> ReadyStore<K>
        requires ready { K.is_ready store }
        requires settled { K.is_clean store → FindsRaised K.Store store }
        ensures { result ≡ store }
    {
        ReadyStore { store }
    }

    /// Returns whether the store stores anything. If not, no update has to be saved.
    #[inline]
    pub fn is_persistent(&self) -> bool
        ensures { result ≡ K.persistent }
    {
        self.store.is_persistent()
    }

    /// Adds the track of a server's saves, which has no entry yet.
    pub(crate) fn with_track<J: ServerName>(self, track: FiledTrack<StoreOf<J>>) -> FiledStore<J, K>
        requires stored { K.stored self ≡ J.stored }
        requires track { track ≡ [] }
        ensures { result ≡ record { store = self; calls = [] } }
    {
        FiledStore::new(self.store, track)
    }
}
