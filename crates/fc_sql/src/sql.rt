//! A store in a database.
ghost use Rattle.std.specs.Prelude.{◌≡◌, true, length, IsTrue, IfOk, IfErr, MatchResult};
ghost use Rattle.sqlite.specs.State.{HasCleanDisk, Survives};
ghost use Rattle.sqlite.specs.Held.{state};
ghost use Rattle.sqlite.specs.Tree.{Trees};
ghost use Rattle.fc_store.specs.Updates.{AreSameSlots};
ghost use Rattle.fc_store.specs.Stored.{stored_in};
ghost use Rattle.fc_sql.specs.Table.{FindsOnly, IsMirrored, slots_in_rows};
ghost use Rattle.fc_sql.specs.Found.{RefusesDatabase, Makes, StoresIn};

use crate::error::OpenError;
use crate::load::load;
use crate::table::{takes_writes, write};
use fc_store::{SlotUpdate, Store, StoredSlot};
use sqlite::{Alter, Connection};
use std::alloc::Global;

/// A store in a database: its connection, and a copy of the stored slots in memory.
///
/// After a write that failed, a save first asks the connection whether it takes writes. Each save
/// is refused while it doesn't.
#[derive(Drop)]
pub struct SqlStore<S: Alter + Drop> {
    alloc: Global,
    conn: Connection<S>,
    slots: Vec<StoredSlot>,
    // Whether the last write failed. The failure may have shut the connection.
    in_doubt: bool,
    ghost size: { length slots.items ≡ 64 },
}

impl<S: Alter + Drop> SqlStore<S> {
    /// Makes the store of an open database, for [`open_from`](crate::open_from).
    ///
    /// An empty database first gets the table, and its slots are blank. All clauses but `crash`
    /// suppose a clean medium. `settled` says that a start after a crash finds just these slots.
    /// `crash` says which changes a crash may leave.
    ///
    /// # Errors
    /// Returns an [`OpenError`] and the connection if there are other tables, a row isn't the state
    /// of a slot, or a call of the database failed.
    pub fn over(
        alloc: Global,
        mut conn: Connection<S>,
    ) -> Result<SqlStore<S>, (OpenError, Connection<S>)>
        ensures ready { IfOk result (λ s. IsMirrored s.in_doubt (state S.Store s.conn) (stored_in s.slots.items)) }
        ensures open { IfOk result (λ s. HasCleanDisk (state S.Store s.conn) → IsTrue (state S.Store s.conn).is_open) }
        ensures settled { IfOk result (λ s. FindsOnly (state S.Store s.conn) (stored_in s.slots.items)) }
        ensures found { IfOk result (λ s. HasCleanDisk (state S.Store s.conn)
            → StoresIn (state S.Store conn).now (stored_in s.slots.items)) }
        ensures refused { IfErr result (λ e. HasCleanDisk (state S.Store e.1)
            → RefusesDatabase (state S.Store conn) (state S.Store e.1) e.0) }
        ensures crash { MatchResult result
            (λ s. Survives (state S.Store conn) (state S.Store s.conn) (Makes (state S.Store conn)))
            (λ e. Survives (state S.Store conn) (state S.Store e.1) (Makes (state S.Store conn))) }
    {
        match load(alloc, &mut conn) {
            Ok(slots) => Ok(SqlStore {
                alloc,
                conn,
                slots,
                in_doubt: false,
            }),
            Err(error) => Err((error, conn)),
        }
    }

    /// Returns the connection, and drops the copy of the slots.
    pub fn into_connection(self) -> Connection<S>
        ensures { result ≡ self.conn }
    {
        self.conn
    }

    /// Returns the 64 stored slots, in the order of their numbers.
    pub fn slots(&self) -> &[StoredSlot]
        ensures slots { result.now ≡ self.now.slots.items }
        ensures count { length result.now ≡ 64 }
    {
        &self.slots
    }
}

impl<S: Alter + Drop> Store for SqlStore<S> {
    ghost persistent = { true };

    ghost stored = { λ s. stored_in s.slots.items };

    ghost is_clean = { λ s. HasCleanDisk (state S.Store s.conn) };

    ghost is_ready = { λ s. IsMirrored s.in_doubt (state S.Store s.conn) (stored_in s.slots.items) };

    ghost may_recover = { λ s found. (db : Trees) × S.Store.recovers s.conn.store db × AreSameSlots found (slots_in_rows (db 0)) };

    fn is_persistent(&self) -> bool {
        true
    }

    // Writes the slot's row, and changes the copy in memory only if the row is committed. Returns
    // `false` if the connection takes no write, if the row isn't committed, or if memory can't be
    // allocated.
    fn save(&mut self, update: &SlotUpdate<'_>) -> bool {
        self.in_doubt = !takes_writes(&mut self.conn, self.in_doubt);
        if self.in_doubt {
            return false;
        }
        let slot = usize::from(update.slot);
        match self.slots[slot].after(self.alloc, update) {
            Ok(stored) => {
                self.in_doubt = !write(&mut self.conn, update.slot, &stored);
                if self.in_doubt {
                    return false;
                }
                self.slots[slot] = stored;
                true
            }
            Err(_) => false,
        }
    }
}
