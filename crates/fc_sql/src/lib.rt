//! A store of slots in an SQLite database file.
//!
//! The database has one table, with a row for each slot that was ever updated. A save writes the
//! slot's row by one statement, which commits. The store keeps a copy of the stored slots in
//! memory.
//!
//! ```rust
//! use fc_sql::{OpenError, open};
//!
//! /// Returns the number of stored programs in the file at `path`.
//! fn programs(rt: &HostRuntime, path: &str) -> Result<usize, OpenError> {
//!     let store = open(rt, path)?;
//!     Ok(store
//!         .slots()
//!         .iter()
//!         .filter(|slot| slot.program.is_some())
//!         .count())
//! }
//! ```
//!
//! # What is proved
//!
//! - `SqlStore` meets the clauses of `Store` over any store of the `sqlite` crate. The rows are
//!   just the stored slots. A save that returns `true` is committed: no crash undoes it while the
//!   medium returns the data that was written to it. A save that returns `false` leaves the
//!   database as before, or with the update. The store stays ready for the next save.
//! - `open` returns such a store, which is ready. Its slots are just those that the database
//!   stores. A slot has one row with its state, or has no row and is blank, and there is no other
//!   row. An empty database gets the table.
//! - Any other database is refused and is left as it was. The error names the row that is no slot's
//!   state, and the reason.
//!
//! By the contracts of `SqlStore::save`, `SqlStore::over`, `open_from`, `load::load`,
//! `table::write`.
#![tactic(auto)]

mod columns;
pub mod error;
pub mod file;
pub mod load;
mod schema;
pub mod sql;
pub mod table;

pub use error::{BadRow, OpenError};
pub use file::{FileOfSlots, open, open_from};
pub use sql::SqlStore;
