//! A store in a file.
ghost use Rattle.std.specs.Prelude.{IfOk, IfErr, IsTrue};
ghost use Rattle.sqlite.specs.State.{HasCleanDisk};
ghost use Rattle.sqlite.specs.Files.{file_state, IsOpened};
ghost use Rattle.sqlite.specs.Start.{FindsIn};
ghost use Rattle.sqlite.specs.WalFiles.{image_at};
ghost use Rattle.fc_store.specs.Stored.{stored_in};
ghost use Rattle.fc_sql.specs.Table.{FindsOnly, IsMirrored};
ghost use Rattle.fc_sql.specs.Found.{FindsSlots, IsFailure};

use crate::error::OpenError;
use crate::sql::SqlStore;
use sqlite::{Connection, FileFrom, FileStore, Start, Wary};

/// A store in a file, and in the write-ahead log next to it.
pub type FileOfSlots = SqlStore<FileStore<FileFrom<Wary>>>;

/// Opens the store in the file at `path`, and makes the file if there is none.
///
/// # Errors
/// Returns why the file can't be opened. A file that isn't a store of slots keeps its contents.
pub fn open(rt: &HostRuntime, path: &str) -> Result<FileOfSlots, OpenError>
    ensures ready { IfOk result (λ s. IsMirrored s.in_doubt (file_state s.conn) (stored_in s.slots.items)) }
    ensures settled { IfOk result (λ s. FindsOnly (file_state s.conn) (stored_in s.slots.items)) }
{
    open_from(rt, path, Wary)
}

/// Opens the store in the file at `path`, with a contract about the store's contents.
///
/// In contracts, `S` states the first contents of the files, which no program can read, and what a
/// torn write may leave. `Wary` supposes that a torn write may leave any bytes.
///
/// # Errors
/// Returns why the file can't be opened. A file that isn't a store of slots keeps its contents.
pub fn open_from<S: Start>(
    rt: &HostRuntime,
    path: &str,
    start: S,
) -> Result<SqlStore<FileStore<FileFrom<S>>>, OpenError>
    ensures ready { IfOk result (λ s. IsMirrored s.in_doubt (file_state s.conn) (stored_in s.slots.items)) }
    ensures settled { IfOk result (λ s. FindsOnly (file_state s.conn) (stored_in s.slots.items)) }
    ensures open { IfOk result (λ s. HasCleanDisk (file_state s.conn) → IsTrue (file_state s.conn).is_open) }
    ensures found { IfOk result (λ s. HasCleanDisk (file_state s.conn) → FindsSlots (image_at S.Start) s.conn (stored_in s.slots.items)) }
{
    match SqlStore::over(rt.alloc(), connect(rt, path, start)?) {
        Ok(store) => Ok(store),
        Err((error, _)) => Err(error),
    }
}

// Opens the database in the file at `path`, and makes the file if there is none. Returns the
// database's error if opening fails.
fn connect<S: Start>(
    rt: &HostRuntime,
    path: &str,
    start: S,
) -> Result<Connection<FileStore<FileFrom<S>>>, OpenError>
    ensures opened { IfOk result (λ c. HasCleanDisk (file_state c) → IsOpened c × FindsIn (image_at S.Start) (file_state c)) }
    ensures failure { IfErr result IsFailure }
{
    match Connection::open_from(rt, path, true, start) {
        Ok(conn) => Ok(conn),
        Err((error, _)) => Err(OpenError::from(error)),
    }
}
