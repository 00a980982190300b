//! A store over two traced files in memory.
ghost use Rattle.std.specs.Prelude.{◌≡◌, false, IsTrue, IfOk};
ghost use Rattle.sqlite_disk.specs.Memory.{memory_is_usable};

use crate::disk::TracedDisk;
use crate::replay::Contents;
use crate::trace::{File, Trace};
use crate::updates::{Action, COUNT, Made, UPDATES, image_of, some_leaves, vars_of};
use fc_sql::SqlStore;
use fc_store::{ProgramUpdate, SlotUpdate, Store};
use sqlite::{Connection, FileStore, Files, Options};
use sqlite_disk::{Disk, Memory};
use std::alloc::Global;
use std::io;
use std::test::Fail;

// A store over traced files.
pub(crate) type TracedStore<'a> = SqlStore<FileStore<TracedDisk<'a, Memory>>>;

// Returns a file in memory that holds these bytes, all synced.
fn file_with(alloc: Global, bytes: &[u8]) -> io::Result<Memory>
    ensures { IfOk result (λ m. IsTrue (memory_is_usable m)) }
{
    let mut file = Memory::new(alloc);
    file.write_at(0, bytes)?;
    file.sync()?;
    Ok(file)
}

// A small cache, and few frames between two copies of the log into the database.
fn options() -> Options {
    Options {
        cache_pages: 8,
        checkpoint_frames: 24,
        ..Options::new(7)
    }
}

// Opens a connection to files that hold these bytes. A new file gets sums, as in `fc_sql::open`.
fn connect<'a>(
    alloc: Global,
    trace: &'a Trace,
    contents: &Contents,
) -> Option<Connection<FileStore<TracedDisk<'a, Memory>>>> {
    let log = TracedDisk::new(file_with(alloc, &contents.log).ok()?, File::Log, trace);
    let database = file_with(alloc, &contents.database).ok()?;
    let db = TracedDisk::new(database, File::Database, trace);
    match Connection::open_files_with(alloc, Files { log, db }, options(), true) {
        Ok(conn) => Some(conn),
        Err(_) => None,
    }
}

// Starts a store over files that hold these bytes.
pub(crate) fn start<'a>(
    alloc: Global,
    trace: &'a Trace,
    contents: &Contents,
) -> Option<TracedStore<'a>> {
    let conn = connect(alloc, trace, contents)?;
    match SqlStore::over(alloc, conn) {
        Ok(store) => Some(store),
        Err(_) => None,
    }
}

// Starts a store over files that hold these bytes, and checks its slots: one of the lists of
// updates leaves them.
pub(crate) fn check_start(alloc: Global, contents: &Contents, made: &[Made]) -> Result<(), Fail> {
    let trace = Trace::new(alloc);
    let store = start(alloc, &trace, contents).ok_or("no store")?;
    if some_leaves(made, store.slots()) {
        Ok(())
    } else {
        Err("a start finds other slots")?
    }
}

// Saves the update after those that are made, and returns whether it is stored.
pub(crate) fn save(alloc: Global, store: &mut TracedStore<'_>, made: Made) -> Result<bool, Fail> {
    let number = made.count;
    let (slot, action) = UPDATES.get(number).ok_or("an update")?;
    let serial = made.next_serial(*slot);
    let image = match action {
        Action::Install(len) => image_of(alloc, number, *len)?,
        Action::Commit | Action::Remove => Vec::new(alloc),
    };
    let vars = vars_of(alloc, number)?;
    let program = match action {
        Action::Install(_) => ProgramUpdate::Install(&image, &vars),
        Action::Commit => ProgramUpdate::Commit(&vars),
        Action::Remove => ProgramUpdate::Remove,
    };
    let update = SlotUpdate {
        slot: *slot % 64,
        serial,
        program,
    };
    Ok(store.save(&update))
}

// Copies the log into the database, and closes both files.
pub(crate) fn close(store: TracedStore<'_>) -> bool {
    store.into_connection().close().is_ok()
}

// A run over new files: its trace, and the number of accesses before each update and after the
// last one.
#[derive(Drop)]
pub(crate) struct Recording {
    pub trace: Trace,
    pub begins: Vec<usize>,
}

// Saves all updates in new files, and closes them. Each save has to be stored.
pub(crate) fn record(alloc: Global) -> Result<Recording, Fail> {
    let trace = Trace::new(alloc);
    let begins = save_all(alloc, &trace)?;
    Ok(Recording { trace, begins })
}

// Saves all updates. Returns the number of accesses before each update and after the last one.
fn save_all(alloc: Global, trace: &Trace) -> Result<Vec<usize>, Fail> {
    let mut store = start(alloc, trace, &Contents::empty(alloc)).ok_or("no store")?;
    let mut begins = Vec::new(alloc);
    for number in 0..COUNT {
        begins.push(trace.len())?;
        if !save(alloc, &mut store, Made::first(number))? {
            Err("an update is refused")?;
        }
    }
    begins.push(trace.len())?;
    if close(store) {
        Ok(begins)
    } else {
        Err("the files can't be closed")?
    }
}
