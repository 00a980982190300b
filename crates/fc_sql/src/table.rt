//! The table of slots, and the statement that writes a row.
ghost use Rattle.std.specs.Prelude.{◌≡◌, ◌⊎◌, ◌<◌, ◌^◌, if◌then◌else◌, not, pos, true, false, Some, None};
ghost use Rattle.sqlite.specs.Tree.{Trees};
ghost use Rattle.sqlite.specs.State.{CommitsBy, HasCleanDisk, Survives};
ghost use Rattle.sqlite.specs.Held.{state};
ghost use Rattle.fc_store.specs.Updates.{AreSameSlots};
ghost use Rattle.fc_store.specs.Stored.{StoredSlots};
ghost use Rattle.fc_sql.specs.Table.{AreStorable, IsMirrored, Puts, put_text, row_values, slots_in_rows, with_stored_slot};

use fc_store::{StoredProgram, StoredSlot};
use sqlite::types::{ToSql, ValueRef};
use sqlite::{Alter, Connection, params};

/// The statement that creates the table: a row for each slot that was ever updated.
///
/// A slot without a program has no version, no image and no variables.
pub const TABLE: &str =
    "CREATE TABLE slot (number INTEGER PRIMARY KEY, serial INTEGER NOT NULL, version INTEGER, image BLOB, vars BLOB) STRICT";

/// The statement that writes the row of a slot, and replaces its present row.
pub const PUT: &str =
    "INSERT OR REPLACE INTO slot (number, serial, version, image, vars) VALUES (?1, ?2, ?3, ?4, ?5)";

// A query that reads no table.
const QUESTION: &str = "SELECT 1";

// The greatest integer that the table can store.
const GREATEST: u64 = 9_223_372_036_854_775_807;

/// Returns whether the connection takes a write.
///
/// `in_doubt` says that the last write failed. The failure may have shut the connection, so a
/// statement is then compiled: a connection that is shut refuses the statement.
pub fn takes_writes<S: Alter>(conn: &mut Connection<S>, in_doubt: bool) -> bool
    ensures kept { (before : StoredSlots) → IsMirrored in_doubt (state S.Store conn.old) before
        → IsMirrored (not result) (state S.Store conn.new) before }
    ensures clean { HasCleanDisk (state S.Store conn.new) → HasCleanDisk (state S.Store conn.old) }
    ensures crash { HasCleanDisk (state S.Store conn.new) → (db : Trees)
        → S.Store.recovers conn.new.store db → S.Store.recovers conn.old.store db }
{
    if in_doubt {
        conn.prepare(QUESTION).is_ok()
    } else {
        true
    }
}

/// Writes the row of `slot`, and returns whether it is written and committed.
///
/// Returns `false` if the serial or the version is above the greatest integer of SQLite, 2^63 - 1,
/// or if the statement fails.
pub fn write<S: Alter>(conn: &mut Connection<S>, slot: u8, stored: &StoredSlot) -> bool
    ensures kept { (before : StoredSlots) → IsMirrored false (state S.Store conn.old) before
        → IsMirrored (not result) (state S.Store conn.new) (if result then with_stored_slot slot stored.now before else before) }
    ensures clean { HasCleanDisk (state S.Store conn.new) → HasCleanDisk (state S.Store conn.old) }
    ensures crash { (before : StoredSlots) → IsMirrored false (state S.Store conn.old) before
        → HasCleanDisk (state S.Store conn.new) → (db : Trees) → S.Store.recovers conn.new.store db
        → S.Store.recovers conn.old.store db ⊎ AreSameSlots (slots_in_rows (db 0)) (with_stored_slot slot stored.now before) }
{
    fits(stored) && put(conn, slot, stored)
}

// Writes the row of a slot whose numbers are integers of SQLite. Returns `true` if the statement
// succeeds, and `false` if it fails.
fn put<S: Alter>(conn: &mut Connection<S>, slot: u8, stored: &StoredSlot) -> bool
    requires storable { AreStorable stored.now }
    ensures runs { HasCleanDisk (state S.Store conn.new) → Puts slot stored.now (state S.Store conn.old) (state S.Store conn.new) result }
    ensures survives { Survives (state S.Store conn.old) (state S.Store conn.new)
        (CommitsBy put_text (row_values slot stored.now) (state S.Store conn.old)) }
{
    match &stored.program {
        Some(program) => put_program(conn, slot, stored.serial, program),
        None => put_none(conn, slot, stored.serial),
    }
}

// Writes the row of a slot with a program. Returns `true` if the statement succeeds, and `false` if
// it fails.
fn put_program<S: Alter>(
    conn: &mut Connection<S>,
    slot: u8,
    serial: u64,
    program: &StoredProgram,
) -> bool
    requires serial { serial < 2 ^ 63 }
    requires version { program.now.version < 2 ^ 63 }
    ensures runs { HasCleanDisk (state S.Store conn.new)
        → Puts slot (record { serial = serial; program = Some program.now }) (state S.Store conn.old) (state S.Store conn.new) result }
    ensures survives { Survives (state S.Store conn.old) (state S.Store conn.new)
        (CommitsBy put_text (row_values slot (record { serial = serial; program = Some program.now })) (state S.Store conn.old)) }
{
    let (serial, version) = (int(serial), int(program.version));
    let image = program.image.as_slice();
    let vars = program.vars.as_slice();
    let row = conn.execute(PUT, params![i64::from(slot), serial, version, image, vars]);
    row.is_ok()
}

// Writes the row of a slot without a program. Returns `true` if the statement succeeds, and `false`
// if it fails.
fn put_none<S: Alter>(conn: &mut Connection<S>, slot: u8, serial: u64) -> bool
    requires serial { serial < 2 ^ 63 }
    ensures runs { HasCleanDisk (state S.Store conn.new)
        → Puts slot (record { serial = serial; program = None }) (state S.Store conn.old) (state S.Store conn.new) result }
    ensures survives { Survives (state S.Store conn.old) (state S.Store conn.new)
        (CommitsBy put_text (row_values slot (record { serial = serial; program = None })) (state S.Store conn.old)) }
{
    let serial = int(serial);
    let none = ValueRef::Null;
    let row = conn.execute(
        PUT,
        &[
            ValueRef::Int(i64::from(slot)),
            ValueRef::Int(serial),
            none,
            none,
            none,
        ],
    );
    row.is_ok()
}

// Converts a number below 2^63 to an integer of SQLite.
fn int(n: u64) -> i64
    requires { n < 2 ^ 63 }
    ensures { result ≡ pos n }
{
    n as i64
}

// Returns `true` only if the serial and the version are integers of SQLite.
fn fits(stored: &StoredSlot) -> bool
    ensures { result ≡ true → AreStorable stored.now }
{
    if stored.serial > GREATEST {
        return false;
    }
    match &stored.program {
        Some(program) => program.version <= GREATEST,
        None => true,
    }
}
