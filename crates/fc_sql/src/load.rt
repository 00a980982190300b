//! Reading the stored slots of a database, when a store is opened.
//!
//! Clauses about the database suppose that the medium is clean at the end: it returned the data
//! that was written to it. The clause `survives` doesn't suppose this: it says which changes a
//! crash may leave.
ghost use Rattle.std.specs.Prelude.{◌≡◌, ◌⊎◌, ℤ, pos, false, [], length, ◌∷◌, IsTrue, IfOk, IfErr, OnOk};
ghost use Rattle.std.specs.List.{All};
ghost use Rattle.std.specs.List.Sorted.{IsPermutation};
ghost use Rattle.sqlite.specs.State.{CommitsBy, HasCleanDisk, Survives};
ghost use Rattle.sqlite.specs.Held.{state};
ghost use Rattle.sqlite_trees.specs.Tree.{rowid};
ghost use Rattle.sqlite.specs.declared.types.Value.TheVariants.{Int};
ghost use Rattle.fc_store.specs.Stored.{stored_in};
ghost use Rattle.fc_sql.specs.Table.{IsMirrored, create_text, no_schema, slot_schema};
ghost use Rattle.fc_sql.specs.Found.{AreBad, AreOfSlot, AreRowNumbers, AreSlotNumbers, AreSlotRows, AreUnread, AreWide, HasNoRow, HasOther, HasTable, IsFailure, IsOtherNumber, IsSlotNumber, IsTableMade, IsSameDatabase, IsUnreadRow, Makes, OtherTables, RefusesDatabase, RefusesRows, StoresIn, TableHasStates, TableStores, rows_of, slot_rows};

use crate::columns::{Unread, stored_in};
use crate::error::{BadRow, OpenError};
use crate::schema::{has_slots, is_empty};
use crate::table::TABLE;
use fc_store::{SLOTS, StoredSlot};
use sqlite::types::ToSql;
use sqlite::{Alter, Connection, Error, ErrorCode, Row};
use std::alloc::Global;

/// The query that reads the row of a slot.
pub const GET: &str = "SELECT serial, version, image, vars FROM slot WHERE number = ?1";

/// The query that reads the number of each row.
pub const NUMBERS: &str = "SELECT number FROM slot";

/// Reads the stored slots of a database, and creates the table in an empty one.
///
/// Returns slots 0 to 63, in that order. A slot without a row is blank.
///
/// # Errors
/// Returns `Foreign` if the database has another table, and `Row` if a row isn't the state of a
/// slot. In both cases nothing was changed. Any other error says why a statement failed, that
/// memory can't be allocated, or that a transaction is open.
pub fn load<S: Alter + Drop>(
    alloc: Global,
    conn: &mut Connection<S>,
) -> Result<Vec<StoredSlot>, OpenError>
    ensures size { IfOk result (λ v. length v.items ≡ 64) }
    ensures ready { IfOk result (λ v. IsMirrored false (state S.Store conn.new) (stored_in v.items)) }
    ensures open { HasCleanDisk (state S.Store conn.new) → OnOk result (IsTrue (state S.Store conn.new).is_open) }
    ensures found { HasCleanDisk (state S.Store conn.new) → IfOk result (λ v. StoresIn (state S.Store conn.old).now (stored_in v.items)) }
    ensures refused { HasCleanDisk (state S.Store conn.new) → IfErr result (RefusesDatabase (state S.Store conn.old) (state S.Store conn.new)) }
    ensures survives { Survives (state S.Store conn.old) (state S.Store conn.new) (Makes (state S.Store conn.old)) }
{
    match make_table(conn) {
        Ok(()) => read_made(alloc, conn),
        Err(error) => Err(error),
    }
}

// Reads the stored slots of the table, for `load`. Returns the error of `read_table`, or an error
// if a transaction is open.
fn read_made<S: Alter + Drop>(
    alloc: Global,
    conn: &mut Connection<S>,
) -> Result<Vec<StoredSlot>, OpenError>
    requires table { HasTable (state S.Store conn.old) }
    ensures size { IfOk result (λ v. length v.items ≡ 64) }
    ensures ready { IfOk result (λ v. IsMirrored false (state S.Store conn.new) (stored_in v.items)) }
    ensures open { HasCleanDisk (state S.Store conn.new) → OnOk result (IsTrue (state S.Store conn.new).is_open) }
    ensures found { HasCleanDisk (state S.Store conn.new) → IfOk result (λ v. TableStores (state S.Store conn.old) (stored_in v.items)) }
    ensures refused { HasCleanDisk (state S.Store conn.new) → IfErr result (RefusesRows (state S.Store conn.old) (state S.Store conn.new)) }
    ensures survives { Survives (state S.Store conn.old) (state S.Store conn.new) (λ _. ⊥) }
{
    match read_table(alloc, conn) {
        Ok(slots) => {
            if conn.is_autocommit() {
                Ok(slots)
            } else {
                Err(OpenError::from(Error::SqliteFailure(ErrorCode::TransactionState)))
            }
        }
        Err(error) => Err(error),
    }
}

// Creates the table in an empty database, and changes nothing if the database has just this table.
// Returns `Foreign` if the database has anything else, and the database's error if the statement
// fails.
fn make_table<S: Alter + Drop>(conn: &mut Connection<S>) -> Result<(), OpenError>
    ensures made { HasCleanDisk (state S.Store conn.new) → OnOk result (IsTableMade (state S.Store conn.old) (state S.Store conn.new)) }
    ensures refused { HasCleanDisk (state S.Store conn.new) → IfErr result (OtherTables (state S.Store conn.old) (state S.Store conn.new)) }
    ensures survives { Survives (state S.Store conn.old) (state S.Store conn.new) (Makes (state S.Store conn.old)) }
{
    if has_slots(conn.schema()) {
        return Ok(());
    }
    if !is_empty(conn.schema()) {
        return Err(OpenError::Foreign);
    }
    create(conn)
}

// Creates the table in an empty database, by one statement that commits. Returns the database's
// error if the statement fails.
fn create<S: Alter + Drop>(conn: &mut Connection<S>) -> Result<(), OpenError>
    requires empty { (state S.Store conn.old).now.schema ≡ no_schema }
    ensures made { HasCleanDisk (state S.Store conn.new) → OnOk result (HasNoRow (state S.Store conn.new)) }
    ensures failure { IfErr result IsFailure }
    ensures survives { Survives (state S.Store conn.old) (state S.Store conn.new) (CommitsBy create_text [] (state S.Store conn.old)) }
{
    match conn.execute(TABLE, &[]) {
        Ok(_) => Ok(()),
        Err(error) => Err(OpenError::from(error)),
    }
}

// Reads the stored slots of the table, and checks that it has no other rows. Returns `Row` if a row
// isn't the state of a slot, `Memory` if memory can't be allocated, and the database's error if a
// query fails.
fn read_table<S: Alter + Drop>(
    alloc: Global,
    conn: &mut Connection<S>,
) -> Result<Vec<StoredSlot>, OpenError>
    requires table { HasTable (state S.Store conn.old) }
    ensures size { IfOk result (λ v. length v.items ≡ 64) }
    ensures found { HasCleanDisk (state S.Store conn.new) → IfOk result (λ v. TableStores (state S.Store conn.old) (stored_in v.items)) }
    ensures kept { HasCleanDisk (state S.Store conn.new) → OnOk result (IsSameDatabase (state S.Store conn.old) (state S.Store conn.new)) }
    ensures open { HasCleanDisk (state S.Store conn.new) → OnOk result (IsTrue (state S.Store conn.new).is_open) }
    ensures refused { HasCleanDisk (state S.Store conn.new) → IfErr result (RefusesRows (state S.Store conn.old) (state S.Store conn.new)) }
    ensures survives { Survives (state S.Store conn.old) (state S.Store conn.new) (λ _. ⊥) }
{
    match read_slots(alloc, conn) {
        Ok(slots) => match check_rows(conn) {
            Ok(()) => Ok(slots),
            Err(error) => Err(error),
        },
        Err(error) => Err(error),
    }
}

// Reads slots 0 to 63, and ignores other rows. Returns `Row` for a slot that `read_slot` refuses,
// `Memory` if memory can't be allocated, and the database's error if a query fails.
fn read_slots<S: Alter + Drop>(
    alloc: Global,
    conn: &mut Connection<S>,
) -> Result<Vec<StoredSlot>, OpenError>
    requires table { HasTable (state S.Store conn.old) }
    ensures size { IfOk result (λ v. length v.items ≡ 64) }
    ensures found { HasCleanDisk (state S.Store conn.new) → IfOk result (λ v. TableHasStates (state S.Store conn.old) (stored_in v.items)) }
    ensures kept { HasCleanDisk (state S.Store conn.new) → OnOk result (IsSameDatabase (state S.Store conn.old) (state S.Store conn.new)) }
    ensures refused { HasCleanDisk (state S.Store conn.new) → IfErr result (RefusesRows (state S.Store conn.old) (state S.Store conn.new)) }
    ensures survives { Survives (state S.Store conn.old) (state S.Store conn.new) (λ _. ⊥) }
{
    let Ok(mut slots) = Vec::with_capacity(alloc, SLOTS) else {
        return Err(OpenError::Memory);
    };
    for slot in 0..64u8 {
        let stored = match read_slot(conn, slot) {
            Ok(stored) => stored,
            Err(error) => return Err(error),
        };
        if slots.push(stored).is_err() {
            return Err(OpenError::Memory);
        }
    }
    Ok(slots)
}

// Reads a slot; a slot without a row is blank. Returns `Row` if the slot has several rows, or if
// its only row isn't the state of a slot. Returns `Memory` if memory can't be allocated, and the
// database's error if the query fails.
fn read_slot<S: Alter + Drop>(conn: &mut Connection<S>, slot: u8) -> Result<StoredSlot, OpenError>
    requires table { HasTable (state S.Store conn.old) }
    ensures found { HasCleanDisk (state S.Store conn.new) → IfOk result (AreOfSlot (rows_of (slot_rows (state S.Store conn.old)) slot)) }
    ensures kept { HasCleanDisk (state S.Store conn.new) → OnOk result (IsSameDatabase (state S.Store conn.old) (state S.Store conn.new)) }
    ensures refused { HasCleanDisk (state S.Store conn.new) → IfErr result (λ e.
        ((why : BadRow) × (e ≡ OpenError.Row (pos slot) why) × AreBad why (rows_of (slot_rows (state S.Store conn.old)) slot) × IsSameDatabase (state S.Store conn.old) (state S.Store conn.new)) ⊎ IsFailure e) }
    ensures survives { Survives (state S.Store conn.old) (state S.Store conn.new) (λ _. ⊥) }
{
    match rows_of_slot(conn, slot) {
        Ok(rows) => slot_of(rows.as_slice(), slot),
        Err(error) => Err(error),
    }
}

// Returns a slot's number as the integer that its row has.
fn number_of(slot: u8) -> i64
    ensures { result ≡ pos slot }
{
    i64::from(slot)
}

// Reads the rows with the number of a slot. Returns the database's error if the query fails.
fn rows_of_slot<S: Alter + Drop>(conn: &mut Connection<S>, slot: u8) -> Result<Vec<Row>, OpenError>
    requires table { HasTable (state S.Store conn.old) }
    ensures rows { HasCleanDisk (state S.Store conn.new) → IfOk result (λ v. AreSlotRows (state S.Store conn.old) slot v.items) }
    ensures kept { HasCleanDisk (state S.Store conn.new) → OnOk result (IsSameDatabase (state S.Store conn.old) (state S.Store conn.new)) }
    ensures failure { IfErr result IsFailure }
    ensures survives { Survives (state S.Store conn.old) (state S.Store conn.new) (λ _. ⊥) }
{
    let number = u32::from(slot).to_sql();
    match conn.query_all(GET, &[number]) {
        Ok(rows) => Ok(rows),
        Err(error) => Err(OpenError::from(error)),
    }
}

// Returns the slot that `rows`, the rows with its number, store. The slot is blank if there are
// none. Returns `Row` if there are several rows, or if the only row isn't the state of a slot.
// Returns `Memory` if memory can't be allocated.
fn slot_of(rows: &[Row], slot: u8) -> Result<StoredSlot, OpenError>
    ensures ok { IfOk result (λ s. AreWide 4 rows.now → AreOfSlot rows.now s) }
    ensures bad { IfErr result (AreUnread slot rows.now) }
{
    match rows {
        [] => Ok(StoredSlot::blank()),
        [row] => read_row(row, slot),
        _ => Err(OpenError::Row(number_of(slot), BadRow::Twice)),
    }
}

// Returns the slot that its only row stores. Returns `Row` if the row isn't the state of a slot,
// and `Memory` if memory can't be allocated.
fn read_row(row: &Row, slot: u8) -> Result<StoredSlot, OpenError>
    ensures ok { IfOk result (λ s. length row.now ≡ 4 → AreOfSlot (row.now ∷ []) s) }
    ensures bad { IfErr result (IsUnreadRow slot row.now) }
{
    match stored_in(row) {
        Ok(stored) => Ok(stored),
        Err(Unread::Memory) => Err(OpenError::Memory),
        Err(Unread::Bad(why)) => Err(OpenError::Row(number_of(slot), why)),
    }
}

// Checks that each row is that of a slot, 0 to 63. Returns `Row` if there is another row, and the
// database's error if the query fails.
fn check_rows<S: Alter + Drop>(conn: &mut Connection<S>) -> Result<(), OpenError>
    requires table { HasTable (state S.Store conn.old) }
    ensures numbers { HasCleanDisk (state S.Store conn.new) → OnOk result (AreSlotNumbers (slot_rows (state S.Store conn.old))) }
    ensures kept { HasCleanDisk (state S.Store conn.new) → OnOk result (IsSameDatabase (state S.Store conn.old) (state S.Store conn.new)) }
    ensures open { HasCleanDisk (state S.Store conn.new) → OnOk result (IsTrue (state S.Store conn.new).is_open) }
    ensures refused { HasCleanDisk (state S.Store conn.new) → IfErr result (RefusesRows (state S.Store conn.old) (state S.Store conn.new)) }
    ensures survives { Survives (state S.Store conn.old) (state S.Store conn.new) (λ _. ⊥) }
{
    match numbers(conn) {
        Ok(rows) => check_numbers(rows.as_slice()),
        Err(error) => Err(error),
    }
}

// Reads the number of each row. Returns the database's error if the query fails.
fn numbers<S: Alter + Drop>(conn: &mut Connection<S>) -> Result<Vec<Row>, OpenError>
    requires table { HasTable (state S.Store conn.old) }
    ensures rows { HasCleanDisk (state S.Store conn.new) → IfOk result (λ v. AreRowNumbers (state S.Store conn.old) v.items) }
    ensures kept { HasCleanDisk (state S.Store conn.new) → OnOk result (IsSameDatabase (state S.Store conn.old) (state S.Store conn.new)) }
    ensures open { HasCleanDisk (state S.Store conn.new) → OnOk result (IsTrue (state S.Store conn.new).is_open) }
    ensures failure { IfErr result IsFailure }
    ensures survives { Survives (state S.Store conn.old) (state S.Store conn.new) (λ _. ⊥) }
{
    match conn.query_all(NUMBERS, &[]) {
        Ok(rows) => Ok(rows),
        Err(error) => Err(OpenError::from(error)),
    }
}

// Checks that the first column of each row is the number of a slot, 0 to 63. Returns `Row` if a row
// has another number, and the database's error if the column can't be read as a number.
fn check_numbers(rows: &[Row]) -> Result<(), OpenError>
    ensures ok { OnOk result (AreSlotNumbers rows.now) }
    ensures bad { IfErr result (λ e. ((z : ℤ) × (e ≡ OpenError.Row z BadRow.Number) × HasOther rows.now z) ⊎ IsFailure e) }
{
    for row in rows {
        if let Err(error) = check_number(row) {
            return Err(error);
        }
    }
    Ok(())
}

// Checks that the first column of a row is the number of a slot, 0 to 63. Returns `Row` if the
// column has another number, and the database's error if the column can't be read as a number.
fn check_number(row: &Row) -> Result<(), OpenError>
    ensures ok { OnOk result (IsSlotNumber (rowid row.now)) }
    ensures bad { IfErr result (IsOtherNumber row.now) }
{
    let number = match row.get::<i64>(0) {
        Ok(number) => number,
        Err(error) => return Err(OpenError::from(error)),
    };
    if (0..64).contains(&number) {
        Ok(())
    } else {
        Err(OpenError::Row(number, BadRow::Number))
    }
}
