//! The columns of a slot's row, which are read when a store is opened.
//!
//! Clauses about a row suppose that it has four columns: serial, version, image and vars.
ghost use Rattle.std.specs.Prelude.{◌≡◌, ◌⊎◌, ◌<◌, ◌≤◌, pos, length, IfOk, IfErr};
ghost use Rattle.sqlite_value.specs.Order.{column};
ghost use Rattle.sqlite.specs.Values.{or_null};
ghost use Rattle.sqlite.specs.declared.types.Value.TheVariants.{Int, Blob};
ghost use Rattle.fc_sql.specs.Found.{IsBadRow, IsSlotState, AreUnreadColumns, IsUnreadColumn, column_values, slot_with, state_values};

use crate::error::BadRow;
use fc_store::{StoredProgram, StoredSlot};
use sqlite::types::FromSql;
use sqlite::{Error, ErrorCode, Row};

/// The reason why the columns of a row weren't read.
#[derive(Drop)]
pub(crate) enum Unread {
    Memory,
    Bad(BadRow),
}

// The columns of a slot's row. NULL is `None`.
#[derive(Drop)]
struct Columns {
    serial: u64,
    version: Option<u64>,
    image: Option<Vec<u8>>,
    vars: Option<Vec<u8>>,
}

/// Returns the slot that a row stores.
///
/// The row has the columns serial, version, image and vars. Returns [`Unread`] if the row isn't the
/// state of a slot, or if memory can't be allocated.
pub(crate) fn stored_in(row: &Row) -> Result<StoredSlot, Unread>
    ensures ok { IfOk result (λ s. length row.now ≡ 4 → (row.now ≡ state_values s) × IsSlotState s) }
    ensures bad { IfErr result (λ e. length row.now ≡ 4 → AreUnreadColumns row.now e) }
{
    match slot_in(columns_in(row)?) {
        Ok(stored) => Ok(stored),
        Err(why) => Err(Unread::Bad(why)),
    }
}

// Reads the four columns of a row. Returns an error if memory can't be allocated, or if a column's
// value isn't one of its type.
fn columns_in(row: &Row) -> Result<Columns, Unread>
    ensures ok { IfOk result (λ c. length row.now ≡ 4 → row.now ≡ column_values c) }
    ensures bad { IfErr result (λ e. length row.now ≡ 4 → AreUnreadColumns row.now e) }
{
    let serial = column(row, 0, BadRow::Serial)?;
    let version = version_in(row)?;
    let image = column(row, 2, BadRow::Program)?;
    let vars = vars_in(row)?;
    Ok(Columns {
        serial,
        version,
        image,
        vars,
    })
}

// Reads the second column: a number, or NULL as `None`. Returns the reason `BadRow::Version` if its
// value is neither.
fn version_in(row: &Row) -> Result<Option<u64>, Unread>
    ensures ok { IfOk result (λ v. column row.now 1 ≡ or_null (λ n. Int (pos n)) v) }
    ensures bad { IfErr result (λ e. length row.now ≡ 4 → AreUnreadColumns row.now e) }
{
    column(row, 1, BadRow::Version)
}

// Reads the fourth column: a blob, or NULL as `None`. Returns the reason `BadRow::Program` if its
// value is neither, and `Unread::Memory` if memory can't be allocated.
fn vars_in(row: &Row) -> Result<Option<Vec<u8>>, Unread>
    ensures ok { IfOk result (λ v. column row.now 3 ≡ or_null (λ b. Blob b.items) v) }
    ensures bad { IfErr result (λ e. length row.now ≡ 4 → AreUnreadColumns row.now e) }
{
    column(row, 3, BadRow::Program)
}

// Reads the column at the index `at`. Returns the reason `bad` if the column's value isn't of the
// type `T`, and `Unread::Memory` if memory can't be allocated.
fn column<T: FromSql>(row: &Row, at: usize, bad: BadRow) -> Result<T, Unread>
    ensures ok { IfOk result (λ x. T.FromSql.reads_as (column row.now at) x) }
    ensures bad { IfErr result (IsUnreadColumn T.FromSql.is_readable row.now at bad) }
{
    match row.get::<T>(at) {
        Ok(value) => Ok(value),
        Err(Error::SqliteFailure(ErrorCode::OutOfMemory)) => Err(Unread::Memory),
        Err(_) => Err(Unread::Bad(bad)),
    }
}

// Returns the slot of these columns. Returns `BadRow::Program` if some of the version, the image
// and the variables are NULL and some aren't. Returns `BadRow::Version` if the version is above the
// serial.
fn slot_in(columns: Columns) -> Result<StoredSlot, BadRow>
    ensures ok { IfOk result (λ s. (column_values columns ≡ state_values s) × IsSlotState s) }
    ensures bad { IfErr result (λ why. IsBadRow why (column_values columns)) }
{
    let Columns {
        serial,
        version,
        image,
        vars,
    } = columns;
    match (version, image, vars) {
        (Some(version), Some(image), Some(vars)) => slot_of(serial, version, image, vars),
        (None, None, None) => Ok(StoredSlot {
            serial,
            program: None,
        }),
        _ => Err(BadRow::Program),
    }
}

// Returns the slot with this program, or `BadRow::Version` if the version is above the serial.
fn slot_of(serial: u64, version: u64, image: Vec<u8>, vars: Vec<u8>) -> Result<StoredSlot, BadRow>
    ensures ok { IfOk result (λ s. (version ≤ serial) × (s ≡ slot_with serial version image.items vars.items)) }
    ensures bad { IfErr result (λ why. (why ≡ BadRow.Version) × (serial < version)) }
{
    if version > serial {
        return Err(BadRow::Version);
    }
    Ok(StoredSlot {
        serial,
        program: Some(StoredProgram {
            version,
            image,
            vars,
        }),
    })
}
