//! Recognition of the two schemas of a database that can be opened as a store.
ghost use Rattle.std.specs.Prelude.{◌≡◌, true, []};
ghost use Rattle.fc_sql.specs.Table.{no_schema, slot_schema, slot_table, strict_column, without_rules};

use sqlite_schema::schema::{Column, Kind, Schema, Table};
use sqlite_value::keys::Collation;
use sqlite_value::value::Value;

// Returns whether the database has no table, index or view.
pub(crate) fn is_empty(schema: &Schema) -> bool
    ensures sound { result ≡ true → schema.now ≡ no_schema }
    ensures complete { schema.now ≡ no_schema → result ≡ true }
{
    schema.tables.as_slice().is_empty()
        && schema.indexes.as_slice().is_empty()
        && schema.views.as_slice().is_empty()
}

// Returns whether the database has just the table of slots.
pub(crate) fn has_slots(schema: &Schema) -> bool
    ensures sound { result ≡ true → schema.now ≡ slot_schema }
    ensures complete { schema.now ≡ slot_schema → result ≡ true }
{
    match schema.tables.as_slice() {
        [table] => schema.indexes.as_slice().is_empty()
            && schema.views.as_slice().is_empty()
            && is_slot_table(table),
        _ => false,
    }
}

// Returns whether a table is the one that `table::TABLE` creates.
fn is_slot_table(table: &Table) -> bool
    ensures sound { result ≡ true → table.now ≡ slot_table }
    ensures complete { table.now ≡ slot_table → result ≡ true }
{
    table.name.as_slice() == b"slot".as_slice()
        && table.tree == 0
        && table.key == Some(0)
        && table.primary.as_slice() == [0].as_slice()
        && !table.is_counted
        && has_slot_columns(table.columns.as_slice())
        && has_no_rules(table)
}

// Returns whether these are the columns of the table of slots.
fn has_slot_columns(columns: &[Column]) -> bool
    ensures sound { result ≡ true → columns.now ≡ slot_table.columns }
    ensures complete { columns.now ≡ slot_table.columns → result ≡ true }
{
    match columns {
        [number, serial, version, image, vars] => is_column(number, b"number", Kind::Integer, false)
            && is_column(serial, b"serial", Kind::Integer, true)
            && is_column(version, b"version", Kind::Integer, false)
            && is_column(image, b"image", Kind::Blob, false)
            && is_column(vars, b"vars", Kind::Blob, false),
        _ => false,
    }
}

// Returns whether a column has this name, type and NOT NULL, and is otherwise plain: it is strict,
// has no default, and compares bytes.
fn is_column(column: &Column, name: &[u8], kind: Kind, not_null: bool) -> bool
    ensures sound { result ≡ true → column.now ≡ strict_column name.now kind not_null }
    ensures complete { column.now ≡ strict_column name.now kind not_null → result ≡ true }
{
    column.name.as_slice() == name
        && column.kind == kind
        && column.is_strict
        && column.not_null == not_null
        && matches!(column.default, Value::Null)
        && column.collation == Collation::Binary
}

// Returns whether the table has no UNIQUE or CHECK constraint, no reference, no computed column and
// no default.
fn has_no_rules(table: &Table) -> bool
    ensures sound { result ≡ true → table.now ≡ without_rules table.now }
    ensures complete { table.now ≡ without_rules table.now → result ≡ true }
{
    table.uniques.as_slice().is_empty()
        && table.orders.as_slice().is_empty()
        && table.checks.roots.as_slice().is_empty()
        && table.references.as_slice().is_empty()
        && table.computed.as_slice().is_empty()
        && table.stamps.places.as_slice().is_empty()
        && table.stamps.terms.roots.as_slice().is_empty()
        && table.stamps.formats.as_slice().is_empty()
}
