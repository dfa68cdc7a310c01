//! Whether a database has exactly the tables and the indices of a book.
ghost use Rattle.std.specs.Prelude.{◌≡◌, ◌↔◌, None, false, [], ◌∷◌, IsTrue, map};
ghost use Rattle.sqlite_value.specs.Keys.{plain};
ghost use Rattle.acct_sql_tables.specs.Tables.{book_schema, first_schema, second_schema};
ghost use Rattle.acct_sql_tables.specs.inner.Listed.{column_said, table_said, index_said};
ghost use Rattle.acct_sql_tables.specs.inner.Listed.{schema_said};

use sqlite_items::Items;
use sqlite_schema::schema::{Column, Index, Kind, Schema, Table};
use sqlite_value::keys::{Collation, Order};
use sqlite_value::value::Value;

// The properties of a column. Each is STRICT and NOT NULL, and has no default.
struct ColumnText {
    name: &'static [u8],
    kind: Kind,
}

// The properties of a column, in a line.
macro_rules! column {
    ($name:literal, $kind:ident) => {
        ColumnText {
            name: $name,
            kind: Kind::$kind,
        }
    };
}

// The properties of a table: its name, where it is kept, its columns, and the places of those of
// its PRIMARY KEY.
struct TableText {
    name: &'static [u8],
    tree: u32,
    columns: &'static [ColumnText],
    key: &'static [usize],
}

// The properties of an index: its name, where it is kept, its table, the places of its columns, and
// whether it is unique. That of a PRIMARY KEY has SQLite's own name.
struct IndexText {
    name: &'static [u8],
    tree: u32,
    table: u32,
    columns: &'static [usize],
    is_unique: bool,
}

// The tables of a book, in the order in which they are made: those of schema number 1, and what
// numbers 2 and 3 added to them.
const TABLES: [TableText; 7] = [
    TableText {
        name: b"meta",
        tree: 0,
        columns: &[column!(b"name", Text), column!(b"value", Integer)],
        key: &[1],
    },
    TableText {
        name: b"price_plan",
        tree: 2,
        columns: &[
            column!(b"class", Blob),
            column!(b"block", Integer),
            column!(b"unit", Integer),
        ],
        key: &[1],
    },
    TableText {
        name: b"account",
        tree: 4,
        columns: &[column!(b"name", Blob), column!(b"balance", Integer)],
        key: &[1],
    },
    TableText {
        name: b"voucher",
        tree: 6,
        columns: &[
            column!(b"number", Text),
            column!(b"account", Blob),
            column!(b"amount", Integer),
            column!(b"moment", Integer),
        ],
        key: &[1],
    },
    TableText {
        name: b"session",
        tree: 8,
        columns: &[
            column!(b"client", Text),
            column!(b"id", Blob),
            column!(b"account", Blob),
            column!(b"class", Blob),
            column!(b"input", Integer),
            column!(b"output", Integer),
            column!(b"seconds", Integer),
            column!(b"first_seen", Integer),
            column!(b"last_seen", Integer),
            column!(b"state", Integer),
            column!(b"cause", Integer),
            column!(b"calling", Blob),
            column!(b"framed", Blob),
        ],
        key: &[1, 2],
    },
    TableText {
        name: b"plan_count",
        tree: 12,
        columns: &[column!(b"class", Blob), column!(b"mode", Integer)],
        key: &[1],
    },
    TableText {
        name: b"session_plan",
        tree: 14,
        columns: &[
            column!(b"client", Text),
            column!(b"id", Blob),
            column!(b"plan_class", Blob),
        ],
        key: &[1, 2],
    },
];

// The indices of a book, in the order in which they are made.
const INDEXES: [IndexText; 9] = [
    IndexText {
        name: b"sqlite_autoindex_meta_1",
        tree: 1,
        table: 0,
        columns: &[1],
        is_unique: true,
    },
    IndexText {
        name: b"sqlite_autoindex_price_plan_1",
        tree: 3,
        table: 2,
        columns: &[1],
        is_unique: true,
    },
    IndexText {
        name: b"sqlite_autoindex_account_1",
        tree: 5,
        table: 4,
        columns: &[1],
        is_unique: true,
    },
    IndexText {
        name: b"sqlite_autoindex_voucher_1",
        tree: 7,
        table: 6,
        columns: &[1],
        is_unique: true,
    },
    IndexText {
        name: b"sqlite_autoindex_session_1",
        tree: 9,
        table: 8,
        columns: &[1, 2],
        is_unique: true,
    },
    IndexText {
        name: b"session_account",
        tree: 10,
        table: 8,
        columns: &[3],
        is_unique: false,
    },
    IndexText {
        name: b"voucher_account",
        tree: 11,
        table: 6,
        columns: &[2],
        is_unique: false,
    },
    IndexText {
        name: b"sqlite_autoindex_plan_count_1",
        tree: 13,
        table: 12,
        columns: &[1],
        is_unique: true,
    },
    IndexText {
        name: b"sqlite_autoindex_session_plan_1",
        tree: 15,
        table: 14,
        columns: &[1, 2],
        is_unique: true,
    },
];

/// Whether the schema is exactly that of a book.
pub fn is_book_schema(schema: &Schema) -> bool
    ensures { IsTrue result ↔ (schema.now ≡ book_schema) }
{
    is_schema(schema, &TABLES, &INDEXES)
}

/// Whether the schema is exactly that of a book of schema number 1.
pub fn is_first_schema(schema: &Schema) -> bool
    ensures { IsTrue result ↔ (schema.now ≡ first_schema) }
{
    is_schema(schema, &TABLES[..5], &INDEXES[..7])
}

/// Whether the schema is exactly that of a book of schema number 2.
pub fn is_second_schema(schema: &Schema) -> bool
    ensures { IsTrue result ↔ (schema.now ≡ second_schema) }
{
    is_schema(schema, &TABLES[..6], &INDEXES[..8])
}

fn is_schema(schema: &Schema, tables: &[TableText], indexes: &[IndexText]) -> bool
    ensures { IsTrue result ↔ (schema.now ≡ schema_said tables.now indexes.now) }
{
    schema.views.is_empty()
        && are_tables(schema.tables.as_slice(), tables)
        && are_indexes(schema.indexes.as_slice(), indexes)
}

fn are_tables(tables: &[Table], texts: &[TableText]) -> bool
    ensures only { IsTrue result → tables.now ≡ map table_said texts.now }
    ensures each { tables.now ≡ map table_said texts.now → IsTrue result }
{
    if tables.len() != texts.len() {
        return false;
    }
    for at in 0..tables.len() {
        if !is_table(&tables[at], &texts[at]) {
            return false;
        }
    }
    true
}

fn are_indexes(indexes: &[Index], texts: &[IndexText]) -> bool
    ensures only { IsTrue result → indexes.now ≡ map index_said texts.now }
    ensures each { indexes.now ≡ map index_said texts.now → IsTrue result }
{
    if indexes.len() != texts.len() {
        return false;
    }
    for at in 0..indexes.len() {
        if !is_index(&indexes[at], &texts[at]) {
            return false;
        }
    }
    true
}

fn are_columns(columns: &[Column], texts: &[ColumnText]) -> bool
    ensures only { IsTrue result → columns.now ≡ map column_said texts.now }
    ensures each { columns.now ≡ map column_said texts.now → IsTrue result }
{
    if columns.len() != texts.len() {
        return false;
    }
    for at in 0..columns.len() {
        if !is_column(&columns[at], &texts[at]) {
            return false;
        }
    }
    true
}

fn is_column(column: &Column, text: &ColumnText) -> bool
    ensures only { IsTrue result → column.now ≡ column_said text.now }
    ensures each { column.now ≡ column_said text.now → IsTrue result }
{
    column.name.as_slice() == text.name
        && column.kind == text.kind
        && column.is_strict
        && column.not_null
        && matches!(column.default, Value::Null)
        && column.collation == Collation::Binary
}

// A STRICT table of exactly its columns and its PRIMARY KEY.
fn is_table(table: &Table, text: &TableText) -> bool
    ensures only { IsTrue result → table.now ≡ table_said text.now }
    ensures each { table.now ≡ table_said text.now → IsTrue result }
{
    table.name.as_slice() == text.name
        && table.tree == text.tree
        && are_columns(table.columns.as_slice(), text.columns)
        && has_key(table, text.key)
        && has_no_more(table)
}

fn has_key(table: &Table, key: &[usize]) -> bool
    ensures row { IsTrue result → table.now.key ≡ None }
    ensures primary { IsTrue result → table.now.primary ≡ key.now }
    ensures uniques { IsTrue result → table.now.uniques ≡ key.now ∷ [] }
    ensures orders { IsTrue result → table.now.orders ≡ plain ∷ [] }
    ensures each { table.now.key ≡ None → table.now.primary ≡ key.now
        → table.now.uniques ≡ key.now ∷ [] → table.now.orders ≡ plain ∷ [] → IsTrue result }
{
    table.key.is_none()
        && table.primary.as_slice() == key
        && are_one(table.uniques.as_slice(), table.orders.as_slice(), key)
}

// The one index of a table's keys is that of its PRIMARY KEY.
fn are_one(uniques: &[Items<usize>], orders: &[Order], key: &[usize]) -> bool
    ensures uniques { IsTrue result → uniques.now ≡ key.now ∷ [] }
    ensures orders { IsTrue result → orders.now ≡ plain ∷ [] }
    ensures each { uniques.now ≡ key.now ∷ [] → orders.now ≡ plain ∷ [] → IsTrue result }
{
    let [unique] = uniques else {
        return false;
    };
    let [order] = orders else {
        return false;
    };
    unique.as_slice() == key && order.digits == 0
}

fn has_no_more(table: &Table) -> bool
    ensures checks { IsTrue result → table.now.checks ≡ [] }
    ensures references { IsTrue result → table.now.references ≡ [] }
    ensures computed { IsTrue result → table.now.computed ≡ [] }
    ensures stamps { IsTrue result → table.now.stamps ≡ record
        { places = []; terms = []; formats = [] } }
    ensures counted { IsTrue result → table.now.is_counted ≡ false }
    ensures each { table.now.checks ≡ [] → table.now.references ≡ [] → table.now.computed ≡ []
        → table.now.stamps ≡ record { places = []; terms = []; formats = [] }
        → table.now.is_counted ≡ false → IsTrue result }
{
    table.checks.roots.is_empty()
        && table.references.is_empty()
        && table.computed.is_empty()
        && table.stamps.places.is_empty()
        && table.stamps.terms.roots.is_empty()
        && table.stamps.formats.is_empty()
        && !table.is_counted
}

fn is_index(index: &Index, text: &IndexText) -> bool
    ensures only { IsTrue result → index.now ≡ index_said text.now }
    ensures each { index.now ≡ index_said text.now → IsTrue result }
{
    index.name.as_slice() == text.name
        && index.tree == text.tree
        && index.table == text.table
        && index.columns.as_slice() == text.columns
        && index.order.digits == 0
        && index.is_unique == text.is_unique
}
