//! Why a database is not the book that is wanted.
ghost use Rattle.std.specs.Prelude.{◌≡◌, ◌⊎◌};
ghost use Rattle.sqlite.specs.Held.{state};
ghost use Rattle.acct_sql_tables.specs.Look.{LooksAtTables};

use crate::plan_rows::plan_rows;
use acct_model::{Plan, show};
use acct_sql_tables::cells::{has_blob, has_count, value_at};
use acct_sql_tables::columns::mode_of;
use sqlite::types::ValueRef;
use sqlite::{Alter, Connection, Row};
use sqlite_schema::schema::Schema;
use std::alloc::Global;
use std::io::Write;

// The tables that each book has had.
const TABLES: [&[u8]; 5] = [b"meta", b"price_plan", b"account", b"voucher", b"session"];

/// Writes one line that says what is in a database that is no book. The line calls it `file`. A
/// writer that fails changes nothing.
pub fn explain_tables<S: Alter, E: Write>(conn: &Connection<S>, file: &str, errors: &mut E) {
    let why = what_has(conn.schema());
    let _ = writeln!(errors, "explained: {file}: {why}");
}

// What a database has that is no book.
fn what_has(schema: &Schema) -> &'static str {
    if schema.tables.is_empty() {
        return "it is an empty database, and init makes a book in it";
    }
    let has_all = TABLES.iter().all(|name| has_table(schema, name));
    if has_all {
        "it has the tables of a book in another form or order, as VACUUM or a dump leaves them"
    } else {
        "it has the tables of another program"
    }
}

fn has_table(schema: &Schema, name: &[u8]) -> bool {
    schema
        .tables
        .as_slice()
        .iter()
        .any(|table| table.name.as_slice() == name)
}

/// Writes one line that says which plan of a configuration differs from those that a book keeps and
/// how, or which one the configuration lacks. Writes nothing if the book cannot be read, and changes
/// nothing in it. The line calls the book `file`. A writer that fails changes nothing.
pub fn explain_plans<S: Alter, E: Write>(
    alloc: Global,
    conn: &mut Connection<S>,
    file: &str,
    plans: &[Plan],
    errors: &mut E,
)
    ensures { (conn.new ≡ conn.old)
        ⊎ LooksAtTables (state S.Store conn.old) (state S.Store conn.new) }
{
    let Some((prices, counts)) = plan_rows(conn) else {
        return;
    };
    for plan in plans {
        if let Some(how) = how_differs(plan, prices.as_slice(), counts.as_slice()) {
            tell(alloc, file, plan.class.as_slice(), how, errors);
            return;
        }
    }
    for row in prices.as_slice() {
        if let Some(class) = class_of(row) {
            if !plans.iter().any(|plan| plan.class.as_slice() == class) {
                tell(
                    alloc,
                    file,
                    class,
                    "is in the book, and not in the configuration",
                    errors,
                );
                return;
            }
        }
    }
}

// Writes one line about a plan.
fn tell<E: Write>(alloc: Global, file: &str, class: &[u8], how: &str, errors: &mut E) {
    if let Ok(class) = show(alloc, class) {
        let _ = writeln!(errors, "explained: {file}: plan {class} {how}");
    }
}

// How a plan of a configuration differs from the one that a book keeps of its class.
fn how_differs(plan: &Plan, prices: &[Row], counts: &[Row]) -> Option<&'static str> {
    let class = plan.class.as_slice();
    let Some(price) = row_of(prices, class) else {
        return Some("is in the configuration, and not in the book: `radacctd plans` adds it");
    };
    if !has_count(price, 1, plan.block) {
        return Some("has another block in the book");
    }
    if !has_count(price, 2, plan.unit) {
        return Some("has another unit in the book");
    }
    match row_of(counts, class) {
        Some(count) if has_count(count, 1, mode_of(plan.count)) => None,
        _ => Some("counts other octets in the book"),
    }
}

// The row of a class.
fn row_of<'r>(rows: &'r [Row], class: &[u8]) -> Option<&'r Row> {
    rows.iter().find(|row| has_blob(row, class))
}

// The class of a row, which is its first column.
fn class_of(row: &Row) -> Option<&[u8]> {
    match value_at(row, 0) {
        ValueRef::Blob(class) => Some(class),
        _ => None,
    }
}
