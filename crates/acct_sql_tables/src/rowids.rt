//! Rowids that tell the rows of a table apart.
ghost use Rattle.std.specs.Prelude.{◌≡◌, IfOk, IfErr, OnOk};
ghost use Rattle.sqlite.specs.Given.{IsPlain};
ghost use Rattle.sqlite.specs.Listing.{understood};
ghost use Rattle.sqlite_value.specs.Order.{column};
ghost use Rattle.sqlite_value.specs.declared.value.Value.TheVariants.{Int};
ghost use Rattle.sqlite.specs.Held.{state};
ghost use Rattle.acct_sql_tables.specs.Tidy.{IsTidy};
ghost use Rattle.acct_sql_tables.specs.Book.{is_sound_at};
ghost use Rattle.acct_sql_tables.specs.Look.{IsIdle};
ghost use Rattle.acct_sql_tables.specs.inner.Looked.{IsIdleBook, IsIdleKnown, Peeks, Examines};
ghost use Rattle.acct_sql_tables.specs.inner.Looked.{AreTidy};
ghost use Rattle.acct_sql_tables.specs.inner.Looked.{tables_at};
ghost use Rattle.acct_sql_tables.specs.inner.Migrating.{AreFirstTidy};
ghost use Rattle.acct_sql_tables.specs.inner.Rising.{IsAbove, ShowsRising, IsIdleWith, tree_of};
ghost use Rattle.acct_sql_tables.specs.inner.Rising.{rowids_of};

use crate::cells::id_of;
use crate::refused::Refused;
use crate::sql_book_error::SqlBookError;
use crate::statements::{
    ACCOUNT_ROWIDS, META_ROWIDS, SESSION_PLAN_ROWIDS, SESSION_ROWIDS, VOUCHER_ROWIDS,
};
use sqlite::{Alter, Connection};

// A table whose rowids have to tell its rows apart.
#[derive(Clone, Copy)]
enum BookTable {
    // That of the schema number.
    Meta,
    Account,
    Voucher,
    Session,
    SessionPlan,
}

/// Refuses tables in which two rows have one rowid. It reads each rowid once, and keeps one.
pub fn check_rowids<S: Alter>(conn: &mut Connection<S>) -> Result<(), SqlBookError>
    requires { IsIdleBook S.Store conn.old }
    ensures tidy { Examines S.Store conn.old conn.new AreTidy result }
    ensures fault { IfErr result (λ e. e ≡ SqlBookError.Unavailable) }
{
    check_table(conn, BookTable::Account)?;
    check_table(conn, BookTable::Voucher)?;
    check_table(conn, BookTable::Session)?;
    check_table(conn, BookTable::SessionPlan)
}

/// Refuses tables of an older book in which two rows have one rowid. The table of the schema number
/// counts too, since a migration updates it. It reads each rowid once, and keeps one.
pub fn check_first_rowids<S: Alter>(conn: &mut Connection<S>) -> Result<(), SqlBookError>
    requires { IsIdleKnown S.Store conn.old }
    ensures tidy { Examines S.Store conn.old conn.new AreFirstTidy result }
    ensures fault { IfErr result (λ e. e ≡ SqlBookError.Unavailable) }
{
    check_table(conn, BookTable::Meta)?;
    check_table(conn, BookTable::Account)?;
    check_table(conn, BookTable::Voucher)?;
    check_table(conn, BookTable::Session)
}

// Refuses a table in which two rows have one rowid.
fn check_table<S: Alter>(conn: &mut Connection<S>, table: BookTable) -> Result<(), SqlBookError>
    requires { IsIdleWith S.Store table conn.old }
    ensures tidy { Examines S.Store conn.old conn.new (λ db. IsTidy (db (tree_of table))) result }
    ensures fault { IfErr result (λ e. e ≡ SqlBookError.Unavailable) }
{
    match check_ids(conn, rowids_of(table)) {
        Ok(()) => Ok(()),
        Err(_) => Err(SqlBookError::Unavailable),
    }
}

// The query for the rowids of a table.
fn rowids_of(table: BookTable) -> &'static str
    ensures { result.now ≡ rowids_of table }
{
    match table {
        BookTable::Meta => META_ROWIDS,
        BookTable::Account => ACCOUNT_ROWIDS,
        BookTable::Voucher => VOUCHER_ROWIDS,
        BookTable::Session => SESSION_ROWIDS,
        BookTable::SessionPlan => SESSION_PLAN_ROWIDS,
    }
}

// Refuses a query whose rows do not each begin with an id above that of the row before.
fn check_ids<S: Alter>(conn: &mut Connection<S>, sql: &str) -> Result<(), Refused>
    requires idle { IsIdle (state S.Store conn.old) }
    requires plain { is_sound_at S.Store conn.old
        → IsPlain (understood (tables_at S.Store conn.old).schema sql.now) }
    ensures looks { Peeks S.Store conn.old conn.new result }
    ensures shown { is_sound_at S.Store conn.new
        → OnOk result (ShowsRising S.Store sql.now conn.old conn.new) }
{
    let mut rows = conn.query(sql, &[])?;
    let mut last: Option<i64> = None;
    // A loop needs a bound. No table has so many rows.
    for _ in 0..u64::MAX {
        let Some(row) = rows.next()? else {
            return Ok(());
        };
        last = Some(id_above(row, last)?);
    }
    Err(Refused)
}

// The id in the first column of a row, where it is above the last one.
fn id_above(row: &sqlite::Row, last: Option<i64>) -> Result<i64, Refused>
    ensures { IfOk result (λ id. (column row.now 0 ≡ Int id) × IsAbove last id) }
{
    match (id_of(row), last) {
        (Some(id), Some(last)) if last < id => Ok(id),
        (Some(id), None) => Ok(id),
        _ => Err(Refused),
    }
}
