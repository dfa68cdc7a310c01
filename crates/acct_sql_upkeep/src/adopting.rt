//! Whether a database is a book, by queries that change nothing.
ghost use Rattle.std.specs.Prelude.{◌≡◌, ◌≢◌, ◌↔◌, ℤ, pos, [], IsTrue, IfOk, IfErr, OnOk};
ghost use Rattle.std.specs.Prelude.{List, MatchOption};
ghost use Rattle.std.specs.List.{AllByRecursion};
ghost use Rattle.sqlite.specs.State.{Shown};
ghost use Rattle.sqlite.specs.Held.{state};
ghost use Rattle.sqlite.specs.Given.{IsPlain};
ghost use Rattle.sqlite.specs.Listing.{understood};
ghost use Rattle.sqlite_value.specs.Order.{column};
ghost use Rattle.sqlite_value.specs.Value.{owned};
ghost use Rattle.sqlite_value.specs.declared.value.Value.TheVariants.{Int, Blob};
ghost use Rattle.acct_model.specs.declared.plan.Plan.{Plan};
ghost use Rattle.acct_sql_tables.specs.Tables.{book_schema, own_number};
ghost use Rattle.acct_sql_tables.specs.Book.{is_sound_at};
ghost use Rattle.acct_sql_tables.specs.Make.{KeepsPlans, KeepsPrices, KeepsCounts};
ghost use Rattle.acct_sql_tables.specs.Look.{IsIdle, LooksAtTables, HasNumberAlone, IsRefusedAs};
ghost use Rattle.acct_sql_tables.specs.inner.Looked.{IsIdleBook, IsIdleKnown, IsBookWith};
ghost use Rattle.acct_sql_tables.specs.inner.Looked.{HasRowsOf};
ghost use Rattle.acct_sql_tables.specs.inner.Looked.{IsIdleCounting};
ghost use Rattle.acct_sql_tables.specs.inner.Looked.{tables_at, IsNumberFault, IsUnknownFault};
ghost use Rattle.acct_sql_tables.specs.inner.Looked.{Peeks, Examines, ShowsPlan, ShowsCount, Says};
ghost use Rattle.acct_sql_tables.specs.inner.Looked.{IsShownIn, IsPlanIn};
ghost use Rattle.acct_sql_tables.specs.inner.Looked.{AreShown, IsSchemaNumber, IsSchemaNumberFault};
ghost use Rattle.acct_sql_tables.specs.inner.Looked.{IsPlanFault, is_failure};

use acct_model::{Plan, Plans};
use acct_sql_tables::book_schema::is_book_schema;
use acct_sql_tables::cells::{has_blob, has_count, id_of};
use acct_sql_tables::columns::mode_of;
use acct_sql_tables::plan_table::PlanTable;
use acct_sql_tables::rowids::check_rowids;
use acct_sql_tables::sql_book_error::SqlBookError;
use acct_sql_tables::statements::{PLAN_COUNTS, PLANS, SCHEMA_NUMBER};
use sqlite::types::ValueRef;
use sqlite::{Alter, Connection, Error, ErrorCode};

/// The schema number of a book.
pub(crate) const OWN_NUMBER: i64 = 3;

/// What a query shows of the tables of a database.
pub(crate) fn peek<S: Alter>(
    conn: &mut Connection<S>,
    sql: &str,
) -> Result<Vec<sqlite::Row>, SqlBookError>
    requires idle { IsIdle (state S.Store conn.old) }
    requires plain { is_sound_at S.Store conn.old
        → IsPlain (understood (tables_at S.Store conn.old).schema sql.now) }
    ensures looks { Peeks S.Store conn.old conn.new result }
    ensures shown { is_sound_at S.Store conn.new
        → IfOk result (λ rows. Shown sql.now [] (state S.Store conn.old) (state S.Store conn.new)
        rows.items) }
    ensures fault { IfErr result (λ e. e ≡ SqlBookError.Unavailable) }
{
    match conn.query_all(sql, &[]) {
        Ok(rows) => Ok(rows),
        Err(_) => Err(SqlBookError::Unavailable),
    }
}

/// Whether a database is the book of these plans, by the tests in their order.
pub fn examine<S: Alter>(conn: &mut Connection<S>, plans: &Plans) -> Result<(), SqlBookError>
    requires { IsIdle (state S.Store conn.old) }
    ensures looks { Peeks S.Store conn.old conn.new result }
    ensures adopted { is_sound_at S.Store conn.new
        → OnOk result (IsBookWith plans.now (tables_at S.Store conn.new)) }
    ensures refused { is_sound_at S.Store conn.new
        → IfErr result (IsRefusedAs plans.now (tables_at S.Store conn.old)) }
{
    if is_book_schema(conn.schema()) {
        examine_book(conn, plans.list())
    } else {
        Err(fault_of_other(conn, OWN_NUMBER))
    }
}

/// Whether a database with the tables of a book is the book of these plans.
pub(crate) fn examine_book<S: Alter>(
    conn: &mut Connection<S>,
    plans: &[Plan],
) -> Result<(), SqlBookError>
    requires { IsIdleBook S.Store conn.old }
    ensures rows { Examines S.Store conn.old conn.new (HasRowsOf plans.now) result }
    ensures refused { is_sound_at S.Store conn.new
        → IfErr result (IsRefusedAs plans.now (tables_at S.Store conn.old)) }
{
    check_number(conn, OWN_NUMBER)?;
    check_plans(conn, plans)?;
    check_rowids(conn)
}

/// Refuses another schema number than the wanted one, and tables that have none.
pub(crate) fn check_number<S: Alter>(
    conn: &mut Connection<S>,
    wanted: i64,
) -> Result<(), SqlBookError>
    requires { IsIdleKnown S.Store conn.old }
    ensures number { Examines S.Store conn.old conn.new (HasNumberAlone wanted) result }
    ensures refused { is_sound_at S.Store conn.new
        → IfErr result (IsNumberFault wanted (tables_at S.Store conn.old).trees) }
{
    let rows = peek(conn, SCHEMA_NUMBER)?;
    judge_number(&rows, wanted)
}

// Judges the answer of the query for the schema number: one row, which has this number.
fn judge_number(rows: &[sqlite::Row], wanted: i64) -> Result<(), SqlBookError>
    ensures ok { OnOk result (IsSchemaNumber wanted rows.now) }
    ensures err { IfErr result (IsSchemaNumberFault wanted rows.now) }
{
    let [row] = rows else {
        return Err(fault_of_many(rows));
    };
    match id_of(row) {
        Some(number) if number == wanted => Ok(()),
        Some(number) => Err(SqlBookError::WrongSchema(number)),
        None => Err(SqlBookError::NotABook),
    }
}

// Why an answer that isn't one row is refused.
fn fault_of_many(rows: &[sqlite::Row]) -> SqlBookError
    ensures { (wanted : ℤ) → IsSchemaNumberFault wanted rows.now result }
{
    if rows.is_empty() {
        SqlBookError::NotABook
    } else {
        SqlBookError::Unavailable
    }
}

/// Refuses a book, be it one of schema number 2, that was made with other plans.
pub(crate) fn check_plans<S: Alter>(
    conn: &mut Connection<S>,
    plans: &[Plan],
) -> Result<(), SqlBookError>
    requires { IsIdleCounting S.Store conn.old }
    ensures plans { Examines S.Store conn.old conn.new (KeepsPlans plans.now) result }
    ensures fault { is_sound_at S.Store conn.new → IfErr result
        (IsPlanFault (KeepsPlans plans.now (tables_at S.Store conn.old).trees)) }
{
    check_prices(conn, plans)?;
    check_counts(conn, plans)
}

/// Refuses a book, be it an older one, whose plans have other blocks or units than these.
pub(crate) fn check_prices<S: Alter>(
    conn: &mut Connection<S>,
    plans: &[Plan],
) -> Result<(), SqlBookError>
    requires { IsIdleKnown S.Store conn.old }
    ensures prices { Examines S.Store conn.old conn.new (KeepsPrices plans.now) result }
    ensures fault { is_sound_at S.Store conn.new → IfErr result
        (IsPlanFault (KeepsPrices plans.now (tables_at S.Store conn.old).trees)) }
{
    let rows = peek(conn, PLANS)?;
    if are_kept(PlanTable::Prices, plans, &rows) {
        Ok(())
    } else {
        Err(SqlBookError::PlansDiffer)
    }
}

fn check_counts<S: Alter>(conn: &mut Connection<S>, plans: &[Plan]) -> Result<(), SqlBookError>
    requires { IsIdleCounting S.Store conn.old }
    ensures counts { Examines S.Store conn.old conn.new (KeepsCounts plans.now) result }
    ensures fault { is_sound_at S.Store conn.new → IfErr result
        (IsPlanFault (KeepsCounts plans.now (tables_at S.Store conn.old).trees)) }
{
    let rows = peek(conn, PLAN_COUNTS)?;
    if are_kept(PlanTable::Counts, plans, &rows) {
        Ok(())
    } else {
        Err(SqlBookError::PlansDiffer)
    }
}

/// Why a database with other tables than those of the wanted schema number is refused: it has
/// another number, or none.
pub(crate) fn fault_of_other<S: Alter>(conn: &mut Connection<S>, wanted: i64) -> SqlBookError
    requires { IsIdle (state S.Store conn.old) }
    ensures looks { LooksAtTables (state S.Store conn.old) (state S.Store conn.new) }
    ensures fault { IsUnknownFault wanted result }
{
    match glance(conn) {
        Err(error) if is_failure(&error) => SqlBookError::Unavailable,
        Err(_) => SqlBookError::NotABook,
        Ok(rows) => match judge_number(&rows, wanted) {
            Err(SqlBookError::WrongSchema(number)) => SqlBookError::WrongSchema(number),
            _ => SqlBookError::NotABook,
        },
    }
}

// What the query for the schema number shows under any tables. What it might do is rolled back.
fn glance<S: Alter>(conn: &mut Connection<S>) -> Result<Vec<sqlite::Row>, Error>
    requires { IsIdle (state S.Store conn.old) }
    ensures { LooksAtTables (state S.Store conn.old) (state S.Store conn.new) }
{
    let mut tx = conn.transaction();
    tx.query_all(SCHEMA_NUMBER, &[])
}

// The store or an allocation failed, or the limit on steps was reached.
fn is_failure(error: &Error) -> bool
    ensures { result ≡ is_failure error.now }
{
    matches!(
        error,
        Error::SqliteFailure(
            ErrorCode::OutOfMemory
                | ErrorCode::SystemIoFailure
                | ErrorCode::DatabaseCorrupt
                | ErrorCode::DiskFull
                | ErrorCode::Closed
                | ErrorCode::TooBig
                | ErrorCode::OperationInterrupted
        )
    )
}

// The rows show these plans and nothing else.
fn are_kept(table: PlanTable, plans: &[Plan], rows: &[sqlite::Row]) -> bool
    ensures { IsTrue result ↔ AreShown table plans.now rows.now }
{
    are_shown(table, plans, rows) && are_plans(table, rows, plans)
}

// Each plan is shown by a row.
fn are_shown(table: PlanTable, plans: &[Plan], rows: &[sqlite::Row]) -> bool
    ensures { IsTrue result ↔ AllByRecursion (IsShownIn table rows.now) plans.now }
{
    for plan in plans {
        if !is_shown(table, plan, rows) {
            return false;
        }
    }
    true
}

/// Whether a row shows a plan.
pub(crate) fn is_shown(table: PlanTable, plan: &Plan, rows: &[sqlite::Row]) -> bool
    ensures { IsTrue result ↔ IsShownIn table rows.now plan.now }
{
    for row in rows {
        if says(table, row, plan) {
            return true;
        }
    }
    false
}

/// Whether each row shows a plan.
pub(crate) fn are_plans(table: PlanTable, rows: &[sqlite::Row], plans: &[Plan]) -> bool
    ensures { IsTrue result ↔ AllByRecursion (IsPlanIn table plans.now) rows.now }
{
    for row in rows {
        if !is_plan(table, row, plans) {
            return false;
        }
    }
    true
}

fn is_plan(table: PlanTable, row: &sqlite::Row, plans: &[Plan]) -> bool
    ensures { IsTrue result ↔ IsPlanIn table plans.now row.now }
{
    for plan in plans {
        if says(table, row, plan) {
            return true;
        }
    }
    false
}

// A row says of the plan what its table says of plans.
fn says(table: PlanTable, row: &sqlite::Row, plan: &Plan) -> bool
    ensures { IsTrue result ↔ Says table plan.now row.now }
{
    match table {
        PlanTable::Prices => shows_plan(row, plan),
        PlanTable::Counts => shows_count(row, plan),
    }
}

fn shows_count(row: &sqlite::Row, plan: &Plan) -> bool
    ensures { IsTrue result ↔ ShowsCount plan.now row.now }
{
    has_blob(row, plan.class.as_slice()) && has_count(row, 1, mode_of(plan.count))
}

fn shows_plan(row: &sqlite::Row, plan: &Plan) -> bool
    ensures { IsTrue result ↔ ShowsPlan plan.now row.now }
{
    has_blob(row, plan.class.as_slice())
        && has_count(row, 1, plan.block)
        && has_count(row, 2, plan.unit)
}
