//! The queries, each in a transaction of its own that writes nothing.
ghost use Rattle.std.specs.Prelude.{◌≡◌, None, Some, IsTrue, IsOk, IfOk, OnOk};
ghost use Rattle.std.specs.Prelude.{IfSome, option_map};
ghost use Rattle.std.specs.Option.{option_copied};
ghost use Rattle.sqlite_value.specs.Order.{column};
ghost use Rattle.sqlite.specs.State.{Shown};
ghost use Rattle.sqlite.specs.Held.{state};
ghost use Rattle.sqlite.specs.Given.{IsPlain};
ghost use Rattle.sqlite.specs.Listing.{understood};
ghost use Rattle.sqlite.specs.Values.{bound};
ghost use Rattle.acct_book.specs.Content.{key_of, kept_balance};
ghost use Rattle.acct_book.specs.Walk.{IsNextRow, IsNextBalance, IsNextTopUp};
ghost use Rattle.acct_sql_tables.specs.Tables.{book_schema};
ghost use Rattle.acct_sql_tables.specs.Columns.{session_in_columns, topup_in_columns};
ghost use Rattle.acct_sql_tables.specs.Book.{content_at, is_sound_at, is_open_at};
ghost use Rattle.acct_sql_tables.specs.inner.Columns.{account_in_columns};
ghost use Rattle.acct_sql_tables.specs.inner.Inside.{HoldsBook, HasMade, RunsInside, HasFinished};
ghost use Rattle.acct_sql_tables.specs.inner.Inside.{HasPlanOf};
ghost use Rattle.acct_sql_tables.specs.inner.AtRest.{IsAtRest, ReadsAtRest, HasShown, HasFirst};
ghost use Rattle.acct_sql_tables.specs.inner.AtRest.{HasFirstSession, HasPlan, plans_at};

use crate::columns::{account_at, balance_at, plan_class_at, session_at, topup_at};
use crate::refused::Refused;
use crate::statements::{
    ACCOUNT_AFTER, BALANCE_OF_ACCOUNT, FIRST_ACCOUNT, FIRST_SESSION, FIRST_TOPUP,
    LATER_SESSION_OF_CLIENT, PLAN_OF_SESSION, SCHEMA_NUMBER, SESSION_OF_KEY,
    SESSION_OF_LATER_CLIENT, TOPUP_AFTER, TOPUP_OF_NUMBER,
};
use acct_book::{Key, Row};
use acct_model::{Octets, TopUp};
use sqlite::types::ValueRef;
use sqlite::{Alter, Connection, Transaction, params};
use std::alloc::Global;

fn look<S: Alter>(
    tx: &mut Transaction<'_, S>,
    sql: &str,
    params: &[ValueRef<'_>],
) -> Result<Vec<sqlite::Row>, Refused>
    requires book { HoldsBook S.Store tx.old.conn.now }
    requires inside { IsTrue (state S.Store tx.old.conn.now).in_transaction }
    requires plain { IsPlain (understood book_schema sql.now) }
    ensures looks { RunsInside S.Store tx.old.conn tx.new.conn (HasMade (λ c. c)) result }
    ensures stays { is_sound_at S.Store tx.new.conn.now → OnOk result
        ((state S.Store tx.new.conn.now).now ≡ (state S.Store tx.old.conn.now).now) }
    ensures shown { is_sound_at S.Store tx.new.conn.now
        → IfOk result (λ rows. Shown sql.now (bound params.now) (state S.Store tx.old.conn.now)
        (state S.Store tx.new.conn.now) rows.items) }
{
    Ok(tx.query_all(sql, params)?)
}

fn finish_rows<S: Alter>(
    tx: Transaction<'_, S>,
    done: Result<Vec<sqlite::Row>, Refused>,
) -> Result<Vec<sqlite::Row>, Refused>
    ensures finished { HasFinished done (state S.Store tx.entry.conn.now)
        (state S.Store tx.exit.0.now) result }
    ensures same { OnOk result (result ≡ done) }
{
    match done {
        Ok(rows) => {
            tx.commit()?;
            Ok(rows)
        }
        Err(refused) => Err(refused),
    }
}

/// What a query shows, in a transaction of its own.
pub fn ask<S: Alter>(
    conn: &mut Connection<S>,
    sql: &str,
    params: &[ValueRef<'_>],
) -> Result<Vec<sqlite::Row>, Refused>
    requires resting { IsAtRest S.Store conn.old }
    requires plain { IsPlain (understood book_schema sql.now) }
    ensures read { ReadsAtRest S.Store conn.old conn.new result }
    ensures shown { is_sound_at S.Store conn.new
        → IfOk result (λ rows. HasShown S.Store conn.old sql.now (bound params.now) rows.items) }
{
    let mut tx = conn.transaction();
    let rows = look(&mut tx, sql, params);
    finish_rows(tx, rows)
}

/// Whether the book is open, by the query for its schema number.
pub fn check_open<S: Alter>(conn: &mut Connection<S>) -> Result<(), Refused>
    requires { IsAtRest S.Store conn.old }
    ensures { ReadsAtRest S.Store conn.old conn.new result }
{
    match ask(conn, SCHEMA_NUMBER, &[]) {
        Ok(_) => Ok(()),
        Err(refused) => Err(refused),
    }
}

// The class of the plan of a session that the table `session` shows. If none is kept, the session
// is refused.
fn plan_of_session<S: Alter>(conn: &mut Connection<S>, row: &Row) -> Result<Octets, Refused>
    requires { IsAtRest S.Store conn.old }
    ensures read { ReadsAtRest S.Store conn.old conn.new result }
    ensures found { is_open_at S.Store conn.new → IfOk result
        (λ class. plans_at S.Store conn.old (key_of row.now) ≡ Some class) }
{
    let rows = ask(
        conn,
        PLAN_OF_SESSION,
        params![row.client.as_str(), row.session.as_slice()],
    )?;
    match rows.first() {
        None => Err(Refused),
        Some(columns) => plan_class_at(columns),
    }
}

/// The session of a row of the table, with its plan.
pub fn session_with_plan<S: Alter>(
    alloc: Global,
    conn: &mut Connection<S>,
    columns: &sqlite::Row,
) -> Result<Row, Refused>
    requires { IsAtRest S.Store conn.old }
    ensures read { ReadsAtRest S.Store conn.old conn.new result }
    ensures found { is_open_at S.Store conn.new → IfOk result
        (HasPlan (plans_at S.Store conn.old) (session_in_columns (column columns.now))) }
    ensures plan { is_open_at S.Store conn.new → IfOk result
        (λ row. HasPlanOf row (state S.Store conn.old)) }
{
    let mut row = session_at(alloc, columns)?;
    row.plan = plan_of_session(conn, &row)?;
    Ok(row)
}

// The session of the first row that a query shows.
fn first_session<S: Alter>(
    alloc: Global,
    conn: &mut Connection<S>,
    sql: &str,
    params: &[ValueRef<'_>],
) -> Result<Option<Row>, Refused>
    requires resting { IsAtRest S.Store conn.old }
    requires plain { IsPlain (understood book_schema sql.now) }
    ensures read { ReadsAtRest S.Store conn.old conn.new result }
    ensures first { is_open_at S.Store conn.new
        → IfOk result (HasFirstSession S.Store conn.old sql.now (bound params.now)) }
    ensures plan { is_open_at S.Store conn.new → IfOk result
        (λ row. IfSome row (λ r. HasPlanOf r (state S.Store conn.old))) }
{
    let rows = ask(conn, sql, params)?;
    match rows.first() {
        None => Ok(None),
        Some(columns) => Ok(Some(session_with_plan(alloc, conn, columns)?)),
    }
}

// The top-up of the first row that a query shows.
fn first_topup<S: Alter>(
    alloc: Global,
    conn: &mut Connection<S>,
    sql: &str,
    params: &[ValueRef<'_>],
) -> Result<Option<TopUp>, Refused>
    requires resting { IsAtRest S.Store conn.old }
    requires plain { IsPlain (understood book_schema sql.now) }
    ensures read { ReadsAtRest S.Store conn.old conn.new result }
    ensures first { is_sound_at S.Store conn.new
        → IfOk result (HasFirst S.Store conn.old sql.now (bound params.now)
        (λ r. topup_in_columns (column r))) }
{
    let rows = ask(conn, sql, params)?;
    match rows.first() {
        None => Ok(None),
        Some(row) => Ok(Some(topup_at(alloc, row)?)),
    }
}

// The account of the first row that a query shows, with its balance.
fn first_account<S: Alter>(
    conn: &mut Connection<S>,
    sql: &str,
    params: &[ValueRef<'_>],
) -> Result<Option<(Vec<u8>, i64)>, Refused>
    requires resting { IsAtRest S.Store conn.old }
    requires plain { IsPlain (understood book_schema sql.now) }
    ensures read { ReadsAtRest S.Store conn.old conn.new result }
    ensures first { is_sound_at S.Store conn.new
        → IfOk result (λ kept. HasFirst S.Store conn.old sql.now (bound params.now)
        (λ r. account_in_columns (column r)) (option_map (λ k. (k.0.items, k.1)) kept)) }
{
    let rows = ask(conn, sql, params)?;
    match rows.first() {
        None => Ok(None),
        Some(row) => Ok(Some(account_at(row)?)),
    }
}

/// The row of a session.
pub fn read_session<S: Alter>(
    alloc: Global,
    conn: &mut Connection<S>,
    key: &Key,
) -> Result<Option<Row>, Refused>
    requires { IsAtRest S.Store conn.old }
    ensures read { ReadsAtRest S.Store conn.old conn.new result }
    ensures found { is_open_at S.Store conn.new → IfOk result
        (λ row. row ≡ (content_at S.Store conn.old).rows key.now) }
    ensures plan { is_open_at S.Store conn.new → IfOk result
        (λ row. IfSome row (λ r. HasPlanOf r (state S.Store conn.old))) }
{
    first_session(
        alloc,
        conn,
        SESSION_OF_KEY,
        params![key.client.as_str(), key.session.as_slice()],
    )
}

/// The balance of an account, 0 if none is kept.
pub fn read_balance<S: Alter>(conn: &mut Connection<S>, account: &[u8]) -> Result<i64, Refused>
    requires { IsAtRest S.Store conn.old }
    ensures read { ReadsAtRest S.Store conn.old conn.new result }
    ensures found { is_open_at S.Store conn.new → IfOk result
        (λ balance. balance ≡ kept_balance (content_at S.Store conn.old) account.now) }
{
    let rows = ask(conn, BALANCE_OF_ACCOUNT, params![account])?;
    match rows.first() {
        None => Ok(0),
        Some(row) => balance_at(row),
    }
}

/// The top-up that is kept by a number.
pub fn read_voucher<S: Alter>(
    alloc: Global,
    conn: &mut Connection<S>,
    number: &str,
) -> Result<Option<TopUp>, Refused>
    requires { IsAtRest S.Store conn.old }
    ensures read { ReadsAtRest S.Store conn.old conn.new result }
    ensures found { is_open_at S.Store conn.new → IfOk result
        (λ topup. topup ≡ (content_at S.Store conn.old).topups number.now) }
{
    first_topup(alloc, conn, TOPUP_OF_NUMBER, params![number])
}

/// The row at the least key after the given one, or at the least of all.
pub fn read_next_session<S: Alter>(
    alloc: Global,
    conn: &mut Connection<S>,
    after: Option<&Key>,
) -> Result<Option<Row>, Refused>
    requires { IsAtRest S.Store conn.old }
    ensures read { ReadsAtRest S.Store conn.old conn.new result }
    ensures found { is_open_at S.Store conn.new → IfOk result
        (IsNextRow (content_at S.Store conn.old) (option_copied after.entry)) }
{
    match after {
        None => first_session(alloc, conn, FIRST_SESSION, &[]),
        Some(key) => session_after(alloc, conn, key),
    }
}

// It reads the same client's later sessions first, and then those of later clients.
fn session_after<S: Alter>(
    alloc: Global,
    conn: &mut Connection<S>,
    key: &Key,
) -> Result<Option<Row>, Refused>
    requires { IsAtRest S.Store conn.old }
    ensures read { ReadsAtRest S.Store conn.old conn.new result }
    ensures found { is_open_at S.Store conn.new → IfOk result
        (IsNextRow (content_at S.Store conn.old) (Some key.now)) }
{
    let client = key.client.as_str();
    let row = first_session(
        alloc,
        conn,
        LATER_SESSION_OF_CLIENT,
        params![client, key.session.as_slice()],
    )?;
    match row {
        Some(row) => Ok(Some(row)),
        None => first_session(alloc, conn, SESSION_OF_LATER_CLIENT, params![client]),
    }
}

/// The least account after the given one, or the least of all, with its balance.
pub fn read_next_account<S: Alter>(
    conn: &mut Connection<S>,
    after: Option<&[u8]>,
) -> Result<Option<(Vec<u8>, i64)>, Refused>
    requires { IsAtRest S.Store conn.old }
    ensures read { ReadsAtRest S.Store conn.old conn.new result }
    ensures found { is_open_at S.Store conn.new → IfOk result
        (λ kept. IsNextBalance (content_at S.Store conn.old) (option_copied after.entry)
        (option_map (λ k. (k.0.items, k.1)) kept)) }
{
    match after {
        None => first_account(conn, FIRST_ACCOUNT, &[]),
        Some(name) => first_account(conn, ACCOUNT_AFTER, params![name]),
    }
}

/// The top-up at the least number after the given one, or at the least of all.
pub fn read_next_topup<S: Alter>(
    alloc: Global,
    conn: &mut Connection<S>,
    after: Option<&str>,
) -> Result<Option<TopUp>, Refused>
    requires { IsAtRest S.Store conn.old }
    ensures read { ReadsAtRest S.Store conn.old conn.new result }
    ensures found { is_open_at S.Store conn.new → IfOk result
        (IsNextTopUp (content_at S.Store conn.old) (option_copied after.entry)) }
{
    match after {
        None => first_topup(alloc, conn, FIRST_TOPUP, &[]),
        Some(number) => first_topup(alloc, conn, TOPUP_AFTER, params![number]),
    }
}
