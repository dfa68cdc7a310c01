//! The statements that write, each in a transaction.
ghost use Rattle.std.specs.Prelude.{IsTrue, ◌∷◌, []};
ghost use Rattle.sqlite.specs.Held.{state};
ghost use Rattle.sqlite.specs.Values.{bound};
ghost use Rattle.acct_book.specs.Content.{key_of, with_session, with_topup, with_closed};
ghost use Rattle.acct_book.specs.Content.{with_forward};
ghost use Rattle.acct_sql_tables.specs.inner.Inside.{HoldsBook, HasMade, HasPut, RunsInside};
ghost use Rattle.acct_sql_tables.specs.inner.Inside.{HasFinished};
ghost use Rattle.acct_sql_tables.specs.Book.{is_open_at, content_at};
ghost use Rattle.acct_sql_tables.specs.Content.{without_plan};
ghost use Rattle.acct_sql_tables.specs.inner.Inside.{with_row, with_balance, with_voucher};
ghost use Rattle.acct_sql_tables.specs.inner.Inside.{HasMadeBare, HasPlanOf, HasSetPlan, Holds};
ghost use Rattle.acct_sql_tables.specs.inner.Inside.{HasRemovedPlan, HasRemoved, without_rows};
ghost use Rattle.acct_sql_tables.specs.inner.AtRest.{IsAtRest, WritesAtRest};
ghost use Rattle.acct_sql.specs.inner.Remembered.{HasEnded};

use acct_book::{Key, Row};
use acct_model::TopUp;
use acct_sql_tables::cells::has_blob;
use acct_sql_tables::columns::{session_plan_values, session_values, topup_values};
use acct_sql_tables::ending::finish;
use acct_sql_tables::queries::check_open;
use acct_sql_tables::refused::Refused;
use acct_sql_tables::session_classes::show;
use acct_sql_tables::statements::{
    CLOSE_SESSIONS_OF_CLIENT, NEW_BALANCE, NEW_SESSION, NEW_SESSION_PLAN, NEW_TOPUP,
    PLAN_OF_SESSION, REMOVE_SESSION, REMOVE_SESSION_PLAN, SET_BALANCE, SET_SESSION,
    SET_SESSION_PLAN, SET_TOPUP,
};
use sqlite::types::ValueRef;
use sqlite::{Alter, Connection, Transaction, params};

// Updates the row that has the key of these values, and inserts it if there is none.
fn put<S: Alter>(
    tx: &mut Transaction<'_, S>,
    update: &str,
    insert: &str,
    values: &[ValueRef<'_>],
) -> Result<(), Refused>
    ensures { RunsInside S.Store tx.old.conn tx.new.conn
        (HasPut S.Store update.now insert.now (bound values.now)) result }
{
    let count = tx.execute(update, values)?;
    if count == 0 {
        tx.execute(insert, values)?;
    }
    Ok(())
}

// Sets the columns of a session, but for its plan.
fn set_columns<S: Alter>(tx: &mut Transaction<'_, S>, row: &Row) -> Result<(), Refused>
    requires { HoldsBook S.Store tx.old.conn.now }
    ensures { RunsInside S.Store tx.old.conn tx.new.conn
        (HasMadeBare (λ c. with_row c (without_plan row.now))) result }
{
    put(tx, SET_SESSION, NEW_SESSION, &session_values(row))
}

// Sets the plan of a session. A later report finds it kept, and then nothing is written.
fn set_plan<S: Alter>(tx: &mut Transaction<'_, S>, row: &Row) -> Result<(), Refused>
    requires book { HoldsBook S.Store tx.old.conn.now }
    requires inside { Holds S.Store (λ s. IsTrue s.in_transaction) tx.old.conn.now }
    ensures { RunsInside S.Store tx.old.conn tx.new.conn
        (HasSetPlan (key_of row.now) row.now.plan) result }
{
    let rows = show(
        tx,
        PLAN_OF_SESSION,
        params![row.client.as_str(), row.session.as_slice()],
    )?;
    let sql = match rows.first() {
        Some(columns) if has_blob(columns, row.plan.as_slice()) => return Ok(()),
        Some(_) => SET_SESSION_PLAN,
        None => NEW_SESSION_PLAN,
    };
    tx.execute(sql, &session_plan_values(row))?;
    Ok(())
}

// Sets the columns of a session, and its plan if that is not known to be kept.
fn set_row<S: Alter>(
    tx: &mut Transaction<'_, S>,
    row: &Row,
    is_planned: bool,
) -> Result<(), Refused>
    requires book { HoldsBook S.Store tx.old.conn.now }
    requires planned { IsTrue is_planned → Holds S.Store (HasPlanOf row.now) tx.old.conn.now }
    ensures { RunsInside S.Store tx.old.conn tx.new.conn
        (HasMade (λ c. with_row c row.now)) result }
{
    set_columns(tx, row)?;
    if is_planned {
        return Ok(());
    }
    set_plan(tx, row)
}

// Inserts the columns of a session, but for its plan. It fails if the session has a row.
fn new_columns<S: Alter>(tx: &mut Transaction<'_, S>, row: &Row) -> Result<(), Refused>
    requires { HoldsBook S.Store tx.old.conn.now }
    ensures { RunsInside S.Store tx.old.conn tx.new.conn
        (HasMadeBare (λ c. with_row c (without_plan row.now))) result }
{
    tx.execute(NEW_SESSION, &session_values(row))?;
    Ok(())
}

// Inserts the plan of a session. It fails if one is kept.
fn new_plan<S: Alter>(tx: &mut Transaction<'_, S>, row: &Row) -> Result<(), Refused>
    requires { HoldsBook S.Store tx.old.conn.now }
    ensures { RunsInside S.Store tx.old.conn tx.new.conn
        (HasSetPlan (key_of row.now) row.now.plan) result }
{
    tx.execute(NEW_SESSION_PLAN, &session_plan_values(row))?;
    Ok(())
}

// Inserts the columns of a session and its plan.
fn new_row<S: Alter>(tx: &mut Transaction<'_, S>, row: &Row) -> Result<(), Refused>
    requires { HoldsBook S.Store tx.old.conn.now }
    ensures { RunsInside S.Store tx.old.conn tx.new.conn
        (HasMade (λ c. with_row c row.now)) result }
{
    new_columns(tx, row)?;
    new_plan(tx, row)
}

// Sets a session by what is known of its row.
fn keep_row<S: Alter>(
    tx: &mut Transaction<'_, S>,
    row: &Row,
    is_new: bool,
    is_planned: bool,
) -> Result<(), Refused>
    requires book { HoldsBook S.Store tx.old.conn.now }
    requires planned { IsTrue is_planned → Holds S.Store (HasPlanOf row.now) tx.old.conn.now }
    ensures { RunsInside S.Store tx.old.conn tx.new.conn
        (HasMade (λ c. with_row c row.now)) result }
{
    if is_new {
        return new_row(tx, row);
    }
    set_row(tx, row, is_planned)
}

// Removes the columns of a session, but not its plan.
fn remove_columns<S: Alter>(tx: &mut Transaction<'_, S>, key: &Key) -> Result<(), Refused>
    requires { HoldsBook S.Store tx.old.conn.now }
    ensures { RunsInside S.Store tx.old.conn tx.new.conn
        (HasMadeBare (λ c. without_rows c (key.now ∷ []))) result }
{
    let values = params![key.client.as_str(), key.session.as_slice()];
    tx.execute(REMOVE_SESSION, values)?;
    Ok(())
}

fn remove_plan<S: Alter>(tx: &mut Transaction<'_, S>, key: &Key) -> Result<(), Refused>
    requires { HoldsBook S.Store tx.old.conn.now }
    ensures { RunsInside S.Store tx.old.conn tx.new.conn (HasRemovedPlan key.now) result }
{
    let values = params![key.client.as_str(), key.session.as_slice()];
    tx.execute(REMOVE_SESSION_PLAN, values)?;
    Ok(())
}

// Removes the columns of a session and its plan.
fn remove_row<S: Alter>(tx: &mut Transaction<'_, S>, key: &Key) -> Result<(), Refused>
    requires { HoldsBook S.Store tx.old.conn.now }
    ensures { RunsInside S.Store tx.old.conn tx.new.conn (HasRemoved (key.now ∷ [])) result }
{
    remove_columns(tx, key)?;
    remove_plan(tx, key)
}

// Without a key no statement runs, so nothing shows whether the database is open.
fn remove_rows<S: Alter>(tx: &mut Transaction<'_, S>, keys: &[Key]) -> Result<(), Refused>
    requires book { HoldsBook S.Store tx.old.conn.now }
    requires inside { Holds S.Store (λ s. IsTrue s.in_transaction) tx.old.conn.now }
    ensures { RunsInside S.Store tx.old.conn tx.new.conn
        (λ old new. IsTrue new.is_open → HasRemoved keys.now old new) result }
{
    for key in keys {
        remove_row(tx, key)?;
    }
    Ok(())
}

// Removes the sessions of these keys, and sets a row.
fn set_forward<S: Alter>(
    tx: &mut Transaction<'_, S>,
    gone: &[Key],
    row: &Row,
) -> Result<(), Refused>
    requires book { HoldsBook S.Store tx.old.conn.now }
    requires inside { Holds S.Store (λ s. IsTrue s.in_transaction) tx.old.conn.now }
    ensures { RunsInside S.Store tx.old.conn tx.new.conn
        (HasMade (λ c. with_forward c gone.now row.now)) result }
{
    remove_rows(tx, gone)?;
    set_row(tx, row, false)
}

fn set_balance<S: Alter>(
    tx: &mut Transaction<'_, S>,
    name: &[u8],
    balance: i64,
) -> Result<(), Refused>
    requires { HoldsBook S.Store tx.old.conn.now }
    ensures { RunsInside S.Store tx.old.conn tx.new.conn
        (HasMade (λ c. with_balance c name.now balance)) result }
{
    put(tx, SET_BALANCE, NEW_BALANCE, params![name, balance])
}

fn close_rows<S: Alter>(tx: &mut Transaction<'_, S>, client: &str) -> Result<(), Refused>
    requires { HoldsBook S.Store tx.old.conn.now }
    ensures { RunsInside S.Store tx.old.conn tx.new.conn
        (HasMade (λ c. with_closed c client.now)) result }
{
    tx.execute(CLOSE_SESSIONS_OF_CLIENT, params![client])?;
    Ok(())
}

fn set_topup<S: Alter>(tx: &mut Transaction<'_, S>, topup: &TopUp) -> Result<(), Refused>
    requires { HoldsBook S.Store tx.old.conn.now }
    ensures { RunsInside S.Store tx.old.conn tx.new.conn
        (HasMade (λ c. with_voucher c topup.now)) result }
{
    put(tx, SET_TOPUP, NEW_TOPUP, &topup_values(topup))
}

fn set_session<S: Alter>(
    tx: &mut Transaction<'_, S>,
    row: &Row,
    is_new: bool,
    is_planned: bool,
    balance: i64,
) -> Result<(), Refused>
    requires book { HoldsBook S.Store tx.old.conn.now }
    requires planned { IsTrue is_planned → Holds S.Store (HasPlanOf row.now) tx.old.conn.now }
    ensures { RunsInside S.Store tx.old.conn tx.new.conn
        (HasMade (λ c. with_session c row.now balance)) result }
{
    keep_row(tx, row, is_new, is_planned)?;
    set_balance(tx, row.account.as_slice(), balance)
}

fn set_credit<S: Alter>(
    tx: &mut Transaction<'_, S>,
    topup: &TopUp,
    balance: i64,
) -> Result<(), Refused>
    requires { HoldsBook S.Store tx.old.conn.now }
    ensures { RunsInside S.Store tx.old.conn tx.new.conn
        (HasMade (λ c. with_topup c topup.now balance)) result }
{
    set_topup(tx, topup)?;
    set_balance(tx, topup.account.as_slice(), balance)
}

/// Sets a row and the balance of its account in one transaction. A session that the caller says is
/// new is inserted, which fails if it has a row or a plan. If the session is known to have the
/// row's plan, the plan is not read.
pub(crate) fn write_session<S: Alter>(
    conn: &mut Connection<S>,
    row: &Row,
    is_new: bool,
    is_planned: bool,
    balance: i64,
) -> Result<(), Refused>
    requires resting { IsAtRest S.Store conn.old }
    requires planned { IsTrue is_planned → is_open_at S.Store conn.old
        → HasPlanOf row.now (state S.Store conn.old) }
    ensures { WritesAtRest S.Store conn.old conn.new (λ c. with_session c row.now balance) result }
{
    let mut tx = conn.transaction();
    let done = set_session(&mut tx, row, is_new, is_planned, balance);
    finish(tx, done)
}

/// Sets a top-up and the balance of its account in one transaction.
pub(crate) fn write_topup<S: Alter>(
    conn: &mut Connection<S>,
    topup: &TopUp,
    balance: i64,
) -> Result<(), Refused>
    requires { IsAtRest S.Store conn.old }
    ensures { WritesAtRest S.Store conn.old conn.new (λ c. with_topup c topup.now balance) result }
{
    let mut tx = conn.transaction();
    let done = set_credit(&mut tx, topup, balance);
    finish(tx, done)
}

/// Removes the rows under these keys and sets a row in one transaction.
pub(crate) fn write_forward<S: Alter>(
    conn: &mut Connection<S>,
    gone: &[Key],
    row: &Row,
) -> Result<(), Refused>
    requires { IsAtRest S.Store conn.old }
    ensures { WritesAtRest S.Store conn.old conn.new
        (λ c. with_forward c gone.now row.now) result }
{
    let mut tx = conn.transaction();
    let done = set_forward(&mut tx, gone, row);
    finish(tx, done)
}

/// Closes each live session of a client in one transaction. If it is known to have none, nothing is
/// written, once the book has proved to be open.
pub(crate) fn close_client<S: Alter>(
    conn: &mut Connection<S>,
    client: &str,
    has_ended: bool,
) -> Result<(), Refused>
    requires resting { IsAtRest S.Store conn.old }
    requires ended { IsTrue has_ended → is_open_at S.Store conn.old
        → HasEnded (content_at S.Store conn.old) client.now }
    ensures { WritesAtRest S.Store conn.old conn.new (λ c. with_closed c client.now) result }
{
    if has_ended {
        return check_open(conn);
    }
    close_sessions(conn, client)
}

fn close_sessions<S: Alter>(conn: &mut Connection<S>, client: &str) -> Result<(), Refused>
    requires { IsAtRest S.Store conn.old }
    ensures { WritesAtRest S.Store conn.old conn.new (λ c. with_closed c client.now) result }
{
    let mut tx = conn.transaction();
    let done = close_rows(&mut tx, client);
    finish(tx, done)
}
