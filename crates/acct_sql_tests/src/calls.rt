//! Each call of a book on tables. One allocation may fail, at any place: `rt try --test
//! --fail-alloc N`. The call that needed it is refused, does nothing, and does it all if it is made
//! again.
use crate::sample_book::{carry, key, row};
use acct_book::{Book, SessionState};
use acct_model::{Plans, TopUp};
use acct_site::plan;
use acct_sql::{SqlBook, SqlBookError};
use sqlite::{Connection, MemStore};
use std::alloc::Global;
use std::test::Fail;

type Database = Connection<MemStore>;

type Tables = SqlBook<MemStore>;

// What makes a book of a database.
#[derive(Clone, Copy)]
enum Call {
    Create,
    Adopt,
    Migrate,
    Add,
}

fn opened(
    alloc: Global,
    conn: Database,
    call: Call,
    plans: &Plans,
) -> Result<Tables, (SqlBookError, Database)> {
    if !conn.is_autocommit() {
        return Err((SqlBookError::Unavailable, conn));
    }
    match call {
        Call::Create => SqlBook::create(alloc, conn, plans),
        Call::Adopt => SqlBook::adopt(alloc, conn, plans),
        Call::Migrate => SqlBook::migrate(alloc, conn, plans),
        Call::Add => match SqlBook::add_plans(alloc, conn, plans) {
            Ok((book, _)) => Ok(book),
            Err(refused) => Err(refused),
        },
    }
}

// The book that the call makes, or the next such call.
fn made(alloc: Global, conn: Database, call: Call, plans: &Plans) -> Result<Tables, Fail> {
    let conn = match opened(alloc, conn, call, plans) {
        Ok(book) => return Ok(book),
        Err((_, conn)) => conn,
    };
    match opened(alloc, conn, call, plans) {
        Ok(book) => Ok(book),
        Err((error, _)) => Err(error.into()),
    }
}

// Whether a row is put, by the first call or by the next one.
fn is_put(alloc: Global, book: &mut Tables, id: &[u8], state: SessionState) -> Result<bool, Fail> {
    let row = row(alloc, id, state)?;
    Ok(book.put_session(&row, -20).is_ok() || book.put_session(&row, -20).is_ok())
}

fn is_sold(alloc: Global, book: &mut Tables) -> Result<bool, Fail> {
    let topup = TopUp::new(alloc, "V-1", b"al", 500, 1000)?;
    Ok(book.put_topup(&topup, 480).is_ok() || book.put_topup(&topup, 480).is_ok())
}

fn is_closed(book: &mut Tables) -> bool {
    book.close_client("ap1").is_ok() || book.close_client("ap1").is_ok()
}

// Whether the session `s3` is carried into the row of `s1`.
fn is_carried(alloc: Global, book: &mut Tables) -> Result<bool, Fail> {
    let mut gone = Vec::new(alloc);
    gone.push(key(alloc, b"s3")?)?;
    let row = row(alloc, b"s1", SessionState::Stopped)?;
    Ok(carry(book, &gone, &row).is_ok() || carry(book, &gone, &row).is_ok())
}

fn are_written(alloc: Global, book: &mut Tables) -> Result<bool, Fail> {
    Ok(
        is_put(alloc, book, b"s1", SessionState::Live)?
            && is_put(alloc, book, b"s1", SessionState::Stopped)?
            && is_put(alloc, book, b"s2", SessionState::Live)?
            && is_put(alloc, book, b"s3", SessionState::Stopped)?
            && is_sold(alloc, book)?
            && is_closed(book)
            && is_closed(book)
            && is_carried(alloc, book)?,
    )
}

// How many sessions, keys and vouchers `al` has, and its balance.
fn counts(book: &mut Tables) -> Result<(usize, usize, usize, i64), Fail> {
    let sessions = book.sessions_of(b"al")?.len();
    let keys = book.keys_of(b"al")?.len();
    let topups = book.topups_of(b"al")?.len();
    Ok((sessions, keys, topups, book.balance(b"al")?))
}

// Whether a session and a voucher are found by their names.
fn are_found(alloc: Global, book: &mut Tables) -> Result<bool, Fail> {
    let key = key(alloc, b"s2")?;
    Ok(book.session(&key)?.is_some() && book.voucher("V-1")?.is_some())
}

// Whether a walk meets a member of each kind.
fn are_met(book: &mut Tables) -> Result<bool, Fail> {
    let has_session = book.next_session(None)?.is_some();
    let has_account = book.next_account(None)?.is_some();
    Ok(has_session && has_account && book.next_topup(None)?.is_some())
}

// The plans `default` and perhaps `gold`.
fn plans(alloc: Global, has_gold: bool) -> Result<Plans, Fail> {
    let mut list = Vec::new(alloc);
    list.push(plan(alloc, b"default", 1_000_000, 5)?)?;
    if has_gold {
        list.push(plan(alloc, b"gold", 1_048_576, 10)?)?;
    }
    Ok(Plans::new(list)?)
}

// A book of which the writes are there after it was adopted, and plans were added.
fn written(alloc: Global, few: &Plans, all: &Plans) -> Result<Database, Fail> {
    let conn = Connection::open_in_memory(alloc)?;
    let mut book = made(alloc, conn, Call::Create, few)?;
    if !are_written(alloc, &mut book)? {
        return Err("a write was refused twice".into());
    }
    let book = made(alloc, book.into_connection(), Call::Adopt, few)?;
    Ok(made(alloc, book.into_connection(), Call::Add, all)?.into_connection())
}

// They make a book one of schema number 1.
static FIRST: [&str; 3] = [
    "DROP TABLE session_plan",
    "DROP TABLE plan_count",
    "UPDATE meta SET value = 1",
];

// Whether all of it is also there after the book was an older one.
fn is_kept(alloc: Global) -> Result<bool, Fail> {
    let (few, all) = (plans(alloc, false)?, plans(alloc, true)?);
    let mut conn = written(alloc, &few, &all)?;
    for sql in &FIRST {
        conn.execute(sql, &[])?;
    }
    let mut book = made(alloc, conn, Call::Migrate, &all)?;
    let is_whole = are_found(alloc, &mut book)? && are_met(&mut book)?;
    Ok(is_whole && counts(&mut book)? == (2, 2, 1, 480))
}

#[test]
fn each_call_is_done_or_refused(rt: HostRuntime) -> Result<(), Fail> {
    assert!(rt; is_kept(rt.alloc())?);
    Ok(())
}
