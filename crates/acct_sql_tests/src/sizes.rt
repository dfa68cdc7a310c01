//! More sessions, accounts and clients than a book on tables remembers.
use crate::sample_book::{key, row};
use acct_book::{Book, SessionState};
use acct_site::sample_plans;
use acct_sql::SqlBook;
use sqlite::{Connection, MemStore};
use std::alloc::Global;
use std::test::Fail;

type Tables = SqlBook<MemStore>;

// An empty book.
fn made(alloc: Global) -> Result<Tables, Fail> {
    let conn = Connection::open_in_memory(alloc)?;
    match SqlBook::create(alloc, conn, &sample_plans(alloc)?) {
        Ok(book) => Ok(book),
        Err((error, _)) => Err(error.into()),
    }
}

// More names than sessions or accounts are remembered, and than clients that have ended.
const NAMES: u32 = 16_400;

const CLIENTS: u32 = 1_100;

// Whether the book has none of so many other sessions and accounts.
fn has_no_others(alloc: Global, book: &mut Tables) -> Result<bool, Fail> {
    for number in 0..NAMES {
        let name = number.to_be_bytes();
        if book.session(&key(alloc, &name)?)?.is_some() || book.balance(&name)? != 0 {
            return Ok(false);
        }
    }
    Ok(true)
}

// The state of the session `s1`, if it is there, and the balance of its account.
fn seen(alloc: Global, book: &mut Tables) -> Result<(Option<SessionState>, i64), Fail> {
    let state = match &book.session(&key(alloc, b"s1")?)? {
        Some(row) => Some(row.state),
        None => None,
    };
    Ok((state, book.balance(b"al")?))
}

// What a session and a balance are once they are forgotten, and after the next report.
fn forgotten(alloc: Global) -> Result<((Option<SessionState>, i64), Option<SessionState>), Fail> {
    let mut book = made(alloc)?;
    book.put_session(&row(alloc, b"s1", SessionState::Live)?, -20)?;
    if !has_no_others(alloc, &mut book)? {
        return Err("another session".into());
    }
    let told = seen(alloc, &mut book)?;
    book.put_session(&row(alloc, b"s1", SessionState::Stopped)?, -30)?;
    Ok((told, seen(alloc, &mut book)?.0))
}

#[test]
fn what_is_forgotten_is_read_again(rt: HostRuntime) -> Result<(), Fail> {
    let wanted = ((Some(SessionState::Live), -20), Some(SessionState::Stopped));
    assert!(rt; forgotten(rt.alloc())? == wanted);
    Ok(())
}

// The state of the session after so many other clients have restarted, and its own.
fn closed_after_many(alloc: Global) -> Result<(Option<SessionState>, i64), Fail> {
    let mut book = made(alloc)?;
    for number in 0..CLIENTS {
        book.close_client(format!(in alloc; "{number}")?.as_str())?;
    }
    book.put_session(&row(alloc, b"s1", SessionState::Live)?, -20)?;
    book.close_client("ap1")?;
    seen(alloc, &mut book)
}

#[test]
fn many_clients_restart(rt: HostRuntime) -> Result<(), Fail> {
    assert!(rt; closed_after_many(rt.alloc())? == (Some(SessionState::Closed), -20));
    Ok(())
}
