//! Each call of a book in memory. One allocation may fail, at any place: `rt try --test
//! --fail-alloc N`. The call that needed it is refused, does nothing, and does it all if it is made
//! again.
ghost use Rattle.std.specs.Prelude.{IsTrue};
ghost use Rattle.acct_book.specs.Content.{key_of, IsNone};

use acct_book::{Book, Key, MemBook, Row, SessionState};
use acct_model::{Octets, Text, TopUp};
use std::alloc::Global;
use std::test::Fail;

fn key(alloc: Global, id: &[u8]) -> Result<Key, Fail> {
    Ok(Key {
        client: Text::from_str(alloc, "ap1")?,
        session: Octets::from_slice(alloc, id)?,
    })
}

fn row(alloc: Global, id: &[u8], state: SessionState) -> Result<Row, Fail> {
    Ok(Row {
        client: Text::from_str(alloc, "ap1")?,
        session: Octets::from_slice(alloc, id)?,
        account: Octets::from_slice(alloc, b"al")?,
        class: Octets::from_slice(alloc, b"gold")?,
        plan: Octets::from_slice(alloc, b"default")?,
        input: 101,
        output: 202,
        seconds: 303,
        first: 404,
        last: 505,
        state,
        cause: 6,
        calling: Octets::from_slice(alloc, b"00-11")?,
        framed: Some([10, 9, 8, 7]),
    })
}

// Whether the row is under none of these keys.
fn is_apart(gone: &[Key], row: &Row) -> bool
    ensures { IsTrue result → IsNone gone.now (key_of row.now) }
{
    gone.iter().all(|key| key.client != row.client || key.session != row.session)
}

// Whether a row is put, by the first call or by the next one.
fn is_put(alloc: Global, book: &mut MemBook, id: &[u8], state: SessionState) -> Result<bool, Fail> {
    let row = row(alloc, id, state)?;
    Ok(book.put_session(&row, -20).is_ok() || book.put_session(&row, -20).is_ok())
}

fn is_sold(alloc: Global, book: &mut MemBook) -> Result<bool, Fail> {
    let topup = TopUp::new(alloc, "V-1", b"al", 500, 1000)?;
    Ok(book.put_topup(&topup, 480).is_ok() || book.put_topup(&topup, 480).is_ok())
}

fn is_closed(book: &mut MemBook) -> bool {
    book.close_client("ap1").is_ok() || book.close_client("ap1").is_ok()
}

// Whether the session `s3` is carried into the row of `s1`.
fn is_carried(alloc: Global, book: &mut MemBook) -> Result<bool, Fail> {
    let mut gone = Vec::new(alloc);
    gone.push(key(alloc, b"s3")?)?;
    let row = row(alloc, b"s1", SessionState::Stopped)?;
    Ok(
        is_apart(&gone, &row)
            && (book.put_forward(&gone, &row).is_ok() || book.put_forward(&gone, &row).is_ok()),
    )
}

fn are_written(alloc: Global, book: &mut MemBook) -> Result<bool, Fail> {
    Ok(
        is_put(alloc, book, b"s1", SessionState::Live)?
            && is_put(alloc, book, b"s1", SessionState::Stopped)?
            && is_put(alloc, book, b"s2", SessionState::Live)?
            && is_put(alloc, book, b"s3", SessionState::Stopped)?
            && is_sold(alloc, book)?
            && is_closed(book)
            && is_carried(alloc, book)?,
    )
}

// How many sessions, keys and vouchers `al` has, and its balance.
fn counts(book: &mut MemBook) -> Result<(usize, usize, usize, i64), Fail> {
    let sessions = book.sessions_of(b"al")?.len();
    let keys = book.keys_of(b"al")?.len();
    let topups = book.topups_of(b"al")?.len();
    Ok((sessions, keys, topups, book.balance(b"al")?))
}

// Whether a session and a voucher are found by their names.
fn are_found(alloc: Global, book: &mut MemBook) -> Result<bool, Fail> {
    let key = key(alloc, b"s2")?;
    Ok(book.session(&key)?.is_some() && book.voucher("V-1")?.is_some())
}

// Whether a walk meets a member of each kind.
fn are_met(book: &mut MemBook) -> Result<bool, Fail> {
    let has_session = book.next_session(None)?.is_some();
    let has_account = book.next_account(None)?.is_some();
    Ok(has_session && has_account && book.next_topup(None)?.is_some())
}

fn is_kept(alloc: Global) -> Result<bool, Fail> {
    let mut book = MemBook::new(alloc);
    let is_whole = are_written(alloc, &mut book)?
        && are_found(alloc, &mut book)?
        && are_met(&mut book)?;
    Ok(is_whole && counts(&mut book)? == (2, 2, 1, 480))
}

#[test]
fn each_call_is_done_or_refused(rt: HostRuntime) -> Result<(), Fail> {
    assert!(rt; is_kept(rt.alloc())?);
    Ok(())
}
