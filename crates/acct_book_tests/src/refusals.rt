//! Entries recorded in books that refuse one call of each, in turn.
use acct_book::{Book, Key, MemBook, SessionState, record};
use acct_book_fakes::FailingBook;
use acct_model::{Entry, Octets, Plans, Text, TopUp, entry_of};
use acct_site::sample_plans;
use radius_codec::read;
use std::alloc::Global;
use std::test::Fail;

// An entry of the client `ap1`.
#[derive(Clone, Copy)]
enum Said {
    // What a request says.
    Packet(&'static [u8]),
    // A voucher of `al`.
    TopUp(&'static str),
}

// An Interim-Update and a Stop of the session `s1` of `al`, of the Class `gold`.
const INTERIM: &[u8] = b"\x04\x07\0\x2e\0\0\0\0\0\0\0\0\0\0\0\0\0\0\0\0\
    \x28\x06\0\0\0\x03\x2c\x04s1\x01\x04al\x19\x06gold\x2a\x06\0\0\0\x01";

const STOP: &[u8] = b"\x04\x07\0\x2e\0\0\0\0\0\0\0\0\0\0\0\0\0\0\0\0\
    \x28\x06\0\0\0\x02\x2c\x04s1\x01\x04al\x19\x06gold\x2a\x06\0\x20\0\x01";

const RESTART: &[u8] = b"\x04\x07\0\x1a\0\0\0\0\0\0\0\0\0\0\0\0\0\0\0\0\x28\x06\0\0\0\x07";

// What makes a row, a voucher and a balance.
const FILLED: [Said; 2] = [Said::Packet(INTERIM), Said::TopUp("V-1")];

fn entry(alloc: Global, said: Said) -> Result<Entry, Fail> {
    match said {
        Said::Packet(octets) => Ok(entry_of(alloc, "ap1", &read(octets)?, 2000)?),
        Said::TopUp(number) => Ok(Entry::TopUp(TopUp::new(alloc, number, b"al", 500, 1000)?)),
    }
}

fn is_new<B: Book>(alloc: Global, plans: &Plans, book: &mut B, said: Said) -> Result<bool, Fail> {
    let entry = entry(alloc, said)?;
    Ok(record(alloc, book, plans, &entry).is_ok())
}

// The balance of `al`, how many vouchers it has, and the octets and the state of its session.
type Seen = (i64, usize, Option<(u64, SessionState)>);

fn seen(alloc: Global, book: &mut MemBook) -> Result<Seen, Fail> {
    let key = Key {
        client: Text::from_str(alloc, "ap1")?,
        session: Octets::from_slice(alloc, b"s1")?,
    };
    let row = match &book.session(&key)? {
        Some(row) => Some((row.input, row.state)),
        None => None,
    };
    Ok((book.balance(b"al")?, book.topups_of(b"al")?.len(), row))
}

// Whether an entry is recorded in a filled book that refuses one call. If not, nothing changes.
fn is_recorded(alloc: Global, plans: &Plans, said: Said, refused: u64) -> Result<bool, Fail> {
    let mut failing = FailingBook::new(MemBook::new(alloc), 0);
    for filled in FILLED {
        if !is_new(alloc, plans, &mut failing, filled)? {
            return Err("not filled".into());
        }
    }
    failing.calls_left = refused;
    let before = seen(alloc, &mut failing.book)?;
    let is_new = is_new(alloc, plans, &mut failing, said)?;
    if is_new == (seen(alloc, &mut failing.book)? == before) {
        return Err("neither recorded nor refused".into());
    }
    Ok(is_new)
}

// How many calls of a book an entry takes: each of them was refused in its turn.
fn calls(alloc: Global, plans: &Plans, said: Said) -> Result<u64, Fail> {
    for refused in 1..9 {
        if is_recorded(alloc, plans, said, refused)? {
            return Ok(refused - 1);
        }
    }
    Err("never recorded".into())
}

// A row or a voucher and a balance are read, and both are written. A restart is one call.
fn counts(alloc: Global) -> Result<(u64, u64, u64), Fail> {
    let plans = sample_plans(alloc)?;
    Ok((
        calls(alloc, &plans, Said::Packet(STOP))?,
        calls(alloc, &plans, Said::TopUp("V-2"))?,
        calls(alloc, &plans, Said::Packet(RESTART))?,
    ))
}

#[test]
fn a_refused_call_changes_nothing(rt: HostRuntime) -> Result<(), Fail> {
    assert!(rt; counts(rt.alloc())? == (3, 3, 1));
    Ok(())
}
