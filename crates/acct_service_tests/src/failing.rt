//! Runs over books that fail, with exchanges that fail, and with allocations that fail: the balances
//! are those that the replies tell.
use crate::runs::{Fails, Ran, TURNS, run};
use acct_book::{Book, MemBook};
use acct_book_fakes::{FailingBook, ShutBook};
use std::alloc::Global;
use std::test::Fail;

// Whether these are the balances of `al` and `bo`.
fn has<B: Book>(book: &mut B, balances: (i64, i64)) -> bool {
    book.balance(b"al") == Ok(balances.0) && book.balance(b"bo") == Ok(balances.1)
}

// Whether a run over a book that fails this call reports what is kept, and so many refusals.
fn is_told(alloc: Global, call: u64, refused: u64) -> Result<bool, Fail> {
    let mut book = FailingBook::new(MemBook::new(alloc), call);
    let ran = run(alloc, &mut book, None)?;
    Ok(has(&mut book.book, ran.told) && (ran.refused, ran.faults) == (refused, 0))
}

// Each of the run's fourteen calls, and one past them.
#[test]
fn a_refused_call_changes_nothing(rt: HostRuntime) -> Result<(), Fail> {
    for call in 1..15 {
        assert!(rt; is_told(rt.alloc(), call, 1)?);
    }
    assert!(rt; is_told(rt.alloc(), 15, 0)?);
    Ok(())
}

// Whether a run that counts this fault reports what is kept.
fn is_survived(alloc: Global, fails: Fails) -> Result<bool, Fail> {
    let mut book = MemBook::new(alloc);
    let ran = run(alloc, &mut book, Some(fails))?;
    Ok(has(&mut book, ran.told) && (ran.refused, ran.faults) == (0, 1))
}

#[test]
fn a_fault_at_any_turn_loses_nothing(rt: HostRuntime) -> Result<(), Fail> {
    for place in 0..TURNS {
        assert!(rt; is_survived(rt.alloc(), Fails::Turn(place))?);
        assert!(rt; is_survived(rt.alloc(), Fails::Reply(place))?);
    }
    Ok(())
}

// Whether a run reports what is kept, or the exchange counted a fault.
fn is_kept(alloc: Global) -> Result<bool, Fail> {
    let mut book = MemBook::new(alloc);
    let ran = run(alloc, &mut book, None)?;
    Ok(has(&mut book, ran.told) || ran.faults > 0)
}

// An allocation may fail at any place of this test: `rt try --test --fail-alloc N`. What was
// reported then is kept; an exchange that is out of memory counts a fault, and reports no more.
#[test]
fn refused_memory_changes_nothing(rt: HostRuntime) -> Result<(), Fail> {
    assert!(rt; is_kept(rt.alloc())?);
    Ok(())
}

// How many writes a book takes before it shuts, the balances that are reported, in how many turns it
// fails, and whether it is shut.
static SHUT: [(u64, (i64, i64), u64, bool); 5] = [
    (0, (0, 0), 6, true),
    (1, (-20, 0), 5, true),
    (2, (480, 0), 3, true),
    (3, (480, 0), 1, true),
    (4, (480, -20), 0, false),
];

fn told(alloc: Global, writes: u64) -> Result<(Ran, bool), Fail> {
    let mut book = ShutBook::new(alloc, writes);
    let ran = run(alloc, &mut book, None)?;
    Ok((ran, book.is_shut()))
}

#[test]
fn a_shut_book_tells_no_more(rt: HostRuntime) -> Result<(), Fail> {
    for (writes, balances, refused, is_shut) in &SHUT {
        let ran = Ran {
            told: *balances,
            refused: *refused,
            faults: 0,
        };
        assert!(rt; told(rt.alloc(), *writes)? == (ran, *is_shut));
    }
    Ok(())
}
