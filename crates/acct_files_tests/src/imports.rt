//! Imports whose reader or book fails, or whose memory runs out: what was recorded before stays.
use acct_book::{Book, MemBook};
use acct_book_fakes::FailingBook;
use acct_files::{Stopped, import};
use acct_site::sample_plans;
use std::alloc::Global;
use std::io;
use std::io::{ErrorKind, Read};
use std::test::Fail;

// The records end at octets 31, 42 and 53. Of the last the voucher differs.
const VOUCHERS: &[u8] = b"voucher,account,sum\nV-1,al,500\nV-2,bo,300\nV-1,al,501\n";

// How many vouchers an import reports as added, repeated and refused, and why it stopped.
type Told = (u64, u64, usize, Option<Stopped>);

fn told<R: Read + Drop, B: Book>(alloc: Global, reader: R, book: &mut B) -> Result<Told, Fail> {
    let plans = sample_plans(alloc)?;
    let report = import(alloc, reader, &plans, book, 3000);
    let refused = report.refused.as_slice().len();
    Ok((report.added, report.repeated, refused, report.stopped))
}

// What is reported if the book refuses this call.
fn told_without(alloc: Global, call: u64) -> Result<Told, Fail> {
    let mut book = FailingBook::new(MemBook::new(alloc), call);
    told(alloc, VOUCHERS, &mut book)
}

// How many vouchers were added before each call, of which each voucher takes three.
static ADDED: [u64; 7] = [0, 0, 0, 1, 1, 1, 2];

#[test]
fn refused_calls_stop(rt: HostRuntime) -> Result<(), Fail> {
    for (call, added) in (1..).zip(&ADDED) {
        let wanted = (*added, 0, 0, Some(Stopped::Unavailable));
        assert!(rt; told_without(rt.alloc(), call)? == wanted);
    }
    Ok(())
}

// Returns its text one octet a read, and fails after so many reads.
#[derive(Drop)]
struct FailingReader {
    text: &'static [u8],
    reads_left: u64,
}

impl Read for FailingReader {
    fn read(&mut self, buf: &mut [u8]) -> io::Result<usize> {
        if self.reads_left == 0 {
            return Err(io::Error::from(ErrorKind::Other));
        }
        self.reads_left -= 1;
        let room = buf.len().min(1);
        self.text.read(&mut buf[..room])
    }
}

// What is reported if the reader fails after so many reads.
fn told_within(alloc: Global, reads_left: u64) -> Result<Told, Fail> {
    let reader = FailingReader {
        text: VOUCHERS,
        reads_left,
    };
    told(alloc, reader, &mut MemBook::new(alloc))
}

// What is to be reported after so many reads.
fn told_after(reads: u64) -> Told {
    let added = u64::from(reads >= 31) + u64::from(reads >= 42);
    let refused = usize::from(reads >= 53);
    let stopped = (reads < 54).then_some(Stopped::Unreadable);
    (added, 0, refused, stopped)
}

#[test]
fn failed_reads_stop(rt: HostRuntime) -> Result<(), Fail> {
    for reads in 0..55 {
        assert!(rt; told_within(rt.alloc(), reads)? == told_after(reads));
    }
    Ok(())
}

// Whether an import is whole, or stops for memory and the one after it does the rest.
fn is_whole_at_last(alloc: Global) -> Result<bool, Fail> {
    let mut book = MemBook::new(alloc);
    let first = told(alloc, VOUCHERS, &mut book)?;
    let balances = (book.balance(b"al")?, book.balance(b"bo")?);
    let again = told(alloc, VOUCHERS, &mut book)?;
    let credited = (
        if first.0 > 0 { 500 } else { 0 },
        if first.0 > 1 { 300 } else { 0 },
    );
    let is_stopped = matches!(first.3, Some(Stopped::Memory | Stopped::Unavailable));
    let rest = (2u64.saturating_sub(first.0), first.0, 1, None);
    Ok(balances == credited && (is_stopped || first == (2, 0, 1, None)) && again == rest)
}

// Any allocation of this test may fail: `rt try --test --fail-alloc N`.
#[test]
fn refused_memory_stops(rt: HostRuntime) -> Result<(), Fail> {
    assert!(rt; is_whole_at_last(rt.alloc())?);
    Ok(())
}
