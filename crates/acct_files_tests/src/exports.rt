//! Exports whose writer or book fails, or whose memory runs out.
use acct_book::{Book, MemBook, Row, SessionState, record};
use acct_book_fakes::FailingBook;
use acct_files::{
    ExportError, export_balances, export_overruns, export_plans, export_sessions, export_topups,
};
use acct_model::{Entry, Octets, Plans, Text, TopUp};
use acct_site::sample_plans;
use std::alloc::{AllocError, Global};
use std::io;
use std::io::{ErrorKind, Write};
use std::test::Fail;

#[derive(Clone, Copy)]
enum Export {
    Sessions,
    Balances,
    TopUps,
    Overruns,
    Plans,
}

// An export, its text, how many writes of 16 octets it takes, and how many calls of the book.
type Download = (Export, &'static [u8], u64, u64);

// A call for each member, and one that finds no further one.
static DOWNLOADS: [Download; 5] = [
    (
        Export::Sessions,
        b"client,session,account,class,input,output,total,charged,seconds,first,last,state,cause,\
        calling,framed\nap1,s%0A1,\"a,b\",%FF,5,7,12,5,9,2001,2003,stopped,2,\"00\"\"11\",10.0.0.8\n",
        11,
        2,
    ),
    (
        Export::Balances,
        b"account,balance,overrun\n\"a,b\",-5,5\nbo,300,0\n",
        3,
        3,
    ),
    (
        Export::TopUps,
        b"voucher,account,sum,when\nV-2,bo,300,3000\n",
        3,
        2,
    ),
    (Export::Overruns, b"account,overrun\n\"a,b\",5\n", 2, 3),
    (
        Export::Plans,
        b"class,block,unit,count\ngold,1048576,10,both\ndefault,1000000,5,both\n",
        5,
        0,
    ),
];

// A session in which each field has another value, and what can be escaped or quoted is.
fn row(alloc: Global) -> Result<Row, AllocError> {
    Ok(Row {
        client: Text::from_str(alloc, "ap1")?,
        session: Octets::from_slice(alloc, b"s\n1")?,
        account: Octets::from_slice(alloc, b"a,b")?,
        class: Octets::from_slice(alloc, b"\xFF")?,
        plan: Octets::from_slice(alloc, b"default")?,
        input: 5,
        output: 7,
        seconds: 9,
        first: 2001,
        last: 2003,
        state: SessionState::Stopped,
        cause: 2,
        calling: Octets::from_slice(alloc, b"00\"11")?,
        framed: Some([10, 0, 0, 8]),
    })
}

// A book with the session and a voucher, which refuses a call.
fn sold(alloc: Global, plans: &Plans, call: u64) -> Result<FailingBook<MemBook>, Fail> {
    let mut book = MemBook::new(alloc);
    book.put_session(&row(alloc)?, -5)?;
    let topup = TopUp::new(alloc, "V-2", b"bo", 300, 3000)?;
    record(alloc, &mut book, plans, &Entry::TopUp(topup))?;
    Ok(FailingBook::new(book, call))
}

// Takes the octets of a text in their order and no others, 16 a write at most, and fails after so
// many writes. It allocates nothing.
#[derive(Drop)]
struct Comparing {
    left: &'static [u8],
    writes_left: u64,
}

impl Write for Comparing {
    fn write(&mut self, buf: &[u8]) -> io::Result<usize> {
        if self.writes_left == 0 {
            return Err(io::Error::from(ErrorKind::StorageFull));
        }
        let count = buf.len().min(16);
        let Some(left) = self.left.strip_prefix(&buf[..count]) else {
            return Err(io::Error::from(ErrorKind::InvalidData));
        };
        self.writes_left -= 1;
        self.left = left;
        Ok(count)
    }

    fn flush(&mut self) -> io::Result<()> {
        Ok(())
    }
}

fn write(
    alloc: Global,
    plans: &Plans,
    book: &mut FailingBook<MemBook>,
    export: Export,
    writer: Comparing,
) -> Result<Comparing, ExportError> {
    let (writer, _) = match export {
        Export::Sessions => export_sessions(alloc, book, plans, writer)?,
        Export::Balances => export_balances(alloc, book, writer)?,
        Export::TopUps => export_topups(alloc, book, writer)?,
        Export::Overruns => export_overruns(alloc, book, writer)?,
        Export::Plans => (export_plans(alloc, plans.list(), writer)?, 0),
    };
    Ok(writer)
}

// How an export ends with so many writes, over a book that refuses this call: an error, or whether
// its text is whole.
fn told(
    alloc: Global,
    download: &Download,
    writes_left: u64,
    call: u64,
) -> Result<Result<bool, ExportError>, Fail> {
    let plans = sample_plans(alloc)?;
    let mut book = sold(alloc, &plans, call)?;
    let writer = Comparing {
        left: download.1,
        writes_left,
    };
    let written = write(alloc, &plans, &mut book, download.0, writer);
    Ok(written.map(|writer| writer.left.is_empty()))
}

// With how many writes an export is first whole. With fewer a write fails.
fn least_writes(alloc: Global, download: &Download) -> Result<u64, Fail> {
    for writes in 0..100 {
        match told(alloc, download, writes, 0)? {
            Ok(true) => return Ok(writes),
            Err(ExportError::WriteFault) => {}
            _ => return Err(Fail::from("told otherwise")),
        }
    }
    Err(Fail::from("never written"))
}

#[test]
fn failed_writes_are_told(rt: HostRuntime) -> Result<(), Fail> {
    for download in &DOWNLOADS {
        assert!(rt; least_writes(rt.alloc(), download)? == download.2);
    }
    Ok(())
}

// How many calls of the book an export makes: each fails in its turn.
fn count_calls(alloc: Global, download: &Download) -> Result<u64, Fail> {
    for call in 1..100 {
        match told(alloc, download, 100, call)? {
            Ok(true) => return Ok(call - 1),
            Err(ExportError::Unavailable) => {}
            _ => return Err(Fail::from("told otherwise")),
        }
    }
    Err(Fail::from("never written"))
}

#[test]
fn refused_calls_are_told(rt: HostRuntime) -> Result<(), Fail> {
    for download in &DOWNLOADS {
        assert!(rt; count_calls(rt.alloc(), download)? == download.3);
    }
    Ok(())
}

// Whether an export is whole, or memory ran out.
fn is_whole_or_refused(alloc: Global, download: &Download) -> Result<bool, Fail> {
    let told = told(alloc, download, 100, 0)?;
    Ok(matches!(
        told,
        Ok(true) | Err(ExportError::Memory | ExportError::Unavailable)
    ))
}

// Any allocation of this test may fail: `rt try --test --fail-alloc N`.
#[test]
fn refused_memory_is_told(rt: HostRuntime) -> Result<(), Fail> {
    for download in &DOWNLOADS {
        assert!(rt; is_whole_or_refused(rt.alloc(), download)?);
    }
    Ok(())
}
