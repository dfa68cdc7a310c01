//! Imports vouchers from CSV.
ghost use Rattle.std.specs.Prelude.{◌≡◌, ◌^◌, ◌<◌, ⊤, List, [], Option, None, Some, IfSome, IfOk};
ghost use Rattle.std.specs.Prelude.{IfErr, OnOk, option_map, Result, Ok, Err};
ghost use Rattle.csv.specs.Reading.{ReadRecord, source_of, strip_bom, reader_state, reader_source};
ghost use Rattle.csv.specs.Records.{fields_of};
ghost use Rattle.csv.specs.declared.parser.State.TheVariants as st;
ghost use Rattle.acct_model.specs.History.{History};
ghost use Rattle.acct_book.specs.Effect.{Effect};
ghost use Rattle.acct_book.specs.Step.{StoodFor, Does};
ghost use Rattle.acct_files.specs.Importing.{KeepsOpen, Imports, CountsLines};
ghost use Rattle.acct_files.specs.inner.Importing.{Did, added_by};
ghost use Rattle.acct_files.specs.inner.Importing.{refused_by, stop_of, told_by};
ghost use Rattle.acct_files.specs.inner.Reading.{IsAtRecord, HasReadHeader, IsReadStop};
ghost use Rattle.acct_files.specs.inner.Reading.{IsHeaderStop, HasLimits};

use crate::capped::Capped;
use crate::import_report::{Cause, ImportReport, Outcome, Stopped};
use crate::voucher_record::{Fault, is_header, topup_in};
use acct_book::{Book, RecordError, Recorded, record};
use acct_model::{Entry, Plans};
use csv::{ByteRecord, ErrorKind, Reader, ReaderBuilder};
use std::alloc::Global;
use std::io::Read;

/// The most records after the header.
const MOST_RECORDS: u64 = 1_000_000;
/// The most octets of a text.
const MOST_OCTETS: u64 = 67_108_864;
/// The most reads of a text.
const MOST_READS: u64 = 134_217_728;

/// Records the vouchers of a text in a book. The text is a header, and then a voucher a record. It
/// is read as a stream. `moment` is in seconds since 1970. What was recorded before the import
/// stopped stays.
pub fn import<R: Read + Drop, B: Book>(
    alloc: Global,
    reader: R,
    plans: &Plans,
    book: &mut B,
    moment: u64,
) -> ImportReport
    requires { moment < 2 ^ 53 }
    ensures keeps { KeepsOpen B.Book result.stopped result.added
        book.old book.new }
    ensures imports { B.is_sound book.new → (history : History)
        → StoodFor B.Book plans.now book.old history
        → Imports B.Book plans.now moment
        (option_map strip_bom (R.remaining reader)) history result.stopped result book.old
        book.new }
{
    let mut report = ImportReport::new(alloc);
    let mut rows = rows_of(alloc, reader);
    let mut row = ByteRecord::new(alloc);
    let run = import_rows(alloc, &mut rows, &mut row, plans, book, moment, &mut report);
    report.stopped = run.err();
    report
}

// The records of a text, which is read within the limits of octets and reads.
fn rows_of<R: Read + Drop>(alloc: Global, text: R) -> Reader<Capped<R>>
    ensures rows { IsAtRecord result }
    ensures start { reader_state result ≡ st.StartRecord }
    ensures text { source_of ⟦<Capped<R> as Read>⟧.remaining result
        ≡ option_map strip_bom (R.remaining text) }
    ensures limits { HasLimits (reader_source result) }
{
    let capped = Capped::new(text, MOST_OCTETS, MOST_READS);
    ReaderBuilder::new()
        .has_headers(false)
        .flexible(true)
        .from_reader(alloc, capped)
}

// Imports the records of a text, from its start on.
fn import_rows<R: Read, B: Book>(
    alloc: Global,
    rows: &mut Reader<R>,
    row: &mut ByteRecord,
    plans: &Plans,
    book: &mut B,
    moment: u64,
    report: &mut ImportReport,
) -> Result<(), Stopped>
    requires moment { moment < 2 ^ 53 }
    requires rows { IsAtRecord rows.old }
    requires start { reader_state rows.old ≡ st.StartRecord }
    requires report { CountsLines [] report.old }
    ensures keeps { KeepsOpen B.Book (stop_of result)
        report.new.added book.old book.new }
    ensures imports { B.is_sound book.new → (history : History)
        → StoodFor B.Book plans.now book.old history
        → Imports B.Book plans.now moment (source_of R.remaining rows.old)
        history (stop_of result) report.new book.old book.new }
{
    read_header(rows, row)?;
    for number in 2..2 + MOST_RECORDS {
        if !read_row(rows, row)? {
            return Ok(());
        }
        let outcome = outcome_of(alloc, plans, book, row, moment)?;
        report.count(number, outcome)?;
    }
    if read_row(rows, row)? {
        return Err(Stopped::TooMany);
    }
    Ok(())
}

// Reads the first record, which must be the header.
fn read_header<R: Read>(rows: &mut Reader<R>, row: &mut ByteRecord) -> Result<(), Stopped>
    requires rows { IsAtRecord rows.old }
    requires start { reader_state rows.old ≡ st.StartRecord }
    ensures header { OnOk result (HasReadHeader R.remaining (source_of R.remaining rows.old)
        rows.new) }
    ensures rows { OnOk result (IsAtRecord rows.new) }
    ensures stopped { IfErr result (IsHeaderStop (source_of R.remaining rows.old)) }
{
    if !read_row(rows, row)? {
        return Err(Stopped::BadHeader);
    }
    if !is_header(row) {
        return Err(Stopped::BadHeader);
    }
    Ok(())
}

// Reads a record, and returns whether there was one.
fn read_row<R: Read>(rows: &mut Reader<R>, row: &mut ByteRecord) -> Result<bool, Stopped>
    requires { IsAtRecord rows.old }
    ensures read { IfOk result (λ found.
        ReadRecord R.remaining rows.old rows.new found (fields_of row.new)) }
    ensures rows { OnOk result (IsAtRecord rows.new) }
    ensures stopped { IfErr result IsReadStop }
{
    match rows.read_byte_record(row) {
        Ok(found) => Ok(found),
        Err(error) => Err(match error.kind() {
            ErrorKind::OutOfMemory => Stopped::Memory,
            _ => Stopped::Unreadable,
        }),
    }
}

// What becomes of a record, or why the import stops at it.
fn outcome_of<B: Book>(
    alloc: Global,
    plans: &Plans,
    book: &mut B,
    row: &ByteRecord,
    moment: u64,
) -> Result<Outcome, Stopped>
    requires { moment < 2 ^ 53 }
    ensures keeps { KeepsOpen B.Book (stop_of result)
        (added_by result) book.old book.new }
    ensures did { (effect : Effect) × Did moment (fields_of row.now) result effect
        × Does B.Book plans.now book.old book.new effect }
{
    let topup = match topup_in(alloc, row, moment) {
        Ok(topup) => topup,
        Err(fault) => return refused(fault),
    };
    told(record(alloc, book, plans, &Entry::TopUp(topup)))
}

// The outcome of a record of the text for which `record` returned this, or why the import stops.
fn told(answer: Result<Recorded, RecordError>) -> Result<Outcome, Stopped>
    ensures { result ≡ told_by answer }
{
    match answer {
        Ok(Recorded::New) => Ok(Outcome::Added),
        Ok(Recorded::Repeat) => Ok(Outcome::Repeated),
        Err(RecordError::VoucherDiffers(_)) => Ok(Outcome::Refused(Cause::VoucherDiffers)),
        Err(RecordError::BalanceLimit(_)) => Ok(Outcome::Refused(Cause::BalanceLimit)),
        Err(RecordError::Unavailable) => Err(Stopped::Unavailable),
    }
}

// The outcome of a record of the text with this fault, or why the import stops.
fn refused(fault: Fault) -> Result<Outcome, Stopped>
    ensures { result ≡ refused_by fault }
{
    match fault {
        Fault::Refused(cause) => Ok(Outcome::Refused(cause)),
        Fault::Memory => Err(Stopped::Memory),
    }
}
