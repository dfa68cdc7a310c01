//! `import`: credits the vouchers of a CSV text.
ghost use Rattle.std.specs.Prelude.{◌≡◌, ◌≢◌, ◌++◌, ◌<◌, ◌^◌, IfOk, OnOk, flat_map};
ghost use Rattle.std.specs.Io.KnownBytes.{Appends};
ghost use Rattle.acct_program_commands.specs.Imports.{Runs, report_status, report_text};
ghost use Rattle.acct_program_commands.specs.Imports.{refused_line};

use crate::fault::Fault;
use acct_book::Book;
use acct_files::{ImportReport, Refused, Stopped, import};
use acct_model::Plans;
use acct_program::Status;
use std::alloc::Global;
use std::io;
use std::io::{Read, Write};

/// Credits the vouchers of a reader at a moment, in seconds since 1970, and prints the result: how
/// many were added, repeated and refused, each refused record with its cause, and why the import
/// stopped, if it did.
///
/// # Errors
///
/// `CannotWrite`. What was credited stays.
pub fn run_import<B: Book, I: Read + Drop, W: Write>(
    alloc: Global,
    plans: &Plans,
    book: &mut B,
    moment: u64,
    input: I,
    output: &mut W,
) -> Result<Status, Fault>
    requires { moment < 2 ^ 53 }
    ensures runs { Runs B.Book plans.now moment
        (I.remaining input) book.old book.new (W.contents output.old) (W.contents output.new)
        result }
    ensures other { IfOk result (λ status. status ≢ Status.BadCommandLine) }
{
    let report = import(alloc, input, plans, book, moment);
    write_report(output, &report)?;
    output.flush()?;
    Ok(status_of(&report))
}

// The exit status of an import.
fn status_of(report: &ImportReport) -> Status
    ensures status { result ≡ report_status report.now }
    ensures other { result ≢ Status.BadCommandLine }
{
    match report.stopped {
        Some(Stopped::Unavailable) => Status::Unavailable,
        Some(_) => Status::Refused,
        None if report.refused.as_slice().is_empty() => Status::Done,
        None => Status::Refused,
    }
}

fn write_report<W: Write>(output: &mut W, report: &ImportReport) -> io::Result<()>
    ensures { OnOk result (Appends (W.contents output.old) (W.contents output.new)
        (report_text report.now)) }
{
    let (added, repeated) = (report.added, report.repeated);
    let refused = report.refused.as_slice();
    let count = refused.len();
    writeln!(
        output,
        "added {added}, repeated {repeated}, refused {count}"
    )?;
    write_all_refused(output, refused)?;
    match report.stopped {
        Some(stopped) => writeln!(output, "stopped: {stopped}"),
        None => Ok(()),
    }
}

fn write_all_refused<W: Write>(output: &mut W, records: &[Refused]) -> io::Result<()>
    ensures { OnOk result (Appends (W.contents output.old) (W.contents output.new)
        (flat_map refused_line records.now)) }
{
    for record in records {
        write_refused(output, record)?;
    }
    Ok(())
}

fn write_refused<W: Write>(output: &mut W, refused: &Refused) -> io::Result<()>
    ensures { OnOk result (Appends (W.contents output.old) (W.contents output.new)
        (refused_line refused.now)) }
{
    let (number, cause) = (refused.number, refused.cause);
    writeln!(output, "{number}: {cause}")
}
