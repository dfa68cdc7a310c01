//! `export`: the book as CSV. So are the plans that it keeps.
ghost use Rattle.std.specs.Prelude.{◌≡◌, IfOk, IfErr};
ghost use Rattle.std.specs.Io.KnownBytes.{Appends};
ghost use Rattle.acct_book.specs.Step.{Looks};
ghost use Rattle.acct_program_commands.specs.Exports.{Exports, IsExportFault, plans_text};
ghost use Rattle.acct_program_commands.specs.Exports.{WritesBalances};
ghost use Rattle.acct_program_commands.specs.inner.Stops.{export_fault};

use crate::fault::{Fault, StoreFault};
use acct_book::Book;
use acct_files::{
    ExportError, export_balances, export_overruns, export_plans, export_sessions, export_topups,
};
use acct_model::Plans;
use acct_program_args::Export;
use std::alloc::Global;
use std::io::Write;

/// Writes one of the exports, and returns the writer, flushed.
///
/// # Errors
///
/// `Store` if the book fails, `StoreMemory` if an allocation fails, `CannotWrite`.
pub fn run_export<B: Book, W: Write + Drop>(
    alloc: Global,
    what: Export,
    plans: &Plans,
    book: &mut B,
    output: W,
) -> Result<W, Fault>
    ensures reads { Looks B.Book
        book.old book.new result }
    ensures exports { IfOk result (λ writer. Exports plans.now (B.content book.old)
        (B.is_open book.new) (W.contents output) (W.contents writer) what) }
    ensures why { IfErr result IsExportFault }
{
    let written = match what {
        Export::Sessions => export_sessions(alloc, book, plans, output),
        Export::Balances => export_balances(alloc, book, output),
        Export::TopUps => export_topups(alloc, book, output),
        Export::Overruns => export_overruns(alloc, book, output),
    };
    match written {
        Ok((mut writer, _)) => {
            writer.flush()?;
            Ok(writer)
        }
        Err(error) => Err(fault_of(error)),
    }
}

/// Writes all balances, and returns the writer, flushed, and how many accounts there are.
///
/// # Errors
///
/// Those of `run_export`.
pub(crate) fn write_balances<B: Book, W: Write + Drop>(
    alloc: Global,
    book: &mut B,
    output: W,
) -> Result<(W, u64), Fault>
    ensures reads { Looks B.Book book.old book.new result }
    ensures text { IfOk result (λ done. WritesBalances (B.content book.old) (B.is_open book.new)
        (W.contents output) (W.contents done.0) done.1) }
{
    match export_balances(alloc, book, output) {
        Ok((mut writer, count)) => {
            writer.flush()?;
            Ok((writer, count))
        }
        Err(error) => Err(fault_of(error)),
    }
}

/// Writes plans, and returns the writer, flushed.
///
/// # Errors
///
/// `StoreMemory` if an allocation fails, `CannotWrite`.
pub fn write_plans<W: Write + Drop>(alloc: Global, plans: &Plans, output: W) -> Result<W, Fault>
    ensures text { IfOk result (λ writer. Appends (W.contents output) (W.contents writer)
        (plans_text plans.now)) }
    ensures why { IfErr result IsExportFault }
{
    match export_plans(alloc, plans.list(), output) {
        Ok(mut writer) => {
            writer.flush()?;
            Ok(writer)
        }
        Err(error) => Err(fault_of(error)),
    }
}

// The fault to report for it.
fn fault_of(error: ExportError) -> Fault
    ensures fault { result ≡ export_fault error }
    ensures why { IsExportFault result }
{
    match error {
        ExportError::Unavailable => Fault::Store(StoreFault::Unavailable),
        ExportError::WriteFault => Fault::CannotWrite,
        ExportError::Memory => Fault::StoreMemory,
    }
}
