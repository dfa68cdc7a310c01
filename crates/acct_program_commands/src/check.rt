//! `check`: reads a configuration, and prints its sizes.
ghost use Rattle.std.specs.Prelude.{◌≡◌, IfOk, IfErr, OnOk, None};
ghost use Rattle.std.specs.Io.KnownBytes.{Appends};
ghost use Rattle.acct_program_commands.specs.Anew.{ChecksOver, anew_line};
ghost use Rattle.acct_program_commands.specs.Checks.{ChecksConfig, sizes_line};
ghost use Rattle.acct_program_commands.specs.Exports.{IsExportFault};

use crate::anew::anew_in;
use crate::config_file::read_config;
use crate::fault::Fault;
use acct_book::Book;
use acct_model::Text;
use acct_program::Status;
use acct_reads::ReadsFiles;
use acct_site::Config;
use std::alloc::Global;
use std::io;
use std::io::Write;

/// Prints how many clients, plans and keys the configuration in a file has.
///
/// # Errors
///
/// Those of `read_config`, and `CannotWrite`.
pub fn run_check<R: ReadsFiles, W: Write>(
    runtime: &R,
    alloc: Global,
    file: &Text,
    output: &mut W,
) -> Result<Status, Fault>
    ensures done { IfOk result (λ status. status ≡ Status.Done) }
    ensures checks { ChecksConfig file.now (W.contents output.old) (W.contents output.new) result }
{
    let config = read_config(runtime, alloc, file)?;
    write_sizes(output, &config)
}

/// Prints how many clients, plans and keys a configuration has, and how many open sessions of a
/// book are charged anew if they go on, since they began before their clients' logins were stamped.
///
/// # Errors
///
/// `Store` if the book fails, `StoreMemory` if an allocation fails, `CannotWrite`.
pub fn check_over<B: Book, W: Write>(
    alloc: Global,
    config: &Config,
    book: &mut B,
    output: &mut W,
) -> Result<Status, Fault>
    ensures done { IfOk result (λ status. status ≡ Status.Done) }
    ensures checks { ChecksOver B.Book config.now
        (Appends (W.contents output.old) (W.contents output.new)) book.old book.new result }
    ensures why { IfErr result IsExportFault }
{
    let count = anew_in(alloc, book, config.clients.stamping())?;
    write_line(output, config)?;
    write_anew(output, count)?;
    output.flush()?;
    Ok(Status::Done)
}

// Prints how many sessions are charged anew, if some are.
fn write_anew<W: Write>(output: &mut W, count: u64) -> io::Result<()>
    ensures { OnOk result (Appends (W.contents output.old) (W.contents output.new)
        (anew_line count)) }
{
    if count == 0 {
        return Ok(());
    }
    writeln!(
        output,
        "{count} open sessions of stamped clients have no stamp, and are charged anew if they go on"
    )
}

// Prints how many clients, plans and keys a configuration has.
pub(crate) fn write_sizes<W: Write>(output: &mut W, config: &Config) -> Result<Status, Fault>
    ensures done { IfOk result (λ status. status ≡ Status.Done) }
    ensures sizes { OnOk result (Appends (W.contents output.old) (W.contents output.new)
        (sizes_line config.now)) }
    ensures why { IfErr result (λ told. told ≡ Fault.CannotWrite) }
{
    write_line(output, config)?;
    output.flush()?;
    Ok(Status::Done)
}

fn write_line<W: Write>(output: &mut W, config: &Config) -> io::Result<()>
    ensures { OnOk result (Appends (W.contents output.old) (W.contents output.new)
        (sizes_line config.now)) }
{
    let clients = config.clients.list().len();
    let plans = config.plans.list().len();
    let keys = config.keys.list().len();
    writeln!(output, "ok: {clients} clients, {plans} plans, {keys} keys")
}
