//! `plans --list`: the plans that the book in a file keeps.
ghost use Rattle.std.specs.Prelude.{◌≢◌, IfOk, IfErr};
ghost use Rattle.sqlite_wal.specs.Files.{image_at};
ghost use Rattle.acct_program_jobs.specs.Jobs.{AreListed, FailsToList, ListsPlans, text_of};

use crate::book_file::BookFile;
use crate::command::{Outcome, config_of};
use crate::database::{FileConnection, listed};
use crate::left::Left;
use acct_program::Status;
use acct_program_commands::{Fault, write_plans};
use sqlite::{FileFrom, Start};
use std::io::Write;

/// Prints the plans that the book in a file keeps. The book is only read. The configuration in
/// another file is read first, as by each command, and its plans make no difference.
pub(crate) fn list_plans<S: Start, W: Write + Drop>(
    runtime: &HostRuntime,
    files: BookFile<'_>,
    output: W,
    start: S,
) -> Outcome<W, FileFrom<S>>
    ensures other { IfOk result.ended (λ status. status ≢ Status.BadCommandLine) }
    ensures does { ListsPlans (image_at S.Start) files.entry.config.now (W.contents output)
        (text_of W.contents result.output) result.ended result.left }
{
    match listed_from(runtime, files, output, start) {
        Ok((output, connection)) => Outcome {
            ended: Ok(Status::Done),
            output: Some(output),
            left: Left::Open(connection),
        },
        Err((fault, left)) => Outcome {
            ended: Err(fault),
            output: None,
            left,
        },
    }
}

// Prints the plans that the book in a file keeps. Returns the output and the connection to the book.
fn listed_from<S: Start, W: Write + Drop>(
    runtime: &HostRuntime,
    files: BookFile<'_>,
    output: W,
    start: S,
) -> Result<(W, FileConnection<S>), (Fault, Left<FileFrom<S>>)>
    ensures listed { IfOk result (λ done. AreListed (image_at S.Start) files.entry.config.now
        (W.contents output) (W.contents done.0) done.1) }
    ensures failed { IfErr result (λ e.
        FailsToList (image_at S.Start) files.entry.config.now e.0 e.1) }
{
    let _config = config_of(runtime, files.config)?;
    let (plans, connection) = listed(runtime, files, start)?;
    plans.have_no_fault();
    match write_plans(runtime.alloc(), &plans, output) {
        Ok(output) => Ok((output, connection)),
        Err(fault) => Err((fault, Left::Open(connection))),
    }
}
