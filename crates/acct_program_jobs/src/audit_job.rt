//! `check --audit` of the book in a file.
ghost use Rattle.std.specs.Prelude.{◌≡◌, ◌≢◌, ◌⊎◌, Ok, IfOk, IfErr};
ghost use Rattle.sqlite_wal.specs.Files.{image_at};
ghost use Rattle.acct_site.specs.declared.config.Config.{Config};
ghost use Rattle.acct_program_commands.specs.Auditing.{Audits};
ghost use Rattle.acct_program_commands.specs.Checks.{ReadsConfig};
ghost use Rattle.acct_program_jobs.specs.Commands.{Worked};
ghost use Rattle.acct_program_jobs.specs.Files.{IsRefused};
ghost use Rattle.acct_program_jobs.specs.Jobs.{AuditsBook, LooksAtNone, HasNoConfig, text_of};

use crate::book_file::BookFile;
use crate::command::{Outcome, config_of};
use crate::database::{FileConnection, adopted};
use crate::left::Left;
use acct_book::Book;
use acct_program::Status;
use acct_program_commands::{Fault, run_audit};
use acct_site::Config;
use acct_sql::SqlBook;
use sqlite::{Alter, Connection, FileFrom, FileStore, Start};
use std::alloc::Global;
use std::io::Write;

/// Audits the book in a file by the plans of the configuration in another one. The book is only
/// read.
pub(crate) fn audit_book<S: Start, W: Write + Drop, E: Write + Drop>(
    runtime: &HostRuntime,
    files: BookFile<'_>,
    output: W,
    progress: E,
    start: S,
) -> Outcome<W, FileFrom<S>>
    ensures other { IfOk result.ended (λ status. status ≢ Status.BadCommandLine) }
    ensures does { AuditsBook (image_at S.Start) files.entry.config.now
        ⟦<SqlBook<FileStore<FileFrom<S>>> as Book>⟧
        (W.contents output) (text_of W.contents result.output) result.ended result.left
        ⊎ LooksAtNone (image_at S.Start) files.entry.config.now
        ⟦<SqlBook<FileStore<FileFrom<S>>> as Book>⟧
        result.ended result.left }
{
    match audited_from(runtime, files, output, progress, start) {
        Ok((ended, output, connection)) => Outcome {
            ended,
            output: Some(output),
            left: Left::Open(connection),
        },
        Err((fault, output, left)) => Outcome {
            ended: Err(fault),
            output: Some(output),
            left,
        },
    }
}

// Audits the book in a file, which keeps the plans of the configuration in another one. Returns how
// that ended, the output and the connection to the book.
fn audited_from<S: Start, W: Write + Drop, E: Write + Drop>(
    runtime: &HostRuntime,
    files: BookFile<'_>,
    output: W,
    progress: E,
    start: S,
) -> Result<(Result<Status, Fault>, W, FileConnection<S>), (Fault, W, Left<FileFrom<S>>)>
    ensures done { IfOk result (λ done. IfOk done.0 (λ status. status ≡ Status.Done)) }
    ensures audited { IfOk result (λ done. (config : Config)
        × ReadsConfig files.entry.config.now (Ok config)
        × Worked (image_at S.Start) config.plans (λ first last.
        Audits ⟦<SqlBook<FileStore<FileFrom<S>>> as Book>⟧ config (W.contents output)
        (W.contents done.1) first last done.0) done.2) }
    ensures refused { IfErr result (λ e. HasNoConfig files.entry.config.now e.0 e.2
        ⊎ ((config : Config) × ReadsConfig files.entry.config.now (Ok config)
        × IsRefused (image_at S.Start) config.plans e.0 e.2)) }
{
    let config = match config_of(runtime, files.config) {
        Ok(config) => config,
        Err((fault, left)) => return Err((fault, output, left)),
    };
    match adopted(runtime, files, &config.plans, start) {
        Ok(book) => Ok(audited(runtime.alloc(), &config, book, output, progress)),
        Err((fault, left)) => Err((fault, output, left)),
    }
}

// Audits a book in any store, and returns its connection.
fn audited<T: Alter + Drop, W: Write + Drop, E: Write + Drop>(
    alloc: Global,
    config: &Config,
    mut book: SqlBook<T>,
    output: W,
    progress: E,
) -> (Result<Status, Fault>, W, Connection<T>)
    ensures done { IfOk result.0 (λ status. status ≡ Status.Done) }
    ensures audits { Audits ⟦<SqlBook<T> as Book>⟧ config.now (W.contents output)
        (W.contents result.1) book result.2 result.0 }
{
    let (ended, output) = run_audit(alloc, config, &mut book, output, progress);
    (ended, output, book.into_connection())
}
