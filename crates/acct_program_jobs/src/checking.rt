//! `check` of a configuration and, if one is given, of the book of a file, which may be audited.
ghost use Rattle.std.specs.Prelude.{◌≢◌, ◌≡◌, ◌⊎◌, Ok, IfOk, IfErr};
ghost use Rattle.std.specs.Io.KnownBytes.{Appends};
ghost use Rattle.std.specs.Option.{option_copied};
ghost use Rattle.sqlite_wal.specs.Files.{image_at};
ghost use Rattle.acct_program_commands.specs.KeptNames.{NamesSome};
ghost use Rattle.acct_site.specs.declared.config.Config.{Config};
ghost use Rattle.acct_program_commands.specs.Anew.{ChecksOver};
ghost use Rattle.acct_program_commands.specs.Checks.{ReadsConfig};
ghost use Rattle.acct_program_commands.specs.Exports.{IsExportFault};
ghost use Rattle.acct_program_jobs.specs.Commands.{Worked};
ghost use Rattle.acct_program_jobs.specs.Files.{IsRefused};
ghost use Rattle.acct_program_jobs.specs.Jobs.{DoesCheck, ChecksBook, LooksAtNone, HasNoConfig};
ghost use Rattle.acct_program_jobs.specs.Jobs.{text_of, KeepsOthers, ChecksOrAudits};

use crate::audit_job::audit_book;
use crate::book_file::BookFile;
use crate::command::{Outcome, config_of, without_book};
use crate::database::{FileConnection, adopted};
use crate::left::Left;
use acct_book::Book;
use acct_model::Text;
use acct_program::Status;
use acct_program_args::KeptNames;
use acct_program_commands::{Fault, ServerFiles, check_over, keep_others, run_check};
use acct_program_serving::Errors;
use acct_site::Config;
use acct_sql::SqlBook;
use sqlite::{Alter, Connection, FileFrom, FileStore, Start};
use std::alloc::Global;
use std::io::Write;

/// What `check` looks at.
#[derive(Clone, Copy)]
pub(crate) struct Checking<'a> {
    config: &'a Text,
    database: Option<&'a Text>,
    audits: bool,
    loses_commits: bool,
}

impl<'a> Checking<'a> {
    /// The configuration in a file, and the book in another one, if it is given. Its balances are
    /// added up if that is asked for.
    pub(crate) fn of(
        config: &'a Text,
        database: Option<&'a Text>,
        audits: bool,
        loses_commits: bool,
    ) -> Checking<'a>
        ensures config { result.config.now ≡ config.now }
        ensures database { option_copied result.database ≡ option_copied database.entry }
        ensures audits { result.audits ≡ audits }
        ensures loses { result.loses_commits ≡ loses_commits }
    {
        Checking {
            config,
            database,
            audits,
            loses_commits,
        }
    }

    // The files of the book.
    fn files(self, database: &'a Text) -> BookFile<'a>
        ensures config { result.config.now ≡ self.entry.config.now }
        ensures database { result.database.now ≡ database.now }
        ensures loses { result.loses_commits ≡ self.entry.loses_commits }
    {
        BookFile {
            config: self.config,
            database,
            loses_commits: self.loses_commits,
        }
    }
}

/// `check` of the configuration in a file, and of the files that a server will write. If a book in
/// another file is given, it must keep the plans of the configuration. If it is audited, its
/// balances must be right. It does not change. The progress of an audit goes to the notices.
pub(crate) fn check<S: Start, W: Write + Drop, E: Write + Drop>(
    runtime: &HostRuntime,
    checking: Checking<'_>,
    kept: &KeptNames,
    output: W,
    errors: Errors<E>,
    start: S,
) -> Outcome<W, FileFrom<S>>
    ensures other { IfOk result.ended (λ status. status ≢ Status.BadCommandLine) }
    ensures does { KeepsOthers kept.now.status kept.now.balances (W.contents output)
        (text_of W.contents result.output) result.ended result.left
        ⊎ ChecksOrAudits (image_at S.Start) checking.entry.config.now
        ⟦<SqlBook<FileStore<FileFrom<S>>> as Book>⟧
        (W.contents output) (text_of W.contents result.output) checking.entry.audits
        (option_copied checking.entry.database) result.ended result.left }
{
    match keep_others(runtime, files_of(checking, kept)) {
        Ok(()) => check_or_audit(runtime, checking, output, errors.notices, start),
        Err(fault) => without_book(Err(fault), output),
    }
}

// `check` of files that a server would not overwrite, with an audit, if that is requested.
fn check_or_audit<S: Start, W: Write + Drop, E: Write + Drop>(
    runtime: &HostRuntime,
    checking: Checking<'_>,
    output: W,
    progress: E,
    start: S,
) -> Outcome<W, FileFrom<S>>
    ensures other { IfOk result.ended (λ status. status ≢ Status.BadCommandLine) }
    ensures does { ChecksOrAudits (image_at S.Start) checking.entry.config.now
        ⟦<SqlBook<FileStore<FileFrom<S>>> as Book>⟧
        (W.contents output) (text_of W.contents result.output) checking.entry.audits
        (option_copied checking.entry.database) result.ended result.left }
{
    if !checking.audits {
        return check_files(runtime, checking, output, start);
    }
    match checking.database {
        Some(database) => { audit_book(runtime, checking.files(database), output, progress, start) }
        None => check_files(runtime, checking, output, start),
    }
}

// The files of a server, by name, as `check` gets them.
fn files_of<'a>(checking: Checking<'a>, kept: &'a KeptNames) -> ServerFiles<'a>
    ensures some { NamesSome result.status result.balances
        → NamesSome kept.now.status kept.now.balances }
    ensures config { result.config.now ≡ checking.entry.config.now }
    ensures database { option_copied result.database ≡ option_copied checking.entry.database }
    ensures status { option_copied result.status ≡ kept.now.status }
    ensures balances { option_copied result.balances ≡ kept.now.balances }
{
    ServerFiles {
        config: checking.config,
        database: checking.database,
        status: kept.status.as_ref(),
        balances: kept.balances.as_ref(),
    }
}

// `check` of a configuration, and of a book, if one is given.
fn check_files<S: Start, W: Write + Drop>(
    runtime: &HostRuntime,
    checking: Checking<'_>,
    mut output: W,
    start: S,
) -> Outcome<W, FileFrom<S>>
    ensures other { IfOk result.ended (λ status. status ≢ Status.BadCommandLine) }
    ensures does { DoesCheck (image_at S.Start) checking.entry.config.now
        ⟦<SqlBook<FileStore<FileFrom<S>>> as Book>⟧ (option_copied checking.entry.database)
        (W.contents output) (text_of W.contents result.output) result.ended result.left }
{
    match checking.database {
        None => {
            let ended = run_check(runtime, runtime.alloc(), checking.config, &mut output);
            without_book(ended, output)
        }
        Some(database) => check_book(runtime, checking.files(database), output, start),
    }
}

// `check` of a configuration and a book.
fn check_book<S: Start, W: Write + Drop>(
    runtime: &HostRuntime,
    files: BookFile<'_>,
    mut output: W,
    start: S,
) -> Outcome<W, FileFrom<S>>
    ensures other { IfOk result.ended (λ status. status ≢ Status.BadCommandLine) }
    ensures does { ChecksBook (image_at S.Start) files.entry.config.now
        ⟦<SqlBook<FileStore<FileFrom<S>>> as Book>⟧
        (W.contents output) (text_of W.contents result.output) result.ended result.left
        ⊎ LooksAtNone (image_at S.Start) files.entry.config.now
        ⟦<SqlBook<FileStore<FileFrom<S>>> as Book>⟧
        result.ended result.left }
{
    match checked_from(runtime, files, &mut output, start) {
        Ok((ended, connection)) => Outcome {
            ended,
            output: Some(output),
            left: Left::Open(connection),
        },
        Err((fault, left)) => Outcome {
            ended: Err(fault),
            output: Some(output),
            left,
        },
    }
}

// Checks the book in a file, which keeps the plans of the configuration in another one. Returns how
// that ended, and the connection to the book.
fn checked_from<S: Start, W: Write>(
    runtime: &HostRuntime,
    files: BookFile<'_>,
    output: &mut W,
    start: S,
) -> Result<(Result<Status, Fault>, FileConnection<S>), (Fault, Left<FileFrom<S>>)>
    ensures done { IfOk result (λ done. IfOk done.0 (λ status. status ≡ Status.Done)) }
    ensures checked { IfOk result (λ done. (config : Config)
        × ReadsConfig files.entry.config.now (Ok config)
        × Worked (image_at S.Start) config.plans (λ first last.
        ChecksOver ⟦<SqlBook<FileStore<FileFrom<S>>> as Book>⟧ config
        (Appends (W.contents output.old) (W.contents output.new)) first last done.0) done.1) }
    ensures why { IfOk result (λ done. IfErr done.0 IsExportFault) }
    ensures refused { IfErr result (λ e. HasNoConfig files.entry.config.now e.0 e.1
        ⊎ ((config : Config) × ReadsConfig files.entry.config.now (Ok config)
        × IsRefused (image_at S.Start) config.plans e.0 e.1)) }
{
    let config = config_of(runtime, files.config)?;
    let book = adopted(runtime, files, &config.plans, start)?;
    Ok(checked(runtime.alloc(), &config, book, output))
}

// Checks a book in any store, and returns its connection.
fn checked<T: Alter + Drop, W: Write>(
    alloc: Global,
    config: &Config,
    mut book: SqlBook<T>,
    output: &mut W,
) -> (Result<Status, Fault>, Connection<T>)
    ensures done { IfOk result.0 (λ status. status ≡ Status.Done) }
    ensures checks { ChecksOver ⟦<SqlBook<T> as Book>⟧ config.now
        (Appends (W.contents output.old) (W.contents output.new)) book result.1 result.0 }
    ensures why { IfErr result.0 IsExportFault }
{
    let ended = check_over(alloc, config, &mut book, output);
    (ended, book.into_connection())
}
