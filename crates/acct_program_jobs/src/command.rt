//! Each job over the files of a book.
//!
//! `export` and `plans --list` only read the book, and leave its files as they are. The other jobs
//! that keep a book close it at their end.
ghost use Rattle.std.specs.Prelude.{◌≢◌, ◌≡◌, ◌⊎◌, ℕ, Ok, Err, IfOk, IfErr};
ghost use Rattle.std.specs.Prelude.{true, false, None, Some, List, Option};
ghost use Rattle.sqlite_wal.specs.Files.{image_at};
ghost use Rattle.acct_site.specs.declared.config.Config.{Config};
ghost use Rattle.acct_program_args.specs.Orders.{AreBounded, HasBounds, IsBounded};
ghost use Rattle.acct_program_commands.specs.Endings.{ended_status};
ghost use Rattle.acct_program_jobs.specs.Commands.{Worked, WritesOut, FailsToExport, refused};
ghost use Rattle.acct_book.specs.Step.{Looks};
ghost use Rattle.acct_program_commands.specs.Exports.{IsExportFault};
ghost use Rattle.acct_program_serving.specs.Serving.{IsBoundTo};
ghost use Rattle.acct_program_jobs.specs.Jobs.{DoesBookJob, DoesJob, HasNoConfig};
ghost use Rattle.acct_program_jobs.specs.Jobs.{ExportsBook, ExportsNothing, FeedsNothing};
ghost use Rattle.acct_program_jobs.specs.Jobs.{FeedsScript, text_of, IsSiteOf};
ghost use Rattle.acct_program_commands.specs.Checks.{ReadsConfig};
ghost use Rattle.acct_program_commands.specs.KeptNames.{NamesSome};
ghost use Rattle.std.specs.Option.{option_copied, option_map};

use crate::book_file::BookFile;
use crate::checking::{Checking, check};
use crate::database::{FileConnection, adopted};
use crate::feed_job::run_feed;
use crate::left::Left;
use crate::making::{Making, make};
use crate::plans_job::list_plans;
use crate::serving::server_of;
use crate::work::{Forward, Import, work_on};
use acct_book::Book;
use acct_model::{Plans, Text};
use acct_net::Sockets;
use acct_program::Status;
use acct_program_args::{BookJob, Export, Job, Order, Serving, Telling};
use acct_program_commands::{
    Fault, ServerFiles, end, keep_others, read_clock, read_config, run_export, run_key,
};
use acct_program_serving::Errors;
use acct_reads::ReadsFiles;
use acct_service::Exchange;
use acct_site::{Config, sample_config};
use acct_sql::SqlBook;
use sqlite::{Alter, Connection, FileFrom, FileStore, Files, MemStore, Start};
use sqlite_disk::Disk;
use std::alloc::Global;
use std::io::{Read, Write};

/// What a command reads, and where it prints.
#[derive(Drop)]
pub struct Streams<I: Drop, W: Drop, E: Drop> {
    /// Its input: the lines of `import`, and the script of `feed`.
    pub input: I,
    /// Its output.
    pub output: W,
    /// Where a server prints its drops and counts, and where long work shows its progress.
    pub errors: Errors<E>,
}

impl<I: Drop, W: Drop, E: Drop> Streams<I, W, E> {
    /// The streams of a command.
    pub fn new(input: I, output: W, errors: Errors<E>) -> Streams<I, W, E>
        ensures input { result.input ≡ input }
        ensures output { result.output ≡ output }
        ensures errors { result.errors ≡ errors }
    {
        Streams {
            input,
            output,
            errors,
        }
    }
}

/// How a command ended, its output if that was not lost, and what it left of its files.
#[derive(Drop)]
pub struct Outcome<W, D: Disk> {
    /// Its status, or the fault that ended it.
    pub ended: Result<Status, Fault>,
    /// Its output.
    pub output: Option<W>,
    /// What it left of the book's files.
    pub left: Left<D>,
}

/// The end of a command that closes its book, or what a fault left.
pub(crate) type Ending<S> = Result<(Status, Files<FileFrom<S>>), (Fault, Left<FileFrom<S>>)>;

/// Does the job of an order over these streams. The book's files held what `S` says. A book whose
/// log is damaged is rejected, unless the commits from the damage on may be lost. What a server
/// prints while it runs goes to the errors of the streams: its drops and counts only if it is not
/// quiet. Returns the exit status, and the outcome of the job. A fault that ended it is printed on
/// `faults`.
pub fn carry_out<S: Start, I: Read + Drop, W: Write + Drop, E: Write + Drop, F: Write>(
    runtime: &HostRuntime,
    order: &Order,
    streams: Streams<I, W, E>,
    faults: &mut F,
    start: S,
) -> (Status, Outcome<W, FileFrom<S>>)
    requires { HasBounds order.now.job }
    ensures status { result.0 ≡ ended_status result.1.ended }
    ensures does { DoesJob (image_at S.Start) ⟦<SqlBook<FileStore<FileFrom<S>>> as Book>⟧
        ⟦<Sockets<'static, HostRuntime> as Exchange>⟧ IsBoundTo
        ⟦<SqlBook<MemStore> as Book>⟧
        (I.remaining streams.input) (W.contents streams.output)
        (text_of W.contents result.1.output) order.now.job result.1.ended result.1.left }
{
    let Streams {
        input,
        mut output,
        errors,
    } = streams;
    let alloc = runtime.alloc();
    let outcome = match &order.job {
        Job::Book(paths, job) => {
            let files = BookFile::of(paths, order.loses_commits);
            let streams = Streams::new(input, output, errors);
            do_book_job(runtime, files, job, streams, start)
        }
        Job::Feed { config } => {
            let ended = feed(runtime, config.as_ref(), input, &mut output);
            without_book(ended, output)
        }
        Job::Check {
            config,
            database,
            kept,
            audits,
        } => {
            let checking = Checking::of(config, database.as_ref(), *audits, order.loses_commits);
            check(runtime, checking, kept, output, errors, start)
        }
        Job::Key {
            config,
            account,
            until,
        } => {
            let ended = run_key(runtime, alloc, config, account, *until, &mut output);
            without_book(ended, output)
        }
    };
    told(faults, outcome)
}

// Does a job that keeps a book, over the files of the book.
fn do_book_job<S: Start, I: Read + Drop, W: Write + Drop, E: Write + Drop>(
    runtime: &HostRuntime,
    files: BookFile<'_>,
    job: &BookJob,
    streams: Streams<I, W, E>,
    start: S,
) -> Outcome<W, FileFrom<S>>
    requires { AreBounded job.now }
    ensures other { IfOk result.ended (λ status. status ≢ Status.BadCommandLine) }
    ensures does { DoesBookJob (image_at S.Start) ⟦<SqlBook<FileStore<FileFrom<S>>> as Book>⟧
        ⟦<Sockets<'static, HostRuntime> as Exchange>⟧ IsBoundTo
        ⟦<SqlBook<MemStore> as Book>⟧
        (I.remaining streams.input) (W.contents streams.output) (text_of W.contents result.output)
        files.entry.config.now files.entry.database.now job.now result.ended result.left }
{
    let Streams {
        input,
        output,
        errors,
    } = streams;
    match job {
        BookJob::Init { has_sums } => make(runtime, Making::new(*has_sums), files, output, start),
        BookJob::Serve(serving) => serve_files(runtime, files, serving, output, errors, start),
        BookJob::Import => {
            let import = Import::by(read_clock(runtime, files.database), input);
            work_on(runtime, files, import, output, start)
        }
        BookJob::Export(what) => export(runtime, files, *what, output, start),
        BookJob::Migrate => make(runtime, Making::Migrated, files, output, start),
        BookJob::AddPlans => make(runtime, Making::Extended, files, output, start),
        BookJob::ListPlans => list_plans(runtime, files, output, start),
        BookJob::Forward(carrying) => {
            let clock = read_clock(runtime, files.database);
            let forward = Forward::by(clock, carrying, errors);
            work_on(runtime, files, forward, output, start)
        }
    }
}

/// Serves the book of a file, as `carry_out` does, but prints no fault. A program that assumes
/// something else about a torn write while it serves calls this and `told`, so that its other jobs
/// are compiled only once.
pub fn serve_files<S: Start, W: Write + Drop, E: Write + Drop>(
    runtime: &HostRuntime,
    files: BookFile<'_>,
    serving: &Serving,
    output: W,
    errors: Errors<E>,
    start: S,
) -> Outcome<W, FileFrom<S>>
    requires { IsBounded serving.now }
    ensures other { IfOk result.ended (λ status. status ≢ Status.BadCommandLine) }
    ensures does { (text : Option (List ℕ)) → DoesBookJob (image_at S.Start)
        ⟦<SqlBook<FileStore<FileFrom<S>>> as Book>⟧
        ⟦<Sockets<'static, HostRuntime> as Exchange>⟧ IsBoundTo
        ⟦<SqlBook<MemStore> as Book>⟧
        text (W.contents output) (text_of W.contents result.output)
        files.entry.config.now files.entry.database.now (BookJob.Serve serving.now) result.ended
        result.left }
{
    match keep_others(runtime, files_of_server(files, &serving.telling)) {
        Ok(()) => {
            let server = server_of(runtime, files, serving, errors);
            work_on(runtime, files, server, output, start)
        }
        Err(fault) => without_book(Err(fault), output),
    }
}

/// The exit status of a job with this outcome, and the outcome. A fault that ended it is printed on
/// `faults`.
pub fn told<W: Write, D: Disk, F: Write>(
    faults: &mut F,
    outcome: Outcome<W, D>,
) -> (Status, Outcome<W, D>)
    requires { IfOk outcome.ended (λ status. status ≢ Status.BadCommandLine) }
    ensures status { result.0 ≡ ended_status outcome.ended }
    ensures same { result.1 ≡ outcome }
{
    (end(faults, outcome.ended), outcome)
}

// The files of a server, by name.
fn files_of_server<'a>(files: BookFile<'a>, telling: &'a Telling) -> ServerFiles<'a>
    ensures some { NamesSome result.status result.balances
        → NamesSome telling.now.status telling.now.balances }
    ensures config { result.config.now ≡ files.entry.config.now }
    ensures database { option_copied result.database ≡ Some files.entry.database.now }
    ensures status { option_copied result.status ≡ telling.now.status }
    ensures balances { option_copied result.balances
        ≡ option_map (λ balances. balances.file) telling.now.balances }
{
    ServerFiles {
        config: files.config,
        database: Some(files.database),
        status: telling.status.as_ref(),
        balances: match &telling.balances {
            Some(balances) => Some(&balances.file),
            None => None,
        },
    }
}

/// The outcome of a command that has no book.
pub(crate) fn without_book<W: Write, D: Disk>(
    ended: Result<Status, Fault>,
    output: W,
) -> Outcome<W, D>
    requires { IfOk ended (λ status. status ≢ Status.BadCommandLine) }
    ensures same { result.ended ≡ ended }
    ensures output { text_of W.contents result.output ≡ W.contents output }
    ensures left { result.left ≡ Left.Nothing }
    ensures other { IfOk result.ended (λ status. status ≢ Status.BadCommandLine) }
{
    Outcome {
        ended,
        output: Some(output),
        left: Left::Nothing,
    }
}

/// The outcome of a command that closes its book.
pub(crate) fn with_book<W: Write, D: Disk>(
    ending: Result<(Status, Files<D>), (Fault, Left<D>)>,
    output: W,
) -> Outcome<W, D>
    requires { IfOk ending (λ done. done.0 ≢ Status.BadCommandLine) }
    ensures ok { IfOk ending (λ done. (result.ended ≡ Ok done.0)
        × (result.left ≡ Left.Closed done.1)) }
    ensures err { IfErr ending (λ e. (result.ended ≡ Err e.0) × (result.left ≡ e.1)) }
    ensures output { text_of W.contents result.output ≡ W.contents output }
    ensures other { IfOk result.ended (λ status. status ≢ Status.BadCommandLine) }
{
    match ending {
        Ok((status, files)) => Outcome {
            ended: Ok(status),
            output: Some(output),
            left: Left::Closed(files),
        },
        Err((fault, left)) => Outcome {
            ended: Err(fault),
            output: Some(output),
            left,
        },
    }
}

// `feed` with the configuration of a file, or that of the sample site.
fn feed<R: ReadsFiles + AllocGlobal, I: Read + Drop, W: Write + Drop>(
    runtime: &R,
    file: Option<&Text>,
    input: I,
    output: &mut W,
) -> Result<Status, Fault>
    ensures other { IfOk result (λ status. status ≢ Status.BadCommandLine) }
    ensures refused { IfErr result (FeedsNothing (option_copied file.entry)) }
    ensures done { result ≡ Ok Status.Done → (config : Config)
        × IsSiteOf (option_copied file.entry) config
        × FeedsScript ⟦<SqlBook<MemStore> as Book>⟧ config (I.remaining input)
        (W.contents output.old) (W.contents output.new) }
{
    let alloc = runtime.alloc();
    let config = match file {
        Some(file) => read_config(runtime, alloc, file)?,
        None => match sample_config(alloc) {
            Ok(config) => config,
            Err(_) => {
                writeln!(output, "unavailable")?;
                output.flush()?;
                return Ok(Status::Unavailable);
            }
        },
    };
    Ok(run_feed(alloc, config, input, output))
}

/// The configuration of a command that keeps a book, before any file of the book is opened.
pub(crate) fn config_of<R: ReadsFiles + AllocGlobal, D: Disk>(
    runtime: &R,
    file: &Text,
) -> Result<Config, (Fault, Left<D>)>
    ensures read { IfOk result (λ config. ReadsConfig file.now (Ok config)) }
    ensures refused { IfErr result (λ e. HasNoConfig file.now e.0 e.1) }
{
    match read_config(runtime, runtime.alloc(), file) {
        Ok(config) => Ok(config),
        Err(fault) => Err((fault, Left::Nothing)),
    }
}

// `export` of the book of a file.
fn export<S: Start, W: Write + Drop>(
    runtime: &HostRuntime,
    files: BookFile<'_>,
    what: Export,
    output: W,
    start: S,
) -> Outcome<W, FileFrom<S>>
    ensures other { IfOk result.ended (λ status. status ≢ Status.BadCommandLine) }
    ensures does { ExportsBook (image_at S.Start) files.entry.config.now
        ⟦<SqlBook<FileStore<FileFrom<S>>> as Book>⟧ what
        (W.contents output) (text_of W.contents result.output) result.ended result.left
        ⊎ ExportsNothing (image_at S.Start) files.entry.config.now
        ⟦<SqlBook<FileStore<FileFrom<S>>> as Book>⟧
        result.ended result.left }
{
    let config = match read_config(runtime, runtime.alloc(), files.config) {
        Ok(config) => config,
        Err(fault) => return without_book(Err(fault), output),
    };
    match exported(runtime, &config, files, what, output, start) {
        Ok((output, connection)) => Outcome {
            ended: Ok(Status::Done),
            output: Some(output),
            left: Left::Open(connection),
        },
        Err((fault, left)) => Outcome {
            ended: Err(fault),
            output: None,
            left,
        },
    }
}

// `export` with a configuration that was read. The files stay as they are: it needs no close.
fn exported<S: Start, W: Write + Drop>(
    runtime: &HostRuntime,
    config: &Config,
    files: BookFile<'_>,
    what: Export,
    output: W,
    start: S,
) -> Result<(W, FileConnection<S>), (Fault, Left<FileFrom<S>>)>
    ensures exported { IfOk result (λ done. Worked (image_at S.Start) config.now.plans
        (WritesOut ⟦<SqlBook<FileStore<FileFrom<S>>> as Book>⟧ config.now.plans what
        (W.contents output) (W.contents done.0)) done.1) }
    ensures failed { IfErr result (λ e. FailsToExport
        ⟦<SqlBook<FileStore<FileFrom<S>>> as Book>⟧ (image_at S.Start) config.now.plans e.0 e.1) }
{
    let book = adopted(runtime, files, &config.plans, start)?;
    match written_out(runtime.alloc(), what, &config.plans, book, output) {
        Ok(done) => Ok(done),
        Err((fault, connection)) => Err((fault, Left::Open(connection))),
    }
}

// Writes out a book in any store, and returns its connection.
fn written_out<T: Alter + Drop, W: Write + Drop>(
    alloc: Global,
    what: Export,
    plans: &Plans,
    mut book: SqlBook<T>,
    output: W,
) -> Result<(W, Connection<T>), (Fault, Connection<T>)>
    ensures exported { IfOk result (λ done. WritesOut ⟦<SqlBook<T> as Book>⟧ plans.now what
        (W.contents output) (W.contents done.0) book done.1) }
    ensures failed { IfErr result (λ e. Looks ⟦<SqlBook<T> as Book>⟧ book e.1 (refused e.0)
        × IsExportFault e.0) }
{
    match run_export(alloc, what, plans, &mut book, output) {
        Ok(writer) => Ok((writer, book.into_connection())),
        Err(fault) => Err((fault, book.into_connection())),
    }
}
