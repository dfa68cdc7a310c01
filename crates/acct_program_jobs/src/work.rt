//! The commands that work on the book of a file, and close it at their end.
ghost use Rattle.std.specs.Prelude.{◌≢◌, ◌≡◌, ◌<◌, ◌≤◌, ◌^◌, ℕ, List, Option, Result};
ghost use Rattle.std.specs.Prelude.{Ok, None, Some, IfOk, IfErr, IfSome};
ghost use Rattle.sqlite_wal.specs.Files.{image_at};
ghost use Rattle.acct_book.specs.declared.book.Book as book;
ghost use Rattle.acct_site.specs.declared.config.Config.{Config};
ghost use Rattle.acct_program.specs.declared.status.Status.{Status};
ghost use Rattle.acct_program_commands.specs.declared.fault.Fault.{Fault};
ghost use Rattle.acct_program_commands.specs.Imports.{Runs};
ghost use Rattle.acct_program_commands.specs.Survey.{RunsForward};
ghost use Rattle.acct_program_args.specs.Orders.{IsBounded};
ghost use Rattle.acct_program_serving.specs.Files.{seen_before};
ghost use Rattle.acct_program_serving.specs.Serving.{AreReports, IsBoundTo, RunsServer};
ghost use Rattle.acct_program_jobs.specs.Files.{Copies};
ghost use Rattle.acct_program_jobs.specs.Commands.{IsNotClosed};
ghost use Rattle.acct_program_jobs.specs.Jobs.{ClosesOrFails, WorksAndCloses, FailsAtWork, text_of};

use crate::book_file::BookFile;
use crate::command::{Ending, Outcome, config_of, with_book};
use crate::database::{FileConnection, adopted, close};
use crate::explained_site::ExplainedSite;
use crate::left::Left;
use acct_book::Book;
use acct_model::Text;
use acct_net::Sockets;
use acct_program::Status;
use acct_program_args::{Carrying, Serving};
use acct_program_commands::{ClockReading, Fault, ReplacesFiles, run_forward, run_import};
use acct_program_serving::{Errors, Surroundings, run_serve};
use acct_service::Exchange;
use acct_site::Config;
use acct_sql::SqlBook;
use sqlite::{FileFrom, FileStore, Start};
use std::io::{Read, Write};
use std::time::Clock;

/// What a command does with an open book, and what it prints.
pub(crate) trait Work<W: Write> {
    /// What it needs.
    ghost is_ready: { Self → Type 0 };

    /// What it does with a configuration if it ends this way: from one book to another, and from
    /// the old output to the new one.
    ghost did: { {B : Type 0} → book.Ghosts B → Self → Config → Result Status Fault → B → B
        → Option (List ℕ) → Option (List ℕ) → Type 0 };

    /// Does it.
    fn over<B: Book>(
        self,
        runtime: &HostRuntime,
        config: &Config,
        book: &mut B,
        output: &mut W,
    ) -> Result<Status, Fault>
        requires { is_ready self }
        ensures other { IfOk result (λ status. status ≢ Status.BadCommandLine) }
        ensures did { did B.Book self config.now result book.old book.new (W.contents output.old)
            (W.contents output.new) };
}

/// `import` by a clock.
#[derive(Drop)]
pub(crate) struct Import<I: Drop> {
    moment: u64,
    input: I,
}

impl<I: Read + Drop> Import<I> {
    /// The lines of an input, by what a clock says.
    pub(crate) fn by(clock: ClockReading, input: I) -> Import<I>
        ensures { result ≡ record { moment = clock.moment; input = input } }
    {
        Import {
            moment: clock.moment(),
            input,
        }
    }
}

impl<W: Write, I: Read + Drop> Work<W> for Import<I> {
    ghost is_ready = { λ it. it.moment < 2 ^ 53 };

    ghost did = { λ b it config ended first last before after. Runs b config.plans it.moment
        (I.remaining it.input) first last before after ended };

    fn over<B: Book>(
        self,
        runtime: &HostRuntime,
        config: &Config,
        book: &mut B,
        output: &mut W,
    ) -> Result<Status, Fault> {
        let Import { moment, input } = self;
        run_import(runtime.alloc(), &config.plans, book, moment, input, output)
    }
}

/// `forward` by a clock.
#[derive(Drop)]
pub(crate) struct Forward<'a, E: Drop> {
    carrying: &'a Carrying,
    clock: ClockReading,
    progress: E,
}

impl<'a, E: Drop> Forward<'a, E> {
    /// What was asked, by what a clock says of the book in a file. Its progress is printed among
    /// the notices.
    pub(crate) fn by(
        clock: ClockReading,
        carrying: &'a Carrying,
        errors: Errors<E>,
    ) -> Forward<'a, E>
        ensures { result ≡ record {
          carrying = carrying.entry;
          clock = clock;
          progress = errors.notices;
        } }
    {
        Forward {
            carrying,
            clock,
            progress: errors.notices,
        }
    }
}

impl<W: Write, E: Write + Drop> Work<W> for Forward<'_, E> {
    ghost is_ready = { λ it. (it.clock.moment < 2 ^ 53)
        × IfSome it.carrying.now.oldest_report (λ days. days ≤ 36500) };

    ghost did = { λ b it config ended first last before after.
        RunsForward b config.plans it.carrying.now it.clock.moment it.clock.written_at before after
        first last ended };

    fn over<B: Book>(
        self,
        runtime: &HostRuntime,
        config: &Config,
        book: &mut B,
        output: &mut W,
    ) -> Result<Status, Fault> {
        let Forward {
            carrying,
            clock,
            mut progress,
        } = self;
        run_forward(
            runtime.alloc(),
            &config.plans,
            book,
            carrying,
            clock,
            output,
            &mut progress,
        )
    }
}

/// `serve`, with the file of its book by name.
#[derive(Drop)]
pub(crate) struct Server<'a, R, E: Drop> {
    pub(crate) serving: &'a Serving,
    pub(crate) file: &'a Text,
    pub(crate) around: Surroundings<'a, R, ExplainedSite<'a, R>, E>,
}

impl<W: Write, E: Write + Drop> Work<W> for Server<'_, HostRuntime, E> {
    // Its sockets for reports are bound already, and the book is not open yet.
    ghost is_ready = { λ it. IsBounded it.serving.now
        × AreReports it.serving.now.listening it.around.reports };

    // The file of the configuration is polled, and the clock is read. No contract can say what they
    // show.
    ghost did = { λ b it config ended first last before after. RunsServer b
        ⟦<Sockets<'static, HostRuntime> as Exchange>⟧
        ⟦<HostRuntime as ReplacesFiles>⟧.was_put
        (IsBoundTo it.serving.now.listening)
        (Some it.around.source.file.name.now) None None (seen_before it.around.names)
        it.serving.now config before after ended first last };

    fn over<B: Book>(
        self,
        runtime: &HostRuntime,
        config: &Config,
        book: &mut B,
        output: &mut W,
    ) -> Result<Status, Fault> {
        let Server {
            serving,
            file,
            around,
        } = self;
        let alloc = runtime.alloc();
        run_serve(runtime, alloc, config, around, file, book, serving, output)
    }
}

/// Works on the book in a file by the configuration in another one, and closes it. The first fault
/// ends it.
pub(crate) fn work_on<S: Start, W: Write + Drop, K: Work<W> + Drop>(
    runtime: &HostRuntime,
    files: BookFile<'_>,
    work: K,
    mut output: W,
    start: S,
) -> Outcome<W, FileFrom<S>>
    requires { K.is_ready work }
    ensures other { IfOk result.ended (λ status. status ≢ Status.BadCommandLine) }
    ensures does { ClosesOrFails (WorksAndCloses (image_at S.Start) files.entry.config.now
        (λ config ended first last. K.did ⟦<SqlBook<FileStore<FileFrom<S>>> as Book>⟧ work config
        ended first last (W.contents output) (text_of W.contents result.output)))
        (FailsAtWork (image_at S.Start) files.entry.config.now
        (λ config ended first last. K.did ⟦<SqlBook<FileStore<FileFrom<S>>> as Book>⟧ work config
        ended first last (W.contents output) (text_of W.contents result.output)))
        result.ended result.left }
{
    let config = match config_of(runtime, files.config) {
        Ok(config) => config,
        Err(failed) => return with_book(Err(failed), output),
    };
    let mut book = match adopted(runtime, files, &config.plans, start) {
        Ok(book) => book,
        Err(failed) => return with_book(Err(failed), output),
    };
    let ended = work.over(runtime, &config, &mut book, &mut output);
    with_book(finished(ended, book.into_connection()), output)
}

// Closes the book of a command that ended this way. After a fault its files stay open.
fn finished<S: Start>(ended: Result<Status, Fault>, connection: FileConnection<S>) -> Ending<S>
    ensures closed { IfOk result (λ done. (ended ≡ Ok done.0) × Copies connection done.1) }
    ensures failed { IfErr result (λ e. IsNotClosed ended connection e.0 e.1) }
{
    match ended {
        Ok(status) => match close(connection) {
            Ok(files) => Ok((status, files)),
            Err(failed) => Err(failed),
        },
        Err(fault) => Err((fault, Left::Open(connection))),
    }
}
