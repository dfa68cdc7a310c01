//! The commands that make a book: a new one, a current one from an older one, or one with more
//! plans.
ghost use Rattle.std.specs.Prelude.{◌≢◌, ◌≡◌, is_some, IfOk, IfErr, OnOk};
ghost use Rattle.std.specs.Io.KnownBytes.{Appends};
ghost use Rattle.sqlite_wal.specs.Files.{image_at};
ghost use Rattle.acct_program_jobs.specs.inner.Files.{sums_of};
ghost use Rattle.acct_program_jobs.specs.Jobs.{ClosesOrFails, Makes, FailsToMake, line_of, text_of};

use crate::book_file::BookFile;
use crate::command::{Ending, Outcome, config_of, with_book};
use crate::database::{close, made};
use crate::left::Left;
use acct_book::Book;
use acct_program::Status;
use acct_program_commands::Fault;
use acct_sql::SqlBook;
use sqlite::{FileFrom, FileStore, Start};
use std::io;
use std::io::Write;

/// How a book is made of the files for the plans of a configuration.
#[derive(Clone, Copy, PartialEq, Eq)]
pub enum Making {
    /// `init`: an empty book, if the files hold no table.
    New {
        /// Whether each page is to end in a sum, if the files hold no database yet.
        has_sums: bool,
    },
    /// `migrate`: a current book, from an older one.
    Migrated,
    /// `plans`: the book that they hold, with the plans that it did not keep yet.
    Extended,
}

impl Making {
    /// A new book, each page of which ends in a sum, if that is requested.
    pub(crate) fn new(has_sums: bool) -> Making
        ensures { result ≡ Making.New has_sums }
    {
        Making::New { has_sums }
    }

    /// Whether a new book is made.
    pub(crate) fn makes_new(self) -> bool
        ensures { result ≡ is_some (sums_of self) }
    {
        match self {
            Making::New { .. } => true,
            Making::Migrated | Making::Extended => false,
        }
    }
}

/// `init`, `migrate` and `plans`: makes a book, closes it, and prints a line about that.
pub(crate) fn make<S: Start, W: Write + Drop>(
    runtime: &HostRuntime,
    making: Making,
    files: BookFile<'_>,
    mut output: W,
    start: S,
) -> Outcome<W, FileFrom<S>>
    ensures other { IfOk result.ended (λ status. status ≢ Status.BadCommandLine) }
    ensures does { ClosesOrFails (Makes (image_at S.Start) files.entry.config.now
        ⟦<SqlBook<FileStore<FileFrom<S>>> as Book>⟧ making (W.contents output)
        (text_of W.contents result.output))
        (FailsToMake (image_at S.Start) making files.entry.config.now)
        result.ended result.left }
{
    let ending = made_and_closed(runtime, making, files, &mut output, start);
    with_book(ending, output)
}

// How the making of a book ended, and its files if it was closed.
fn made_and_closed<S: Start, W: Write>(
    runtime: &HostRuntime,
    making: Making,
    files: BookFile<'_>,
    output: &mut W,
    start: S,
) -> Ending<S>
    ensures other { IfOk result (λ done. done.0 ≢ Status.BadCommandLine) }
    ensures made { IfOk result (λ done. Makes (image_at S.Start) files.entry.config.now
        ⟦<SqlBook<FileStore<FileFrom<S>>> as Book>⟧ making (W.contents output.old)
        (W.contents output.new) done.0 done.1) }
    ensures failed { IfErr result (λ e. FailsToMake (image_at S.Start) making files.entry.config.now
        e.0 e.1) }
{
    let config = config_of(runtime, files.config)?;
    let (book, count) = made(runtime, making, files, &config.plans, start)?;
    let files = close(book)?;
    match write_made(output, making, count) {
        Ok(()) => Ok((Status::Done, files)),
        Err(_) => Err((Fault::CannotWrite, Left::Closed(files))),
    }
}

// Prints that a book was made this way.
fn write_made<W: Write>(output: &mut W, making: Making, count: u64) -> io::Result<()>
    ensures { OnOk result (Appends (W.contents output.old) (W.contents output.new)
        (line_of making count)) }
{
    write_line(output, making, count)?;
    output.flush()
}

// Writes the line for a book that was made this way, with how many plans were added.
fn write_line<W: Write>(output: &mut W, making: Making, count: u64) -> io::Result<()>
    ensures { OnOk result (Appends (W.contents output.old) (W.contents output.new)
        (line_of making count)) }
{
    match making {
        Making::New { .. } => writeln!(output, "book made"),
        Making::Migrated => writeln!(output, "schema 3"),
        Making::Extended => writeln!(output, "added {count}"),
    }
}
