//! `feed` over an empty book, whose tables are kept in memory.
ghost use Rattle.std.specs.Prelude.{◌≡◌, ◌≢◌, List, [], ℕ, IfOk, IfSome};
ghost use Rattle.acct_book.specs.Stands.{Stands};
ghost use Rattle.acct_program_feed.specs.Feed.{RanAfresh};

use acct_book::{Book, Unavailable};
use acct_model::Plans;
use acct_program::Status;
use acct_program_feed::{answer_reader, end};
use acct_site::Config;
use acct_sql::SqlBook;
use sqlite::{Connection, MemStore};
use std::alloc::Global;
use std::io::{Read, Write};

/// Answers the lines of the reader over an empty book, whose tables are kept in memory. Returns how
/// it ended: `Refused` after a bad line, an input that is too long or cannot be read, or a writer
/// that fails.
pub fn run_feed<R: Read + Drop, W: Write>(
    alloc: Global,
    config: Config,
    mut reader: R,
    writer: &mut W,
) -> Status
    ensures words { result ≢ Status.BadCommandLine }
    ensures ran { result ≡ Status.Done → (input : List ℕ)
        × IfSome (R.remaining reader) (λ all. input ≡ all)
        × RanAfresh ⟦<SqlBook<MemStore> as Book>⟧ config.clients config.plans input
        (W.contents writer.old) (W.contents writer.new) }
{
    let status = match empty_book(alloc, &config.plans) {
        Ok(book) => answer_reader(alloc, config, book, &mut reader, writer),
        Err(_) => end(writer, "unavailable", Status::Unavailable),
    };
    match writer.flush() {
        Ok(()) => status,
        Err(_) => Status::Refused,
    }
}

// An empty book in tables that are kept in memory.
fn empty_book(alloc: Global, plans: &Plans) -> Result<SqlBook<MemStore>, Unavailable>
    ensures { IfOk result (λ book. ⟦<SqlBook<MemStore> as Book>⟧.is_open book
        × Stands plans.now (⟦<SqlBook<MemStore> as Book>⟧.content book) []) }
{
    let connection = Connection::open_in_memory(alloc)?;
    match SqlBook::create(alloc, connection, plans) {
        Ok(book) => Ok(book),
        Err(_) => Err(Unavailable),
    }
}
