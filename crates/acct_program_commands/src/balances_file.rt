//! The file of all balances, for a RADIUS server that reads them before a login. It has the lines
//! of `export balances`.
//!
//! It is written after a slice of turns, at most once in so many seconds. A failed write changes
//! nothing else. It is printed once, until a write succeeds again.
ghost use Rattle.std.specs.Prelude.{◌≡◌, ℕ, IfOk, is_err};
ghost use Rattle.acct_book.specs.Step.{OnlyLooks};
ghost use Rattle.acct_program_commands.specs.Exports.{WritesBalances};
ghost use Rattle.acct_program_commands.specs.Fresh.{IsDue};
ghost use Rattle.acct_program_commands.specs.Placed.{PutsAccounts, took_long};
ghost use Rattle.acct_program_commands.specs.Unwritten.{next_count, puts_after, unwritten};
ghost use Rattle.acct_program_commands.specs.Unwritten.{Rewrites};

use crate::counted_lines::CountedLines;
use crate::exporting::write_balances;
use crate::fault::Fault;
use crate::file_changes::ReplacesFiles;
use crate::fresh_file::FreshFile;
use crate::gauges::{BalancesWritten, Gauges};
use acct_book::Book;
use acct_program_args::BalancesFile;
use std::alloc::{AllocError, Global};
use std::io::Write;

/// A file of more accounts took long to write: no report is answered meanwhile.
const MOST_ACCOUNTS: u64 = 10_000;
/// The file shows who owes what: its owner may write it, its group may read it, nobody else may.
const MODE: u32 = 0o640;

/// The file of all balances of a book, rewritten at an interval.
#[derive(Drop)]
pub struct KeptBalances<'r, R> {
    runtime: &'r R,
    file: FreshFile,
}

impl<'r, R: ReplacesFiles> KeptBalances<'r, R> {
    /// A file that was not written yet.
    pub fn new(
        runtime: &'r R,
        alloc: Global,
        balances: &BalancesFile,
    ) -> Result<KeptBalances<'r, R>, AllocError>
        ensures { IfOk result (λ kept.
            kept.file ≡ unwritten balances.now.file MODE balances.now.seconds) }
    {
        let file = FreshFile::new(alloc, &balances.file, MODE, balances.seconds)?;
        Ok(KeptBalances { runtime, file })
    }

    /// Writes all balances if that is due at a moment, in seconds since 1970. Notes in `gauges`
    /// what was written, or prints on `errors` why the write failed. After a file of more than
    /// 10,000 accounts the next one is due after an hour at the earliest.
    pub fn keep<B: Book, E: Write>(
        &mut self,
        alloc: Global,
        book: &mut B,
        moment: u64,
        gauges: &Gauges,
        errors: &mut E,
    )
        ensures looks { OnlyLooks B.Book book.old book.new }
        ensures due { IsDue self.old.file.pause self.old.file.begun_at moment
            → (count : ℕ) × Rewrites (took_long self.new.file.is_failing count)
            (λ name. PutsAccounts (R.was_put name) count (B.content book.old)
            (B.is_open book.new)) moment self.old.file self.new.file }
        ensures idle { ¬ IsDue self.old.file.pause self.old.file.begun_at moment
            → self.new.file ≡ self.old.file }
    {
        if !self.file.is_due(moment) {
            return;
        }
        let written = write_file(self.runtime, alloc, &mut self.file, book);
        let (is_long, noted) = match written {
            Ok((accounts, overdrawn)) => {
                gauges.note_balances(BalancesWritten {
                    at: moment,
                    accounts,
                    overdrawn,
                });
                (accounts > MOST_ACCOUNTS, Ok(()))
            }
            Err(fault) => (false, Err(fault)),
        };
        let begun_at = Some(moment);
        let _ = self.file.note(begun_at, is_long, "balances", noted, errors);
    }
}

// Writes all balances into a file. Returns the number of accounts and of overdrawn ones.
fn write_file<R: ReplacesFiles, B: Book>(
    runtime: &R,
    alloc: Global,
    file: &mut FreshFile,
    book: &mut B,
) -> Result<(u64, u64), Fault>
    ensures looks { OnlyLooks B.Book book.old book.new }
    ensures put { IfOk result (λ counts. PutsAccounts (R.was_put file.old.name) counts.0
        (B.content book.old) (B.is_open book.new)) }
    ensures counted { file.new ≡ record file.old {
      begins = next_count file.old.begins;
      puts = puts_after (is_err result) file.old.puts;
    } }
{
    let writer = CountedLines::new(file.begin(runtime)?);
    let (written, count) = write_balances(alloc, book, writer)?;
    let overdrawn = written.overdrawn();
    file.finish(runtime, written.writer)?;
    Ok((count, overdrawn))
}
