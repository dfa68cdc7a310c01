//! The run of a server whose exchange is watched.
ghost use Rattle.std.specs.Prelude.{◌+◌, ◌-◌, ◌≤◌, ◌^◌};
ghost use Rattle.acct_service.specs.Slices.{GoRounds};
ghost use Rattle.acct_program_serving.specs.Serving.{EndsOver};

use crate::ended::Ended;
use crate::printing::{write_counts, write_serving};
use acct_book::Book;
use acct_program_commands::{ReplacesFiles, StatusFile, Watch, Watched};
use acct_service::{Exchange, Rounds, Rules, serve_in_slices};
use std::alloc::Global;
use std::io::Write;
use std::time::Clock;

/// What a server prints while it runs, and the file of its counts.
pub struct Watcher<'r, R, D: Write, E: Drop> {
    /// The clock for a turn without an event.
    pub clock: &'r R,
    /// What logs its drops and the counts of each minute, if these are logged.
    pub drops: Option<Watch<D>>,
    /// The file of its counts, if one is kept.
    pub counts: Option<StatusFile<'r, R, E>>,
}

impl<'r, R: Clock + ReplacesFiles, D: Write + Drop, E: Write + Drop> Watcher<'r, R, D, E> {
    /// Serves by these rules over a book and an exchange for so many turns, and returns the
    /// exchange. It prints that it serves before the first turn, and the counts after the last one.
    /// `serve_exchange` defines how it may end.
    ///
    /// Whatever is printed and written, the calls of the exchange are those of the run, and the
    /// counts are those of its visits. The rounds went between its slices.
    pub fn serve<B: Book, X: Exchange, G: Rounds, W: Write>(
        self,
        alloc: Global,
        rules: &Rules<'_>,
        book: &mut B,
        exchange: X,
        rounds: &mut G,
        turns: u64,
        output: &mut W,
    ) -> (X, Ended)
        requires turns { X.turn_count exchange + turns ≤ 2 ^ 64 - 1 }
        requires failures { X.failure_count exchange + turns ≤ 2 ^ 64 - 1 }
        ensures { EndsOver B.Book X.Exchange rules.now.oldest rules.now.config.now turns
            (λ slices. GoRounds G.Rounds (B.is_open book.new) rounds.old slices rounds.new)
            book.old book.new exchange result.0 (W.contents output.old) (W.contents output.new) result.1 }
    {
        let Watcher {
            clock,
            drops,
            counts,
        } = self;
        let mut watched = Watched::new(clock, exchange, drops, counts);
        let ended = serve_exchange(alloc, rules, book, &mut watched, rounds, turns, output);
        let (exchange, _drops) = watched.finish().into_parts();
        (exchange, ended)
    }
}

/// Makes this many turns of an exchange over a book, in slices, and calls `rounds` after each
/// slice. Makes fewer only if the book is found shut or stuck, or a round ends them. Returns how the
/// run ended. Prints and flushes `serving` before the first turn, and the counts after the last one.
///
/// The turns answer what they receive, whatever the output does then: they are a run of
/// `serve_in_slices`.
pub fn serve_exchange<B: Book, X: Exchange, G: Rounds, W: Write>(
    alloc: Global,
    rules: &Rules<'_>,
    book: &mut B,
    exchange: &mut X,
    rounds: &mut G,
    turns: u64,
    output: &mut W,
) -> Ended
    requires turns { X.turn_count exchange.old + turns ≤ 2 ^ 64 - 1 }
    requires failures { X.failure_count exchange.old + turns ≤ 2 ^ 64 - 1 }
    ensures { EndsOver B.Book X.Exchange rules.now.oldest rules.now.config.now turns
        (λ slices. GoRounds G.Rounds (B.is_open book.new) rounds.old slices rounds.new)
        book.old book.new exchange.old exchange.new (W.contents output.old) (W.contents output.new) result }
{
    let Ok(()) = write_serving(output) else {
        return Ended::NotBegun;
    };
    let (served, until) = serve_in_slices(alloc, rules, book, exchange, rounds, turns);
    match write_counts(output, &served) {
        Ok(()) => Ended::Told(served, until),
        Err(_) => Ended::Untold(served, until),
    }
}
