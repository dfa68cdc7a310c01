//! Turns in slices. After each slice the server polls what may have changed: its clients and keys,
//! and whether its book can still be read and written.
ghost use Rattle.std.specs.Prelude.{◌≡◌, ◌≢◌, ◌+◌, ◌-◌, ◌^◌, ◌<◌, ◌≤◌, true, false, IsTrue, None, Some};
ghost use Rattle.acct_book.specs.Step.{OnlyLooks};
ghost use Rattle.acct_wire.specs.Reasons.{count_for};
ghost use Rattle.acct_service.specs.Serving.{AtMost};
ghost use Rattle.acct_service.specs.Slices.{MakesTurns, ServesInSlices, GoRounds};

use crate::exchange::Exchange;
use crate::outbox::Outbox;
use crate::rounds::Rounds;
use crate::rules::Rules;
use crate::server::{Served, Turns, take_turns};
use acct_book::Book;
use acct_site::Config;
use acct_wire::Reason;
use std::alloc::Global;

/// How many turns are made before the book is checked again. If the server is idle they take 5
/// seconds over sockets that wait 20 milliseconds for a datagram.
const SLICE: u64 = 256;

/// Why a server stopped making turns.
#[derive(Clone, Copy, PartialEq, Eq, Debug)]
pub enum Until {
    /// It made all turns.
    AllMade,
    /// Its book failed to return a balance. A book that a failed write has shut fails each call
    /// until it is opened again.
    Shut,
    /// In a slice reports were dropped because the book failed, and none was recorded. The book can
    /// be read, and not written.
    Stuck,
    /// A round ended it.
    Over,
}

/// Makes `limit` turns, as `serve` does, in slices, and calls `rounds` after each slice. If that
/// returns a configuration, the turns that follow have it. If it says so, they are silent.
///
/// It ends early if the book returns no balance after a slice, because a shut book answers nobody
/// any more. It also ends early if in a slice the book failed for every report that it could have
/// recorded, and there was one. Either book must be opened again. And it ends early if a round says
/// so.
///
/// What `serve` ensures for its turns holds for those that were made, each under the configuration
/// of its slice (`ServesInSlices`). Each call of `rounds` goes as it ensures (`GoRounds`).
///
/// In 256 turns it costs one call of `rounds` and one search of the book more than `serve`.
pub fn serve_in_slices<B: Book, X: Exchange, G: Rounds>(
    alloc: Global,
    rules: &Rules<'_>,
    book: &mut B,
    exchange: &mut X,
    rounds: &mut G,
    limit: u64,
) -> (Served, Until)
    requires turns { X.turn_count exchange.old + limit ≤ 2 ^ 64 - 1 }
    requires failures { X.failure_count exchange.old + limit ≤ 2 ^ 64 - 1 }
    ensures turns { MakesTurns limit (X.turn_count exchange.old) (X.turn_count exchange.new)
        result.1 }
    ensures faults { X.failure_count exchange.new
        ≡ X.failure_count exchange.old + result.0.faults }
    ensures within { AtMost limit result.0 }
    ensures serves { ServesInSlices B.Book rules.now.oldest rules.now.config.now limit
        book.old book.new (X.told exchange.old) (X.told exchange.new)
        (λ slices. GoRounds G.Rounds (B.is_open book.new) rounds.old slices rounds.new)
        (X.turn_count exchange.new - X.turn_count exchange.old) result.0 result.1 }
    // A book that always returns a balance never ends a run this way.
    ensures shut { result.1 ≡ Until.Shut → B.is_steady book.old → ⊥ }
    // Nor does a book that failed for no report.
    ensures stuck { result.1 ≡ Until.Stuck → 0 < count_for result.0.dropped Reason.Unavailable }
    // A round that ends the run is the last one.
    ensures over { result.1 ≡ Until.Over → G.is_over rounds.new ≡ true }
    ensures goes_on { result.1 ≡ Until.AllMade → 0 < limit → G.is_over rounds.new ≡ false }
    // A shut book ends a run: after all turns a sound book is open.
    ensures open { result.1 ≡ Until.AllMade → 0 < limit → B.is_sound book.new → B.is_open book.new }
{
    let mut out = Outbox::new();
    let mut served = Served::none();
    let mut changed: Option<Config> = None;
    let mut left = limit;
    while left > 0 {
        let slice = left.min(SLICE);
        let config = changed.as_ref().unwrap_or(rules.config);
        let site = Rules {
            config,
            oldest: rules.oldest,
        };
        let refused = served.drops_for(Reason::Unavailable);
        out.forget_answers();
        let turns = Turns {
            count: slice,
            is_silent: rounds.is_silent(),
        };
        take_turns(alloc, &site, book, exchange, turns, &mut out, &mut served);
        left -= slice;
        let is_stuck = are_stuck(&out, &served, refused);
        changed = rounds.go_round(alloc, config, book).or(changed);
        if let Some(why) = ending(book, is_stuck, rounds) {
            return (served, why);
        }
    }
    (served, Until::AllMade)
}

// Whether in a slice the book failed for a report, and no datagram was answered. Before it the book
// had failed for so many.
fn are_stuck(out: &Outbox, served: &Served, refused: u64) -> bool
    ensures yes { IsTrue result → (out.now.has_answered ≡ false)
        × (refused < count_for served.now.dropped Reason.Unavailable) }
    ensures no { result ≡ false → out.now.has_answered ≡ false
        → count_for served.now.dropped Reason.Unavailable ≤ refused }
{
    !out.has_answered() && served.drops_for(Reason::Unavailable) > refused
}

// Why the turns end after a slice, if they do: the book is shut, or it is stuck, or a round ended
// them.
fn ending<B: Book, G: Rounds>(book: &mut B, is_stuck: bool, rounds: &G) -> Option<Until>
    ensures looks { OnlyLooks B.Book book.old book.new }
    ensures early { result ≢ Some Until.AllMade }
    ensures shut { result ≡ Some Until.Shut → B.is_steady book.old → ⊥ }
    ensures stuck { result ≡ Some Until.Stuck → IsTrue is_stuck }
    ensures over { result ≡ Some Until.Over → G.is_over rounds.now ≡ true }
    ensures goes_on { result ≡ None → (is_stuck ≡ false) × (G.is_over rounds.now ≡ false) }
    ensures open { result ≡ None → B.is_sound book.new → B.is_open book.new }
{
    if is_shut(book) {
        Some(Until::Shut)
    } else if is_stuck {
        Some(Until::Stuck)
    } else if rounds.is_over() {
        Some(Until::Over)
    } else {
        None
    }
}

// Whether the book fails to return a balance: any balance, so that of the empty name.
fn is_shut<B: Book>(book: &mut B) -> bool
    ensures looks { OnlyLooks B.Book book.old book.new }
    ensures steady { IsTrue result → B.is_steady book.old → ⊥ }
    ensures open { result ≡ false → B.is_sound book.new → B.is_open book.new }
{
    book.balance(b"").is_err()
}
