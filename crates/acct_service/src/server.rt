//! The turns of a server.
ghost use Rattle.std.specs.Prelude.{◌≡◌, ℕ, ◌+◌, ◌-◌, ◌^◌, ◌<◌, ◌≤◌, ◌==◌};
ghost use Rattle.std.specs.Prelude.{if◌then◌else◌, [], true};
ghost use Rattle.acct_wire.specs.Reasons.{reason_number, count_for};
ghost use Rattle.acct_wire.specs.declared.reason.Reason.{Reason};
ghost use Rattle.acct_service.specs.Serving.{Serves, TakesTurn, TakesTurns, Counts, AtMost};

use crate::exchange::Exchange;
use crate::outbox::Outbox;
use crate::rules::Rules;
use crate::stepping::{Turn, step_within};
use acct_book::Book;
use acct_site::Config;
use acct_wire::Reason;
use std::alloc::Global;

/// What a server did in its turns, counted.
#[derive(Clone, Copy, PartialEq, Eq, Debug)]
pub struct Served {
    /// The events that were received.
    pub events: u64,
    /// The replies that were taken.
    pub replies: u64,
    /// The datagrams that were dropped, for each reason in the order of the numbers.
    pub dropped: [u64; Reason::COUNT],
    /// The requests at the desk for whose response there was no memory.
    pub mute: u64,
    /// The calls of the exchange that failed.
    pub faults: u64,
}

impl Served {
    /// Nothing yet.
    pub fn none() -> Served
        ensures counts { Counts [] result }
        ensures faults { result.faults ≡ 0 }
    {
        Served {
            events: 0,
            replies: 0,
            dropped: [0; Reason::COUNT],
            mute: 0,
            faults: 0,
        }
    }

    /// How many datagrams were dropped for a reason.
    pub fn drops_for(&self, reason: Reason) -> u64
        ensures { result ≡ count_for self.now.dropped reason }
    {
        self.dropped[reason.place()]
    }

    // Counts a datagram that was dropped.
    fn count_drop(&mut self, why: Reason)
        requires { (reason : Reason) → count_for self.old.dropped reason < 2 ^ 64 - 1 }
        ensures dropped { (reason : Reason) → count_for self.new.dropped reason
            ≡ count_for self.old.dropped reason
            + (if reason_number why == reason_number reason then 1 else 0) }
        ensures others { self.new ≡ record self.old { dropped = self.new.dropped } }
    {
        self.dropped[why.place()] += 1;
    }
}

/// Makes one turn, silent or not: one `next`, and at most one `step_within` and one `reply` or
/// `note_drop`. An event is answered and counted. A fault is counted too. An entry that was
/// recorded stays recorded if its reply fails.
///
/// Turns join (`laws::turns_join`), so all that `serve` ensures at its end holds after each of its
/// turns. A kill may fall there: what a crash then leaves has every entry that was answered. A kill
/// within a turn leaves what a kill before it could leave. Or it leaves the history before the turn
/// with the turn's own entry (`acct_book::Book`, `acct_book::record`).
///
/// It costs what `answer` or `handle` costs.
pub fn take_turn<B: Book, X: Exchange>(
    alloc: Global,
    rules: &Rules<'_>,
    book: &mut B,
    exchange: &mut X,
    is_silent: bool,
    out: &mut Outbox,
    served: &mut Served,
)
    requires turns { X.turn_count exchange.old < 2 ^ 64 - 1 }
    requires failures { X.failure_count exchange.old < 2 ^ 64 - 1 }
    requires room { AtMost (2 ^ 64 - 2) served.old }
    ensures turns { X.turn_count exchange.new ≡ X.turn_count exchange.old + 1 }
    ensures faults { X.failure_count exchange.new + served.old.faults
        ≡ X.failure_count exchange.old + served.new.faults }
    ensures few { X.failure_count exchange.new ≤ X.failure_count exchange.old + 1 }
    ensures room { (n : ℕ) → AtMost n served.old → AtMost (n + 1) served.new }
    ensures events { served.new.events ≤ served.old.events + 1 }
    ensures silent { is_silent ≡ true → served.new.events ≡ served.old.events }
    ensures turn { TakesTurn B.Book rules.now.oldest rules.now.config.now book.old book.new
        (X.told exchange.old) (X.told exchange.new) served.old served.new out.old.has_answered
        out.new.has_answered }
{
    match exchange.next(is_silent) {
        Err(_) => served.faults += 1,
        Ok(None) => {}
        Ok(Some(event)) => {
            served.events += 1;
            match step_within(alloc, rules, book, &event, out) {
                Turn::Reply => match exchange.reply(&event, out.bytes()) {
                    Ok(()) => served.replies += 1,
                    Err(_) => served.faults += 1,
                },
                Turn::Dropped(reason) => {
                    served.count_drop(reason);
                    exchange.note_drop(&event, reason);
                }
                Turn::Mute => served.mute += 1,
            }
        }
    }
}

/// Turns of a server.
#[derive(Clone, Copy, PartialEq, Eq, Debug)]
pub struct Turns {
    /// How many there are.
    pub count: u64,
    /// Whether nobody is heard in them.
    pub is_silent: bool,
}

/// Makes exactly so many turns, as `take_turn` makes one, and adds to the counts.
pub fn take_turns<B: Book, X: Exchange>(
    alloc: Global,
    rules: &Rules<'_>,
    book: &mut B,
    exchange: &mut X,
    turns: Turns,
    out: &mut Outbox,
    served: &mut Served,
)
    requires turns { X.turn_count exchange.old + turns.count ≤ 2 ^ 64 - 1 }
    requires failures { X.failure_count exchange.old + turns.count ≤ 2 ^ 64 - 1 }
    requires room { AtMost (2 ^ 64 - 1 - turns.count) served.old }
    ensures turns { X.turn_count exchange.new ≡ X.turn_count exchange.old + turns.count }
    ensures faults { X.failure_count exchange.new + served.old.faults
        ≡ X.failure_count exchange.old + served.new.faults }
    ensures few { X.failure_count exchange.new ≤ X.failure_count exchange.old + turns.count }
    ensures room { (n : ℕ) → AtMost n served.old → AtMost (n + turns.count) served.new }
    ensures events { served.new.events ≤ served.old.events + turns.count }
    ensures silent { turns.is_silent ≡ true → served.new.events ≡ served.old.events }
    ensures taken { TakesTurns B.Book rules.now.oldest rules.now.config.now book.old book.new
        (X.told exchange.old) (X.told exchange.new) served.old served.new out.old.has_answered
        out.new.has_answered }
{
    for turn in 0..turns.count {
        take_turn(alloc, rules, book, exchange, turns.is_silent, out, served);
    }
}

/// Makes exactly `limit` turns, as `take_turn` makes one.
///
/// Over any book and any exchange there are visits: events with answers. If the exchange records
/// its calls, it returned these events, was asked for these replies and notified of these drops.
/// Each is for its own event, before the next one, and none is left out. From each history for
/// which the book's content stood, they are a run of the machine to another, for which the content
/// then stands. So every account's balance is the sum of its distinct vouchers less the price of
/// each of its sessions' greatest accepted total. That holds whatever is lost, repeated or
/// reordered. The entries accepted before it determine every reply. What a crash may leave at the
/// end has every entry that was answered.
///
/// The buffers are made once. A turn costs what `answer` or `handle` costs.
pub fn serve<B: Book, X: Exchange>(
    alloc: Global,
    config: &Config,
    book: &mut B,
    exchange: &mut X,
    limit: u64,
) -> Served
    requires turns { X.turn_count exchange.old + limit ≤ 2 ^ 64 - 1 }
    requires failures { X.failure_count exchange.old + limit ≤ 2 ^ 64 - 1 }

    // Only about the exchange: the turns that it made, and the faults that it counted.
    ensures turns { X.turn_count exchange.new ≡ X.turn_count exchange.old + limit }
    ensures faults { X.failure_count exchange.new
        ≡ X.failure_count exchange.old + result.faults }

    // About the counts: none is above the turns.
    ensures within { AtMost limit result }

    // About the book, the exchange, and both together.
    ensures serves { Serves B.Book config.now book.old book.new (X.told exchange.old)
        (X.told exchange.new) result }
{
    let mut out = Outbox::new();
    let mut served = Served::none();
    let rules = Rules {
        config,
        oldest: None,
    };
    let turns = Turns {
        count: limit,
        is_silent: false,
    };
    take_turns(alloc, &rules, book, exchange, turns, &mut out, &mut served);
    served
}
