//! Which drops are logged while a server runs. One source and one reason get at most one line in
//! ten seconds, so that a flood of datagrams is no flood of lines.
ghost use Rattle.std.specs.Prelude.{◌≡◌, ◌≤◌, ◌<◌, ◌^◌, ◌-◌, ℕ, None, Some, MatchOption, IfSome};
ghost use Rattle.std.specs.Prelude.{replicate, slice_index_or, slice_set};
ghost use Rattle.acct_program_commands.specs.Drops.{TellsDrop, KeepsBack, KeepsPair, KeepsNone};
ghost use Rattle.acct_program_commands.specs.Drops.{TellsAgain, KeepsBackAgain, TellsFirst};
ghost use Rattle.acct_program_commands.specs.Drops.{HasNoRoom};
ghost use Rattle.acct_program_commands.specs.Drops.{quiet_for};
ghost use Rattle.acct_program_commands.specs.declared.drop_log.Pair.{Pair};

use acct_wire::Reason;
use std::marker::Model;

/// How many pairs of a source and a reason are kept at most.
const MOST: usize = 256;
/// For how many seconds the drops of a pair are suppressed, once one was logged.
const PAUSE: u64 = 10;

/// A source and a reason of which a drop was logged.
#[derive(Clone, Copy)]
pub struct Pair {
    /// The IPv4 address that they came from.
    pub source: [u8; 4],
    /// Why they were dropped.
    pub reason: Reason,
    /// When one was last logged, in seconds since 1970.
    pub told_at: u64,
    /// How many were dropped since, and not logged.
    pub more: u64,
}

/// The pairs of a source and a reason of which a drop was logged, at most 256. It allocates no
/// memory.
pub struct DropLog {
    places: [Option<Pair>; MOST],
}

impl Drop for DropLog {
    fn drop(self) {
        let DropLog { places: _ } = self;
    }
}

impl Model for DropLog {
    ghost use Rattle.std.specs.Prelude.{◌≡◌, List, Option, length};
    ghost use Rattle.acct_program_commands.specs.declared.drop_log.Pair.{Pair};

    ghost Value = { List (Option Pair) };

    ghost view = { λ l. l.places };

    ghost invariant = { λ l. length l.places ≡ 256 };
}

impl DropLog {
    /// No pairs.
    pub fn new() -> DropLog
        ensures { result ≡ replicate 256 None }
    {
        DropLog {
            places: [None; MOST],
        }
    }

    /// Notes a drop at a moment, in seconds since 1970. If it returns a number, the caller logs the
    /// drop. The number is how many drops of its source and reason were suppressed since the last
    /// logged one.
    ///
    /// A drop is suppressed if one of its pair was logged less than ten seconds before, or after,
    /// if the clock went back. A new pair takes the place of the one that was logged longest ago.
    /// If that was less than ten seconds ago, the new pair's drop is suppressed too.
    pub fn note(&mut self, source: [u8; 4], reason: Reason, moment: u64) -> Option<u64>
        ensures { MatchOption result (KeepsBack self.old self.new source reason moment)
            (TellsDrop self.old self.new source reason moment) }
    {
        match self.find(source, reason) {
            Some((place, pair)) => self.note_again(place, pair, moment),
            None => self.note_first(source, reason, moment),
        }
    }

    // Where a pair is kept, and what is kept of it.
    fn find(&self, source: [u8; 4], reason: Reason) -> Option<(usize, Pair)>
        ensures { MatchOption result (KeepsNone self.now source reason)
            (λ found. (found.0 < 256) × KeepsPair self.now source reason found.0 found.1) }
    {
        for (place, kept) in self.places.iter().enumerate() {
            if let Some(pair) = *kept {
                if pair.source == source && pair.reason == reason {
                    return Some((place, pair));
                }
            }
        }
        None
    }

    // Notes a drop whose pair is kept at a place.
    fn note_again(&mut self, place: usize, pair: Pair, moment: u64) -> Option<u64>
        requires { place < 256 }
        ensures { MatchOption result (KeepsBackAgain self.old self.new place pair moment)
            (TellsAgain self.old self.new place pair moment) }
    {
        if moment.abs_diff(pair.told_at) < PAUSE {
            let more = pair.more.saturating_add(1);
            self.places[place] = Some(Pair { more, ..pair });
            return None;
        }
        self.places[place] = Some(Pair {
            told_at: moment,
            more: 0,
            ..pair
        });
        Some(pair.more)
    }

    // Notes a drop whose pair is not kept.
    fn note_first(&mut self, source: [u8; 4], reason: Reason, moment: u64) -> Option<u64>
        ensures { MatchOption result (HasNoRoom self.old self.new moment)
            (TellsFirst self.old self.new source reason moment) }
    {
        let place = self.quietest(moment);
        if quiet_seconds(self.places[place], moment) < PAUSE {
            return None;
        }
        self.places[place] = Some(Pair {
            source,
            reason,
            told_at: moment,
            more: 0,
        });
        Some(0)
    }

    // The place at which nothing was logged for the longest time.
    fn quietest(&self, moment: u64) -> usize
        ensures within { result < 256 }
        ensures longest { (k : ℕ) → k < 256 → quiet_for moment (slice_index_or self.now k None)
            ≤ quiet_for moment (slice_index_or self.now result None) }
    {
        let mut quietest = 0;
        for place in 0..MOST {
            let longest = quiet_seconds(self.places[quietest], moment);
            if quiet_seconds(self.places[place], moment) > longest {
                quietest = place;
            }
        }
        quietest
    }
}

// For how many seconds nothing was logged at a place, even if the clock went back: `u64::MAX` if it
// has no pair.
fn quiet_seconds(place: Option<Pair>, moment: u64) -> u64
    ensures { result ≡ quiet_for moment place }
{
    match place {
        Some(pair) => moment.abs_diff(pair.told_at),
        None => u64::MAX,
    }
}
