//! What a server received, counted call by call of its exchange.
ghost use Rattle.std.specs.Prelude.{◌≡◌, false};
ghost use Rattle.acct_program_commands.specs.Tally.{no_tally, with_mute, with_came, with_reply};
ghost use Rattle.acct_program_commands.specs.Tally.{with_drop};
ghost use Rattle.acct_program_commands.specs.Tally.{is_event, plus_one};

use acct_service::{Event, Fault};

/// What a server received, counted. A count stays at 2^64 - 1.
#[derive(Clone, Copy, PartialEq, Eq)]
pub struct Tally {
    /// Datagrams and requests that were received.
    pub events: u64,
    /// Replies and responses that were taken.
    pub replies: u64,
    /// Datagrams that were dropped.
    pub drops: u64,
    /// Requests that got no response because memory ran out.
    pub mute: u64,
    /// Faults of receiving and of sending.
    pub faults: u64,
}

impl Tally {
    /// Nothing yet.
    pub fn none() -> Tally
        ensures { result ≡ no_tally }
    {
        Tally {
            events: 0,
            replies: 0,
            drops: 0,
            mute: 0,
            faults: 0,
        }
    }
}

/// What was received of one kind: datagrams, or requests at the desk. The count stays at 2^64 - 1.
#[derive(Clone, Copy, PartialEq, Eq)]
pub struct Arrivals {
    /// How many were received.
    pub count: u64,
    /// When the last one was received, in seconds since 1970: 0 if there was none yet.
    pub last_at: u64,
}

impl Arrivals {
    /// Nothing yet.
    pub fn none() -> Arrivals
        ensures { result ≡ record { count = 0; last_at = 0 } }
    {
        Arrivals {
            count: 0,
            last_at: 0,
        }
    }

    // With one more, at a moment.
    pub(crate) fn and_at(self, moment: u64) -> Arrivals
        ensures { result ≡ record { count = plus_one self.count; last_at = moment } }
    {
        Arrivals {
            count: self.count.saturating_add(1),
            last_at: moment,
        }
    }
}

/// A tally that is kept call by call. An event that is neither replied to nor dropped before the
/// next turn is mute.
#[derive(Clone, Copy)]
pub(crate) struct Meter {
    /// What was counted.
    pub(crate) tally: Tally,
    /// Whether an event was received that has no answer yet.
    pub(crate) is_unanswered: bool,
}

impl Meter {
    /// Nothing yet.
    pub(crate) fn new() -> Meter
        ensures counts { result.tally ≡ no_tally }
        ensures answered { result.is_unanswered ≡ false }
    {
        Meter {
            tally: Tally::none(),
            is_unanswered: false,
        }
    }

    /// Counts an event that had no answer before the next turn, or before the end.
    pub(crate) fn note_mute(&mut self)
        ensures counts { self.new.tally ≡ with_mute self.old.is_unanswered self.old.tally }
        ensures answered { self.new.is_unanswered ≡ false }
    {
        if self.is_unanswered {
            self.tally.mute = self.tally.mute.saturating_add(1);
            self.is_unanswered = false;
        }
    }

    /// Counts what a turn received, after `note_mute`.
    pub(crate) fn note_came(&mut self, came: &Result<Option<Event>, Fault>)
        ensures counts { self.new.tally ≡ with_came came.now self.old.tally }
        ensures waits { self.new.is_unanswered ≡ is_event came.now }
    {
        self.is_unanswered = false;
        match came {
            Ok(Some(_)) => {
                self.tally.events = self.tally.events.saturating_add(1);
                self.is_unanswered = true;
            }
            Ok(None) => {}
            Err(_) => self.tally.faults = self.tally.faults.saturating_add(1),
        }
    }

    /// Counts a reply, which was taken or not.
    pub(crate) fn note_reply(&mut self, is_taken: bool)
        ensures counts { self.new.tally ≡ with_reply is_taken self.old.tally }
        ensures answered { self.new.is_unanswered ≡ false }
    {
        self.is_unanswered = false;
        if is_taken {
            self.tally.replies = self.tally.replies.saturating_add(1);
        } else {
            self.tally.faults = self.tally.faults.saturating_add(1);
        }
    }

    /// Counts a drop.
    pub(crate) fn note_drop(&mut self)
        ensures counts { self.new.tally ≡ with_drop self.old.tally }
        ensures answered { self.new.is_unanswered ≡ false }
    {
        self.is_unanswered = false;
        self.tally.drops = self.tally.drops.saturating_add(1);
    }
}
