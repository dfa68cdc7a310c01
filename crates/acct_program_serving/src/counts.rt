//! The counts of a server, as they are printed.
ghost use Rattle.std.specs.Prelude.{Some};
ghost use Rattle.acct_program_serving.specs.Counts.{counts_text, drops_text};

use std::fmt;

/// What a server counted of all that it received.
#[derive(Clone, Copy, PartialEq, Eq)]
pub struct Counts {
    /// Datagrams and requests that were received.
    pub events: u64,
    /// Replies and responses that were taken.
    pub replies: u64,
    /// Requests that got no response because memory ran out.
    pub mute: u64,
    /// Faults of receiving and of sending.
    pub faults: u64,
}

impl fmt::Display for Counts {
    ghost output = { λ counts. Some (counts_text counts) };

    fn fmt<W: fmt::Write>(&self, f: &mut fmt::Formatter<W>) -> fmt::Result {
        let (events, replies) = (self.events, self.replies);
        let (mute, faults) = (self.mute, self.faults);
        write!(
            f,
            "events {events}, replies {replies}, mute {mute}, faults {faults}"
        )
    }
}

/// How many datagrams were dropped for one reason.
#[derive(Clone, Copy, PartialEq, Eq)]
pub struct Drops {
    /// The reason's number.
    pub reason: u8,
    /// How many.
    pub count: u64,
}

impl fmt::Display for Drops {
    ghost output = { λ drops. Some (drops_text drops) };

    fn fmt<W: fmt::Write>(&self, f: &mut fmt::Formatter<W>) -> fmt::Result {
        let (reason, count) = (self.reason, self.count);
        write!(f, "dropped {reason}: {count}")
    }
}
