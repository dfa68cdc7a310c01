//! The lines that a server prints while it runs.
ghost use Rattle.std.specs.Prelude.{Some};
ghost use Rattle.acct_program_commands.specs.Told.{told_drop_text, more_text, minute_text};

use crate::tally::Tally;
use acct_wire::Reason;
use std::fmt;
use std::net::Ipv4Addr;

/// A drop that is logged.
#[derive(Clone, Copy, PartialEq, Eq)]
pub struct ToldDrop {
    /// Why it was dropped.
    pub reason: Reason,
    /// The IPv4 address that it came from.
    pub source: [u8; 4],
    /// The UDP port that it came from.
    pub port: u16,
    /// How many more of its source and reason were dropped since the last logged one.
    pub more: u64,
}

impl fmt::Display for ToldDrop {
    ghost output = { λ drop. Some (told_drop_text drop) };

    fn fmt<W: fmt::Write>(&self, f: &mut fmt::Formatter<W>) -> fmt::Result {
        let (number, name) = (self.reason.number(), self.reason.name());
        let address = Ipv4Addr::from_octets(self.source);
        let (port, more) = (self.port, More { count: self.more });
        write!(f, "drop {number} {name} from {address}:{port}{more}")
    }
}

// How many more were dropped, if any.
#[derive(Clone, Copy, PartialEq, Eq)]
struct More {
    count: u64,
}

impl fmt::Display for More {
    ghost output = { λ more. Some (more_text more.count) };

    fn fmt<W: fmt::Write>(&self, f: &mut fmt::Formatter<W>) -> fmt::Result {
        let count = self.count;
        if count == 0 {
            return f.write_str("");
        }
        write!(f, ", {count} more")
    }
}

/// What a server received in a minute.
#[derive(Clone, Copy)]
pub struct Minute {
    /// What was received.
    pub tally: Tally,
}

impl fmt::Display for Minute {
    ghost output = { λ minute. Some (minute_text minute.tally) };

    fn fmt<W: fmt::Write>(&self, f: &mut fmt::Formatter<W>) -> fmt::Result {
        let tally = self.tally;
        let (events, replies, drops) = (tally.events, tally.replies, tally.drops);
        let (mute, faults) = (tally.mute, tally.faults);
        write!(f, "minute: events {events}, replies {replies}")?;
        write!(f, ", drops {drops}, mute {mute}, faults {faults}")
    }
}
