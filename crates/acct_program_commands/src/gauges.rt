//! The server's state that its file of counts shows: whether its configuration is in force, whether
//! its book is where its name leads, and what its file of balances has.
//!
//! The parts of a server that know these note them here. The file of counts is made from them.

use std::cell::Cell;

/// The state of a server. At first its configuration is in force, its book is where its name leads,
/// and no more is known.
pub struct Gauges {
    is_current: Cell<bool>,
    is_away: Cell<bool>,
    balances: Cell<Option<BalancesWritten>>,
}

impl Drop for Gauges {
    fn drop(self) {
        let Gauges {
            is_current: _,
            is_away: _,
            balances: _,
        } = self;
    }
}

/// The last write of the file of balances.
#[derive(Clone, Copy, PartialEq, Eq, Debug)]
pub struct BalancesWritten {
    /// When it was begun, in seconds since 1970.
    pub at: u64,
    /// How many accounts it has.
    pub accounts: u64,
    /// How many of them have a balance below 0.
    pub overdrawn: u64,
}

impl Gauges {
    /// The state of a server that has just read its configuration.
    pub fn new() -> Gauges {
        Gauges {
            is_current: Cell::new(true),
            is_away: Cell::new(false),
            balances: Cell::new(None),
        }
    }

    /// Whether the configuration in force is the one in the file, as it was last read.
    pub fn is_current(&self) -> bool {
        self.is_current.get()
    }

    /// Whether a name of the book leads to another file than the one that is open, or to none.
    pub fn is_away(&self) -> bool {
        self.is_away.get()
    }

    /// The last write of the file of balances, if it was written.
    pub fn balances(&self) -> Option<BalancesWritten> {
        self.balances.get()
    }

    // Notes whether the configuration in force is the one in the file.
    pub(crate) fn note_config(&self, is_current: bool) {
        self.is_current.set(is_current);
    }

    // Notes whether a name of the book leads elsewhere.
    pub(crate) fn note_away(&self, is_away: bool) {
        self.is_away.set(is_away);
    }

    // Notes that the file of balances was written.
    pub(crate) fn note_balances(&self, written: BalancesWritten) {
        self.balances.set(Some(written));
    }
}
