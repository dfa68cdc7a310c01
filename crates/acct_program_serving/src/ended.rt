//! How the run of a server ended.
use acct_service::{Served, Until};

/// How the run of a server ended, whose output may fail.
#[derive(Clone, Copy, PartialEq, Eq, Debug)]
pub enum Ended {
    /// It made turns, and printed what it counted in them.
    Told(Served, Until),
    /// It made turns. What it counted in them could not be printed.
    Untold(Served, Until),
    /// It made no turn, because `serving` could not be printed.
    NotBegun,
}
