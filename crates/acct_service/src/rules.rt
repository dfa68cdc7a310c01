//! What a server answers by.

use acct_site::Config;

/// What an event is answered by: a configuration, and how old a report may be.
#[derive(Clone, Copy)]
pub struct Rules<'c> {
    /// The clients, plans and keys.
    pub config: &'c Config,
    /// How many seconds old a report may be when it is received, if that is limited.
    pub oldest: Option<u64>,
}
