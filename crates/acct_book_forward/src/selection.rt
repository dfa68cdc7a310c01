//! Which sessions are carried forward, and why the others stay.
ghost use Rattle.std.specs.Prelude.{◌≡◌};
ghost use Rattle.std.specs.List.{list_any};
ghost use Rattle.std.specs.Prelude.{bytes_eq};
ghost use Rattle.acct_book_forward.specs.Carrying.{is_line, limit_of, too_young, stay_of};

use acct_book::{Row, SessionState};
use acct_model::Text;
use std::marker::Model;

/// Which sessions are carried forward. Moments are seconds since 1970.
pub struct Selection {
    /// A session that has ended is carried if its last moment is before this one.
    pub ended_before: u64,
    /// A session that is open is carried if its last moment is before this one. With 0 none is.
    pub silent_before: u64,
    /// The names of the clients whose sessions stay.
    pub kept: Vec<Text>,
}

impl Drop for Selection {
    fn drop(self) {
        let Selection {
            ended_before: _,
            silent_before: _,
            kept: _,
        } = self;
    }
}

/// Why a row is not carried forward.
#[derive(Clone, Copy, PartialEq, Eq, Debug)]
pub enum Stay {
    /// It is a line: a row into which sessions were carried.
    Line,
    /// Its client is one of those whose sessions stay.
    Kept,
    /// Its session is open, and has reported too lately.
    Open,
    /// Its session has ended too lately.
    Recent,
}

impl Model for Selection {
    ghost use Rattle.acct_book_forward.specs.Carrying.{SelectionFacts};

    ghost Value = { SelectionFacts };

    ghost view = { λ selection. record {
      ended_before = selection.ended_before;
      silent_before = selection.silent_before;
      kept = selection.kept.items;
    } };
}

impl Selection {
    /// Why a row stays, or none if it may be carried forward.
    pub fn stay_of(&self, row: &Row) -> Option<Stay>
        ensures { result ≡ stay_of self.now row.now }
    {
        if is_line(row.client.as_str()) {
            return Some(Stay::Line);
        }
        if self.is_kept(row.client.as_str()) {
            return Some(Stay::Kept);
        }
        let (limit, young) = match row.state {
            SessionState::Live => (self.silent_before, Stay::Open),
            SessionState::Closed | SessionState::Stopped => (self.ended_before, Stay::Recent),
        };
        if row.last < limit { None } else { Some(young) }
    }

    /// Whether this is the client of sessions that stay.
    pub fn is_kept(&self, client: &str) -> bool
        ensures { result ≡ list_any (bytes_eq client.now) self.now.kept }
    {
        self.kept.iter().any(|name| client == name.as_str())
    }
}

/// Whether this is the client of a line, a row into which sessions were carried. No configured
/// client has such a name.
pub fn is_line(client: &str) -> bool
    ensures { result ≡ is_line client.now }
{
    client.as_bytes().first() == Some(&b'(')
}
