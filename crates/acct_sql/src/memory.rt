//! Clients that an open book need not close again.
ghost use Rattle.std.specs.Prelude.{◌≡◌, ◌∷◌, ◌⊎◌, ◌++◌, []};
ghost use Rattle.std.specs.Prelude.{not, bytes_eq, filter};
ghost use Rattle.std.specs.List.{list_any};
ghost use Rattle.acct_sql.specs.inner.Remembered.{AreEndedAfter, still_ended};

use acct_book::{Row, SessionState};
use acct_model::Text;
use std::alloc::Global;

/// How many clients are remembered at most.
const MOST_ENDED: usize = 1_024;

/// What is remembered. If memory for it runs out, it is not remembered.
#[derive(Drop)]
pub(crate) struct Memory {
    /// Clients that have no live session.
    ended: Vec<Text>,
}

impl Memory {
    /// Nothing is remembered.
    pub(crate) fn new(alloc: Global) -> Memory
        ensures { result.ended.items ≡ [] }
    {
        Memory {
            ended: Vec::new(alloc),
        }
    }

    /// Whether the client is known to have no live session.
    pub(crate) fn has_ended(&self, client: &str) -> bool
        ensures { result ≡ list_any (bytes_eq client.now) self.now.ended.items }
    {
        self.ended.iter().any(|name| client == name.as_str())
    }

    /// Remembers that the client has no live session, unless as many are remembered as may be.
    pub(crate) fn keep_ended(&mut self, alloc: Global, client: &str)
        ensures { (self.new.ended.items ≡ self.old.ended.items)
            ⊎ (self.new.ended.items ≡ self.old.ended.items ++ client.now ∷ []) }
    {
        if self.ended.len() >= MOST_ENDED || self.has_ended(client) {
            return;
        }
        if let Ok(name) = Text::from_str(alloc, client) {
            let _ = self.ended.push(name);
        }
    }

    /// Forgets the client of a row that is to be set, if the row is live.
    pub(crate) fn forget_ended(&mut self, row: &Row)
        ensures sound { AreEndedAfter row.now self.old.ended.items self.new.ended.items }
        ensures others { self.new.ended.items
            ≡ still_ended row.now.state row.now.client self.old.ended.items }
    {
        if row.state == SessionState::Live {
            self.forget_client(row.client.as_str());
        }
    }

    fn forget_client(&mut self, client: &str)
        ensures { self.new.ended.items
            ≡ filter (λ name. not (bytes_eq client.now name)) self.old.ended.items }
    {
        self.ended.retain(|name| client != name.as_str());
    }
}
