//! What an open book knows of its tables, so that it need not query them again.
ghost use Rattle.std.specs.Prelude.{◌≡◌, ◌<◌, Some, None, IfOk, IfSome, IsTrue};
ghost use Rattle.std.specs.Prelude.{MatchBool};
ghost use Rattle.std.specs.Option.{option_copied};
ghost use Rattle.acct_book.specs.Content.{key_of};
ghost use Rattle.acct_book.specs.declared.key.Key.{Key as KeyFacts};
ghost use Rattle.acct_sql.specs.inner.Known.{entries_of, balance_among, known_balance, Learns};
ghost use Rattle.acct_sql.specs.inner.Known.{session_among, session_name, known_session};
ghost use Rattle.acct_sql.specs.inner.Known.{KnowsPlan, KnowsNothing, KeepsOrForgets};

use acct_book::{Key, Row, Unavailable};
use lru::LruCache;
use std::alloc::{AllocError, Global};
use std::hash::Hash;
use std::num::NonZeroUsize;

/// How many accounts are known at most: those that were set or first read last. An account takes
/// its name of at most 253 octets and some 150 more: 6.5 MB in the worst case.
const MOST_ACCOUNTS: usize = 16_384;

/// How many sessions are known at most: those that were set or first read last. A session takes its
/// names twice, the other octets of its row and some 600 more. That is 10 MB if these are 20 octets
/// each, and 40 MB if they are 253 each, which is the most.
const MOST_SESSIONS: usize = 16_384;

/// The balances of accounts by their names.
type Balances = LruCache<Vec<u8>, i64>;

/// A client and a session id.
type Name = (Vec<u8>, Vec<u8>);

/// The rows of sessions, and of which sessions there is none.
type Sessions = LruCache<Name, Option<Row>>;

/// What is known, each of it as the tables have it. If memory for it runs out, it is not known.
#[derive(Drop)]
pub(crate) struct Known {
    balances: Option<Balances>,
    sessions: Option<Sessions>,
    // Whether all of it was forgotten once, since a call failed.
    has_failed: bool,
}

impl Known {
    /// Nothing is known.
    pub(crate) fn nothing() -> Known
        ensures { KnowsNothing result }
    {
        Known {
            balances: None,
            sessions: None,
            has_failed: false,
        }
    }

    /// What a call of the store answered, or `Unavailable` once all of it is forgotten.
    pub(crate) fn kept_or_forget<T, E: Drop>(
        &mut self,
        answer: Result<T, E>,
    ) -> Result<T, Unavailable>
        ensures { KeepsOrForgets answer self.old self.new result }
    {
        match answer {
            Ok(value) => Ok(value),
            Err(_) => {
                self.forget();
                Err(Unavailable)
            }
        }
    }

    fn forget(&mut self)
        ensures { KnowsNothing self.new }
    {
        self.balances = None;
        self.forget_sessions();
        self.has_failed = true;
    }

    /// The balance of an account, 0 if the tables have none, if that is known.
    pub(crate) fn balance(&self, account: &[u8]) -> Option<i64>
        ensures { result ≡ known_balance self.now account.now }
    {
        match &self.balances {
            Some(balances) => balances.peek(account).copied(),
            None => None,
        }
    }

    /// Keeps the balance of an account. It may drop the account that was kept longest.
    pub(crate) fn keep_balance(&mut self, alloc: Global, account: &[u8], balance: i64)
        ensures balances { Learns account.now balance (known_balance self.old)
            (known_balance self.new) }
        ensures sessions { self.new.sessions ≡ self.old.sessions }
    {
        self.balances = with_balance(alloc, self.balances.take(), account, balance).ok();
    }

    /// The row of a session, or that there is none, if that is known.
    pub(crate) fn session(&self, alloc: Global, key: &Key) -> Option<Option<Row>>
        ensures { IfSome result (λ row. known_session self.now key.now ≡ Some row) }
    {
        match self.found(alloc, key.client.as_str(), key.session.as_slice()) {
            Some(Some(row)) => match row.copy(alloc) {
                Ok(copy) => Some(Some(copy)),
                Err(_) => None,
            },
            Some(None) => Some(None),
            None => None,
        }
    }

    /// Whether the session of a row is known, with its plan.
    pub(crate) fn has_plan(&self, alloc: Global, row: &Row) -> bool
        ensures { IsTrue result → KnowsPlan self.now row.now }
    {
        match self.found(alloc, row.client.as_str(), row.session.as_slice()) {
            Some(Some(was)) => {
                let _seconds = was.seconds;
                was.plan == row.plan
            }
            _ => false,
        }
    }

    /// Whether it is known that the session of a row has none. Always false once a call failed:
    /// tables that somebody else wrote may have a plan without its session, and an INSERT would
    /// fail again and again.
    pub(crate) fn is_absent(&self, alloc: Global, row: &Row) -> bool
        ensures { IsTrue result → known_session self.now (key_of row.now) ≡ Some None }
    {
        if self.has_failed {
            return false;
        }
        matches!(
            self.found(alloc, row.client.as_str(), row.session.as_slice()),
            Some(None)
        )
    }

    fn found(&self, alloc: Global, client: &str, session: &[u8]) -> Option<&Option<Row>>
        ensures { IfSome result (λ row. known_session self.now
            (record { client = client.now; session = session.now }) ≡ Some row.now) }
    {
        let Some(sessions) = &self.sessions else {
            return None;
        };
        let Ok(name) = named(alloc, client, session) else {
            return None;
        };
        sessions.peek(&name)
    }

    /// Keeps the row of a session, or that there is none. It may drop the session that was kept
    /// longest.
    pub(crate) fn keep_session(
        &mut self,
        alloc: Global,
        client: &str,
        session: &[u8],
        row: Option<&Row>,
    )
        ensures sessions { Learns (record { client = client.now; session = session.now })
            (option_copied row.entry) (known_session self.old) (known_session self.new) }
        ensures balances { self.new.balances ≡ self.old.balances }
    {
        self.sessions = with_session(alloc, self.sessions.take(), client, session, row).ok();
    }

    /// Forgets each session after a restart of a client, unless that had no live session.
    pub(crate) fn forget_closed(&mut self, has_ended: bool)
        ensures sessions { MatchBool has_ended (self.new.sessions ≡ self.old.sessions)
            ((key : KeyFacts) → known_session self.new key ≡ None) }
        ensures balances { self.new.balances ≡ self.old.balances }
    {
        if !has_ended {
            self.forget_sessions();
        }
    }

    /// Forgets each session.
    pub(crate) fn forget_sessions(&mut self)
        ensures sessions { (key : KeyFacts) → known_session self.new key ≡ None }
        ensures balances { self.new.balances ≡ self.old.balances }
    {
        self.sessions = None;
    }
}

// The balances with this one, if memory for it can be allocated.
fn with_balance(
    alloc: Global,
    balances: Option<Balances>,
    account: &[u8],
    balance: i64,
) -> Result<Balances, AllocError>
    ensures learns { IfOk result (λ after. Learns account.now balance (balance_among balances)
        (balance_among (Some after))) }
    ensures most { balances ≡ None → IfOk result (λ after. after.cap ≡ 16384) }
{
    let mut after = made(alloc, balances, MOST_ACCOUNTS)?;
    let name = account.to_vec(alloc)?;
    // A balance that is known already is set without memory.
    let _ = after.put(name, balance);
    Ok(after)
}

// The sessions with this row, if memory for it can be allocated.
fn with_session(
    alloc: Global,
    sessions: Option<Sessions>,
    client: &str,
    session: &[u8],
    row: Option<&Row>,
) -> Result<Sessions, AllocError>
    ensures learns { IfOk result (λ after.
        Learns (record { client = client.now; session = session.now })
        (option_copied row.entry) (session_among sessions) (session_among (Some after))) }
    ensures most { sessions ≡ None → IfOk result (λ after. after.cap ≡ 16384) }
{
    let mut after = made(alloc, sessions, MOST_SESSIONS)?;
    let name = named(alloc, client, session)?;
    let copy = copied(alloc, row)?;
    // A session that is known already is set without memory.
    let _ = after.put(name, copy);
    Ok(after)
}

fn named(alloc: Global, client: &str, session: &[u8]) -> Result<Name, AllocError>
    ensures { IfOk result (λ name. session_name name
        ≡ record { client = client.now; session = session.now }) }
{
    Ok((client.as_bytes().to_vec(alloc)?, session.to_vec(alloc)?))
}

fn copied(alloc: Global, row: Option<&Row>) -> Result<Option<Row>, AllocError>
    ensures { IfOk result (λ copy. copy ≡ option_copied row.entry) }
{
    match row {
        Some(row) => Ok(Some(row.copy(alloc)?)),
        None => Ok(None),
    }
}

// The cache that there is, or an empty one of so many entries at most.
fn made<K: Eq + Hash, V>(
    alloc: Global,
    cache: Option<LruCache<K, V>>,
    most: usize,
) -> Result<LruCache<K, V>, AllocError>
    requires { 0 < most }
    ensures entries { IfOk result (λ made. made.entries ≡ entries_of cache) }
    ensures most { cache ≡ None → IfOk result (λ made. made.cap ≡ most) }
{
    match cache {
        Some(cache) => Ok(cache),
        None => {
            let most = NonZeroUsize::new(most).unwrap_or(NonZeroUsize::MIN);
            LruCache::sparse(alloc, most)
        }
    }
}
