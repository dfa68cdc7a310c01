//! What a book keeps of a session.
ghost use Rattle.std.specs.Prelude.{◌≡◌, ◌+◌, ◌^◌, ◌<◌, Some, IfOk};
ghost use Rattle.acct_book.specs.Row.{state_text};

use crate::key::Key;
use crate::raising::{later_calling, later_cause, later_counters, later_state};
use acct_model::{Octets, Plan, Report, Text};
use std::alloc::{AllocError, Global};
use std::fmt;
use std::marker::Model;

/// Whether a session goes on. An ended one never opens again.
#[derive(Clone, Copy, PartialEq, Eq, Debug)]
pub enum SessionState {
    /// Neither a Stop of it nor a restart of its client was accepted.
    Live,
    /// Its client restarted, and no Stop of it was accepted.
    Closed,
    /// A Stop of it was accepted.
    Stopped,
}

impl SessionState {
    /// The word that is shown for it: `open`, `closed` or `stopped`.
    pub fn word(self) -> &'static str
        ensures { result.now ≡ state_text self }
    {
        match self {
            SessionState::Live => "open",
            SessionState::Closed => "closed",
            SessionState::Stopped => "stopped",
        }
    }
}

impl fmt::Display for SessionState {
    ghost output = { λ state. Some (state_text state) };

    fn fmt<W: fmt::Write>(&self, f: &mut fmt::Formatter<W>) -> fmt::Result {
        f.write_str(self.word())
    }
}

/// The cause of a session that a restart of its client closed: NAS Reboot (RFC 2866, section 5.10).
const NAS_REBOOT: u32 = 11;

/// What is kept of a session. Its input and output are at most 2^63 - 1 octets together, and its
/// moments are below 2^53.
pub struct Row {
    /// The client's name.
    pub client: Text,
    /// Acct-Session-Id.
    pub session: Octets,
    /// The account that is charged: the User-Name of the first report.
    pub account: Octets,
    /// The Class of the first report.
    pub class: Octets,
    /// The class of the plan that the session is charged by: the first report's Class if a plan has
    /// it, else `default`.
    pub plan: Octets,
    /// Octets received from the user's port, of the report of which the session's plan counts most.
    pub input: u64,
    /// Octets sent to the user's port, of the same report.
    pub output: u64,
    /// The greatest Acct-Session-Time, in seconds.
    pub seconds: u32,
    /// The least moment of a report, in seconds since 1970.
    pub first: u64,
    /// The greatest moment of a report, in seconds since 1970.
    pub last: u64,
    /// Whether the session goes on.
    pub state: SessionState,
    /// The Acct-Terminate-Cause of the first Stop, 11 of a closed session, else 0.
    pub cause: u32,
    /// The first Calling-Station-Id that is not empty, else empty.
    pub calling: Octets,
    /// The first Framed-IP-Address, if there was one.
    pub framed: Option<[u8; 4]>,
}

impl Drop for Row {
    fn drop(self) {
        let Row {
            client: _,
            session: _,
            account: _,
            class: _,
            plan: _,
            input: _,
            output: _,
            seconds: _,
            first: _,
            last: _,
            state: _,
            cause: _,
            calling: _,
            framed: _,
        } = self;
    }
}

impl Model for Row {
    ghost use Rattle.acct_book.specs.Row.{RowFacts, IsRow};

    ghost Value = { RowFacts };

    ghost view = { λ r. record {
      client = r.client;
      session = r.session;
      account = r.account;
      class = r.class;
      plan = r.plan;
      input = r.input;
      output = r.output;
      seconds = r.seconds;
      first = r.first;
      last = r.last;
      state = r.state;
      cause = r.cause;
      calling = r.calling;
      framed = r.framed;
    } };

    ghost invariant = { λ r. IsRow r.input r.output r.first r.last };
}

impl Row {
    ghost use Rattle.acct_book.specs.Content.{key_of, closed_by};
    ghost use Rattle.acct_book.specs.Next.{raised_row};

    /// The octets of the session, input and output together.
    pub fn total(&self) -> u64
        ensures exact { result ≡ self.now.input + self.now.output }
        ensures bound { result < 2 ^ 63 }
    {
        self.input + self.output
    }

    /// The key that the row is kept under.
    pub fn key(&self, alloc: Global) -> Result<Key, AllocError>
        ensures { IfOk result (λ key. key ≡ key_of self.now) }
    {
        Ok(Key {
            client: self.client.copy(alloc)?,
            session: self.session.copy(alloc)?,
        })
    }

    /// The key that the row was kept under. It takes no memory.
    pub fn into_key(self) -> Key
        ensures { result ≡ key_of self }
    {
        let Row {
            client,
            session,
            account: _,
            class: _,
            plan: _,
            input: _,
            output: _,
            seconds: _,
            first: _,
            last: _,
            state: _,
            cause: _,
            calling: _,
            framed: _,
        } = self;
        Key { client, session }
    }

    /// A copy of the row.
    pub fn copy(&self, alloc: Global) -> Result<Row, AllocError>
        ensures { IfOk result (λ copy. copy ≡ self.now) }
    {
        Ok(Row {
            client: self.client.copy(alloc)?,
            session: self.session.copy(alloc)?,
            account: self.account.copy(alloc)?,
            class: self.class.copy(alloc)?,
            plan: self.plan.copy(alloc)?,
            input: self.input,
            output: self.output,
            seconds: self.seconds,
            first: self.first,
            last: self.last,
            state: self.state,
            cause: self.cause,
            calling: self.calling.copy(alloc)?,
            framed: self.framed,
        })
    }

    /// Closes the session if it is live and this client's, as a restart of the client does.
    pub fn close(&mut self, client: &str)
        ensures { self.new ≡ closed_by client.now self.old }
    {
        if self.client.as_str() == client && self.state == SessionState::Live {
            self.state = SessionState::Closed;
            self.cause = NAS_REBOOT;
        }
    }

    /// The row after a later report of a session with this plan.
    pub(crate) fn raised(
        self,
        alloc: Global,
        plan: &Plan,
        report: &Report,
    ) -> Result<Row, AllocError>
        ensures { IfOk result (λ raised. raised ≡ raised_row (Some plan.now) self report.now) }
    {
        let (input, output) = later_counters(plan, &self, report);
        let Row {
            client,
            session,
            account,
            class,
            plan,
            input: _,
            output: _,
            seconds,
            first,
            last,
            state,
            cause,
            calling,
            framed,
        } = self;
        Ok(Row {
            client,
            session,
            account,
            class,
            plan,
            input,
            output,
            seconds: report.seconds.max(seconds),
            first: report.when.min(first),
            last: report.when.max(last),
            state: later_state(report.kind, state),
            cause: later_cause(report.kind, state, cause, report.cause),
            calling: later_calling(alloc, calling, &report.calling)?,
            framed: framed.or(report.framed),
        })
    }
}
