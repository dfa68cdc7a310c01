//! Where a server receives events and sends replies.
ghost use Rattle.std.specs.Prelude.{◌≡◌, ℕ, ◌+◌, ◌-◌, ◌^◌, ◌<◌, Option, None, List, true, IfOk};
ghost use Rattle.acct_service.specs.declared.exchange.Call.{Call};
ghost use Rattle.acct_service.specs.Told.{Grows, given, sent, drop_told, CountsFault};

use crate::event::Event;
use acct_model::Octets;
use acct_wire::Reason;
use thiserror::Error;

/// The exchange failed.
#[derive(Clone, Copy, PartialEq, Eq, Debug, Error)]
#[error("the exchange failed")]
pub struct Fault;

/// A requested reply.
#[derive(Drop)]
pub struct Asked {
    /// The event that it answers.
    pub event: Event,
    /// Its octets.
    pub bytes: Octets,
    /// Whether the exchange took it.
    pub is_taken: bool,
}

/// A call of an exchange that concerns an event.
#[derive(Drop)]
pub enum Call {
    /// It returned this event.
    Gave(Event),
    /// It was asked to send this reply.
    Asked(Asked),
    /// It was notified that this event was dropped, and why.
    Dropped(Event, Reason),
}

/// A source of events that takes replies to them, and is notified of those that are dropped.
///
/// It counts its turns and its faults. It may record the list of its calls in order: the events
/// that it returned, the requested replies, and the drops that it was notified of.
pub trait Exchange {
    /// How many turns it made.
    ghost turn_count: { Self → ℕ };

    /// How many of its calls failed.
    ghost failure_count: { Self → ℕ };

    /// The events that it returned, the requested replies, and the drops that it was notified of,
    /// the oldest first, if it records them.
    ghost told: { Self → Option (List Call) };

    /// One turn: the event that was received, or None if there was none. In a silent turn what is
    /// received is lost, as by a server that is not there.
    ///
    /// # Errors
    ///
    /// A `Fault` is counted, and there is no event.
    fn next(&mut self, is_silent: bool) -> Result<Option<Event>, Fault>
        requires turns { turn_count self.old < 2 ^ 64 - 1 }
        requires failures { failure_count self.old < 2 ^ 64 - 1 }
        ensures silent { is_silent ≡ true → IfOk result (λ event. event ≡ None) }
        ensures turns { turn_count self.new ≡ turn_count self.old + 1 }
        ensures failures { CountsFault result (failure_count self.old) (failure_count self.new) }
        ensures told { Grows (told self.old) (given result) (told self.new) };

    /// Sends octets to the sender of an event.
    ///
    /// # Errors
    ///
    /// A `Fault` is counted. The reply was requested and not taken.
    fn reply(&mut self, event: &Event, bytes: &[u8]) -> Result<(), Fault>
        requires failures { failure_count self.old < 2 ^ 64 - 1 }
        ensures turns { turn_count self.new ≡ turn_count self.old }
        ensures failures { CountsFault result (failure_count self.old) (failure_count self.new) }
        ensures told { Grows (told self.old) (sent event.now bytes.now result) (told self.new) };

    /// Notes that an event was dropped: nobody gets a reply to it.
    fn note_drop(&mut self, event: &Event, reason: Reason)
        ensures turns { turn_count self.new ≡ turn_count self.old }
        ensures failures { failure_count self.new ≡ failure_count self.old }
        ensures told { Grows (told self.old) (drop_told event.now reason) (told self.new) };

    /// How many turns it made.
    fn turns(&self) -> u64
        ensures { result ≡ turn_count self.now };

    /// How many of its calls failed.
    fn failures(&self) -> u64
        ensures { result ≡ failure_count self.now };
}
