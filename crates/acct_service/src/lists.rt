//! An exchange over a list of turns, for tests and tools.
ghost use Rattle.std.specs.Prelude.{◌≡◌, ◌++◌, ◌∷◌, [], OnOk, Some};
ghost use Rattle.acct_service.specs.declared.exchange.Call.TheVariants.{Gave};
ghost use Rattle.acct_service.specs.declared.exchange.Call.TheVariants as call;
ghost use Rattle.acct_service.specs.Told.{reply_asked, drop_told};
ghost use Rattle.acct_service.specs.Listed.{told_of};

use crate::event::Event;
use crate::exchange::{Asked, Call, Exchange, Fault};
use acct_model::Octets;
use acct_wire::Reason;
use std::alloc::{AllocError, Global};
use std::mem;

/// What a turn of a list yields.
#[derive(Drop)]
pub enum Planned {
    /// An event, and whether the exchange takes its reply.
    Comes {
        /// The event.
        event: Event,
        /// Whether its reply is taken. It fails otherwise.
        takes_reply: bool,
    },
    /// Nothing.
    Nothing,
    /// A fault.
    Fails,
}

/// An exchange that yields the turns of a list, and nothing after the last of them. It records in
/// order the events that it returned, the requested replies, and the drops that it was notified of.
/// If memory for that runs out, the call returns a fault if it can. From then on it reports no
/// calls.
pub struct ListExchange {
    alloc: Global,
    planned: Vec<Planned>,
    place: usize,
    takes_reply: bool,
    turns: u64,
    failures: u64,
    tells: bool,
    calls: Vec<Call>,
}

impl Drop for ListExchange {
    fn drop(self) {
        let ListExchange {
            alloc: _,
            planned: _,
            place: _,
            takes_reply: _,
            turns: _,
            failures: _,
            tells: _,
            calls: _,
        } = self;
    }
}

impl ListExchange {
    ghost use Rattle.std.specs.Prelude.{List, Option};
    ghost use Rattle.acct_service.specs.declared.exchange.Call.{Call};

    /// An exchange that yields these turns in their order, and has made none of them.
    pub fn new(alloc: Global, planned: Vec<Planned>) -> ListExchange
        ensures turns { ⟦<ListExchange as Exchange>⟧.turn_count result ≡ 0 }
        ensures failures { ⟦<ListExchange as Exchange>⟧.failure_count result ≡ 0 }
        ensures told { ⟦<ListExchange as Exchange>⟧.told result ≡ Some [] }
    {
        ListExchange {
            alloc,
            planned,
            place: 0,
            takes_reply: true,
            turns: 0,
            failures: 0,
            tells: true,
            calls: Vec::new(alloc),
        }
    }

    /// The events that it returned, the requested replies, and the drops that it was notified of,
    /// the oldest first, as far as it recorded them.
    pub fn calls(&self) -> &[Call]
        ensures { result.now ≡ self.now.calls.items }
    {
        &self.calls
    }
}

// Records a copy of an event that is returned.
fn keep_event(alloc: Global, calls: &mut Vec<Call>, event: &Event) -> Result<(), AllocError>
    ensures { OnOk result (calls.new.items ≡ calls.old.items ++ Gave event.now ∷ []) }
{
    let event = event.copy(alloc)?;
    calls.push(Call::Gave(event))?;
    Ok(())
}

// Records a requested reply.
fn keep_reply(
    alloc: Global,
    calls: &mut Vec<Call>,
    event: &Event,
    bytes: &[u8],
    is_taken: bool,
) -> Result<(), AllocError>
    ensures { OnOk result (calls.new.items
        ≡ calls.old.items ++ call.Asked (reply_asked event.now bytes.now is_taken) ∷ []) }
{
    let event = event.copy(alloc)?;
    let bytes = Octets::from_slice(alloc, bytes)?;
    calls.push(Call::Asked(Asked {
        event,
        bytes,
        is_taken,
    }))?;
    Ok(())
}

// Records a drop.
fn keep_drop(
    alloc: Global,
    calls: &mut Vec<Call>,
    event: &Event,
    reason: Reason,
) -> Result<(), AllocError>
    ensures { OnOk result (calls.new.items ≡ calls.old.items ++ drop_told event.now reason) }
{
    let event = event.copy(alloc)?;
    calls.push(Call::Dropped(event, reason))?;
    Ok(())
}

impl Exchange for ListExchange {
    ghost turn_count = { λ e. e.turns };

    ghost failure_count = { λ e. e.failures };

    ghost told = { λ e. told_of e.tells e.calls.items };

    fn next(&mut self, is_silent: bool) -> Result<Option<Event>, Fault> {
        self.turns += 1;
        if self.place >= self.planned.len() {
            return Ok(None);
        }
        let turn = mem::replace(&mut self.planned[self.place], Planned::Nothing);
        self.place += 1;
        match turn {
            Planned::Nothing => Ok(None),
            Planned::Comes { .. } if is_silent => Ok(None),
            Planned::Fails => {
                self.failures += 1;
                Err(Fault)
            }
            Planned::Comes { event, takes_reply } => {
                self.takes_reply = takes_reply;
                if keep_event(self.alloc, &mut self.calls, &event).is_err() {
                    self.tells = false;
                    self.failures += 1;
                    return Err(Fault);
                }
                Ok(Some(event))
            }
        }
    }

    fn reply(&mut self, event: &Event, bytes: &[u8]) -> Result<(), Fault> {
        let kept = keep_reply(self.alloc, &mut self.calls, event, bytes, self.takes_reply);
        if kept.is_err() {
            self.tells = false;
        }
        if kept.is_ok() && self.takes_reply {
            return Ok(());
        }
        self.failures += 1;
        Err(Fault)
    }

    fn note_drop(&mut self, event: &Event, reason: Reason) {
        if keep_drop(self.alloc, &mut self.calls, event, reason).is_err() {
            self.tells = false;
        }
    }

    fn turns(&self) -> u64 {
        self.turns
    }

    fn failures(&self) -> u64 {
        self.failures
    }
}
