//! A caller of the desk: its request is read, and then its response is written.
ghost use Rattle.std.specs.Prelude.{◌≡◌, ◌↔◌, ◌⊎◌, true, false, IfOk, IsTrue, OnOk};
ghost use Rattle.acct_net_callers.specs.Progress.{Proceeds, Writes, Advances, HasNoRequest};
ghost use Rattle.acct_net_callers.specs.Progress.{IsFresh};
ghost use Rattle.acct_net_callers.specs.Timeouts.{HasTimedOut, MayBeDropped, TracksActivity};
ghost use Rattle.acct_net_callers.specs.Timeouts.{seconds_from, milliseconds_from};

use crate::blocking::would_block;
use crate::request_buffer::RequestBuffer;
use crate::response_buffer::{ResponseBuffer, write_some};
use acct_model::Octets;
use acct_service::Fault;
use std::alloc::Global;
use std::io;
use std::io::{Read, Write};
use std::net::{OpenStream, Shutdown};
use std::time::Instant;

/// How many seconds a caller has from its accept on until its request is read.
const SECONDS_TO_ASK: u64 = 4;
/// How many seconds a caller may be silent, unless its response is being written.
const SECONDS_OF_SILENCE: u64 = 2;
/// How many seconds a caller may take nothing of its response: the system takes octets by the
/// megabyte, and then none until a good part of them went over a slow link.
const SECONDS_TO_TAKE: u64 = 30;
/// How many milliseconds a caller keeps its place from its accept on if others wait for one.
const SHORTEST_STAY: u128 = 25;

/// How far a caller has come.
pub enum Stage {
    /// Its request is being read.
    Reading(RequestBuffer),
    /// This request of it is read, and its response is awaited.
    Waiting(Octets),
    /// Its response is being written, and this is left of it.
    Writing(ResponseBuffer),
    /// Its response is written, and the connection's sending side is closed. What else it sends is
    /// read and discarded until it closes its side too: a connection that is closed over unread
    /// octets is reset, and the caller may then lose the response.
    Closing,
}

impl Drop for Stage {
    fn drop(self) {
        match self {
            Stage::Reading(_) => {}
            Stage::Waiting(_) => {}
            Stage::Writing(_) => {}
            Stage::Closing => {}
        }
    }
}

/// The outcome of one step of a caller.
#[derive(Drop)]
pub enum Step {
    /// There is more to read or to write.
    Pending,
    /// Its request is read: this. The caller keeps a copy of it until its response is there.
    Received(Octets),
    /// It has its response, and has closed the connection.
    Closed,
}

/// A caller's connection, which is closed as this is dropped. Its reads and writes don't wait.
#[derive(Drop)]
pub struct Caller<S> {
    /// The connection.
    pub stream: S,
    /// How far it has come.
    pub stage: Stage,
    is_ready: bool,
    accepted: Instant,
    last_active: Instant,
}

impl<S: Read + Write + OpenStream + Drop> Caller<S> {
    /// A caller whose connection was just accepted.
    ///
    /// # Errors
    ///
    /// Those of the system.
    pub fn new(alloc: Global, stream: S, now: Instant) -> io::Result<Caller<S>>
        ensures fresh { IfOk result (λ caller. IsFresh caller.stage) }
        ensures stream { IfOk result (λ caller. caller.stream ≡ stream) }
        ensures times { IfOk result (λ caller. (caller.accepted ≡ now)
            × (caller.last_active ≡ now) × (caller.is_ready ≡ true)) }
    {
        stream.set_nonblocking(true)?;
        Ok(Caller {
            stream,
            stage: Stage::Reading(RequestBuffer::new(alloc)),
            is_ready: true,
            accepted: now,
            last_active: now,
        })
    }

    /// Whether the next read or write need not wait, as far as is known.
    pub fn is_ready(&self) -> bool
        ensures { result ≡ self.now.is_ready }
    {
        self.is_ready
    }

    /// Notes that the next read or write need not wait.
    pub fn wake(&mut self)
        ensures { self.new ≡ record self.old { is_ready = true } }
    {
        self.is_ready = true;
    }

    /// When its connection was accepted.
    pub fn accepted(&self) -> Instant
        ensures { result ≡ self.now.accepted }
    {
        self.accepted
    }

    /// Whether its response is written.
    pub fn is_closing(&self) -> bool
        ensures { IsTrue result ↔ (self.now.stage ≡ Stage.Closing) }
    {
        matches!(&self.stage, Stage::Closing)
    }

    /// Whether its time is up.
    pub fn has_timed_out(&self, now: Instant) -> bool
        ensures { IsTrue result ↔ HasTimedOut self.now.stage (seconds_from self.now.accepted now)
            (seconds_from self.now.last_active now) }
    {
        let silence = now.duration_since(self.last_active).as_secs();
        match &self.stage {
            Stage::Writing(_) => silence >= SECONDS_TO_TAKE,
            Stage::Reading(_) => {
                let stay = now.duration_since(self.accepted).as_secs();
                silence >= SECONDS_OF_SILENCE || stay >= SECONDS_TO_ASK
            }
            Stage::Waiting(_) | Stage::Closing => silence >= SECONDS_OF_SILENCE,
        }
    }

    /// Whether it may be dropped for another one that waits: nothing can be read or written now,
    /// and it was not just accepted, or has taken nothing of its response for a while, or has all
    /// of it.
    pub fn may_be_dropped(&self, now: Instant) -> bool
        ensures { IsTrue result ↔ ((self.now.is_ready ≡ false)
            × MayBeDropped self.now.stage (milliseconds_from self.now.accepted now)
            (seconds_from self.now.last_active now)) }
    {
        if self.is_ready {
            return false;
        }
        match &self.stage {
            Stage::Reading(_) => now.duration_since(self.accepted).as_millis() >= SHORTEST_STAY,
            Stage::Writing(_) => {
                now.duration_since(self.last_active).as_secs() >= SECONDS_OF_SILENCE
            }
            Stage::Waiting(_) => false,
            Stage::Closing => true,
        }
    }

    /// Makes one read or one write, by way of the buffer if it is a read.
    ///
    /// # Errors
    ///
    /// If the connection fails before its response is written, or memory is refused.
    pub fn proceed(&mut self, alloc: Global, buffer: &mut [u8], now: Instant) -> Result<Step, Fault>
        ensures proceeds { IfOk result (Proceeds
            (S.remaining self.old.stream) (S.remaining self.new.stream)
            (S.contents self.old.stream) (S.contents self.new.stream)
            self.old.stage self.new.stage) }
        ensures accepted { self.new.accepted ≡ self.old.accepted }
        ensures last_active { (self.new.last_active ≡ self.old.last_active)
            ⊎ (self.new.last_active ≡ now) }
        ensures activity { OnOk result (TracksActivity now self.old.last_active
            self.new.last_active self.old.stage self.new.stage) }
        ensures ready { OnOk result (self.old.is_ready ≡ true
            → (self.new.is_ready ≡ true) ⊎ (self.new.stage ≡ self.old.stage)) }
    {
        match &mut self.stage {
            Stage::Reading(request) => {
                let has_moved = request.fill(&mut self.stream, buffer)?;
                self.advance(alloc, has_moved, now)
            }
            Stage::Writing(response) => {
                let has_moved = response.write(&mut self.stream)?;
                self.advance(alloc, has_moved, now)
            }
            Stage::Waiting(_) | Stage::Closing => Ok(self.drain(buffer)),
        }
    }

    // Enters the next stage if what was just read or written has ended this one.
    fn advance(&mut self, alloc: Global, has_moved: bool, now: Instant) -> Result<Step, Fault>
        ensures same { self.new.stream ≡ self.old.stream }
        ensures accepted { self.new.accepted ≡ self.old.accepted }
        ensures silent { has_moved ≡ false → self.new.last_active ≡ self.old.last_active }
        ensures still { has_moved ≡ false → self.new.stage ≡ self.old.stage }
        ensures active { has_moved ≡ true → self.new.last_active ≡ now }
        ensures advances { IfOk result (Advances self.old.stage self.new.stage) }
        ensures ready { OnOk result (has_moved ≡ true → self.old.is_ready ≡ true
            → self.new.is_ready ≡ true) }
    {
        if !has_moved {
            self.is_ready = false;
            return Ok(Step::Pending);
        }
        self.last_active = now;
        match &self.stage {
            Stage::Reading(request) => match request.whole_request(alloc)? {
                Some(octets) => {
                    let asked = octets.copy(alloc).map_err(|_| Fault)?;
                    self.stage = Stage::Waiting(asked);
                    Ok(Step::Received(octets))
                }
                None => Ok(Step::Pending),
            },
            Stage::Writing(response) if response.is_written() => {
                self.begin_closing()?;
                Ok(Step::Pending)
            }
            _ => Ok(Step::Pending),
        }
    }

    // Reads and discards what a caller still sends after its request.
    fn drain(&mut self, buffer: &mut [u8]) -> Step
        ensures stage { self.new.stage ≡ self.old.stage }
        ensures accepted { self.new.accepted ≡ self.old.accepted }
        ensures last_active { self.new.last_active ≡ self.old.last_active }
        ensures no_request { HasNoRequest result }
    {
        match self.stream.read(buffer) {
            Ok(0) => Step::Closed,
            Ok(_) => Step::Pending,
            Err(error) if would_block(&error) => {
                self.is_ready = false;
                Step::Pending
            }
            Err(_) => Step::Closed,
        }
    }

    /// Begins to write its response. What the system doesn't take at once is written later, as the
    /// caller takes it.
    ///
    /// # Errors
    ///
    /// If the connection fails, or memory is refused for what is left of the response.
    pub fn answer(&mut self, alloc: Global, response: &[u8], now: Instant) -> Result<(), Fault>
        ensures writes { OnOk result (Writes (S.contents self.old.stream)
            (S.contents self.new.stream) response.now self.new.stage) }
        ensures accepted { self.new.accepted ≡ self.old.accepted }
        ensures last_active { self.new.last_active ≡ now }
        ensures ready { OnOk result ((self.new.is_ready ≡ true)
            ⊎ (self.new.stage ≡ Stage.Writing response.now)) }
    {
        self.last_active = now;
        let count = write_some(&mut self.stream, response)?;
        self.is_ready = count > 0;
        let left = &response[count..];
        if left.is_empty() {
            return self.begin_closing();
        }
        let left = ResponseBuffer::from_slice(alloc, left).map_err(|_| Fault)?;
        self.stage = Stage::Writing(left);
        Ok(())
    }

    // Closes the sending side, since all of the response is written.
    fn begin_closing(&mut self) -> Result<(), Fault>
        ensures same { self.new.stream ≡ self.old.stream }
        ensures accepted { self.new.accepted ≡ self.old.accepted }
        ensures last_active { self.new.last_active ≡ self.old.last_active }
        ensures closing { OnOk result (self.new.stage ≡ Stage.Closing) }
        ensures ready { OnOk result (self.new.is_ready ≡ true) }
    {
        self.stream.shutdown(Shutdown::Write).map_err(|_| Fault)?;
        self.is_ready = true;
        self.stage = Stage::Closing;
        Ok(())
    }
}
