//! The sockets of a server: datagrams of access servers, and callers of the desk.
//!
//! 1. A turn is one of the event loop, and every fault is counted.
//! 2. In a silent turn, what arrives is received and not handed on. Nobody is answered.
ghost use Rattle.std.specs.Prelude.{◌≡◌, ◌+◌, ◌-◌, ◌<◌, ◌≤◌, ◌^◌, true, false, None, IfOk, IfSome};
ghost use Rattle.std.specs.Prelude.{OnErr, OnOk};
ghost use Rattle.std.specs.List.{list_any};
ghost use Rattle.acct_service.specs.Told.{CountsFault, Grows, drop_told, given, sent};
ghost use Rattle.acct_net.specs.inner.Places.{HasFailed, IsAnswered, IsOfUnanswered};
ghost use Rattle.acct_net.specs.inner.RadiusSockets.{IsFault, IsReceived, IsSent, IsUnsent};

use crate::binds::Binds;
use crate::datagrams::Datagrams;
use crate::desk::{Desk, Unanswered};
use crate::event_loop::EventLoop;
use acct_service::{Event, Exchange, Fault};
use acct_wire::Reason;
use std::alloc::Global;
use std::io;
use std::time::Clock;

/// The sockets of a server, with the callers that are connected. Each turn waits once.
pub struct Sockets<'r, R: Binds> {
    event_loop: EventLoop<'r, R>,
    turns: u64,
    failures: u64,
    ghost waited: { event_loop.readiness.waits ≡ turns },
    ghost received: { event_loop.datagrams.receives ≤ turns },
    ghost served: { event_loop.desk.serves ≤ turns },
}

impl<'r, R: Binds> Drop for Sockets<'r, R> {
    fn drop(self) {
        let Sockets {
            event_loop: _,
            turns: _,
            failures: _,
        } = self;
    }
}

impl<'r, R: Binds + Clock> Sockets<'r, R> {
    /// These sockets for datagrams, and one for callers that is bound at this IPv4 address and port.
    /// At port 0 the system chooses one.
    ///
    /// # Errors
    ///
    /// Those of the system: the port is taken or needs a right that the program hasn't, or the
    /// machine hasn't the address. `OutOfMemory` if there is no memory for a datagram and for
    /// callers.
    pub fn over(
        runtime: &'r R,
        alloc: Global,
        datagrams: Datagrams,
        desk_address: [u8; 4],
        desk_port: u16,
    ) -> io::Result<Sockets<'r, R>>
        requires { datagrams.receives ≡ 0 }
        ensures fresh { IfOk result (λ s. (s.turns ≡ 0) × (s.failures ≡ 0)) }
        ensures datagrams { IfOk result (λ s. s.event_loop.datagrams ≡ datagrams) }
        ensures desk { IfOk result (λ s. (s.event_loop.desk.door.address ≡ desk_address)
            × (s.event_loop.desk.door.port ≡ desk_port)) }
    {
        let desk = Desk::bind(runtime, alloc, desk_address, desk_port)?;
        Ok(Sockets {
            event_loop: EventLoop::new(runtime, alloc, datagrams, desk)?,
            turns: 0,
            failures: 0,
        })
    }

    /// The ports of datagrams, at the first address, and of callers.
    ///
    /// # Errors
    ///
    /// Those of the system.
    pub fn ports(&self) -> io::Result<(u16, u16)> {
        self.event_loop.ports()
    }

    /// The port of datagrams at the address with this place among those that were bound, from 0 on.
    ///
    /// # Errors
    ///
    /// Those of the system, and `NotFound` if there is no such address.
    pub fn radius_port(&self, place: usize) -> io::Result<u16> {
        self.event_loop.radius_port(place)
    }
}

impl<'r, R: Binds + Clock> Exchange for Sockets<'r, R> {
    ghost turn_count = { λ s. s.turns };

    ghost failure_count = { λ s. s.failures };

    ghost told = { λ _. None };

    fn next(&mut self, is_silent: bool) -> Result<Option<Event>, Fault>
        requires turns { self.old.turns < 2 ^ 64 - 1 }
        requires failures { self.old.failures < 2 ^ 64 - 1 }
        ensures turns { self.new.turns ≡ self.old.turns + 1 }
        ensures failures { CountsFault result self.old.failures self.new.failures }
        ensures told { Grows None (given result) None }
        ensures asked { IfOk result (λ event. IfSome event (λ it.
            IsOfUnanswered self.new.event_loop.desk.unanswered
            self.new.event_loop.desk.places.items it.what)) }
        ensures received { IfOk result (λ event. IfSome event (λ it. IsReceived
            self.new.event_loop.datagrams.sockets.items self.new.event_loop.datagrams.last
            self.new.event_loop.buffer.items it.what)) }
        ensures moment { IfOk result (λ event. IfSome event (λ it.
            it.moment ≡ self.new.event_loop.readiness.moment)) }
        ensures fault { OnErr result (IsFault self.new.event_loop.readiness.has_failed
            self.new.event_loop.are_callers_first self.new.event_loop.datagrams.sockets.items
            self.new.event_loop.datagrams.last) }
        ensures silent { is_silent ≡ true → IfOk result (λ event. event ≡ None) }
        // Unless the turn is silent, what was received is handed on.
        ensures heard { is_silent ≡ false → IfOk result (λ event. event ≡ None
            → list_any (λ socket. socket.may_receive) self.new.event_loop.datagrams.sockets.items
            ≡ false) }
        ensures nobody { is_silent ≡ false → IfOk result (λ event. event ≡ None
            → self.new.event_loop.desk.unanswered ≡ Unanswered.Nobody) }
    {
        self.turns += 1;
        let event = self.event_loop.next_event();
        if event.is_err() {
            self.failures += 1;
        }
        match event {
            Ok(Some(_)) if is_silent => Ok(None),
            event => event,
        }
    }

    /// Sends octets to the source of an event. What a caller does not take of them at once is
    /// written in later turns, and if that fails, that turn is a fault.
    fn reply(&mut self, event: &Event, bytes: &[u8]) -> Result<(), Fault>
        requires failures { self.old.failures < 2 ^ 64 - 1 }
        ensures turns { self.new.turns ≡ self.old.turns }
        ensures failures { CountsFault result self.old.failures self.new.failures }
        ensures told { Grows None (sent event.now bytes.now result) None }
        ensures answered { OnOk result (IsAnswered R.Stream.contents event.now.what
            self.old.event_loop.desk.unanswered self.old.event_loop.desk.places.items
            self.new.event_loop.desk.places.items bytes.now) }
        ensures datagram { OnOk result (IsSent self.new.event_loop.datagrams.sockets.items
            self.new.event_loop.datagrams.last bytes.now event.now.what) }
        ensures failed { OnErr result (HasFailed self.new.event_loop.readiness.time
            self.new.event_loop.desk.unanswered event.now.what) }
        ensures unsent { OnErr result (IsUnsent self.old.event_loop.datagrams.sockets.items
            self.new.event_loop.datagrams.sockets.items self.new.event_loop.datagrams.last
            bytes.now event.now.what) }
    {
        let sent = self.event_loop.send(&event.what, bytes);
        if sent.is_err() {
            self.failures += 1;
        }
        sent
    }

    fn note_drop(&mut self, _event: &Event, _reason: Reason)
        ensures turns { self.new.turns ≡ self.old.turns }
        ensures failures { self.new.failures ≡ self.old.failures }
        ensures told { Grows None (drop_told _event.now _reason) None }
        // Nobody gets anything.
        ensures same { self.new ≡ self.old }
    {}

    fn turns(&self) -> u64 {
        self.turns
    }

    fn failures(&self) -> u64 {
        self.failures
    }
}
