//! The event loop of a server: its sockets for datagrams, and the callers of its desk.
//!
//! 1. A turn waits up to 20 milliseconds until a datagram arrived or something can be done for a
//!    caller, and not at all if that is known already. No read waits, and no write to a caller. A
//!    reply to a datagram waits if the system has no space for it.
//! 2. Datagrams and callers take turns: after a datagram callers are served first, and after a
//!    request or a fault of a caller a datagram is received first.
//! 3. A wait in which nothing arrived is a turn without an event: then no socket for datagrams may
//!    have one, as far as is known.
//! 4. A reply to a datagram leaves from the address that was asked, and the sockets at several
//!    addresses take turns.
//! 5. The buffer for a datagram is allocated once, and not for each turn.
ghost use Rattle.std.specs.Prelude.{◌≡◌, ◌+◌, ◌-◌, ◌<◌, ◌^◌, false, None, IfOk, IfSome, OnOk, take};
ghost use Rattle.std.specs.Prelude.{◌≤◌, ◌⊎◌, IsErr, IsTrue, OnErr, length, not, slice_get, true};
ghost use Rattle.std.specs.List.{All, list_any};
ghost use Rattle.mio.specs.Events.{items};
ghost use Rattle.acct_net.specs.inner.Places.{HasFailed, HasReady, IsAnswered, IsOfUnanswered, IsWoken};
ghost use Rattle.acct_net.specs.inner.RadiusSockets.{IsFault, IsLost, IsReceived, IsSent};
ghost use Rattle.acct_net.specs.inner.RadiusSockets.{IsUnsent, IsWokenAt};
ghost use Rattle.acct_net.specs.inner.Turns.{is_request};

use crate::binds::Binds;
use crate::datagrams::Datagrams;
use crate::desk::{Desk, PLACES, Unanswered};
use crate::readiness::Readiness;
use acct_model::Octets;
use acct_service::{Event, Fault, What};
use std::alloc::Global;
use std::io;
use std::net::{Ipv4Addr, OpenListener, SocketAddrV4};
use std::time::Clock;

/// The most octets of a datagram.
const LONGEST_DATAGRAM: usize = 65_535;
/// The most milliseconds that a turn waits.
const MOST_WAIT: u64 = 20;
/// The number under which the desk's listener is watched. Those below are the places of callers.
const LISTENER: usize = PLACES;
/// The number under which the first socket for datagrams is watched. Those above are of the others.
const DATAGRAMS: usize = PLACES + 1;

/// What a turn works on: all sockets, with the callers that are connected.
pub struct EventLoop<'r, R: Binds> {
    runtime: &'r R,
    alloc: Global,
    readiness: Readiness,
    datagrams: Datagrams,
    desk: Desk<R>,
    are_callers_first: bool,
    buffer: Vec<u8>,
    // The longest datagram has room.
    ghost room: { length buffer.items ≡ 65535 },
}

impl<'r, R: Binds> Drop for EventLoop<'r, R> {
    fn drop(self) {
        let EventLoop {
            runtime: _,
            alloc: _,
            readiness: _,
            datagrams: _,
            desk: _,
            are_callers_first: _,
            buffer: _,
        } = self;
    }
}

impl<'r, R: Binds + Clock> EventLoop<'r, R> {
    /// Watches the sockets.
    ///
    /// # Errors
    ///
    /// Those of the system, and `OutOfMemory` if there is no memory for a datagram.
    pub fn new(
        runtime: &'r R,
        alloc: Global,
        datagrams: Datagrams,
        desk: Desk<R>,
    ) -> io::Result<EventLoop<'r, R>>
        ensures waits { IfOk result (λ event_loop. event_loop.readiness.waits ≡ 0) }
        ensures datagrams { IfOk result (λ event_loop. event_loop.datagrams ≡ datagrams) }
        ensures desk { IfOk result (λ event_loop. event_loop.desk ≡ desk) }
        ensures callers { IfOk result (λ event_loop. event_loop.are_callers_first ≡ true) }
    {
        let watched = DATAGRAMS.saturating_add(datagrams.count());
        let readiness = Readiness::new(runtime, alloc, watched)?;
        datagrams.watch(&readiness, DATAGRAMS)?;
        readiness.watch(desk.listener(), LISTENER)?;
        Ok(EventLoop {
            runtime,
            alloc,
            readiness,
            datagrams,
            desk,
            are_callers_first: true,
            buffer: vec![in alloc; 0; LONGEST_DATAGRAM]?,
        })
    }

    /// The ports of datagrams, at the first address, and of callers.
    ///
    /// # Errors
    ///
    /// Those of the system.
    pub fn ports(&self) -> io::Result<(u16, u16)> {
        Ok((
            self.radius_port(0)?,
            self.desk.listener().local_addr()?.port(),
        ))
    }

    /// The port of datagrams at the address with this place among those that were bound, from 0 on.
    ///
    /// # Errors
    ///
    /// Those of the system, and `NotFound` if there is no such address.
    pub fn radius_port(&self, place: usize) -> io::Result<u16> {
        self.datagrams.port(place)
    }

    /// The event of a turn, if there is one. A caller that was not answered in the last turn is
    /// dropped. No fault of a caller keeps datagrams out: one is looked for in the same turn, or
    /// first in the next one.
    ///
    /// # Errors
    ///
    /// If the wait or the clock fails, or a socket, or memory is refused.
    pub fn next_event(&mut self) -> Result<Option<Event>, Fault>
        requires waits { self.old.readiness.waits < 2 ^ 64 - 1 }
        requires receives { self.old.datagrams.receives < 2 ^ 64 - 1 }
        requires serves { self.old.desk.serves < 2 ^ 64 - 1 }
        ensures receives { self.new.datagrams.receives ≤ self.old.datagrams.receives + 1 }
        ensures serves { self.new.desk.serves ≤ self.old.desk.serves + 1 }
        // Datagrams are looked for in each turn but those of callers. After one of those, they are
        // first.
        ensures datagrams { IsTrue self.new.readiness.has_failed
            ⊎ ((self.new.datagrams.receives ≡ self.old.datagrams.receives + 1)
            ⊎ ((self.old.are_callers_first ≡ true) × (self.new.are_callers_first ≡ false))) }
        // Callers are served in each turn but those of datagrams. After one of those, they are first.
        ensures callers { IsTrue self.new.readiness.has_failed
            ⊎ ((self.new.readiness.time ≡ None)
            ⊎ ((self.new.desk.serves ≡ self.old.desk.serves + 1)
            ⊎ ((self.old.are_callers_first ≡ false) × (self.new.are_callers_first ≡ true)))) }
        ensures fault { OnErr result (IsFault self.new.readiness.has_failed
            self.new.are_callers_first self.new.datagrams.sockets.items self.new.datagrams.last) }
        ensures quiet { IfOk result (λ event. event ≡ None
            → (self.new.datagrams.receives ≡ self.old.datagrams.receives + 1)
            × (self.new.desk.serves ≡ self.old.desk.serves + 1)) }
        ensures idle { IfOk result (λ event. event ≡ None → list_any (λ socket. socket.may_receive)
            self.new.datagrams.sockets.items ≡ false) }
        ensures nobody { IfOk result (λ event. event ≡ None
            → self.new.desk.unanswered ≡ Unanswered.Nobody) }
        ensures closed { OnErr result (self.new.desk.unanswered ≡ Unanswered.Nobody) }
        ensures waits { self.new.readiness.waits ≡ self.old.readiness.waits + 1 }
        ensures asked { IfOk result (λ event. IfSome event (λ it.
            IsOfUnanswered self.new.desk.unanswered self.new.desk.places.items it.what)) }
        ensures received { IfOk result (λ event. IfSome event (λ it. IsReceived
            self.new.datagrams.sockets.items self.new.datagrams.last self.new.buffer.items
            it.what)) }
        ensures moment { IfOk result (λ event. IfSome event (λ it.
            it.moment ≡ self.new.readiness.moment)) }
        ensures turn { IfOk result (λ event. IfSome event (λ it.
            self.new.are_callers_first ≡ not (is_request it.what))) }
        ensures fair { self.old.are_callers_first ≡ false → IfOk result (λ event. IfSome event
            (λ it. is_request it.what ≡ true → list_any (λ socket. socket.may_receive)
            self.new.datagrams.sockets.items ≡ false)) }
    {
        self.desk.close_unanswered();
        self.poll()?;
        let (event, is_callers) = if self.are_callers_first {
            match self.next_request() {
                Ok(None) => (self.next_datagram(), false),
                request => (request, true),
            }
        } else {
            match self.next_datagram() {
                Ok(None) => (self.next_request(), true),
                datagram => (datagram, false),
            }
        };
        self.are_callers_first = !is_callers;
        event
    }

    // Finds which sockets are ready, and waits for one if none was left. After a wait in which none
    // was ready each is tried again: so nobody waits for long whom the system did not report.
    fn poll(&mut self) -> Result<(), Fault>
        requires { self.old.readiness.waits < 2 ^ 64 - 1 }
        ensures waits { self.new.readiness.waits ≡ self.old.readiness.waits + 1 }
        ensures turn { self.new.are_callers_first ≡ self.old.are_callers_first }
        ensures other_datagrams { self.new.datagrams ≡ record self.old.datagrams {
          sockets = self.new.datagrams.sockets;
        } }
        ensures other_desk { self.new.desk ≡ record self.old.desk {
          may_accept = self.new.desk.may_accept;
          places = self.new.desk.places;
        } }
        ensures fault { OnErr result (IsTrue self.new.readiness.has_failed) }
        ensures most { self.new.readiness.most ≤ MOST_WAIT }
        ensures datagrams { list_any (λ socket. socket.may_receive)
            self.old.datagrams.sockets.items ≡ true → self.new.readiness.most ≡ 0 }
        ensures accepts { self.old.desk.may_accept ≡ true → self.old.desk.is_full ≡ false
            → self.new.readiness.most ≡ 0 }
        ensures callers { HasReady self.old.desk.places.items → self.new.readiness.most ≡ 0 }
        ensures idle { OnOk result (0 < self.new.readiness.most
            → length (items self.new.readiness.events) ≡ 0
            → All (λ socket. socket.may_receive ≡ true) self.new.datagrams.sockets.items
            × (self.new.desk.may_accept ≡ true)) }
    {
        let most = self.most_wait();
        self.readiness.wait(self.runtime, most).map_err(|_| Fault)?;
        if self.readiness.has_found_none() {
            self.datagrams.wake_all();
            self.desk.wake_listener();
            return Ok(());
        }
        wake_found(&self.readiness, &mut self.datagrams, &mut self.desk);
        Ok(())
    }

    // The most milliseconds that this turn waits: none if something can be done now.
    fn most_wait(&self) -> u64
        ensures datagrams { list_any (λ socket. socket.may_receive)
            self.now.datagrams.sockets.items ≡ true → result ≡ 0 }
        ensures accepts { self.now.desk.may_accept ≡ true → self.now.desk.is_full ≡ false
            → result ≡ 0 }
        ensures callers { HasReady self.now.desk.places.items → result ≡ 0 }
        ensures most { result ≤ MOST_WAIT }
    {
        if self.datagrams.may_receive() || self.desk.is_busy() {
            0
        } else {
            MOST_WAIT
        }
    }

    // The request of a caller, if one is there now.
    fn next_request(&mut self) -> Result<Option<Event>, Fault>
        requires { self.old.desk.serves < 2 ^ 64 - 1 }
        ensures serves { (self.new.desk.serves ≡ self.old.desk.serves + 1)
            ⊎ ((self.new.desk ≡ self.old.desk) × (self.new.readiness.time ≡ None)
            × IsErr result) }
        ensures readiness { self.new.readiness ≡ self.old.readiness }
        ensures datagrams { self.new.datagrams ≡ self.old.datagrams }
        ensures asked { IfOk result (λ event. IfSome event (λ it.
            IsOfUnanswered self.new.desk.unanswered self.new.desk.places.items it.what)) }
        ensures received { IfOk result (λ event. IfSome event (λ it. IsReceived
            self.new.datagrams.sockets.items self.new.datagrams.last self.new.buffer.items
            it.what)) }
        ensures kind { IfOk result (λ event. IfSome event (λ it. is_request it.what ≡ true)) }
        ensures moment { IfOk result (λ event. IfSome event (λ it.
            it.moment ≡ self.new.readiness.moment)) }
        ensures none { IfOk result (λ event. event ≡ None
            → self.new.desk.unanswered ≡ self.old.desk.unanswered) }
        ensures failed { OnErr result (self.new.desk.unanswered ≡ self.old.desk.unanswered) }
    {
        let now = self.readiness.time().ok_or(Fault)?;
        let request = self
            .desk
            .serve(&self.readiness, self.buffer.as_mut_slice(), now)?;
        match request {
            Some(bytes) => Ok(Some(self.event(What::Desk { bytes }))),
            None => Ok(None),
        }
    }

    // The datagram that waits, if one does.
    fn next_datagram(&mut self) -> Result<Option<Event>, Fault>
        requires receives { self.old.datagrams.receives < 2 ^ 64 - 1 }
        requires nobody { self.old.desk.unanswered ≡ Unanswered.Nobody }
        ensures receives { self.new.datagrams.receives ≡ self.old.datagrams.receives + 1 }
        ensures readiness { self.new.readiness ≡ self.old.readiness }
        ensures desk { self.new.desk ≡ self.old.desk }
        ensures asked { IfOk result (λ event. IfSome event (λ it.
            IsOfUnanswered self.new.desk.unanswered self.new.desk.places.items it.what)) }
        ensures received { IfOk result (λ event. IfSome event (λ it. IsReceived
            self.new.datagrams.sockets.items self.new.datagrams.last self.new.buffer.items
            it.what)) }
        ensures idle { IfOk result (λ event. event ≡ None → list_any (λ socket. socket.may_receive)
            self.new.datagrams.sockets.items ≡ false) }
        ensures kind { IfOk result (λ event. IfSome event (λ it. is_request it.what ≡ false)) }
        ensures moment { IfOk result (λ event. IfSome event (λ it.
            it.moment ≡ self.new.readiness.moment)) }
        ensures fault { OnErr result
            (IsLost self.new.datagrams.sockets.items self.new.datagrams.last) }
    {
        let Some((size, source)) = self.datagrams.receive(self.buffer.as_mut_slice())? else {
            return Ok(None);
        };
        let what = What::Datagram {
            source: source.ip().octets(),
            port: source.port(),
            bytes: copy(self.alloc, self.buffer.as_slice(), size)?,
        };
        Ok(Some(self.event(what)))
    }

    // This as an event at the moment of this turn.
    fn event(&self, what: What) -> Event
        ensures what { result.what ≡ what }
        ensures moment { result.moment ≡ self.now.readiness.moment }
    {
        let moment = self.readiness.moment();
        Event { moment, what }
    }

    /// Sends octets to the source of an event: a response of the desk to the unanswered caller.
    ///
    /// # Errors
    ///
    /// If the system does not take them, or memory is refused.
    pub fn send(&mut self, what: &What, bytes: &[u8]) -> Result<(), Fault>
        ensures waits { self.new.readiness.waits ≡ self.old.readiness.waits }
        ensures receives { self.new.datagrams.receives ≡ self.old.datagrams.receives }
        ensures serves { self.new.desk.serves ≡ self.old.desk.serves }
        ensures answered { OnOk result (IsAnswered R.Stream.contents what.now
            self.old.desk.unanswered self.old.desk.places.items self.new.desk.places.items
            bytes.now) }
        ensures sent { OnOk result (IsSent self.new.datagrams.sockets.items
            self.new.datagrams.last bytes.now what.now) }
        ensures failed { OnErr result
            (HasFailed self.new.readiness.time self.new.desk.unanswered what.now) }
        ensures unsent { OnErr result (IsUnsent self.old.datagrams.sockets.items
            self.new.datagrams.sockets.items self.new.datagrams.last bytes.now what.now) }
    {
        match what {
            What::Datagram { source, port, .. } => {
                let to = SocketAddrV4::new(Ipv4Addr::from(*source), *port);
                self.datagrams.reply(bytes, to)
            }
            What::Desk { .. } => {
                self.readiness.read_clocks(self.runtime);
                let now = self.readiness.time().ok_or(Fault)?;
                self.desk.answer(bytes, now)
            }
        }
    }
}

// The octets of a datagram of this size, which are at the front of the buffer.
fn copy(alloc: Global, buffer: &[u8], size: usize) -> Result<Octets, Fault>
    ensures { IfOk result (λ octets. octets ≡ take size buffer.now) }
{
    let octets = buffer.get(..size).ok_or(Fault)?;
    Octets::from_slice(alloc, octets).map_err(|_| Fault)
}

// Wakes what the last wait found ready.
fn wake_found<R: Binds>(readiness: &Readiness, datagrams: &mut Datagrams, desk: &mut Desk<R>)
    ensures datagrams { datagrams.new ≡ record datagrams.old { sockets = datagrams.new.sockets } }
    ensures desk { desk.new ≡ record desk.old {
      may_accept = desk.new.may_accept;
      places = desk.new.places;
    } }
{
    for event in readiness.events() {
        wake(datagrams, desk, event.token().0);
    }
}

// Notes that what is watched under this number may be ready.
fn wake<R: Binds>(datagrams: &mut Datagrams, desk: &mut Desk<R>, number: usize)
    ensures socket { LISTENER < number → IsWokenAt (number - DATAGRAMS)
        datagrams.old.sockets.items datagrams.new.sockets.items × (desk.new ≡ desk.old) }
    ensures listener { number ≡ LISTENER → (desk.new ≡ record desk.old { may_accept = true })
        × (datagrams.new ≡ datagrams.old) }
    ensures caller { number < LISTENER → IsWoken (slice_get desk.old.places.items number) number
        desk.old.places.items desk.new.places.items × (datagrams.new ≡ datagrams.old) }
    ensures other_datagrams { datagrams.new ≡ record datagrams.old {
      sockets = datagrams.new.sockets;
    } }
    ensures other_desk { desk.new ≡ record desk.old {
      may_accept = desk.new.may_accept;
      places = desk.new.places;
    } }
{
    match number {
        LISTENER => desk.wake_listener(),
        place if place < LISTENER => desk.wake_caller(place),
        number => datagrams.wake(number - DATAGRAMS),
    }
}
