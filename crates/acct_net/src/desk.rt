//! The callers of the desk.
//!
//! 1. Up to 64 callers have a place each. A turn drops one whose time is up, accepts those that
//!    wait for a place, and serves those that are ready until the request of one is there.
//! 2. If no place is free, the silent caller that connected first is dropped for one that waits. So
//!    strangers who hold every place keep nobody out.
//! 3. What a turn does for callers is bounded, so that no datagram waits for all of them.
ghost use Rattle.std.specs.Prelude.{◌≡◌, ◌≢◌, ◌⊎◌, ◌+◌, None, Some, true, false, IfOk, IfSome, IsTrue, OnErr};
ghost use Rattle.std.specs.Prelude.{OnOk};
ghost use Rattle.std.specs.Prelude.{◌↔◌, slice_get, slice_set, IsOk, MatchOption};
ghost use Rattle.std.specs.IoError.{error_kind};
ghost use Rattle.acct_net.specs.inner.Places.{IsWaiting, Answers, IsClosed, IsReadyAt, HasReady, IsWoken};
ghost use Rattle.acct_net.specs.inner.Places.{ChangesOnly, HasCaller, HasReceived, IsPaidAt};
ghost use Rattle.acct_net.specs.inner.Places.{has_ready};
ghost use Rattle.acct_net.specs.inner.Places.{HasNoneToDrop, IsDroppable, IsFirstToDrop, IsLate};
ghost use Rattle.acct_net.specs.inner.Places.{IsEarlier, IsServed, accepted_at};
ghost use Rattle.std.specs.Time.{instant_nanos};
ghost use Rattle.acct_net.specs.inner.Turns.{in_turn};
ghost use Rattle.std.specs.List.{All, HoldsAt, position};
ghost use Rattle.std.specs.Prelude.{◌<◌, ◌-◌, ◌^◌, ℕ, IfNone, IsSome, is_none, length, replicate};

use crate::binds::Binds;
use crate::readiness::Readiness;
use acct_model::Octets;
use acct_net_callers::{Caller, Step};
use acct_service::Fault;
use std::alloc::Global;
use std::io;
use std::io::{ErrorKind, Read, Write};
use std::net::{OpenListener, OpenStream};
use std::time::Instant;

/// How many callers have a place.
pub const PLACES: usize = 64;
/// The most callers that a turn accepts.
const ACCEPTS_OF_A_TURN: u32 = 8;
/// The most reads and writes of callers in a turn.
const STEPS_OF_A_TURN: u32 = 8;

/// Whose response is awaited.
#[derive(Clone, Copy)]
pub enum Unanswered {
    /// Nobody's.
    Nobody,
    /// That of the caller who has this place.
    At(usize),
    /// Nobody's: the last one could not be sent.
    Failed,
}

// What one step of the callers came to.
#[derive(Drop)]
enum Served {
    // No caller is ready.
    Nobody,
    // The request of a caller is not there yet.
    Pending,
    // This request of a caller, which awaits its response.
    Request(Octets),
}

// What accepts callers, and where it is bound.
struct Door<L> {
    listener: L,
    address: [u8; 4],
    port: u16,
}

impl<L: Drop> Drop for Door<L> {
    fn drop(self) {
        let Door {
            listener: _,
            address: _,
            port: _,
        } = self;
    }
}

/// The desk's listener, and the callers at their places.
pub struct Desk<R: Binds> {
    alloc: Global,
    door: Door<R::Listener>,
    may_accept: bool,
    is_full: bool,
    places: Vec<Option<Caller<R::Stream>>>,
    next: usize,
    unanswered: Unanswered,
    // How often callers were served.
    serves: u64,
}

impl<R: Binds> Drop for Desk<R> {
    fn drop(self) {
        let Desk {
            alloc: _,
            door: _,
            may_accept: _,
            is_full: _,
            places: _,
            next: _,
            unanswered: _,
            serves: _,
        } = self;
    }
}

impl<R: Binds> Desk<R> {
    /// A desk with no callers, bound at this address and port. At port 0 the system chooses one.
    ///
    /// # Errors
    ///
    /// Those of the system, and `OutOfMemory` if there is no memory for the places.
    pub fn bind(runtime: &R, alloc: Global, address: [u8; 4], port: u16) -> io::Result<Desk<R>>
        ensures accepts { IfOk result (λ desk. desk.may_accept ≡ true) }
        ensures idle { IfOk result (λ desk. desk.unanswered ≡ Unanswered.Nobody) }
        ensures address { IfOk result (λ desk. desk.door.address ≡ address) }
        ensures port { IfOk result (λ desk. desk.door.port ≡ port) }
        ensures places { IfOk result (λ desk. desk.places.items ≡ replicate PLACES None) }
        ensures first { IfOk result (λ desk. (desk.is_full ≡ false) × (desk.next ≡ 0)) }
        ensures serves { IfOk result (λ desk. desk.serves ≡ 0) }
    {
        let door = opened(runtime, address, port)?;
        let mut places = Vec::with_capacity(alloc, PLACES)?;
        for _ in 0..PLACES {
            places.push(None)?;
        }
        Ok(Desk {
            alloc,
            door,
            may_accept: true,
            is_full: false,
            places,
            next: 0,
            unanswered: Unanswered::Nobody,
            serves: 0,
        })
    }

    /// The listener.
    pub fn listener(&self) -> &R::Listener
        ensures { result.now ≡ self.now.door.listener }
    {
        &self.door.listener
    }

    /// Notes that callers may wait for a place.
    pub fn wake_listener(&mut self)
        ensures { self.new ≡ record self.old { may_accept = true } }
    {
        self.may_accept = true;
    }

    /// Notes that the caller at a place may be ready.
    pub fn wake_caller(&mut self, place: usize)
        ensures woken { IsWoken (slice_get self.old.places.items place) place
            self.old.places.items self.new.places.items }
        ensures other { self.new ≡ record self.old { places = self.new.places } }
    {
        let Some(slot) = self.places.get_mut(place) else {
            return;
        };
        if let Some(mut caller) = slot.take() {
            caller.wake();
            *slot = Some(caller);
        }
    }

    /// Whether something can be done for callers without waiting, as far as is known.
    pub fn is_busy(&self) -> bool
        ensures busy { self.now.may_accept ≡ true → self.now.is_full ≡ false → IsTrue result }
        ensures idle { (self.now.may_accept ≡ false) ⊎ (self.now.is_full ≡ true)
            → (IsTrue result ↔ HasReady self.now.places.items) }
    {
        (self.may_accept && !self.is_full) || self.ready_place().is_some()
    }

    /// Serves the callers until the request of one is there, and gives it. That caller, which sent
    /// it, then awaits its response. It counts how often it is called.
    ///
    /// # Errors
    ///
    /// If a caller is dropped before its response is written, since its time is up, another one
    /// needs its place, its connection fails or memory is refused; and if none can be accepted.
    pub fn serve(
        &mut self,
        readiness: &Readiness,
        buffer: &mut [u8],
        now: Instant,
    ) -> Result<Option<Octets>, Fault>
        requires { self.old.serves < 2 ^ 64 - 1 }
        ensures serves { self.new.serves ≡ self.old.serves + 1 }
        ensures some { IfOk result (λ request. IfSome request
            (IsWaiting self.new.unanswered self.new.places.items)) }
        ensures none { IfOk result (λ request. request ≡ None
            → self.new.unanswered ≡ self.old.unanswered) }
        ensures failed { OnErr result (self.new.unanswered ≡ self.old.unanswered) }
    {
        self.serves += 1;
        if let Some(place) = self.late_place(now) {
            self.close_at(place)?;
        }
        self.accept(readiness, now)?;
        self.serve_ready(buffer, now)
    }

    /// Sends its response to the caller whose request was given last.
    ///
    /// # Errors
    ///
    /// If no caller awaits a response, its connection fails, or memory is refused. The caller is
    /// then dropped.
    pub fn answer(&mut self, response: &[u8], now: Instant) -> Result<(), Fault>
        ensures answered { OnOk result (Answers R.Stream.contents self.old.unanswered
            self.old.places.items self.new.places.items response.now) }
        ensures failed { OnErr result
            (IsClosed self.old.unanswered self.old.places.items self.new.places.items) }
        ensures nobody { OnOk result (self.new.unanswered ≡ Unanswered.Nobody) }
        ensures told { OnErr result (self.new.unanswered ≡ Unanswered.Failed) }
        ensures other { self.new ≡ record self.old {
          unanswered = self.new.unanswered;
          is_full = self.new.is_full;
          places = self.new.places;
        } }
    {
        let unanswered = self.unanswered;
        self.unanswered = Unanswered::Failed;
        let Unanswered::At(place) = unanswered else {
            return Err(Fault);
        };
        self.is_full = false;
        let slot = self.places.get_mut(place).ok_or(Fault)?;
        let mut caller = slot.take().ok_or(Fault)?;
        caller.answer(self.alloc, response, now)?;
        *slot = Some(caller);
        self.unanswered = Unanswered::Nobody;
        Ok(())
    }

    /// Closes the connection of a caller whose request was given and not answered, if there is one.
    pub fn close_unanswered(&mut self)
        ensures places { IsClosed self.old.unanswered
            self.old.places.items self.new.places.items }
        ensures other { self.new ≡ record self.old {
          unanswered = Unanswered.Nobody;
          is_full = self.new.is_full;
          places = self.new.places;
        } }
    {
        if let Unanswered::At(place) = self.unanswered {
            self.clear(place);
        }
        self.unanswered = Unanswered::Nobody;
    }

    // Accepts callers that wait, while there are places for them.
    fn accept(&mut self, readiness: &Readiness, now: Instant) -> Result<(), Fault>
        ensures { self.new ≡ record self.old {
          may_accept = self.new.may_accept;
          is_full = self.new.is_full;
          places = self.new.places;
        } }
    {
        for _ in 0..ACCEPTS_OF_A_TURN {
            if !self.accept_next(readiness, now)? {
                return Ok(());
            }
        }
        Ok(())
    }

    // Accepts a caller that waits, if there is a place for one. It says whether another one may be
    // accepted now.
    fn accept_next(&mut self, readiness: &Readiness, now: Instant) -> Result<bool, Fault>
        ensures rests { IfOk result (λ goes_on. goes_on ≡ false
            → (self.new.may_accept ≡ false) ⊎ (self.new.is_full ≡ true)) }
        ensures free { (place : ℕ) → position is_none self.old.places.items ≡ Some place
            → ChangesOnly place self.old.places.items self.new.places.items }
        ensures full { position is_none self.old.places.items ≡ None
            → (self.new.places.items ≡ self.old.places.items)
            ⊎ ((place : ℕ) × IsFirstToDrop self.old.places.items now (length self.old.places.items)
            place × ChangesOnly place self.old.places.items self.new.places.items) }
        ensures other { self.new ≡ record self.old {
          may_accept = self.new.may_accept;
          is_full = self.new.is_full;
          places = self.new.places;
        } }
    {
        if !self.may_accept {
            return Ok(false);
        }
        let Some(place) = self.place_for_another(now) else {
            self.is_full = true;
            return Ok(false);
        };
        self.is_full = false;
        self.accept_at(place, readiness, now)?;
        Ok(true)
    }

    // Accepts a caller that waits, if there is one, in the place of whoever is there. If there is
    // none, nobody is accepted before somebody connects.
    fn accept_at(&mut self, place: usize, readiness: &Readiness, now: Instant) -> Result<(), Fault>
        ensures taken { OnOk result (self.new.may_accept ≡ true
            → place < length self.old.places.items → HasCaller self.new.places.items place) }
        ensures places { ChangesOnly place self.old.places.items self.new.places.items }
        ensures other { self.new ≡ record self.old {
          may_accept = self.new.may_accept;
          is_full = self.new.is_full;
          places = self.new.places;
        } }
    {
        let stream = match self.door.listener.accept() {
            Ok((stream, _)) => stream,
            Err(error) => return self.accept_failed(&error),
        };
        let closed = self.close_at(place);
        readiness.watch_both(&stream, place).map_err(|_| Fault)?;
        let caller = Caller::new(self.alloc, stream, now).map_err(|_| Fault)?;
        if let Some(free) = self.places.get_mut(place) {
            *free = Some(caller);
        }
        closed
    }

    // What follows from a failed accept: a fault, unless nobody waited. If nobody did, or the
    // system has no means for one more now, none is tried again before somebody else connects or a
    // turn had nothing to do. If it was interrupted, or its caller has disconnected, others may
    // still wait.
    fn accept_failed(&mut self, error: &io::Error) -> Result<(), Fault>
        ensures none { IsOk result ↔ (error_kind error.now ≡ ErrorKind.WouldBlock) }
        ensures other { self.new ≡ record self.old { may_accept = self.new.may_accept } }
        ensures again { IsTrue self.new.may_accept ↔ (IsTrue self.old.may_accept
            × ((error_kind error.now ≡ ErrorKind.Interrupted)
            ⊎ (error_kind error.now ≡ ErrorKind.ConnectionAborted))) }
    {
        match error.kind() {
            ErrorKind::WouldBlock => {
                self.may_accept = false;
                Ok(())
            }
            ErrorKind::Interrupted | ErrorKind::ConnectionAborted => Err(Fault),
            _ => {
                self.may_accept = false;
                Err(Fault)
            }
        }
    }

    // Serves callers that are ready, until the request of one is there.
    fn serve_ready(&mut self, buffer: &mut [u8], now: Instant) -> Result<Option<Octets>, Fault>
        ensures some { IfOk result (λ request. IfSome request
            (IsWaiting self.new.unanswered self.new.places.items)) }
        ensures none { IfOk result (λ request. request ≡ None
            → self.new.unanswered ≡ self.old.unanswered) }
        ensures failed { OnErr result (self.new.unanswered ≡ self.old.unanswered) }
        ensures other { self.new ≡ record self.old {
          is_full = self.new.is_full;
          places = self.new.places;
          next = self.new.next;
          unanswered = self.new.unanswered;
        } }
    {
        for _ in 0..STEPS_OF_A_TURN {
            match self.serve_next(buffer, now)? {
                Served::Nobody => return Ok(None),
                Served::Request(request) => return Ok(Some(request)),
                Served::Pending => {}
            }
        }
        Ok(None)
    }

    // Makes one step of the caller whose turn it is among those that are ready. The next turn is of
    // one behind it.
    fn serve_next(&mut self, buffer: &mut [u8], now: Instant) -> Result<Served, Fault>
        ensures turn { MatchOption (in_turn has_ready self.old.places.items self.old.next)
            (self.new ≡ self.old) (λ place. (self.new.next ≡ place + 1)
            × ChangesOnly place self.old.places.items self.new.places.items) }
        ensures nobody { in_turn has_ready self.old.places.items self.old.next ≡ None
            → result ≡ Ok Served.Nobody }
        ensures somebody { IsSome (in_turn has_ready self.old.places.items self.old.next)
            → result ≢ Ok Served.Nobody }
        ensures waiting { IfOk result
            (IsServed self.old.unanswered self.new.unanswered self.new.places.items) }
        ensures failed { OnErr result (self.new.unanswered ≡ self.old.unanswered) }
        ensures other { self.new ≡ record self.old {
          is_full = self.new.is_full;
          places = self.new.places;
          next = self.new.next;
          unanswered = self.new.unanswered;
        } }
    {
        let Some(place) = self.ready_place() else {
            return Ok(Served::Nobody);
        };
        self.next = place + 1;
        match self.serve_at(place, buffer, now)? {
            Some(request) => Ok(Served::Request(request)),
            None => Ok(Served::Pending),
        }
    }

    // Makes one step of the caller at a place, and gives its request if that is there now.
    fn serve_at(
        &mut self,
        place: usize,
        buffer: &mut [u8],
        now: Instant,
    ) -> Result<Option<Octets>, Fault>
        ensures waiting { IfOk result (λ request. IfSome request
            (IsWaiting self.new.unanswered self.new.places.items)) }
        ensures received { IfOk result (λ request. IfSome request (HasReceived
            R.Stream.remaining R.Stream.contents self.new.unanswered
            self.old.places.items self.new.places.items)) }
        ensures others { ChangesOnly place self.old.places.items self.new.places.items }
        ensures none { IfOk result (λ request. request ≡ None
            → self.new.unanswered ≡ self.old.unanswered) }
        ensures failed { OnErr result (self.new.unanswered ≡ self.old.unanswered) }
        ensures other { self.new ≡ record self.old {
          is_full = self.new.is_full;
          places = self.new.places;
          unanswered = self.new.unanswered;
        } }
    {
        let slot = self.places.get_mut(place).ok_or(Fault)?;
        let mut caller = slot.take().ok_or(Fault)?;
        self.is_full = false;
        let step = caller.proceed(self.alloc, buffer, now)?;
        if let Step::Closed = &step {
            return Ok(None);
        }
        *slot = Some(caller);
        match step {
            Step::Received(request) => {
                self.unanswered = Unanswered::At(place);
                Ok(Some(request))
            }
            Step::Pending | Step::Closed => Ok(None),
        }
    }

    // Closes the connection of the caller at a place, if there is one. That is a fault if its
    // response is not written.
    fn close_at(&mut self, place: usize) -> Result<(), Fault>
        ensures places { self.new.places.items ≡ slice_set self.old.places.items place None }
        ensures other { self.new ≡ record self.old { is_full = false; places = self.new.places } }
        ensures owed { IsOk result ↔ IsPaidAt self.old.places.items place }
    {
        let is_owed = match self.places.get(place) {
            Some(Some(caller)) => !caller.is_closing(),
            _ => false,
        };
        self.clear(place);
        if is_owed { Err(Fault) } else { Ok(()) }
    }

    // Closes the connection of the caller at a place, if there is one.
    fn clear(&mut self, place: usize)
        ensures places { self.new.places.items ≡ slice_set self.old.places.items place None }
        ensures other { self.new ≡ record self.old { is_full = false; places = self.new.places } }
    {
        self.is_full = false;
        if let Some(caller) = self.places.get_mut(place) {
            *caller = None;
        }
    }

    // The place of a caller whose time is up.
    fn late_place(&self, now: Instant) -> Option<usize>
        ensures found { IfSome result (HoldsAt (IsLate now) self.now.places.items) }
        ensures none { IfNone result (All (λ place. ¬ IsLate now place) self.now.places.items) }
    {
        for (place, caller) in self.places.iter().enumerate() {
            if is_late(caller, now) {
                return Some(place);
            }
        }
        None
    }

    // The next place whose caller is ready, so that each has its turn.
    fn ready_place(&self) -> Option<usize>
        ensures ready { IfSome result (IsReadyAt self.now.places.items) }
        ensures none { result ≡ None → ¬ HasReady self.now.places.items }
        ensures within { IfSome result (λ place. place < length self.now.places.items) }
        ensures turn { result ≡ in_turn has_ready self.now.places.items self.now.next }
    {
        let places = self.places.as_slice();
        if self.next < places.len()
            && let Some(place) = first_ready(&places[self.next..])
        {
            return Some(self.next + place);
        }
        first_ready(places)
    }

    // A free place, or else that of the caller that connected first of those that may be dropped.
    fn place_for_another(&self, now: Instant) -> Option<usize>
        ensures free { IsSome (position is_none self.now.places.items)
            → result ≡ position is_none self.now.places.items }
        ensures drops { position is_none self.now.places.items ≡ None → MatchOption result
            (HasNoneToDrop self.now.places.items now (length self.now.places.items))
            (IsFirstToDrop self.now.places.items now (length self.now.places.items)) }
    {
        match first_free(&self.places) {
            Some(place) => Some(place),
            None => first_to_drop(&self.places, now),
        }
    }
}

// Whether a caller has this place whose time is up.
fn is_late<S: Read + Write + OpenStream + Drop>(place: &Option<Caller<S>>, now: Instant) -> bool
    ensures { IsTrue result ↔ IsLate now place.now }
{
    matches!(place, Some(caller) if caller.has_timed_out(now))
}

// When the caller was accepted who has this place, if he may be dropped for another one.
fn droppable_since<S: Read + Write + OpenStream + Drop>(
    place: &Option<Caller<S>>,
    now: Instant,
) -> Option<Instant>
    ensures none { IfNone result (¬ IsDroppable now place.now) }
    ensures some { IfSome result (λ since. IsDroppable now place.now
        × (instant_nanos since ≡ accepted_at place.now)) }
{
    match place {
        Some(caller) if caller.may_be_dropped(now) => Some(caller.accepted()),
        _ => None,
    }
}

// The place of the caller that connected first of those that may be dropped.
fn first_to_drop<S: Read + Write + OpenStream + Drop>(
    places: &[Option<Caller<S>>],
    now: Instant,
) -> Option<usize>
    ensures { MatchOption result (HasNoneToDrop places.now now (length places.now))
        (IsFirstToDrop places.now now (length places.now)) }
{
    let mut first: Option<(usize, Instant)> = None;
    for (place, caller) in places.iter().enumerate() {
        if let Some(since) = droppable_since(caller, now) {
            first = Some(earlier(first, (place, since)));
        }
    }
    match first {
        Some((place, _)) => Some(place),
        None => None,
    }
}

// Which of two connected first: the one before, if both did at once.
fn earlier(before: Option<(usize, Instant)>, other: (usize, Instant)) -> (usize, Instant)
    ensures none { before ≡ None → result ≡ other }
    ensures both { IfSome before (λ one. IsEarlier one other result) }
{
    match before {
        Some(one) if one.1 <= other.1 => one,
        _ => other,
    }
}

// The first free place.
fn first_free<S: Drop>(places: &[Option<Caller<S>>]) -> Option<usize>
    ensures { result ≡ position is_none places.now }
{
    places.iter().position(|place| place.is_none())
}

// The first place whose caller is ready.
fn first_ready<S: Read + Write + OpenStream + Drop>(places: &[Option<Caller<S>>]) -> Option<usize>
    ensures first { result ≡ position has_ready places.now }
    ensures within { IfSome result (λ place. place < length places.now) }
{
    places
        .iter()
        .position(|place| matches!(place, Some(caller) if caller.is_ready()))
}

// Binds what accepts callers, and keeps beside it where. No contract of the system says so: this is
// read by eye, and all above it is a clause.
fn opened<R: Binds>(runtime: &R, address: [u8; 4], port: u16) -> io::Result<Door<R::Listener>>
    ensures address { IfOk result (λ door. door.address ≡ address) }
    ensures port { IfOk result (λ door. door.port ≡ port) }
{
    let listener = runtime.bind_listener(address, port)?;
    listener.set_nonblocking(true)?;
    Ok(Door {
        listener,
        address,
        port,
    })
}
