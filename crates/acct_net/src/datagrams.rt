//! The sockets for datagrams, one at each address.
//!
//! 1. They take turns: one that gave a datagram is tried last in the next search. So none waits for
//!    more than one datagram of each other one.
//! 2. A reply leaves from the socket that gave the last datagram, and so from the address that was
//!    asked.
//! 3. A receive that would block found nothing. Each other one that gives no datagram is a fault,
//!    also if a signal interrupted it.
ghost use Rattle.std.specs.Prelude.{◌≡◌, ◌<◌, ◌-◌, ◌^◌, true, false, length, slice_get, slice_set};
ghost use Rattle.std.specs.Prelude.{IsSome, OnErr, OnOk, is_some};
ghost use Rattle.std.specs.Prelude.{◌↔◌, ◌+◌, IfOk, IfSome, IsErrAnd, IsOkAnd};
ghost use Rattle.std.specs.List.{All, list_any, position};
ghost use Rattle.acct_net.specs.Bound.{AreUnheardAt};
ghost use Rattle.acct_net.specs.inner.RadiusSockets.{HasFault, HasNotSent, HasReceived, HasSent};
ghost use Rattle.acct_net.specs.inner.RadiusSockets.{IsWokenAt, MayReceiveAt};
ghost use Rattle.acct_net.specs.inner.Sent.{WasSent};
ghost use Rattle.acct_net.specs.inner.Turns.{in_turn};
ghost use Rattle.std.specs.IoError.{error_kind};

use crate::binds::Binds;
use crate::readiness::Readiness;
use acct_service::Fault;
use std::alloc::Global;
use std::io;
use std::io::ErrorKind;
use std::net::{SocketAddr, SocketAddrV4, UdpSocket};

/// The sockets for datagrams.
pub struct Datagrams {
    sockets: Vec<RadiusSocket>,
    last: usize,
    // How often a datagram was looked for.
    receives: u64,
}

impl Drop for Datagrams {
    fn drop(self) {
        let Datagrams {
            sockets: _,
            last: _,
            receives: _,
        } = self;
    }
}

// A socket for datagrams, where it is bound, and whether a datagram may wait there.
#[derive(Drop)]
struct RadiusSocket {
    udp: UdpSocket,
    address: [u8; 4],
    port: u16,
    may_receive: bool,
    // What the last receive gave: the size and the source of a datagram, none, or a fault.
    received: Result<Option<(usize, SocketAddrV4)>, Fault>,
    // How much of a reply was sent since then, or that it failed, and where to.
    sent: Option<(Result<usize, Fault>, SocketAddrV4)>,
}

impl Datagrams {
    /// Binds a socket at each of these IPv4 addresses. At port 0 the system chooses one for each.
    /// From now on the system keeps what arrives, as far as it has room.
    ///
    /// # Errors
    ///
    /// Those of the system: the port is taken or needs a right that the program hasn't, or the
    /// machine hasn't an address. `InvalidInput` if there is no address, and `OutOfMemory`.
    pub fn bind<R: Binds>(
        runtime: &R,
        alloc: Global,
        addresses: &[[u8; 4]],
        port: u16,
    ) -> io::Result<Datagrams>
        ensures bound { IfOk result (AreUnheardAt addresses.now port) }
        ensures heard { IfOk result (λ bound.
            All (λ socket. socket.may_receive ≡ true) bound.sockets.items) }
    {
        if addresses.is_empty() {
            return Err(io::Error::from(ErrorKind::InvalidInput));
        }
        let mut sockets = Vec::with_capacity(alloc, addresses.len())?;
        for address in addresses {
            sockets.push(RadiusSocket::bind(runtime, *address, port)?)?;
        }
        Ok(Datagrams {
            sockets,
            last: 0,
            receives: 0,
        })
    }

    /// How many sockets there are.
    pub fn count(&self) -> usize
        ensures { result ≡ length self.now.sockets.items }
    {
        self.sockets.len()
    }

    /// Watches the sockets under numbers from this one on, in the order of their addresses.
    ///
    /// # Errors
    ///
    /// Those of the system.
    pub fn watch(&self, readiness: &Readiness, first: usize) -> io::Result<()> {
        for (place, socket) in self.sockets.iter().enumerate() {
            readiness.watch(&socket.udp, first.wrapping_add(place))?;
        }
        Ok(())
    }

    /// The port of the socket at the address with this place among the others, from 0 on.
    ///
    /// # Errors
    ///
    /// Those of the system, and `NotFound` if there is no such address.
    pub fn port(&self, place: usize) -> io::Result<u16> {
        match self.sockets.get(place) {
            Some(socket) => Ok(socket.udp.local_addr()?.port()),
            None => Err(io::Error::from(ErrorKind::NotFound)),
        }
    }

    /// Whether a datagram may wait, as far as is known.
    pub fn may_receive(&self) -> bool
        ensures { result ≡ list_any (λ socket. socket.may_receive) self.now.sockets.items }
    {
        self.sockets.iter().any(|socket| socket.may_receive)
    }

    /// Notes that a datagram may wait at the socket with this place.
    pub fn wake(&mut self, place: usize)
        ensures sockets { IsWokenAt place self.old.sockets.items self.new.sockets.items }
        ensures other { self.new ≡ record self.old { sockets = self.new.sockets } }
    {
        if let Some(socket) = self.sockets.get_mut(place) {
            socket.may_receive = true;
        }
    }

    /// Notes that a datagram may wait at each socket.
    pub fn wake_all(&mut self)
        ensures woken { All (λ socket. socket.may_receive ≡ true) self.new.sockets.items }
        ensures other { self.new ≡ record self.old { sockets = self.new.sockets } }
    {
        for socket in self.sockets.iter_mut() {
            socket.may_receive = true;
        }
    }

    /// Receives a datagram into the buffer, if one waits. It gives its size and its source. If it
    /// gives none, no socket may have one, as far as is known. It counts how often it is called.
    ///
    /// # Errors
    ///
    /// If the system fails.
    pub fn receive(&mut self, buffer: &mut [u8]) -> Result<Option<(usize, SocketAddrV4)>, Fault>
        requires { self.old.receives < 2 ^ 64 - 1 }
        ensures receives { self.new.receives ≡ self.old.receives + 1 }
        ensures none { IfOk result (λ received. received ≡ None
            → list_any (λ socket. socket.may_receive) self.new.sockets.items ≡ false) }
        ensures some { IfOk result (λ received. IfSome received (λ datagram.
            HasReceived self.new.sockets.items self.new.last datagram)) }
        ensures turn { IfOk result (λ received. IfSome received (λ _.
            in_turn (λ socket. socket.may_receive) self.new.sockets.items (self.old.last + 1)
            ≡ Some self.new.last)) }
        ensures fault { OnErr result (HasFault self.new.sockets.items self.new.last) }
    {
        self.receives += 1;
        while let Some(place) = self.next_place() {
            self.last = place;
            let socket = self.sockets.get_mut(place).ok_or(Fault)?;
            match socket.receive(buffer)? {
                Some(received) => return Ok(Some(received)),
                None => {}
            }
        }
        Ok(None)
    }

    // The place of the next socket at which a datagram may wait, so that each has its turn.
    fn next_place(&self) -> Option<usize>
        ensures none { result ≡ None
            → list_any (λ socket. socket.may_receive) self.now.sockets.items ≡ false }
        ensures some { IfSome result (MayReceiveAt self.now.sockets.items) }
        ensures turn { result ≡ in_turn (λ socket. socket.may_receive) self.now.sockets.items
            (self.now.last + 1) }
    {
        let sockets = self.sockets.as_slice();
        if self.last < sockets.len() {
            let next = self.last + 1;
            if let Some(place) = first_place(&sockets[next..]) {
                return Some(next + place);
            }
        }
        first_place(sockets)
    }

    /// Sends a reply to the last datagram.
    ///
    /// # Errors
    ///
    /// If the system fails, or does not take the whole reply.
    pub fn reply(&mut self, bytes: &[u8], to: SocketAddrV4) -> Result<(), Fault>
        ensures sent { OnOk result
            (HasSent self.new.sockets.items self.new.last bytes.now to) }
        ensures failed { OnErr result (IsSome (slice_get self.old.sockets.items self.old.last)
            → HasNotSent self.new.sockets.items self.new.last bytes.now to) }
        ensures other { self.new ≡ record self.old { sockets = self.new.sockets } }
    {
        let socket = self.sockets.get_mut(self.last).ok_or(Fault)?;
        match socket.send(bytes, to) {
            Ok(count) if count == bytes.len() => Ok(()),
            _ => Err(Fault),
        }
    }
}

impl RadiusSocket {
    // Binds a socket, and keeps beside it where. No contract of the system says so: this is read by
    // eye, and all above it is a clause.
    fn bind<R: Binds>(runtime: &R, address: [u8; 4], port: u16) -> io::Result<RadiusSocket>
        ensures address { IfOk result (λ socket. socket.address ≡ address) }
        ensures port { IfOk result (λ socket. socket.port ≡ port) }
        ensures heard { IfOk result (λ socket. socket.may_receive ≡ true) }
    {
        let udp = runtime.bind_datagrams(address, port)?;
        udp.set_nonblocking(true)?;
        Ok(RadiusSocket {
            udp,
            address,
            port,
            may_receive: true,
            received: Ok(None),
            sent: None,
        })
    }

    // The datagram that waits here, if one does. The outcome is kept beside the socket, and what is
    // made of it above is a clause.
    fn receive(&mut self, buffer: &mut [u8]) -> Result<Option<(usize, SocketAddrV4)>, Fault>
        ensures kept { self.new ≡ record self.old {
          may_receive = self.new.may_receive;
          received = result;
          sent = None;
        } }
        ensures marked { IfOk result (λ received. self.new.may_receive ≡ is_some received) }
    {
        self.received = Ok(None);
        self.sent = None;
        if self.may_receive {
            self.received = outcome_of(self.udp.recv_from(buffer));
        }
        self.may_receive = !matches!(self.received, Ok(None));
        self.received
    }

    // Sends a datagram. The outcome, and where to, is kept beside the socket.
    fn send(&mut self, bytes: &[u8], to: SocketAddrV4) -> Result<usize, Fault>
        ensures kept { self.new ≡ record self.old { sent = Some (result, to) } }
        ensures sent { WasSent bytes.now to result }
    {
        let sent = send_waiting(&self.udp, bytes, to);
        self.sent = Some((sent, to));
        sent
    }
}

// Sends a datagram. If the system has no space for it now, this waits until it has.
// No contract of the system says what leaves: this is read by eye.
#[tactic(auto, unfolding(crate::specs::inner::Sent::WasSent))]
fn send_waiting(udp: &UdpSocket, bytes: &[u8], to: SocketAddrV4) -> Result<usize, Fault>
    ensures { WasSent bytes.now to result }
{
    match udp.send_to(bytes, to) {
        Err(error) if error.kind() == ErrorKind::WouldBlock => {
            udp.set_nonblocking(false).map_err(|_| Fault)?;
            let sent = udp.send_to(bytes, to).map_err(|_| Fault);
            udp.set_nonblocking(true).map_err(|_| Fault)?;
            sent
        }
        sent => sent.map_err(|_| Fault),
    }
}

// The place of the first socket at which a datagram may wait.
fn first_place(sockets: &[RadiusSocket]) -> Option<usize>
    ensures first { result ≡ position (λ socket. socket.may_receive) sockets.now }
    ensures within { IfSome result (λ place. place < length sockets.now) }
{
    sockets.iter().position(|socket| socket.may_receive)
}

// The outcome of a receive.
fn outcome_of(
    received: io::Result<(usize, SocketAddr)>,
) -> Result<Option<(usize, SocketAddrV4)>, Fault>
    ensures none { (result ≡ Ok None) ↔ IsErrAnd received (λ error.
        error_kind error ≡ ErrorKind.WouldBlock) }
    ensures some { IfOk result (λ outcome. IfSome outcome (λ datagram. IsOkAnd received (λ pair.
        (datagram.0 ≡ pair.0) × (pair.1 ≡ SocketAddr.V4 datagram.1)))) }
{
    match received {
        Ok((size, SocketAddr::V4(source))) => Ok(Some((size, source))),
        Ok((_, SocketAddr::V6(_))) => Err(Fault),
        Err(error) if error.kind() == ErrorKind::WouldBlock => Ok(None),
        Err(_) => Err(Fault),
    }
}
