//! Silent turns: what arrives is lost, and nobody is answered. Then all is as before.
use crate::callers::{HERE, REQUEST, bound, caller, gets, is_sent, next, turn};
use acct_net::{Datagrams, Sockets};
use acct_service::{Exchange, What};
use std::net::UdpSocket;
use std::test::Fail;

// How many turns nothing may be handed on.
const TURNS: u32 = 40;

// Whether the next event has these octets, and is answered by them.
fn hears<X: Exchange>(exchange: &mut X, wanted: &[u8]) -> bool {
    let Ok(Some(event)) = next(exchange, TURNS) else {
        return false;
    };
    let is_wanted = match &event.what {
        What::Datagram { bytes, .. } | What::Desk { bytes } => bytes.as_slice() == wanted,
    };
    is_wanted && is_sent(exchange, &event, wanted)
}

// Whether there is no event in so many silent turns.
fn is_idle<X: Exchange>(exchange: &mut X) -> bool {
    for _ in 0..TURNS {
        if !matches!(&turn(exchange, true), Ok(None)) {
            return false;
        }
    }
    true
}

// Whether a datagram and a request that come in silence are lost, and those after it heard.
fn is_lost<X: Exchange>(
    rt: &HostRuntime,
    exchange: &mut X,
    (radius, desk): (u16, u16),
) -> Result<bool, Fail> {
    let sender = UdpSocket::bind(rt, "127.0.0.1:0")?;
    sender.send_to(b"one", ("127.0.0.1", radius))?;
    let mut stream = caller(rt, desk, REQUEST)?;
    if !is_idle(exchange) || !gets(rt.alloc(), &mut stream, b"") {
        return Ok(false);
    }
    sender.send_to(b"two", ("127.0.0.1", radius))?;
    let is_heard = hears(exchange, b"two");
    let mut stream = caller(rt, desk, REQUEST)?;
    Ok(is_heard && hears(exchange, REQUEST) && gets(rt.alloc(), &mut stream, REQUEST))
}

#[test]
fn nothing_is_handed_on(rt: HostRuntime) -> Result<(), Fail> {
    let mut sockets = bound(&rt, rt.alloc())?;
    let ports = sockets.ports()?;
    assert!(rt; is_lost(&rt, &mut sockets, ports)? && sockets.failures() == 0);
    Ok(())
}

// What comes before the desk is bound waits, and is heard then.
#[test]
fn waits_until_there_is_a_desk(rt: HostRuntime) -> Result<(), Fail> {
    let datagrams = Datagrams::bind(&rt, rt.alloc(), &[HERE], 0)?;
    let sender = UdpSocket::bind(&rt, "127.0.0.1:0")?;
    sender.send_to(b"early", ("127.0.0.1", datagrams.port(0)?))?;
    let mut sockets = Sockets::over(&rt, rt.alloc(), datagrams, HERE, 0)?;
    assert!(rt; hears(&mut sockets, b"early"));
    Ok(())
}
