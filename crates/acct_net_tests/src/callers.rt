//! Sockets on loopback at ports that the system chooses, callers of their desk, and turns.
ghost use Rattle.std.specs.Prelude.{◌≡◌, IfOk};

use acct_net::{Binds, Datagrams, Sockets};
use acct_service::{Event, Exchange, Fault};
use std::alloc::Global;
use std::io;
use std::io::{Read, Write};
use std::net::TcpStream;
use std::test::Fail;
use std::time::{Clock, Duration};

/// Where everything is bound.
pub(crate) const HERE: [u8; 4] = [127, 0, 0, 1];

/// A request of a caller.
pub(crate) const REQUEST: &[u8] =
    b"GET /me/balance HTTP/1.1\r\nDesk-Key: al-key-0000000001\r\n\r\n";

/// Sockets for datagrams and callers.
pub fn bound<'r, R: Binds + Clock>(runtime: &'r R, alloc: Global) -> io::Result<Sockets<'r, R>>
    ensures { IfOk result (λ s. (s.turns ≡ 0) × (s.failures ≡ 0)) }
{
    let datagrams = Datagrams::bind(runtime, alloc, &[HERE], 0)?;
    Sockets::over(runtime, alloc, datagrams, HERE, 0)
}

/// A caller that has sent these octets to the desk at a port.
pub(crate) fn caller(rt: &HostRuntime, desk: u16, octets: &[u8]) -> Result<TcpStream, Fail> {
    let mut stream = TcpStream::connect(rt, ("127.0.0.1", desk))?;
    stream.set_read_timeout(Some(Duration::from_secs(5)))?;
    stream.write_all(octets)?;
    Ok(stream)
}

/// Whether a caller gets just these octets, and then the end.
pub(crate) fn gets<R: Read>(alloc: Global, stream: &mut R, wanted: &[u8]) -> bool {
    let mut response = Vec::new(alloc);
    stream.read_to_end(&mut response).is_ok() && response.as_slice() == wanted
}

/// A turn, silent or not, unless there were as many as can be counted.
pub(crate) fn turn<X: Exchange>(exchange: &mut X, is_silent: bool) -> Result<Option<Event>, Fault> {
    if exchange.turns() == u64::MAX || exchange.failures() == u64::MAX {
        return Err(Fault);
    }
    exchange.next(is_silent)
}

/// The first event of at most so many turns.
pub(crate) fn next<X: Exchange>(exchange: &mut X, turns: u32) -> Result<Option<Event>, Fault> {
    for _ in 0..turns {
        if let Some(event) = turn(exchange, false)? {
            return Ok(Some(event));
        }
    }
    Ok(None)
}

/// Whether so many turns have no event, and none of them fails.
pub(crate) fn is_quiet<X: Exchange>(exchange: &mut X, turns: u32) -> bool {
    matches!(&next(exchange, turns), Ok(None))
}

/// Sends a reply, unless there were as many failures as can be counted.
pub(crate) fn is_sent<X: Exchange>(exchange: &mut X, event: &Event, bytes: &[u8]) -> bool {
    exchange.failures() < u64::MAX && exchange.reply(event, bytes).is_ok()
}
