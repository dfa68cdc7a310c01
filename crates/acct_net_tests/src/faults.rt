//! Faults over a runtime whose accepts fail at first and whose clocks are set: of accepts, and of
//! callers whose time is up.
use crate::callers::{REQUEST, bound, caller, gets, is_quiet, is_sent, next, turn};
use crate::flaky::Flaky;
use acct_service::{Exchange, Fault, What};
use std::cell::Cell;
use std::io::ErrorKind;
use std::net::TcpStream;
use std::test::Fail;

// Accepts that fail without a fault of the machine's means: the next one is made in the next turn.
static FAULTS: [ErrorKind; 2] = [ErrorKind::ConnectionAborted, ErrorKind::Interrupted];

// Whether the first turn is a fault, and the event of the next few turns is the caller's request, at
// the clock's second; the caller is answered by it.
fn is_served_after_a_fault<X: Exchange>(exchange: &mut X) -> bool {
    if !matches!(&turn(exchange, false), Err(Fault)) || exchange.failures() != 1 {
        return false;
    }
    let Ok(Some(event)) = next(exchange, 4) else {
        return false;
    };
    let is_request = match &event.what {
        What::Desk { bytes } => bytes.as_slice() == REQUEST,
        What::Datagram { .. } => false,
    };
    is_request && event.moment == 1_700_000_123 && is_sent(exchange, &event, REQUEST)
}

// Whether one failed accept is counted, and its caller is served in a later turn.
fn counts(flaky: &Flaky, fault: ErrorKind) -> Result<bool, Fail> {
    flaky.fault.set(fault);
    let mut sockets = bound(flaky, flaky.host.alloc())?;
    let (_, desk) = sockets.ports()?;
    let mut stream = caller(&flaky.host, desk, REQUEST)?;
    let is_served = is_served_after_a_fault(&mut sockets);
    Ok(is_served && gets(flaky.host.alloc(), &mut stream, REQUEST) && sockets.failures() == 1)
}

#[test]
fn counts_failed_accepts(rt: HostRuntime) -> Result<(), Fail> {
    let flaky = Flaky::at(rt, 1_700_000_123);
    for fault in FAULTS {
        assert!(flaky.host; counts(&flaky, fault)?);
    }
    Ok(())
}

// How many places there are.
const PLACES: usize = 64;

// So many callers that send nothing.
fn silent(rt: &HostRuntime, desk: u16) -> Result<Vec<TcpStream>, Fail> {
    let mut streams = Vec::new(rt.alloc());
    for _ in 0..PLACES {
        streams.push(caller(rt, desk, b"")?)?;
    }
    Ok(streams)
}

// How many of so many turns fail.
fn faults_of<X: Exchange>(exchange: &mut X, turns: usize) -> usize {
    let mut faults = 0_usize;
    for _ in 0..turns {
        faults = faults.saturating_add(usize::from(turn(exchange, false).is_err()));
    }
    faults
}

// Each silent caller is dropped, one in a turn, wherever it is.
#[test]
fn drops_each_silent_caller(rt: HostRuntime) -> Result<(), Fail> {
    let flaky = Flaky::at(rt, 1_700_000_123);
    let mut sockets = bound(&flaky, flaky.host.alloc())?;
    let (_, desk) = sockets.ports()?;
    let _streams = silent(&flaky.host, desk)?;
    assert!(flaky.host; is_quiet(&mut sockets, 24));
    flaky.ahead.set(3);
    assert!(flaky.host; faults_of(&mut sockets, PLACES + 8) == PLACES);
    Ok(())
}

// Whether a caller that takes nothing of its response has its place for 29 seconds, and is dropped
// after 31.
fn is_dropped_in_time<X: Exchange>(exchange: &mut X, response: &[u8], ahead: &Cell<u64>) -> bool {
    let Ok(Some(event)) = next(exchange, 8) else {
        return false;
    };
    let is_begun = is_sent(exchange, &event, response) && is_quiet(exchange, 16);
    ahead.set(29);
    let is_kept = is_quiet(exchange, 2);
    ahead.set(31);
    is_begun && is_kept && matches!(&turn(exchange, false), Err(Fault))
}

// The response is longer than the system takes for a caller.
#[test]
fn drops_who_takes_nothing(rt: HostRuntime) -> Result<(), Fail> {
    let flaky = Flaky::at(rt, 1_700_000_123);
    let response = vec![in flaky.host.alloc(); b'x'; 16_000_000]?;
    let mut sockets = bound(&flaky, flaky.host.alloc())?;
    let (_, desk) = sockets.ports()?;
    let _stream = caller(&flaky.host, desk, REQUEST)?;
    assert!(flaky.host; is_dropped_in_time(&mut sockets, response.as_slice(), &flaky.ahead));
    Ok(())
}
