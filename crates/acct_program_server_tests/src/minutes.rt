//! The counts that a server prints after each minute, whichever way the clock goes.
ghost use Rattle.std.specs.Prelude.{◌<◌, ◌^◌};

use acct_model::Octets;
use acct_program_commands::{StatusFile, Watch, Watched};
use acct_service::lists::{ListExchange, Planned};
use acct_service::{Event, Exchange, What};
use acct_wire::Reason;
use std::alloc::Global;
use std::test::Fail;

// When datagrams come, and whether the reply to each is taken.
static COMING: [(u16, bool); 4] = [(1000, true), (1059, true), (1060, true), (1000, false)];

// The first one is dropped, the next one answered. That at the end of the minute has no answer, and
// the reply to the last one is not taken.
const TOLD: &str = "drop 2 TooShort from 10.0.0.9:1813\n\
    minute: events 2, replies 1, drops 1, mute 0, faults 0\n\
    minute: events 1, replies 0, drops 0, mute 1, faults 0\n\
    minute: events 1, replies 0, drops 0, mute 0, faults 1\n";

fn datagrams(alloc: Global) -> Result<Vec<Planned>, Fail> {
    let mut planned = Vec::new(alloc);
    for (moment, takes_reply) in &COMING {
        let what = What::Datagram {
            source: [10, 0, 0, 9],
            port: 1813,
            bytes: Octets::from_slice(alloc, b"\x04\x07\x00")?,
        };
        planned.push(Planned::Comes {
            event: Event {
                moment: u64::from(*moment),
                what,
            },
            takes_reply: *takes_reply,
        })?;
    }
    Ok(planned)
}

// The event of a turn, unless there were as many turns as can be counted.
fn turn<X: Exchange>(exchange: &mut X) -> Option<Event> {
    if exchange.turns() == u64::MAX || exchange.failures() == u64::MAX {
        return None;
    }
    exchange.next(false).unwrap_or(None)
}

// Whether an event comes, and is dropped.
fn drops<X: Exchange>(exchange: &mut X) -> bool {
    let Some(event) = turn(exchange) else {
        return false;
    };
    exchange.note_drop(&event, Reason::TooShort);
    true
}

// Whether an event comes, and its reply is taken.
fn replies<X: Exchange>(exchange: &mut X) -> bool {
    let Some(event) = turn(exchange) else {
        return false;
    };
    if exchange.failures() == u64::MAX {
        return false;
    }
    exchange.reply(&event, b"yes").is_ok()
}

// Whether all come so.
fn all_come<X: Exchange>(exchange: &mut X) -> bool {
    drops(exchange) && replies(exchange) && turn(exchange).is_some() && !replies(exchange)
}

// No file of its counts, which would have had such a writer.
fn no_status<'r>(_rt: &'r HostRuntime) -> Option<StatusFile<'r, HostRuntime, Vec<u8>>> {
    None
}

// What is told of them.
fn told(rt: &HostRuntime) -> Result<Option<Vec<u8>>, Fail> {
    let exchange = ListExchange::new(rt.alloc(), datagrams(rt.alloc())?);
    let watch = Watch::new(Vec::new(rt.alloc()));
    let mut watched = Watched::new(rt, exchange, Some(watch), no_status(rt));
    let is_done = all_come(&mut watched);
    let (_, told) = watched.finish().into_parts();
    Ok(if is_done { told } else { None })
}

#[test]
fn tells_each_minute(rt: HostRuntime) -> Result<(), Fail> {
    let told = told(&rt)?;
    assert!(rt; told.is_some_and(|told| told.as_slice() == TOLD.as_bytes()));
    Ok(())
}
