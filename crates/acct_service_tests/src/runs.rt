//! Runs of the sample site over a list of turns, of which one may fail.
use acct_book::Book;
use acct_model::Octets;
use acct_service::lists::{ListExchange, Planned};
use acct_service::{Call, Event, Exchange, What, serve};
use acct_site::sample_config;
use acct_wire::Reason;
use std::alloc::Global;
use std::test::Fail;

// What a turn brings: a request of the client `ap1`, or one at the desk.
#[derive(Clone, Copy)]
enum Sent {
    Packet(&'static [u8]),
    Desk(&'static [u8]),
}

/// A turn of this place fails, or its reply is not taken.
#[derive(Clone, Copy)]
pub(crate) enum Fails {
    Turn(usize),
    Reply(usize),
}

// Interim-Updates of the Class `gold`, whose digests another program computed: of the session `s2`
// of `al`, of one block and an octet, then of one octet, and of the session `s3` of `bo`.
const MORE: &[u8] = b"\x04\x08\0\x2e\xf6\x2d\x03\xa3\x76\x61\x6d\xd7\x12\xb7\0\x06\x30\x17\x07\xe7\
    \x28\x06\0\0\0\x03\x2c\x04s2\x01\x04al\x19\x06gold\x2a\x06\0\x10\0\x01";

const LESS: &[u8] =
    b"\x04\x09\0\x2e\xe1\xce\xed\x4e\x83\x92\x07\x6c\xa5\x33\xc4\xfa\x79\xf5\xa3\x40\
    \x28\x06\0\0\0\x03\x2c\x04s2\x01\x04al\x19\x06gold\x2a\x06\0\0\0\x01";

const OF_BO: &[u8] =
    b"\x04\x0a\0\x2e\xb2\xe9\x1f\x4e\x6f\xb6\xa3\x67\xea\xea\xf2\x70\xac\x4c\x35\x50\
    \x28\x06\0\0\0\x03\x2c\x04s3\x01\x04bo\x19\x06gold\x2a\x06\0\x10\0\x01";

const TOP_UP: &[u8] = b"POST /topups HTTP/1.1\r\nDesk-Key: cash-key-00000001\r\n\
    Content-Length: 42\r\n\r\n{\"account\":\"al\",\"sum\":500,\"voucher\":\"V-1\"}";

const BALANCE: &[u8] = b"GET /me/balance HTTP/1.1\r\nDesk-Key: al-key-0000000001\r\n\r\n";

static BUSY: [Sent; 6] = [
    Sent::Packet(MORE),
    Sent::Desk(TOP_UP),
    Sent::Desk(BALANCE),
    Sent::Packet(LESS),
    Sent::Desk(TOP_UP),
    Sent::Packet(OF_BO),
];

/// How many turns there are.
pub(crate) const TURNS: usize = BUSY.len();

fn event(alloc: Global, sent: Sent) -> Result<Event, Fail> {
    let what = match sent {
        Sent::Packet(octets) => What::Datagram {
            source: [10, 0, 0, 1],
            port: 1646,
            bytes: Octets::from_slice(alloc, octets)?,
        },
        Sent::Desk(octets) => What::Desk {
            bytes: Octets::from_slice(alloc, octets)?,
        },
    };
    Ok(Event { moment: 2000, what })
}

fn planned(alloc: Global, fails: Option<Fails>) -> Result<Vec<Planned>, Fail> {
    let mut planned = Vec::new(alloc);
    for (place, sent) in BUSY.iter().enumerate() {
        let event = event(alloc, *sent)?;
        let takes_reply = !matches!(fails, Some(Fails::Reply(at)) if at == place);
        planned.push(if matches!(fails, Some(Fails::Turn(at)) if at == place) {
            Planned::Fails
        } else {
            Planned::Comes { event, takes_reply }
        })?;
    }
    Ok(planned)
}

/// What came of a run.
#[derive(Clone, Copy, PartialEq, Eq, Debug)]
pub(crate) struct Ran {
    /// The balances of `al` and `bo` by the replies.
    pub(crate) told: (i64, i64),
    /// In how many turns the book failed.
    pub(crate) refused: u64,
    /// How many faults were counted.
    pub(crate) faults: u64,
}

/// Runs all turns over a book.
pub(crate) fn run<B: Book>(alloc: Global, book: &mut B, fails: Option<Fails>) -> Result<Ran, Fail> {
    let config = sample_config(alloc)?;
    let mut exchange = ListExchange::new(alloc, planned(alloc, fails)?);
    let served = serve(alloc, &config, book, &mut exchange, 6);
    let (told, unsold) = told_in(exchange.calls());
    Ok(Ran {
        told,
        refused: unsold.saturating_add(served.drops_for(Reason::Unavailable)),
        faults: served.faults,
    })
}

// The balances by the replies, and how many requests at the desk were refused. A voucher was
// credited if its response says so, and a session is charged if a report of it was answered.
fn told_in(calls: &[Call]) -> ((i64, i64), u64) {
    let (mut credit, mut charge, mut of_bo, mut unsold) = (0, 0, 0, 0u64);
    for call in calls {
        match octets_of(call) {
            [5, 8, ..] => charge = 20,
            [5, 9, ..] if charge == 0 => charge = 10,
            [5, 10, ..] => of_bo = -20,
            bytes if bytes.ends_with(b"{\"result\":\"new\"}") => credit = 500,
            bytes if bytes.starts_with(b"HTTP/1.1 503 ") => unsold = unsold.saturating_add(1),
            _ => {}
        }
    }
    ((i64::saturating_sub(credit, charge), of_bo), unsold)
}

// The octets that a call was to send, none if it gave an event or reported a drop.
fn octets_of(call: &Call) -> &[u8] {
    match call {
        Call::Asked(reply) => reply.bytes.as_slice(),
        Call::Gave(_) | Call::Dropped(..) => &[],
    }
}
