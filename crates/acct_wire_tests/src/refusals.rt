//! Stamped clients. If the book refuses a call, or memory runs out, nothing is sent, and the same
//! request is answered when it comes again.
use crate::site::{SHORT_REPLY, Site};
use acct_book::{Book, Row};
use acct_model::{Octets, StampSecret, StampSecrets, Text};
use acct_wire::{Outcome, Reason, StampedClient, Stamping};
use foreign_packets::SECRET;
use radius_codec::write_request;
use std::alloc::Global;
use std::test::Fail;

// A stamp under `0123456789abcdef`, made by Python's hmac.
const STAMP: &[u8] = b"gold;0a;al;c74ae085aa08fee268607e018b8a13c1";

// What a device behind a proxy sends, and how many calls of the book its answer takes: a report of
// a stamped session, of which the first Class is no stamp, one without a stamp, and a restart.
static ROWS: [(&[(u8, &[u8])], u64); 3] = [
    (
        &[
            (40, b"\0\0\0\x03"),
            (44, b"s1"),
            (1, b"typed"),
            (25, b"silver"),
            (25, STAMP),
            (32, b"lobby 1"),
        ],
        3,
    ),
    (
        &[
            (40, b"\0\0\0\x02"),
            (44, b"s2"),
            (1, b"al"),
            (25, b"gold"),
            (31, b"02-00-5f"),
            (95, b"\x20\x01\x0d\xb8"),
        ],
        3,
    ),
    (
        &[
            (40, b"\0\0\0\x07"),
            (41, b"\0\0\0\x05"),
            (49, b"\0\0\0\x0b"),
            (6, b"\0\0\0\x02"),
            (77, b"54"),
            (4, b"\x0a\0\0\x07"),
        ],
        1,
    ),
];

// The site, whose client is a proxy and stamped.
fn stamped(alloc: Global) -> Result<Site, Fail> {
    let octets = Octets::from_slice(alloc, b"0123456789abcdef")?;
    let secret = StampSecret::new(octets).ok_or("no secret")?;
    let mut clients = Vec::new(alloc);
    clients.push(StampedClient {
        name: Text::from_str(alloc, "ap1")?,
        proxy: true,
        plan: Octets::from_slice(alloc, b"basic")?,
    })?;
    let secrets = StampSecrets { secret, old: None };
    Site::new(alloc, Some(Stamping { secrets, clients }))
}

// Whether a request is answered at once. Some(false) is told if it is refused for the book or the
// memory, and answered when it comes again.
fn is_answered(site: &mut Site, attributes: &[(u8, &[u8])]) -> Result<Option<bool>, Fail> {
    let mut request = [0; 4096];
    let size = write_request(7, attributes, SECRET, &mut request)?;
    let first = site.answer(&request[..size]);
    if first == SHORT_REPLY {
        return Ok(Some(true));
    }
    let again = site.answer(&request[..size]);
    let is_refused = first == Outcome::Drop(Reason::Unavailable);
    Ok((is_refused && again == SHORT_REPLY).then_some(false))
}

// How many calls a request takes: each fails in its turn, up to the first that is not made.
fn count_calls(alloc: Global, attributes: &[(u8, &[u8])]) -> Result<Option<u64>, Fail> {
    for call in 1..9 {
        let mut site = stamped(alloc)?;
        site.book.calls_left = call;
        match is_answered(&mut site, attributes)? {
            Some(true) => return Ok(Some(call - 1)),
            Some(false) => {}
            None => return Ok(None),
        }
    }
    Ok(None)
}

#[test]
fn refused_calls_are_told(rt: HostRuntime) -> Result<(), Fail> {
    for (attributes, calls) in &ROWS {
        assert!(rt; count_calls(rt.alloc(), attributes)? == Some(*calls));
    }
    Ok(())
}

// Whether a request is answered, at once or when it comes again.
fn is_heard(alloc: Global, attributes: &[(u8, &[u8])]) -> Result<bool, Fail> {
    let mut site = stamped(alloc)?;
    Ok(is_answered(&mut site, attributes)?.is_some())
}

// Any allocation of this test may fail: `rt try --test --fail-alloc N`. If one before a request
// does, the test ends without an assertion.
#[test]
fn refused_memory_is_told(rt: HostRuntime) -> Result<(), Fail> {
    for (attributes, _) in &ROWS {
        assert!(rt; is_heard(rt.alloc(), attributes)?);
    }
    Ok(())
}

// The client, the session, the account and the class that the first two make.
static KEPT: [(&str, &[u8], &[u8], &[u8]); 2] = [
    ("ap1/nlobby%201", b"s1/0a/al", b"al", b"gold"),
    ("ap1/v%20%01%0D%B8", b"s2//al", b"al", b"basic"),
];

fn row_after(alloc: Global, attributes: &[(u8, &[u8])]) -> Result<Option<Row>, Fail> {
    let mut site = stamped(alloc)?;
    is_answered(&mut site, attributes)?;
    Ok(site.book.next_session(None)?)
}

#[test]
fn stamps_say_who_pays(rt: HostRuntime) -> Result<(), Fail> {
    for (place, kept) in KEPT.iter().enumerate() {
        let row = row_after(rt.alloc(), ROWS[place].0)?.ok_or("no row")?;
        let names = (row.client.as_str(), row.session.as_slice());
        assert!(rt;
            (
                names.0,
                names.1,
                row.account.as_slice(),
                row.class.as_slice()
            ) == *kept
        );
    }
    Ok(())
}

// A device of each size of a name.
#[test]
fn each_device_is_heard(rt: HostRuntime) -> Result<(), Fail> {
    let name = [b'd'; 253];
    for size in 0..254usize {
        let attributes: [(u8, &[u8]); 4] = [
            (40, b"\0\0\0\x03"),
            (44, b"s1"),
            (25, STAMP),
            (32, &name[..size]),
        ];
        assert!(rt; is_heard(rt.alloc(), &attributes)?);
    }
    Ok(())
}
