//! What other programs sent, one after the other over one book: each gets its one right response.
use crate::site::{SHORT_REPLY, Site};
use acct_book::{Book, Key, SessionState};
use acct_model::{Octets, Text};
use foreign_packets::FOREIGN_PACKETS;
use std::alloc::Global;
use std::test::Fail;

#[test]
fn foreign_packets_are_answered(rt: HostRuntime) -> Result<(), Fail> {
    let mut site = Site::new(rt.alloc(), None)?;
    for foreign in &FOREIGN_PACKETS {
        assert!(rt;
            gets(&mut site, foreign.request, foreign.response),
            "{}",
            foreign.client
        );
    }
    assert!(rt; have_balances(&mut site)? && are_stopped(rt.alloc(), &mut site)?);
    Ok(())
}

fn gets(site: &mut Site, request: &[u8], response: &[u8]) -> bool {
    site.answer(request) == SHORT_REPLY && &site.out[..20] == response
}

// Users, and their balances at the end. Prices by hand: `al` has 1,048,577 octets of `gold` and 10
// without a Class, `wichert` 3 * 2^32 + 11 of `gold`, in 12,289 blocks, and the user of hostapd's
// session none.
static BALANCES: [(&[u8], i64); 3] = [(b"al", -25), (b"wichert", -122_890), (b"a26ecb7eca74", 0)];

fn have_balances(site: &mut Site) -> Result<bool, Fail> {
    for (user, balance) in &BALANCES {
        if site.book.balance(user)? != *balance {
            return Ok(false);
        }
    }
    Ok(true)
}

// What two Stops leave of their sessions: the account and the calling station, the input, output
// and seconds, the cause and the address.
type Stopped = (
    (&'static [u8], &'static [u8]),
    (u64, u64, u32),
    (u32, Option<[u8; 4]>),
);

static STOPPED: [(&[u8], Stopped); 2] = [
    (
        b"700A05EF064CCF53",
        (
            (b"a26ecb7eca74", b"A2-6E-CB-7E-CA-74"),
            (0, 0, 9),
            (0, Some([10, 9, 8, 7])),
        ),
    ),
    (
        b"pyrad1",
        (
            (b"wichert", b"00-0c-29-44-BB-66"),
            (4_294_967_301, 8_589_934_598, 0),
            (1, Some([10, 0, 0, 100])),
        ),
    ),
];

fn are_stopped(alloc: Global, site: &mut Site) -> Result<bool, Fail> {
    for (session, stopped) in &STOPPED {
        if !is_stopped(alloc, site, session, *stopped)? {
            return Ok(false);
        }
    }
    Ok(true)
}

// Whether a Stop has left this of a session.
fn is_stopped(
    alloc: Global,
    site: &mut Site,
    session: &[u8],
    stopped: Stopped,
) -> Result<bool, Fail> {
    let key = Key {
        client: Text::from_str(alloc, "ap1")?,
        session: Octets::from_slice(alloc, session)?,
    };
    let row = site.book.session(&key)?.ok_or("no session")?;
    let names = (row.account.as_slice(), row.calling.as_slice());
    let counts = (row.input, row.output, row.seconds);
    Ok((names, counts, (row.cause, row.framed)) == stopped && row.state == SessionState::Stopped)
}
