//! A whole caller of this crate and of `radius_codec`: the one that `docs/CODEC.md` shows, line for
//! line.
ghost use Rattle.std.specs.Prelude.{◌^◌, ◌<◌};

use acct_model::{Entry, Report, entry_of};
use radius_codec::attribute_types::{ACCT_SESSION_ID, ACCT_STATUS_TYPE, USER_NAME};
use radius_codec::codes::{ACCOUNTING_REQUEST, ACCOUNTING_RESPONSE};
use radius_codec::{Front, read, request_matches, response_matches, write_request, write_response};
use std::alloc::Global;
use std::test::Fail;

const SECRET: &[u8] = b"xyzzy5461";

// A Start of session `s1` by user `al`.
const START: [(u8, &[u8]); 3] = [
    (ACCT_STATUS_TYPE, &[0, 0, 0, 1]),
    (ACCT_SESSION_ID, b"s1"),
    (USER_NAME, b"al"),
];

// The report of a client's datagram, and the size of the response, which is written into `reply`.
fn answer(
    alloc: Global,
    datagram: &[u8],
    moment: u64,
    reply: &mut [u8; 4096],
) -> Result<(Report, usize), Fail>
    requires { moment < 2 ^ 53 }
{
    let front = Front::of(datagram)?;
    if front.code() != ACCOUNTING_REQUEST || !request_matches(&front, SECRET) {
        return Err(Fail::from("no request of a client that shares the secret"));
    }
    let Some(packet) = front.packet() else {
        return Err(Fail::from("an attribute without an end"));
    };
    let Entry::Report(report) = entry_of(alloc, "ap1", &packet, moment)? else {
        return Err(Fail::from("no report of a session"));
    };
    let size = write_response(&packet, SECRET, reply);
    Ok((report, size))
}

// Whether a datagram is the response to the client's request, so that it need not be sent again.
fn is_answered(request: &[u8], datagram: &[u8]) -> Result<bool, Fail> {
    let sent = read(request)?;
    let front = Front::of(datagram)?;
    Ok(
        front.code() == ACCOUNTING_RESPONSE
            && front.octets()[1] == sent.id
            && response_matches(&front, &sent.authenticator, SECRET),
    )
}

// Whether a Start comes to the report of its session, and is answered.
fn is_heard(alloc: Global, request: &[u8]) -> Result<bool, Fail> {
    let mut reply = [0; 4096];
    let (report, size) = answer(alloc, request, 1000, &mut reply)?;
    let is_reported = report.session.as_slice() == b"s1".as_slice();
    Ok(is_reported && size == 20 && is_answered(request, &reply)?)
}

#[test]
fn start_is_answered(rt: HostRuntime) -> Result<(), Fail> {
    let mut request = [0; 4096];
    let size = write_request(7, &START, SECRET, &mut request)?;
    assert!(rt; request.starts_with(&[4, 7, 0, 34]) && is_heard(rt.alloc(), &request[..size])?);
    Ok(())
}
