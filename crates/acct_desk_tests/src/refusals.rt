//! A desk whose book refuses a call, or whose memory runs out: it says so, and changes nothing.
use crate::desk::Desk;
use std::alloc::Global;
use std::test::Fail;

// A method and a path, a key, a body, the status and the body of the answer, and how many calls of
// the book the answer takes.
type Row = (
    &'static str,
    &'static str,
    &'static str,
    &'static str,
    &'static str,
    u64,
);

const AL: &str = "al-key-0000000001";

const CASHIER: &str = "cash-key-00000001";

const CLERK: &str = "desk-key-0000001";

const FRONT: &str = "front-key-000001";

const PAYMENT: &str = "402 Payment Required";

const NEW: &str = "{\"result\":\"new\"}";

// A signed key of `al` until 1000. Python's hmac made it, and the stamp below.
const SIGNED: &str = "616c.1000.97aa7f538d4c5306f8b96296bd885931";

const TOP_UPS: &str =
    "{\"account\":\"al\",\"topups\":[{\"sum\":500,\"voucher\":\"V-1\",\"when\":1001}]}";

const SESSIONS: &str =
    "{\"account\":\"al\",\"sessions\":[{\"calling\":\"\",\"cause\":0,\"charged\":\"20\",\
    \"class\":\"gold\",\"client\":\"ap1\",\"first\":2000,\"framed\":\"\",\"input\":1048577,\
    \"last\":2000,\"output\":0,\"seconds\":0,\"session\":\"s2\",\"state\":\"open\",\
    \"total\":1048577}]}";

const OPEN: &str = "{\"next\":null,\"sessions\":[{\"account\":\"bo\",\"calling\":\"\",\
    \"client\":\"ap1\",\"device\":\"\",\"framed\":\"\",\"id\":\"s3\",\"last\":2000,\
    \"session\":\"s3\"}]}";

const LOGIN: &str = "{\"counted\":\"total\",\"octets\":50331648,\"open\":1,\
    \"stamp\":\"gold;;al;db47ea75eac6fcef742fd96793124884\",\"stations\":null}";

const LEFT: &str = "{\"account\":\"al\",\"balance\":480,\"overrun\":0}";

const OVER: &str = "{\"overruns\":[{\"account\":\"bo\",\"overrun\":20}]}";

const NO_MONEY: &str = "{\"error\":\"no balance\"}";

const SOLD: &str = "{\"account\":\"al\",\"sum\":500,\"voucher\":\"V-1\"}";

const OTHER: &str = "{\"account\":\"al\",\"sum\":501,\"voucher\":\"V-1\"}";

const SALE: &str = "{\"account\":\"al\",\"sum\":70,\"voucher\":\"W-2\"}";

const DIFFERS: &str = "{\"error\":\"voucher differs\"}";

const NO_PATH: &str = "{\"error\":\"no such path\"}";

const REPEAT: &str = "{\"result\":\"repeat\"}";

// Of the open sessions two accounts are read, the rows of one, and that there is no third. Where the
// balance is too low for a block, the sessions are not read.
static ROWS: [Row; 12] = [
    ("GET /me/balance", AL, "", "200 OK", LEFT, 1),
    ("GET /me/sessions", AL, "", "200 OK", SESSIONS, 1),
    ("GET /me/topups", SIGNED, "", "200 OK", TOP_UPS, 1),
    ("GET /accounts/al/topups", CLERK, "", "200 OK", TOP_UPS, 1),
    ("GET /overruns", CASHIER, "", "200 OK", OVER, 3),
    ("GET /overruns/sessions", FRONT, "", "200 OK", OPEN, 4),
    ("GET /logins/al/gold", FRONT, "", "200 OK", LOGIN, 2),
    ("GET /logins/bo/gold", FRONT, "", PAYMENT, NO_MONEY, 1),
    ("POST /topups", CASHIER, SOLD, "200 OK", REPEAT, 1),
    ("POST /topups", CASHIER, OTHER, "409 Conflict", DIFFERS, 1),
    ("POST /topups", CASHIER, SALE, "201 Created", NEW, 3),
    ("GET /me", AL, "", "404 Not Found", NO_PATH, 0),
];

const UNAVAILABLE: &[u8] = b"HTTP/1.1 503 Service Unavailable\r\nContent-Type: application/json\r\n\
    Content-Length: 23\r\nConnection: close\r\n\r\n\
    {\"error\":\"unavailable\"}";

// The octets of a row's request and of its answer.
fn octets_of(alloc: Global, row: &Row) -> Result<(String, String), Fail> {
    let (line, key, body, status, told, _) = *row;
    let (size, told_size) = (body.len(), told.len());
    let request = format!(in alloc;
        "{line} HTTP/1.1\r\nDesk-Key: {key}\r\nContent-Length: {size}\r\n\r\n{body}"
    )?;
    let answer = format!(in alloc;
        "HTTP/1.1 {status}\r\nContent-Type: application/json\r\nContent-Length: {told_size}\r\n\
        Connection: close\r\n\r\n{told}"
    )?;
    Ok((request, answer))
}

// Whether a request is answered at once. Some(false) is told if the answer is that the book is
// unavailable, or there is no memory for one, and the same request is answered when it comes again.
fn is_answered(alloc: Global, desk: &mut Desk, row: &Row) -> Result<Option<bool>, Fail> {
    let (request, answer) = octets_of(alloc, row)?;
    let is_refused = match desk.answer(alloc, request.as_bytes()) {
        Ok(octets) if octets.as_slice() == answer.as_bytes() => return Ok(Some(true)),
        Ok(octets) => octets.as_slice() == UNAVAILABLE,
        Err(_) => true,
    };
    let again = desk.answer(alloc, request.as_bytes())?;
    if is_refused && again.as_slice() == answer.as_bytes() {
        return Ok(Some(false));
    }
    Ok(None)
}

// How many calls a request takes: each fails in its turn, up to the first that is not made.
fn count_calls(alloc: Global, row: &Row) -> Result<Option<u64>, Fail> {
    for call in 1..9 {
        let mut desk = Desk::new(alloc)?;
        desk.book.calls_left = call;
        match is_answered(alloc, &mut desk, row)? {
            Some(true) => return Ok(Some(call - 1)),
            Some(false) => {}
            None => return Ok(None),
        }
    }
    Ok(None)
}

#[test]
fn refused_calls_are_told(rt: HostRuntime) -> Result<(), Fail> {
    for row in &ROWS {
        assert!(rt; count_calls(rt.alloc(), row)? == Some(row.5));
    }
    Ok(())
}

// Whether a request is answered, at once or when it comes again.
fn is_kept(alloc: Global, row: &Row) -> Result<bool, Fail> {
    let mut desk = Desk::new(alloc)?;
    Ok(is_answered(alloc, &mut desk, row)?.is_some())
}

// Any allocation of this test may fail: `rt try --test --fail-alloc N`. If one before a request
// does, the test ends without an assertion.
#[test]
fn refused_memory_is_told(rt: HostRuntime) -> Result<(), Fail> {
    for row in &ROWS {
        assert!(rt; is_kept(rt.alloc(), row)?);
    }
    Ok(())
}
