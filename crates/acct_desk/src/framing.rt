//! Where a request ends.
ghost use Rattle.std.specs.Prelude.{◌≡◌, ◌≤◌, ℕ, length, map, All, codes, not, take, min};
ghost use Rattle.httparse.specs.Spans.{IsHeaderWithin, header_bytes};
ghost use Rattle.acct_desk.specs.Request.{IsExtent, reach_of_fields, body_length, values_of};
ghost use Rattle.acct_desk.specs.Request.{is_empty};
ghost use Rattle.acct_desk.specs.inner.Request.{IfWhole};

use crate::head::{FIELD_LIMIT, head_of, values_named};
use acct_model::number_of;
use httparse::spans::{EMPTY_HEADER_SPAN, HeaderSpan};

/// How far a request reaches.
#[derive(Clone, Copy, Debug, PartialEq, Eq)]
pub enum Reach {
    /// More octets are needed.
    More,
    /// The request is complete and has this many octets.
    Whole(usize),
    /// The desk does not accept such a request.
    Bad,
    /// The head or the body is too large.
    TooLarge,
}

/// The most octets of a head.
pub(crate) const HEAD_LIMIT: usize = 8192;

/// The most octets of a body.
const BODY_LIMIT: u64 = 4096;

/// The most digits of a Content-Length.
const LENGTH_DIGITS: usize = 10;

/// The length of the body by the Content-Length fields, if they are valid.
pub(crate) fn declared_length(front: &[u8], headers: &[HeaderSpan]) -> Option<u64>
    requires { All (IsHeaderWithin (length front.now)) headers.now }
    ensures { result ≡ body_length
        (values_of (codes "content-length") (map (header_bytes front.now) headers.now)) }
{
    let lengths = values_named(front, headers, "content-length");
    match lengths.first {
        None => Some(0),
        Some(value) if lengths.count == 1 => number_of(value, LENGTH_DIGITS),
        _ => None,
    }
}

/// Whether the fields ask for a transfer coding.
fn is_coded(front: &[u8], headers: &[HeaderSpan]) -> bool
    requires { All (IsHeaderWithin (length front.now)) headers.now }
    ensures { result ≡ not (is_empty
        (values_of (codes "transfer-encoding") (map (header_bytes front.now) headers.now))) }
{
    values_named(front, headers, "transfer-encoding").count != 0
}

/// Where a request of these fields ends.
pub(crate) fn reach_by_fields(
    front: &[u8],
    headers: &[HeaderSpan],
    head: usize,
    there: usize,
) -> Reach
    requires within { All (IsHeaderWithin (length front.now)) headers.now }
    requires short { head ≤ 8192 }
    ensures reach { result ≡ reach_of_fields head there (map (header_bytes front.now) headers.now) }
    ensures whole { IfWhole result (λ end. (head ≤ end) × (end ≤ there)) }
{
    if is_coded(front, headers) {
        return Reach::Bad;
    }
    let Some(body) = declared_length(front, headers) else {
        return Reach::Bad;
    };
    if body > BODY_LIMIT {
        return Reach::TooLarge;
    }
    let end = head + body as usize;
    if end <= there {
        Reach::Whole(end)
    } else {
        Reach::More
    }
}

/// The octets that are searched for a head.
pub(crate) fn front_of(bytes: &[u8]) -> &[u8]
    ensures { result.now ≡ take (min (length bytes.now) 8192) bytes.now }
{
    &bytes[..bytes.len().min(HEAD_LIMIT)]
}

/// The extent of the request that begins the octets.
pub fn extent(bytes: &[u8]) -> Reach
    ensures { IsExtent bytes.now result }
{
    let front = front_of(bytes);
    let mut headers = [EMPTY_HEADER_SPAN; FIELD_LIMIT];
    match head_of(front, &mut headers) {
        Some(spans) => reach_by_fields(front, &headers[..spans.headers], spans.len, bytes.len()),
        None if bytes.len() < HEAD_LIMIT => Reach::More,
        None => Reach::TooLarge,
    }
}
