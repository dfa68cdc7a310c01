//! The head of a request.
ghost use Rattle.std.specs.Prelude.{◌≡◌, length, map, All, IfSome, IfNone, option_map};
ghost use Rattle.std.specs.Prelude.{slice_get};
ghost use Rattle.httparse.specs.Spans.{IsHeaderWithin, header_bytes};
ghost use Rattle.acct_desk.specs.inner.Head.{IsHeadAt, HasNoHead};
ghost use Rattle.acct_desk.specs.Request.{is_named, values_of};

use httparse::Status;
use httparse::spans::{HeaderSpan, RequestSpans, parse_request};

/// The greatest number of header fields.
pub(crate) const FIELD_LIMIT: usize = 64;

/// The head that begins the octets.
pub(crate) fn head_of(front: &[u8], headers: &mut [HeaderSpan; FIELD_LIMIT]) -> Option<RequestSpans>
    ensures some { IfSome result (IsHeadAt front.now headers.new) }
    ensures none { IfNone result (HasNoHead front.now) }
{
    match parse_request(front, headers) {
        Ok(Status::Complete(spans)) => Some(spans),
        _ => None,
    }
}

/// Whether a field has this name, without regard to ASCII case.
fn is_field(front: &[u8], header: &HeaderSpan, name: &str) -> bool
    requires { IsHeaderWithin (length front.now) header.now }
    ensures { result ≡ is_named name.now (header_bytes front.now header.now) }
{
    name.as_bytes().eq_ignore_ascii_case(header.name.of(front))
}

/// The values of the fields of one name: the first of them, and how many there are.
#[derive(Clone, Copy)]
pub(crate) struct Values<'b> {
    pub first: Option<&'b [u8]>,
    pub count: usize,
}

/// The values of the fields of this name.
pub(crate) fn values_named<'b>(front: &'b [u8], headers: &[HeaderSpan], name: &str) -> Values<'b>
    requires { All (IsHeaderWithin (length front.now)) headers.now }
    ensures first { option_map (λ v. v.now) result.first
        ≡ slice_get (values_of name.now (map (header_bytes front.now) headers.now)) 0 }
    ensures count { result.count ≡ length
        (values_of name.now (map (header_bytes front.now) headers.now)) }
{
    let mut first = None;
    let mut count = 0;
    for header in headers {
        if is_field(front, header, name) {
            if count == 0 {
                first = Some(header.value.of(front));
            }
            count += 1;
        }
    }
    Values { first, count }
}
