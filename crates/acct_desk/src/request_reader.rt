//! Reading a request.
//!
//! The octets are parsed again only if that may end the reading. A request that arrives octet by
//! octet therefore costs a few parses, not one for each octet.
ghost use Rattle.std.specs.Prelude.{◌≡◌, ◌≢◌, ◌≤◌, ◌<◌, ◌+◌, ℕ, true, false, List, [], ◌∷◌, ◌++◌};
ghost use Rattle.std.specs.Prelude.{Some, IfOk, OnOk, IfNone, IfSome, vec_len, length, All, map};
ghost use Rattle.std.specs.Prelude.{codes, option_map};
ghost use Rattle.std.specs.Io.KnownBytes.{Consumes, IsAtEnd};
ghost use Rattle.httparse.specs.Grammar.{LineEnd, print_end};
ghost use Rattle.httparse.specs.Spans.{IsHeaderWithin, header_bytes};
ghost use Rattle.acct_desk.specs.Request.{body_length, values_of};
ghost use Rattle.acct_desk.specs.Reading.{IsSettled, EndsReading, GoesNoFurther};
ghost use Rattle.acct_desk.specs.inner.Reading.{ReadsOn};
ghost use Rattle.acct_desk.specs.inner.Reading.{EndsInEmptyLine};
ghost use Rattle.acct_desk.specs.inner.Reading.{NoHeadEnds, StaysOpen};

use crate::framing::{HEAD_LIMIT, Reach, declared_length, front_of, reach_by_fields};
use crate::head::FIELD_LIMIT;
use httparse::Status;
use httparse::spans::{EMPTY_HEADER_SPAN, HeaderSpan, parse_request};
use std::alloc::Global;
use std::io::{ErrorKind, Read};
use thiserror::Error;

/// The most octets that are read of a request.
const OCTET_LIMIT: usize = 12288;

/// The most reads for a request.
const TURN_LIMIT: usize = 16384;

/// Why no request was read. The reader is then of no further use.
#[derive(Clone, Copy, Debug, PartialEq, Eq, Error)]
pub enum ReadFault {
    /// The reader failed.
    #[error("the reader failed")]
    Failed = 1,
    /// The request was still open after 16,384 reads.
    #[error("the request was still open after 16384 reads")]
    TooManyTurns = 2,
    /// Out of memory.
    #[error("out of memory")]
    Memory = 3,
}

/// Reads the octets of one request: at most 12,288, by at most 16,384 reads of at most 1,024. An
/// interrupted read is tried again. Reading ends after the first read that makes `extent` other
/// than `More`, at 12,288 octets, or at the reader's end. It also ends if nothing that follows can
/// make a request of the octets.
///
/// That last case is checked after the first read, whenever a head ends, and from there on each
/// time the octets have doubled.
///
/// The clause `stops` bounds reading ahead only past 1,024 octets. At some place, at most 1,024
/// octets before the end of what was read, the request was open. That it reads no further than it
/// has to is tested.
///
/// # Errors
///
/// `Failed` if the reader fails, `TooManyTurns` after 16,384 reads, `Memory` if there is no memory
/// for the octets.
pub fn read_request<R: Read>(alloc: Global, reader: &mut R) -> Result<Vec<u8>, ReadFault>
    ensures prefix { IfOk result (λ bytes.
        Consumes (R.remaining reader.old) (R.remaining reader.new) bytes.items) }
    ensures limit { IfOk result (λ bytes. vec_len bytes ≤ 12288) }
    ensures ends { IfOk result (λ bytes. EndsReading bytes.items (R.remaining reader.new)) }
    ensures stops { IfOk result (λ bytes. GoesNoFurther bytes.items) }
{
    let mut bytes = Vec::new(alloc);
    let mut watch = Watch {
        next: 1,
        ends: true,
    };
    for _ in 0..TURN_LIMIT {
        let before = bytes.len();
        if !read_some(reader, &mut bytes)? || bytes.len() == OCTET_LIMIT {
            return Ok(bytes);
        }
        if watch.is_due(&bytes, before) {
            match look(&bytes) {
                None => return Ok(bytes),
                Some(later) => watch = later,
            }
        }
    }
    Err(ReadFault::TooManyTurns)
}

// Adds the octets of one read, and returns whether there may be more.
fn read_some<R: Read>(reader: &mut R, bytes: &mut Vec<u8>) -> Result<bool, ReadFault>
    requires { vec_len bytes.old < 12288 }
    ensures adds { OnOk result (ReadsOn (R.remaining reader.old) (R.remaining reader.new)
        bytes.old.items bytes.new.items) }
    ensures limit { OnOk result (vec_len bytes.new ≤ 12288) }
    ensures end { IfOk result (λ more. more ≡ false → IsAtEnd (R.remaining reader.new)) }
{
    let mut buffer = [0u8; 1024];
    let room = (OCTET_LIMIT - bytes.len()).min(buffer.len());
    match reader.read(&mut buffer[..room]) {
        Ok(0) => Ok(false),
        Ok(count) => match bytes.extend_from_slice(&buffer[..count]) {
            Ok(()) => Ok(true),
            Err(_) => Err(ReadFault::Memory),
        },
        Err(error) if error.kind() == ErrorKind::Interrupted => Ok(true),
        Err(_) => Err(ReadFault::Failed),
    }
}

// When an open request is parsed again.
#[derive(Clone, Copy)]
struct Watch {
    // At this many octets.
    next: usize,
    // And before that, if a head ends.
    ends: bool,
}

impl Watch {
    fn is_due(self, bytes: &[u8], before: usize) -> bool
        ensures short { result ≡ false → length bytes.now < self.next }
        ensures quiet { result ≡ false → self.ends ≡ true → NoHeadEnds before bytes.now }
    {
        bytes.len() >= self.next || (self.ends && has_head_end(bytes, before))
    }
}

// None if no further octets are needed, else when to parse again. Without a head that is at twice
// the octets, so that what can't become a request is dropped soon, at little cost.
//
// One parse gives how far the request reaches, as `extent` does, and what an open request waits
// for. If `HEAD_LIMIT` octets are there and have no head, the request is too large.
fn look(bytes: &[u8]) -> Option<Watch>
    ensures settled { IfNone result (IsSettled bytes.now) }
    ensures open { IfSome result (λ watch. StaysOpen watch bytes.now) }
{
    let front = front_of(bytes);
    let mut headers = [EMPTY_HEADER_SPAN; FIELD_LIMIT];
    match parse_request(front, &mut headers) {
        Ok(Status::Complete(head)) => {
            let fields = &headers[..head.headers];
            match reach_by_fields(front, fields, head.len, bytes.len()) {
                Reach::More => Some(Watch {
                    next: end_of(front, fields, head.len),
                    ends: false,
                }),
                _ => None,
            }
        }
        Ok(Status::Partial) if bytes.len() < HEAD_LIMIT => Some(Watch {
            next: bytes.len().saturating_mul(2).min(HEAD_LIMIT),
            ends: true,
        }),
        Ok(Status::Partial) => None,
        // Whatever follows, it has no head, or one of too many fields.
        Err(_) => None,
    }
}

// How many octets a request with this head has.
fn end_of(bytes: &[u8], headers: &[HeaderSpan], head: usize) -> usize
    requires { All (IsHeaderWithin (length bytes.now)) headers.now }
    ensures { (body : ℕ) → body_length
        (values_of (codes "content-length") (map (header_bytes bytes.now) headers.now)) ≡ Some body
        → result ≤ head + body }
{
    match declared_length(bytes, headers) {
        Some(body) => head.saturating_add(usize::try_from(body).unwrap_or(usize::MAX)),
        None => head,
    }
}

// Whether a head ends in the octets after the first `before`.
fn has_head_end(bytes: &[u8], before: usize) -> bool
    ensures { result ≡ false → NoHeadEnds before bytes.now }
{
    for end in before..bytes.len() {
        if ends_head(&bytes[..end + 1]) {
            return true;
        }
    }
    false
}

// Whether octets end with an empty line after one that isn't empty. Empty lines may come before a
// head, and do not end it.
fn ends_head(bytes: &[u8]) -> bool
    ensures { EndsInEmptyLine bytes.now → result ≡ true }
{
    let Some(lines) = without_line_end(bytes) else {
        return false;
    };
    let Some(line) = without_line_end(lines) else {
        return false;
    };
    !line.is_empty() && !line.ends_with(b"\n")
}

// The octets before the line end at their end.
fn without_line_end(bytes: &[u8]) -> Option<&[u8]>
    ensures { (line : List ℕ) (end : LineEnd) → bytes.now ≡ line ++ print_end end
        → ((front : List ℕ) → line ≢ front ++ 13 ∷ [])
        → option_map (λ l. l.now) result ≡ Some line }
{
    match bytes.strip_suffix(b"\r\n") {
        Some(line) => Some(line),
        None => bytes.strip_suffix(b"\n"),
    }
}
