//! A log, read from its first octet to its last.
ghost use Rattle.std.specs.Prelude.{◌≡◌, ◌+◌, ◌≤◌, ◌<◌, ◌^◌, ℕ, List, length, take, IfOk, IfSome};
ghost use Rattle.std.specs.Io.KnownBytes.{Consumes, IsAtEnd};
ghost use Rattle.sqlite_wal.specs.Format.{IsSigned};
ghost use Rattle.sqlite_wal.specs.PageSize.{IsPageSize};
ghost use Rattle.sqlite_wal.specs.Recovery.{header};
ghost use Rattle.acct_sql_log.specs.Chain.{page_size};
ghost use Rattle.acct_sql_log.specs.Damage.{Finds};
ghost use Rattle.acct_sql_log.specs.Scanner.{HasTaken};
ghost use Rattle.acct_sql_log.specs.inner.Reading.{IsReadTo};

use crate::damage::Damage;
use crate::links::{FIRST, FRAME_OCTETS, HEADER_OCTETS, number_at};
use crate::scanner::Scanner;
use sqlite_wal::PageSize;
use std::alloc::{AllocError, Global};
use std::io::{ErrorKind, Read};
use thiserror::Error;

/// Why a log cannot be read.
#[derive(Clone, Copy, PartialEq, Eq, Debug, Error)]
pub enum Unread {
    /// A read failed.
    #[error("cannot read")]
    CannotRead,
    /// Out of memory.
    #[error("out of memory")]
    NoMemory,
}

impl From<AllocError> for Unread {
    fn from(_error: AllocError) -> Unread {
        Unread::NoMemory
    }
}

/// The damage of a log that a reader has. One frame at a time is in memory.
///
/// # Errors
///
/// `CannotRead` if a read fails, `NoMemory` if a frame can't be kept.
pub fn damage_in<R: Read>(alloc: Global, log: &mut R) -> Result<Option<Damage>, Unread>
    ensures { IfOk result (λ found. IfSome (R.remaining log.old) (λ octets. Finds octets found)) }
{
    let mut head = [0; HEADER_OCTETS];
    let count = fill(log, &mut head)?;
    if count < HEADER_OCTETS {
        return Ok(None);
    }
    let Some(scanner) = Scanner::new(&head) else {
        return Ok(header_damage(&head));
    };
    let named = number_at(&head, 8) as usize;
    let Some(size) = PageSize::new(named) else {
        return Ok(None);
    };
    let mut frame = vec![in alloc; 0; FRAME_OCTETS + size.bytes()]?;
    scan(log, scanner, &mut frame)
}

// The damage of a log whose header breaks its own sum.
fn header_damage(head: &[u8; HEADER_OCTETS]) -> Option<Damage>
    requires broken { ¬ IsSigned head.now }
    ensures { (octets : List ℕ) → 32 ≤ length octets → head.now ≡ header octets
        → Finds octets result }
{
    if head[0] == FIRST {
        Some(Damage::Header)
    } else {
        None
    }
}

// The damage of a log whose header a scanner has taken. `frame` is a buffer for one frame.
fn scan<R: Read>(
    log: &mut R,
    mut scanner: Scanner,
    frame: &mut [u8],
) -> Result<Option<Damage>, Unread>
    requires whole { 24 ≤ length frame.old }
    requires first { scanner.taken ≡ 0 }
    ensures { (octets : List ℕ) → IsPageSize (page_size octets)
        → length frame.old ≡ 24 + page_size octets → HasTaken octets 0 scanner
        → IsReadTo octets 32 (R.remaining log.old) → IfOk result (Finds octets) }
{
    for _ in 0..u64::MAX {
        let count = fill(log, frame)?;
        if count < frame.len() {
            return Ok(scanner.damage(&frame[..count]));
        }
        scanner.take(frame);
    }
    Err(Unread::CannotRead)
}

// Fills a buffer from a reader, as far as that has octets. Returns how many it read. A read that
// was interrupted is tried again.
pub(crate) fn fill<R: Read>(reader: &mut R, buffer: &mut [u8]) -> Result<usize, Unread>
    ensures within { IfOk result (λ count. count ≤ length buffer.new) }
    ensures taken { IfOk result (λ count.
        Consumes (R.remaining reader.old) (R.remaining reader.new) (take count buffer.new)) }
    ensures end { IfOk result (λ count.
        count < length buffer.new → IsAtEnd (R.remaining reader.new)) }
{
    let mut count = 0;
    for _ in 0..u64::MAX {
        if count == buffer.len() {
            return Ok(count);
        }
        match reader.read(&mut buffer[count..]) {
            Ok(0) => return Ok(count),
            Ok(more) => count += more,
            Err(error) => {
                if error.kind() != ErrorKind::Interrupted {
                    return Err(Unread::CannotRead);
                }
            }
        }
    }
    Err(Unread::CannotRead)
}
