//! The tests of the links of a log.
ghost use Rattle.std.specs.Prelude.{◌≡◌, ◌+◌, ◌≤◌, ◌↔◌, length, IsTrue};
ghost use Rattle.sqlite_wal.specs.Format.{be32, stored_sum, IsSigned, IsFrame};
ghost use Rattle.acct_sql_log.specs.Chain.{ends_commit as ends_commit_of};
ghost use Rattle.acct_sql_log.specs.Chain.{has_salts as has_salts_of, has_a_salt as has_a_salt_of};
ghost use Rattle.acct_sql_log.specs.Answered.{BeginsCounted, IsSealedLast};

use crate::sizes::LOG_HEADER_OCTETS;
use sqlite_wal::checksum_of;

/// The octets of the header.
pub const HEADER_OCTETS: usize = LOG_HEADER_OCTETS as usize;
/// The octets of a frame before its page.
pub const FRAME_OCTETS: usize = 24;
/// Where the header has the salts.
const SALTS: usize = 16;
/// Where a frame has the salts.
const FRAME_SALTS: usize = 8;
/// The page number of a frame that counts the zeros of its commit.
const COUNT: u32 = 0xff00_0000;
/// The first octet of a log.
pub const FIRST: u8 = 0x37;

/// Four octets as a number, the highest first.
pub fn number_at(octets: &[u8], at: usize) -> u32
    requires { at + 4 ≤ length octets.now }
    ensures { result ≡ be32 octets.now at }
{
    octets[at] as u32 * 0x100_0000
        + octets[at + 1] as u32 * 0x1_0000
        + octets[at + 2] as u32 * 0x100
        + octets[at + 3] as u32
}

/// The sum that is stored in a link.
pub fn sum_at(octets: &[u8], at: usize) -> (u32, u32)
    requires { at + 8 ≤ length octets.now }
    ensures { result ≡ stored_sum octets.now at }
{
    (number_at(octets, at), number_at(octets, at + 4))
}

/// Whether the header begins as one of a log does, and meets its own sum.
pub fn is_signed(head: &[u8; 32]) -> bool
    ensures { IsTrue result ↔ IsSigned head.now }
{
    if head[0] != 0x37 || head[1] != 0x7f || head[2] != 0x06 {
        return false;
    }
    if head[3] != 0x82 && head[3] != 0x83 {
        return false;
    }
    checksum_of(head[3] == 0x83, (0, 0), &head[..24]) == sum_at(head, 24)
}

/// Whether a frame passes SQLite's test under this header, behind a link with this sum.
pub fn is_frame(head: &[u8; 32], before: (u32, u32), frame: &[u8]) -> bool
    requires { 24 ≤ length frame.now }
    ensures { IsTrue result ↔ IsFrame head.now before frame.now }
{
    if frame[8..16] != head[16..24] || number_at(frame, 0) == 0 {
        return false;
    }
    let big = head[3] == 0x83;
    let front = checksum_of(big, before, &frame[..8]);
    checksum_of(big, front, &frame[24..]) == sum_at(frame, 16)
}

/// Whether a frame has the salts of a header.
pub fn has_salts(head: &[u8; 32], frame: &[u8]) -> bool
    requires { 24 ≤ length frame.now }
    ensures { result ≡ has_salts_of head.now frame.now }
{
    number_at(frame, 8) == number_at(head, 16) && number_at(frame, 12) == number_at(head, 20)
}

/// Whether a frame has one of the two salts of a header. One of another run of the log has neither.
pub fn has_a_salt(head: &[u8; 32], frame: &[u8]) -> bool
    requires { 24 ≤ length frame.now }
    ensures { result ≡ has_a_salt_of head.now frame.now }
{
    number_at(frame, 8) == number_at(head, 16) || number_at(frame, 12) == number_at(head, 20)
}

/// Whether a frame has the salts of a header, and ends a commit.
pub fn ends_commit(head: &[u8; 32], frame: &[u8]) -> bool
    requires { 24 ≤ length frame.now }
    ensures { result ≡ ends_commit_of head.now frame.now }
{
    has_salts(head, frame) && number_at(frame, 4) != 0
}

/// Whether a frame has the salts of a header, and begins a commit that counts the zeros below it.
pub fn begins_counted(head: &[u8; 32], frame: &[u8]) -> bool
    requires { 24 ≤ length frame.now }
    ensures { IsTrue result ↔ BeginsCounted head.now frame.now }
{
    has_salts(head, frame) && number_at(frame, 0) == COUNT
}

/// Whether a frame that begins a commit has its seal, is of this run of the log, and does not count.
pub fn is_sealed_last(head: &[u8; 32], frame: &[u8]) -> bool
    requires { 24 ≤ length frame.now }
    ensures { IsTrue result ↔ IsSealedLast head.now frame.now }
{
    let number = number_at(frame, 0);
    frame[FRAME_SALTS] == head[SALTS] && has_a_salt(head, frame) && number != 0 && number != COUNT
}
