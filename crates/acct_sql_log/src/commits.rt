//! The commits of a log, counted frame by frame.
ghost use Rattle.std.specs.Prelude.{◌≡◌, ◌+◌, ◌≤◌, ◌^◌, ◌<◌, ◌&&◌, ◌||◌, ℕ, List, length, not, nat_le};
ghost use Rattle.std.specs.Prelude.{true, IfOk, IfSome};
ghost use Rattle.sqlite_wal.specs.Format.{be32};
ghost use Rattle.sqlite_wal.specs.Recovery.{header};
ghost use Rattle.acct_sql_log.specs.Chain.{page_size, frame_in};
ghost use Rattle.acct_sql_log.specs.Commits.{has_later, TellsLater};
ghost use Rattle.acct_sql_log.specs.inner.Reading.{IsReadTo};

use crate::links::{FRAME_OCTETS, HEADER_OCTETS, ends_commit, is_signed, number_at};
use crate::log_reader::{Unread, fill};
use crate::scanner::{both, one_if};
use sqlite_wal::PageSize;
use std::alloc::Global;
use std::io::Read;

/// How many commits an `init` makes: an empty database, and then the tables and the plans of a book.
pub const INIT_COMMITS: u64 = 2;

/// The commits that end among the first frames of a log.
#[derive(Clone, Copy)]
pub(crate) struct Commits {
    /// How many frames were taken.
    taken: u64,
    /// How many commits end among them.
    count: u64,
    /// Whether none of them leaves more pages than the log has frames up to its end.
    are_whole: bool,
    ghost few: { count ≤ taken },
}

impl Commits {
    ghost use Rattle.acct_sql_log.specs.inner.Counted.{AreCommits};

    // Nothing was taken yet.
    fn none() -> Commits
        ensures first { result.taken ≡ 0 }
        ensures none { result.count ≡ 0 }
        ensures whole { result.are_whole ≡ true }
    {
        Commits {
            taken: 0,
            count: 0,
            are_whole: true,
        }
    }

    // With the next frame of a log that has this header.
    fn and_frame(self, head: &[u8; HEADER_OCTETS], frame: &[u8]) -> Commits
        requires whole { 24 ≤ length frame.now }
        requires space { self.taken + 1 < 2 ^ 64 }
        ensures taken { (log : List ℕ) → head.now ≡ header log → AreCommits log self
            → frame.now ≡ frame_in log self.taken → AreCommits log result }
        ensures one { result.taken ≡ self.taken + 1 }
    {
        let ends = ends_commit(head, frame);
        let taken = self.taken + 1;
        let is_whole = has_pages(ends, number_at(frame, 4), taken);
        Commits {
            taken,
            count: self.count + one_if(ends),
            are_whole: both(self.are_whole, is_whole),
        }
    }

    // Whether a book has them: more than an `init` makes, or one that leaves more pages.
    fn are_later(&self) -> bool
        ensures { result ≡ not (nat_le self.now.count INIT_COMMITS && self.now.are_whole) }
    {
        !both(self.count <= INIT_COMMITS, self.are_whole)
    }
}

// Whether a frame ends no commit, or one that leaves no more pages than frames were taken.
fn has_pages(ends_commit: bool, pages: u32, frames: u64) -> bool
    ensures { result ≡ (not ends_commit || nat_le pages frames) }
{
    !ends_commit || u64::from(pages) <= frames
}

/// Whether a log has commits that no `init` made, so that it belongs to a book: more commits than
/// an `init` makes, or one that leaves more pages than the log has. One frame at a time is in
/// memory.
///
/// # Errors
///
/// `CannotRead` if a read fails, `NoMemory` if a frame can't be kept.
pub fn has_later_commits<R: Read>(alloc: Global, log: &mut R) -> Result<bool, Unread>
    ensures { IfOk result (λ later. IfSome (R.remaining log.old) (λ octets.
        TellsLater octets later)) }
{
    let mut head = [0; HEADER_OCTETS];
    let count = fill(log, &mut head)?;
    if count < HEADER_OCTETS {
        return Ok(false);
    }
    if !is_signed(&head) {
        return Ok(false);
    }
    let named = number_at(&head, 8) as usize;
    let Some(size) = PageSize::new(named) else {
        return Ok(false);
    };
    let mut frame = vec![in alloc; 0; FRAME_OCTETS + size.bytes()]?;
    count_on(log, &head, &mut frame)
}

// Whether a log with this header has such commits. `frame` is a buffer for one frame.
fn count_on<R: Read>(
    log: &mut R,
    head: &[u8; HEADER_OCTETS],
    frame: &mut [u8],
) -> Result<bool, Unread>
    requires whole { 24 ≤ length frame.old }
    ensures { (octets : List ℕ) → length frame.old ≡ 24 + page_size octets
        → head.now ≡ header octets → IsReadTo octets 32 (R.remaining log.old)
        → IfOk result (λ later. later ≡ has_later octets) }
{
    let mut commits = Commits::none();
    for _ in 0..u64::MAX {
        let count = fill(log, frame)?;
        if count < frame.len() {
            return Ok(commits.are_later());
        }
        commits = commits.and_frame(head, frame);
    }
    Err(Unread::CannotRead)
}
