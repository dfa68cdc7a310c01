//! A log, taken link by link.
ghost use Rattle.std.specs.Prelude.{◌≡◌, ◌+◌, ◌^◌, ◌≤◌, ◌<◌, ◌↔◌, ◌&&◌, ◌||◌, ℕ, Bool, List, length};
ghost use Rattle.std.specs.Prelude.{if◌then◌else◌, Option, IfSome, IsSome, IsNone, IsTrue};
ghost use Rattle.std.specs.Option.{ForSome};
ghost use Rattle.acct_sql_log.specs.Answered.{IsSynced, IsCutOff, IsUnderWay};
ghost use Rattle.acct_sql_log.specs.Chain.{frame_in};

use crate::damage::Damage;
use crate::links::{
    FRAME_OCTETS, begins_counted, ends_commit, is_frame, is_sealed_last, is_signed, number_at,
    sum_at,
};

/// Where the chain breaks first.
#[derive(Clone, Copy)]
pub(crate) struct Break {
    /// The number of the frame, from 1.
    link: u64,
    /// Whether its commit was synced before it was sealed.
    is_synced: bool,
    /// Whether a later commit was begun.
    is_followed: bool,
    /// How many commits end at it or behind it so far.
    commits: u64,
}

/// A log whose links are taken one after the other, from the header on.
#[derive(Drop)]
pub struct Scanner {
    head: [u8; 32],
    /// How many frames were taken.
    taken: u64,
    /// The sum that the next frame goes on from.
    sum: (u32, u32),
    /// Whether the first frame of the commit that is under way has its seal, and does not count.
    under_way: Option<bool>,
    broken: Option<Break>,
    ghost few: { ForSome broken (λ found. found.commits ≤ taken) },
}

impl Scanner {
    ghost use Rattle.sqlite_wal.specs.Format.{be32, IsSigned};
    ghost use Rattle.sqlite_wal.specs.Recovery.{header};
    ghost use Rattle.sqlite_wal.specs.PageSize.{IsPageSize};
    ghost use Rattle.acct_sql_log.specs.Chain.{page_size, frame_count, Holds};
    ghost use Rattle.acct_sql_log.specs.Damage.{Finds};
    ghost use Rattle.acct_sql_log.specs.Scanner.{HasTaken, IsBreakIn};

    /// Takes the header, if it meets its own sum. Without one no frame can be distinguished.
    pub fn new(head: &[u8; 32]) -> Option<Scanner>
        ensures taken { IfSome result (λ scanner.
            (log : List ℕ) → head.now ≡ header log → HasTaken log 0 scanner) }
        ensures first { IfSome result (λ scanner. scanner.taken ≡ 0) }
        ensures signed { IsSome result → IsSigned head.now }
        ensures unsigned { IsNone result → ¬ IsSigned head.now }
    {
        if !is_signed(head) {
            return None;
        }
        Some(Scanner {
            head: *head,
            taken: 0,
            sum: sum_at(head, 24),
            under_way: None,
            broken: None,
        })
    }

    /// Takes the next frame.
    pub fn take(&mut self, frame: &[u8])
        requires whole { 24 ≤ length frame.now }
        requires room { self.old.taken + 1 < 2 ^ 64 }
        ensures taken { (log : List ℕ) (frames : ℕ) → HasTaken log frames self.old
            → frame.now ≡ frame_in log frames → HasTaken log (frames + 1) self.new }
        ensures one { self.new.taken ≡ self.old.taken + 1 }
    {
        let is_sealed = self.is_sealed_with(frame);
        let broken = self.broken_with(frame, is_sealed);
        self.under_way = still_open(frame, is_sealed);
        self.sum = sum_at(frame, 16);
        self.taken += 1;
        self.broken = broken;
    }

    // Whether the commit of the next frame, if it is this one, was synced before it was sealed.
    fn is_sealed_with(&self, frame: &[u8]) -> bool
        requires whole { 24 ≤ length frame.now }
        ensures { (log : List ℕ) (frames : ℕ) → HasTaken log frames self.now
            → frame.now ≡ frame_in log frames → IsTrue result ↔ IsSynced log frames }
    {
        match self.under_way {
            Some(is_sealed) => is_sealed,
            None => is_sealed_last(&self.head, frame),
        }
    }

    // Where the chain breaks first, if the next frame is this one.
    fn broken_with(&self, frame: &[u8], is_synced: bool) -> Option<Break>
        requires whole { 24 ≤ length frame.now }
        requires room { self.now.taken + 1 < 2 ^ 64 }
        ensures few { ForSome result (λ found. found.commits ≤ self.now.taken + 1) }
        ensures broken { (log : List ℕ) (frames : ℕ) → HasTaken log frames self.now
            → frame.now ≡ frame_in log frames → (IsTrue is_synced ↔ IsSynced log frames)
            → IsBreakIn log (frames + 1) result }
    {
        let ends = ends_commit(&self.head, frame);
        match self.broken {
            Some(found) => {
                let follows = begins_counted(&self.head, frame);
                Some(Break {
                    link: found.link,
                    is_synced: found.is_synced,
                    is_followed: either(found.is_followed, follows),
                    commits: found.commits + one_if(ends),
                })
            }
            None if is_frame(&self.head, self.sum, frame) => None,
            None => Some(Break {
                link: self.taken + 1,
                is_synced,
                is_followed: false,
                commits: one_if(ends),
            }),
        }
    }

    /// The damage of the log, if all its whole frames were taken, and these octets are behind them.
    pub fn damage(&self, rest: &[u8]) -> Option<Damage>
        requires room { self.now.taken + 1 < 2 ^ 64 }
        ensures { (log : List ℕ) → HasTaken log (frame_count log) self.now
            → rest.now ≡ frame_in log (frame_count log) → IsPageSize (page_size log)
            → Finds log result }
    {
        let Some(found) = self.broken else {
            return self.damage_at_end(rest);
        };
        if found.is_synced || found.is_followed {
            Some(Damage::Frame {
                frame: found.link,
                commits: found.commits,
            })
        } else {
            None
        }
    }

    // The damage of the log, if all its whole frames were taken and hold.
    fn damage_at_end(&self, rest: &[u8]) -> Option<Damage>
        requires room { self.now.taken + 1 < 2 ^ 64 }
        ensures { (log : List ℕ) → HasTaken log (frame_count log) self.now
            → rest.now ≡ frame_in log (frame_count log) → IsPageSize (page_size log)
            → ((link : ℕ) → link ≤ frame_count log → Holds log link) → Finds log result }
    {
        if self.is_cut_off(rest) {
            Some(Damage::Frame {
                frame: self.taken + 1,
                commits: 0,
            })
        } else {
            None
        }
    }

    // Whether the log ends within a commit that was synced before it was sealed, if all its whole
    // frames were taken.
    fn is_cut_off(&self, rest: &[u8]) -> bool
        ensures { (log : List ℕ) → HasTaken log (frame_count log) self.now
            → rest.now ≡ frame_in log (frame_count log) → IsTrue result ↔ IsCutOff log }
    {
        match self.under_way {
            Some(is_sealed) => is_sealed,
            None => rest.len() >= FRAME_OCTETS && is_sealed_last(&self.head, rest),
        }
    }
}

// The commit that is under way behind a frame, if the frame does not end it.
fn still_open(frame: &[u8], is_sealed: bool) -> Option<bool>
    requires whole { 24 ≤ length frame.now }
    ensures { (log : List ℕ) (frames : ℕ) (before : Option Bool) → IsUnderWay log frames before
        → (IsTrue is_sealed ↔ IsSynced log frames) → frame.now ≡ frame_in log frames
        → IsUnderWay log (frames + 1) result }
{
    if number_at(frame, 4) == 0 {
        Some(is_sealed)
    } else {
        None
    }
}

pub(crate) fn both(one: bool, other: bool) -> bool
    ensures { result ≡ (one && other) }
{
    one && other
}

pub(crate) fn either(one: bool, other: bool) -> bool
    ensures { result ≡ (one || other) }
{
    one || other
}

// How many commits a frame ends.
pub(crate) fn one_if(ends_commit: bool) -> u64
    ensures count { result ≡ (if ends_commit then 1 else 0) }
    ensures few { result ≤ 1 }
{
    if ends_commit { 1 } else { 0 }
}
