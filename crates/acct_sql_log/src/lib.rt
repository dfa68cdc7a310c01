//! Whether the log of a book is damaged.
//!
//! A log is a chain: a header, and then frames, each with a sum that goes on from the one before.
//! SQLite stops reading at the first link that breaks the chain, and reports nothing. A crash may
//! leave such a break where the last commit was being written. But damage in the middle of a log
//! ends it there too, and each commit behind it is lost. This crate distinguishes the two:
//!
//! 1. The store acknowledges a commit once it is synced, and only then writes the next one.
//! 2. It writes one octet of a commit last, its seal, and syncs before and after it. So a sealed
//!    commit that breaks the chain is damage. So is one whose end is missing.
//! 3. With `--sync once` most commits are synced only after it. Such a commit is written over zeros
//!    and begins with a frame that counts them, whose page number no other frame has. A crash may
//!    tear the last one. So one that breaks the chain is damage if a later one was begun.
//! 4. Commits of an earlier run of the log have other salts than its header, and don't count. Parts
//!    of a transaction that was given up may have them. None of these is a frame that counts.
//!
//! 5. A header is a link as well. The store writes its first octet last, once all frames are in the
//!    book's file, and syncs before and after it, with `--sync once` too. So a header that has that
//!    octet and breaks its own sum is damage, whatever follows it.
//!
//! Not distinguished from a crash: damage of the first octet of the header; of the last commit that
//! was synced once; of the seal or the page number of a commit's first frame, if none that was
//! synced once is behind it; of the end of a log, if that ends with a commit or within one that was
//! synced once.
#![tactic(auto)]

mod beside;
mod commits;
mod damage;
pub mod laws;
mod links;
mod log_reader;
mod scanner;
mod sizes;

pub use beside::{damage_beside, has_lost_book};
pub use commits::{INIT_COMMITS, has_later_commits};
pub use damage::Damage;
pub use log_reader::{Unread, damage_in};
pub use scanner::Scanner;
pub use sizes::{DATABASE_HEADER_OCTETS, LOG_HEADER_OCTETS};
