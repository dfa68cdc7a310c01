//! Prepares a database as a book. It tests whether it is a book of these plans, lists those that it
//! keeps, makes an older book one of today's, or adds plans to a book.
//!
//! Each of the four reads first, and reports in one order what is wrong. What it writes is one
//! transaction, all of it or nothing.
#![tactic(auto)]

pub mod adding;
pub mod adopting;
pub mod listing;
pub mod migrating;
