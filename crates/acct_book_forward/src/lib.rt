//! Sessions of a book that are carried forward, whatever keeps the book.
//!
//! 1. A selection takes sessions that ended long ago, or sent no report for long. Their rows
//!    are removed, and one row of the same account and plan, a *line*, counts the blocks that they
//!    had started.
//! 2. No balance moves, whatever a crash leaves (`laws::carrying_moves_nothing`).
#![tactic(auto)]

mod batch;
mod forwarding;
pub mod laws;
mod selection;

pub use forwarding::{Tally, carry_account};
pub use selection::{Selection, Stay, is_line};
