//! `serve`: access servers and callers of the desk, answered over a book.
//!
//! 1. `Watcher::serve` runs once the sockets are bound, over any exchange, book and rounds. What
//!    the exchange records of its calls is what was answered, and what was printed is counted of it.
//! 2. `run_serve` binds the socket of the desk, and then runs that. Those for reports are bound by
//! `bind_reports`, before there is a book.
#![tactic(auto)]

mod counts;
mod ended;
pub mod laws;
mod printing;
mod sockets_server;
mod watcher;

pub use counts::{Counts, Drops};
pub use ended::Ended;
pub use sockets_server::{Errors, Surroundings, bind_reports, run_serve};
pub use watcher::{Watcher, serve_exchange};
