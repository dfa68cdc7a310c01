//! The server behind the sockets: events in, replies out, over a book.
//!
//! 1. An event is a datagram or a desk request with the moment at which it was received. An
//!    exchange returns events and takes replies. Sockets are one, a list of turns is another
//!    (`lists`).
//! 2. `step` answers one event: a datagram by `acct_wire::answer`, a desk request by
//!    `acct_desk::handle`. It is one step of the machine of `specs/Machine.antt`.
//! 3. `serve` makes a number of turns over a book and an exchange. They are a run of that machine.
//!    The entries accepted before it determine every balance and every reply, whatever is received,
//!    repeated, reordered or failing (`specs/Serving.antt`). `serve_in_slices` also ends if it
//!    finds its book shut, and takes other clients and keys in between (`specs/Slices.antt`).
//! 4. A fault of the exchange is counted, and the next turn follows. An entry that was recorded
//!    stays recorded when its reply fails.
#![tactic(auto)]

mod clock;
mod event;
mod exchange;
pub mod laws;
pub mod lists;
mod outbox;
mod rounds;
mod rules;
mod server;
mod slices;
mod stepping;

pub use clock::moment_of;
pub use event::{Event, What};
pub use exchange::{Asked, Call, Exchange, Fault};
pub use outbox::Outbox;
pub use rounds::{NoRounds, Rounds};
pub use rules::Rules;
pub use server::{Served, Turns, serve, take_turn, take_turns};
pub use slices::{Until, serve_in_slices};
pub use stepping::{Turn, step, step_within};
