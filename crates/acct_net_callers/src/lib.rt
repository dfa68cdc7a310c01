//! A caller of the desk, over any connection whose reads and writes don't wait.
//!
//! 1. Its request is read until `acct_desk::read_request` ends in it, or the caller sends no more.
//!    Then it is handed out, once.
//! 2. Its response is written as the caller takes it, from the first octet to the last. Then the
//!    connection's sending side is closed, and what else the caller sends is read and discarded.
//! 3. Each step is one read or one write. Which caller is served next, and which one is dropped, is
//!    not decided here.
#![tactic(auto)]

mod blocking;
mod caller;
mod request_buffer;
mod response_buffer;

pub use caller::{Caller, Stage, Step};
pub use request_buffer::RequestBuffer;
pub use response_buffer::ResponseBuffer;
