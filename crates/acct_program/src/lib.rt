//! What every command shares: its exit status, and an input that is read whole.
#![tactic(auto)]

mod input;
mod status;

pub use input::{InputFault, MOST_OCTETS, MOST_READS, read_input};
pub use status::Status;
