//! The account desk: HTTP requests about accounts, and the whole responses to them.
#![tactic(auto)]

mod account_path;
mod asking;
mod bearer;
mod framing;
mod handling;
mod head;
mod keys;
pub mod laws;
mod login;
mod login_path;
mod pages;
mod refusals;
mod request_reader;
mod routes;
mod signed_key;
mod top_up_body;

pub use framing::{Reach, extent};
pub use handling::handle;
pub use keys::{DeskKey, Keys, KeysError, Role, Signing};
pub use request_reader::{ReadFault, read_request};
pub use signed_key::{SignedKey, Withdrawn};
