//! What the desk returns, as JSON, and the whole HTTP responses that carry it.
#![tactic(auto)]

pub mod bodies;
pub mod json_response;
pub mod login;
pub mod overdrawn;
