//! What an operator edits, as TOML: the clients, plans and keys of a site.
//!
//! `config_of` reads them, or returns the first fault of the text with its place.
#![tactic(auto)]

mod client_tables;
mod config_error;
mod config_text;
mod entries;
mod key_tables;
mod plan_tables;
mod stamp_tables;
mod tables;
mod withdrawn_tables;

pub use acct_site::Config;
pub use config_error::{ConfigError, ConfigKind, ConfigTable};
pub use config_text::config_of;
