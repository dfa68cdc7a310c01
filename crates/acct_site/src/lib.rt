//! What a site is: its clients, its plans and its keys.
//!
//! The sample site is that of `debian/radacctd.toml`: one client, two plans and three keys. `feed`
//! answers for it if no configuration is given, and the tests of all layers use it.
#![tactic(auto)]

mod config;
mod sample;
mod sample_client;
mod sample_key;
mod sample_plan;

pub use config::Config;
pub use sample::sample_config;
pub use sample_client::sample_clients;
pub use sample_key::sample_keys;
pub use sample_plan::{plan, sample_plans};
