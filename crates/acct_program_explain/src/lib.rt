//! What is known about a fault that ended a command, in one line for the operator, and which values
//! of a configuration are public.
//!
//! A command prints a fault by its name, for scripts. This crate examines the file of the fault
//! again, and writes where it is wrong and what would be right. It changes no file.
#![tactic(auto)]

mod book_faults;
mod config_faults;
mod explained;
mod fields;
mod files;
mod finding;
mod headers;
mod locks;
mod log_faults;
mod plan_rows;
mod reading;
mod sample_values;
mod socket_faults;
mod table_faults;

pub use book_faults::{explain_plans, explain_tables};
pub use config_faults::explain_config;
pub use explained::{Explained, explain, explain_words};
pub use sample_values::warn_of_sample;
pub use socket_faults::{Wanted, explain_sockets};
