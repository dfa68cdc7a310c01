//! The command line: the job that its arguments name, and what is printed if they name none.
#![tactic(auto)]

mod args;
mod commands;
mod exports;
mod forward_options;
mod job;
mod option_limits;
mod options;
mod parsing;
mod serve_options;
mod telling;

pub use exports::{EXPORT_NAMES, export_named};
pub use job::{
    BalancesFile, BookJob, Carrying, Cutoff, Export, Job, KeptNames, Listening, Order, Paths,
    Serving, Syncs, Telling, seconds_in,
};
pub use option_limits::{FEWEST_DAYS, LAST_PORT, MOST_DAYS, MOST_SECONDS, MOST_TURNS};
pub use parsing::job_of;
pub use telling::tell;
