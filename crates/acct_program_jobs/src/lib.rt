//! The jobs of the program over the files of a book: what each does, how it ends, what it prints,
//! and what it leaves of the files.
//!
//! 1. A job takes its configuration, then its book, then its sockets, and then its input. The first
//!    fault ends it.
//! 2. What the files held is a parameter of each call, `S: Start`, which no code can read. So each
//!    job is proved for all contents, and for both readings of a write that a crash tore.
#![tactic(auto)]

mod audit_job;
mod book_file;
mod checking;
mod command;
mod database;
mod explained_site;
mod feed_job;
pub mod laws;
mod left;
mod looked;
mod making;
mod plans_job;
mod serving;
mod work;

pub use book_file::BookFile;
pub use command::{Outcome, Streams, carry_out, serve_files, told};
pub use database::{FileBook, FileConnection, adopted, close, made};
pub use feed_job::run_feed;
pub use left::Left;
pub use making::Making;
