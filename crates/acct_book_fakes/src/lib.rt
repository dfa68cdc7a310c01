//! Books that fail, for tests of what uses a book.
#![tactic(auto)]

mod failing_book;
pub mod laws;
mod shut_book;

pub use failing_book::FailingBook;
pub use shut_book::ShutBook;
