//! The book of a RADIUS accounting server: what was accepted, as rows, balances and vouchers.
//!
//! 1. A book contains three finite maps: rows by key (client and session), balances by account,
//!    top-ups by number. `Book` is the trait of its calls, whatever keeps the maps; `MemBook` keeps
//!    them in memory, in ordered maps with the balances stored.
//! 2. A call that writes sets all of its effect or nothing. A call that reads changes nothing. A
//!    call that fails changes nothing, if the book is still open.
//! 3. In an open book each row is kept under its own key and each top-up under its own number.
//! 4. A content stands for a history if its rows, top-ups and balances are the ones that the
//!    history by itself determines, and every balance is in range (`specs/Stands.antt`,
//!    `specs/Rows.antt`). It still stands for it after plans are added to those of the site.
//! 5. `record` turns a content that stands for a history into one that stands for that history with
//!    the entry. Otherwise it leaves it as it is and returns why (`specs/Effect.antt`,
//!    `specs/Step.antt`).
//! 6. What a crash at a moment may leave of a book is a set of contents. A reading call adds none
//!    to it, a writing call at most the content with its whole effect. For an open book it is only
//!    the content.
#![tactic(auto)]

mod balance;
mod book;
mod charging;
mod key;
pub mod laws;
mod memory_book;
mod raising;
mod recording;
mod row;

pub use balance::overrun;
pub use book::{Book, Unavailable, WALK_LIMIT};
pub use charging::charge;
pub use key::Key;
pub use memory_book::MemBook;
pub use recording::{RecordError, Recorded, advance, record};
pub use row::{Row, SessionState};
