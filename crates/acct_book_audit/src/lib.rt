//! The trial balance of a book: every account's balance is what its vouchers credit less what its
//! sessions cost, by the rows in the book.
//!
//! 1. A balance must be kept for each account that has a session or a voucher, and for no other.
//! 2. Each session must be of a plan of the site. One whose class no plan has is reported, and has
//!    no price.
//! 3. The clauses hold for the content as it is, whatever it stands for. If it stands for a
//!    history, every account is balanced (`laws::sound_books_balance`).
//! 4. An audit only reads. It holds the sessions and the vouchers of one account at a time.
#![tactic(auto)]

mod auditing;
mod auditor;
mod balance_search;
pub mod laws;
mod members;
mod statement;

pub use auditing::audit;
pub use auditor::{Audit, Auditor, Kind, Seen};
pub use balance_search::find_balance;
pub use statement::{Statement, audit_account, is_planned};
