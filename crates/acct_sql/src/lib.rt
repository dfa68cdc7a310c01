//! The book of a RADIUS accounting server in SQLite tables, over any store that `sqlite` can write.
//!
//! 1. The content of the book is what the tables `session`, `session_plan`, `account`, `voucher`,
//!    `price_plan` and `plan_count` hold, column by column
//!    (`acct_sql_tables/specs/Content.antt`). The contracts of `create` and `adopt` state it of the
//!    book that they return.
//! 2. A call that writes is one transaction: an UPDATE by key of each table, and an INSERT if that
//!    found no row. `put_forward` first removes sessions and their plans, by DELETEs by key.
//! 3. A call that reads is a transaction too, which writes nothing. So a read of a store that was
//!    shut adds nothing to what a crash may leave.
//! 4. While the book is open, all that it holds is committed, and a crash leaves only that.
//! 5. Rowids are integers and distinguish rows (`acct_sql_tables/specs/Tidy.antt`). The rules of a
//!    schema don't say so, and an UPDATE and a DELETE use them. `create` ensures it, `adopt` tests
//!    it, each write keeps it.
//! 6. No call of a book writes the schema number, the plans, or what they count. They stay in what
//!    it shows and in what a crash may leave (`LeavesPlans` in `acct_sql_tables/specs/Book.antt`).
//!    The plans are part of the content, so whoever records in a book keeps them.
//! 7. A row whose columns break a bound of a session counts by its columns, and each call that
//!    would show it returns `Unavailable`. So does each call that would show a session of which no
//!    plan is kept.
#![tactic(auto)]

mod known;
pub mod laws;
mod memory;
mod sql_book;
mod transactions;

pub use acct_sql_tables::sql_book_error::SqlBookError;
pub use sql_book::SqlBook;
