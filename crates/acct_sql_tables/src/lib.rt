//! The tables of a book in a SQLite database: which they are, what their rows say, and what each
//! statement over them shows and makes.
//!
//! 1. `specs/Content.antt` and `Book.antt` define a book by its tables: `acct_sql` is the book over
//!    them.
//! 2. A call that reads is a transaction that writes nothing.
//! 3. A call inside a transaction commits nothing, whatever its result (`specs/inner/Inside.antt`).
#![tactic(auto)]

pub mod book_schema;
pub mod cells;
pub mod columns;
pub mod ending;
pub mod idle;
pub mod listing;
pub mod new_tables;
mod number_bounds;
pub mod older_schema;
pub mod plan_table;
pub mod queries;
pub mod refused;
pub mod rowids;
pub mod session_classes;
pub mod sql_book_error;
pub mod statements;
