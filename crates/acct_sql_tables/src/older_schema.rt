//! The schema numbers of older books.
ghost use Rattle.std.specs.Prelude.{◌≡◌, ◌≢◌, MatchOption};
ghost use Rattle.sqlite.specs.Tree.{Trees};
ghost use Rattle.acct_sql_tables.specs.declared.older_schema.OlderSchema.{OlderSchema};
ghost use Rattle.acct_sql_tables.specs.Migrate.{number_of, schema_of};
ghost use Rattle.acct_sql_tables.specs.inner.Looked.{IsNumberFault};
ghost use Rattle.acct_sql_tables.specs.inner.Migrating.{IsOlderNumberFault, IsNoOlderFault};

use crate::book_schema::{is_first_schema, is_second_schema};
use crate::sql_book_error::SqlBookError;
use sqlite_schema::schema::Schema;

/// The number of the oldest books.
pub const FIRST_NUMBER: i64 = 1;

const SECOND_NUMBER: i64 = 2;

/// A schema number before today's, and the tables that go with it.
#[derive(Clone, Copy)]
pub enum OlderSchema {
    /// Number 1: five tables. Each plan counts both directions.
    First,
    /// Number 2: these, and what each plan counts.
    Second,
}

impl OlderSchema {
    /// The older schema number that has these tables, if one has.
    pub fn of(schema: &Schema) -> Option<OlderSchema>
        ensures { MatchOption result ((older : OlderSchema) → schema.now ≢ schema_of older)
            (λ older. schema.now ≡ schema_of older) }
    {
        if is_first_schema(schema) {
            return Some(OlderSchema::First);
        }
        if is_second_schema(schema) {
            return Some(OlderSchema::Second);
        }
        None
    }

    /// The number.
    pub fn number(self) -> i64
        ensures { result ≡ number_of self }
    {
        match self {
            OlderSchema::First => FIRST_NUMBER,
            OlderSchema::Second => SECOND_NUMBER,
        }
    }
}

/// Why a database is no older book if it has another number than the one that goes with its tables.
/// A number that goes with other tables is that of no book.
pub fn fault_of_number(number: i64) -> SqlBookError
    ensures older { (older : OlderSchema) (db : Trees)
        → IsNumberFault (number_of older) db (SqlBookError.WrongSchema number)
        → IsOlderNumberFault older db result }
    ensures other { IsNoOlderFault result }
{
    if number == FIRST_NUMBER || number == SECOND_NUMBER {
        SqlBookError::NotABook
    } else {
        SqlBookError::WrongSchema(number)
    }
}
