//! Why a database is not opened as a book.
use thiserror::Error;

/// Why a database could not be made a book, or adopted as one.
#[derive(Clone, Copy, PartialEq, Eq, Debug, Error)]
pub enum SqlBookError {
    /// It holds something that is no book. To be made a book it has to be empty.
    #[error("the database is not a book")]
    NotABook,
    /// The book was made with other plans.
    #[error("the book was made with other plans")]
    PlansDiffer,
    /// The book has another schema number than 3.
    #[error("the book has the schema number {0}")]
    WrongSchema(i64),
    /// The store or an allocation failed.
    #[error("the book is unavailable")]
    Unavailable,
}
