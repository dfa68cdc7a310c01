//! Why a statement was not run.
use sqlite::Error;
use std::alloc::{AllocError, AllocFailed};

/// The store or an allocation failed, or a row is no row of a book.
#[derive(Clone, Copy)]
pub struct Refused;

impl From<Error> for Refused {
    fn from(_error: Error) -> Refused {
        Refused
    }
}

impl From<AllocError> for Refused {
    fn from(_error: AllocError) -> Refused {
        Refused
    }
}

impl<T: Drop> From<AllocFailed<T>> for Refused {
    fn from(_error: AllocFailed<T>) -> Refused {
        Refused
    }
}
