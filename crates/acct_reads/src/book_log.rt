//! The name of the log of a book.
ghost use Rattle.std.specs.Prelude.{◌≡◌, ◌++◌, IfOk, codes, string_bytes};
ghost use Rattle.acct_reads.specs.Log.{IsLogOf};

use crate::ReadsFiles;
use std::alloc::{AllocError, Global};

/// The name of the log of a book in a file. If the file's name is a link, the log is next to the
/// file to which it leads.
pub fn log_name<R: ReadsFiles>(runtime: &R, alloc: Global, book: &str) -> Result<String, AllocError>
    ensures { IfOk result (λ log. IsLogOf R.leads_to book.now (string_bytes log)) }
{
    match runtime.canonicalize(alloc, book) {
        Ok(path) => beside(alloc, path.as_str()),
        Err(_) => beside(alloc, book),
    }
}

// The name of the log that is next to a file.
fn beside(alloc: Global, file: &str) -> Result<String, AllocError>
    ensures { IfOk result (λ log. string_bytes log ≡ file.now ++ codes "-wal") }
{
    format!(in alloc; "{file}-wal")
}
