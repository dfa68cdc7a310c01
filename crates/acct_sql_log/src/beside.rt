//! The log of a book in a file.
ghost use Rattle.std.specs.Prelude.{IfOk};
ghost use Rattle.acct_sql_log.specs.Beside.{HasFound, IsOpenedLog, TellsLost};

use crate::commits::has_later_commits;
use crate::damage::Damage;
use crate::log_reader::{Unread, damage_in};
use crate::sizes::DATABASE_HEADER_OCTETS;
use acct_reads::{ReadsFiles, log_name};
use std::alloc::Global;
use std::io::ErrorKind;

/// The damage of the log of a book in a file, if it has any. A log that isn't there has none. It
/// writes nothing.
///
/// # Errors
///
/// `CannotRead` if the log is no regular file, or cannot be opened or read to its end. `NoMemory`
/// if there is no memory for its name or for a frame.
pub fn damage_beside<R: ReadsFiles>(
    runtime: &R,
    alloc: Global,
    file: &str,
) -> Result<Option<Damage>, Unread>
    ensures { IfOk result
        (HasFound R.leads_to R.was_opened R.Reader.remaining file.now) }
{
    match opened_log(runtime, alloc, file)? {
        Some(mut log) => damage_in(alloc, &mut log),
        None => Ok(None),
    }
}

/// Whether a log without its book is next to a file: the file is missing or has fewer octets than
/// the header of a database, and its log has commits that no `init` made. No log has none. It
/// writes nothing.
///
/// # Errors
///
/// Those of `damage_beside`.
pub fn has_lost_book<R: ReadsFiles>(runtime: &R, alloc: Global, file: &str) -> Result<bool, Unread>
    ensures { IfOk result (TellsLost R.leads_to R.was_opened R.Reader.remaining R.was_asked
        file.now) }
{
    match runtime.metadata(file) {
        Ok(found) if found.len() >= DATABASE_HEADER_OCTETS => return Ok(false),
        Ok(_) | Err(_) => {}
    }
    match opened_log(runtime, alloc, file)? {
        Some(mut log) => has_later_commits(alloc, &mut log),
        None => Ok(false),
    }
}

// The log of a book in a file, if it is there.
fn opened_log<R: ReadsFiles>(
    runtime: &R,
    alloc: Global,
    file: &str,
) -> Result<Option<R::Reader>, Unread>
    ensures { IfOk result (IsOpenedLog R.leads_to R.was_opened file.now) }
{
    let name = log_name(runtime, alloc, file)?;
    match runtime.metadata(name.as_str()) {
        // The open of a pipe would wait.
        Ok(found) if found.is_file() => match runtime.open(name.as_str()) {
            Ok(log) => Ok(Some(log)),
            Err(_) => Err(Unread::CannotRead),
        },
        Ok(_) => Err(Unread::CannotRead),
        Err(error) if error.kind() == ErrorKind::NotFound => Ok(None),
        Err(_) => Err(Unread::CannotRead),
    }
}
