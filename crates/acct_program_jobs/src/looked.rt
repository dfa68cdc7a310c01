//! The look at the files of a book before they are opened.
//!
//! An open makes a file that does not exist, and a database of a text shorter than a header or of
//! none, and it blocks on a pipe. It stops reading a damaged log at the damage, and writes behind
//! it. It empties a log next to a file without a database. A mistyped name must do none of this. So
//! an open takes files that were looked at, and nothing but a look makes these.
ghost use Rattle.std.specs.Prelude.{◌≡◌, Err, false, IfOk, IfErr, OnOk};
ghost use Rattle.acct_program_jobs.specs.Files.{IsUnlooked};
ghost use Rattle.acct_program_jobs.specs.Looks.{IsDatabaseFile, IsEmptyBook, IsNoDatabase, IsSeen};
ghost use Rattle.acct_program_jobs.specs.Looks.{MayOpen, TellsFrames, TellsReadable, WasSaidOf};

use crate::book_file::BookFile;
use acct_model::Text;
use acct_program_commands::{Fault, StoreFault};
use acct_reads::{ReadsFiles, log_name};
use acct_sql_log::{
    DATABASE_HEADER_OCTETS, LOG_HEADER_OCTETS, Unread, damage_beside, has_lost_book,
};
use std::alloc::AllocError;

/// The files of a book that may be opened.
#[derive(Clone, Copy)]
pub(crate) struct Looked<'a> {
    files: BookFile<'a>,
}

impl<'a> Looked<'a> {
    /// Files that may be opened, of a book that exists, or that is to be made.
    ///
    /// # Errors
    ///
    /// `CannotOpen` if an open must not have them. `NotABook` if the file of a book that should
    /// exist is empty, and has no log that would be read in its place.
    pub(crate) fn at<R: ReadsFiles + AllocGlobal>(
        runtime: &R,
        files: BookFile<'a>,
        is_new: bool,
    ) -> Result<Looked<'a>, Fault>
        ensures files { IfOk result (λ looked. looked.files ≡ files.entry) }
        ensures seen { IfOk result (λ _. MayOpen R.leads_to R.was_opened R.Reader.remaining
            R.was_asked is_new files.entry.database.now files.entry.loses_commits) }
        ensures why { IfErr result (IsUnlooked is_new) }
        ensures empty { result ≡ Err (Fault.Store StoreFault.NotABook)
            → IsEmptyBook R.leads_to R.was_opened R.Reader.remaining R.was_asked
            files.entry.database.now }
    {
        check_file(runtime, files.database, is_new)?;
        match is_readable(runtime, files) {
            Ok(true) => Ok(Looked { files }),
            Ok(false) | Err(_) => Err(Fault::CannotOpen),
        }
    }

    /// Their names, and whether commits of the log may be lost.
    pub(crate) fn files(self) -> BookFile<'a>
        ensures { result ≡ self.entry.files }
    {
        self.files
    }
}

// Refuses a file that an open must not have, as a new book or as an existing one.
fn check_file<R: ReadsFiles + AllocGlobal>(
    runtime: &R,
    file: &Text,
    is_new: bool,
) -> Result<(), Fault>
    ensures seen { OnOk result (IsSeen R.leads_to R.was_opened R.Reader.remaining R.was_asked is_new
        file.now) }
    ensures why { IfErr result (IsUnlooked is_new) }
    ensures empty { result ≡ Err (Fault.Store StoreFault.NotABook)
        → IsEmptyBook R.leads_to R.was_opened R.Reader.remaining R.was_asked file.now }
{
    if !is_new {
        return check_existing(runtime, file);
    }
    match has_lost_book(runtime, runtime.alloc(), file.as_str()) {
        Ok(false) => Ok(()),
        Ok(true) | Err(_) => Err(Fault::CannotOpen),
    }
}

// Refuses a file that is no database: one that is missing, or not regular, or not long enough for a
// header.
fn check_existing<R: ReadsFiles + AllocGlobal>(runtime: &R, file: &Text) -> Result<(), Fault>
    ensures seen { OnOk result (WasSaidOf R.leads_to R.was_opened R.Reader.remaining R.was_asked
        file.now IsDatabaseFile) }
    ensures why { IfErr result (IsUnlooked false) }
    ensures refused { result ≡ Err Fault.CannotOpen → WasSaidOf R.leads_to R.was_opened
        R.Reader.remaining R.was_asked file.now IsNoDatabase }
    ensures empty { result ≡ Err (Fault.Store StoreFault.NotABook)
        → IsEmptyBook R.leads_to R.was_opened R.Reader.remaining R.was_asked file.now }
{
    match runtime.metadata(file.as_str()) {
        Ok(found) if !found.is_file() => Err(Fault::CannotOpen),
        Ok(found) if found.len() >= DATABASE_HEADER_OCTETS => Ok(()),
        Ok(found) if found.len() == 0 => match has_log(runtime, file) {
            Ok(false) => Err(Fault::Store(StoreFault::NotABook)),
            Ok(true) | Err(_) => Err(Fault::CannotOpen),
        },
        Ok(_) | Err(_) => Err(Fault::CannotOpen),
    }
}

// Whether the log of a database may be read: it has no damage, or what is behind the damage may be
// lost.
fn is_readable<R: ReadsFiles + AllocGlobal>(
    runtime: &R,
    files: BookFile<'_>,
) -> Result<bool, Unread>
    ensures { IfOk result (TellsReadable R.leads_to R.was_opened R.Reader.remaining R.was_asked
        files.entry.database.now files.entry.loses_commits) }
{
    if files.loses_commits {
        return Ok(true);
    }
    let damage = damage_beside(runtime, runtime.alloc(), files.database.as_str())?;
    Ok(damage.is_none())
}

// Whether the log of a database is long enough for a frame. One that is not there is not.
fn has_log<R: ReadsFiles + AllocGlobal>(runtime: &R, file: &Text) -> Result<bool, AllocError>
    ensures { IfOk result (TellsFrames R.leads_to R.was_opened R.Reader.remaining R.was_asked
        file.now) }
{
    let log = log_name(runtime, runtime.alloc(), file.as_str())?;
    match runtime.metadata(log.as_str()) {
        Ok(found) => Ok(found.len() > LOG_HEADER_OCTETS),
        Err(_) => Ok(false),
    }
}
