//! The book in a file.
//!
//! What the files held is a parameter of each call, `S: Start`, which no code can read. An error
//! returns what it left of them.
ghost use Rattle.std.specs.Prelude.{◌≡◌, Bool, false, is_some, IfOk, IfErr};
ghost use Rattle.sqlite_wal.specs.Files.{image_at};
ghost use Rattle.sqlite_wal.specs.Recovery.{Image};
ghost use Rattle.sqlite.specs.State.{HasCleanDisk};
ghost use Rattle.sqlite.specs.Files.{file_state};
ghost use Rattle.acct_program_jobs.specs.Faults.{store_fault_of};
ghost use Rattle.acct_program_jobs.specs.Files.{IsBookOf, IsMade, IsRefused, HasNotMade, IsUnread};
ghost use Rattle.acct_program_jobs.specs.Files.{Copies, IsGuarded, IsUnclosed, IsUnlisted};
ghost use Rattle.acct_program_jobs.specs.Looks.{MayOpen};
ghost use Rattle.acct_program_jobs.specs.inner.Files.{HasSums, IsOpenedOn, sums_of};

use crate::book_file::BookFile;
use crate::left::Left;
use crate::looked::Looked;
use crate::making::Making;
use acct_model::{Plans, Text};
use acct_program_commands::{Fault, MakesFiles, StoreFault};
use acct_reads::ReadsFiles;
use acct_sql::{SqlBook, SqlBookError};
use acct_sql_tables::idle::connection_is_idle;
use acct_sql_upkeep::listing::kept_plans;
use sqlite::{Connection, FileFrom, FileStore, Files, Options, Start};
use sqlite_disk::Disk;
use std::alloc::Global;
use std::hash::{BuildHasher, RandomState};
use std::io::Read;

/// A book in a file that held what `S` says.
pub type FileBook<S> = SqlBook<FileStore<FileFrom<S>>>;

/// The connection of such a book.
pub type FileConnection<S> = Connection<FileStore<FileFrom<S>>>;

/// Makes a book of a file and its log, for these plans. Returns the connection to the book, and how
/// many plans it added to an existing one. A new book's file is made too, if it does not exist:
/// only its owner can then read and write it and its log.
///
/// # Errors
///
/// `CannotOpen` if the file cannot be opened, or if its log is damaged, unless the commits from the
/// damage on may be lost. `CannotOpen` too if a new book is to be made where none is, next to a log
/// that has commits which no `init` made: it belongs to a book that is missing. No file is then
/// made. `CannotOpen` too if an existing book's file is no regular one, has 1 to 99 octets, or is
/// empty next to a log with frames. `NotABook` if it is empty without these, and it stays empty.
/// Else the error of `SqlBook::create`, `migrate` or `add_plans`. Each has what is left of the
/// files. They hold what they held, except that a crash may leave the book that was to be made.
pub fn made<S: Start>(
    runtime: &HostRuntime,
    making: Making,
    files: BookFile<'_>,
    plans: &Plans,
    start: S,
) -> Result<(FileConnection<S>, u64), (Fault, Left<FileFrom<S>>)>
    ensures made { IfOk result (λ done. HasCleanDisk (file_state done.0)
        → IsMade making (image_at S.Start) plans.now done.1 done.0) }
    ensures refused { IfErr result (λ e.
        HasNotMade making (image_at S.Start) plans.now e.0 e.1) }
    ensures seen { IfOk result (λ _. MayOpen ⟦<HostRuntime as ReadsFiles>⟧.leads_to
        ⟦<HostRuntime as ReadsFiles>⟧.was_opened
        ⟦<<HostRuntime as ReadsFiles>::Reader as Read>⟧.remaining
        ⟦<HostRuntime as ReadsFiles>⟧.was_asked (is_some (sums_of making))
        files.entry.database.now files.entry.loses_commits) }
{
    let is_new = making.makes_new();
    let looked = match Looked::at(runtime, files, is_new) {
        Ok(looked) => looked,
        Err(fault) => return Err((fault, Left::Nothing)),
    };
    if is_new {
        keep_private(runtime, files.database);
    }
    let connection = opened_for(runtime, making, looked, start)?;
    made_of(runtime.alloc(), making, connection, plans)
}

/// The book in an existing file, with what the tables in the file held.
///
/// # Errors
///
/// `CannotOpen` if no regular file exists, if it has 1 to 99 octets, or if it is empty next to a
/// log that has frames. `NotABook` if it is empty without these, and it stays empty. `CannotOpen`
/// too if it cannot be opened, or if its log is damaged, unless the commits from the damage on may
/// be lost. Else the error of `SqlBook::adopt`, with what is left of the files, which hold what
/// they held.
pub fn adopted<S: Start>(
    runtime: &HostRuntime,
    files: BookFile<'_>,
    plans: &Plans,
    start: S,
) -> Result<FileBook<S>, (Fault, Left<FileFrom<S>>)>
    ensures adopted { IfOk result (λ book. HasCleanDisk (file_state book)
        → IsBookOf (image_at S.Start) plans.now book) }
    ensures refused { IfErr result (λ e. IsRefused (image_at S.Start) plans.now e.0 e.1) }
    ensures seen { IfOk result (λ _. MayOpen ⟦<HostRuntime as ReadsFiles>⟧.leads_to
        ⟦<HostRuntime as ReadsFiles>⟧.was_opened
        ⟦<<HostRuntime as ReadsFiles>::Reader as Read>⟧.remaining
        ⟦<HostRuntime as ReadsFiles>⟧.was_asked false
        files.entry.database.now files.entry.loses_commits) }
{
    let looked = match Looked::at(runtime, files, false) {
        Ok(looked) => looked,
        Err(fault) => return Err((fault, Left::Nothing)),
    };
    let connection = opened_anew(runtime, looked, false, start)?;
    taken(runtime.alloc(), connection, plans)
}

/// The plans that the book in an existing file keeps, and the connection to it. The files stay as
/// they are.
///
/// # Errors
///
/// Those of `adopted`, of which `PlansDiffer` says that the rows of the plans are no plans of a
/// site.
pub fn listed<S: Start>(
    runtime: &HostRuntime,
    files: BookFile<'_>,
    start: S,
) -> Result<(Plans, FileConnection<S>), (Fault, Left<FileFrom<S>>)>
    ensures kept { IfOk result (λ done. HasCleanDisk (file_state done.1)
        → IsBookOf (image_at S.Start) done.0 done.1) }
    ensures refused { IfErr result (λ e. IsUnlisted (image_at S.Start) e.0 e.1) }
    ensures seen { IfOk result (λ _. MayOpen ⟦<HostRuntime as ReadsFiles>⟧.leads_to
        ⟦<HostRuntime as ReadsFiles>⟧.was_opened
        ⟦<<HostRuntime as ReadsFiles>::Reader as Read>⟧.remaining
        ⟦<HostRuntime as ReadsFiles>⟧.was_asked false
        files.entry.database.now files.entry.loses_commits) }
{
    let looked = match Looked::at(runtime, files, false) {
        Ok(looked) => looked,
        Err(fault) => return Err((fault, Left::Nothing)),
    };
    let connection = opened_anew(runtime, looked, false, start)?;
    kept_in(runtime.alloc(), connection)
}

/// Closes a book: copies what its log holds into its file. Returns the two files, which then hold
/// the last commit. So does the book's file without its log.
///
/// # Errors
///
/// `Unavailable` if that fails. File and log together still hold all that was accepted.
pub fn close<S: Start>(
    connection: FileConnection<S>,
) -> Result<Files<FileFrom<S>>, (Fault, Left<FileFrom<S>>)>
    ensures copied { IfOk result (λ files. Copies connection files) }
    ensures kept { IfErr result (λ e. IsUnclosed connection e.0 e.1) }
{
    match connection.close_files() {
        Ok(files) => Ok(files),
        Err((_, rest)) => { Err((Fault::Store(StoreFault::Unavailable), Left::Unclosed(rest))) }
    }
}

// Makes the files of a new book so that no other user can read them: an open would leave that to
// the umask. Existing files stay as they are. If one cannot be made, the open reports it.
fn keep_private<R: MakesFiles + AllocGlobal>(runtime: &R, file: &Text) {
    runtime.make_private(file.as_str());
    if let Ok(log) = format!(in runtime.alloc(); "{}-wal", file.as_str()) {
        runtime.make_private(&log);
    }
}

// The book in a database that was opened over files that held an image.
fn taken<D: Disk + Drop>(
    alloc: Global,
    connection: Connection<FileStore<D>>,
    plans: &Plans,
) -> Result<SqlBook<FileStore<D>>, (Fault, Left<D>)>
    requires { (file_state connection).in_transaction ≡ false }
    ensures adopted { (image : Image) → IsOpenedOn image connection → IsGuarded connection
        → IfOk result (λ book. HasCleanDisk (file_state book) → IsBookOf image plans.now book) }
    ensures refused { (image : Image) → IsOpenedOn image connection
        → IfErr result (λ e. IsRefused image plans.now e.0 e.1) }
{
    match SqlBook::adopt(alloc, connection, plans) {
        Ok(book) => Ok(book),
        Err((error, connection)) => {
            Err((Fault::Store(store_fault(error)), Left::Open(connection)))
        }
    }
}

// The plans that the book in a database keeps that was opened over files that held an image.
fn kept_in<D: Disk + Drop>(
    alloc: Global,
    mut connection: Connection<FileStore<D>>,
) -> Result<(Plans, Connection<FileStore<D>>), (Fault, Left<D>)>
    requires { (file_state connection).in_transaction ≡ false }
    ensures kept { (image : Image) → IsOpenedOn image connection → IsGuarded connection
        → IfOk result (λ done. HasCleanDisk (file_state done.1) → IsBookOf image done.0 done.1) }
    ensures refused { (image : Image) → IsOpenedOn image connection
        → IfErr result (λ e. IsUnlisted image e.0 e.1) }
{
    connection_is_idle(&connection);
    match kept_plans(alloc, &mut connection) {
        Ok(plans) => Ok((plans, connection)),
        Err(error) => { Err((Fault::Store(store_fault(error)), Left::Open(connection))) }
    }
}

// Makes a book of a database that was opened over files that held an image. Returns its connection,
// and how many plans were added.
fn made_of<D: Disk + Drop>(
    alloc: Global,
    making: Making,
    connection: Connection<FileStore<D>>,
    plans: &Plans,
) -> Result<(Connection<FileStore<D>>, u64), (Fault, Left<D>)>
    requires { (file_state connection).in_transaction ≡ false }
    ensures made { (image : Image) → IsOpenedOn image connection
        → IfOk result (λ done. HasCleanDisk (file_state done.0)
        → IsMade making image plans.now done.1 done.0) }
    ensures refused { (image : Image) → IsOpenedOn image connection
        → IfErr result (λ e. HasNotMade making image plans.now e.0 e.1) }
{
    match making {
        Making::New { .. } => match SqlBook::create(alloc, connection, plans) {
            Ok(book) => Ok((book.into_connection(), 0)),
            Err((error, connection)) => {
                Err((Fault::Store(store_fault(error)), Left::Open(connection)))
            }
        },
        Making::Migrated => match SqlBook::migrate(alloc, connection, plans) {
            Ok(book) => Ok((book.into_connection(), 0)),
            Err((error, connection)) => {
                Err((Fault::Store(store_fault(error)), Left::Open(connection)))
            }
        },
        Making::Extended => match SqlBook::add_plans(alloc, connection, plans) {
            Ok((book, count)) => Ok((book.into_connection(), count)),
            Err((error, connection)) => {
                Err((Fault::Store(store_fault(error)), Left::Open(connection)))
            }
        },
    }
}

// Opens the database in a file, as it was found. If there is none yet, the pages of the new one end
// in sums if that is requested.
fn opened<S: Start>(
    runtime: &HostRuntime,
    looked: Looked<'_>,
    has_sums: bool,
    start: S,
) -> Result<FileConnection<S>, (Fault, Left<FileFrom<S>>)>
    ensures found { IfOk result (IsOpenedOn (image_at S.Start)) }
    ensures guarded { IfOk result IsGuarded }
    ensures idle { IfOk result (λ c. (file_state c).in_transaction ≡ false) }
    ensures sums { IfOk result (HasSums (image_at S.Start) has_sums) }
    ensures unread { IfErr result (λ e. IsUnread (image_at S.Start) e.0 e.1) }
{
    let file = looked.files().database;
    match Connection::open_from(runtime, file.as_str(), has_sums, start) {
        Ok(connection) => Ok(connection),
        Err((_, Some(rest))) => Err((Fault::CannotOpen, Left::Unopened(rest))),
        Err((_, None)) => Err((Fault::CannotOpen, Left::Nothing)),
    }
}

// Opens the database in a file, as it was found, to make a book of it in this way.
fn opened_for<S: Start>(
    runtime: &HostRuntime,
    making: Making,
    looked: Looked<'_>,
    start: S,
) -> Result<FileConnection<S>, (Fault, Left<FileFrom<S>>)>
    ensures found { IfOk result (IsOpenedOn (image_at S.Start)) }
    ensures guarded { IfOk result IsGuarded }
    ensures idle { IfOk result (λ c. (file_state c).in_transaction ≡ false) }
    ensures sums { (has_sums : Bool) → making ≡ Making.New has_sums
        → looked.entry.files.loses_commits ≡ false
        → IfOk result (HasSums (image_at S.Start) has_sums) }
    ensures unread { IfErr result (λ e. IsUnread (image_at S.Start) e.0 e.1) }
{
    match making {
        Making::New { has_sums } => opened_anew(runtime, looked, has_sums, start),
        Making::Migrated | Making::Extended => opened_anew(runtime, looked, false, start),
    }
}

// Opens the database in a file, as it was found. If there is none yet, the pages of the new one end
// in sums if that is requested. If commits of its log may be lost, the log is then emptied: what
// lies behind the damage would be taken for damage again.
fn opened_anew<S: Start>(
    runtime: &HostRuntime,
    looked: Looked<'_>,
    has_sums: bool,
    start: S,
) -> Result<FileConnection<S>, (Fault, Left<FileFrom<S>>)>
    ensures found { IfOk result (IsOpenedOn (image_at S.Start)) }
    ensures guarded { IfOk result IsGuarded }
    ensures idle { IfOk result (λ c. (file_state c).in_transaction ≡ false) }
    ensures sums { looked.entry.files.loses_commits ≡ false
        → IfOk result (HasSums (image_at S.Start) has_sums) }
    ensures unread { IfErr result (λ e. IsUnread (image_at S.Start) e.0 e.1) }
{
    let connection = opened(runtime, looked, has_sums, start)?;
    if looked.files().loses_commits {
        emptied(runtime, connection)
    } else {
        Ok(connection)
    }
}

// The same database with an empty log: it is closed, and opened again.
fn emptied<S: Start>(
    runtime: &HostRuntime,
    connection: FileConnection<S>,
) -> Result<FileConnection<S>, (Fault, Left<FileFrom<S>>)>
    ensures found { (image : Image) → IsOpenedOn image connection → IfOk result (IsOpenedOn image) }
    ensures guarded { IfOk result IsGuarded }
    ensures idle { IfOk result (λ c. (file_state c).in_transaction ≡ false) }
    ensures unread { (image : Image) → IfErr result (λ e. IsUnread image e.0 e.1) }
{
    let files = match connection.close_files() {
        Ok(files) => files,
        Err((_, _store)) => return Err((Fault::CannotOpen, Left::Nothing)),
    };
    // The seed is for the salts of the log. If there is none, they still count up.
    let seed = match RandomState::new(runtime) {
        Ok(state) => state.hash_one(&0u8),
        Err(_) => 0,
    };
    match Connection::open_files_with(runtime.alloc(), files, Options::new(seed), false) {
        Ok(connection) => Ok(connection),
        Err((_, rest)) => Err((Fault::CannotOpen, Left::Unopened(rest))),
    }
}

// What is wrong with a book.
fn store_fault(error: SqlBookError) -> StoreFault
    ensures { result ≡ store_fault_of error }
{
    match error {
        SqlBookError::NotABook => StoreFault::NotABook,
        SqlBookError::PlansDiffer => StoreFault::PlansDiffer,
        SqlBookError::WrongSchema(_) => StoreFault::WrongSchema,
        SqlBookError::Unavailable => StoreFault::Unavailable,
    }
}
