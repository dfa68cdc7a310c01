//! Whether the names of a book still lead to the files that a server has open.
//!
//! A server goes on with the files that it opened. If a name leads to another file, or to none,
//! what it records is in no file that the next start finds. So it is looked at before the book is
//! opened, again before the first turn, and while the server runs.
ghost use Rattle.std.specs.Prelude.{◌≡◌, false, Option, Bool, None, Some, IfOk, not};
ghost use Rattle.acct_reads.specs.Log.{IsLogOf};
ghost use Rattle.acct_program_commands.specs.Names.{LooksAtName, LooksAtNames, LooksOnceAt};
ghost use Rattle.acct_program_commands.specs.Names.{away_of, seen_of};

use crate::gauges::Gauges;
use acct_model::Text;
use acct_reads::{ReadsFiles, log_name};
use std::alloc::{AllocError, Global};
use std::fs::Metadata;
use std::io::{ErrorKind, Write};
use std::os::unix::fs::MetadataExt;

/// The names of a book's file and of its log, with the files to which each led first.
pub struct BookNames<'r, R> {
    runtime: &'r R,
    book: Name,
    log: Name,
    // When they were looked at, in seconds since 1970.
    looked_at: Option<u64>,
    // Whether one leads elsewhere, as far as is known.
    is_away: bool,
    is_told: bool,
}

impl<'r, R> Drop for BookNames<'r, R> {
    fn drop(self) {
        let BookNames {
            runtime: _,
            book: _,
            log: _,
            looked_at: _,
            is_away: _,
            is_told: _,
        } = self;
    }
}

impl<'r, R: ReadsFiles> BookNames<'r, R> {
    /// The names of a book that a server will open.
    ///
    /// # Errors
    ///
    /// If there is no memory for the names.
    pub fn new(runtime: &'r R, alloc: Global, book: &Text) -> Result<BookNames<'r, R>, AllocError>
        ensures book { IfOk result (λ names. names.book.path ≡ book.now) }
        ensures log { IfOk result (λ names. IsLogOf R.leads_to book.now names.log.path) }
        ensures unseen { IfOk result (λ names. (names.looked_at ≡ None) × (names.is_away ≡ false)
            × (names.is_told ≡ false)) }
    {
        let log = log_name(runtime, alloc, book.as_str())?;
        let mut names = BookNames {
            runtime,
            book: Name::new(book.copy(alloc)?),
            log: Name::new(Text { text: log }),
            looked_at: None,
            is_away: false,
            is_told: false,
        };
        names.lead_elsewhere();
        Ok(names)
    }

    /// Whether one leads elsewhere, as far as is known.
    pub fn is_away(&self) -> bool
        ensures { result ≡ self.now.is_away }
    {
        self.is_away
    }

    /// Looks where they lead as the server begins. Returns whether one is known to lead elsewhere
    /// than at first, when the book was not open yet. Then a line says so.
    pub fn have_moved<E: Write>(&mut self, errors: &mut E) -> bool
        ensures looks { LooksAtNames (seen_of self.old) (seen_of self.new) }
        ensures unnoted { self.new.looked_at ≡ self.old.looked_at }
        ensures says { result ≡ self.new.is_away }
    {
        self.look_now();
        if self.is_away {
            self.tell(errors, "leads to another file or to none: it is not served");
        }
        self.is_away
    }

    /// Looks where they lead, once in a second of the clock, and notes in the gauges whether one
    /// leads elsewhere. If the next look finds that, too, or finds them back, a line says so. A look
    /// that fails tells nothing, and all stays as it was.
    pub fn look<E: Write>(&mut self, moment: u64, gauges: &Gauges, errors: &mut E)
        ensures { LooksOnceAt moment (seen_of self.old) (seen_of self.new) }
    {
        if self.looked_at == Some(moment) {
            return;
        }
        let was_away = self.is_away;
        if self.look_again(moment) {
            gauges.note_away(self.is_away);
            self.tell_change(was_away, errors);
        }
    }

    // Looks where they lead.
    fn look_now(&mut self)
        ensures looks { LooksAtNames (seen_of self.old) (seen_of self.new) }
        ensures unnoted { self.new.looked_at ≡ self.old.looked_at }
    {
        let Some(is_away) = self.lead_elsewhere() else {
            return;
        };
        self.is_away = is_away;
    }

    // Looks where they lead. Returns whether that is known.
    fn look_again(&mut self, moment: u64) -> bool
        ensures looked { self.new.looked_at ≡ Some moment }
        ensures looks { LooksAtNames (seen_of self.old) (seen_of self.new) }
    {
        self.looked_at = Some(moment);
        let Some(is_away) = self.lead_elsewhere() else {
            return false;
        };
        self.is_away = is_away;
        true
    }

    // Prints a line if two looks in turn found that one leads elsewhere, or if both are back.
    fn tell_change<E: Write>(&mut self, was_away: bool, errors: &mut E)
        ensures { seen_of self.new ≡ seen_of self.old }
    {
        if self.is_away && was_away && !self.is_told {
            self.tell(
                errors,
                "leads to another file or to none: nothing is answered",
            );
        } else if !self.is_away && self.is_told {
            self.tell(errors, "leads to its file again");
        }
    }

    // Whether one of the names leads to another file than at first, or to none. `None` if neither is
    // known to, and of one it cannot be told.
    fn lead_elsewhere(&mut self) -> Option<bool>
        ensures same { self.new ≡ record self.old { book = self.new.book; log = self.new.log } }
        ensures says { (book log : Option Bool) × LooksAtName self.old.book self.new.book book
            × LooksAtName self.old.log self.new.log log × (result ≡ away_of book log) }
    {
        let book = self.book.leads_elsewhere(self.runtime);
        let log = self.log.leads_elsewhere(self.runtime);
        away_of(book, log)
    }

    // Writes a line about the book's name.
    fn tell<E: Write>(&mut self, errors: &mut E, what: &str)
        ensures { self.new ≡ record self.old { is_told = not self.old.is_told } }
    {
        self.is_told = !self.is_told;
        let name = self.book.path.as_str();
        let _ = writeln!(errors, "db: the name of {name}, or of its log, {what}");
        let _ = errors.flush();
    }
}

// Whether one of two names leads elsewhere, by what is known of each: one that fails tells nothing.
fn away_of(book: Option<bool>, log: Option<bool>) -> Option<bool>
    ensures { result ≡ away_of book log }
{
    match (book, log) {
        (Some(true), _) | (_, Some(true)) => Some(true),
        (Some(false), Some(false)) => Some(false),
        (_, _) => None,
    }
}

// A file's name, the file to which it led first, and where it led last.
#[derive(Drop)]
struct Name {
    path: Text,
    first: Option<FileNumber>,
    target: Target,
}

// Where a name leads.
#[derive(Clone, Copy)]
enum Target {
    // To this file.
    File(FileNumber),
    // To none.
    Nothing,
    // The look failed.
    Unknown,
}

/// What distinguishes a file from each other one of a system.
#[derive(Clone, Copy, PartialEq, Eq)]
pub(crate) struct FileNumber {
    device: u64,
    number: u64,
}

impl FileNumber {
    /// That of the file whose metadata these are.
    pub(crate) fn of(found: &Metadata) -> FileNumber {
        FileNumber {
            device: found.dev(),
            number: found.ino(),
        }
    }
}

impl Name {
    // A name that was not looked at yet.
    fn new(path: Text) -> Name
        ensures { result ≡ record { path = path; first = None; target = Target.Unknown } }
    {
        Name {
            path,
            first: None,
            target: Target::Unknown,
        }
    }

    // Looks where it leads. Returns whether that is another file than at first, or none, if it is
    // known.
    fn leads_elsewhere<R: ReadsFiles>(&mut self, runtime: &R) -> Option<bool>
        ensures { LooksAtName self.old self.new result }
    {
        self.target = target_of(runtime, self.path.as_str());
        match self.target {
            Target::Unknown => None,
            Target::Nothing => Some(self.first.is_some()),
            Target::File(file) => Some(*self.first.get_or_insert(file) != file),
        }
    }
}

// Where a name leads.
fn target_of<R: ReadsFiles>(runtime: &R, path: &str) -> Target {
    match runtime.metadata(path) {
        Ok(found) => Target::File(FileNumber::of(&found)),
        Err(error) => match error.kind() {
            ErrorKind::NotFound | ErrorKind::NotADirectory => Target::Nothing,
            _ => Target::Unknown,
        },
    }
}
