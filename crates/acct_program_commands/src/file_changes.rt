//! Each call of the program that makes a file, or changes its name, length or mode.
//!
//! No contract of std says what such a call does to a file. So they are all here, for a person to
//! read: `.ci/claims` fails if another source can make one. Only the store writes a book's two
//! files, and the contracts on it say what it leaves of them.
ghost use Rattle.std.specs.Prelude.{◌≡◌, ℕ, List, Option, None, IfOk, OnOk, true, false};
ghost use Rattle.std.specs.Io.KnownBytes.{Appends};
ghost use Rattle.std.specs.Fs.{asks_create, asks_create_new, asks_truncate};
ghost use Rattle.acct_program_commands.specs.Puts.{WasPut};

use crate::replaced_name::ReplacedName;
use acct_reads::ReadsFiles;
use std::fs::{Files, OpenFile, OpenOptions, Permissions};
use std::io::Write;
use std::os::unix::fs::{OpenOptionsExt, PermissionsExt};
use std::{fs, io};

/// The files of the system, to be replaced, and looked at.
pub trait ReplacesFiles: ReadsFiles {
    /// A file that is being written.
    type Writer: Write + Drop;

    /// What a file has that was just opened, if that is known.
    ghost fresh: { Option (List ℕ) };

    /// A file was put at this name into which this text was written, and nothing else. Only
    /// `put_in_place` gives this.
    ghost was_put: { List ℕ → List ℕ → Type 0 };

    /// Opens the successor of a file, and gives it a mode. If there is one already, it is emptied.
    fn open_empty(&self, name: &ReplacedName, mode: u32) -> io::Result<Self::Writer>
        ensures fresh { IfOk result (λ file. Self.Writer.contents file ≡ fresh) };

    /// Closes the successor of a file, and gives it the name of that file, which is gone by that.
    /// Whoever opens a file by this name finds one of the two, and it is whole.
    fn put_in_place(&self, file: Self::Writer, name: &ReplacedName) -> io::Result<()>
        ensures put { OnOk result ((text : List ℕ)
            → Appends fresh (Self.Writer.contents file) text → was_put name.now text) };
}

/// The files of the system, to be made.
pub trait MakesFiles {
    /// Makes an empty file that only its owner can read and write, if there is none of this name.
    /// Else it changes nothing.
    fn make_private(&self, name: &str);
}

/// A file of the system that is being written. No contract of std says what it has.
#[derive(Drop)]
pub struct NewFile<F: Drop>(F);

impl<F: Write + Drop> Write for NewFile<F> {
    ghost contents = { λ _. None };

    fn write(&mut self, octets: &[u8]) -> io::Result<usize> {
        self.0.write(octets)
    }

    fn flush(&mut self) -> io::Result<()> {
        self.0.flush()
    }
}

impl<R: Files> ReplacesFiles for R {
    type Writer = NewFile<R::File>;

    ghost fresh = { None };

    ghost was_put = { WasPut };

    fn open_empty(&self, name: &ReplacedName, mode: u32) -> io::Result<Self::Writer> {
        let mut options = OpenOptions::new();
        options.write(true).create(true).truncate(true).mode(mode);
        let file = options.open(self, name.new_name())?;
        // A new file has the mode less the program's umask, and an existing one keeps its own.
        let _ = file.set_permissions(Permissions::from_mode(mode));
        Ok(NewFile(file))
    }

    #[tactic(auto, unfolding(crate::specs::Puts::WasPut))]
    fn put_in_place(&self, file: Self::Writer, name: &ReplacedName) -> io::Result<()> {
        drop(file);
        fs::rename(self, name.new_name(), name.name())
    }
}

impl<R: Files> MakesFiles for R {
    fn make_private(&self, name: &str) {
        // Whoever needs the file opens it next, and reports what is wrong.
        let _ = private_options().open(self, name);
    }
}

// How to make a file that only its owner can read and write: as a new one. An existing file is not
// opened, so it keeps what it has.
fn private_options() -> OpenOptions
    ensures new { asks_create_new result ≡ true }
    ensures kept { asks_truncate result ≡ false }
    ensures other { asks_create result ≡ false }
{
    let mut options = OpenOptions::new();
    // First, because no contract says what `mode` leaves of the others.
    options.mode(0o600);
    options
        .write(true)
        .create(false)
        .truncate(false)
        .create_new(true);
    options
}
