//! Files that are looked at, and stay as they are.
//!
//! A function that only looks takes a `ReadsFiles` in the place of the program's runtime. It cannot
//! remove, rename, make, shorten or write a file: no call of this trait does, and a file that it
//! opens can only be read.
#![tactic(auto)]

ghost use Rattle.std.specs.Prelude.{◌≡◌, ℕ, List, Option, Some, None, IfOk, IfErr};
ghost use Rattle.std.specs.IoError.{error_kind};
ghost use Rattle.std.specs.Path.{path_buf_bytes};
ghost use Rattle.std.specs.declared.fs.attrs.Metadata.{Metadata};
ghost use Rattle.acct_reads.specs.Seen.{LeadsTo, WasAsked, WasOpened};

mod book_log;

pub use book_log::log_name;
use std::alloc::Global;
use std::fs::{File, Files, Metadata, OpenOptions};
use std::io::{ErrorKind, Read};
use std::path::PathBuf;
use std::{fs, io};

/// The files of the system, to be looked at.
pub trait ReadsFiles {
    /// A file that was opened.
    type Reader: Read + Drop;

    /// A name led to this path from the root, or it could not be told to which. Only `canonicalize`
    /// gives this.
    ghost leads_to: { List ℕ → Option (List ℕ) → Type 0 };

    /// The file of this name was opened, or there was none. Only `open` and `metadata` give this.
    ghost was_opened: { List ℕ → Option Self.Reader → Type 0 };

    /// The system said this of the file of this name, or nothing. Only `metadata` gives this.
    ghost was_asked: { List ℕ → Option Metadata → Type 0 };

    /// What the system knows of a file. Symbolic links are followed.
    fn metadata(&self, path: &str) -> io::Result<Metadata>
        ensures asked { IfOk result (λ found. was_asked path.now (Some found)) }
        ensures unknown { IfErr result (λ _. was_asked path.now None) }
        ensures missing { IfErr result (λ error.
            error_kind error ≡ ErrorKind.NotFound → was_opened path.now None) };

    /// What the system knows of a file. If the path names a symbolic link, that is the file.
    fn symlink_metadata(&self, path: &str) -> io::Result<Metadata>;

    /// The path of a file from the root, without symbolic links.
    fn canonicalize(&self, alloc: Global, path: &str) -> io::Result<PathBuf>
        ensures found { IfOk result (λ real. leads_to path.now (Some (path_buf_bytes real))) }
        ensures unknown { IfErr result (λ _. leads_to path.now None) };

    /// Opens a file.
    fn open(&self, path: &str) -> io::Result<Self::Reader>
        ensures opened { IfOk result (λ file. was_opened path.now (Some file)) };

    /// Opens a file if this user may also write it.
    fn open_writable(&self, path: &str) -> io::Result<Self::Reader>;
}

// Each call is one of std, of which no contract says what it does to a file: this is read by eye.
// So these proofs alone unfold what was seen.
impl<R: Files> ReadsFiles for R {
    type Reader = R::File;

    ghost leads_to = { LeadsTo };

    ghost was_opened = { WasOpened };

    ghost was_asked = { WasAsked };

    #[tactic(auto, unfolding(crate::specs::Seen::WasAsked, crate::specs::Seen::WasOpened))]
    fn metadata(&self, path: &str) -> io::Result<Metadata> {
        fs::metadata(self, path)
    }

    fn symlink_metadata(&self, path: &str) -> io::Result<Metadata> {
        fs::symlink_metadata(self, path)
    }

    #[tactic(auto, unfolding(crate::specs::Seen::LeadsTo))]
    fn canonicalize(&self, alloc: Global, path: &str) -> io::Result<PathBuf> {
        <R as Files>::canonicalize(self, alloc, path)
    }

    #[tactic(auto, unfolding(crate::specs::Seen::WasOpened))]
    fn open(&self, path: &str) -> io::Result<R::File> {
        File::open(self, path)
    }

    fn open_writable(&self, path: &str) -> io::Result<R::File> {
        // Neither truncates the file nor makes one.
        OpenOptions::new().read(true).write(true).open(self, path)
    }
}
