//! Why a file cannot be read or opened.
use crate::locks::is_locked;
use acct_program::MOST_OCTETS;
use acct_reads::ReadsFiles;
use acct_sql_log::DATABASE_HEADER_OCTETS;
use std::alloc::Global;
use std::fs::Metadata;
use std::io::{ErrorKind, Read};
use std::os::unix::fs::MetadataExt;

// The most octets of the name of a book's file. Next to it is a file with a longer name.
const LONGEST_NAME: usize = 247;
// The octets with which a SQLite database begins.
const MAGIC: &[u8; 16] = b"SQLite format 3\0";

// Why the file of a configuration cannot be read.
pub(crate) fn why_unread<R: ReadsFiles>(runtime: &R, file: &str) -> &'static str {
    match runtime.metadata(file) {
        Err(error) => why_unseen(error.kind()),
        Ok(found) if !found.is_file() => "it is no regular file",
        Ok(found) if found.len() > MOST_OCTETS as u64 => "it has more than 16777216 octets",
        Ok(_) => match runtime.open(file) {
            Err(error) if error.kind() == ErrorKind::PermissionDenied => {
                "this user may not read it"
            }
            _ => "the disk refused",
        },
    }
}

// Why the metadata of a path cannot be read.
fn why_unseen(kind: ErrorKind) -> &'static str {
    match kind {
        ErrorKind::NotFound | ErrorKind::NotADirectory => "there is no such file",
        ErrorKind::PermissionDenied => "this user may not look into its folder",
        _ => "the disk refused",
    }
}

// Why the file of a book that should exist cannot be opened.
pub(crate) fn why_unopened<R: ReadsFiles>(runtime: &R, alloc: Global, file: &str) -> &'static str {
    match runtime.metadata(file) {
        Err(error) if is_missing(error.kind()) => "there is no such file, and init makes one",
        Err(error) => why_unseen(error.kind()),
        Ok(found) if found.is_file() && found.len() == 0 => {
            "it is an empty file, and init makes a book in it"
        }
        Ok(found) if found.is_file() && found.len() < DATABASE_HEADER_OCTETS => {
            "it has fewer than 100 octets, so it is no book: move it away, and init makes one"
        }
        Ok(found) => why_shut(runtime, alloc, file, &found),
    }
}

// Why the file of a book that is to be made cannot be opened.
pub(crate) fn why_unmade<R: ReadsFiles>(runtime: &R, alloc: Global, file: &str) -> &'static str {
    match runtime.metadata(file) {
        Err(error) if is_missing(error.kind()) => why_not_made(runtime, file),
        Err(error) => why_unseen(error.kind()),
        Ok(found) => why_shut(runtime, alloc, file, &found),
    }
}

fn is_missing(kind: ErrorKind) -> bool {
    kind == ErrorKind::NotFound || kind == ErrorKind::NotADirectory
}

// Whether each page of a SQLite database ends in a sum, as its header says by 8 reserved octets.
pub(crate) fn has_sums<R: ReadsFiles>(runtime: &R, file: &str) -> bool {
    let mut octets = [0; 21];
    let Ok(mut opened) = runtime.open(file) else {
        return false;
    };
    opened.read_exact(&mut octets).is_ok() && octets.starts_with(MAGIC) && octets[20] == 8
}

// Why a file that isn't there cannot be made.
fn why_not_made<R: ReadsFiles>(runtime: &R, file: &str) -> &'static str {
    if name_of(file).len() > LONGEST_NAME {
        return "its name has more than 247 octets";
    }
    match runtime.metadata(folder_of(file)) {
        Ok(found) if found.is_dir() => "this user may not make it in its folder",
        _ => "its folder is missing",
    }
}

// Why an existing file, with the metadata found, cannot be opened.
fn why_shut<R: ReadsFiles>(
    runtime: &R,
    alloc: Global,
    file: &str,
    found: &Metadata,
) -> &'static str {
    if !found.is_file() {
        return "it is no regular file";
    }
    if name_of(file).len() > LONGEST_NAME {
        return "its name has more than 247 octets";
    }
    if found.nlink() > 1 {
        return "it has a second name (a hard link)";
    }
    match runtime.open_writable(file) {
        Ok(mut opened) => why_refused(runtime, alloc, &mut opened, found),
        Err(error) if error.kind() == ErrorKind::PermissionDenied => why_denied(found.uid()),
        Err(_) => "the disk refused",
    }
}

// Why a file is no book that could be opened.
fn why_refused<R: ReadsFiles, F: Read>(
    runtime: &R,
    alloc: Global,
    file: &mut F,
    found: &Metadata,
) -> &'static str {
    let mut octets = [0; 16];
    if file.read_exact(&mut octets).is_ok() && octets != *MAGIC {
        return "it is no SQLite database";
    }
    match is_locked(runtime, alloc, found.dev(), found.ino()) {
        Some(true) => "another program has it",
        Some(false) => "it is damaged, its disk is full, or this user may not write in its folder",
        None => {
            "another program has it, its disk is full, this user may not write in its folder, or it \
             is damaged"
        }
    }
}

// Why a file of this user may not be opened.
fn why_denied(owner: u32) -> &'static str {
    if owner == 0 {
        "root made it, and this user may not read and write it"
    } else {
        "this user may not read and write it"
    }
}

// The name of a file in its folder.
fn name_of(file: &str) -> &str {
    match file.rsplit_once('/') {
        Some((_, name)) => name,
        None => file,
    }
}

// The folder of a file.
fn folder_of(file: &str) -> &str {
    match file.rsplit_once('/') {
        Some(("", _)) => "/",
        Some((folder, _)) => folder,
        None => ".",
    }
}
