//! The text of a configuration, read again.
use acct_program::read_input;
use acct_reads::ReadsFiles;
use std::alloc::Global;
use std::str;

// All octets of a file, if it is a regular file that can be read. The read of a pipe or a terminal
// would wait.
pub(crate) fn octets_of<R: ReadsFiles>(runtime: &R, alloc: Global, file: &str) -> Option<Vec<u8>> {
    match runtime.metadata(file) {
        Ok(found) if found.is_file() => {}
        _ => return None,
    }
    let mut reader = runtime.open(file).ok()?;
    read_input(alloc, &mut reader).ok()
}

// The text of such a file, if it is UTF-8.
pub(crate) fn text_of<R: ReadsFiles>(runtime: &R, alloc: Global, file: &str) -> Option<String> {
    let octets = octets_of(runtime, alloc, file)?;
    match str::from_utf8(&octets) {
        Ok(text) => String::from_str(alloc, text).ok(),
        Err(_) => None,
    }
}
