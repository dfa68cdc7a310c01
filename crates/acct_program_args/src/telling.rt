//! Prints what `clap` reports about the command line.
use acct_program::Status;
use clap::Error;

/// Prints the report of `clap`: help and the version to standard output, a mistake to standard
/// error. Returns how the program ends.
pub fn tell<R: Print + Eprint>(rt: &R, error: &Error) -> Status {
    let _ = error.print(rt);
    if error.use_stderr() {
        Status::BadCommandLine
    } else {
        Status::Done
    }
}
