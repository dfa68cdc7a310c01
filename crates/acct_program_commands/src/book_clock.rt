//! Checks the clock against the book: it must not be before the book's last change.
ghost use Rattle.std.specs.Prelude.{◌≡◌, ◌/◌, ◌<◌, ◌^◌, Some, IfErr, IfOk, OnOk};
ghost use Rattle.std.specs.Time.{system_time_nanos};
ghost use Rattle.std.specs.Io.KnownBytes.{Appends};
ghost use Rattle.acct_program_commands.specs.BookClock.{late_text, late_line};

use acct_model::Text;
use acct_reads::{ReadsFiles, log_name};
use acct_service::moment_of;
use std::io::Write;
use std::time::{Clock, SystemTime, UNIX_EPOCH};
use std::{fmt, io};

// The octets of a log that has a frame, but for its page: of its header and of the frame's, as
// SQLite's file format has them. Whoever closes a book leaves a shorter log, which has no commit.
const LEAST_LOG: u64 = 32 + 24;

/// What the clock says, and when it says that a book was last changed. Only `read_clock` gives one.
#[derive(Clone, Copy, PartialEq, Eq, Debug)]
pub struct ClockReading {
    /// The moment, in seconds since 1970.
    pub(crate) moment: u64,
    /// When the book's file or its log was last written, in seconds since 1970: 0 if that is not
    /// known.
    pub(crate) written_at: u64,
}

impl ClockReading {
    /// The moment, in seconds since 1970.
    pub fn moment(self) -> u64
        ensures { result ≡ self.moment }
    {
        self.moment
    }
}

// A clock that is before the last change of a book.
#[derive(Clone, Copy)]
struct LateClock {
    // What the clock says, in seconds since 1970.
    moment: u64,
    // When the book was last written, in seconds since 1970.
    written_at: u64,
}

impl fmt::Display for LateClock {
    ghost output = { λ late. Some (late_text late.moment late.written_at) };

    fn fmt<W: fmt::Write>(&self, f: &mut fmt::Formatter<W>) -> fmt::Result {
        let (moment, written_at) = (self.moment, self.written_at);
        write!(
            f,
            "clock: {moment} is before {written_at}, when the book was last written"
        )
    }
}

/// Reads the clock, and when a book's file or its log was last written. The log is beside the file
/// to which the book's name leads. One that has no commit counts for nothing: a run that only opens
/// and closes the book leaves it.
pub fn read_clock<R: ReadsFiles + Clock + AllocGlobal>(runtime: &R, file: &Text) -> ClockReading
    ensures { result.moment < 2 ^ 53 }
{
    ClockReading {
        moment: moment_of(runtime),
        written_at: written_at(runtime, file),
    }
}

/// Prints a line on `errors` if the clock is before the last write of a book's file or of its log.
/// Prints nothing if these moments are not known.
pub fn note_clock<R: ReadsFiles + Clock + AllocGlobal, E: Write>(
    runtime: &R,
    file: &Text,
    errors: &mut E,
) {
    let ClockReading { moment, written_at } = read_clock(runtime, file);
    let _ = write_late(errors, moment, written_at);
}

// Prints a line if a clock is before the last change of a book.
fn write_late<E: Write>(errors: &mut E, moment: u64, written_at: u64) -> io::Result<()>
    ensures { OnOk result (Appends (E.contents errors.old) (E.contents errors.new)
        (late_line moment written_at)) }
{
    if moment >= written_at {
        return Ok(());
    }
    let late = LateClock { moment, written_at };
    writeln!(errors, "{late}")?;
    errors.flush()
}

// When the file of a book or its log was last written, in seconds since 1970: 0 if that is not
// known.
fn written_at<R: ReadsFiles + AllocGlobal>(runtime: &R, file: &Text) -> u64 {
    let written = changed_at(runtime, file.as_str(), 0);
    match log_name(runtime, runtime.alloc(), file.as_str()) {
        Ok(log) => written.max(changed_at(runtime, log.as_str(), LEAST_LOG)),
        Err(_) => written,
    }
}

// When a file was last written, in seconds since 1970: 0 if that is not known, or if the file has
// fewer octets than these.
fn changed_at<R: ReadsFiles>(runtime: &R, file: &str, least: u64) -> u64 {
    match runtime.metadata(file) {
        Ok(metadata) if metadata.len() >= least => seconds_of(metadata.modified()),
        Ok(_) | Err(_) => 0,
    }
}

// A moment in seconds since 1970: 0 if it is not known or before that.
fn seconds_of(changed: io::Result<SystemTime>) -> u64
    ensures known { IfOk changed (λ time. result ≡ system_time_nanos time / 1_000_000_000) }
    ensures unknown { IfErr changed (λ _. result ≡ 0) }
{
    let Ok(changed) = changed else {
        return 0;
    };
    match changed.duration_since(UNIX_EPOCH) {
        Ok(since) => since.as_secs(),
        Err(_) => 0,
    }
}
