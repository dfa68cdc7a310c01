//! How the program ends.
use std::process::ExitCode;

/// How the program ends, by its exit status.
#[derive(Clone, Copy, PartialEq, Eq, Debug)]
pub enum Status {
    /// All was good, or help or the version was asked for.
    Done = 0,
    /// A line was bad, the input could not be read, or an answer could not be written.
    Refused = 1,
    /// The command line is bad.
    BadCommandLine = 2,
    /// The book cannot be opened, read or written, or there is no memory.
    Unavailable = 3,
    /// A socket could not be bound.
    Socket = 4,
}

impl From<Status> for ExitCode {
    ghost use Rattle.std.specs.Prelude.{◌≡◌};
    ghost use Rattle.std.specs.Process.{exit_status};
    ghost use Rattle.acct_program.specs.Statuses.{status_number};

    ghost from_gives = { λ status code. exit_status code ≡ status_number status };

    fn from(status: Status) -> ExitCode {
        ExitCode::from(status as u8)
    }
}
