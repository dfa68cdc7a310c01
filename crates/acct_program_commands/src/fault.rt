//! The faults that end a command early.
ghost use Rattle.std.specs.Prelude.{◌≡◌, ◌≢◌, ◌++◌, ◌∷◌, [], Some, IfOk, OnOk};
ghost use Rattle.std.specs.Io.KnownBytes.{Appends};
ghost use Rattle.acct_program_commands.specs.Endings.{fault_text, store_fault_text, fault_status};
ghost use Rattle.acct_program_commands.specs.Endings.{ended_status};

use acct_book::Unavailable;
use acct_program::Status;
use acct_site_config::ConfigError;
use std::alloc::AllocError;
use std::io::Write;
use std::{fmt, io};

/// Why a book could not be made or adopted, or failed.
#[derive(Clone, Copy, PartialEq, Eq, Debug)]
pub enum StoreFault {
    /// The file is not a book.
    NotABook,
    /// The book keeps other plans than the configuration.
    PlansDiffer,
    /// The book is of another schema.
    WrongSchema,
    /// The book failed, or out of memory.
    Unavailable,
}

/// A fault that ends a command early.
#[derive(Clone, Copy, PartialEq, Eq, Debug)]
pub enum Fault {
    /// The file of the configuration cannot be read, or is too long.
    CannotRead,
    /// The configuration is wrong.
    Config(ConfigError),
    /// The book's file cannot be opened.
    CannotOpen,
    /// The book could not be made or adopted, or failed.
    Store(StoreFault),
    /// Out of memory while the book was written out.
    StoreMemory,
    /// A socket could not be bound.
    CannotBind,
    /// What was to be printed could not be written.
    CannotWrite,
    /// Out of memory.
    NoMemory,
    /// A file that is rewritten from time to time would overwrite another one.
    WouldOverwrite,
    /// Sessions that ended less than 30 days ago were to be carried forward.
    CutoffTooLate,
    /// Sessions of which the server still accepts late reports were to be carried forward.
    CutoffInReach,
    /// By the clock, no session of a book was last heard of between 1 and 8 days ago.
    ClockAhead,
    /// The files of a book were last changed more than 7 days before the clock's moment, or more
    /// than a day after it.
    ClockApart,
    /// A balance of the book is not the sum of its vouchers less the price of its sessions.
    Unbalanced,
}

impl fmt::Display for Fault {
    ghost output = { λ fault. Some (fault_text fault) };

    fn fmt<W: fmt::Write>(&self, f: &mut fmt::Formatter<W>) -> fmt::Result {
        match self {
            Fault::CannotRead => f.write_str("file: cannot read"),
            Fault::Config(error) => write!(f, "config: {error}"),
            Fault::CannotOpen => f.write_str("db: cannot open"),
            Fault::Store(error) => f.write_str(store_text(*error)),
            Fault::StoreMemory => f.write_str("db: Memory"),
            Fault::CannotBind => f.write_str("socket: cannot bind"),
            Fault::CannotWrite => f.write_str("cannot write"),
            Fault::NoMemory => f.write_str("out of memory"),
            Fault::WouldOverwrite => f.write_str("file: would be overwritten"),
            Fault::CutoffTooLate => f.write_str("forward: less than 30 days ago"),
            Fault::CutoffInReach => f.write_str("forward: less than --oldest-report ago"),
            Fault::ClockAhead => f.write_str(
                "forward: no session heard of 1 to 8 days ago; give --yes if the clock is right",
            ),
            Fault::ClockApart => {
                f.write_str(
                    "forward: the file is not of the last 7 days; give --yes if the clock is right",
                )
            }
            Fault::Unbalanced => f.write_str("db: Unbalanced"),
        }
    }
}

// What is wrong with a book.
fn store_text(error: StoreFault) -> &'static str
    ensures { result.now ≡ store_fault_text error }
{
    match error {
        StoreFault::NotABook => "db: NotABook",
        StoreFault::PlansDiffer => "db: PlansDiffer",
        StoreFault::WrongSchema => "db: WrongSchema",
        StoreFault::Unavailable => "db: Unavailable",
    }
}

impl Fault {
    /// The exit status of a command that this ends.
    pub fn status(self) -> Status
        ensures status { result ≡ fault_status self }
        ensures other { result ≢ Status.BadCommandLine }
    {
        match self {
            Fault::CannotRead
            | Fault::Config(_)
            | Fault::CannotWrite
            | Fault::WouldOverwrite
            | Fault::CutoffTooLate
            | Fault::CutoffInReach
            | Fault::ClockAhead
            | Fault::ClockApart => Status::Refused,
            Fault::CannotOpen
            | Fault::Store(_)
            | Fault::StoreMemory
            | Fault::NoMemory
            | Fault::Unbalanced => Status::Unavailable,
            Fault::CannotBind => Status::Socket,
        }
    }
}

impl From<io::Error> for Fault {
    ghost use Rattle.std.specs.Prelude.{◌≡◌};
    ghost use Rattle.acct_program_commands.specs.declared.fault.Fault.TheVariants.{CannotWrite};

    ghost from_gives = { λ _ fault. fault ≡ CannotWrite };

    fn from(_error: io::Error) -> Fault {
        Fault::CannotWrite
    }
}

impl From<Unavailable> for Fault {
    ghost use Rattle.std.specs.Prelude.{◌≡◌};
    ghost use Rattle.acct_program_commands.specs.declared.fault.Fault.TheVariants.{Store};
    ghost use Rattle.acct_program_commands.specs.declared.fault.StoreFault.TheVariants as store;

    ghost from_gives = { λ _ fault. fault ≡ Store store.Unavailable };

    fn from(_error: Unavailable) -> Fault {
        Fault::Store(StoreFault::Unavailable)
    }
}

impl From<AllocError> for Fault {
    ghost use Rattle.std.specs.Prelude.{◌≡◌};
    ghost use Rattle.acct_program_commands.specs.declared.fault.Fault.TheVariants.{NoMemory};

    ghost from_gives = { λ _ fault. fault ≡ NoMemory };

    fn from(_error: AllocError) -> Fault {
        Fault::NoMemory
    }
}

/// The exit status of a command: its own, or that of its fault, which is printed on `faults`. If a
/// writer failed, nothing is printed.
pub fn end<E: Write>(faults: &mut E, ended: Result<Status, Fault>) -> Status
    requires { IfOk ended (λ status. status ≢ Status.BadCommandLine) }
    ensures status { result ≡ ended_status ended }
    ensures other { result ≢ Status.BadCommandLine }
{
    match ended {
        Ok(status) => status,
        Err(fault) => {
            let _ = tell_fault(faults, fault);
            fault.status()
        }
    }
}

// Prints a fault, unless it is that a writer failed.
fn tell_fault<E: Write>(faults: &mut E, fault: Fault) -> io::Result<()>
    ensures none { fault ≡ Fault.CannotWrite
        → OnOk result (Appends (E.contents faults.old) (E.contents faults.new) []) }
    ensures line { fault ≢ Fault.CannotWrite
        → OnOk result (Appends (E.contents faults.old) (E.contents faults.new)
        (fault_text fault ++ 10 ∷ [])) }
{
    if fault == Fault::CannotWrite {
        return Ok(());
    }
    writeln!(faults, "{fault}")
}
