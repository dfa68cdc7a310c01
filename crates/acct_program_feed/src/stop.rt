//! What ends a run before its last line.
use acct_model::NoMemory as OutOfMemory;
use std::alloc::AllocError;
use std::io;
use thiserror::Error;

/// What ends a run before its last line.
#[derive(Clone, Copy, PartialEq, Eq, Debug, Error)]
pub enum Stop {
    /// An answer could not be written.
    #[error("cannot write")]
    CannotWrite,
    /// Out of memory.
    #[error("out of memory")]
    NoMemory,
}

impl From<io::Error> for Stop {
    ghost use Rattle.std.specs.Prelude.{◌≡◌};
    ghost use Rattle.acct_program_feed.specs.declared.stop.Stop.TheVariants.{CannotWrite};

    ghost from_gives = { λ _ stop. stop ≡ CannotWrite };

    fn from(_error: io::Error) -> Stop {
        Stop::CannotWrite
    }
}

impl From<AllocError> for Stop {
    ghost use Rattle.std.specs.Prelude.{◌≡◌};
    ghost use Rattle.acct_program_feed.specs.declared.stop.Stop.TheVariants.{NoMemory};

    ghost from_gives = { λ _ stop. stop ≡ NoMemory };

    fn from(_error: AllocError) -> Stop {
        Stop::NoMemory
    }
}

impl From<OutOfMemory> for Stop {
    ghost use Rattle.std.specs.Prelude.{◌≡◌};
    ghost use Rattle.acct_program_feed.specs.declared.stop.Stop.TheVariants.{NoMemory};

    ghost from_gives = { λ _ stop. stop ≡ NoMemory };

    fn from(_error: OutOfMemory) -> Stop {
        Stop::NoMemory
    }
}
