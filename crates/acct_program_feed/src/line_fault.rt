//! Why a line cannot be read.
use acct_model::{NoMemory as OutOfMemory, TopUpError};
use std::alloc::AllocError;
use thiserror::Error;

/// Why a line cannot be read.
#[derive(Clone, Copy, PartialEq, Eq, Debug, Error)]
pub enum LineFault {
    /// It isn't in the language of `feed`.
    #[error("bad line")]
    Bad,
    /// Out of memory.
    #[error("out of memory")]
    NoMemory,
}

impl From<AllocError> for LineFault {
    ghost use Rattle.std.specs.Prelude.{◌≡◌};
    ghost use Rattle.acct_program_feed.specs.declared.line_fault.LineFault.TheVariants.{NoMemory};

    ghost from_gives = { λ _ line. line ≡ NoMemory };

    fn from(_error: AllocError) -> LineFault {
        LineFault::NoMemory
    }
}

impl From<OutOfMemory> for LineFault {
    ghost use Rattle.std.specs.Prelude.{◌≡◌};
    ghost use Rattle.acct_program_feed.specs.declared.line_fault.LineFault.TheVariants.{NoMemory};

    ghost from_gives = { λ _ line. line ≡ NoMemory };

    fn from(_error: OutOfMemory) -> LineFault {
        LineFault::NoMemory
    }
}

impl From<TopUpError> for LineFault {
    ghost use Rattle.std.specs.Prelude.{◌≡◌};
    ghost use Rattle.acct_program_feed.specs.Faults.{topup_line_fault};

    ghost from_gives = { λ error line. line ≡ topup_line_fault error };

    fn from(error: TopUpError) -> LineFault {
        match error {
            TopUpError::BadVoucher | TopUpError::BadAccount | TopUpError::BadSum => LineFault::Bad,
            TopUpError::Memory => LineFault::NoMemory,
        }
    }
}
