//! An input that is read whole.
ghost use Rattle.std.specs.Prelude.{◌≡◌, ◌≤◌, ◌<◌, length, vec_len, IfOk, IfErr, IfSome};
ghost use Rattle.acct_program.specs.declared.input.InputFault.TheVariants.{TooLong as too_long};

use std::alloc::{AllocError, Global};
use std::io::{ErrorKind, Read};
use thiserror::Error;

/// The most octets of an input.
pub const MOST_OCTETS: usize = 16_777_216;
/// The most reads of an input.
pub const MOST_READS: u32 = 33_554_432;
/// How many octets one read asks for.
const BLOCK: usize = 16_384;

/// Why an input cannot be read.
#[derive(Clone, Copy, PartialEq, Eq, Debug, Error)]
pub enum InputFault {
    /// It has more than `MOST_OCTETS` octets.
    #[error("too long")]
    TooLong,
    /// A read failed, or its end wasn't met in `MOST_READS` reads.
    #[error("cannot read")]
    CannotRead,
    /// There is no memory for it.
    #[error("out of memory")]
    NoMemory,
}

impl From<AllocError> for InputFault {
    ghost use Rattle.std.specs.Prelude.{◌≡◌};
    ghost use Rattle.acct_program.specs.declared.input.InputFault.TheVariants.{NoMemory};

    ghost from_gives = { λ _ e. e ≡ NoMemory };

    fn from(_error: AllocError) -> InputFault {
        InputFault::NoMemory
    }
}

/// All octets that a reader has left. A read that was interrupted is tried again, and counts.
///
/// # Errors
///
/// `TooLong` as soon as there are more than `MOST_OCTETS` octets. `CannotRead` if a read fails or
/// the end isn't met in `MOST_READS` reads. `NoMemory` if the octets can't be kept.
pub fn read_input<R: Read>(alloc: Global, reader: &mut R) -> Result<Vec<u8>, InputFault>
    ensures whole { IfOk result (λ octets.
        IfSome (R.remaining reader.old) (λ all. octets.items ≡ all)) }
    ensures bounded { IfOk result (λ octets. vec_len octets ≤ 16777216) }
    ensures too_long { IfErr result (λ fault. fault ≡ too_long
        → IfSome (R.remaining reader.old) (λ all. 16777216 < length all)) }
{
    let mut octets = Vec::new(alloc);
    let mut block = [0; BLOCK];
    for _ in 0..MOST_READS {
        match reader.read(&mut block) {
            Ok(0) => return Ok(octets),
            Ok(count) => {
                if count > MOST_OCTETS - octets.len() {
                    return Err(InputFault::TooLong);
                }
                octets.extend_from_slice(&block[..count])?;
            }
            Err(error) => {
                if error.kind() != ErrorKind::Interrupted {
                    return Err(InputFault::CannotRead);
                }
            }
        }
    }
    Err(InputFault::CannotRead)
}
