//! `key`: prints a signed key.
ghost use Rattle.std.specs.Prelude.{◌≡◌, ◌≢◌, ◌⊎◌, IfOk, IfErr, Some, string_bytes};
ghost use Rattle.acct_desk.specs.SignedKeys.{made_key};
ghost use Rattle.acct_program_commands.specs.SignedKeys.{PrintsKey, SignsNone};

use crate::config_file::read_config;
use crate::fault::Fault;
use acct_desk::SignedKey;
use acct_model::{Octets, Text};
use acct_program::Status;
use acct_reads::ReadsFiles;
use acct_site::Config;
use acct_site_config::{ConfigError, ConfigKind, ConfigTable};
use std::alloc::Global;
use std::io::Write;

/// `key`: prints a key that shows the pages of an account until a second, since 1970, signed by the
/// secret of the configuration in a file.
///
/// # Errors
///
/// Those of `read_config`; `NoStamp` if the configuration has no secret to sign by; `NoMemory`,
/// `CannotWrite`.
pub fn run_key<R: ReadsFiles, W: Write>(
    runtime: &R,
    alloc: Global,
    file: &Text,
    account: &Octets,
    until: u64,
    output: &mut W,
) -> Result<Status, Fault>
    ensures other { IfOk result (λ status. status ≢ Status.BadCommandLine) }
    ensures prints { PrintsKey file.now account.now until (W.contents output.old)
        (W.contents output.new) result }
{
    let config = read_config(runtime, alloc, file)?;
    let account = account.copy(alloc)?;
    let value = signed_by(alloc, &config, &SignedKey { account, until })?;
    writeln!(output, "{value}")?;
    output.flush()?;
    Ok(Status::Done)
}

// The value of a key, signed by the secret of a configuration.
fn signed_by(alloc: Global, config: &Config, key: &SignedKey) -> Result<String, Fault>
    ensures made { IfOk result (λ value.
        made_key config.now.keys.signing key.now ≡ Some (string_bytes value)) }
    ensures none { IfErr result (λ told. SignsNone config.now told ⊎ (told ≡ Fault.NoMemory)) }
{
    match config.keys.signed_key(alloc, key)? {
        Some(value) => Ok(value),
        None => Err(Fault::Config(ConfigError {
            kind: ConfigKind::NoStamp,
            table: ConfigTable::Top,
            index: 0,
        })),
    }
}
