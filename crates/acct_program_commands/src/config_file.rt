//! The file of a configuration.
ghost use Rattle.std.specs.Prelude.{◌≡◌, ◌||◌, bytes_eq, codes, nat_eq};
ghost use Rattle.std.specs.List.{starts_with};
ghost use Rattle.acct_site_config.specs.Tables.{top_error};
ghost use Rattle.acct_program_commands.specs.Checks.{IsRead, ReadsConfig};
ghost use Rattle.acct_program_commands.specs.Puts.{WasRead};

use crate::fault::Fault;
use acct_model::{Octets, Text};
use acct_program::{InputFault, read_input};
use acct_reads::ReadsFiles;
use acct_site::Config;
use acct_site_config::{ConfigError, ConfigKind, ConfigTable, config_of};
use std::alloc::Global;
use std::str;

/// The configuration in a file.
///
/// # Errors
///
/// `CannotRead` if the file cannot be opened or read, or has more than 16,777,216 octets. Else the
/// first thing that is wrong with it.
pub fn read_config<R: ReadsFiles>(runtime: &R, alloc: Global, file: &Text) -> Result<Config, Fault>
    ensures { ReadsConfig file.now result }
{
    config_in(alloc, read_file(runtime, alloc, file))
}

/// All octets of a file.
///
/// # Errors
///
/// `CannotRead` if it cannot be opened, or if opening it could block; and those of `read_input`.
// No contract of std says what a file has: this is read by eye.
#[tactic(auto, unfolding(crate::specs::Puts::WasRead))]
pub(crate) fn read_file<R: ReadsFiles>(
    runtime: &R,
    alloc: Global,
    file: &Text,
) -> Result<Octets, InputFault>
    ensures { WasRead file.now result }
{
    let Some(mut reader) = opened(runtime, file) else {
        return Err(InputFault::CannotRead);
    };
    let octets = read_input(alloc, &mut reader)?;
    Ok(Octets { octets })
}

// A file of a configuration, opened. `None` if it cannot be, or if opening it could block.
fn opened<R: ReadsFiles>(runtime: &R, file: &Text) -> Option<R::Reader> {
    let name = file.as_str();
    if is_waited_for(runtime, name) {
        return None;
    }
    runtime.open(name).ok()
}

// Whether opening a file could block on another program without end, as with a named pipe. A file
// that the program was given open is read as data arrives: standard input, and a shell's
// `<(command)`.
fn is_waited_for<R: ReadsFiles>(runtime: &R, file: &str) -> bool {
    match runtime.metadata(file) {
        Ok(found) => !found.is_file() && !is_given_open(file),
        Err(_) => false,
    }
}

// Whether a file is one that the program was given open.
fn is_given_open(file: &str) -> bool
    ensures { result ≡ (bytes_eq file.now (codes "/dev/stdin")
        || starts_with nat_eq file.now (codes "/dev/fd/")
        || starts_with nat_eq file.now (codes "/proc/self/fd/")) }
{
    let name = file.as_bytes();
    name == b"/dev/stdin".as_slice()
        || name.starts_with(b"/dev/fd/")
        || name.starts_with(b"/proc/self/fd/")
}

/// The configuration that was read.
///
/// # Errors
///
/// As those of `read_config`.
pub fn config_in(alloc: Global, read: Result<Octets, InputFault>) -> Result<Config, Fault>
    ensures { IsRead read result }
{
    let octets = match read {
        Ok(octets) => octets,
        Err(InputFault::TooLong | InputFault::CannotRead) => return Err(Fault::CannotRead),
        Err(InputFault::NoMemory) => return Err(wrong(ConfigKind::Memory)),
    };
    let Ok(text) = str::from_utf8(octets.as_slice()) else {
        return Err(wrong(ConfigKind::NotToml));
    };
    match config_of(alloc, text) {
        Ok(config) => Ok(config),
        Err(error) => Err(Fault::Config(error)),
    }
}

// What is wrong with a text as a whole.
fn wrong(kind: ConfigKind) -> Fault
    ensures { result ≡ Fault.Config (top_error kind) }
{
    Fault::Config(ConfigError {
        kind,
        table: ConfigTable::Top,
        index: 0,
    })
}
