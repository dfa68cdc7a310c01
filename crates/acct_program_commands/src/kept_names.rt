//! Whether the files that a server rewrites from time to time would overwrite others.
//!
//! A file has two names: its own, and the one under which it is first made. It is rejected if
//! either leads to the book, its log, the configuration, or the other file. It is also rejected if
//! something that the program did not write is at either.
ghost use Rattle.std.specs.Prelude.{◌≡◌, ◌↔◌, ◌⊎◌, IsTrue, IfErr};
ghost use Rattle.acct_program_commands.specs.KeptNames.{LeadsToOne, LeadsToSome, SharesOne};
ghost use Rattle.acct_program_commands.specs.KeptNames.{NamesSome};
ghost use Rattle.acct_program_commands.specs.KeptNames.{Overwrites};

use crate::fault::Fault;
use acct_model::Text;
use acct_reads::ReadsFiles;
use std::alloc::AllocError;
use std::io::Read;
use std::os::unix::fs::MetadataExt;

// The first octets of a file of balances.
const BALANCES_HEAD: &[u8] = b"account,balance,overrun\n";
// The first octets of a file of counts.
const STATUS_HEAD: &[u8] = b"# HELP radacctd_";
// At least the length of either.
const MOST_HEAD: usize = 32;

/// The files of a server, by name.
#[derive(Clone, Copy)]
pub struct ServerFiles<'a> {
    /// The configuration.
    pub config: &'a Text,
    /// The book, if there is one.
    pub database: Option<&'a Text>,
    /// The file that it writes its counts into, if one is named.
    pub status: Option<&'a Text>,
    /// The file that it writes all balances into, if one is named.
    pub balances: Option<&'a Text>,
}

// Where a name leads: symbolic links are followed.
#[derive(Drop)]
enum Place {
    // To a file, by its device and its number there.
    File {
        device: u64,
        number: u64,
    },
    // To no file: the folder in which it would be, and its name there.
    Free {
        device: u64,
        number: u64,
        name: Text,
    },
    // Not known.
    Unknown,
}

// What is found at the two names of a file that is rewritten from time to time: its own, and the
// one under which it is made.
struct Spot {
    // Whether something that the program did not write is at one of them.
    is_foreign: bool,
    // Where they lead.
    places: [Place; 2],
}

impl Drop for Spot {
    fn drop(self) {
        let Spot {
            is_foreign: _,
            places: _,
        } = self;
    }
}

// What is found at the names of a server's files.
#[derive(Drop)]
struct Found {
    status: Spot,
    balances: Spot,
    // Where the configuration is, the book, and its log: next to the book's name, and to its real
    // name.
    kept: [Place; 4],
}

/// Checks that the files that a server writes leave all others alone.
///
/// # Errors
///
/// `WouldOverwrite` if one would overwrite another file; `NoMemory`. If none is named there is no
/// error.
pub fn keep_others<R: ReadsFiles + AllocGlobal>(
    runtime: &R,
    files: ServerFiles<'_>,
) -> Result<(), Fault>
    ensures some { IfErr result (λ _. NamesSome files.entry.status files.entry.balances) }
    ensures why { IfErr result (λ told. (told ≡ Fault.WouldOverwrite) ⊎ (told ≡ Fault.NoMemory)) }
{
    if files.status.is_none() && files.balances.is_none() {
        return Ok(());
    }
    match found_at(runtime, files) {
        Ok(found) if would_overwrite(&found) => Err(Fault::WouldOverwrite),
        Ok(_) => Ok(()),
        Err(_) => Err(Fault::NoMemory),
    }
}

// What is found at the names of a server's files. No contract can express that.
fn found_at<R: ReadsFiles + AllocGlobal>(
    runtime: &R,
    files: ServerFiles<'_>,
) -> Result<Found, AllocError> {
    let status = Spot::of(runtime, files.status, STATUS_HEAD)?;
    let balances = Spot::of(runtime, files.balances, BALANCES_HEAD)?;
    let kept = kept_places(runtime, files)?;
    Ok(Found {
        status,
        balances,
        kept,
    })
}

// Where the files that must stay as they are lead: see `Found::kept`.
fn kept_places<R: ReadsFiles + AllocGlobal>(
    runtime: &R,
    files: ServerFiles<'_>,
) -> Result<[Place; 4], AllocError> {
    let real = real_name(runtime, files.database)?;
    let config = place_of(runtime, Some(files.config))?;
    let book = place_of(runtime, files.database)?;
    let log = place_of_log(runtime, files.database)?;
    let real_log = place_of_log(runtime, real.as_ref())?;
    Ok([config, book, log, real_log])
}

// Whether one of the files to write would overwrite another file.
fn would_overwrite(found: &Found) -> bool
    ensures { IsTrue result ↔ Overwrites found.now }
{
    let Found {
        status,
        balances,
        kept,
    } = found;
    status.is_foreign
        || balances.is_foreign
        || share_one(&status.places, kept)
        || share_one(&balances.places, kept)
        || share_one(&status.places, &balances.places)
}

impl Spot {
    // What is found at the two names of a file that begins with `head`, if it is named.
    fn of<R: ReadsFiles + AllocGlobal>(
        runtime: &R,
        name: Option<&Text>,
        head: &[u8],
    ) -> Result<Spot, AllocError> {
        let new_name = name_with(runtime, name, ".new")?;
        let new_name = new_name.as_ref();
        let own = place_of(runtime, name)?;
        let new = place_of(runtime, new_name)?;
        Ok(Spot {
            is_foreign: is_foreign(runtime, name, head) || is_foreign(runtime, new_name, head),
            places: [own, new],
        })
    }
}

// Where the log of a database leads, if there is one.
fn place_of_log<R: ReadsFiles + AllocGlobal>(
    runtime: &R,
    database: Option<&Text>,
) -> Result<Place, AllocError> {
    let log = name_with(runtime, database, "-wal")?;
    place_of(runtime, log.as_ref())
}

// A name with an ending, if there is a name.
fn name_with<R: AllocGlobal>(
    runtime: &R,
    name: Option<&Text>,
    ending: &str,
) -> Result<Option<Text>, AllocError> {
    match name {
        Some(name) => {
            let name = name.as_str();
            let text = format!(in runtime.alloc(); "{name}{ending}")?;
            Ok(Some(Text { text }))
        }
        None => Ok(None),
    }
}

// The name of the file that a name leads to, if that is known: a book's log is next to it.
fn real_name<R: ReadsFiles + AllocGlobal>(
    runtime: &R,
    name: Option<&Text>,
) -> Result<Option<Text>, AllocError> {
    let Some(name) = name else {
        return Ok(None);
    };
    match runtime.canonicalize(runtime.alloc(), name.as_str()) {
        Ok(real) => Ok(Some(Text::from_str(runtime.alloc(), real.as_str())?)),
        Err(_) => Ok(None),
    }
}

// Where a name leads, if there is one.
fn place_of<R: ReadsFiles + AllocGlobal>(
    runtime: &R,
    name: Option<&Text>,
) -> Result<Place, AllocError> {
    let Some(name) = name else {
        return Ok(Place::Unknown);
    };
    let name = name.as_str();
    if let Ok(found) = runtime.metadata(name) {
        return Ok(Place::File {
            device: found.dev(),
            number: found.ino(),
        });
    }
    let (folder, last) = parts_of(name);
    match runtime.metadata(folder) {
        Ok(found) => Ok(Place::Free {
            device: found.dev(),
            number: found.ino(),
            name: Text::from_str(runtime.alloc(), last)?,
        }),
        Err(_) => Ok(Place::Unknown),
    }
}

// The folder of a name, and the name in it.
fn parts_of(name: &str) -> (&str, &str) {
    match name.rsplit_once('/') {
        Some(("", last)) => ("/", last),
        Some(parts) => parts,
        None => (".", name),
    }
}

// Whether a place of the first list is one of the second.
fn share_one(places: &[Place], others: &[Place]) -> bool
    ensures { IsTrue result ↔ SharesOne places.now others.now }
{
    for place in places {
        if is_among(others, place) {
            return true;
        }
    }
    false
}

// Whether a place is one of these.
fn is_among(others: &[Place], place: &Place) -> bool
    ensures { IsTrue result ↔ LeadsToSome others.now place.now }
{
    for other in others {
        if lead_to_one(place, other) {
            return true;
        }
    }
    false
}

// Whether two names lead to one file, or would.
fn lead_to_one(one: &Place, other: &Place) -> bool
    ensures { IsTrue result ↔ LeadsToOne one.now other.now }
{
    match (one, other) {
        (
            Place::File { device, number },
            Place::File {
                device: other_device,
                number: other_number,
            },
        ) => device == other_device && number == other_number,
        (
            Place::Free {
                device,
                number,
                name,
            },
            Place::Free {
                device: other_device,
                number: other_number,
                name: other_name,
            },
        ) => device == other_device && number == other_number && name == other_name,
        _ => false,
    }
}

// Whether something that the program did not write is at a name. It is foreign if it is not a
// regular file, begins otherwise and is not empty, or is a link that leads nowhere. A write that
// was cut short leaves a beginning of what the program writes.
fn is_foreign<R: ReadsFiles>(runtime: &R, name: Option<&Text>, head: &[u8]) -> bool {
    let Some(name) = name else {
        return false;
    };
    match runtime.metadata(name.as_str()) {
        Ok(found) if !found.is_file() => true,
        Ok(found) => found.len() > 0 && !begins_with(runtime, name.as_str(), head),
        Err(_) => runtime.symlink_metadata(name.as_str()).is_ok(),
    }
}

// Whether a file begins with `head`, or is a beginning of `head`.
fn begins_with<R: ReadsFiles>(runtime: &R, name: &str, head: &[u8]) -> bool {
    let Ok(mut reader) = runtime.open(name) else {
        return false;
    };
    let mut octets = [0; MOST_HEAD];
    match reader.read(&mut octets) {
        Ok(0) | Err(_) => false,
        Ok(read) => {
            let read = octets.get(..read).unwrap_or(&octets);
            read.starts_with(head) || head.starts_with(read)
        }
    }
}
