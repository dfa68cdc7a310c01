//! The file of the configuration, which the server polls while it runs.
ghost use Rattle.std.specs.Prelude.{◌≡◌, ◌∷◌, ◌<◌, ◌^◌, [], None, IsSome, IsTrue, Some};
ghost use Rattle.acct_service.specs.Told.{Grows};
ghost use Rattle.acct_program_commands.specs.Puts.{WasSeen};
ghost use Rattle.acct_program_commands.specs.Sights.{Poll};
ghost use Rattle.acct_program_commands.specs.Looks.{LooksOnce};

use crate::book_names::FileNumber;
use crate::config_file::read_file;
use crate::site_source::SiteSource;
use acct_model::{Octets, Text};
use acct_program::InputFault;
use acct_reads::ReadsFiles;
use acct_service::moment_of;
use std::alloc::Global;
use std::os::unix::fs::MetadataExt;
use std::time::{Clock, SystemTime};

/// The file of a configuration. It counts as changed if it is another file, or if its modification
/// time, its length, its owner or its rights differ. It is polled at most once in a second.
#[derive(Drop)]
pub struct SiteFile<'a, R> {
    runtime: &'a R,
    name: &'a Text,
    seen: Option<Seen>,
    looked_at: Option<u64>,
}

// What the metadata of a file show.
#[derive(Clone, Copy, PartialEq, Eq)]
struct Seen {
    file: FileNumber,
    changed: Option<SystemTime>,
    length: u64,
    rights: Rights,
}

// Who may read a file.
#[derive(Clone, Copy, PartialEq, Eq)]
struct Rights {
    user: u32,
    group: u32,
    mode: u32,
}

impl<'a, R: ReadsFiles> SiteFile<'a, R> {
    /// The file of this name, with its metadata of now. Call it before the file is first read, so
    /// that no change is missed.
    pub fn new(runtime: &'a R, name: &'a Text) -> SiteFile<'a, R>
        ensures { result ≡ record {
          runtime = runtime.entry;
          name = name.entry;
          seen = result.seen;
          looked_at = None;
        } }
    {
        SiteFile {
            runtime,
            name,
            seen: see(runtime, name),
            looked_at: None,
        }
    }

    // Whether the file's metadata differ from those of the last poll.
    fn is_changed(&mut self, moment: u64) -> bool
        ensures { LooksOnce moment self.old self.new (IsTrue result) }
    {
        if self.looked_at == Some(moment) {
            return false;
        }
        self.looked_at = Some(moment);
        let seen = see(self.runtime, self.name);
        let is_changed = seen != self.seen;
        self.seen = seen;
        is_changed
    }
}

impl<'a, R: ReadsFiles + Clock> SiteSource for SiteFile<'a, R> {
    ghost polls = { λ _. None };

    ghost moments = { λ _. None };

    ghost file = { λ source. Some source.name.now };

    fn moment(&mut self) -> u64
        ensures bounded { result < 2 ^ 53 }
        ensures kept { self.new ≡ self.old }
    {
        moment_of(self.runtime)
    }

    fn look(&mut self, alloc: Global, moment: u64) -> Option<Result<Octets, InputFault>>
        ensures told { Grows {C = Poll} None (record { moment = moment; sight = result } ∷ []) None }
        ensures looked { LooksOnce moment self.old self.new (IsSome result) }
        ensures seen { WasSeen (Some self.old.name.now) result }
    {
        if !self.is_changed(moment) {
            return None;
        }
        Some(read_file(self.runtime, alloc, self.name))
    }
}

// The metadata of a file, if there is one.
fn see<R: ReadsFiles>(runtime: &R, name: &Text) -> Option<Seen> {
    match runtime.metadata(name.as_str()) {
        Ok(metadata) => Some(Seen {
            file: FileNumber::of(&metadata),
            changed: metadata.modified().ok(),
            length: metadata.len(),
            rights: Rights {
                user: metadata.uid(),
                group: metadata.gid(),
                mode: metadata.mode(),
            },
        }),
        Err(_) => None,
    }
}
