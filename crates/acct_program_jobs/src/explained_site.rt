//! The file of the configuration, and what `--explain` adds if a server refuses it while it runs.
ghost use Rattle.std.specs.Prelude.{◌≡◌, ◌∷◌, ◌<◌, ◌^◌, [], None, IsSome, Some};
ghost use Rattle.acct_service.specs.Told.{Grows};
ghost use Rattle.acct_program_commands.specs.Puts.{WasSeen};
ghost use Rattle.acct_program_commands.specs.Sights.{Poll};
ghost use Rattle.acct_program_commands.specs.Looks.{LooksOnce};

use acct_model::{Octets, Text};
use acct_program::InputFault;
use acct_program_commands::{Fault, SiteFile, SiteSource};
use acct_program_explain::{Explained, explain};
use acct_reads::ReadsFiles;
use std::alloc::Global;
use std::io::Write;
use std::time::Clock;

/// The file of a configuration. It explains why its text is no configuration, if that is asked for.
#[derive(Drop)]
pub(crate) struct ExplainedSite<'a, R> {
    runtime: &'a R,
    name: &'a Text,
    file: SiteFile<'a, R>,
    explains: bool,
}

impl<'a, R: ReadsFiles> ExplainedSite<'a, R> {
    /// The file of this name, as `SiteFile::new` has it.
    pub(crate) fn new(runtime: &'a R, name: &'a Text, explains: bool) -> ExplainedSite<'a, R>
        ensures file { result.file.name ≡ name.entry }
        ensures explained { (result.name ≡ name.entry) × (result.explains ≡ explains) }
    {
        ExplainedSite {
            runtime,
            name,
            file: SiteFile::new(runtime, name),
            explains,
        }
    }
}

impl<'a, R: ReadsFiles + Clock> SiteSource for ExplainedSite<'a, R> {
    ghost polls = { λ _. None };

    ghost moments = { λ _. None };

    ghost file = { λ source. Some source.file.name.now };

    fn moment(&mut self) -> u64
        ensures bounded { result < 2 ^ 53 }
        ensures kept { self.new ≡ self.old }
    {
        self.file.moment()
    }

    fn look(&mut self, alloc: Global, moment: u64) -> Option<Result<Octets, InputFault>>
        ensures told { Grows {C = Poll} None (record { moment = moment; sight = result } ∷ []) None }
        ensures kept { self.new ≡ record self.old { file = self.new.file } }
        ensures looked { LooksOnce moment self.old.file self.new.file (IsSome result) }
        ensures seen { WasSeen (Some self.old.file.name.now) result }
    {
        self.file.look(alloc, moment)
    }

    fn explain<E: Write>(&self, alloc: Global, why: Fault, errors: &mut E) {
        if !self.explains {
            return;
        }
        let file = self.name;
        let what = match why {
            Fault::Config(error) => Explained::Config { file, error },
            Fault::CannotRead => Explained::Unread { file },
            _ => return,
        };
        explain(self.runtime, alloc, what, errors);
        let _ = errors.flush();
    }
}
