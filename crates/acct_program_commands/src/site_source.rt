//! Polls a server's configuration while it runs.
ghost use Rattle.std.specs.Prelude.{◌≡◌, ◌∷◌, ◌<◌, ◌^◌, [], ℕ, List, Option};
ghost use Rattle.acct_service.specs.Told.{Grows};
ghost use Rattle.acct_program_commands.specs.Puts.{WasSeen};
ghost use Rattle.acct_program_commands.specs.Sights.{Poll};

use crate::fault::Fault;
use acct_model::Octets;
use acct_program::InputFault;
use std::alloc::Global;
use std::io::Write;

/// A text that is polled again and again, and the clock by which that is done.
pub trait SiteSource {
    /// The polls, the oldest first, if they are known.
    ghost polls: { Self → Option (List Poll) };

    /// What the clock said each time, the oldest first, if that is known.
    ghost moments: { Self → Option (List ℕ) };

    /// The name of the file that has the text, if it is one.
    ghost file: { Self → Option (List ℕ) };

    /// Reads the clock: seconds since 1970, 0 if it cannot be read.
    fn moment(&mut self) -> u64
        ensures bounded { result < 2 ^ 53 }
        ensures read { Grows (moments self.old) (result ∷ []) (moments self.new) }
        ensures unpolled { polls self.new ≡ polls self.old }
        ensures same { file self.new ≡ file self.old };

    /// Polls the text at a moment, in seconds since 1970. If it changed since the last poll,
    /// returns all its octets, or why they cannot be read.
    fn look(&mut self, alloc: Global, moment: u64) -> Option<Result<Octets, InputFault>>
        ensures polled { Grows (polls self.old)
            (record { moment = moment; sight = result } ∷ []) (polls self.new) }
        ensures unread { moments self.new ≡ moments self.old }
        ensures seen { WasSeen (file self.old) result }
        ensures same { file self.new ≡ file self.old };

    /// Prints more about why its last reading is no configuration, if it has more to say.
    fn explain<E: Write>(&self, _alloc: Global, _why: Fault, _errors: &mut E) {}
}
