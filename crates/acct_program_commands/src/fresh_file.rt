//! A file that is rewritten from time to time.
ghost use Rattle.std.specs.Prelude.{◌≡◌, ◌↔◌, ℕ, List, IsTrue, IfOk, OnOk, Some, false, is_err};
ghost use Rattle.acct_program_commands.specs.Fresh.{IsDue, TellsTrouble};
ghost use Rattle.std.specs.Io.KnownBytes.{Appends};
ghost use Rattle.acct_program_commands.specs.Unwritten.{next_count, puts_after, rest_after};
ghost use Rattle.acct_program_commands.specs.Unwritten.{unwritten};

use crate::fault::Fault;
use crate::file_changes::ReplacesFiles;
use crate::replaced_name::ReplacedName;
use acct_model::Text;
use std::alloc::{AllocError, Global};
use std::io;
use std::io::Write;

/// The least seconds to the next write after one that took long.
const HOUR: u64 = 3600;

/// A file that is rewritten from time to time, each time as a whole. It is written under its name
/// with `.new` appended, and then renamed, so that every reader finds a whole file.
pub(crate) struct FreshFile {
    name: ReplacedName,
    mode: u32,
    // The least seconds between two writes: as asked, and as they are after the last one.
    seconds: u64,
    pause: u64,
    begun_at: Option<u64>,
    is_failing: bool,
    // How often a write was begun, and how often a file was put at the name, counted round and
    // round: no clause could else tell that one write opens one file, and puts it.
    begins: u64,
    puts: u64,
}

impl Drop for FreshFile {
    fn drop(self) {
        let FreshFile {
            name: _,
            mode: _,
            seconds: _,
            pause: _,
            begun_at: _,
            is_failing: _,
            begins: _,
            puts: _,
        } = self;
    }
}

impl FreshFile {
    /// A file that was not written yet, with its mode and the least seconds between two writes.
    pub(crate) fn new(
        alloc: Global,
        name: &Text,
        mode: u32,
        seconds: u64,
    ) -> Result<FreshFile, AllocError>
        ensures { IfOk result (λ file. file ≡ unwritten name.now mode seconds) }
    {
        Ok(FreshFile {
            name: ReplacedName::of(alloc, name)?,
            mode,
            seconds,
            pause: seconds,
            begun_at: None,
            is_failing: false,
            begins: 0,
            puts: 0,
        })
    }

    /// Whether the file is due at a moment, in seconds since 1970. It is due if it was never
    /// written, or if the last write began at least `pause` seconds away, whichever way the clock
    /// went.
    pub(crate) fn is_due(&self, moment: u64) -> bool
        ensures { IsTrue result ↔ IsDue self.now.pause self.now.begun_at moment }
    {
        match self.begun_at {
            None => true,
            Some(last) => moment.abs_diff(last) >= self.pause,
        }
    }

    /// Begins a write: opens the file that will replace it. That file gets its mode, whatever the
    /// program's umask is.
    ///
    /// # Errors
    ///
    /// Those of the system.
    pub(crate) fn begin<R: ReplacesFiles>(&mut self, runtime: &R) -> io::Result<R::Writer>
        ensures fresh { IfOk result (λ file. R.Writer.contents file ≡ R.fresh) }
        ensures counted { self.new ≡ record self.old { begins = next_count self.old.begins } }
    {
        self.begins = self.begins.wrapping_add(1);
        runtime.open_empty(&self.name, self.mode)
    }

    /// Ends a write: renames the new file over the old one.
    ///
    /// # Errors
    ///
    /// Those of the system.
    pub(crate) fn finish<R: ReplacesFiles>(
        &mut self,
        runtime: &R,
        file: R::Writer,
    ) -> io::Result<()>
        ensures put { OnOk result ((text : List ℕ)
            → Appends R.fresh (R.Writer.contents file) text → R.was_put self.old.name text) }
        ensures counted { self.new ≡ record self.old {
          puts = puts_after (is_err result) self.old.puts;
        } }
    {
        runtime.put_in_place(file, &self.name)?;
        self.puts = self.puts.wrapping_add(1);
        Ok(())
    }

    /// Notes when a write began, if it is known, whether it took long, and whether it succeeded.
    /// After one that took long the next one is due after an hour at the earliest. The first
    /// failure is printed, and no further one until a write succeeds.
    pub(crate) fn note<E: Write>(
        &mut self,
        begun_at: Option<u64>,
        is_long: bool,
        what: &'static str,
        written: Result<(), Fault>,
        errors: &mut E,
    ) -> io::Result<()>
        ensures noted { self.new ≡ record self.old {
          pause = rest_after is_long self.old.seconds;
          begun_at = begun_at;
          is_failing = is_err written;
        } }
        ensures tells { OnOk result (TellsTrouble self.old.is_failing what.now written
            (E.contents errors.old) (E.contents errors.new)) }
    {
        let was_failing = self.is_failing;
        self.begun_at = begun_at;
        self.pause = rest_after(is_long, self.seconds);
        self.is_failing = written.is_err();
        match written {
            Err(fault) if !was_failing => {
                writeln!(errors, "{what}: {fault}")?;
                errors.flush()
            }
            _ => Ok(()),
        }
    }
}

// The least seconds to the next write after one that took long or not.
fn rest_after(is_long: bool, seconds: u64) -> u64
    ensures { result ≡ rest_after is_long seconds }
{
    if is_long { seconds.max(HOUR) } else { seconds }
}
