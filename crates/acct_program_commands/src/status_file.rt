//! The file of a server's counts since its start, for a metrics collector, in the text format of
//! Prometheus.
//!
//! It is written before the first turn's event is counted, then at the next turn after ten seconds
//! or more, and at the end. A failed write changes nothing else. It is printed once, until a write
//! succeeds again.
ghost use Rattle.std.specs.Prelude.{◌≡◌, ◌^◌, ◌<◌, false, IfOk, OnOk, is_err, replicate};
ghost use Rattle.acct_reads.specs.Log.{IsLogOf};
ghost use Rattle.acct_program_commands.specs.Fresh.{IsDue};
ghost use Rattle.acct_program_commands.specs.Placed.{PutsFigures};
ghost use Rattle.acct_program_commands.specs.Unwritten.{next_count, puts_after, unwritten};
ghost use Rattle.acct_program_commands.specs.Unwritten.{IsBegun, Rewrites};
ghost use Rattle.acct_program_commands.specs.Tally.{no_tally};
ghost use Rattle.acct_program_commands.specs.Counted.{CountsAs, figures_of, muted, with_turn};
ghost use Rattle.acct_program_commands.specs.Counted.{with_answer, with_refusal};

use crate::fault::Fault as Trouble;
use crate::figures::{Figures, State, write_figures};
use crate::file_changes::ReplacesFiles;
use crate::fresh_file::FreshFile;
use crate::gauges::Gauges;
use crate::tally::{Arrivals, Meter};
use acct_model::Text;
use acct_reads::{ReadsFiles, log_name};
use acct_service::{Event, Fault, What};
use acct_wire::Reason;
use std::alloc::{AllocError, Global};
use std::io::{BufWriter, Write};

/// For how many seconds the file stays unchanged after a write.
const PAUSE: u64 = 10;
/// Everyone may read it.
const MODE: u32 = 0o644;

/// The file of a server's counts. A failed write is printed on a writer.
pub struct StatusFile<'r, R, E> {
    runtime: &'r R,
    alloc: Global,
    file: FreshFile,
    meter: Meter,
    dropped: [u64; Reason::COUNT],
    started_at: u64,
    last_event_at: u64,
    datagrams: Arrivals,
    reports: u64,
    requests: Arrivals,
    state: StateSource<'r, R>,
    errors: E,
}

impl<'r, R, E: Drop> Drop for StatusFile<'r, R, E> {
    fn drop(self) {
        let StatusFile {
            runtime: _,
            alloc: _,
            file: _,
            meter: _,
            dropped: _,
            started_at: _,
            last_event_at: _,
            datagrams: _,
            reports: _,
            requests: _,
            state: _,
            errors: _,
        } = self;
    }
}

/// Where the state of a server is read: its gauges, and the files of its book.
pub struct StateSource<'r, R> {
    runtime: &'r R,
    gauges: &'r Gauges,
    book: Text,
    log: Text,
}

impl<'r, R> Drop for StateSource<'r, R> {
    fn drop(self) {
        let StateSource {
            runtime: _,
            gauges: _,
            book: _,
            log: _,
        } = self;
    }
}

impl<'r, R: ReadsFiles> StateSource<'r, R> {
    /// The state of a server that has these gauges and the book in this file. The log is beside the
    /// file to which the book's name leads.
    pub fn new(
        runtime: &'r R,
        alloc: Global,
        gauges: &'r Gauges,
        book: &Text,
    ) -> Result<StateSource<'r, R>, AllocError>
        ensures book { IfOk result (λ state. state.book ≡ book.now) }
        ensures log { IfOk result (λ state. IsLogOf R.leads_to book.now state.log) }
        ensures gauges { IfOk result (λ state. state.gauges ≡ gauges.entry) }
    {
        Ok(StateSource {
            runtime,
            gauges,
            book: book.copy(alloc)?,
            log: Text {
                text: log_name(runtime, alloc, book.as_str())?,
            },
        })
    }

    // The state as it is now.
    fn read(&self) -> State {
        State {
            is_current: self.gauges.is_current(),
            has_book: !self.gauges.is_away(),
            balances: self.gauges.balances(),
            book_octets: octets_of(self.runtime, &self.book),
            log_octets: octets_of(self.runtime, &self.log),
        }
    }
}

// How many octets a file has, if that is known.
fn octets_of<R: ReadsFiles>(runtime: &R, file: &Text) -> Option<u64> {
    match runtime.metadata(file.as_str()) {
        Ok(found) => Some(found.len()),
        Err(_) => None,
    }
}

impl<'r, R: ReplacesFiles, E: Write> StatusFile<'r, R, E> {
    /// A file that is not written yet, of a server that starts at this moment, in seconds since
    /// 1970.
    pub fn new(
        runtime: &'r R,
        alloc: Global,
        name: &Text,
        started_at: u64,
        state: StateSource<'r, R>,
        errors: E,
    ) -> Result<StatusFile<'r, R, E>, AllocError>
    where
        E: Drop,
        ensures { IfOk result (λ status. status ≡ record {
          runtime = runtime.entry;
          alloc = alloc;
          file = unwritten name.now MODE PAUSE;
          meter = record { tally = no_tally; is_unanswered = false };
          dropped = replicate Reason.COUNT 0;
          started_at = started_at;
          last_event_at = 0;
          datagrams = record { count = 0; last_at = 0 };
          reports = 0;
          requests = record { count = 0; last_at = 0 };
          state = state.entry;
          errors = errors;
        }) }
    {
        Ok(StatusFile {
            runtime,
            alloc,
            file: FreshFile::new(alloc, name, MODE, PAUSE)?,
            meter: Meter::new(),
            dropped: [0; Reason::COUNT],
            started_at,
            last_event_at: 0,
            datagrams: Arrivals::none(),
            reports: 0,
            requests: Arrivals::none(),
            state,
            errors,
        })
    }

    /// The counts so far.
    pub fn figures(&self) -> Figures
        ensures { result ≡ figures_of self.now result.state }
    {
        Figures {
            tally: self.meter.tally,
            dropped: self.dropped,
            started_at: self.started_at,
            last_event_at: self.last_event_at,
            datagrams: self.datagrams,
            reports: self.reports,
            requests: self.requests,
            state: self.state.read(),
        }
    }

    // Writes the counts before a turn if the file is due at this moment, and then counts the turn.
    pub(crate) fn note_turn(&mut self, came: &Result<Option<Event>, Fault>, moment: u64)
        ensures counts { CountsAs (with_turn came.now) (Some self.old) (Some self.new) }
        ensures due { IsDue self.old.file.pause self.old.file.begun_at moment
            → Rewrites false (λ name. (state : State) × PutsFigures (R.was_put name)
            (figures_of (muted self.old) state)) moment self.old.file self.new.file }
        ensures idle { ¬ IsDue self.old.file.pause self.old.file.begun_at moment
            → self.new.file ≡ self.old.file }
    {
        self.meter.note_mute();
        self.write_if_due(moment);
        self.meter.note_came(came);
        if let Ok(Some(event)) = came {
            self.last_event_at = event.moment;
            match &event.what {
                What::Datagram { .. } => self.datagrams = self.datagrams.and_at(event.moment),
                What::Desk { .. } => self.requests = self.requests.and_at(event.moment),
            }
        }
    }

    // Counts a reply to an event, which was taken or not.
    pub(crate) fn note_reply(&mut self, event: &Event, is_taken: bool)
        ensures { self.new ≡ with_answer event.now.what is_taken self.old }
    {
        self.meter.note_reply(is_taken);
        match &event.what {
            What::Datagram { .. } => self.reports = self.reports.saturating_add(1),
            What::Desk { .. } => {}
        }
    }

    // Counts a drop.
    pub(crate) fn note_drop(&mut self, reason: Reason)
        ensures { self.new ≡ with_refusal reason self.old }
    {
        self.meter.note_drop();
        let place = reason.place();
        self.dropped[place] = self.dropped[place].saturating_add(1);
    }

    // Writes the counts if the file is due at this moment.
    fn write_if_due(&mut self, moment: u64)
        ensures due { IsDue self.old.file.pause self.old.file.begun_at moment
            → Rewrites false (λ name. (state : State) × PutsFigures (R.was_put name)
            (figures_of self.old state)) moment self.old.file self.new.file }
        ensures idle { ¬ IsDue self.old.file.pause self.old.file.begun_at moment
            → self.new.file ≡ self.old.file }
        ensures other { self.new ≡ record self.old {
          file = self.new.file;
          errors = self.new.errors;
        } }
    {
        if self.file.is_due(moment) {
            self.write(Some(moment));
        }
    }

    // Writes the counts at a moment, if it is known, or prints why it cannot.
    fn write(&mut self, moment: Option<u64>)
        ensures file { IsBegun false moment self.old.file self.new.file }
        ensures put { self.new.file.is_failing ≡ false → (state : State)
            × PutsFigures (R.was_put self.old.file.name) (figures_of self.old state) }
        ensures other { self.new ≡ record self.old {
          file = self.new.file;
          errors = self.new.errors;
        } }
    {
        let figures = self.figures();
        let written = write_file(self.runtime, self.alloc, &mut self.file, &figures);
        let _ = self
            .file
            .note(moment, false, "status", written, &mut self.errors);
    }

    // Writes the counts at the end.
    pub(crate) fn write_last(&mut self)
        ensures file { IsBegun false None self.old.file self.new.file }
        ensures put { self.new.file.is_failing ≡ false → (state : State)
            × PutsFigures (R.was_put self.old.file.name) (figures_of (muted self.old) state) }
        ensures counts { CountsAs muted (Some self.old) (Some self.new) }
    {
        self.meter.note_mute();
        self.write(None);
    }
}

// Writes the counts into a file.
fn write_file<R: ReplacesFiles>(
    runtime: &R,
    alloc: Global,
    file: &mut FreshFile,
    figures: &Figures,
) -> Result<(), Trouble>
    ensures put { OnOk result (PutsFigures (R.was_put file.old.name) figures.now) }
    ensures counted { file.new ≡ record file.old {
      begins = next_count file.old.begins;
      puts = puts_after (is_err result) file.old.puts;
    } }
{
    let mut writer = BufWriter::new(alloc, file.begin(runtime)?)?;
    write_figures(&mut writer, figures)?;
    let Ok(written) = writer.into_inner() else {
        return Err(Trouble::CannotWrite);
    };
    file.finish(runtime, written)?;
    Ok(())
}
