//! A server's exchange that logs, while the server runs, what it drops and how much it receives. It
//! also writes a file of its counts.
//!
//! 1. The first drop of a source and a reason is logged at once, and the next ones as `DropLog`
//!    says.
//! 2. Events are counted. The counts are printed at the first turn that is a minute or more after
//!    the first of them.
//! 3. The moment of a turn is that of its event, or the clock's if it has none. The clock is not
//!    read if nothing is logged or written.
//! 4. A line that cannot be written is lost, and changes nothing else.
ghost use Rattle.std.specs.Prelude.{◌≡◌, ◌++◌, ◌∷◌, [], ℕ, Option, OnOk, replicate, None, false};
ghost use Rattle.std.specs.Prelude.{◌<◌, ◌^◌, ◌+◌, ◌-◌, IfOk, Some, is_ok, option_map, true};
ghost use Rattle.std.specs.Io.KnownBytes.{Appends};
ghost use Rattle.acct_service.specs.Told.{CountsFault, Grows, given, sent, drop_told};
ghost use Rattle.acct_program_commands.specs.Told.{WritesDrop, minute_text};
ghost use Rattle.acct_program_commands.specs.Tally.{no_tally, with_mute, with_came, with_reply, with_drop};
ghost use Rattle.acct_program_commands.specs.Tally.{is_event};
ghost use Rattle.acct_program_commands.specs.Counted.{CountsAs, with_turn, with_answer, with_refusal};
ghost use Rattle.acct_program_commands.specs.Minutes.{Begins, CountsMinute, IsMomentOf, IsOver};
ghost use Rattle.acct_program_commands.specs.Minutes.{WatchesTurn, WatchesReply, WatchesDrop};
ghost use Rattle.acct_program_commands.specs.Last.{TellsLast, WritesLast};
ghost use Rattle.acct_program_commands.specs.inner.ToldDrops.{TellsOf};

use crate::drop_log::DropLog;
use crate::file_changes::ReplacesFiles;
use crate::status_file::StatusFile;
use crate::tally::{Meter, Tally};
use crate::told::{Minute, ToldDrop};
use acct_service::{Event, Exchange, Fault, What, moment_of};
use acct_wire::Reason;
use std::io;
use std::io::Write;
use std::time::Clock;

/// For how many seconds events are counted before the counts are printed.
const MINUTE: u64 = 60;

/// What is logged to a writer while a server runs.
pub struct Watch<W: Write> {
    writer: W,
    log: DropLog,
    meter: Meter,
    began_at: u64,
}

impl<W: Write + Drop> Drop for Watch<W> {
    fn drop(self) {
        let Watch {
            writer: _,
            log: _,
            meter: _,
            began_at: _,
        } = self;
    }
}

impl<W: Write> Watch<W> {
    /// A watch that has logged nothing. It allocates no memory.
    pub fn new(writer: W) -> Watch<W>
        ensures { result ≡ record {
          writer = writer;
          log = replicate 256 None;
          meter = record { tally = no_tally; is_unanswered = false };
          began_at = 0;
        } }
    {
        Watch {
            writer,
            log: DropLog::new(),
            meter: Meter::new(),
            began_at: 0,
        }
    }

    // Counts a turn at a moment. First prints the counts before it, if their minute is over.
    fn note_turn(&mut self, came: &Result<Option<Event>, Fault>, moment: u64)
        ensures counts { CountsMinute came.now moment self.old self.new }
        ensures silent { ¬ IsOver (with_mute self.old.meter.is_unanswered self.old.meter.tally)
            self.old.began_at moment → self.new.writer ≡ self.old.writer }
        ensures begins { let counted = with_mute self.old.meter.is_unanswered self.old.meter.tally
            in Begins counted self.old.began_at moment → self.new.began_at ≡ moment }
        ensures began { let counted = with_mute self.old.meter.is_unanswered self.old.meter.tally
            in ¬ Begins counted self.old.began_at moment
            → self.new.began_at ≡ self.old.began_at }
    {
        self.meter.note_mute();
        if self.meter.tally != Tally::none() && moment.abs_diff(self.began_at) >= MINUTE {
            let _ = self.tell_minute();
        }
        if self.meter.tally == Tally::none() {
            self.began_at = moment;
        }
        self.meter.note_came(came);
    }

    // Counts a reply, which was taken or not.
    fn note_reply(&mut self, is_taken: bool)
        ensures counts { self.new.meter.tally ≡ with_reply is_taken self.old.meter.tally }
        ensures answered { self.new.meter.is_unanswered ≡ false }
        ensures log { self.new.log ≡ self.old.log }
    {
        self.meter.note_reply(is_taken);
    }

    // Counts a drop, and logs it if it is due.
    fn note_drop(&mut self, event: &Event, reason: Reason) -> io::Result<()>
        ensures counts { self.new.meter.tally ≡ with_drop self.old.meter.tally }
        ensures answered { self.new.meter.is_unanswered ≡ false }
        ensures tells { OnOk result (TellsOf event.now.what reason event.now.moment self.old.log
            self.new.log (W.contents self.old.writer) (W.contents self.new.writer)) }
    {
        self.meter.note_drop();
        match &event.what {
            What::Datagram { source, port, .. } => write_drop(
                &mut self.writer,
                &mut self.log,
                *source,
                *port,
                reason,
                event.moment,
            ),
            What::Desk { .. } => Ok(()),
        }
    }

    // Prints what was counted since it was last printed.
    fn tell_minute(&mut self) -> io::Result<()>
        ensures counts { self.new ≡ record self.old {
          writer = self.new.writer;
          meter = record self.old.meter { tally = no_tally };
        } }
        ensures tells { OnOk result (Appends (W.contents self.old.writer)
            (W.contents self.new.writer) (minute_text self.old.meter.tally ++ 10 ∷ [])) }
    {
        let tally = self.meter.tally;
        self.meter.tally = Tally::none();
        write_minute(&mut self.writer, &Minute { tally })
    }

    // The writer.
    fn into_writer(self) -> W
        ensures { result ≡ self.writer }
    {
        let Watch {
            writer,
            log: _,
            meter: _,
            began_at: _,
        } = self;
        writer
    }

    // Prints the remaining counts at the end.
    fn tell_last(&mut self) -> io::Result<()>
        ensures { TellsLast W.contents result (Some self.old) (Some self.new) }
    {
        self.meter.note_mute();
        if self.meter.tally == Tally::none() {
            return Ok(());
        }
        self.tell_minute()
    }
}

// Writes the counts of a server at the end, if they are written.
fn write_last<'r, R: ReplacesFiles, E: Write>(status: &mut Option<StatusFile<'r, R, E>>)
    ensures { WritesLast R.was_put status.old status.new }
{
    if let Some(status) = status {
        status.write_last();
    }
}

// Prints the remaining counts at the end, if counts are printed.
fn tell_last<W: Write>(watch: &mut Option<Watch<W>>) -> io::Result<()>
    ensures { TellsLast W.contents result watch.old watch.new }
{
    match watch {
        Some(watch) => watch.tell_last(),
        None => Ok(()),
    }
}

// Logs a drop at a moment, if it is due.
fn write_drop<W: Write>(
    writer: &mut W,
    log: &mut DropLog,
    source: [u8; 4],
    port: u16,
    reason: Reason,
    moment: u64,
) -> io::Result<()>
    ensures { OnOk result ((more : Option ℕ) × WritesDrop log.old log.new source port reason moment
        (W.contents writer.old) (W.contents writer.new) more) }
{
    let Some(more) = log.note(source, reason, moment) else {
        return Ok(());
    };
    let drop = ToldDrop {
        reason,
        source,
        port,
        more,
    };
    writeln!(writer, "{drop}")?;
    writer.flush()
}

// Prints what was counted.
fn write_minute<W: Write>(writer: &mut W, minute: &Minute) -> io::Result<()>
    ensures { OnOk result (Appends (W.contents writer.old) (W.contents writer.new)
        (minute_text minute.now.tally ++ 10 ∷ [])) }
{
    writeln!(writer, "{minute}")?;
    writer.flush()
}

// The moment of a turn: that of its event, or the clock's if there is none.
fn moment_of_turn<R: Clock>(clock: &R, came: &Result<Option<Event>, Fault>) -> u64
    ensures within { result < 2 ^ 53 }
    ensures event { IsMomentOf came.now result }
{
    match came {
        Ok(Some(event)) => event.moment,
        _ => moment_of(clock),
    }
}

/// An exchange that passes each call on to another one. It logs what is dropped and how much is
/// received, if it has a writer. It writes a file of its counts, if it has one. Its turns, its
/// faults and the list of its calls are those of the other one.
pub struct Watched<'r, R, X: Exchange, W: Write, E: Drop> {
    clock: &'r R,
    exchange: X,
    watch: Option<Watch<W>>,
    status: Option<StatusFile<'r, R, E>>,
}

impl<'r, R, X: Exchange + Drop, W: Write + Drop, E: Drop> Drop for Watched<'r, R, X, W, E> {
    fn drop(self) {
        let Watched {
            clock: _,
            exchange: _,
            watch: _,
            status: _,
        } = self;
    }
}

impl<'r, R: Clock + ReplacesFiles, X: Exchange, W: Write, E: Write + Drop> Watched<'r, R, X, W, E> {
    /// A watched exchange. If it has neither a watch nor a file, it only passes calls on.
    pub fn new(
        clock: &'r R,
        exchange: X,
        watch: Option<Watch<W>>,
        status: Option<StatusFile<'r, R, E>>,
    ) -> Watched<'r, R, X, W, E>
        ensures turns { ⟦<Watched<'r, R, X, W, E> as Exchange>⟧.turn_count result
            ≡ X.turn_count exchange }
        ensures failures { ⟦<Watched<'r, R, X, W, E> as Exchange>⟧.failure_count result
            ≡ X.failure_count exchange }
        ensures told { ⟦<Watched<'r, R, X, W, E> as Exchange>⟧.told result ≡ X.told exchange }
        ensures whole { result ≡ record {
          clock = clock.entry;
          exchange = exchange;
          watch = watch;
          status = status.entry;
        } }
    {
        Watched {
            clock,
            exchange,
            watch,
            status,
        }
    }

    /// Prints and writes the remaining counts.
    pub fn finish(mut self) -> Finished<'r, R, X, W, E>
        ensures exchange { result.watched.exchange ≡ self.entry.exchange }
        ensures writes { WritesLast R.was_put self.entry.status result.watched.status }
        ensures prints { TellsLast W.contents result.printed self.entry.watch result.watched.watch }
    {
        write_last(&mut self.status);
        let printed = tell_last(&mut self.watch);
        Finished {
            watched: self,
            printed,
        }
    }

    // The exchange, and the writer of what was watched.
    fn into_parts(self) -> (X, Option<W>)
        ensures exchange { result.0 ≡ self.entry.exchange }
        ensures writer { result.1 ≡ option_map (λ watch. watch.writer) self.entry.watch }
    {
        let Watched {
            clock: _,
            exchange,
            watch,
            status: _,
        } = self;
        match watch {
            Some(watch) => (exchange, Some(watch.into_writer())),
            None => (exchange, None),
        }
    }
}

/// A watched exchange whose last counts were printed and written. Only `Watched::finish` makes one.
#[derive(Drop)]
pub struct Finished<'r, R, X: Exchange, W: Write, E: Drop> {
    watched: Watched<'r, R, X, W, E>,
    /// Whether the last counts could be printed.
    pub printed: io::Result<()>,
}

impl<'r, R: Clock + ReplacesFiles, X: Exchange, W: Write, E: Write + Drop> Finished<
    'r,
    R,
    X,
    W,
    E,
> {
    /// The exchange, and the writer of what was watched.
    pub fn into_parts(self) -> (X, Option<W>)
        ensures exchange { result.0 ≡ self.entry.watched.exchange }
        ensures writer { result.1 ≡ option_map (λ watch. watch.writer) self.entry.watched.watch }
    {
        self.watched.into_parts()
    }
}

impl<'r, R: Clock + ReplacesFiles, X: Exchange, W: Write, E: Write + Drop> Exchange
    for Watched<'r, R, X, W, E> {
    ghost turn_count = { λ w. X.turn_count w.exchange };

    ghost failure_count = { λ w. X.failure_count w.exchange };

    ghost told = { λ w. X.told w.exchange };

    fn next(&mut self, is_silent: bool) -> Result<Option<Event>, Fault>
        requires turns { X.turn_count self.old.exchange < 2 ^ 64 - 1 }
        requires failures { X.failure_count self.old.exchange < 2 ^ 64 - 1 }
        ensures turns { X.turn_count self.new.exchange ≡ X.turn_count self.old.exchange + 1 }
        ensures failures { CountsFault result (X.failure_count self.old.exchange)
            (X.failure_count self.new.exchange) }
        ensures silent { is_silent ≡ true → IfOk result (λ event. event ≡ None) }
        ensures told { Grows (X.told self.old.exchange) (given result) (X.told self.new.exchange) }
        ensures counts { CountsAs (with_turn result) self.old.status self.new.status }
        ensures watches { (moment : ℕ) × IsMomentOf result moment
            × WatchesTurn result moment self.old.watch self.new.watch }
    {
        let came = self.exchange.next(is_silent);
        if self.watch.is_none() && self.status.is_none() {
            return came;
        }
        let moment = moment_of_turn(self.clock, &came);
        if let Some(watch) = &mut self.watch {
            watch.note_turn(&came, moment);
        }
        if let Some(status) = &mut self.status {
            status.note_turn(&came, moment);
        }
        came
    }

    fn reply(&mut self, event: &Event, bytes: &[u8]) -> Result<(), Fault>
        requires failures { X.failure_count self.old.exchange < 2 ^ 64 - 1 }
        ensures turns { X.turn_count self.new.exchange ≡ X.turn_count self.old.exchange }
        ensures failures { CountsFault result (X.failure_count self.old.exchange)
            (X.failure_count self.new.exchange) }
        ensures told { Grows (X.told self.old.exchange) (sent event.now bytes.now result)
            (X.told self.new.exchange) }
        ensures counts { CountsAs (with_answer event.now.what (is_ok result)) self.old.status
            self.new.status }
        ensures watches { WatchesReply (is_ok result) self.old.watch self.new.watch }
    {
        let sent = self.exchange.reply(event, bytes);
        if let Some(watch) = &mut self.watch {
            watch.note_reply(sent.is_ok());
        }
        if let Some(status) = &mut self.status {
            status.note_reply(event, sent.is_ok());
        }
        sent
    }

    fn note_drop(&mut self, event: &Event, reason: Reason)
        ensures turns { X.turn_count self.new.exchange ≡ X.turn_count self.old.exchange }
        ensures failures { X.failure_count self.new.exchange ≡ X.failure_count self.old.exchange }
        ensures told { Grows (X.told self.old.exchange) (drop_told event.now reason)
            (X.told self.new.exchange) }
        ensures counts { CountsAs (with_refusal reason) self.old.status self.new.status }
        ensures watches { WatchesDrop self.old.watch self.new.watch }
    {
        self.exchange.note_drop(event, reason);
        if let Some(watch) = &mut self.watch {
            let _ = watch.note_drop(event, reason);
        }
        if let Some(status) = &mut self.status {
            status.note_drop(reason);
        }
    }

    fn turns(&self) -> u64 {
        self.exchange.turns()
    }

    fn failures(&self) -> u64 {
        self.exchange.failures()
    }
}
