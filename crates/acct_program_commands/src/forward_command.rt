//! `forward`: carries old sessions forward.
//!
//! It goes over the accounts up to three times. The first pass only reads: it counts what would be
//! carried, and looks for a session that was heard of lately. If open sessions may be carried, the
//! second one prints these: a clock that may be wrong prints none. The last one carries.
ghost use Rattle.std.specs.Prelude.{◌≡◌, ◌≢◌, ◌↔◌, ◌⊎◌, ◌≤◌, ◌<◌, ◌+◌, ◌*◌, ◌^◌, true};
ghost use Rattle.std.specs.Prelude.{IfErr, IfOk, IfSome, IsTrue, OnOk, Ok, Some, List, ℕ};
ghost use Rattle.std.specs.Prelude.{false, flat_map, string_bytes};
ghost use Rattle.std.specs.Io.KnownBytes.{Appends};
ghost use Rattle.acct_model.specs.Shown.{shown};
ghost use Rattle.acct_book.specs.Row.{RowFacts};
ghost use Rattle.acct_book.specs.Step.{Looks};
ghost use Rattle.acct_book.specs.Step.{OnlyLooks};
ghost use Rattle.acct_book.specs.Walk.{AreRowsOf};
ghost use Rattle.acct_book_forward.specs.Carrying.{CarriesOn, CountsUpTo, HasRoom, IsTallyOf};
ghost use Rattle.acct_book_forward.specs.Carrying.{stay_of, with_stay};
ghost use Rattle.acct_program_commands.specs.Forwarding.{selected, Forwards, LieBack, LieFarBack};
ghost use Rattle.acct_program_commands.specs.Forwarding.{LiesFarBack, IsHeardAt, IsHeardOf};
ghost use Rattle.acct_program_commands.specs.Forwarding.{IsHeardIn, Agrees, MayCarry};
ghost use Rattle.acct_program_commands.specs.Forwarding.{IsClockFault, IsCutoffFault};
ghost use Rattle.acct_program_commands.specs.Forwarding.{IsForwardFault, IsListFault};
ghost use Rattle.acct_program_commands.specs.Survey.{CountsAll, Lists, RunsForward};
ghost use Rattle.acct_program_commands.specs.Survey.{session_line, stay_line, totals_text};
ghost use Rattle.acct_program_commands.specs.inner.Sums.{AddsUp, as_carried, no_sessions};
ghost use Rattle.acct_program_commands.specs.inner.Surveyed.{IsNextAccount, carried_of};
ghost use Rattle.acct_program_commands.specs.inner.Surveyed.{found_text, row_text};

use crate::book_clock::ClockReading;
use crate::fault::Fault;
use acct_book::{Book, Row, SessionState, Unavailable};
use acct_book_forward::{Selection, Tally, carry_account, is_line};
use acct_model::{Plans, Text, show};
use acct_program::Status;
use acct_program_args::{Carrying, Cutoff, seconds_in};
use std::alloc::{AllocError, Global};
use std::io;
use std::io::Write;

/// The seconds of a day.
const DAY: u64 = 86_400;
/// How many days back a moment of `--at` must be at least.
const FEWEST_DAYS: u64 = 30;
/// How many seconds the clock may be past the last change of the files.
const IDLE: u64 = 7 * DAY;
/// How many seconds ago a session was heard of at least that tells what the moment is: one of now
/// may be of a clock that has just jumped.
const LATEST: u64 = DAY;
/// How many seconds ago it was heard of at most: the clock may have jumped since.
const EARLIEST: u64 = 8 * DAY;
/// After how many accounts a progress line is printed.
const STEP: u64 = 1_000;

/// What became of the sessions of all accounts.
#[derive(Clone, Copy, PartialEq, Eq, Debug)]
pub struct Totals {
    /// How many accounts there are.
    pub accounts: u64,
    /// Of how many accounts sessions were carried.
    pub touched: u64,
    /// The sessions, added up.
    pub sessions: Tally,
    /// Whether some session was heard of between 1 and 8 days ago.
    pub is_heard: bool,
}

impl Totals {
    fn new() -> Totals
        ensures heard { result.is_heard ≡ false }
        ensures sums { (result.accounts ≡ 0) × (result.touched ≡ 0)
            × (result.sessions ≡ no_sessions) }
    {
        Totals {
            accounts: 0,
            touched: 0,
            sessions: Tally {
                carried: 0,
                of_kept: 0,
                still_open: 0,
                recent: 0,
                too_large: 0,
            },
            is_heard: false,
        }
    }

    // Adds an account.
    fn add(&mut self, tally: &Tally)
        ensures heard { self.new.is_heard ≡ self.old.is_heard }
        ensures sums { AddsUp self.old.accounts self.new.accounts self.old.touched
            self.new.touched self.old.sessions self.new.sessions tally.now }
    {
        self.accounts = self.accounts.saturating_add(1);
        if tally.carried > 0 {
            self.touched = self.touched.saturating_add(1);
        }
        let sum = &mut self.sessions;
        sum.carried = sum.carried.saturating_add(tally.carried);
        sum.of_kept = sum.of_kept.saturating_add(tally.of_kept);
        sum.still_open = sum.still_open.saturating_add(tally.still_open);
        sum.recent = sum.recent.saturating_add(tally.recent);
        sum.too_large = sum.too_large.saturating_add(tally.too_large);
    }

    // Adds an account whose sessions are only counted: those that may be carried, as if each
    // fitted.
    fn add_seen(&mut self, seen: &Seen)
        ensures heard { self.new.is_heard ≡ seen.now.is_heard }
        ensures sums { AddsUp self.old.accounts self.new.accounts self.old.touched
            self.new.touched self.old.sessions self.new.sessions (as_carried seen.now.tally) }
    {
        let tally = seen.tally;
        self.add(&Tally {
            carried: tally.too_large,
            too_large: 0,
            ..tally
        });
        self.is_heard = seen.is_heard;
    }
}

// How the first pass looks at an account.
#[derive(Clone, Copy)]
struct Looking<'a> {
    alloc: Global,
    selection: &'a Selection,
    clock: ClockReading,
    // Whether somebody confirmed the clock.
    is_sure: bool,
    // Whether it prints each open session that would be carried.
    lists_open: bool,
}

// What it saw of an account, and whether some session so far was heard of between 1 and 8 days ago.
#[derive(Clone, Copy)]
struct Seen {
    tally: Tally,
    is_heard: bool,
}

impl Seen {
    // Adds a session.
    fn add(&mut self, selection: &Selection, row: &Row, moment: u64)
        ensures heard { IsTrue self.new.is_heard
            → IsTrue self.old.is_heard ⊎ IsHeardAt selection.now row.now moment }
        ensures counts { HasRoom self.old.tally
            → self.new.tally ≡ with_stay (stay_of selection.now row.now) self.old.tally }
    {
        self.tally.add(selection, row);
        if is_heard_at(selection, row, moment) {
            self.is_heard = true;
        }
    }
}

// Whether a session was last heard of between 1 and 8 days before a moment. A line is none: its
// moment is that of a run of this command, and not of a report. Nor is a session of a client whose
// sessions stay: these may be no devices.
fn is_heard_at(selection: &Selection, row: &Row, moment: u64) -> bool
    ensures { IsTrue result ↔ IsHeardAt selection.now row.now moment }
{
    let client = row.client.as_str();
    if is_line(client) || selection.is_kept(client) {
        return false;
    }
    match moment.checked_sub(row.last) {
        Some(age) => age >= LATEST && age <= EARLIEST,
        None => false,
    }
}

/// Carries the requested sessions of a book forward, at a moment, in seconds since 1970. Prints how
/// many sessions of how many accounts were carried, and how many stay and why. Prints each open
/// session that is carried. A dry run only prints what it would do. `progress` gets a line now and
/// then.
///
/// # Errors
///
/// `Store` if the book fails. `CutoffTooLate` if the cutoff is less than 30 days back.
/// `CutoffInReach` if it is less than `oldest_report` days back. If the arguments do not confirm the
/// clock, and sessions would be carried: `ClockAhead` if no session was last heard of between 1 and 8
/// days ago, `ClockApart` if the files were not changed in the last 7 days, or later than a day after
/// now. `NoMemory`, `CannotWrite`. What was carried before stays carried.
pub fn run_forward<B: Book, W: Write, E: Write>(
    alloc: Global,
    plans: &Plans,
    book: &mut B,
    carrying: &Carrying,
    clock: ClockReading,
    output: &mut W,
    progress: &mut E,
) -> Result<Status, Fault>
    requires moment { clock.moment < 2 ^ 53 }
    requires days { IfSome carrying.now.oldest_report (λ days. days ≤ 36500) }
    ensures runs { RunsForward B.Book plans.now carrying.now clock.moment clock.written_at
        (W.contents output.old) (W.contents output.new) book.old book.new result }
    ensures far { OnOk result (LiesFarBack carrying.now clock.moment) }
    ensures other { IfOk result (λ status. status ≢ Status.BadCommandLine) }
    ensures why { IfErr result (IsForwardFault carrying.now clock.moment clock.written_at) }
{
    let moment = clock.moment;
    let selection = selection_of(alloc, carrying, moment)?;
    check_cutoff(&selection, carrying.oldest_report, moment)?;
    let task = Looking {
        alloc,
        selection: &selection,
        clock,
        is_sure: carrying.is_sure,
        lists_open: carrying.silent.is_some(),
    };
    let found = look(book, &task, output)?;
    let totals = carry(
        alloc, plans, book, carrying, &selection, clock, found, progress,
    )?;
    write_totals(output, carrying.is_dry, &totals)?;
    output.flush()?;
    Ok(Status::Done)
}

// Counts what would be carried, and rejects a clock that may be wrong. Then prints each open session
// among it, if that was requested.
fn look<B: Book, W: Write>(
    book: &mut B,
    task: &Looking<'_>,
    output: &mut W,
) -> Result<Totals, Fault>
    requires { task.now.clock.moment < 2 ^ 53 }
    ensures looks { OnlyLooks B.Book book.old book.new }
    ensures answers { B.is_sound book.new → IfOk result (λ totals. B.is_open book.new) }
    ensures timely { IfOk result (λ found. MayCarry B.Book task.now.selection.now book.new
        task.now.is_sure task.now.clock.moment task.now.clock.written_at found.sessions.carried) }
    ensures counts { B.is_open book.new
        → IfOk result (CountsAll task.now.selection.now (B.content book.old)) }
    ensures told { B.is_open book.new → OnOk result ((text : List ℕ)
        × Lists task.now.lists_open task.now.selection.now (B.content book.old) text
        × Appends (W.contents output.old) (W.contents output.new) text) }
    ensures why { IfErr result (λ told. IsListFault told
        ⊎ IsClockFault task.now.is_sure task.now.clock.moment task.now.clock.written_at told) }
{
    let counting = Looking {
        lists_open: false,
        ..*task
    };
    let found = survey(book, &counting, output)?;
    check_clock(&found, task.is_sure, task.clock)?;
    if task.lists_open {
        survey(book, task, output)?;
    }
    Ok(found)
}

// Carries the sessions that were found, unless there is none or this is a dry run.
fn carry<B: Book, E: Write>(
    alloc: Global,
    plans: &Plans,
    book: &mut B,
    carrying: &Carrying,
    selection: &Selection,
    clock: ClockReading,
    found: Totals,
    progress: &mut E,
) -> Result<Totals, Unavailable>
    requires moment { clock.moment < 2 ^ 53 }
    requires selected { selection.now ≡ selected carrying.now clock.moment }
    requires far { LiesFarBack carrying.now clock.moment }
    requires timely { MayCarry B.Book selection.now book.old carrying.now.is_sure clock.moment
        clock.written_at found.sessions.carried }
    requires answers { B.is_sound book.old → B.is_open book.old }
    ensures forwards { Forwards B.Book plans.now carrying.now clock.moment clock.written_at book.old
        book.new result }
    ensures dry { carrying.now.is_dry ≡ true → result ≡ Ok found }
    ensures none { found.sessions.carried ≡ 0 → result ≡ Ok found }
    ensures counts { carrying.now.is_dry ≡ false → IfOk result (λ totals. CountsUpTo B.Book
        selection.now plans.now book.old book.new totals.sessions.carried) }
{
    if carrying.is_dry || found.sessions.carried == 0 {
        return Ok(found);
    }
    carry_all(
        alloc,
        book,
        plans,
        selection,
        clock.moment,
        found.accounts,
        progress,
    )
}

// Which sessions to carry at a moment.
fn selection_of(alloc: Global, carrying: &Carrying, moment: u64) -> Result<Selection, AllocError>
    ensures { IfOk result (λ selection. selection ≡ selected carrying.now moment) }
{
    let ended_before = match carrying.cutoff {
        Cutoff::Before(days) => moment.saturating_sub(days.saturating_mul(DAY)),
        Cutoff::At(cutoff) => cutoff,
    };
    let silent_before = match carrying.silent {
        Some(days) => moment.saturating_sub(days.saturating_mul(DAY)),
        None => 0,
    };
    Ok(Selection {
        ended_before,
        silent_before,
        kept: copied(alloc, &carrying.kept)?,
    })
}

// Copies of names.
fn copied(alloc: Global, names: &[Text]) -> Result<Vec<Text>, AllocError>
    ensures { IfOk result (λ copies. copies.items ≡ names.now) }
{
    let mut copies = Vec::with_capacity(alloc, names.len())?;
    for name in names {
        copies.push(name.copy(alloc)?)?;
    }
    Ok(copies)
}

// Rejects a cutoff that would treat a session as old while it still reports, or while a server
// still accepts late reports of it.
fn check_cutoff(selection: &Selection, oldest: Option<u64>, moment: u64) -> Result<(), Fault>
    requires moment { moment < 2 ^ 53 }
    requires days { IfSome oldest (λ days. days ≤ 36500) }
    ensures far { OnOk result (LieFarBack selection.now oldest moment) }
    ensures why { IfErr result (IsCutoffFault selection.now oldest moment) }
{
    if !lie_back(selection, FEWEST_DAYS * DAY, moment) {
        return Err(Fault::CutoffTooLate);
    }
    match seconds_in(oldest) {
        Some(oldest) if !lie_back(selection, oldest, moment) => Err(Fault::CutoffInReach),
        _ => Ok(()),
    }
}

// Whether both cutoffs are so many seconds before a moment, or more.
fn lie_back(selection: &Selection, seconds: u64, moment: u64) -> bool
    requires { moment < 2 ^ 53 }
    ensures { IsTrue result ↔ LieBack selection.now seconds moment }
{
    selection.ended_before.saturating_add(seconds) <= moment
        && selection.silent_before.saturating_add(seconds) <= moment
}

// Rejects a clock that may be wrong, if anything would be carried: nothing must be forgotten by it.
// It must agree with what the book says, and with what its files say.
fn check_clock(found: &Totals, is_sure: bool, clock: ClockReading) -> Result<(), Fault>
    requires { clock.moment < 2 ^ 53 }
    ensures right { OnOk result ((found.now.sessions.carried ≡ 0) ⊎ ((is_sure ≡ true)
        ⊎ (IsTrue found.now.is_heard × Agrees clock.moment clock.written_at))) }
    ensures why { IfErr result (IsClockFault is_sure clock.moment clock.written_at) }
    ensures ahead { result ≡ Err Fault.ClockAhead → found.now.is_heard ≡ false }
{
    if is_sure || found.sessions.carried == 0 {
        return Ok(());
    }
    if !found.is_heard {
        return Err(Fault::ClockAhead);
    }
    let (moment, written_at) = (clock.moment, clock.written_at);
    if written_at.saturating_add(IDLE) < moment || written_at > moment + DAY {
        return Err(Fault::ClockApart);
    }
    Ok(())
}

// The account after one, or the first.
fn next_account<B: Book>(
    book: &mut B,
    after: &Option<Vec<u8>>,
) -> Result<Option<Vec<u8>>, Unavailable>
    ensures reads { Looks B.Book book.old book.new result }
    ensures next { B.is_open book.new
        → IfOk result (IsNextAccount (B.content book.old) after.now) }
{
    let found = match after {
        None => book.next_account(None)?,
        Some(account) => book.next_account(Some(account.as_slice()))?,
    };
    match found {
        Some((account, _balance)) => Ok(Some(account)),
        None => Ok(None),
    }
}

// Counts what would be carried. Prints each open session among it, if that was requested.
fn survey<B: Book, W: Write>(
    book: &mut B,
    task: &Looking<'_>,
    output: &mut W,
) -> Result<Totals, Fault>
    ensures looks { OnlyLooks B.Book book.old book.new }
    ensures answers { B.is_sound book.new → IfOk result (λ totals. B.is_open book.new) }
    ensures heard { B.is_open book.new → IfOk result (λ totals.
        IsTrue totals.is_heard
        → IsHeardIn task.now.selection.now (B.content book.old) task.now.clock.moment) }
    ensures counts { B.is_open book.new
        → IfOk result (CountsAll task.now.selection.now (B.content book.old)) }
    ensures told { B.is_open book.new → OnOk result ((text : List ℕ)
        × Lists task.now.lists_open task.now.selection.now (B.content book.old) text
        × Appends (W.contents output.old) (W.contents output.new) text) }
    ensures why { IfErr result IsListFault }
{
    let mut totals = Totals::new();
    let mut after: Option<Vec<u8>> = None;
    for _ in 0..u64::MAX {
        let Some(account) = next_account(book, &after)? else {
            return Ok(totals);
        };
        let seen = survey_account(book, task, account.as_slice(), totals.is_heard, output)?;
        totals.add_seen(&seen);
        after = Some(account);
    }
    Err(Fault::from(Unavailable))
}

// Counts what would be carried of an account, row after row. Prints each open session among it, if
// that was requested. A session was heard of lately if one was in the accounts before it.
fn survey_account<B: Book, W: Write>(
    book: &mut B,
    task: &Looking<'_>,
    account: &[u8],
    is_heard: bool,
    output: &mut W,
) -> Result<Seen, Fault>
    ensures reads { Looks B.Book book.old book.new result }
    ensures heard { B.is_open book.new → IfOk result (λ seen. IsTrue seen.is_heard
        → IsTrue is_heard
        ⊎ IsHeardIn task.now.selection.now (B.content book.old) task.now.clock.moment) }
    ensures told { B.is_open book.new → IfOk result (λ seen. (rows : List RowFacts)
        × AreRowsOf (B.content book.old) account.now rows
        × IsTallyOf task.now.selection.now rows seen.tally
        × Appends (W.contents output.old) (W.contents output.new)
        (flat_map (row_text task.now.lists_open task.now.selection.now) rows)) }
    ensures why { IfErr result IsListFault }
{
    let keys = book.keys_of(account)?;
    let mut seen = Seen {
        tally: Tally::new(0),
        is_heard,
    };
    for key in &keys {
        let row = book.session(key)?;
        note(task, &row, output, &mut seen)?;
    }
    Ok(seen)
}

// Adds a session that was found to what was seen. Prints it if it is open and is carried, and that
// was requested.
fn note<W: Write>(
    task: &Looking<'_>,
    found: &Option<Row>,
    output: &mut W,
    seen: &mut Seen,
) -> Result<(), Fault>
    ensures heard { OnOk result (IsTrue seen.new.is_heard
        → IsTrue seen.old.is_heard
        ⊎ IsHeardOf task.now.selection.now found.now task.now.clock.moment) }
    ensures counts { OnOk result ((row : RowFacts) → found.now ≡ Some row
        → HasRoom seen.old.tally
        → seen.new.tally ≡ with_stay (stay_of task.now.selection.now row) seen.old.tally) }
    ensures told { OnOk result (Appends (W.contents output.old) (W.contents output.new)
        (found_text task.now.lists_open task.now.selection.now found.now)) }
    ensures why { IfErr result IsListFault }
{
    let Some(row) = found else {
        return Ok(());
    };
    let is_open = row.state == SessionState::Live && task.selection.stay_of(row).is_none();
    if task.lists_open && is_open {
        write_session(task.alloc, output, row)?;
    }
    seen.add(task.selection, row, task.clock.moment);
    Ok(())
}

fn write_session<W: Write>(alloc: Global, output: &mut W, row: &Row) -> Result<(), Fault>
    ensures told { OnOk result (Appends (W.contents output.old) (W.contents output.new)
        (session_line row.now)) }
    ensures why { IfErr result IsListFault }
{
    let (client, last) = (row.client.as_str(), row.last);
    let session = shown(alloc, row.session.as_slice())?;
    let account = shown(alloc, row.account.as_slice())?;
    writeln!(
        output,
        "open: {client} {session} of {account}, silent since {last}"
    )?;
    Ok(())
}

fn shown(alloc: Global, octets: &[u8]) -> Result<String, Fault>
    ensures text { IfOk result (λ text. string_bytes text ≡ shown octets.now) }
    ensures why { IfErr result (λ told. told ≡ Fault.NoMemory) }
{
    match show(alloc, octets) {
        Ok(text) => Ok(text),
        Err(_) => Err(Fault::NoMemory),
    }
}

// Carries the sessions of the account after one forward.
fn carry_next<B: Book>(
    alloc: Global,
    book: &mut B,
    plans: &Plans,
    selection: &Selection,
    moment: u64,
    after: &Option<Vec<u8>>,
) -> Result<Option<(Vec<u8>, Tally)>, Unavailable>
    requires { moment < 2 ^ 53 }
    ensures carries { CarriesOn B.Book selection.now plans.now book.old book.new result }
    ensures counts { IfOk result (λ found. CountsUpTo B.Book selection.now plans.now book.old
        book.new (carried_of found)) }
{
    let Some(account) = next_account(book, after)? else {
        return Ok(None);
    };
    let tally = carry_account(alloc, book, plans, account.as_slice(), selection, moment)?;
    Ok(Some((account, tally)))
}

// Carries the sessions of all accounts forward.
fn carry_all<B: Book, E: Write>(
    alloc: Global,
    book: &mut B,
    plans: &Plans,
    selection: &Selection,
    moment: u64,
    accounts: u64,
    progress: &mut E,
) -> Result<Totals, Unavailable>
    requires { moment < 2 ^ 53 }
    ensures carries { CarriesOn B.Book selection.now plans.now book.old book.new result }
    ensures counts { IfOk result (λ totals. CountsUpTo B.Book selection.now plans.now book.old
        book.new totals.sessions.carried) }
{
    let mut totals = Totals::new();
    let mut after: Option<Vec<u8>> = None;
    for _ in 0..u64::MAX {
        let Some((account, tally)) = carry_next(alloc, book, plans, selection, moment, &after)?
        else {
            return Ok(totals);
        };
        totals.add(&tally);
        write_progress(progress, totals.accounts, accounts);
        after = Some(account);
    }
    Err(Unavailable)
}

// Prints the progress now and then. A failing writer stops nothing.
fn write_progress<E: Write>(progress: &mut E, done: u64, accounts: u64) {
    if done % STEP == 0 {
        let _ = writeln!(progress, "{done} of {accounts} accounts");
        let _ = progress.flush();
    }
}

fn write_totals<W: Write>(output: &mut W, is_dry: bool, totals: &Totals) -> io::Result<()>
    ensures { OnOk result (Appends (W.contents output.old) (W.contents output.new)
        (totals_text is_dry totals.now)) }
{
    let (carried, touched) = (totals.sessions.carried, totals.touched);
    let verb = if is_dry { "would carry" } else { "carried" };
    writeln!(output, "{verb} {carried} sessions of {touched} accounts")?;
    write_stays(output, totals)
}

// Prints how many sessions stay, and why.
fn write_stays<W: Write>(output: &mut W, totals: &Totals) -> io::Result<()>
    ensures { OnOk result (Appends (W.contents output.old) (W.contents output.new)
        (stay_line totals.now)) }
{
    let (open, recent) = (totals.sessions.still_open, totals.sessions.recent);
    let (kept, too_large) = (totals.sessions.of_kept, totals.sessions.too_large);
    writeln!(
        output,
        "stay: {open} open, {recent} recent, {kept} kept, {too_large} too large"
    )
}
