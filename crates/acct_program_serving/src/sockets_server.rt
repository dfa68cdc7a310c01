//! A server over sockets: binds them, and then runs a watched server over them.
//!
//! 1. The sockets for reports are bound first, before the book is opened. So what arrives until the
//!    server serves waits in the system, as far as that has room.
//! 2. Why they could not be bound is told where the desk is bound, which comes after the book. So no
//!    fault of a socket hides one of the book.
//! 3. The names of the book were looked at before it was opened, and are again before the first
//!    turn: if one leads elsewhere by then, the start ends.
ghost use Rattle.std.specs.Prelude.{◌≡◌, ◌≤◌, ◌<◌, ◌^◌, IfOk, IfErr, IfSome};
ghost use Rattle.std.specs.Prelude.{◌∷◌, [], ℕ, List, None, Option, IsSomeAnd, MatchOption};
ghost use Rattle.std.specs.List.{AllZip};
ghost use Rattle.std.specs.Net.Grammar.{IsDotted};
ghost use Rattle.acct_book.specs.Step.{OnlyLooks};
ghost use Rattle.acct_service.specs.Told.{Grows};
ghost use Rattle.acct_program_commands.specs.Placed.{PutsBalances};
ghost use Rattle.acct_program_commands.specs.Names.{seen_of};
ghost use Rattle.acct_program_commands.specs.Rounds.{KeepsAt, file_of};
ghost use Rattle.acct_program_commands.specs.RoundStates.{state_of};
ghost use Rattle.acct_program_args.specs.declared.job.BalancesFile.{BalancesFile};
ghost use Rattle.acct_program_serving.specs.Files.{Begins, HaveMoved, IsCounted, IsKept};
ghost use Rattle.acct_program_serving.specs.Files.{seen_before};
ghost use Rattle.acct_program_serving.specs.Serving.{AreReports, IsBoundTo, RunsServer, IsUnbound};
ghost use Rattle.acct_program_serving.specs.Serving.{ended_of};

use crate::ended::Ended;
use crate::watcher::Watcher;
use acct_book::Book;
use acct_model::{Text, address_of};
use acct_net::{Binds, Datagrams, Sockets};
use acct_program::Status;
use acct_program_args::{Listening, Serving, Telling, seconds_in};
use acct_program_commands::{
    BookNames, Fault, FileRounds, Gauges, KeptBalances, ReplacesFiles, Shared, SiteSource,
    StateSource, StatusFile, StoreFault, Watch, keep_at,
};
use acct_service::{Exchange, Rules, Until, moment_of};
use acct_site::Config;
use std::alloc::{AllocError, Global};
use std::cell::RefCell;
use std::io;
use std::io::{ErrorKind, Write};
use std::time::Clock;

/// What is around a server: its sockets for reports, the names of its book, the text of its
/// configuration, and where it prints.
#[derive(Drop)]
pub struct Surroundings<'r, R, S: Drop, E: Drop> {
    /// The sockets for reports, or why there are none.
    pub reports: Result<Datagrams, Fault>,
    /// The names of the book, as they were before it was opened.
    pub names: Result<BookNames<'r, R>, AllocError>,
    /// The text of the configuration, which is polled.
    pub source: S,
    /// Where it prints what the caller of the program should see.
    pub errors: Errors<E>,
}

/// Where a server prints what the caller of the program should see.
#[derive(Drop)]
pub struct Errors<E: Drop> {
    /// The drops and the counts of each minute, if these are printed.
    pub drops: Option<E>,
    /// What happened to its files.
    pub notices: E,
    /// Whether more is printed about a configuration that is refused while it runs. The source of
    /// the configuration prints it.
    pub explains: bool,
}

/// Serves a configuration over a book for so many turns, at the addresses and ports in `serving`.
/// It binds the desk's socket, and then runs `Watcher::serve` over it and those for reports.
///
/// While it runs it prints on `errors`, if it may, what it drops and how much it receives. It
/// writes the files that `serving` names, one of which shows the size of the book's file,
/// `database`. If the configuration of `source` changed, the turns that follow have the new one:
/// `FileRounds`. While a name of the book leads to another file than before it was opened, or to
/// none, it answers nothing. It writes the file of balances before it prints that it serves. If
/// that fails, the server begins all the same.
///
/// # Errors
///
/// `CannotBind`, and `NoMemory` if there is no memory for datagrams or names: that of the sockets
/// for reports before that of the desk's. The book and the output are then unchanged. `CannotOpen`
/// if a name of the book leads elsewhere than before it was opened: the book is then only read, and
/// a line says so. `Store(Unavailable)` if the book was found shut or stuck, which ends the turns:
/// whoever started the program must start it again. `CannotWrite` if the output failed, before the
/// first turn or after the last one.
pub fn run_serve<
    'r,
    R: Binds + Clock + ReplacesFiles,
    S: SiteSource + Drop,
    B: Book,
    W: Write,
    E: Write + Drop,
>(
    runtime: &'r R,
    alloc: Global,
    config: &Config,
    around: Surroundings<'r, R, S, E>,
    database: &Text,
    book: &mut B,
    serving: &Serving,
    output: &mut W,
) -> Result<Status, Fault>
    requires turns { serving.now.turns < 2 ^ 63 }
    requires days { IfSome serving.now.oldest_report (λ days. days ≤ 36500) }
    requires reports { AreReports serving.now.listening around.reports }
    ensures done { IfOk result (λ status. status ≡ Status.Done) }
    ensures serves { RunsServer B.Book ⟦<Sockets<'r, R> as Exchange>⟧
        R.was_put (IsBoundTo serving.now.listening)
        (S.file around.entry.source) (S.polls around.entry.source)
        (S.moments around.entry.source) (seen_before around.entry.names) serving.now config.now
        (W.contents output.old) (W.contents output.new) result book.old book.new }
{
    let Surroundings {
        reports,
        names,
        source,
        errors: Errors { drops, notices, .. },
    } = around;
    let notices = RefCell::new(notices);
    let (gauges, telling) = (Gauges::new(), &serving.telling);
    let noted = Shared::new(&notices);
    let files = files_to_write(runtime, alloc, telling, &gauges, database, noted)?;
    let WrittenFiles { balances, counts } = files;
    let sockets = match bound(runtime, alloc, &serving.listening, reports) {
        Ok(sockets) => sockets,
        Err(fault) => return Err(fault),
    };
    let noted = Shared::new(&notices);
    let Ok(names) = names else {
        return Err(Fault::NoMemory);
    };
    let begun = first_rounds(alloc, source, balances, names, book, &gauges, noted);
    let begun = match begun {
        Ok(begun) => begun,
        Err(fault) => return Err(fault),
    };
    let watcher = Watcher {
        clock: runtime,
        drops: watch_on(drops),
        counts,
    };
    let oldest = seconds_in(serving.oldest_report);
    let rules = Rules { config, oldest };
    let (turns, mut rounds) = (serving.turns, begun);
    let (_sockets, ended) = watcher.serve(alloc, &rules, book, sockets, &mut rounds, turns, output);
    status_of(ended)
}

// The exit status of `serve`, or its fault.
fn status_of(ended: Ended) -> Result<Status, Fault>
    ensures status { result ≡ ended_of ended }
    ensures done { IfOk result (λ status. status ≡ Status.Done) }
{
    match ended {
        Ended::Told(_, Until::AllMade) => Ok(Status::Done),
        Ended::Untold(_, Until::AllMade) | Ended::NotBegun => Err(Fault::CannotWrite),
        Ended::Told(..) | Ended::Untold(..) => Err(Fault::Store(StoreFault::Unavailable)),
    }
}

// The files that a server writes, if they are named.
#[derive(Drop)]
struct WrittenFiles<'s, R, E: Drop> {
    // All balances.
    balances: Option<KeptBalances<'s, R>>,
    // Its counts.
    counts: Option<StatusFile<'s, R, E>>,
}

// The files that a server writes. None of them was written yet.
fn files_to_write<'s, R: Clock + ReplacesFiles, E: Write + Drop>(
    runtime: &'s R,
    alloc: Global,
    telling: &Telling,
    gauges: &'s Gauges,
    database: &Text,
    errors: E,
) -> Result<WrittenFiles<'s, R, E>, AllocError>
    ensures balances { IfOk result (λ files. IsKept telling.now.balances files.balances) }
    ensures counts { IfOk result (λ files.
        IsCounted telling.now.status database.now files.counts) }
{
    let balances = balances_file(runtime, alloc, telling)?;
    let state = StateSource::new(runtime, alloc, gauges, database)?;
    let counts = status_file(runtime, alloc, telling, state, errors)?;
    Ok(WrittenFiles { balances, counts })
}

// What a server does between its slices: it polls this source, looks at the names of its book, and
// keeps its file of balances, which is written here for the first time. A fault if one of the names
// leads elsewhere by then.
fn first_rounds<'r, R: ReplacesFiles, S: SiteSource + Drop, B: Book, E: Write + Drop>(
    alloc: Global,
    mut source: S,
    mut balances: Option<KeptBalances<'r, R>>,
    mut names: BookNames<'r, R>,
    book: &mut B,
    gauges: &'r Gauges,
    mut errors: E,
) -> Result<FileRounds<'r, R, S, E>, Fault>
    ensures looks { OnlyLooks B.Book book.old book.new }
    ensures begins { (named : Option BalancesFile) → IsKept named balances.entry
        → IfOk result (λ begun. Begins (λ name. PutsBalances (R.was_put name) (B.content book.old)
        (B.is_open book.new)) named (S.file source) (S.polls source) (S.moments source)
        (seen_of names.entry) (state_of S.file S.polls S.moments begun)) }
    ensures moved { IfErr result (λ told.
        (told ≡ Fault.CannotOpen) × HaveMoved (seen_of names.entry)) }
{
    write_first(alloc, &mut source, &mut balances, book, gauges, &mut errors);
    if names.have_moved(&mut errors) {
        return Err(Fault::CannotOpen);
    }
    Ok(FileRounds::new(source, balances, Some(names), gauges, errors))
}

// Writes the file of balances for the first time, if there is one.
fn write_first<'r, R: ReplacesFiles, S: SiteSource, B: Book, E: Write>(
    alloc: Global,
    source: &mut S,
    balances: &mut Option<KeptBalances<'r, R>>,
    book: &mut B,
    gauges: &Gauges,
    errors: &mut E,
)
    ensures looks { OnlyLooks B.Book book.old book.new }
    ensures unpolled { S.polls source.new ≡ S.polls source.old }
    ensures same { S.file source.new ≡ S.file source.old }
    ensures keeps { (moment : ℕ)
        × Grows (S.moments source.old) (moment ∷ []) (S.moments source.new)
        × KeepsAt (λ name. PutsBalances (R.was_put name) (B.content book.old)
        (B.is_open book.new)) moment (file_of balances.old) (file_of balances.new) }
{
    let moment = source.moment();
    keep_at(alloc, balances, book, moment, gauges, errors);
}

// The watch that logs to a writer what is dropped and how much is received, if there is a writer.
fn watch_on<E: Write + Drop>(drops: Option<E>) -> Option<Watch<E>>
    ensures { MatchOption drops (result ≡ None) (λ writer.
        IsSomeAnd result (λ watch. watch.writer ≡ writer)) }
{
    match drops {
        Some(writer) => Some(Watch::new(writer)),
        None => None,
    }
}

// The file of the counts, if one is named, of a server that starts now.
fn status_file<'r, R: Clock + ReplacesFiles, E: Write + Drop>(
    runtime: &'r R,
    alloc: Global,
    telling: &Telling,
    state: StateSource<'r, R>,
    errors: E,
) -> Result<Option<StatusFile<'r, R, E>>, AllocError>
    ensures { IfOk result (λ file. IsCounted telling.now.status state.entry.book file) }
{
    match &telling.status {
        Some(name) => {
            let started_at = moment_of(runtime);
            let status = StatusFile::new(runtime, alloc, name, started_at, state, errors)?;
            Ok(Some(status))
        }
        None => Ok(None),
    }
}

// The file of all balances, if one is named.
fn balances_file<'r, R: ReplacesFiles>(
    runtime: &'r R,
    alloc: Global,
    telling: &Telling,
) -> Result<Option<KeptBalances<'r, R>>, AllocError>
    ensures { IfOk result (λ file. IsKept telling.now.balances file) }
{
    match &telling.balances {
        Some(balances) => Ok(Some(KeptBalances::new(runtime, alloc, balances)?)),
        None => Ok(None),
    }
}

/// Binds the sockets for reports at the requested addresses and port.
pub fn bind_reports<R: Binds>(
    runtime: &R,
    alloc: Global,
    listening: &Listening,
) -> Result<Datagrams, Fault>
    ensures { AreReports listening.now result }
{
    let addresses = match addresses_of(alloc, &listening.addresses) {
        Ok(addresses) => addresses,
        Err(fault) => return Err(fault),
    };
    match Datagrams::bind(runtime, alloc, &addresses, listening.radius_port) {
        Ok(datagrams) => Ok(datagrams),
        Err(error) => Err(fault_of(&error)),
    }
}

// The sockets for reports, with the desk's, which is bound at the requested address and port.
fn bound<'r, R: Binds + Clock>(
    runtime: &'r R,
    alloc: Global,
    listening: &Listening,
    reports: Result<Datagrams, Fault>,
) -> Result<Sockets<'r, R>, Fault>
    requires { AreReports listening.now reports }
    ensures fresh { IfOk result (λ s. (s.turns ≡ 0) × (s.failures ≡ 0)) }
    ensures bound { IfOk result (IsBoundTo listening.now) }
    ensures why { IfErr result IsUnbound }
{
    let datagrams = match reports {
        Ok(datagrams) => datagrams,
        Err(fault) => return Err(fault),
    };
    let Some(desk) = address_of(listening.desk_address.as_str()) else {
        return Err(Fault::CannotBind);
    };
    match Sockets::over(runtime, alloc, datagrams, desk, listening.desk_port) {
        Ok(sockets) => Ok(sockets),
        Err(error) => Err(fault_of(&error)),
    }
}

// Why a socket could not be bound.
fn fault_of(error: &io::Error) -> Fault
    ensures { IsUnbound result }
{
    if error.kind() == ErrorKind::OutOfMemory {
        Fault::NoMemory
    } else {
        Fault::CannotBind
    }
}

// The addresses that these texts spell.
fn addresses_of(alloc: Global, texts: &[Text]) -> Result<Vec<[u8; 4]>, Fault>
    ensures spelt { IfOk result (λ addresses. AllZip IsDotted texts.now addresses.items) }
    ensures why { IfErr result IsUnbound }
{
    let mut addresses = Vec::new(alloc);
    for text in texts {
        let Some(address) = address_of(text.as_str()) else {
            return Err(Fault::CannotBind);
        };
        let Ok(()) = addresses.push(address) else {
            return Err(Fault::NoMemory);
        };
    }
    Ok(addresses)
}
