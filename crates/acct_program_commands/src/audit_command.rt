//! `check --audit`: compares each balance of a book with its vouchers and sessions.
ghost use Rattle.std.specs.Prelude.{◌≡◌, ◌≢◌, ◌↔◌, List, IfOk, IfErr, OnOk};
ghost use Rattle.std.specs.Prelude.{flat_map, string_bytes};
ghost use Rattle.std.specs.Io.KnownBytes.{Appends};
ghost use Rattle.acct_model.specs.Shown.{shown};
ghost use Rattle.acct_book.specs.Step.{Looks};
ghost use Rattle.acct_book_audit.specs.Audit.{IsAudit, IsClean};
ghost use Rattle.acct_book_audit.specs.Finding.{Finding, StraySession, StrayVoucher, WrongAccount};
ghost use Rattle.acct_program_commands.specs.Auditing.{Audits, AllBalance, finding_line};
ghost use Rattle.acct_program_commands.specs.Auditing.{balance_text, balanced_line, unplanned_text};
ghost use Rattle.acct_program_commands.specs.inner.Stops.{stopped_fault};

use crate::check::write_sizes;
use crate::fault::{Fault, StoreFault};
use acct_book::{Book, Row, Unavailable};
use acct_book_audit::{Audit, Auditor, Kind, Statement, audit};
use acct_model::{NoMemory, TopUp, show};
use acct_program::Status;
use acct_site::Config;
use std::alloc::Global;
use std::io;
use std::io::Write;

/// After how many members of a kind a progress line is printed.
const STEP: u64 = 100_000;

/// Prints the sizes of a configuration. Then compares each balance of a book with its vouchers and
/// sessions, by the configuration's plans (`acct_book_audit::audit`). It prints each account that
/// is wrong, and each session or voucher of an account without a balance. If there is none, it
/// prints how many of each there are. `progress` gets a line now and then. Returns how it ended,
/// and the output.
///
/// # Errors
///
/// `Unbalanced` if something is wrong, `Store` if the book fails, `NoMemory`, `CannotWrite`. The
/// book does not change.
pub fn run_audit<B: Book, W: Write + Drop, E: Write + Drop>(
    alloc: Global,
    config: &Config,
    book: &mut B,
    output: W,
    progress: E,
) -> (Result<Status, Fault>, W)
    ensures done { IfOk result.0 (λ status. status ≡ Status.Done) }
    ensures audits { Audits B.Book config.now (W.contents output) (W.contents result.1) book.old
        book.new result.0 }
{
    let mut findings = Findings {
        alloc,
        output,
        progress,
    };
    let ended = print_audit(config, book, &mut findings);
    (ended, findings.output)
}

// Audits a book, and prints the sizes of its configuration, what is wrong, and at the end how many
// of each there are.
fn print_audit<B: Book, W: Write, E: Write>(
    config: &Config,
    book: &mut B,
    findings: &mut Findings<W, E>,
) -> Result<Status, Fault>
    ensures done { IfOk result (λ status. status ≡ Status.Done) }
    ensures audits { Audits B.Book config.now (W.contents findings.old.output)
        (W.contents findings.new.output) book.old book.new result }
{
    write_sizes(&mut findings.output, config)?;
    let audit = audited(config, book, findings)?;
    findings.output.flush()?;
    if !audit.is_clean() {
        return Err(Fault::Unbalanced);
    }
    write_balanced(&mut findings.output, &audit)?;
    findings.output.flush()?;
    Ok(Status::Done)
}

// Audits a book, and prints what is wrong.
fn audited<B: Book, W: Write, E: Write>(
    config: &Config,
    book: &mut B,
    findings: &mut Findings<W, E>,
) -> Result<Audit, Fault>
    ensures looks { Looks B.Book book.old book.new result }
    ensures clean { B.is_open book.new → IfOk result (λ audit.
        IsClean audit ↔ AllBalance config.now.plans (B.content book.old)) }
    ensures told { B.is_open book.new → IfOk result (λ audit. (found : List Finding)
        × IsAudit config.now.plans (B.content book.old) audit found
        × Appends (W.contents findings.old.output) (W.contents findings.new.output)
        (flat_map finding_line found)) }
    ensures why { IfErr result (λ told. told ≢ Fault.Unbalanced) }
{
    match audit(findings.alloc, book, &config.plans, findings) {
        Ok(audit) => Ok(audit),
        Err(why) => Err(fault_of(why)),
    }
}

// Prints how many members a balanced book has.
fn write_balanced<W: Write>(output: &mut W, audit: &Audit) -> io::Result<()>
    ensures { OnOk result (Appends (W.contents output.old) (W.contents output.new)
        (balanced_line audit.now)) }
{
    let (accounts, sessions, vouchers) = (
        audit.accounts.all,
        audit.sessions.all,
        audit.vouchers.all,
    );
    writeln!(
        output,
        "balanced: {accounts} accounts, {sessions} sessions, {vouchers} vouchers"
    )
}

// Why an audit stopped.
#[derive(Clone, Copy)]
enum Stopped {
    // The book failed.
    Store,
    // Out of memory.
    Memory,
    // A finding could not be printed.
    Output,
}

impl From<Unavailable> for Stopped {
    ghost use Rattle.std.specs.Prelude.{◌≡◌};
    ghost use Rattle.acct_program_commands.specs.declared.audit_command.Stopped.TheVariants.{Store};

    ghost from_gives = { λ _ why. why ≡ Store };

    fn from(_error: Unavailable) -> Stopped {
        Stopped::Store
    }
}

impl From<NoMemory> for Stopped {
    ghost use Rattle.std.specs.Prelude.{◌≡◌};
    ghost use Rattle.acct_program_commands.specs.declared.audit_command.Stopped.TheVariants.{Memory};

    ghost from_gives = { λ _ why. why ≡ Memory };

    fn from(_error: NoMemory) -> Stopped {
        Stopped::Memory
    }
}

impl From<io::Error> for Stopped {
    ghost use Rattle.std.specs.Prelude.{◌≡◌};
    ghost use Rattle.acct_program_commands.specs.declared.audit_command.Stopped.TheVariants.{Output};

    ghost from_gives = { λ _ why. why ≡ Output };

    fn from(_error: io::Error) -> Stopped {
        Stopped::Output
    }
}

// The fault to report for it.
fn fault_of(why: Stopped) -> Fault
    ensures { result ≡ stopped_fault why }
{
    match why {
        Stopped::Store => Fault::Store(StoreFault::Unavailable),
        Stopped::Memory => Fault::NoMemory,
        Stopped::Output => Fault::CannotWrite,
    }
}

// Prints an account whose balance is not right, by its statement.
fn write_account<W: Write>(
    alloc: Global,
    output: &mut W,
    account: &[u8],
    statement: &Statement,
) -> Result<(), Stopped>
    ensures { OnOk result (Appends (W.contents output.old) (W.contents output.new)
        (finding_line (WrongAccount account.now statement.now))) }
{
    write_balance(alloc, output, account, statement)?;
    write_unplanned(output, statement.unplanned)?;
    writeln!(output)?;
    Ok(())
}

// Prints the balance of an account, and what its vouchers and sessions come to.
fn write_balance<W: Write>(
    alloc: Global,
    output: &mut W,
    account: &[u8],
    statement: &Statement,
) -> Result<(), Stopped>
    ensures { OnOk result (Appends (W.contents output.old) (W.contents output.new)
        (balance_text account.now statement.now)) }
{
    let account = shown(alloc, account)?;
    let balance = statement.balance.unwrap_or(0);
    let (vouchers, sessions) = (statement.credited, statement.charged);
    write!(
        output,
        "{account}: balance {balance}, vouchers {vouchers}, sessions {sessions}"
    )?;
    Ok(())
}

// Prints how many sessions of an account are of no plan, if some are.
fn write_unplanned<W: Write>(output: &mut W, count: u64) -> io::Result<()>
    ensures { OnOk result (Appends (W.contents output.old) (W.contents output.new)
        (unplanned_text count)) }
{
    if count == 0 {
        return Ok(());
    }
    write!(output, ", and {count} sessions of no plan")
}

// Prints a session for whose account no balance is kept.
fn write_session<W: Write>(alloc: Global, output: &mut W, row: &Row) -> Result<(), Stopped>
    ensures { OnOk result (Appends (W.contents output.old) (W.contents output.new)
        (finding_line (StraySession row.now))) }
{
    let client = row.client.as_str();
    let session = shown(alloc, row.session.as_slice())?;
    let account = shown(alloc, row.account.as_slice())?;
    writeln!(
        output,
        "{account}: no balance, and the session {client} {session}"
    )?;
    Ok(())
}

// Prints a voucher for whose account no balance is kept.
fn write_voucher<W: Write>(alloc: Global, output: &mut W, topup: &TopUp) -> Result<(), Stopped>
    ensures { OnOk result (Appends (W.contents output.old) (W.contents output.new)
        (finding_line (StrayVoucher topup.now))) }
{
    let number = topup.voucher.as_str();
    let account = shown(alloc, topup.account.as_slice())?;
    writeln!(output, "{account}: no balance, and the voucher {number}")?;
    Ok(())
}

// Octets as text.
fn shown(alloc: Global, octets: &[u8]) -> Result<String, Stopped>
    ensures { IfOk result (λ text. string_bytes text ≡ shown octets.now) }
{
    match show(alloc, octets) {
        Ok(text) => Ok(text),
        Err(_) => Err(Stopped::Memory),
    }
}

// Where the findings and the progress of an audit are printed.
#[derive(Drop)]
struct Findings<W, E> {
    alloc: Global,
    output: W,
    progress: E,
}

impl<W: Write, E: Write> Auditor for Findings<W, E> {
    type Error = Stopped;

    ghost words = { finding_line };

    ghost told = { λ it. W.contents it.output };

    fn tell_account(&mut self, account: &[u8], statement: &Statement) -> Result<(), Stopped> {
        write_account(self.alloc, &mut self.output, account, statement)
    }

    fn tell_session(&mut self, row: &Row) -> Result<(), Stopped> {
        write_session(self.alloc, &mut self.output, row)
    }

    fn tell_voucher(&mut self, topup: &TopUp) -> Result<(), Stopped> {
        write_voucher(self.alloc, &mut self.output, topup)
    }

    fn go_on(&mut self, kind: Kind, count: u64) {
        if count % STEP == 0 {
            let members = match kind {
                Kind::Accounts => "accounts",
                Kind::Sessions => "sessions",
                Kind::Vouchers => "vouchers",
            };
            let _ = writeln!(self.progress, "{count} {members}");
            let _ = self.progress.flush();
        }
    }
}
