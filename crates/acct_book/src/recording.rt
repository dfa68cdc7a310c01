//! Records one entry. `record` keeps these rules, for whatever keeps the book:
//!
//! 1. A report is charged to the account of its session's first report, by the plan that the class
//!    of that report found. The session's row keeps it.
//! 2. A report debits the price of the greatest number that the session's plan now counts less the
//!    price of the one before. A number that is no greater debits nothing, and no report gives
//!    money back.
//! 3. A report changes one row and one balance, both by one call of the book or neither.
//! 4. A voucher is credited once. A number that is kept with the same account and sum is a repeat
//!    and changes nothing, with another account or sum it is refused.
//! 5. A restart closes only the live sessions of its client and moves no money. An ended session
//!    never opens again.
//! 6. A balance that would leave its range is refused, whoever else has what balance.
//! 7. Every allocation and every test comes before the one call that writes, so what is refused
//!    before that call changes nothing. If the call itself fails, the content of a book that is
//!    still open is as before. A crash can also leave that call's whole effect, and nothing else.
ghost use Rattle.std.specs.Prelude.{◌≡◌, ◌≢◌, ◌+◌, ◌^◌, ◌<◌, Err, IfOk, IfErr, IfNone, IfSome};
ghost use Rattle.std.specs.Prelude.{MatchOption, pos, ◌+ℤ◌, ◌-ℤ◌};
ghost use Rattle.acct_model.specs.declared.entry.Entry.{Entry};
ghost use Rattle.acct_model.specs.History.{InRange};
ghost use Rattle.acct_book.specs.Content.{with_session, with_topup};
ghost use Rattle.acct_book.specs.Effect.{IsOwn, effect_of};
ghost use Rattle.acct_book.specs.Step.{Looks, Does};
ghost use Rattle.acct_book.specs.Next.{report_key, next_row, charge_before};
ghost use Rattle.acct_book.specs.inner.Calls.{AddsEntry, Repeats, RefusesToAdd};

use crate::book::{Book, Unavailable};
use crate::charging::charge;
use crate::key::Key;
use crate::raising::new_row;
use crate::row::Row;
use acct_model::{Entry, Plans, Report, Restart, TopUp};
use std::alloc::{AllocError, Global};
use thiserror::Error;

/// A balance lies within this and its opposite.
const GREATEST_BALANCE: i128 = 1 << 62;

/// What became of an entry that was accepted.
#[derive(Clone, Copy, PartialEq, Eq, Debug)]
pub enum Recorded {
    /// It was added to the history.
    New,
    /// It is a top-up whose number is kept with the same account and sum.
    Repeat,
}

/// Why an entry was refused. The content of a book that is still open is as before.
#[derive(Debug, Drop, Error)]
pub enum RecordError {
    /// The voucher's number is kept, by this top-up of another account or sum.
    #[error("the voucher is kept with another account or sum")]
    VoucherDiffers(TopUp),
    /// The account's balance, this one, would leave its range.
    #[error("the balance would leave its range")]
    BalanceLimit(i64),
    /// The store or an allocation failed. It may be returned in place of any other answer. If the
    /// write failed and shut the book, a crash may still leave the whole entry.
    #[error("the book is unavailable")]
    Unavailable,
}

impl From<AllocError> for RecordError {
    ghost use Rattle.std.specs.Prelude.{◌≡◌};
    ghost use Rattle.acct_book.specs.declared.recording.RecordError.TheVariants.{Unavailable};

    ghost from_gives = { λ _ e. e ≡ Unavailable };

    fn from(_error: AllocError) -> RecordError {
        RecordError::Unavailable
    }
}

impl From<Unavailable> for RecordError {
    ghost use Rattle.std.specs.Prelude.{◌≡◌};
    ghost use Rattle.acct_book.specs.declared.recording.RecordError.TheVariants.{Unavailable};

    ghost from_gives = { λ _ e. e ≡ Unavailable };

    fn from(_error: Unavailable) -> RecordError {
        RecordError::Unavailable
    }
}

/// Records one entry in a book whose content stands for a history under these plans. `New` says
/// that the content then stands for the history with the entry. After each other result the content
/// of a book that is still open is as before.
///
/// # Errors
///
/// `VoucherDiffers` and `BalanceLimit` as their names say; `Unavailable` may be returned in place
/// of any other answer.
pub fn record<B: Book>(
    alloc: Global,
    book: &mut B,
    plans: &Plans,
    entry: &Entry,
) -> Result<Recorded, RecordError>
    ensures { Does B.Book plans.now book.old book.new (effect_of entry.now result) }
{
    match entry {
        Entry::Report(report) => record_report(alloc, book, plans, report),
        Entry::Restart(restart) => record_restart(book, plans, restart),
        Entry::TopUp(topup) => record_topup(book, plans, topup),
    }
}

fn record_report<B: Book>(
    alloc: Global,
    book: &mut B,
    plans: &Plans,
    report: &Report,
) -> Result<Recorded, RecordError>
    ensures { Does B.Book plans.now book.old book.new (effect_of (Entry.Report report.now) result) }
{
    let (row, balance) = debited(alloc, book, plans, report)?;
    book.put_session(&row, balance)?;
    Ok(Recorded::New)
}

fn record_restart<B: Book>(
    book: &mut B,
    plans: &Plans,
    restart: &Restart,
) -> Result<Recorded, RecordError>
    ensures { Does B.Book plans.now book.old book.new
        (effect_of (Entry.Restart restart.now) result) }
{
    book.close_client(restart.client.as_str())?;
    Ok(Recorded::New)
}

fn record_topup<B: Book>(
    book: &mut B,
    plans: &Plans,
    topup: &TopUp,
) -> Result<Recorded, RecordError>
    ensures { Does B.Book plans.now book.old book.new (effect_of (Entry.TopUp topup.now) result) }
{
    let Some(balance) = credited(book, plans, topup)? else {
        return Ok(Recorded::Repeat);
    };
    book.put_topup(topup, balance)?;
    Ok(Recorded::New)
}

// The row of a report's session with the report, and the balance of its account then.
fn debited<B: Book>(
    alloc: Global,
    book: &mut B,
    plans: &Plans,
    report: &Report,
) -> Result<(Row, i64), RecordError>
    ensures reads { Looks B.Book book.old book.new result }
    ensures answers { B.is_sound book.new → result ≢ Err RecordError.Unavailable
        → B.is_open book.new }
    ensures own { IfErr result (λ error. IsOwn (effect_of (Entry.Report report.now) (Err error))) }
    ensures added { B.is_open book.new → IfOk result (λ next.
        AddsEntry plans.now (Entry.Report report.now) (B.content book.old)
        (with_session (B.content book.old) next.0 next.1)) }
    ensures refused { B.is_open book.new → IfErr result (
        RefusesToAdd plans.now (Entry.Report report.now) (B.content book.old)) }
{
    let key = key_for(alloc, report)?;
    let found = book.session(&key)?;
    let (row, before) = advance(alloc, plans, found, report)?;
    let after = charge(plans, &row);
    let balance = book.balance(row.account.as_slice())?;
    match moved(balance, before, after) {
        Some(next) => Ok((row, next)),
        None => Err(RecordError::BalanceLimit(balance)),
    }
}

// The balance of a top-up's account with the top-up, and none if it is kept already.
fn credited<B: Book>(book: &mut B, plans: &Plans, topup: &TopUp) -> Result<Option<i64>, RecordError>
    ensures reads { Looks B.Book book.old book.new result }
    ensures answers { B.is_sound book.new → result ≢ Err RecordError.Unavailable
        → B.is_open book.new }
    ensures added { B.is_open book.new → IfOk result (λ balance. MatchOption balance
        (Repeats plans.now (Entry.TopUp topup.now) (B.content book.old))
        (λ next. AddsEntry plans.now (Entry.TopUp topup.now) (B.content book.old)
        (with_topup (B.content book.old) topup.now next))) }
    ensures refused { B.is_open book.new → IfErr result (
        RefusesToAdd plans.now (Entry.TopUp topup.now) (B.content book.old)) }
{
    if let Some(kept) = book.voucher(topup.voucher.as_str())? {
        if kept.account == topup.account && kept.sum == topup.sum {
            return Ok(None);
        }
        return Err(RecordError::VoucherDiffers(kept));
    }
    let balance = book.balance(topup.account.as_slice())?;
    match moved(balance, u128::from(topup.sum), 0) {
        Some(next) => Ok(Some(next)),
        None => Err(RecordError::BalanceLimit(balance)),
    }
}

// The key of a report's session.
fn key_for(alloc: Global, report: &Report) -> Result<Key, AllocError>
    ensures { IfOk result (λ key. key ≡ report_key report.now) }
{
    Ok(Key {
        client: report.client.copy(alloc)?,
        session: report.session.copy(alloc)?,
    })
}

/// The row of a report's session after the report, by the row that was found of the session, and
/// the price of the found row, which is 0 if there is none. No book is asked.
///
/// # Errors
///
/// `AllocError` if an allocation fails.
pub fn advance(
    alloc: Global,
    plans: &Plans,
    found: Option<Row>,
    report: &Report,
) -> Result<(Row, u128), AllocError>
    ensures row { IfOk result (λ p. p.0 ≡ next_row plans.now found report.now) }
    ensures before { IfOk result (λ p. p.1 ≡ charge_before plans.now found) }
    ensures small { IfOk result (λ p. p.1 < 2 ^ 93) }
{
    match found {
        None => {
            let plan = plans.plan_of(report.class.as_slice());
            Ok((new_row(alloc, plan, report)?, 0))
        }
        Some(row) => {
            let before = charge(plans, &row);
            let plan = plans.plan_of(row.plan.as_slice());
            Ok((row.raised(alloc, plan, report)?, before))
        }
    }
}

// The balance with one price back and another debited, if it may be kept.
fn moved(balance: i64, back: u128, debit: u128) -> Option<i64>
    requires back { back < 2 ^ 93 }
    requires debit { debit < 2 ^ 93 }
    ensures none { IfNone result (InRange ((balance +ℤ pos back) -ℤ pos debit) → ⊥) }
    ensures some { IfSome result (λ m. m ≡ (balance +ℤ pos back) -ℤ pos debit) }
    ensures fits { IfSome result InRange }
{
    let moved = i128::from(balance) + back as i128 - debit as i128;
    if moved < -GREATEST_BALANCE || moved > GREATEST_BALANCE {
        return None;
    }
    Some(moved as i64)
}
