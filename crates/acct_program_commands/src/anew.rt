//! Open sessions that are charged anew since the logins of their clients are stamped.
ghost use Rattle.std.specs.Prelude.{◌≡◌, ◌≤◌, IfOk, IfErr, None, cond};
ghost use Rattle.std.specs.Option.{option_copied};
ghost use Rattle.acct_book.specs.Step.{Looks, OnlyLooks};
ghost use Rattle.acct_book.specs.Walk.{IsNextRow};
ghost use Rattle.acct_program_commands.specs.Anew.{AreAnew, CountsAnew, is_anew, names_payer};
ghost use Rattle.acct_program_commands.specs.Exports.{IsExportFault};

use crate::fault::{Fault, StoreFault};
use acct_book::{Book, Key, Row, SessionState, Unavailable, WALK_LIMIT};
use acct_model::coded_text;
use acct_wire::Stamping;
use std::alloc::{AllocError, Global};

/// How many open sessions of a book are charged anew if they go on: they began before the logins of
/// their clients were stamped, so that their reports name other sessions now.
///
/// # Errors
///
/// `Store` if the book fails, also past 2^63 - 1 sessions; `StoreMemory` if an allocation fails.
pub(crate) fn anew_in<B: Book>(
    alloc: Global,
    book: &mut B,
    stamping: Option<&Stamping>,
) -> Result<u64, Fault>
    ensures reads { OnlyLooks B.Book book.old book.new }
    ensures unasked { option_copied stamping.entry ≡ None → book.new ≡ book.old }
    ensures counted { IfOk result (AreAnew (option_copied stamping.entry) (B.content book.old)
        (B.is_open book.new)) }
    ensures why { IfErr result IsExportFault }
{
    match stamping {
        Some(stamping) => count_anew(alloc, book, stamping),
        None => Ok(0),
    }
}

// Counts those of a site with stamps.
fn count_anew<B: Book>(alloc: Global, book: &mut B, stamping: &Stamping) -> Result<u64, Fault>
    ensures reads { Looks B.Book book.old book.new result }
    ensures counted { IfOk result (CountsAnew stamping.now (B.content book.old)
        (B.is_open book.new)) }
    ensures why { IfErr result IsExportFault }
{
    let mut count = 0;
    let mut after = None;
    for turn in 0..WALK_LIMIT {
        let Ok(found) = next_row(book, &after) else {
            return Err(Fault::Store(StoreFault::Unavailable));
        };
        let Some(row) = found else {
            return Ok(count);
        };
        count += one_if_anew(alloc, stamping, &row)?;
        after = Some(row.into_key());
    }
    Err(Fault::Store(StoreFault::Unavailable))
}

// The row behind the one of a key, or the first.
fn next_row<B: Book>(book: &mut B, after: &Option<Key>) -> Result<Option<Row>, Unavailable>
    ensures found { B.is_open book.new
        → IfOk result (λ row. IsNextRow (B.content book.old) after.now row) }
    ensures reads { Looks B.Book book.old book.new result }
{
    book.next_session(after.as_ref())
}

// 1 if the session of a row is charged anew, else 0.
fn one_if_anew(alloc: Global, stamping: &Stamping, row: &Row) -> Result<u64, Fault>
    ensures one { IfOk result (λ one. one ≡ cond (is_anew stamping.now row.now) 1 0) }
    ensures most { IfOk result (λ one. one ≤ 1) }
    ensures why { IfErr result IsExportFault }
{
    match is_anew(alloc, stamping, row) {
        Ok(true) => Ok(1),
        Ok(false) => Ok(0),
        Err(_) => Err(Fault::StoreMemory),
    }
}

// Whether the session of a row is charged anew.
fn is_anew(alloc: Global, stamping: &Stamping, row: &Row) -> Result<bool, AllocError>
    ensures { IfOk result (λ anew. anew ≡ is_anew stamping.now row.now) }
{
    if row.state != SessionState::Live {
        return Ok(false);
    }
    match stamping.called(row.client.as_str()) {
        Some(client) => Ok(client.proxy || !names_payer(alloc, row)?),
        None => Ok(false),
    }
}

// Whether the name of a session ends with who pays.
fn names_payer(alloc: Global, row: &Row) -> Result<bool, AllocError>
    ensures { IfOk result (λ named. named ≡ names_payer row.now) }
{
    let payer = coded_text(alloc, row.account.as_slice())?;
    let end = ["/", payer.as_str()].concat(alloc)?;
    Ok(row.session.as_slice().ends_with(end.as_bytes()))
}
