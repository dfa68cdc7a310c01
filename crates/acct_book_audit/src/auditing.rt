//! The audit of a whole book.
ghost use Rattle.std.specs.Prelude.{◌≡◌, ◌↔◌, List, Option, None, IfOk, OnOk, ℕ, flat_map};
ghost use Rattle.std.specs.Io.KnownBytes.{Appends};
ghost use Rattle.acct_book.specs.Step.{Looks};
ghost use Rattle.acct_book.specs.Content.{key_of as key_of_row};
ghost use Rattle.acct_book_audit.specs.Balancing.{IsBalanced};
ghost use Rattle.acct_book_audit.specs.Finding.{Finding};
ghost use Rattle.acct_book_audit.specs.Audit.{IsAudit, IsClean, account_findings};
ghost use Rattle.acct_book_audit.specs.inner.Walk.{IsNextAccount, IsNextSession, IsNextVoucher};
ghost use Rattle.acct_book_audit.specs.inner.Walk.{session_found, voucher_found};

use crate::auditor::{Audit, Auditor, Kind};
use crate::balance_search::{find_balance, next_balance};
use crate::members::{Members, audit_members};
use crate::statement::{Statement, audit_account};
use acct_book::{Book, Key, Row, Unavailable};
use acct_model::{Plans, Text, TopUp};
use std::alloc::Global;

/// Audits a book under the plans of its site. It reads each account, each session and each voucher,
/// in the order of their keys, and reports to an auditor what is wrong. It holds the sessions and
/// vouchers of one account at a time.
///
/// An account is wrong if its balance is not what its vouchers credit less what its sessions cost,
/// by the rows in the book. It is also wrong if one of its sessions is of no plan. A session or a
/// voucher is wrong if no balance is kept for its account.
///
/// # Errors
///
/// `Unavailable` if the store fails or memory runs out. Also for an account with more than 2^32
/// sessions or vouchers, and past 2^63 - 1 members of a kind. The auditor's own errors stop the
/// audit. The book's content stays as it is, whatever the answer.
pub fn audit<B: Book, A: Auditor>(
    alloc: Global,
    book: &mut B,
    plans: &Plans,
    auditor: &mut A,
) -> Result<Audit, A::Error>
    ensures looks { Looks B.Book book.old book.new result }
    ensures audited { B.is_open book.new → IfOk result (λ audit. (found : List Finding)
        × IsAudit plans.now (B.content book.old) audit found
        × Appends (A.told auditor.old) (A.told auditor.new) (flat_map A.words found)) }
    ensures clean { B.is_open book.new → IfOk result (λ audit. IsClean audit
        ↔ ((account : List ℕ) → IsBalanced plans.now (B.content book.old) account)) }
{
    let accounts = audit_members::<Accounts, B, A>(alloc, book, plans, auditor)?;
    let sessions = audit_members::<Sessions, B, A>(alloc, book, plans, auditor)?;
    let vouchers = audit_members::<Vouchers, B, A>(alloc, book, plans, auditor)?;
    Ok(Audit {
        accounts,
        sessions,
        vouchers,
    })
}

// The accounts for which a balance is kept, with their statements.
#[derive(Clone, Copy)]
struct Accounts;

// The sessions, each with whether a balance is kept for its account.
#[derive(Clone, Copy)]
struct Sessions;

// The vouchers, each with whether a balance is kept for its account.
#[derive(Clone, Copy)]
struct Vouchers;

impl Members for Accounts {
    type Key = Vec<u8>;

    type Member = (Vec<u8>, Statement);

    ghost is_next = { IsNextAccount };

    ghost key_of = { λ member. member.0 };

    ghost found_of = { λ member. account_findings member.0.items member.1 };

    fn kind() -> Kind {
        Kind::Accounts
    }

    fn next<B: Book>(
        _alloc: Global,
        book: &mut B,
        plans: &Plans,
        after: &Option<Vec<u8>>,
    ) -> Result<Option<(Vec<u8>, Statement)>, Unavailable> {
        let Some((account, balance)) = next_balance(book, after)? else {
            return Ok(None);
        };
        let statement = audit_account(book, plans, account.as_slice(), Some(balance))?;
        Ok(Some((account, statement)))
    }

    fn tell<A: Auditor>(auditor: &mut A, member: &(Vec<u8>, Statement)) -> Result<u64, A::Error> {
        if member.1.is_right() {
            return Ok(0);
        }
        auditor.tell_account(member.0.as_slice(), &member.1)?;
        Ok(1)
    }

    fn into_key(member: (Vec<u8>, Statement)) -> Vec<u8> {
        member.0
    }
}

impl Members for Sessions {
    type Key = Key;

    type Member = (Row, bool);

    ghost is_next = { IsNextSession };

    ghost key_of = { λ member. key_of_row member.0 };

    ghost found_of = { λ member. session_found member.0 member.1 };

    fn kind() -> Kind {
        Kind::Sessions
    }

    fn next<B: Book>(
        alloc: Global,
        book: &mut B,
        _plans: &Plans,
        after: &Option<Key>,
    ) -> Result<Option<(Row, bool)>, Unavailable> {
        let Some(row) = book.next_session(after.as_ref())? else {
            return Ok(None);
        };
        let is_kept = find_balance(alloc, book, row.account.as_slice())?.is_some();
        Ok(Some((row, is_kept)))
    }

    fn tell<A: Auditor>(auditor: &mut A, member: &(Row, bool)) -> Result<u64, A::Error> {
        if member.1 {
            return Ok(0);
        }
        auditor.tell_session(&member.0)?;
        Ok(1)
    }

    fn into_key(member: (Row, bool)) -> Key {
        member.0.into_key()
    }
}

impl Members for Vouchers {
    type Key = Text;

    type Member = (TopUp, bool);

    ghost is_next = { IsNextVoucher };

    ghost key_of = { λ member. member.0.voucher };

    ghost found_of = { λ member. voucher_found member.0 member.1 };

    fn kind() -> Kind {
        Kind::Vouchers
    }

    fn next<B: Book>(
        alloc: Global,
        book: &mut B,
        _plans: &Plans,
        after: &Option<Text>,
    ) -> Result<Option<(TopUp, bool)>, Unavailable> {
        let found = match after {
            None => book.next_topup(None)?,
            Some(number) => book.next_topup(Some(number.as_str()))?,
        };
        let Some(topup) = found else {
            return Ok(None);
        };
        let is_kept = find_balance(alloc, book, topup.account.as_slice())?.is_some();
        Ok(Some((topup, is_kept)))
    }

    fn tell<A: Auditor>(auditor: &mut A, member: &(TopUp, bool)) -> Result<u64, A::Error> {
        if member.1 {
            return Ok(0);
        }
        auditor.tell_voucher(&member.0)?;
        Ok(1)
    }

    fn into_key(member: (TopUp, bool)) -> Text {
        member.0.into_voucher()
    }
}
