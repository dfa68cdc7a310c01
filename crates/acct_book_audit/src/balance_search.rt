//! Whether a balance is kept for an account.
ghost use Rattle.std.specs.Prelude.{◌≡◌, IfOk, None, option_map};
ghost use Rattle.acct_book.specs.Step.{Looks};
ghost use Rattle.acct_book.specs.Maps.{octets_cmp};
ghost use Rattle.acct_book.specs.Walk.{IsPast, IsNextBalance};
ghost use Rattle.acct_book_audit.specs.inner.Walk.{octets_in};

use acct_book::{Book, Unavailable, WALK_LIMIT};
use std::alloc::{AllocError, Global};
use std::cmp::Ordering;

/// The most octets of an account that is known to a site.
const LONGEST: usize = 253;

/// The balance that a book keeps for an account, or none if it keeps none.
///
/// # Errors
///
/// `Unavailable` if the store fails or memory runs out. The book's content stays as it is, whatever
/// the answer.
pub fn find_balance<B: Book>(
    alloc: Global,
    book: &mut B,
    account: &[u8],
) -> Result<Option<i64>, Unavailable>
    ensures looks { Looks B.Book book.old book.new result }
    ensures found { B.is_open book.new → IfOk result (λ balance.
        balance ≡ (B.content book.old).balances account.now) }
{
    // It is found at once: only accounts that are longer than any of a site lie in between.
    let mut after = just_before(alloc, account)?;
    for _ in 0..WALK_LIMIT {
        let Some((next, balance)) = next_balance(book, &after)? else {
            return Ok(None);
        };
        match next.as_slice().cmp(account) {
            Ordering::Less => after = Some(next),
            Ordering::Equal => return Ok(Some(balance)),
            Ordering::Greater => return Ok(None),
        }
    }
    Err(Unavailable)
}

/// The account after one, or the first, with its balance.
pub(crate) fn next_balance<B: Book>(
    book: &mut B,
    after: &Option<Vec<u8>>,
) -> Result<Option<(Vec<u8>, i64)>, Unavailable>
    ensures found { B.is_open book.new → IfOk result (λ kept. IsNextBalance (B.content book.old)
        (octets_in after.now) (option_map (λ k. (k.0.items, k.1)) kept)) }
    ensures reads { Looks B.Book book.old book.new result }
{
    match after {
        None => book.next_account(None),
        Some(account) => book.next_account(Some(account.as_slice())),
    }
}

// Octets that come before an account, if any do.
fn just_before(alloc: Global, account: &[u8]) -> Result<Option<Vec<u8>>, AllocError>
    ensures { IfOk result (λ before. IsPast octets_cmp (octets_in before) account.now) }
{
    let Some((last, front)) = account.split_last() else {
        return Ok(None);
    };
    let mut before = front.to_vec(alloc)?;
    if *last > 0 {
        before.push(*last - 1)?;
        before.resize(before.len() + LONGEST, u8::MAX)?;
    }
    if before.as_slice().cmp(account) == Ordering::Less {
        Ok(Some(before))
    } else {
        Ok(None)
    }
}
