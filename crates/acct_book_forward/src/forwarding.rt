//! Sessions whose usage is carried forward: their rows are removed, and one row of the same account
//! and plan, a *line*, counts the blocks that they had started. Every balance stays as it is,
//! whatever a crash leaves.
//!
//! 1. The keys of an account's sessions are read once to carry them, and held until its end, and
//!    once more to count those that stay. Rows are read by key, 500 at a time at most. So the time
//!    grows with the account's sessions, and so does the memory of the keys, and no other does.
//! 2. A batch is rows of one account and plan. It is one call of the book, all of it or nothing.
//! 3. The row of a line has the client `(CLASS)`, or `(CLASS)2` and so on if the one before it is
//!    full, and the account as its session id. No configured client has a parenthesis in its name.
//! 4. It counts whole blocks, and costs what the sessions cost together. It says nothing else of
//!    them: no moment, no station and no address.
//! 5. A row that does not fit stays. Nothing is carried in part.
ghost use Rattle.std.specs.Prelude.{◌≡◌, ◌<◌, ◌^◌, IfSome, IfOk, OnOk, List, [], take, ℕ};
ghost use Rattle.std.specs.List.{filter};
ghost use Rattle.std.specs.List.Sorted.{IsStrictlySortedBy};
ghost use Rattle.acct_book.specs.Row.{RowFacts};
ghost use Rattle.acct_book.specs.Maps.{key_cmp};
ghost use Rattle.acct_book.specs.Step.{Looks};
ghost use Rattle.acct_book.specs.Walk.{AreRowsOf};
ghost use Rattle.acct_book_forward.specs.Carrying.{stay_of, SelectionFacts, CarriesOn, IsTallyOf};
ghost use Rattle.acct_book_forward.specs.Carrying.{with_stay, HasRoom, CountsOn, CountsUpTo};
ghost use Rattle.acct_book_forward.specs.inner.Forwarding.{AreAmong, IsUnder, IsCounted, goes};
ghost use Rattle.acct_book_forward.specs.inner.Forwarding.{with_found, count_of};

use crate::batch::{Batch, carry_rows, fitting};
use crate::selection::{Selection, Stay};
use acct_book::{Book, Key, Row, Unavailable};
use acct_model::{Octets, Plans};
use std::alloc::{AllocError, Global};

/// How many rows are read by key at a time, and how many a batch has at most, so that a transaction
/// stays small.
const BATCH: usize = 500;

/// What became of an account's sessions.
#[derive(Clone, Copy, PartialEq, Eq, Debug)]
pub struct Tally {
    /// How many were carried forward.
    pub carried: u64,
    /// How many stay since their clients are kept.
    pub of_kept: u64,
    /// How many stay since they are open.
    pub still_open: u64,
    /// How many stay since they ended too lately.
    pub recent: u64,
    /// How many should go, and have more blocks than a line can hold.
    pub too_large: u64,
}

impl Tally {
    /// The tally of no row, with so many that were carried.
    pub fn new(carried: u64) -> Tally
        ensures none { (selection : SelectionFacts) → IsTallyOf selection [] result }
        ensures carried { result.carried ≡ carried }
    {
        Tally {
            carried,
            of_kept: 0,
            still_open: 0,
            recent: 0,
            too_large: 0,
        }
    }

    /// Counts a row that stays, or that should go.
    pub fn add(&mut self, selection: &Selection, row: &Row)
        ensures counts { HasRoom self.old
            → self.new ≡ with_stay (stay_of selection.now row.now) self.old }
        ensures carried { self.new.carried ≡ self.old.carried }
    {
        match selection.stay_of(row) {
            None => self.too_large = self.too_large.saturating_add(1),
            Some(Stay::Line) => (),
            Some(Stay::Kept) => self.of_kept = self.of_kept.saturating_add(1),
            Some(Stay::Open) => self.still_open = self.still_open.saturating_add(1),
            Some(Stay::Recent) => self.recent = self.recent.saturating_add(1),
        }
    }
}

// What the batches of an account share.
#[derive(Clone, Copy)]
struct Task<'a> {
    alloc: Global,
    plans: &'a Plans,
    account: &'a [u8],
    selection: &'a Selection,
    moment: u64,
}

// What one batch came to.
#[derive(Drop)]
enum Turn {
    // So many rows were carried, and whether others under the same keys may go.
    Carried(u64, bool),
    // The rows of this class do not fit.
    TooLarge(Octets),
}

/// Carries the sessions of an account forward that a selection takes, batch after batch. `moment`,
/// in seconds since 1970, is what the lines say of when. The counts of those that stay are of the
/// rows as they are at the end. That of those that were carried is at most 2^64 - 1.
///
/// # Errors
///
/// `Unavailable` if the store or memory refuses. What was carried before is carried.
pub fn carry_account<B: Book>(
    alloc: Global,
    book: &mut B,
    plans: &Plans,
    account: &[u8],
    selection: &Selection,
    moment: u64,
) -> Result<Tally, Unavailable>
    requires { moment < 2 ^ 53 }
    ensures carries { CarriesOn B.Book selection.now plans.now book.old book.new result }
    ensures counts { IfOk result (λ tally. CountsUpTo B.Book selection.now plans.now book.old
        book.new tally.carried) }
    ensures tally { B.is_open book.new → IfOk result (λ tally. (rows : List RowFacts)
        × AreRowsOf (B.content book.new) account.now rows × IsTallyOf selection.now rows tally) }
{
    let keys = book.keys_of(account)?;
    let task = Task {
        alloc,
        plans,
        account,
        selection,
        moment,
    };
    let carried = carry_keys(book, &task, &keys)?;
    tally_of(book, account, selection, carried)
}

// How many rows of an account stay, and why, with so many that were carried. The rows are read one
// by one.
fn tally_of<B: Book>(
    book: &mut B,
    account: &[u8],
    selection: &Selection,
    carried: u64,
) -> Result<Tally, Unavailable>
    ensures reads { Looks B.Book book.old book.new result }
    ensures carried { IfOk result (λ tally. tally.carried ≡ carried) }
    ensures tally { B.is_open book.new → IfOk result (λ tally. (rows : List RowFacts)
        × AreRowsOf (B.content book.old) account.now rows × IsTallyOf selection.now rows tally) }
{
    let keys = book.keys_of(account)?;
    let mut tally = Tally::new(carried);
    for key in &keys {
        count_under(book, selection, key, &mut tally)?;
    }
    Ok(tally)
}

// Counts the row under a key, if there is one.
fn count_under<B: Book>(
    book: &mut B,
    selection: &Selection,
    key: &Key,
    tally: &mut Tally,
) -> Result<(), Unavailable>
    ensures reads { Looks B.Book book.old book.new result }
    ensures carried { tally.new.carried ≡ tally.old.carried }
    ensures counts { B.is_open book.new → OnOk result (IsCounted (B.content book.old) selection.now
        key.now tally.old tally.new) }
{
    match book.session(key)? {
        None => Ok(()),
        Some(row) => {
            tally.add(selection, &row);
            Ok(())
        }
    }
}

// Carries the rows under these keys forward, so many keys after so many, and returns how many rows
// it carried.
fn carry_keys<B: Book>(book: &mut B, task: &Task<'_>, keys: &[Key]) -> Result<u64, Unavailable>
    requires moment { task.now.moment < 2 ^ 53 }
    requires answers { B.is_sound book.old → B.is_open book.old }
    requires in_order { B.is_open book.old → IsStrictlySortedBy key_cmp keys.now }
    ensures carries { CarriesOn B.Book task.now.selection.now task.now.plans.now book.old book.new
        result }
    ensures counts { IfOk result (λ count. CountsUpTo B.Book task.now.selection.now
        task.now.plans.now book.old book.new count) }
{
    let mut carried: u64 = 0;
    let mut passed = Vec::new(task.alloc);
    let mut rest = keys;
    while !rest.is_empty() {
        let (these, others) = rest.split_at(rest.len().min(BATCH));
        carried = carried.saturating_add(carry_part(book, task, these, &mut passed)?);
        rest = others;
    }
    Ok(carried)
}

// Carries the rows under a part of the keys forward, batch after batch, and returns how many. It
// adds the classes whose rows do not fit to those that are passed over.
fn carry_part<B: Book>(
    book: &mut B,
    task: &Task<'_>,
    keys: &[Key],
    passed: &mut Vec<Octets>,
) -> Result<u64, Unavailable>
    requires moment { task.now.moment < 2 ^ 53 }
    requires answers { B.is_sound book.old → B.is_open book.old }
    requires in_order { B.is_open book.old → IsStrictlySortedBy key_cmp keys.now }
    ensures carries { CarriesOn B.Book task.now.selection.now task.now.plans.now book.old book.new
        result }
    ensures counts { IfOk result (λ count. CountsUpTo B.Book task.now.selection.now
        task.now.plans.now book.old book.new count) }
{
    let mut carried: u64 = 0;
    // A loop over batches has a bound, and no part has so many.
    for _ in 0..u64::MAX {
        match carry_batch(book, task, keys, passed)? {
            Turn::Carried(count, has_more) => {
                carried = carried.saturating_add(count);
                if !has_more {
                    return Ok(carried);
                }
            }
            Turn::TooLarge(class) => match passed.push(class) {
                Ok(()) => (),
                Err(_) => return Err(Unavailable),
            },
        }
    }
    Err(Unavailable)
}

// Carries one batch forward: rows under these keys of the first class that is not passed over.
fn carry_batch<B: Book>(
    book: &mut B,
    task: &Task<'_>,
    keys: &[Key],
    passed: &[Octets],
) -> Result<Turn, Unavailable>
    requires moment { task.now.moment < 2 ^ 53 }
    requires answers { B.is_sound book.old → B.is_open book.old }
    requires in_order { B.is_open book.old → IsStrictlySortedBy key_cmp keys.now }
    ensures carries { CarriesOn B.Book task.now.selection.now task.now.plans.now book.old book.new
        result }
    ensures counts { IfOk result (λ turn. CountsOn B.Book task.now.selection.now
        task.now.plans.now book.old book.new (count_of turn)) }
{
    let found = rows_under(book, task, keys, passed)?;
    let Some(first) = found.first() else {
        return Ok(Turn::Carried(0, false));
    };
    let class = first.plan.copy(task.alloc)?;
    let most = found.len();
    let rows = batch_of(task.plans, task.selection, found, class.as_slice());
    let count = rows.len();
    let batch = Batch {
        alloc: task.alloc,
        plans: task.plans,
        account: task.account,
        class: class.as_slice(),
        rows: &rows,
        moment: task.moment,
    };
    if count > 0 && carry_rows(book, &batch)? {
        return Ok(Turn::Carried(count as u64, count < most));
    }
    Ok(Turn::TooLarge(class))
}

// The rows of the account under these keys that may go, without those of classes that are passed
// over.
fn rows_under<B: Book>(
    book: &mut B,
    task: &Task<'_>,
    keys: &[Key],
    passed: &[Octets],
) -> Result<Vec<Row>, Unavailable>
    requires answers { B.is_sound book.old → B.is_open book.old }
    requires in_order { B.is_open book.old → IsStrictlySortedBy key_cmp keys.now }
    ensures reads { Looks B.Book book.old book.new result }
    ensures found { B.is_open book.new → IfOk result (λ rows.
        AreAmong (B.content book.old) task.now.account.now rows.items) }
{
    let mut rows = Vec::new(task.alloc);
    for key in keys {
        let found = row_under(book, task, key, passed)?;
        push_found(&mut rows, found)?;
    }
    Ok(rows)
}

// Adds a row, if one was found.
fn push_found(rows: &mut Vec<Row>, found: Option<Row>) -> Result<(), AllocError>
    ensures { OnOk result (rows.new.items ≡ with_found rows.old.items found) }
{
    match found {
        None => Ok(()),
        Some(row) => {
            rows.push(row)?;
            Ok(())
        }
    }
}

// The row of the account under a key, if it may go and its class is not passed over.
fn row_under<B: Book>(
    book: &mut B,
    task: &Task<'_>,
    key: &Key,
    passed: &[Octets],
) -> Result<Option<Row>, Unavailable>
    ensures reads { Looks B.Book book.old book.new result }
    ensures found { B.is_open book.new → IfOk result (λ row.
        IfSome row (IsUnder (B.content book.old) task.now.account.now key.now)) }
{
    match book.session(key)? {
        Some(row)
            if row.account.as_slice() == task.account
                && task.selection.stay_of(&row).is_none()
                && !passed.contains(&row.plan) => { Ok(Some(row)) }
        _ => Ok(None),
    }
}

// The rows of a class that may go, as many as fit an empty line.
fn batch_of(plans: &Plans, selection: &Selection, mut rows: Vec<Row>, class: &[u8]) -> Vec<Row>
    ensures { (count : ℕ) × (result.items
        ≡ take count (filter (goes selection.now class.now) rows.items)) }
{
    rows.retain(|row| goes(selection, class, row));
    let count = fitting(plans.plan_of(class), &rows);
    rows.truncate(count);
    rows
}

// Whether a row is of a class and may be carried forward.
fn goes(selection: &Selection, class: &[u8], row: &Row) -> bool
    ensures { result ≡ goes selection.now class.now row.now }
{
    row.plan.as_slice() == class && selection.stay_of(row).is_none()
}
