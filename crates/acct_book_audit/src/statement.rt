//! What the rows and the top-ups of an account come to.
ghost use Rattle.std.specs.Prelude.{◌≡◌, ◌+◌, ◌*◌, ◌-◌, ◌<◌, ◌≤◌, ◌^◌, ◌↔◌, IsTrue, Some, None};
ghost use Rattle.std.specs.Prelude.{IfOk};
ghost use Rattle.std.specs.Prelude.{length, ℕ, pos, ◌-ℤ◌, not};
ghost use Rattle.std.specs.List.{sum_by, count_by};
ghost use Rattle.std.specs.Ordering.{int_eq};
ghost use Rattle.acct_book.specs.Step.{Looks};
ghost use Rattle.acct_book_audit.specs.Balancing.{is_planned, planned_charge, credited_by, States};
ghost use Rattle.acct_book_audit.specs.Balancing.{IsStatement, IsBalanced, is_right, same_balance};
ghost use Rattle.acct_book_audit.specs.Balancing.{due_balance};

use acct_book::{Book, Row, Unavailable, charge};
use acct_model::{Plans, TopUp};

/// How many sessions, and how many vouchers, an account may have, so that no sum wraps.
const LIMIT: usize = 1 << 32;

/// What the sessions and the vouchers of an account come to, next to the balance that is kept.
#[derive(Clone, Copy, PartialEq, Eq, Debug)]
pub struct Statement {
    /// The balance, if one is kept.
    pub balance: Option<i64>,
    /// How many vouchers were credited.
    pub vouchers: u64,
    /// What they credit.
    pub credited: u128,
    /// How many sessions there are.
    pub sessions: u64,
    /// What the sessions with a plan of the site cost.
    pub charged: u128,
    /// How many sessions have no plan of the site.
    pub unplanned: u64,
}

impl Statement {
    /// Whether each session has a plan, and the balance is what the vouchers credit less what the
    /// sessions cost. A balance must be kept for an account exactly if it has a session or a
    /// voucher. This allocates nothing.
    pub fn is_right(&self) -> bool
        ensures { result ≡ is_right self.now }
    {
        self.unplanned == 0 && self.has_due_balance()
    }

    fn has_due_balance(&self) -> bool
        ensures { result ≡ same_balance self.now.balance (due_balance self.now.sessions
            self.now.vouchers self.now.credited self.now.charged) }
    {
        let has_none = self.sessions == 0 && self.vouchers == 0;
        match self.balance {
            None => has_none,
            Some(balance) => !has_none && is_difference(balance, self.credited, self.charged),
        }
    }
}

// Whether a balance is what is credited less what is charged.
fn is_difference(balance: i64, credited: u128, charged: u128) -> bool
    ensures { result ≡ int_eq balance (pos credited -ℤ pos charged) }
{
    let amount = u128::from(balance.unsigned_abs());
    if balance < 0 {
        credited.checked_add(amount) == Some(charged)
    } else {
        charged.checked_add(amount) == Some(credited)
    }
}

/// The statement of an account for which this balance is kept. It says what the account's sessions
/// and vouchers come to by the rows in the book, under these plans.
///
/// # Errors
///
/// `Unavailable` if the store fails or memory runs out, and for an account with more than 2^32
/// sessions or vouchers. The book's content stays as it is, whatever the answer.
pub fn audit_account<B: Book>(
    book: &mut B,
    plans: &Plans,
    account: &[u8],
    balance: Option<i64>,
) -> Result<Statement, Unavailable>
    ensures looks { Looks B.Book book.old book.new result }
    ensures states { B.is_open book.new → IfOk result (λ statement.
        IsStatement plans.now (B.content book.old) account.now balance statement) }
    ensures right { B.is_open book.new → balance ≡ (B.content book.old).balances account.now
        → IfOk result (λ statement. IsTrue (is_right statement)
        ↔ IsBalanced plans.now (B.content book.old) account.now) }
{
    let rows = book.sessions_of(account)?;
    let topups = book.topups_of(account)?;
    if rows.len() > LIMIT || topups.len() > LIMIT {
        return Err(Unavailable);
    }
    Ok(state(plans, &rows, &topups, balance))
}

// What rows and top-ups come to.
fn state(plans: &Plans, rows: &[Row], topups: &[TopUp], balance: Option<i64>) -> Statement
    requires rows { length rows.now ≤ 2 ^ 32 }
    requires topups { length topups.now ≤ 2 ^ 32 }
    ensures states { States plans.now rows.now topups.now result }
    ensures balance { result.balance ≡ balance }
{
    Statement {
        balance,
        vouchers: topups.len() as u64,
        credited: credited(topups),
        sessions: rows.len() as u64,
        charged: charged(plans, rows),
        unplanned: unplanned(plans, rows),
    }
}

/// Whether some plan has the class that a row keeps. A session without one has no price. This
/// allocates nothing.
pub fn is_planned(plans: &Plans, row: &Row) -> bool
    ensures { result ≡ is_planned plans.now row.now }
{
    plans.plan_of(row.plan.as_slice()).class == row.plan
}

// What top-ups credit.
fn credited(topups: &[TopUp]) -> u128
    requires { length topups.now ≤ 2 ^ 32 }
    ensures { result ≡ credited_by topups.now }
{
    let mut total: u128 = 0;
    for topup in topups {
        total += u128::from(topup.sum);
    }
    total
}

// What a row costs, if a plan has its class.
fn planned_charge(plans: &Plans, row: &Row) -> u128
    ensures exact { result ≡ planned_charge plans.now row.now }
    ensures bound { result < 2 ^ 93 }
{
    if is_planned(plans, row) {
        charge(plans, row)
    } else {
        0
    }
}

// What rows cost together.
fn charged(plans: &Plans, rows: &[Row]) -> u128
    requires { length rows.now ≤ 2 ^ 32 }
    ensures { result ≡ sum_by (planned_charge plans.now) rows.now }
{
    let mut total: u128 = 0;
    for row in rows {
        total += planned_charge(plans, row);
    }
    total
}

// How many rows have a class that no plan has.
fn unplanned(plans: &Plans, rows: &[Row]) -> u64
    ensures { result ≡ count_by (λ row. not (is_planned plans.now row)) rows.now }
{
    rows.iter().filter(|row| !is_planned(plans, row)).count() as u64
}
