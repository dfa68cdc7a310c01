//! Laws of the book on tables. Each is a function without effect, for proofs alone.
ghost use Rattle.std.specs.Prelude.{◌≡◌, ℤ, List, Some};
ghost use Rattle.acct_model.specs.declared.plan.Plan.{Plan};
ghost use Rattle.sqlite.specs.Held.{state};
ghost use Rattle.acct_book.specs.Content.{key_of};
ghost use Rattle.acct_sql_tables.specs.Book.{IsBookOver};
ghost use Rattle.acct_sql.specs.Kept.{KeepsSession, KeepsTopUp, KeepsBalance, KeptAreInForce};
ghost use Rattle.acct_sql.specs.NextStart.{NextStartTakes};

use crate::sql_book::SqlBook;
use acct_book::{Book, Row};
use acct_model::TopUp;
use sqlite::Alter;

/// The tables of any book determine its properties. Its content is what they hold, column by
/// column. It is sound and open as the connection is, and a crash leaves what the store may leave.
pub fn books_are_their_tables<S: Alter>(book: &SqlBook<S>)
    ensures { IsBookOver S.Store ⟦<SqlBook<S> as Book>⟧.content ⟦<SqlBook<S> as Book>⟧.is_sound
        ⟦<SqlBook<S> as Book>⟧.is_open ⟦<SqlBook<S> as Book>⟧.left book.now }
{}

/// A session that a book contains is in its two tables by exactly the columns that are written for
/// it. The state is 0, 1 or 2 and the plan its class. So after a call that set a row, the tables
/// have its columns.
pub fn sessions_are_their_columns<S: Alter>(book: &SqlBook<S>, row: &Row)
    ensures { ⟦<SqlBook<S> as Book>⟧.is_open book.now
        → (⟦<SqlBook<S> as Book>⟧.content book.now).rows (key_of row.now) ≡ Some row.now
        → KeepsSession row.now (state S.Store book.now).now.trees }
{
    book.rests();
    let _seconds = row.seconds;
    let _cause = row.cause;
}

/// A top-up that a book contains is in its table by exactly the columns that are written for it.
pub fn topups_are_their_columns<S: Alter>(book: &SqlBook<S>, topup: &TopUp)
    ensures { ⟦<SqlBook<S> as Book>⟧.is_open book.now
        → (⟦<SqlBook<S> as Book>⟧.content book.now).topups topup.now.voucher ≡ Some topup.now
        → KeepsTopUp topup.now (state S.Store book.now).now.trees }
{
    book.rests();
    let _sum = topup.sum;
}

/// A balance that a book contains is in its table by exactly the columns that are written for it.
pub fn balances_are_their_columns<S: Alter>(book: &SqlBook<S>, account: &[u8])
    ensures { (balance : ℤ) → ⟦<SqlBook<S> as Book>⟧.is_open book.now
        → (⟦<SqlBook<S> as Book>⟧.content book.now).balances account.now ≡ Some balance
        → KeepsBalance account.now balance (state S.Store book.now).now.trees }
{
    book.rests();
}

/// The plans that tables keep are those in force at the end of a history that their content stands
/// for. Each class has the same plan by both. So a book that `adopt` accepts with the plans of a
/// configuration stands for no history by other ones.
pub fn kept_plans_are_in_force()
    ensures { KeptAreInForce }
{}

/// `adopt` of what a crash left of a book is this book, or `Unavailable`: what the tables say of
/// their number and plans survives each call and each crash. The two states are those before and
/// after a call. The content is one that the crash may have left, by `books_are_their_tables`. Two
/// premises stay: a crash leaves the schema of the file as it is, and `Unavailable` may also mean
/// that two rows have one rowid.
pub fn next_start_takes<S: Alter>(old: &SqlBook<S>, new: &SqlBook<S>)
    ensures { (plans : List Plan) → NextStartTakes plans (state S.Store old.now)
        (state S.Store new.now) }
{}
