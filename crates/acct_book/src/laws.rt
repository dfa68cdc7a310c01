//! Laws of books, as functions without effect.
ghost use Rattle.std.specs.Prelude.{ℕ, List, []};
ghost use Rattle.acct_model.specs.declared.plan.Plan.{Plan};
ghost use Rattle.acct_model.specs.History.{History};
ghost use Rattle.acct_model.specs.Agreement.{BalancesAgree};
ghost use Rattle.acct_book.specs.Content.{Content, empty_content, empty_keeping};
ghost use Rattle.acct_book.specs.Laws.{RowsHaveTheirKeys, RowsAreOfSessions, RowsAreOfReports};
ghost use Rattle.acct_book.specs.Laws.{RowsAreCharged, RowsSayTheirEnds, EndedStaysEnded};
ghost use Rattle.acct_book.specs.Laws.{RowsKeepTheirPlans, AdditionsStand};
ghost use Rattle.acct_book.specs.Part.{OtherPartsStay};
ghost use Rattle.acct_book.specs.Stands.{Stands};
ghost use Rattle.acct_book.specs.Walk.{WalksMeetAll, ListsAreFixed};

use crate::book::Book;
use crate::memory_book::MemBook;

/// A book in memory is sound, open and steady at every moment, and a crash leaves nothing of it.
pub fn memory_book_stays(book: &MemBook)
    ensures sound { ⟦<MemBook as Book>⟧.is_sound book.now }
    ensures open { ⟦<MemBook as Book>⟧.is_open book.now }
    ensures steady { ⟦<MemBook as Book>⟧.is_steady book.now }
    ensures left { (c : Content) → ⟦<MemBook as Book>⟧.left book.now c → ⊥ }
{}

/// The empty content stands for the empty history, whatever the plans. The book keeps no list of
/// plans, or keeps these.
pub fn empty_content_stands()
    ensures keeps_none { (plans : List Plan) → Stands plans empty_content [] }
    ensures keeps_these { (plans : List Plan) → Stands plans (empty_keeping plans) [] }
{}

/// The row of a session names the session: its client and its session id.
pub fn rows_have_their_keys()
    ensures { RowsHaveTheirKeys }
{}

/// There is a row exactly for each session of the history.
pub fn rows_are_of_sessions()
    ensures { RowsAreOfSessions }
{}

/// A row has the account and class of its session's first report, and the plan that this class
/// found. Its counters are those of the report that is greatest by what the plan counts, then by
/// the total and then by the input. Its moments are the least and the greatest of a report, its
/// session time the greatest. Its calling station and its address are those of the first report
/// that has one.
pub fn rows_are_of_reports()
    ensures { RowsAreOfReports }
{}

/// The row of a session says what the session costs: `charge` of it is the price of the greatest
/// number that the session's plan counts.
pub fn rows_are_charged()
    ensures { RowsAreCharged }
{}

/// A session is stopped exactly if a Stop of it was accepted, with the cause of the first. Else it
/// is closed exactly if a restart of its client was accepted after a report of it, with the cause
/// 11. Else it is live, with the cause 0.
pub fn rows_say_their_ends()
    ensures { RowsSayTheirEnds }
{}

/// An ended session never opens again, whatever is accepted later and whatever plans are added, and
/// a stopped one keeps its cause.
pub fn ended_stays_ended()
    ensures { EndedStaysEnded }
{}

/// A walk by `next_session`, `next_account` or `next_topup`, from any key on or from the least,
/// meets each member past it once and in order.
pub fn walks_meet_all()
    ensures { (content : Content) → WalksMeetAll content }
{}

/// What `sessions_of`, `keys_of` and `topups_of` list is fixed by the content, in its order too.
pub fn lists_are_fixed()
    ensures { (content : Content) → ListsAreFixed content }
{}

/// Order and repetition: the same claims give the same balances, in whatever order and with
/// whatever repeats, delays and restarts between them. This holds if plans were added only for
/// classes that no report accepted before has. A claim is the part of an entry that a balance
/// depends on: a report's session, user, class and octets, a top-up's number, account and sum.
pub fn balances_agree()
    ensures { BalancesAgree }
{}

/// The part of an account is its balance, its rows and its top-ups. An accepted report of another
/// account's session leaves it as it is, and so does an accepted top-up to another account.
pub fn part_stays()
    ensures { (plans : List Plan) (history : History) (account : List ℕ)
        → OtherPartsStay plans history account }
{}

/// A row keeps the class of a plan. The plan in force of that class is the plan of the row's
/// session: the one that the session's first report found.
pub fn rows_keep_their_plans()
    ensures { RowsKeepTheirPlans }
{}

/// If the new plans extend the old ones, a content that stood for a history stands for it with the
/// addition of plans. No row, no balance and no voucher changes. If the book keeps a list of plans,
/// that is then the new one.
pub fn additions_stand()
    ensures { AdditionsStand }
{}
