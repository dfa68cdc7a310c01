//! Laws above the definitions: functions without effect, whose contracts are the laws.
ghost use Rattle.std.specs.Prelude.{◌++◌, List, Option};
ghost use Rattle.acct_model.specs.declared.plan.Plan.{Plan};
ghost use Rattle.acct_service.specs.declared.exchange.Call.{Call};
ghost use Rattle.acct_service.specs.Machine.{Visit};
ghost use Rattle.acct_service.specs.Promise.{BalancesAreRight, OpenBooksBegin};
ghost use Rattle.acct_service.specs.Serving.{Attends};
ghost use Rattle.acct_service.specs.Settling.{LifeSettles};
ghost use Rattle.acct_service.specs.Slices.{SlicesStand};
ghost use Rattle.acct_service.specs.Stops.{StopsAreLived};
ghost use Rattle.acct_service.specs.Ages.{TakesNoneTooOld, CarriedStayCarried};

use acct_book::Book;

/// Every balance is right, whatever events come to a server, lost, repeated or late. There is one
/// history of what was accepted. By it each answer is the one that is due. The balance of each
/// account is the sum of its vouchers, less the prices of its sessions' greatest totals. So it is
/// in what a stop leaves.
pub fn every_balance_is_right<B: Book>()
    ensures visits { BalancesAreRight B.Book }
    // What it needs of the book that a server began with, an open one has.
    ensures begun { OpenBooksBegin B.Book }
{}

/// Disturbed delivery. What was accepted or acknowledged is never lost. Suppose the sent entries
/// are consistent, nothing else was accepted, each top-up was acknowledged, and an acknowledged
/// report covers each report. Then the balances are those of what was sent, however often the
/// server stopped and the network lost, repeated or reordered. Plans may be added in between, each
/// for a class that no report accepted before has. Sessions may be carried forward, if no report of
/// one is accepted later. What was never answered may be sent again.
pub fn life_settles()
    ensures { LifeSettles }
{}

/// After serving or an import, a crash leaves a book with a history from which `life_settles` goes
/// on: this span of a life, and a stop. The same holds if plans were added to the book. If the
/// addition was killed or failed, the book may also be unchanged, with its old plans. It also holds
/// if sessions were carried forward, by a call that returns a `T` or an `E`: as many batches as
/// were done. The next start may have the plans in another order.
pub fn stops_are_lived<B: Book, T, E>()
    ensures { StopsAreLived B.Book T E }
{}

/// A server that limits how old a report may be accepts no older one: it adds none, and no crash
/// leaves one.
pub fn old_reports_are_dropped()
    ensures { TakesNoneTooOld }
{}

/// A copy of a report that was accepted before its session was carried forward is not charged
/// again. This needs four premises. The server limits how old a report may be. The cutoff was that
/// far back. The clock has not gone back since. The delay of the copy says how long it waited.
pub fn carried_stay_carried()
    ensures { CarriedStayCarried }
{}

/// After each slice of turns, and so in the round after it, the content of an open book stands for
/// the history to which all events so far lead.
pub fn slices_stand<B: Book>()
    ensures { SlicesStand B.Book }
{}

/// Turns join. What `serve` ensures for two runs over one book and exchange holds for both
/// together, even if clients and keys changed in between. What `take_turn` ensures for each turn
/// holds for all of them.
pub fn turns_join<B: Book>()
    ensures { (plans : List Plan) (visits more : List Visit) (old mid new : B)
        (told later last : Option (List Call))
        → Attends B.Book plans visits old mid told later
        → Attends B.Book plans more mid new later last
        → Attends B.Book plans (visits ++ more) old new told last }
{}
