//! Laws above the definitions: functions without effect, whose contracts are the laws.
ghost use Rattle.acct_program_serving.specs.Balances.{BalancesAreTold};
ghost use Rattle.acct_program_serving.specs.Promise.{ServesRightly};
ghost use Rattle.acct_program_serving.specs.Serving.{IsBoundTo};

use acct_book::Book;
use acct_net::{Binds, Sockets};
use acct_program_commands::ReplacesFiles;
use acct_service::laws::slices_stand;
use acct_service::{Exchange, laws};
use std::time::Clock;

/// Every balance is right after each run of `run_serve`, however it ended. There is one history of
/// what was accepted before its visits and by them. By it each answer is the one that is due. The
/// balance of each account is the sum of its vouchers, less the prices of its sessions' greatest
/// totals. So it is in what a stop leaves.
pub fn every_balance_is_right<'r, B: Book, R: Binds + Clock + ReplacesFiles + 'r>()
    ensures { ServesRightly B.Book ⟦<Sockets<'r, R> as Exchange>⟧ R.was_put
        IsBoundTo }
{
    laws::every_balance_is_right::<B>();
}

/// Each file of balances that a run puts in its place has the balance of each account in the
/// history of all events that were answered until then, if the book is open at the end of the run.
pub fn balances_are_told<B: Book, R: ReplacesFiles>()
    ensures { BalancesAreTold B.Book R.was_put }
{
    slices_stand::<B>();
}
