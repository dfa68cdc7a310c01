//! How a transaction ends.
ghost use Rattle.sqlite.specs.Held.{state};
ghost use Rattle.acct_sql_tables.specs.inner.Inside.{HasFinished};

use crate::refused::Refused;
use sqlite::{Alter, Transaction};

/// Commits what was done, and rolls a transaction back if its body failed.
pub fn finish<S: Alter>(tx: Transaction<'_, S>, done: Result<(), Refused>) -> Result<(), Refused>
    ensures { HasFinished done (state S.Store tx.entry.conn.now) (state S.Store tx.exit.0.now)
        result }
{
    match done {
        Ok(()) => Ok(tx.commit()?),
        Err(refused) => Err(refused),
    }
}
