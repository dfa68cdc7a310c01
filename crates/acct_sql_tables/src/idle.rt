//! Connections outside a transaction.
ghost use Rattle.std.specs.Prelude.{◌≡◌, false};
ghost use Rattle.sqlite.specs.Held.{state};
ghost use Rattle.acct_sql_tables.specs.Look.{IsIdle};

use sqlite::{Alter, Connection};

/// For proofs alone: a connection outside a transaction has committed all that it holds, if it is
/// open.
pub fn connection_is_idle<S: Alter>(conn: &Connection<S>)
    requires { (state S.Store conn.now).in_transaction ≡ false }
    ensures { IsIdle (state S.Store conn.now) }
{
    let is_autocommit = conn.is_autocommit();
    prove!(is_autocommit);
}
