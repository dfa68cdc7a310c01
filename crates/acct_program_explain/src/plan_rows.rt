//! The rows that a book keeps of plans, by queries that change nothing.
ghost use Rattle.std.specs.Prelude.{◌≡◌, ◌⊎◌};
ghost use Rattle.sqlite.specs.Held.{state};
ghost use Rattle.acct_sql_tables.specs.Look.{IsIdle, LooksAtTables};

use acct_sql_tables::statements::{PLAN_COUNTS, PLANS};
use sqlite::{Alter, Connection, Error, Row};

/// What a book keeps of each plan: its price, and what it counts. There is none if the book cannot
/// be read, or is in a transaction.
pub fn plan_rows<S: Alter>(conn: &mut Connection<S>) -> Option<(Vec<Row>, Vec<Row>)>
    ensures { (conn.new ≡ conn.old)
        ⊎ LooksAtTables (state S.Store conn.old) (state S.Store conn.new) }
{
    if !conn.is_autocommit() {
        return None;
    }
    let prices = look(conn, PLANS);
    let counts = look(conn, PLAN_COUNTS);
    match (prices, counts) {
        (Ok(prices), Ok(counts)) => Some((prices, counts)),
        _ => None,
    }
}

// What a query shows. What it might do is rolled back.
fn look<S: Alter>(conn: &mut Connection<S>, sql: &str) -> Result<Vec<Row>, Error>
    requires { IsIdle (state S.Store conn.old) }
    ensures { LooksAtTables (state S.Store conn.old) (state S.Store conn.new) }
{
    let mut tx = conn.transaction();
    tx.query_all(sql, &[])
}
