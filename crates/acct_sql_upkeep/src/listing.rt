//! The plans that a book keeps, whatever a configuration has.
ghost use Rattle.std.specs.Prelude.{◌≡◌, ◌⊎◌, IfOk, IfErr};
ghost use Rattle.sqlite.specs.Held.{state};
ghost use Rattle.acct_sql_tables.specs.Book.{is_sound_at};
ghost use Rattle.acct_sql_tables.specs.Look.{IsIdle};
ghost use Rattle.acct_sql_tables.specs.inner.Looked.{IsIdleBook, IsBookWith, Peeks, tables_at};
ghost use Rattle.acct_sql_upkeep.specs.List.{IsUnlistedAs};

use crate::adopting::{OWN_NUMBER, examine_book, fault_of_other, peek};
use acct_model::{Count, Octets, Plan, Plans};
use acct_sql_tables::book_schema::is_book_schema;
use acct_sql_tables::cells::{has_blob, has_count, value_at};
use acct_sql_tables::columns::mode_of;
use acct_sql_tables::sql_book_error::SqlBookError;
use acct_sql_tables::statements::{PLAN_COUNTS, PLANS};
use sqlite::types::ValueRef;
use sqlite::{Alter, Connection};
use std::alloc::Global;

/// The plans that a book keeps, in the order in which it got them. What its rows say is read, and
/// then the book is examined as one of these plans.
pub fn kept_plans<S: Alter>(alloc: Global, conn: &mut Connection<S>) -> Result<Plans, SqlBookError>
    requires { IsIdle (state S.Store conn.old) }
    ensures looks { Peeks S.Store conn.old conn.new result }
    ensures kept { is_sound_at S.Store conn.new
        → IfOk result (λ plans. IsBookWith plans (tables_at S.Store conn.new)) }
    ensures refused { is_sound_at S.Store conn.new
        → IfErr result (IsUnlistedAs (tables_at S.Store conn.old)) }
{
    if !is_book_schema(conn.schema()) {
        return Err(fault_of_other(conn, OWN_NUMBER));
    }
    let plans = shown_plans(alloc, conn)?;
    match examine_book(conn, plans.list()) {
        Ok(()) => Ok(plans),
        Err(error) => Err(error),
    }
}

// The plans that the rows of a book say.
fn shown_plans<S: Alter>(alloc: Global, conn: &mut Connection<S>) -> Result<Plans, SqlBookError>
    requires { IsIdleBook S.Store conn.old }
    ensures looks { Peeks S.Store conn.old conn.new result }
    ensures fault { IfErr result (λ e. (e ≡ SqlBookError.PlansDiffer)
        ⊎ (e ≡ SqlBookError.Unavailable)) }
{
    let prices = peek(conn, PLANS)?;
    let counts = peek(conn, PLAN_COUNTS)?;
    plans_in(alloc, &prices, &counts)
}

// The plans of the answers for both tables. What they are is told by the tests that follow.
fn plans_in(
    alloc: Global,
    prices: &[sqlite::Row],
    counts: &[sqlite::Row],
) -> Result<Plans, SqlBookError>
    ensures { IfErr result (λ e. (e ≡ SqlBookError.PlansDiffer)
        ⊎ (e ≡ SqlBookError.Unavailable)) }
{
    let mut plans = Vec::new(alloc);
    for price in prices {
        let plan = plan_in(alloc, price, counts)?;
        let Ok(()) = plans.push(plan) else {
            return Err(SqlBookError::Unavailable);
        };
    }
    match Plans::new(plans) {
        Ok(plans) => Ok(plans),
        Err(_) => Err(SqlBookError::PlansDiffer),
    }
}

// The plan of a row of prices, and of the answer for what plans count.
fn plan_in(alloc: Global, price: &sqlite::Row, counts: &[sqlite::Row]) -> Result<Plan, SqlBookError>
    ensures { IfErr result (λ e. (e ≡ SqlBookError.PlansDiffer)
        ⊎ (e ≡ SqlBookError.Unavailable)) }
{
    let ValueRef::Blob(class) = value_at(price, 0) else {
        return Err(SqlBookError::PlansDiffer);
    };
    let (Some(block), Some(unit)) = (number_in(price, 1), number_in(price, 2)) else {
        return Err(SqlBookError::PlansDiffer);
    };
    let Some(count) = count_in(class, counts) else {
        return Err(SqlBookError::PlansDiffer);
    };
    match Octets::from_slice(alloc, class) {
        Ok(class) => Ok(Plan {
            class,
            block,
            unit,
            count,
        }),
        Err(_) => Err(SqlBookError::Unavailable),
    }
}

// The number in a column of a row.
fn number_in(row: &sqlite::Row, at: usize) -> Option<u64> {
    match value_at(row, at) {
        ValueRef::Int(number) if number >= 0 => Some(number as u64),
        _ => None,
    }
}

// What the plan of a class counts, by the answer for that.
fn count_in(class: &[u8], counts: &[sqlite::Row]) -> Option<Count> {
    let row = counts.iter().find(|row| has_blob(row, class))?;
    let all = [Count::Both, Count::Input, Count::Output];
    all.iter()
        .copied()
        .find(|count| has_count(row, 1, mode_of(*count)))
}
