//! Plans that are added to a book, in one transaction.
ghost use Rattle.std.specs.Prelude.{◌≡◌, ◌↔◌, ◌++◌, ◌∷◌, [], false, List, length, IsTrue, IfOk};
ghost use Rattle.std.specs.Prelude.{IfErr, OnOk, OnErr, None};
ghost use Rattle.std.specs.List.{AllByRecursion};
ghost use Rattle.sqlite.specs.Tree.{Trees};
ghost use Rattle.sqlite.specs.Effect.{Database};
ghost use Rattle.sqlite.specs.State.{Survives};
ghost use Rattle.sqlite.specs.Held.{state};
ghost use Rattle.sqlite_rules.specs.Lists.{Has};
ghost use Rattle.acct_model.specs.declared.plan.Plan.{Plan};
ghost use Rattle.acct_model.specs.Plans.{plans_added};
ghost use Rattle.acct_model.specs.PlanFaults.{plans_fault};
ghost use Rattle.acct_sql_tables.specs.declared.plan_table.PlanTable.TheVariants.{Prices, Counts};
ghost use Rattle.acct_sql_tables.specs.Tables.{own_number};
ghost use Rattle.acct_sql_tables.specs.Book.{is_sound_at};
ghost use Rattle.acct_sql_tables.specs.Look.{IsIdle, HasNumberAlone};
ghost use Rattle.acct_sql_upkeep.specs.Add.{HasAdded, IsNotAddedAs};
ghost use Rattle.acct_sql_tables.specs.inner.Inside.{RunsInside, Holds, HoldsBook, IsBookOf};
ghost use Rattle.acct_sql_tables.specs.inner.Looked.{IsIdleBook, IsShownIn, IsPlanFault, Peeks};
ghost use Rattle.acct_sql_tables.specs.inner.Looked.{tables_at};
ghost use Rattle.acct_sql_tables.specs.inner.NewBook.{HasPlansOver};
ghost use Rattle.acct_sql_upkeep.specs.inner.Adding.{ShowsPrices, AreAmong, AnswersFit, AreShownOf};
ghost use Rattle.acct_sql_upkeep.specs.inner.Adding.{ShowsClassesOf, IsBookAddedTo};

use crate::adopting::{OWN_NUMBER, are_plans, check_number, fault_of_other, is_shown, peek};
use acct_model::{Plan, Plans};
use acct_sql_tables::book_schema::is_book_schema;
use acct_sql_tables::ending::finish;
use acct_sql_tables::new_tables::add_plan;
use acct_sql_tables::plan_table::PlanTable;
use acct_sql_tables::refused::Refused;
use acct_sql_tables::rowids::check_rowids;
use acct_sql_tables::sql_book_error::SqlBookError;
use acct_sql_tables::statements::{PLAN_COUNTS, PLANS};
use sqlite::{Alter, Connection, Transaction};

/// Adds the plans that a book does not keep yet, all of them or none, and returns how many they
/// are.
pub fn add_to_book<S: Alter>(conn: &mut Connection<S>, plans: &Plans) -> Result<u64, SqlBookError>
    requires { IsIdle (state S.Store conn.old) }
    ensures idle { (state S.Store conn.new).in_transaction ≡ false }
    ensures made { is_sound_at S.Store conn.new → IfOk result (λ n. IsBookAddedTo plans.now
        (tables_at S.Store conn.old).trees n (state S.Store conn.new)) }
    ensures undone { is_sound_at S.Store conn.new → IsTrue (state S.Store conn.new).is_open
        → OnErr result (tables_at S.Store conn.new ≡ tables_at S.Store conn.old) }
    ensures refused { is_sound_at S.Store conn.new → IfErr result
        (IsNotAddedAs plans.now (tables_at S.Store conn.old)) }
    ensures survives { Survives (state S.Store conn.old) (state S.Store conn.new)
        (HasAdded plans.now (tables_at S.Store conn.old).trees) }
{
    plans.have_no_fault();
    if !is_book_schema(conn.schema()) {
        return Err(fault_of_other(conn, OWN_NUMBER));
    }
    check_number(conn, OWN_NUMBER)?;
    let prices = kept_prices(conn, plans.list())?;
    check_rowids(conn)?;
    let added = count_missing(plans.list(), &prices);
    match write_missing(conn, plans.list(), &prices) {
        Ok(()) => Ok(added),
        Err(_) => Err(SqlBookError::Unavailable),
    }
}

// The prices that a book keeps, if each kept plan is one of these.
fn kept_prices<S: Alter>(
    conn: &mut Connection<S>,
    plans: &[Plan],
) -> Result<Vec<sqlite::Row>, SqlBookError>
    requires { IsIdleBook S.Store conn.old }
    ensures looks { Peeks S.Store conn.old conn.new result }
    ensures shown { is_sound_at S.Store conn.new → IfOk result
        (λ rows. ShowsPrices (tables_at S.Store conn.old).trees rows.items) }
    ensures among { is_sound_at S.Store conn.new → OnOk result
        (AreAmong plans.now (tables_at S.Store conn.old).trees) }
    ensures fault { is_sound_at S.Store conn.new → IfErr result
        (IsPlanFault (AreAmong plans.now (tables_at S.Store conn.old).trees)) }
{
    let prices = peek(conn, PLANS)?;
    let counts = peek(conn, PLAN_COUNTS)?;
    if do_fit(plans, &prices, &counts) {
        Ok(prices)
    } else {
        Err(SqlBookError::PlansDiffer)
    }
}

// The answers for both tables show some of these plans, and nothing else.
fn do_fit(plans: &[Plan], prices: &[sqlite::Row], counts: &[sqlite::Row]) -> bool
    ensures { IsTrue result ↔ AnswersFit plans.now prices.now counts.now }
{
    are_plans(PlanTable::Prices, prices, plans)
        && are_plans(PlanTable::Counts, counts, plans)
        && are_in_both(plans, prices, counts)
}

// Each plan is shown by both answers or by none.
fn are_in_both(plans: &[Plan], prices: &[sqlite::Row], counts: &[sqlite::Row]) -> bool
    ensures { IsTrue result ↔ AllByRecursion (λ plan. IsShownIn Prices prices.now plan
        ↔ IsShownIn Counts counts.now plan) plans.now }
{
    for plan in plans {
        if !is_in_both(plan, prices, counts) {
            return false;
        }
    }
    true
}

fn is_in_both(plan: &Plan, prices: &[sqlite::Row], counts: &[sqlite::Row]) -> bool
    ensures { IsTrue result ↔ (IsShownIn Prices prices.now plan.now
        ↔ IsShownIn Counts counts.now plan.now) }
{
    is_shown(PlanTable::Prices, plan, prices) == is_shown(PlanTable::Counts, plan, counts)
}

// How many of the plans an answer does not show.
fn count_missing(plans: &[Plan], prices: &[sqlite::Row]) -> u64
    ensures shown { (shown : List Plan) × AreShownOf plans.now prices.now shown }
    ensures number { (old : List Plan) → ShowsClassesOf old prices.now plans.now
        → result ≡ length (plans_added old plans.now) }
{
    let mut count = 0;
    for plan in plans {
        if is_shown(PlanTable::Prices, plan, prices) {
            continue;
        }
        count += 1;
    }
    count
}

// Adds the plans that an answer does not show, in one transaction.
fn write_missing<S: Alter>(
    conn: &mut Connection<S>,
    plans: &[Plan],
    prices: &[sqlite::Row],
) -> Result<(), Refused>
    requires idle { IsIdle (state S.Store conn.old) }
    requires faultless { plans_fault plans.now ≡ None }
    requires open { is_sound_at S.Store conn.old → IsTrue (state S.Store conn.old).is_open }
    requires book { HoldsBook S.Store conn.old }
    requires number { Holds S.Store (λ s. HasNumberAlone own_number s.now.trees) conn.old }
    requires among { Holds S.Store (λ s. AreAmong plans.now s.now.trees) conn.old }
    requires shown { Holds S.Store (λ s. ShowsPrices s.now.trees prices.now) conn.old }
    requires some { (shown : List Plan) × AreShownOf plans.now prices.now shown }
    ensures idle { (state S.Store conn.new).in_transaction ≡ false }
    ensures made { is_sound_at S.Store conn.new → OnOk result
        (IsBookOf (HasAdded plans.now) (tables_at S.Store conn.old).trees
        (state S.Store conn.new)) }
    ensures undone { is_sound_at S.Store conn.new → IsTrue (state S.Store conn.new).is_open
        → OnErr result (tables_at S.Store conn.new ≡ tables_at S.Store conn.old) }
    ensures survives { Survives (state S.Store conn.old) (state S.Store conn.new)
        (HasAdded plans.now (tables_at S.Store conn.old).trees) }
{
    let mut tx = conn.transaction();
    let done = add_missing(&mut tx, plans, prices);
    finish(tx, done)
}

fn add_missing<S: Alter>(
    tx: &mut Transaction<'_, S>,
    plans: &[Plan],
    prices: &[sqlite::Row],
) -> Result<(), Refused>
    ensures { RunsInside S.Store tx.old.conn tx.new.conn
        (λ old new. (c : Database) (first : Trees) (kept : List Plan)
        → AreShownOf plans.now prices.now kept → HasPlansOver c first kept old
        → HasPlansOver c first (kept ++ plans.now) new) result }
{
    for plan in plans {
        add_if_missing(tx, plan, prices)?;
    }
    Ok(())
}

fn add_if_missing<S: Alter>(
    tx: &mut Transaction<'_, S>,
    plan: &Plan,
    prices: &[sqlite::Row],
) -> Result<(), Refused>
    ensures { RunsInside S.Store tx.old.conn tx.new.conn
        (λ old new. (c : Database) (first : Trees) (so_far : List Plan)
        → (IsShownIn Prices prices.now plan.now → Has so_far plan.now)
        → HasPlansOver c first so_far old
        → HasPlansOver c first (so_far ++ plan.now ∷ []) new) result }
{
    if is_shown(PlanTable::Prices, plan, prices) {
        return Ok(());
    }
    add_plan(tx, plan)
}
