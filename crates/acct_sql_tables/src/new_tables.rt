//! The tables of a new book, made in one transaction.
ghost use Rattle.std.specs.Prelude.{◌≡◌, ◌↔◌, false, [], ◌∷◌, ◌++◌, List, IsTrue, OnOk};
ghost use Rattle.std.specs.Prelude.{OnErr};
ghost use Rattle.sqlite.specs.State.{Survives};
ghost use Rattle.sqlite.specs.Held.{state};
ghost use Rattle.sqlite.specs.Tree.{Trees};
ghost use Rattle.sqlite.specs.Effect.{Database};
ghost use Rattle.acct_model.specs.declared.plan.Plan.{Plan};
ghost use Rattle.acct_sql_tables.specs.Tables.{no_schema, first_schema, second_schema};
ghost use Rattle.acct_sql_tables.specs.Book.{is_sound_at};
ghost use Rattle.acct_sql_tables.specs.Make.{IsNew};
ghost use Rattle.acct_sql_tables.specs.inner.Inside.{RunsInside};
ghost use Rattle.acct_sql_tables.specs.inner.NewBook.{HasRun, HasFirstTables, HasPlanTables};
ghost use Rattle.acct_sql_tables.specs.inner.NewBook.{HasTables};
ghost use Rattle.acct_sql_tables.specs.inner.NewBook.{HasPlans, HasPlansOver, HasPlansSoFar};
ghost use Rattle.acct_sql_tables.specs.inner.NewBook.{IsNewBook};
ghost use Rattle.acct_sql_tables.specs.inner.Migrating.{HasSessionPlans};
ghost use Rattle.acct_sql_tables.specs.inner.Looked.{tables_at};

use crate::columns::{count_values, plan_values};
use crate::ending::finish;
use crate::idle::connection_is_idle;
use crate::number_bounds::GREATEST_INTEGER;
use crate::refused::Refused;
use crate::statements::{
    ACCOUNT_TABLE, META_TABLE, NEW_PLAN, NEW_PLAN_COUNT, NEW_SCHEMA_NUMBER, PLAN_COUNT_TABLE,
    PLAN_TABLE, SESSION_ACCOUNT_INDEX, SESSION_PLAN_TABLE, SESSION_TABLE, VOUCHER_ACCOUNT_INDEX,
    VOUCHER_TABLE,
};
use acct_model::{Plan, Plans};
use sqlite::{Alter, Connection, Transaction};
use sqlite_schema::schema::Schema;

/// Whether nothing was made in the database yet.
pub fn has_nothing(schema: &Schema) -> bool
    ensures { IsTrue result ↔ (schema.now ≡ no_schema) }
{
    schema.tables.is_empty() && schema.indexes.is_empty() && schema.views.is_empty()
}

/// Makes the tables, the schema number and the plans, all of it or nothing.
pub fn make_book<S: Alter>(conn: &mut Connection<S>, plans: &Plans) -> Result<(), Refused>
    requires idle { (state S.Store conn.old).in_transaction ≡ false }
    requires nothing { (tables_at S.Store conn.old).schema ≡ no_schema }
    ensures idle { (state S.Store conn.new).in_transaction ≡ false }
    ensures made { is_sound_at S.Store conn.new
        → OnOk result (IsNewBook plans.now (state S.Store conn.new)) }
    ensures undone { is_sound_at S.Store conn.new → IsTrue (state S.Store conn.new).is_open
        → OnErr result (tables_at S.Store conn.new ≡ tables_at S.Store conn.old) }
    ensures survives { Survives (state S.Store conn.old) (state S.Store conn.new)
        (IsNew plans.now) }
{
    connection_is_idle(conn);
    plans.have_no_fault();
    let mut tx = conn.transaction();
    let done = fill(&mut tx, plans.list());
    finish(tx, done)
}

fn fill<S: Alter>(tx: &mut Transaction<'_, S>, plans: &[Plan]) -> Result<(), Refused>
    requires { (tables_at S.Store tx.old.conn.now).schema ≡ no_schema }
    ensures { RunsInside S.Store tx.old.conn tx.new.conn
        (λ old new. HasPlans old.committed plans.now new) result }
{
    define_tables(tx)?;
    set_number(tx)?;
    add_plans(tx, plans)
}

fn define_tables<S: Alter>(tx: &mut Transaction<'_, S>) -> Result<(), Refused>
    requires { (tables_at S.Store tx.old.conn.now).schema ≡ no_schema }
    ensures { RunsInside S.Store tx.old.conn tx.new.conn
        (λ old new. HasTables old.committed new) result }
{
    define_first_tables(tx)?;
    define_plan_tables(tx)
}

// The tables of a book of schema number 1.
fn define_first_tables<S: Alter>(tx: &mut Transaction<'_, S>) -> Result<(), Refused>
    requires { (tables_at S.Store tx.old.conn.now).schema ≡ no_schema }
    ensures { RunsInside S.Store tx.old.conn tx.new.conn
        (λ old new. HasFirstTables old.committed new) result }
{
    define(tx, META_TABLE)?;
    define(tx, PLAN_TABLE)?;
    define(tx, ACCOUNT_TABLE)?;
    define(tx, VOUCHER_TABLE)?;
    define(tx, SESSION_TABLE)?;
    define(tx, SESSION_ACCOUNT_INDEX)?;
    define(tx, VOUCHER_ACCOUNT_INDEX)
}

/// Makes the two tables of plans that the schema number 3 adds. They are the last.
pub fn define_plan_tables<S: Alter>(tx: &mut Transaction<'_, S>) -> Result<(), Refused>
    ensures { RunsInside S.Store tx.old.conn tx.new.conn
        (λ old new. old.now.schema ≡ first_schema → HasPlanTables old new) result }
{
    define(tx, PLAN_COUNT_TABLE)?;
    define(tx, SESSION_PLAN_TABLE)
}

/// Makes the one table that the schema number 3 adds to those of number 2.
pub fn define_session_plans<S: Alter>(tx: &mut Transaction<'_, S>) -> Result<(), Refused>
    ensures { RunsInside S.Store tx.old.conn tx.new.conn
        (λ old new. old.now.schema ≡ second_schema → HasSessionPlans old new) result }
{
    define(tx, SESSION_PLAN_TABLE)
}

fn define<S: Alter>(tx: &mut Transaction<'_, S>, text: &str) -> Result<(), Refused>
    ensures { RunsInside S.Store tx.old.conn tx.new.conn (HasRun text.now) result }
{
    tx.execute(text, &[])?;
    Ok(())
}

fn set_number<S: Alter>(tx: &mut Transaction<'_, S>) -> Result<(), Refused>
    ensures { RunsInside S.Store tx.old.conn tx.new.conn
        (λ old new. (c : Database) → HasTables c old → HasPlans c [] new) result }
{
    tx.execute(NEW_SCHEMA_NUMBER, &[])?;
    Ok(())
}

fn add_plans<S: Alter>(tx: &mut Transaction<'_, S>, plans: &[Plan]) -> Result<(), Refused>
    ensures { RunsInside S.Store tx.old.conn tx.new.conn
        (λ old new. (c : Database) → HasPlans c [] old → HasPlans c plans.now new) result }
{
    for plan in plans {
        add_plan(tx, plan)?;
    }
    Ok(())
}

/// Adds a plan, and what it counts.
pub fn add_plan<S: Alter>(tx: &mut Transaction<'_, S>, plan: &Plan) -> Result<(), Refused>
    ensures { RunsInside S.Store tx.old.conn tx.new.conn
        (λ old new. (c : Database) (first : Trees) (plans : List Plan)
        → HasPlansOver c first plans old
        → HasPlansOver c first (plans ++ plan.now ∷ []) new) result }
{
    add_price(tx, plan)?;
    add_count(tx, plan)
}

fn add_count<S: Alter>(tx: &mut Transaction<'_, S>, plan: &Plan) -> Result<(), Refused>
    ensures { RunsInside S.Store tx.old.conn tx.new.conn
        (λ old new. (c : Database) (first : Trees) (prices counts : List Plan)
        → HasPlansSoFar c first prices counts old
        → HasPlansSoFar c first prices (counts ++ plan.now ∷ []) new) result }
{
    let values = count_values(plan);
    tx.execute(NEW_PLAN_COUNT, &values)?;
    Ok(())
}

fn add_price<S: Alter>(tx: &mut Transaction<'_, S>, plan: &Plan) -> Result<(), Refused>
    ensures { RunsInside S.Store tx.old.conn tx.new.conn
        (λ old new. (c : Database) (first : Trees) (prices counts : List Plan)
        → HasPlansSoFar c first prices counts old
        → HasPlansSoFar c first (prices ++ plan.now ∷ []) counts new) result }
{
    if plan.block > GREATEST_INTEGER || plan.unit > GREATEST_INTEGER {
        return Err(Refused);
    }
    let values = plan_values(plan);
    tx.execute(NEW_PLAN, &values)?;
    Ok(())
}
