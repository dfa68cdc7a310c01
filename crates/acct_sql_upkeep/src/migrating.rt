//! An older book made one of today's, in one transaction.
ghost use Rattle.std.specs.Prelude.{◌≡◌, ◌↔◌, ◌++◌, ◌∷◌, [], ℤ, None, false, List, IsTrue, IfErr};
ghost use Rattle.std.specs.Prelude.{OnOk, OnErr};
ghost use Rattle.std.specs.List.{AllByRecursion};
ghost use Rattle.sqlite.specs.State.{Survives};
ghost use Rattle.sqlite.specs.Tree.{Trees};
ghost use Rattle.sqlite.specs.Held.{state};
ghost use Rattle.acct_model.specs.declared.plan.Plan.{Plan};
ghost use Rattle.acct_model.specs.declared.plan.Count.TheVariants.{Both};
ghost use Rattle.acct_sql_tables.specs.Book.{is_sound_at};
ghost use Rattle.acct_sql_tables.specs.Look.{IsIdle, LooksAtTables, HasNumberAlone};
ghost use Rattle.acct_sql_tables.specs.declared.older_schema.OlderSchema.{OlderSchema};
ghost use Rattle.acct_sql_tables.specs.declared.older_schema.OlderSchema.TheVariants.{First};
ghost use Rattle.acct_sql_tables.specs.declared.older_schema.OlderSchema.TheVariants.{Second};
ghost use Rattle.acct_sql_tables.specs.Migrate.{number_of, KeepsFirstPlans, KeepsOlderPlans};
ghost use Rattle.acct_sql_tables.specs.Migrate.{IsOlder};
ghost use Rattle.acct_sql_tables.specs.Migrate.{IsMigrated, IsNotMigratedAs};
ghost use Rattle.acct_sql_tables.specs.inner.Inside.{RunsInside, Holds};
ghost use Rattle.acct_sql_tables.specs.inner.Looked.{IsIdleKnown, IsIdleOlder, Examines};
ghost use Rattle.acct_sql_tables.specs.inner.Looked.{IsPlanFault};
ghost use Rattle.acct_sql_tables.specs.inner.Looked.{IsNumberFault, IsUnknownFault, tables_at};
ghost use Rattle.acct_sql_tables.specs.inner.Migrating.{HasOlderRows, IsOlderBook, IsOlderFault};
ghost use Rattle.acct_sql_tables.specs.inner.Migrating.{IsOlderNumberFault, IsNoOlderFault};
ghost use Rattle.acct_sql_tables.specs.inner.Migrating.{HasTablesOver, HasWritten, HasMigrated};
ghost use Rattle.acct_sql_tables.specs.inner.Migrating.{IsMigratedBook};

use crate::adopting::{check_number, check_plans, check_prices, fault_of_other};
use acct_model::{Count, Plan, Plans};
use acct_sql_tables::columns::count_values;
use acct_sql_tables::ending::finish;
use acct_sql_tables::new_tables::{define_plan_tables, define_session_plans};
use acct_sql_tables::older_schema::{FIRST_NUMBER, OlderSchema, fault_of_number};
use acct_sql_tables::refused::Refused;
use acct_sql_tables::rowids::check_first_rowids;
use acct_sql_tables::session_classes::add_classes;
use acct_sql_tables::sql_book_error::SqlBookError;
use acct_sql_tables::statements::{NEW_PLAN_COUNT, SET_SCHEMA_NUMBER};
use sqlite::{Alter, Connection, Transaction};

/// Makes a book of an older schema number one of today's, all of it or nothing.
pub fn migrate_book<S: Alter>(conn: &mut Connection<S>, plans: &Plans) -> Result<(), SqlBookError>
    requires { IsIdle (state S.Store conn.old) }
    ensures idle { (state S.Store conn.new).in_transaction ≡ false }
    ensures made { is_sound_at S.Store conn.new → OnOk result
        (IsMigratedBook plans.now (tables_at S.Store conn.old).trees (state S.Store conn.new)) }
    ensures older { is_sound_at S.Store conn.new → OnOk result
        ((older : OlderSchema) × IsOlder older plans.now (tables_at S.Store conn.old)) }
    ensures undone { is_sound_at S.Store conn.new → IsTrue (state S.Store conn.new).is_open
        → OnErr result (tables_at S.Store conn.new ≡ tables_at S.Store conn.old) }
    ensures refused { is_sound_at S.Store conn.new → IfErr result
        (IsNotMigratedAs plans.now (tables_at S.Store conn.old)) }
    ensures survives { Survives (state S.Store conn.old) (state S.Store conn.new)
        (IsMigrated plans.now (tables_at S.Store conn.old).trees) }
{
    let Some(older) = OlderSchema::of(conn.schema()) else {
        return Err(fault_of_no_older(conn));
    };
    examine_older(conn, older, plans.list())?;
    match rewrite(conn, older, plans) {
        Ok(()) => Ok(()),
        Err(_) => Err(SqlBookError::Unavailable),
    }
}

// Why a database with other tables than an older book's is refused.
fn fault_of_no_older<S: Alter>(conn: &mut Connection<S>) -> SqlBookError
    requires { IsIdle (state S.Store conn.old) }
    ensures looks { LooksAtTables (state S.Store conn.old) (state S.Store conn.new) }
    ensures fault { IsNoOlderFault result }
{
    older_fault(fault_of_other(conn, FIRST_NUMBER))
}

// What such a fault is to older tables: a number that goes with others is that of no book.
fn older_fault(fault: SqlBookError) -> SqlBookError
    ensures older { (older : OlderSchema) (db : Trees) → IsNumberFault (number_of older) db fault
        → IsOlderNumberFault older db result }
    ensures other { (wanted : ℤ) → IsUnknownFault wanted fault → IsNoOlderFault result }
{
    match fault {
        SqlBookError::WrongSchema(number) => fault_of_number(number),
        fault => fault,
    }
}

// Refuses a database that is not a book of this schema number and of these plans.
fn examine_older<S: Alter>(
    conn: &mut Connection<S>,
    older: OlderSchema,
    plans: &[Plan],
) -> Result<(), SqlBookError>
    requires { IsIdleOlder S.Store older conn.old }
    ensures rows { Examines S.Store conn.old conn.new (HasOlderRows older plans.now) result }
    ensures refused { is_sound_at S.Store conn.new
        → IfErr result (IsOlderFault older plans.now (tables_at S.Store conn.old).trees) }
{
    check_older_number(conn, older)?;
    check_older_plans(conn, older, plans)?;
    check_first_rowids(conn)
}

// Refuses another schema number than the one that goes with the older tables.
fn check_older_number<S: Alter>(
    conn: &mut Connection<S>,
    older: OlderSchema,
) -> Result<(), SqlBookError>
    requires { IsIdleKnown S.Store conn.old }
    ensures number { Examines S.Store conn.old conn.new (HasNumberAlone (number_of older)) result }
    ensures refused { is_sound_at S.Store conn.new
        → IfErr result (IsOlderNumberFault older (tables_at S.Store conn.old).trees) }
{
    match check_number(conn, older.number()) {
        Ok(()) => Ok(()),
        Err(fault) => Err(older_fault(fault)),
    }
}

// Refuses an older book that was made with other plans.
fn check_older_plans<S: Alter>(
    conn: &mut Connection<S>,
    older: OlderSchema,
    plans: &[Plan],
) -> Result<(), SqlBookError>
    requires { IsIdleOlder S.Store older conn.old }
    ensures plans { Examines S.Store conn.old conn.new (KeepsOlderPlans older plans.now) result }
    ensures fault { is_sound_at S.Store conn.new → IfErr result
        (IsPlanFault (KeepsOlderPlans older plans.now (tables_at S.Store conn.old).trees)) }
{
    match older {
        OlderSchema::First => check_first_plans(conn, plans),
        OlderSchema::Second => check_plans(conn, plans),
    }
}

// Refuses a book that was made with other plans, which count both directions.
fn check_first_plans<S: Alter>(conn: &mut Connection<S>, plans: &[Plan]) -> Result<(), SqlBookError>
    requires { IsIdleKnown S.Store conn.old }
    ensures plans { Examines S.Store conn.old conn.new (KeepsFirstPlans plans.now) result }
    ensures fault { is_sound_at S.Store conn.new → IfErr result
        (IsPlanFault (KeepsFirstPlans plans.now (tables_at S.Store conn.old).trees)) }
{
    check_prices(conn, plans)?;
    if count_both(plans) {
        Ok(())
    } else {
        Err(SqlBookError::PlansDiffer)
    }
}

// Each plan counts both directions.
fn count_both(plans: &[Plan]) -> bool
    ensures { IsTrue result ↔ AllByRecursion (λ plan. plan.count ≡ Both) plans.now }
{
    for plan in plans {
        if plan.count != Count::Both {
            return false;
        }
    }
    true
}

// Writes all that an older book lacks, in one transaction.
fn rewrite<S: Alter>(
    conn: &mut Connection<S>,
    older: OlderSchema,
    plans: &Plans,
) -> Result<(), Refused>
    requires idle { IsIdle (state S.Store conn.old) }
    requires older { Holds S.Store (λ s. IsOlderBook older plans.now s.now) conn.old }
    ensures idle { (state S.Store conn.new).in_transaction ≡ false }
    ensures made { is_sound_at S.Store conn.new → OnOk result
        (IsMigratedBook plans.now (tables_at S.Store conn.old).trees (state S.Store conn.new)) }
    ensures undone { is_sound_at S.Store conn.new → IsTrue (state S.Store conn.new).is_open
        → OnErr result (tables_at S.Store conn.new ≡ tables_at S.Store conn.old) }
    ensures survives { Survives (state S.Store conn.old) (state S.Store conn.new)
        (IsMigrated plans.now (tables_at S.Store conn.old).trees) }
{
    let mut tx = conn.transaction();
    let done = write_all(&mut tx, older, plans);
    finish(tx, done)
}

fn write_all<S: Alter>(
    tx: &mut Transaction<'_, S>,
    older: OlderSchema,
    plans: &Plans,
) -> Result<(), Refused>
    requires settled { Holds S.Store (λ s. s.now ≡ s.committed) tx.old.conn.now }
    requires older { Holds S.Store (λ s. IsOlderBook older plans.now s.now) tx.old.conn.now }
    ensures { RunsInside S.Store tx.old.conn tx.new.conn (λ old new. HasMigrated plans.now new)
        result }
{
    complete_tables(tx, older, plans.list())?;
    add_classes(tx, plans)
}

// Makes the tables and the counts that an older book lacks, and the schema number today's.
fn complete_tables<S: Alter>(
    tx: &mut Transaction<'_, S>,
    older: OlderSchema,
    plans: &[Plan],
) -> Result<(), Refused>
    ensures { RunsInside S.Store tx.old.conn tx.new.conn
        (λ old new. old.now ≡ old.committed → IsOlderBook older plans.now old.now
        → HasWritten plans.now plans.now None new) result }
{
    match older {
        OlderSchema::First => complete_first(tx, plans),
        OlderSchema::Second => complete_second(tx),
    }
}

// It makes the tables of plans first: each later statement is one of a book that has its tables.
fn complete_first<S: Alter>(tx: &mut Transaction<'_, S>, plans: &[Plan]) -> Result<(), Refused>
    ensures { RunsInside S.Store tx.old.conn tx.new.conn
        (λ old new. old.now ≡ old.committed → IsOlderBook First plans.now old.now
        → HasWritten plans.now plans.now None new) result }
{
    define_plan_tables(tx)?;
    raise_number(tx)?;
    add_counts(tx, plans)
}

// Makes the table of the sessions' plans and the schema number today's, if what each plan counts is
// kept.
fn complete_second<S: Alter>(tx: &mut Transaction<'_, S>) -> Result<(), Refused>
    ensures { RunsInside S.Store tx.old.conn tx.new.conn
        (λ old new. (plans : List Plan) → old.now ≡ old.committed
        → IsOlderBook Second plans old.now → HasWritten plans plans None new) result }
{
    define_session_plans(tx)?;
    raise_number(tx)
}

// Makes the schema number today's.
fn raise_number<S: Alter>(tx: &mut Transaction<'_, S>) -> Result<(), Refused>
    ensures { RunsInside S.Store tx.old.conn tx.new.conn
        (λ old new. (older : OlderSchema) (plans counts : List Plan)
        → HasTablesOver older plans counts old → HasWritten plans counts None new) result }
{
    tx.execute(SET_SCHEMA_NUMBER, &[])?;
    Ok(())
}

// Adds what each plan counts.
fn add_counts<S: Alter>(tx: &mut Transaction<'_, S>, plans: &[Plan]) -> Result<(), Refused>
    ensures { RunsInside S.Store tx.old.conn tx.new.conn
        (λ old new. (all : List Plan) → HasWritten all [] None old
        → HasWritten all plans.now None new) result }
{
    for plan in plans {
        keep_count(tx, plan)?;
    }
    Ok(())
}

fn keep_count<S: Alter>(tx: &mut Transaction<'_, S>, plan: &Plan) -> Result<(), Refused>
    ensures { RunsInside S.Store tx.old.conn tx.new.conn
        (λ old new. (all counts : List Plan) → HasWritten all counts None old
        → HasWritten all (counts ++ plan.now ∷ []) None new) result }
{
    let values = count_values(plan);
    tx.execute(NEW_PLAN_COUNT, &values)?;
    Ok(())
}
