//! The plans of an older book's sessions: a walk by rowid, which holds one session at a time.
ghost use Rattle.std.specs.Prelude.{◌≡◌, ◌∷◌, ℤ, None, List, Option, Some, IfOk, MatchOption};
ghost use Rattle.sqlite.specs.State.{IsUnchanged, Shown};
ghost use Rattle.sqlite.specs.Held.{state};
ghost use Rattle.sqlite.specs.Given.{IsPlain};
ghost use Rattle.sqlite.specs.Listing.{understood};
ghost use Rattle.sqlite.specs.Values.{bound};
ghost use Rattle.sqlite.specs.Order.{Row};
ghost use Rattle.sqlite_value.specs.Order.{column};
ghost use Rattle.sqlite_value.specs.declared.value.Value.TheVariants.{Text, Blob};
ghost use Rattle.acct_sql_tables.specs.Book.{is_sound_at};
ghost use Rattle.acct_sql_tables.specs.inner.Inside.{CommitsNothing, RunsInside, Holds, HoldsBook};
ghost use Rattle.acct_sql_tables.specs.inner.Looked.{tables_at};
ghost use Rattle.acct_sql_tables.specs.inner.Migrating.{ShowsNext, HasWritten, HasMigrated};

use crate::cells::{id_of, value_at};
use crate::refused::Refused;
use crate::statements::{CLASS_AFTER, FIRST_CLASS, NEW_SESSION_PLAN};
use acct_model::Plans;
use sqlite::types::ValueRef;
use sqlite::{Alter, Transaction, params};

/// Adds the plan of each session: that of its class, else `default`.
pub fn add_classes<S: Alter>(tx: &mut Transaction<'_, S>, plans: &Plans) -> Result<(), Refused>
    requires { Holds S.Store (HasWritten plans.now plans.now None) tx.old.conn.now }
    ensures { RunsInside S.Store tx.old.conn tx.new.conn (λ old new. HasMigrated plans.now new)
        result }
{
    let mut last: Option<i64> = None;
    // A loop needs a bound. No table has so many rows.
    for _ in 0..u64::MAX {
        match add_next_class(tx, plans, last)? {
            Some(id) => last = Some(id),
            None => return Ok(()),
        }
    }
    Err(Refused)
}

// Adds the plan of the first session after a rowid, and returns the session's own.
fn add_next_class<S: Alter>(
    tx: &mut Transaction<'_, S>,
    plans: &Plans,
    last: Option<i64>,
) -> Result<Option<i64>, Refused>
    requires { Holds S.Store (HasWritten plans.now plans.now last) tx.old.conn.now }
    ensures quiet { CommitsNothing S.Store tx.old.conn tx.new.conn }
    ensures written { is_sound_at S.Store tx.new.conn.now → IfOk result (λ next. MatchOption next
        (HasMigrated plans.now (state S.Store tx.new.conn.now))
        (λ id. HasWritten plans.now plans.now (Some id) (state S.Store tx.new.conn.now))) }
{
    plans.have_no_fault();
    let rows = session_after(tx, last)?;
    match rows.first() {
        Some(columns) => Ok(Some(add_class(tx, plans, columns)?)),
        None => Ok(None),
    }
}

// The first session after a rowid, in a list of one, or of none.
fn session_after<S: Alter>(
    tx: &mut Transaction<'_, S>,
    last: Option<i64>,
) -> Result<Vec<sqlite::Row>, Refused>
    requires { HoldsBook S.Store tx.old.conn.now }
    ensures looks { RunsInside S.Store tx.old.conn tx.new.conn IsUnchanged result }
    ensures shown { is_sound_at S.Store tx.new.conn.now → IfOk result
        (λ rows. ShowsNext last (tables_at S.Store tx.old.conn.now).trees rows.items) }
{
    match last {
        Some(id) => show(tx, CLASS_AFTER, params![id]),
        None => show(tx, FIRST_CLASS, &[]),
    }
}

/// What a query shows of the tables of a book.
pub fn show<S: Alter>(
    tx: &mut Transaction<'_, S>,
    sql: &str,
    params: &[ValueRef<'_>],
) -> Result<Vec<sqlite::Row>, Refused>
    requires { Holds S.Store (λ s. IsPlain (understood s.now.schema sql.now)) tx.old.conn.now }
    ensures looks { RunsInside S.Store tx.old.conn tx.new.conn IsUnchanged result }
    ensures shown { is_sound_at S.Store tx.new.conn.now → IfOk result
        (λ rows. Shown sql.now (bound params.now) (state S.Store tx.old.conn.now)
        (state S.Store tx.new.conn.now) rows.items) }
{
    Ok(tx.query_all(sql, params)?)
}

// Adds the plan of the session that a query showed, and returns its rowid.
fn add_class<S: Alter>(
    tx: &mut Transaction<'_, S>,
    plans: &Plans,
    columns: &sqlite::Row,
) -> Result<i64, Refused>
    ensures quiet { CommitsNothing S.Store tx.old.conn tx.new.conn }
    ensures written { is_sound_at S.Store tx.new.conn.now → IfOk result
        (λ id. (last : Option ℤ) (more : List Row)
        → HasWritten plans.now plans.now last (state S.Store tx.old.conn.now)
        → ShowsNext last (tables_at S.Store tx.old.conn.now).trees (columns.now ∷ more)
        → HasWritten plans.now plans.now (Some id) (state S.Store tx.new.conn.now)) }
{
    let Some(id) = id_of(columns) else {
        return Err(Refused);
    };
    let (client, session, class) = names_at(columns)?;
    let plan = plans.plan_of(class);
    let values = [
        ValueRef::Text(client),
        ValueRef::Blob(session),
        ValueRef::Blob(plan.class.as_slice()),
    ];
    tx.execute(NEW_SESSION_PLAN, &values)?;
    Ok(id)
}

// The client, the session id and the class of a session that a query showed after its rowid.
fn names_at(columns: &sqlite::Row) -> Result<(&[u8], &[u8], &[u8]), Refused>
    ensures client { IfOk result (λ s. column columns.now 1 ≡ Text s.0.now) }
    ensures session { IfOk result (λ s. column columns.now 2 ≡ Blob s.1.now) }
    ensures class { IfOk result (λ s. column columns.now 3 ≡ Blob s.2.now) }
{
    match (
        value_at(columns, 1),
        value_at(columns, 2),
        value_at(columns, 3),
    ) {
        (ValueRef::Text(client), ValueRef::Blob(session), ValueRef::Blob(class)) => {
            Ok((client, session, class))
        }
        _ => Err(Refused),
    }
}
