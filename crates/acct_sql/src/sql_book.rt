//! The book on tables.
ghost use Rattle.sqlite.specs.Held.{state};

use crate::known::Known;
use crate::memory::Memory;
use crate::transactions::{close_client, write_forward, write_session, write_topup};
use acct_book::{Book, Key, Row, Unavailable};
use acct_model::{Plans, TopUp};
use acct_sql_tables::idle::connection_is_idle;
use acct_sql_tables::listing::{read_keys, read_sessions, read_topups};
use acct_sql_tables::new_tables::{has_nothing, make_book};
use acct_sql_tables::queries::{
    read_balance, read_next_account, read_next_session, read_next_topup, read_session, read_voucher,
};
use acct_sql_tables::sql_book_error::SqlBookError;
use acct_sql_upkeep::adding::add_to_book;
use acct_sql_upkeep::adopting::examine;
use acct_sql_upkeep::migrating::migrate_book;
use sqlite::{Alter, Connection};
use std::alloc::Global;
use std::marker::Model;

/// A book on the tables of a database.
pub struct SqlBook<S: Alter> {
    conn: Connection<S>,
    alloc: Global,
    memory: Memory,
    known: Known,
}

impl<S: Alter + Drop> Drop for SqlBook<S> {
    fn drop(self) {
        let SqlBook {
            conn: _,
            alloc: _,
            memory: _,
            known: _,
        } = self;
    }
}

impl<S: Alter> Model for SqlBook<S> {
    ghost use Rattle.sqlite.specs.Held.{Held, held_code, state};
    ghost use Rattle.acct_sql_tables.specs.Book.{IsResting};
    ghost use Rattle.acct_sql.specs.inner.Remembered.{Remembers};
    ghost use Rattle.acct_sql.specs.inner.Known.{Knows};

    ghost Value = { Held S };

    ghost coded = { held_code S.code };

    ghost view = { λ book. book.conn };

    ghost invariant = { λ book. IsResting (state S.Store book.conn)
        × Remembers (state S.Store book.conn) book.memory
        × Knows (state S.Store book.conn) book.known };
}

impl<S: Alter> SqlBook<S> {
    ghost use Rattle.std.specs.Prelude.{◌≡◌, ◌↔◌, ◌≢◌, ◌⊎◌, false, IsTrue, IfOk, IfErr};
    ghost use Rattle.std.specs.Prelude.{IsErrAnd, List, ◌∷◌, None, length};
    ghost use Rattle.sqlite.specs.State.{HasCleanDisk, Survives};
    ghost use Rattle.acct_sql_tables.specs.Tables.{no_schema, own_number};
    ghost use Rattle.acct_sql_tables.specs.Make.{IsNew, KeepsPlans};
    ghost use Rattle.acct_sql_tables.specs.Look.{LooksAtTables, HasNumberAlone, IsRefusedAs};
    ghost use Rattle.acct_sql_tables.specs.declared.older_schema.OlderSchema.{OlderSchema};
    ghost use Rattle.acct_sql_tables.specs.Migrate.{IsMigrated, IsNotMigratedAs, IsOlder, StoodFor};
    ghost use Rattle.acct_sql_tables.specs.Content.{content_in_tables, content_without_plans};
    ghost use Rattle.acct_sql_tables.specs.Book.{IsOpenBook, IsResting, IsBookOver};
    ghost use Rattle.acct_book.specs.Stands.{Stands};
    ghost use Rattle.acct_book.specs.Addition.{AddsAtMost};
    ghost use Rattle.acct_model.specs.declared.plan.Plan.{Plan};
    ghost use Rattle.acct_model.specs.Plans.{Extends, plans_added};
    ghost use Rattle.acct_model.specs.PlanFaults.{plans_fault};
    ghost use Rattle.acct_model.specs.History.{PlansAdded, History};
    ghost use Rattle.acct_sql_upkeep.specs.Add.{AreExtended, HasAdded, IsNotAddedAs};

    /// Makes an empty database an empty book that is kept by these plans. One transaction makes the
    /// seven tables, their two indices, the schema number 3 and a row for each plan. On an error it
    /// returns the database as it was.
    ///
    /// # Errors
    ///
    /// `NotABook` for each database that has a table, an index or a view. `Unavailable` if the
    /// store or an allocation failed.
    pub fn create(
        alloc: Global,
        mut conn: Connection<S>,
        plans: &Plans,
    ) -> Result<SqlBook<S>, (SqlBookError, Connection<S>)>
        requires { (state S.Store conn).in_transaction ≡ false }
        ensures not_a_book { IsErrAnd result (λ e. e.0 ≡ SqlBookError.NotABook)
            ↔ ((state S.Store conn).now.schema ≢ no_schema) }
        ensures other { IfErr result (λ e. (e.0 ≡ SqlBookError.NotABook)
            ⊎ (e.0 ≡ SqlBookError.Unavailable)) }
        ensures made { IfOk result (λ book. HasCleanDisk (state S.Store book)
            → IsOpenBook (state S.Store book) × IsNew plans.now (state S.Store book).now.trees) }
        ensures tables { IfOk result (IsBookOver S.Store ⟦<SqlBook<S> as Book>⟧.content
            ⟦<SqlBook<S> as Book>⟧.is_sound ⟦<SqlBook<S> as Book>⟧.is_open
            ⟦<SqlBook<S> as Book>⟧.left) }
        ensures idle { IfErr result (λ e. (state S.Store e.1).in_transaction ≡ false) }
        ensures same { IfErr result (λ e. HasCleanDisk (state S.Store e.1)
            → IsTrue (state S.Store e.1).is_open → (state S.Store e.1).now
            ≡ (state S.Store conn).now) }
        ensures crash { IfOk result (λ book. Survives (state S.Store conn) (state S.Store book)
            (IsNew plans.now)) }
        ensures crash_err { IfErr result (λ e. Survives (state S.Store conn) (state S.Store e.1)
            (IsNew plans.now)) }
    {
        if !has_nothing(conn.schema()) {
            return Err((SqlBookError::NotABook, conn));
        }
        match make_book(&mut conn, plans) {
            Ok(()) => Ok(SqlBook::over(alloc, conn)),
            Err(_) => Err((SqlBookError::Unavailable, conn)),
        }
    }

    /// Opens a database as the book that it is. It changes nothing, and returns the database on an
    /// error. It reads each rowid of the accounts, top-ups, sessions and their plans once.
    ///
    /// # Errors
    ///
    /// In this order: `WrongSchema` if a schema number is read that is not 3. `NotABook` if none
    /// is, or the tables and indices are not exactly those of a book, in the order in which
    /// `create` makes them. `PlansDiffer` if the book was made with other plans. `Unavailable` if
    /// the store or an allocation failed, or two rows of a book have one rowid or both the schema
    /// number.
    pub fn adopt(
        alloc: Global,
        mut conn: Connection<S>,
        plans: &Plans,
    ) -> Result<SqlBook<S>, (SqlBookError, Connection<S>)>
        requires { (state S.Store conn).in_transaction ≡ false }
        ensures adopted { IfOk result (λ book. HasCleanDisk (state S.Store book)
            → IsOpenBook (state S.Store book)) }
        ensures number { IfOk result (λ book. HasCleanDisk (state S.Store book)
            → HasNumberAlone own_number (state S.Store book).now.trees) }
        ensures plans { IfOk result (λ book. HasCleanDisk (state S.Store book)
            → KeepsPlans plans.now (state S.Store book).now.trees) }
        ensures tables { IfOk result (IsBookOver S.Store ⟦<SqlBook<S> as Book>⟧.content
            ⟦<SqlBook<S> as Book>⟧.is_sound ⟦<SqlBook<S> as Book>⟧.is_open
            ⟦<SqlBook<S> as Book>⟧.left) }
        ensures refused { IfErr result (λ e. HasCleanDisk (state S.Store e.1)
            → IsRefusedAs plans.now (state S.Store conn).now e.0) }
        ensures looks { IfOk result (λ book. LooksAtTables (state S.Store conn)
            (state S.Store book)) }
        ensures looks_err { IfErr result (λ e. LooksAtTables (state S.Store conn)
            (state S.Store e.1)) }
    {
        connection_is_idle(&conn);
        match examine(&mut conn, plans) {
            Ok(()) => Ok(SqlBook::over(alloc, conn)),
            Err(error) => Err((error, conn)),
        }
    }

    /// Makes a book of schema number 1 or 2 one of today's, in one transaction. It adds the tables
    /// that it lacks; in these each session has the plan of its class, else `default`. A plan of
    /// number 1 counts both directions, and one of number 2 what it counted. On an error it returns
    /// the database as it was. It reads each rowid of the older tables once, and holds one session
    /// at a time.
    ///
    /// # Errors
    ///
    /// In this order: `WrongSchema` if a schema number is read that is neither 1 nor 2. `NotABook`
    /// if none is, or the tables and indices are not exactly those of a book of this number.
    /// `PlansDiffer` if it was made with other plans. `Unavailable` if the store or an allocation
    /// failed, or two rows have one rowid or both the schema number.
    pub fn migrate(
        alloc: Global,
        mut conn: Connection<S>,
        plans: &Plans,
    ) -> Result<SqlBook<S>, (SqlBookError, Connection<S>)>
        requires { (state S.Store conn).in_transaction ≡ false }
        ensures migrated { IfOk result (λ book. HasCleanDisk (state S.Store book)
            → IsOpenBook (state S.Store book) × IsMigrated plans.now
            (state S.Store conn).now.trees (state S.Store book).now.trees) }
        ensures older { IfOk result (λ book. HasCleanDisk (state S.Store book)
            → (older : OlderSchema) × IsOlder older plans.now (state S.Store conn).now) }
        ensures stands { IfOk result (λ book. HasCleanDisk (state S.Store book)
            → (history : History)
            → StoodFor plans.now (content_without_plans (state S.Store conn).now.trees) history
            → Stands plans.now (content_in_tables (state S.Store book).now.trees) history) }
        ensures tables { IfOk result (IsBookOver S.Store ⟦<SqlBook<S> as Book>⟧.content
            ⟦<SqlBook<S> as Book>⟧.is_sound ⟦<SqlBook<S> as Book>⟧.is_open
            ⟦<SqlBook<S> as Book>⟧.left) }
        ensures refused { IfErr result (λ e. HasCleanDisk (state S.Store e.1)
            → IsNotMigratedAs plans.now (state S.Store conn).now e.0) }
        ensures idle { IfErr result (λ e. (state S.Store e.1).in_transaction ≡ false) }
        ensures same { IfErr result (λ e. HasCleanDisk (state S.Store e.1)
            → IsTrue (state S.Store e.1).is_open → (state S.Store e.1).now
            ≡ (state S.Store conn).now) }
        ensures crash { IfOk result (λ book. Survives (state S.Store conn) (state S.Store book)
            (IsMigrated plans.now (state S.Store conn).now.trees)) }
        ensures crash_err { IfErr result (λ e. Survives (state S.Store conn) (state S.Store e.1)
            (IsMigrated plans.now (state S.Store conn).now.trees)) }
    {
        connection_is_idle(&conn);
        match migrate_book(&mut conn, plans) {
            Ok(()) => Ok(SqlBook::over(alloc, conn)),
            Err(error) => Err((error, conn)),
        }
    }

    /// Adds the plans that a book does not keep yet, in one transaction, and returns how many they
    /// are. On an error it returns the database as it was. It reads each rowid of the accounts,
    /// top-ups, sessions and their plans once.
    ///
    /// # Errors
    ///
    /// In this order: `WrongSchema` if a schema number is read that is not 3. `NotABook` if none
    /// is, or the tables and indices are not exactly those of a book. `PlansDiffer` if a kept plan
    /// is not one of these, with what it counts. `Unavailable` if the store or an allocation
    /// failed, or two rows of a book have one rowid or both the schema number.
    pub fn add_plans(
        alloc: Global,
        mut conn: Connection<S>,
        plans: &Plans,
    ) -> Result<(SqlBook<S>, u64), (SqlBookError, Connection<S>)>
        requires { (state S.Store conn).in_transaction ≡ false }
        ensures added { IfOk result (λ done. HasCleanDisk (state S.Store done.0)
            → IsOpenBook (state S.Store done.0) × AreExtended plans.now
            (state S.Store conn).now.trees × HasAdded plans.now (state S.Store conn).now.trees
            (state S.Store done.0).now.trees) }
        ensures number { IfOk result (λ done. HasCleanDisk (state S.Store done.0)
            → (old : List Plan) → KeepsPlans old (state S.Store conn).now.trees
            → Extends plans.now old × (done.1 ≡ length (plans_added old plans.now))) }
        ensures stands { IfOk result (λ done. HasCleanDisk (state S.Store done.0)
            → (old : List Plan) (history : History)
            → KeepsPlans old (state S.Store conn).now.trees → plans_fault old ≡ None
            → Stands old (content_in_tables (state S.Store conn).now.trees) history
            → Stands plans.now (content_in_tables (state S.Store done.0).now.trees)
            (PlansAdded (plans_added old plans.now) ∷ history)) }
        ensures tables { IfOk result (λ done. IsBookOver S.Store ⟦<SqlBook<S> as Book>⟧.content
            ⟦<SqlBook<S> as Book>⟧.is_sound ⟦<SqlBook<S> as Book>⟧.is_open
            ⟦<SqlBook<S> as Book>⟧.left done.0) }
        ensures refused { IfErr result (λ e. HasCleanDisk (state S.Store e.1)
            → IsNotAddedAs plans.now (state S.Store conn).now e.0) }
        ensures idle { IfErr result (λ e. (state S.Store e.1).in_transaction ≡ false) }
        ensures same { IfErr result (λ e. HasCleanDisk (state S.Store e.1)
            → IsTrue (state S.Store e.1).is_open → (state S.Store e.1).now
            ≡ (state S.Store conn).now) }
        ensures crash { IfOk result (λ done. Survives (state S.Store conn) (state S.Store done.0)
            (HasAdded plans.now (state S.Store conn).now.trees)) }
        ensures crash_err { IfErr result (λ e. Survives (state S.Store conn) (state S.Store e.1)
            (HasAdded plans.now (state S.Store conn).now.trees)) }
        ensures leaves { IfOk result (λ done. AddsAtMost ⟦<SqlBook<S> as Book>⟧ plans.now conn
            done.0) }
        ensures leaves_err { IfErr result (λ e. AddsAtMost ⟦<SqlBook<S> as Book>⟧ plans.now conn
            e.1) }
    {
        connection_is_idle(&conn);
        plans.have_no_fault();
        match add_to_book(&mut conn, plans) {
            Ok(added) => Ok((SqlBook::over(alloc, conn), added)),
            Err(error) => Err((error, conn)),
        }
    }

    // A book over a connection to the tables of a book, of which nothing is known yet.
    fn over(alloc: Global, conn: Connection<S>) -> SqlBook<S>
        requires { IsResting (state S.Store conn) }
        ensures { result ≡ conn }
    {
        SqlBook {
            conn,
            alloc,
            memory: Memory::new(alloc),
            known: Known::nothing(),
        }
    }

    /// For proofs alone: it is outside a transaction, and while it is open its tables are those of
    /// a book. It reads a field that no other file can.
    pub(crate) fn rests(&self)
        ensures { IsResting (state S.Store self.now) }
    {
        let _ = &self.conn;
    }

    /// The connection, whose tables stay as they are. It takes no memory.
    pub fn into_connection(self) -> Connection<S>
        ensures { result ≡ self }
    {
        let SqlBook {
            conn,
            alloc: _,
            memory: _,
            known: _,
        } = self;
        conn
    }
}

// Each call does what it does for any book, and also leaves the schema number and the plans.
impl<S: Alter> Book for SqlBook<S> {
    ghost use Rattle.std.specs.Prelude.{◌≡◌, IsOk, IfOk, option_map};
    ghost use Rattle.std.specs.Option.{option_copied};
    ghost use Rattle.acct_book.specs.Content.{kept_balance, with_session, with_topup, with_closed};
    ghost use Rattle.acct_book.specs.Content.{with_forward};
    ghost use Rattle.acct_book.specs.Walk.{IsNextRow, IsNextBalance, IsNextTopUp, AreRowsOf};
    ghost use Rattle.acct_book.specs.Walk.{AreKeysOf, AreTopUpsOf};
    ghost use Rattle.acct_sql_tables.specs.Book.{content_at, is_sound_at, is_open_at, is_steady_at};
    ghost use Rattle.acct_sql_tables.specs.Book.{left_at, Wrote, HasReadBook, LeavesPlans};
    ghost use Rattle.acct_sql_tables.specs.Laws.{own_keys, open_settled};

    ghost content = { content_at S.Store };

    ghost is_sound = { is_sound_at S.Store };

    ghost is_open = { is_open_at S.Store };

    ghost is_steady = { is_steady_at S.Store };

    ghost left = { left_at S.Store };

    fn session(&mut self, key: &Key) -> Result<Option<Row>, Unavailable>
        ensures found { is_open_at S.Store self.new
            → IfOk result (λ row. row ≡ (content_at S.Store self.old).rows key.now) }
        ensures reads { HasReadBook S.Store self.old self.new result }
        ensures plans { LeavesPlans (state S.Store self.old) (state S.Store self.new) }
    {
        if let Some(row) = self.known.session(self.alloc, key) {
            return Ok(row);
        }
        let row = self
            .known
            .kept_or_forget(read_session(self.alloc, &mut self.conn, key))?;
        let (client, session) = (key.client.as_str(), key.session.as_slice());
        self.known
            .keep_session(self.alloc, client, session, row.as_ref());
        Ok(row)
    }

    fn balance(&mut self, account: &[u8]) -> Result<i64, Unavailable>
        ensures found { is_open_at S.Store self.new → IfOk result
            (λ balance. balance ≡ kept_balance (content_at S.Store self.old) account.now) }
        ensures steady { is_steady_at S.Store self.old → IsOk result }
        ensures reads { HasReadBook S.Store self.old self.new result }
        ensures plans { LeavesPlans (state S.Store self.old) (state S.Store self.new) }
    {
        if let Some(balance) = self.known.balance(account) {
            return Ok(balance);
        }
        let balance = self
            .known
            .kept_or_forget(read_balance(&mut self.conn, account))?;
        self.known.keep_balance(self.alloc, account, balance);
        Ok(balance)
    }

    fn voucher(&mut self, number: &str) -> Result<Option<TopUp>, Unavailable>
        ensures found { is_open_at S.Store self.new
            → IfOk result (λ topup. topup ≡ (content_at S.Store self.old).topups number.now) }
        ensures reads { HasReadBook S.Store self.old self.new result }
        ensures plans { LeavesPlans (state S.Store self.old) (state S.Store self.new) }
    {
        self.known
            .kept_or_forget(read_voucher(self.alloc, &mut self.conn, number))
    }

    fn put_session(&mut self, row: &Row, balance: i64) -> Result<(), Unavailable>
        ensures writes { Wrote S.Store self.old self.new
            (λ content. with_session content row.now balance) result }
        ensures plans { LeavesPlans (state S.Store self.old) (state S.Store self.new) }
    {
        let is_new = self.known.is_absent(self.alloc, row);
        let is_planned = self.known.has_plan(self.alloc, row);
        self.memory.forget_ended(row);
        self.known.kept_or_forget(write_session(&mut self.conn, row, is_new, is_planned, balance))?;
        let (client, session) = (row.client.as_str(), row.session.as_slice());
        self.known
            .keep_session(self.alloc, client, session, Some(row));
        self.known
            .keep_balance(self.alloc, row.account.as_slice(), balance);
        Ok(())
    }

    fn put_topup(&mut self, topup: &TopUp, balance: i64) -> Result<(), Unavailable>
        ensures writes { Wrote S.Store self.old self.new
            (λ content. with_topup content topup.now balance) result }
        ensures plans { LeavesPlans (state S.Store self.old) (state S.Store self.new) }
    {
        self.known
            .kept_or_forget(write_topup(&mut self.conn, topup, balance))?;
        self.known
            .keep_balance(self.alloc, topup.account.as_slice(), balance);
        Ok(())
    }

    fn close_client(&mut self, client: &str) -> Result<(), Unavailable>
        ensures writes { Wrote S.Store self.old self.new
            (λ content. with_closed content client.now) result }
        ensures plans { LeavesPlans (state S.Store self.old) (state S.Store self.new) }
    {
        let has_ended = self.memory.has_ended(client);
        self.known
            .kept_or_forget(close_client(&mut self.conn, client, has_ended))?;
        self.known.forget_closed(has_ended);
        self.memory.keep_ended(self.alloc, client);
        Ok(())
    }

    fn put_forward(&mut self, gone: &[Key], row: &Row) -> Result<(), Unavailable>
        ensures writes { Wrote S.Store self.old self.new
            (λ content. with_forward content gone.now row.now) result }
        ensures plans { LeavesPlans (state S.Store self.old) (state S.Store self.new) }
    {
        self.memory.forget_ended(row);
        self.known
            .kept_or_forget(write_forward(&mut self.conn, gone, row))?;
        self.known.forget_sessions();
        Ok(())
    }

    fn sessions_of(&mut self, account: &[u8]) -> Result<Vec<Row>, Unavailable>
        ensures found { is_open_at S.Store self.new → IfOk result
            (λ rows. AreRowsOf (content_at S.Store self.old) account.now rows.items) }
        ensures reads { HasReadBook S.Store self.old self.new result }
        ensures plans { LeavesPlans (state S.Store self.old) (state S.Store self.new) }
    {
        self.known
            .kept_or_forget(read_sessions(self.alloc, &mut self.conn, account))
    }

    fn keys_of(&mut self, account: &[u8]) -> Result<Vec<Key>, Unavailable>
        ensures found { is_open_at S.Store self.new → IfOk result
            (λ keys. AreKeysOf (content_at S.Store self.old) account.now keys.items) }
        ensures reads { HasReadBook S.Store self.old self.new result }
        ensures plans { LeavesPlans (state S.Store self.old) (state S.Store self.new) }
    {
        self.known
            .kept_or_forget(read_keys(self.alloc, &mut self.conn, account))
    }

    fn topups_of(&mut self, account: &[u8]) -> Result<Vec<TopUp>, Unavailable>
        ensures found { is_open_at S.Store self.new → IfOk result
            (λ topups. AreTopUpsOf (content_at S.Store self.old) account.now topups.items) }
        ensures reads { HasReadBook S.Store self.old self.new result }
        ensures plans { LeavesPlans (state S.Store self.old) (state S.Store self.new) }
    {
        self.known
            .kept_or_forget(read_topups(self.alloc, &mut self.conn, account))
    }

    fn next_session(&mut self, after: Option<&Key>) -> Result<Option<Row>, Unavailable>
        ensures found { is_open_at S.Store self.new → IfOk result
            (λ row. IsNextRow (content_at S.Store self.old) (option_copied after.entry) row) }
        ensures reads { HasReadBook S.Store self.old self.new result }
        ensures plans { LeavesPlans (state S.Store self.old) (state S.Store self.new) }
    {
        self.known
            .kept_or_forget(read_next_session(self.alloc, &mut self.conn, after))
    }

    fn next_account(&mut self, after: Option<&[u8]>) -> Result<Option<(Vec<u8>, i64)>, Unavailable>
        ensures found { is_open_at S.Store self.new → IfOk result
            (λ kept. IsNextBalance (content_at S.Store self.old) (option_copied after.entry)
            (option_map (λ k. (k.0.items, k.1)) kept)) }
        ensures reads { HasReadBook S.Store self.old self.new result }
        ensures plans { LeavesPlans (state S.Store self.old) (state S.Store self.new) }
    {
        self.known
            .kept_or_forget(read_next_account(&mut self.conn, after))
    }

    fn next_topup(&mut self, after: Option<&str>) -> Result<Option<TopUp>, Unavailable>
        ensures found { is_open_at S.Store self.new → IfOk result
            (λ topup. IsNextTopUp (content_at S.Store self.old) (option_copied after.entry)
            topup) }
        ensures reads { HasReadBook S.Store self.old self.new result }
        ensures plans { LeavesPlans (state S.Store self.old) (state S.Store self.new) }
    {
        self.known
            .kept_or_forget(read_next_topup(self.alloc, &mut self.conn, after))
    }

    ghost open_sound = { λ book told. told.0.0 };

    ghost own_keys = { λ book _. own_keys (S.Store.view book.store).trees };

    ghost settled = { λ book told. open_settled (λ db left. S.Store.settled book.store db told.0.1
        left) told.1 };
}
