//! The lists of an account, each in the order of its keys.
ghost use Rattle.std.specs.Prelude.{◌≡◌, ℕ, List, IsTrue, IfOk, OnOk, map};
ghost use Rattle.std.specs.declared.cmp.Ordering.TheVariants.{Less};
ghost use Rattle.std.specs.List.Sorted.{IsStrictlySortedBy};
ghost use Rattle.sqlite_value.specs.Order.{column};
ghost use Rattle.acct_model.specs.Vouchers.{TopUpFacts};
ghost use Rattle.acct_book.specs.Content.{key_of};
ghost use Rattle.acct_book.specs.Maps.{octets_cmp, key_cmp};
ghost use Rattle.acct_book.specs.Walk.{AreKeysOf, AreRowsOf, AreTopUpsOf};
ghost use Rattle.acct_sql_tables.specs.Columns.{session_in_columns, topup_in_columns};
ghost use Rattle.acct_sql_tables.specs.Book.{content_at, is_sound_at, is_open_at};
ghost use Rattle.acct_sql_tables.specs.inner.Columns.{key_in_columns};
ghost use Rattle.acct_sql_tables.specs.inner.AtRest.{IsAtRest, ReadsAtRest, StaysAtRest, planned};
ghost use Rattle.acct_sql_tables.specs.inner.AtRest.{plans_at};

use crate::columns::{key_at, topup_at};
use crate::queries::{ask, session_with_plan};
use crate::refused::Refused;
use crate::statements::{KEYS_OF_ACCOUNT, SESSIONS_OF_ACCOUNT, TOPUPS_OF_ACCOUNT};
use acct_book::{Key, Row};
use acct_model::TopUp;
use sqlite::{Alter, Connection, params};
use std::alloc::Global;
use std::cmp::Ordering;

/// All rows of an account, in the order of their keys. It refuses a table that shows a key twice.
pub fn read_sessions<S: Alter>(
    alloc: Global,
    conn: &mut Connection<S>,
    account: &[u8],
) -> Result<Vec<Row>, Refused>
    requires { IsAtRest S.Store conn.old }
    ensures read { ReadsAtRest S.Store conn.old conn.new result }
    ensures found { is_open_at S.Store conn.new → IfOk result
        (λ rows. AreRowsOf (content_at S.Store conn.old) account.now rows.items) }
{
    let shown = ask(conn, SESSIONS_OF_ACCOUNT, params![account])?;
    let rows = sessions_in(alloc, conn, &shown)?;
    if sessions_ascend(&rows) {
        Ok(rows)
    } else {
        Err(Refused)
    }
}

/// The keys of all rows of an account, in their order. It refuses a table that shows a key twice.
pub fn read_keys<S: Alter>(
    alloc: Global,
    conn: &mut Connection<S>,
    account: &[u8],
) -> Result<Vec<Key>, Refused>
    requires { IsAtRest S.Store conn.old }
    ensures read { ReadsAtRest S.Store conn.old conn.new result }
    ensures found { is_open_at S.Store conn.new → IfOk result
        (λ keys. AreKeysOf (content_at S.Store conn.old) account.now keys.items) }
{
    let shown = ask(conn, KEYS_OF_ACCOUNT, params![account])?;
    let keys = keys_in(alloc, &shown)?;
    if keys_ascend(&keys) {
        Ok(keys)
    } else {
        Err(Refused)
    }
}

/// All top-ups of an account, in the order of their numbers. It refuses a table that shows a number
/// twice.
pub fn read_topups<S: Alter>(
    alloc: Global,
    conn: &mut Connection<S>,
    account: &[u8],
) -> Result<Vec<TopUp>, Refused>
    requires { IsAtRest S.Store conn.old }
    ensures read { ReadsAtRest S.Store conn.old conn.new result }
    ensures found { is_open_at S.Store conn.new → IfOk result
        (λ topups. AreTopUpsOf (content_at S.Store conn.old) account.now topups.items) }
{
    let shown = ask(conn, TOPUPS_OF_ACCOUNT, params![account])?;
    let topups = topups_in(alloc, &shown)?;
    if topups_ascend(&topups) {
        Ok(topups)
    } else {
        Err(Refused)
    }
}

fn sessions_in<S: Alter>(
    alloc: Global,
    conn: &mut Connection<S>,
    shown: &[sqlite::Row],
) -> Result<Vec<Row>, Refused>
    requires { IsAtRest S.Store conn.old }
    ensures stays { StaysAtRest S.Store conn.old conn.new }
    ensures stays_open { is_sound_at S.Store conn.new → is_open_at S.Store conn.old
        → OnOk result (is_open_at S.Store conn.new) }
    ensures found { is_open_at S.Store conn.new → IfOk result
        (λ rows. rows.items ≡ map (λ r. planned (plans_at S.Store conn.old)
        (session_in_columns (column r))) shown.now) }
{
    let mut rows = Vec::new(alloc);
    for columns in shown {
        rows.push(session_with_plan(alloc, conn, columns)?)?;
    }
    Ok(rows)
}

fn keys_in(alloc: Global, shown: &[sqlite::Row]) -> Result<Vec<Key>, Refused>
    ensures { IfOk result (λ keys. keys.items ≡ map (λ r. key_in_columns (column r)) shown.now) }
{
    let mut keys = Vec::new(alloc);
    for columns in shown {
        keys.push(key_at(columns)?)?;
    }
    Ok(keys)
}

fn topups_in(alloc: Global, shown: &[sqlite::Row]) -> Result<Vec<TopUp>, Refused>
    ensures { IfOk result (λ topups. topups.items
        ≡ map (λ r. topup_in_columns (column r)) shown.now) }
{
    let mut topups = Vec::new(alloc);
    for columns in shown {
        topups.push(topup_at(alloc, columns)?)?;
    }
    Ok(topups)
}

fn sessions_ascend(rows: &[Row]) -> bool
    ensures { IsTrue result → IsStrictlySortedBy key_cmp (map key_of rows.now) }
{
    for at in 1..rows.len() {
        if !row_precedes(&rows[at - 1], &rows[at]) {
            return false;
        }
    }
    true
}

fn row_precedes(row: &Row, next: &Row) -> bool
    ensures { IsTrue result → key_cmp (key_of row.now) (key_of next.now) ≡ Less }
{
    row.client
        .cmp(&next.client)
        .then(row.session.cmp(&next.session))
        == Ordering::Less
}

fn keys_ascend(keys: &[Key]) -> bool
    ensures { IsTrue result → IsStrictlySortedBy key_cmp keys.now }
{
    for at in 1..keys.len() {
        if !key_precedes(&keys[at - 1], &keys[at]) {
            return false;
        }
    }
    true
}

fn key_precedes(key: &Key, next: &Key) -> bool
    ensures { IsTrue result → key_cmp key.now next.now ≡ Less }
{
    key.cmp(next) == Ordering::Less
}

fn topups_ascend(topups: &[TopUp]) -> bool
    ensures { IsTrue result → IsStrictlySortedBy octets_cmp
        (map (λ (t : TopUpFacts). t.voucher) topups.now) }
{
    for at in 1..topups.len() {
        if !topup_precedes(&topups[at - 1], &topups[at]) {
            return false;
        }
    }
    true
}

fn topup_precedes(topup: &TopUp, next: &TopUp) -> bool
    ensures { IsTrue result → octets_cmp topup.now.voucher next.now.voucher ≡ Less }
{
    topup.voucher.cmp(&next.voucher) == Ordering::Less
}
