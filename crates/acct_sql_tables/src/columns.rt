//! Rows of the tables, as the values of their columns.
ghost use Rattle.std.specs.Prelude.{◌≡◌, ◌+◌, ◌<◌, ◌^◌, pos, Some, IfOk};
ghost use Rattle.sqlite.specs.Values.{bound};
ghost use Rattle.sqlite_value.specs.Order.{column, bytes};
ghost use Rattle.acct_sql_tables.specs.Columns.{session_columns, session_plan_columns};
ghost use Rattle.acct_sql_tables.specs.Columns.{topup_columns};
ghost use Rattle.acct_sql_tables.specs.Columns.{framed_octets, framed_in};
ghost use Rattle.acct_sql_tables.specs.Columns.{code_of, count_in, int_in, state_in, cause_in};
ghost use Rattle.acct_sql_tables.specs.Columns.{session_in_columns, topup_in_columns};
ghost use Rattle.acct_sql_tables.specs.inner.Columns.{account_in_columns, plan_columns};
ghost use Rattle.acct_sql_tables.specs.inner.Columns.{key_in_columns};
ghost use Rattle.acct_sql_tables.specs.inner.Columns.{count_columns};
ghost use Rattle.acct_sql_tables.specs.Make.{mode_of};

use crate::number_bounds::MOST_OCTETS;
use crate::refused::Refused;
use acct_book::{Key, Row, SessionState};
use acct_model::{Count, LAST_MOMENT, Octets, Plan, Text, TopUp};
use sqlite::types::ValueRef;
use std::alloc::Global;

// The octets of an address, of which there is one at least.
fn address_octets(address: &[u8; 4]) -> &[u8]
    ensures value { result.now ≡ address.now }
    ensures back { framed_in address.now ≡ Some address.now }
{
    address.as_slice()
}

// The octets of a session's address, or none if it has none.
fn framed_octets(row: &Row) -> &[u8]
    ensures value { result.now ≡ framed_octets row.now.framed }
    ensures back { framed_in (framed_octets row.now.framed) ≡ row.now.framed }
{
    match &row.framed {
        Some(address) => address_octets(address),
        None => &[],
    }
}

fn code_of(state: SessionState) -> i64
    ensures { result ≡ pos (code_of state) }
{
    match state {
        SessionState::Live => 0,
        SessionState::Closed => 1,
        SessionState::Stopped => 2,
    }
}

/// The columns of a session: client, id, account, class, input, output, seconds, first_seen,
/// last_seen, state, cause, calling, framed.
pub fn session_values(row: &Row) -> [ValueRef<'_>; 13]
    ensures value { bound result ≡ session_columns row.now }
    ensures back { framed_in (framed_octets row.now.framed) ≡ row.now.framed }
{
    [
        ValueRef::Text(row.client.as_str().as_bytes()),
        ValueRef::Blob(row.session.as_slice()),
        ValueRef::Blob(row.account.as_slice()),
        ValueRef::Blob(row.class.as_slice()),
        ValueRef::Int(row.input as i64),
        ValueRef::Int(row.output as i64),
        ValueRef::Int(i64::from(row.seconds)),
        ValueRef::Int(row.first as i64),
        ValueRef::Int(row.last as i64),
        ValueRef::Int(code_of(row.state)),
        ValueRef::Int(i64::from(row.cause)),
        ValueRef::Blob(row.calling.as_slice()),
        ValueRef::Blob(framed_octets(row)),
    ]
}

/// The columns of the class of a session's plan: client, id, plan_class.
pub fn session_plan_values(row: &Row) -> [ValueRef<'_>; 3]
    ensures { bound result ≡ session_plan_columns row.now }
{
    [
        ValueRef::Text(row.client.as_str().as_bytes()),
        ValueRef::Blob(row.session.as_slice()),
        ValueRef::Blob(row.plan.as_slice()),
    ]
}

/// The columns of a top-up: number, account, amount, moment.
pub fn topup_values(topup: &TopUp) -> [ValueRef<'_>; 4]
    ensures { bound result ≡ topup_columns topup.now }
{
    [
        ValueRef::Text(topup.voucher.as_str().as_bytes()),
        ValueRef::Blob(topup.account.as_slice()),
        ValueRef::Int(topup.sum as i64),
        ValueRef::Int(topup.when as i64),
    ]
}

/// The columns of a plan: class, block, unit.
pub fn plan_values(plan: &Plan) -> [ValueRef<'_>; 3]
    requires block { plan.now.block < 2 ^ 63 }
    requires unit { plan.now.unit < 2 ^ 63 }
    ensures { bound result ≡ plan_columns plan.now }
{
    [
        ValueRef::Blob(plan.class.as_slice()),
        ValueRef::Int(plan.block as i64),
        ValueRef::Int(plan.unit as i64),
    ]
}

/// The number by which a row says what a plan counts.
pub fn mode_of(count: Count) -> u64
    ensures value { result ≡ mode_of count }
    ensures fits { result < 2 ^ 63 }
{
    match count {
        Count::Both => 0,
        Count::Input => 1,
        Count::Output => 2,
    }
}

/// The columns of what a plan counts: class, mode.
pub fn count_values(plan: &Plan) -> [ValueRef<'_>; 2]
    ensures { bound result ≡ count_columns plan.now }
{
    [
        ValueRef::Blob(plan.class.as_slice()),
        ValueRef::Int(mode_of(plan.count) as i64),
    ]
}

fn text_at(columns: &sqlite::Row, at: usize) -> Result<Text, Refused>
    ensures { IfOk result (λ text. text ≡ bytes (column columns.now at)) }
{
    Ok(Text {
        text: columns.get(at)?,
    })
}

fn octets_at(columns: &sqlite::Row, at: usize) -> Result<Octets, Refused>
    ensures { IfOk result (λ octets. octets ≡ bytes (column columns.now at)) }
{
    Ok(Octets {
        octets: columns.get(at)?,
    })
}

fn count_at(columns: &sqlite::Row, at: usize) -> Result<u64, Refused>
    ensures { IfOk result (λ n. n ≡ count_in (column columns.now at)) }
{
    Ok(columns.get(at)?)
}

fn word_at(columns: &sqlite::Row, at: usize) -> Result<u32, Refused>
    ensures { IfOk result (λ n. n ≡ count_in (column columns.now at)) }
{
    Ok(columns.get(at)?)
}

// A moment that a book can keep.
fn moment_at(columns: &sqlite::Row, at: usize) -> Result<u64, Refused>
    ensures value { IfOk result (λ n. n ≡ count_in (column columns.now at)) }
    ensures fits { IfOk result (λ n. n < 2 ^ 53) }
{
    let moment = count_at(columns, at)?;
    if moment <= LAST_MOMENT {
        Ok(moment)
    } else {
        Err(Refused)
    }
}

// The state of a session, and the cause that it has in it.
fn end_at(columns: &sqlite::Row) -> Result<(SessionState, u32), Refused>
    ensures state { IfOk result (λ end. end.0 ≡ state_in (column columns.now 9)) }
    ensures cause { IfOk result (λ end. end.1
        ≡ cause_in (column columns.now 9) (column columns.now 10)) }
{
    let code: i64 = columns.get(9)?;
    let cause = word_at(columns, 10)?;
    match code {
        0 => Ok((SessionState::Live, cause)),
        1 => Ok((SessionState::Closed, cause)),
        2 => Ok((SessionState::Stopped, cause)),
        _ => Err(Refused),
    }
}

fn framed_at(columns: &sqlite::Row, at: usize) -> Result<Option<[u8; 4]>, Refused>
    ensures { IfOk result (λ framed. framed ≡ framed_in (bytes (column columns.now at))) }
{
    let octets = octets_at(columns, at)?;
    match octets.as_slice() {
        [] => Ok(None),
        [a, b, c, d] => Ok(Some([*a, *b, *c, *d])),
        _ => Err(Refused),
    }
}

// Input and output, which are no more together than a session can have.
fn counters_at(columns: &sqlite::Row) -> Result<(u64, u64), Refused>
    ensures value { IfOk result (λ pair. (pair.0 ≡ count_in (column columns.now 4))
        × (pair.1 ≡ count_in (column columns.now 5))) }
    ensures fits { IfOk result (λ pair. pair.0 + pair.1 < 2 ^ 63) }
{
    let input = count_at(columns, 4)?;
    let output = count_at(columns, 5)?;
    if input <= MOST_OCTETS && output <= MOST_OCTETS - input {
        Ok((input, output))
    } else {
        Err(Refused)
    }
}

/// The session of a row of the table, if it keeps the bounds. Its plan, which is in another table,
/// is left empty.
pub fn session_at(alloc: Global, columns: &sqlite::Row) -> Result<Row, Refused>
    ensures { IfOk result (λ row. row ≡ session_in_columns (column columns.now)) }
{
    // The numbers are read first, so that no text is held if one of them is refused.
    let (input, output) = counters_at(columns)?;
    let seconds = word_at(columns, 6)?;
    let first = moment_at(columns, 7)?;
    let last = moment_at(columns, 8)?;
    let (state, cause) = end_at(columns)?;
    let framed = framed_at(columns, 12)?;
    Ok(Row {
        client: text_at(columns, 0)?,
        session: octets_at(columns, 1)?,
        account: octets_at(columns, 2)?,
        class: octets_at(columns, 3)?,
        plan: Octets {
            octets: Vec::new(alloc),
        },
        input,
        output,
        seconds,
        first,
        last,
        state,
        cause,
        calling: octets_at(columns, 11)?,
        framed,
    })
}

/// The top-up of a row of the table, if it keeps the bounds.
pub fn topup_at(alloc: Global, columns: &sqlite::Row) -> Result<TopUp, Refused>
    ensures { IfOk result (λ topup. topup ≡ topup_in_columns (column columns.now)) }
{
    let number = text_at(columns, 0)?;
    let account = octets_at(columns, 1)?;
    let sum = count_at(columns, 2)?;
    let when = moment_at(columns, 3)?;
    match TopUp::new(alloc, number.as_str(), account.as_slice(), sum, when) {
        Ok(topup) => Ok(topup),
        Err(_) => Err(Refused),
    }
}

/// The class of a plan of a row that has only this.
pub fn plan_class_at(columns: &sqlite::Row) -> Result<Octets, Refused>
    ensures { IfOk result (λ class. class ≡ bytes (column columns.now 0)) }
{
    octets_at(columns, 0)
}

/// The balance of a row that has only this.
pub fn balance_at(columns: &sqlite::Row) -> Result<i64, Refused>
    ensures { IfOk result (λ balance. balance ≡ int_in (column columns.now 0)) }
{
    Ok(columns.get(0)?)
}

/// The key of a row that has a client and an id.
pub fn key_at(columns: &sqlite::Row) -> Result<Key, Refused>
    ensures { IfOk result (λ key. key ≡ key_in_columns (column columns.now)) }
{
    Ok(Key {
        client: text_at(columns, 0)?,
        session: octets_at(columns, 1)?,
    })
}

/// The account and the balance of a row that has these two.
pub fn account_at(columns: &sqlite::Row) -> Result<(Vec<u8>, i64), Refused>
    ensures { IfOk result (λ kept. (kept.0.items, kept.1)
        ≡ account_in_columns (column columns.now)) }
{
    let name: Vec<u8> = columns.get(0)?;
    let balance: i64 = columns.get(1)?;
    Ok((name, balance))
}
