//! What the desk says at a login.
ghost use Rattle.std.specs.Prelude.{◌≡◌, IfOk, OnOk, length, count_by, map, option_map};
ghost use Rattle.serde_json.specs.Data.{put};
ghost use Rattle.serde_json.specs.View.{view, members_view};
ghost use Rattle.acct_desk_pages.specs.Logins as spec;

use crate::bodies::{PageError, put_number, put_text};
use acct_book::{Row, SessionState};
use acct_model::{Count, Octets, Plan};
use serde_json::{Map, Value};
use std::alloc::{AllocError, Global};
use std::collections::BTreeSet;

/// The most octets that a session reports.
const MOST_OCTETS: u128 = (1 << 63) - 1;

/// Since when the stations of an account count that are other than this one.
pub struct Heard {
    /// The station that logs in.
    pub station: Octets,
    /// The moment in seconds since 1970.
    pub since: u64,
}

impl Drop for Heard {
    fn drop(self) {
        let Heard {
            station: _,
            since: _,
        } = self;
    }
}

/// Whether a balance is below the price of a block.
pub fn is_short(plan: &Plan, balance: i64) -> bool
    ensures { result ≡ spec.is_short plan.now balance }
{
    credit(balance) < plan.unit
}

/// The body of a login that has this stamp.
#[tactic(auto, unfolding(crate::specs::Logins::login_body))]
pub fn login_value(
    alloc: Global,
    plan: &Plan,
    stamp: &str,
    heard: Option<&Heard>,
    balance: i64,
    rows: &[Row],
) -> Result<Value, PageError>
    ensures { IfOk result (λ v. view v ≡ spec.login_body plan.now stamp.now
        (option_map (λ h. h.now) heard.entry) balance rows.now) }
{
    let mut members = Map::new(alloc);
    let counted = String::from_str(alloc, counted_word(plan.count))?;
    put_text(&mut members, alloc, "counted", counted)?;
    put_maybe(&mut members, alloc, "octets", paid_octets(plan, balance))?;
    put_number(&mut members, alloc, "open", count_open(rows))?;
    let stamp = String::from_str(alloc, stamp)?;
    put_text(&mut members, alloc, "stamp", stamp)?;
    let stations = stations_of(alloc, heard, rows)?;
    put_maybe(&mut members, alloc, "stations", stations)?;
    Ok(Value::from(members))
}

// Puts a number, or null.
fn put_maybe(
    members: &mut Map<String, Value>,
    alloc: Global,
    name: &str,
    value: Option<u64>,
) -> Result<(), AllocError>
    ensures { OnOk result (members_view members.new.entries
        ≡ put name.now (spec.number_or_null value) (members_view members.old.entries)) }
{
    match value {
        Some(number) => serde_json::put(members, alloc, name, Value::from(number)),
        None => serde_json::put(members, alloc, name, Value::Null),
    }
}

// What a balance has above 0.
fn credit(balance: i64) -> u64
    ensures exact { result ≡ spec.credit_of balance }
{
    if balance < 0 { 0 } else { balance as u64 }
}

// The word for what a plan counts.
fn counted_word(count: Count) -> &'static str
    ensures { result.now ≡ spec.counted_word count }
{
    match count {
        Count::Both => "total",
        Count::Input => "in",
        Count::Output => "out",
    }
}

// How many counted octets a balance pays.
fn paid_octets(plan: &Plan, balance: i64) -> Option<u64>
    ensures { result ≡ spec.paid_octets plan.now balance }
{
    if plan.unit == 0 {
        return None;
    }
    let blocks = u128::from(credit(balance) / plan.unit);
    let octets = blocks * u128::from(plan.block);
    Some(octets.min(MOST_OCTETS) as u64)
}

// How many of the rows are of sessions that go on.
fn count_open(rows: &[Row]) -> u64
    ensures { result ≡ count_by spec.is_open rows.now }
{
    let mut count = 0u64;
    for row in rows {
        if row.state == SessionState::Live {
            count += 1;
        }
    }
    count
}

// How many other stations were heard, if a station was named.
fn stations_of(
    alloc: Global,
    heard: Option<&Heard>,
    rows: &[Row],
) -> Result<Option<u64>, AllocError>
    ensures { IfOk result (λ count.
        count ≡ spec.stations_heard (option_map (λ h. h.now) heard.entry) rows.now) }
{
    match heard {
        Some(heard) => Ok(Some(other_stations(alloc, heard, rows)?)),
        None => Ok(None),
    }
}

// How many other stations were heard.
fn other_stations(alloc: Global, heard: &Heard, rows: &[Row]) -> Result<u64, AllocError>
    ensures { IfOk result (λ count. count ≡ length (spec.other_stations heard.now rows.now)) }
{
    let mut stations = BTreeSet::new(alloc);
    for row in rows {
        add_station(alloc, &mut stations, heard, row)?;
    }
    Ok(stations.len() as u64)
}

// Adds the station of a row, if it counts.
fn add_station(
    alloc: Global,
    stations: &mut BTreeSet<Vec<u8>>,
    heard: &Heard,
    row: &Row,
) -> Result<(), AllocError>
    ensures { OnOk result (map (λ k. k.items) stations.new.keys
        ≡ spec.with_station heard.now (map (λ k. k.items) stations.old.keys) row.now) }
{
    if !is_other(heard, row) {
        return Ok(());
    }
    let station = owned(alloc, row.calling.as_slice())?;
    if stations.insert(station).is_err() {
        return Err(AllocError);
    }
    Ok(())
}

// Whether a row is of a session that goes on, of another station, and was heard.
fn is_other(heard: &Heard, row: &Row) -> bool
    ensures { result ≡ spec.is_other heard.now row.now }
{
    row.state == SessionState::Live
        && heard.since <= row.last
        && !row.calling.as_slice().is_empty()
        && heard.station.as_slice() != row.calling.as_slice()
}

// A copy of octets.
fn owned(alloc: Global, octets: &[u8]) -> Result<Vec<u8>, AllocError>
    ensures { IfOk result (λ copy. copy.items ≡ octets.now) }
{
    octets.to_vec(alloc)
}
