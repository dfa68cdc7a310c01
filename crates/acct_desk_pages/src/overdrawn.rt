//! The open sessions of accounts below 0, which the site's front may end.
ghost use Rattle.std.specs.Prelude.{◌≡◌, ◌++◌, [], ◌∷◌, IfOk, OnOk, map, codes, option_map};
ghost use Rattle.std.specs.Prelude.{string_bytes};
ghost use Rattle.std.specs.List.{filter_map, before_first, after_first};
ghost use Rattle.std.specs.Option.{option_copied};
ghost use Rattle.serde_json.specs.Data.{array, object, member, no_members, put, number, unsigned};
ghost use Rattle.serde_json.specs.Data.{string};
ghost use Rattle.serde_json.specs.View.{view, items_view, members_view};
ghost use Rattle.acct_model.specs.Shown.{shown, shown_address};
ghost use Rattle.acct_desk_pages.specs.Overdrawn as spec;

use crate::bodies::{PageError, put_number, put_text};
use acct_book::{Row, SessionState};
use acct_model::{coded_text, is_login, show, show_address};
use serde_json::{Map, Value};
use std::alloc::{AllocError, Global};

/// Adds the open sessions of rows.
pub fn add_open_sessions(
    alloc: Global,
    sessions: &mut Vec<Value>,
    rows: &[Row],
) -> Result<(), PageError>
    ensures { OnOk result (map view sessions.new.items
        ≡ map view sessions.old.items ++ filter_map spec.open_in rows.now) }
{
    for row in rows {
        add_open(alloc, sessions, row)?;
    }
    Ok(())
}

// Adds the session of a row, if it is open.
fn add_open(alloc: Global, sessions: &mut Vec<Value>, row: &Row) -> Result<(), PageError>
    ensures { OnOk result (map view sessions.new.items
        ≡ map view sessions.old.items ++ filter_map spec.open_in (row.now ∷ [])) }
{
    if row.state == SessionState::Live {
        let value = open_value(alloc, row)?;
        serde_json::push(sessions, value)?;
    }
    Ok(())
}

#[tactic(auto, unfolding(crate::specs::Overdrawn::open_item))]
fn open_value(alloc: Global, row: &Row) -> Result<Value, PageError>
    ensures { IfOk result (λ v. view v ≡ spec.open_item row.now) }
{
    let mut members = Map::new(alloc);
    put_who(&mut members, alloc, row)?;
    put_where(&mut members, alloc, row)?;
    put_which(&mut members, alloc, row)?;
    Ok(Value::from(members))
}

// Who has the session.
fn put_who(members: &mut Map<String, Value>, alloc: Global, row: &Row) -> Result<(), PageError>
    ensures { OnOk result (members_view members.new.entries
        ≡ put (codes "framed") (string (shown_address row.now.framed))
        (put (codes "calling") (string (shown row.now.calling))
        (put (codes "account") (string (shown row.now.account))
        (members_view members.old.entries)))) }
{
    let account = show(alloc, row.account.as_slice())?;
    put_text(members, alloc, "account", account)?;
    let calling = show(alloc, row.calling.as_slice())?;
    put_text(members, alloc, "calling", calling)?;
    let framed = show_address(alloc, row.framed)?;
    put_text(members, alloc, "framed", framed)?;
    Ok(())
}

// Where it is.
fn put_where(members: &mut Map<String, Value>, alloc: Global, row: &Row) -> Result<(), PageError>
    ensures { OnOk result (members_view members.new.entries
        ≡ put (codes "device") (string (after_first spec.is_slash row.now.client))
        (put (codes "client") (string (before_first spec.is_slash row.now.client))
        (members_view members.old.entries))) }
{
    let client = String::from_str(alloc, client_of(row.client.as_str()))?;
    put_text(members, alloc, "client", client)?;
    let device = String::from_str(alloc, device_of(row.client.as_str()))?;
    put_text(members, alloc, "device", device)?;
    Ok(())
}

// Which it is, and when it was last heard.
fn put_which(members: &mut Map<String, Value>, alloc: Global, row: &Row) -> Result<(), PageError>
    ensures { OnOk result (members_view members.new.entries
        ≡ put (codes "session") (string (shown row.now.session))
        (put (codes "last") (number (unsigned row.now.last))
        (put (codes "id") (string (shown (spec.own_id row.now.account row.now.session)))
        (members_view members.old.entries)))) }
{
    let id = shown_id(alloc, row)?;
    put_text(members, alloc, "id", id)?;
    put_number(members, alloc, "last", row.last)?;
    let session = show(alloc, row.session.as_slice())?;
    put_text(members, alloc, "session", session)?;
    Ok(())
}

// The id that the access server gave the session.
fn shown_id(alloc: Global, row: &Row) -> Result<String, PageError>
    ensures { IfOk result (λ id. string_bytes id
        ≡ shown (spec.own_id row.now.account row.now.session)) }
{
    let payer = coded_text(alloc, row.account.as_slice())?;
    let end = ["/", payer.as_str()].concat(alloc)?;
    Ok(show(alloc, before_payer(end.as_bytes(), row.session.as_slice()))?)
}

// What is before `/LOGIN` and this end, if a session ends so, else the whole session.
fn before_payer<'s>(end: &[u8], session: &'s [u8]) -> &'s [u8]
    ensures { result.now ≡ spec.before_payer session.now (spec.without_end end.now session.now) }
{
    match without_end(end, session) {
        Some(rest) => before_login(session, rest),
        None => session,
    }
}

fn before_login<'s>(session: &'s [u8], rest: &'s [u8]) -> &'s [u8]
    ensures { result.now ≡ spec.before_login session.now (spec.cut_last rest.now) }
{
    match cut_last(rest) {
        Some((id, login)) if is_login(login) => id,
        _ => session,
    }
}

// Octets without their end, if they end so.
fn without_end<'s>(end: &[u8], octets: &'s [u8]) -> Option<&'s [u8]>
    ensures { option_map (λ rest. rest.now) result ≡ spec.without_end end.now octets.now }
{
    octets.strip_suffix(end)
}

// What is before the last slash of octets, and what is behind it.
fn cut_last(octets: &[u8]) -> Option<(&[u8], &[u8])>
    ensures { option_map (λ parts. (parts.0.now, parts.1.now)) result ≡ spec.cut_last octets.now }
{
    for behind in 0..octets.len() {
        let i = octets.len() - 1 - behind;
        if octets[i] == b'/' {
            return Some((&octets[..i], &octets[i + 1..]));
        }
    }
    None
}

// The name of a client, and that of its device.
fn client_of(name: &str) -> &str
    ensures { result.now ≡ before_first spec.is_slash name.now }
{
    match name.split_once('/') {
        Some((client, _)) => client,
        None => name,
    }
}

fn device_of(name: &str) -> &str
    ensures { result.now ≡ after_first spec.is_slash name.now }
{
    match name.split_once('/') {
        Some((_, device)) => device,
        None => "",
    }
}

/// The body with these open sessions, and the account to go on from.
pub fn open_sessions_value(
    alloc: Global,
    next: Option<&[u8]>,
    sessions: Vec<Value>,
) -> Result<Value, PageError>
    ensures { IfOk result (λ v. view v
        ≡ object (member (codes "next") (spec.spelled_or_null (option_copied next.entry))
        (member (codes "sessions") (array (items_view sessions.items)) no_members))) }
{
    let mut members = Map::new(alloc);
    match next {
        Some(account) => {
            let account = coded_text(alloc, account)?;
            put_text(&mut members, alloc, "next", account)?;
        }
        None => serde_json::put(&mut members, alloc, "next", Value::Null)?,
    }
    serde_json::put(&mut members, alloc, "sessions", Value::from(sessions))?;
    Ok(Value::from(members))
}
