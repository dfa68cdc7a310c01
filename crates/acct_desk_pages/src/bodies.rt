//! What the desk returns about accounts, as JSON.
ghost use Rattle.std.specs.Prelude.{◌≡◌, ◌≢◌, ◌+◌, Err, IfOk, OnOk, map, codes, decimal};
ghost use Rattle.std.specs.Prelude.{string_bytes};
ghost use Rattle.serde_json.specs.Data.{put, string, number, unsigned};
ghost use Rattle.serde_json.specs.View.{view, members_view};
ghost use Rattle.acct_model.specs.Shown.{shown, shown_address};
ghost use Rattle.acct_book.specs.Charge.{charge_of_row};
ghost use Rattle.acct_book.specs.Row.{state_text};
ghost use Rattle.acct_desk_pages.specs.Bodies.{balance_body, session_item};
ghost use Rattle.acct_desk_pages.specs.Bodies.{sessions_body, topup_item, topups_body};
ghost use Rattle.acct_desk_pages.specs.Bodies.{overrun_item};

use acct_book::{Row, Unavailable, charge, overrun};
use acct_model::{NoMemory, Plans, TopUp, show, show_address};
use serde_json::{Map, Value, json};
use std::alloc::{AllocError, Global};

/// Why there is no page.
#[derive(Clone, Copy, Debug, PartialEq, Eq)]
pub enum PageError {
    /// The book is unavailable.
    Unavailable,
    /// Out of memory.
    Memory,
}

impl From<Unavailable> for PageError {
    ghost use Rattle.std.specs.Prelude.{◌≡◌};
    ghost use Rattle.acct_desk_pages.specs.declared.bodies.PageError.TheVariants as page;

    ghost from_gives = { λ _ e. e ≡ page.Unavailable };

    fn from(_error: Unavailable) -> PageError {
        PageError::Unavailable
    }
}

impl From<AllocError> for PageError {
    ghost use Rattle.std.specs.Prelude.{◌≡◌};
    ghost use Rattle.acct_desk_pages.specs.declared.bodies.PageError.TheVariants.{Memory};

    ghost from_gives = { λ _ e. e ≡ Memory };

    fn from(_error: AllocError) -> PageError {
        PageError::Memory
    }
}

impl From<NoMemory> for PageError {
    ghost use Rattle.std.specs.Prelude.{◌≡◌};
    ghost use Rattle.acct_desk_pages.specs.declared.bodies.PageError.TheVariants.{Memory};

    ghost from_gives = { λ _ e. e ≡ Memory };

    fn from(_error: NoMemory) -> PageError {
        PageError::Memory
    }
}

/// The body of `/me/balance`.
pub fn balance_value(alloc: Global, account: &[u8], balance: i64) -> Result<Value, PageError>
    ensures shown { IfOk result (λ v. view v ≡ balance_body account.now balance) }
    ensures refused { result ≢ Err PageError.Unavailable }
{
    let account = show(alloc, account)?;
    let overrun = overrun(balance);
    Ok(json!(in alloc; {"account": account, "balance": balance, "overrun": overrun})?)
}

/// The body of `/me/sessions`.
pub fn sessions_value(
    alloc: Global,
    plans: &Plans,
    account: &[u8],
    rows: &[Row],
) -> Result<Value, PageError>
    ensures { IfOk result (λ v. view v ≡ sessions_body plans.now account.now rows.now) }
{
    let account = show(alloc, account)?;
    let sessions = session_values(alloc, plans, rows)?;
    Ok(json!(in alloc; {"account": account, "sessions": sessions})?)
}

fn session_values(alloc: Global, plans: &Plans, rows: &[Row]) -> Result<Vec<Value>, PageError>
    ensures { IfOk result (λ vs. map view vs.items ≡ map (session_item plans.now) rows.now) }
{
    let mut values = Vec::new(alloc);
    for row in rows {
        let value = session_value(alloc, plans, row)?;
        serde_json::push(&mut values, value)?;
    }
    Ok(values)
}

#[tactic(auto, unfolding(crate::specs::Bodies::session_item))]
fn session_value(alloc: Global, plans: &Plans, row: &Row) -> Result<Value, PageError>
    ensures { IfOk result (λ v. view v ≡ session_item plans.now row.now) }
{
    let mut members = Map::new(alloc);
    put_names(&mut members, alloc, row)?;
    put_times(&mut members, alloc, row)?;
    put_octets(&mut members, alloc, row)?;
    put_state(&mut members, alloc, plans, row)?;
    Ok(Value::from(members))
}

// Who had the session.
fn put_names(members: &mut Map<String, Value>, alloc: Global, row: &Row) -> Result<(), PageError>
    ensures { OnOk result (members_view members.new.entries
        ≡ put (codes "session") (string (shown row.now.session))
        (put (codes "client") (string row.now.client)
        (put (codes "class") (string (shown row.now.class))
        (put (codes "calling") (string (shown row.now.calling))
        (members_view members.old.entries))))) }
{
    let calling = show(alloc, row.calling.as_slice())?;
    put_text(members, alloc, "calling", calling)?;
    let class = show(alloc, row.class.as_slice())?;
    put_text(members, alloc, "class", class)?;
    let client = String::from_str(alloc, row.client.as_str())?;
    put_text(members, alloc, "client", client)?;
    let session = show(alloc, row.session.as_slice())?;
    put_text(members, alloc, "session", session)?;
    Ok(())
}

// When it was.
fn put_times(members: &mut Map<String, Value>, alloc: Global, row: &Row) -> Result<(), PageError>
    ensures { OnOk result (members_view members.new.entries
        ≡ put (codes "seconds") (number (unsigned row.now.seconds))
        (put (codes "last") (number (unsigned row.now.last))
        (put (codes "first") (number (unsigned row.now.first))
        (members_view members.old.entries)))) }
{
    put_number(members, alloc, "first", row.first)?;
    put_number(members, alloc, "last", row.last)?;
    put_number(members, alloc, "seconds", u64::from(row.seconds))?;
    Ok(())
}

// How many octets it carried.
fn put_octets(members: &mut Map<String, Value>, alloc: Global, row: &Row) -> Result<(), PageError>
    ensures { OnOk result (members_view members.new.entries
        ≡ put (codes "total") (number (unsigned (row.now.input + row.now.output)))
        (put (codes "output") (number (unsigned row.now.output))
        (put (codes "input") (number (unsigned row.now.input))
        (members_view members.old.entries)))) }
{
    put_number(members, alloc, "input", row.input)?;
    put_number(members, alloc, "output", row.output)?;
    put_number(members, alloc, "total", row.total())?;
    Ok(())
}

// What it cost, how it ended, and the address that it had.
fn put_state(
    members: &mut Map<String, Value>,
    alloc: Global,
    plans: &Plans,
    row: &Row,
) -> Result<(), PageError>
    ensures { OnOk result (members_view members.new.entries
        ≡ put (codes "state") (string (state_text row.now.state))
        (put (codes "framed") (string (shown_address row.now.framed))
        (put (codes "charged") (string (decimal (charge_of_row plans.now row.now)))
        (put (codes "cause") (number (unsigned row.now.cause))
        (members_view members.old.entries))))) }
{
    put_number(members, alloc, "cause", u64::from(row.cause))?;
    let charged = charge(plans, row).to_string(alloc)?;
    put_text(members, alloc, "charged", charged)?;
    let framed = show_address(alloc, row.framed)?;
    put_text(members, alloc, "framed", framed)?;
    let state = String::from_str(alloc, row.state.word())?;
    put_text(members, alloc, "state", state)?;
    Ok(())
}

pub(crate) fn put_text(
    members: &mut Map<String, Value>,
    alloc: Global,
    name: &str,
    text: String,
) -> Result<(), AllocError>
    ensures { OnOk result (members_view members.new.entries
        ≡ put name.now (string (string_bytes text)) (members_view members.old.entries)) }
{
    serde_json::put(members, alloc, name, Value::from(text))
}

pub(crate) fn put_number(
    members: &mut Map<String, Value>,
    alloc: Global,
    name: &str,
    value: u64,
) -> Result<(), AllocError>
    ensures { OnOk result (members_view members.new.entries
        ≡ put name.now (number (unsigned value)) (members_view members.old.entries)) }
{
    serde_json::put(members, alloc, name, Value::from(value))
}

/// The body of `/me/topups`.
pub fn topups_value(alloc: Global, account: &[u8], topups: &[TopUp]) -> Result<Value, PageError>
    ensures { IfOk result (λ v. view v ≡ topups_body account.now topups.now) }
{
    let account = show(alloc, account)?;
    let topups = topup_values(alloc, topups)?;
    Ok(json!(in alloc; {"account": account, "topups": topups})?)
}

fn topup_values(alloc: Global, topups: &[TopUp]) -> Result<Vec<Value>, PageError>
    ensures { IfOk result (λ vs. map view vs.items ≡ map topup_item topups.now) }
{
    let mut values = Vec::new(alloc);
    for topup in topups {
        let value = topup_value(alloc, topup)?;
        serde_json::push(&mut values, value)?;
    }
    Ok(values)
}

#[tactic(auto, unfolding(crate::specs::Bodies::topup_item))]
fn topup_value(alloc: Global, topup: &TopUp) -> Result<Value, AllocError>
    ensures { IfOk result (λ v. view v ≡ topup_item topup.now) }
{
    json!(in alloc; {
        "sum": topup.sum,
        "voucher": topup.voucher.as_str(),
        "when": topup.when
    })
}

/// One account of the body of `/overruns`.
#[tactic(auto, unfolding(crate::specs::Bodies::overrun_item))]
pub fn overrun_value(alloc: Global, account: &[u8], overrun: u64) -> Result<Value, PageError>
    ensures { IfOk result (λ v. view v ≡ overrun_item account.now overrun) }
{
    let account = show(alloc, account)?;
    Ok(json!(in alloc; {"account": account, "overrun": overrun})?)
}
