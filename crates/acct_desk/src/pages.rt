//! The pages that the desk makes from the book.
ghost use Rattle.std.specs.Prelude.{◌≡◌, ◌≢◌, false, List, [], ◌∷◌, ◌++◌, Err, IfOk, OnOk, IsOk};
ghost use Rattle.std.specs.Prelude.{IsErr, map, option_map, codes, string_bytes, ◌<◌, ◌^◌};
ghost use Rattle.std.specs.List.{filter_map};
ghost use Rattle.std.specs.Option.{option_copied};
ghost use Rattle.std.specs.Result.{ForOk};
ghost use Rattle.serde_json.specs.Data.{array, object, member, no_members};
ghost use Rattle.serde_json.specs.View.{view, items_view};
ghost use Rattle.serde_json.specs.Written.{has_float};
ghost use Rattle.acct_model.specs.declared.plan.Plan.{Plan};
ghost use Rattle.acct_desk.specs.Asks.{me, overruns, look, login, overdrawn};
ghost use Rattle.acct_desk_pages.specs.Bodies.{balance_body, overrun_in};
ghost use Rattle.acct_desk_pages.specs.Logins.{login_body};
ghost use Rattle.acct_desk_pages.specs.Responses.{error_body};
ghost use Rattle.acct_desk.specs.declared.asking.Page.TheVariants as page;
ghost use Rattle.acct_desk.specs.inner.LoginView.{login_view};
ghost use Rattle.acct_desk.specs.inner.Pages.{Shows, ShowsBy, IsPageResponse, IsResponseBy};
ghost use Rattle.acct_desk.specs.inner.Pages.{told_of};
ghost use Rattle.acct_desk.specs.inner.Part.{Adds};

use crate::login::Login;
use acct_book::{Book, Row, Unavailable, WALK_LIMIT, overrun};
use acct_desk_pages::bodies::{
    PageError, balance_value, overrun_value, sessions_value, topups_value,
};
use acct_desk_pages::json_response::{error_value, respond, unavailable_octets};
use acct_desk_pages::login::{is_short, login_value};
use acct_desk_pages::overdrawn::{add_open_sessions, open_sessions_value};
use acct_model::{NoMemory, Plans};
use http::StatusCode;
use serde_json::{Value, json};
use std::alloc::{AllocError, Global};

// The body of `/me/balance`.
pub(crate) fn balance_page<B: Book>(
    alloc: Global,
    book: &mut B,
    account: &[u8],
) -> Result<Value, PageError>
    ensures shows { (plans : List Plan)
        → Shows plans (me page.Balance account.now) B.Book book.old book.new result }
    ensures steady { B.is_steady book.old → result ≢ Err PageError.Unavailable }
{
    let told = book.balance(account);
    told_balance(alloc, account, told)
}

// The body of `/me/balance`, from the book's answer.
fn told_balance(
    alloc: Global,
    account: &[u8],
    told: Result<i64, Unavailable>,
) -> Result<Value, PageError>
    ensures shown { IfOk result (λ v.
        IfOk told (λ balance. view v ≡ balance_body account.now balance)) }
    ensures answers { OnOk result (IsOk told) }
    ensures refused { result ≡ Err PageError.Unavailable → IsErr told }
{
    match told {
        Ok(balance) => balance_value(alloc, account, balance),
        Err(_) => Err(PageError::Unavailable),
    }
}

// The body of `/me/sessions`.
pub(crate) fn sessions_page<B: Book>(
    alloc: Global,
    plans: &Plans,
    book: &mut B,
    account: &[u8],
) -> Result<Value, PageError>
    ensures { Shows plans.now (me page.Sessions account.now) B.Book book.old book.new result }
{
    let rows = book.sessions_of(account)?;
    sessions_value(alloc, plans, account, &rows)
}

// The body of `/me/topups`.
pub(crate) fn topups_page<B: Book>(
    alloc: Global,
    book: &mut B,
    account: &[u8],
) -> Result<Value, PageError>
    ensures { (plans : List Plan)
        → Shows plans (me page.TopUps account.now) B.Book book.old book.new result }
{
    let topups = book.topups_of(account)?;
    topups_value(alloc, account, &topups)
}

// What is told: a status and a body.
#[derive(Drop)]
pub(crate) struct Told {
    pub status: StatusCode,
    pub body: Value,
}

// What a login may use. If the balance is too low for a block, the sessions are not read.
pub(crate) fn login_page<B: Book>(
    alloc: Global,
    book: &mut B,
    asked: &Login<'_>,
) -> Result<Told, PageError>
    ensures { (plans : List Plan)
        → ShowsBy told_of plans (look (login (login_view asked.now))) B.Book
        book.old book.new result }
{
    let balance = book.balance(asked.account.as_slice())?;
    if is_short(asked.plan, balance) {
        return no_balance(alloc);
    }
    let rows = book.sessions_of(asked.account.as_slice())?;
    told_login(alloc, asked, balance, &rows)
}

// That the balance is too low.
fn no_balance(alloc: Global) -> Result<Told, PageError>
    ensures { IfOk result (λ told. told_of told ≡ (402, error_body (codes "no balance"))) }
{
    let body = error_value(alloc, "no balance")?;
    Ok(Told {
        status: StatusCode::PAYMENT_REQUIRED,
        body,
    })
}

// How much may be used.
fn told_login(
    alloc: Global,
    asked: &Login<'_>,
    balance: i64,
    rows: &[Row],
) -> Result<Told, PageError>
    ensures { IfOk result (λ told. told_of told
        ≡ (
          200,
          login_body asked.now.plan.now (string_bytes asked.now.stamp) asked.now.heard
              balance rows.now,
        )) }
{
    let heard = asked.heard.as_ref();
    let stamp = asked.stamp.as_str();
    let body = login_value(alloc, asked.plan, stamp, heard, balance, rows)?;
    Ok(Told {
        status: StatusCode::OK,
        body,
    })
}

// The body of `/overruns`. It holds the overdrawn accounts, and one account of the book at a time.
pub(crate) fn overruns_page<B: Book>(alloc: Global, book: &mut B) -> Result<Value, PageError>
    ensures { (plans : List Plan) → Shows plans overruns B.Book book.old book.new result }
{
    let mut over = Vec::new(alloc);
    let mut last = None;
    for _ in 0..WALK_LIMIT {
        match book.next_account(start_of(&last))? {
            None => return Ok(overruns_value(alloc, over)?),
            Some(entry) => {
                add_overrun(alloc, &mut over, &entry)?;
                let (account, _) = entry;
                last = Some(account);
            }
        }
    }
    Err(PageError::Unavailable)
}

// The most accounts of a part, and the rows with which it is full.
const PART_ACCOUNTS: usize = 5000;

const PART_ROWS: usize = 1000;

// The open sessions of accounts below 0, a part of the accounts at a time. It holds those sessions,
// and the rows of one account.
pub(crate) fn open_sessions_page<B: Book>(
    alloc: Global,
    book: &mut B,
    after: Option<Vec<u8>>,
) -> Result<Value, PageError>
    ensures { (plans : List Plan) → Shows plans
        (look (overdrawn (option_map (λ a. a.items) after))) B.Book book.old book.new result }
{
    let mut found = Vec::new(alloc);
    let mut last = after;
    let mut rows = 0;
    for _ in 0..PART_ACCOUNTS {
        let Some(entry) = book.next_account(start_of(&last))? else {
            return open_sessions_value(alloc, None, found);
        };
        rows += add_account(alloc, book, &mut found, &entry)?;
        let (account, _) = entry;
        last = Some(account);
        if rows >= PART_ROWS {
            break;
        }
    }
    open_sessions_value(alloc, start_of(&last), found)
}

// Adds the open sessions of an account below 0. Tells how many rows were looked at for it.
fn add_account<B: Book>(
    alloc: Global,
    book: &mut B,
    found: &mut Vec<Value>,
    entry: &(Vec<u8>, i64),
) -> Result<usize, PageError>
    ensures adds { Adds B.Book entry.now.0.items entry.now.1 (map view found.old.items)
        (map view found.new.items) book.old book.new result }
    ensures fits { IfOk result (λ rows. rows < 2 ^ 63) }
{
    let (account, balance) = entry;
    if *balance >= 0 {
        return Ok(0);
    }
    let rows = book.sessions_of(account)?;
    add_open_sessions(alloc, found, &rows)?;
    Ok(rows.len())
}

// The account after which a walk continues.
fn start_of(last: &Option<Vec<u8>>) -> Option<&[u8]>
    ensures { option_copied result ≡ option_map (λ account. account.items) last.now }
{
    match last {
        Some(account) => Some(account.as_slice()),
        None => None,
    }
}

// Adds an account to the overdrawn ones, if it is overdrawn.
fn add_overrun(
    alloc: Global,
    over: &mut Vec<Value>,
    entry: &(Vec<u8>, i64),
) -> Result<(), PageError>
    ensures { OnOk result (map view over.new.items
        ≡ map view over.old.items
        ++ filter_map overrun_in ((entry.now.0.items, entry.now.1) ∷ [])) }
{
    let (account, balance) = entry;
    let overrun = overrun(*balance);
    if overrun > 0 {
        let value = overrun_value(alloc, account, overrun)?;
        serde_json::push(over, value)?;
    }
    Ok(())
}

fn overruns_value(alloc: Global, over: Vec<Value>) -> Result<Value, AllocError>
    ensures { IfOk result (λ v. view v
        ≡ object (member (codes "overruns") (array (items_view over.items)) no_members)) }
{
    json!(in alloc; {"overruns": over})
}

// The response with a page, or the one if the book was unavailable.
pub(crate) fn page_octets(
    alloc: Global,
    page: Result<Value, PageError>,
) -> Result<Vec<u8>, NoMemory>
    requires { ForOk page (λ v. has_float (view v) ≡ false) }
    ensures { IfOk result (λ octets. IsPageResponse page octets.items) }
{
    let octets = match page {
        Ok(body) => respond(alloc, StatusCode::OK, "", &body),
        Err(PageError::Unavailable) => unavailable_octets(alloc),
        Err(PageError::Memory) => return Err(NoMemory),
    };
    match octets {
        Ok(octets) => Ok(octets),
        Err(_) => Err(NoMemory),
    }
}

// The response with what is told, or the one if the book was unavailable.
pub(crate) fn told_octets(alloc: Global, told: Result<Told, PageError>) -> Result<Vec<u8>, NoMemory>
    requires { ForOk told (λ t. has_float (view t.body) ≡ false) }
    ensures { IfOk result (λ octets. IsResponseBy told_of told octets.items) }
{
    let octets = match told {
        Ok(told) => respond(alloc, told.status, "", &told.body),
        Err(PageError::Unavailable) => unavailable_octets(alloc),
        Err(PageError::Memory) => return Err(NoMemory),
    };
    match octets {
        Ok(octets) => Ok(octets),
        Err(_) => Err(NoMemory),
    }
}
