//! What a request asks for.
ghost use Rattle.std.specs.Prelude.{◌≡◌, ◌≤◌, ◌<◌, ◌^◌, IfOk, IsUtf8, All, length, map, None};
ghost use Rattle.std.specs.Prelude.{option_map};
ghost use Rattle.httparse.specs.Spans.{IsHeaderWithin, IsWithin, span_bytes, header_bytes};
ghost use Rattle.acct_desk.specs.Request.{reach_of};
ghost use Rattle.acct_desk.specs.Asks.{Ask as Asked, json_of, ask_of_json, ask_of_role};
ghost use Rattle.acct_desk.specs.Asks.{ask_of_endpoint, path_of, role_of_fields, ask_of_fields};
ghost use Rattle.acct_desk.specs.Asks.{ask_of_reach, refused, Asks, ask_of_path, ask_of_part};
ghost use Rattle.acct_desk.specs.Asks.{ask_of_account, own_page, ask_of_own};
ghost use Rattle.acct_desk.specs.Paths as paths;
ghost use Rattle.acct_desk.specs.inner.AskView.{ask_view};
ghost use Rattle.acct_desk.specs.inner.BearerView.{bearer_role};

use crate::account_path::account_path;
use crate::bearer::{Bearer, bearer_of};
use crate::framing::{HEAD_LIMIT, Reach, front_of, reach_by_fields};
use crate::head::{FIELD_LIMIT, head_of, values_named};
use crate::keys::{Keys, Role};
use crate::login::{Login, decoded, login_asked};
use crate::login_path::{login_path, part_path};
use crate::routes::{Endpoint, method_text};
use crate::top_up_body::{BodyError, topup_of_body};
use acct_model::{NoMemory, Octets, Plans, TopUp};
use httparse::spans::{EMPTY_HEADER_SPAN, HeaderSpan, RequestSpans};
use std::alloc::Global;

// Why a request is refused without reading the book.
#[derive(Clone, Copy, PartialEq, Eq)]
pub(crate) enum Refusal {
    BadRequest,
    TooLarge,
    NoPath,
    WrongMethod(Endpoint),
    NoKey,
    NotAllowed,
    BadTopUp,
    BadLogin,
}

// A page that an account may read about itself.
#[derive(Clone, Copy, PartialEq, Eq)]
pub(crate) enum Page {
    Balance,
    Sessions,
    TopUps,
}

// What a request asks for.
#[derive(Drop)]
pub(crate) enum Ask<'k> {
    // Refused without reading the book.
    Refused(Refusal),
    // A page of the key's account.
    Me(Page, &'k [u8]),
    // A page of the account that the path or a signed key names.
    Account(Page, Octets),
    // The overdrawn accounts.
    Overruns,
    // What a login may use.
    Login(Login<'k>),
    // The open sessions of accounts below 0, after this account.
    Overdrawn(Option<Vec<u8>>),
    // To credit a voucher.
    Credit(TopUp),
}

// Returns what the octets of a request ask for.
pub(crate) fn ask_of_octets<'k>(
    alloc: Global,
    keys: &'k Keys,
    plans: &'k Plans,
    request: &[u8],
    moment: u64,
) -> Result<Ask<'k>, NoMemory>
    requires { moment < 2 ^ 53 }
    ensures asks { IfOk result (λ ask. Asks keys.now plans.now request.now moment (ask_view ask)) }
    ensures some { (ask : Asked) × Asks keys.now plans.now request.now moment ask }
{
    let front = front_of(request);
    let mut headers = [EMPTY_HEADER_SPAN; FIELD_LIMIT];
    let Some(spans) = head_of(front, &mut headers) else {
        return Ok(Ask::Refused(refusal_of_length(request.len())));
    };
    ask_of_spans(
        alloc,
        keys,
        plans,
        request,
        front,
        spans,
        &headers[..spans.headers],
        moment,
    )
}

// The refusal of a request of this length that has no head.
fn refusal_of_length(there: usize) -> Refusal
    ensures { ask_of_reach (reach_of None there) (λ _. refused Refusal.BadRequest)
        ≡ refused result }
{
    if there < HEAD_LIMIT {
        Refusal::BadRequest
    } else {
        Refusal::TooLarge
    }
}

// Returns what a request asks for, by the spans of its head.
fn ask_of_spans<'k>(
    alloc: Global,
    keys: &'k Keys,
    plans: &'k Plans,
    request: &[u8],
    front: &[u8],
    spans: RequestSpans,
    headers: &[HeaderSpan],
    moment: u64,
) -> Result<Ask<'k>, NoMemory>
    requires fields { All (IsHeaderWithin (length front.now)) headers.now }
    requires method { IsWithin (length front.now) spans.method }
    requires path { IsWithin (length front.now) spans.path }
    requires target { IsUtf8 (span_bytes front.now spans.path) }
    requires short { spans.len ≤ 8192 }
    requires bounded { moment < 2 ^ 53 }
    ensures { IfOk result (λ ask. ask_view ask ≡ ask_of_fields keys.now plans.now request.now moment
        spans.len (span_bytes front.now spans.path) (span_bytes front.now spans.method)
        (map (header_bytes front.now) headers.now)) }
{
    match reach_by_fields(front, headers, spans.len, request.len()) {
        Reach::More | Reach::Bad => Ok(Ask::Refused(Refusal::BadRequest)),
        Reach::TooLarge => Ok(Ask::Refused(Refusal::TooLarge)),
        Reach::Whole(end) => {
            let path = path_of_target(spans.path.of(front));
            let endpoint = keys.endpoint_at(path);
            let bearer = bearer_of_fields(alloc, keys, front, headers, moment)?;
            let body = &request[spans.len..end];
            let what = What {
                path: path.as_bytes(),
                body,
                moment,
            };
            ask_of_parts(
                alloc,
                keys,
                plans,
                endpoint,
                spans.method.of(front),
                bearer,
                what,
            )
        }
    }
}

// The path of a target.
fn path_of_target(target: &[u8]) -> &str
    requires { IsUtf8 target.now }
    ensures { result.now ≡ path_of target.now }
{
    match str::from_utf8(target) {
        Ok(target) => path_part(target),
        Err(_) => unreachable!(),
    }
}

fn path_part(target: &str) -> &str
    ensures { result.now ≡ path_of target.now }
{
    match target.split_once('?') {
        Some((path, _)) => path,
        None => target,
    }
}

// The bearer of the key in the first Desk-Key field.
fn bearer_of_fields<'k>(
    alloc: Global,
    keys: &'k Keys,
    front: &[u8],
    headers: &[HeaderSpan],
    moment: u64,
) -> Result<Option<Bearer<'k>>, NoMemory>
    requires { All (IsHeaderWithin (length front.now)) headers.now }
    ensures { IfOk result (λ bearer. option_map bearer_role bearer
        ≡ role_of_fields keys.now moment (map (header_bytes front.now) headers.now)) }
{
    match values_named(front, headers, "desk-key").first {
        Some(token) => bearer_of(alloc, keys, token, moment),
        None => Ok(None),
    }
}

// What a request says beside its method and its key.
#[derive(Clone, Copy)]
struct What<'r> {
    path: &'r [u8],
    body: &'r [u8],
    moment: u64,
}

// Returns what a request asks for, by its parts.
fn ask_of_parts<'k>(
    alloc: Global,
    keys: &'k Keys,
    plans: &'k Plans,
    endpoint: Option<Endpoint>,
    method: &[u8],
    bearer: Option<Bearer<'k>>,
    what: What<'_>,
) -> Result<Ask<'k>, NoMemory>
    requires { what.moment < 2 ^ 53 }
    ensures { IfOk result (λ ask. ask_view ask ≡ ask_of_endpoint keys.now plans.now endpoint
        method.now (option_map bearer_role bearer.entry)
        what.entry.path.now what.entry.body.now what.entry.moment) }
{
    let Some(endpoint) = endpoint else {
        return Ok(Ask::Refused(Refusal::NoPath));
    };
    if method != method_text(endpoint).as_bytes() {
        return Ok(Ask::Refused(Refusal::WrongMethod(endpoint)));
    }
    match bearer {
        None => Ok(Ask::Refused(Refusal::NoKey)),
        Some(Bearer::Listed(role)) => ask_of_role(alloc, keys, plans, endpoint, role, what),
        Some(Bearer::Signed(account)) => Ok(ask_of_signed(endpoint, account)),
    }
}

// Returns what a request with a signed key of an account asks for.
fn ask_of_signed<'k>(endpoint: Endpoint, account: Octets) -> Ask<'k>
    ensures { ask_view result ≡ ask_of_own (own_page endpoint) account }
{
    match own_page(endpoint) {
        Some(page) => Ask::Account(page, account),
        None => Ask::Refused(Refusal::NotAllowed),
    }
}

// Returns what a request with a listed key of an account asks for.
fn ask_of_own<'k>(endpoint: Endpoint, account: &'k Octets) -> Ask<'k>
    ensures { ask_view result ≡ ask_of_own (own_page endpoint) account.now }
{
    match own_page(endpoint) {
        Some(page) => Ask::Me(page, account.as_slice()),
        None => Ask::Refused(Refusal::NotAllowed),
    }
}

// The page that an account's key shows at an endpoint.
fn own_page(endpoint: Endpoint) -> Option<Page>
    ensures { result ≡ own_page endpoint }
{
    match endpoint {
        Endpoint::Balance => Some(Page::Balance),
        Endpoint::Sessions => Some(Page::Sessions),
        Endpoint::MyTopUps => Some(Page::TopUps),
        _ => None,
    }
}

// Returns what a request with this role asks for.
fn ask_of_role<'k>(
    alloc: Global,
    keys: &'k Keys,
    plans: &'k Plans,
    endpoint: Endpoint,
    role: &'k Role,
    what: What<'_>,
) -> Result<Ask<'k>, NoMemory>
    requires { what.moment < 2 ^ 53 }
    ensures { IfOk result (λ ask. ask_view ask
        ≡ ask_of_role keys.now plans.now endpoint role.now
        what.entry.path.now what.entry.body.now what.entry.moment) }
{
    match (endpoint, role) {
        (_, Role::Account(account)) => Ok(ask_of_own(endpoint, account)),
        (Endpoint::Overruns, Role::Cashier | Role::Clerk) => Ok(Ask::Overruns),
        (Endpoint::TopUps, Role::Cashier | Role::Clerk) => {
            ask_of_post(alloc, what.body, what.moment)
        }
        (Endpoint::Accounts, Role::Clerk) => ask_of_account(alloc, what.path),
        (Endpoint::Logins, Role::Logins) => ask_of_path(alloc, keys, plans, what.path, what.moment),
        (Endpoint::OpenSessions, Role::Logins) => ask_of_part(alloc, what.path),
        _ => Ok(Ask::Refused(Refusal::NotAllowed)),
    }
}

// Returns what a login's path asks for.
fn ask_of_path<'k>(
    alloc: Global,
    keys: &Keys,
    plans: &'k Plans,
    path: &[u8],
    moment: u64,
) -> Result<Ask<'k>, NoMemory>
    ensures { IfOk result (λ ask. ask_view ask ≡ ask_of_path keys.now.signing plans.now moment
        (paths.login_path path.now)) }
{
    let Some(signing) = keys.signing() else {
        return Ok(Ask::Refused(Refusal::NoPath));
    };
    let Some(path) = login_path(path) else {
        return Ok(Ask::Refused(Refusal::NoPath));
    };
    match login_asked(alloc, &signing.secrets.secret, plans, path, moment) {
        Ok(Some(login)) => Ok(Ask::Login(login)),
        Ok(None) => Ok(Ask::Refused(Refusal::BadLogin)),
        Err(_) => Err(NoMemory),
    }
}

// Returns what the path of a part asks for.
fn ask_of_part<'k>(alloc: Global, path: &[u8]) -> Result<Ask<'k>, NoMemory>
    ensures { IfOk result (λ ask. ask_view ask ≡ ask_of_part (paths.part_path path.now)) }
{
    match part_path(path) {
        None => Ok(Ask::Refused(Refusal::NoPath)),
        Some(None) => Ok(Ask::Overdrawn(None)),
        Some(Some(account)) => match decoded(alloc, account) {
            Ok(account) => Ok(Ask::Overdrawn(Some(account))),
            Err(_) => Err(NoMemory),
        },
    }
}

// Returns what the path of a page of an account asks for.
fn ask_of_account<'k>(alloc: Global, path: &[u8]) -> Result<Ask<'k>, NoMemory>
    ensures { IfOk result (λ ask. ask_view ask ≡ ask_of_account (paths.account_path path.now)) }
{
    match account_path(path) {
        None => Ok(Ask::Refused(Refusal::NoPath)),
        Some((page, account)) => match decoded(alloc, account) {
            Ok(octets) => Ok(Ask::Account(page, Octets { octets })),
            Err(_) => Err(NoMemory),
        },
    }
}

// Returns what a POST of this body asks for.
fn ask_of_post<'k>(alloc: Global, body: &[u8], moment: u64) -> Result<Ask<'k>, NoMemory>
    requires { moment < 2 ^ 53 }
    ensures { IfOk result (λ ask. ask_view ask ≡ ask_of_json (json_of body.now) moment) }
{
    match topup_of_body(alloc, body, moment) {
        Ok(topup) => Ok(Ask::Credit(topup)),
        Err(BodyError::NotJson) => Ok(Ask::Refused(Refusal::BadRequest)),
        Err(BodyError::NoTopUp) => Ok(Ask::Refused(Refusal::BadTopUp)),
        Err(BodyError::Memory) => Err(NoMemory),
    }
}
