//! The paths of the desk.
ghost use Rattle.std.specs.Prelude.{◌≡◌, IfOk};
ghost use Rattle.acct_desk.specs.Routes.{fixed_endpoint, front_endpoint, desk_rows, method_of};

use crate::login_path::{login_path, part_path};
use matchit::{InsertError, Router};
use std::alloc::Global;

/// What is at a path.
#[derive(Clone, Copy, Debug, PartialEq, Eq)]
pub enum Endpoint {
    /// `/me/balance`: what is left of an account's vouchers.
    Balance,
    /// `/me/sessions`: the sessions that an account is charged for.
    Sessions,
    /// `/me/topups`: the vouchers of an account.
    MyTopUps,
    /// `/topups`: where a voucher is credited.
    TopUps,
    /// `/overruns`: the accounts whose balance is below 0.
    Overruns,
    /// `/logins/ACCOUNT/CLASS[/LOGIN[/STATION/SECONDS]]`: what a login may use, and its stamp.
    Logins,
    /// `/overruns/sessions[/after/ACCOUNT]`: the open sessions of accounts whose balance is below 0.
    OpenSessions,
    /// `/accounts/ACCOUNT/PAGE`: what the account's own key shows at `/me/PAGE`.
    Accounts,
}

// The router of the five paths that are always there.
pub(crate) fn router(alloc: Global) -> Result<Router<Endpoint>, InsertError>
    ensures { IfOk result (λ router. router ≡ desk_rows) }
{
    let mut router = Router::new(alloc);
    router.insert("/me/balance", Endpoint::Balance)?;
    router.insert("/me/sessions", Endpoint::Sessions)?;
    router.insert("/me/topups", Endpoint::MyTopUps)?;
    router.insert("/overruns", Endpoint::Overruns)?;
    router.insert("/topups", Endpoint::TopUps)?;
    Ok(router)
}

// The endpoint at one of them.
pub(crate) fn endpoint_at(router: &Router<Endpoint>, path: &str) -> Option<Endpoint>
    requires { router.now ≡ desk_rows }
    ensures { result ≡ fixed_endpoint path.now }
{
    match router.at(path) {
        Ok(found) => Some(*found.value),
        Err(_) => None,
    }
}

// What the site's front asks at a path.
pub(crate) fn front_endpoint(path: &[u8]) -> Option<Endpoint>
    ensures { result ≡ front_endpoint path.now }
{
    if login_path(path).is_some() {
        Some(Endpoint::Logins)
    } else if part_path(path).is_some() {
        Some(Endpoint::OpenSessions)
    } else {
        None
    }
}

// The method that an endpoint takes.
pub(crate) fn method_text(endpoint: Endpoint) -> &'static str
    ensures { result.now ≡ method_of endpoint }
{
    match endpoint {
        Endpoint::TopUps => "POST",
        _ => "GET",
    }
}
