//! What a login asks: who pays, by which plan, and the stamp that says so.
ghost use Rattle.std.specs.Prelude.{◌≡◌, ◌≤◌, true, IfOk, string_bytes, option_map};
ghost use Rattle.std.specs.Option.{option_copied};
ghost use Rattle.percent_encoding.specs.Percent as percent;
ghost use Rattle.acct_model.specs.Plans.{plan_for};
ghost use Rattle.acct_model.specs.Stamps as stamps;
ghost use Rattle.acct_desk.specs.Logins as spec;
ghost use Rattle.acct_desk.specs.inner.LoginView.{path_view, login_view};

use crate::login_path::LoginPath;
use acct_desk_pages::login::Heard;
use acct_model::{
    LONGEST_STAMP, NoMemory, Octets, Plan, Plans, StampSecret, coded_text, is_account, is_login,
    number_of, signature,
};
use percent_encoding::percent_decode;
use std::alloc::{AllocError, Global};

// The most digits of SECONDS.
const SECONDS_DIGITS: usize = 10;

// A login: the account that pays, the plan, the stamp, and since when other stations count.
pub(crate) struct Login<'k> {
    pub account: Octets,
    pub plan: &'k Plan,
    pub stamp: String,
    pub heard: Option<Heard>,
}

impl<'k> Drop for Login<'k> {
    fn drop(self) {
        let Login {
            account: _,
            plan: _,
            stamp: _,
            heard: _,
        } = self;
    }
}

// The login that a path asks for, if its parts are in their bounds.
pub(crate) fn login_asked<'k>(
    alloc: Global,
    secret: &StampSecret,
    plans: &'k Plans,
    path: LoginPath<'_>,
    moment: u64,
) -> Result<Option<Login<'k>>, NoMemory>
    ensures { IfOk result (λ login. option_map login_view login
        ≡ spec.login_asked secret.now plans.now moment (path_view path.entry)) }
{
    let Ok(class) = decoded(alloc, path.class) else {
        return Err(NoMemory);
    };
    let Ok(account) = decoded(alloc, path.account) else {
        return Err(NoMemory);
    };
    let Ok(text) = decoded(alloc, path.login) else {
        return Err(NoMemory);
    };
    let heard = heard_asked(alloc, path.heard, moment)?;
    login_of(
        alloc,
        secret,
        plans.plan_of(&class),
        account,
        login_named(&text),
        heard,
    )
}

// The login of these parts, if they are in their bounds.
fn login_of<'k>(
    alloc: Global,
    secret: &StampSecret,
    plan: &'k Plan,
    account: Vec<u8>,
    login: &[u8],
    heard: Option<Option<Heard>>,
) -> Result<Option<Login<'k>>, NoMemory>
    ensures { IfOk result (λ asked. option_map login_view asked
        ≡ spec.login_of secret.now (Some plan.now) account.items login.now heard) }
{
    let Some(heard) = heard else {
        return Ok(None);
    };
    if !is_account(&account) || !is_login(login) {
        return Ok(None);
    }
    let stamp = stamp_text(alloc, secret, plan.class.as_slice(), login, &account)?;
    if stamp.len() > LONGEST_STAMP {
        return Ok(None);
    }
    Ok(Some(Login {
        account: Octets { octets: account },
        plan,
        stamp,
        heard,
    }))
}

// The digits of a LOGIN, for which `-` stands if there are none.
fn login_named(text: &[u8]) -> &[u8]
    ensures { result.now ≡ spec.login_named text.now }
{
    match text {
        b"-" => b"",
        _ => text,
    }
}

// Since when other stations count, if SECONDS is a number.
fn heard_asked(
    alloc: Global,
    heard: Option<(&[u8], &[u8])>,
    moment: u64,
) -> Result<Option<Option<Heard>>, NoMemory>
    ensures { IfOk result (λ since. since ≡ spec.heard_asked moment
        (option_map (λ h. (h.0.now, h.1.now)) heard.entry)) }
{
    let Some((station, seconds)) = heard else {
        return Ok(Some(None));
    };
    let Ok(seconds) = decoded(alloc, seconds) else {
        return Err(NoMemory);
    };
    let Ok(octets) = decoded(alloc, station) else {
        return Err(NoMemory);
    };
    match number_of(&seconds, SECONDS_DIGITS) {
        None => Ok(None),
        Some(seconds) => Ok(Some(Some(Heard {
            station: Octets { octets },
            since: moment.saturating_sub(seconds),
        }))),
    }
}

// The stamp of a login.
fn stamp_text(
    alloc: Global,
    secret: &StampSecret,
    class: &[u8],
    login: &[u8],
    account: &[u8],
) -> Result<String, NoMemory>
    requires { stamps.is_login login.now ≡ true }
    ensures { IfOk result (λ stamp. string_bytes stamp ≡ stamps.stamp_of secret.now
        (record { plan = class.now; login = login.now; name = account.now })) }
{
    match str::from_utf8(login) {
        Ok(login) => match signed_text(alloc, secret, class, login, account) {
            Ok(stamp) => Ok(stamp),
            Err(_) => Err(NoMemory),
        },
        Err(_) => unreachable!(),
    }
}

fn signed_text(
    alloc: Global,
    secret: &StampSecret,
    class: &[u8],
    login: &str,
    account: &[u8],
) -> Result<String, AllocError>
    ensures { IfOk result (λ stamp. string_bytes stamp ≡ stamps.stamp_of secret.now
        (record { plan = class.now; login = login.now; name = account.now })) }
{
    let plan = coded_text(alloc, class)?;
    let name = coded_text(alloc, account)?;
    let text = [plan.as_str(), ";", login, ";", name.as_str(), ";"].concat(alloc)?;
    let signature = signature(alloc, b"stamp;", secret, text.as_bytes())?;
    [text.as_str(), signature.as_str()].concat(alloc)
}

// The octets that a segment spells.
pub(crate) fn decoded(alloc: Global, segment: &[u8]) -> Result<Vec<u8>, AllocError>
    ensures { IfOk result (λ octets. octets.items ≡ percent.percent_decode segment.now) }
{
    let mut octets = Vec::new(alloc);
    percent_decode(segment).append_to(&mut octets)?;
    Ok(octets)
}
