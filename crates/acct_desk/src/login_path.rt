//! The paths that the site's front asks for.
ghost use Rattle.std.specs.Prelude.{◌≡◌, option_map};
ghost use Rattle.std.specs.Option.{option_copied};
ghost use Rattle.acct_desk.specs.Paths as spec;
ghost use Rattle.acct_desk.specs.inner.Cut.{cut};
ghost use Rattle.acct_desk.specs.inner.LoginView.{path_view};

// The beginnings of the paths.
const LOGINS: &[u8] = b"/logins/";

const OPEN_SESSIONS: &[u8] = b"/overruns/sessions";

const AFTER: &[u8] = b"/overruns/sessions/after/";

// The segments of a login's path, as they stand in it.
#[derive(Clone, Copy)]
pub(crate) struct LoginPath<'p> {
    pub account: &'p [u8],
    pub class: &'p [u8],
    pub login: &'p [u8],
    // A station, and seconds.
    pub heard: Option<(&'p [u8], &'p [u8])>,
}

// The login at a path.
pub(crate) fn login_path(path: &[u8]) -> Option<LoginPath<'_>>
    ensures { option_map path_view result ≡ spec.login_path path.now }
{
    login_segments(behind(LOGINS, path)?)
}

// The path of a part of the accounts: of the first, or of the one after an account.
pub(crate) fn part_path(path: &[u8]) -> Option<Option<&[u8]>>
    ensures { option_map option_copied result ≡ spec.part_path path.now }
{
    if path == OPEN_SESSIONS {
        return Some(None);
    }
    match after_path(path) {
        Some(account) => Some(Some(account)),
        None => None,
    }
}

// The account after which the part begins.
fn after_path(path: &[u8]) -> Option<&[u8]>
    ensures { option_copied result ≡ spec.after_path path.now }
{
    one_of(behind(AFTER, path)?)
}

// The only segment.
fn one_of(path: &[u8]) -> Option<&[u8]>
    ensures { option_copied result ≡ spec.one_of (spec.segments path.now) }
{
    match cut(path) {
        Some(_) => None,
        None => Some(path),
    }
}

// What a path has behind its beginning, if it begins so.
pub(crate) fn behind<'p>(start: &[u8], path: &'p [u8]) -> Option<&'p [u8]>
    ensures { option_map (λ rest. rest.now) result ≡ spec.behind start.now path.now }
{
    path.strip_prefix(start)
}

// The login that segments name.
fn login_segments(path: &[u8]) -> Option<LoginPath<'_>>
    ensures { option_map path_view result ≡ spec.login_segments (spec.segments path.now) }
{
    let (account, rest) = cut(path)?;
    let Some((class, rest)) = cut(rest) else {
        return Some(LoginPath {
            account,
            class: rest,
            login: b"",
            heard: None,
        });
    };
    let Some((login, rest)) = cut(rest) else {
        return Some(LoginPath {
            account,
            class,
            login: rest,
            heard: None,
        });
    };
    let (station, seconds) = cut(rest)?;
    match cut(seconds) {
        Some(_) => None,
        None => Some(LoginPath {
            account,
            class,
            login,
            heard: Some((station, seconds)),
        }),
    }
}

// The octets before the first slash, and those behind it.
pub(crate) fn cut(octets: &[u8]) -> Option<(&[u8], &[u8])>
    ensures { option_map (λ parts. (parts.0.now, parts.1.now)) result ≡ cut octets.now }
{
    for i in 0..octets.len() {
        if octets[i] == b'/' {
            return Some((&octets[..i], &octets[i + 1..]));
        }
    }
    None
}
