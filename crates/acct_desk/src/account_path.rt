//! The paths of the pages of any account.
ghost use Rattle.std.specs.Prelude.{◌≡◌, option_map};
ghost use Rattle.acct_desk.specs.Paths as spec;

use crate::asking::Page;
use crate::login_path::{behind, cut};

// The beginning of the paths, and the names of the pages.
const ACCOUNTS: &[u8] = b"/accounts/";

const BALANCE: &[u8] = b"balance";

const SESSIONS: &[u8] = b"sessions";

const TOPUPS: &[u8] = b"topups";

// The page and the account at a path, as it stands in it.
pub(crate) fn account_path(path: &[u8]) -> Option<(Page, &[u8])>
    ensures { option_map (λ found. (found.0, found.1.now)) result ≡ spec.account_path path.now }
{
    account_segments(behind(ACCOUNTS, path)?)
}

// The page and the account that segments name.
fn account_segments(path: &[u8]) -> Option<(Page, &[u8])>
    ensures { option_map (λ found. (found.0, found.1.now)) result
        ≡ spec.account_segments (spec.segments path.now) }
{
    let (account, name) = cut(path)?;
    match cut(name) {
        Some(_) => None,
        None => match page_named(name) {
            Some(page) => Some((page, account)),
            None => None,
        },
    }
}

// The page of this name.
fn page_named(name: &[u8]) -> Option<Page>
    ensures { result ≡ spec.page_named name.now }
{
    if name == BALANCE {
        Some(Page::Balance)
    } else if name == SESSIONS {
        Some(Page::Sessions)
    } else if name == TOPUPS {
        Some(Page::TopUps)
    } else {
        None
    }
}
