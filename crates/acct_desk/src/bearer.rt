//! Whose a request is.
ghost use Rattle.std.specs.Prelude.{◌≡◌, IfOk, option_map};
ghost use Rattle.acct_desk.specs.Keys.{role_of_token};
ghost use Rattle.acct_desk.specs.SignedKeys.{signed_account};
ghost use Rattle.acct_desk.specs.inner.BearerView.{bearer_role};

use crate::keys::{Keys, Role};
use crate::signed_key::SignedKey;
use acct_model::{NoMemory, Octets};
use std::alloc::{AllocError, Global};

// Who bears a key that a desk takes.
#[derive(Drop)]
pub(crate) enum Bearer<'k> {
    // Who bears a key of the list.
    Listed(&'k Role),
    // The account of a signed key.
    Signed(Octets),
}

// Who bears the key that a token is at a moment.
pub(crate) fn bearer_of<'k>(
    alloc: Global,
    keys: &'k Keys,
    token: &[u8],
    moment: u64,
) -> Result<Option<Bearer<'k>>, NoMemory>
    ensures { IfOk result (λ bearer.
        option_map bearer_role bearer ≡ role_of_token keys.now moment token.now) }
{
    if let Some(role) = keys.role_of(token) {
        return Ok(Some(Bearer::Listed(role)));
    }
    match signed_account(alloc, keys, token, moment) {
        Ok(Some(account)) => Ok(Some(Bearer::Signed(account))),
        Ok(None) => Ok(None),
        Err(_) => Err(NoMemory),
    }
}

// The account of the signed key that a value is, if it is one and in force.
fn signed_account(
    alloc: Global,
    keys: &Keys,
    value: &[u8],
    moment: u64,
) -> Result<Option<Octets>, AllocError>
    ensures { IfOk result (λ account.
        account ≡ signed_account keys.now.signing moment value.now) }
{
    let Some(signing) = keys.signing() else {
        return Ok(None);
    };
    let Some(key) = SignedKey::read(alloc, &signing.secrets, value)? else {
        return Ok(None);
    };
    if !key.is_in_force(&signing.withdrawn, moment) {
        return Ok(None);
    }
    Ok(Some(key.into_account()))
}
