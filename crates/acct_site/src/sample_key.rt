//! The keys of the accounts `al` and `bo`, and that of the cashier.
ghost use Rattle.std.specs.Prelude.{◌≡◌, IfOk};
ghost use Rattle.acct_desk.specs.declared.keys.Role.TheVariants.{Account};
ghost use Rattle.acct_site.specs.SampleSite.{sample_keys, sample_key_list};

use acct_desk::{DeskKey, Keys, KeysError, Role};
use acct_model::{Octets, Text};
use std::alloc::{AllocError, Global};

/// The keys of the accounts `al` and `bo`, and that of the cashier.
///
/// # Errors
///
/// Only if an allocation fails.
pub fn sample_keys(alloc: Global) -> Result<Keys, KeysError>
    ensures { IfOk result (λ keys. keys ≡ sample_keys) }
{
    Keys::new(alloc, key_list(alloc)?)
}

fn key_list(alloc: Global) -> Result<Vec<DeskKey>, AllocError>
    ensures { IfOk result (λ list. list.items ≡ sample_key_list) }
{
    let mut list = Vec::new(alloc);
    list.push(account_key(alloc, "al-key-0000000001", b"al")?)?;
    list.push(account_key(alloc, "bo-key-0000000001", b"bo")?)?;
    let token = Text::from_str(alloc, "cash-key-00000001")?;
    let role = Role::Cashier;
    list.push(DeskKey { token, role })?;
    Ok(list)
}

fn account_key(alloc: Global, token: &str, account: &[u8]) -> Result<DeskKey, AllocError>
    ensures { IfOk result (λ key. key ≡ record { token = token.now; role = Account account.now }) }
{
    let token = Text::from_str(alloc, token)?;
    let role = Role::Account(Octets::from_slice(alloc, account)?);
    Ok(DeskKey { token, role })
}
