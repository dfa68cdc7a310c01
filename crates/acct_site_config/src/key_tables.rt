//! The tables of keys.
ghost use Rattle.std.specs.Prelude.{◌≡◌, ◌⊎◌, IfOk, IfErr, map, option_map};
ghost use Rattle.toml.specs.View.{view, table_view};
ghost use Rattle.acct_desk.specs.declared.keys.Role.{Role};
ghost use Rattle.acct_site_config.specs.KeyTables as spec;
ghost use Rattle.acct_site_config.specs.inner.KeyTables as inner;
ghost use Rattle.acct_site_config.specs.declared.config_error.ConfigKind.TheVariants as kind;

use crate::config_error::{ConfigError, ConfigKind, ConfigTable};
use crate::entries::{Entries, entries_of};
use crate::tables::{table_of, text_at};
use acct_desk::{DeskKey, Keys, KeysError, Role};
use acct_model::{Octets, Text, is_account, unshow};
use std::alloc::Global;
use toml::{Table, Value};

// Whom a key's table names.
#[derive(Clone, Copy)]
pub(crate) enum Bearer<'t> {
    // An account, as shown.
    Account(&'t str),
    // The cashier, if it is true.
    Cashier(bool),
    // A cashier who sees accounts, if both are true.
    Clerk(bool, bool),
    // The site's front, if it is true.
    Logins(bool),
}

// The keys that tables spell, each after the earlier ones.
pub(crate) fn keys_of(alloc: Global, tables: &[Value]) -> Result<Keys, ConfigError>
    ensures spelled { IfOk result (spec.AreKeyTables (map view tables.now)) }
    ensures refused { IfErr result (λ error. (error.kind ≡ kind.Memory)
        ⊎ spec.FirstKeyRefused (map view tables.now) error) }
{
    match Keys::none(alloc) {
        Ok(none) => entries_of(alloc, ConfigTable::Key, tables, none),
        Err(fault) => Err(ConfigError::top(ConfigKind::from(fault))),
    }
}

impl Entries for Keys {
    ghost are_spelled = { spec.AreKeyTables };

    ghost refuses = { spec.IsKeyRefused };

    fn push_table(&mut self, alloc: Global, table: &Value) -> Result<(), ConfigKind> {
        let key = key_of(alloc, table)?;
        Ok(self.push(alloc, key)?)
    }
}

impl From<KeysError> for ConfigKind {
    ghost from_gives = { λ error kind. kind ≡ spec.key_kind error };

    fn from(error: KeysError) -> ConfigKind {
        match error {
            KeysError::BadToken => ConfigKind::BadKey,
            KeysError::TwiceKeyed => ConfigKind::TwiceKeyed,
            KeysError::Memory => ConfigKind::Memory,
        }
    }
}

// The key that a table spells.
fn key_of(alloc: Global, table: &Value) -> Result<DeskKey, ConfigKind>
    ensures spelled { IfOk result (inner.SpellsKey (view table.now)) }
    ensures refused { IfErr result (inner.IsNoKey (view table.now)) }
{
    let Some((token, bearer)) = values_of(table) else {
        return Err(ConfigKind::BadShape);
    };
    let role = role_of(alloc, bearer)?;
    let token = Text::from_str(alloc, token)?;
    Ok(DeskKey { token, role })
}

// The role of a bearer.
fn role_of(alloc: Global, bearer: Bearer<'_>) -> Result<Role, ConfigKind>
    ensures says { IfOk result (spec.SaysRole (inner.bearer_view bearer.entry)) }
    ensures refused { IfErr result (λ why. (why ≡ kind.Memory) ⊎ ((why ≡ kind.BadKey)
        × ((role : Role) → spec.SaysRole (inner.bearer_view bearer.entry) role → ⊥))) }
{
    match bearer {
        Bearer::Account(text) => {
            let octets = unshow(alloc, text)?;
            if !is_account(&octets) {
                return Err(ConfigKind::BadKey);
            }
            Ok(Role::Account(Octets { octets }))
        }
        Bearer::Cashier(true) => Ok(Role::Cashier),
        Bearer::Clerk(true, true) => Ok(Role::Clerk),
        Bearer::Logins(true) => Ok(Role::Logins),
        _ => Err(ConfigKind::BadKey),
    }
}

// The token and the bearer of a key's table.
fn values_of(value: &Value) -> Option<(&str, Bearer<'_>)>
    ensures { option_map (λ t. (t.0.now, inner.bearer_view t.1)) result
        ≡ spec.key_values (view value.now) }
{
    let table = table_of(
        value,
        &["token", "account", "cashier", "accounts", "logins"],
    )?;
    let token = text_at(table, "token")?;
    let bearer = bearer_in(table)?;
    Some((token, bearer))
}

// The bearer that a key's table names.
fn bearer_in(table: &Table) -> Option<Bearer<'_>>
    ensures { option_map inner.bearer_view result ≡ spec.bearer_in (table_view table.now) }
{
    bearer_of(
        table.get("account"),
        table.get("cashier"),
        table.get("accounts"),
        table.get("logins"),
    )
}

// The bearer of the values at these names: exactly one of them, or `accounts` beside `cashier`.
fn bearer_of<'t>(
    account: Option<&'t Value>,
    cashier: Option<&'t Value>,
    accounts: Option<&'t Value>,
    logins: Option<&'t Value>,
) -> Option<Bearer<'t>>
    ensures { option_map inner.bearer_view result ≡ spec.bearer_of (inner.data_view account.entry)
        (inner.data_view cashier.entry) (inner.data_view accounts.entry)
        (inner.data_view logins.entry) }
{
    match (account, cashier, accounts, logins) {
        (Some(account), None, None, None) => account_bearer(account),
        (None, Some(cashier), None, None) => cashier_bearer(cashier),
        (None, Some(cashier), Some(accounts), None) => clerk_bearer(cashier, accounts),
        (None, None, None, Some(logins)) => logins_bearer(logins),
        _ => None,
    }
}

fn account_bearer(value: &Value) -> Option<Bearer<'_>>
    ensures { option_map inner.bearer_view result ≡ spec.account_bearer (view value.now) }
{
    match value.as_str() {
        Some(text) => Some(Bearer::Account(text)),
        None => None,
    }
}

fn cashier_bearer(value: &Value) -> Option<Bearer<'_>>
    ensures { option_map inner.bearer_view result ≡ spec.cashier_bearer (view value.now) }
{
    match value.as_bool() {
        Some(is) => Some(Bearer::Cashier(is)),
        None => None,
    }
}

fn clerk_bearer<'t>(cashier: &'t Value, accounts: &'t Value) -> Option<Bearer<'t>>
    ensures { option_map inner.bearer_view result
        ≡ spec.clerk_bearer (view cashier.now) (view accounts.now) }
{
    match (cashier.as_bool(), accounts.as_bool()) {
        (Some(is), Some(sees)) => Some(Bearer::Clerk(is, sees)),
        _ => None,
    }
}

fn logins_bearer(value: &Value) -> Option<Bearer<'_>>
    ensures { option_map inner.bearer_view result ≡ spec.logins_bearer (view value.now) }
{
    match value.as_bool() {
        Some(is) => Some(Bearer::Logins(is)),
        None => None,
    }
}
