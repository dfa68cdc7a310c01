//! The tables of clients.
ghost use Rattle.std.specs.Prelude.{◌≡◌, ◌⊎◌, IfOk, IfErr, map, option_map};
ghost use Rattle.std.specs.List.{list_all};
ghost use Rattle.toml.specs.View.{view, table_view};
ghost use Rattle.acct_site_config.specs.ClientTables as spec;
ghost use Rattle.acct_site_config.specs.inner.ClientTables as inner;
ghost use Rattle.acct_site_config.specs.declared.config_error.ConfigKind.TheVariants as kind;

use crate::config_error::{ConfigError, ConfigKind, ConfigTable};
use crate::entries::{Entries, entries_of};
use crate::plan_tables::is_class;
use crate::tables::{bool_at, table_of, text_at, text_or};
use acct_model::{Octets, Text, address_of};
use acct_wire::{Client, ClientError, Clients};
use std::alloc::Global;
use toml::{Table, Value};

/// The most octets of a client's name.
const LONGEST_NAME: usize = 32;
/// The most octets of a client's secret.
const LONGEST_SECRET: usize = 128;

// The clients that tables spell, each after the earlier ones.
pub(crate) fn clients_of(alloc: Global, tables: &[Value]) -> Result<Clients, ConfigError>
    ensures spelled { IfOk result (spec.AreClientTables (map view tables.now)) }
    ensures refused { IfErr result (λ error. (error.kind ≡ kind.Memory)
        ⊎ spec.FirstClientRefused (map view tables.now) error) }
{
    entries_of(alloc, ConfigTable::Client, tables, Clients::none(alloc))
}

impl Entries for Clients {
    ghost are_spelled = { spec.AreClientTables };

    ghost refuses = { spec.IsClientRefused };

    fn push_table(&mut self, alloc: Global, table: &Value) -> Result<(), ConfigKind> {
        let client = client_of(alloc, table)?;
        Ok(self.push(client)?)
    }
}

impl From<ClientError> for ConfigKind {
    ghost from_gives = { λ error kind. kind ≡ spec.client_kind error };

    fn from(error: ClientError) -> ConfigKind {
        match error {
            ClientError::TwiceNamed | ClientError::TwiceAddressed => ConfigKind::TwiceClient,
            ClientError::Memory => ConfigKind::Memory,
        }
    }
}

// The client that a table spells.
fn client_of(alloc: Global, table: &Value) -> Result<Client, ConfigKind>
    ensures spelled { IfOk result (inner.SpellsClient (view table.now)) }
    ensures refused { IfErr result (inner.IsNoClient (view table.now)) }
{
    let Some(((name, address, secret), marks)) = values_of(table) else {
        return Err(ConfigKind::BadShape);
    };
    if !is_name(name) || !is_secret(secret) || !are_marks(marks) {
        return Err(ConfigKind::BadClient);
    }
    let Some(address) = address_of(address) else {
        return Err(ConfigKind::BadClient);
    };
    Ok(Client {
        name: Text::from_str(alloc, name)?,
        address,
        secret: Octets::from_slice(alloc, secret.as_bytes())?,
    })
}

// The name, the address and the secret of a client's table.
pub(crate) type ClientTexts<'t> = (&'t str, &'t str, &'t str);
// Whether the client's logins are stamped, whether it is a proxy, and the class of its reports
// without a stamp.
pub(crate) type ClientMarks<'t> = (bool, bool, &'t str);

// The texts and the marks of a client's table.
pub(crate) fn values_of(value: &Value) -> Option<(ClientTexts<'_>, ClientMarks<'_>)>
    ensures { option_map (λ v. ((v.0.0.now, v.0.1.now, v.0.2.now), (v.1.0, v.1.1, v.1.2.now))) result
        ≡ spec.client_values (view value.now) }
{
    let names = &["name", "address", "secret", "stamped", "proxy", "plan"];
    let table = table_of(value, names)?;
    let texts = texts_in(table)?;
    let marks = marks_in(table)?;
    Some((texts, marks))
}

fn texts_in(table: &Table) -> Option<ClientTexts<'_>>
    ensures { option_map (λ t. (t.0.now, t.1.now, t.2.now)) result
        ≡ spec.texts_in (table_view table.now) }
{
    let name = text_at(table, "name")?;
    let address = text_at(table, "address")?;
    let secret = text_at(table, "secret")?;
    Some((name, address, secret))
}

fn marks_in(table: &Table) -> Option<ClientMarks<'_>>
    ensures { option_map (λ m. (m.0, m.1, m.2.now)) result ≡ spec.marks_in (table_view table.now) }
{
    let stamped = bool_at(table, "stamped")?;
    let proxy = bool_at(table, "proxy")?;
    let plan = text_or(table, "plan", "default")?;
    Some((stamped, proxy, plan))
}

fn are_marks(marks: ClientMarks<'_>) -> bool
    ensures { result ≡ spec.are_marks (marks.entry.0, marks.entry.1, marks.entry.2.now) }
{
    let (stamped, proxy, plan) = marks;
    is_class(plan) && (stamped || (!proxy && plan == "default"))
}

fn is_name(text: &str) -> bool
    ensures { result ≡ spec.is_name_text text.now }
{
    !text.is_empty() && text.len() <= LONGEST_NAME && are_characters(text.as_bytes())
}

fn are_characters(octets: &[u8]) -> bool
    ensures { result ≡ list_all spec.is_name_octet octets.now }
{
    octets.iter().all(|octet| is_character(*octet))
}

fn is_character(octet: u8) -> bool
    ensures { result ≡ spec.is_name_octet octet }
{
    octet.is_ascii_alphanumeric() || octet == b'.' || octet == b'-' || octet == b'_'
}

fn is_secret(text: &str) -> bool
    ensures { result ≡ spec.is_secret text.now }
{
    !text.is_empty() && text.len() <= LONGEST_SECRET
}
