//! The table of the stamp, and the clients whose logins are stamped.
ghost use Rattle.std.specs.Prelude.{◌≡◌, ◌⊎◌, true, false, Some, IfOk, IfErr, map, option_map};
ghost use Rattle.std.specs.Prelude.{MatchOption, List};
ghost use Rattle.toml.specs.Data.{Data};
ghost use Rattle.std.specs.List.{filter_map};
ghost use Rattle.toml.specs.View.{view, table_view};
ghost use Rattle.acct_model.specs.Secrets.{is_secret};
ghost use Rattle.acct_site_config.specs.StampTables as spec;
ghost use Rattle.acct_site_config.specs.inner.StampTables.{texts_view, stamp_view};
ghost use Rattle.acct_site_config.specs.declared.config_error.ConfigKind.TheVariants as kind;

use crate::client_tables::values_of;
use crate::config_error::{ConfigError, ConfigKind, ConfigTable};
use crate::tables::{table_of, text_at, text_if};
use acct_desk::{Signing, Withdrawn};
use acct_model::{Octets, StampSecret, StampSecrets, Text};
use acct_wire::{StampedClient, Stamping};
use std::alloc::{AllocError, Global};
use toml::{Table, Value};

// The texts of the stamp's table.
#[derive(Clone, Copy)]
pub(crate) struct StampTexts<'t> {
    // Signs new stamps.
    pub(crate) secret: &'t str,
    // Signed stamps before, if there is one.
    pub(crate) old: Option<&'t str>,
}

// The texts of the stamp's table, if there is one. None if it has another shape.
pub(crate) fn stamp_at(document: &Table) -> Option<Option<StampTexts<'_>>>
    ensures { option_map stamp_view result ≡ spec.stamp_at (table_view document.now) }
{
    match document.get("stamp") {
        Some(value) => match texts_of(value) {
            Some(texts) => Some(Some(texts)),
            None => None,
        },
        None => Some(None),
    }
}

fn texts_of(value: &Value) -> Option<StampTexts<'_>>
    ensures { option_map texts_view result ≡ spec.stamp_texts (view value.now) }
{
    let table = table_of(value, &["secret", "old"])?;
    let secret = text_at(table, "secret")?;
    let old = text_if(table, "old")?;
    Some(StampTexts { secret, old })
}

// How a site hears the clients of these tables.
pub(crate) fn stamping_of(
    alloc: Global,
    stamp: Option<StampTexts<'_>>,
    tables: &[Value],
) -> Result<Option<Stamping>, ConfigError>
    ensures spelled { IfOk result
        (spec.IsStamping (stamp_view stamp.entry) (map view tables.now)) }
    ensures refused { IfErr result (λ error. (error.kind ≡ kind.Memory)
        ⊎ spec.IsStampFault (stamp_view stamp.entry) (map view tables.now) error) }
{
    match stamp {
        Some(texts) => stamping_by(alloc, texts, tables),
        None => match first_stamped(tables) {
            Some(index) => Err(ConfigError {
                kind: ConfigKind::NoStamp,
                table: ConfigTable::Client,
                index,
            }),
            None => Ok(None),
        },
    }
}

// How a site hears the clients of these tables by a stamp.
fn stamping_by(
    alloc: Global,
    texts: StampTexts<'_>,
    tables: &[Value],
) -> Result<Option<Stamping>, ConfigError>
    ensures spelled { IfOk result
        (spec.IsStamping (Some (texts_view texts.entry)) (map view tables.now)) }
    ensures refused { IfErr result (λ error. (error.kind ≡ kind.Memory)
        ⊎ spec.IsStampFault (Some (texts_view texts.entry)) (map view tables.now) error) }
{
    let secrets = match secrets_of(alloc, texts) {
        Ok(Some(secrets)) => secrets,
        Ok(None) => return Err(ConfigError::top(ConfigKind::BadStamp)),
        Err(_) => return Err(ConfigError::top(ConfigKind::Memory)),
    };
    match stamped_in(alloc, tables) {
        Ok(clients) => Ok(Some(Stamping { secrets, clients })),
        Err(_) => Err(ConfigError::top(ConfigKind::Memory)),
    }
}

// What the desk signs with, and which keys are withdrawn.
pub(crate) fn signing_of(
    alloc: Global,
    stamp: Option<StampTexts<'_>>,
    withdrawn: Vec<Withdrawn>,
) -> Result<Option<Signing>, ConfigError>
    ensures spelled { IfOk result (spec.IsSigning (stamp_view stamp.entry) withdrawn.items) }
    ensures refused { (tables : List Data) → IfErr result (λ error. (error.kind ≡ kind.Memory)
        ⊎ spec.IsStampFault (stamp_view stamp.entry) tables error) }
{
    let Some(texts) = stamp else {
        return Ok(None);
    };
    match secrets_of(alloc, texts) {
        Ok(Some(secrets)) => Ok(Some(Signing { secrets, withdrawn })),
        Ok(None) => Err(ConfigError::top(ConfigKind::BadStamp)),
        Err(_) => Err(ConfigError::top(ConfigKind::Memory)),
    }
}

// The secrets that texts are, if each is within its rule.
fn secrets_of(alloc: Global, texts: StampTexts<'_>) -> Result<Option<StampSecrets>, AllocError>
    ensures { IfOk result (λ secrets. MatchOption secrets
        (spec.are_secrets (texts_view texts.entry) ≡ false)
        (spec.SaysSecrets (texts_view texts.entry))) }
{
    let Some(secret) = secret_of(alloc, texts.secret)? else {
        return Ok(None);
    };
    let Some(text) = texts.old else {
        return Ok(Some(StampSecrets { secret, old: None }));
    };
    match secret_of(alloc, text)? {
        Some(old) => Ok(Some(StampSecrets {
            secret,
            old: Some(old),
        })),
        None => Ok(None),
    }
}

fn secret_of(alloc: Global, text: &str) -> Result<Option<StampSecret>, AllocError>
    ensures { IfOk result (λ secret. MatchOption secret (is_secret text.now ≡ false)
        (λ kept. (kept ≡ text.now) × (is_secret text.now ≡ true))) }
{
    let octets = Octets::from_slice(alloc, text.as_bytes())?;
    Ok(StampSecret::new(octets))
}

// The clients of these tables whose logins are stamped.
fn stamped_in(alloc: Global, tables: &[Value]) -> Result<Vec<StampedClient>, AllocError>
    ensures { IfOk result (λ clients.
        clients.items ≡ filter_map spec.stamped_in (map view tables.now)) }
{
    let mut clients = Vec::new(alloc);
    for table in tables {
        let client = stamped_client(alloc, table)?;
        match client {
            Some(client) => clients.push(client)?,
            None => {}
        }
    }
    Ok(clients)
}

// The client of a table, if its logins are stamped.
fn stamped_client(alloc: Global, table: &Value) -> Result<Option<StampedClient>, AllocError>
    ensures { IfOk result (λ client. client ≡ spec.stamped_in (view table.now)) }
{
    let Some(((name, _, _), (true, proxy, plan))) = values_of(table) else {
        return Ok(None);
    };
    let name = Text::from_str(alloc, name)?;
    let plan = Octets::from_slice(alloc, plan.as_bytes())?;
    Ok(Some(StampedClient { name, proxy, plan }))
}

// The place of the first table of a client whose logins are stamped.
fn first_stamped(tables: &[Value]) -> Option<usize>
    ensures { result ≡ spec.first_stamped (map view tables.now) }
{
    for (index, table) in tables.iter().enumerate() {
        if is_stamped(table) {
            return Some(index);
        }
    }
    None
}

fn is_stamped(table: &Value) -> bool
    ensures { result ≡ spec.is_stamped (view table.now) }
{
    matches!(values_of(table), Some((_, (true, _, _))))
}
