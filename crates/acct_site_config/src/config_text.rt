//! The configuration of a site.
ghost use Rattle.std.specs.Prelude.{◌≡◌, ◌⊎◌, None, Some, IfOk, IfErr, map, option_map};
ghost use Rattle.toml.specs.Parse.{parse_document};
ghost use Rattle.toml.specs.View.{view, table_view};
ghost use Rattle.acct_site_config.specs.Config.{IsConfig, IsConfigError};
ghost use Rattle.acct_site_config.specs.Config as spec;
ghost use Rattle.acct_site_config.specs.declared.config_error.ConfigKind.TheVariants as kind;
ghost use Rattle.acct_site_config.specs.Tables.{top_error};
ghost use Rattle.acct_site_config.specs.inner.StampTables.{stamp_view};

use crate::client_tables::clients_of;
use crate::config_error::{ConfigError, ConfigKind};
use crate::key_tables::keys_of;
use crate::plan_tables::plans_of;
use crate::stamp_tables::{StampTexts, signing_of, stamp_at, stamping_of};
use crate::tables::{array_at, only};
use crate::withdrawn_tables::withdrawn_of;
use acct_site::Config;
use std::alloc::Global;
use toml::{Table, Value};

/// The most clients of a site.
const MOST_CLIENTS: usize = 1_024;
/// The most plans of a site.
const MOST_PLANS: usize = 256;
/// The most keys of a site.
const MOST_KEYS: usize = 4_096;
/// The most withdrawn accounts of a site.
const MOST_WITHDRAWN: usize = 1_024;

/// The configuration that a text spells.
///
/// The text is read once. Each key is looked up among the earlier ones by its token, so
/// the cost of the keys grows as their number times its logarithm. Each client is compared with
/// all earlier ones, at most 1,023, and each plan with at most 255.
///
/// # Errors
///
/// The first fault, in this order:
///
/// 1. `NotToml` and `BadShape` of the text as a whole.
/// 2. `BadShape`, `BadClient` and `TwiceClient` of each client in its turn.
/// 3. `BadShape`, `BadPlan` and `TwicePlanned` of each plan, then `NoDefault`.
/// 4. `BadShape`, `BadKey` and `TwiceKeyed` of each key.
/// 5. `BadStamp`, or `NoStamp` of the first client that would need a stamp.
/// 6. `BadShape` and `BadWithdrawn` of each withdrawn account.
///
/// `Memory` may be returned instead of any other. Its table and index mean nothing.
pub fn config_of(alloc: Global, text: &str) -> Result<Config, ConfigError>
    ensures spelled { IfOk result (IsConfig text.now) }
    ensures refused { IfErr result (IsConfigError text.now) }
{
    let document = document_of(alloc, text)?;
    let Some((tables, plans, keys, stamp, withdrawn)) = arrays_in(&document) else {
        return Err(ConfigError::top(ConfigKind::BadShape));
    };
    let clients = clients_of(alloc, tables)?;
    let plans = plans_of(alloc, plans)?;
    let keys = keys_of(alloc, keys)?;
    let stamping = stamping_of(alloc, stamp, tables)?;
    let withdrawn = withdrawn_of(alloc, withdrawn)?;
    let signing = signing_of(alloc, stamp, withdrawn)?;
    Ok(Config {
        clients: clients.heard_by(stamping),
        plans,
        keys: keys.with_signing(signing),
    })
}

// The document that a text is.
fn document_of(alloc: Global, text: &str) -> Result<Table, ConfigError>
    ensures parsed { IfOk result (λ document. parse_document text.now
        ≡ Some (table_view document)) }
    ensures refused { IfErr result (λ error. (error.kind ≡ kind.Memory)
        ⊎ ((error ≡ top_error kind.NotToml) × (parse_document text.now ≡ None))) }
{
    match toml::table_from_str(alloc, text) {
        Ok(document) => Ok(document),
        Err(error) if error.is_memory() => Err(ConfigError::top(ConfigKind::Memory)),
        Err(_) => Err(ConfigError::top(ConfigKind::NotToml)),
    }
}

// The elements of the arrays of the clients, of the plans and of the keys, the texts of the stamp,
// if there is one, and the elements of the array of withdrawn accounts.
fn arrays_in(
    document: &Table,
) -> Option<
    (
        &[Value],
        &[Value],
        &[Value],
        Option<StampTexts<'_>>,
        &[Value],
    ),
>
    ensures { option_map (λ a. (
      map view a.0.now,
      map view a.1.now,
      map view a.2.now,
      stamp_view a.3,
      map view a.4.now,
    )) result ≡ spec.arrays_in (table_view document.now) }
{
    let document = only(document, &["client", "plan", "key", "stamp", "withdrawn"])?;
    let clients = array_at(document, "client", MOST_CLIENTS)?;
    let plans = array_at(document, "plan", MOST_PLANS)?;
    let keys = array_at(document, "key", MOST_KEYS)?;
    let stamp = stamp_at(document)?;
    let withdrawn = array_at(document, "withdrawn", MOST_WITHDRAWN)?;
    Some((clients, plans, keys, stamp, withdrawn))
}
