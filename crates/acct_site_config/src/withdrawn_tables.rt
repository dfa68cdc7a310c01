//! The tables of withdrawn accounts.
ghost use Rattle.std.specs.Prelude.{◌≡◌, ◌⊎◌, IfOk, IfErr, map, option_map};
ghost use Rattle.toml.specs.View.{view};
ghost use Rattle.acct_site_config.specs.WithdrawnTables as spec;
ghost use Rattle.acct_site_config.specs.inner.WithdrawnTables as inner;
ghost use Rattle.acct_site_config.specs.declared.config_error.ConfigKind.TheVariants as kind;

use crate::config_error::{ConfigError, ConfigKind, ConfigTable};
use crate::entries::{Entries, entries_of};
use crate::plan_tables::natural;
use crate::tables::{integer_at, table_of, text_at};
use acct_desk::Withdrawn;
use acct_model::{Octets, is_account, unshow};
use std::alloc::Global;
use toml::Value;

// The withdrawals that tables spell.
pub(crate) fn withdrawn_of(alloc: Global, tables: &[Value]) -> Result<Vec<Withdrawn>, ConfigError>
    ensures spelled { IfOk result (λ list.
        spec.AreWithdrawnTables (map view tables.now) list.items) }
    ensures refused { IfErr result (λ error. (error.kind ≡ kind.Memory)
        ⊎ spec.FirstWithdrawnRefused (map view tables.now) error) }
{
    entries_of(alloc, ConfigTable::Withdrawn, tables, Vec::new(alloc))
}

impl Entries for Vec<Withdrawn> {
    ghost are_spelled = { inner.AreSpelled };

    ghost refuses = { inner.Refuses };

    fn push_table(&mut self, alloc: Global, table: &Value) -> Result<(), ConfigKind> {
        let withdrawn = withdrawn_in(alloc, table)?;
        if self.push(withdrawn).is_err() {
            return Err(ConfigKind::Memory);
        }
        Ok(())
    }
}

// The withdrawal that a table spells.
fn withdrawn_in(alloc: Global, table: &Value) -> Result<Withdrawn, ConfigKind>
    ensures spelled { IfOk result (inner.SpellsWithdrawn (view table.now)) }
    ensures refused { IfErr result (inner.IsNoWithdrawn (view table.now)) }
{
    let Some((account, until)) = values_of(table) else {
        return Err(ConfigKind::BadShape);
    };
    let octets = unshow(alloc, account)?;
    if !is_account(&octets) {
        return Err(ConfigKind::BadWithdrawn);
    }
    let Some(until) = natural(until) else {
        return Err(ConfigKind::BadWithdrawn);
    };
    Ok(Withdrawn {
        account: Octets { octets },
        until,
    })
}

// The account and the last second of such a table.
fn values_of(value: &Value) -> Option<(&str, i64)>
    ensures { option_map (λ t. (t.0.now, t.1)) result ≡ spec.withdrawn_values (view value.now) }
{
    let table = table_of(value, &["account", "until"])?;
    let account = text_at(table, "account")?;
    let until = integer_at(table, "until")?;
    Some((account, until))
}
