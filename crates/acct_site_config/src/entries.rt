//! Lists of entries that arrays of tables spell.
ghost use Rattle.std.specs.Prelude.{◌≡◌, ◌⊎◌, ◌++◌, List, [], ◌∷◌, map, IfOk, IfErr, OnOk};
ghost use Rattle.toml.specs.Data.{Data};
ghost use Rattle.toml.specs.View.{view};
ghost use Rattle.acct_site_config.specs.Entries.{FirstRefused};
ghost use Rattle.acct_site_config.specs.declared.config_error.ConfigKind.{ConfigKind};
ghost use Rattle.acct_site_config.specs.declared.config_error.ConfigKind.TheVariants as kind;

use crate::config_error::{ConfigError, ConfigKind, ConfigTable};
use std::alloc::Global;
use toml::Value;

// A list of entries of one kind, each of which is spelled by a table.
pub(crate) trait Entries {
    // The tables spell these entries, in this order.
    ghost are_spelled: { List Data → Self → Type 0 };

    // Why a table after these entries is refused.
    ghost refuses: { Self → Data → ConfigKind → Type 0 };

    // Puts the entry that a table spells at the end.
    fn push_table(&mut self, alloc: Global, table: &Value) -> Result<(), ConfigKind>
        ensures pushed { OnOk result ((tables : List Data) → are_spelled tables self.old
            → are_spelled (tables ++ view table.now ∷ []) self.new) }
        ensures refused { IfErr result (λ why. (why ≡ kind.Memory)
            ⊎ refuses self.old (view table.now) why) };
}

// The entries that an array of tables spells, added to the empty list `none`.
pub(crate) fn entries_of<L: Entries + Drop>(
    alloc: Global,
    array: ConfigTable,
    tables: &[Value],
    none: L,
) -> Result<L, ConfigError>
    requires { L.are_spelled [] none }
    ensures spelled { IfOk result (L.are_spelled (map view tables.now)) }
    ensures refused { IfErr result (λ error. (error.kind ≡ kind.Memory)
        ⊎ FirstRefused L.are_spelled L.refuses array (map view tables.now) error) }
{
    let mut entries = none;
    for (index, table) in tables.iter().enumerate() {
        if let Err(kind) = entries.push_table(alloc, table) {
            return Err(ConfigError {
                kind,
                table: array,
                index,
            });
        }
    }
    Ok(entries)
}
