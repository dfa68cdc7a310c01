//! The tables of plans.
ghost use Rattle.std.specs.Prelude.{◌≡◌, ◌≢◌, ◌⊎◌, ℕ, pos, true, IfOk, IfErr, map, MatchOption};
ghost use Rattle.std.specs.Prelude.{option_map};
ghost use Rattle.toml.specs.View.{view};
ghost use Rattle.acct_model.specs.declared.plan.Count.{Count};
ghost use Rattle.acct_site_config.specs.PlanTables as spec;
ghost use Rattle.acct_site_config.specs.inner.PlanTables as inner;
ghost use Rattle.acct_site_config.specs.declared.config_error.ConfigKind.TheVariants as kind;

use crate::config_error::{ConfigError, ConfigKind, ConfigTable};
use crate::entries::{Entries, entries_of};
use crate::tables::{integer_at, table_of, text_at, text_or};
use acct_model::{Count, Octets, Plan, PlanError, PlanList, Plans};
use std::alloc::Global;
use toml::Value;

/// The most octets of a plan's class.
const LONGEST_CLASS: usize = 253;

// The plans that tables spell, each after the earlier ones. One of them must be `default`.
pub(crate) fn plans_of(alloc: Global, tables: &[Value]) -> Result<Plans, ConfigError>
    ensures spelled { IfOk result (spec.ArePlanTables (map view tables.now)) }
    ensures default { IfOk result (λ plans. spec.has_default plans ≡ true) }
    ensures refused { IfErr result (λ error. (error.kind ≡ kind.Memory)
        ⊎ spec.FirstPlanRefused (map view tables.now) error
        ⊎ spec.LacksDefault (map view tables.now) error) }
{
    let list = entries_of(alloc, ConfigTable::Plan, tables, PlanList::none(alloc))?;
    match Plans::from_list(list) {
        Ok(plans) => Ok(plans),
        Err(fault) => Err(ConfigError::top(ConfigKind::from(fault))),
    }
}

impl Entries for PlanList {
    ghost are_spelled = { spec.ArePlanTables };

    ghost refuses = { spec.IsPlanRefused };

    fn push_table(&mut self, alloc: Global, table: &Value) -> Result<(), ConfigKind> {
        let plan = plan_of(alloc, table)?;
        Ok(self.push(plan)?)
    }
}

impl From<PlanError> for ConfigKind {
    ghost from_gives = { λ error kind. kind ≡ spec.plan_kind error };

    fn from(error: PlanError) -> ConfigKind {
        match error {
            PlanError::BadBlock | PlanError::BadUnit => ConfigKind::BadPlan,
            PlanError::TwicePlanned => ConfigKind::TwicePlanned,
            PlanError::NoDefault => ConfigKind::NoDefault,
            PlanError::Memory => ConfigKind::Memory,
        }
    }
}

// The plan that a table spells.
fn plan_of(alloc: Global, table: &Value) -> Result<Plan, ConfigKind>
    ensures spelled { IfOk result (inner.SpellsPlan (view table.now)) }
    ensures refused { IfErr result (inner.IsNoPlan (view table.now)) }
{
    let Some((class, block, unit, count)) = values_of(table) else {
        return Err(ConfigKind::BadShape);
    };
    if !is_class(class) {
        return Err(ConfigKind::BadPlan);
    }
    let Some(block) = natural(block) else {
        return Err(ConfigKind::BadPlan);
    };
    let Some(unit) = natural(unit) else {
        return Err(ConfigKind::BadPlan);
    };
    let Some(count) = count_named(count) else {
        return Err(ConfigKind::BadPlan);
    };
    let class = Octets::from_slice(alloc, class.as_bytes())?;
    Ok(Plan {
        class,
        block,
        unit,
        count,
    })
}

// The class, the block, the unit and the count of a plan's table.
fn values_of(value: &Value) -> Option<(&str, i64, i64, &str)>
    ensures { option_map (λ t. (t.0.now, t.1, t.2, t.3.now)) result
        ≡ spec.plan_values (view value.now) }
{
    let table = table_of(value, &["class", "block", "unit", "count"])?;
    let class = text_at(table, "class")?;
    let block = integer_at(table, "block")?;
    let unit = integer_at(table, "unit")?;
    let count = text_or(table, "count", "both")?;
    Some((class, block, unit, count))
}

// Whether a class has 1 to 253 octets.
pub(crate) fn is_class(text: &str) -> bool
    ensures { result ≡ spec.is_class text.now }
{
    !text.is_empty() && text.len() <= LONGEST_CLASS
}

// What a plan with this name at `count` counts.
fn count_named(name: &str) -> Option<Count>
    ensures { MatchOption result
        ((count : Count) → name.now ≢ spec.count_name count)
        (λ count. name.now ≡ spec.count_name count) }
{
    match name {
        "both" => Some(Count::Both),
        "in" => Some(Count::Input),
        "out" => Some(Count::Output),
        _ => None,
    }
}

// The number itself, if it is not below 0.
pub(crate) fn natural(number: i64) -> Option<u64>
    ensures { MatchOption result
        ((same : ℕ) → number ≢ pos same)
        (λ same. number ≡ pos same) }
{
    u64::try_from(number).ok()
}
