//! The plans `gold` and `default`.
ghost use Rattle.std.specs.Prelude.{◌≡◌, IfOk};
ghost use Rattle.acct_site.specs.SampleSite.{sample_plans};

use acct_model::{Count, Octets, Plan, Plans};
use std::alloc::{AllocError, Global};

/// The plans `gold`, of 1,048,576 octets a block and 10 a unit, and `default`, of 1,000,000 octets
/// a block and 5 a unit.
///
/// # Errors
///
/// Only if an allocation fails.
pub fn sample_plans(alloc: Global) -> Result<Plans, AllocError>
    ensures { IfOk result (λ plans. plans ≡ sample_plans) }
{
    let mut list = Vec::new(alloc);
    list.push(plan(alloc, b"gold", 1_048_576, 10)?)?;
    list.push(plan(alloc, b"default", 1_000_000, 5)?)?;
    match Plans::new(list) {
        Ok(plans) => Ok(plans),
        Err(_) => unreachable!(),
    }
}

/// The plan of a class, which counts input and output together. A block has `block` octets, and
/// each started block costs `unit`.
///
/// # Errors
///
/// Only if an allocation fails.
pub fn plan(alloc: Global, class: &[u8], block: u64, unit: u64) -> Result<Plan, AllocError>
    ensures { IfOk result (λ plan.
        plan ≡ record { class = class.now; block = block; unit = unit; count = Count.Both }) }
{
    let class = Octets::from_slice(alloc, class)?;
    let count = Count::Both;
    Ok(Plan {
        class,
        block,
        unit,
        count,
    })
}
