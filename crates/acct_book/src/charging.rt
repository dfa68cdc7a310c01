//! What a session costs.
ghost use Rattle.std.specs.Prelude.{◌≡◌, ◌<◌, ◌^◌};
ghost use Rattle.acct_book.specs.Charge.{charge_of_row};

use crate::row::Row;
use acct_model::{Plans, counted, price};

/// What the session of a row costs: the price of what its plan counts of its octets.
/// It takes no memory.
pub fn charge(plans: &Plans, row: &Row) -> u128
    ensures exact { result ≡ charge_of_row plans.now row.now }
    ensures bound { result < 2 ^ 93 }
{
    let plan = plans.plan_of(row.plan.as_slice());
    price(plan, counted(plan, row.input, row.output))
}
