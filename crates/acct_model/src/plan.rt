//! A plan, what it counts and its prices.
ghost use Rattle.std.specs.Prelude.{◌≡◌, ◌↔◌, ◌+◌, ◌-◌, ◌*◌, ◌<◌, ◌≤◌, ◌^◌, ℕ, Contains, IsTrue};
ghost use Rattle.acct_model.specs.Plans.{counted, price_of, started_blocks, IsLeastBlocks};

use crate::octets::Octets;

/// Which octets of a session its plan counts.
#[derive(Clone, Copy, PartialEq, Eq, Debug)]
pub enum Count {
    /// Input and output together.
    Both,
    /// Only the input.
    Input,
    /// Only the output.
    Output,
}

/// What the sessions of a class pay: a unit for each block that was started.
pub struct Plan {
    /// The Class whose sessions it prices.
    pub class: Octets,
    /// The size of a block in octets, 1 to 2^53 in the plans of a site.
    pub block: u64,
    /// What a block costs, 0 to 10^9 in the plans of a site.
    pub unit: u64,
    /// Which octets are counted.
    pub count: Count,
}

impl Drop for Plan {
    fn drop(self) {
        let Plan {
            class: _,
            block: _,
            unit: _,
            count: _,
        } = self;
    }
}

impl Plan {
    /// Whether it is one of these plans, unchanged. It takes no memory.
    pub fn is_among(&self, plans: &[Plan]) -> bool
        ensures { IsTrue result ↔ Contains plans.now self.now }
    {
        for other in plans {
            if is_same(other, self) {
                return true;
            }
        }
        false
    }

    /// How many blocks so many counted octets start: the least number of blocks that covers them.
    pub fn blocks(&self, octets: u64) -> u128
        requires { 0 < self.now.block }
        ensures exact { result ≡ started_blocks self.now.block octets }
        ensures least { IsLeastBlocks self.now.block octets result }
        ensures most { result ≤ octets }
    {
        let block = u128::from(self.block);
        (u128::from(octets) + (block - 1)) / block
    }
}

fn is_same(one: &Plan, other: &Plan) -> bool
    ensures { IsTrue result ↔ (one.now ≡ other.now) }
{
    one.class == other.class
        && one.block == other.block
        && one.unit == other.unit
        && one.count == other.count
}

/// What a plan counts of an input and an output: both together, the input or the output. It takes
/// no memory.
pub fn counted(plan: &Plan, input: u64, output: u64) -> u64
    requires { input + output < 2 ^ 63 }
    ensures exact { result ≡ counted plan.now input output }
    ensures most { result ≤ input + output }
    ensures bound { result < 2 ^ 63 }
{
    match plan.count {
        Count::Both => input + output,
        Count::Input => input,
        Count::Output => output,
    }
}

/// What a counted number of octets costs: `unit` times the least number of blocks that cover it.
pub fn price(plan: &Plan, octets: u64) -> u128
    requires { 0 < plan.now.block }
    ensures exact { result ≡ price_of plan.now octets }
    ensures least { (blocks : ℕ) × IsLeastBlocks plan.now.block octets blocks
        × (result ≡ plan.now.unit * blocks) }
    ensures most { result ≤ octets * plan.now.unit }
{
    u128::from(plan.unit) * plan.blocks(octets)
}
