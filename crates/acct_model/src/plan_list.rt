//! Plans in the making: what becomes the plans of a site once one of them is `default`.
ghost use Rattle.std.specs.Prelude.{◌≡◌, ◌++◌, [], ◌∷◌, Some, None, IfOk, IfErr, OnOk, OnErr};
ghost use Rattle.std.specs.List.{find, list_any};
ghost use Rattle.std.specs.Option.{option_copied};
ghost use Rattle.acct_model.specs.Faults.{first_fault, fault_or};
ghost use Rattle.acct_model.specs.Plans.{has_class};
ghost use Rattle.acct_model.specs.PlanFaults.{plan_fault};

use crate::kept_limits::GREATEST_BLOCK;
use crate::plan::Plan;
use crate::plans::PlanError;
use std::alloc::Global;
use std::marker::Model;

/// The greatest unit.
const GREATEST_UNIT: u64 = 1_000_000_000;

/// Plans of which each class has one at most. Each block is 1 to 2^53 and each unit 0 to 10^9. The
/// class `default` may have none yet.
pub struct PlanList {
    plans: Vec<Plan>,
}

impl Drop for PlanList {
    fn drop(self) {
        let PlanList { plans: _ } = self;
    }
}

impl Model for PlanList {
    ghost use Rattle.std.specs.Prelude.{List};
    ghost use Rattle.acct_model.specs.declared.plan.Plan.{Plan};

    ghost Value = { List Plan };

    ghost use Rattle.acct_model.specs.PlanFaults.{ArePlansSoFar};

    ghost view = { λ p. p.plans.items };

    ghost invariant = { λ p. ArePlansSoFar p.plans.items };
}

impl PlanList {
    /// No plans yet. It takes no memory.
    pub fn none(alloc: Global) -> PlanList
        ensures { result ≡ [] }
    {
        PlanList {
            plans: Vec::new(alloc),
        }
    }

    // The plans as they are given, if none has a fault among those before it. It takes no memory.
    pub(crate) fn new(plans: Vec<Plan>) -> Result<PlanList, PlanError>
        ensures kept { IfOk result (λ kept. kept ≡ plans.items) }
        ensures faultless { OnOk result (first_fault plan_fault plans.items ≡ None) }
        ensures fault { IfErr result (λ fault. first_fault plan_fault plans.items ≡ Some fault) }
    {
        for i in 0..plans.len() {
            if let Some(fault) = fault_after(&plans[..i], &plans[i]) {
                return Err(fault);
            }
        }
        Ok(PlanList { plans })
    }

    /// Puts a plan at the end, if it has no fault among those before it. It is compared with each
    /// of them.
    ///
    /// # Errors
    ///
    /// The first of `BadBlock`, `BadUnit` and `TwicePlanned` that holds, and `Memory` only if none
    /// does. The list is then as before.
    pub fn push(&mut self, plan: Plan) -> Result<(), PlanError>
        ensures pushed { OnOk result (self.new ≡ self.old ++ plan ∷ []) }
        ensures faultless { OnOk result (plan_fault self.old plan ≡ None) }
        ensures refused { IfErr result (λ error.
            error ≡ fault_or PlanError.Memory (plan_fault self.old plan)) }
        ensures unchanged { OnErr result (self.new ≡ self.old) }
    {
        if let Some(fault) = fault_after(&self.plans, &plan) {
            return Err(fault);
        }
        if self.plans.push(plan).is_err() {
            return Err(PlanError::Memory);
        }
        Ok(())
    }

    // The plans themselves, which have no fault but that `default` may lack.
    pub(crate) fn into_plans(self) -> Vec<Plan>
        ensures kept { result.items ≡ self }
        ensures faultless { first_fault plan_fault self ≡ None }
    {
        let PlanList { plans } = self;
        plans
    }
}

// What is wrong with a plan that comes after earlier ones.
fn fault_after(earlier: &[Plan], plan: &Plan) -> Option<PlanError>
    ensures { result ≡ plan_fault earlier.now plan.now }
{
    if plan.block == 0 || plan.block > GREATEST_BLOCK {
        return Some(PlanError::BadBlock);
    }
    if plan.unit > GREATEST_UNIT {
        return Some(PlanError::BadUnit);
    }
    if has_plan(earlier, plan.class.as_slice()) {
        return Some(PlanError::TwicePlanned);
    }
    None
}

// The first plan of a class.
pub(crate) fn find_plan<'p>(plans: &'p [Plan], class: &[u8]) -> Option<&'p Plan>
    ensures { option_copied result ≡ find (has_class class.now) plans.now }
{
    for plan in plans {
        if class == plan.class.as_slice() {
            return Some(plan);
        }
    }
    None
}

pub(crate) fn has_plan(plans: &[Plan], class: &[u8]) -> bool
    ensures { result ≡ list_any (has_class class.now) plans.now }
{
    plans.iter().any(|plan| class == plan.class.as_slice())
}
