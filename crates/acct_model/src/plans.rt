//! The plans of a site.
ghost use Rattle.std.specs.Prelude.{◌≡◌, ◌↔◌, ◌^◌, ◌<◌, ◌≤◌, Some, None, IfOk, IfErr, OnOk};
ghost use Rattle.std.specs.Prelude.{IsTrue};
ghost use Rattle.acct_model.specs.Plans.{plan_for, plan_class, Extends};

use crate::plan::Plan;
use crate::plan_list::{PlanList, find_plan, has_plan};
use std::marker::Model;
use thiserror::Error;

/// The class of the plan that prices each class without a plan of its own.
const DEFAULT: &[u8] = b"default";

/// Plans of which each class has one at most and `default` has one. Each block is 1 to 2^53 and
/// each unit 0 to 10^9.
pub struct Plans {
    plans: Vec<Plan>,
}

impl Drop for Plans {
    fn drop(self) {
        let Plans { plans: _ } = self;
    }
}

impl Model for Plans {
    ghost use Rattle.std.specs.Prelude.{List};
    ghost use Rattle.acct_model.specs.declared.plan.Plan.{Plan};

    ghost Value = { List Plan };

    ghost use Rattle.acct_model.specs.PlanFaults.{ArePlans};

    ghost view = { λ p. p.plans.items };

    ghost invariant = { λ p. ArePlans p.plans.items };
}

/// Why plans cannot be the plans of a site.
#[derive(Clone, Copy, PartialEq, Eq, Debug, Error)]
pub enum PlanError {
    /// No plan has the class `default`.
    #[error("there is no plan default")]
    NoDefault = 1,
    /// An earlier plan has the same class.
    #[error("an earlier plan has the same class")]
    TwicePlanned = 2,
    /// The block is not 1 to 2^53.
    #[error("the block is not 1 to 9007199254740992")]
    BadBlock = 3,
    /// The unit is not 0 to 10^9.
    #[error("the unit is not 0 to 1000000000")]
    BadUnit = 4,
    /// Out of memory.
    #[error("out of memory")]
    Memory = 5,
}

impl Plans {
    ghost use Rattle.acct_model.specs.PlanFaults.{default_fault, plans_fault};

    /// The plans as they are given, if they have no fault. It takes no memory.
    ///
    /// # Errors
    ///
    /// The first fault: each plan in its turn for `BadBlock`, `BadUnit` and `TwicePlanned`, and at
    /// last `NoDefault`.
    pub fn new(plans: Vec<Plan>) -> Result<Plans, PlanError>
        ensures kept { IfOk result (λ kept. kept ≡ plans.items) }
        ensures faultless { OnOk result (plans_fault plans.items ≡ None) }
        ensures fault { IfErr result (λ fault. plans_fault plans.items ≡ Some fault) }
    {
        Plans::from_list(PlanList::new(plans)?)
    }

    /// The plans of a list, if one of them is `default`. It takes no memory.
    ///
    /// # Errors
    ///
    /// `NoDefault`, if none is.
    pub fn from_list(list: PlanList) -> Result<Plans, PlanError>
        ensures kept { IfOk result (λ kept. kept ≡ list) }
        ensures default { OnOk result (default_fault list ≡ None) }
        ensures fault { IfErr result (λ fault. default_fault list ≡ Some fault) }
    {
        let plans = list.into_plans();
        if !has_plan(&plans, DEFAULT) {
            return Err(PlanError::NoDefault);
        }
        Ok(Plans { plans })
    }

    /// The plan of a class, else the plan `default`. It goes through the plans once for each.
    pub fn plan_of(&self, class: &[u8]) -> &Plan
        ensures found { plan_for self.now class.now ≡ Some result.now }
        ensures class { result.now.class ≡ plan_class self.now class.now }
        ensures block { 0 < result.now.block }
        ensures unit { result.now.unit ≤ 10 ^ 9 }
    {
        match find_plan(&self.plans, class) {
            Some(plan) => plan,
            None => match find_plan(&self.plans, DEFAULT) {
                Some(plan) => plan,
                None => unreachable!(),
            },
        }
    }

    /// Whether each of the old plans is here unchanged. It takes no memory.
    pub fn extends(&self, old: &Plans) -> bool
        ensures { IsTrue result ↔ Extends self.now old.now }
    {
        for plan in old.plans.iter() {
            if !plan.is_among(&self.plans) {
                return false;
            }
        }
        true
    }

    /// Plans have no fault, whoever made them. It takes no memory, and does nothing.
    pub fn have_no_fault(&self)
        ensures { plans_fault self.now ≡ None }
    {
        let _ = &self.plans;
    }

    /// The plans in the order in which they were given.
    pub fn list(&self) -> &[Plan]
        ensures { result.now ≡ self.now }
    {
        &self.plans
    }
}
