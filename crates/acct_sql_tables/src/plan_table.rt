//! The tables of the plans.

/// A table of plans.
#[derive(Clone, Copy)]
pub enum PlanTable {
    /// Their blocks and units.
    Prices,
    /// What they count.
    Counts,
}
