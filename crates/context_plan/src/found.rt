//! What a search answers.

use plan_rules::AutoPlan;

/// What a search for a plan with contexts found.
#[derive(Debug, Drop)]
pub enum FoundAuto {
    /// A plan.
    Plan(AutoPlan),
    /// That there is none.
    NoPlan,
}
