//! What a search answers.

use plan_rules::AutoPlan;

/// What a search for a plan with contexts came to.
#[derive(Debug, Drop)]
pub enum FairFound {
    /// A plan.
    Plan(AutoPlan),
    /// That there is none.
    NoPlan,
}
