//! What a search for a plan answers.

use plan_rules::TablePlan;

/// What a search for a plan found.
#[derive(Debug, Drop)]
pub enum Found {
    /// A plan that solves the task.
    Plan(TablePlan),
    /// The task has no solution.
    NoPlan,
}
