//! Plans for the states alone that they reach.

use explicit_plan::ReachedPlan;
use heuristic_search::GuidedStates;
use task_core::{ActionId, State};

/// What is taken in each of some states.
#[derive(Drop)]
pub(crate) enum StatePlan {
    /// Found by going through all states that can be reached.
    Reached(ReachedPlan),
    /// Found by a heuristic search.
    Guided(GuidedStates),
}

impl StatePlan {
    /// The action that is taken in a state, if one is.
    pub(crate) fn action_in(&self, state: &State) -> Option<ActionId> {
        match self {
            StatePlan::Reached(plan) => plan.action_in(state),
            StatePlan::Guided(plan) => plan.action_in(state),
        }
    }
}
