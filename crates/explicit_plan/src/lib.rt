//! Plans found state by state: among the states alone that can be reached from the initial ones.
//! Where these are few, a plan is found at once, however large the sets of states are that a planner
//! over sets has to go through.
//!
//! `graph` goes through the states that can be reached, `before` turns the steps between them round,
//! `layers` goes back from the goal along these, and `plans` puts it all together. `weights` says how much
//! there is to look at. Nothing is promised of what is found: it is to be judged before it is used.
#![tactic(auto)]

mod before;
mod graph;
mod layers;
mod plans;
mod weights;

pub use plans::{ReachedPlan, plan_reached};
pub use weights::tests_in_state;
