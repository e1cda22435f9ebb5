//! Plans found by a heuristic search forward from the initial states. Nothing is promised of what is
//! found but that the search ends: it is to be judged before it is used.
//!
//! `plans` chooses the search by the class (`cyclic_search`, `strong_search`), `reach` goes through what its
//! policy reaches, `piecewise` makes rules of it, and `refused` makes sets of cubes where there is no plan.
#![tactic(auto)]

mod piecewise;
mod plans;
mod reach;
mod refused;

pub use plans::{GuidedAnswer, GuidedStates, plan_guided};
pub use search_world::Allowance;
