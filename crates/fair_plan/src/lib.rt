//! Plans for until-chains and patrol goals whose actions may be tried again and again.
//!
//! `fair_plan` searches on sets of states. It finds the largest set of states from which the goal can
//! be had: for each stage the states with actions that stay in the set and its guard and can still
//! meet the stage, for a patrol the states with actions that stay in the set and can still make each
//! visit. `specs/FairSets.antt` of `fair_theory` says which sets these are. `fixpoints` finds a
//! largest set, `stages` those of a goal, one after another, `takers` which action is taken in which
//! state, and `rules` lists the rules. `specs/Goals.antt` says which goals a search takes, `Found`
//! what an answer says, `Places` what stands where on the board, and `Boards` and `Rounds` have the
//! words of the contracts inside.
#![tactic(auto)]

mod fixpoints;
mod found;
mod places;
mod plan;
mod rules;
mod stages;
mod steps;
mod takers;

pub use found::FairFound;
pub use plan::fair_plan;
