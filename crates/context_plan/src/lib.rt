//! Plans for until-chains and patrol goals: plans with contexts that meet stages one after another,
//! each in states of its guard until then, and then keep a condition for ever, or that make some
//! visits again and again, whatever the outcomes are.
//!
//! `plan_until` and `plan_patrol` search for them on sets of states. A chain is an until-chain whose
//! guards ask for nothing. Which plan each gives is said in the `specs/` of `plan_theory`;
//! `specs/Chains.antt` here says which sets of states the conditions speak of, `WorkingSets` and
//! `PatrolWorkingSets` which sets the searches make, by whose sizes they need few nodes. `Guards`,
//! `Scenes`, `Rounds`, `Sizes`, `Steps`, `Tables`, `Listing` and `Answers`, and those with `Patrol`
//! before, have the words of the contracts inside.
#![tactic(auto)]

mod found;
mod means;
mod patrol;
mod patrol_rules;
mod places;
mod rounds;
mod rule_states;
mod rules;
mod takers;
mod until;
mod visits;
mod wins;

pub use found::FoundAuto;
pub use patrol::plan_patrol;
pub use places::rule_place;
pub use rule_states::rule_sets;
pub use rules::{Advance, Chain};
pub use until::{plan_until, until_takers};
