//! What plans there are for a system, with no sets on diagrams: definitions, and laws about them.
//!
//! The definitions stand in `specs/`. Weak and strong plans go by layers: `Layers` (the states from
//! which the goal is reached in so many steps), `Classes`, `LayerPlans` (the rules that are
//! printed, from the least-numbered action of each state) and `Bounds` (how long the paths of a
//! table are). Strong cyclic plans go by sets of state-action pairs: `Pairs`, `LargestSets` (the
//! largest set that no pair leads out of and from which the goal is reached), `PairRounds` (how it
//! is found) and `CyclicPlans` (the rules). Until-chains are goals that ask for stages to be met one
//! after another, in states of a guard until then, and for a set to be kept from then on: `Safe`
//! (where a set can be kept for ever), `GuardedSets` (where a set is met for certain; `StageSets` the
//! same without a guard), `UntilChains` (where the until-chain can be had), `UntilPrinted` (the rules
//! with contexts, by `ContextRules`) and `UntilPlans` (what a plan for it is). Patrol goals ask for
//! visits to be made again and again: `Patrols`, `PatrolPrinted` and `PatrolPlans`. `Found` has words
//! for what a search found.
//!
//! The laws are the contracts of functions that do nothing. The planners rest on them; so does who
//! speaks of the printed plans and has no planner.
#![tactic(auto)]

mod answers;
mod context_laws;
mod cyclic_laws;
mod layer_laws;
mod patrol_laws;
mod until_laws;

pub use answers::Found;
pub use context_laws::{
    rules_have_finitely_many_contexts, safe_set_is_largest, stage_actions_lead_nearer,
    stage_set_is_least,
};
pub use cyclic_laws::{
    cyclic_plan_solves, last_round_is_largest, no_cyclic_plan_without_cover, rounds_shrink,
    rounds_stand_still, solutions_outlast_rounds,
};
pub use layer_laws::{
    layers_grow, layers_stand_still, no_plan_once_stable, no_plan_without_cover,
    printed_plan_is_shortest, printed_plan_solves, strong_plans_end,
};
pub use patrol_laws::{
    no_patrol_plan_without_cover, patrol_actions_lead_on, patrol_set_is_largest,
    printed_patrol_plan_has_goal, printed_patrol_rules_act,
};
pub use until_laws::{
    guarded_actions_lead_nearer, guarded_set_is_least, no_until_plan_without_cover,
    printed_until_plan_has_goal, printed_until_rules_act, until_actions_lead_on,
};
