//! Strong plans, by a search of the graph of states and actions from the initial states (after Mattmüller,
//! Ortlieb, Helmert and Bercher, Pattern database heuristics for fully observable nondeterministic planning,
//! 2010). Nothing is promised of what is found but that the search ends.
//!
//! `strong` goes down the graph, whose states are in `vertices` and whose actions in `branches`;
//! `tried_actions` makes branches, `branch_costs` says what they cost, `lost_branches` takes out those
//! that are of no use, `solved_states` notes which states are solved, and `trap` says why there is no plan.
#![tactic(auto)]

mod branch_costs;
mod branches;
mod lost_branches;
mod solved_states;
mod strong;
mod trap;
mod tried_actions;
mod vertices;
mod views;

pub use strong::AndOrGraph;
