//! The graph of a plan: every configuration that it may reach from the initial states, and which
//! follow which.
//!
//! A configuration is a state with the context that the plan is in. `explore` lists them from the
//! initial ones on, by trying the rules of the plan: no set of states is kept as a diagram.
//! `specs/Executions.antt` says what a plan may reach, in terms of paths, and `specs/Graphs.antt`
//! when a graph is the graph of a plan.
#![tactic(auto)]

mod effects;
mod exploration;
mod graphs;
mod guesses;
mod moves;
mod numbers;
mod rows;
mod rules;
mod steps;

pub use exploration::{GraphErr, MAX_CONFIGURATIONS, explore};
pub use graphs::{Graph, Place};
pub use steps::Steps;
