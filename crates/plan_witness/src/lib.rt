//! Runs that show why a plan is no plan of its class, or that it is one.
//!
//! A run is a list of steps of the plan from an initial state, each with the number of the rule in
//! the plan's text, the action, the number of the outcome, and the state and the context to which it
//! leads. No other run that shows the same is shorter. `specs/Runs.antt` says what a run is,
//! and `specs/Ends.antt` what its end shows.
#![tactic(auto)]

mod components;
mod cycles;
mod heights;
mod levels;
mod longest;
mod onward;
mod reasons;
mod rules;
mod runs;
mod scenes;
mod shortest;
mod steps;
mod stuck;
mod unreachable;
mod ways;

pub use cycles::{Lasso, cycle_run, follows, only_mark};
pub use longest::longest_run;
pub use onward::onward_numbers;
pub use reasons::{bad_rule_number, terminal_run, unexecutable_run};
pub use rules::counting_rule;
pub use runs::{Run, RunStep, steps_along};
pub use scenes::{Scene, Spot};
pub use shortest::Way;
pub use stuck::{lost_outcome, stuck_run};
pub use unreachable::{endless_run, goal_run, lost_run};
pub use ways::{FAR, Ways};
