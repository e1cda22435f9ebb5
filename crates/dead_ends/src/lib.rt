//! Why there is no plan of a class though the goal can be reached: a shortest run to the goal, and the
//! first outcome that leaves it to a dead end, a state from which there is no plan of the class.
//!
//! `run_to_goal` looks for both with a `Planner` that its caller hands in. `specs/DeadEnds.antt` says what
//! a dead end is, `specs/Strays.antt` which outcomes leave a run, `specs/ToldRuns.antt` what is told, and
//! `specs/Texts.antt` what is printed, byte for byte.
#![tactic(auto)]

mod outlooks;
mod planners;
mod strays;
mod texts;
mod told_runs;
mod weak_runs;

pub use planners::Planner;
pub use told_runs::run_to_goal;
