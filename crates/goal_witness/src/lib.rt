//! Why a plan with contexts misses a goal in computation tree logic: a run along which the goal fails,
//! and so on inside where the part that fails is again over all runs.
//!
//! `specs/Failures.antt` says what such a witness is, and `specs/Witnesses.antt` when one comes.
#![tactic(auto)]

mod failing;
mod lines;
mod links;
mod rounds;
mod runs;
mod shortest;
mod texts;
mod ways;
mod witnesses;
mod zones;

pub use lines::{Line, lines_of};
pub use links::{How, Link};
pub use texts::{push_goal, push_lines};
pub use witnesses::{Witness, goal_witness};
