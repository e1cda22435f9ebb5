//! Goals in computation tree logic: formulas about what all, or some, executions of a plan do
//! (Pistore, Traverso 2001).
//!
//! `specs/Goals.antt` has the formulas as plain trees, `specs/Paths.antt` the paths that their
//! operators speak of, and `specs/Truth.antt` where a formula is true. All of that speaks of any
//! structure of nodes that follow one another: of the configurations of a plan, or of the numbers
//! of a graph.
#![tactic(auto)]

mod context_goals;
mod copies;
mod goals;
mod laws;
mod rows;

pub use context_goals::{ContextGoal, UntilChain, UntilStage, as_context_goal};
pub use copies::{copied_condition, copied_conditions};
pub use goals::Ctl;
pub use laws::context_goals_are_true;
