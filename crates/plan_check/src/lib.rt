//! Whether a plan is a weak, strong or strong cyclic solution, or meets a goal in computation tree
//! logic, read off its graph.
//!
//! `specs/Verdicts.antt` says what a verdict on a table means, in terms of the paths of the table
//! that the plan denotes, and `specs/ContextVerdicts.antt` what one on a plan with contexts means,
//! in terms of the paths of the context plan. Nothing here stands on the planners.
#![tactic(auto)]

mod classes;
mod contexts;
mod counted;
mod ends;
mod goals;
mod labelling;
mod laws;
mod longest;
mod reaching;
mod search;
mod spreading;
mod verdicts;

pub use classes::check_class;
pub use contexts::check_ctl;
pub use counted::{judge_class, judge_ctl};
pub use ends::goal_ends;
pub use goals::labels;
pub use labelling::{Join, joined, negated, same_label};
pub use laws::{
    one_context_verdict, one_verdict, reasons_exclude_freedom, yes_is_met, yes_is_solution,
};
pub use reaching::mark_leading;
pub use spreading::{Along, Need, is_marked, spread};
pub use verdicts::{Reason, Verdict};
