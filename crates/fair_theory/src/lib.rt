//! Goals with stages whose actions may be tried again and again.
//!
//! A gripper slips now and then, and tries again. On the run on which it slips for ever no stage is
//! met, so no plan has such a goal on every run. Under fair outcomes, where no outcome of an action
//! that is taken again and again is put off for ever, it has. `specs/FairGoals.antt` says by which
//! goal in computation tree logic such plans are judged, `FairPlans` what a plan for it is,
//! `FairSets` from which states there is one, and `FairRuns` what its fair runs do.
#![tactic(auto)]

mod goals;
mod laws;

pub use goals::{MOST_FAIR_STAGES, fair_goal, has_few_stages};
pub use laws::{fair_goals_are_true, fair_runs_have_the_goal, no_fair_plan_without_cover};
