//! What speaks for a verdict on a plan: a shortest run that shows it, the number of the initial state
//! in which it begins, and what is the matter at its end; and the text of that. A run that comes back is
//! shown with a shortest way back. Where a plan with contexts misses its goal, the run is the one along
//! which the goal fails, with the parts of the goal that are false on it. Of a strong plan a longest run is
//! told besides; and after a run to where the plan can't come to its goal, in which states it stays.
//!
//! `specs/Aims.antt` says what shows which verdict, `specs/Findings.antt` and `specs/Misses.antt` what is
//! said of a run, `specs/Longest.antt` and `specs/Stays.antt` what is told besides, `specs/ForVerdicts.antt`
//! what is told of which verdict, and `specs/Texts.antt` what is printed, byte for byte.
#![tactic(auto)]

mod aims;
mod endings;
mod findings;
mod laws;
mod longest;
mod misses;
mod numbers;
mod parts;
mod rules;
mod runs;
mod sources;
mod stays;
mod texts;
mod verdicts;

pub use endings::{Ending, false_goal, false_precondition, missed_lines};
pub use findings::{Found, cycle_from};
pub use laws::{context_plans_never_end, failures_are_shown};
pub use misses::{JudgedBy, find_miss};
pub use sources::{Source, line_at};
pub use stays::Stays;
pub use texts::{ending_sentence, finding_text, push_initial, push_refusal, push_rule};
pub use verdicts::{Finding, find_for_class, find_for_contexts, with_run};
