//! The run that a record has over a plan: every step with the rule that counts, and why the run stops.
//!
//! `specs/RecordedRuns.antt` says what that run is, by the definition of traces that `run_replay` has, and
//! `specs/Texts.antt` what is printed of it, byte for byte. The rule that counts is found by an index of
//! the rules' cubes (`rules`), one turn is made in `turns`, and what is false at the end in `stops`.
#![tactic(auto)]

mod laws;
mod rules;
mod runs;
mod stops;
mod texts;
mod turns;

pub use rules::Counting;
pub use runs::{MadeStep, RecordedRun, recorded_run};
pub use stops::Stop;
pub use texts::recorded_text;
