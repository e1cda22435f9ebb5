//! Running a plan under outcomes that a caller's world chooses, watched by a caller's monitors.
//!
//! `World` and `Monitor` are what a caller hands in; `RecordWorld`, `StepMonitor` and
//! `ChangeMonitor` are the program's own. `read_words` reads a record of a run. `specs/Traces.antt`
//! says what the trace of a plan is, by recursion on its turns; `execute` runs a plan and gives
//! exactly its trace, or the refusal that the trace ends with, and `write_trace` gives the text of
//! a run. One turn is made in `turns`, and the monitors are told of its step in `watch`.
#![tactic(auto)]

mod laws;
mod monitors;
mod records;
mod runs;
mod text;
mod traces;
mod turns;
mod watch;
mod worlds;

pub use laws::{steps_have_their_outcomes, traces_are_paths};
pub use monitors::{ChangeMonitor, Monitor, StepMonitor};
pub use records::{Recorded, read_words};
pub use runs::{MOST_STEPS, Start, execute};
pub use text::write_trace;
pub use traces::{End, RunErr, Trace};
pub use turns::{is_executable, outcome_state};
pub use worlds::{RecordWorld, Step, World};
