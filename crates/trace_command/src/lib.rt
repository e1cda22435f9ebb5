//! The run that a record has over a plan, told step by step.
//!
//! `specs/` says what the call answers: `Told` the answer. The files are those of the command `replay`, and
//! are fetched as it does.
#![tactic(auto)]

mod commands;
mod shown;

pub use commands::trace_files;
