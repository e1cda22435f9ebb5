//! The command `drill`: plans for a problem that is made, each with the verdict on it.
//! `specs/DrillCommand` says its answers.
#![tactic(auto)]

mod drill_command;

pub use drill_command::run_drill;
