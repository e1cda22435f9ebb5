//! The command `refute`: the verdict on a certificate that there is no plan. `specs/RefuteCommand` says
//! its answers, and `specs/RefuteFetches` which files it fetches. No planner.
#![tactic(auto)]

mod certificate_files;
mod refute_command;

pub use refute_command::refute_files;
