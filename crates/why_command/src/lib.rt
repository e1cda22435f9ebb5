//! Why there is no plan of a kind, or that there is one: which literals the goal needs that are never
//! true, and which outcomes would make them true; else the verdict of `plan`.
//!
//! `specs/` says what the call answers: `Whys` the answer.
#![tactic(auto)]

mod commands;
mod never;
mod planned;
mod tables;
mod told_runs;

pub use commands::why_files;
