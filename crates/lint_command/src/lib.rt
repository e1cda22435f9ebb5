//! What in the files of a domain and a problem is likely a mistake, each with its place.
//!
//! `specs/` says what the call answers: `Words` what is asked, and `Mistakes` the answer.
#![tactic(auto)]

mod commands;
mod found;
mod in_task;
mod words;

pub use commands::mistakes_in_files;
pub use lint_notices::FileNames;
pub use words::MistakesWords;
