//! The subcommands of `pulgazer` under one call.
//!
//! `specs/` says what the call answers: `Table` the subcommands with their operands and options, `Scans` what
//! the words after a subcommand give, `Requests` what they ask for (`Asked`, `Allowed`), `Mistakes` and
//! `Nearest` what is wrong with words, `Help` the texts about them, and `Runs` a run with its cause.
#![tactic(auto)]

mod answers;
mod help;
mod mistakes;
mod nearest;
mod requests;
mod scans;
mod table;
mod top;

pub use mistakes::{Mistake, Why};
pub use table::{CommandOption, Subcommand};
pub use top::run_words;
