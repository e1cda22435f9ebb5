//! Pictures of plans as texts in the DOT language, which `dot` draws: a node for each configuration
//! that the plan in a file may reach, and an edge for each step that it may take there. Or as pages
//! to step through the plan in a browser. The run of an explanation may be shown in both.
//!
//! `specs/` says what the call answers: `Words` which picture is wanted, and `Pictures` the answer.
#![tactic(auto)]

mod commands;
mod run_files;
mod words;

pub use commands::picture_files;
pub use words::{PictureForm, PictureWords};
