//! Plans as JSON documents: the names of a task's fluents and actions, and a plan's rules with their
//! literals, contexts and actions, and of each action its precondition and what it may do.
#![tactic(auto)]

mod actions;
mod documents;
mod names;
mod rules;
mod told;
mod values;

pub use documents::plan_document;
pub use names::{action_array, fluent_array, name_value};
pub use told::is_told_in_full;
pub use values::{count_value, value_text};
