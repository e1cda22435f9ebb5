//! The texts of states, of what changes from one to the next, of conditions, of actions and of the numbers
//! of steps, with the names that fluents and actions have in plans. `specs/Texts.antt` says what is printed,
//! byte for byte.
#![tactic(auto)]

mod actions;
mod conditions;
mod states;
mod steps;

pub use actions::push_action;
pub use conditions::{push_condition, push_conditions, push_parts};
pub use states::{push_changes, push_true};
pub use steps::push_step_number;
