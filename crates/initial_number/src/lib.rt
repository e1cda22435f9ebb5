//! An initial state of a task by its number.
//!
//! Where each choice of an alternative for each uncertain entry gives a state of its own, the number
//! is that of the choice, and the state is made alone; elsewhere the states are listed.
#![tactic(auto)]

mod alternatives;
mod choices;
mod chosen;
mod fluents;
mod numbered;

pub use numbered::{Numbered, numbered_initial};
