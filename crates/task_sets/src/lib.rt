//! The sets of a task, as the commands that plan and the one that judges certificates make them: over
//! variables in an order that is chosen for the task, and whether it has an initial state. A search
//! over them is made in two tries at most.
//!
//! `specs/` says how many nodes are enough (`NodeRoom`) and when a table is full (`FullTables`). No
//! planner.
#![tactic(auto)]

mod initial_sets;
mod ordered_sets;
mod tries;

pub use initial_sets::has_no_initial;
pub use ordered_sets::encode_ordered;
pub use tries::{SetSearch, search_in_tries};
