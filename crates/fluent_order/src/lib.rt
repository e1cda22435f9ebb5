//! An order of a task's fluents for diagrams over them, chosen from the task alone: fluents that
//! have to do with each other stand near each other.
//!
//! It begins with the fluents object by object (`objects`), and then draws those together that an
//! action or the goal speaks of (`groups`, `drawing`), as FORCE does (Aloul, Markov and Sakallah,
//! "FORCE: a fast and easy-to-implement variable-ordering heuristic", 2003).
#![tactic(auto)]

mod drawing;
mod groups;
mod objects;
mod order;
mod ranks;

pub use order::fluent_order;
