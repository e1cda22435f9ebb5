//! A board: slots for the sets of a search, each at a place, so that a search speaks of places and
//! all slots are ended at once.
//!
//! `specs/Board.antt` has the words of the contracts: the slot and the set at a place, where a
//! search began (`Start`), that it is still at that start (`At`), and that one place has a new set
//! and the others have theirs (`Moved`). `add_rules` makes the rules of a plan from the cubes of a
//! set. `steps` has what a search keeps of its work.
#![tactic(auto)]

mod board;
mod rules;
mod steps;

pub use board::{Board, Operation, Outcomes};
pub use rules::add_rules;
pub use steps::{Step, is_spent, none_spent, note, note_spent};
