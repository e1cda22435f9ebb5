//! What is done on a board, as plain data.

use dd_sets::SetId;
use slot_board::{Operation, Outcomes};
use task_core::{ActionId, FluentId};

/// A step on a board: which set is put at a place.
#[derive(Clone, Copy)]
pub enum Step {
    /// All lists of truth values.
    Whole(usize),
    /// The lists in which a fluent is true.
    Fluent(usize, FluentId),
    /// What is at the place, once a fluent has the value.
    Fix(usize, FluentId, bool),
    /// A copy of a set that is kept for the task.
    Kept(usize, SetId),
    /// A copy of the set at the second place.
    Copy(usize, usize),
    /// What an operation makes of the sets at the second and the third place.
    Combine(usize, Operation, usize, usize),
    /// Where an action leads into the set at the second place.
    Lead(usize, Outcomes, ActionId, usize),
}
