//! A controller as code: a program of C, Rust or Python that needs no library.
//!
//! A program has three calls. `decide` answers for a state and a context: the action to take and the
//! next context, or that the goal holds, or that the plan has no rule for the state. `is_goal` says whether
//! the goal holds. `explains` names the outcome of an action that leads from one state to another.
//!
//! `rules_text` writes the plan's rules as rows of numbers, in their order, and a loop that takes the first
//! rule that matches. `tree_of` makes of the rules a decision tree over fluents, whose equal parts are
//! shared, and `steps_text` writes its steps in place of the rules. Both decide as the plan does, in each
//! context and at every state: the laws of `laws` read the rows back, and `DecidesAs` in
//! `specs/FirstMoves` says it of the tree.
//!
//! No proof speaks of the loops in the fixed text of a program, some 60 lines a language in `frames/`.
//! `checks/code` runs them.
#![tactic(auto)]

mod frames;
mod growing;
mod laws;
mod left_rules;
mod names;
mod numbers;
mod rows;
mod steps;
mod texts;
mod trees;
mod words;

pub use laws::{rows_answer_as_plan, rows_are_read, rows_lead_as_outcome, steps_are_read};
pub use names::is_code_name;
pub use steps::{Move, Step, Test};
pub use texts::{Language, rules_text, steps_text};
pub use trees::{Tree, tree_of};
