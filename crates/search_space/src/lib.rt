//! The space of a forward search: states and partial states as words of bits, the conditions and actions
//! of a task over them, and the states that were met, by number. Regression and progression go over one
//! outcome, back and forth, with partial states (after Rintanen, Regression for classical and
//! nondeterministic planning, 2008). Nothing is promised but that each call ends: what the searches find is
//! judged before it is used.
#![tactic(auto)]

mod actions;
mod bits;
mod choices;
mod conditions;
mod cubes;
mod moves;
mod notes;
mod numbers;
mod regression;
mod rows;
mod space;
mod states;
mod stops;

pub use actions::Actions;
pub use bits::{Bits, Part, first_fluents};
pub use choices::choices_of;
pub use conditions::{add_sure_literals, known, support};
pub use cubes::{cube_of, part_of};
pub use moves::{Conditional, Effect, Move, Test, Write, moves_of};
pub use notes::{Hope, Note};
pub use numbers::{NONE, at, is_marked, put, small};
pub use regression::{progress, regress};
pub use rows::Rows;
pub use space::Space;
pub use states::States;
pub use stops::Stop;
