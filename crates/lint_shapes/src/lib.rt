//! Which groups of fluents the predicates of a domain make, so that exactly one fluent of each is true
//! in every reachable state, and the `:invariant` that says so.
//!
//! The groups are guessed from the effects of the domain, and judged on the task by `mutex_groups`.
#![tactic(auto)]

mod bindings;
mod covers;
mod effort;
mod formulas;
mod groups;
mod pieces;
mod shapes;
mod signatures;
mod singles;
mod texts;
mod told;
mod types;
mod world;

pub use formulas::{conjunction_of, formula_of};
pub use groups::find_groups;
pub use shapes::{OneOf, Part, Shape, Slot};
pub use texts::{push_formula, push_invariant};
