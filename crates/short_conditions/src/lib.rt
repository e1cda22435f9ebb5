//! Shorter conditions with the same meaning, and tasks with shorter conditions and the same system.
//!
//! A condition that a quantifier makes has many parts, which often repeat one another or hold always.
//! Who asks a condition again and again makes its short form once, and asks that.
#![tactic(auto)]

mod comparing;
mod drafts;
mod shortening;
mod tasks;

pub use shortening::short_condition;
pub use tasks::short_task;
