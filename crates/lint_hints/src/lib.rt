//! What is told of groups of fluents of which exactly one is true in every reachable state: a sentence
//! about each shape of groups, the `:invariant` that says so, and where in the text of the domain it can
//! be put.
//!
//! It is told only if it is judged: the text with the invariant in it is read and grounded, and its
//! invariant leaves nothing out.
#![tactic(auto)]

mod chosen;
mod hints;
mod pasting;
mod sentences;
mod tasks;

pub use hints::{GroupHints, Texts, lint_hints};
