//! Groups of fluents of which exactly one is true in every reachable state, and the `:invariant` that
//! says so.
//!
//! Groups are guessed, and then judged: `is_one_of` answers yes only where exactly one member is true
//! at the start, and no outcome of an action changes that. It may answer no of a group that is one.
#![tactic(auto)]

mod cases;
mod follows;
mod judging;
mod outcomes;
mod starts;

pub use follows::excludes_nothing;
pub use judging::is_one_of;
