//! The preimages of a set of states under an action of a task in sets.
//!
//! The strong preimage is the set of states in which the action can be executed and each of its outcomes
//! leads into the set; the weak preimage asks this of one outcome at least. Both are those of Cimatti,
//! Pistore, Roveri and Traverso, "Weak, strong, and strong cyclic planning via symbolic model checking"
//! (Artificial Intelligence 147, 2003), section 3. They are made by substitution: each fluent that an
//! outcome changes is replaced by its value after the outcome, so no diagram holds a transition relation.
#![tactic(auto)]

mod laws;
mod preimages;
mod slots;

pub use laws::preimages_lead_into_their_sets;
pub use preimages::{strong_pre, weak_pre};
