//! A planning task in sets: its states, where each action can be executed, the values after each
//! outcome and what it leads to states, the initial states and the goal states, each in a slot of one
//! table of diagrams.
//!
//! This is the symbolic representation of Cimatti, Pistore, Roveri and Traverso, "Weak, strong, and
//! strong cyclic planning via symbolic model checking" (Artificial Intelligence 147, 2003), with
//! one set for each fluent's next value under each outcome in place of a transition relation.
#![tactic(auto)]

mod action_sets;
mod actions;
mod conditions;
mod enc;
mod initial;
mod landing;
mod laws;
mod left_alone;
mod outcomes;
mod slots;
mod space;

pub use enc::{Enc, encode, encode_in_order};
pub use laws::{kept_sets_bound_nodes, made_is_kept};
