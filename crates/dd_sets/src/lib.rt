//! Sets of states on diagrams.
//!
//! A set of states is a set of lists of truth values, one value a fluent. Each live set has a slot,
//! and stands in one table of diagram nodes with all the others (R. E. Bryant, "Graph-Based
//! Algorithms for Boolean Function Manipulation", IEEE Transactions on Computers, 1986), so two
//! slots hold the same set exactly where they have the same number there.
#![tactic(auto)]

mod cubes;
mod errors;
mod laws;
mod listing;
mod member;
mod operation;
mod order;
mod rebuild;
mod sets;
mod slots;

pub use cubes::Cube;
pub use errors::{ListErr, SetErr};
pub use laws::{
    agreeing_sets, every_set_is_small, full_is_no_room, full_is_tight, live_slots_are_kept,
    no_room_after_release, no_room_before, no_room_is_small, no_room_is_tight, no_room_of_fewer,
    no_room_within, one_set_per_slot, own_slots_follow_calls, piece_is_no_room, rough_sets,
    sets_depend_on_fluents, small_sets, subst_is_small, tight_is_monotone,
};
pub use listing::Listing;
pub use order::Order;
pub use sets::Sets;
pub use slots::SetId;
