//! Which of many cubes a state matches, without asking one after another.
//!
//! A `CubeIndex` is made of a list of cubes once: the rules of a table, the rules of an automaton,
//! the cases of a rule. Then `next_match` gives the first cube of a part of the list that a state
//! matches. The cubes stand in blocks of 64, one a bit of a machine word, and a block is asked about
//! each fluent that its cubes name until no cube is left, so a look-up takes some operations for
//! each 64 cubes.
#![tactic(auto)]

mod blocks;
mod index;

pub use index::CubeIndex;
