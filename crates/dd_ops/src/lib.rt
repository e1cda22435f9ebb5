//! Operations on reduced ordered binary decision diagrams.
//!
//! An operation takes and gives numbers of a node table (`dd_nodes`). It follows Bryant's `apply`:
//! it answers a question on functions by the answers to the questions with the least variable fixed
//! at false and at true, and joins these to a node (R. E. Bryant, "Graph-Based Algorithms for
//! Boolean Function Manipulation", IEEE Transactions on Computers, 1986). What it has answered is kept
//! in a cache of bounded size (`dd_cache`), for later calls too.
#![tactic(auto)]

mod cofactor;
mod growth_laws;
mod ite;
mod known;
mod make;
mod memo;
mod ops;
mod pairs;
mod question;
mod replacements;
mod subst;

pub use growth_laws::{
    full_only_beyond, grows_within, piece_grows_below, pieces_grow_together,
    refused_node_is_missing, substitution_grows_within, variables_are_reached,
};
pub use ops::Ops;
