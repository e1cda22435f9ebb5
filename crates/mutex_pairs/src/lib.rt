//! Pairs of fluents that are never true at once, for a search: the greatest set of pairs of which no
//! initial state has one and that no outcome breaks (as the pairs of Blum and Furst, Fast planning through
//! planning graph analysis, 1997, and of Rintanen, An iterative algorithm for synthesizing invariants,
//! 2000). Nothing is promised but that each call ends: what rests on the pairs is judged before it is used.
#![tactic(auto)]

mod exclusions;
mod first_pairs;

pub use exclusions::Exclusions;
