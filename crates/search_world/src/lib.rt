//! The task as the heuristic searches see it, and what they learn of it. `world` has the states by number,
//! where actions lead, and estimates. `dead_ends` goes from a dead end to all states like it, which
//! `patterns` finds again, and `lessons` has the estimates count them (Muise, McIlraith and Beck, Improved
//! non-deterministic planning by exploiting state relevance, 2012). `buried` keeps the dead ends for a
//! certificate, `policy` what is taken in which states, and `effort` counts the work. Nothing is promised
//! but that each call ends.
#![tactic(auto)]

mod buried;
mod dead_ends;
mod effort;
mod lessons;
mod patterns;
mod policy;
mod world;

pub use effort::{Allowance, Effort};
pub use lessons::Lessons;
pub use patterns::Patterns;
pub use policy::{Pair, Policy};
pub use world::World;
