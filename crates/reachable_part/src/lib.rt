//! Definitions and laws alone: a planning system of which a smaller one is the part that can be reached.
//!
//! A fluent that no reachable action changes is a constant, and an action that can never be executed
//! need not be listed. What is left is a smaller system, each state of which stands for one of the larger
//! system. `specs/Parts` says when it has all that can be reached, and `specs/Carried` which tables
//! of the two systems mean the same there. Such tables are solutions together, and the one system has no
//! solution exactly where the other has none.
#![tactic(auto)]

mod laws;

pub use laws::solutions_carry_over;
