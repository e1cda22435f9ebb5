//! Judges a table of rules as they are run, the first that matches counting, on sets of states: whether
//! it is a solution of a class, with no list of what is reached.
//!
//! `FirstMatch.antt` of the crate `first_match` has the definitions that a verdict speaks of: the table of
//! first matching rules, and when such rules are a solution, agree and are not dead. `reading` makes the set in which
//! each action is taken, `settling` the steps of the table, `fixpoints` and `sweeps` the least and
//! largest sets (`TableSets`, `Fixpoints`), in an order of the actions that `order` and `followers` make, and `verdict`
//! asks these of the initial states. `WorkingSets` has the sets of which the nodes bound what a verdict
//! needs, and `Places` what the slots hold.
#![tactic(auto)]

mod fixpoints;
mod followers;
mod order;
mod places;
mod reading;
mod settling;
mod sweeps;
mod verdict;

pub use verdict::{TableVerdict, judge_table};
