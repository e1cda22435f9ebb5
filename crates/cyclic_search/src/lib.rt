//! Weak and strong cyclic plans, made of weak plans from one state after another (Kuter, Nau, Reisner and
//! Goldman, Using classical planners to solve nondeterministic planning problems, 2008; Fu, Ng, Bastani
//! and Yen, Simple and fast strong cyclic planning, 2011; Muise, McIlraith and Beck, Improved
//! non-deterministic planning by exploiting state relevance, 2012). Nothing is promised of what is found but
//! that the search ends.
//!
//! `finder` finds a weak plan from a state, `planner` makes pairs of it, and `cyclic` goes on from the states
//! that the policy reaches, except where `closing` finds the pairs closed.
#![tactic(auto)]

mod closing;
mod cyclic;
mod finder;
mod planner;

pub use cyclic::{Rounds, solve_weak};
pub use planner::Planner;
