//! Judges certificates that there is no plan of a class: whether a certificate is accepted, or what is
//! wrong with it.
//!
//! `refute` looks at each set, and at each action that can be executed in it, once. It makes no
//! fixpoint and stands on no planner: what it shares with these are the sets of a task on diagrams,
//! the preimages and the slots of a board. What the verdict means is said in `plan_certs`, with the
//! law that no table is a solution where a certificate is accepted.
//!
//! `programs` says which steps on a board make the sets of a certificate, `halves` makes a set in fewer
//! steps where there is room for it, and `judging` looks at these sets.
#![tactic(auto)]

mod halves;
mod judging;
mod programs;
mod verdict;

pub use verdict::{Flaw, Judged, refute};
