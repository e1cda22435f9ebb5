//! Weak and strong plans: plans that may reach the goal, and plans that are sure to in a number of
//! steps that is bounded.
//!
//! `plan_weak` and `plan_strong` go back from the goal over sets of states on diagrams, layer by
//! layer (Cimatti, Pistore, Roveri and Traverso, "Weak, strong, and strong cyclic planning via
//! symbolic model checking", Artificial Intelligence 147, 2003): `search` finds the layers, on the
//! slots of a board, and keeps the steps that changed one; where there is a plan, `retrace` makes
//! these steps once more and has each action taken in what it added; `find_takers` makes both passes
//! and hands these sets out; `set_rules` reads the rules off them. Where there is no plan, `certs`
//! makes a certificate of that from the last layer.
//!
//! Which plan is found is said in `plan_theory`, whose laws of planning by layers the planners rest
//! on. `specs/` has the words of the contracts: `Takers` (the sets that are handed out), `WorkingSets`
//! (the sets of which the nodes bound what a search needs), `SetRules`, `Certs`, and of those inside
//! `LayerSets` (the layers as sets on diagrams), `Steps` (where the steps of a search lead) and
//! `Searches` (what the board has).
#![tactic(auto)]

mod certs;
mod planner;
mod retrace;
mod search;
mod set_rules;
mod spent;
mod takers;

pub use certs::{cert_strong, cert_weak};
pub use planner::{plan_strong, plan_weak};
pub use takers::{Takers, find_takers};
