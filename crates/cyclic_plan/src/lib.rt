//! Strong cyclic plans: plans whose executions may always still reach the goal, and end nowhere
//! else.
//!
//! `plan_cyclic` searches for them by rounds over sets of states. Which plan it gives is said in
//! `plan_theory`, whose laws of strong cyclic planning the planner rests on. `cyclic_takers` gives
//! the same plan as sets of states, in slots (`Takers`), and `cert_cyclic` a certificate where there is
//! none (`Certificates`). `WorkingSets` has the sets of which the nodes bound what the planner needs;
//! `Stages`, `Rounds`, `Steps` and `Answers` have the words of the contracts inside.
#![tactic(auto)]

mod certs;
mod plan;
mod retrace;
mod rounds;

pub use certs::cert_cyclic;
pub use plan::{cyclic_takers, plan_cyclic};
pub use rounds::takers_of;
