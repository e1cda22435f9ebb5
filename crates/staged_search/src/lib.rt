//! Plans with contexts found state by state, for until-chains and patrol goals: stage by stage, or visit
//! by visit. Nothing is promised of what is found but that it speaks of the task: it is to be judged
//! before it is used.
//!
//! `goals` has what is asked for, `steps` conditions and outcomes, `world` the states that were met and
//! where actions lead, `marks` and `estimates` what holds in them and how far the targets seem,
//! `relevance` which actions can help, `fields`
//! and `distances` sets of states and the ways through them, `outlooks` from where the stages can be met
//! and in how many steps, `traces` what a plan does where it comes, `searches` the two searches, and
//! `plans` the answers. `stops` counts the work.
#![tactic(auto)]

mod distances;
mod estimates;
mod fields;
mod goals;
mod marks;
mod numbers;
mod outlooks;
mod plans;
mod relevance;
mod searches;
mod steps;
mod stops;
mod traces;
mod world;

pub use distances::Way;
pub use plans::{Allowance, plan_forward, plan_listed};
