//! Plans made ready to be followed for many steps.
//!
//! A `Guide` is made of a plan once: its rules in the order of their contexts, with an index of
//! their cubes, and an index of the cases of each rule. Then the rule that counts in a state and a
//! context, and the context after it, are found without trying one rule or case after another
//! (`cube_index`). What is found is what the plan denotes.
#![tactic(auto)]

mod cases;
mod guides;
mod rules;

pub use cases::GuideCases;
pub use guides::Guide;
pub use rules::{GuideNext, GuideRule};
