//! Tests of a task in sets, of preimages and of the planners, on small tasks worked out by hand and
//! on tasks made from numbers.
//!
//! They stand apart from what they test, so that it is proved once and not again with its tests.
#![tactic(auto)]

#[cfg(test)]
mod chain_tests;
#[cfg(test)]
mod cyclic_tests;
#[cfg(test)]
mod encode_tests;
#[cfg(test)]
mod preimage_tests;
#[cfg(test)]
mod random_tasks;
#[cfg(test)]
mod reach_tests;
#[cfg(test)]
mod space_tests;
#[cfg(test)]
mod stage_tests;
