//! Tests of the judge of a table on sets, on a small task worked out by hand.
//!
//! They stand apart from what they test, so that it is proved once and not again with its tests.
#![tactic(auto)]

#[cfg(test)]
mod hazard_tests;
