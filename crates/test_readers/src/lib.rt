//! Tests of the readers: forms, domains, problems, and domains with what is passed over.
//!
//! They stand apart from what they test, so that it is proved once and not again with its tests.
#![tactic(auto)]

#[cfg(test)]
mod domain_tests;
#[cfg(test)]
mod extended_tests;
#[cfg(test)]
mod form_tests;
#[cfg(test)]
mod goal_tests;
#[cfg(test)]
mod plain_tests;
#[cfg(test)]
mod problem_tests;
#[cfg(test)]
mod tree_tests;
