//! Tests of the node table, of the operations on diagrams and of sets: worked examples, every
//! operation at every function of three variables and at every set over three fluents, and tables
//! that fill up and are collected.
//!
//! They stand apart from what they test, so that it is proved once and not again with its tests.
#![tactic(auto)]

#[cfg(test)]
mod collection_tests;
#[cfg(test)]
mod node_tests;
#[cfg(test)]
mod operation_tests;
#[cfg(test)]
mod order_tests;
#[cfg(test)]
mod set_tests;
