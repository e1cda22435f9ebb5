//! Whole runs of the program over files and sinks in memory.
//!
//! They stand apart from what they test, so that it is proved once and not again with its tests.
#![tactic(auto)]

#[cfg(test)]
mod generated;
#[cfg(test)]
mod tests;
