//! A bounded memory of operations and their results, in memory that is all taken at the start.
//!
//! It is the operation cache of a package for decision diagrams (K. S. Brace, R. L. Rudell, R. E.
//! Bryant, "Efficient Implementation of a BDD Package", DAC 1990): a table in which each key has one
//! place, and a new pair takes the place of the one that stood there. What it loses is computed
//! again, so it needs no more memory than it was given.
#![tactic(auto)]

mod cache;
mod key;

pub use cache::Cache;
pub use key::Key;
