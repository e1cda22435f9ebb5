//! The numbers and the nodes of a table.

use thiserror::Error;

/// The number of a function in a table: 0 is the constant false, 1 the constant true, and `i + 2`
/// the i-th node of the table, counted from 0. The constants are no nodes, and are not counted.
#[derive(Clone, Copy, Debug, PartialEq, Eq, Hash)]
pub struct Ref(pub u32);

/// A node: it tests variable `var`, and goes on at `hi` where that is true and at `lo` where it is
/// false.
#[derive(Clone, Copy, Debug, PartialEq, Eq)]
pub struct Node {
    pub var: u32,
    pub lo: Ref,
    pub hi: Ref,
}

/// Why a table made no node.
#[derive(Clone, Copy, Debug, PartialEq, Eq, Error)]
pub enum DdErr {
    /// The table holds as many nodes as it may.
    #[error("the table of diagram nodes is full")]
    Full,
    /// There was no memory for a node.
    #[error("out of memory")]
    Memory,
}
