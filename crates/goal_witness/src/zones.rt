//! A part of a graph: the configurations that have a mark.

use exec_graph::Graph;

/// A graph, of which only the steps to configurations with a mark are taken.
#[derive(Clone, Copy)]
pub(crate) struct Zone<'a> {
    pub(crate) graph: &'a Graph,
    pub(crate) inside: &'a [bool],
}
