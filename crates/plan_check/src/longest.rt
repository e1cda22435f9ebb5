//! The longest walk through a graph.

ghost use Rattle.std.specs.Prelude.{◌≤◌, ◌+◌, ◌*◌, IfNone, IfOk, IfSome};
ghost use Rattle.exec_graph.specs.Values.{edge_count, followers_at, graph_size};
ghost use Rattle.plan_check.specs.Plain.{HasFollowersInside, HasPredecessors};
ghost use Rattle.plan_check.specs.Walks.{ComesRound, IsLongestWalk};

use crate::search::{Search, Turn};
use exec_graph::{Graph, Steps};
use std::alloc::{AllocError, Global};
use std::sync::ledger::Ledger;

/// The number of steps of the longest walk through the graph; `None` where some walk comes round.
pub(crate) fn longest_walk<L: Ledger>(
    alloc: Global,
    graph: &Graph,
    steps: &mut Steps<L>,
) -> Result<Option<u64>, AllocError>
    requires inside { HasFollowersInside graph.now }
    requires turned { HasPredecessors graph.now }
    ensures longest { IfOk result (λ found. IfSome found
        (IsLongestWalk (graph_size graph.now) (followers_at graph.now))) }
    ensures round { IfOk result (λ found. IfNone found
        (ComesRound (graph_size graph.now) (followers_at graph.now))) }
    ensures steps { steps.new ≤ steps.old + 2 * edge_count graph.now }
{
    let mut search = Search::new(alloc, graph.len())?;
    for root in 0..graph.len() {
        match search.search_from(graph, root, steps)? {
            Turn::Further => {}
            Turn::Round => return Ok(None),
        }
    }
    Ok(Some(search.greatest()))
}
