//! From which configurations of a graph some others can be reached.

ghost use Rattle.std.specs.Prelude.{◌≡◌, ◌<◌, ◌≤◌, ◌+◌, ◌↔◌, IfOk, length, ℕ};
ghost use Rattle.exec_graph.specs.Values.{edge_count, followers_at, graph_size};
ghost use Rattle.plan_check.specs.Plain.{HasFollowersInside, HasPredecessors};
ghost use Rattle.plan_check.specs.Walks.{IsMarked, LeadsToMarked};

use crate::labelling::same_label;
use crate::spreading::{Along, Need, spread};
use exec_graph::{Graph, Steps};
use std::alloc::{AllocError, Global};
use std::sync::ledger::Ledger;

/// Marks each configuration from which some walk leads to a marked one.
pub fn mark_leading<L: Ledger>(
    alloc: Global,
    graph: &Graph,
    marks: &mut Vec<bool>,
    steps: &mut Steps<L>,
) -> Result<(), AllocError>
    requires inside { HasFollowersInside graph.now }
    requires turned { HasPredecessors graph.now }
    requires count { length marks.old.items ≡ graph_size graph.now }
    ensures count { IfOk result (λ _. length marks.new.items ≡ graph_size graph.now) }
    ensures leading { IfOk result (λ _. (i : ℕ) → i < graph_size graph.now
        → IsMarked marks.new.items i
        ↔ LeadsToMarked (followers_at graph.now) marks.old.items i) }
    ensures steps { steps.new ≤ steps.old + edge_count graph.now }
{
    let guard = same_label(alloc, graph, true)?;
    let along = Along {
        graph,
        need: Need::One,
        guard: &guard,
    };
    spread(alloc, &along, marks, steps)?;
    Ok(())
}
