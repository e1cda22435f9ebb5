//! The shortest way through a graph from some configurations to some others.

ghost use Rattle.std.specs.Prelude.{◌≡◌, ◌<◌, IfNone, IfOk, IfSome, length};
ghost use Rattle.exec_graph.specs.Values.{followers_at, graph_size};
ghost use Rattle.plan_check.specs.Plain.{HasFollowersInside};
ghost use Rattle.plan_check.specs.Walks.{IsMarked, last_number};
ghost use Rattle.plan_witness.specs.Ways.{
  AreWaysFromSome,
  IsShortestWay,
  IsWayBack,
  NoneLeads,
  at,
};

use crate::ways::{FAR, Ways, ways_from};
use exec_graph::{Graph, Steps};
use std::alloc::{AllocError, Global};
use std::collections::VecDeque;
use std::sync::ledger::Ledger;

/// A way through a graph: the number in which it begins, those to which its steps lead, and the one
/// in which it ends.
#[derive(Drop)]
pub struct Way {
    pub start: u32,
    pub numbers: Vec<u32>,
    pub end: u32,
}

/// A shortest way from a number with a mark in `starts` to one with a mark in `ends`.
pub(crate) fn shortest_way<L: Ledger>(
    alloc: Global,
    graph: &Graph,
    starts: &[bool],
    ends: &[bool],
    steps: &mut Steps<L>,
) -> Result<Option<Way>, AllocError>
    requires inside { HasFollowersInside graph.now }
    requires starts { length starts.now ≡ graph_size graph.now }
    requires ends { length ends.now ≡ graph_size graph.now }
    ensures shortest { IfOk result (λ found. IfSome found (λ way.
        IsShortestWay (followers_at graph.now) starts.now (IsMarked ends.now)
        way.start way.numbers.items)) }
    ensures end { IfOk result (λ found. IfSome found (λ way.
        last_number way.start way.numbers.items ≡ way.end)) }
    ensures none { IfOk result (λ found. IfNone found
        (NoneLeads (followers_at graph.now) starts.now (IsMarked ends.now))) }
{
    let ways = ways_from(alloc, graph, starts, steps)?;
    match ways.nearest(ends) {
        Some(end) => {
            let way = way_back(alloc, graph, &ways, end)?;
            Ok(Some(way))
        }
        None => Ok(None),
    }
}

/// The way to a number, read from its end.
pub(crate) fn way_back(
    alloc: Global,
    graph: &Graph,
    ways: &Ways,
    end: u32,
) -> Result<Way, AllocError>
    requires ways { AreWaysFromSome (graph_size graph.now) (followers_at graph.now)
        ways.now.lengths.items ways.now.before.items }
    requires end { end < graph_size graph.now }
    requires reached { at ways.now.lengths.items end < FAR }
    ensures back { IfOk result (λ way. IsWayBack (graph_size graph.now) (followers_at graph.now)
        ways.now.lengths.items end way.start way.numbers.items) }
    ensures end { IfOk result (λ way. way.end ≡ end) }
{
    // The graph is asked for its bound on configurations alone.
    let _count = graph.len();
    let mut numbers = VecDeque::new(alloc);
    let mut number = end;
    'back: while ways.length_at(number) > 0 {
        numbers.push_front(number)?;
        number = ways.before_at(number);
    }
    Ok(Way {
        start: number,
        numbers: Vec::from(numbers),
        end,
    })
}
