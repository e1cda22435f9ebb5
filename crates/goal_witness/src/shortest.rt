//! The shortest way through a part of a graph from some configurations to some others.

ghost use Rattle.std.specs.Prelude.{◌≡◌, ◌<◌, IfNone, IfOk, IfSome, length};
ghost use Rattle.exec_graph.specs.Values.{graph_size};
ghost use Rattle.plan_check.specs.Walks.{IsMarked, last_number};
ghost use Rattle.plan_witness.specs.Ways.{
  AreWaysFromSome,
  IsShortestWay,
  IsWayBack,
  NoneLeads,
  at,
};
ghost use Rattle.goal_witness.specs.Zones.{IsZone, next_in};

use crate::ways::ways_from;
use crate::zones::Zone;
use exec_graph::Steps;
use plan_witness::{FAR, Way, Ways};
use std::alloc::{AllocError, Global};
use std::collections::VecDeque;
use std::sync::ledger::Ledger;

/// A shortest way from a number with a mark in `starts` to one with a mark in `ends`.
pub(crate) fn shortest_way<L: Ledger>(
    alloc: Global,
    zone: &Zone<'_>,
    starts: &[bool],
    ends: &[bool],
    steps: &mut Steps<L>,
) -> Result<Option<Way>, AllocError>
    requires zone { IsZone zone.now.graph.now zone.now.inside.now }
    requires starts { length starts.now ≡ graph_size zone.now.graph.now }
    requires ends { length ends.now ≡ graph_size zone.now.graph.now }
    ensures shortest { IfOk result (λ found. IfSome found (λ way.
        IsShortestWay (next_in zone.now.graph.now zone.now.inside.now) starts.now
        (IsMarked ends.now) way.start way.numbers.items)) }
    ensures end { IfOk result (λ found. IfSome found (λ way.
        last_number way.start way.numbers.items ≡ way.end)) }
    ensures none { IfOk result (λ found. IfNone found
        (NoneLeads (next_in zone.now.graph.now zone.now.inside.now) starts.now
        (IsMarked ends.now))) }
{
    let ways = ways_from(alloc, zone, starts, steps)?;
    match ways.nearest(ends) {
        Some(end) => {
            let way = way_back(alloc, zone, &ways, end)?;
            Ok(Some(way))
        }
        None => Ok(None),
    }
}

/// The way to a number, read from its end.
pub(crate) fn way_back(
    alloc: Global,
    zone: &Zone<'_>,
    ways: &Ways,
    end: u32,
) -> Result<Way, AllocError>
    requires ways { AreWaysFromSome (graph_size zone.now.graph.now)
        (next_in zone.now.graph.now zone.now.inside.now)
        ways.now.lengths.items ways.now.before.items }
    requires end { end < graph_size zone.now.graph.now }
    requires reached { at ways.now.lengths.items end < FAR }
    ensures back { IfOk result (λ way. IsWayBack (graph_size zone.now.graph.now)
        (next_in zone.now.graph.now zone.now.inside.now)
        ways.now.lengths.items end way.start way.numbers.items) }
    ensures end { IfOk result (λ way. way.end ≡ end) }
{
    // The graph is asked for its bound on configurations alone.
    let _count = zone.graph.len();
    let mut numbers = VecDeque::new(alloc);
    let mut number = end;
    'back: while ways.length_at(number) > 0 {
        numbers.push_front(number)?;
        number = ways.before_at(number);
    }
    Ok(Way {
        start: number,
        numbers: Vec::from(numbers),
        end,
    })
}
