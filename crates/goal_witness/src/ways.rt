//! The shortest ways from some configurations of a part of a graph to the others.

ghost use Rattle.std.specs.Prelude.{
  ◌≡◌,
  ◌+◌,
  ◌<◌,
  if◌then◌else◌,
  slice_set,
  IfOk,
  false,
  length,
  true,
};
ghost use Rattle.exec_graph.specs.Values.{graph_size};
ghost use Rattle.plan_check.specs.Walks.{IsMarked};
ghost use Rattle.plan_witness.specs.Ways.{AreWays, HasGrown, IsRound, at};
ghost use Rattle.goal_witness.specs.Zones.{IsZone, next_in};

use crate::zones::Zone;
use exec_graph::Steps;
use plan_check::is_marked;
use plan_witness::{FAR, Ways};
use std::alloc::{AllocError, Global};
use std::sync::ledger::Ledger;

/// Puts a way of this length to a number with a mark, by the one before it, unless a way is known.
fn reach_marked(ways: &mut Ways, inside: &[bool], number: u32, before: u32, now: u32) -> bool
    requires inside { number < length inside.now }
    requires lengths { number < length ways.old.lengths.items }
    requires before { number < length ways.old.before.items }
    ensures marked { result ≡ true → IsMarked inside.now number }
    ensures unknown { result ≡ true → at ways.old.lengths.items number ≡ FAR }
    ensures known { result ≡ false → IsMarked inside.now number
        → at ways.old.lengths.items number < FAR }
    ensures lengths { ways.new.lengths.items ≡ (if result
        then slice_set ways.old.lengths.items number now else ways.old.lengths.items) }
    ensures before { ways.new.before.items ≡ (if result
        then slice_set ways.old.before.items number before else ways.old.before.items) }
{
    if !is_marked(inside, number) {
        return false;
    }
    ways.reach(number, before, now)
}

/// Goes one step on from a number, where the way to it has this length. Says whether a way to
/// some other was found.
fn visit<L: Ledger>(
    ways: &mut Ways,
    zone: &Zone<'_>,
    number: u32,
    now: u32,
    steps: &mut Steps<L>,
) -> bool
    requires zone { IsZone zone.now.graph.now zone.now.inside.now }
    requires number { number < graph_size zone.now.graph.now }
    requires few { now < 262145 }
    requires round { IsRound (graph_size zone.now.graph.now)
        (next_in zone.now.graph.now zone.now.inside.now)
        ways.old.lengths.items ways.old.before.items now number }
    ensures round { IsRound (graph_size zone.now.graph.now)
        (next_in zone.now.graph.now zone.now.inside.now)
        ways.new.lengths.items ways.new.before.items now (number + 1) }
    ensures grown { HasGrown ways.old.lengths.items ways.new.lengths.items result }
{
    if ways.length_at(number) != now {
        return false;
    }
    let mut found = false;
    for k in 0..zone.graph.next_len(number) {
        let follower = zone.graph.next_at(number, k, steps);
        if reach_marked(ways, zone.inside, follower, number, now + 1) {
            found = true;
        }
    }
    found
}

/// Goes one step on from each number to which the way has this length. Says whether a way to
/// some other was found.
fn round<L: Ledger>(ways: &mut Ways, zone: &Zone<'_>, now: u32, steps: &mut Steps<L>) -> bool
    requires zone { IsZone zone.now.graph.now zone.now.inside.now }
    requires few { now < 262145 }
    requires round { IsRound (graph_size zone.now.graph.now)
        (next_in zone.now.graph.now zone.now.inside.now)
        ways.old.lengths.items ways.old.before.items now 0 }
    ensures round { IsRound (graph_size zone.now.graph.now)
        (next_in zone.now.graph.now zone.now.inside.now)
        ways.new.lengths.items ways.new.before.items now (graph_size zone.now.graph.now) }
    ensures grown { HasGrown ways.old.lengths.items ways.new.lengths.items result }
{
    let mut found = false;
    for number in 0..zone.graph.len() {
        if visit(ways, zone, number, now, steps) {
            found = true;
        }
    }
    found
}

/// The shortest ways from the numbers with a mark, by steps to configurations of the part.
pub(crate) fn ways_from<L: Ledger>(
    alloc: Global,
    zone: &Zone<'_>,
    starts: &[bool],
    steps: &mut Steps<L>,
) -> Result<Ways, AllocError>
    requires zone { IsZone zone.now.graph.now zone.now.inside.now }
    requires count { length starts.now ≡ graph_size zone.now.graph.now }
    ensures { IfOk result (λ ways. AreWays (graph_size zone.now.graph.now)
        (next_in zone.now.graph.now zone.now.inside.now)
        starts.now ways.lengths.items ways.before.items) }
{
    // The graph is asked for its bound on configurations alone.
    let _count = zone.graph.len();
    let mut ways = Ways::new(alloc, starts)?;
    let mut now = 0;
    while round(&mut ways, zone, now, steps) {
        now += 1;
    }
    Ok(ways)
}
