//! The shortest ways through a part of a graph that come back to where they were.

ghost use Rattle.std.specs.Prelude.{
  ◌≡◌,
  ◌<◌,
  ◌↔◌,
  IfNone,
  IfOk,
  IfSome,
  false,
  length,
  true,
  ℕ,
};
ghost use Rattle.std.specs.List.{Contains};
ghost use Rattle.exec_graph.specs.Values.{graph_size};
ghost use Rattle.plan_check.specs.Walks.{IsMarked};
ghost use Rattle.plan_witness.specs.Ways.{
  IsNearestRound,
  IsOnRound,
  IsShortestRoundAt,
  at,
};
ghost use Rattle.goal_witness.specs.Zones.{HasNoRound, IsZone, IsZoneLasso, next_in};

use crate::shortest::{shortest_way, way_back};
use crate::ways::ways_from;
use crate::zones::Zone;
use exec_graph::Steps;
use plan_check::is_marked;
use plan_witness::{FAR, Way, Ways, follows, only_mark};
use std::alloc::{AllocError, Global};
use std::sync::ledger::Ledger;

/// A way, and a way from its end back to that end.
#[derive(Drop)]
pub(crate) struct WayBack {
    pub(crate) stem: Way,
    pub(crate) back: Way,
}

/// A shortest way from a number to one from which a way comes back to it, and a shortest way back;
/// `None` where there is no such number.
pub(crate) fn lasso_from<L: Ledger>(
    alloc: Global,
    zone: &Zone<'_>,
    number: u32,
    steps: &mut Steps<L>,
) -> Result<Option<WayBack>, AllocError>
    requires zone { IsZone zone.now.graph.now zone.now.inside.now }
    requires number { number < graph_size zone.now.graph.now }
    ensures some { IfOk result (λ found. IfSome found (λ lasso.
        IsZoneLasso (next_in zone.now.graph.now zone.now.inside.now) number
        lasso.stem.numbers.items lasso.stem.end lasso.back.start lasso.back.numbers.items)) }
    ensures none { IfOk result (λ found. IfNone found
        (HasNoRound (next_in zone.now.graph.now zone.now.inside.now) number)) }
{
    let only = only_mark(alloc, zone.graph, number)?;
    let ways = ways_from(alloc, zone, &only, steps)?;
    match nearest_round(alloc, zone, &ways, steps)? {
        Some(end) => {
            let stem = way_back(alloc, zone, &ways, end)?;
            with_back(alloc, zone, stem, end, steps)
        }
        None => Ok(None),
    }
}

/// A way with a shortest way back from its end; `None` where no way comes back.
fn with_back<L: Ledger>(
    alloc: Global,
    zone: &Zone<'_>,
    stem: Way,
    end: u32,
    steps: &mut Steps<L>,
) -> Result<Option<WayBack>, AllocError>
    requires zone { IsZone zone.now.graph.now zone.now.inside.now }
    requires end { end < graph_size zone.now.graph.now }
    ensures some { IfOk result (λ found. IfSome found (λ lasso. (lasso.stem ≡ stem)
        × IsShortestRoundAt (next_in zone.now.graph.now zone.now.inside.now) end
        lasso.back.start lasso.back.numbers.items)) }
    ensures none { IfOk result (λ found. IfNone found
        (IsOnRound (next_in zone.now.graph.now zone.now.inside.now) end → ⊥)) }
{
    match round_at(alloc, zone, end, steps)? {
        Some(back) => Ok(Some(WayBack { stem, back })),
        None => Ok(None),
    }
}

/// The nearest number from which some way comes back.
fn nearest_round<L: Ledger>(
    alloc: Global,
    zone: &Zone<'_>,
    ways: &Ways,
    steps: &mut Steps<L>,
) -> Result<Option<u32>, AllocError>
    requires zone { IsZone zone.now.graph.now zone.now.inside.now }
    requires count { length ways.now.lengths.items ≡ graph_size zone.now.graph.now }
    ensures some { IfOk result (λ found. IfSome found
        (IsNearestRound (graph_size zone.now.graph.now)
        (next_in zone.now.graph.now zone.now.inside.now) ways.now.lengths.items)) }
    ensures none { IfOk result (λ found. IfNone found
        ((i : ℕ) → i < graph_size zone.now.graph.now
        → IsOnRound (next_in zone.now.graph.now zone.now.inside.now) i
        → at ways.now.lengths.items i < FAR → ⊥)) }
{
    let mut nearest = None;
    let mut least = FAR;
    for i in 0..zone.graph.len() {
        if ways.length_at(i) >= least {
            continue;
        }
        if is_on_round(alloc, zone, i, steps)? {
            least = ways.length_at(i);
            nearest = Some(i);
        }
    }
    Ok(nearest)
}

/// Whether some way from a number comes back to it.
fn is_on_round<L: Ledger>(
    alloc: Global,
    zone: &Zone<'_>,
    number: u32,
    steps: &mut Steps<L>,
) -> Result<bool, AllocError>
    requires zone { IsZone zone.now.graph.now zone.now.inside.now }
    requires number { number < graph_size zone.now.graph.now }
    ensures { IfOk result (λ is. (is ≡ true)
        ↔ IsOnRound (next_in zone.now.graph.now zone.now.inside.now) number) }
{
    let round = round_at(alloc, zone, number, steps)?;
    Ok(round.is_some())
}

/// A shortest way from a number back to it, from the follower by which it goes on.
fn round_at<L: Ledger>(
    alloc: Global,
    zone: &Zone<'_>,
    number: u32,
    steps: &mut Steps<L>,
) -> Result<Option<Way>, AllocError>
    requires zone { IsZone zone.now.graph.now zone.now.inside.now }
    requires number { number < graph_size zone.now.graph.now }
    ensures some { IfOk result (λ found. IfSome found (λ way.
        IsShortestRoundAt (next_in zone.now.graph.now zone.now.inside.now) number
        way.start way.numbers.items)) }
    ensures none { IfOk result (λ found. IfNone found
        (IsOnRound (next_in zone.now.graph.now zone.now.inside.now) number → ⊥)) }
{
    let followers = follower_marks(alloc, zone, number, steps)?;
    let only = only_mark(alloc, zone.graph, number)?;
    shortest_way(alloc, zone, &followers, &only, steps)
}

/// A mark for each number of the part that follows one.
fn follower_marks<L: Ledger>(
    alloc: Global,
    zone: &Zone<'_>,
    number: u32,
    steps: &mut Steps<L>,
) -> Result<Vec<bool>, AllocError>
    requires zone { IsZone zone.now.graph.now zone.now.inside.now }
    requires number { number < graph_size zone.now.graph.now }
    ensures count { IfOk result (λ marks. length marks.items ≡ graph_size zone.now.graph.now) }
    ensures marked { IfOk result (λ marks. (i : ℕ) → i < graph_size zone.now.graph.now
        → IsMarked marks.items i
        ↔ Contains (next_in zone.now.graph.now zone.now.inside.now number) i) }
{
    let mut marks = Vec::new(alloc);
    for i in 0..zone.graph.len() {
        marks.push(follows_in(zone, number, i, steps))?;
    }
    Ok(marks)
}

/// Whether a number of the part follows another.
fn follows_in<L: Ledger>(zone: &Zone<'_>, number: u32, other: u32, steps: &mut Steps<L>) -> bool
    requires zone { IsZone zone.now.graph.now zone.now.inside.now }
    requires number { number < graph_size zone.now.graph.now }
    requires other { other < graph_size zone.now.graph.now }
    ensures { (result ≡ true)
        ↔ Contains (next_in zone.now.graph.now zone.now.inside.now number) other }
{
    if !is_marked(zone.inside, other) {
        return false;
    }
    follows(zone.graph, number, other, steps)
}
