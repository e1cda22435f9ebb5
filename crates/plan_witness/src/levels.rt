//! Which configurations can't come back to themselves: a configuration has a rank, and none leads to one of
//! a higher rank.

ghost use Rattle.std.specs.Prelude.{
  ◌≡◌,
  ◌<◌,
  ◌^◌,
  IfOk,
  false,
  length,
  true,
  ℕ,
};
ghost use Rattle.exec_graph.specs.Values.{followers_at, graph_size};
ghost use Rattle.plan_check.specs.Plain.{HasFollowersInside};
ghost use Rattle.plan_witness.specs.Levels.{AreLevels, NeverRises};
ghost use Rattle.plan_witness.specs.Ways.{IsOnRound, at};

use crate::components::{find_components, get};
use crate::heights::{height_at, least_above};
use exec_graph::{Graph, Steps};
use std::alloc::{AllocError, Global};
use std::sync::ledger::Ledger;

/// A rank of each configuration, and whether none leads to one of a higher rank.
#[derive(Drop)]
pub(crate) struct Levels {
    pub(crate) ranks: Vec<u64>,
    pub(crate) falling: bool,
}

/// The ranks of the parts of a graph whose configurations lead to one another.
pub(crate) fn levels_of<L: Ledger>(
    alloc: Global,
    graph: &Graph,
    steps: &mut Steps<L>,
) -> Result<Levels, AllocError>
    requires { HasFollowersInside graph.now }
    ensures { IfOk result (AreLevels (graph_size graph.now) (followers_at graph.now)) }
{
    let parts = find_components(alloc, graph, steps)?;
    let ranks = wide_ranks(alloc, graph, &parts.ranks)?;
    let falling = never_rises(graph, &ranks, steps);
    Ok(Levels { ranks, falling })
}

/// A rank for each configuration, from a list that may have too few.
fn wide_ranks(alloc: Global, graph: &Graph, ranks: &[u32]) -> Result<Vec<u64>, AllocError>
    ensures count { IfOk result (λ wide. length wide.items ≡ graph_size graph.now) }
    ensures small { IfOk result (λ wide. (i : ℕ) → at wide.items i < 2 ^ 32) }
{
    let mut wide = Vec::new(alloc);
    for i in 0..graph.len() {
        wide.push(u64::from(get(ranks, i)))?;
    }
    Ok(wide)
}

/// Whether no configuration leads to one of a higher rank.
fn never_rises<L: Ledger>(graph: &Graph, ranks: &[u64], steps: &mut Steps<L>) -> bool
    requires inside { HasFollowersInside graph.now }
    requires count { length ranks.now ≡ graph_size graph.now }
    requires small { (i : ℕ) → at ranks.now i < 2 ^ 32 }
    ensures { result ≡ true → NeverRises (graph_size graph.now) (followers_at graph.now) ranks.now }
{
    for number in 0..graph.len() {
        if least_above(graph, ranks, number, steps).saturating_sub(1) > height_at(ranks, number) {
            return false;
        }
    }
    true
}

/// Whether a configuration may come back to itself: it does not, if each that follows it is of a lower rank.
pub(crate) fn may_come_back<L: Ledger>(
    graph: &Graph,
    levels: &Levels,
    number: u32,
    steps: &mut Steps<L>,
) -> bool
    requires inside { HasFollowersInside graph.now }
    requires levels { AreLevels (graph_size graph.now) (followers_at graph.now) levels.now }
    requires number { number < graph_size graph.now }
    ensures { result ≡ false → IsOnRound (followers_at graph.now) number → ⊥ }
{
    if !levels.falling {
        return true;
    }
    least_above(graph, &levels.ranks, number, steps) > height_at(&levels.ranks, number)
}
