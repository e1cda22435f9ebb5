//! How many steps the longest walk through a graph has from each configuration.

ghost use Rattle.std.specs.Prelude.{
  ◌≡◌,
  ◌+◌,
  ◌<◌,
  ◌≤◌,
  ◌^◌,
  IfNone,
  IfOk,
  IfSome,
  false,
  length,
  true,
  ℕ,
};
ghost use Rattle.std.specs.List.{Contains};
ghost use Rattle.exec_graph.specs.Values.{followers_at, graph_size};
ghost use Rattle.plan_check.specs.Plain.{HasFollowersInside};
ghost use Rattle.plan_witness.specs.Heights.{
  AreAttained,
  AreHeights,
  HasWalksWithin,
  IsAbove,
  IsOneBelow,
  IsWayDown,
  room_left,
};
ghost use Rattle.plan_witness.specs.Ways.{at};

use crate::components::find_components;
use crate::shortest::Way;
use exec_graph::{Graph, Steps};
use std::alloc::{AllocError, Global};
use std::sync::ledger::Ledger;

/// For each configuration the number of steps of a longest walk from it, where no walk has more than the
/// bound says.
pub(crate) fn heights_within<L: Ledger>(
    alloc: Global,
    graph: &Graph,
    bound: u64,
    steps: &mut Steps<L>,
) -> Result<Vec<u64>, AllocError>
    requires inside { HasFollowersInside graph.now }
    requires within { HasWalksWithin (graph_size graph.now) (followers_at graph.now) bound }
    ensures { IfOk result (λ heights.
        AreHeights (graph_size graph.now) (followers_at graph.now) heights.items) }
{
    let mut heights = zeros(alloc, graph)?;
    // In this order one pass is enough, if the order is what it is meant to be.
    let parts = find_components(alloc, graph, steps)?;
    raise_along(graph, bound, &mut heights, &parts.order, steps);
    'passes: while raise_all(graph, bound, &mut heights, steps) {}
    Ok(heights)
}

fn zeros(alloc: Global, graph: &Graph) -> Result<Vec<u64>, AllocError>
    ensures count { IfOk result (λ heights. length heights.items ≡ graph_size graph.now) }
    ensures zeros { IfOk result (λ heights. (i : ℕ) → at heights.items i ≡ 0) }
{
    let mut heights = Vec::new(alloc);
    for _i in 0..graph.len() {
        heights.push(0)?;
    }
    Ok(heights)
}

fn raise_along<L: Ledger>(
    graph: &Graph,
    bound: u64,
    heights: &mut Vec<u64>,
    order: &[u32],
    steps: &mut Steps<L>,
)
    requires inside { HasFollowersInside graph.now }
    requires within { HasWalksWithin (graph_size graph.now) (followers_at graph.now) bound }
    requires attained { AreAttained (graph_size graph.now) (followers_at graph.now)
        heights.old.items }
    ensures { AreAttained (graph_size graph.now) (followers_at graph.now) heights.new.items }
{
    for number in order {
        raise_if_known(graph, bound, heights, *number, steps);
    }
}

/// Raises a number, if it is one of the graph, and isn't higher than those that follow it.
fn raise_if_known<L: Ledger>(
    graph: &Graph,
    bound: u64,
    heights: &mut Vec<u64>,
    number: u32,
    steps: &mut Steps<L>,
)
    requires inside { HasFollowersInside graph.now }
    requires within { HasWalksWithin (graph_size graph.now) (followers_at graph.now) bound }
    requires attained { AreAttained (graph_size graph.now) (followers_at graph.now)
        heights.old.items }
    ensures { AreAttained (graph_size graph.now) (followers_at graph.now) heights.new.items }
{
    if number < graph.len() {
        let _raised = raise(graph, bound, heights, number, steps);
    }
}

/// Raises each configuration that isn't higher than those that follow it. Says whether there was one.
fn raise_all<L: Ledger>(
    graph: &Graph,
    bound: u64,
    heights: &mut Vec<u64>,
    steps: &mut Steps<L>,
) -> bool
    requires inside { HasFollowersInside graph.now }
    requires within { HasWalksWithin (graph_size graph.now) (followers_at graph.now) bound }
    requires attained { AreAttained (graph_size graph.now) (followers_at graph.now)
        heights.old.items }
    ensures attained { AreAttained (graph_size graph.now) (followers_at graph.now)
        heights.new.items }
    ensures less { result ≡ true
        → room_left bound heights.new.items < room_left bound heights.old.items }
    ensures above { result ≡ false → (i : ℕ) → i < graph_size graph.now
        → IsAbove (followers_at graph.now) heights.new.items i }
{
    let mut found = false;
    for k in 0..graph.len() {
        let number = graph.len() - 1 - k;
        if raise(graph, bound, heights, number, steps) {
            found = true;
        }
    }
    found
}

/// Raises a configuration, if it isn't higher than those that follow it. Says whether it did.
fn raise<L: Ledger>(
    graph: &Graph,
    bound: u64,
    heights: &mut Vec<u64>,
    number: u32,
    steps: &mut Steps<L>,
) -> bool
    requires inside { HasFollowersInside graph.now }
    requires within { HasWalksWithin (graph_size graph.now) (followers_at graph.now) bound }
    requires attained { AreAttained (graph_size graph.now) (followers_at graph.now)
        heights.old.items }
    requires number { number < graph_size graph.now }
    ensures attained { AreAttained (graph_size graph.now) (followers_at graph.now)
        heights.new.items }
    ensures less { result ≡ true
        → room_left bound heights.new.items < room_left bound heights.old.items }
    ensures same { result ≡ false → heights.new.items ≡ heights.old.items }
    ensures above { result ≡ false → IsAbove (followers_at graph.now) heights.old.items number }
{
    let height = least_above(graph, heights, number, steps);
    if height <= height_at(heights, number) {
        return false;
    }
    // None is higher than the bound, so that the passes end by this alone.
    if height > bound {
        return false;
    }
    heights[number as usize] = height;
    true
}

/// The least height above all configurations that follow one.
pub(crate) fn least_above<L: Ledger>(
    graph: &Graph,
    heights: &[u64],
    number: u32,
    steps: &mut Steps<L>,
) -> u64
    requires inside { HasFollowersInside graph.now }
    requires count { length heights.now ≡ graph_size graph.now }
    requires number { number < graph_size graph.now }
    requires small { (j : ℕ) → Contains (followers_at graph.now number) j
        → at heights.now j + 1 < 2 ^ 64 }
    ensures above { (j : ℕ) → Contains (followers_at graph.now number) j
        → at heights.now j + 1 ≤ result }
    ensures attained { 0 < result
        → (j : ℕ) × IsOneBelow (followers_at graph.now) heights.now number result j }
{
    let mut height = 0;
    for k in 0..graph.next_len(number) {
        let follower = graph.next_at(number, k, steps);
        let above = height_at(heights, follower) + 1;
        if above > height {
            height = above;
        }
    }
    height
}

pub(crate) fn height_at(heights: &[u64], number: u32) -> u64
    requires { number < length heights.now }
    ensures { result ≡ at heights.now number }
{
    heights[number as usize]
}

/// A longest walk from a number.
pub(crate) fn way_down<L: Ledger>(
    alloc: Global,
    graph: &Graph,
    heights: &[u64],
    start: u32,
    steps: &mut Steps<L>,
) -> Result<Way, AllocError>
    requires inside { HasFollowersInside graph.now }
    requires heights { AreHeights (graph_size graph.now) (followers_at graph.now) heights.now }
    requires start { start < graph_size graph.now }
    ensures start { IfOk result (λ way. way.start ≡ start) }
    ensures down { IfOk result (λ way. IsWayDown (followers_at graph.now) start way.numbers.items
        (at heights.now start)) }
{
    let mut numbers = Vec::new(alloc);
    let mut number = start;
    'down: while height_at(heights, number) > 0 {
        number = one_below(graph, heights, number, steps);
        numbers.push(number)?;
    }
    Ok(Way {
        start,
        numbers,
        end: number,
    })
}

/// A number that follows another and is one step lower.
fn one_below<L: Ledger>(graph: &Graph, heights: &[u64], number: u32, steps: &mut Steps<L>) -> u32
    requires inside { HasFollowersInside graph.now }
    requires heights { AreHeights (graph_size graph.now) (followers_at graph.now) heights.now }
    requires number { number < graph_size graph.now }
    requires high { 0 < at heights.now number }
    ensures { IsOneBelow (followers_at graph.now) heights.now number (at heights.now number) result }
{
    first_below(graph, heights, number, steps).unwrap()
}

/// The first number that follows another and is one step lower.
fn first_below<L: Ledger>(
    graph: &Graph,
    heights: &[u64],
    number: u32,
    steps: &mut Steps<L>,
) -> Option<u32>
    requires inside { HasFollowersInside graph.now }
    requires count { length heights.now ≡ graph_size graph.now }
    requires number { number < graph_size graph.now }
    ensures found { IfSome result
        (IsOneBelow (followers_at graph.now) heights.now number (at heights.now number)) }
    ensures none { IfNone result (((j : ℕ)
        × IsOneBelow (followers_at graph.now) heights.now number (at heights.now number) j) → ⊥) }
{
    for k in 0..graph.next_len(number) {
        let follower = graph.next_at(number, k, steps);
        if is_one_below(heights, number, follower) {
            return Some(follower);
        }
    }
    None
}

/// Whether a number is one step lower than another.
fn is_one_below(heights: &[u64], number: u32, other: u32) -> bool
    requires number { number < length heights.now }
    requires other { other < length heights.now }
    ensures lower { result ≡ true → at heights.now other + 1 ≡ at heights.now number }
    ensures not { result ≡ false → at heights.now other + 1 ≡ at heights.now number → ⊥ }
{
    let height = height_at(heights, number);
    height > 0 && height_at(heights, other) == height - 1
}
