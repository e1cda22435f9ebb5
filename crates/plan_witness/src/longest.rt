//! A longest run of a plan whose runs all end.

ghost use Rattle.std.specs.Prelude.{
  ◌≡◌,
  ◌<◌,
  ◌≤◌,
  IfNone,
  IfOk,
  IfSome,
  false,
  length,
  nat_lt,
  true,
};
ghost use Rattle.task_core.specs.ContextPlans.{Configuration, IsInitial};
ghost use Rattle.task_core.specs.Tasks.{fluent_count};
ghost use Rattle.exec_graph.specs.Executions.{IsReachedBy};
ghost use Rattle.exec_graph.specs.Values.{graph_size};
ghost use Rattle.plan_witness.specs.Heights.{HasNoStart, IsHighestStart};
ghost use Rattle.plan_witness.specs.Longest.{HasPathsWithin, IsLongestRun};
ghost use Rattle.plan_witness.specs.Runs.{end_of};
ghost use Rattle.plan_witness.specs.Scenes.{IsFollowed, plan_in, sys_in};
ghost use Rattle.plan_witness.specs.Values.{run_value};
ghost use Rattle.plan_witness.specs.Ways.{at};
ghost use Rattle.plan_witness.specs.Within.{IsRunWithin};

use crate::heights::{height_at, heights_within, way_down};
use crate::runs::{Run, run_along};
use crate::scenes::Scene;
use exec_graph::{Graph, Steps};
use std::alloc::{AllocError, Global};
use std::sync::ledger::Ledger;

/// A longest run from an initial state, where no path of the plan has more steps than the bound says;
/// `None` exactly where there is no initial state.
pub fn longest_run<L: Ledger>(
    alloc: Global,
    scene: &Scene<'_>,
    bound: u64,
    steps: &mut Steps<L>,
) -> Result<Option<Run>, AllocError>
    requires scene { IsFollowed scene.now }
    requires bounded { HasPathsWithin (sys_in scene.now) (plan_in scene.now) bound }
    ensures longest { let n = fluent_count scene.now.task.now in
        IfOk result (λ found. IfSome found (λ run.
        IsLongestRun (sys_in scene.now) (plan_in scene.now) (run_value n run))) }
    ensures bounded { IfOk result (λ found. IfSome found (λ run.
        length run.steps.items ≤ bound)) }
    ensures within { IfOk result (λ found. IfSome found
        (IsRunWithin (fluent_count scene.now.task.now))) }
    ensures reached { let n = fluent_count scene.now.task.now in
        IfOk result (λ found. IfSome found (λ run. IsReachedBy (sys_in scene.now) (plan_in scene.now)
        (end_of (run_value n run).start (run_value n run).steps))) }
    ensures none { IfOk result (λ found. IfNone found
        ((x : Configuration) → IsInitial (sys_in scene.now) x → ⊥)) }
{
    let heights = heights_within(alloc, scene.graph, bound, steps)?;
    match highest_start(scene.graph, &heights) {
        Some(start) => {
            let way = way_down(alloc, scene.graph, &heights, start, steps)?;
            let run = run_along(alloc, scene, &way)?;
            Ok(Some(run))
        }
        None => Ok(None),
    }
}

/// The first of the highest numbers in which an execution may begin.
fn highest_start(graph: &Graph, heights: &[u64]) -> Option<u32>
    requires { length heights.now ≡ graph_size graph.now }
    ensures some { IfSome result (IsHighestStart graph.now heights.now (graph_size graph.now)) }
    ensures none { IfNone result (HasNoStart graph.now (graph_size graph.now)) }
{
    let mut highest = None;
    for i in 0..graph.len() {
        if is_higher_start(graph, heights, highest, i) {
            highest = Some(i);
        }
    }
    highest
}

/// Whether an execution may begin in a number, and it is higher than another, where there is one.
fn is_higher_start(graph: &Graph, heights: &[u64], other: Option<u32>, number: u32) -> bool
    requires count { length heights.now ≡ graph_size graph.now }
    requires other { IfSome other (λ i. i < graph_size graph.now) }
    requires number { number < graph_size graph.now }
    ensures initial { result ≡ true → nat_lt number graph.now.initials ≡ true }
    ensures higher { result ≡ true → IfSome other (λ i. at heights.now i ≤ at heights.now number) }
    ensures none { result ≡ false → nat_lt number graph.now.initials ≡ true → IfNone other ⊥ }
    ensures lower { result ≡ false → nat_lt number graph.now.initials ≡ true
        → IfSome other (λ i. at heights.now number ≤ at heights.now i) }
{
    if !graph.initial(number) {
        return false;
    }
    match other {
        Some(best) => height_at(heights, best) < height_at(heights, number),
        None => true,
    }
}
