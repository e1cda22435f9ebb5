//! Runs of a plan along ways through its graph.

ghost use Rattle.std.specs.Prelude.{
  ◌≡◌,
  ◌<◌,
  IfNone,
  IfOk,
  IfSome,
  false,
  length,
  nat_lt,
  slice_index_or,
  ℕ,
};
ghost use Rattle.std.specs.List.{Contains};
ghost use Rattle.task_core.specs.States.{IsWithin, vector};
ghost use Rattle.task_core.specs.Tasks.{fluent_count};
ghost use Rattle.plan_check.specs.Walks.{IsMarked, IsWalk};
ghost use Rattle.exec_graph.specs.Executions.{IsReachedBy};
ghost use Rattle.exec_graph.specs.Values.{followers_at, graph_size, state_at};
ghost use Rattle.plan_witness.specs.Marked.{IsMarkedPlace, IsRunAlong};
ghost use Rattle.plan_witness.specs.Runs.{IsShortestRun, IsStepOf, end_of};
ghost use Rattle.plan_witness.specs.Scenes.{IsFollowed, place_in, plan_in, size_in, sys_in};
ghost use Rattle.plan_witness.specs.Within.{HasStepsWithin, IsRunWithin};
ghost use Rattle.plan_witness.specs.Values.{run_value, step_value, steps_value};

use crate::scenes::{Scene, Spot};
use crate::shortest::{Way, shortest_way};
use crate::steps::taken_between;
use exec_graph::{Graph, Steps};
use std::alloc::{AllocError, Global};
use std::collections::VecDeque;
use std::sync::ledger::Ledger;
use task_core::{ActionId, State};

/// A step of a run: the number of the rule in the plan's text, the action, the number of the outcome
/// among all outcomes of the action, all counted from 0, and the state and the context to which it
/// leads. A table stays in context 1.
#[derive(Clone, Copy)]
pub struct RunStep {
    pub rule: usize,
    pub action: ActionId,
    pub outcome: u32,
    pub state: State,
    pub context: u32,
}

/// A run: the state in which it begins, in context 1, and its steps.
#[derive(Drop)]
pub struct Run {
    pub start: State,
    pub steps: Vec<RunStep>,
}

/// A shortest run from an initial state to the configuration of a number with a mark; `None` where no
/// number has a mark.
pub(crate) fn shortest_run<L: Ledger>(
    alloc: Global,
    scene: &Scene<'_>,
    ends: &[bool],
    steps: &mut Steps<L>,
) -> Result<Option<Run>, AllocError>
    requires scene { IsFollowed scene.now }
    requires count { length ends.now ≡ size_in scene.now }
    ensures shortest { let n = fluent_count scene.now.task.now in
        IfOk result (λ found. IfSome found (λ run.
        IsShortestRun (sys_in scene.now) (plan_in scene.now)
        (IsMarkedPlace n scene.now.graph.now ends.now) (run_value n run))) }
    ensures within { IfOk result (λ found. IfSome found
        (IsRunWithin (fluent_count scene.now.task.now))) }
    ensures reached { let n = fluent_count scene.now.task.now in
        IfOk result (λ found. IfSome found (λ run. IsReachedBy (sys_in scene.now) (plan_in scene.now)
        (end_of (run_value n run).start (run_value n run).steps))) }
    ensures none { IfOk result (λ found. IfNone found ((i : ℕ) → IsMarked ends.now i → ⊥)) }
{
    let starts = starts_of(alloc, scene.graph)?;
    let found = shortest_way(alloc, scene.graph, &starts, ends, steps)?;
    match found {
        Some(way) => {
            let run = run_along(alloc, scene, &way)?;
            Ok(Some(run))
        }
        None => Ok(None),
    }
}

/// A mark for each configuration in which an execution may begin.
pub(crate) fn starts_of(alloc: Global, graph: &Graph) -> Result<Vec<bool>, AllocError>
    ensures count { IfOk result (λ marks. length marks.items ≡ graph_size graph.now) }
    ensures marked { IfOk result (λ marks. (i : ℕ) → i < graph_size graph.now
        → slice_index_or marks.items i false ≡ nat_lt i graph.now.initials) }
{
    let mut marks = Vec::new(alloc);
    for i in 0..graph.len() {
        marks.push(graph.initial(i))?;
    }
    Ok(marks)
}

pub(crate) fn run_along(alloc: Global, scene: &Scene<'_>, way: &Way) -> Result<Run, AllocError>
    requires scene { IsFollowed scene.now }
    requires start { way.now.start < size_in scene.now }
    requires walk { IsWalk (followers_at scene.now.graph.now) way.now.start way.now.numbers.items }
    ensures start { let n = fluent_count scene.now.task.now in IfOk result (λ run.
        vector n run.start ≡ state_at n scene.now.graph.now way.now.start) }
    ensures steps { let n = fluent_count scene.now.task.now in IfOk result (λ run.
        IsRunAlong (sys_in scene.now) (plan_in scene.now) (place_in scene.now)
        way.now.start way.now.numbers.items (steps_value n run.steps.items)) }
    ensures within { IfOk result (IsRunWithin (fluent_count scene.now.task.now)) }
{
    let steps = steps_along(alloc, scene, way.start, &way.numbers)?;
    Ok(Run {
        start: *scene.graph.state(way.start),
        steps: Vec::from(steps),
    })
}

/// The steps along a way from a number.
pub fn steps_along(
    alloc: Global,
    scene: &Scene<'_>,
    start: u32,
    numbers: &[u32],
) -> Result<VecDeque<RunStep>, AllocError>
    requires scene { IsFollowed scene.now }
    requires start { start < size_in scene.now }
    requires walk { IsWalk (followers_at scene.now.graph.now) start numbers.now }
    ensures along { let n = fluent_count scene.now.task.now in IfOk result (λ steps.
        IsRunAlong (sys_in scene.now) (plan_in scene.now) (place_in scene.now)
        start numbers.now (steps_value n steps.items)) }
    ensures within { IfOk result (λ steps.
        HasStepsWithin (fluent_count scene.now.task.now) steps.items) }
{
    let mut steps = VecDeque::new(alloc);
    let mut from = start;
    for k in 0..numbers.len() {
        let number = number_at(numbers, k);
        let step = step_at(scene, from, number);
        steps.push_back(step)?;
        from = number;
    }
    Ok(steps)
}

fn number_at(numbers: &[u32], k: usize) -> u32
    requires { k < length numbers.now }
    ensures { result ≡ slice_index_or numbers.now k 0 }
{
    numbers[k]
}

/// The step from a number to one that follows it.
pub(crate) fn step_at(scene: &Scene<'_>, from: u32, to: u32) -> RunStep
    requires scene { IsFollowed scene.now }
    requires from { from < size_in scene.now }
    requires to { to < size_in scene.now }
    requires follows { Contains (followers_at scene.now.graph.now from) to }
    ensures step { let n = fluent_count scene.now.task.now in
        IsStepOf (sys_in scene.now) (plan_in scene.now) (place_in scene.now from)
        (step_value n result) }
    ensures after { let n = fluent_count scene.now.task.now in
        (step_value n result).after ≡ place_in scene.now to }
    ensures within { IsWithin (fluent_count scene.now.task.now) result.state }
{
    let graph = scene.graph;
    let source = graph.state(from);
    let target = graph.state(to);
    let context = graph.context(from);
    let next = graph.context(to);
    let before = Spot {
        state: source,
        context,
    };
    let after = Spot {
        state: target,
        context: next,
    };
    let taken = taken_between(scene.task, scene.plan, &before, &after);
    RunStep {
        rule: taken.rule,
        action: taken.action,
        outcome: taken.outcome,
        state: *target,
        context: next,
    }
}
