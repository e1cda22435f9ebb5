//! The shortest run that comes back to where it was.

ghost use Rattle.std.specs.Prelude.{
  ◌≡◌,
  ◌<◌,
  ◌↔◌,
  IfNone,
  IfOk,
  IfSome,
  false,
  length,
  true,
  ℕ,
};
ghost use Rattle.std.specs.List.{Contains};
ghost use Rattle.task_core.specs.Tasks.{action_count, fluent_count, system_of};
ghost use Rattle.plan_check.specs.Plain.{HasFollowersInside};
ghost use Rattle.plan_check.specs.Walks.{IsMarked};
ghost use Rattle.plan_rules.specs.Plans.{IsPlanOf};
ghost use Rattle.plan_rules.specs.Rules.{plain_of};
ghost use Rattle.exec_graph.specs.Values.{IsWithinFluents, followers_at, graph_size};
ghost use Rattle.plan_witness.specs.Lassos.{ComesBack, IsLasso};
ghost use Rattle.plan_witness.specs.Levels.{AreLevels};
ghost use Rattle.plan_witness.specs.Marked.{IsGraphIn, IsRoundOf};
ghost use Rattle.plan_witness.specs.Runs.{NoneReached};
ghost use Rattle.plan_witness.specs.Scenes.{IsFollowed, place_in, plan_in, size_in, sys_in};
ghost use Rattle.plan_witness.specs.Values.{lasso_value, steps_value};
ghost use Rattle.plan_witness.specs.Ways.{
  IsNearestRound,
  IsOnRound,
  IsShortestRoundAt,
  at,
};
ghost use Rattle.plan_witness.specs.Within.{HasStepsWithin, IsRunWithin};

use crate::levels::{Levels, levels_of, may_come_back};
use crate::runs::{Run, RunStep, run_along, starts_of, step_at, steps_along};
use crate::scenes::Scene;
use crate::shortest::{Way, shortest_way, way_back};
use crate::ways::{FAR, Ways, ways_from};
use exec_graph::{Graph, Steps};
use plan_rules::Plan;
use std::alloc::{AllocError, Global};
use std::sync::ledger::Ledger;
use task_core::Task;

/// A run that comes back: the run to a configuration, and the steps from there back to it.
#[derive(Drop)]
pub struct Lasso {
    pub stem: Run,
    pub round: Vec<RunStep>,
}

/// A shortest run to a configuration from which the plan may come back to it, and from there a
/// shortest run back; `None` exactly where the plan may reach no such configuration.
///
/// Each configuration that is as near as the one that is found, or nearer, is tried by a search of its
/// own.
pub fn cycle_run<L: Ledger>(
    alloc: Global,
    task: &Task,
    plan: &Plan,
    graph: &Graph,
    steps: &mut Steps<L>,
) -> Result<Option<Lasso>, AllocError>
    requires plan { IsPlanOf (fluent_count task.now) (action_count task.now) plan.now }
    requires graph { IsGraphIn task.now plan.now graph.now }
    requires within { IsWithinFluents (fluent_count task.now) graph.now }
    ensures lasso { let n = fluent_count task.now in IfOk result (λ found. IfSome found (λ lasso.
        IsLasso (system_of task.now) (plain_of plan.now) (lasso_value n lasso))) }
    ensures within { IfOk result (λ found. IfSome found (λ lasso.
        IsRunWithin (fluent_count task.now) lasso.stem)) }
    ensures back_within { IfOk result (λ found. IfSome found (λ lasso.
        HasStepsWithin (fluent_count task.now) lasso.round.items)) }
    ensures none { let sys = system_of task.now in IfOk result (λ found.
        IfNone found (NoneReached sys (plain_of plan.now) (ComesBack sys (plain_of plan.now)))) }
{
    let starts = starts_of(alloc, graph)?;
    let ways = ways_from(alloc, graph, &starts, steps)?;
    match nearest_round(alloc, graph, &ways, steps)? {
        Some(end) => {
            let way = way_back(alloc, graph, &ways, end)?;
            let scene = Scene { task, plan, graph };
            let stem = run_along(alloc, &scene, &way)?;
            let round = round_along(alloc, &scene, end, steps)?;
            Ok(Some(Lasso { stem, round }))
        }
        None => Ok(None),
    }
}

/// The nearest number from which some walk comes back.
fn nearest_round<L: Ledger>(
    alloc: Global,
    graph: &Graph,
    ways: &Ways,
    steps: &mut Steps<L>,
) -> Result<Option<u32>, AllocError>
    requires inside { HasFollowersInside graph.now }
    requires count { length ways.now.lengths.items ≡ graph_size graph.now }
    ensures some { IfOk result (λ found. IfSome found
        (IsNearestRound (graph_size graph.now) (followers_at graph.now) ways.now.lengths.items)) }
    ensures none { IfOk result (λ found. IfNone found ((i : ℕ) → i < graph_size graph.now
        → IsOnRound (followers_at graph.now) i → at ways.now.lengths.items i < FAR → ⊥)) }
{
    let levels = levels_of(alloc, graph, steps)?;
    let mut nearest = None;
    let mut least = FAR;
    for i in 0..graph.len() {
        if ways.length_at(i) >= least {
            continue;
        }
        if comes_back(alloc, graph, &levels, i, steps)? {
            least = ways.length_at(i);
            nearest = Some(i);
        }
    }
    Ok(nearest)
}

/// The steps of a shortest walk from a number back to it.
fn round_along<L: Ledger>(
    alloc: Global,
    scene: &Scene<'_>,
    number: u32,
    steps: &mut Steps<L>,
) -> Result<Vec<RunStep>, AllocError>
    requires scene { IsFollowed scene.now }
    requires number { number < size_in scene.now }
    requires on { IsOnRound (followers_at scene.now.graph.now) number }
    ensures round { let n = fluent_count scene.now.task.now in IfOk result (λ round.
        IsRoundOf (sys_in scene.now) (plan_in scene.now) (place_in scene.now)
        (followers_at scene.now.graph.now) number (steps_value n round.items)) }
    ensures within { IfOk result (λ round.
        HasStepsWithin (fluent_count scene.now.task.now) round.items) }
{
    match round_at(alloc, scene.graph, number, steps)? {
        Some(way) => {
            let first = step_at(scene, number, way.start);
            let mut round = steps_along(alloc, scene, way.start, &way.numbers)?;
            round.push_front(first)?;
            Ok(Vec::from(round))
        }
        None => Ok(Vec::new(alloc)),
    }
}

/// Whether some walk from a number comes back to it. By the ranks most that don't are seen at once.
fn comes_back<L: Ledger>(
    alloc: Global,
    graph: &Graph,
    levels: &Levels,
    number: u32,
    steps: &mut Steps<L>,
) -> Result<bool, AllocError>
    requires inside { HasFollowersInside graph.now }
    requires levels { AreLevels (graph_size graph.now) (followers_at graph.now) levels.now }
    requires number { number < graph_size graph.now }
    ensures { IfOk result (λ is. (is ≡ true) ↔ IsOnRound (followers_at graph.now) number) }
{
    if !may_come_back(graph, levels, number, steps) {
        return Ok(false);
    }
    is_on_round(alloc, graph, number, steps)
}

/// Whether some walk from a number comes back to it.
fn is_on_round<L: Ledger>(
    alloc: Global,
    graph: &Graph,
    number: u32,
    steps: &mut Steps<L>,
) -> Result<bool, AllocError>
    requires inside { HasFollowersInside graph.now }
    requires number { number < graph_size graph.now }
    ensures { IfOk result (λ is. (is ≡ true) ↔ IsOnRound (followers_at graph.now) number) }
{
    let round = round_at(alloc, graph, number, steps)?;
    Ok(round.is_some())
}

/// A shortest walk from a number back to it, from the follower by which it goes on.
fn round_at<L: Ledger>(
    alloc: Global,
    graph: &Graph,
    number: u32,
    steps: &mut Steps<L>,
) -> Result<Option<Way>, AllocError>
    requires inside { HasFollowersInside graph.now }
    requires number { number < graph_size graph.now }
    ensures some { IfOk result (λ found. IfSome found (λ way.
        IsShortestRoundAt (followers_at graph.now) number way.start way.numbers.items)) }
    ensures none { IfOk result (λ found.
        IfNone found (IsOnRound (followers_at graph.now) number → ⊥)) }
{
    let followers = follower_marks(alloc, graph, number, steps)?;
    let only = only_mark(alloc, graph, number)?;
    shortest_way(alloc, graph, &followers, &only, steps)
}

fn follower_marks<L: Ledger>(
    alloc: Global,
    graph: &Graph,
    number: u32,
    steps: &mut Steps<L>,
) -> Result<Vec<bool>, AllocError>
    requires inside { HasFollowersInside graph.now }
    requires number { number < graph_size graph.now }
    ensures count { IfOk result (λ marks. length marks.items ≡ graph_size graph.now) }
    ensures marked { IfOk result (λ marks. (i : ℕ) → i < graph_size graph.now
        → IsMarked marks.items i ↔ Contains (followers_at graph.now number) i) }
{
    let mut marks = Vec::new(alloc);
    for i in 0..graph.len() {
        marks.push(follows(graph, number, i, steps))?;
    }
    Ok(marks)
}

/// Whether a number follows another.
pub fn follows<L: Ledger>(graph: &Graph, number: u32, other: u32, steps: &mut Steps<L>) -> bool
    requires { number < graph_size graph.now }
    ensures { (result ≡ true) ↔ Contains (followers_at graph.now number) other }
{
    for k in 0..graph.next_len(number) {
        if graph.next_at(number, k, steps) == other {
            return true;
        }
    }
    false
}

/// A mark for one number alone.
pub fn only_mark(alloc: Global, graph: &Graph, number: u32) -> Result<Vec<bool>, AllocError>
    requires { number < graph_size graph.now }
    ensures count { IfOk result (λ marks. length marks.items ≡ graph_size graph.now) }
    ensures marked { IfOk result (λ marks. (i : ℕ) → i < graph_size graph.now
        → IsMarked marks.items i ↔ (i ≡ number)) }
{
    let mut marks = Vec::new(alloc);
    for i in 0..graph.len() {
        marks.push(is_number(i, number))?;
    }
    Ok(marks)
}

fn is_number(number: u32, other: u32) -> bool
    ensures { (result ≡ true) ↔ (number ≡ other) }
{
    number == other
}
