//! Runs that are read off the graph of a plan.

ghost use Rattle.exec_graph.specs.Executions.{IsReachedBy};
ghost use Rattle.counterexamples.specs.Aims.{HasGoalFor, IsAimAt};
ghost use Rattle.counterexamples.specs.Places.{EndsReached};
ghost use Rattle.plan_witness.specs.Lassos.{ComesBack, IsLasso};
ghost use Rattle.plan_witness.specs.Longest.{HasPathsWithin, IsLongestRun};
ghost use Rattle.plan_witness.specs.Onward.{AreMet, AreOnward};
ghost use Rattle.plan_witness.specs.Runs.{IsShortestRun, NoneReached, end_of};
ghost use Rattle.plan_witness.specs.Scenes.{IsFollowed, place_of, plan_in, sys_in};
ghost use Rattle.plan_witness.specs.Values.{lasso_value, run_value};
ghost use Rattle.plan_witness.specs.Within.{HasStepsWithin, IsRunWithin};
ghost use Rattle.std.specs.Prelude.{◌≡◌, ◌<◌, ◌≤◌, ◌++◌, IfNone, IfOk, IfSome, List, length, ℕ};
ghost use Rattle.task_core.specs.ContextPlans.{Configuration, IsInitial};
ghost use Rattle.task_core.specs.States.{IsWithin, vector};
ghost use Rattle.task_core.specs.Tasks.{fluent_count};

use crate::aims::Aim;
use exec_graph::Steps;
use plan_witness::{
    Lasso, Run, Scene, Spot, cycle_run, endless_run, goal_run, longest_run, lost_run,
    onward_numbers, stuck_run, terminal_run, unexecutable_run,
};
use std::alloc::{AllocError, Global};
use std::marker::Brand;
use std::sync::ledger::{Blank, Ledger};
use task_core::State;

/// A shortest run of a plan to an aim, other than to come back, read off its graph; `None` where the plan
/// may reach none.
pub(crate) fn run_to(alloc: Global, scene: &Scene<'_>, aim: Aim) -> Result<Option<Run>, AllocError>
    requires goal { HasGoalFor aim scene.now.task.now }
    requires other { aim ≡ Aim.Round → ⊥ }
    requires scene { IsFollowed scene.now }
    ensures shortest { let n = fluent_count scene.now.task.now in
        let sys = sys_in scene.now in let plan = plan_in scene.now in
        IfOk result (λ found. IfSome found (λ run.
        IsShortestRun sys plan (IsAimAt aim sys plan) (run_value n run))) }
    ensures within { IfOk result (λ found. IfSome found
        (IsRunWithin (fluent_count scene.now.task.now))) }
    ensures reached { IfOk result (λ found. IfSome found (EndsReached scene.now)) }
    ensures none { let sys = sys_in scene.now in let plan = plan_in scene.now in
        IfOk result (λ found. IfNone found (NoneReached sys plan (IsAimAt aim sys plan))) }
{
    run_in::<Brand>(alloc, scene, aim, Blank::new(1))
}

/// The same, with the steps counted in a new ledger.
fn run_in<L: Ledger>(
    alloc: Global,
    scene: &Scene<'_>,
    aim: Aim,
    blank: Blank,
) -> Result<Option<Run>, AllocError>
    requires goal { HasGoalFor aim scene.now.task.now }
    requires other { aim ≡ Aim.Round → ⊥ }
    requires scene { IsFollowed scene.now }
    requires name { blank.name ≡ L.name }
    requires parts { blank.parts ≡ L.parts }
    requires some { 0 < blank.parts }
    ensures shortest { let n = fluent_count scene.now.task.now in
        let sys = sys_in scene.now in let plan = plan_in scene.now in
        IfOk result (λ found. IfSome found (λ run.
        IsShortestRun sys plan (IsAimAt aim sys plan) (run_value n run))) }
    ensures within { IfOk result (λ found. IfSome found
        (IsRunWithin (fluent_count scene.now.task.now))) }
    ensures reached { IfOk result (λ found. IfSome found (EndsReached scene.now)) }
    ensures none { let sys = sys_in scene.now in let plan = plan_in scene.now in
        IfOk result (λ found. IfNone found (NoneReached sys plan (IsAimAt aim sys plan))) }
{
    let Scene { task, plan, graph } = *scene;
    let mut steps = Steps::<L>::new(blank);
    match aim {
        Aim::Nothing => Ok(None),
        Aim::Inside => goal_run(alloc, task, plan, graph, &mut steps),
        Aim::Outside => terminal_run(alloc, task, plan, graph, &mut steps),
        Aim::Bad => unexecutable_run(alloc, task, plan, graph, &mut steps),
        Aim::Unfinished => stuck_run(alloc, task, plan, graph, &mut steps),
        // What comes back is looked for by `lasso_to`.
        Aim::Round => Ok(None),
        Aim::Lost => lost_run(alloc, task, plan, graph, &mut steps),
        Aim::Endless => endless_run(alloc, task, plan, graph, &mut steps),
    }
}

/// A shortest run that comes back, read off the graph of a plan; `None` where none does.
pub(crate) fn lasso_to(alloc: Global, scene: &Scene<'_>) -> Result<Option<Lasso>, AllocError>
    requires { IsFollowed scene.now }
    ensures lasso { let n = fluent_count scene.now.task.now in
        IfOk result (λ found. IfSome found (λ lasso.
        IsLasso (sys_in scene.now) (plan_in scene.now) (lasso_value n lasso))) }
    ensures stem { IfOk result (λ found. IfSome found (λ lasso.
        IsRunWithin (fluent_count scene.now.task.now) lasso.stem)) }
    ensures round { IfOk result (λ found. IfSome found (λ lasso.
        HasStepsWithin (fluent_count scene.now.task.now) lasso.round.items)) }
    ensures none { let sys = sys_in scene.now in let plan = plan_in scene.now in
        IfOk result (λ found. IfNone found (NoneReached sys plan (ComesBack sys plan))) }
{
    lasso_in::<Brand>(alloc, scene, Blank::new(1))
}

/// The same, with the steps counted in a new ledger.
fn lasso_in<L: Ledger>(
    alloc: Global,
    scene: &Scene<'_>,
    blank: Blank,
) -> Result<Option<Lasso>, AllocError>
    requires scene { IsFollowed scene.now }
    requires name { blank.name ≡ L.name }
    requires parts { blank.parts ≡ L.parts }
    requires some { 0 < blank.parts }
    ensures lasso { let n = fluent_count scene.now.task.now in
        IfOk result (λ found. IfSome found (λ lasso.
        IsLasso (sys_in scene.now) (plan_in scene.now) (lasso_value n lasso))) }
    ensures stem { IfOk result (λ found. IfSome found (λ lasso.
        IsRunWithin (fluent_count scene.now.task.now) lasso.stem)) }
    ensures round { IfOk result (λ found. IfSome found (λ lasso.
        HasStepsWithin (fluent_count scene.now.task.now) lasso.round.items)) }
    ensures none { let sys = sys_in scene.now in let plan = plan_in scene.now in
        IfOk result (λ found. IfNone found (NoneReached sys plan (ComesBack sys plan))) }
{
    let mut steps = Steps::<L>::new(blank);
    cycle_run(alloc, scene.task, scene.plan, scene.graph, &mut steps)
}

/// A longest run, read off the graph of a plan; `None` where there is no initial state.
pub(crate) fn longest_to(
    alloc: Global,
    scene: &Scene<'_>,
    bound: u64,
) -> Result<Option<Run>, AllocError>
    requires scene { IsFollowed scene.now }
    requires bounded { HasPathsWithin (sys_in scene.now) (plan_in scene.now) bound }
    ensures longest { let n = fluent_count scene.now.task.now in
        IfOk result (λ found. IfSome found (λ run.
        IsLongestRun (sys_in scene.now) (plan_in scene.now) (run_value n run))) }
    ensures bounded { IfOk result (λ found. IfSome found (λ run.
        length run.steps.items ≤ bound)) }
    ensures within { IfOk result (λ found. IfSome found
        (IsRunWithin (fluent_count scene.now.task.now))) }
    ensures reached { IfOk result (λ found. IfSome found (EndsReached scene.now)) }
    ensures none { IfOk result (λ found. IfNone found
        ((x : Configuration) → IsInitial (sys_in scene.now) x → ⊥)) }
{
    longest_in::<Brand>(alloc, scene, bound, Blank::new(1))
}

/// The same, with the steps counted in a new ledger.
fn longest_in<L: Ledger>(
    alloc: Global,
    scene: &Scene<'_>,
    bound: u64,
    blank: Blank,
) -> Result<Option<Run>, AllocError>
    requires scene { IsFollowed scene.now }
    requires bounded { HasPathsWithin (sys_in scene.now) (plan_in scene.now) bound }
    requires name { blank.name ≡ L.name }
    requires parts { blank.parts ≡ L.parts }
    requires some { 0 < blank.parts }
    ensures longest { let n = fluent_count scene.now.task.now in
        IfOk result (λ found. IfSome found (λ run.
        IsLongestRun (sys_in scene.now) (plan_in scene.now) (run_value n run))) }
    ensures bounded { IfOk result (λ found. IfSome found (λ run.
        length run.steps.items ≤ bound)) }
    ensures within { IfOk result (λ found. IfSome found
        (IsRunWithin (fluent_count scene.now.task.now))) }
    ensures reached { IfOk result (λ found. IfSome found (EndsReached scene.now)) }
    ensures none { IfOk result (λ found. IfNone found
        ((x : Configuration) → IsInitial (sys_in scene.now) x → ⊥)) }
{
    let mut steps = Steps::<L>::new(blank);
    longest_run(alloc, scene, bound, &mut steps)
}

/// The numbers of the configurations to which paths of a plan lead from one that it may reach.
pub(crate) fn onward_from(
    alloc: Global,
    scene: &Scene<'_>,
    spot: &Spot<'_>,
) -> Result<Vec<u32>, AllocError>
    requires scene { IsFollowed scene.now }
    requires state { IsWithin (fluent_count scene.now.task.now) spot.now.state.now }
    requires reached { IsReachedBy (sys_in scene.now) (plan_in scene.now)
        (place_of (fluent_count scene.now.task.now) spot.now) }
    ensures { IfOk result (λ numbers. (met : List Configuration)
        × AreMet (sys_in scene.now) (plan_in scene.now) met
        × AreOnward (sys_in scene.now) (plan_in scene.now) met
        (place_of (fluent_count scene.now.task.now) spot.now) numbers.items) }
{
    onward_in::<Brand>(alloc, scene, spot, Blank::new(1))
}

/// The same, with the steps counted in a new ledger.
fn onward_in<L: Ledger>(
    alloc: Global,
    scene: &Scene<'_>,
    spot: &Spot<'_>,
    blank: Blank,
) -> Result<Vec<u32>, AllocError>
    requires scene { IsFollowed scene.now }
    requires state { IsWithin (fluent_count scene.now.task.now) spot.now.state.now }
    requires reached { IsReachedBy (sys_in scene.now) (plan_in scene.now)
        (place_of (fluent_count scene.now.task.now) spot.now) }
    requires name { blank.name ≡ L.name }
    requires parts { blank.parts ≡ L.parts }
    requires some { 0 < blank.parts }
    ensures { IfOk result (λ numbers. (met : List Configuration)
        × AreMet (sys_in scene.now) (plan_in scene.now) met
        × AreOnward (sys_in scene.now) (plan_in scene.now) met
        (place_of (fluent_count scene.now.task.now) spot.now) numbers.items) }
{
    let mut steps = Steps::<L>::new(blank);
    onward_numbers(alloc, scene, spot, &mut steps)
}

/// The whole run of a lasso: its stem, and the steps back.
pub(crate) fn joined(lasso: Lasso) -> Result<Run, AllocError>
    ensures start { IfOk result (λ run. run.start ≡ lasso.stem.start) }
    ensures steps { IfOk result (λ run.
        run.steps.items ≡ lasso.stem.steps.items ++ lasso.round.items) }
{
    let Lasso { stem, round } = lasso;
    let Run { start, mut steps } = stem;
    steps.extend_from_slice(&round)?;
    Ok(Run { start, steps })
}

pub(crate) fn end_state(run: &Run) -> &State
    ensures state { (n : ℕ) → vector n result.now
        ≡ (end_of (run_value n run.now).start (run_value n run.now).steps).state }
    ensures within { (n : ℕ) → IsRunWithin n run.now → IsWithin n result.now }
{
    match run.steps.last() {
        Some(step) => &step.state,
        None => &run.start,
    }
}

pub(crate) fn end_context(run: &Run) -> u32
    ensures { (n : ℕ) → result
        ≡ (end_of (run_value n run.now).start (run_value n run.now).steps).context }
{
    match run.steps.last() {
        Some(step) => step.context,
        None => 1,
    }
}
