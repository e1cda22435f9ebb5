//! What speaks for a verdict.

ghost use Rattle.counterexamples.specs.Aims.{HasGoalFor, IsAimAt};
ghost use Rattle.counterexamples.specs.Findings.{IsFound, cycle_from as cycle_of};
ghost use Rattle.counterexamples.specs.Places.{EndsReached};
ghost use Rattle.counterexamples.specs.Values.{found_value};
ghost use Rattle.plan_rules.specs.Rules.{plain_of};
ghost use Rattle.plan_witness.specs.Lassos.{ComesBack, IsLasso};
ghost use Rattle.plan_witness.specs.Runs.{IsShortestRun, NoneReached};
ghost use Rattle.plan_witness.specs.Scenes.{IsFollowed, plan_in, sys_in};
ghost use Rattle.plan_witness.specs.Values.{lasso_value, run_value};
ghost use Rattle.plan_witness.specs.Within.{HasStepsWithin, IsRunWithin};
ghost use Rattle.std.specs.Prelude.{◌≡◌, IfNone, IfOk, IfSome, ℕ};
ghost use Rattle.task_core.specs.Tasks.{fluent_count, system_of};

use crate::aims::{Aim, is_round};
use crate::endings::{Ending, ending_at};
use crate::numbers::initial_number;
use crate::runs::{end_context, end_state, joined, lasso_to, run_to};
use plan_rules::Plan;
use plan_witness::{Lasso, Run, Scene, Spot};
use std::alloc::{AllocError, Global};
use task_core::Task;

/// A run, the number of the initial state in which it begins, counted from 0, and what is the matter after
/// its first `stem` steps. These are all steps, or those that are left lead back to where the run was
/// before them.
#[derive(Drop)]
pub struct Found<'a> {
    pub number: usize,
    pub run: Run,
    pub stem: usize,
    pub ending: Ending<'a>,
}

/// The number of the step, counted from 0, from which on a run leads back to where it was before that
/// step; `None` where it doesn't.
pub fn cycle_from(found: &Found<'_>) -> Option<usize>
    ensures { (n : ℕ) → result ≡ cycle_of (found_value n found.now) }
{
    if found.stem < found.run.steps.len() {
        return Some(found.stem);
    }
    None
}

/// A shortest run of a plan to an aim, read off its graph; `None` where the plan may reach none.
pub(crate) fn find<'a>(
    alloc: Global,
    scene: &Scene<'a>,
    aim: Aim,
) -> Result<Option<Found<'a>>, AllocError>
    requires goal { HasGoalFor aim scene.now.task.now }
    requires scene { IsFollowed scene.now }
    ensures found { let n = fluent_count scene.now.task.now in IfOk result (λ found.
        IfSome found (λ found. IsFound aim scene.now.task.now (plan_in scene.now)
        (found_value n found))) }
    ensures none { IfOk result (λ found. IfNone found (NoneReached (sys_in scene.now)
        (plan_in scene.now) (IsAimAt aim (sys_in scene.now) (plan_in scene.now)))) }
    ensures within { IfOk result (λ found. IfSome found (λ found.
        IsRunWithin (fluent_count scene.now.task.now) found.run)) }
    ensures reached { (aim ≡ Aim.Round → ⊥) → IfOk result (λ found. IfSome found (λ found.
        EndsReached scene.now found.run)) }
{
    if is_round(aim) {
        return find_back(alloc, scene);
    }
    find_end(alloc, scene, aim)
}

/// A shortest run that comes back.
fn find_back<'a>(alloc: Global, scene: &Scene<'_>) -> Result<Option<Found<'a>>, AllocError>
    requires { IsFollowed scene.now }
    ensures found { let n = fluent_count scene.now.task.now in IfOk result (λ found.
        IfSome found (λ found. IsFound Aim.Round scene.now.task.now (plan_in scene.now)
        (found_value n found))) }
    ensures none { IfOk result (λ found. IfNone found (NoneReached (sys_in scene.now)
        (plan_in scene.now) (ComesBack (sys_in scene.now) (plan_in scene.now)))) }
    ensures within { IfOk result (λ found. IfSome found (λ found.
        IsRunWithin (fluent_count scene.now.task.now) found.run)) }
{
    match lasso_to(alloc, scene)? {
        Some(lasso) => {
            let found = back(alloc, scene.task, scene.plan, lasso)?;
            Ok(Some(found))
        }
        None => Ok(None),
    }
}

/// A shortest run that comes back, with the number of its initial state.
fn back<'a>(alloc: Global, task: &Task, plan: &Plan, lasso: Lasso) -> Result<Found<'a>, AllocError>
    requires stem { IsRunWithin (fluent_count task.now) lasso.stem }
    requires round { HasStepsWithin (fluent_count task.now) lasso.round.items }
    requires lasso { let n = fluent_count task.now in
        IsLasso (system_of task.now) (plain_of plan.now) (lasso_value n lasso) }
    ensures found { IfOk result (λ found. IsFound Aim.Round task.now (plain_of plan.now)
        (found_value (fluent_count task.now) found)) }
    ensures within { IfOk result (λ found. IsRunWithin (fluent_count task.now) found.run) }
{
    let number = initial_number(alloc, task, &lasso.stem.start)?;
    let stem = lasso.stem.steps.len();
    let run = joined(lasso)?;
    Ok(Found {
        number,
        run,
        stem,
        ending: Ending::ComesBack,
    })
}

/// A shortest run to an aim, other than to come back.
fn find_end<'a>(alloc: Global, scene: &Scene<'a>, aim: Aim) -> Result<Option<Found<'a>>, AllocError>
    requires goal { HasGoalFor aim scene.now.task.now }
    requires other { aim ≡ Aim.Round → ⊥ }
    requires scene { IsFollowed scene.now }
    ensures found { let n = fluent_count scene.now.task.now in IfOk result (λ found.
        IfSome found (λ found. IsFound aim scene.now.task.now (plan_in scene.now)
        (found_value n found))) }
    ensures none { IfOk result (λ found. IfNone found (NoneReached (sys_in scene.now)
        (plan_in scene.now) (IsAimAt aim (sys_in scene.now) (plan_in scene.now)))) }
    ensures within { IfOk result (λ found. IfSome found (λ found.
        IsRunWithin (fluent_count scene.now.task.now) found.run)) }
    ensures reached { IfOk result (λ found. IfSome found (λ found.
        EndsReached scene.now found.run)) }
{
    match run_to(alloc, scene, aim)? {
        Some(run) => {
            let found = described(alloc, scene, aim, run)?;
            Ok(Some(found))
        }
        None => Ok(None),
    }
}

/// A shortest run to an aim, with the number of its initial state and what is the matter at its end.
fn described<'a>(
    alloc: Global,
    scene: &Scene<'a>,
    aim: Aim,
    run: Run,
) -> Result<Found<'a>, AllocError>
    requires goal { HasGoalFor aim scene.now.task.now }
    requires other { aim ≡ Aim.Round → ⊥ }
    requires scene { IsFollowed scene.now }
    requires inside { IsRunWithin (fluent_count scene.now.task.now) run }
    requires shortest { let sys = sys_in scene.now in let plan = plan_in scene.now in
        IsShortestRun sys plan (IsAimAt aim sys plan)
        (run_value (fluent_count scene.now.task.now) run) }
    requires reached { EndsReached scene.now run }
    ensures found { let n = fluent_count scene.now.task.now in IfOk result (λ found.
        IsFound aim scene.now.task.now (plan_in scene.now) (found_value n found)) }
    ensures within { IfOk result (λ found.
        IsRunWithin (fluent_count scene.now.task.now) found.run) }
    ensures reached { IfOk result (λ found. EndsReached scene.now found.run) }
{
    let number = initial_number(alloc, scene.task, &run.start)?;
    let end = Spot {
        state: end_state(&run),
        context: end_context(&run),
    };
    let ending = ending_at(alloc, scene.task, scene.plan, aim, &end)?;
    let stem = run.steps.len();
    Ok(Found {
        number,
        run,
        stem,
        ending,
    })
}
