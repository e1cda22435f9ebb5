//! What is told of a verdict on a plan.

ghost use Rattle.plan_check.specs.declared.verdicts.Verdict.TheVariants.{Yes};
ghost use Rattle.counterexamples.specs.Aims.{HasGoalFor};
ghost use Rattle.counterexamples.specs.ForVerdicts.{
  IsClassFinding,
  IsContextFinding,
  IsFinding,
  with_run as only_run,
};
ghost use Rattle.counterexamples.specs.Longest.{IsClassVerdict, IsLongestFor};
ghost use Rattle.counterexamples.specs.Places.{EndsReached};
ghost use Rattle.counterexamples.specs.Values.{finding_value, run_found_value};
ghost use Rattle.plan_witness.specs.Scenes.{IsFollowed, plan_in, sys_in};
ghost use Rattle.plan_witness.specs.Within.{IsRunWithin};
ghost use Rattle.std.specs.Prelude.{◌≡◌, IfOk, IfSome, IsSome, ℕ};
ghost use Rattle.task_core.specs.Tasks.{fluent_count};

use crate::aims::{Aim, class_aim, context_aim};
use crate::findings::{Found, find};
use crate::longest::find_longest;
use crate::stays::{Stays, find_stays};
use plan_check::Verdict;
use plan_witness::Scene;
use std::alloc::{AllocError, Global};
use task_core::Class;

/// What is told of a verdict: a run that shows it, a longest run, and where the plan stays from the end of
/// the first run on; each where there is one.
#[derive(Drop)]
pub struct Finding<'a> {
    pub run: Option<Found<'a>>,
    pub longest: Option<Found<'a>>,
    pub stays: Option<Stays>,
}

/// Nothing but a run, or not even that.
pub fn with_run<'a>(run: Option<Found<'a>>) -> Finding<'a>
    ensures { (n : ℕ) → finding_value n result ≡ only_run (run_found_value n run.entry) }
{
    Finding {
        run,
        longest: None,
        stays: None,
    }
}

/// What is told of a verdict on a table as a plan of a class.
pub fn find_for_class<'a>(
    alloc: Global,
    scene: &Scene<'a>,
    class: Class,
    verdict: &Verdict,
) -> Result<Finding<'a>, AllocError>
    requires goal { IsSome scene.now.task.now.goal }
    requires scene { IsFollowed scene.now }
    requires verdict { IsClassVerdict class (sys_in scene.now) (plan_in scene.now) verdict.now }
    ensures { let n = fluent_count scene.now.task.now in IfOk result (λ finding.
        IsClassFinding class verdict.now scene.now.task.now (plan_in scene.now)
        (finding_value n finding)) }
{
    let aim = class_aim(class, verdict);
    let run = run_for(alloc, scene, aim)?;
    let stays = find_stays(alloc, scene, aim, &run)?;
    let longest = longest_for(alloc, scene, class, verdict)?;
    Ok(Finding {
        run,
        longest,
        stays,
    })
}

/// What is told of a verdict on a plan with contexts, unless it is that the goal is missed.
pub fn find_for_contexts<'a>(
    alloc: Global,
    scene: &Scene<'a>,
    verdict: &Verdict,
) -> Result<Finding<'a>, AllocError>
    requires scene { IsFollowed scene.now }
    ensures { let n = fluent_count scene.now.task.now in IfOk result (λ finding.
        IsContextFinding verdict.now scene.now.task.now (plan_in scene.now)
        (finding_value n finding)) }
{
    let run = run_for(alloc, scene, context_aim(verdict))?;
    Ok(with_run(run))
}

/// A shortest run to an aim, where there is one.
fn run_for<'a>(alloc: Global, scene: &Scene<'a>, aim: Aim) -> Result<Option<Found<'a>>, AllocError>
    requires goal { HasGoalFor aim scene.now.task.now }
    requires scene { IsFollowed scene.now }
    ensures run { let n = fluent_count scene.now.task.now in IfOk result (λ run.
        IsFinding aim scene.now.task.now (plan_in scene.now) (run_found_value n run)) }
    ensures within { IfOk result (λ run. IfSome run (λ found.
        IsRunWithin (fluent_count scene.now.task.now) found.run)) }
    ensures reached { (aim ≡ Aim.Round → ⊥) → IfOk result (λ run. IfSome run (λ found.
        EndsReached scene.now found.run)) }
{
    find(alloc, scene, aim)
}

/// A longest run of a strong plan that is a yes.
fn longest_for<'a>(
    alloc: Global,
    scene: &Scene<'_>,
    class: Class,
    verdict: &Verdict,
) -> Result<Option<Found<'a>>, AllocError>
    requires scene { IsFollowed scene.now }
    requires verdict { IsClassVerdict class (sys_in scene.now) (plan_in scene.now) verdict.now }
    ensures { let n = fluent_count scene.now.task.now in IfOk result (λ longest.
        IsLongestFor class verdict.now scene.now.task.now (plan_in scene.now)
        (run_found_value n longest)) }
{
    match class {
        Class::Weak => Ok(None),
        Class::Cyclic => Ok(None),
        Class::Strong => longest_of_strong(alloc, scene, verdict),
    }
}

/// A longest run of a plan that is judged as a strong one, if it is a yes.
fn longest_of_strong<'a>(
    alloc: Global,
    scene: &Scene<'_>,
    verdict: &Verdict,
) -> Result<Option<Found<'a>>, AllocError>
    requires scene { IsFollowed scene.now }
    requires verdict { IsClassVerdict Class.Strong (sys_in scene.now) (plan_in scene.now)
        verdict.now }
    ensures { let n = fluent_count scene.now.task.now in IfOk result (λ longest.
        IsLongestFor Class.Strong verdict.now scene.now.task.now (plan_in scene.now)
        (run_found_value n longest)) }
{
    match verdict {
        Verdict::Yes { bound } => longest_within(alloc, scene, *bound),
        Verdict::No(_) => Ok(None),
    }
}

/// A longest run of a strong plan, if there is a bound.
fn longest_within<'a>(
    alloc: Global,
    scene: &Scene<'_>,
    bound: Option<u64>,
) -> Result<Option<Found<'a>>, AllocError>
    requires scene { IsFollowed scene.now }
    requires verdict { IsClassVerdict Class.Strong (sys_in scene.now) (plan_in scene.now)
        (Yes bound) }
    ensures { let n = fluent_count scene.now.task.now in IfOk result (λ longest.
        IsLongestFor Class.Strong (Yes bound) scene.now.task.now (plan_in scene.now)
        (run_found_value n longest)) }
{
    match bound {
        Some(bound) => find_longest(alloc, scene, bound),
        None => Ok(None),
    }
}
