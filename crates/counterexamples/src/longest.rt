//! A longest run of a strong plan.

ghost use Rattle.plan_check.specs.declared.verdicts.Verdict.TheVariants.{Yes};
ghost use Rattle.counterexamples.specs.Longest.{IsClassVerdict, IsLongestFinding};
ghost use Rattle.counterexamples.specs.Values.{run_found_value};
ghost use Rattle.plan_witness.specs.Scenes.{IsFollowed, plan_in, sys_in};
ghost use Rattle.std.specs.Prelude.{IfOk, Some};
ghost use Rattle.task_core.specs.Tasks.{fluent_count};

use crate::endings::Ending;
use crate::findings::Found;
use crate::numbers::initial_number;
use crate::runs::longest_to;
use plan_witness::Scene;
use std::alloc::{AllocError, Global};
use task_core::Class;

/// A longest run of a strong plan with this bound, read off its graph; `None` where there is no initial
/// state.
pub(crate) fn find_longest<'a>(
    alloc: Global,
    scene: &Scene<'_>,
    bound: u64,
) -> Result<Option<Found<'a>>, AllocError>
    requires scene { IsFollowed scene.now }
    requires verdict { IsClassVerdict Class.Strong (sys_in scene.now) (plan_in scene.now)
        (Yes (Some bound)) }
    ensures { let n = fluent_count scene.now.task.now in IfOk result (λ found.
        IsLongestFinding scene.now.task.now (plan_in scene.now) bound (run_found_value n found)) }
{
    match longest_to(alloc, scene, bound)? {
        Some(run) => {
            let number = initial_number(alloc, scene.task, &run.start)?;
            let stem = run.steps.len();
            Ok(Some(Found {
                number,
                run,
                stem,
                ending: Ending::InGoal,
            }))
        }
        None => Ok(None),
    }
}
