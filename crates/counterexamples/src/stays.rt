//! In which configurations a plan stays that can't come to its goal any more.

ghost use Rattle.counterexamples.specs.Places.{EndsReached};
ghost use Rattle.counterexamples.specs.Stays.{AreStays, AreStaysAfter, IsStaysFor, stays_of};
ghost use Rattle.counterexamples.specs.Values.{run_found_value, stays_value};
ghost use Rattle.plan_witness.specs.Runs.{end_of};
ghost use Rattle.plan_witness.specs.Scenes.{IsFollowed, plan_in, sys_in};
ghost use Rattle.plan_witness.specs.Values.{run_value};
ghost use Rattle.plan_witness.specs.Within.{IsRunWithin};
ghost use Rattle.std.specs.Option.{option_map};
ghost use Rattle.std.specs.Prelude.{◌≡◌, IfOk, IfSome};
ghost use Rattle.task_core.specs.Tasks.{fluent_count};

use crate::aims::Aim;
use crate::findings::Found;
use crate::runs::{end_context, end_state, onward_from};
use plan_witness::{Run, Scene, Spot};
use std::alloc::{AllocError, Global};

/// How many numbers are listed at most.
const MOST_LISTED: usize = 20;

/// In which configurations a plan stays, by their numbers in the order in which a search by breadth meets
/// them: the first of them, and how many are left.
#[derive(Drop)]
pub struct Stays {
    pub numbers: Vec<u32>,
    pub more: usize,
}

/// Where a plan stays after a run to an aim, if the run is one to where no run ends, or none in the goal.
pub(crate) fn find_stays(
    alloc: Global,
    scene: &Scene<'_>,
    aim: Aim,
    found: &Option<Found<'_>>,
) -> Result<Option<Stays>, AllocError>
    requires scene { IsFollowed scene.now }
    requires reached { (aim ≡ Aim.Round → ⊥) → IfSome found.now (λ found.
        EndsReached scene.now found.run) }
    requires within { IfSome found.now (λ found.
        IsRunWithin (fluent_count scene.now.task.now) found.run) }
    ensures { let n = fluent_count scene.now.task.now in IfOk result (λ stays.
        IsStaysFor aim scene.now.task.now (plan_in scene.now) (run_found_value n found.now)
        (option_map stays_value stays)) }
{
    match aim {
        Aim::Nothing => Ok(None),
        Aim::Inside => Ok(None),
        Aim::Outside => Ok(None),
        Aim::Bad => Ok(None),
        Aim::Unfinished => Ok(None),
        Aim::Round => Ok(None),
        Aim::Lost => stays_if_found(alloc, scene, found),
        Aim::Endless => stays_if_found(alloc, scene, found),
    }
}

/// Where a plan stays after a run, where there is one.
fn stays_if_found(
    alloc: Global,
    scene: &Scene<'_>,
    found: &Option<Found<'_>>,
) -> Result<Option<Stays>, AllocError>
    requires scene { IsFollowed scene.now }
    requires reached { IfSome found.now (λ found. EndsReached scene.now found.run) }
    requires within { IfSome found.now (λ found.
        IsRunWithin (fluent_count scene.now.task.now) found.run) }
    ensures { let n = fluent_count scene.now.task.now in IfOk result (λ stays.
        AreStaysAfter scene.now.task.now (plan_in scene.now) (run_found_value n found.now)
        (option_map stays_value stays)) }
{
    match found {
        Some(found) => {
            let stays = stays_after(alloc, scene, &found.run)?;
            Ok(Some(stays))
        }
        None => Ok(None),
    }
}

fn stays_after(alloc: Global, scene: &Scene<'_>, run: &Run) -> Result<Stays, AllocError>
    requires scene { IsFollowed scene.now }
    requires reached { EndsReached scene.now run.now }
    requires within { IsRunWithin (fluent_count scene.now.task.now) run.now }
    ensures { let n = fluent_count scene.now.task.now in IfOk result (λ stays.
        AreStays (sys_in scene.now) (plan_in scene.now)
        (end_of (run_value n run.now).start (run_value n run.now).steps) (stays_value stays)) }
{
    let end = Spot {
        state: end_state(run),
        context: end_context(run),
    };
    let numbers = onward_from(alloc, scene, &end)?;
    Ok(listed(numbers))
}

/// The first of some numbers, and how many are left.
fn listed(numbers: Vec<u32>) -> Stays
    ensures { stays_value result ≡ stays_of numbers.items }
{
    let mut numbers = numbers;
    let more = numbers.len().saturating_sub(MOST_LISTED);
    numbers.truncate(MOST_LISTED);
    Stays { numbers, more }
}
