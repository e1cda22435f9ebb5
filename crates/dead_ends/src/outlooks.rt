//! Whether there is a plan of a class from a state.

ghost use Rattle.dead_ends.specs.Started.{HasOutlook, IsLike, StartsAt};
ghost use Rattle.dead_ends.specs.ToldRuns.{IsFirstDeadEnd};
ghost use Rattle.std.specs.List.{All};
ghost use Rattle.std.specs.Prelude.{IfOk, IfSome, IsSome, map};
ghost use Rattle.task_core.specs.States.{IsWithin, vector};
ghost use Rattle.task_core.specs.Tasks.{fluent_count, system_of};

use crate::planners::Planner;
use plan_rules::Class;
use plan_theory::Found;
use std::alloc::{AllocError, Global};
use task_core::{InitSpec, State, Task};

/// What is looked for, and by which planner.
pub(crate) struct Wanted<'a, P> {
    pub(crate) class: Class,
    pub(crate) planner: &'a P,
}

impl<P> Drop for Wanted<'_, P> {
    fn drop(self) {
        let Wanted {
            class: _,
            planner: _,
        } = self;
    }
}

/// What there is from a state.
#[derive(Drop)]
pub(crate) enum Outlook {
    /// A plan.
    Plan,
    /// No plan.
    DeadEnd,
    /// The planner can't tell.
    Unknown,
}

/// The first of some states from which there is no plan of the class; `None` where there is a plan from
/// each, and where the planner can't tell. The task goes on with another initial state.
pub(crate) fn first_dead_end<P: Planner>(
    alloc: Global,
    wanted: &Wanted<'_, P>,
    task: &mut Task,
    states: &[State],
) -> Result<Option<usize>, AllocError>
    requires fits { P.fits wanted.now.planner.now }
    requires goal { IsSome task.old.goal }
    requires within { All (IsWithin (fluent_count task.old)) states.now }
    ensures dead { let n = fluent_count task.old in IfOk result (λ found. IfSome found
        (IsFirstDeadEnd wanted.now.class (system_of task.old) (map (vector n) states.now))) }
    ensures like { IsLike task.old task.new }
{
    for place in 0..states.len() {
        match outlook_from(alloc, wanted, task, &states[place])? {
            Outlook::Plan => {}
            Outlook::DeadEnd => return Ok(Some(place)),
            Outlook::Unknown => return Ok(None),
        }
    }
    Ok(None)
}

/// What there is from a state. The task goes on with it as its only initial state.
fn outlook_from<P: Planner>(
    alloc: Global,
    wanted: &Wanted<'_, P>,
    task: &mut Task,
    state: &State,
) -> Result<Outlook, AllocError>
    requires fits { P.fits wanted.now.planner.now }
    requires goal { IsSome task.old.goal }
    requires within { IsWithin (fluent_count task.old) state.now }
    ensures outlook { IfOk result (HasOutlook wanted.now.class (system_of task.old)
        (vector (fluent_count task.old) state.now)) }
    ensures like { IsLike task.old task.new }
{
    start_at(alloc, task, state);
    match wanted.planner.find(alloc, wanted.class, task)? {
        Some(Found::Plan(_)) => Ok(Outlook::Plan),
        Some(Found::NoPlan) => Ok(Outlook::DeadEnd),
        None => Ok(Outlook::Unknown),
    }
}

/// Makes a state the only initial state of a task.
pub(crate) fn start_at(alloc: Global, task: &mut Task, state: &State)
    requires { IsWithin (fluent_count task.old) state.now }
    ensures starts { StartsAt (vector (fluent_count task.old) state.now) task.new }
    ensures like { IsLike task.old task.new }
{
    task.init = InitSpec {
        facts: *state,
        entries: Vec::new(alloc),
    };
}
