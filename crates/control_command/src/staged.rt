//! Plans with contexts that are found state by state: for patrols where few states can be reached, and
//! for all goals where the sets of states don't fit. Those whose actions may be tried again are looked for
//! in the same two ways. Conditions are asked in each state, in their short forms.

ghost use Rattle.plan_rules.specs.Plans.{IsAutomatonOf};
ghost use Rattle.plan_rules.specs.Rules.{context_rules_of};
ghost use Rattle.std.specs.Prelude.{IfSome};
ghost use Rattle.task_core.specs.Tasks.{action_count, fluent_count};

use crate::allowances::staged_allowance_for;
use crate::context_searches::is_short;
use crate::followed::Followed;
use crate::searches::{Stop, follow_plan};
use ctl_syntax::{ContextGoal, as_context_goal};
use ground_task::Grounded;
use plan_rules::{AutoPlan, Plan};
use short_conditions::short_task;
use staged_search::{Allowance, Way, plan_forward, plan_listed};
use std::alloc::{AllocError, Global};
use task_core::Task;

/// What a search among all states may do.
const FEW: Allowance = Allowance {
    states: 4_096,
    work: 4_000_000,
};

/// What a search forward may do.
const MANY: Allowance = Allowance {
    states: 200_000,
    work: 300_000_000,
};

/// What the plan for a patrol goal reaches that goes a shortest way to each visit, if few states can be
/// reached and there is one.
pub(crate) fn follow_nearest(alloc: Global, grounded: &Grounded) -> Result<Option<Followed>, Stop> {
    match short_goal(alloc, grounded)? {
        Some(goal) if is_patrol(&goal) => {
            let task = short_task(alloc, &grounded.task)?;
            let few = staged_allowance_for(&task, &FEW);
            let found = plan_listed(alloc, &task, &goal, Way::Strong, &few)?;
            follow_if_found(alloc, &task, found)
        }
        _ => Ok(None),
    }
}

/// What a plan reaches that is found by a heuristic search forward, if one is.
pub(crate) fn follow_forward(alloc: Global, grounded: &Grounded) -> Result<Option<Followed>, Stop> {
    match short_goal(alloc, grounded)? {
        Some(goal) => {
            let task = short_task(alloc, &grounded.task)?;
            let many = staged_allowance_for(&task, &MANY);
            let found = plan_forward(alloc, &task, &goal, Way::Strong, &many)?;
            follow_if_found(alloc, &task, found)
        }
        None => Ok(None),
    }
}

/// The plan for a patrol goal whose actions may be tried again that goes a shortest way to each visit, if
/// few states can be reached and there is one.
pub(crate) fn fair_nearest(
    alloc: Global,
    task: &Task,
    goal: &ContextGoal,
) -> Result<Option<AutoPlan>, AllocError> {
    if is_patrol(goal) {
        let short = short_task(alloc, task)?;
        let few = staged_allowance_for(&short, &FEW);
        plan_listed(alloc, &short, goal, Way::Fair, &few)
    } else {
        Ok(None)
    }
}

/// A plan for a goal whose actions may be tried again that is found by a heuristic search forward, if one
/// is.
pub(crate) fn fair_forward(
    alloc: Global,
    task: &Task,
    goal: &ContextGoal,
) -> Result<Option<AutoPlan>, AllocError> {
    let short = short_task(alloc, task)?;
    let many = staged_allowance_for(&short, &MANY);
    plan_forward(alloc, &short, goal, Way::Fair, &many)
}

/// The goal, if it is an until-chain or a patrol goal with few stages or visits.
fn short_goal(alloc: Global, grounded: &Grounded) -> Result<Option<ContextGoal>, AllocError> {
    match &grounded.ctl {
        Some(goal) => Ok(as_context_goal(alloc, goal)?.filter(is_short)),
        None => Ok(None),
    }
}

/// Whether it is a patrol goal.
fn is_patrol(goal: &ContextGoal) -> bool {
    match goal {
        ContextGoal::Patrol(_) => true,
        ContextGoal::Until(_) => false,
    }
}

/// What a plan reaches, if there is one.
fn follow_if_found(
    alloc: Global,
    task: &Task,
    found: Option<AutoPlan>,
) -> Result<Option<Followed>, Stop>
    requires { IfSome found (λ plan. IsAutomatonOf (fluent_count task.now) (action_count task.now)
        plan.contexts (context_rules_of plan)) }
{
    match found {
        Some(plan) => {
            let followed = follow_plan(alloc, task, &Plan::Auto(plan))?;
            Ok(Some(followed))
        }
        None => Ok(None),
    }
}
