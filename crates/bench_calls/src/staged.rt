//! Plans with contexts for the goal in computation tree logic of `domain.pddl` and `problem.pddl`,
//! found state by state.

ghost use Rattle.plan_rules.specs.Plans.{IsAutomatonOf};
ghost use Rattle.plan_rules.specs.Rules.{context_rules_of};
ghost use Rattle.std.specs.Prelude.{IfOk, IfSome};
ghost use Rattle.task_core.specs.Tasks.{action_count, fluent_count};

use crate::grounded::grounded_in_files;
use anyhow::{Result, bail};
use ctl_syntax::{ContextGoal, as_context_goal};
use ground_task::Grounded;
use plan_rules::{AutoPlan, Plan, write_plan};
use staged_search::{Allowance, Way, plan_forward, plan_listed};
use std::alloc::{AllocError, Global};
use std::io::Write;
use task_core::Task;

const ALLOWANCE: Allowance = Allowance {
    states: 20_000,
    work: 100_000_000,
};

/// Which search is asked for, and which plans.
#[derive(Clone, Copy)]
struct Asked {
    is_forward: bool,
    way: Way,
}

/// Prints the plan that is found, or that there is none.
pub(crate) fn search(rt: &HostRuntime, words: &[String]) -> Result<()> {
    let asked = asked_in(words)?;
    let grounded = grounded_in_files(rt)?;
    let goal = goal_of(rt.alloc(), &grounded)?;
    let text = staged_text(rt.alloc(), &grounded.task, &goal, asked)?;
    rt.stdout().write_all(&text)?;
    Ok(())
}

/// What the words ask for.
fn asked_in(words: &[String]) -> Result<Asked> {
    match words {
        [search, way] => Ok(Asked {
            is_forward: search.as_str() == "forward",
            way: if way.as_str() == "fair" {
                Way::Fair
            } else {
                Way::Strong
            },
        }),
        _ => bail!("use: bench_calls staged listed|forward strong|fair"),
    }
}

/// The stages or visits of the problem's goal.
fn goal_of(alloc: Global, grounded: &Grounded) -> Result<ContextGoal> {
    let Some(goal) = &grounded.ctl else {
        bail!("the problem has no :ctl-goal");
    };
    match as_context_goal(alloc, goal)? {
        Some(goal) => Ok(goal),
        None => bail!("the goal is no until-chain and no patrol goal"),
    }
}

/// The text of the plan that is found, or that there is none.
fn staged_text(
    alloc: Global,
    task: &Task,
    goal: &ContextGoal,
    asked: Asked,
) -> Result<Vec<u8>, AllocError> {
    match found(alloc, task, goal, asked)? {
        Some(plan) => write_plan(alloc, &Plan::Auto(plan), task),
        None => Vec::from_slice(alloc, b"no plan\n"),
    }
}

/// The plan that is found.
fn found(
    alloc: Global,
    task: &Task,
    goal: &ContextGoal,
    asked: Asked,
) -> Result<Option<AutoPlan>, AllocError>
    ensures { IfOk result (λ found. IfSome found (λ plan.
        IsAutomatonOf (fluent_count task.now) (action_count task.now) plan.contexts
        (context_rules_of plan))) }
{
    if asked.is_forward {
        return plan_forward(alloc, task, goal, asked.way, &ALLOWANCE);
    }
    plan_listed(alloc, task, goal, asked.way, &ALLOWANCE)
}
