//! A shortest run of a weak plan to the goal.

ghost use Rattle.exec_graph.specs.Values.{IsWithinFluents};
ghost use Rattle.plan_rules.specs.Plans.{IsPlanOf};
ghost use Rattle.plan_rules.specs.Rules.{plain_of};
ghost use Rattle.plan_witness.specs.Ends.{IsEndInside};
ghost use Rattle.plan_witness.specs.Marked.{IsGraphIn};
ghost use Rattle.plan_witness.specs.Runs.{IsShortestRun};
ghost use Rattle.plan_witness.specs.Values.{run_value};
ghost use Rattle.plan_witness.specs.Within.{IsRunWithin};
ghost use Rattle.std.specs.Prelude.{◌≡◌, ◌<◌, IfOk, IfSome, IsSome};
ghost use Rattle.task_core.specs.Tasks.{action_count, fluent_count, system_of};
ghost use Rattle.dead_ends.specs.ToldRuns.{IsWeakRun};

use crate::planners::Planner;
use exec_graph::{Graph, GraphErr, Steps, explore};
use plan_rules::{Class, Plan};
use plan_theory::Found;
use plan_witness::{Run, goal_run};
use std::alloc::{AllocError, Global};
use std::marker::Brand;
use std::sync::ledger::{Blank, Ledger};
use task_core::Task;

/// A shortest run of a weak plan to the goal; `None` where there is no weak plan, and where the planner
/// can't tell or the plan reaches too many states.
pub(crate) fn weak_run<P: Planner>(
    alloc: Global,
    planner: &P,
    task: &Task,
) -> Result<Option<Run>, AllocError>
    requires fits { P.fits planner.now }
    requires goal { IsSome task.now.goal }
    ensures weak { let n = fluent_count task.now in IfOk result (λ found. IfSome found (λ run.
        IsWeakRun (system_of task.now) (run_value n run))) }
    ensures within { IfOk result (λ found. IfSome found (IsRunWithin (fluent_count task.now))) }
{
    match planner.find(alloc, Class::Weak, task)? {
        Some(Found::Plan(table)) => run_of(alloc, task, &Plan::Table(table)),
        Some(Found::NoPlan) | None => Ok(None),
    }
}

/// A shortest run of a plan to a goal state in which it ends; `None` where the plan reaches too many
/// states.
fn run_of(alloc: Global, task: &Task, plan: &Plan) -> Result<Option<Run>, AllocError>
    requires goal { IsSome task.now.goal }
    requires plan { IsPlanOf (fluent_count task.now) (action_count task.now) plan.now }
    ensures shortest { let n = fluent_count task.now in let sys = system_of task.now in
        IfOk result (λ found. IfSome found (λ run. IsShortestRun sys (plain_of plan.now)
        (IsEndInside sys (plain_of plan.now)) (run_value n run))) }
    ensures within { IfOk result (λ found. IfSome found (IsRunWithin (fluent_count task.now))) }
{
    match explore(alloc, task, plan) {
        Ok(graph) => run_in::<Brand>(alloc, task, plan, &graph, Blank::new(1)),
        Err(GraphErr::Memory) => Err(AllocError),
        Err(_) => Ok(None),
    }
}

/// The same, read off the graph of the plan, with the steps counted in a new ledger.
fn run_in<L: Ledger>(
    alloc: Global,
    task: &Task,
    plan: &Plan,
    graph: &Graph,
    blank: Blank,
) -> Result<Option<Run>, AllocError>
    requires goal { IsSome task.now.goal }
    requires plan { IsPlanOf (fluent_count task.now) (action_count task.now) plan.now }
    requires graph { IsGraphIn task.now plan.now graph.now }
    requires inside { IsWithinFluents (fluent_count task.now) graph.now }
    requires name { blank.name ≡ L.name }
    requires parts { blank.parts ≡ L.parts }
    requires some { 0 < blank.parts }
    ensures shortest { let n = fluent_count task.now in let sys = system_of task.now in
        IfOk result (λ found. IfSome found (λ run. IsShortestRun sys (plain_of plan.now)
        (IsEndInside sys (plain_of plan.now)) (run_value n run))) }
    ensures within { IfOk result (λ found. IfSome found (IsRunWithin (fluent_count task.now))) }
{
    let mut steps = Steps::<L>::new(blank);
    goal_run(alloc, task, plan, graph, &mut steps)
}
