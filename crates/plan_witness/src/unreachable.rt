//! The shortest runs that show that the goal, or an end, is out of reach, or in reach.

ghost use Rattle.std.specs.Prelude.{
  ◌≡◌,
  ◌<◌,
  ◌↔◌,
  IfNone,
  IfOk,
  IfSome,
  IsSome,
  [],
  false,
  length,
  true,
  ℕ,
};
ghost use Rattle.task_core.specs.Tasks.{action_count, fluent_count, system_of};
ghost use Rattle.plan_check.specs.Plain.{HasFollowersInside, HasPredecessors};
ghost use Rattle.plan_check.specs.Walks.{IsMarked, LeadsToMarked};
ghost use Rattle.plan_rules.specs.Plans.{IsPlanOf};
ghost use Rattle.plan_rules.specs.Rules.{plain_of};
ghost use Rattle.exec_graph.specs.Executions.{IsReachedBy};
ghost use Rattle.exec_graph.specs.Values.{IsWithinFluents, followers_at, graph_size};
ghost use Rattle.plan_witness.specs.Ends.{IsEndInside, IsEndless, IsLostStart};
ghost use Rattle.plan_witness.specs.Leading.{IsMarkedStart};
ghost use Rattle.plan_witness.specs.Marked.{IsGraphIn};
ghost use Rattle.plan_witness.specs.Runs.{IsShortestRun, NoneReached, end_of};
ghost use Rattle.plan_witness.specs.Values.{run_value};
ghost use Rattle.plan_witness.specs.Within.{IsRunWithin};

use crate::runs::{Run, shortest_run};
use crate::scenes::Scene;
use exec_graph::{Graph, Steps};
use plan_check::{goal_ends, is_marked, mark_leading, negated};
use plan_rules::Plan;
use std::alloc::{AllocError, Global};
use std::sync::ledger::Ledger;
use task_core::Task;

/// A shortest run to a configuration from which no path of the plan leads to an end; `None` exactly
/// where the plan may reach no such configuration.
pub fn endless_run<L: Ledger>(
    alloc: Global,
    task: &Task,
    plan: &Plan,
    graph: &Graph,
    steps: &mut Steps<L>,
) -> Result<Option<Run>, AllocError>
    requires plan { IsPlanOf (fluent_count task.now) (action_count task.now) plan.now }
    requires graph { IsGraphIn task.now plan.now graph.now }
    requires within { IsWithinFluents (fluent_count task.now) graph.now }
    ensures shortest { let n = fluent_count task.now in let sys = system_of task.now in
        IfOk result (λ found. IfSome found (λ run. IsShortestRun sys (plain_of plan.now)
        (IsEndless sys (plain_of plan.now)) (run_value n run))) }
    ensures within { IfOk result (λ found. IfSome found (IsRunWithin (fluent_count task.now))) }
    ensures reached { let n = fluent_count task.now in IfOk result (λ found. IfSome found (λ run.
        IsReachedBy (system_of task.now) (plain_of plan.now)
        (end_of (run_value n run).start (run_value n run).steps))) }
    ensures none { let sys = system_of task.now in IfOk result (λ found.
        IfNone found (NoneReached sys (plain_of plan.now) (IsEndless sys (plain_of plan.now)))) }
{
    let ends = ends_of(alloc, graph)?;
    let marks = not_leading(alloc, graph, &ends, steps)?;
    let scene = Scene { task, plan, graph };
    shortest_run(alloc, &scene, &marks, steps)
}

/// The run of no step in an initial state from which no path of the plan leads to an end in a goal
/// state; `None` exactly where there is no such state.
pub fn lost_run<L: Ledger>(
    alloc: Global,
    task: &Task,
    plan: &Plan,
    graph: &Graph,
    steps: &mut Steps<L>,
) -> Result<Option<Run>, AllocError>
    requires goal { IsSome task.now.goal }
    requires plan { IsPlanOf (fluent_count task.now) (action_count task.now) plan.now }
    requires graph { IsGraphIn task.now plan.now graph.now }
    requires within { IsWithinFluents (fluent_count task.now) graph.now }
    ensures shortest { let n = fluent_count task.now in let sys = system_of task.now in
        IfOk result (λ found. IfSome found (λ run. IsShortestRun sys (plain_of plan.now)
        (IsLostStart sys (plain_of plan.now)) (run_value n run))) }
    ensures within { IfOk result (λ found. IfSome found (IsRunWithin (fluent_count task.now))) }
    ensures reached { let n = fluent_count task.now in IfOk result (λ found. IfSome found (λ run.
        IsReachedBy (system_of task.now) (plain_of plan.now)
        (end_of (run_value n run).start (run_value n run).steps))) }
    ensures none { let sys = system_of task.now in IfOk result (λ found.
        IfNone found (NoneReached sys (plain_of plan.now) (IsLostStart sys (plain_of plan.now)))) }
{
    let ends = goal_ends(alloc, task.goal.as_ref().unwrap(), graph)?;
    let lost = not_leading(alloc, graph, &ends, steps)?;
    let marks = starts_among(alloc, graph, &lost)?;
    let scene = Scene { task, plan, graph };
    shortest_run(alloc, &scene, &marks, steps)
}

/// A shortest run to a goal state in which the plan ends; `None` exactly where the plan may reach no
/// such state.
pub fn goal_run<L: Ledger>(
    alloc: Global,
    task: &Task,
    plan: &Plan,
    graph: &Graph,
    steps: &mut Steps<L>,
) -> Result<Option<Run>, AllocError>
    requires goal { IsSome task.now.goal }
    requires plan { IsPlanOf (fluent_count task.now) (action_count task.now) plan.now }
    requires graph { IsGraphIn task.now plan.now graph.now }
    requires within { IsWithinFluents (fluent_count task.now) graph.now }
    ensures shortest { let n = fluent_count task.now in let sys = system_of task.now in
        IfOk result (λ found. IfSome found (λ run. IsShortestRun sys (plain_of plan.now)
        (IsEndInside sys (plain_of plan.now)) (run_value n run))) }
    ensures within { IfOk result (λ found. IfSome found (IsRunWithin (fluent_count task.now))) }
    ensures reached { let n = fluent_count task.now in IfOk result (λ found. IfSome found (λ run.
        IsReachedBy (system_of task.now) (plain_of plan.now)
        (end_of (run_value n run).start (run_value n run).steps))) }
    ensures none { let sys = system_of task.now in IfOk result (λ found.
        IfNone found (NoneReached sys (plain_of plan.now) (IsEndInside sys (plain_of plan.now)))) }
{
    let marks = goal_ends(alloc, task.goal.as_ref().unwrap(), graph)?;
    let scene = Scene { task, plan, graph };
    shortest_run(alloc, &scene, &marks, steps)
}

/// A mark for each configuration that none follows.
fn ends_of(alloc: Global, graph: &Graph) -> Result<Vec<bool>, AllocError>
    ensures count { IfOk result (λ marks. length marks.items ≡ graph_size graph.now) }
    ensures marked { IfOk result (λ marks. (i : ℕ) → i < graph_size graph.now
        → IsMarked marks.items i ↔ (followers_at graph.now i ≡ [])) }
{
    let mut marks = Vec::new(alloc);
    for i in 0..graph.len() {
        marks.push(is_end(graph, i))?;
    }
    Ok(marks)
}

/// Whether none follows a configuration.
fn is_end(graph: &Graph, number: u32) -> bool
    requires { number < graph_size graph.now }
    ensures { (result ≡ true) ↔ (followers_at graph.now number ≡ []) }
{
    graph.next_len(number) == 0
}

/// A mark for each configuration from which no walk leads to one of the ends.
fn not_leading<L: Ledger>(
    alloc: Global,
    graph: &Graph,
    ends: &[bool],
    steps: &mut Steps<L>,
) -> Result<Vec<bool>, AllocError>
    requires inside { HasFollowersInside graph.now }
    requires turned { HasPredecessors graph.now }
    requires count { length ends.now ≡ graph_size graph.now }
    ensures count { IfOk result (λ marks. length marks.items ≡ graph_size graph.now) }
    ensures marked { IfOk result (λ marks. (i : ℕ) → i < graph_size graph.now
        → IsMarked marks.items i ↔ (LeadsToMarked (followers_at graph.now) ends.now i → ⊥)) }
{
    let mut lead = Vec::from_slice(alloc, ends)?;
    mark_leading(alloc, graph, &mut lead, steps)?;
    negated(alloc, &lead)
}

/// A mark for each configuration with one in which an execution may begin.
fn starts_among(alloc: Global, graph: &Graph, marks: &[bool]) -> Result<Vec<bool>, AllocError>
    requires { length marks.now ≡ graph_size graph.now }
    ensures count { IfOk result (λ starts. length starts.items ≡ graph_size graph.now) }
    ensures marked { IfOk result (λ starts. (i : ℕ) → i < graph_size graph.now
        → IsMarked starts.items i ↔ IsMarkedStart graph.now marks.now i) }
{
    let mut starts = Vec::new(alloc);
    for i in 0..graph.len() {
        starts.push(is_marked_start(graph, marks, i))?;
    }
    Ok(starts)
}

/// Whether an execution may begin in a configuration, and it has a mark.
fn is_marked_start(graph: &Graph, marks: &[bool], number: u32) -> bool
    requires count { length marks.now ≡ graph_size graph.now }
    requires number { number < graph_size graph.now }
    ensures { (result ≡ true) ↔ IsMarkedStart graph.now marks.now number }
{
    if !graph.initial(number) {
        return false;
    }
    is_marked(marks, number)
}
