//! Whether each rule of a plan serves, and no two that count somewhere differ.

ghost use Rattle.controller_rules.specs.AsRun.{HasNoDeadRule, HasOneMove};
ghost use Rattle.controller_rules.specs.Checks.{AgreeBelow, AreIndexed, ServesIn, plain_rules};
ghost use Rattle.exec_graph.specs.Graphs.{IsGraphOf};
ghost use Rattle.exec_graph.specs.Values.{graph_size, plain_graph};
ghost use Rattle.rule_lookup.specs.RunRules.{run_rules};
ghost use Rattle.plan_rules.specs.Plans.{IsPlanOf};
ghost use Rattle.plan_rules.specs.Rules.{PlainPlan, plain_of};
ghost use Rattle.std.specs.Prelude.{◌≡◌, ◌<◌, ℕ, IfOk, IsTrue, length, slice_index_or, false, true};
ghost use Rattle.task_core.specs.Tasks.{action_count, fluent_count, system_of};

use crate::run_rules::RunRules;
use exec_graph::Graph;
use plan_rules::Plan;
use std::alloc::{AllocError, Global};
use task_core::Task;

/// Whether in each configuration that a plan may reach all rules that count make the same move, and
/// each rule is the first that counts in one of them. Its graph says what it may reach. It isn't so
/// where a next context depends on the state.
pub fn rules_serve(
    alloc: Global,
    task: &Task,
    plan: &Plan,
    graph: &Graph,
) -> Result<bool, AllocError>
    requires in_task { IsPlanOf (fluent_count task.now) (action_count task.now) plan.now }
    requires graph { IsGraphOf (system_of task.now) (plain_of plan.now)
        (plain_graph (fluent_count task.now) graph.now) }
    ensures one_move { IfOk result
        (λ serve. IsTrue serve → HasOneMove (system_of task.now) (plain_of plan.now)) }
    ensures no_dead_rule { IfOk result
        (λ serve. IsTrue serve → HasNoDeadRule (system_of task.now) (plain_of plan.now)) }
{
    match RunRules::of_plan(alloc, task, plan)? {
        Some(run) => serve_in(alloc, task, &run, graph),
        None => Ok(false),
    }
}

fn serve_in(
    alloc: Global,
    task: &Task,
    run: &RunRules<'_>,
    graph: &Graph,
) -> Result<bool, AllocError>
    requires indexed { AreIndexed (fluent_count task.now) run.now }
    ensures one_move { IfOk result (λ serve. (plan : PlainPlan) → IsTrue serve
        → plain_rules run.now ≡ run_rules plan
        → IsGraphOf (system_of task.now) plan (plain_graph (fluent_count task.now) graph.now)
        → HasOneMove (system_of task.now) plan) }
    ensures no_dead_rule { IfOk result (λ serve. (plan : PlainPlan) → IsTrue serve
        → plain_rules run.now ≡ run_rules plan
        → IsGraphOf (system_of task.now) plan (plain_graph (fluent_count task.now) graph.now)
        → HasNoDeadRule (system_of task.now) plan) }
{
    let mut served = vec![in alloc; false; run.rules.len()]?;
    if !agree_everywhere(task, run, graph, &mut served) {
        return Ok(false);
    }
    Ok(are_all(&served))
}

/// Whether the rules agree in each configuration of a graph. The first that counts in one of them is
/// marked as one that serves.
fn agree_everywhere(task: &Task, run: &RunRules<'_>, graph: &Graph, served: &mut [bool]) -> bool
    requires indexed { AreIndexed (fluent_count task.now) run.now }
    requires marks { length served.old ≡ length run.now.rules.items }
    requires none { (k : ℕ) → slice_index_or served.old k false ≡ true → ⊥ }
    ensures one_move { IsTrue result → AgreeBelow (plain_rules run.now)
        (plain_graph (fluent_count task.now) graph.now) (graph_size graph.now) }
    ensures served { (k : ℕ) → slice_index_or served.new k false ≡ true
        → ServesIn (plain_rules run.now) (plain_graph (fluent_count task.now) graph.now) k }
{
    for number in 0..graph.len() {
        let state = graph.state(number);
        let context = graph.context(number);
        if !run.agree_in(task, state, context, served) {
            return false;
        }
    }
    true
}

fn are_all(marks: &[bool]) -> bool
    ensures { IsTrue result → (k : ℕ) → k < length marks.now
        → slice_index_or marks.now k false ≡ true }
{
    for mark in marks {
        if !*mark {
            return false;
        }
    }
    true
}
