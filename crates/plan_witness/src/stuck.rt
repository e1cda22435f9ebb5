//! The shortest run to a configuration in which a plan with contexts doesn't go on.

ghost use Rattle.std.specs.Prelude.{
  ◌≡◌,
  ◌<◌,
  ◌↔◌,
  All,
  IfNone,
  IfOk,
  IfSome,
  None,
  Some,
  false,
  length,
  map,
  true,
  ℕ,
};
ghost use Rattle.task_core.specs.States.{IsWithin, vector};
ghost use Rattle.task_core.specs.Systems.{Exec};
ghost use Rattle.task_core.specs.Tasks.{action_count, fluent_count, system_of};
ghost use Rattle.plan_check.specs.Walks.{IsMarked};
ghost use Rattle.rule_lookup.specs.RunRules.{IsRunRuleOf};
ghost use Rattle.plan_rules.specs.Denoted.{next_context};
ghost use Rattle.plan_rules.specs.Plans.{IsPlanOf};
ghost use Rattle.plan_rules.specs.Rules.{automaton, context_rule_of, next_of, plain_of};
ghost use Rattle.exec_graph.specs.Executions.{IsReachedBy, IsStuckAt};
ghost use Rattle.exec_graph.specs.Values.{IsWithinFluents, graph_size};
ghost use Rattle.plan_witness.specs.Ends.{IsLostAt, LosesOutcome};
ghost use Rattle.plan_witness.specs.Marked.{IsGraphIn, place_at};
ghost use Rattle.plan_witness.specs.Runs.{IsShortestRun, NoneReached, end_of};
ghost use Rattle.plan_witness.specs.Values.{run_value};
ghost use Rattle.plan_witness.specs.Within.{IsRunWithin};

use crate::rules::counting_rule;
use crate::runs::{Run, shortest_run};
use crate::scenes::Scene;
use exec_graph::{Graph, Steps};
use plan_rules::{AutoRule, Plan, context_in, onward_of};
use std::alloc::{AllocError, Global};
use std::sync::ledger::Ledger;
use task_core::{State, Task, in_space, is_exec, outcome_count, step};

/// A shortest run to a configuration in which the plan doesn't go on: it has no rule there, or no next
/// context for an outcome. `None` exactly where the plan may reach no such configuration; so for every
/// table.
pub fn stuck_run<L: Ledger>(
    alloc: Global,
    task: &Task,
    plan: &Plan,
    graph: &Graph,
    steps: &mut Steps<L>,
) -> Result<Option<Run>, AllocError>
    requires plan { IsPlanOf (fluent_count task.now) (action_count task.now) plan.now }
    requires graph { IsGraphIn task.now plan.now graph.now }
    requires within { IsWithinFluents (fluent_count task.now) graph.now }
    ensures shortest { let n = fluent_count task.now in let sys = system_of task.now in
        IfOk result (λ found. IfSome found (λ run. IsShortestRun sys (plain_of plan.now)
        (IsStuckAt sys (plain_of plan.now)) (run_value n run))) }
    ensures within { IfOk result (λ found. IfSome found (IsRunWithin (fluent_count task.now))) }
    ensures reached { let n = fluent_count task.now in IfOk result (λ found. IfSome found (λ run.
        IsReachedBy (system_of task.now) (plain_of plan.now)
        (end_of (run_value n run).start (run_value n run).steps))) }
    ensures none { let sys = system_of task.now in IfOk result (λ found.
        IfNone found (NoneReached sys (plain_of plan.now) (IsStuckAt sys (plain_of plan.now)))) }
{
    let marks = stuck_marks(alloc, task, plan, graph)?;
    let scene = Scene { task, plan, graph };
    shortest_run(alloc, &scene, &marks, steps)
}

/// A mark for each configuration in which the plan doesn't go on.
fn stuck_marks(
    alloc: Global,
    task: &Task,
    plan: &Plan,
    graph: &Graph,
) -> Result<Vec<bool>, AllocError>
    requires plan { IsPlanOf (fluent_count task.now) (action_count task.now) plan.now }
    requires within { IsWithinFluents (fluent_count task.now) graph.now }
    ensures count { IfOk result (λ marks. length marks.items ≡ graph_size graph.now) }
    ensures marked { let n = fluent_count task.now in IfOk result (λ marks. (i : ℕ)
        → i < graph_size graph.now → IsMarked marks.items i
        ↔ IsStuckAt (system_of task.now) (plain_of plan.now) (place_at n graph.now i)) }
{
    let mut marks = Vec::new(alloc);
    for i in 0..graph.len() {
        marks.push(is_stuck_at(task, plan, graph.state(i), graph.context(i)))?;
    }
    Ok(marks)
}

/// Whether the plan doesn't go on in a state and a context.
fn is_stuck_at(task: &Task, plan: &Plan, state: &State, context: u32) -> bool
    requires plan { IsPlanOf (fluent_count task.now) (action_count task.now) plan.now }
    requires within { IsWithin (fluent_count task.now) state.now }
    ensures { let sys = system_of task.now in let v = vector (fluent_count task.now) state.now in
        (result ≡ true) ↔ IsStuckAt sys (plain_of plan.now) (record { state = v; context = context }) }
{
    match plan {
        Plan::Table(_) => false,
        Plan::Auto(auto) => is_without_next(task, &auto.rules, state, context),
    }
}

/// Whether an automaton has no rule in a state and a context, or no next context for an outcome.
fn is_without_next(task: &Task, rules: &[AutoRule], state: &State, context: u32) -> bool
    requires rules { let n = fluent_count task.now in let m = action_count task.now in
        All (λ rule. IsRunRuleOf n m (context_rule_of rule)) rules.now }
    requires within { IsWithin (fluent_count task.now) state.now }
    ensures { let sys = system_of task.now in let v = vector (fluent_count task.now) state.now in
        (result ≡ true) ↔ IsStuckAt sys (automaton 0 (map context_rule_of rules.now))
        (record { state = v; context = context }) }
{
    match counting_rule(task, rules, state, context) {
        Some(number) => loses_outcome(task, &rules[number], state),
        None => true,
    }
}

/// Whether a rule's action has an outcome in a state for which the rule has no next context.
fn loses_outcome(task: &Task, rule: &AutoRule, state: &State) -> bool
    requires rule { let n = fluent_count task.now in let m = action_count task.now in
        IsRunRuleOf n m (context_rule_of rule.now) }
    requires within { IsWithin (fluent_count task.now) state.now }
    ensures { let sys = system_of task.now in let v = vector (fluent_count task.now) state.now in
        (result ≡ true) ↔ LosesOutcome sys (context_rule_of rule.now) v }
{
    match lost_outcome(task, rule, state) {
        Some(_outcome) => true,
        None => false,
    }
}

/// The number of an outcome of a rule's action in a state for which the rule has no next context; the
/// first one.
pub fn lost_outcome(task: &Task, rule: &AutoRule, state: &State) -> Option<u32>
    requires rule { let n = fluent_count task.now in let m = action_count task.now in
        IsRunRuleOf n m (context_rule_of rule.now) }
    requires within { IsWithin (fluent_count task.now) state.now }
    ensures below { IfSome result (λ outcome.
        outcome < (system_of task.now).outcomes rule.now.action.0) }
    ensures lost { let sys = system_of task.now in let v = vector (fluent_count task.now) state.now in
        IfSome result (λ outcome. IsLostAt sys (context_rule_of rule.now) v outcome) }
    ensures loses { let sys = system_of task.now in let v = vector (fluent_count task.now) state.now in
        IfSome result (λ outcome. LosesOutcome sys (context_rule_of rule.now) v) }
    ensures none { let sys = system_of task.now in let v = vector (fluent_count task.now) state.now in
        IfNone result (LosesOutcome sys (context_rule_of rule.now) v → ⊥) }
{
    if !is_exec(task, state, rule.action) {
        return None;
    }
    for outcome in 0..outcome_count(task, rule.action) {
        if is_lost_at(task, rule, state, outcome) {
            return Some(outcome);
        }
    }
    None
}

/// Whether the outcome of a number leads to a state for which the rule has no next context.
fn is_lost_at(task: &Task, rule: &AutoRule, state: &State, outcome: u32) -> bool
    requires rule { let n = fluent_count task.now in let m = action_count task.now in
        IsRunRuleOf n m (context_rule_of rule.now) }
    requires within { IsWithin (fluent_count task.now) state.now }
    requires executable { Exec (system_of task.now) (vector (fluent_count task.now) state.now)
        rule.now.action.0 }
    requires outcome { outcome < (system_of task.now).outcomes rule.now.action.0 }
    ensures { let sys = system_of task.now in let v = vector (fluent_count task.now) state.now in
        (result ≡ true) ↔ IsLostAt sys (context_rule_of rule.now) v outcome }
{
    let after = step(task, state, rule.action, outcome);
    if !in_space(task, &after) {
        return false;
    }
    has_no_next(task, rule, &after)
}

fn has_no_next(task: &Task, rule: &AutoRule, after: &State) -> bool
    requires { let n = fluent_count task.now in let m = action_count task.now in
        IsRunRuleOf n m (context_rule_of rule.now) }
    ensures { let v = vector (fluent_count task.now) after.now in
        (result ≡ true) ↔ (next_context (next_of rule.now.next) v ≡ None) }
{
    context_in(task, &onward_of(&rule.next), after).is_none()
}
