//! The step that a plan takes from a configuration to another.

ghost use Rattle.std.specs.Prelude.{
  ◌≡◌,
  ◌<◌,
  All,
  IfNone,
  IfSome,
  None,
  OnSome,
  Some,
  length,
  map,
  true,
  ℕ,
};
ghost use Rattle.task_core.specs.ContextPlans.{Follows, first_context};
ghost use Rattle.task_core.specs.Cubes.{matches};
ghost use Rattle.task_core.specs.States.{IsWithin, vector};
ghost use Rattle.task_core.specs.Systems.{Exec, HasOutcome};
ghost use Rattle.task_core.specs.Tables.{Leads};
ghost use Rattle.task_core.specs.Tasks.{action_count, fluent_count, system_of};
ghost use Rattle.plan_rules.specs.Denoted.{denoted, denoted_contexts, rule_at};
ghost use Rattle.rule_lookup.specs.RunRules.{IsRunRuleOf};
ghost use Rattle.plan_rules.specs.Plans.{IsPlanOf, IsRuleOf};
ghost use Rattle.plan_rules.specs.Rules.{ContextRule, context_rule_of, plain_of, rule_of};
ghost use Rattle.exec_graph.specs.Executions.{GoesTo};
ghost use Rattle.plan_witness.specs.Runs.{IsContextStep, IsCounting, IsStepOf, IsTableStep};
ghost use Rattle.plan_witness.specs.Scenes.{place_of};

use crate::rules::counting_rule;
use crate::scenes::Spot;
use plan_rules::{AutoRule, Plan, Rule, has_all};
use task_core::{ActionId, State, Task, in_space, is_exec, outcome_count, step};

/// A rule by its number, its action, and an outcome by its number.
#[derive(Clone, Copy)]
pub(crate) struct Taken {
    pub(crate) rule: usize,
    pub(crate) action: ActionId,
    pub(crate) outcome: u32,
}

/// The step that the plan takes from a state and a context to others that follow.
pub(crate) fn taken_between(task: &Task, plan: &Plan, from: &Spot<'_>, to: &Spot<'_>) -> Taken
    requires plan { IsPlanOf (fluent_count task.now) (action_count task.now) plan.now }
    requires from { IsWithin (fluent_count task.now) from.now.state.now }
    requires to { IsWithin (fluent_count task.now) to.now.state.now }
    requires follows { let n = fluent_count task.now in
        GoesTo (system_of task.now) (plain_of plan.now) (place_of n from.now) (place_of n to.now) }
    ensures step { let n = fluent_count task.now in
        IsStepOf (system_of task.now) (plain_of plan.now) (place_of n from.now)
        (record {
          rule = result.rule;
          action = result.action.0;
          outcome = result.outcome;
          after = place_of n to.now;
        }) }
{
    match plan {
        Plan::Table(table) => in_table(task, &table.rules, from.state, to.state),
        Plan::Auto(auto) => context_step(task, &auto.rules, from, to),
    }
}

/// The first rule of a table and its first outcome that lead from a state to one that follows.
fn in_table(task: &Task, rules: &[Rule], from: &State, to: &State) -> Taken
    requires rules { let n = fluent_count task.now in let m = action_count task.now in
        All (λ rule. IsRuleOf n m (rule_of rule)) rules.now }
    requires from { IsWithin (fluent_count task.now) from.now }
    requires to { IsWithin (fluent_count task.now) to.now }
    requires follows { let n = fluent_count task.now in let sys = system_of task.now in
        Leads sys (denoted sys (map rule_of rules.now)) (vector n from.now) (vector n to.now) }
    ensures { let n = fluent_count task.now in (context : ℕ)
        → IsTableStep (system_of task.now) (map rule_of rules.now)
        (record { state = vector n from.now; context = context })
        (record {
          rule = result.rule;
          action = result.action.0;
          outcome = result.outcome;
          after = record { state = vector n to.now; context = first_context };
        }) }
{
    table_step(task, rules, from, to).unwrap()
}

/// The first rule of a table and its first outcome that lead from a state to another.
fn table_step(task: &Task, rules: &[Rule], from: &State, to: &State) -> Option<Taken>
    requires rules { let n = fluent_count task.now in let m = action_count task.now in
        All (λ rule. IsRuleOf n m (rule_of rule)) rules.now }
    requires from { IsWithin (fluent_count task.now) from.now }
    requires to { IsWithin (fluent_count task.now) to.now }
    ensures found { let n = fluent_count task.now in (context : ℕ) → IfSome result (λ taken.
        IsTableStep (system_of task.now) (map rule_of rules.now)
        (record { state = vector n from.now; context = context })
        (record {
          rule = taken.rule;
          action = taken.action.0;
          outcome = taken.outcome;
          after = record { state = vector n to.now; context = first_context };
        })) }
    ensures none { let n = fluent_count task.now in let sys = system_of task.now in IfNone result
        (Leads sys (denoted sys (map rule_of rules.now)) (vector n from.now) (vector n to.now) → ⊥) }
{
    for number in 0..rules.len() {
        let rule = &rules[number];
        match outcome_by(task, rule, from, to) {
            Some(outcome) => {
                return Some(Taken {
                    rule: number,
                    action: rule.action,
                    outcome,
                });
            }
            None => {}
        }
    }
    None
}

/// The first outcome by which a rule leads from a state to another.
fn outcome_by(task: &Task, rule: &Rule, from: &State, to: &State) -> Option<u32>
    requires rule { let n = fluent_count task.now in let m = action_count task.now in
        IsRuleOf n m (rule_of rule.now) }
    requires from { IsWithin (fluent_count task.now) from.now }
    requires to { IsWithin (fluent_count task.now) to.now }
    ensures matched { let n = fluent_count task.now in
        OnSome result (matches rule.now.cube.items (vector n from.now) ≡ true) }
    ensures below { IfSome result (λ outcome.
        outcome < (system_of task.now).outcomes rule.now.action.0) }
    ensures leads { let n = fluent_count task.now in IfSome result (λ outcome.
        (system_of task.now).after (vector n from.now) rule.now.action.0 outcome
        ≡ Some (vector n to.now)) }
    ensures none { let n = fluent_count task.now in IfNone result
        (matches rule.now.cube.items (vector n from.now) ≡ true
        → HasOutcome (system_of task.now) (vector n from.now) rule.now.action.0 (vector n to.now) → ⊥) }
{
    if !has_all(task, &rule.cube, from) {
        return None;
    }
    if !is_exec(task, from, rule.action) {
        return None;
    }
    outcome_to(task, from, rule.action, to)
}

/// The rule of an automaton that counts in a state and a context, and its first outcome that leads to
/// another state, which follows with its context.
fn context_step(task: &Task, rules: &[AutoRule], from: &Spot<'_>, to: &Spot<'_>) -> Taken
    requires rules { let n = fluent_count task.now in let m = action_count task.now in
        All (λ rule. IsRunRuleOf n m (context_rule_of rule)) rules.now }
    requires from { IsWithin (fluent_count task.now) from.now.state.now }
    requires to { IsWithin (fluent_count task.now) to.now.state.now }
    requires follows { let n = fluent_count task.now in
        Follows (system_of task.now) (denoted_contexts (map context_rule_of rules.now))
        (place_of n from.now) (place_of n to.now) }
    ensures { let n = fluent_count task.now in
        IsContextStep (system_of task.now) (map context_rule_of rules.now) (place_of n from.now)
        (record {
          rule = result.rule;
          action = result.action.0;
          outcome = result.outcome;
          after = place_of n to.now;
        }) }
{
    let number = counting_number(task, rules, from.state, from.context);
    let action = rules[number].action;
    let outcome = outcome_between(task, from.state, action, to.state);
    Taken {
        rule: number,
        action,
        outcome,
    }
}

fn counting_number(task: &Task, rules: &[AutoRule], state: &State, context: u32) -> usize
    requires rules { let n = fluent_count task.now in let m = action_count task.now in
        All (λ rule. IsRunRuleOf n m (context_rule_of rule)) rules.now }
    requires some { let v = vector (fluent_count task.now) state.now in
        rule_at (map context_rule_of rules.now) v context ≡ None → ⊥ }
    ensures within { result < length rules.now }
    ensures counts { (rule : ContextRule) × IsCounting (map context_rule_of rules.now)
        (record { state = vector (fluent_count task.now) state.now; context = context })
        result rule }
{
    counting_rule(task, rules, state, context).unwrap()
}

/// The first outcome of an action that leads from a state to one to which some outcome leads.
fn outcome_between(task: &Task, from: &State, action: ActionId, to: &State) -> u32
    requires action { action.0 < action_count task.now }
    requires from { IsWithin (fluent_count task.now) from.now }
    requires to { IsWithin (fluent_count task.now) to.now }
    requires some { let n = fluent_count task.now in
        HasOutcome (system_of task.now) (vector n from.now) action.0 (vector n to.now) }
    ensures below { result < (system_of task.now).outcomes action.0 }
    ensures leads { let n = fluent_count task.now in
        (system_of task.now).after (vector n from.now) action.0 result ≡ Some (vector n to.now) }
{
    outcome_to(task, from, action, to).unwrap()
}

/// The first outcome of an action that leads from a state to another.
fn outcome_to(task: &Task, from: &State, action: ActionId, to: &State) -> Option<u32>
    requires action { action.0 < action_count task.now }
    requires from { IsWithin (fluent_count task.now) from.now }
    requires to { IsWithin (fluent_count task.now) to.now }
    requires executable { Exec (system_of task.now) (vector (fluent_count task.now) from.now) action.0 }
    ensures below { IfSome result (λ outcome. outcome < (system_of task.now).outcomes action.0) }
    ensures leads { let n = fluent_count task.now in IfSome result (λ outcome.
        (system_of task.now).after (vector n from.now) action.0 outcome ≡ Some (vector n to.now)) }
    ensures none { let n = fluent_count task.now in IfNone result
        (HasOutcome (system_of task.now) (vector n from.now) action.0 (vector n to.now) → ⊥) }
{
    if !in_space(task, to) {
        return None;
    }
    for outcome in 0..outcome_count(task, action) {
        if step(task, from, action, outcome) == *to {
            return Some(outcome);
        }
    }
    None
}
