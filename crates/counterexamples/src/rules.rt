//! The rule that counts where a run ends.

ghost use Rattle.exec_graph.specs.Executions.{HasBadAction, HasBadRule, IsUnexecutableAt};
ghost use Rattle.counterexamples.specs.Findings.{CountsAt, CountsInContext, CountsInTable};
ghost use Rattle.rule_lookup.specs.RunRules.{IsRunRuleOf};
ghost use Rattle.plan_rules.specs.Denoted.{denoted_contexts, rule_at};
ghost use Rattle.plan_rules.specs.Plans.{IsPlanOf, IsRuleOf};
ghost use Rattle.plan_rules.specs.Rules.{context_rule_of, plain_of, rule_of};
ghost use Rattle.std.specs.Prelude.{◌≡◌, ◌<◌, All, IfNone, IfSome, None, map};
ghost use Rattle.task_core.specs.States.{IsWithin, vector};
ghost use Rattle.task_core.specs.Systems.{Exec};
ghost use Rattle.task_core.specs.Tasks.{action_count, fluent_count, system_of};

use plan_rules::{AutoRule, Plan, Rule};
use plan_witness::{bad_rule_number, counting_rule};
use task_core::{ActionId, State, Task, is_exec};

/// A rule by its number in the plan's text, with its action.
#[derive(Clone, Copy)]
pub(crate) struct Chosen {
    pub(crate) number: usize,
    pub(crate) action: ActionId,
}

/// A rule that counts in a state and a context and whose action can't be executed there.
pub(crate) fn bad_rule(task: &Task, plan: &Plan, state: &State, context: u32) -> Option<Chosen>
    requires plan { IsPlanOf (fluent_count task.now) (action_count task.now) plan.now }
    requires inside { IsWithin (fluent_count task.now) state.now }
    ensures counts { let v = vector (fluent_count task.now) state.now in
        IfSome result (λ chosen. CountsAt (plain_of plan.now)
        (record { state = v; context = context }) chosen.number chosen.action.0) }
    ensures refused { let v = vector (fluent_count task.now) state.now in
        IfSome result (λ chosen. Exec (system_of task.now) v chosen.action.0 → ⊥) }
    ensures below { IfSome result (λ chosen. chosen.action.0 < action_count task.now) }
    ensures none { let v = vector (fluent_count task.now) state.now in
        IfNone result (IsUnexecutableAt (system_of task.now) (plain_of plan.now)
        (record { state = v; context = context }) → ⊥) }
{
    match plan {
        Plan::Table(table) => bad_table_rule(task, &table.rules, state),
        Plan::Auto(auto) => bad_context_rule(task, &auto.rules, state, context),
    }
}

/// A rule of a table that matches a state and whose action can't be executed there.
fn bad_table_rule(task: &Task, rules: &[Rule], state: &State) -> Option<Chosen>
    requires rules { let n = fluent_count task.now in let m = action_count task.now in
        All (λ rule. IsRuleOf n m (rule_of rule)) rules.now }
    requires inside { IsWithin (fluent_count task.now) state.now }
    ensures counts { let v = vector (fluent_count task.now) state.now in
        IfSome result (λ chosen. CountsInTable (map rule_of rules.now) v chosen.number
        chosen.action.0) }
    ensures refused { let v = vector (fluent_count task.now) state.now in
        IfSome result (λ chosen. Exec (system_of task.now) v chosen.action.0 → ⊥) }
    ensures below { IfSome result (λ chosen. chosen.action.0 < action_count task.now) }
    ensures none { let v = vector (fluent_count task.now) state.now in
        IfNone result (HasBadRule (system_of task.now) (map rule_of rules.now) v → ⊥) }
{
    let number = bad_rule_number(task, rules, state)?;
    Some(Chosen {
        number,
        action: rules[number].action,
    })
}

/// The rule that counts in a state and a context, where its action can't be executed there.
fn bad_context_rule(task: &Task, rules: &[AutoRule], state: &State, context: u32) -> Option<Chosen>
    requires rules { let n = fluent_count task.now in let m = action_count task.now in
        All (λ rule. IsRunRuleOf n m (context_rule_of rule)) rules.now }
    requires inside { IsWithin (fluent_count task.now) state.now }
    ensures counts { let v = vector (fluent_count task.now) state.now in
        IfSome result (λ chosen. CountsInContext (map context_rule_of rules.now)
        (record { state = v; context = context }) chosen.number chosen.action.0) }
    ensures refused { let v = vector (fluent_count task.now) state.now in
        IfSome result (λ chosen. Exec (system_of task.now) v chosen.action.0 → ⊥) }
    ensures below { IfSome result (λ chosen. chosen.action.0 < action_count task.now) }
    ensures none { let v = vector (fluent_count task.now) state.now in
        IfNone result (HasBadAction (system_of task.now)
        (denoted_contexts (map context_rule_of rules.now))
        (record { state = v; context = context }) → ⊥) }
{
    let chosen = context_rule(task, rules, state, context)?;
    if is_exec(task, state, chosen.action) {
        return None;
    }
    Some(chosen)
}

pub(crate) fn context_rule(
    task: &Task,
    rules: &[AutoRule],
    state: &State,
    context: u32,
) -> Option<Chosen>
    requires { let n = fluent_count task.now in let m = action_count task.now in
        All (λ rule. IsRunRuleOf n m (context_rule_of rule)) rules.now }
    ensures counts { let v = vector (fluent_count task.now) state.now in
        IfSome result (λ chosen. CountsInContext (map context_rule_of rules.now)
        (record { state = v; context = context }) chosen.number chosen.action.0) }
    ensures below { IfSome result (λ chosen. chosen.action.0 < action_count task.now) }
    ensures none { let v = vector (fluent_count task.now) state.now in
        IfNone result (rule_at (map context_rule_of rules.now) v context ≡ None) }
{
    let number = counting_rule(task, rules, state, context)?;
    Some(Chosen {
        number,
        action: rules[number].action,
    })
}
