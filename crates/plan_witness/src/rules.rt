//! The rule of a plan with contexts that counts.

ghost use Rattle.std.specs.Prelude.{◌≡◌, ◌<◌, All, IfNone, IfSome, None, length, map};
ghost use Rattle.task_core.specs.States.{vector};
ghost use Rattle.task_core.specs.Tasks.{action_count, fluent_count};
ghost use Rattle.rule_lookup.specs.RunRules.{IsRunRuleOf};
ghost use Rattle.plan_rules.specs.Denoted.{rule_at};
ghost use Rattle.plan_rules.specs.Rules.{ContextRule, context_rule_of};
ghost use Rattle.plan_witness.specs.Runs.{IsCounting, is_for};

use plan_rules::{AutoRule, has_all};
use task_core::{State, Task};

/// The number of the rule that counts in a state and a context: the first of the context that matches
/// the state.
pub fn counting_rule(task: &Task, rules: &[AutoRule], state: &State, context: u32) -> Option<usize>
    requires { let n = fluent_count task.now in let m = action_count task.now in
        All (λ rule. IsRunRuleOf n m (context_rule_of rule)) rules.now }
    ensures within { IfSome result (λ number. number < length rules.now) }
    ensures counts { IfSome result (λ number. (rule : ContextRule)
        × IsCounting (map context_rule_of rules.now)
        (record { state = vector (fluent_count task.now) state.now; context = context })
        number rule) }
    ensures none { let v = vector (fluent_count task.now) state.now in
        IfNone result (rule_at (map context_rule_of rules.now) v context ≡ None) }
{
    for number in 0..rules.len() {
        if is_for(task, &rules[number], state, context) {
            return Some(number);
        }
    }
    None
}

fn is_for(task: &Task, rule: &AutoRule, state: &State, context: u32) -> bool
    requires { let n = fluent_count task.now in let m = action_count task.now in
        IsRunRuleOf n m (context_rule_of rule.now) }
    ensures { result ≡ is_for
        (record { state = vector (fluent_count task.now) state.now; context = context })
        (context_rule_of rule.now) }
{
    rule.context == context && has_all(task, &rule.cube, state)
}
