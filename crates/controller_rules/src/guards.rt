//! Whether rules ask for the preconditions of their actions.

ghost use Rattle.controller_rules.specs.Guards.{
  AreGuarded,
  HasValueIn,
  IsGuardedRule,
  precondition_in,
};
ghost use Rattle.rule_lookup.specs.RunRules.{in_one_context};
ghost use Rattle.plan_rules.specs.Rules.{context_rule_of, plain_of, rule_of};
ghost use Rattle.std.specs.Prelude.{◌≡◌, All, IfSome, IsTrue, map, true};
ghost use Rattle.task_core.specs.Cubes.{matches};
ghost use Rattle.task_core.specs.Vectors.{Vector, value_of};

use plan_rules::{AutoRule, Plan, Rule};
use task_core::{ActionId, Cond, FluentId, Lit, Task};

/// Whether each rule of a plan is seen to ask for the precondition of its action. What follows from
/// several literals together alone, as that a fluent is true or false, isn't seen.
pub fn are_guarded(task: &Task, plan: &Plan) -> bool
    ensures { IsTrue result → AreGuarded task.now (plain_of plan.now) }
{
    match plan {
        Plan::Table(table) => are_rules_guarded(task, &table.rules),
        Plan::Auto(automaton) => are_context_rules_guarded(task, &automaton.rules),
    }
}

fn are_rules_guarded(task: &Task, rules: &[Rule]) -> bool
    ensures { IsTrue result
        → All (IsGuardedRule task.now) (map in_one_context (map rule_of rules.now)) }
{
    for rule in rules {
        if !is_guarded(task, &rule.cube, rule.action) {
            return false;
        }
    }
    true
}

fn are_context_rules_guarded(task: &Task, rules: &[AutoRule]) -> bool
    ensures { IsTrue result → All (IsGuardedRule task.now) (map context_rule_of rules.now) }
{
    for rule in rules {
        if !is_guarded(task, &rule.cube, rule.action) {
            return false;
        }
    }
    true
}

/// Whether the precondition of an action holds wherever these literals do.
fn is_guarded(task: &Task, cube: &[Lit], action: ActionId) -> bool
    ensures { IsTrue result → (v : Vector) → matches cube.now v ≡ true
        → precondition_in task.now v action.0 ≡ true }
{
    match task.actions.get(action.0 as usize) {
        Some(found) => value_in(&found.exec, cube) == Some(true),
        None => false,
    }
}

/// The value that a condition is seen to have wherever these literals hold.
fn value_in(cond: &Cond, cube: &[Lit]) -> Option<bool>
    ensures { IfSome result (HasValueIn cond.now cube.now) }
{
    match cond {
        Cond::Yes => Some(true),
        Cond::No => Some(false),
        Cond::Is(fluent) => value_of_fluent(*fluent, cube),
        Cond::Not(part) => match value_in(part, cube) {
            Some(value) => Some(!value),
            None => None,
        },
        Cond::All(parts) => {
            let mut known = true;
            for part in parts {
                match value_in(part, cube) {
                    Some(true) => {}
                    Some(false) => return Some(false),
                    None => known = false,
                }
            }
            if known { Some(true) } else { None }
        }
        Cond::Any(parts) => {
            let mut known = true;
            for part in parts {
                match value_in(part, cube) {
                    Some(true) => return Some(true),
                    Some(false) => {}
                    None => known = false,
                }
            }
            if known { Some(false) } else { None }
        }
    }
}

/// The value that one of these literals gives a fluent.
fn value_of_fluent(fluent: FluentId, cube: &[Lit]) -> Option<bool>
    ensures { IfSome result (λ value. (v : Vector) → matches cube.now v ≡ true
        → value_of v fluent.0 ≡ value) }
{
    for lit in cube {
        if lit.fluent == fluent {
            return Some(lit.positive);
        }
    }
    None
}
