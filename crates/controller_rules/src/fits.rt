//! Whether rules speak of a task.

ghost use Rattle.plan_rules.specs.Plans.{
  IsContextOf,
  IsContextRuleOf,
  IsCubeOf,
  IsNextOf,
  IsPlanOf,
  IsRuleOf,
};
ghost use Rattle.plan_rules.specs.Rules.{context_rule_of, next_of, rule_of};
ghost use Rattle.std.specs.Prelude.{All, IsTrue, map, ℕ};

use plan_rules::{AutoRule, MAX_CONTEXTS, Next, Plan, Rule};
use task_core::Lit;

/// Whether a plan is one over so many fluents and actions, with contexts that are numbered from 1 up to
/// their number, which is at most `MAX_CONTEXTS`. It isn't if a next context depends on the state.
pub fn is_plan_of(fluents: usize, actions: usize, plan: &Plan) -> bool
    ensures { IsTrue result → IsPlanOf fluents actions plan.now }
{
    match plan {
        Plan::Table(table) => are_rules_of(fluents, actions, &table.rules),
        Plan::Auto(automaton) => {
            1 <= automaton.contexts
                && automaton.contexts <= MAX_CONTEXTS
                && are_context_rules_of(fluents, actions, automaton.contexts, &automaton.rules)
        }
    }
}

/// Whether the rules of a table are over so many fluents and actions.
fn are_rules_of(fluents: usize, actions: usize, rules: &[Rule]) -> bool
    ensures { IsTrue result → All (IsRuleOf fluents actions) (map rule_of rules.now) }
{
    for rule in rules {
        if !is_rule_of(fluents, actions, rule) {
            return false;
        }
    }
    true
}

fn is_rule_of(fluents: usize, actions: usize, rule: &Rule) -> bool
    ensures { IsTrue result → IsRuleOf fluents actions (rule_of rule.now) }
{
    (rule.action.0 as usize) < actions && is_cube_of(fluents, &rule.cube)
}

/// Whether the rules of an automaton are over so many fluents, actions and contexts.
fn are_context_rules_of(fluents: usize, actions: usize, contexts: u32, rules: &[AutoRule]) -> bool
    ensures { IsTrue result
        → All (IsContextRuleOf fluents actions contexts) (map context_rule_of rules.now) }
{
    for rule in rules {
        if !is_context_rule_of(fluents, actions, contexts, rule) {
            return false;
        }
    }
    true
}

fn is_context_rule_of(fluents: usize, actions: usize, contexts: u32, rule: &AutoRule) -> bool
    ensures { IsTrue result
        → IsContextRuleOf fluents actions contexts (context_rule_of rule.now) }
{
    if rule.action.0 as usize >= actions || !is_cube_of(fluents, &rule.cube) {
        return false;
    }
    is_context_of(contexts, rule.context) && is_next_of(contexts, &rule.next)
}

fn is_context_of(contexts: u32, context: u32) -> bool
    ensures { IsTrue result → IsContextOf contexts context }
{
    1 <= context && context <= contexts
}

fn is_next_of(contexts: u32, next: &Next) -> bool
    ensures { (fluents : ℕ) → IsTrue result → IsNextOf fluents contexts (next_of next.now) }
{
    match next {
        Next::One(context) => is_context_of(contexts, *context),
        Next::Cases(_) => false,
    }
}

/// Whether literals are over so many fluents.
fn is_cube_of(fluents: usize, cube: &[Lit]) -> bool
    ensures { IsTrue result → IsCubeOf fluents cube.now }
{
    for literal in cube {
        if literal.fluent.0 as usize >= fluents {
            return false;
        }
    }
    true
}
