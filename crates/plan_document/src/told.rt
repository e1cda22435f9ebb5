//! Whether a document tells a plan in full.

ghost use Rattle.plan_document.specs.Faithful.{IsInOrder, IsOneNext, IsToldInFull, IsToldRule};
ghost use Rattle.plan_rules.specs.Rules.{context_rule_of, next_of, plain_of, rule_of};
ghost use Rattle.std.specs.Prelude.{◌↔◌, All, IsTrue, map};

use plan_rules::{AutoRule, Next, Plan, Rule};
use task_core::Lit;

/// Whether a document tells a plan in full: no rule names a fluent twice, as the literals stand in
/// the rising order of their fluents, and each next context is one number.
pub fn is_told_in_full(plan: &Plan) -> bool
    ensures { IsTrue result ↔ IsToldInFull (plain_of plan.now) }
{
    match plan {
        Plan::Table(table) => are_in_order(&table.rules),
        Plan::Auto(automaton) => are_told(&automaton.rules),
    }
}

/// Whether the cubes of a table's rules are in order.
fn are_in_order(rules: &[Rule]) -> bool
    ensures { IsTrue result ↔ All (λ rule. IsInOrder rule.cube) (map rule_of rules.now) }
{
    for rule in rules {
        if !is_in_order(&rule.cube) {
            return false;
        }
    }
    true
}

/// Whether each rule of an automaton is told in full.
fn are_told(rules: &[AutoRule]) -> bool
    ensures { IsTrue result ↔ All IsToldRule (map context_rule_of rules.now) }
{
    for rule in rules {
        if !is_told(rule) {
            return false;
        }
    }
    true
}

/// Whether a rule of an automaton is told in full.
fn is_told(rule: &AutoRule) -> bool
    ensures { IsTrue result ↔ IsToldRule (context_rule_of rule.now) }
{
    is_in_order(&rule.cube) && is_one_next(&rule.next)
}

/// Whether the next context is one number.
fn is_one_next(next: &Next) -> bool
    ensures { IsTrue result ↔ IsOneNext (next_of next.now) }
{
    match next {
        Next::One(_) => true,
        Next::Cases(_) => false,
    }
}

/// Whether literals stand in the rising order of their fluents.
fn is_in_order(cube: &[Lit]) -> bool
    ensures { IsTrue result ↔ IsInOrder cube.now }
{
    for place in 1..cube.len() {
        if cube[place - 1].fluent.0 >= cube[place].fluent.0 {
            return false;
        }
    }
    true
}
