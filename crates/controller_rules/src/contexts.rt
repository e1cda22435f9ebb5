//! The number of contexts.

ghost use Rattle.controller_rules.specs.AsRun.{NamesContext, NamesLastContext};
ghost use Rattle.plan_rules.specs.Rules.{ContextRule, always, context_rule_of, next_of, plain_of};
ghost use Rattle.std.specs.Prelude.{◌≡◌, IsTrue, map};
ghost use Rattle.std.specs.List.{Contains};

use plan_rules::{AutoRule, FIRST_CONTEXT, Next, Plan};

/// Whether a plan has no contexts after the greatest that is named: its last one is the first, or a
/// rule names it. A table has none.
pub fn names_last_context(plan: &Plan) -> bool
    ensures { IsTrue result → NamesLastContext (plain_of plan.now) }
{
    match plan {
        Plan::Table(_) => true,
        Plan::Auto(automaton) => {
            automaton.contexts == FIRST_CONTEXT || is_named(automaton.contexts, &automaton.rules)
        }
    }
}

fn is_named(context: u32, rules: &[AutoRule]) -> bool
    ensures { IsTrue result → (rule : ContextRule) × Contains (map context_rule_of rules.now) rule
        × NamesContext context rule }
{
    for rule in rules {
        if names(context, rule) {
            return true;
        }
    }
    false
}

fn names(context: u32, rule: &AutoRule) -> bool
    ensures { IsTrue result → NamesContext context (context_rule_of rule.now) }
{
    rule.context == context || goes_to(context, &rule.next)
}

fn goes_to(context: u32, next: &Next) -> bool
    ensures { IsTrue result → next_of next.now ≡ always context }
{
    match next {
        Next::One(other) => *other == context,
        Next::Cases(_) => false,
    }
}
