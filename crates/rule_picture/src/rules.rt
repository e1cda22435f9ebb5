//! The rules of a plan as they are shown, and which of them counts where.

ghost use Rattle.plan_rules.specs.Plans.{IsCubeOf};
ghost use Rattle.plan_rules.specs.Rules.{context_rule_of, plain_of, rule_of};
ghost use Rattle.rule_picture.specs.Rules.{
  is_for as is_rule_for,
  is_in_context as is_own_context,
  rule_number,
  seen_in_automaton,
  seen_in_table,
  seen_rules,
};
ghost use Rattle.rule_picture.specs.Values.{seen_value, seen_values};
ghost use Rattle.std.specs.Prelude.{◌≡◌, ◌<◌, All, IfOk, IfSome, length, map};
ghost use Rattle.task_core.specs.States.{vector};
ghost use Rattle.task_core.specs.Tasks.{fluent_count};

use plan_rules::{AutoRule, Plan, Rule, has_all};
use std::alloc::{AllocError, Global};
use task_core::{ActionId, Lit, State, Task};

/// A rule: the context that it is for, if the plan has contexts, its literals and its action.
#[derive(Clone, Copy)]
pub(crate) struct Seen<'a> {
    pub(crate) context: Option<u32>,
    pub(crate) cube: &'a [Lit],
    pub(crate) action: ActionId,
}

/// The rules of a plan, in the order of its text.

pub(crate) fn rules_of<'a>(alloc: Global, plan: &'a Plan) -> Result<Vec<Seen<'a>>, AllocError>
    ensures rules { IfOk result (λ rules. seen_values rules.items ≡ seen_rules (plain_of plan.now)) }
{
    match plan {
        Plan::Table(table) => rules_of_table(alloc, &table.rules),
        Plan::Auto(auto) => rules_of_automaton(alloc, &auto.rules),
    }
}

fn rules_of_table<'a>(alloc: Global, rules: &'a [Rule]) -> Result<Vec<Seen<'a>>, AllocError>
    ensures { IfOk result (λ seen. seen_values seen.items
        ≡ map seen_in_table (map rule_of rules.now)) }
{
    let mut seen = Vec::new(alloc);
    for rule in rules {
        seen.push(seen_rule(rule))?;
    }
    Ok(seen)
}

fn seen_rule(rule: &Rule) -> Seen<'_>
    ensures { seen_value result ≡ seen_in_table (rule_of rule.now) }
{
    Seen {
        context: None,
        cube: &rule.cube,
        action: rule.action,
    }
}

/// The rules of a plan with contexts.
fn rules_of_automaton<'a>(alloc: Global, rules: &'a [AutoRule]) -> Result<Vec<Seen<'a>>, AllocError>
    ensures { IfOk result (λ seen. seen_values seen.items
        ≡ map seen_in_automaton (map context_rule_of rules.now)) }
{
    let mut seen = Vec::new(alloc);
    for rule in rules {
        seen.push(seen_context_rule(rule))?;
    }
    Ok(seen)
}

fn seen_context_rule(rule: &AutoRule) -> Seen<'_>
    ensures { seen_value result ≡ seen_in_automaton (context_rule_of rule.now) }
{
    Seen {
        context: Some(rule.context),
        cube: &rule.cube,
        action: rule.action,
    }
}

/// The number of the rule that counts in a state and a context, from 0: the first that is for them.
pub(crate) fn number_at(
    task: &Task,
    rules: &[Seen<'_>],
    state: &State,
    context: u32,
) -> Option<usize>
    requires { All (λ rule. IsCubeOf (fluent_count task.now) rule.cube.now) rules.now }
    ensures number { result ≡ rule_number (seen_values rules.now)
        (record { state = vector (fluent_count task.now) state.now; context = context }) }
    ensures within { IfSome result (λ number. number < length rules.now) }
{
    for number in 0..rules.len() {
        if is_for(task, &rules[number], state, context) {
            return Some(number);
        }
    }
    None
}

fn is_for(task: &Task, rule: &Seen<'_>, state: &State, context: u32) -> bool
    requires { IsCubeOf (fluent_count task.now) rule.now.cube.now }
    ensures { result ≡ is_rule_for
        (record { state = vector (fluent_count task.now) state.now; context = context })
        (seen_value rule.now) }
{
    is_in_context(rule.context, context) && has_all(task, rule.cube, state)
}

/// Whether a rule is for a context: each rule of a table is.
fn is_in_context(own: Option<u32>, context: u32) -> bool
    ensures { result ≡ is_own_context own context }
{
    match own {
        Some(own) => own == context,
        None => true,
    }
}
