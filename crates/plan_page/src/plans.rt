//! Rules as JSON.

ghost use Rattle.plan_document.specs.Data.{list_data};
ghost use Rattle.plan_page.specs.Pages.{
  case_data,
  context_rule_data,
  next_data,
  plan_data,
  rule_object as rule_data,
  table_rule_data,
};
ghost use Rattle.plan_rules.specs.Rules.{
  case_of,
  context_rule_of,
  next_of as plain_next_of,
  plain_of,
  rule_of,
};
ghost use Rattle.serde_json.specs.View.{view};
ghost use Rattle.std.specs.Prelude.{◌≡◌, IfOk, map};

use crate::values::{cube_value, pair_value};
use plan_document::count_value;
use plan_rules::{AutoRule, Case, Next, Plan, Rule, word_of};
use serde_json::{Map, Value, put};
use std::alloc::{AllocError, Global};
use task_core::ActionId;

/// The class of a plan, the number of its contexts, and its rules.
#[derive(Drop)]
pub(crate) struct PlanValues {
    pub(crate) class: Value,
    pub(crate) contexts: Value,
    pub(crate) rules: Value,
}

/// What the data say of a plan.
pub(crate) fn plan_values(alloc: Global, plan: &Plan) -> Result<PlanValues, AllocError>
    ensures class { IfOk result
        (λ values. view values.class ≡ (plan_data (plain_of plan.now)).class) }
    ensures contexts { IfOk result
        (λ values. view values.contexts ≡ (plan_data (plain_of plan.now)).contexts) }
    ensures rules { IfOk result
        (λ values. view values.rules ≡ (plan_data (plain_of plan.now)).rules) }
{
    match plan {
        Plan::Table(table) => Ok(PlanValues {
            class: Value::try_from_str(alloc, word_of(table.class))?,
            contexts: count_value(1),
            rules: table_rules(alloc, &table.rules)?,
        }),
        Plan::Auto(automaton) => Ok(PlanValues {
            class: Value::try_from_str(alloc, "ctl")?,
            contexts: count_value(automaton.contexts),
            rules: context_rules(alloc, &automaton.rules)?,
        }),
    }
}

fn table_rules(alloc: Global, rules: &[Rule]) -> Result<Value, AllocError>
    ensures { IfOk result
        (λ value. view value ≡ list_data table_rule_data (map rule_of rules.now)) }
{
    let mut list = Vec::new(alloc);
    for rule in rules {
        list.push(table_rule(alloc, rule)?)?;
    }
    Ok(Value::from(list))
}

fn table_rule(alloc: Global, rule: &Rule) -> Result<Value, AllocError>
    ensures { IfOk result (λ value. view value ≡ table_rule_data (rule_of rule.now)) }
{
    let literals = cube_value(alloc, &rule.cube)?;
    rule_object(alloc, rule.action, 1, literals, count_value(1))
}

fn context_rules(alloc: Global, rules: &[AutoRule]) -> Result<Value, AllocError>
    ensures { IfOk result
        (λ value. view value ≡ list_data context_rule_data (map context_rule_of rules.now)) }
{
    let mut list = Vec::new(alloc);
    for rule in rules {
        list.push(context_rule(alloc, rule)?)?;
    }
    Ok(Value::from(list))
}

fn context_rule(alloc: Global, rule: &AutoRule) -> Result<Value, AllocError>
    ensures { IfOk result (λ value. view value ≡ context_rule_data (context_rule_of rule.now)) }
{
    let literals = cube_value(alloc, &rule.cube)?;
    let next = next_value(alloc, &rule.next)?;
    rule_object(alloc, rule.action, rule.context, literals, next)
}

/// The next context, or its cases.
fn next_value(alloc: Global, next: &Next) -> Result<Value, AllocError>
    ensures { IfOk result (λ value. view value ≡ next_data (plain_next_of next.now)) }
{
    match next {
        Next::One(context) => Ok(count_value(*context)),
        Next::Cases(cases) => case_values(alloc, cases),
    }
}

/// The cases of a next context.
fn case_values(alloc: Global, cases: &[Case]) -> Result<Value, AllocError>
    ensures { IfOk result (λ value. view value ≡ list_data case_data (map case_of cases.now)) }
{
    let mut list = Vec::new(alloc);
    for case in cases {
        list.push(one_case(alloc, case)?)?;
    }
    Ok(Value::from(list))
}

/// A case of a next context.
fn one_case(alloc: Global, case: &Case) -> Result<Value, AllocError>
    ensures { IfOk result (λ value. view value ≡ case_data (case_of case.now)) }
{
    let literals = cube_value(alloc, &case.cube)?;
    pair_value(alloc, literals, count_value(case.context))
}

/// A rule with these members.
fn rule_object(
    alloc: Global,
    action: ActionId,
    context: u32,
    literals: Value,
    next: Value,
) -> Result<Value, AllocError>
    ensures { IfOk result (λ value. view value
        ≡ rule_data action.0 context (view literals) (view next)) }
{
    let mut members = Map::new(alloc);
    put(&mut members, alloc, "next", next)?;
    put(&mut members, alloc, "literals", literals)?;
    put(&mut members, alloc, "context", count_value(context))?;
    put(&mut members, alloc, "action", count_value(action.0))?;
    Ok(Value::from(members))
}
