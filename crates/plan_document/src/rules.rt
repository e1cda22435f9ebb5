//! Rules as JSON.

ghost use Rattle.plan_document.specs.Documents.{
  context_rule_data,
  cube_data,
  next_data,
  rule_object as rule_with,
  table_rule_data,
  with_literal,
};
ghost use Rattle.plan_rules.specs.Named.{NamesRule};
ghost use Rattle.plan_rules.specs.Plans.{IsRuleOf};
ghost use Rattle.plan_rules.specs.Rules.{
  context_rule_of,
  next_of as plain_next_of,
  rule_of,
};
ghost use Rattle.serde_json.specs.Data.{array};
ghost use Rattle.serde_json.specs.View.{items_of, members_view, view};
ghost use Rattle.std.specs.Prelude.{◌≡◌, ◌<◌, All, IfOk, OnOk, Some, length, map, slice_get};
ghost use Rattle.task_core.specs.Names.{name_bytes};

use crate::actions::{condition_value, outcome_array};
use crate::names::{name_text, name_value};
use crate::values::count_value;
use plan_rules::{AutoRule, Next, Rule};
use serde_json::{Map, Value, put};
use std::alloc::{AllocError, Global};
use std::rc::RcStr;
use task_core::{ActionId, GroundAction, Lit};

pub(crate) fn table_rules(
    alloc: Global,
    fluents: &[Vec<RcStr>],
    actions: &[GroundAction],
    rules: &[Rule],
) -> Result<Value, AllocError>
    requires { All (IsRuleOf (length fluents.now) (length actions.now)) (map rule_of rules.now) }
    ensures { IfOk result (λ value. view value
        ≡ array (items_of (map (table_rule_data (map name_bytes fluents.now) actions.now)
        (map rule_of rules.now)))) }
{
    let mut list = Vec::new(alloc);
    for rule in rules {
        list.push(table_rule(alloc, fluents, actions, rule)?)?;
    }
    Ok(Value::from(list))
}

fn table_rule(
    alloc: Global,
    fluents: &[Vec<RcStr>],
    actions: &[GroundAction],
    rule: &Rule,
) -> Result<Value, AllocError>
    requires cube { All (λ lit. lit.fluent.0 < length fluents.now) rule.now.cube.items }
    requires action { rule.now.action.0 < length actions.now }
    ensures { IfOk result (λ value. view value
        ≡ table_rule_data (map name_bytes fluents.now) actions.now (rule_of rule.now)) }
{
    let told = ToldRule {
        context: 1,
        literals: literal_object(alloc, fluents, &rule.cube)?,
        next: count_value(1),
    };
    rule_object(alloc, fluents, action_at(actions, rule.action), told)
}

pub(crate) fn context_rules(
    alloc: Global,
    fluents: &[Vec<RcStr>],
    actions: &[GroundAction],
    rules: &[AutoRule],
) -> Result<Value, AllocError>
    requires { All (NamesRule (length fluents.now) (length actions.now))
        (map context_rule_of rules.now) }
    ensures { IfOk result (λ value. view value
        ≡ array (items_of (map (context_rule_data (map name_bytes fluents.now) actions.now)
        (map context_rule_of rules.now)))) }
{
    let mut list = Vec::new(alloc);
    for rule in rules {
        list.push(context_rule(alloc, fluents, actions, rule)?)?;
    }
    Ok(Value::from(list))
}

fn context_rule(
    alloc: Global,
    fluents: &[Vec<RcStr>],
    actions: &[GroundAction],
    rule: &AutoRule,
) -> Result<Value, AllocError>
    requires { NamesRule (length fluents.now) (length actions.now) (context_rule_of rule.now) }
    ensures { IfOk result (λ value. view value
        ≡ context_rule_data (map name_bytes fluents.now) actions.now
        (context_rule_of rule.now)) }
{
    let told = ToldRule {
        context: rule.context,
        literals: literal_object(alloc, fluents, &rule.cube)?,
        next: next_value(&rule.next),
    };
    rule_object(alloc, fluents, action_at(actions, rule.action), told)
}

/// The next context, where it is always the same one.
fn next_value(next: &Next) -> Value
    ensures { view result ≡ next_data (plain_next_of next.now) }
{
    match next {
        Next::One(context) => count_value(*context),
        Next::Cases(_) => Value::Null,
    }
}

fn action_at(actions: &[GroundAction], action: ActionId) -> &GroundAction
    requires { action.0 < length actions.now }
    ensures { slice_get actions.now action.0 ≡ Some result.now }
{
    &actions[action.0 as usize]
}

/// What is told of a rule beside its action.
#[derive(Drop)]
struct ToldRule {
    context: u32,
    literals: Value,
    next: Value,
}

fn rule_object(
    alloc: Global,
    fluents: &[Vec<RcStr>],
    action: &GroundAction,
    told: ToldRule,
) -> Result<Value, AllocError>
    ensures { IfOk result (λ value. view value
        ≡ rule_with (map name_bytes fluents.now) action.now told.context (view told.literals)
        (view told.next)) }
{
    let ToldRule {
        context,
        literals,
        next,
    } = told;
    let precondition = condition_value(alloc, fluents, &action.exec)?;
    let outcomes = outcome_array(alloc, fluents, &action.outcomes)?;
    let name = name_value(alloc, &action.name)?;
    let mut members = Map::new(alloc);
    put(&mut members, alloc, "precondition", precondition)?;
    put(&mut members, alloc, "outcomes", outcomes)?;
    put(&mut members, alloc, "next", next)?;
    put(&mut members, alloc, "literals", literals)?;
    put(&mut members, alloc, "context", count_value(context))?;
    put(&mut members, alloc, "action", name)?;
    Ok(Value::from(members))
}

/// What is asked of a state: an object from the fluents that are named to their values.
fn literal_object(alloc: Global, fluents: &[Vec<RcStr>], cube: &[Lit]) -> Result<Value, AllocError>
    requires { All (λ lit. lit.fluent.0 < length fluents.now) cube.now }
    ensures { IfOk result (λ value. view value
        ≡ cube_data (map name_bytes fluents.now) cube.now) }
{
    let mut members = Map::new(alloc);
    for literal in cube {
        put_literal(&mut members, alloc, fluents, literal)?;
    }
    Ok(Value::from(members))
}

fn put_literal(
    members: &mut Map<String, Value>,
    alloc: Global,
    fluents: &[Vec<RcStr>],
    literal: &Lit,
) -> Result<(), AllocError>
    requires { literal.now.fluent.0 < length fluents.now }
    ensures { OnOk result (members_view members.new.entries
        ≡ with_literal (map name_bytes fluents.now) (members_view members.old.entries)
        literal.now) }
{
    let name = name_text(alloc, &fluents[literal.fluent.0 as usize])?;
    put(members, alloc, &name, Value::from(literal.positive))
}
