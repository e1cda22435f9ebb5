//! What an action asks of a state, and what it may do, as JSON.

ghost use Rattle.plan_document.specs.Actions.{
  change_data,
  condition_data,
  literal_name,
  made_data,
  made_names,
  makes as makes_it,
  only_member as one_member,
  outcome_data,
  outcomes_data,
};
ghost use Rattle.plan_rules.specs.Texts.{name_at};
ghost use Rattle.serde_json.specs.Data.{array};
ghost use Rattle.serde_json.specs.View.{items_of, view};
ghost use Rattle.std.specs.Prelude.{◌≡◌, ◌++◌, IfOk, OnOk, map};
ghost use Rattle.std.specs.Rc.{rc_str_bytes};
ghost use Rattle.task_core.specs.Names.{name_bytes};

use crate::names::name_value;
use serde_json::{Map, Value, put};
use std::alloc::{AllocError, Global};
use std::rc::RcStr;
use task_core::{Change, Cond, FluentId, Lit, Outcome};

/// The name of a fluent; the empty one past the last.
fn fluent_name(fluents: &[Vec<RcStr>], fluent: FluentId) -> &[RcStr]
    ensures { map rc_str_bytes result.now ≡ name_at (map name_bytes fluents.now) fluent.0 }
{
    match fluents.get(fluent.0 as usize) {
        Some(name) => name,
        None => &[],
    }
}

fn only_member(alloc: Global, key: &str, value: Value) -> Result<Value, AllocError>
    ensures { IfOk result (λ made. view made ≡ one_member key.now (view value)) }
{
    let mut members = Map::new(alloc);
    put(&mut members, alloc, key, value)?;
    Ok(Value::from(members))
}

#[cycle(making)]
pub(crate) fn condition_array(
    alloc: Global,
    fluents: &[Vec<RcStr>],
    conds: &[Cond],
) -> Result<Value, AllocError>
    ensures { IfOk result (λ value. view value
        ≡ array (items_of (map (condition_data (map name_bytes fluents.now)) conds.now))) }
{
    let mut list = Vec::new(alloc);
    for cond in conds {
        list.push(condition_value(alloc, fluents, cond)?)?;
    }
    Ok(Value::from(list))
}

#[cycle(making)]
pub(crate) fn condition_value(
    alloc: Global,
    fluents: &[Vec<RcStr>],
    cond: &Cond,
) -> Result<Value, AllocError>
    ensures { IfOk result (λ value. view value
        ≡ condition_data (map name_bytes fluents.now) cond.now) }
{
    match cond {
        Cond::Yes => only_member(alloc, "and", Value::from(Vec::new(alloc))),
        Cond::No => only_member(alloc, "or", Value::from(Vec::new(alloc))),
        Cond::Is(fluent) => name_value(alloc, fluent_name(fluents, *fluent)),
        Cond::Not(part) => {
            let inner = condition_value(alloc, fluents, part)?;
            only_member(alloc, "not", inner)
        }
        Cond::All(parts) => {
            let inner = condition_array(alloc, fluents, parts)?;
            only_member(alloc, "and", inner)
        }
        Cond::Any(parts) => {
            let inner = condition_array(alloc, fluents, parts)?;
            only_member(alloc, "or", inner)
        }
    }
}

/// Whether a literal makes its fluent true, or makes it false.
fn makes(value: bool, literal: &Lit) -> bool
    ensures { result ≡ makes_it value literal.now }
{
    literal.positive == value
}

/// Adds the name of a literal's fluent, if it makes it true, or makes it false.
fn push_made(
    names: &mut Vec<Value>,
    alloc: Global,
    fluents: &[Vec<RcStr>],
    value: bool,
    literal: &Lit,
) -> Result<(), AllocError>
    ensures { OnOk result (map view names.new.items ≡ map view names.old.items
        ++ made_names (map name_bytes fluents.now) value literal.now) }
{
    if makes(value, literal) {
        let name = name_value(alloc, fluent_name(fluents, literal.fluent))?;
        names.push(name)?;
    }
    Ok(())
}

/// The names of the fluents that some literals make true, or make false.
fn made_array(
    alloc: Global,
    fluents: &[Vec<RcStr>],
    value: bool,
    literals: &[Lit],
) -> Result<Value, AllocError>
    ensures { IfOk result (λ made. view made
        ≡ made_data (map name_bytes fluents.now) value literals.now) }
{
    let mut names = Vec::new(alloc);
    for literal in literals {
        push_made(&mut names, alloc, fluents, value, literal)?;
    }
    Ok(Value::from(names))
}

fn change_value(alloc: Global, fluents: &[Vec<RcStr>], change: &Change) -> Result<Value, AllocError>
    ensures { IfOk result (λ value. view value
        ≡ change_data (map name_bytes fluents.now) change.now) }
{
    let condition = condition_value(alloc, fluents, &change.cond)?;
    let adds = made_array(alloc, fluents, true, &change.lits)?;
    let deletes = made_array(alloc, fluents, false, &change.lits)?;
    let mut members = Map::new(alloc);
    put(&mut members, alloc, "if", condition)?;
    put(&mut members, alloc, "deletes", deletes)?;
    put(&mut members, alloc, "adds", adds)?;
    Ok(Value::from(members))
}

fn outcome_value(
    alloc: Global,
    fluents: &[Vec<RcStr>],
    outcome: &Outcome,
) -> Result<Value, AllocError>
    ensures { IfOk result (λ value. view value
        ≡ outcome_data (map name_bytes fluents.now) outcome.now) }
{
    let mut changes = Vec::new(alloc);
    for change in &outcome.changes {
        changes.push(change_value(alloc, fluents, change)?)?;
    }
    Ok(Value::from(changes))
}

pub(crate) fn outcome_array(
    alloc: Global,
    fluents: &[Vec<RcStr>],
    outcomes: &[Outcome],
) -> Result<Value, AllocError>
    ensures { IfOk result (λ value. view value
        ≡ outcomes_data (map name_bytes fluents.now) outcomes.now) }
{
    let mut list = Vec::new(alloc);
    for outcome in outcomes {
        list.push(outcome_value(alloc, fluents, outcome)?)?;
    }
    Ok(Value::from(list))
}
