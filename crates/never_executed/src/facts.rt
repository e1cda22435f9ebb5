//! Preconditions that are false by what never changes.

ghost use Rattle.ground_instances.specs.Tables.{setting_in};
ghost use Rattle.ground_instances.specs.Values.{known_value};
ghost use Rattle.never_executed.specs.Causes.{
  IsCause,
  IsFalseByFacts,
  IsFalsePartOf,
  formula_parts,
  is_false,
};
ghost use Rattle.pddl_ast.specs.Values.{formula_value, schema_value};
ghost use Rattle.pddl_system.specs.Objects.{bindings};
ghost use Rattle.pddl_system.specs.Sizes.{binding_count};
ghost use Rattle.pddl_system.specs.ThreeValues.{may_hold};
ghost use Rattle.relaxed_reach.specs.Literals.{has};
ghost use Rattle.std.specs.List.{list_all};
ghost use Rattle.std.specs.Prelude.{
  ◌≡◌,
  ◌<◌,
  ◌∷◌,
  [],
  IfNone,
  IfOk,
  IfSome,
  IsTrue,
  Some,
  map,
  not,
  slice_get,
  slice_index_or,
  true,
};

use crate::causes::{Cause, Looked, part_count};
use ground_instances::{Setting, Value};
use pddl_ast::{Formula, Schema, TypeId};
use std::alloc::{AllocError, Global};

/// The bindings of some variables.
#[derive(Clone, Copy)]
struct Bindings<'a> {
    alloc: Global,
    setting: &'a Setting,
    types: &'a [TypeId],
    /// How many there are.
    count: usize,
}

/// Why an action has no instance.
pub(crate) fn cause_by_facts(
    alloc: Global,
    looked: &Looked<'_>,
    schema: &Schema,
) -> Result<Cause, AllocError>
    ensures { IfOk result (λ cause. IsCause (setting_in looked.now.setting.now) looked.now.task.now
        (has looked.now.literals.now) (schema_value schema.now) cause) }
{
    let count = looked.setting.few_bindings(&schema.parameters)?;
    if count == 0 {
        return Ok(Cause::NoObjects);
    }
    let all = Bindings {
        alloc,
        setting: looked.setting,
        types: &schema.parameters,
        count,
    };
    match false_part(&all, schema)? {
        Some(part) => Ok(Cause::Part(part)),
        None => Ok(Cause::Together),
    }
}

/// The first part of the precondition that is false for all bindings.
fn false_part(all: &Bindings<'_>, schema: &Schema) -> Result<Option<usize>, AllocError>
    requires count { all.now.count
        ≡ binding_count (setting_in all.now.setting.now).objects all.now.types.now }
    requires types { all.now.types.now ≡ schema.now.parameters.items }
    ensures { IfOk result (λ found. IfSome found
        (λ k. IsFalseByFacts (setting_in all.now.setting.now) (schema_value schema.now) k)) }
{
    for part in 0..part_count(&schema.precondition) {
        if is_false_part(all, &schema.precondition, part)? {
            return Ok(Some(part));
        }
    }
    Ok(None)
}

fn is_false_part(all: &Bindings<'_>, formula: &Formula, part: usize) -> Result<bool, AllocError>
    requires { all.now.count
        ≡ binding_count (setting_in all.now.setting.now).objects all.now.types.now }
    ensures { IfOk result (λ never. IsTrue never → IsFalsePartOf (setting_in all.now.setting.now)
        all.now.types.now part (formula_value formula.now)) }
{
    match part_at(formula, part) {
        Some(part) => is_false_for_all(all, part),
        None => Ok(false),
    }
}

fn part_at(formula: &Formula, part: usize) -> Option<&Formula>
    ensures { IfSome result (λ found. slice_get (formula_parts (formula_value formula.now)) part
        ≡ Some (formula_value found.now)) }
{
    match parts_of(formula) {
        Some(parts) => parts.get(part),
        None => alone(formula, part),
    }
}

/// A formula, where the number is 0.
fn alone(formula: &Formula, part: usize) -> Option<&Formula>
    ensures { IfSome result (λ found. slice_get (formula_value formula.now ∷ []) part
        ≡ Some (formula_value found.now)) }
{
    if part == 0 { Some(formula) } else { None }
}

fn parts_of(formula: &Formula) -> Option<&[Formula]>
    ensures some { IfSome result
        (λ parts. map formula_value parts.now ≡ formula_parts (formula_value formula.now)) }
    ensures none { IfNone result
        (formula_value formula.now ∷ [] ≡ formula_parts (formula_value formula.now)) }
{
    match formula {
        Formula::All(parts) => Some(parts),
        _ => None,
    }
}

fn is_false_for_all(all: &Bindings<'_>, formula: &Formula) -> Result<bool, AllocError>
    requires { all.now.count
        ≡ binding_count (setting_in all.now.setting.now).objects all.now.types.now }
    ensures { IfOk result (λ never. let at = setting_in all.now.setting.now in
        never ≡ list_all (is_false at (formula_value formula.now))
        (bindings at.objects all.now.types.now)) }
{
    for number in 0..all.count {
        if !is_false_for(all, formula, number)? {
            return Ok(false);
        }
    }
    Ok(true)
}

fn is_false_for(all: &Bindings<'_>, formula: &Formula, number: usize) -> Result<bool, AllocError>
    requires count { all.now.count
        ≡ binding_count (setting_in all.now.setting.now).objects all.now.types.now }
    requires number { number < all.now.count }
    ensures { IfOk result (λ never. let at = setting_in all.now.setting.now in
        never ≡ is_false at (formula_value formula.now)
        (slice_index_or (bindings at.objects all.now.types.now) number [])) }
{
    let mut scope = Vec::new(all.alloc);
    all.setting.bind(all.types, all.count, number, &mut scope)?;
    let value = all.setting.value(all.alloc, formula, &mut scope)?;
    Ok(is_no(value))
}

fn is_no(value: Value) -> bool
    ensures { result ≡ not (may_hold (known_value value)) }
{
    match value {
        Value::No => true,
        Value::Unknown | Value::Yes => false,
    }
}
