//! The conditions that formulas are.

ghost use Rattle.std.specs.Prelude.{◌≡◌, ◌++◌, IfOk, OnOk, map};
ghost use Rattle.ground_instances.specs.Atoms.{atom_tree};
ghost use Rattle.ground_instances.specs.Tables.{setting_in};
ghost use Rattle.pddl_ast.specs.Values.{formula_value};
ghost use Rattle.pddl_system.specs.Objects.{bindings};
ghost use Rattle.pddl_system.specs.Tasks.{atom_condition, condition_of, constant};
ghost use Rattle.ctl_syntax.specs.Conditions.{condition_value};

use crate::fluents::Fluents;
use crate::variables::Bindings;
use ground_instances::{Atom, Setting, object_of};
use pddl_ast::{Formula, ObjectId};
use std::alloc::{AllocError, Global};
use task_core::{Cond, FluentId};

/// The condition that holds always, or never.
fn constant(holds: bool) -> Cond
    ensures { condition_value result ≡ constant holds }
{
    if holds { Cond::Yes } else { Cond::No }
}

/// The condition of an atom: that its fluent is true, or its initial value, where it is no fluent.
fn atom_condition(setting: &Setting, fluents: &Fluents, atom: &Atom) -> Cond
    ensures { condition_value result
        ≡ atom_condition (setting_in setting.now) fluents.now (atom_tree atom.now) }
{
    match fluents.number_of(atom) {
        Some(fluent) => Cond::Is(fluent),
        None => constant(setting.is_fact(atom)),
    }
}

/// The conditions of formulas. The scope is afterwards as it was before.
#[cycle(making)]
fn conditions(
    alloc: Global,
    setting: &Setting,
    fluents: &Fluents,
    formulas: &[Formula],
    scope: &mut Vec<ObjectId>,
) -> Result<Vec<Cond>, AllocError>
    ensures conditions { IfOk result (λ conds. map condition_value conds.items
        ≡ map (λ f. condition_of (setting_in setting.now) fluents.now f scope.old.items)
        (map formula_value formulas.now)) }
    ensures scope { OnOk result (scope.new.items ≡ scope.old.items) }
{
    let mut conds = Vec::new(alloc);
    for formula in formulas {
        conds.push(condition(alloc, setting, fluents, formula, scope)?)?;
    }
    Ok(conds)
}

/// The conditions of a formula for each of these bindings, in order. The scope is afterwards as it was
/// before.
#[cycle(making)]
fn conditions_for_each(
    alloc: Global,
    all: &Bindings<'_, '_>,
    fluents: &Fluents,
    formula: &Formula,
    scope: &mut Vec<ObjectId>,
) -> Result<Vec<Cond>, AllocError>
    ensures conditions { IfOk result (λ conds. map condition_value conds.items
        ≡ map (λ chosen. condition_of (setting_in all.now.setting.now) fluents.now
        (formula_value formula.now) (scope.old.items ++ chosen))
        (bindings (setting_in all.now.setting.now).objects all.now.types.now)) }
    ensures scope { OnOk result (scope.new.items ≡ scope.old.items) }
{
    let Bindings { setting, types } = *all;
    let outer = scope.len();
    let count = setting.few_bindings(types)?;
    let mut conds = Vec::new(alloc);
    for number in 0..count {
        setting.bind(types, count, number, scope)?;
        conds.push(condition(alloc, setting, fluents, formula, scope)?)?;
        scope.truncate(outer);
    }
    Ok(conds)
}

/// The condition that a formula is, where the variables in scope stand for these objects. The scope
/// is afterwards as it was before. Fails only where memory runs out, or where a quantifier has more
/// than 1,000,000 bindings, which no formula within the limit of size has.
#[cycle(making)]
pub(crate) fn condition(
    alloc: Global,
    setting: &Setting,
    fluents: &Fluents,
    formula: &Formula,
    scope: &mut Vec<ObjectId>,
) -> Result<Cond, AllocError>
    ensures condition { IfOk result (λ cond. condition_value cond
        ≡ condition_of (setting_in setting.now) fluents.now (formula_value formula.now)
        scope.old.items) }
    ensures scope { OnOk result (scope.new.items ≡ scope.old.items) }
{
    match formula {
        Formula::Atom(predicate, terms) => {
            let atom = Atom::of_terms(alloc, *predicate, terms, scope)?;
            Ok(atom_condition(setting, fluents, &atom))
        }
        Formula::Equal(left, right) => {
            Ok(constant(object_of(scope, left) == object_of(scope, right)))
        }
        Formula::All(parts) => Ok(Cond::All(conditions(alloc, setting, fluents, parts, scope)?)),
        Formula::Any(parts) => Ok(Cond::Any(conditions(alloc, setting, fluents, parts, scope)?)),
        Formula::Not(part) => {
            let cond = condition(alloc, setting, fluents, part, scope)?;
            Ok(Cond::Not(Box::new(alloc, cond)?))
        }
        Formula::Imply(left, right) => {
            let cond = condition(alloc, setting, fluents, left, scope)?;
            let then = condition(alloc, setting, fluents, right, scope)?;
            Ok(Cond::Any(vec![in alloc; Cond::Not(Box::new(alloc, cond)?), then]?))
        }
        Formula::Exists(types, part) => {
            let all = Bindings { setting, types };
            Ok(Cond::Any(conditions_for_each(alloc, &all, fluents, part, scope)?))
        }
        Formula::Forall(types, part) => {
            let all = Bindings { setting, types };
            Ok(Cond::All(conditions_for_each(alloc, &all, fluents, part, scope)?))
        }
    }
}
