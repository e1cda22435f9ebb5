//! The outcomes of effects.

ghost use Rattle.std.specs.Prelude.{◌≡◌, ◌++◌, IfOk, OnOk, map};
ghost use Rattle.ground_instances.specs.Atoms.{atom_tree};
ghost use Rattle.ground_instances.specs.Tables.{setting_in};
ghost use Rattle.ground_task.specs.Drafts.{draft_trees, possible_where};
ghost use Rattle.pddl_ast.specs.Trees.{effect_row};
ghost use Rattle.pddl_ast.specs.Values.{effect_value};
ghost use Rattle.pddl_system.specs.Objects.{bindings};
ghost use Rattle.pddl_system.specs.Outcomes as plain;
ghost use Rattle.pddl_system.specs.Settings.{Setting as PlainSetting};

use crate::drafts::{ChangeDraft, OutcomeDraft, PartDraft};
use crate::guards::{may_also_hold, outcomes_under};
use crate::products::{no_change, products};
use crate::variables::Bindings;
use ground_instances::{Atom, Setting};
use pddl_ast::{Effect, ObjectId};
use std::alloc::{AllocError, Global};

/// The outcome that adds an atom (positive) or deletes it.
fn changing<'a>(
    alloc: Global,
    atom: Atom,
    positive: bool,
) -> Result<Vec<OutcomeDraft<'a>>, AllocError>
    ensures { IfOk result (λ outcomes. draft_trees outcomes.items
        ≡ plain.one_change (atom_tree atom) positive) }
{
    let mut changes = Vec::new(alloc);
    changes.push(ChangeDraft { atom, positive })?;
    let mut parts = Vec::new(alloc);
    parts.push(PartDraft {
        guards: Vec::new(alloc),
        changes,
    })?;
    let mut outcomes = Vec::new(alloc);
    outcomes.push(OutcomeDraft { parts })?;
    Ok(outcomes)
}

/// The one outcome that adds an atom (positive) or deletes it, where the conditions around may
/// hold; else one that changes nothing.
fn one_change<'a>(
    alloc: Global,
    possible: bool,
    atom: Atom,
    positive: bool,
) -> Result<Vec<OutcomeDraft<'a>>, AllocError>
    ensures { IfOk result (λ outcomes. (at : PlainSetting) → draft_trees outcomes.items
        ≡ map (possible_where at possible) (plain.one_change (atom_tree atom) positive)) }
{
    if possible {
        Ok(changing(alloc, atom, positive)?)
    } else {
        Ok(no_change(alloc)?)
    }
}

/// Adds more outcomes after the others.
fn push_all<'a>(
    outcomes: &mut Vec<OutcomeDraft<'a>>,
    more: Vec<OutcomeDraft<'a>>,
) -> Result<(), AllocError>
    ensures { OnOk result (draft_trees outcomes.new.items
        ≡ draft_trees outcomes.old.items ++ draft_trees more.entry.items) }
{
    for outcome in more {
        outcomes.push(outcome)?;
    }
    Ok(())
}

/// The outcomes of effects that happen together. The scope is afterwards as it was before.
#[cycle(building)]
fn outcomes_of_both<'a>(
    alloc: Global,
    setting: &Setting,
    possible: bool,
    effects: &'a [Effect],
    scope: &mut Vec<ObjectId>,
) -> Result<Vec<OutcomeDraft<'a>>, AllocError>
    ensures outcomes { IfOk result (λ outcomes. draft_trees outcomes.items
        ≡ map (possible_where (setting_in setting.now) possible)
        (plain.outcomes_of_both (setting_in setting.now).objects
        (effect_row (map effect_value effects.now)) scope.old.items)) }
    ensures scope { OnOk result (scope.new.items ≡ scope.old.items) }
{
    let mut made = no_change(alloc)?;
    for effect in effects {
        let next = outcomes(alloc, setting, possible, effect, scope)?;
        made = products(alloc, made, &next)?;
    }
    Ok(made)
}

/// The outcomes of a choice between effects. The scope is afterwards as it was before.
#[cycle(building)]
fn outcomes_of_either<'a>(
    alloc: Global,
    setting: &Setting,
    possible: bool,
    effects: &'a [Effect],
    scope: &mut Vec<ObjectId>,
) -> Result<Vec<OutcomeDraft<'a>>, AllocError>
    ensures outcomes { IfOk result (λ outcomes. draft_trees outcomes.items
        ≡ map (possible_where (setting_in setting.now) possible)
        (plain.outcomes_of_either (setting_in setting.now).objects
        (effect_row (map effect_value effects.now)) scope.old.items)) }
    ensures scope { OnOk result (scope.new.items ≡ scope.old.items) }
{
    let mut made = Vec::new(alloc);
    for effect in effects {
        let next = outcomes(alloc, setting, possible, effect, scope)?;
        push_all(&mut made, next)?;
    }
    Ok(made)
}

/// The outcomes of an effect for all of these bindings. The scope is afterwards as it was before.
#[cycle(building)]
fn outcomes_of_each<'a>(
    alloc: Global,
    all: &Bindings<'_, '_>,
    possible: bool,
    effect: &'a Effect,
    scope: &mut Vec<ObjectId>,
) -> Result<Vec<OutcomeDraft<'a>>, AllocError>
    ensures outcomes { let at = setting_in all.now.setting.now in
        IfOk result (λ outcomes. draft_trees outcomes.items
        ≡ map (possible_where at possible) (plain.product_of_all
        (map (λ chosen. plain.outcomes at.objects (effect_value effect.now)
        (scope.old.items ++ chosen)) (bindings at.objects all.now.types.now)))) }
    ensures scope { OnOk result (scope.new.items ≡ scope.old.items) }
{
    let Bindings { setting, types } = *all;
    let outer = scope.len();
    let count = setting.few_bindings(types)?;
    let mut made = no_change(alloc)?;
    for number in 0..count {
        setting.bind(types, count, number, scope)?;
        let next = outcomes(alloc, setting, possible, effect, scope)?;
        scope.truncate(outer);
        made = products(alloc, made, &next)?;
    }
    Ok(made)
}

/// The outcomes of an effect, where the variables in scope stand for these objects: of each the
/// changes that may come about, and none where the conditions around can't hold. The scope is
/// afterwards as it was before.
#[cycle(building)]
fn outcomes<'a>(
    alloc: Global,
    setting: &Setting,
    possible: bool,
    effect: &'a Effect,
    scope: &mut Vec<ObjectId>,
) -> Result<Vec<OutcomeDraft<'a>>, AllocError>
    ensures outcomes { IfOk result (λ outcomes. draft_trees outcomes.items
        ≡ map (possible_where (setting_in setting.now) possible)
        (plain.outcomes (setting_in setting.now).objects (effect_value effect.now)
        scope.old.items)) }
    ensures scope { OnOk result (scope.new.items ≡ scope.old.items) }
{
    match effect {
        Effect::Add(predicate, terms) => {
            let atom = Atom::of_terms(alloc, *predicate, terms, scope)?;
            Ok(one_change(alloc, possible, atom, true)?)
        }
        Effect::Delete(predicate, terms) => {
            let atom = Atom::of_terms(alloc, *predicate, terms, scope)?;
            Ok(one_change(alloc, possible, atom, false)?)
        }
        Effect::Both(parts) => Ok(outcomes_of_both(alloc, setting, possible, parts, scope)?),
        Effect::OneOf(parts) => Ok(outcomes_of_either(alloc, setting, possible, parts, scope)?),
        Effect::When(formula, part) => {
            let value = setting.value(alloc, formula, scope)?;
            let inner = may_also_hold(possible, value);
            let made = outcomes(alloc, setting, inner, part, scope)?;
            Ok(outcomes_under(alloc, formula, scope, made)?)
        }
        Effect::Each(types, part) => {
            let all = Bindings { setting, types };
            Ok(outcomes_of_each(alloc, &all, possible, part, scope)?)
        }
    }
}

/// The outcomes of an effect, where the variables in scope stand for these objects, each with the
/// changes that may come about. This is the one walk over the effect. The scope is afterwards as it
/// was before. Fails only where memory runs out, or where a quantifier or a `forall` has more than
/// 1,000,000 bindings, which none within the limit of size has.
pub(crate) fn effect_outcomes<'a>(
    alloc: Global,
    setting: &Setting,
    effect: &'a Effect,
    scope: &mut Vec<ObjectId>,
) -> Result<Vec<OutcomeDraft<'a>>, AllocError>
    ensures outcomes { IfOk result (λ outcomes. draft_trees outcomes.items
        ≡ map (plain.possible_changes (setting_in setting.now))
        (plain.outcomes (setting_in setting.now).objects (effect_value effect.now)
        scope.old.items)) }
    ensures scope { OnOk result (scope.new.items ≡ scope.old.items) }
{
    Ok(outcomes(alloc, setting, true, effect, scope)?)
}
