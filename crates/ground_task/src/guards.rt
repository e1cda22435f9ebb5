//! Changes under the conditions of a `when`.

ghost use Rattle.std.specs.Prelude.{◌≡◌, ◌&&◌, ◌++◌, IfOk, map};
ghost use Rattle.std.specs.List.{flat_map};
ghost use Rattle.ground_instances.specs.Values.{known_value};
ghost use Rattle.ground_task.specs.Drafts.{draft_tree, draft_trees, guard_of, part_tree};
ghost use Rattle.pddl_system.specs.Outcomes.{under};
ghost use Rattle.pddl_system.specs.ThreeValues as three;

use crate::drafts::{OutcomeDraft, PartDraft, guarded_by};
use ground_instances::Value;
use pddl_ast::{Formula, ObjectId};
use std::alloc::{AllocError, Global};

/// Whether a formula of this value may hold.
fn may_hold(value: Value) -> bool
    ensures { result ≡ three.may_hold (known_value value) }
{
    match value {
        Value::No => false,
        Value::Unknown | Value::Yes => true,
    }
}

/// Whether the conditions around a `when` and its formula, which has this value, may hold.
pub(crate) fn may_also_hold(outer: bool, value: Value) -> bool
    ensures { result ≡ (outer && three.may_hold (known_value value)) }
{
    outer && may_hold(value)
}

/// A part under one more condition, around the others.
fn part_under<'a>(
    alloc: Global,
    formula: &'a Formula,
    scope: &[ObjectId],
    part: PartDraft<'a>,
) -> Result<PartDraft<'a>, AllocError>
    ensures { IfOk result (λ inner.
        part_tree inner ≡ map (under (guard_of formula.now scope.now)) (part_tree part.entry)) }
{
    let mut guards = part.guards;
    guards.insert(0, guarded_by(alloc, formula, scope)?)?;
    Ok(PartDraft {
        guards,
        changes: part.changes,
    })
}

/// An outcome under one more condition, around the others.
fn outcome_under<'a>(
    alloc: Global,
    formula: &'a Formula,
    scope: &[ObjectId],
    outcome: OutcomeDraft<'a>,
) -> Result<OutcomeDraft<'a>, AllocError>
    ensures { IfOk result (λ inner.
        draft_tree inner ≡ map (under (guard_of formula.now scope.now)) (draft_tree outcome.entry)) }
{
    let mut parts = Vec::new(alloc);
    for part in outcome.parts {
        parts.push(part_under(alloc, formula, scope, part)?)?;
    }
    Ok(OutcomeDraft { parts })
}

/// Outcomes under one more condition, around the others.
pub(crate) fn outcomes_under<'a>(
    alloc: Global,
    formula: &'a Formula,
    scope: &[ObjectId],
    outcomes: Vec<OutcomeDraft<'a>>,
) -> Result<Vec<OutcomeDraft<'a>>, AllocError>
    ensures { IfOk result (λ inner. draft_trees inner.items
        ≡ map (map (under (guard_of formula.now scope.now))) (draft_trees outcomes.entry.items)) }
{
    let mut inner = Vec::new(alloc);
    for outcome in outcomes {
        inner.push(outcome_under(alloc, formula, scope, outcome)?)?;
    }
    Ok(inner)
}
