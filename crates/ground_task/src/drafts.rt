//! Outcomes over atoms, before the fluents have numbers.

ghost use Rattle.std.specs.Prelude.{◌≡◌, ◌++◌, [], true, IfOk, OnOk, map};
ghost use Rattle.std.specs.List.{flat_map};
ghost use Rattle.ground_instances.specs.Atoms.{atom_tree};
ghost use Rattle.ground_task.specs.Drafts.{change_tree, guard_of, guard_tree, guard_trees};
ghost use Rattle.ground_task.specs.Drafts.{part_tree};

use ground_instances::{Atom, Instance};
use pddl_ast::{Formula, ObjectId, Objects};
use std::alloc::{AllocError, Global};

/// The formula of a `when`, and the objects that the variables in scope stand for.
#[derive(Drop)]
pub(crate) struct Guard<'a> {
    pub formula: &'a Formula,
    pub scope: Objects,
}

/// An atom that is added (positive) or deleted.
#[derive(Drop)]
pub(crate) struct ChangeDraft {
    pub atom: Atom,
    pub positive: bool,
}

/// Changes that come about under the same conditions, those of the outermost `when` first.
#[derive(Drop)]
pub(crate) struct PartDraft<'a> {
    pub guards: Vec<Guard<'a>>,
    pub changes: Vec<ChangeDraft>,
}

/// An outcome: the changes of its parts, one after the other.
#[derive(Drop)]
pub(crate) struct OutcomeDraft<'a> {
    pub parts: Vec<PartDraft<'a>>,
}

/// The outcomes of a kept instance.
#[derive(Drop)]
pub(crate) struct ActionDraft<'a> {
    pub instance: &'a Instance,
    pub outcomes: Vec<OutcomeDraft<'a>>,
}

/// A copy of an atom.
pub(crate) fn copied_atom(alloc: Global, atom: &Atom) -> Result<Atom, AllocError>
    ensures { IfOk result (λ copy. atom_tree copy ≡ atom_tree atom.now) }
{
    Ok(Atom {
        predicate: atom.predicate,
        objects: Objects::from_slice(alloc, &atom.objects)?,
    })
}

/// The guard of a formula, where the variables in scope stand for these objects.
pub(crate) fn guarded_by<'a>(
    alloc: Global,
    formula: &'a Formula,
    scope: &[ObjectId],
) -> Result<Guard<'a>, AllocError>
    ensures { IfOk result (λ guard. guard_tree guard ≡ guard_of formula.now scope.now) }
{
    Ok(Guard {
        formula,
        scope: Objects::from_slice(alloc, scope)?,
    })
}

/// Copies of guards.
fn copied_guards<'a>(alloc: Global, guards: &[Guard<'a>]) -> Result<Vec<Guard<'a>>, AllocError>
    ensures { IfOk result (λ copies. guard_trees copies.items ≡ guard_trees guards.now) }
{
    let mut copies = Vec::new(alloc);
    for listed in guards {
        copies.push(guarded_by(alloc, listed.formula, &listed.scope)?)?;
    }
    Ok(copies)
}

/// Adds copies of changes after the others.
fn add_changes(
    alloc: Global,
    changes: &mut Vec<ChangeDraft>,
    more: &[ChangeDraft],
) -> Result<(), AllocError>
    ensures { OnOk result (map change_tree changes.new.items
        ≡ map change_tree changes.old.items ++ map change_tree more.now) }
{
    for change in more {
        changes.push(ChangeDraft {
            atom: copied_atom(alloc, &change.atom)?,
            positive: change.positive,
        })?;
    }
    Ok(())
}

/// A copy of a part.
fn copied_part<'a>(alloc: Global, part: &PartDraft<'a>) -> Result<PartDraft<'a>, AllocError>
    ensures { IfOk result (λ copy. part_tree copy ≡ part_tree part.now) }
{
    let guards = copied_guards(alloc, &part.guards)?;
    let mut changes = Vec::new(alloc);
    add_changes(alloc, &mut changes, &part.changes)?;
    Ok(PartDraft { guards, changes })
}

/// Whether both parts come about under no condition.
fn are_unconditional(first: &PartDraft<'_>, second: &PartDraft<'_>) -> bool
    ensures { result ≡ true → (first.now.guards.items ≡ []) × (second.now.guards.items ≡ []) }
{
    first.guards.is_empty() && second.guards.is_empty()
}

/// The first part with copies of the second's changes after its own. Both come about under no
/// condition.
fn merged<'a>(
    alloc: Global,
    first: PartDraft<'a>,
    second: &PartDraft<'a>,
) -> Result<PartDraft<'a>, AllocError>
    requires first { first.guards.items ≡ [] }
    requires second { second.now.guards.items ≡ [] }
    ensures { IfOk result (λ both. part_tree both ≡ part_tree first.entry ++ part_tree second.now) }
{
    let mut changes = first.changes;
    add_changes(alloc, &mut changes, &second.changes)?;
    Ok(PartDraft {
        guards: first.guards,
        changes,
    })
}

/// Adds a copy of a part after the others. Its changes go into the last of them, where both come
/// about under no condition.
fn add_part<'a>(
    alloc: Global,
    parts: &mut Vec<PartDraft<'a>>,
    part: &PartDraft<'a>,
) -> Result<(), AllocError>
    ensures { OnOk result (flat_map part_tree parts.new.items
        ≡ flat_map part_tree parts.old.items ++ part_tree part.now) }
{
    let Some(last) = parts.pop() else {
        parts.push(copied_part(alloc, part)?)?;
        return Ok(());
    };
    if are_unconditional(&last, part) {
        parts.push(merged(alloc, last, part)?)?;
        return Ok(());
    }
    parts.push(last)?;
    parts.push(copied_part(alloc, part)?)?;
    Ok(())
}

/// Adds copies of parts after the others.
pub(crate) fn add_parts<'a>(
    alloc: Global,
    parts: &mut Vec<PartDraft<'a>>,
    more: &[PartDraft<'a>],
) -> Result<(), AllocError>
    ensures { OnOk result (flat_map part_tree parts.new.items
        ≡ flat_map part_tree parts.old.items ++ flat_map part_tree more.now) }
{
    for part in more {
        add_part(alloc, parts, part)?;
    }
    Ok(())
}
