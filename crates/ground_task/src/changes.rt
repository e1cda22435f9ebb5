//! Outcomes over fluents.

ghost use Rattle.std.specs.Prelude.{◌≡◌, ◌++◌, IfOk, OnOk, length, map, true};
ghost use Rattle.std.specs.List.{flat_map, list_all};
ghost use Rattle.ctl_syntax.specs.Conditions.{condition_value};
ghost use Rattle.ground_instances.specs.Tables.{setting_in};
ghost use Rattle.ground_task.specs.Built.{condition_at, literal_made, part_made};
ghost use Rattle.ground_task.specs.Drafts.{change_tree, draft_tree, draft_trees, guard_tree};
ghost use Rattle.ground_task.specs.Drafts.{guard_trees, part_tree};
ghost use Rattle.pddl_system.specs.Tasks.{change_of, changed_if};
ghost use Rattle.pddl_system.specs.Values.{change_has_literals, change_value};
ghost use Rattle.pddl_system.specs.Values.{outcome_has_literals, outcome_value};

use crate::conditions::condition;
use crate::drafts::{ChangeDraft, Guard, OutcomeDraft, PartDraft};
use crate::fluents::Fluents;
use ground_instances::Setting;
use std::alloc::{AllocError, Global};
use task_core::{Change, Cond, Lit, Outcome};

/// The condition of a guard.
fn guard_condition(
    alloc: Global,
    setting: &Setting,
    fluents: &Fluents,
    guard: &Guard<'_>,
) -> Result<Cond, AllocError>
    ensures { IfOk result (λ cond. condition_value cond
        ≡ condition_at (setting_in setting.now) fluents.now (guard_tree guard.now)) }
{
    let mut scope = Vec::from_slice(alloc, &guard.scope)?;
    Ok(condition(alloc, setting, fluents, guard.formula, &mut scope)?)
}

/// The conditions of guards.
fn guard_conditions(
    alloc: Global,
    setting: &Setting,
    fluents: &Fluents,
    guards: &[Guard<'_>],
) -> Result<Vec<Cond>, AllocError>
    ensures { IfOk result (λ conds. map condition_value conds.items
        ≡ map (condition_at (setting_in setting.now) fluents.now) (guard_trees guards.now)) }
{
    let mut conds = Vec::new(alloc);
    for guard in guards {
        conds.push(guard_condition(alloc, setting, fluents, guard)?)?;
    }
    Ok(conds)
}

/// That all guards hold: `Yes` where there are none.
fn all_hold(
    alloc: Global,
    setting: &Setting,
    fluents: &Fluents,
    guards: &[Guard<'_>],
) -> Result<Cond, AllocError>
    ensures { IfOk result (λ cond. condition_value cond
        ≡ changed_if (setting_in setting.now) fluents.now (guard_trees guards.now)) }
{
    if guards.is_empty() {
        return Ok(Cond::Yes);
    }
    Ok(Cond::All(guard_conditions(alloc, setting, fluents, guards)?))
}

/// The literal of an atom that is changed.
fn literal(fluents: &Fluents, draft: &ChangeDraft) -> Lit
    ensures { result ≡ literal_made fluents.now (change_tree draft.now) }
{
    Lit {
        fluent: fluents.place_of(&draft.atom),
        positive: draft.positive,
    }
}

/// The literals of atoms that are changed.
fn literals(
    alloc: Global,
    fluents: &Fluents,
    drafts: &[ChangeDraft],
) -> Result<Vec<Lit>, AllocError>
    ensures { IfOk result (λ lits. lits.items
        ≡ map (literal_made fluents.now) (map change_tree drafts.now)) }
{
    let mut lits = Vec::with_capacity(alloc, drafts.len())?;
    for draft in drafts {
        lits.push(literal(fluents, draft))?;
    }
    Ok(lits)
}

/// The change of a part: its literals, and its condition once.
fn part_change(
    alloc: Global,
    setting: &Setting,
    fluents: &Fluents,
    part: &PartDraft<'_>,
) -> Result<Change, AllocError>
    ensures value { IfOk result (λ change. change_value change
        ≡ part_made (setting_in setting.now) fluents.now part.now) }
    ensures count { IfOk result (λ change. length change.lits.items
        ≡ length part.now.changes.items) }
{
    let cond = all_hold(alloc, setting, fluents, &part.guards)?;
    let lits = literals(alloc, fluents, &part.changes)?;
    Ok(Change { cond, lits })
}

/// Adds the change of a part after the others; none where the part has no literals.
#[tactic(auto, using(crate::proofs::PartTrees::one_change_more, crate::proofs::PartTrees::one_saying_more))]
fn push_part(
    alloc: Global,
    setting: &Setting,
    fluents: &Fluents,
    part: &PartDraft<'_>,
    changes: &mut Vec<Change>,
) -> Result<(), AllocError>
    ensures value { OnOk result (flat_map change_value changes.new.items
        ≡ flat_map change_value changes.old.items
        ++ part_made (setting_in setting.now) fluents.now part.now) }
    ensures says { OnOk result (list_all change_has_literals changes.old.items ≡ true
        → list_all change_has_literals changes.new.items ≡ true) }
{
    if part.changes.is_empty() {
        return Ok(());
    }
    let change = part_change(alloc, setting, fluents, part)?;
    changes.push(change)?;
    Ok(())
}

/// The outcome of a draft.
fn outcome(
    alloc: Global,
    setting: &Setting,
    fluents: &Fluents,
    parts: &[PartDraft<'_>],
) -> Result<Outcome, AllocError>
    ensures value { IfOk result (λ outcome. outcome_value outcome
        ≡ flat_map (part_made (setting_in setting.now) fluents.now) parts.now) }
    ensures says { IfOk result (λ outcome. outcome_has_literals outcome ≡ true) }
{
    let mut changes = Vec::new(alloc);
    for part in parts {
        push_part(alloc, setting, fluents, part, &mut changes)?;
    }
    Ok(Outcome { changes })
}

/// The outcome of a draft.
fn drafted_outcome(
    alloc: Global,
    setting: &Setting,
    fluents: &Fluents,
    draft: &OutcomeDraft<'_>,
) -> Result<Outcome, AllocError>
    ensures value { IfOk result (λ outcome. outcome_value outcome
        ≡ map (change_of (setting_in setting.now) fluents.now) (draft_tree draft.now)) }
    ensures says { IfOk result (λ outcome. outcome_has_literals outcome ≡ true) }
{
    Ok(outcome(alloc, setting, fluents, &draft.parts)?)
}

/// The outcomes of drafts.
pub(crate) fn drafted_outcomes(
    alloc: Global,
    setting: &Setting,
    fluents: &Fluents,
    drafts: &[OutcomeDraft<'_>],
) -> Result<Vec<Outcome>, AllocError>
    ensures value { IfOk result (λ outcomes. map outcome_value outcomes.items
        ≡ map (map (change_of (setting_in setting.now) fluents.now)) (draft_trees drafts.now)) }
    ensures says { IfOk result (λ outcomes. list_all outcome_has_literals outcomes.items ≡ true) }
{
    let mut outcomes = Vec::new(alloc);
    for draft in drafts {
        outcomes.push(drafted_outcome(alloc, setting, fluents, draft)?)?;
    }
    Ok(outcomes)
}
