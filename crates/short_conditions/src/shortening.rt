//! Short conditions.

ghost use Rattle.std.specs.Prelude.{◌≡◌, ◌≤◌, ◌+◌, ℕ, Bool, IfOk, OnOk, map, not, true};
ghost use Rattle.std.specs.List.{list_all};
ghost use Rattle.task_core.specs.Conditions.{depth, greatest, holds, ids_below};
ghost use Rattle.short_conditions.specs.Drafts.{Adds, IsDraft};
ghost use Rattle.short_conditions.specs.Joining.{IsMade, joined, signed, truths};

use crate::drafts::{Draft, constant, literal};
use std::alloc::{AllocError, Global};
use task_core::Cond;

/// A condition that means the same and mostly has fewer parts.
///
/// Negations stand at fluents alone. A conjunction in a conjunction is one with it. Of parts that are
/// built in one way one is left. Parts that hold always are left out of a conjunction, and one with a
/// literal and its negation holds never; for a disjunction it is the other way round. How short the
/// condition gets is not promised. The time grows with the number of parts times the depth.
pub fn short_condition(alloc: Global, cond: &Cond) -> Result<Cond, AllocError>
    ensures same { IfOk result (λ short. (value : ℕ → Bool) → holds short value ≡ holds cond.now value) }
    ensures fluents { IfOk result (λ short. (n : ℕ) → ids_below n cond.now ≡ true
        → ids_below n short ≡ true) }
    ensures depth { IfOk result (λ short. depth short ≤ depth cond.now) }
{
    let short = signed_condition(alloc, cond, true)?;
    Ok(short)
}

/// A short condition that means the same as a condition (positive), or its negation.
fn signed_condition(alloc: Global, cond: &Cond, positive: bool) -> Result<Cond, AllocError>
    ensures { IfOk result (IsMade (λ value. signed positive (holds cond.now value))
        (λ n. ids_below n cond.now) (depth cond.now)) }
{
    match cond {
        Cond::Yes => Ok(constant(positive)),
        Cond::No => Ok(constant(!positive)),
        Cond::Is(fluent) => {
            let short = literal(alloc, *fluent, positive)?;
            Ok(short)
        }
        Cond::Not(part) => {
            let short = signed_condition(alloc, part, !positive)?;
            Ok(short)
        }
        Cond::All(parts) => {
            let draft = joined_draft(alloc, parts, positive, positive)?;
            Ok(draft.into_condition())
        }
        Cond::Any(parts) => {
            let draft = joined_draft(alloc, parts, positive, !positive)?;
            Ok(draft.into_condition())
        }
    }
}

/// The conjunction (all) or the disjunction of conditions (positive), or of their negations.
fn joined_draft(
    alloc: Global,
    parts: &[Cond],
    positive: bool,
    all: bool,
) -> Result<Draft, AllocError>
    ensures { IfOk result (IsDraft all (λ value. joined all (truths positive parts.now value))
        (λ n. list_all (ids_below n) parts.now) (greatest (map depth parts.now))) }
{
    let mut draft = Draft::new(alloc, all);
    add_parts(alloc, &mut draft, parts, positive)?;
    Ok(draft)
}

/// Adds conditions (positive), or their negations, to a draft.
#[cycle(adding)]
fn add_parts(
    alloc: Global,
    draft: &mut Draft,
    parts: &[Cond],
    positive: bool,
) -> Result<(), AllocError>
    ensures { OnOk result (Adds (λ all value. joined all (truths positive parts.now value))
        (λ n. list_all (ids_below n) parts.now) (greatest (map depth parts.now))
        draft.old draft.new) }
{
    for part in parts {
        add_part(alloc, draft, part, positive)?;
    }
    Ok(())
}

/// Adds a condition (positive), or its negation, to a draft.
#[cycle(adding)]
fn add_part(alloc: Global, draft: &mut Draft, cond: &Cond, positive: bool) -> Result<(), AllocError>
    ensures { OnOk result (Adds (λ _ value. signed positive (holds cond.now value))
        (λ n. ids_below n cond.now) (depth cond.now) draft.old draft.new) }
{
    match cond {
        Cond::Yes => {
            draft.add_constant(positive);
            Ok(())
        }
        Cond::No => {
            draft.add_constant(!positive);
            Ok(())
        }
        Cond::Is(fluent) => {
            draft.add_literal(alloc, *fluent, positive)?;
            Ok(())
        }
        Cond::Not(part) => {
            add_part(alloc, draft, part, !positive)?;
            Ok(())
        }
        Cond::All(parts) => {
            let mut inner = Draft::new(alloc, positive);
            add_parts(alloc, &mut inner, parts, positive)?;
            draft.add_draft(alloc, inner)?;
            Ok(())
        }
        Cond::Any(parts) => {
            let mut inner = Draft::new(alloc, !positive);
            add_parts(alloc, &mut inner, parts, positive)?;
            draft.add_draft(alloc, inner)?;
            Ok(())
        }
    }
}
