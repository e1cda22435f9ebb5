//! Outcomes of effects that happen together.

ghost use Rattle.std.specs.Prelude.{◌≡◌, ◌++◌, ◌∷◌, [], IfOk, OnOk, map};
ghost use Rattle.ground_task.specs.Drafts.{draft_tree, draft_trees};
ghost use Rattle.pddl_system.specs.Outcomes as plain;

use crate::drafts::{OutcomeDraft, add_parts};
use std::alloc::{AllocError, Global};

/// The one outcome that changes nothing.
pub(crate) fn no_change<'a>(alloc: Global) -> Result<Vec<OutcomeDraft<'a>>, AllocError>
    ensures { IfOk result (λ outcomes. draft_trees outcomes.items ≡ [] ∷ []) }
{
    let mut outcomes = Vec::new(alloc);
    outcomes.push(OutcomeDraft {
        parts: Vec::new(alloc),
    })?;
    Ok(outcomes)
}

/// The outcome `first` and after it the changes of `second`.
fn joined<'a>(
    alloc: Global,
    first: OutcomeDraft<'a>,
    second: &OutcomeDraft<'a>,
) -> Result<OutcomeDraft<'a>, AllocError>
    ensures { IfOk result (λ both. draft_tree both ≡ draft_tree first.entry ++ draft_tree second.now) }
{
    let mut parts = first.parts;
    add_parts(alloc, &mut parts, &second.parts)?;
    Ok(OutcomeDraft { parts })
}

/// A copy of an outcome.
fn copied<'a>(alloc: Global, outcome: &OutcomeDraft<'a>) -> Result<OutcomeDraft<'a>, AllocError>
    ensures { IfOk result (λ copy. draft_tree copy ≡ draft_tree outcome.now) }
{
    let mut parts = Vec::new(alloc);
    add_parts(alloc, &mut parts, &outcome.parts)?;
    Ok(OutcomeDraft { parts })
}

/// Adds the outcome `first` with each of the second ones, in their order.
fn push_products<'a>(
    alloc: Global,
    first: OutcomeDraft<'a>,
    seconds: &[OutcomeDraft<'a>],
    products: &mut Vec<OutcomeDraft<'a>>,
) -> Result<(), AllocError>
    ensures { OnOk result (draft_trees products.new.items ≡ draft_trees products.old.items
        ++ map (λ second. draft_tree first.entry ++ second) (draft_trees seconds.now)) }
{
    for second in seconds {
        let copy = copied(alloc, &first)?;
        products.push(joined(alloc, copy, second)?)?;
    }
    Ok(())
}

/// Adds the outcome `first` with the one second outcome.
fn push_product<'a>(
    alloc: Global,
    first: OutcomeDraft<'a>,
    second: &OutcomeDraft<'a>,
    products: &mut Vec<OutcomeDraft<'a>>,
) -> Result<(), AllocError>
    ensures { OnOk result (draft_trees products.new.items ≡ draft_trees products.old.items
        ++ (draft_tree first.entry ++ draft_tree second.now) ∷ []) }
{
    products.push(joined(alloc, first, second)?)?;
    Ok(())
}

/// Each of the first outcomes with each of the second ones; the first change slowest. Where there
/// is one second outcome, the first ones are made longer and not copied.
pub(crate) fn products<'a>(
    alloc: Global,
    firsts: Vec<OutcomeDraft<'a>>,
    seconds: &[OutcomeDraft<'a>],
) -> Result<Vec<OutcomeDraft<'a>>, AllocError>
    ensures { IfOk result (λ products. draft_trees products.items
        ≡ plain.products (draft_trees firsts.entry.items) (draft_trees seconds.now)) }
{
    let mut products = Vec::new(alloc);
    for first in firsts {
        if seconds.len() == 1 {
            push_product(alloc, first, &seconds[0], &mut products)?;
        } else {
            push_products(alloc, first, seconds, &mut products)?;
        }
    }
    Ok(products)
}
