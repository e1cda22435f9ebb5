//! Which two fluents may both be true at the beginning, with no list of the initial states.

use search_space::{Bits, first_fluents};
use std::alloc::{AllocError, Global};
use task_core::{Alternative, InitSpec};

/// For each of so many fluents those that are true beside it in some initial state, itself among them
/// where it is true in one. States that the domain's set leaves out count.
pub(crate) fn first_pairs(
    alloc: Global,
    fluents: u32,
    init: &InitSpec,
) -> Result<Vec<Bits>, AllocError> {
    let facts = Bits::of(&init.facts).and(&first_fluents(fluents));
    let mut pairs = Vec::new(alloc);
    for fluent in 0..fluents {
        pairs.push(if facts.get(fluent) {
            facts
        } else {
            Bits::none()
        })?;
    }
    for entry in &init.entries {
        pairs = pairs_after(alloc, fluents, &pairs, entry)?;
    }
    Ok(pairs)
}

/// The same after one of some alternatives.
fn pairs_after(
    alloc: Global,
    fluents: u32,
    pairs: &[Bits],
    entry: &[Alternative],
) -> Result<Vec<Bits>, AllocError> {
    let singles = singles_of(fluents, pairs);
    let mut after = vec![in alloc; Bits::none(); fluents as usize]?;
    for alternative in entry {
        let written = Written::of(alternative);
        for fluent in 0..fluents {
            let row = written.row(pairs, &singles, fluent);
            if let Some(own) = after.get_mut(fluent as usize) {
                *own = own.or(&row);
            }
        }
    }
    Ok(after)
}

/// The fluents that are true in some state.
fn singles_of(fluents: u32, pairs: &[Bits]) -> Bits {
    let mut singles = Bits::none();
    for fluent in 0..fluents {
        singles.set(fluent, row_of(pairs, fluent).get(fluent));
    }
    singles
}

fn row_of(pairs: &[Bits], fluent: u32) -> Bits {
    match pairs.get(fluent as usize) {
        Some(row) => *row,
        None => Bits::none(),
    }
}

/// What an alternative makes true and false.
#[derive(Clone, Copy)]
struct Written {
    trues: Bits,
    falses: Bits,
}

impl Written {
    fn of(alternative: &Alternative) -> Written {
        let mut trues = Bits::none();
        let mut falses = Bits::none();
        for literal in &alternative.lits {
            if literal.positive {
                trues.set(literal.fluent.0, true);
            } else {
                falses.set(literal.fluent.0, true);
            }
        }
        Written {
            trues,
            falses: falses.without(&trues),
        }
    }

    /// The fluents that may be true beside one after the alternative.
    fn row(&self, pairs: &[Bits], singles: &Bits, fluent: u32) -> Bits {
        if self.trues.get(fluent) {
            return singles.without(&self.falses).or(&self.trues);
        }
        if self.falses.get(fluent) || !singles.get(fluent) {
            return Bits::none();
        }
        row_of(pairs, fluent).without(&self.falses).or(&self.trues)
    }
}
