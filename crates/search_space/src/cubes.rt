//! Partial states as lists of literals.

use crate::bits::Part;
use std::alloc::{AllocError, Global};
use task_core::{FluentId, Lit};

/// The literals of a partial state.
pub fn cube_of(alloc: Global, part: &Part) -> Result<Vec<Lit>, AllocError> {
    let mut cube = Vec::new(alloc);
    let mut left = part.care;
    for _ in 0..256 {
        let Some(fluent) = left.take_first() else {
            break;
        };
        cube.push(Lit {
            fluent: FluentId(fluent),
            positive: part.value.get(fluent),
        })?;
    }
    Ok(cube)
}

/// The partial state of literals; of two that contradict each other the last counts.
pub fn part_of(cube: &[Lit]) -> Part {
    let mut part = Part::none();
    for literal in cube {
        part.add(literal.fluent.0, literal.positive);
    }
    part
}
