//! That there is no plan, as sets of cubes.

use crate::plans::GuidedAnswer;
use search_space::{Part, Stop, cube_of};
use search_world::World;
use std::alloc::{AllocError, Global};
use task_core::{Class, Lit};

/// That there is no plan, by what is known of dead ends and a last set.
pub(crate) fn refused(
    world: &World<'_>,
    class: Class,
    last: Vec<Part>,
) -> Result<GuidedAnswer, Stop> {
    let alloc = world.alloc;
    let mut sets = Vec::new(alloc);
    let Some(buried) = world.buried() else {
        return Ok(GuidedAnswer::NoPlan(sets));
    };
    let mut whole = Vec::new(alloc);
    for set in buried {
        if class == Class::Cyclic {
            sets.push(cubes_of(alloc, set)?)?;
        } else {
            push_cubes(alloc, set, &mut whole)?;
        }
    }
    push_cubes(alloc, &last, &mut whole)?;
    if !whole.is_empty() {
        sets.push(whole)?;
    }
    Ok(GuidedAnswer::NoPlan(sets))
}

/// Partial states as cubes.
fn cubes_of(alloc: Global, parts: &[Part]) -> Result<Vec<Vec<Lit>>, AllocError> {
    let mut cubes = Vec::new(alloc);
    push_cubes(alloc, parts, &mut cubes)?;
    Ok(cubes)
}

/// Adds partial states as cubes.
fn push_cubes(alloc: Global, parts: &[Part], cubes: &mut Vec<Vec<Lit>>) -> Result<(), AllocError> {
    for part in parts {
        cubes.push(cube_of(alloc, part)?)?;
    }
    Ok(())
}
