//! Parts, and the shapes that have one.

use crate::shapes::{Part, Shape, Slot};
use crate::signatures::Signature;
use pddl_ast::TypeId;
use std::alloc::{AllocError, Global};

/// The shape of a signature in which the place with this number is counted, and all others are free.
pub(crate) fn single(
    alloc: Global,
    signature: &Signature,
    counted: usize,
) -> Result<Shape, AllocError> {
    let part = part_of(alloc, signature, counted)?;
    let mut parts = Vec::new(alloc);
    parts.push(part)?;
    Ok(Shape {
        free: free_types(alloc, signature, counted)?,
        parts,
    })
}

pub(crate) fn free_types(
    alloc: Global,
    signature: &Signature,
    counted: usize,
) -> Result<Vec<TypeId>, AllocError> {
    let mut free = Vec::new(alloc);
    for (place, type_id) in signature.types.iter().enumerate() {
        if place != counted {
            free.push(*type_id)?;
        }
    }
    Ok(free)
}

/// The part in which the place with this number is counted, and the others are free variables in their
/// order.
pub(crate) fn part_of(
    alloc: Global,
    signature: &Signature,
    counted: usize,
) -> Result<Part, AllocError> {
    let mut slots = Vec::new(alloc);
    for (place, type_id) in signature.types.iter().enumerate() {
        slots.push(slot_at(place, *type_id, counted))?;
    }
    Ok(Part {
        predicate: signature.predicate,
        slots,
    })
}

fn slot_at(place: usize, type_id: TypeId, counted: usize) -> Slot {
    if place == counted {
        Slot::Counted(type_id)
    } else if place > counted {
        Slot::Free(place - 1)
    } else {
        Slot::Free(place)
    }
}
