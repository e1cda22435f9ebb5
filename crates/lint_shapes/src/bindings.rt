//! Objects for the free variables of a shape, and the atoms of the group that they choose.

ghost use Rattle.std.specs.Prelude.{◌≡◌};
ghost use Rattle.task_core.specs.States.{IsWithin};
ghost use Rattle.task_core.specs.Tasks.{fluent_count};

use crate::shapes::{Part, Shape, Slot};
use crate::world::{Atom, World};
use pddl_ast::{ObjectId, TypeId};
use std::alloc::{AllocError, Global};
use task_core::{FluentId, State};

/// The most bindings of a shape that are looked at.
pub(crate) const MOST_BINDINGS: usize = 256;

/// Objects of these types, one for each free variable, in every way; `None` where there are too many.
pub(crate) fn bindings(
    world: &World<'_>,
    types: &[TypeId],
) -> Result<Option<Vec<Vec<ObjectId>>>, AllocError> {
    let mut found = Vec::new(world.alloc);
    found.push(Vec::new(world.alloc))?;
    for type_id in types {
        found = extended(world, &found, *type_id)?;
        if found.len() > MOST_BINDINGS {
            return Ok(None);
        }
    }
    Ok(Some(found))
}

/// Each of the bindings with each object of a type after it, as long as there are not too many.
fn extended(
    world: &World<'_>,
    shorter: &[Vec<ObjectId>],
    type_id: TypeId,
) -> Result<Vec<Vec<ObjectId>>, AllocError> {
    let mut found = Vec::new(world.alloc);
    for binding in shorter {
        for object in 0..world.objects() {
            if found.len() <= MOST_BINDINGS && world.is_of(object, type_id) {
                found.push(with_object(world.alloc, binding, object)?)?;
            }
        }
    }
    Ok(found)
}

fn with_object(
    alloc: Global,
    binding: &[ObjectId],
    object: ObjectId,
) -> Result<Vec<ObjectId>, AllocError> {
    let mut longer = Vec::from_slice(alloc, binding)?;
    longer.push(object)?;
    Ok(longer)
}

/// The fluents of the group of a shape that a binding chooses.
pub(crate) fn members_of(world: &World<'_>, shape: &Shape, binding: &[ObjectId]) -> State
    ensures { IsWithin (fluent_count world.now.task.now) result }
{
    let mut members = State::none();
    for number in 0..world.task.fluents.len() {
        if is_member(world, shape, binding, number) {
            members = members.with(FluentId(number as u32), true);
        }
    }
    members
}

/// Whether the fluent with this number is in the group.
fn is_member(world: &World<'_>, shape: &Shape, binding: &[ObjectId], number: usize) -> bool {
    match world.fluents.get(number) {
        Some(atom) => is_of_shape(world, shape, binding, atom),
        None => false,
    }
}

/// How many constant facts are atoms of the group.
pub(crate) fn constants_of(world: &World<'_>, shape: &Shape, binding: &[ObjectId]) -> usize {
    let mut count: usize = 0;
    for atom in world.constants {
        if is_of_shape(world, shape, binding, atom) {
            count = count.saturating_add(1);
        }
    }
    count
}

/// Whether an atom is one of some part.
fn is_of_shape(world: &World<'_>, shape: &Shape, binding: &[ObjectId], atom: &Atom) -> bool {
    for part in &shape.parts {
        if is_of_part(world, part, binding, atom) {
            return true;
        }
    }
    false
}

pub(crate) fn is_of_part(
    world: &World<'_>,
    part: &Part,
    binding: &[ObjectId],
    atom: &Atom,
) -> bool {
    part.predicate == atom.predicate
        && part.slots.len() == atom.objects.len()
        && fit(world, &part.slots, binding, &atom.objects)
}

/// Whether each object fits what stands at its place.
fn fit(world: &World<'_>, slots: &[Slot], binding: &[ObjectId], objects: &[ObjectId]) -> bool {
    for (slot, object) in slots.iter().zip(objects) {
        if !fits(world, *slot, binding, *object) {
            return false;
        }
    }
    true
}

/// Whether an object fits what stands at a place.
fn fits(world: &World<'_>, slot: Slot, binding: &[ObjectId], object: ObjectId) -> bool {
    match slot {
        Slot::Free(number) => is_bound(binding, number, object),
        Slot::Counted(type_id) => world.is_of(object, type_id),
    }
}

/// Whether the free variable with this number stands for the object.
fn is_bound(binding: &[ObjectId], number: usize, object: ObjectId) -> bool {
    match binding.get(number) {
        Some(bound) => *bound == object,
        None => false,
    }
}
