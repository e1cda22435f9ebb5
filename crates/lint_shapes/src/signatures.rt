//! The types of the atoms that effects add.

use crate::types::joined;
use crate::world::World;
use pddl_ast::{Effect, PredicateId, Term, TypeId};
use std::alloc::AllocError;

/// The most signatures that are looked at.
const MOST_SIGNATURES: usize = 64;

/// A predicate, and a type for each of its places.
#[derive(Drop, PartialEq, Eq)]
pub(crate) struct Signature {
    pub(crate) predicate: PredicateId,
    pub(crate) types: Vec<TypeId>,
}

/// The signatures of the atoms that the actions of a domain add.
pub(crate) fn signatures(world: &World<'_>) -> Result<Vec<Signature>, AllocError> {
    let mut found = Vec::new(world.alloc);
    for schema in &world.domain.actions {
        let mut scope = Vec::from_slice(world.alloc, &schema.parameters)?;
        add_signatures(world, &schema.effect, &mut scope, &mut found)?;
    }
    add_joined(world, &mut found)?;
    Ok(found)
}

/// Adds those of the atoms that an effect adds, where variables in scope have these types.
fn add_signatures(
    world: &World<'_>,
    effect: &Effect,
    scope: &mut Vec<TypeId>,
    found: &mut Vec<Signature>,
) -> Result<(), AllocError> {
    match effect {
        Effect::Add(predicate, terms) => {
            let types = types_of(world, terms, scope)?;
            add_signature(*predicate, types, found)
        }
        Effect::Delete(_, _) => Ok(()),
        Effect::Both(parts) => {
            for part in parts {
                add_signatures(world, part, scope, found)?;
            }
            Ok(())
        }
        Effect::OneOf(parts) => {
            for part in parts {
                add_signatures(world, part, scope, found)?;
            }
            Ok(())
        }
        Effect::When(_, part) => add_signatures(world, part, scope, found),
        Effect::Each(types, part) => {
            let outer = scope.len();
            scope.extend_from_slice(types)?;
            add_signatures(world, part, scope, found)?;
            scope.truncate(outer);
            Ok(())
        }
    }
}

fn types_of(
    world: &World<'_>,
    terms: &[Term],
    scope: &[TypeId],
) -> Result<Vec<TypeId>, AllocError> {
    let mut types = Vec::new(world.alloc);
    for term in terms {
        types.push(type_of_term(world, *term, scope))?;
    }
    Ok(types)
}

fn type_of_term(world: &World<'_>, term: Term, scope: &[TypeId]) -> TypeId {
    match term {
        Term::Variable(number) => scope.get(number).copied().unwrap_or(0),
        Term::Object(object) => world.type_of(object),
    }
}

/// Adds a signature, if there is room and it isn't there.
fn add_signature(
    predicate: PredicateId,
    types: Vec<TypeId>,
    found: &mut Vec<Signature>,
) -> Result<(), AllocError> {
    let signature = Signature { predicate, types };
    if found.len() < MOST_SIGNATURES && !found.contains(&signature) {
        found.push(signature)?;
    }
    Ok(())
}

/// Adds, for each two signatures of a predicate, the one with the nearest types that both are under.
fn add_joined(world: &World<'_>, found: &mut Vec<Signature>) -> Result<(), AllocError> {
    let count = found.len();
    for first in 0..count {
        for second in 0..first {
            if let Some(types) = joined_types(world, found, first, second)? {
                let predicate = predicate_at(found, first);
                add_signature(predicate, types, found)?;
            }
        }
    }
    Ok(())
}

fn predicate_at(found: &[Signature], number: usize) -> PredicateId {
    match found.get(number) {
        Some(signature) => signature.predicate,
        None => 0,
    }
}

/// The nearest types that two signatures of one predicate are under.
fn joined_types(
    world: &World<'_>,
    found: &[Signature],
    first: usize,
    second: usize,
) -> Result<Option<Vec<TypeId>>, AllocError> {
    let Some(one) = found.get(first) else {
        return Ok(None);
    };
    let Some(other) = found.get(second) else {
        return Ok(None);
    };
    if one.predicate != other.predicate {
        return Ok(None);
    }
    Ok(Some(joined_each(world, &one.types, &other.types)?))
}

/// The nearest type that both are under, place by place.
fn joined_each(
    world: &World<'_>,
    types: &[TypeId],
    others: &[TypeId],
) -> Result<Vec<TypeId>, AllocError> {
    let mut found = Vec::new(world.alloc);
    for (type_id, other) in types.iter().zip(others) {
        found.push(joined(&world.domain.parents, *type_id, *other))?;
    }
    Ok(found)
}
