//! The atoms that fluents and facts are.

use crate::types::is_under;
use pddl_ast::{Domain, GroundAtom, ObjectId, PredicateId, Problem, TypeId};
use std::alloc::{AllocError, Global};
use std::rc::RcStr;
use task_core::Task;

/// A predicate with an object for each of its places.
#[derive(Drop, PartialEq, Eq)]
pub(crate) struct Atom {
    pub(crate) predicate: PredicateId,
    pub(crate) objects: Vec<ObjectId>,
}

/// A domain, a problem of it, the task that they are, and the atoms of its fluents, in the order of
/// their numbers.
#[derive(Clone, Copy)]
pub(crate) struct World<'a> {
    pub(crate) alloc: Global,
    pub(crate) domain: &'a Domain,
    pub(crate) problem: &'a Problem,
    pub(crate) task: &'a Task,
    pub(crate) fluents: &'a [Atom],
    /// The facts that are no fluents, though their predicate has some: they are true in every state.
    pub(crate) constants: &'a [Atom],
}

impl World<'_> {
    pub(crate) fn type_of(&self, object: ObjectId) -> TypeId {
        type_in(self.domain, self.problem, object)
    }

    pub(crate) fn is_of(&self, object: ObjectId, type_id: TypeId) -> bool {
        is_under(&self.domain.parents, self.type_of(object), type_id)
    }

    pub(crate) fn objects(&self) -> usize {
        self.domain
            .constants
            .len()
            .saturating_add(self.problem.objects.len())
    }
}

/// The type of an object: the constants come first.
fn type_in(domain: &Domain, problem: &Problem, object: ObjectId) -> TypeId {
    match domain.constants.get(object) {
        Some(named) => named.type_id,
        None => later_type(problem, object.saturating_sub(domain.constants.len())),
    }
}

fn later_type(problem: &Problem, number: usize) -> TypeId {
    match problem.objects.get(number) {
        Some(named) => named.type_id,
        None => 0,
    }
}

pub(crate) fn fluent_atoms(
    alloc: Global,
    domain: &Domain,
    problem: &Problem,
    task: &Task,
) -> Result<Vec<Atom>, AllocError> {
    let mut atoms = Vec::new(alloc);
    for name in &task.fluents {
        atoms.push(atom_of(alloc, domain, problem, name)?)?;
    }
    Ok(atoms)
}

fn atom_of(
    alloc: Global,
    domain: &Domain,
    problem: &Problem,
    name: &[RcStr],
) -> Result<Atom, AllocError> {
    let mut objects = Vec::new(alloc);
    let mut predicate = domain.predicates.len();
    for (place, word) in name.iter().enumerate() {
        let bytes = word.as_str().as_bytes();
        if place == 0 {
            predicate = predicate_named(domain, bytes);
        } else {
            objects.push(object_named(domain, problem, bytes))?;
        }
    }
    Ok(Atom { predicate, objects })
}

fn predicate_named(domain: &Domain, name: &[u8]) -> PredicateId {
    for (number, predicate) in domain.predicates.iter().enumerate() {
        if predicate.name.is(name) {
            return number;
        }
    }
    domain.predicates.len()
}

fn object_named(domain: &Domain, problem: &Problem, name: &[u8]) -> ObjectId {
    let constants = domain.constants.len();
    for (number, object) in domain.constants.iter().enumerate() {
        if object.name.is(name) {
            return number;
        }
    }
    for (number, object) in problem.objects.iter().enumerate() {
        if object.name.is(name) {
            return constants.saturating_add(number);
        }
    }
    constants.saturating_add(problem.objects.len())
}

/// The facts of a problem that are no fluents, though their predicate has some.
pub(crate) fn constant_atoms(
    alloc: Global,
    problem: &Problem,
    fluents: &[Atom],
) -> Result<Vec<Atom>, AllocError> {
    let mut atoms = Vec::new(alloc);
    for fact in &problem.facts {
        if is_changed(fluents, fact.predicate) {
            add_constant(alloc, fact, fluents, &mut atoms)?;
        }
    }
    Ok(atoms)
}

/// Adds a fact, if it is no fluent and not there.
fn add_constant(
    alloc: Global,
    fact: &GroundAtom,
    fluents: &[Atom],
    atoms: &mut Vec<Atom>,
) -> Result<(), AllocError> {
    let atom = Atom {
        predicate: fact.predicate,
        objects: Vec::from_slice(alloc, &fact.objects)?,
    };
    if !fluents.contains(&atom) && !atoms.contains(&atom) {
        atoms.push(atom)?;
    }
    Ok(())
}

fn is_changed(fluents: &[Atom], predicate: PredicateId) -> bool {
    for atom in fluents {
        if atom.predicate == predicate {
            return true;
        }
    }
    false
}
