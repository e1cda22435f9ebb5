//! Atoms over objects.

ghost use Rattle.std.specs.Prelude.{◌≡◌, IfOk};
ghost use Rattle.ground_instances.specs.Atoms.{atom_tree};
ghost use Rattle.pddl_system.specs.GroundAtoms.{atom_of};
ghost use Rattle.pddl_system.specs.Objects.{object_of as the_object_of};

use pddl_ast::{ObjectId, Objects, PredicateId, Term};
use std::alloc::{AllocError, Global};

/// A predicate with an object for each of its terms. Equal ones have equal hashes.
#[derive(Debug, PartialEq, Eq, PartialOrd, Ord, Hash, Drop)]
pub struct Atom {
    pub predicate: PredicateId,
    pub objects: Objects,
}

/// An atom of a formula or of an effect: a predicate with terms.
#[derive(Clone, Copy, Debug)]
pub struct LiftedAtom<'a> {
    pub predicate: PredicateId,
    pub terms: &'a [Term],
}

impl Atom {
    /// The atom of a predicate and terms, where the variables in scope stand for these objects.
    /// Fails only where memory runs out.
    pub fn of_terms(
        alloc: Global,
        predicate: PredicateId,
        terms: &[Term],
        scope: &[ObjectId],
    ) -> Result<Atom, AllocError>
        ensures { IfOk result (λ atom. atom_tree atom ≡ atom_of scope.now predicate terms.now) }
    {
        let objects = terms
            .iter()
            .map(|term| object_of(scope, term))
            .collect(alloc)?;
        Ok(Atom { predicate, objects })
    }
}

/// The object that a term stands for, where the variables in scope stand for these objects. A
/// variable that isn't in scope stands for object 0.
pub fn object_of(scope: &[ObjectId], term: &Term) -> ObjectId
    ensures { result ≡ the_object_of scope.now term.now }
{
    match term {
        Term::Variable(number) => scope.get(*number).copied().unwrap_or(0),
        Term::Object(object) => *object,
    }
}
