//! What a domain and a problem fix before any action is looked at.

ghost use Rattle.std.specs.Prelude.{◌≡◌, true, IfOk};
ghost use Rattle.ground_instances.specs.Atoms.{atom_tree};
ghost use Rattle.ground_instances.specs.Tables.{setting_in};
ghost use Rattle.pddl_ast.specs.Fits.{FitsDomain, FitsProblem};
ghost use Rattle.pddl_ast.specs.Values.{domain_value, problem_value};
ghost use Rattle.pddl_system.specs.Settings.{setting};
ghost use Rattle.pddl_system.specs.Sizes.{keeps, object_limit};

use crate::atoms::Atom;
use crate::changed::{changed_predicates, fact_set};
use crate::objects::{ObjectLists, objects_by_type};
use indexmap::IndexSet;
use pddl_ast::{Domain, ObjectId, PredicateId, Problem, TypeId};
use std::alloc::{AllocError, Global};
use std::marker::Model;

/// The objects of each type, which predicates never change, and which atoms are initially true for
/// certain. A clause sees tables, and says of which setting they are by `setting_in`.
#[derive(Drop)]
pub struct Setting {
    /// The objects of each type, in their order.
    objects: ObjectLists,
    /// The predicates that an effect changes or that an uncertain entry names.
    changed: IndexSet<PredicateId>,
    /// The atoms that are initially true.
    facts: IndexSet<Atom>,
}

impl Model for Setting {
    ghost use Rattle.std.specs.Prelude.{map};
    ghost use Rattle.ground_instances.specs.Atoms.{atom_tree};
    ghost use Rattle.ground_instances.specs.Entering.{shared_lists};
    ghost use Rattle.ground_instances.specs.Tables.{Tables};

    ghost Value = { Tables };

    ghost view = { λ s. record {
      objects = shared_lists s.objects.places.items s.objects.lists.items;
      changed = s.changed.keys;
      facts = map atom_tree s.facts.keys;
    } };
}

impl Setting {
    /// The setting of a domain and a problem with at most 1,024 constants and objects. Fails only
    /// where memory runs out.
    pub fn new(alloc: Global, domain: &Domain, problem: &Problem) -> Result<Setting, AllocError>
        requires fits_domain { FitsDomain (domain_value domain.now) }
        requires fits_problem { FitsProblem (domain_value domain.now) (problem_value problem.now) }
        requires few_objects { keeps (domain_value domain.now) (problem_value problem.now)
            object_limit ≡ true }
        ensures { IfOk result (λ s.
            setting_in s ≡ setting (domain_value domain.now) (problem_value problem.now)) }
    {
        Ok(Setting {
            objects: objects_by_type(alloc, domain, problem)?,
            changed: changed_predicates(alloc, domain, problem)?,
            facts: fact_set(alloc, problem)?,
        })
    }

    /// The objects of a type, in the order in which they are declared.
    pub fn objects_of(&self, type_id: TypeId) -> &[ObjectId]
        ensures { result.now ≡ (setting_in self.now).objects type_id }
    {
        self.objects.of(type_id)
    }

    /// Whether a predicate is rigid: no effect changes it, and no uncertain entry names it.
    pub fn is_rigid(&self, predicate: PredicateId) -> bool
        ensures { result ≡ (setting_in self.now).is_rigid predicate }
    {
        !self.changed.contains(&predicate)
    }

    /// Whether an atom is initially true for certain.
    pub fn is_fact(&self, atom: &Atom) -> bool
        ensures { result ≡ (setting_in self.now).is_fact (atom_tree atom.now) }
    {
        self.facts.contains(atom)
    }
}
