//! The names of fluents and actions.

ghost use Rattle.std.specs.Prelude.{◌≡◌, ◌∷◌, map, IfOk};
ghost use Rattle.std.specs.Rc.{rc_str_bytes};
ghost use Rattle.ground_instances.specs.Atoms.{atom_tree};
ghost use Rattle.ground_task.specs.NameWords.{AreWordsOf, listed};
ghost use Rattle.ground_task.specs.Numbered.{instance_with};
ghost use Rattle.pddl_ast.specs.Values.{domain_value, problem_value, schema_value};
ghost use Rattle.pddl_system.specs.Systems.{atom_name, instance_name};
ghost use Rattle.task_core.specs.Names.{name_bytes};

use crate::fluents::Fluents;
use crate::words::{NameWords, word_at};
use ground_instances::{Atom, Instance};
use pddl_ast::{Domain, ObjectId, Problem, Schema};
use std::alloc::{AllocError, Global};
use std::rc::RcStr;

/// A domain and a problem, and the words that their names are made of.
#[derive(Clone, Copy)]
pub(crate) struct Naming<'a> {
    pub(crate) domain: &'a Domain,
    pub(crate) problem: &'a Problem,
    pub(crate) words: &'a NameWords,
}

/// The first word and the names of objects, which stand in `words` by their numbers.
fn with_objects(
    alloc: Global,
    first: RcStr,
    words: &[RcStr],
    numbers: &[ObjectId],
) -> Result<Vec<RcStr>, AllocError>
    ensures { IfOk result (λ name.
        name_bytes name ≡ rc_str_bytes first ∷ map (listed words.now) numbers.now) }
{
    let mut name = Vec::new(alloc);
    name.push(first)?;
    for number in numbers {
        name.push(word_at(alloc, words, *number)?)?;
    }
    Ok(name)
}

/// The name of an atom.
fn fluent_name(alloc: Global, naming: &Naming<'_>, atom: &Atom) -> Result<Vec<RcStr>, AllocError>
    requires { AreWordsOf (domain_value naming.now.domain.now)
        (problem_value naming.now.problem.now) naming.now.words.now }
    ensures { IfOk result (λ name. name_bytes name
        ≡ atom_name (domain_value naming.now.domain.now) (problem_value naming.now.problem.now)
        (atom_tree atom.now)) }
{
    let first = word_at(alloc, &naming.words.predicates, atom.predicate)?;
    Ok(with_objects(alloc, first, &naming.words.objects, &atom.objects)?)
}

/// The names of the fluents.
pub(crate) fn fluent_names(
    alloc: Global,
    naming: &Naming<'_>,
    fluents: &Fluents,
) -> Result<Vec<Vec<RcStr>>, AllocError>
    requires { AreWordsOf (domain_value naming.now.domain.now)
        (problem_value naming.now.problem.now) naming.now.words.now }
    ensures { IfOk result (λ names. map name_bytes names.items
        ≡ map (atom_name (domain_value naming.now.domain.now)
        (problem_value naming.now.problem.now)) fluents.now) }
{
    let mut names = Vec::new(alloc);
    for place in 0..fluents.len() {
        names.push(fluent_name(alloc, naming, fluents.atom(place))?)?;
    }
    Ok(names)
}

/// The name of an instance of an action.
pub(crate) fn action_name(
    alloc: Global,
    naming: &Naming<'_>,
    schema: &Schema,
    instance: &Instance,
) -> Result<Vec<RcStr>, AllocError>
    requires words { AreWordsOf (domain_value naming.now.domain.now)
        (problem_value naming.now.problem.now) naming.now.words.now }
    requires first { listed naming.now.words.now.actions.items instance.now.action
        ≡ (schema_value schema.now).name }
    ensures { IfOk result (λ name. name_bytes name
        ≡ instance_name (domain_value naming.now.domain.now) (problem_value naming.now.problem.now)
        (instance_with (schema_value schema.now) instance.now)) }
{
    let first = word_at(alloc, &naming.words.actions, instance.action)?;
    Ok(with_objects(alloc, first, &naming.words.objects, &instance.objects)?)
}
