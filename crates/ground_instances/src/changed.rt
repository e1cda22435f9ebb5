//! Which predicates are changed, and which atoms are initially true.

ghost use Rattle.std.specs.Prelude.{◌≡◌, ℕ, nat_eq, ◌||◌, not, map, IfOk, OnOk};
ghost use Rattle.std.specs.List.{list_any};
ghost use Rattle.ground_instances.specs.Atoms.{atom_tree};
ghost use Rattle.ground_instances.specs.Tables.{names_predicate};
ghost use Rattle.pddl_ast.specs.Trees.{AtomTree};
ghost use Rattle.pddl_ast.specs.Values.{atom_value, domain_value, effect_value, literal_value};
ghost use Rattle.pddl_ast.specs.Values.{problem_value};
ghost use Rattle.pddl_system.specs.GroundAtoms.{is_among};
ghost use Rattle.pddl_system.specs.Settings.{changes, entry_names, is_rigid_in};

use crate::atoms::Atom;
use indexmap::IndexSet;
use pddl_ast::{Domain, Effect, InitialLiteral, Objects, PredicateId, Problem};
use std::alloc::{AllocError, Global};

/// The predicates that an effect changes or that an uncertain entry names: those that aren't rigid.
pub fn changed_predicates(
    alloc: Global,
    domain: &Domain,
    problem: &Problem,
) -> Result<IndexSet<PredicateId>, AllocError>
    ensures { IfOk result (λ changed. (q : ℕ) → not (list_any (nat_eq q) changed.keys)
        ≡ is_rigid_in (domain_value domain.now) (problem_value problem.now) q) }
{
    let mut changed = IndexSet::new(alloc);
    for schema in &domain.actions {
        add_effect(&mut changed, &schema.effect)?;
    }
    for entry in &problem.entries {
        add_entry(&mut changed, entry)?;
    }
    Ok(changed)
}

/// Adds the predicates whose atoms an effect adds or deletes.
fn add_effect(changed: &mut IndexSet<PredicateId>, effect: &Effect) -> Result<(), AllocError>
    ensures { OnOk result ((q : ℕ) → list_any (nat_eq q) changed.new.keys
        ≡ (list_any (nat_eq q) changed.old.keys || changes q (effect_value effect.now))) }
{
    match effect {
        Effect::Add(predicate, _) | Effect::Delete(predicate, _) => add(changed, *predicate),
        Effect::Both(parts) | Effect::OneOf(parts) => {
            for part in parts {
                add_effect(changed, part)?;
            }
            Ok(())
        }
        Effect::When(_, part) | Effect::Each(_, part) => add_effect(changed, part),
    }
}

/// Adds the predicates that an uncertain entry names.
fn add_entry(
    changed: &mut IndexSet<PredicateId>,
    entry: &[Vec<InitialLiteral>],
) -> Result<(), AllocError>
    ensures { OnOk result ((q : ℕ) → list_any (nat_eq q) changed.new.keys
        ≡ (list_any (nat_eq q) changed.old.keys
        || entry_names q (map (λ alternative. map literal_value alternative.items) entry.now))) }
{
    for alternative in entry {
        add_literals(changed, alternative)?;
    }
    Ok(())
}

/// Adds the predicates that some literals name.
fn add_literals(
    changed: &mut IndexSet<PredicateId>,
    literals: &[InitialLiteral],
) -> Result<(), AllocError>
    ensures { OnOk result ((q : ℕ) → list_any (nat_eq q) changed.new.keys
        ≡ (list_any (nat_eq q) changed.old.keys
        || names_predicate q (map literal_value literals.now))) }
{
    for literal in literals {
        add(changed, literal.atom.predicate)?;
    }
    Ok(())
}

/// Adds a predicate.
fn add(changed: &mut IndexSet<PredicateId>, predicate: PredicateId) -> Result<(), AllocError>
    ensures { OnOk result ((q : ℕ) → list_any (nat_eq q) changed.new.keys
        ≡ (list_any (nat_eq q) changed.old.keys || nat_eq predicate q)) }
{
    changed.insert(predicate)?;
    Ok(())
}

/// The atoms that are initially true.
pub fn fact_set(alloc: Global, problem: &Problem) -> Result<IndexSet<Atom>, AllocError>
    ensures { IfOk result (λ facts. (a : AtomTree) → is_among (map atom_tree facts.keys) a
        ≡ is_among (problem_value problem.now).facts a) }
{
    let mut facts = IndexSet::new(alloc);
    for fact in &problem.facts {
        facts.insert(Atom {
            predicate: fact.predicate,
            objects: Objects::from_slice(alloc, &fact.objects)?,
        })?;
    }
    Ok(facts)
}
