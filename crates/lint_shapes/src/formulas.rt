//! The formula that says that exactly one atom of each group of a shape is true.

ghost use Rattle.std.specs.Prelude.{◌≡◌, ◌++◌, ◌∷◌, [], ◌+◌, IfOk, OnOk, length, map};
ghost use Rattle.std.specs.List.{flat_map};
ghost use Rattle.pddl_ast.specs.Trees.{all, forall, formula_row, implication, negation};
ghost use Rattle.pddl_ast.specs.Values.{formula_value};
ghost use Rattle.lint_shapes.specs.Formulas.{
  all_apart,
  alone,
  alone_in,
  apart,
  conjunction_of,
  counted_types as types_counted,
  either,
  for_all,
  for_some,
  formula_of,
  not_both,
  part_atom,
  some_of,
  term_of,
};

use crate::shapes::{OneOf, Part, Shape, Slot};
use pddl_ast::{Formula, Term, Terms, TypeId};
use std::alloc::{AllocError, Global};

/// The formulas of some shapes.
pub fn conjunction_of(alloc: Global, found: &[OneOf]) -> Result<Formula, AllocError>
    ensures { IfOk result (λ f. formula_value f
        ≡ conjunction_of (map (λ one. one.shape) found.now)) }
{
    if let [one] = found {
        return formula_of(alloc, &one.shape);
    }
    Ok(Formula::All(formulas_of(alloc, found)?))
}

fn formulas_of(alloc: Global, found: &[OneOf]) -> Result<Vec<Formula>, AllocError>
    ensures { IfOk result (λ fs. map formula_value fs.items
        ≡ map formula_of (map (λ one. one.shape) found.now)) }
{
    let mut formulas = Vec::new(alloc);
    for one in found {
        formulas.push(formula_of(alloc, &one.shape)?)?;
    }
    Ok(formulas)
}

/// The formula that says that, whichever objects the free variables stand for, exactly one atom of the
/// parts of a shape is true.
pub fn formula_of(alloc: Global, shape: &Shape) -> Result<Formula, AllocError>
    ensures { IfOk result (λ f. formula_value f ≡ formula_of shape.now) }
{
    let free = shape.free.len();
    let mut all = Vec::new(alloc);
    all.push(some_true(alloc, free, &shape.parts)?)?;
    push_alone(alloc, free, &shape.parts, &mut all)?;
    push_apart(alloc, free, &shape.parts, &mut all)?;
    for_all(alloc, &shape.free, Formula::All(all))
}

/// A formula for all objects of these types; itself where there are none.
fn for_all(alloc: Global, types: &[TypeId], formula: Formula) -> Result<Formula, AllocError>
    ensures { IfOk result (λ f. formula_value f ≡ for_all types.now (formula_value formula)) }
{
    if types.is_empty() {
        return Ok(formula);
    }
    let types = Vec::from_slice(alloc, types)?;
    Ok(Formula::Forall(types, Box::new(alloc, formula)?))
}

/// A formula for some objects of these types; itself where there are none.
fn for_some(alloc: Global, types: &[TypeId], formula: Formula) -> Result<Formula, AllocError>
    ensures { IfOk result (λ f. formula_value f ≡ for_some types.now (formula_value formula)) }
{
    if types.is_empty() {
        return Ok(formula);
    }
    let types = Vec::from_slice(alloc, types)?;
    Ok(Formula::Exists(types, Box::new(alloc, formula)?))
}

fn some_true(alloc: Global, free: usize, parts: &[Part]) -> Result<Formula, AllocError>
    ensures { IfOk result (λ f. formula_value f ≡ either (map (some_of free) parts.now)) }
{
    if let [part] = parts {
        return some_of(alloc, free, part);
    }
    Ok(Formula::Any(each_true(alloc, free, parts)?))
}

fn each_true(alloc: Global, free: usize, parts: &[Part]) -> Result<Vec<Formula>, AllocError>
    ensures { IfOk result (λ fs. map formula_value fs.items ≡ map (some_of free) parts.now) }
{
    let mut formulas = Vec::new(alloc);
    for part in parts {
        formulas.push(some_of(alloc, free, part)?)?;
    }
    Ok(formulas)
}

/// That one atom of a part is true.
fn some_of(alloc: Global, free: usize, part: &Part) -> Result<Formula, AllocError>
    ensures { IfOk result (λ f. formula_value f ≡ some_of free part.now) }
{
    let types = counted_types(alloc, part)?;
    let atom = part_atom(alloc, free, part)?;
    for_some(alloc, &types, atom)
}

fn counted_types(alloc: Global, part: &Part) -> Result<Vec<TypeId>, AllocError>
    ensures { IfOk result (λ types. types.items ≡ types_counted part.now) }
{
    let mut types = Vec::new(alloc);
    for slot in &part.slots {
        if let Slot::Counted(type_id) = slot {
            types.push(*type_id)?;
        }
    }
    Ok(types)
}

/// The atom of a part, where what is counted is the variable with this number.
fn part_atom(alloc: Global, counted: usize, part: &Part) -> Result<Formula, AllocError>
    ensures { IfOk result (λ f. formula_value f ≡ part_atom counted part.now) }
{
    let mut terms = Terms::new(alloc);
    for slot in &part.slots {
        terms.push(term_of(counted, *slot))?;
    }
    Ok(Formula::Atom(part.predicate, terms))
}

/// The variable at a place.
fn term_of(counted: usize, slot: Slot) -> Term
    ensures { result ≡ term_of counted slot }
{
    match slot {
        Slot::Free(number) => Term::Variable(number),
        Slot::Counted(_) => Term::Variable(counted),
    }
}

/// Adds, for each part that has a counted place, that no two of its atoms are true.
fn push_alone(
    alloc: Global,
    free: usize,
    parts: &[Part],
    all: &mut Vec<Formula>,
) -> Result<(), AllocError>
    ensures { OnOk result (map formula_value all.new.items
        ≡ map formula_value all.old.items ++ flat_map (alone_in free) parts.now) }
{
    for part in parts {
        push_alone_in(alloc, free, part, all)?;
    }
    Ok(())
}

fn push_alone_in(
    alloc: Global,
    free: usize,
    part: &Part,
    all: &mut Vec<Formula>,
) -> Result<(), AllocError>
    ensures { OnOk result (map formula_value all.new.items
        ≡ map formula_value all.old.items ++ alone_in free part.now) }
{
    let types = counted_types(alloc, part)?;
    for type_id in &types {
        all.push(alone(alloc, free, part, *type_id)?)?;
    }
    Ok(())
}

/// That no two atoms of a part are true, whose counted place has this type.
fn alone(alloc: Global, free: usize, part: &Part, type_id: TypeId) -> Result<Formula, AllocError>
    ensures { IfOk result (λ f. formula_value f ≡ alone free part.now type_id) }
{
    let second = after(free, 1)?;
    let first_atom = part_atom(alloc, free, part)?;
    let second_atom = part_atom(alloc, second, part)?;
    let both = both_true(alloc, first_atom, second_atom)?;
    let same = Formula::Equal(Term::Variable(free), Term::Variable(second));
    for_all_two(alloc, type_id, implies(alloc, both, same)?)
}

/// That the first formula implies the second.
fn implies(alloc: Global, left: Formula, right: Formula) -> Result<Formula, AllocError>
    ensures { IfOk result (λ f. formula_value f
        ≡ implication (formula_value left) (formula_value right)) }
{
    Ok(Formula::Imply(Box::new(alloc, left)?, Box::new(alloc, right)?))
}

/// That a formula doesn't hold.
fn negated(alloc: Global, formula: Formula) -> Result<Formula, AllocError>
    ensures { IfOk result (λ f. formula_value f ≡ negation (formula_value formula)) }
{
    Ok(Formula::Not(Box::new(alloc, formula)?))
}

/// A formula for all pairs of objects of a type.
fn for_all_two(alloc: Global, type_id: TypeId, formula: Formula) -> Result<Formula, AllocError>
    ensures { IfOk result (λ f. formula_value f
        ≡ forall (type_id ∷ type_id ∷ []) (formula_value formula)) }
{
    let types = vec![in alloc; type_id, type_id]?;
    Ok(Formula::Forall(types, Box::new(alloc, formula)?))
}

fn length_of(types: &[TypeId]) -> usize
    ensures { result ≡ length types.now }
{
    types.len()
}

/// The number of a variable that comes so many after another.
pub(crate) fn after(number: usize, more: usize) -> Result<usize, AllocError>
    ensures { IfOk result (λ found. found ≡ number + more) }
{
    match number.checked_add(more) {
        Some(found) => Ok(found),
        None => Err(AllocError),
    }
}

fn both_true(alloc: Global, left: Formula, right: Formula) -> Result<Formula, AllocError>
    ensures { IfOk result (λ f. formula_value f
        ≡ all (formula_row (formula_value left ∷ formula_value right ∷ []))) }
{
    let mut parts = Vec::new(alloc);
    parts.push(left)?;
    parts.push(right)?;
    Ok(Formula::All(parts))
}

/// Adds, for each two parts, that no two of their atoms are true.
fn push_apart(
    alloc: Global,
    free: usize,
    parts: &[Part],
    all: &mut Vec<Formula>,
) -> Result<(), AllocError>
    ensures { OnOk result (map formula_value all.new.items
        ≡ map formula_value all.old.items ++ all_apart free parts.now) }
{
    match parts.split_first() {
        Some((part, others)) => {
            push_apart_from(alloc, free, part, others, all)?;
            push_apart(alloc, free, others, all)
        }
        None => Ok(()),
    }
}

/// Adds, for a part and each of some others, that no two of their atoms are true.
fn push_apart_from(
    alloc: Global,
    free: usize,
    part: &Part,
    others: &[Part],
    all: &mut Vec<Formula>,
) -> Result<(), AllocError>
    ensures { OnOk result (map formula_value all.new.items
        ≡ map formula_value all.old.items ++ map (apart free part.now) others.now) }
{
    for other in others {
        all.push(apart(alloc, free, part, other)?)?;
    }
    Ok(())
}

/// That no two atoms of two parts are true.
fn apart(alloc: Global, free: usize, part: &Part, other: &Part) -> Result<Formula, AllocError>
    ensures { IfOk result (λ f. formula_value f ≡ apart free part.now other.now) }
{
    let types = types_of_both(alloc, part, other)?;
    let formula = not_both(alloc, free, part, other)?;
    for_all(alloc, &types, formula)
}

/// That two atoms of two parts are not both true.
fn not_both(alloc: Global, free: usize, part: &Part, other: &Part) -> Result<Formula, AllocError>
    ensures { IfOk result (λ f. formula_value f ≡ not_both free part.now other.now) }
{
    let second = second_variable(alloc, free, part)?;
    let first_atom = part_atom(alloc, free, part)?;
    let second_atom = part_atom(alloc, second, other)?;
    let both = both_true(alloc, first_atom, second_atom)?;
    negated(alloc, both)
}

/// The number of the variable after those of a part.
fn second_variable(alloc: Global, free: usize, part: &Part) -> Result<usize, AllocError>
    ensures { IfOk result (λ number. number ≡ free + length (types_counted part.now)) }
{
    let types = counted_types(alloc, part)?;
    after(free, length_of(&types))
}

/// The types of the counted places of two parts.
fn types_of_both(alloc: Global, part: &Part, other: &Part) -> Result<Vec<TypeId>, AllocError>
    ensures { IfOk result (λ types. types.items
        ≡ types_counted part.now ++ types_counted other.now) }
{
    let types = counted_types(alloc, part)?;
    let others = counted_types(alloc, other)?;
    joined(alloc, &types, &others)
}

/// Two rows of types, one after the other.
fn joined(alloc: Global, types: &[TypeId], others: &[TypeId]) -> Result<Vec<TypeId>, AllocError>
    ensures { IfOk result (λ all. all.items ≡ types.now ++ others.now) }
{
    let mut all = Vec::from_slice(alloc, types)?;
    all.extend_from_slice(others)?;
    Ok(all)
}
