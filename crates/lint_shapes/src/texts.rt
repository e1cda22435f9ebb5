//! The text of a formula.

ghost use Rattle.std.specs.Prelude.{◌≡◌, ◌++◌, ◌+◌, IfOk, OnOk, length, map, suc};
ghost use Rattle.pddl_ast.specs.Trees.{formula_row};
ghost use Rattle.pddl_ast.specs.Values.{formula_value};
ghost use Rattle.lint_shapes.specs.Texts.{
  atom_text,
  closed_text,
  equal_text,
  formula_text,
  invariant_text,
  later_text,
  name_at,
  names_of,
  row_text,
  section_text,
  term_text,
  variable_text,
  variables_text,
  with_type,
};

use crate::formulas::{after, conjunction_of};
use crate::shapes::OneOf;
use itoa::Buffer;
use pddl_ast::{Domain, Formula, ObjectId, PredicateId, Term, TypeId};
use std::alloc::{AllocError, Global};

/// Appends the section of a domain that says of some shapes that exactly one atom of each of their groups
/// is true, as `(:invariant (and ..))`.
pub fn push_invariant(
    alloc: Global,
    out: &mut Vec<u8>,
    domain: &Domain,
    found: &[OneOf],
) -> Result<(), AllocError>
    ensures { OnOk result (out.new.items ≡ out.old.items
        ++ invariant_text (names_of domain.now) (map (λ one. one.shape) found.now)) }
{
    let formula = conjunction_of(alloc, found)?;
    push_section(out, domain, &formula)
}

fn push_section(out: &mut Vec<u8>, domain: &Domain, formula: &Formula) -> Result<(), AllocError>
    ensures { OnOk result (out.new.items
        ≡ out.old.items ++ section_text (names_of domain.now) (formula_value formula.now)) }
{
    out.extend_from_slice(b"(:invariant ")?;
    push_closed(out, domain, formula)
}

/// Appends a formula, and the end of the section.
fn push_closed(out: &mut Vec<u8>, domain: &Domain, formula: &Formula) -> Result<(), AllocError>
    ensures { OnOk result (out.new.items
        ≡ out.old.items ++ closed_text (names_of domain.now) (formula_value formula.now)) }
{
    push_formula(out, domain, 0, formula)?;
    out.extend_from_slice(b")")
}

/// Appends a formula inside of so many variables, as `(exists (?x0 - room) (at ?x0))`. Fails only where
/// memory runs out, or numbers of variables.
#[cycle(printing)]
pub fn push_formula(
    out: &mut Vec<u8>,
    domain: &Domain,
    scope: usize,
    formula: &Formula,
) -> Result<(), AllocError>
    ensures { OnOk result (out.new.items
        ≡ out.old.items ++ formula_text (names_of domain.now) scope (formula_value formula.now)) }
{
    match formula {
        Formula::Atom(predicate, terms) => push_atom(out, domain, *predicate, terms),
        Formula::Equal(left, right) => push_equal(out, domain, *left, *right),
        Formula::All(parts) => {
            out.extend_from_slice(b"(and")?;
            push_row(out, domain, scope, parts)?;
            out.extend_from_slice(b")")
        }
        Formula::Any(parts) => {
            out.extend_from_slice(b"(or")?;
            push_row(out, domain, scope, parts)?;
            out.extend_from_slice(b")")
        }
        Formula::Not(part) => {
            out.extend_from_slice(b"(not ")?;
            push_formula(out, domain, scope, part)?;
            out.extend_from_slice(b")")
        }
        Formula::Imply(left, right) => {
            out.extend_from_slice(b"(imply ")?;
            push_formula(out, domain, scope, left)?;
            out.extend_from_slice(b" ")?;
            push_formula(out, domain, scope, right)?;
            out.extend_from_slice(b")")
        }
        Formula::Exists(types, part) => {
            let inner = after(scope, types.len())?;
            out.extend_from_slice(b"(exists (")?;
            push_variables(out, domain, scope, types)?;
            out.extend_from_slice(b") ")?;
            push_formula(out, domain, inner, part)?;
            out.extend_from_slice(b")")
        }
        Formula::Forall(types, part) => {
            let inner = after(scope, types.len())?;
            out.extend_from_slice(b"(forall (")?;
            push_variables(out, domain, scope, types)?;
            out.extend_from_slice(b") ")?;
            push_formula(out, domain, inner, part)?;
            out.extend_from_slice(b")")
        }
    }
}

/// Appends formulas, each after a space.
#[cycle(printing)]
fn push_row(
    out: &mut Vec<u8>,
    domain: &Domain,
    scope: usize,
    formulas: &[Formula],
) -> Result<(), AllocError>
    ensures { OnOk result (out.new.items ≡ out.old.items
        ++ row_text (names_of domain.now) scope (formula_row (map formula_value formulas.now))) }
{
    for formula in formulas {
        out.extend_from_slice(b" ")?;
        push_formula(out, domain, scope, formula)?;
    }
    Ok(())
}

fn push_atom(
    out: &mut Vec<u8>,
    domain: &Domain,
    predicate: PredicateId,
    terms: &[Term],
) -> Result<(), AllocError>
    ensures { OnOk result (out.new.items ≡ out.old.items
        ++ atom_text (names_of domain.now) predicate terms.now) }
{
    out.extend_from_slice(b"(")?;
    out.extend_from_slice(predicate_name(domain, predicate))?;
    for term in terms {
        push_term(out, domain, *term)?;
    }
    out.extend_from_slice(b")")
}

/// Appends that two terms are the same object.
fn push_equal(out: &mut Vec<u8>, domain: &Domain, left: Term, right: Term) -> Result<(), AllocError>
    ensures { OnOk result (out.new.items
        ≡ out.old.items ++ equal_text (names_of domain.now) left right) }
{
    out.extend_from_slice(b"(=")?;
    push_term(out, domain, left)?;
    push_term(out, domain, right)?;
    out.extend_from_slice(b")")
}

/// Appends a term after a space.
fn push_term(out: &mut Vec<u8>, domain: &Domain, term: Term) -> Result<(), AllocError>
    ensures { OnOk result (out.new.items
        ≡ out.old.items ++ term_text (names_of domain.now) term) }
{
    out.extend_from_slice(b" ")?;
    match term {
        Term::Variable(number) => push_variable(out, number),
        Term::Object(number) => out.extend_from_slice(constant_name(domain, number)),
    }
}

/// Appends a variable, as `?x0`.
fn push_variable(out: &mut Vec<u8>, number: usize) -> Result<(), AllocError>
    ensures { OnOk result (out.new.items ≡ out.old.items ++ variable_text number) }
{
    let mut buffer = Buffer::new();
    out.extend_from_slice(b"?x")?;
    out.extend_from_slice(buffer.format(number).as_bytes())
}

/// Appends variables of these types, the first of which has this number.
fn push_variables(
    out: &mut Vec<u8>,
    domain: &Domain,
    first: usize,
    types: &[TypeId],
) -> Result<(), AllocError>
    ensures { OnOk result (out.new.items
        ≡ out.old.items ++ variables_text (names_of domain.now) first types.now) }
{
    match types.split_first() {
        Some((type_id, others)) => {
            push_with_type(out, domain, first, *type_id)?;
            push_later(out, domain, first, others)
        }
        None => Ok(()),
    }
}

/// Appends variables of these types after the one with this number, each after a space.
fn push_later(
    out: &mut Vec<u8>,
    domain: &Domain,
    before: usize,
    types: &[TypeId],
) -> Result<(), AllocError>
    ensures { OnOk result (out.new.items
        ≡ out.old.items ++ later_text (names_of domain.now) (suc before) types.now) }
{
    let mut number = before;
    for type_id in types {
        number = after(number, 1)?;
        out.extend_from_slice(b" ")?;
        push_with_type(out, domain, number, *type_id)?;
    }
    Ok(())
}

/// Appends a variable with its type, as `?x0 - room`.
fn push_with_type(
    out: &mut Vec<u8>,
    domain: &Domain,
    number: usize,
    type_id: TypeId,
) -> Result<(), AllocError>
    ensures { OnOk result (out.new.items
        ≡ out.old.items ++ with_type (names_of domain.now) number type_id) }
{
    push_variable(out, number)?;
    out.extend_from_slice(b" - ")?;
    out.extend_from_slice(type_name(domain, type_id))
}

fn type_name(domain: &Domain, type_id: TypeId) -> &[u8]
    ensures { result.now ≡ name_at (names_of domain.now).types type_id }
{
    match domain.type_names.get(type_id) {
        Some(name) => name.as_bytes(),
        None => &[],
    }
}

fn predicate_name(domain: &Domain, predicate: PredicateId) -> &[u8]
    ensures { result.now ≡ name_at (names_of domain.now).predicates predicate }
{
    match domain.predicates.get(predicate) {
        Some(predicate) => predicate.name.as_bytes(),
        None => &[],
    }
}

fn constant_name(domain: &Domain, object: ObjectId) -> &[u8]
    ensures { result.now ≡ name_at (names_of domain.now).constants object }
{
    match domain.constants.get(object) {
        Some(constant) => constant.name.as_bytes(),
        None => &[],
    }
}
