//! What the variables that are bound already settle of the value of a formula.

ghost use Rattle.std.specs.Prelude.{◌≡◌, IfOk};
ghost use Rattle.std.specs.List.{list_all};
ghost use Rattle.std.specs.Option.{option_map};
ghost use Rattle.ground_instances.specs.Settled as plain;
ghost use Rattle.ground_instances.specs.Tables.{setting_in};
ghost use Rattle.ground_instances.specs.Values.{known_value};
ghost use Rattle.pddl_ast.specs.Trees.{atom as atom_tree};
ghost use Rattle.pddl_ast.specs.Values.{formula_value};

use crate::atoms::{Atom, LiftedAtom, object_of};
use crate::setting::Setting;
use crate::values::{Free, Value, both, certainly, opposite};
use pddl_ast::{Formula, ObjectId, Term};
use std::alloc::{AllocError, Global};

/// Whether a term is an object, or one of the first `count` variables and not free.
fn is_bound(free: Free, count: usize, term: &Term) -> bool
    ensures { result ≡ plain.is_bound free count term.now }
{
    match term {
        Term::Variable(number) => *number < count && !free.has(*number),
        Term::Object(_) => true,
    }
}

/// Whether each term is an object, or one of the first `count` variables and not free.
fn are_bound(free: Free, count: usize, terms: &[Term]) -> bool
    ensures { result ≡ list_all (plain.is_bound free count) terms.now }
{
    for term in terms {
        if !is_bound(free, count, term) {
            return false;
        }
    }
    true
}

/// What is settled of "both".
fn settled_both(first: Option<Value>, second: Option<Value>) -> Option<Value>
    ensures { option_map known_value result
        ≡ plain.settled_and (option_map known_value first) (option_map known_value second) }
{
    match (first, second) {
        (Some(Value::No), _) | (_, Some(Value::No)) => Some(Value::No),
        (Some(first), Some(second)) => Some(both(first, second)),
        (None, _) | (_, None) => None,
    }
}

/// What is settled of "not".
fn settled_opposite(value: Option<Value>) -> Option<Value>
    ensures { option_map known_value result ≡ plain.settled_not (option_map known_value value) }
{
    match value {
        Some(value) => Some(opposite(value)),
        None => None,
    }
}

/// What is settled of "one of them".
fn settled_either(first: Option<Value>, second: Option<Value>) -> Option<Value>
    ensures { option_map known_value result
        ≡ plain.settled_or (option_map known_value first) (option_map known_value second) }
{
    settled_opposite(settled_both(settled_opposite(first), settled_opposite(second)))
}

/// What is settled of a quantifier with so many bindings: what is of its part, but `empty` where
/// there are none.
fn settled_each(count: usize, empty: bool, part: Option<Value>) -> Option<Value>
    ensures { option_map known_value result
        ≡ plain.settled_each count empty (option_map known_value part) }
{
    match part {
        Some(_) if count == 0 => Some(certainly(empty)),
        part => part,
    }
}

/// What is settled of an equation.
fn settled_equal(left: &Term, right: &Term, scope: &[ObjectId], free: Free) -> Option<Value>
    ensures { option_map known_value result
        ≡ plain.settled_equal left.now right.now scope.now free }
{
    if !is_bound(free, scope.len(), left) || !is_bound(free, scope.len(), right) {
        return None;
    }
    Some(certainly(object_of(scope, left) == object_of(scope, right)))
}

impl Setting {
    /// What is settled of an atom: that it is unknown, where its predicate isn't rigid, and else its
    /// initial value, where all its variables are bound.
    fn settled_atom(
        &self,
        alloc: Global,
        atom: &LiftedAtom<'_>,
        scope: &[ObjectId],
        free: Free,
    ) -> Result<Option<Value>, AllocError>
        ensures { IfOk result (λ value. option_map known_value value
            ≡ plain.settled (setting_in self.now) (atom_tree atom.now.predicate atom.now.terms.now)
            scope.now free) }
    {
        if !self.is_rigid(atom.predicate) {
            return Ok(Some(Value::Unknown));
        }
        if !are_bound(free, scope.len(), atom.terms) {
            return Ok(None);
        }
        let atom = Atom::of_terms(alloc, atom.predicate, atom.terms, scope)?;
        Ok(Some(certainly(self.is_fact(&atom))))
    }

    /// What the variables in scope that aren't free settle of the value of a formula, whatever
    /// variables come after them. Fails only where memory runs out.
    pub(crate) fn settled(
        &self,
        alloc: Global,
        formula: &Formula,
        scope: &[ObjectId],
        free: Free,
    ) -> Result<Option<Value>, AllocError>
        ensures { IfOk result (λ value. option_map known_value value
            ≡ plain.settled (setting_in self.now) (formula_value formula.now) scope.now free) }
    {
        match formula {
            Formula::Atom(predicate, terms) => {
                let atom = LiftedAtom {
                    predicate: *predicate,
                    terms,
                };
                self.settled_atom(alloc, &atom, scope, free)
            }
            Formula::Equal(left, right) => Ok(settled_equal(left, right, scope, free)),
            Formula::All(parts) => {
                let mut known = Some(Value::Yes);
                for part in parts {
                    known = settled_both(known, self.settled(alloc, part, scope, free)?);
                }
                Ok(known)
            }
            Formula::Any(parts) => {
                let mut known = Some(Value::No);
                for part in parts {
                    known = settled_either(known, self.settled(alloc, part, scope, free)?);
                }
                Ok(known)
            }
            Formula::Not(part) => Ok(settled_opposite(self.settled(alloc, part, scope, free)?)),
            Formula::Imply(left, right) => {
                let premise = self.settled(alloc, left, scope, free)?;
                let conclusion = self.settled(alloc, right, scope, free)?;
                Ok(settled_either(settled_opposite(premise), conclusion))
            }
            Formula::Exists(types, part) => {
                let value = self.settled(alloc, part, scope, free)?;
                Ok(settled_each(self.binding_count(types), false, value))
            }
            Formula::Forall(types, part) => {
                let value = self.settled(alloc, part, scope, free)?;
                Ok(settled_each(self.binding_count(types), true, value))
            }
        }
    }
}
