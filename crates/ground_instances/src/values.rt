//! The value of a formula as far as the setting alone decides it.

ghost use Rattle.std.specs.Prelude.{◌≡◌, Some, IfOk, OnOk};
ghost use Rattle.std.specs.List.{list_any};
ghost use Rattle.ground_instances.specs.Partial.{has_free, is_free, partial_value, value_of_equal};
ghost use Rattle.ground_instances.specs.Values.{known_value};
ghost use Rattle.ground_instances.specs.Tables.{setting_in};
ghost use Rattle.pddl_ast.specs.Trees.{atom as atom_tree};
ghost use Rattle.pddl_ast.specs.Values.{formula_value};
ghost use Rattle.pddl_system.specs.ThreeValues.{value, value_and, value_not, value_or};

use crate::atoms::{Atom, LiftedAtom, object_of};
use crate::setting::Setting;
use pddl_ast::{Formula, ObjectId, Term};
use std::alloc::{AllocError, Global};

/// What is known of a formula before any action is looked at: that it is false, nothing, or that it
/// is true.
#[derive(Clone, Copy, Debug, PartialEq, Eq)]
pub enum Value {
    No,
    Unknown,
    Yes,
}

/// The value of a formula that is known to be true or to be false.
pub(crate) fn certainly(holds: bool) -> Value
    ensures { known_value result ≡ Some holds }
{
    if holds { Value::Yes } else { Value::No }
}

/// What is known of "both".
pub(crate) fn both(first: Value, second: Value) -> Value
    ensures { known_value result ≡ value_and (known_value first) (known_value second) }
{
    match (first, second) {
        (Value::No, _) | (_, Value::No) => Value::No,
        (Value::Yes, Value::Yes) => Value::Yes,
        (Value::Unknown, _) | (_, Value::Unknown) => Value::Unknown,
    }
}

/// What is known of "one of them".
fn either(first: Value, second: Value) -> Value
    ensures { known_value result ≡ value_or (known_value first) (known_value second) }
{
    opposite(both(opposite(first), opposite(second)))
}

/// What is known of "not".
pub(crate) fn opposite(value: Value) -> Value
    ensures { known_value result ≡ value_not (known_value value) }
{
    match value {
        Value::No => Value::Yes,
        Value::Unknown => Value::Unknown,
        Value::Yes => Value::No,
    }
}

/// Variables that stand for no object yet: those from the number `first` on, and before the number
/// `end`.
#[derive(Clone, Copy)]
pub(crate) struct Free {
    pub first: usize,
    pub end: usize,
}

impl Free {
    /// Whether the variable with a number is one of them.
    pub(crate) fn has(self, number: usize) -> bool
        ensures { result ≡ has_free self number }
    {
        self.first <= number && number < self.end
    }

    /// Whether a term is one of them.
    fn has_term(self, term: &Term) -> bool
        ensures { result ≡ is_free self term.now }
    {
        match term {
            Term::Variable(number) => self.has(*number),
            Term::Object(_) => false,
        }
    }

    /// Whether one of some terms is one of them.
    fn has_one_of(self, terms: &[Term]) -> bool
        ensures { result ≡ list_any (is_free self) terms.now }
    {
        for term in terms {
            if self.has_term(term) {
                return true;
            }
        }
        false
    }
}

/// The value of an equation, which is unknown where one of its terms is free.
fn value_of_equation(left: &Term, right: &Term, scope: &[ObjectId], free: Free) -> Value
    ensures { known_value result ≡ value_of_equal left.now right.now scope.now free }
{
    if free.has_term(left) || free.has_term(right) {
        return Value::Unknown;
    }
    certainly(object_of(scope, left) == object_of(scope, right))
}

impl Setting {
    /// The value of an atom: its initial value where its predicate is rigid and none of its terms is
    /// free, else unknown.
    fn value_of_atom(
        &self,
        alloc: Global,
        atom: &LiftedAtom<'_>,
        scope: &[ObjectId],
        free: Free,
    ) -> Result<Value, AllocError>
        ensures { IfOk result (λ v. known_value v
            ≡ partial_value (setting_in self.now) (atom_tree atom.now.predicate atom.now.terms.now) scope.now free) }
    {
        if !self.is_rigid(atom.predicate) || free.has_one_of(atom.terms) {
            return Ok(Value::Unknown);
        }
        let atom = Atom::of_terms(alloc, atom.predicate, atom.terms, scope)?;
        Ok(certainly(self.is_fact(&atom)))
    }

    /// The value of a formula where the variables in scope stand for these objects. A quantifier
    /// whose value doesn't depend on its own variables is decided without binding them. The scope
    /// is afterwards as it was before. Fails only where memory runs out, or where a quantifier has
    /// more than 1,000,000 bindings, which no formula within the limit of size has.
    pub fn value(
        &self,
        alloc: Global,
        formula: &Formula,
        scope: &mut Vec<ObjectId>,
    ) -> Result<Value, AllocError>
        ensures value { IfOk result (λ v. known_value v
            ≡ value (setting_in self.now) (formula_value formula.now) scope.old.items) }
        ensures scope { OnOk result (scope.new.items ≡ scope.old.items) }
    {
        let free = Free { first: 0, end: 0 };
        Ok(self.partial_value(alloc, formula, scope, free)?)
    }

    /// What is known of a formula where the free variables stand for no object yet, and the others
    /// in scope for these objects: no atom of a rigid predicate and no equation that names a free
    /// variable has a known value. What is known to be true or false is so whatever objects the free
    /// variables stand for. Otherwise as `value`.
    pub(crate) fn partial_value(
        &self,
        alloc: Global,
        formula: &Formula,
        scope: &mut Vec<ObjectId>,
        free: Free,
    ) -> Result<Value, AllocError>
        ensures value { IfOk result (λ v. known_value v
            ≡ partial_value (setting_in self.now) (formula_value formula.now) scope.old.items free) }
        ensures scope { OnOk result (scope.new.items ≡ scope.old.items) }
    {
        match formula {
            Formula::Atom(predicate, terms) => {
                let atom = LiftedAtom {
                    predicate: *predicate,
                    terms,
                };
                self.value_of_atom(alloc, &atom, scope, free)
            }
            Formula::Equal(left, right) => Ok(value_of_equation(left, right, scope, free)),
            Formula::All(parts) => {
                let mut known = Value::Yes;
                for part in parts {
                    known = both(known, self.partial_value(alloc, part, scope, free)?);
                    if known == Value::No {
                        return Ok(Value::No);
                    }
                }
                Ok(known)
            }
            Formula::Any(parts) => {
                let mut known = Value::No;
                for part in parts {
                    known = either(known, self.partial_value(alloc, part, scope, free)?);
                    if known == Value::Yes {
                        return Ok(Value::Yes);
                    }
                }
                Ok(known)
            }
            Formula::Not(part) => Ok(opposite(self.partial_value(alloc, part, scope, free)?)),
            Formula::Imply(left, right) => {
                let premise = self.partial_value(alloc, left, scope, free)?;
                if premise == Value::No {
                    return Ok(Value::Yes);
                }
                let conclusion = self.partial_value(alloc, right, scope, free)?;
                Ok(either(opposite(premise), conclusion))
            }
            Formula::Exists(types, part) => {
                if let Some(known) = self.settled(alloc, formula, scope, free)? {
                    return Ok(known);
                }
                let count = self.few_bindings(types)?;
                let outer = scope.len();
                let mut known = Value::No;
                for number in 0..count {
                    self.bind(types, count, number, scope)?;
                    known = either(known, self.partial_value(alloc, part, scope, free)?);
                    scope.truncate(outer);
                    if known == Value::Yes {
                        return Ok(Value::Yes);
                    }
                }
                Ok(known)
            }
            Formula::Forall(types, part) => {
                if let Some(known) = self.settled(alloc, formula, scope, free)? {
                    return Ok(known);
                }
                let count = self.few_bindings(types)?;
                let outer = scope.len();
                let mut known = Value::Yes;
                for number in 0..count {
                    self.bind(types, count, number, scope)?;
                    known = both(known, self.partial_value(alloc, part, scope, free)?);
                    scope.truncate(outer);
                    if known == Value::No {
                        return Ok(Value::No);
                    }
                }
                Ok(known)
            }
        }
    }
}
