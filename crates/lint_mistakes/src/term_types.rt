//! The types of variables and of the terms of predicates.

ghost use Rattle.lint_mistakes.specs.TermTypes as terms;
ghost use Rattle.lint_mistakes.specs.Values.{vocabulary_value};
ghost use Rattle.sexpr_text.specs.Forest.{forest_of};
ghost use Rattle.std.specs.Prelude.{◌≡◌, ◌++◌, IfOk, OnOk, map};
ghost use Rattle.std.specs.Option.{option_map};

use crate::rows::after_first;
use crate::vocabulary::Vocabulary;
use pddl_ast::{TypeId, is_dash, is_variable};
use sexpr_text::{Form, Head, Text, first_group, head_of};
use std::alloc::AllocError;

impl Vocabulary<'_> {
    /// The type that the first form names; `object` where it is no word.
    fn first_type(&self, row: &[Form]) -> TypeId
        ensures { result ≡ terms.first_type (vocabulary_value self.now) (forest_of row.now) }
    {
        match head_of(row) {
            Head::Word(_, name, _) => self.type_number(name),
            _ => 0,
        }
    }

    /// The type of a name before these forms: the one after the next `-`, or `object` without one.
    fn type_after(&self, row: &[Form]) -> TypeId
        ensures { result ≡ terms.type_after (vocabulary_value self.now) (forest_of row.now) }
    {
        let mut rest = row;
        loop {
            match head_of(rest) {
                Head::Nothing => return 0,
                Head::Word(_, word, after) => {
                    if is_dash(word) {
                        return self.first_type(after);
                    }
                    rest = after;
                }
                Head::Group(_, _, after) => rest = after,
            }
        }
    }

    /// The type of the variable of this name among those that the row declares.
    pub(crate) fn declared_type(&self, row: &[Form], name: &Text) -> Option<TypeId>
        ensures { result
            ≡ terms.declared_type (vocabulary_value self.now) (forest_of row.now) name.now }
    {
        let mut rest = row;
        loop {
            match head_of(rest) {
                Head::Nothing => return None,
                Head::Word(_, word, after) => {
                    if word.is(name.as_bytes()) {
                        return Some(self.type_after(after));
                    }
                    rest = after;
                }
                Head::Group(_, _, after) => rest = after,
            }
        }
    }

    /// The type of the variable of this name where these rows declare variables, the innermost last.
    pub(crate) fn variable_type(&self, scope: &[&[Form]], name: &Text) -> Option<TypeId>
        ensures { result ≡ terms.variable_type (vocabulary_value self.now)
            (map (λ row. forest_of row.now) scope.now) name.now }
    {
        let (row, inner) = scope.split_first()?;
        match self.variable_type(inner, name) {
            Some(type_id) => Some(type_id),
            None => self.declared_type(row, name),
        }
    }

    /// Appends the types of the variables of a row.
    fn push_types(&self, row: &[Form], types: &mut Vec<TypeId>) -> Result<(), AllocError>
        ensures { OnOk result (types.new.items ≡ types.old.items
            ++ terms.term_types (vocabulary_value self.now) (forest_of row.now)) }
    {
        let mut rest = row;
        loop {
            match head_of(rest) {
                Head::Nothing => return Ok(()),
                Head::Word(_, word, after) => {
                    if is_variable(word) {
                        types.push(self.type_after(after))?;
                    }
                    rest = after;
                }
                Head::Group(_, _, after) => rest = after,
            }
        }
    }

    /// The types of the terms of the predicate of this name; `None` where none has it.
    pub(crate) fn term_types(&self, name: &Text) -> Result<Option<Vec<TypeId>>, AllocError>
        ensures { IfOk result (λ types. option_map (λ list. list.items) types
            ≡ terms.predicate_types (vocabulary_value self.now) name.now) }
    {
        match first_group(self.predicates, name.as_bytes()) {
            Some((_, parts)) => {
                let mut types = Vec::new(self.alloc);
                self.push_types(after_first(parts), &mut types)?;
                Ok(Some(types))
            }
            None => Ok(None),
        }
    }
}
