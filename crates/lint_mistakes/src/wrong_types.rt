//! Objects and variables of a type that the predicate doesn't take.

ghost use Rattle.lint_mistakes.specs.Values.{vocabulary_value};
ghost use Rattle.lint_mistakes.specs.WrongTypes as wrong;
ghost use Rattle.sexpr_text.specs.Forest.{forest_of};
ghost use Rattle.std.specs.Prelude.{◌≡◌, [], ◌++◌, IfOk, OnOk, map};

use crate::mistakes::{Mistake, MistakeKind};
use crate::rows::{first_parts, parts_after, section_named, sections_of};
use crate::vocabulary::Vocabulary;
use pddl_ast::{TypeId, is_variable};
use sexpr_text::{Form, Head, Span, Text, View, begins_with, head_of};
use std::alloc::AllocError;

/// The terms of a wrong type in the text of a domain with these forms, in its order.
pub(crate) fn wrong_types_in_domain(
    words: &Vocabulary<'_>,
    forms: &[Form],
) -> Result<Vec<Mistake>, AllocError>
    ensures { IfOk result (λ found. found.items
        ≡ wrong.wrong_types_in_domain (vocabulary_value words.now) (forest_of forms.now)) }
{
    let sections = sections_of(forms, b"domain");
    let mut found = Vec::new(words.alloc);
    for form in sections {
        if let View::Group(_span, parts) = form.view() {
            words.add_in_section(parts, &mut found)?;
        }
    }
    Ok(found)
}

/// The terms of a wrong type in the text of a problem with these forms: in its facts, and then in its
/// goals.
pub(crate) fn wrong_types_in_problem(
    words: &Vocabulary<'_>,
    forms: &[Form],
) -> Result<Vec<Mistake>, AllocError>
    ensures { IfOk result (λ found. found.items
        ≡ wrong.wrong_types_in_problem (vocabulary_value words.now) (forest_of forms.now)) }
{
    let sections = sections_of(forms, b"problem");
    let mut found = Vec::new(words.alloc);
    words.add_alone(section_named(sections, b":init"), &mut found)?;
    words.add_alone(section_named(sections, b":goal"), &mut found)?;
    words.add_alone(section_named(sections, b":ctl-goal"), &mut found)?;
    Ok(found)
}

/// Whether the word declares variables.
fn is_quantifier(word: &Text) -> bool
    ensures { result ≡ wrong.is_quantifier word.now }
{
    word.is(b"forall") || word.is(b"exists")
}

/// Adds a mistake at a word, where it is one.
fn push_mistake(
    found: &mut Vec<Mistake>,
    span: Span,
    kind: Option<MistakeKind>,
) -> Result<(), AllocError>
    ensures { OnOk result (found.new.items ≡ found.old.items ++ wrong.mistake_at span kind) }
{
    if let Some(kind) = kind {
        found.push(Mistake { span, kind })?;
    }
    Ok(())
}

impl Vocabulary<'_> {
    /// Adds the terms of a wrong type in a section of a domain.
    fn add_in_section(&self, parts: &[Form], found: &mut Vec<Mistake>) -> Result<(), AllocError>
        ensures { OnOk result (found.new.items ≡ found.old.items
            ++ wrong.wrong_in_section (vocabulary_value self.now) (forest_of parts.now)) }
    {
        if begins_with(parts, b":predicates") {
            return Ok(());
        }
        let mut scope = Vec::new(self.alloc);
        scope.push(parts_after(parts, b":parameters"))?;
        self.add_in_row(&mut scope, parts, found)
    }

    /// Adds the terms of a wrong type in a row, where no variables are declared.
    fn add_alone(&self, row: &[Form], found: &mut Vec<Mistake>) -> Result<(), AllocError>
        ensures { OnOk result (found.new.items ≡ found.old.items
            ++ wrong.wrong_in_row (vocabulary_value self.now) [] (forest_of row.now)) }
    {
        let mut scope = Vec::new(self.alloc);
        self.add_in_row(&mut scope, row, found)
    }

    /// Adds the terms of a wrong type in a row. `scope` is afterwards as it was before.
    #[cycle(searching)]
    fn add_in_row<'a>(
        &self,
        scope: &mut Vec<&'a [Form]>,
        row: &'a [Form],
        found: &mut Vec<Mistake>,
    ) -> Result<(), AllocError>
        ensures scope { OnOk result (scope.new.items ≡ scope.old.items) }
        ensures found { OnOk result (found.new.items ≡ found.old.items
            ++ wrong.wrong_in_row (vocabulary_value self.now)
            (map (λ row. forest_of row.now) scope.old.items) (forest_of row.now)) }
    {
        for form in row {
            if let View::Group(_span, parts) = form.view() {
                self.add_in_list(scope, parts, found)?;
            }
        }
        Ok(())
    }

    /// Adds the terms of a wrong type in a list. `scope` is afterwards as it was before.
    #[cycle(searching)]
    fn add_in_list<'a>(
        &self,
        scope: &mut Vec<&'a [Form]>,
        parts: &'a [Form],
        found: &mut Vec<Mistake>,
    ) -> Result<(), AllocError>
        ensures scope { OnOk result (scope.new.items ≡ scope.old.items) }
        ensures found { OnOk result (found.new.items ≡ found.old.items
            ++ wrong.wrong_in_list (vocabulary_value self.now)
            (map (λ row. forest_of row.now) scope.old.items) (forest_of parts.now)) }
    {
        match head_of(parts) {
            Head::Nothing => Ok(()),
            Head::Group(_span, inner, rest) => {
                self.add_in_list(scope, inner, found)?;
                self.add_in_row(scope, rest, found)
            }
            Head::Word(_span, head, rest) => {
                if is_quantifier(head) {
                    scope.push(first_parts(rest))?;
                    self.add_in_row(scope, rest, found)?;
                    let _ = scope.pop();
                    return Ok(());
                }
                match self.term_types(head)? {
                    Some(types) => self.add_terms(scope.as_slice(), &types, rest, found),
                    None => self.add_in_row(scope, rest, found),
                }
            }
        }
    }

    /// Adds the words among the terms that have a wrong type, where these types are declared.
    fn add_terms(
        &self,
        scope: &[&[Form]],
        types: &[TypeId],
        terms: &[Form],
        found: &mut Vec<Mistake>,
    ) -> Result<(), AllocError>
        ensures { OnOk result (found.new.items ≡ found.old.items
            ++ wrong.wrong_terms (vocabulary_value self.now)
            (map (λ row. forest_of row.now) scope.now) types.now (forest_of terms.now)) }
    {
        let mut rest = terms;
        let mut expected = types;
        loop {
            match expected.split_first() {
                None => return Ok(()),
                Some((declared, others)) => match head_of(rest) {
                    Head::Nothing => return Ok(()),
                    Head::Word(span, text, after) => {
                        let kind = self.wrong_kind(scope, text, *declared);
                        push_mistake(found, span, kind)?;
                        rest = after;
                        expected = others;
                    }
                    Head::Group(_span, _parts, after) => {
                        rest = after;
                        expected = others;
                    }
                },
            }
        }
    }

    /// What is wrong with a word in the place of a term of this type.
    fn wrong_kind(&self, scope: &[&[Form]], text: &Text, declared: TypeId) -> Option<MistakeKind>
        ensures { result ≡ wrong.wrong_kind (vocabulary_value self.now)
            (map (λ row. forest_of row.now) scope.now) text.now declared }
    {
        if is_variable(text) {
            let found = self.variable_type(scope, text)?;
            if self.is_kind_of(found, declared) || self.is_kind_of(declared, found) {
                return None;
            }
            Some(MistakeKind::WrongType(found, declared))
        } else {
            let found = self.object_type(text)?;
            if self.is_kind_of(found, declared) {
                return None;
            }
            Some(MistakeKind::WrongType(found, declared))
        }
    }
}
