//! Parameters that may stand for one object, where an effect then deletes and adds the same atom.

ghost use Rattle.lint_mistakes.specs.Equal as equal;
ghost use Rattle.lint_mistakes.specs.Values.{action_value, pair_value, vocabulary_value};
ghost use Rattle.sexpr_text.specs.Forest.{forest_of};
ghost use Rattle.std.specs.Option.{option_map};
ghost use Rattle.std.specs.Prelude.{◌≡◌, ◌++◌, IfOk, OnOk};

use crate::alike::{Pair, difference};
use crate::mistakes::{Mistake, MistakeKind};
use crate::rows::{after_first, first_parts, parts_after, sections_of};
use crate::vocabulary::Vocabulary;
use pddl_ast::TypeId;
use sexpr_text::{Form, Head, Span, View, begins_with, head_of};
use std::alloc::AllocError;

/// The effects in a domain with these forms that delete what another effect may undo.
pub(crate) fn equal_parameters(
    words: &Vocabulary<'_>,
    forms: &[Form],
) -> Result<Vec<Mistake>, AllocError>
    ensures { IfOk result (λ found. found.items
        ≡ equal.equal_parameters (vocabulary_value words.now) (forest_of forms.now)) }
{
    let sections = sections_of(forms, b"domain");
    let mut found = Vec::new(words.alloc);
    for form in sections {
        if let View::Group(_span, parts) = form.view() {
            add_in_section(words, parts, &mut found)?;
        }
    }
    Ok(found)
}

/// Adds those of a section of a domain with these parts, if it is an action.
fn add_in_section(
    words: &Vocabulary<'_>,
    parts: &[Form],
    found: &mut Vec<Mistake>,
) -> Result<(), AllocError>
    ensures { OnOk result (found.new.items ≡ found.old.items
        ++ equal.equal_in_section (vocabulary_value words.now) (forest_of parts.now)) }
{
    if !begins_with(parts, b":action") {
        return Ok(());
    }
    let action = ActionForms {
        words,
        parameters: parts_after(parts, b":parameters"),
        condition: parts_after(parts, b":precondition"),
    };
    action.add_in_effect(parts_after(parts, b":effect"), found)
}

/// Whether an effect deletes, or has a condition or variables of its own.
fn is_closed(parts: &[Form]) -> bool
    ensures { result ≡ equal.is_closed (forest_of parts.now) }
{
    begins_with(parts, b"not") || begins_with(parts, b"when") || begins_with(parts, b"forall")
}

/// What the words of both files mean, and the forms of an action's parameters and precondition.
#[derive(Clone, Copy)]
pub(crate) struct ActionForms<'a> {
    pub(crate) words: &'a Vocabulary<'a>,
    pub(crate) parameters: &'a [Form],
    pub(crate) condition: &'a [Form],
}

impl ActionForms<'_> {
    /// Adds the effects of a row, at any depth, that delete what another effect may undo.
    #[cycle(walking)]
    fn add_in_row(&self, row: &[Form], found: &mut Vec<Mistake>) -> Result<(), AllocError>
        ensures { OnOk result (found.new.items ≡ found.old.items
            ++ equal.equal_in_row (action_value self.now) (forest_of row.now)) }
    {
        for form in row {
            if let View::Group(_span, parts) = form.view() {
                self.add_in_effect(parts, found)?;
            }
        }
        Ok(())
    }

    /// Adds those in an effect with these parts.
    #[cycle(walking)]
    fn add_in_effect(&self, parts: &[Form], found: &mut Vec<Mistake>) -> Result<(), AllocError>
        ensures { OnOk result (found.new.items ≡ found.old.items
            ++ equal.equal_in_effect (action_value self.now) (forest_of parts.now)) }
    {
        let Head::Word(_span, _head, rest) = head_of(parts) else {
            return Ok(());
        };
        if is_closed(parts) {
            return Ok(());
        }
        self.add_joined(parts, found)?;
        self.add_in_row(rest, found)
    }

    /// Adds those among the effects that a list with these parts joins by `and`.
    fn add_joined(&self, parts: &[Form], found: &mut Vec<Mistake>) -> Result<(), AllocError>
        ensures { OnOk result (found.new.items ≡ found.old.items
            ++ equal.joined_mistakes (action_value self.now) (forest_of parts.now)) }
    {
        if !begins_with(parts, b"and") {
            return Ok(());
        }
        let row = after_first(parts);
        self.add_deletions(row, row, found)
    }

    /// Adds the effects that delete what the row may undo.
    fn add_deletions(
        &self,
        row: &[Form],
        effects: &[Form],
        found: &mut Vec<Mistake>,
    ) -> Result<(), AllocError>
        ensures { OnOk result (found.new.items ≡ found.old.items
            ++ equal.undone_deletions (action_value self.now) (forest_of row.now)
            (forest_of effects.now)) }
    {
        for form in effects {
            if let View::Group(span, parts) = form.view() {
                self.add_deletion(row, span, parts, found)?;
            }
        }
        Ok(())
    }

    /// Adds an effect with these parts, if it deletes and the row may undo that.
    fn add_deletion(
        &self,
        row: &[Form],
        span: Span,
        parts: &[Form],
        found: &mut Vec<Mistake>,
    ) -> Result<(), AllocError>
        ensures { OnOk result (found.new.items ≡ found.old.items
            ++ equal.undone_deletion (action_value self.now) (forest_of row.now) span
            (forest_of parts.now)) }
    {
        if !begins_with(parts, b"not") {
            return Ok(());
        }
        if let Some(pair) = self.undone_in(first_parts(after_first(parts)), row) {
            found.push(Mistake {
                span,
                kind: MistakeKind::MayBeEqual(pair.kept_span, pair.other_span),
            })?;
        }
        Ok(())
    }

    /// The pair by which an effect of the row, at any depth, undoes a deletion.
    fn undone_in<'b>(&self, deleted: &'b [Form], row: &'b [Form]) -> Option<Pair<'b>>
        ensures { option_map pair_value result
            ≡ equal.undone_in (action_value self.now) (forest_of deleted.now) (forest_of row.now) }
    {
        for form in row {
            if let View::Group(_span, parts) = form.view() {
                if let Some(pair) = self.undone_by(deleted, parts) {
                    return Some(pair);
                }
                if !is_closed(parts) {
                    if let Some(pair) = self.undone_in(deleted, parts) {
                        return Some(pair);
                    }
                }
            }
        }
        None
    }

    /// The pair by which an effect with these parts undoes a deletion.
    fn undone_by<'b>(&self, deleted: &'b [Form], added: &'b [Form]) -> Option<Pair<'b>>
        ensures { option_map pair_value result
            ≡ equal.undone_by (action_value self.now) (forest_of deleted.now)
            (forest_of added.now) }
    {
        let pair = difference(deleted, added)?;
        if self.is_undone(deleted, added, &pair) {
            Some(pair)
        } else {
            None
        }
    }

    /// Whether the atoms with these parts are one atom where the pair is one object, and the precondition
    /// allows that.
    fn is_undone(&self, deleted: &[Form], added: &[Form], pair: &Pair<'_>) -> bool
        ensures { result ≡ equal.is_undone (action_value self.now) (forest_of deleted.now)
            (forest_of added.now) (pair_value pair.now) }
    {
        pair.same_under(added, deleted)
            && self.may_be_one(pair)
            && pair.leaves_equal(self.condition)
    }

    /// Whether both words of the pair are parameters, and an object may be both.
    fn may_be_one(&self, pair: &Pair<'_>) -> bool
        ensures { result ≡ equal.may_be_one (action_value self.now) (pair_value pair.now) }
    {
        match self.words.declared_type(self.parameters, pair.kept) {
            Some(kept) => match self.words.declared_type(self.parameters, pair.other) {
                Some(other) => are_related(self.words, kept, other),
                None => false,
            },
            None => false,
        }
    }
}

/// Whether an object may be of both types.
fn are_related(words: &Vocabulary<'_>, kept: TypeId, other: TypeId) -> bool
    ensures { result ≡ equal.are_related (vocabulary_value words.now) kept other }
{
    words.is_kind_of(kept, other) || words.is_kind_of(other, kept)
}
