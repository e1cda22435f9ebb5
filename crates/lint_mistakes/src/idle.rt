//! Effects that change nothing.

ghost use Rattle.lint_mistakes.specs.Idle as idle;
ghost use Rattle.sexpr_text.specs.Forest.{forest_of};
ghost use Rattle.std.specs.Prelude.{◌≡◌, ◌++◌, IfOk, OnOk};

use crate::copies::{has_list, same_words};
use crate::mistakes::{Mistake, MistakeKind};
use crate::rows::{after_first, first_parts, list_after, parts_after, sections_of};
use sexpr_text::{Form, Head, Span, Text, View, begins_with, head_of};
use std::alloc::{AllocError, Global};

/// The literals in the effects of a domain with these forms that change nothing.
pub(crate) fn idle_effects(alloc: Global, forms: &[Form]) -> Result<Vec<Mistake>, AllocError>
    ensures { IfOk result (λ found. found.items ≡ idle.idle_effects (forest_of forms.now)) }
{
    let sections = sections_of(forms, b"domain");
    let mut found = Vec::new(alloc);
    for form in sections {
        if let View::Group(_span, parts) = form.view() {
            add_in_section(parts, &mut found)?;
        }
    }
    Ok(found)
}

/// Adds those of a section of a domain with these parts, if it is an action.
fn add_in_section(parts: &[Form], found: &mut Vec<Mistake>) -> Result<(), AllocError>
    ensures { OnOk result (found.new.items
        ≡ found.old.items ++ idle.idle_in_section (forest_of parts.now)) }
{
    if !begins_with(parts, b":action") {
        return Ok(());
    }
    match list_after(parts, b":effect") {
        Some((span, effect)) => {
            let action = Action {
                condition: parts_after(parts, b":precondition"),
                effect,
            };
            action.add_at(span, effect, found)
        }
        None => Ok(()),
    }
}

/// The precondition and the effect of an action: the parts of both lists.
#[derive(Clone, Copy)]
struct Action<'a> {
    condition: &'a [Form],
    effect: &'a [Form],
}

impl Action<'_> {
    /// Adds the literals that change nothing in a row of effects.
    #[cycle(searching)]
    fn add_in_row(&self, row: &[Form], found: &mut Vec<Mistake>) -> Result<(), AllocError>
        ensures { OnOk result (found.new.items ≡ found.old.items
            ++ idle.idle_in_row (forest_of self.now.condition.now)
            (forest_of self.now.effect.now) (forest_of row.now)) }
    {
        for form in row {
            if let View::Group(span, parts) = form.view() {
                self.add_at(span, parts, found)?;
            }
        }
        Ok(())
    }

    /// Adds the literals that change nothing in an effect with this span and these parts.
    #[cycle(searching)]
    fn add_at(&self, span: Span, parts: &[Form], found: &mut Vec<Mistake>) -> Result<(), AllocError>
        ensures { OnOk result (found.new.items ≡ found.old.items
            ++ idle.idle_at (forest_of self.now.condition.now)
            (forest_of self.now.effect.now) span (forest_of parts.now)) }
    {
        let Head::Word(_inner, head, rest) = head_of(parts) else {
            return Ok(());
        };
        if is_row_of_effects(head) {
            return self.add_in_row(rest, found);
        }
        if !is_bound(head) && self.is_idle(head, parts) {
            found.push(Mistake {
                span,
                kind: MistakeKind::Idle,
            })?;
        }
        Ok(())
    }

    /// Whether the literal that begins with this word and has these parts changes nothing.
    fn is_idle(&self, head: &Text, literal: &[Form]) -> bool
        ensures { result ≡ idle.is_idle (forest_of self.now.condition.now)
            (forest_of self.now.effect.now) head.now (forest_of literal.now) }
    {
        demands(self.condition, literal) && (head.is(b"not") || !deletes(head, self.effect))
    }
}

/// Whether an effect is made of effects that happen under no condition.
fn is_row_of_effects(word: &Text) -> bool
    ensures { result ≡ idle.is_row_of_effects word.now }
{
    word.is(b"and") || word.is(b"oneof") || word.is(b"probabilistic")
}

/// Whether an effect has a condition or variables of its own.
fn is_bound(word: &Text) -> bool
    ensures { result ≡ idle.is_bound word.now }
{
    word.is(b"when") || word.is(b"forall")
}

/// Whether a condition with these parts is, or has among its parts, the literal with these parts.
fn demands(condition: &[Form], literal: &[Form]) -> bool
    ensures { result ≡ idle.demands (forest_of condition.now) (forest_of literal.now) }
{
    if begins_with(condition, b"and") {
        has_list(literal, after_first(condition))
    } else {
        same_words(literal, condition)
    }
}

/// Whether these are the parts of a list `(not (WORD ..))`.
fn is_deletion(word: &Text, parts: &[Form]) -> bool
    ensures { result ≡ idle.is_deletion word.now (forest_of parts.now) }
{
    begins_with(parts, b"not") && begins_with(first_parts(after_first(parts)), word.as_bytes())
}

/// Whether the row has, at any depth, a list `(not (WORD ..))`.
fn deletes(word: &Text, row: &[Form]) -> bool
    ensures { result ≡ idle.deletes word.now (forest_of row.now) }
{
    for form in row {
        if let View::Group(_span, parts) = form.view() {
            if is_deletion(word, parts) || deletes(word, parts) {
                return true;
            }
        }
    }
    false
}
