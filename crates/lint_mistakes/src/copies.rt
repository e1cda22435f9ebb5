//! Outcomes that are written twice.

ghost use Rattle.lint_mistakes.specs.Copies as copies;
ghost use Rattle.sexpr_text.specs.Forest.{forest_of};
ghost use Rattle.std.specs.Prelude.{◌≡◌, ◌++◌, IfOk, OnOk};

use crate::mistakes::{Mistake, MistakeKind};
use crate::rows::sections_of;
use sexpr_text::{Form, Head, View, begins_with, head_of, is_nothing};
use std::alloc::{AllocError, Global};

/// The outcomes in the text of a domain with these forms that a later outcome of the same choice
/// repeats.
pub(crate) fn copied_outcomes(alloc: Global, forms: &[Form]) -> Result<Vec<Mistake>, AllocError>
    ensures { IfOk result (λ found. found.items ≡ copies.copied_outcomes (forest_of forms.now)) }
{
    let mut found = Vec::new(alloc);
    add_copies(sections_of(forms, b"domain"), &mut found)?;
    Ok(found)
}

/// Adds the repeated outcomes of all choices in a row, at any depth.
fn add_copies(row: &[Form], found: &mut Vec<Mistake>) -> Result<(), AllocError>
    ensures { OnOk result (found.new.items
        ≡ found.old.items ++ copies.copies_in (forest_of row.now)) }
{
    for form in row {
        if let View::Group(_span, parts) = form.view() {
            add_choice(parts, found)?;
            add_copies(parts, found)?;
        }
    }
    Ok(())
}

/// Adds the repeated outcomes of a choice with these parts.
fn add_choice(parts: &[Form], found: &mut Vec<Mistake>) -> Result<(), AllocError>
    ensures { OnOk result (found.new.items
        ≡ found.old.items ++ copies.choice_copies (forest_of parts.now)) }
{
    if is_choice(parts) {
        add_repeated(parts, found)?;
    }
    Ok(())
}

/// Whether a list with these parts is a choice between outcomes.
fn is_choice(parts: &[Form]) -> bool
    ensures { result ≡ copies.is_choice (forest_of parts.now) }
{
    begins_with(parts, b"oneof") || begins_with(parts, b"probabilistic")
}

/// Adds the lists of a row that a later one repeats.
fn add_repeated(row: &[Form], found: &mut Vec<Mistake>) -> Result<(), AllocError>
    ensures { OnOk result (found.new.items
        ≡ found.old.items ++ copies.repeated (forest_of row.now)) }
{
    let mut rest = row;
    loop {
        match head_of(rest) {
            Head::Nothing => return Ok(()),
            Head::Word(_span, _text, after) => rest = after,
            Head::Group(span, parts, after) => {
                if has_list(parts, after) {
                    found.push(Mistake {
                        span,
                        kind: MistakeKind::Copied,
                    })?;
                }
                rest = after;
            }
        }
    }
}

/// Whether a list of the row has the same words as these parts.
pub(crate) fn has_list(parts: &[Form], row: &[Form]) -> bool
    ensures { result ≡ copies.has_list (forest_of parts.now) (forest_of row.now) }
{
    for form in row {
        if let View::Group(_span, other) = form.view() {
            if same_words(parts, other) {
                return true;
            }
        }
    }
    false
}

/// Whether two rows have the same words in the same lists.
pub(crate) fn same_words(row: &[Form], other: &[Form]) -> bool
    ensures { result ≡ copies.same_words (forest_of row.now) (forest_of other.now) }
{
    let mut rest = row;
    let mut others = other;
    loop {
        match head_of(rest) {
            Head::Nothing => return is_nothing(others),
            Head::Word(_span, text, after) => match head_of(others) {
                Head::Word(_place, word, next) => {
                    if !text.is(word.as_bytes()) {
                        return false;
                    }
                    rest = after;
                    others = next;
                }
                _ => return false,
            },
            Head::Group(_span, parts, after) => match head_of(others) {
                Head::Group(_place, inner, next) => {
                    if !same_words(parts, inner) {
                        return false;
                    }
                    rest = after;
                    others = next;
                }
                _ => return false,
            },
        }
    }
}
