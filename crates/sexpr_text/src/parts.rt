//! What readers of domains, problems, plans and records ask of a row of forms: the first form and
//! what follows it, a word or a group alone, what follows a word, and the first group of a kind.
//! Each answers by looking at the row's first few forms alone, but for `first_group` and
//! `first_definition`, which look at each form of the row until they find one.

ghost use Rattle.std.specs.Prelude.{◌≡◌, ◌↔◌, ℕ, Bool, true, IsTrue};
ghost use Rattle.std.specs.Option.{option_copied, option_map};
ghost use Rattle.sexpr_text.specs.Forest.{Forest, form_then, forest_of};
ghost use Rattle.sexpr_text.specs.Heads.{head_forest, view_then};
ghost use Rattle.sexpr_text.specs.Parts as parts;

use crate::forms::{Form, Span};
use crate::texts::Text;

/// A form, looked at through a reference.
#[derive(Clone, Copy, Debug)]
pub enum View<'a> {
    Word(Span, &'a Text),
    Group(Span, &'a [Form]),
}

/// The first form of a row, with what follows it.
#[derive(Clone, Copy, Debug)]
pub enum Head<'a> {
    Nothing,
    Word(Span, &'a Text, &'a [Form]),
    Group(Span, &'a [Form], &'a [Form]),
}

impl Form {
    /// The form, looked at through a reference.
    pub fn view(&self) -> View<'_>
        ensures { (rest : Forest) → form_then self.now rest ≡ view_then result rest }
    {
        match self {
            Form::Word(span, text) => View::Word(*span, text),
            Form::Group(span, parts) => View::Group(*span, parts.as_slice()),
        }
    }
}

/// The first form of a row, with what follows it.
pub fn head_of(row: &[Form]) -> Head<'_>
    ensures { forest_of row.now ≡ head_forest result }
{
    let Some((form, rest)) = row.split_first() else {
        return Head::Nothing;
    };
    match form.view() {
        View::Word(span, text) => Head::Word(span, text, rest),
        View::Group(span, parts) => Head::Group(span, parts, rest),
    }
}

/// Whether the row has no form.
pub fn is_nothing(row: &[Form]) -> bool
    ensures { result ≡ parts.is_nothing (forest_of row.now) }
{
    matches!(head_of(row), Head::Nothing)
}

/// Whether there is exactly one form.
pub fn is_one(row: &[Form]) -> bool
    ensures { result ≡ parts.is_one (forest_of row.now) }
{
    match head_of(row) {
        Head::Nothing => false,
        Head::Word(_, _, rest) => is_nothing(rest),
        Head::Group(_, _, rest) => is_nothing(rest),
    }
}

/// The word that is the whole row, with its span.
pub fn only_word(row: &[Form]) -> Option<(Span, &Text)>
    ensures { option_map (λ p. (p.0, p.1.now)) result ≡ parts.only_word (forest_of row.now) }
{
    match head_of(row) {
        Head::Word(span, text, rest) => {
            if is_nothing(rest) {
                Some((span, text))
            } else {
                None
            }
        }
        _ => None,
    }
}

/// The span and the parts of the group that is the whole row.
pub fn only_group(row: &[Form]) -> Option<(Span, &[Form])>
    ensures { option_map (λ p. (p.0, forest_of p.1.now)) result
        ≡ parts.only_group (forest_of row.now) }
{
    match head_of(row) {
        Head::Group(span, parts, rest) => {
            if is_nothing(rest) {
                Some((span, parts))
            } else {
                None
            }
        }
        _ => None,
    }
}

/// Whether the row's first form is this word.
pub fn begins_with(row: &[Form], word: &[u8]) -> bool
    ensures { result ≡ parts.begins_with word.now (forest_of row.now) }
{
    match head_of(row) {
        Head::Word(_, text, _) => text.is(word),
        _ => false,
    }
}

/// What follows the word, where the row begins with it.
pub fn after_word<'a>(row: &'a [Form], word: &[u8]) -> Option<&'a [Form]>
    ensures { option_map (λ rest. forest_of rest.now) result
        ≡ parts.after_word word.now (forest_of row.now) }
{
    match head_of(row) {
        Head::Word(_, text, rest) if text.is(word) => Some(rest),
        _ => None,
    }
}

/// The span and the parts of the group that is all that follows the word, where the row begins with
/// it.
pub fn group_after<'a>(row: &'a [Form], word: &[u8]) -> Option<(Span, &'a [Form])>
    ensures { option_map (λ p. (p.0, forest_of p.1.now)) result
        ≡ parts.group_after word.now (forest_of row.now) }
{
    only_group(after_word(row, word)?)
}

/// Whether a word with this text is a name: it is not `-` and does not begin with `?` or `:`.
pub fn is_name(text: &Text) -> bool
    ensures { result ≡ parts.is_name text.now }
{
    let bytes = text.as_bytes();
    !text.is(b"-") && !bytes.starts_with(b"?") && !bytes.starts_with(b":")
}

/// Whether the row is `KIND NAME`.
pub fn is_titled(row: &[Form], kind: &[u8]) -> bool
    ensures { result ≡ parts.is_titled kind.now (forest_of row.now) }
{
    let Head::Word(_, text, rest) = head_of(row) else {
        return false;
    };
    match head_of(rest) {
        Head::Word(_, title, rest) => text.is(kind) && is_name(title) && is_nothing(rest),
        _ => false,
    }
}

/// Whether the row is `define (KIND NAME) ..`.
pub fn is_definition(row: &[Form], kind: &[u8]) -> bool
    ensures { result ≡ parts.is_definition kind.now (forest_of row.now) }
{
    let Head::Word(_, text, rest) = head_of(row) else {
        return false;
    };
    match head_of(rest) {
        Head::Group(_, parts, _) => text.is(b"define") && is_titled(parts, kind),
        _ => false,
    }
}

/// The span and the parts of the first group that begins with the word.
pub fn first_group<'a>(row: &'a [Form], word: &[u8]) -> Option<(Span, &'a [Form])>
    ensures { option_map (λ p. (p.0, forest_of p.1.now)) result
        ≡ parts.first_group_with (parts.begins_with word.now) (forest_of row.now) }
{
    for form in row {
        if let View::Group(span, parts) = form.view() {
            if begins_with(parts, word) {
                return Some((span, parts));
            }
        }
    }
    None
}

/// The span and the parts of the first group that is `define (KIND NAME) ..`.
pub fn first_definition<'a>(row: &'a [Form], kind: &[u8]) -> Option<(Span, &'a [Form])>
    ensures { option_map (λ p. (p.0, forest_of p.1.now)) result
        ≡ parts.first_group_with (parts.is_definition kind.now) (forest_of row.now) }
{
    for form in row {
        if let View::Group(span, parts) = form.view() {
            if is_definition(parts, kind) {
                return Some((span, parts));
            }
        }
    }
    None
}
