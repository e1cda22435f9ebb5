//! Where actions and parts of conditions stand.

ghost use Rattle.lint_mistakes.specs.Places as places;
ghost use Rattle.sexpr_text.specs.Forest.{forest_of};
ghost use Rattle.std.specs.Prelude.{◌≡◌};

use crate::rows::after_first;
use sexpr_text::{Form, Head, Span, View, begins_with, head_of};

/// The parts of the first action of this name among the sections of a domain.
pub fn action_named<'a>(sections: &'a [Form], name: &[u8]) -> &'a [Form]
    ensures { forest_of result.now ≡ places.action_named name.now (forest_of sections.now) }
{
    for form in sections {
        if let View::Group(_span, parts) = form.view() {
            if is_action(parts, name) {
                return parts;
            }
        }
    }
    &[]
}

/// Whether a list with these parts is the action of this name.
fn is_action(parts: &[Form], name: &[u8]) -> bool
    ensures { result ≡ places.is_action name.now (forest_of parts.now) }
{
    begins_with(parts, b":action") && begins_with(after_first(parts), name)
}

/// The span of the first form; this one where there is none.
pub fn span_or(row: &[Form], span: Span) -> Span
    ensures { result ≡ places.span_or span (forest_of row.now) }
{
    match head_of(row) {
        Head::Nothing => span,
        Head::Word(first, _, _) => first,
        Head::Group(first, _, _) => first,
    }
}

/// What follows so many forms.
fn after_forms(row: &[Form], count: usize) -> &[Form]
    ensures { forest_of result.now ≡ places.after_forms count (forest_of row.now) }
{
    let mut rest = row;
    for number in 0..count {
        rest = after_first(rest);
    }
    rest
}

/// Where the part with this number of a condition stands, which is a list with this span and these parts.
pub fn part_span(span: Span, parts: &[Form], part: usize) -> Span
    ensures { result ≡ places.part_span part span (forest_of parts.now) }
{
    if begins_with(parts, b"and") {
        span_or(after_forms(after_first(parts), part), span)
    } else {
        span
    }
}
