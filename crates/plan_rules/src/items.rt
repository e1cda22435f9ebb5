//! One form after another in a row.

ghost use Rattle.std.specs.Prelude.{◌≡◌};
ghost use Rattle.std.specs.Option.{option_map};
ghost use Rattle.sexpr_text.specs.Forest.{forest_of};
ghost use Rattle.plan_rules.specs.Items.{first_item, item_of, item_span, split_group};

use sexpr_text::{Form, Head, Span, View, head_of};

/// The parts of a table's rule.
#[derive(Clone, Copy)]
pub(crate) struct TableRuleParts<'a> {
    pub(crate) cube: &'a [Form],
    pub(crate) action_span: Span,
    pub(crate) action: &'a [Form],
}

/// The parts of an automaton's rule.
#[derive(Clone, Copy)]
pub(crate) struct ContextRuleParts<'a> {
    pub(crate) context: View<'a>,
    pub(crate) cube: &'a [Form],
    pub(crate) action_span: Span,
    pub(crate) action: &'a [Form],
    pub(crate) next: View<'a>,
}

/// The span of a form.
pub fn span_of(form: View<'_>) -> Span
    ensures { result ≡ item_span (item_of form.entry) }
{
    match form {
        View::Word(span, _) => span,
        View::Group(span, _) => span,
    }
}

/// The first form of a row, and what follows it.
pub fn first_item(row: &[Form]) -> Option<(View<'_>, &[Form])>
    ensures { option_map (λ p. (item_of p.0, forest_of p.1.now)) result
        ≡ first_item (forest_of row.now) }
{
    match head_of(row) {
        Head::Nothing => None,
        Head::Word(span, text, rest) => Some((View::Word(span, text), rest)),
        Head::Group(span, parts, rest) => Some((View::Group(span, parts), rest)),
    }
}

/// The span and the parts of a row's first form, where it is a group, and what follows it.
pub(crate) fn split_group(row: &[Form]) -> Option<(Span, &[Form], &[Form])>
    ensures { option_map (λ p. (p.0, forest_of p.1.now, forest_of p.2.now)) result
        ≡ split_group (forest_of row.now) }
{
    match head_of(row) {
        Head::Group(span, parts, rest) => Some((span, parts, rest)),
        _ => None,
    }
}
