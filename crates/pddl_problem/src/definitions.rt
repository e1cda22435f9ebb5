//! The list that defines a problem.

ghost use Rattle.std.specs.Prelude.{◌≡◌};
ghost use Rattle.std.specs.Option.{option_map};
ghost use Rattle.sexpr_text.specs.Forest.{forest_of};
ghost use Rattle.pddl_problem.specs.Problems as problems;
ghost use Rattle.pddl_problem.specs.Values.{definition_value};

use pddl_ast::title_of;
use sexpr_text::{Form, Head, Span, Text, first_definition, head_of};

/// The list that defines a problem: its span, the problem's name, and its sections.
#[derive(Clone, Copy)]
pub(crate) struct Definition<'a> {
    pub(crate) span: Span,
    pub(crate) name: &'a Text,
    pub(crate) items: &'a [Form],
}

/// What `define (problem NAME) ..` defines, with the span of its list.
fn defined(span: Span, parts: &[Form]) -> Option<Definition<'_>>
    ensures { option_map definition_value result ≡ problems.defined span (forest_of parts.now) }
{
    let Head::Word(_, _, rest) = head_of(parts) else {
        return None;
    };
    match head_of(rest) {
        Head::Group(_, row, items) => {
            let name = title_of(row)?;
            Some(Definition { span, name, items })
        }
        Head::Nothing | Head::Word(_, _, _) => None,
    }
}

/// The first list that is `define (problem NAME) ..`.
pub(crate) fn definition_in(forms: &[Form]) -> Option<Definition<'_>>
    ensures { option_map definition_value result ≡ problems.definition_in (forest_of forms.now) }
{
    let (span, parts) = first_definition(forms, b"problem")?;
    defined(span, parts)
}
