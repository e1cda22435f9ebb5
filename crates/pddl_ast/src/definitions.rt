//! The list that defines a domain or a problem.

ghost use Rattle.std.specs.Prelude.{◌≡◌};
ghost use Rattle.std.specs.Option.{option_copied};
ghost use Rattle.sexpr_text.specs.Forest.{forest_of};
ghost use Rattle.pddl_ast.specs.Definitions as definition;

use sexpr_text::{FaultKind, Form, Head, InputFault, Place, ReadErr, Text, head_of};

/// The name in `domain NAME` or `problem NAME`.
pub fn title_of(row: &[Form]) -> Option<&Text>
    ensures { option_copied result ≡ definition.title_of (forest_of row.now) }
{
    let Head::Word(_, _, rest) = head_of(row) else {
        return None;
    };
    match head_of(rest) {
        Head::Word(_, name, _) => Some(name),
        Head::Nothing | Head::Group(_, _, _) => None,
    }
}

/// The refusal of a text that defines nothing of the kind that is wanted.
pub fn no_define() -> ReadErr
    ensures { result ≡ ReadErr.Fault definition.no_define.fault }
{
    ReadErr::Fault(InputFault {
        kind: FaultKind::NoDefine,
        place: Place { line: 1, column: 1 },
    })
}
