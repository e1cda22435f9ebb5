//! The refusal of a problem that has no initial state.

ghost use Rattle.command_base.specs.InitialStates.{empty_init};
ghost use Rattle.command_base.specs.Values.{refusal_of};
ghost use Rattle.pddl_ast.specs.Values.{problem_value};
ghost use Rattle.std.specs.Prelude.{◌≡◌, IfOk};

use crate::answers::Refusal;
use pddl_ast::Problem;
use sexpr_text::{FaultKind, InputFault};
use std::alloc::{AllocError, Global};

/// The refusal of the problem in the file of this name, which has no initial state.
pub fn no_initial(alloc: Global, name: &str, problem: &Problem) -> Result<Refusal, AllocError>
    ensures { IfOk result
        (λ refusal. refusal_of refusal ≡ empty_init name.now (problem_value problem.now)) }
{
    Ok(Refusal::TextFault(
        String::from_str(alloc, name)?,
        InputFault {
            kind: FaultKind::EmptyInit,
            place: problem.place,
        },
    ))
}
