//! The invariant of a domain.

ghost use Rattle.std.specs.Prelude.{◌≡◌, [], IfOk, IfErr, OnOk, Some};
ghost use Rattle.sexpr_text.specs.Forest.{forest_of};
ghost use Rattle.sexpr_text.specs.Flaws.{first_listed};
ghost use Rattle.sexpr_text.specs.Passes.{IfFault};
ghost use Rattle.pddl_ast.specs.Environment.{known_value};
ghost use Rattle.pddl_ast.specs.Values.{formula_value};
ghost use Rattle.pddl_domain.specs.Invariant as specs;

use pddl_ast::{Formula, Known, Scope, always, read_formula};
use sexpr_text::{FaultKind, Form, Head, ReadErr, fault_at, head_of};
use std::alloc::Global;

/// The invariant of an `:invariant` section with these forms after its word; without any, the
/// formula that is true of everything.
pub fn read_invariant(alloc: Global, known: &Known, row: &[Form]) -> Result<Formula, ReadErr>
    ensures sound { OnOk result
        (specs.invariant_flaws (known_value known.now) (forest_of row.now) ≡ []) }
    ensures read { IfOk result
        (λ f. formula_value f ≡ specs.invariant_of (known_value known.now) (forest_of row.now)) }
    ensures fault { IfErr result
        (λ e. IfFault e (λ f. first_listed
        (specs.invariant_flaws (known_value known.now) (forest_of row.now)) ≡ Some f)) }
{
    match head_of(row) {
        Head::Nothing => Ok(always(alloc)),
        Head::Word(span, _, _) => Err(fault_at(span, FaultKind::BadForm)),
        Head::Group(span, parts, _) => {
            let mut scope = Scope::new(alloc);
            read_formula(alloc, known, &mut scope, span, parts)
        }
    }
}
