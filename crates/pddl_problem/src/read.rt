//! Reads the bytes of a problem.

ghost use Rattle.std.specs.Prelude.{◌≡◌, ◌≤◌, length, None, Some, IfOk, OnOk, IfErr};
ghost use Rattle.sexpr_text.specs.Flaws.{fault_of_passes};
ghost use Rattle.sexpr_text.specs.Faults.{most_open};
ghost use Rattle.sexpr_text.specs.Forest.{forest_of};
ghost use Rattle.sexpr_text.specs.Formed.{nesting_of};
ghost use Rattle.sexpr_text.specs.Passes.{IfFault};
ghost use Rattle.pddl_ast.specs.Fits.{FitsDomain, FitsProblem};
ghost use Rattle.pddl_ast.specs.Values.{domain_value, problem_value};
ghost use Rattle.pddl_problem.specs.Problems.{SpellsProblem, HasProblemFault};
ghost use Rattle.pddl_problem.specs.Problems.{problem_in, problem_passes};
ghost use Rattle.pddl_problem.specs.Rising.{Rises};
ghost use Rattle.pddl_problem.specs.WordNames.{HasWordObjects};

use crate::definitions::definition_in;
use crate::problems::read_definition;
use pddl_ast::{Domain, Known, Problem, no_define};
use sexpr_text::{Form, MAX_BYTES, ReadErr, read_forms};
use std::alloc::Global;

/// The problem that forms read as, or the fault of their passes.
fn read_in_forms(alloc: Global, forms: &[Form], domain: &Domain) -> Result<Problem, ReadErr>
    requires rising { Rises (forest_of forms.now) }
    requires shallow { nesting_of (forest_of forms.now) ≤ most_open }
    requires domain { FitsDomain (domain_value domain.now) }
    ensures sound { OnOk result (fault_of_passes (problem_passes (domain_value domain.now)
        (forest_of forms.now)) ≡ None) }
    ensures read { IfOk result (λ p. problem_in (domain_value domain.now) (forest_of forms.now)
        ≡ Some (problem_value p)) }
    ensures fits { IfOk result (λ p. FitsProblem (domain_value domain.now) (problem_value p)) }
    ensures words { IfOk result (λ p. HasWordObjects (problem_value p)) }
    ensures fault { IfErr result (λ e. IfFault e (λ f.
        fault_of_passes (problem_passes (domain_value domain.now) (forest_of forms.now))
        ≡ Some f)) }
{
    let Some(definition) = definition_in(forms) else {
        return Err(no_define());
    };
    let mut known = Known::of_domain(alloc, domain)?;
    let problem = read_definition(alloc, &domain.name, &mut known, &definition)?;
    Ok(problem)
}

/// The problem that a text spells relative to a domain, or its first fault, or want of memory.
///
/// The text has at most `MAX_BYTES` bytes. It either spells exactly one problem of the domain or
/// has exactly one fault (`one_answer`). A problem that is read fits the domain, and the names of
/// its objects are words. Names are looked
/// up by hash, so that the time this takes grows with the length of the text and the size of the
/// domain.
pub fn read_problem(alloc: Global, bytes: &[u8], domain: &Domain) -> Result<Problem, ReadErr>
    requires length { length bytes.now ≤ MAX_BYTES }
    requires domain { FitsDomain (domain_value domain.now) }
    ensures problem { IfOk result (λ p. SpellsProblem bytes.now (domain_value domain.now)
        (problem_value p)) }
    ensures fits { IfOk result (λ p. FitsProblem (domain_value domain.now) (problem_value p)) }
    ensures words { IfOk result (λ p. HasWordObjects (problem_value p)) }
    ensures fault { IfErr result (λ e. IfFault e (λ f. HasProblemFault bytes.now
        (domain_value domain.now) f)) }
{
    let forms = read_forms(alloc, bytes)?;
    let problem = read_in_forms(alloc, &forms, domain)?;
    Ok(problem)
}
