//! The task that two texts spell.

ghost use Rattle.domain_read.specs.Domains.{SpellsDomain};
ghost use Rattle.lint_hints.specs.Hints.{IsTaskOfTexts};
ghost use Rattle.pddl_ast.specs.Fits.{FitsDomain, FitsProblem};
ghost use Rattle.pddl_ast.specs.Values.{domain_value, problem_value};
ghost use Rattle.pddl_domain.specs.WordNames.{HasWordNames};
ghost use Rattle.pddl_problem.specs.Problems.{SpellsProblem};
ghost use Rattle.pddl_problem.specs.WordNames.{HasWordObjects};
ghost use Rattle.pddl_system.specs.Names.{NamesAreWords};
ghost use Rattle.pddl_system.specs.Tasks.{task_of};
ghost use Rattle.pddl_system.specs.Values.{task_value};
ghost use Rattle.std.specs.Prelude.{◌≡◌, ◌≤◌, IfOk, IfSome, length};

use domain_read::read_domain;
use ground_task::{GroundErr, ground};
use pddl_ast::{Domain, Problem};
use pddl_problem::read_problem;
use pddl_system::read_names_are_words;
use sexpr_text::{MAX_BYTES, ReadErr};
use std::alloc::{AllocError, Global};
use task_core::Task;

/// The task of a domain and a problem of it that these texts spell; `None` where they have a fault, or
/// a limit is passed.
pub(crate) fn task_of_texts(
    alloc: Global,
    domain_text: &[u8],
    problem_text: &[u8],
) -> Result<Option<Task>, AllocError>
    requires domain_text { length domain_text.now ≤ MAX_BYTES }
    requires problem_text { length problem_text.now ≤ MAX_BYTES }
    ensures { IfOk result (λ found. IfSome found
        (λ task. IsTaskOfTexts domain_text.now problem_text.now task)) }
{
    let Some(domain) = domain_of(alloc, domain_text)? else {
        return Ok(None);
    };
    let Some(problem) = problem_of(alloc, problem_text, &domain)? else {
        return Ok(None);
    };
    task_in(alloc, domain_text, problem_text, &domain, &problem)
}

/// The task of this domain and this problem, which the texts spell; `None` where a limit is passed.
fn task_in(
    alloc: Global,
    domain_text: &[u8],
    problem_text: &[u8],
    domain: &Domain,
    problem: &Problem,
) -> Result<Option<Task>, AllocError>
    requires domain_spelled { SpellsDomain domain_text.now (domain_value domain.now) }
    requires problem_spelled { SpellsProblem problem_text.now (domain_value domain.now)
        (problem_value problem.now) }
    requires fits_domain { FitsDomain (domain_value domain.now) }
    requires fits_problem { FitsProblem (domain_value domain.now) (problem_value problem.now) }
    requires domain_words { HasWordNames (domain_value domain.now) }
    requires problem_words { HasWordObjects (problem_value problem.now) }
    ensures { IfOk result (λ found. IfSome found
        (λ task. IsTaskOfTexts domain_text.now problem_text.now task)) }
{
    // This does nothing: that the names are words rests on what it promises.
    read_names_are_words();
    grounded(alloc, domain, problem)
}

fn domain_of(alloc: Global, text: &[u8]) -> Result<Option<Domain>, AllocError>
    requires { length text.now ≤ MAX_BYTES }
    ensures spells { IfOk result (λ found. IfSome found
        (λ domain. SpellsDomain text.now (domain_value domain))) }
    ensures fits { IfOk result (λ found. IfSome found
        (λ domain. FitsDomain (domain_value domain))) }
    ensures words { IfOk result (λ found. IfSome found
        (λ domain. HasWordNames (domain_value domain))) }
{
    match read_domain(alloc, text) {
        Ok(domain) => Ok(Some(domain)),
        Err(ReadErr::Fault(_fault)) => Ok(None),
        Err(ReadErr::Memory) => Err(AllocError),
    }
}

fn problem_of(alloc: Global, text: &[u8], domain: &Domain) -> Result<Option<Problem>, AllocError>
    requires text { length text.now ≤ MAX_BYTES }
    requires domain { FitsDomain (domain_value domain.now) }
    ensures spells { IfOk result (λ found. IfSome found
        (λ problem. SpellsProblem text.now (domain_value domain.now) (problem_value problem))) }
    ensures fits { IfOk result (λ found. IfSome found
        (λ problem. FitsProblem (domain_value domain.now) (problem_value problem))) }
    ensures words { IfOk result (λ found. IfSome found
        (λ problem. HasWordObjects (problem_value problem))) }
{
    match read_problem(alloc, text, domain) {
        Ok(problem) => Ok(Some(problem)),
        Err(ReadErr::Fault(_fault)) => Ok(None),
        Err(ReadErr::Memory) => Err(AllocError),
    }
}

/// The task of a domain and a problem; `None` where a limit is passed.
fn grounded(alloc: Global, domain: &Domain, problem: &Problem) -> Result<Option<Task>, AllocError>
    requires fits_domain { FitsDomain (domain_value domain.now) }
    requires fits_problem { FitsProblem (domain_value domain.now) (problem_value problem.now) }
    requires names { NamesAreWords (domain_value domain.now) (problem_value problem.now) }
    ensures { IfOk result (λ found. IfSome found (λ task. task_value task
        ≡ task_of (domain_value domain.now) (problem_value problem.now))) }
{
    match ground(alloc, domain, problem) {
        Ok(grounded) => Ok(Some(grounded.task)),
        Err(GroundErr::Memory) => Err(AllocError),
        Err(_limit) => Ok(None),
    }
}
