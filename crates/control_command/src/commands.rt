//! From what is asked to the answer.

ghost use Rattle.command_base.specs.Shelves.{KeepsShelf};
ghost use Rattle.control_command.specs.Controllers.{IsControlAnswer, IsControlled};
ghost use Rattle.control_command.specs.Answers.{IsRequestAnswer};
ghost use Rattle.control_command.specs.Sought.{FollowsFor, IsAnswerFor, IsAnswerIn, IsReady};
ghost use Rattle.control_command.specs.Values.{HasRoom, control_words_of, request_value};
ghost use Rattle.control_command.specs.Words.{domain_of, problem_of};
ghost use Rattle.command_base.specs.Answers.{no_memory, refused};
ghost use Rattle.command_base.specs.Fetching.{FetchesBoth};
ghost use Rattle.command_base.specs.Values.{answer_of, refusal_of};
ghost use Rattle.command_base.specs.Words.{IsNodeLimit};
ghost use Rattle.pddl_ast.specs.Fits.{FitsDomain, FitsProblem};
ghost use Rattle.pddl_ast.specs.Values.{domain_value, problem_value};
ghost use Rattle.pddl_system.specs.Names.{NamesAreWords};
ghost use Rattle.plan_io.specs.Fetches.{FailedLast, FetchesNothing};
ghost use Rattle.std.specs.Prelude.{◌≡◌, ◌⊎◌, IfErr, IfOk, IfSome};

use crate::fair::fair_files;
use crate::plan_controllers::without_controller;
use crate::search_controllers::shown_sought;
use crate::searches::Effort;
use crate::sought::Sought;
use crate::words::{ControlRequest, ControlWords};
use command_base::{Refusal, Shown, check_goal, ground_both, read_both};
use pddl_ast::{Domain, Problem};
use plan_io::Shelf;
use std::alloc::Global;

/// The controller for the domain and the problem in two files, or that there is no plan of the kind.
///
/// The answer is yes with a controller: a plan of the kind that meets the problem, with rules for the states
/// alone that it reaches, as text, as a JSON document or as a program. It is no where there is no plan; where
/// it is wanted a certificate of that stands below. The limits are those of `mbp plan`, or: the text would be
/// longer than 1,048,576 bytes; of a plan with contexts, there are more than 262,144 initial states, or more
/// than 262,144 configurations are reached. Where `mbp plan` finds a plan, one of these limits is the only
/// reason why no controller is shown, but for want of memory.
pub fn controller<S: Shelf>(
    alloc: Global,
    shelf: &mut S,
    asked: &ControlRequest,
) -> Result<Shown, Refusal>
    requires room { HasRoom asked.now }
    ensures answer { let failed = FailedLast S.fetched S.faults shelf.old shelf.new in
        (answer_of result ≡ refused no_memory)
        ⊎ IsRequestAnswer (S.held shelf.old) failed (request_value asked.now) (answer_of result) }
    ensures fetches { let asked = request_value asked.now in
        FetchesBoth (S.held shelf.old) S.fetched (domain_of asked) (problem_of asked)
        FetchesNothing shelf.old shelf.new }
    ensures shelf { KeepsShelf S.held S.faults (answer_of result) shelf.old shelf.new }
{
    match asked {
        ControlRequest::Plan(asked) => control_files(alloc, shelf, asked),
        ControlRequest::Fair(asked) => fair_files(alloc, shelf, asked),
    }
}

/// The controller for the domain and the problem in two files, or that there is no plan.
fn control_files<S: Shelf>(
    alloc: Global,
    shelf: &mut S,
    asked: &ControlWords,
) -> Result<Shown, Refusal>
    requires room { IsNodeLimit asked.now.plan.options.nodes }
    ensures answer { let failed = FailedLast S.fetched S.faults shelf.old shelf.new in
        (answer_of result ≡ refused no_memory)
        ⊎ IsControlAnswer (S.held shelf.old) failed (control_words_of asked.now)
        (answer_of result) }
    ensures fetches { FetchesBoth (S.held shelf.old) S.fetched asked.now.plan.domain.now
        asked.now.plan.problem.now FetchesNothing shelf.old shelf.new }
    ensures shelf { KeepsShelf S.held S.faults (answer_of result) shelf.old shelf.new }
{
    let (domain, problem) = read_both(alloc, shelf, asked.plan.domain, asked.plan.problem)?;
    control_problem(alloc, asked, &domain, &problem)
}

/// The controller for a problem, whose goal is to be one for plans of the kind.
fn control_problem(
    alloc: Global,
    asked: &ControlWords,
    domain: &Domain,
    problem: &Problem,
) -> Result<Shown, Refusal>
    requires room { IsNodeLimit asked.now.plan.options.nodes }
    requires fits_domain { FitsDomain (domain_value domain.now) }
    requires fits_problem { FitsProblem (domain_value domain.now) (problem_value problem.now) }
    requires names { NamesAreWords (domain_value domain.now) (problem_value problem.now) }
    ensures { IsAnswerIn IsControlled (control_words_of asked.now) (domain_value domain.now)
        (problem_value problem.now) (answer_of result) }
{
    check_goal(alloc, asked.plan.kind, asked.plan.problem, problem)?;
    let grounded = ground_both(alloc, domain, problem)?;
    let sought = Sought {
        asked,
        domain,
        problem,
        grounded: &grounded,
    };
    control_grounded(alloc, &sought)
}

/// The controller for a task and its goals, which are those of the domain and the problem.
fn control_grounded(alloc: Global, sought: &Sought<'_>) -> Result<Shown, Refusal>
    requires { IsReady sought.now }
    ensures { IsAnswerFor sought.now (answer_of result) }
{
    match shown_early(alloc, sought)? {
        Some(shown) => Ok(shown),
        None => without_controller(alloc, sought),
    }
}

/// What is shown of what little work finds, or where that finds nothing, thorough work.
fn shown_early(alloc: Global, sought: &Sought<'_>) -> Result<Option<Shown>, Refusal>
    requires { IsReady sought.now }
    ensures shown { IfOk result (λ found. IfSome found (FollowsFor sought.now)) }
    ensures refused { IfErr result (λ refusal. refusal_of refusal ≡ no_memory) }
{
    let little = shown_sought(alloc, sought, Effort::Little)?;
    if little.is_some() {
        return Ok(little);
    }
    shown_sought(alloc, sought, Effort::Thorough)
}
