//! From what is asked to the answer.

ghost use Rattle.command_base.specs.Answers.{full, no_memory, refused};
ghost use Rattle.command_base.specs.Fetching.{FetchesBoth};
ghost use Rattle.command_base.specs.Grounded.{IsGroundedOf};
ghost use Rattle.command_base.specs.Grounding.{has_goal_for};
ghost use Rattle.command_base.specs.Shelves.{KeepsShelf};
ghost use Rattle.command_base.specs.Values.{answer_of, kind_of, plan_words_of};
ghost use Rattle.command_base.specs.Words.{IsNodeLimit, of_class};
ghost use Rattle.pddl_ast.specs.Fits.{FitsDomain, FitsProblem};
ghost use Rattle.pddl_ast.specs.Values.{domain_value, problem_value};
ghost use Rattle.pddl_system.specs.Names.{NamesAreWords};
ghost use Rattle.plan_command.specs.PlanCommand.{MayBeTooFew};
ghost use Rattle.plan_io.specs.Fetches.{FailedLast, FetchesNothing};
ghost use Rattle.std.specs.Prelude.{◌≡◌, ◌⊎◌, true};
ghost use Rattle.why_command.specs.Whys.{IsWhy, IsWhyAnswer, WhyThen};

use crate::never::never_reached;
use crate::planned::{Read, said_for};
use crate::told_runs::with_run;
use command_base::{PlanKind, PlanWords, Refusal, Shown, Text, check_goal, ground_both, read_both};
use ground_task::Grounded;
use pddl_ast::{Domain, Problem};
use plan_io::Shelf;
use relaxed_reach::goals_that_cannot_hold_are_never_reached;
use std::alloc::Global;

/// Why there is no plan for the domain and the problem in two files, or that there is one.
///
/// Where no reachable state is a goal state, the lines say which parts of the goal never hold, and what the
/// outcomes lack that would make their literals true. Else the line says whether there is a plan.
pub fn why_files<S: Shelf>(
    alloc: Global,
    shelf: &mut S,
    asked: &PlanWords,
) -> Result<Shown, Refusal>
    requires room { IsNodeLimit asked.now.options.nodes }
    ensures answer { let failed = FailedLast S.fetched S.faults shelf.old shelf.new in
        (answer_of result ≡ refused no_memory)
        ⊎ IsWhyAnswer (S.held shelf.old) failed (plan_words_of asked.now) (answer_of result) }
    ensures fetches { FetchesBoth (S.held shelf.old) S.fetched asked.now.domain.now
        asked.now.problem.now FetchesNothing shelf.old shelf.new }
    ensures shelf { KeepsShelf S.held S.faults (answer_of result) shelf.old shelf.new }
{
    let (domain, problem) = read_both(alloc, shelf, asked.domain, asked.problem)?;
    why_problem(alloc, asked, &domain, &problem)
}

/// Why there is no plan for a problem, whose goal is to be one for plans of the kind.
fn why_problem(
    alloc: Global,
    asked: &PlanWords,
    domain: &Domain,
    problem: &Problem,
) -> Result<Shown, Refusal>
    requires room { IsNodeLimit asked.now.options.nodes }
    requires fits_domain { FitsDomain (domain_value domain.now) }
    requires fits_problem { FitsProblem (domain_value domain.now) (problem_value problem.now) }
    requires names { NamesAreWords (domain_value domain.now) (problem_value problem.now) }
    ensures { let asked = plan_words_of asked.now in
        (answer_of result ≡ refused no_memory)
        ⊎ (MayBeTooFew asked (domain_value domain.now) (problem_value problem.now)
        × (answer_of result ≡ refused (full asked.options.nodes)))
        ⊎ IsWhy asked (domain_value domain.now) (problem_value problem.now) (answer_of result) }
{
    check_goal(alloc, asked.kind, asked.problem, problem)?;
    let mut grounded = ground_both(alloc, domain, problem)?;
    why_grounded(alloc, asked, domain, problem, &mut grounded)
}

/// Why there is no plan for a task and its goals, which are those of the domain and the problem.
fn why_grounded(
    alloc: Global,
    asked: &PlanWords,
    domain: &Domain,
    problem: &Problem,
    grounded: &mut Grounded,
) -> Result<Shown, Refusal>
    requires room { IsNodeLimit asked.now.options.nodes }
    requires goal { has_goal_for (kind_of asked.now.kind) (problem_value problem.now) ≡ true }
    requires grounded { IsGroundedOf (domain_value domain.now) (problem_value problem.now)
        grounded.old }
    ensures { let asked = plan_words_of asked.now in
        (answer_of result ≡ refused no_memory)
        ⊎ (MayBeTooFew asked (domain_value domain.now) (problem_value problem.now)
        × (answer_of result ≡ refused (full asked.options.nodes)))
        ⊎ WhyThen asked (domain_value domain.now) (problem_value problem.now)
        (answer_of result) }
{
    // This does nothing: that no reachable state is a goal state rests on what it promises.
    goals_that_cannot_hold_are_never_reached(&grounded.task);
    if let PlanKind::Class(_) = asked.kind {
        if let Some(text) = never_reached(alloc, &grounded.task)? {
            return Ok(Shown::Denied(Text::Made(text.into_bytes())));
        }
    }
    said_then(alloc, asked, domain, problem, grounded)
}

/// What is said for the answer of `plan`, with the run that is told after it.
fn said_then(
    alloc: Global,
    asked: &PlanWords,
    domain: &Domain,
    problem: &Problem,
    grounded: &mut Grounded,
) -> Result<Shown, Refusal>
    requires room { IsNodeLimit asked.now.options.nodes }
    requires goal { has_goal_for (kind_of asked.now.kind) (problem_value problem.now) ≡ true }
    requires grounded { IsGroundedOf (domain_value domain.now) (problem_value problem.now)
        grounded.old }
    ensures { let asked = plan_words_of asked.now in
        (answer_of result ≡ refused no_memory)
        ⊎ (MayBeTooFew asked (domain_value domain.now) (problem_value problem.now)
        × (answer_of result ≡ refused (full asked.options.nodes)))
        ⊎ WhyThen asked (domain_value domain.now) (problem_value problem.now)
        (answer_of result) }
{
    let read = Read {
        domain,
        problem,
        grounded,
    };
    let said = said_for(alloc, asked, &read)?;
    let told = with_run(alloc, asked, &mut grounded.task, said)?;
    Ok(told)
}
