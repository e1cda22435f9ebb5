//! From what is asked to the answer.

ghost use Rattle.check_command.specs.CheckCommand.{FetchesToCheck};
ghost use Rattle.command_base.specs.Answers.{no_memory, refused};
ghost use Rattle.command_base.specs.Fetching.{Stops};
ghost use Rattle.command_base.specs.Grounding.{GoalThen, GroundThen, has_goal_for};
ghost use Rattle.command_base.specs.Shelves.{KeepsShelf};
ghost use Rattle.command_base.specs.Values.{answer_of, kind_of};
ghost use Rattle.command_base.specs.Words.{with_contexts};
ghost use Rattle.explain_command.specs.Explained.{IsExplainAnswer, IsExplained};
ghost use Rattle.explain_command.specs.Values.{explain_words_of};
ghost use Rattle.pddl_ast.specs.Fits.{FitsDomain, FitsProblem};
ghost use Rattle.pddl_ast.specs.Values.{domain_value, problem_value};
ghost use Rattle.pddl_system.specs.Names.{NamesAreWords};
ghost use Rattle.pddl_system.specs.Sizes.{first_passed};
ghost use Rattle.plan_io.specs.Fetches.{FailedLast, Fetches};
ghost use Rattle.std.specs.Prelude.{◌≡◌, ◌⊎◌, [], ◌∷◌, None, true};

use crate::lined::read_lined;
use crate::verdicts::explain_read;
use crate::words::ExplainWords;
use command_base::{Refusal, Shown, check_goal, ground_both, read_both};
use fair_theory::fair_goals_are_true;
use pddl_ast::{Domain, Problem};
use pddl_system::grounded_goals_are_true;
use plan_io::Shelf;
use std::alloc::Global;

/// The verdict on the plan in a file, for the domain and the problem in two files: its line alone, or with a
/// run that shows it, or a JSON document of both.
///
/// The verdict is that of `mbp check`, word for word. Where actions may be tried again, the plan is judged by
/// the goal that stands in the place of the problem's.
pub fn explain_files<S: Shelf>(
    alloc: Global,
    shelf: &mut S,
    asked: &ExplainWords,
) -> Result<Shown, Refusal>
    requires fair { asked.now.fair ≡ true → kind_of asked.now.check.kind ≡ with_contexts }
    ensures answer { let failed = FailedLast S.fetched S.faults shelf.old shelf.new in
        (answer_of result ≡ refused no_memory)
        ⊎ IsExplainAnswer (S.held shelf.old) failed (explain_words_of asked.now) (answer_of result) }
    ensures fetches { let failed = FailedLast S.fetched S.faults shelf.old shelf.new in
        FetchesToCheck (S.held shelf.old) failed S.fetched (explain_words_of asked.now).check
        (answer_of result) shelf.old shelf.new }
    ensures shelf { KeepsShelf S.held S.faults (answer_of result) shelf.old shelf.new }
{
    let (domain, problem) = read_both(alloc, shelf, asked.check.domain, asked.check.problem)?;
    explain_problem(alloc, shelf, asked, &domain, &problem)
}

/// The verdict on the plan in a file, explained, for a domain and a problem.
fn explain_problem<S: Shelf>(
    alloc: Global,
    shelf: &mut S,
    asked: &ExplainWords,
    domain: &Domain,
    problem: &Problem,
) -> Result<Shown, Refusal>
    requires fair { asked.now.fair ≡ true → kind_of asked.now.check.kind ≡ with_contexts }
    requires fits_domain { FitsDomain (domain_value domain.now) }
    requires fits_problem { FitsProblem (domain_value domain.now) (problem_value problem.now) }
    requires names { NamesAreWords (domain_value domain.now) (problem_value problem.now) }
    ensures answer { let failed = FailedLast S.fetched S.faults shelf.old shelf.new in
        (answer_of result ≡ refused no_memory)
        ⊎ IsExplained (S.held shelf.old) failed (explain_words_of asked.now)
        (domain_value domain.now) (problem_value problem.now) (answer_of result) }
    ensures fetches { let asked = (explain_words_of asked.now).check in
        (Stops (GoalThen asked.kind asked.problem (problem_value problem.now)
        (GroundThen (domain_value domain.now) (problem_value problem.now) (λ answer. ⊥)))
        (answer_of result) × (shelf.new ≡ shelf.old))
        ⊎ (((has_goal_for asked.kind (problem_value problem.now) ≡ true)
        × (first_passed (domain_value domain.now) (problem_value problem.now) ≡ None))
        × Fetches S.fetched (asked.plan ∷ []) shelf.old shelf.new) }
    ensures shelf { KeepsShelf S.held S.faults (answer_of result) shelf.old shelf.new }
{
    // These do nothing: that the task's goal is true where the problem's is, and the one that stands for it
    // where it is had fairly, rests on what they promise.
    grounded_goals_are_true();
    fair_goals_are_true();
    check_goal(alloc, asked.check.kind, asked.check.problem, problem)?;
    let grounded = ground_both(alloc, domain, problem)?;
    let lined = read_lined(alloc, shelf, asked.check.plan, &grounded.task)?;
    explain_read(alloc, asked, problem, grounded, &lined)
}
