//! Controllers for goals whose actions may be tried again: from the words to the goal.

ghost use Rattle.command_base.specs.Answers.{no_memory, refused};
ghost use Rattle.command_base.specs.Fetching.{FetchesBoth};
ghost use Rattle.command_base.specs.Shelves.{KeepsShelf};
ghost use Rattle.command_base.specs.Values.{answer_of};
ghost use Rattle.command_base.specs.Words.{IsNodeLimit};
ghost use Rattle.control_command.specs.FairControllers.{IsFairAnswer, IsTried};
ghost use Rattle.control_command.specs.FairJudged.{most_fair_of, with_goal as grounded_with};
ghost use Rattle.control_command.specs.FairSought.{
  IsFairAnswerFor,
  IsFairGoal,
  IsFairlyGrounded,
  StandsFor,
  StandsForNone,
};
ghost use Rattle.control_command.specs.Values.{fair_words_of};
ghost use Rattle.ctl_syntax.specs.GoalValues.{GoalIsAtMostDeep, GoalNamesBelow};
ghost use Rattle.ctl_syntax.specs.Values.{IsAtMostDeep, NamesBelow, ctl_value};
ghost use Rattle.pddl_ast.specs.Fits.{FitsDomain, FitsProblem};
ghost use Rattle.pddl_ast.specs.Values.{domain_value, problem_value};
ghost use Rattle.pddl_system.specs.CtlGoals.{ctl_goal_of, goal_value};
ghost use Rattle.pddl_system.specs.Names.{NamesAreWords};
ghost use Rattle.plan_io.specs.Fetches.{FailedLast, FetchesNothing};
ghost use Rattle.std.specs.Prelude.{◌≡◌, ◌≤◌, ◌⊎◌, ◌↔◌, IfNone, IfOk, IfSome, IsTrue, Some};
ghost use Rattle.task_core.specs.Tasks.{fluent_count};
ghost use Rattle.ctl_syntax.specs.GoalSizes.{count_of};

use crate::fair_controllers::{FairTask, fair_tried};
use crate::words::FairWords;
use command_base::{PlanKind, Refusal, Shown, check_goal, goal_in, ground_both, read_both};
use ctl_syntax::{ContextGoal, Ctl, as_context_goal};
use fair_theory::{MOST_FAIR_STAGES, fair_goal};
use ground_task::Grounded;
use pddl_ast::{Domain, Problem};
use pddl_system::grounded_goals_are_true;
use plan_command::{most_parts, part_count, part_limit};
use plan_io::Shelf;
use sexpr_text::{FaultKind, InputFault};
use std::alloc::{AllocError, Global};
use task_core::Task;

/// What is asked for, of the domain and the problem that two files hold.
#[derive(Clone, Copy)]
pub(crate) struct FairSought<'a> {
    pub(crate) asked: &'a FairWords<'a>,
    pub(crate) domain: &'a Domain,
    pub(crate) problem: &'a Problem,
}

/// The controller for the domain and the problem in two files, or that there is no plan.
pub(crate) fn fair_files<S: Shelf>(
    alloc: Global,
    shelf: &mut S,
    asked: &FairWords,
) -> Result<Shown, Refusal>
    requires room { IsNodeLimit asked.now.nodes }
    ensures answer { let failed = FailedLast S.fetched S.faults shelf.old shelf.new in
        (answer_of result ≡ refused no_memory)
        ⊎ IsFairAnswer (S.held shelf.old) failed (fair_words_of asked.now) (answer_of result) }
    ensures fetches { FetchesBoth (S.held shelf.old) S.fetched asked.now.domain.now
        asked.now.problem.now FetchesNothing shelf.old shelf.new }
    ensures shelf { KeepsShelf S.held S.faults (answer_of result) shelf.old shelf.new }
{
    let (domain, problem) = read_both(alloc, shelf, asked.domain, asked.problem)?;
    fair_problem(alloc, asked, &domain, &problem)
}

/// The controller for a problem, whose goal is to be one in computation tree logic.
fn fair_problem(
    alloc: Global,
    asked: &FairWords,
    domain: &Domain,
    problem: &Problem,
) -> Result<Shown, Refusal>
    requires room { IsNodeLimit asked.now.nodes }
    requires fits_domain { FitsDomain (domain_value domain.now) }
    requires fits_problem { FitsProblem (domain_value domain.now) (problem_value problem.now) }
    requires names { NamesAreWords (domain_value domain.now) (problem_value problem.now) }
    ensures { (answer_of result ≡ refused no_memory)
        ⊎ IsTried (fair_words_of asked.now) (domain_value domain.now) (problem_value problem.now)
        (answer_of result) }
{
    check_goal(alloc, PlanKind::Contexts, asked.problem, problem)?;
    let grounded = ground_both(alloc, domain, problem)?;
    let sought = FairSought {
        asked,
        domain,
        problem,
    };
    fair_grounded(alloc, &sought, grounded)
}

/// The controller for a task and its goals, which are those of the domain and the problem.
fn fair_grounded(
    alloc: Global,
    sought: &FairSought<'_>,
    grounded: Grounded,
) -> Result<Shown, Refusal>
    requires { IsFairlyGrounded sought.now grounded }
    ensures { IsFairAnswerFor sought.now (answer_of result) }
{
    let found = goal_parts(alloc, sought, &grounded)?;
    match found {
        Some(goal) => fair_parts(alloc, sought, grounded, &goal),
        None => Err(Refusal::TextFault(
            String::from_str(alloc, sought.asked.problem)?,
            InputFault {
                kind: FaultKind::NotChain,
                place: sought.problem.ctl_place,
            },
        )),
    }
}

/// The until-chain or the patrol goal that stands for the problem's goal, if it is one.
fn goal_parts(
    alloc: Global,
    sought: &FairSought<'_>,
    grounded: &Grounded,
) -> Result<Option<ContextGoal>, AllocError>
    requires { IsFairlyGrounded sought.now grounded.now }
    ensures stands { IfOk result (λ found. IfSome found (StandsFor sought.now)) }
    ensures none { IfOk result (λ found. IfNone found (StandsForNone sought.now)) }
    ensures names { IfOk result (λ found. IfSome found
        (GoalNamesBelow (fluent_count grounded.now.task))) }
    ensures shallow { IfOk result (λ found. IfSome found (GoalIsAtMostDeep 200)) }
{
    parts_of(alloc, sought, &grounded.task, goal_in(grounded))
}

/// The same of that goal.
fn parts_of(
    alloc: Global,
    sought: &FairSought<'_>,
    task: &Task,
    goal: &Ctl,
) -> Result<Option<ContextGoal>, AllocError>
    requires goal { Some (goal_value goal.now)
        ≡ ctl_goal_of (domain_value sought.now.domain.now) (problem_value sought.now.problem.now) }
    requires names { NamesBelow (fluent_count task.now) (ctl_value goal.now) }
    requires shallow { IsAtMostDeep 199 (ctl_value goal.now) }
    ensures stands { IfOk result (λ found. IfSome found (StandsFor sought.now)) }
    ensures none { IfOk result (λ found. IfNone found (StandsForNone sought.now)) }
    ensures names { IfOk result (λ found. IfSome found (GoalNamesBelow (fluent_count task.now))) }
    ensures shallow { IfOk result (λ found. IfSome found (GoalIsAtMostDeep 200)) }
{
    // This does nothing: that the goal's sets are those of the problem's formulas rests on what it
    // promises.
    grounded_goals_are_true();
    as_context_goal(alloc, goal)
}

/// The controller for an until-chain or a patrol goal that stands for the problem's goal.
fn fair_parts(
    alloc: Global,
    sought: &FairSought<'_>,
    grounded: Grounded,
    goal: &ContextGoal,
) -> Result<Shown, Refusal>
    requires { IsFairGoal sought.now grounded.task goal.now }
    ensures { IsFairAnswerFor sought.now (answer_of result) }
{
    if !has_few_parts(goal) {
        return Err(Refusal::OverLimit(part_limit(goal)));
    }
    let made = fair_goal(alloc, goal)?;
    let judged = with_goal(grounded, made);
    let task = FairTask {
        goal,
        judged: &judged,
    };
    fair_tried(alloc, sought, &task)
}

/// Whether a goal has no more stages or visits than it may have.
fn has_few_parts(goal: &ContextGoal) -> bool
    ensures { IsTrue result ↔ count_of goal.now ≤ most_fair_of goal.now }
{
    match goal {
        ContextGoal::Until(chain) => chain.stages.len() <= MOST_FAIR_STAGES,
        ContextGoal::Patrol(_) => part_count(goal) <= most_parts(goal),
    }
}

/// The task with another goal in computation tree logic.
fn with_goal(grounded: Grounded, made: Ctl) -> Grounded
    ensures { result ≡ grounded_with grounded.task made }
{
    let Grounded { task, ctl: _ } = grounded;
    Grounded {
        task,
        ctl: Some(made),
    }
}
