//! The goal by which a plan is judged.

ghost use Rattle.check_command.specs.Judged.{HasGoalIn};
ghost use Rattle.command_base.specs.Answers.{no_memory};
ghost use Rattle.command_base.specs.Values.{kind_of, refusal_of};
ghost use Rattle.command_base.specs.Words.{with_contexts};
ghost use Rattle.ctl_syntax.specs.GoalValues.{GoalNamesBelow};
ghost use Rattle.ctl_syntax.specs.Values.{NamesBelow, ctl_value};
ghost use Rattle.explain_command.specs.Fairly.{HasManyStages, HasParts, IsFairGoal, IsGoalFor, IsGoalRefusal};
ghost use Rattle.pddl_ast.specs.Values.{problem_value};
ghost use Rattle.std.specs.Prelude.{
  ◌≡◌,
  ◌⊎◌,
  IfErr,
  IfOk,
  IfSome,
  IsSome,
  Some,
  true,
  ℕ,
};
ghost use Rattle.task_core.specs.Tasks.{fluent_count};

use crate::words::ExplainWords;
use command_base::{Limit, Refusal, goal_in};
use ctl_syntax::{ContextGoal, Ctl, as_context_goal};
use fair_theory::{fair_goal, has_few_stages};
use ground_task::Grounded;
use pddl_ast::Problem;
use sexpr_text::{FaultKind, InputFault};
use std::alloc::Global;

/// The task with the goal by which a plan is judged.
pub(crate) fn goal_for(
    alloc: Global,
    asked: &ExplainWords,
    problem: &Problem,
    grounded: Grounded,
) -> Result<Grounded, Refusal>
    requires goal { HasGoalIn (kind_of asked.now.check.kind) grounded.task grounded.ctl }
    requires fair { asked.now.fair ≡ true → kind_of asked.now.check.kind ≡ with_contexts }
    requires names { IfSome grounded.ctl
        (λ goal. NamesBelow (fluent_count grounded.task) (ctl_value goal)) }
    ensures task { IfOk result (λ judged. judged.task ≡ grounded.task) }
    ensures goal { IfOk result (λ judged. IsGoalFor asked.now.fair grounded.ctl judged.ctl) }
    ensures has { IfOk result (λ judged.
        HasGoalIn (kind_of asked.now.check.kind) judged.task judged.ctl) }
    ensures names { IfOk result (λ judged. IfSome judged.ctl
        (λ goal. NamesBelow (fluent_count judged.task) (ctl_value goal))) }
    ensures refused { IfErr result (λ refusal. (refusal_of refusal ≡ no_memory)
        ⊎ IsGoalRefusal asked.now.fair asked.now.check.problem.now
        (problem_value problem.now).ctl_place grounded.ctl (refusal_of refusal)) }
{
    if !asked.fair {
        return Ok(grounded);
    }
    let made = fair_made(alloc, asked.check.problem, problem, &grounded)?;
    Ok(with_goal(grounded, made))
}

/// The task with another goal in computation tree logic.
fn with_goal(grounded: Grounded, made: Ctl) -> Grounded
    ensures task { result.task ≡ grounded.task }
    ensures goal { result.ctl ≡ Some made }
{
    let Grounded { task, ctl: _ } = grounded;
    Grounded {
        task,
        ctl: Some(made),
    }
}

/// The goal that stands in the place of the problem's where actions may be tried again.
fn fair_made(
    alloc: Global,
    name: &str,
    problem: &Problem,
    grounded: &Grounded,
) -> Result<Ctl, Refusal>
    requires goal { IsSome grounded.now.ctl }
    requires names { IfSome grounded.now.ctl
        (λ goal. NamesBelow (fluent_count grounded.now.task) (ctl_value goal)) }
    ensures goal { IfOk result (λ made. IsFairGoal grounded.now.ctl (Some made)) }
    ensures names { IfOk result (λ made.
        NamesBelow (fluent_count grounded.now.task) (ctl_value made)) }
    ensures refused { IfErr result (λ refusal. (refusal_of refusal ≡ no_memory)
        ⊎ IsGoalRefusal true name.now (problem_value problem.now).ctl_place grounded.now.ctl
        (refusal_of refusal)) }
{
    let goal = goal_in(grounded);
    match as_context_goal(alloc, goal)? {
        Some(parts) => fair_of_parts(alloc, goal, &parts),
        None => Err(Refusal::TextFault(
            String::from_str(alloc, name)?,
            InputFault {
                kind: FaultKind::NotChain,
                place: problem.ctl_place,
            },
        )),
    }
}

/// The same of a goal with these parts.
fn fair_of_parts(alloc: Global, goal: &Ctl, parts: &ContextGoal) -> Result<Ctl, Refusal>
    requires parts { HasParts goal.now parts.now }
    ensures goal { IfOk result (λ made. IsFairGoal (Some goal.now) (Some made)) }
    ensures names { (n : ℕ) → GoalNamesBelow n parts.now
        → IfOk result (λ made. NamesBelow n (ctl_value made)) }
    ensures refused { IfErr result (λ refusal. (refusal_of refusal ≡ no_memory)
        ⊎ HasManyStages (Some goal.now) (refusal_of refusal)) }
{
    if !has_few_stages(parts) {
        return Err(Refusal::OverLimit(Limit::Stages));
    }
    Ok(fair_goal(alloc, parts)?)
}
