//! The command `plan ctl`.

ghost use Rattle.command_base.specs.Answers.{full, no_memory, refused};
ghost use Rattle.command_base.specs.Grounded.{IsGroundedOf, IsTaskOf};
ghost use Rattle.command_base.specs.Values.{kind_of, plan_words_of};
ghost use Rattle.command_base.specs.Words.{IsNodeLimit, with_contexts};
ghost use Rattle.ctl_syntax.specs.GoalValues.{GoalIsAtMostDeep, GoalNamesBelow};
ghost use Rattle.ctl_syntax.specs.Values.{IsAtMostDeep, NamesBelow, ctl_value};
ghost use Rattle.pddl_ast.specs.Values.{domain_value, problem_value};
ghost use Rattle.pddl_system.specs.CtlGoals.{ctl_goal_of, goal_value};
ghost use Rattle.plan_command.specs.Enough.{IsTightForGoal};
ghost use Rattle.plan_command.specs.FoundGoals.{IsGoalResult, StandsForGoal};
ghost use Rattle.plan_command.specs.GoalConditions.{IsGoalOver, sets_of_goal};
ghost use Rattle.plan_command.specs.PlanCommand.{MayBeTooFew, PlanThen};
ghost use Rattle.plan_command.specs.Plannings.{IsPlannedFor, planned_answer, shown_planned};
ghost use Rattle.std.specs.Prelude.{
  ◌≡◌,
  ◌≢◌,
  ◌⊎◌,
  [],
  IfOk,
  IfSome,
  IsErrOf,
  IsSome,
  None,
  Some,
  length,
  ℕ,
};
ghost use Rattle.task_core.specs.Tasks.{fluent_count, initial_states, system_of};
ghost use Rattle.task_sets.specs.FullTables.{IsTightToEncode};

use crate::context_goals::{most_parts, part_count, part_limit};
use crate::context_search::search_goal;
use crate::plan_command::PlanRequest;
use crate::planned::Planned;
use command_base::{Refusal, Text, goal_in, no_initial};
use context_plan::FoundAuto;
use ctl_syntax::{ContextGoal, Ctl, as_context_goal};
use dd_sets::SetErr;
use ground_task::Grounded;
use pddl_system::grounded_goals_are_true;
use plan_rules::Plan;
use sexpr_text::{FaultKind, InputFault};
use std::alloc::Global;
use task_core::Task;

/// The plan with contexts for a task and its goal in computation tree logic, which are those of the
/// domain and the problem.
pub(crate) fn plan_contexts(
    alloc: Global,
    request: &PlanRequest<'_>,
    grounded: &Grounded,
) -> Result<Planned, Refusal>
    requires room { IsNodeLimit request.now.asked.now.options.nodes }
    requires kind { kind_of request.now.asked.now.kind ≡ with_contexts }
    requires goal { IsSome grounded.now.ctl }
    requires grounded { IsGroundedOf (domain_value request.now.domain.now)
        (problem_value request.now.problem.now) grounded.now }
    ensures in_task { IfOk result (IsPlannedFor grounded.now.task) }
    ensures answer { let asked = plan_words_of request.now.asked.now in
        let domain = domain_value request.now.domain.now in
        let problem = problem_value request.now.problem.now in
        let answer = planned_answer grounded.now.task result in
        (answer ≡ refused no_memory)
        ⊎ (MayBeTooFew asked domain problem × (answer ≡ refused (full asked.options.nodes)))
        ⊎ PlanThen asked domain problem answer }
{
    plan_goal(alloc, request, &grounded.task, goal_in(grounded))
}

/// The plan with contexts for a goal.
fn plan_goal(
    alloc: Global,
    request: &PlanRequest<'_>,
    task: &Task,
    goal: &Ctl,
) -> Result<Planned, Refusal>
    requires room { IsNodeLimit request.now.asked.now.options.nodes }
    requires kind { kind_of request.now.asked.now.kind ≡ with_contexts }
    requires task { IsTaskOf (domain_value request.now.domain.now)
        (problem_value request.now.problem.now) task.now }
    requires goal { Some (goal_value goal.now)
        ≡ ctl_goal_of (domain_value request.now.domain.now)
        (problem_value request.now.problem.now) }
    requires names { NamesBelow (fluent_count task.now) (ctl_value goal.now) }
    requires shallow { IsAtMostDeep 199 (ctl_value goal.now) }
    ensures in_task { IfOk result (IsPlannedFor task.now) }
    ensures answer { let asked = plan_words_of request.now.asked.now in
        let domain = domain_value request.now.domain.now in
        let problem = problem_value request.now.problem.now in
        let answer = planned_answer task.now result in
        (answer ≡ refused no_memory)
        ⊎ (MayBeTooFew asked domain problem × (answer ≡ refused (full asked.options.nodes)))
        ⊎ PlanThen asked domain problem answer }
{
    // This does nothing: that the goal's sets are those of the problem's formulas rests on what it
    // promises.
    grounded_goals_are_true();
    match as_context_goal(alloc, goal)? {
        Some(goal) => plan_parts(alloc, request, task, &goal),
        None => Err(Refusal::TextFault(
            String::from_str(alloc, request.asked.problem)?,
            InputFault {
                kind: FaultKind::NotChain,
                place: request.problem.ctl_place,
            },
        )),
    }
}

/// The plan with contexts for an until-chain or a patrol goal that stands for the problem's goal.
fn plan_parts(
    alloc: Global,
    request: &PlanRequest<'_>,
    task: &Task,
    goal: &ContextGoal,
) -> Result<Planned, Refusal>
    requires room { IsNodeLimit request.now.asked.now.options.nodes }
    requires kind { kind_of request.now.asked.now.kind ≡ with_contexts }
    requires task { IsTaskOf (domain_value request.now.domain.now)
        (problem_value request.now.problem.now) task.now }
    requires goal { StandsForGoal (domain_value request.now.domain.now)
        (problem_value request.now.problem.now) goal.now }
    requires names { GoalNamesBelow (fluent_count task.now) goal.now }
    requires shallow { GoalIsAtMostDeep 200 goal.now }
    ensures in_task { IfOk result (IsPlannedFor task.now) }
    ensures answer { let asked = plan_words_of request.now.asked.now in
        let domain = domain_value request.now.domain.now in
        let problem = problem_value request.now.problem.now in
        let answer = planned_answer task.now result in
        (answer ≡ refused no_memory)
        ⊎ (MayBeTooFew asked domain problem × (answer ≡ refused (full asked.options.nodes)))
        ⊎ PlanThen asked domain problem answer }
{
    if part_count(goal) > most_parts(goal) {
        return Err(Refusal::OverLimit(part_limit(goal)));
    }
    match plan_for_task(alloc, request.asked.options.nodes, task, goal) {
        Ok(Some(planned)) => Ok(planned),
        Ok(None) => Err(no_initial(alloc, request.asked.problem, request.problem)?),
        Err(SetErr::Full) => Err(Refusal::Full(request.asked.options.nodes)),
        Err(SetErr::Memory) => Err(Refusal::NoMemory),
    }
}

/// The plan with contexts of a task for a goal, found in a table for so many nodes, or `None` where
/// there is no initial state.
fn plan_for_task(
    alloc: Global,
    nodes: u32,
    task: &Task,
    goal: &ContextGoal,
) -> Result<Option<Planned>, SetErr>
    requires room { IsNodeLimit nodes }
    requires goal { IsGoalOver (fluent_count task.now) goal.now }
    ensures none { IfOk result (λ found. found ≡ None → initial_states task.now ≡ []) }
    ensures some { IfOk result (λ found. IfSome found (λ _. initial_states task.now ≢ [])) }
    ensures plan { IfOk result (λ found. IfSome found
        (λ planned. IsGoalResult task.now (sets_of_goal goal.now)
        (shown_planned task.now planned))) }
    ensures in_task { IfOk result (λ found. IfSome found (IsPlannedFor task.now)) }
    ensures full { IsErrOf result SetErr.Full → IsTightForGoal goal.now nodes task.now }
    ensures not_begun { IsErrOf result SetErr.Full → initial_states task.now ≡ []
        → IsTightToEncode nodes task.now }
{
    match search_goal(alloc, nodes, task, goal)? {
        Some(FoundAuto::Plan(plan)) => Ok(Some(Planned::Plan(Plan::Auto(plan)))),
        Some(FoundAuto::NoPlan) => Ok(Some(Planned::Missing(Text::Fixed("no plan\n")))),
        None => Ok(None),
    }
}
