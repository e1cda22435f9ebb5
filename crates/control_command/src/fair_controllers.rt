//! Controllers for goals whose actions may be tried again: from the goal to the answer.

ghost use Rattle.command_base.specs.Values.{answer_of};
ghost use Rattle.control_command.specs.FairJudged.{IsFairlyFound};
ghost use Rattle.control_command.specs.FairSought.{
  FollowsFairly,
  IsFairAnswerFor,
  IsFairMadeRefusal,
  IsFairRefusedFor,
  IsFairShownFor,
  IsFairTask,
  wanted_fairly,
};
ghost use Rattle.fair_theory.specs.FairPlans.{sets_of_goal};
ghost use Rattle.std.specs.Prelude.{◌≡◌, ◌≢◌, [], IfErr, IfOk, IfSome};
ghost use Rattle.task_core.specs.Tasks.{initial_states};
ghost use Rattle.task_sets.specs.FullTables.{IsFull};

use crate::fair::FairSought;
use crate::fair_search::search_fairly;
use crate::made::{Wanted, shown_found};
use crate::staged::{fair_forward, fair_nearest};
use command_base::{Limit, PlanKind, Refusal, Shown, Text, no_initial};
use ctl_syntax::ContextGoal;
use dd_sets::SetErr;
use fair_plan::FairFound;
use fair_theory::fair_goals_are_true;
use ground_task::Grounded;
use plan_rules::{AutoPlan, Plan};
use std::alloc::{AllocError, Global};

/// The goal that stands for the problem's, and the task with the goal by which plans are judged.
#[derive(Clone, Copy)]
pub(crate) struct FairTask<'a> {
    pub(crate) goal: &'a ContextGoal,
    pub(crate) judged: &'a Grounded,
}

impl<'a> FairTask<'a> {
    /// What a plan is to be, to be shown.
    fn wanted(&self, sought: &FairSought<'_>) -> Wanted<'a>
        ensures { result ≡ wanted_fairly sought.now self.now }
    {
        Wanted {
            kind: PlanKind::Contexts,
            nodes: sought.asked.nodes,
            shape: sought.asked.shape,
            grounded: self.judged,
        }
    }
}

/// The controller, or that there is no plan: for patrols first by going through all states, if few can be
/// reached.
pub(crate) fn fair_tried(
    alloc: Global,
    sought: &FairSought<'_>,
    task: &FairTask<'_>,
) -> Result<Shown, Refusal>
    requires { IsFairTask sought.now task.now }
    ensures { IsFairAnswerFor sought.now (answer_of result) }
{
    match nearest_controller(alloc, sought, task)? {
        Some(shown) => Ok(shown),
        None => fair_searched(alloc, sought, task),
    }
}

/// The same over sets of states, and where the table of nodes is full by a search forward.
fn fair_searched(
    alloc: Global,
    sought: &FairSought<'_>,
    task: &FairTask<'_>,
) -> Result<Shown, Refusal>
    requires { IsFairTask sought.now task.now }
    ensures { IsFairAnswerFor sought.now (answer_of result) }
{
    match search_fairly(alloc, sought.asked.nodes, &task.judged.task, task.goal) {
        Ok(Some(found)) => fair_found(alloc, sought, task, found),
        Ok(None) => Err(no_initial(alloc, sought.asked.problem, sought.problem)?),
        Err(SetErr::Full) => after_full(alloc, sought, task),
        Err(SetErr::Memory) => Err(Refusal::NoMemory),
    }
}

/// The same where the table of nodes is full for that: by a search forward.
fn after_full(alloc: Global, sought: &FairSought<'_>, task: &FairTask<'_>) -> Result<Shown, Refusal>
    requires ready { IsFairTask sought.now task.now }
    requires full { IsFull sought.now.asked.now.nodes task.now.judged.now.task }
    ensures { IsFairAnswerFor sought.now (answer_of result) }
{
    match forward_controller(alloc, sought, task)? {
        Some(shown) => Ok(shown),
        None => Err(Refusal::Full(sought.asked.nodes)),
    }
}

/// The controller for what a search over sets of states found, or that there is no plan.
fn fair_found(
    alloc: Global,
    sought: &FairSought<'_>,
    task: &FairTask<'_>,
    found: FairFound,
) -> Result<Shown, Refusal>
    requires ready { IsFairTask sought.now task.now }
    requires some { initial_states task.now.judged.now.task ≢ [] }
    requires found { IsFairlyFound task.now.judged.now.task (sets_of_goal task.now.goal.now) found }
    ensures { IsFairAnswerFor sought.now (answer_of result) }
{
    // This does nothing: that what is judged to be good has the goal rests on what it promises.
    fair_goals_are_true();
    match found {
        FairFound::Plan(plan) => fair_controller(alloc, sought, task, plan),
        FairFound::NoPlan => Ok(Shown::Denied(Text::Fixed("no plan\n"))),
    }
}

/// The controller for a plan that was found over sets of states, if it is judged to be one.
fn fair_controller(
    alloc: Global,
    sought: &FairSought<'_>,
    task: &FairTask<'_>,
    plan: AutoPlan,
) -> Result<Shown, Refusal>
    requires { IsFairTask sought.now task.now }
    ensures shown { IfOk result (IsFairShownFor sought.now task.now) }
    ensures refused { IfErr result (IsFairRefusedFor task.now) }
{
    match judged_controller(alloc, sought, task, plan)? {
        Some(shown) => Ok(shown),
        None => Err(Refusal::OverLimit(Limit::Configurations)),
    }
}

/// The controller for a plan that goes a shortest way to each visit of a patrol, if few states can be
/// reached and there is one.
fn nearest_controller(
    alloc: Global,
    sought: &FairSought<'_>,
    task: &FairTask<'_>,
) -> Result<Option<Shown>, AllocError>
    requires { IsFairTask sought.now task.now }
    ensures { IfOk result (λ found. IfSome found (FollowsFairly sought.now)) }
{
    match fair_nearest(alloc, &task.judged.task, task.goal)? {
        Some(plan) => guessed_controller(alloc, sought, task, plan),
        None => Ok(None),
    }
}

/// The controller for a plan that is found by a heuristic search forward, if one is.
fn forward_controller(
    alloc: Global,
    sought: &FairSought<'_>,
    task: &FairTask<'_>,
) -> Result<Option<Shown>, AllocError>
    requires { IsFairTask sought.now task.now }
    ensures { IfOk result (λ found. IfSome found (FollowsFairly sought.now)) }
{
    match fair_forward(alloc, &task.judged.task, task.goal)? {
        Some(plan) => guessed_controller(alloc, sought, task, plan),
        None => Ok(None),
    }
}

/// The controller for a plan that was found state by state. There is none where its text is too long.
fn guessed_controller(
    alloc: Global,
    sought: &FairSought<'_>,
    task: &FairTask<'_>,
    plan: AutoPlan,
) -> Result<Option<Shown>, AllocError>
    requires { IsFairTask sought.now task.now }
    ensures { IfOk result (λ found. IfSome found (FollowsFairly sought.now)) }
{
    // This does nothing: that what is judged to be good has the goal rests on what it promises.
    fair_goals_are_true();
    match judged_controller(alloc, sought, task, plan) {
        Ok(found) => Ok(found),
        Err(Refusal::NoMemory) => Err(AllocError),
        Err(_) => Ok(None),
    }
}

/// The controller for what a plan does where it reaches, if it is judged to be one by the goal that stands
/// for goals whose actions may be tried again.
fn judged_controller(
    alloc: Global,
    sought: &FairSought<'_>,
    task: &FairTask<'_>,
    plan: AutoPlan,
) -> Result<Option<Shown>, Refusal>
    requires { IsFairTask sought.now task.now }
    ensures shown { IfOk result (λ found. IfSome found (IsFairShownFor sought.now task.now)) }
    ensures refused { IfErr result (IsFairMadeRefusal task.now) }
{
    shown_found(alloc, &task.wanted(sought), &Plan::Auto(plan))
}
