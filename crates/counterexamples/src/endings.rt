//! What is the matter at the end of a run.

ghost use Rattle.exec_graph.specs.Executions.{IsStuckAt, IsUnexecutableAt};
ghost use Rattle.counterexamples.specs.Aims.{HasGoalFor, IsAimAt};
ghost use Rattle.goal_witness.specs.Lines.{line_value};
ghost use Rattle.counterexamples.specs.Findings.{
  HasFalseGoal,
  HasFalsePrecondition,
  IsEndingAt,
  lines_in,
};
ghost use Rattle.counterexamples.specs.Values.{ending_value};
ghost use Rattle.rule_lookup.specs.RunRules.{IsRunRuleOf};
ghost use Rattle.plan_rules.specs.Plans.{IsPlanOf};
ghost use Rattle.plan_rules.specs.Rules.{automaton, context_rule_of, plain_of};
ghost use Rattle.plan_witness.specs.Ends.{IsLostAt, LosesOutcome};
ghost use Rattle.plan_witness.specs.Scenes.{place_of};
ghost use Rattle.std.specs.Prelude.{◌≡◌, ◌<◌, All, IfOk, IsSome, map, ℕ};
ghost use Rattle.task_core.specs.States.{IsWithin, vector};
ghost use Rattle.task_core.specs.Tasks.{action_count, fluent_count, system_of};

use crate::aims::Aim;
use crate::parts::false_parts;
use crate::rules::bad_rule;
use goal_witness::Line;
use plan_rules::{AutoRule, Plan};
use plan_witness::{Spot, counting_rule, lost_outcome};
use std::alloc::{AllocError, Global};
use task_core::{ActionId, Cond, State, Task};

/// What is the matter at the end of a run.
#[derive(Drop)]
pub enum Ending<'a> {
    /// The plan ends there, in the goal.
    InGoal,
    /// The plan ends there, outside the goal, of which these parts are false.
    OutsideGoal(Vec<&'a Cond>),
    /// The rule of this number counts there, and its action can't be executed: these parts of its
    /// precondition are false.
    NotExecutable(usize, ActionId, Vec<&'a Cond>),
    /// The context has no rule there.
    WithoutRule,
    /// The rule of this number counts there, and has no next context for this outcome of its action.
    WithoutNext(usize, ActionId, u32),
    /// Some run from there comes back.
    ComesBack,
    /// No run from there ends in the goal.
    NeverInGoal,
    /// No run from there ends.
    NeverEnding,
    /// A goal is false along the run, part by part: the one that stands for the problem's where actions
    /// may be tried again, or else the problem's.
    GoalMissed(bool, Vec<Line<'a>>),
}

/// Which goals are false where along a run that shows that a goal is missed.
pub fn missed_lines<'a, 'b>(ending: &'b Ending<'a>) -> &'b [Line<'a>]
    ensures { map line_value result.now ≡ lines_in (ending_value ending.now) }
{
    match ending {
        Ending::InGoal => &[],
        Ending::OutsideGoal(_) => &[],
        Ending::NotExecutable(_, _, _) => &[],
        Ending::WithoutRule => &[],
        Ending::WithoutNext(_, _, _) => &[],
        Ending::ComesBack => &[],
        Ending::NeverInGoal => &[],
        Ending::NeverEnding => &[],
        Ending::GoalMissed(_, lines) => lines,
    }
}

/// What is the matter in a state and a context that are an aim.
pub(crate) fn ending_at<'a>(
    alloc: Global,
    task: &'a Task,
    plan: &Plan,
    aim: Aim,
    spot: &Spot<'_>,
) -> Result<Ending<'a>, AllocError>
    requires goal { HasGoalFor aim task.now }
    requires plan { IsPlanOf (fluent_count task.now) (action_count task.now) plan.now }
    requires inside { IsWithin (fluent_count task.now) spot.now.state.now }
    requires aim { IsAimAt aim (system_of task.now) (plain_of plan.now)
        (place_of (fluent_count task.now) spot.now) }
    ensures { IfOk result (λ ending. IsEndingAt task.now (plain_of plan.now)
        (place_of (fluent_count task.now) spot.now) (ending_value ending)) }
{
    match aim {
        Aim::Nothing => Ok(Ending::NeverEnding),
        Aim::Inside => Ok(Ending::InGoal),
        Aim::Outside => Ok(Ending::OutsideGoal(false_goal(alloc, task, spot.state)?)),
        Aim::Bad => not_executable(alloc, task, plan, spot.state, spot.context),
        Aim::Unfinished => Ok(unfinished(task, plan, spot.state, spot.context)),
        Aim::Round => Ok(Ending::ComesBack),
        Aim::Lost => Ok(Ending::NeverInGoal),
        Aim::Endless => Ok(Ending::NeverEnding),
    }
}

/// The parts of the goal that are false in a state.
pub fn false_goal<'a>(
    alloc: Global,
    task: &'a Task,
    state: &State,
) -> Result<Vec<&'a Cond>, AllocError>
    requires goal { IsSome task.now.goal }
    ensures { let v = vector (fluent_count task.now) state.now in
        IfOk result (λ parts. HasFalseGoal task.now v (map (λ part. part.now) parts.items)) }
{
    let goal = task.goal.as_ref().unwrap();
    false_parts(alloc, goal, state)
}

/// Which rule can't be followed, and the parts of its action's precondition that are false.
fn not_executable<'a>(
    alloc: Global,
    task: &'a Task,
    plan: &Plan,
    state: &State,
    context: u32,
) -> Result<Ending<'a>, AllocError>
    requires plan { IsPlanOf (fluent_count task.now) (action_count task.now) plan.now }
    requires inside { IsWithin (fluent_count task.now) state.now }
    requires aim { let v = vector (fluent_count task.now) state.now in
        IsUnexecutableAt (system_of task.now) (plain_of plan.now)
        (record { state = v; context = context }) }
    ensures { let v = vector (fluent_count task.now) state.now in
        IfOk result (λ ending. IsEndingAt task.now (plain_of plan.now)
        (record { state = v; context = context }) (ending_value ending)) }
{
    match bad_rule(task, plan, state, context) {
        Some(chosen) => {
            let parts = false_precondition(alloc, task, chosen.action, state)?;
            Ok(Ending::NotExecutable(chosen.number, chosen.action, parts))
        }
        None => Ok(Ending::NeverEnding),
    }
}

/// The parts of an action's precondition that are false in a state.
pub fn false_precondition<'a>(
    alloc: Global,
    task: &'a Task,
    action: ActionId,
    state: &State,
) -> Result<Vec<&'a Cond>, AllocError>
    requires { action.0 < action_count task.now }
    ensures { let v = vector (fluent_count task.now) state.now in
        IfOk result (λ parts. HasFalsePrecondition task.now v action.0 (map (λ part. part.now) parts.items)) }
{
    let ground = &task.actions[action.0 as usize];
    false_parts(alloc, &ground.exec, state)
}

/// Why a plan with contexts doesn't go on in a state and a context.
fn unfinished<'a>(task: &Task, plan: &Plan, state: &State, context: u32) -> Ending<'a>
    requires plan { IsPlanOf (fluent_count task.now) (action_count task.now) plan.now }
    requires inside { IsWithin (fluent_count task.now) state.now }
    requires aim { let v = vector (fluent_count task.now) state.now in
        IsStuckAt (system_of task.now) (plain_of plan.now)
        (record { state = v; context = context }) }
    ensures { let v = vector (fluent_count task.now) state.now in
        IsEndingAt task.now (plain_of plan.now)
        (record { state = v; context = context }) (ending_value result) }
{
    match plan {
        Plan::Table(_) => Ending::NeverEnding,
        Plan::Auto(auto) => unfinished_by(task, &auto.rules, state, context),
    }
}

/// Why the rules of a plan with contexts don't go on in a state and a context.
fn unfinished_by<'a>(task: &Task, rules: &[AutoRule], state: &State, context: u32) -> Ending<'a>
    requires rules { let n = fluent_count task.now in let m = action_count task.now in
        All (λ rule. IsRunRuleOf n m (context_rule_of rule)) rules.now }
    requires inside { IsWithin (fluent_count task.now) state.now }
    requires aim { let v = vector (fluent_count task.now) state.now in
        IsStuckAt (system_of task.now) (automaton 0 (map context_rule_of rules.now))
        (record { state = v; context = context }) }
    ensures { let v = vector (fluent_count task.now) state.now in (contexts : ℕ)
        → IsEndingAt task.now (automaton contexts (map context_rule_of rules.now))
        (record { state = v; context = context }) (ending_value result) }
{
    match counting_rule(task, rules, state, context) {
        Some(number) => {
            let rule = &rules[number];
            let outcome = lost_number(task, rule, state);
            Ending::WithoutNext(number, rule.action, outcome)
        }
        None => Ending::WithoutRule,
    }
}

/// The first outcome of a rule's action for which the rule has no next context, where there is one.
fn lost_number(task: &Task, rule: &AutoRule, state: &State) -> u32
    requires rule { let n = fluent_count task.now in let m = action_count task.now in
        IsRunRuleOf n m (context_rule_of rule.now) }
    requires inside { IsWithin (fluent_count task.now) state.now }
    requires loses { let v = vector (fluent_count task.now) state.now in
        LosesOutcome (system_of task.now) (context_rule_of rule.now) v }
    ensures { let v = vector (fluent_count task.now) state.now in
        IsLostAt (system_of task.now) (context_rule_of rule.now) v result }
{
    lost_outcome(task, rule, state).unwrap()
}
