//! The search for a plan with contexts, which is then followed from the initial states.

ghost use Rattle.control_command.specs.Followed.{AreReachedWithin, AreSlotsLive, IsTableThere};
ghost use Rattle.ctl_syntax.specs.GoalValues.{GoalIsAtMostDeep, GoalNamesBelow};
ghost use Rattle.ctl_syntax.specs.Values.{IsAtMostDeep, NamesBelow, ctl_value};
ghost use Rattle.encode_task.specs.Made.{MadeOf};
ghost use Rattle.plan_command.specs.GoalConditions.{IsGoalOver};
ghost use Rattle.command_base.specs.Words.{IsNodeLimit};
ghost use Rattle.context_plan.specs.Chains.{IsPatrolOver, IsUntilOver};
ghost use Rattle.context_plan.specs.Found.{IfPlan};
ghost use Rattle.plan_rules.specs.Plans.{IsAutomatonOf};
ghost use Rattle.plan_rules.specs.Rules.{context_rules_of};
ghost use Rattle.std.specs.Prelude.{◌≡◌, ◌≤◌, IfSome, IsTrue, OnOk};
ghost use Rattle.task_core.specs.Tasks.{action_count, fluent_count};
ghost use Rattle.ctl_syntax.specs.GoalSizes.{HasSomeVisit, count_of, most_of};

use crate::followed::Followed;
use crate::movers::{ContextTakers, TakerSets};
use crate::searches::{Stop, begun, follow_plan};
use crate::set_outcomes::{SetOutcome, followed_in_tries, outcome_of_try};
use context_plan::{Advance, Chain, FoundAuto, plan_patrol, rule_place, rule_sets, until_takers};
use ctl_syntax::{ContextGoal, Ctl, UntilChain, as_context_goal};
use dd_sets::SetErr;
use encode_task::Enc;
use ground_task::Grounded;
use plan_command::{most_parts, part_count};
use plan_rules::Plan;
use slot_board::Board;
use std::alloc::Global;
use task_core::{ActionId, Cond, Task};
use task_sets::{SetSearch, search_in_tries};

/// A context of a plan for so many stages, counted from 0.
#[derive(Clone, Copy)]
struct StageContext {
    stages: u32,
    number: u32,
}

/// A context, and the one in which the plan goes on.
#[derive(Clone, Copy)]
struct StageTurn {
    from: StageContext,
    next: u32,
}

/// What a plan with contexts reaches, if there is one that is looked for.
pub(crate) fn follow_contexts(
    alloc: Global,
    nodes: u32,
    grounded: &Grounded,
) -> Result<Option<Followed>, Stop>
    requires room { IsNodeLimit nodes }
    requires goal_names { IfSome grounded.now.ctl
        (λ goal. NamesBelow (fluent_count grounded.now.task) (ctl_value goal)) }
    requires shallow { IfSome grounded.now.ctl (λ goal. IsAtMostDeep 199 (ctl_value goal)) }
{
    match &grounded.ctl {
        Some(goal) => follow_goal(alloc, nodes, &grounded.task, goal),
        None => Ok(None),
    }
}

/// What the plan with contexts for a goal reaches, if the goal is an until-chain or a patrol goal and
/// there is one.
fn follow_goal(alloc: Global, nodes: u32, task: &Task, goal: &Ctl) -> Result<Option<Followed>, Stop>
    requires room { IsNodeLimit nodes }
    requires names { NamesBelow (fluent_count task.now) (ctl_value goal.now) }
    requires shallow { IsAtMostDeep 199 (ctl_value goal.now) }
{
    match as_context_goal(alloc, goal)? {
        Some(goal) => follow_parts(alloc, nodes, task, &goal),
        None => Ok(None),
    }
}

/// What the plan with contexts for an until-chain or a patrol goal reaches, if it has few stages or
/// visits and there is one.
fn follow_parts(
    alloc: Global,
    nodes: u32,
    task: &Task,
    goal: &ContextGoal,
) -> Result<Option<Followed>, Stop>
    requires room { IsNodeLimit nodes }
    requires names { GoalNamesBelow (fluent_count task.now) goal.now }
    requires shallow { GoalIsAtMostDeep 200 goal.now }
{
    if !is_short(goal) {
        return Ok(None);
    }
    follow_in_tries(alloc, task, &GoalSets { goal, nodes })
}

/// What the plan for a goal reaches that is found over sets of states, if there is one.
fn follow_in_tries(
    alloc: Global,
    task: &Task,
    wanted: &GoalSets<'_>,
) -> Result<Option<Followed>, Stop>
    requires room { IsNodeLimit wanted.now.nodes }
    requires goal { IsGoalOver (fluent_count task.now) wanted.now.goal.now }
{
    followed_in_tries(search_in_tries(alloc, task, wanted))
}

/// The search over sets for the plan for a goal, which is then followed, with so many nodes.
#[derive(Clone, Copy)]
struct GoalSets<'a> {
    goal: &'a ContextGoal,
    nodes: u32,
}

impl SetSearch for GoalSets<'_> {
    ghost use Rattle.plan_command.specs.GoalConditions.{IsGoalOver};
    ghost use Rattle.std.specs.Prelude.{⊤};
    ghost use Rattle.task_core.specs.Tasks.{fluent_count};

    type Found = SetOutcome;

    ghost nodes = { λ self. self.nodes };

    ghost fits = { λ self task. IsGoalOver (fluent_count task) self.goal.now };

    ghost finds = { λ self task found. ⊤ };

    ghost lacks_room = { λ self task before after. ⊤ };

    fn nodes(&self) -> u32 {
        self.nodes
    }

    fn find(&self, alloc: Global, task: &Task, enc: &mut Enc) -> Result<SetOutcome, SetErr> {
        outcome_of_try(follow_over_sets(alloc, task, enc, self.goal))
    }
}

/// Whether it has few stages, or few visits and at least one.
pub(crate) fn is_short(goal: &ContextGoal) -> bool
    ensures few { IsTrue result → count_of goal.now ≤ most_of goal.now }
    ensures some { IsTrue result → HasSomeVisit goal.now }
{
    let is_some = match goal {
        ContextGoal::Until(_) => true,
        ContextGoal::Patrol(visits) => !visits.is_empty(),
    };
    is_some && part_count(goal) <= most_parts(goal)
}

/// What the plan for a goal reaches, if there is one, over the task's sets.
fn follow_over_sets(
    alloc: Global,
    task: &Task,
    enc: &mut Enc,
    goal: &ContextGoal,
) -> Result<Option<Followed>, Stop>
    requires made { MadeOf task.now enc.old }
    requires goal { IsGoalOver (fluent_count task.now) goal.now }
{
    match goal {
        ContextGoal::Until(chain) => follow_stages(alloc, task, enc, chain),
        ContextGoal::Patrol(visits) => follow_visits(alloc, task, enc, visits.as_slice()),
    }
}

/// The same for an until-chain.
fn follow_stages(
    alloc: Global,
    task: &Task,
    enc: &mut Enc,
    chain: &UntilChain,
) -> Result<Option<Followed>, Stop>
    requires made { MadeOf task.now enc.old }
    requires chain { IsUntilOver (fluent_count task.now) chain.now }
{
    match until_takers(alloc, task, enc, chain)? {
        Some(mut board) => {
            let stages = chain.stages.len() as u32;
            let followed = follow_board(alloc, task, enc, &mut board, stages)?;
            Ok(Some(followed))
        }
        None => Ok(None),
    }
}

/// What the plan with contexts reaches whose sets are on the board of a search for so many stages.
fn follow_board(
    alloc: Global,
    task: &Task,
    enc: &mut Enc,
    board: &mut Board,
    stages: u32,
) -> Result<Followed, Stop>
    requires table { IsTableThere task.now enc.old board.old.slots.items stages }
    requires few { stages ≤ 32 }
{
    let mut followed = begun(alloc, task)?;
    for number in 0..stages + 1 {
        let context = StageContext { stages, number };
        follow_context(task, enc, board, context, &mut followed)?;
    }
    // The contexts were gone through one after another, and so not in the order of the steps.
    let mut again = begun(alloc, task)?;
    again.visit(task, &followed)?;
    Ok(again)
}

/// Follows a plan with contexts from the configurations of a context, first as far as it stays in
/// the context, and then into each later one.
fn follow_context(
    task: &Task,
    enc: &mut Enc,
    board: &mut Board,
    from: StageContext,
    followed: &mut Followed,
) -> Result<(), Stop>
    requires table { IsTableThere task.now enc.old board.old.slots.items from.stages }
    requires few { from.stages ≤ 32 }
    requires context { from.number ≤ from.stages }
    requires within { AreReachedWithin (fluent_count task.now) followed.old.places.items }
    ensures table { OnOk result
        (IsTableThere task.now enc.new board.new.slots.items from.stages) }
    ensures within { OnOk result
        (AreReachedWithin (fluent_count task.now) followed.new.places.items) }
{
    for next in from.number..from.stages + 1 {
        follow_turn(task, enc, board, StageTurn { from, next }, followed)?;
    }
    Ok(())
}

/// Follows a plan with contexts from the configurations of a context in which it goes on in a next
/// one.
fn follow_turn(
    task: &Task,
    enc: &mut Enc,
    board: &mut Board,
    turn: StageTurn,
    followed: &mut Followed,
) -> Result<(), Stop>
    requires table { IsTableThere task.now enc.old board.old.slots.items turn.from.stages }
    requires few { turn.from.stages ≤ 32 }
    requires context { turn.from.number ≤ turn.next }
    requires next { turn.next ≤ turn.from.stages }
    requires within { AreReachedWithin (fluent_count task.now) followed.old.places.items }
    ensures table { OnOk result
        (IsTableThere task.now enc.new board.new.slots.items turn.from.stages) }
    ensures within { OnOk result
        (AreReachedWithin (fluent_count task.now) followed.new.places.items) }
{
    let actions = task.actions.len() as u32;
    if actions == 0 {
        return Ok(());
    }
    choose_rules(task, enc, board, actions, turn)?;
    let sets = TakerSets {
        enc,
        slots: &board.slots,
        first: rule_place(actions, turn.from.stages, ActionId(0)),
    };
    followed.visit(
        task,
        &ContextTakers {
            sets,
            context: turn.from.number,
            next: turn.next,
        },
    )
}

/// Puts the sets in which the plan with contexts takes the actions at their places, for a context
/// and a next one.
fn choose_rules(
    task: &Task,
    enc: &mut Enc,
    board: &mut Board,
    actions: u32,
    turn: StageTurn,
) -> Result<(), SetErr>
    requires table { IsTableThere task.now enc.old board.old.slots.items turn.from.stages }
    requires actions { actions ≡ action_count task.now }
    requires few { turn.from.stages ≤ 32 }
    requires context { turn.from.number ≤ turn.next }
    requires next { turn.next ≤ turn.from.stages }
    ensures table { OnOk result
        (IsTableThere task.now enc.new board.new.slots.items turn.from.stages) }
    ensures live { OnOk result (AreSlotsLive enc.new.sets board.new.slots.items) }
{
    let StageContext { stages, number } = turn.from;
    let advance = Advance {
        stage: number,
        next: turn.next,
    };
    rule_sets(enc, board, Chain { actions, stages }, advance)
}

/// What the plan with contexts for a patrol goal reaches, if there is one, over the task's sets.
fn follow_visits(
    alloc: Global,
    task: &Task,
    enc: &mut Enc,
    visits: &[Cond],
) -> Result<Option<Followed>, Stop>
    requires made { MadeOf task.now enc.old }
    requires visits { IsPatrolOver (fluent_count task.now) visits.now }
{
    let found = plan_patrol(alloc, task, enc, visits)?;
    follow_automaton(alloc, task, found)
}

/// What the plan reaches that was found, if one was.
fn follow_automaton(alloc: Global, task: &Task, found: FoundAuto) -> Result<Option<Followed>, Stop>
    requires { IfPlan found (λ plan. IsAutomatonOf (fluent_count task.now) (action_count task.now)
        plan.contexts (context_rules_of plan)) }
{
    match found {
        FoundAuto::Plan(plan) => {
            let followed = follow_plan(alloc, task, &Plan::Auto(plan))?;
            Ok(Some(followed))
        }
        FoundAuto::NoPlan => Ok(None),
    }
}
