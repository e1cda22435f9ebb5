//! The planner.

ghost use Rattle.std.specs.Prelude.{◌≡◌, ◌≤◌, ℕ, [], IfOk, IsErrOf, length};
ghost use Rattle.dd_sets.specs.Frames.{Owns};
ghost use Rattle.dd_sets.specs.Rooms.{IsAtLimit};
ghost use Rattle.encode_task.specs.Made.{MadeOf};
ghost use Rattle.fair_theory.specs.FairPlans.{sets_of_goal};
ghost use Rattle.plan_rules.specs.Plans.{IsAutomatonOf};
ghost use Rattle.plan_rules.specs.Rules.{context_rules_of};
ghost use Rattle.task_core.specs.Tasks.{fluent_count};
ghost use Rattle.task_core.specs.declared.tasks.Task.{Task as TaskOf};
ghost use Rattle.fair_theory.specs.FairSets.{IsFairWin, covers_initial};
ghost use Rattle.slot_board.specs.Board.{At, Ends};
ghost use Rattle.task_core.specs.Cubes.{SetOfVectors};
ghost use Rattle.fair_plan.specs.Boards.{IsThere, Origin, actions_of, sys_of};
ghost use Rattle.fair_plan.specs.Found.{IsFairPlannersAnswer};
ghost use Rattle.fair_plan.specs.Goals.{IsFairGoalOver, contexts_of};
ghost use Rattle.ctl_syntax.specs.GoalSizes.{count_of, most_stages};

use crate::found::FairFound;
use crate::places::{Sizes, places, win_at};
use crate::rules::list_goal;
use crate::stages::win_goal;
use crate::steps::begin;
use crate::takers::take_goal;
use ctl_syntax::{ContextGoal, UntilStage};
use dd_sets::SetErr;
use encode_task::Enc;
use plan_rules::AutoPlan;
use slot_board::Board;
use std::alloc::Global;
use task_core::{Cond, Task};

fn stages_of(stages: &[UntilStage]) -> u32
    requires { length stages.now ≤ most_stages }
    ensures { result ≡ length stages.now }
{
    stages.len() as u32
}

fn visits_of(visits: &[Cond]) -> u32
    requires { length visits.now ≤ most_stages }
    ensures { result ≡ length visits.now }
{
    visits.len() as u32
}

/// How many stages or visits a goal has.
fn count_of(goal: &ContextGoal) -> u32
    requires { (fluents : ℕ) × IsFairGoalOver fluents goal.now }
    ensures count { result ≡ count_of goal.now }
    ensures few { result ≤ most_stages }
{
    match goal {
        ContextGoal::Until(chain) => stages_of(chain.stages.as_slice()),
        ContextGoal::Patrol(visits) => visits_of(visits.as_slice()),
    }
}

/// How many contexts a plan for it has.
fn contexts_of(goal: &ContextGoal, count: u32) -> u32
    requires count { count ≡ count_of goal.now }
    requires few { count ≤ most_stages }
    ensures { result ≡ contexts_of goal.now }
{
    match goal {
        ContextGoal::Until(_) => count + 1,
        ContextGoal::Patrol(_) => count,
    }
}

/// Whether the goal can be had from each initial state. It leaves the states from which it can.
fn wins(
    enc: &mut Enc,
    board: &mut Board,
    actions: u32,
    goal: &ContextGoal,
    count: u32,
) -> Result<bool, SetErr>
    requires ready { (origin : Origin) × At origin.start enc.old board.old.slots.items
        × (origin.count ≡ count) }
    requires actions { actions ≡ length enc.old.actions }
    requires goal { IsFairGoalOver enc.old.sets.vars goal.now }
    requires count { count ≡ count_of goal.now }
    ensures { (origin : Origin) → At origin.start enc.old board.old.slots.items
        → origin.count ≡ count → Ends origin.start enc.new board.new.slots.items
        (λ won. IsThere origin (enc.new, board.new.slots.items) × (set : SetOfVectors)
        × IsFairWin (sys_of origin) (sets_of_goal goal.now) set
        × (won ≡ covers_initial (sys_of origin) set)) result }
{
    begin(enc, board)?;
    win_goal(enc, board, actions, goal, count)?;
    board.covers_initial(enc, win_at(actions, 0))
}

fn write_plan(
    alloc: Global,
    enc: &mut Enc,
    board: &mut Board,
    sizes: Sizes,
    goal: &ContextGoal,
) -> Result<AutoPlan, SetErr>
    requires ready { (origin : Origin) × IsThere origin (enc.old, board.old.slots.items)
        × (origin.count ≡ sizes.count) }
    requires actions { sizes.actions ≡ length enc.old.actions }
    requires goal { IsFairGoalOver enc.old.sets.vars goal.now }
    requires count { sizes.count ≡ count_of goal.now }
    requires few { sizes.count ≤ most_stages }
    ensures { (origin : Origin) → IsThere origin (enc.old, board.old.slots.items)
        → origin.count ≡ sizes.count → Ends origin.start enc.new board.new.slots.items
        (λ plan. IsThere origin (enc.new, board.new.slots.items)
        × IsAutomatonOf (fluent_count origin.start.task) (actions_of origin) plan.contexts
        (context_rules_of plan)) result }
{
    take_goal(enc, board, sizes.actions, goal, sizes.count)?;
    let mut rules = Vec::new(alloc);
    list_goal(enc, board, &mut rules, sizes, goal)?;
    Ok(AutoPlan {
        contexts: contexts_of(goal, sizes.count),
        rules,
    })
}

/// Searches with the slots of a board, which stay.
fn search_goal(
    alloc: Global,
    enc: &mut Enc,
    board: &mut Board,
    sizes: Sizes,
    goal: &ContextGoal,
) -> Result<FairFound, SetErr>
    requires ready { (origin : Origin) × At origin.start enc.old board.old.slots.items
        × (origin.count ≡ sizes.count) }
    requires actions { sizes.actions ≡ length enc.old.actions }
    requires goal { IsFairGoalOver enc.old.sets.vars goal.now }
    requires count { sizes.count ≡ count_of goal.now }
    requires few { sizes.count ≤ most_stages }
    ensures { (origin : Origin) → At origin.start enc.old board.old.slots.items
        → origin.count ≡ sizes.count → Ends origin.start enc.new board.new.slots.items
        (λ found. IsThere origin (enc.new, board.new.slots.items)
        × IsFairPlannersAnswer origin.start.task (sets_of_goal goal.now) found) result }
{
    if !wins(enc, board, sizes.actions, goal, sizes.count)? {
        return Ok(FairFound::NoPlan);
    }
    let plan = write_plan(alloc, enc, board, sizes, goal)?;
    Ok(FairFound::Plan(plan))
}

/// Searches with the slots of a board of its own, which are ended.
fn find_fair(
    alloc: Global,
    task: &Task,
    enc: &mut Enc,
    goal: &ContextGoal,
) -> Result<FairFound, SetErr>
    requires made { MadeOf task.now enc.old }
    requires goal { IsFairGoalOver (fluent_count task.now) goal.now }
    ensures answer { IfOk result (IsFairPlannersAnswer task.now (sets_of_goal goal.now)) }
    ensures full { IsErrOf result SetErr.Full → IsAtLimit enc.new.sets }
    ensures slots { Owns enc.old.sets enc.new.sets [] }
    ensures same_slots { enc.new ≡ record enc.old { sets = enc.new.sets } }
{
    let actions = task.actions.len() as u32;
    let count = count_of(goal);
    let mut board = Board::new(alloc, enc, places(actions, count))?;
    let sizes = Sizes { actions, count };
    let found = search_goal(alloc, enc, &mut board, sizes, goal);
    board.close(enc);
    found
}

/// A plan for an until-chain or a patrol goal whose actions may be tried again, or that there is none:
/// no plan with contexts, whatever its contexts are and however many, goes on wherever it leads and
/// has at each initial configuration the goal by which such plans are judged.
///
/// It works on sets of states (Cimatti, Pistore, Roveri, Traverso 2003). For a stage it finds the
/// largest set of states from which the stage can still be met, in states of its guard until then, by
/// actions that never lead out of the set: from all states on, each round leaves those from which it
/// can within what is left. The stages are taken from the last one back, after the states from which
/// the condition at the end can be kept. For a patrol one such set serves all visits. Where the
/// initial states are among those of the first stage there is a plan; each state takes the
/// least-numbered action that may lead to a state from which the way is shorter. It has a context for
/// each stage and one for the end, and turns to the first stage, from the context's own on, that
/// isn't met; for a patrol it has a context for each visit, and goes on to the next one where the
/// visit is made. That the plan has the goal is not promised: judge it.
///
/// An until-chain has at most 32 stages, a patrol goal 1 to 8 visits, and each condition names the
/// task's fluents alone and is at most 200 deep. `Full` comes only where the table holds as many nodes
/// as it may, and `Memory` for want of memory. All slots of the search are ended on every exit.
pub fn fair_plan(
    alloc: Global,
    task: &Task,
    enc: &mut Enc,
    goal: &ContextGoal,
) -> Result<FairFound, SetErr>
    requires made { MadeOf task.now enc.old }
    requires goal { IsFairGoalOver (fluent_count task.now) goal.now }
    ensures answer { IfOk result (IsFairPlannersAnswer task.now (sets_of_goal goal.now)) }
    ensures full { IsErrOf result SetErr.Full → IsAtLimit enc.new.sets }
    ensures slots { Owns enc.old.sets enc.new.sets [] }
    ensures same_slots { enc.new ≡ record enc.old { sets = enc.new.sets } }
    ensures made { (task : TaskOf) → MadeOf task enc.old → MadeOf task enc.new }
{
    find_fair(alloc, task, enc, goal)
}
