//! The strong cyclic planner.

ghost use Rattle.std.specs.Prelude.{◌≡◌, ℕ, ◌+◌, ◌*◌, ◌<◌, [], map, length, Some};
ghost use Rattle.std.specs.Prelude.{IsSome, IfErr, IfNone, IfOk, IfSome, OnErr, IsErrOf};
ghost use Rattle.dd_sets.specs.Frames.{Owns};
ghost use Rattle.dd_sets.specs.Rooms.{NoRoom};
ghost use Rattle.encode_task.specs.Made.{MadeOf};
ghost use Rattle.task_core.specs.Solutions.{HasNoSolution};
ghost use Rattle.task_core.specs.Tasks.{action_count, system_of};
ghost use Rattle.task_core.specs.declared.classes.Class.TheVariants.{Cyclic};
ghost use Rattle.task_core.specs.declared.tasks.Task.{Task as TaskOf};
ghost use Rattle.plan_rules.specs.Rules.{rule_of};
ghost use Rattle.plan_theory.specs.Found.{IsPlanOfClass, IsPlannersAnswer};
ghost use Rattle.cyclic_plan.specs.Answers.{Ends};
ghost use Rattle.slot_board.specs.Board.{Left, Start};
ghost use Rattle.cyclic_plan.specs.Stages.{place_count, HasNothing};
ghost use Rattle.plan_theory.specs.CyclicPlans.{cyclic_rules};
ghost use Rattle.plan_theory.specs.PairRounds.{round as round_of};
ghost use Rattle.cyclic_plan.specs.Stages.{HasRound, none_taken};
ghost use Rattle.cyclic_plan.specs.Takers.{HasTable, start_of};
ghost use Rattle.cyclic_plan.specs.WorkingSets.{BoundsCyclicSets};

use crate::retrace::retrace;
use crate::rounds::{GOAL, LEFT, last_round, takers_of};
use dd_sets::{Listing, SetErr, SetId};
use encode_task::Enc;
use plan_rules::{Class, Rule, TablePlan};
use plan_theory::Found;
use slot_board::{Board, add_rules};
use std::alloc::Global;
use task_core::{ActionId, Task};

/// How many places the board has for a task with so many actions.
pub(crate) fn places(actions: u32) -> usize
    ensures { result ≡ place_count actions }
{
    7 + actions as usize + actions as usize
}

/// Puts the goal states and the set of all states at their places.
pub(crate) fn begin(enc: &mut Enc, board: &mut Board, goal: SetId) -> Result<(), SetErr>
    requires ready { (start : Start) × HasNothing start enc.old board.old.slots.items }
    requires goal { enc.old.goal ≡ Some goal }
    ensures { (start : Start) → HasNothing start enc.old board.old.slots.items
        → Left start enc.new board.new.slots.items
        (HasRound start enc.new board.new.slots.items (round_of (system_of start.task) 0)
        none_taken) result }
{
    board.copy(enc, GOAL, goal)?;
    board.whole(enc, LEFT)
}

/// The rules of the states that take each action, the actions in rising number.
fn rules(alloc: Global, enc: &Enc, board: &Board, actions: u32) -> Result<Vec<Rule>, SetErr>
    requires ready { (start : Start) × HasTable start enc.now board.now.slots.items }
    requires actions { actions ≡ length enc.now.actions }
    ensures rules { (start : Start) (table : HasTable start enc.now board.now.slots.items)
        → IfOk result (λ rules. map rule_of rules.items
        ≡ cyclic_rules (system_of start.task) table.pairs) }
    ensures never_full { IfErr result (λ e. e ≡ SetErr.Memory) }
{
    let mut rules = Vec::new(alloc);
    let mut listing = Listing::new();
    for a in 0..actions {
        let cubes = board.cubes(enc, takers_of(actions, ActionId(a)), &mut listing)?;
        add_rules(&mut rules, ActionId(a), cubes)?;
    }
    Ok(rules)
}

/// Searches with the slots of a board, which stay: whether there is a plan.
fn search(
    alloc: Global,
    enc: &mut Enc,
    board: &mut Board,
    goal: SetId,
    actions: u32,
) -> Result<bool, SetErr>
    requires ready { (start : Start) × HasNothing start enc.old board.old.slots.items }
    requires goal { enc.old.goal ≡ Some goal }
    requires actions { actions ≡ length enc.old.actions }
    ensures { (start : Start) → HasNothing start enc.old board.old.slots.items
        → Ends start enc.new board.new.slots.items result }
{
    begin(enc, board, goal)?;
    let mut steps = Vec::new(alloc);
    if !last_round(alloc, enc, board, &mut steps, actions)? {
        return Ok(false);
    }
    retrace(enc, board, actions, &steps)?;
    Ok(true)
}

/// The strong cyclic plan in sets of states: for each action the states that take it, in slots at
/// places of a board, which the caller closes. Or that there is none: no state-action table, not
/// even one with several actions for a state, is a strong cyclic solution.
///
/// It makes rounds on sets of states. Each keeps the state-action pairs outside the goal that don't
/// lead out of the states that are left, and then the states from which these pairs reach the goal,
/// until a round leaves the same states as the one before, or not all initial states (Cimatti,
/// Pistore, Roveri and Traverso 2003). Where the initial states are left, each state takes the
/// least-numbered action of its kept pairs that makes a step towards the goal. The time grows with
/// the rounds, their steps and the actions, and not with the number of states. A round that loses no
/// pair makes no steps, a step has no preimage for an action that led into the near states by all of
/// its kept pairs in a step before, and what is taken is found by the steps of the last round that
/// changed something alone.
///
/// `takers_of` tells the place of an action's states. `Full` comes only where the table holds as many
/// nodes as it may, and its limit is tight with at most three sets of the search's own for each
/// action and 32 more, of which at most 16 are no working sets (`WorkingSets`). Where no board is
/// answered, all slots of the search are ended.
pub fn cyclic_takers(alloc: Global, task: &Task, enc: &mut Enc) -> Result<Option<Board>, SetErr>
    requires made { MadeOf task.now enc.old }
    requires goal { IsSome task.now.goal }
    ensures table { (made : MadeOf task.now enc.old) (width : ℕ) (wide : BoundsCyclicSets width task.now)
        → IfOk result (λ found. IfSome found (λ board.
        HasTable (start_of task.now enc.old made width wide.wide) enc.new board.slots.items)) }
    ensures no_plan { IfOk result
        (λ found. IfNone found (HasNoSolution Cyclic (system_of task.now))) }
    ensures full { IsErrOf result SetErr.Full → (width : ℕ) → BoundsCyclicSets width task.now
        → NoRoom width (3 * action_count task.now + 32) 16 enc.old.sets enc.new.sets }
    ensures closed { IfOk result (λ found. IfNone found (Owns enc.old.sets enc.new.sets [])) }
    ensures refused { OnErr result (Owns enc.old.sets enc.new.sets []) }
    ensures same_slots { enc.new ≡ record enc.old { sets = enc.new.sets } }
{
    let goal = enc.goal().unwrap();
    let actions = task.actions.len() as u32;
    let mut board = Board::new(alloc, enc, places(actions))?;
    match search(alloc, enc, &mut board, goal, actions) {
        Ok(true) => Ok(Some(board)),
        Ok(false) => {
            board.close(enc);
            Ok(None)
        }
        Err(refusal) => {
            board.close(enc);
            Err(refusal)
        }
    }
}

/// The plan that a board has in sets of states; its slots are ended.
fn close_as_plan(
    alloc: Global,
    enc: &mut Enc,
    board: Board,
    actions: u32,
) -> Result<TablePlan, SetErr>
    requires ready { (start : Start) × HasTable start enc.old board.slots.items }
    requires actions { actions ≡ length enc.old.actions }
    ensures plan { (start : Start) → HasTable start enc.old board.slots.items
        → IfOk result (IsPlanOfClass Cyclic start.task) }
    ensures slots { (start : Start) → HasTable start enc.old board.slots.items
        → Owns start.enc.sets enc.new.sets [] }
    ensures same_slots { enc.new ≡ record enc.old { sets = enc.new.sets } }
    ensures never_full { IfErr result (λ e. e ≡ SetErr.Memory) }
{
    let mut board = board;
    let rules = rules(alloc, enc, &board, actions);
    board.close(enc);
    match rules {
        Ok(rules) => Ok(TablePlan {
            class: Class::Cyclic,
            rules,
        }),
        Err(_) => Err(SetErr::Memory),
    }
}

/// The plan in sets of states, and then its cubes.
fn find_plan(alloc: Global, task: &Task, enc: &mut Enc) -> Result<Found, SetErr>
    requires made { MadeOf task.now enc.old }
    requires goal { IsSome task.now.goal }
    ensures answer { IfOk result (IsPlannersAnswer Cyclic task.now) }
    ensures full { IsErrOf result SetErr.Full → (width : ℕ) → BoundsCyclicSets width task.now
        → NoRoom width (3 * action_count task.now + 32) 16 enc.old.sets enc.new.sets }
    ensures slots { Owns enc.old.sets enc.new.sets [] }
    ensures same_slots { enc.new ≡ record enc.old { sets = enc.new.sets } }
{
    let actions = task.actions.len() as u32;
    match cyclic_takers(alloc, task, enc)? {
        Some(board) => {
            let plan = close_as_plan(alloc, enc, board, actions)?;
            Ok(Found::Plan(plan))
        }
        None => Ok(Found::NoPlan),
    }
}

/// A strong cyclic plan, or that there is none: no state-action table, not even one with several
/// actions for a state, is a strong cyclic solution.
///
/// Its rules are the cubes of the sets that `cyclic_takers` finds, the actions in rising number.
/// Of `Full` the same holds as there. All slots of the search are ended on every exit.
pub fn plan_cyclic(alloc: Global, task: &Task, enc: &mut Enc) -> Result<Found, SetErr>
    requires made { MadeOf task.now enc.old }
    requires goal { IsSome task.now.goal }
    ensures answer { IfOk result (IsPlannersAnswer Cyclic task.now) }
    ensures full { IsErrOf result SetErr.Full → (width : ℕ) → BoundsCyclicSets width task.now
        → NoRoom width (3 * action_count task.now + 32) 16 enc.old.sets enc.new.sets }
    ensures slots { Owns enc.old.sets enc.new.sets [] }
    ensures same_slots { enc.new ≡ record enc.old { sets = enc.new.sets } }
    ensures made { (task : TaskOf) → MadeOf task enc.old → MadeOf task enc.new }
{
    find_plan(alloc, task, enc)
}
