//! Makes the steps of a table of what its actions take, and the sets that a verdict begins with.

ghost use Rattle.std.specs.Prelude.{◌≡◌, ◌+◌, ◌<◌, IsSome, length};
ghost use Rattle.dd_sets.specs.LiveSets.{IsLive, set_of};
ghost use Rattle.slot_board.specs.Board.{At, Fits, IsWorking, Left, Moved, Start};
ghost use Rattle.task_core.specs.Tasks.{action_count};
ghost use Rattle.judge_sets.specs.Places.{HasPart, HasRead, Scene};

use crate::places::{CUBE, FOLLOWED, GOOD, MATCHED, PART, taken_at};
use board_steps::{Step, make_all};
use dd_sets::{SetErr, SetId};
use encode_task::Enc;
use slot_board::{Board, Operation};
use task_core::ActionId;

/// Puts the goal states at their place.
fn put_goal(enc: &mut Enc, board: &mut Board, goal: SetId) -> Result<(), SetErr>
    requires working { IsWorking enc.old board.old.slots.items }
    requires place { 4 < length board.old.slots.items }
    requires live { IsLive enc.old.sets goal.0 }
    ensures { (start : Start) → At start enc.old board.old.slots.items
        → Fits start 4 (set_of enc.old.sets goal.0)
        → Left start enc.new board.new.slots.items
        (Moved start enc.old.sets board.old.slots.items enc.new board.new.slots.items 4
        (set_of enc.old.sets goal.0)) result }
{
    board.copy(enc, GOOD, goal)
}

/// Puts the states in which the rules are at their end, and the set of all lists of truth values, at
/// their places.
fn begin(enc: &mut Enc, board: &mut Board) -> Result<(), SetErr>
    requires ready { (scene : Scene) × HasRead scene enc.old board.old.slots.items scene.rules }
    requires goal { IsSome enc.old.goal }
    ensures { (scene : Scene) → HasRead scene enc.old board.old.slots.items scene.rules
        → Left scene.start enc.new board.new.slots.items
        (HasPart scene enc.new board.new.slots.items 0) result }
{
    let goal = enc.goal().unwrap();
    put_goal(enc, board, goal)?;
    make_all(
        enc,
        board,
        &[
            Step::Combine(GOOD, Operation::Minus, GOOD, MATCHED),
            Step::Whole(FOLLOWED),
        ],
    )
}

/// Takes where an action is taken and cannot be executed from where rules can be followed, and leaves
/// the states in which it can be.
fn split(enc: &mut Enc, board: &mut Board, a: ActionId) -> Result<(), SetErr>
    requires ready { (scene : Scene) × HasPart scene enc.old board.old.slots.items a.0 }
    requires action { a.0 < length enc.old.actions }
    ensures { (scene : Scene) → HasPart scene enc.old board.old.slots.items a.0
        → Left scene.start enc.new board.new.slots.items
        (HasPart scene enc.new board.new.slots.items (a.0 + 1)) result }
{
    let exec = enc.exec(a);
    let taken = taken_at(a);
    make_all(
        enc,
        board,
        &[
            Step::Kept(CUBE, exec),
            Step::Combine(PART, Operation::Minus, taken, CUBE),
            Step::Combine(FOLLOWED, Operation::Minus, FOLLOWED, PART),
            Step::Combine(taken, Operation::Meet, taken, CUBE),
        ],
    )
}

/// Makes the steps of all actions.
pub(crate) fn settle(enc: &mut Enc, board: &mut Board, actions: u32) -> Result<(), SetErr>
    requires ready { (scene : Scene) × HasRead scene enc.old board.old.slots.items scene.rules }
    requires goal { IsSome enc.old.goal }
    requires actions { actions ≡ length enc.old.actions }
    ensures { (scene : Scene) → HasRead scene enc.old board.old.slots.items scene.rules
        → Left scene.start enc.new board.new.slots.items (HasPart scene enc.new
        board.new.slots.items (action_count scene.start.task)) result }
{
    begin(enc, board)?;
    for a in 0..actions {
        split(enc, board, ActionId(a))?;
    }
    Ok(())
}
