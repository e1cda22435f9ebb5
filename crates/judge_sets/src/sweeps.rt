//! The least and the largest sets of a verdict: first by sweeps over the actions of the rules, in an
//! order that comes to the end soon, and then by all actions, until none changes them.

ghost use Rattle.std.specs.Prelude.{◌≡◌, length};
ghost use Rattle.dd_nodes.specs.Subfunctions.{Function};
ghost use Rattle.slot_board.specs.Board.{Ends, Left};
ghost use Rattle.judge_sets.specs.Places.{GrowsStill, HasAllGrown, HasAllShrunk, HasGrown, HasShrunk};
ghost use Rattle.judge_sets.specs.Places.{Scene, ShrinksStill};

use crate::fixpoints::{either, grow_by, grow_to_end, shrink_by, shrink_to_end};
use crate::order::Order;
use dd_sets::SetErr;
use encode_task::Enc;
use slot_board::{Board, Outcomes};
use task_core::ActionId;

/// Joins to what has grown the steps of an action that lead into it, if it is an action of the task:
/// whether there are new ones.
fn grow_if(
    enc: &mut Enc,
    board: &mut Board,
    outcomes: Outcomes,
    order: &Order,
    a: ActionId,
) -> Result<bool, SetErr>
    requires ready { (scene : Scene) × GrowsStill scene outcomes enc.old board.old.slots.items }
    requires actions { order.now.actions ≡ length enc.old.actions }
    ensures { (scene : Scene) → GrowsStill scene outcomes enc.old board.old.slots.items
        → Ends scene.start enc.new board.new.slots.items
        (λ gained. GrowsStill scene outcomes enc.new board.new.slots.items) result }
{
    if a.0 < order.actions {
        grow_by(enc, board, outcomes, a)
    } else {
        Ok(false)
    }
}

/// Does that by each action that is tried first: whether there are new ones by some.
fn grow_in_order(
    enc: &mut Enc,
    board: &mut Board,
    outcomes: Outcomes,
    order: &Order,
) -> Result<bool, SetErr>
    requires ready { (scene : Scene) × GrowsStill scene outcomes enc.old board.old.slots.items }
    requires actions { order.now.actions ≡ length enc.old.actions }
    ensures { (scene : Scene) → GrowsStill scene outcomes enc.old board.old.slots.items
        → Ends scene.start enc.new board.new.slots.items
        (λ gained. GrowsStill scene outcomes enc.new board.new.slots.items) result }
{
    let mut grew = false;
    for a in &order.first {
        let gained = grow_if(enc, board, outcomes, order, *a)?;
        grew = either(grew, gained);
    }
    Ok(grew)
}

/// Does that until there are none.
fn grow_in_sweeps(
    enc: &mut Enc,
    board: &mut Board,
    outcomes: Outcomes,
    order: &Order,
) -> Result<(), SetErr>
    requires ready { (scene : Scene) × GrowsStill scene outcomes enc.old board.old.slots.items }
    requires actions { order.now.actions ≡ length enc.old.actions }
    ensures { (scene : Scene) → GrowsStill scene outcomes enc.old board.old.slots.items
        → Left scene.start enc.new board.new.slots.items
        (GrowsStill scene outcomes enc.new board.new.slots.items) result }
{
    for _ in 0..u64::MAX {
        if !grow_in_order(enc, board, outcomes, order)? {
            return Ok(());
        }
    }
    Ok(())
}

/// Joins to what has grown the steps of all actions that lead into it, until there are none.
pub(crate) fn grow(
    enc: &mut Enc,
    board: &mut Board,
    outcomes: Outcomes,
    order: &Order,
) -> Result<(), SetErr>
    requires ready { (scene : Scene) × (set : Function)
        × HasGrown scene outcomes enc.old board.old.slots.items set }
    requires actions { order.now.actions ≡ length enc.old.actions }
    ensures { (scene : Scene) (set : Function)
        → HasGrown scene outcomes enc.old board.old.slots.items set
        → Left scene.start enc.new board.new.slots.items
        (HasAllGrown scene outcomes enc.new board.new.slots.items) result }
{
    grow_in_sweeps(enc, board, outcomes, order)?;
    grow_to_end(enc, board, outcomes, order.actions)
}

/// Takes from what is left the steps of an action that may lead out of it, if it is an action of the
/// task: whether there are any.
fn shrink_if(enc: &mut Enc, board: &mut Board, order: &Order, a: ActionId) -> Result<bool, SetErr>
    requires ready { (scene : Scene) × (from : Function)
        × ShrinksStill scene enc.old board.old.slots.items from }
    requires actions { order.now.actions ≡ length enc.old.actions }
    ensures { (scene : Scene) (from : Function)
        → ShrinksStill scene enc.old board.old.slots.items from
        → Ends scene.start enc.new board.new.slots.items
        (λ lost. ShrinksStill scene enc.new board.new.slots.items from) result }
{
    if a.0 < order.actions {
        shrink_by(enc, board, a)
    } else {
        Ok(false)
    }
}

/// Does that by each action that is tried first: whether there are any by some.
fn shrink_in_order(enc: &mut Enc, board: &mut Board, order: &Order) -> Result<bool, SetErr>
    requires ready { (scene : Scene) × (from : Function)
        × ShrinksStill scene enc.old board.old.slots.items from }
    requires actions { order.now.actions ≡ length enc.old.actions }
    ensures { (scene : Scene) (from : Function)
        → ShrinksStill scene enc.old board.old.slots.items from
        → Ends scene.start enc.new board.new.slots.items
        (λ lost. ShrinksStill scene enc.new board.new.slots.items from) result }
{
    let mut shrank = false;
    for a in &order.first {
        let lost = shrink_if(enc, board, order, *a)?;
        shrank = either(shrank, lost);
    }
    Ok(shrank)
}

/// Does that until there are none.
fn shrink_in_sweeps(enc: &mut Enc, board: &mut Board, order: &Order) -> Result<(), SetErr>
    requires ready { (scene : Scene) × (from : Function)
        × ShrinksStill scene enc.old board.old.slots.items from }
    requires actions { order.now.actions ≡ length enc.old.actions }
    ensures { (scene : Scene) (from : Function)
        → ShrinksStill scene enc.old board.old.slots.items from
        → Left scene.start enc.new board.new.slots.items
        (ShrinksStill scene enc.new board.new.slots.items from) result }
{
    for _ in 0..u64::MAX {
        if !shrink_in_order(enc, board, order)? {
            return Ok(());
        }
    }
    Ok(())
}

/// Takes from what is left the steps of all actions that may lead out of it, until there are none.
pub(crate) fn shrink(enc: &mut Enc, board: &mut Board, order: &Order) -> Result<(), SetErr>
    requires ready { (scene : Scene) × (from : Function) × (set : Function)
        × HasShrunk scene enc.old board.old.slots.items from set }
    requires actions { order.now.actions ≡ length enc.old.actions }
    ensures { (scene : Scene) (from set : Function)
        → HasShrunk scene enc.old board.old.slots.items from set
        → Left scene.start enc.new board.new.slots.items
        (HasAllShrunk scene enc.new board.new.slots.items from) result }
{
    shrink_in_sweeps(enc, board, order)?;
    shrink_to_end(enc, board, order.actions)
}
