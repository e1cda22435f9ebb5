//! The least and the largest sets of a verdict, action by action until none changes them.

ghost use Rattle.std.specs.Prelude.{◌≡◌, ◌<◌, ◌||◌, true, length};
ghost use Rattle.dd_nodes.specs.Subfunctions.{Function};
ghost use Rattle.slot_board.specs.Board.{Ends, Left};
ghost use Rattle.task_core.specs.Tasks.{action_count};
ghost use Rattle.judge_sets.specs.Places.{HasAllGrown, HasAllShrunk, HasGained, HasGrown, HasHere};
ghost use Rattle.judge_sets.specs.Places.{HasHits, HasLost, HasOut, HasRest, HasShrunk, IsGainBy};
ghost use Rattle.judge_sets.specs.Places.{IsLossBy, Scene};

use crate::places::{CUBE, GOOD, PART, STAYS, taken_at};
use board_steps::{Step, make_all};
use dd_sets::SetErr;
use encode_task::Enc;
use slot_board::{Board, Operation, Outcomes};
use task_core::ActionId;

pub(crate) fn either(a: bool, b: bool) -> bool
    ensures { result ≡ (a || b) }
{
    a || b
}

/// Puts at their place the steps of an action that begin outside what has grown: whether there are
/// any.
fn find_rest(enc: &mut Enc, board: &mut Board, a: ActionId) -> Result<bool, SetErr>
    requires ready { (scene : Scene) × (outcomes : Outcomes) × (set : Function)
        × HasGrown scene outcomes enc.old board.old.slots.items set }
    requires action { a.0 < length enc.old.actions }
    ensures { (scene : Scene) (outcomes : Outcomes) (set : Function)
        → HasGrown scene outcomes enc.old board.old.slots.items set
        → Ends scene.start enc.new board.new.slots.items
        (HasRest scene outcomes enc.new board.new.slots.items set a.0) result }
{
    let taken = taken_at(a);
    make_all(
        enc,
        board,
        &[Step::Combine(CUBE, Operation::Minus, taken, GOOD)],
    )?;
    Ok(!board.is_empty(enc, CUBE))
}

/// Puts at their place those of them that lead into what has grown: whether there are any.
fn find_hits(
    enc: &mut Enc,
    board: &mut Board,
    outcomes: Outcomes,
    a: ActionId,
) -> Result<bool, SetErr>
    requires ready { (scene : Scene) × (set : Function)
        × HasRest scene outcomes enc.old board.old.slots.items set a.0 true }
    requires action { a.0 < length enc.old.actions }
    ensures { (scene : Scene) (set : Function)
        → HasRest scene outcomes enc.old board.old.slots.items set a.0 true
        → Ends scene.start enc.new board.new.slots.items
        (HasHits scene outcomes enc.new board.new.slots.items set a.0) result }
{
    make_all(
        enc,
        board,
        &[
            Step::Lead(PART, outcomes, a, GOOD),
            Step::Combine(PART, Operation::Meet, PART, CUBE),
        ],
    )?;
    Ok(!board.is_empty(enc, PART))
}

/// Joins them to what has grown.
fn join_hits(enc: &mut Enc, board: &mut Board, a: ActionId) -> Result<(), SetErr>
    requires ready { (scene : Scene) × (outcomes : Outcomes) × (set : Function)
        × HasHits scene outcomes enc.old board.old.slots.items set a.0 true }
    requires action { a.0 < length enc.old.actions }
    ensures { (scene : Scene) (outcomes : Outcomes) (set : Function)
        → HasHits scene outcomes enc.old board.old.slots.items set a.0 true
        → Left scene.start enc.new board.new.slots.items
        (IsGainBy scene outcomes enc.new board.new.slots.items set a.0 true) result }
{
    make_all(
        enc,
        board,
        &[Step::Combine(GOOD, Operation::Join, GOOD, PART)],
    )
}

/// Joins to what has grown the steps of an action that lead into it: whether there are new ones.
pub(crate) fn grow_by(
    enc: &mut Enc,
    board: &mut Board,
    outcomes: Outcomes,
    a: ActionId,
) -> Result<bool, SetErr>
    requires ready { (scene : Scene) × (set : Function)
        × HasGrown scene outcomes enc.old board.old.slots.items set }
    requires action { a.0 < length enc.old.actions }
    ensures { (scene : Scene) (set : Function)
        → HasGrown scene outcomes enc.old board.old.slots.items set
        → Ends scene.start enc.new board.new.slots.items
        (IsGainBy scene outcomes enc.new board.new.slots.items set a.0) result }
{
    if !find_rest(enc, board, a)? {
        return Ok(false);
    }
    if !find_hits(enc, board, outcomes, a)? {
        return Ok(false);
    }
    join_hits(enc, board, a)?;
    Ok(true)
}

/// Does that by each action: whether there are new ones by some.
fn grow_once(
    enc: &mut Enc,
    board: &mut Board,
    outcomes: Outcomes,
    actions: u32,
) -> Result<bool, SetErr>
    requires ready { (scene : Scene) × (set : Function)
        × HasGrown scene outcomes enc.old board.old.slots.items set }
    requires actions { actions ≡ length enc.old.actions }
    ensures { (scene : Scene) (set : Function)
        → HasGrown scene outcomes enc.old board.old.slots.items set
        → Ends scene.start enc.new board.new.slots.items
        (HasGained scene outcomes enc.new board.new.slots.items set
        (action_count scene.start.task)) result }
{
    let mut grew = false;
    for a in 0..actions {
        let gained = grow_by(enc, board, outcomes, ActionId(a))?;
        grew = either(grew, gained);
    }
    Ok(grew)
}

/// Does that until there are none.
pub(crate) fn grow_to_end(
    enc: &mut Enc,
    board: &mut Board,
    outcomes: Outcomes,
    actions: u32,
) -> Result<(), SetErr>
    requires ready { (scene : Scene) × (set : Function)
        × HasGrown scene outcomes enc.old board.old.slots.items set }
    requires actions { actions ≡ length enc.old.actions }
    ensures { (scene : Scene) (set : Function)
        → HasGrown scene outcomes enc.old board.old.slots.items set
        → Left scene.start enc.new board.new.slots.items
        (HasAllGrown scene outcomes enc.new board.new.slots.items) result }
{
    let mut grew = true;
    while grew {
        grew = grow_once(enc, board, outcomes, actions)?;
    }
    Ok(())
}

/// Puts at their place the steps of an action that begin in what is left: whether there are any.
fn find_here(enc: &mut Enc, board: &mut Board, a: ActionId) -> Result<bool, SetErr>
    requires ready { (scene : Scene) × (from : Function) × (set : Function)
        × HasShrunk scene enc.old board.old.slots.items from set }
    requires action { a.0 < length enc.old.actions }
    ensures { (scene : Scene) (from set : Function)
        → HasShrunk scene enc.old board.old.slots.items from set
        → Ends scene.start enc.new board.new.slots.items
        (HasHere scene enc.new board.new.slots.items from set a.0) result }
{
    let taken = taken_at(a);
    make_all(
        enc,
        board,
        &[Step::Combine(CUBE, Operation::Meet, taken, STAYS)],
    )?;
    Ok(!board.is_empty(enc, CUBE))
}

/// Puts at their place those of them that may lead out of what is left: whether there are any.
fn find_lost(enc: &mut Enc, board: &mut Board, a: ActionId) -> Result<bool, SetErr>
    requires ready { (scene : Scene) × (from : Function) × (set : Function)
        × HasHere scene enc.old board.old.slots.items from set a.0 true }
    requires action { a.0 < length enc.old.actions }
    ensures { (scene : Scene) (from set : Function)
        → HasHere scene enc.old board.old.slots.items from set a.0 true
        → Ends scene.start enc.new board.new.slots.items
        (HasOut scene enc.new board.new.slots.items from set a.0) result }
{
    make_all(
        enc,
        board,
        &[
            Step::Lead(PART, Outcomes::Every, a, STAYS),
            Step::Combine(PART, Operation::Minus, CUBE, PART),
        ],
    )?;
    Ok(!board.is_empty(enc, PART))
}

/// Takes them from what is left.
fn drop_lost(enc: &mut Enc, board: &mut Board, a: ActionId) -> Result<(), SetErr>
    requires ready { (scene : Scene) × (from : Function) × (set : Function)
        × HasOut scene enc.old board.old.slots.items from set a.0 true }
    requires action { a.0 < length enc.old.actions }
    ensures { (scene : Scene) (from set : Function)
        → HasOut scene enc.old board.old.slots.items from set a.0 true
        → Left scene.start enc.new board.new.slots.items
        (IsLossBy scene enc.new board.new.slots.items from set a.0 true) result }
{
    make_all(
        enc,
        board,
        &[Step::Combine(STAYS, Operation::Minus, STAYS, PART)],
    )
}

/// Takes from what is left the steps of an action that may lead out of it: whether there are any.
pub(crate) fn shrink_by(enc: &mut Enc, board: &mut Board, a: ActionId) -> Result<bool, SetErr>
    requires ready { (scene : Scene) × (from : Function) × (set : Function)
        × HasShrunk scene enc.old board.old.slots.items from set }
    requires action { a.0 < length enc.old.actions }
    ensures { (scene : Scene) (from set : Function)
        → HasShrunk scene enc.old board.old.slots.items from set
        → Ends scene.start enc.new board.new.slots.items
        (IsLossBy scene enc.new board.new.slots.items from set a.0) result }
{
    if !find_here(enc, board, a)? {
        return Ok(false);
    }
    if !find_lost(enc, board, a)? {
        return Ok(false);
    }
    drop_lost(enc, board, a)?;
    Ok(true)
}

fn shrink_once(enc: &mut Enc, board: &mut Board, actions: u32) -> Result<bool, SetErr>
    requires ready { (scene : Scene) × (from : Function) × (set : Function)
        × HasShrunk scene enc.old board.old.slots.items from set }
    requires actions { actions ≡ length enc.old.actions }
    ensures { (scene : Scene) (from set : Function)
        → HasShrunk scene enc.old board.old.slots.items from set
        → Ends scene.start enc.new board.new.slots.items
        (HasLost scene enc.new board.new.slots.items from set
        (action_count scene.start.task)) result }
{
    let mut shrank = false;
    for a in 0..actions {
        let lost = shrink_by(enc, board, ActionId(a))?;
        shrank = either(shrank, lost);
    }
    Ok(shrank)
}

/// Does that until there are none.
pub(crate) fn shrink_to_end(enc: &mut Enc, board: &mut Board, actions: u32) -> Result<(), SetErr>
    requires ready { (scene : Scene) × (from : Function) × (set : Function)
        × HasShrunk scene enc.old board.old.slots.items from set }
    requires actions { actions ≡ length enc.old.actions }
    ensures { (scene : Scene) (from set : Function)
        → HasShrunk scene enc.old board.old.slots.items from set
        → Left scene.start enc.new board.new.slots.items
        (HasAllShrunk scene enc.new board.new.slots.items from) result }
{
    let mut shrank = true;
    while shrank {
        shrank = shrink_once(enc, board, actions)?;
    }
    Ok(())
}
