//! Steps on the board of a search, whatever the sizes of its sets.

ghost use Rattle.std.specs.Prelude.{◌<◌, length};
ghost use Rattle.dd_sets.specs.LiveSets.{everything};
ghost use Rattle.slot_board.specs.Board.{At};
ghost use Rattle.task_core.specs.Conditions.{IsConditionOver, holds};
ghost use Rattle.fair_plan.specs.Boards.{AreStepsOf, IsAfter, IsThere, Leaves, Puts, Origin};

use crate::places::GUARD;
use board_steps::{Step, make_all};
use dd_sets::SetErr;
use encode_task::Enc;
use slot_board::Board;
use task_core::Cond;

/// Begins with a guard that asks for nothing.
pub(crate) fn begin(enc: &mut Enc, board: &mut Board) -> Result<(), SetErr>
    requires { (origin : Origin) × At origin.start enc.old board.old.slots.items }
    ensures { (origin : Origin) → At origin.start enc.old board.old.slots.items
        → Leaves origin (enc.new, board.new.slots.items)
        (Puts origin (enc.old, board.old.slots.items) (enc.new, board.new.slots.items) 6 everything)
        result }
{
    board.whole(enc, GUARD)
}

pub(crate) fn make(enc: &mut Enc, board: &mut Board, steps: &[Step]) -> Result<(), SetErr>
    requires { (origin : Origin) × IsThere origin (enc.old, board.old.slots.items)
        × AreStepsOf origin steps.now }
    ensures { (origin : Origin) → IsThere origin (enc.old, board.old.slots.items)
        → AreStepsOf origin steps.now
        → Leaves origin (enc.new, board.new.slots.items)
        (IsAfter origin (enc.old, board.old.slots.items) (enc.new, board.new.slots.items)
        steps.now) result }
{
    make_all(enc, board, steps)
}

/// Puts at a place the lists of truth values where a condition holds.
pub(crate) fn put_condition(
    enc: &mut Enc,
    board: &mut Board,
    place: usize,
    cond: &Cond,
) -> Result<(), SetErr>
    requires ready { (origin : Origin) × IsThere origin (enc.old, board.old.slots.items) }
    requires place { place < length board.old.slots.items }
    requires cond { IsConditionOver enc.old.sets.vars cond.now }
    ensures { (origin : Origin) → IsThere origin (enc.old, board.old.slots.items)
        → Leaves origin (enc.new, board.new.slots.items)
        (Puts origin (enc.old, board.old.slots.items) (enc.new, board.new.slots.items) place
        (holds cond.now)) result }
{
    board.condition(enc, place, cond)
}
