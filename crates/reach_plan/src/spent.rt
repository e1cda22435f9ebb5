//! When an action is spent: once it can be executed in states of the next layer alone, so that it adds
//! nothing to it any more.

ghost use Rattle.std.specs.Prelude.{◌≡◌, ◌<◌, IsTrue, length};
ghost use Rattle.dd_sets.specs.LiveSets.{IsLive, set_of};
ghost use Rattle.encode_task.specs.TaskSets.{exec_set};
ghost use Rattle.slot_board.specs.Board.{At, Start, set_at};

use dd_sets::SetId;
use encode_task::Enc;
use slot_board::Board;
use task_core::ActionId;

/// Whether the set at a place has all states where an action can be executed, and no others.
pub(crate) fn has_all(enc: &Enc, board: &Board, place: usize, a: ActionId) -> bool
    requires ready { (start : Start) × At start enc.now board.now.slots.items }
    requires place { place < length board.now.slots.items }
    requires action { a.0 < length enc.now.actions }
    ensures { (start : Start) → At start enc.now board.now.slots.items → IsTrue result
        → set_at enc.now.sets board.now.slots.items place ≡ exec_set start.task a.0 }
{
    let set = board.at(place);
    let exec = enc.exec(a);
    are_same(enc, set, exec)
}

/// Whether two slots hold the same set.
fn are_same(enc: &Enc, a: SetId, b: SetId) -> bool
    requires a_live { IsLive enc.now.sets a.0 }
    requires b_live { IsLive enc.now.sets b.0 }
    ensures { IsTrue result → set_of enc.now.sets a.0 ≡ set_of enc.now.sets b.0 }
{
    enc.sets().same(a, b)
}
