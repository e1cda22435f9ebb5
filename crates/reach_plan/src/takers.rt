//! For each action the set in which it is taken.

ghost use Rattle.std.specs.Prelude.{◌≡◌, ℕ, ◌+◌, [], IfOk, IsErrOf, IsSome, OnErr, length};
ghost use Rattle.dd_sets.specs.Frames.{Owns};
ghost use Rattle.dd_sets.specs.Rooms.{NoRoom};
ghost use Rattle.encode_task.specs.Made.{MadeOf};
ghost use Rattle.preimage.specs.Preimages.{OfSomeTask};
ghost use Rattle.slot_board.specs.Board.{Working};
ghost use Rattle.task_core.specs.Tasks.{action_count, system_of};
ghost use Rattle.task_core.specs.declared.tasks.Task.{Task as TaskOf};
ghost use Rattle.plan_theory.specs.Classes.{IsFoundByLayers};
ghost use Rattle.reach_plan.specs.Steps.{LeadToLast};
ghost use Rattle.reach_plan.specs.Takers.{AreFound, HoldTakers, IsDecided, slots_of};
ghost use Rattle.reach_plan.specs.WorkingSets.{BoundsReachSets};

use crate::retrace::retrace;
use crate::search::{Aim, search_back};
use dd_sets::SetErr;
use encode_task::{Enc, made_is_kept};
use plan_rules::Class;
use slot_board::{Board, Step};
use std::alloc::Global;
use task_core::Task;

/// What a search for the sets of a plan's actions found.
#[derive(Drop)]
pub enum Takers {
    /// A slot for each action, in the order of their numbers, with the set in which it is taken.
    Board(Board),
    /// The task has no solution.
    NoPlan,
}

/// Whether some layer holds every initial state; if one does, with the steps that lead to the first
/// such layer.
fn is_covered(
    alloc: Global,
    enc: &mut Enc,
    class: Class,
    steps: &mut Vec<Step>,
    actions: u32,
) -> Result<bool, SetErr>
    requires class { IsFoundByLayers class }
    requires goal { IsSome enc.old.goal }
    requires made { OfSomeTask enc.old }
    requires actions { actions ≡ length enc.old.actions }
    requires no_steps { steps.old.items ≡ [] }
    ensures answer { (task : TaskOf) → MadeOf task enc.old
        → IfOk result (IsDecided class task steps.new.items) }
    ensures full { IsErrOf result SetErr.Full → (task : TaskOf) → MadeOf task enc.old
        → (width : ℕ) → BoundsReachSets width class task
        → NoRoom width (actions + 24) 16 enc.old.sets enc.new.sets }
    ensures slots { Owns enc.old.sets enc.new.sets [] }
    ensures same_slots { enc.new ≡ record enc.old { sets = enc.new.sets } }
{
    let mut board = Board::new(alloc, enc, 4)?;
    let aim = Aim { class, actions };
    let covered = search_back(alloc, enc, &mut board, aim, steps);
    board.close(enc);
    covered
}

/// What each action takes, where some layer holds every initial state and these steps lead to the
/// first such layer.
fn take_all(
    alloc: Global,
    enc: &mut Enc,
    class: Class,
    steps: &[Step],
    actions: u32,
) -> Result<Board, SetErr>
    requires goal { IsSome enc.old.goal }
    requires last { (task : TaskOf) × MadeOf task enc.old × LeadToLast class task steps.now }
    requires actions { actions ≡ length enc.old.actions }
    ensures answer { (task : TaskOf) → MadeOf task enc.old → LeadToLast class task steps.now
        → IfOk result (λ board. HoldTakers class task enc.new.sets board.slots.items) }
    ensures full { IsErrOf result SetErr.Full → (task : TaskOf) → MadeOf task enc.old
        → LeadToLast class task steps.now → (width : ℕ) → BoundsReachSets width class task
        → NoRoom width (actions + 24) 16 enc.old.sets enc.new.sets }
    ensures slots { IfOk result (λ board. Working enc.old.sets enc.new.sets board.slots.items) }
    ensures refused { OnErr result (Owns enc.old.sets enc.new.sets []) }
    ensures same_slots { enc.new ≡ record enc.old { sets = enc.new.sets } }
{
    let takers = actions as usize;
    let mut board = Board::new(alloc, enc, takers + 4)?;
    match retrace(enc, &mut board, class, takers, steps) {
        Ok(()) => {
            board.cut(enc, takers);
            Ok(board)
        },
        Err(refusal) => {
            board.close(enc);
            Err(refusal)
        },
    }
}

/// For each action the set in which the plan of a class takes it, weak or strong, in a slot; or
/// that there is no plan: no state-action table is a solution. The slots are the caller's to end.
///
/// It goes back from the goal layer by layer, each with the states from which some action leads
/// into the layer before as the class wants it, until a layer holds every initial state (Cimatti,
/// Pistore, Roveri and Traverso 2003). Each state of a layer takes the least-numbered action that
/// leads so into the layer before it; a state in which the goal holds takes none. What each action
/// takes is found in a second pass, where there is a plan, which makes the steps that changed
/// something once more. At most as many slots as there are actions and 24 are live in between, each
/// with a set that is small by any width by which the working sets are, but for 16 at most.
pub fn find_takers(
    alloc: Global,
    task: &Task,
    enc: &mut Enc,
    class: Class,
) -> Result<Takers, SetErr>
    requires class { IsFoundByLayers class }
    requires made { MadeOf task.now enc.old }
    requires goal { IsSome task.now.goal }
    ensures found { IfOk result (AreFound class task.now enc.new.sets) }
    ensures full { IsErrOf result SetErr.Full → (width : ℕ) → BoundsReachSets width class task.now
        → NoRoom width (action_count task.now + 24) 16 enc.old.sets enc.new.sets }
    ensures slots { IfOk result (λ found. Working enc.old.sets enc.new.sets (slots_of found)) }
    ensures refused { OnErr result (Owns enc.old.sets enc.new.sets []) }
    ensures same_slots { enc.new ≡ record enc.old { sets = enc.new.sets } }
    ensures made { (task : TaskOf) → MadeOf task enc.old → MadeOf task enc.new }
{
    made_is_kept();
    let actions = task.actions.len() as u32;
    let mut steps = Vec::new(alloc);
    if !is_covered(alloc, enc, class, &mut steps, actions)? {
        return Ok(Takers::NoPlan);
    }
    let board = take_all(alloc, enc, class, &steps, actions)?;
    Ok(Takers::Board(board))
}
