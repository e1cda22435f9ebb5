//! The largest set of states from which something can be had by actions that stay in the set.

ghost use Rattle.std.specs.Prelude.{◌≡◌, ◌+◌, ◌<◌, ◌≤◌, length};
ghost use Rattle.fair_theory.specs.FairSets.{Asked, IsLargestFairSet};
ghost use Rattle.fair_plan.specs.Boards.{IsThere, Leaves, Origin, actions_of, set_in, states_in, sys_of};
ghost use Rattle.fair_plan.specs.Rounds.{AddsNear, Begins, BeginsRound, ComesTo, ComesToAll, GoesOn};
ghost use Rattle.fair_plan.specs.Rounds.{LooksForRest};
ghost use Rattle.slot_board.specs.Board.{Ends};
ghost use Rattle.fair_plan.specs.Rounds.{HasNear, HasRound, HasTargets, KeepsStaying, Pairs, PairsOne};
ghost use Rattle.fair_plan.specs.Rounds.{Passes};

use crate::places::{BEFORE, GUARD, LAST, LEFT, NEAR, PART, STAY, pairs_at};
use crate::steps::make;
use board_steps::Step;
use dd_sets::SetErr;
use encode_task::Enc;
use slot_board::{Board, Operation, Outcomes};
use task_core::ActionId;

/// Finds the states of the guard from which an action has every outcome in the states of a round, and
/// joins to those from which one can stay there.
fn pair_one(enc: &mut Enc, board: &mut Board, a: ActionId) -> Result<(), SetErr>
    requires ready { (origin : Origin) × IsThere origin (enc.old, board.old.slots.items) }
    requires action { a.0 < length enc.old.actions }
    ensures { (origin : Origin) → IsThere origin (enc.old, board.old.slots.items)
        → Leaves origin (enc.new, board.new.slots.items)
        (PairsOne origin (enc.old, board.old.slots.items) (enc.new, board.new.slots.items) a.0)
        result }
{
    let pairs = pairs_at(a);
    make(
        enc,
        board,
        &[
            Step::Lead(pairs, Outcomes::Every, a, LAST),
            Step::Combine(STAY, Operation::Join, STAY, pairs),
            Step::Combine(pairs, Operation::Meet, pairs, GUARD),
        ],
    )
}

pub(crate) fn pair_all(enc: &mut Enc, board: &mut Board, actions: u32) -> Result<(), SetErr>
    requires ready { (origin : Origin) × IsThere origin (enc.old, board.old.slots.items) }
    requires actions { actions ≡ length enc.old.actions }
    ensures { (origin : Origin) → IsThere origin (enc.old, board.old.slots.items)
        → Leaves origin (enc.new, board.new.slots.items)
        (Pairs origin (enc.old, board.old.slots.items) (enc.new, board.new.slots.items)
        (actions_of origin)) result }
{
    for a in 0..actions {
        pair_one(enc, board, ActionId(a))?;
    }
    Ok(())
}

/// Whether an action may be taken in states that aren't near.
pub(crate) fn has_rest(enc: &mut Enc, board: &mut Board, a: ActionId) -> Result<bool, SetErr>
    requires ready { (origin : Origin) × IsThere origin (enc.old, board.old.slots.items) }
    requires action { a.0 < length enc.old.actions }
    ensures { (origin : Origin) → IsThere origin (enc.old, board.old.slots.items)
        → Ends origin.start enc.new board.new.slots.items
        (LooksForRest origin (enc.old, board.old.slots.items) (enc.new, board.new.slots.items) a.0)
        result }
{
    let pairs = pairs_at(a);
    make(
        enc,
        board,
        &[Step::Combine(PART, Operation::Minus, pairs, NEAR)],
    )?;
    Ok(!board.is_empty(enc, PART))
}

/// Adds to the states that are near those from which an action that may be taken leads to one.
fn near_hits(enc: &mut Enc, board: &mut Board, a: ActionId) -> Result<(), SetErr>
    requires ready { (origin : Origin) × IsThere origin (enc.old, board.old.slots.items) }
    requires action { a.0 < length enc.old.actions }
    ensures { (origin : Origin) → IsThere origin (enc.old, board.old.slots.items)
        → Leaves origin (enc.new, board.new.slots.items)
        (AddsNear origin (enc.old, board.old.slots.items) (enc.new, board.new.slots.items) a.0)
        result }
{
    let pairs = pairs_at(a);
    make(
        enc,
        board,
        &[
            Step::Lead(PART, Outcomes::Some, a, NEAR),
            Step::Combine(PART, Operation::Meet, PART, pairs),
            Step::Combine(NEAR, Operation::Join, NEAR, PART),
        ],
    )
}

/// The same, with no preimage where no state would be new.
fn near_by(enc: &mut Enc, board: &mut Board, a: ActionId) -> Result<(), SetErr>
    requires ready { (origin : Origin) × IsThere origin (enc.old, board.old.slots.items) }
    requires action { a.0 < length enc.old.actions }
    ensures { (origin : Origin) → IsThere origin (enc.old, board.old.slots.items)
        → Leaves origin (enc.new, board.new.slots.items)
        (AddsNear origin (enc.old, board.old.slots.items) (enc.new, board.new.slots.items) a.0)
        result }
{
    if !has_rest(enc, board, a)? {
        return Ok(());
    }
    near_hits(enc, board, a)
}

fn pass(enc: &mut Enc, board: &mut Board, actions: u32) -> Result<(), SetErr>
    requires ready { (origin : Origin) × IsThere origin (enc.old, board.old.slots.items) }
    requires actions { actions ≡ length enc.old.actions }
    ensures { (origin : Origin) → IsThere origin (enc.old, board.old.slots.items)
        → Leaves origin (enc.new, board.new.slots.items)
        (Passes origin (enc.old, board.old.slots.items) (enc.new, board.new.slots.items)
        (actions_of origin)) result }
{
    make(enc, board, &[Step::Copy(BEFORE, NEAR)])?;
    for a in 0..actions {
        near_by(enc, board, ActionId(a))?;
    }
    Ok(())
}

/// Does that until none is new.
fn grow(enc: &mut Enc, board: &mut Board, actions: u32) -> Result<(), SetErr>
    requires ready { (origin : Origin) × IsThere origin (enc.old, board.old.slots.items) }
    requires actions { actions ≡ length enc.old.actions }
    ensures { (origin : Origin) → IsThere origin (enc.old, board.old.slots.items)
        → Leaves origin (enc.new, board.new.slots.items)
        (HasNear origin (enc.old, board.old.slots.items) (enc.new, board.new.slots.items)) result }
{
    pass(enc, board, actions)?;
    while !board.is_same(enc, BEFORE, NEAR) {
        pass(enc, board, actions)?;
    }
    Ok(())
}

/// Leaves the states from which a target can be come to.
fn come_to(enc: &mut Enc, board: &mut Board, actions: u32, target: usize) -> Result<(), SetErr>
    requires ready { (origin : Origin) × IsThere origin (enc.old, board.old.slots.items) }
    requires actions { actions ≡ length enc.old.actions }
    requires target { target < length board.old.slots.items }
    ensures { (origin : Origin) → IsThere origin (enc.old, board.old.slots.items)
        → Leaves origin (enc.new, board.new.slots.items)
        (ComesTo origin (enc.old, board.old.slots.items) (enc.new, board.new.slots.items) target)
        result }
{
    make(enc, board, &[Step::Copy(NEAR, target)])?;
    grow(enc, board, actions)?;
    make(
        enc,
        board,
        &[Step::Combine(LEFT, Operation::Meet, LEFT, NEAR)],
    )
}

/// Leaves the states from which each of some targets can be come to.
fn come_to_all(
    enc: &mut Enc,
    board: &mut Board,
    actions: u32,
    first: usize,
    count: u32,
) -> Result<(), SetErr>
    requires ready { (origin : Origin) × IsThere origin (enc.old, board.old.slots.items) }
    requires actions { actions ≡ length enc.old.actions }
    requires targets { first + count ≤ length board.old.slots.items }
    requires high { 8 ≤ first }
    ensures { (origin : Origin) (asked : Asked)
        → IsThere origin (enc.old, board.old.slots.items)
        → HasTargets origin asked first count (enc.old, board.old.slots.items)
        → Leaves origin (enc.new, board.new.slots.items)
        (ComesToAll origin asked first (enc.old, board.old.slots.items)
        (enc.new, board.new.slots.items) count) result }
{
    for i in 0..count {
        come_to(enc, board, actions, first + i as usize)?;
    }
    Ok(())
}

/// Leaves the states from which one can stay among those of the round, where that is asked for.
fn keep_staying(enc: &mut Enc, board: &mut Board, stays: bool) -> Result<(), SetErr>
    requires { (origin : Origin) × IsThere origin (enc.old, board.old.slots.items) }
    ensures { (origin : Origin) → IsThere origin (enc.old, board.old.slots.items)
        → Leaves origin (enc.new, board.new.slots.items)
        (KeepsStaying origin (enc.old, board.old.slots.items) (enc.new, board.new.slots.items) stays)
        result }
{
    if stays {
        return make(
            enc,
            board,
            &[Step::Combine(LEFT, Operation::Meet, LEFT, STAY)],
        );
    }
    Ok(())
}

/// Begins a round on the states that are left.
fn begin_round(enc: &mut Enc, board: &mut Board, actions: u32) -> Result<(), SetErr>
    requires ready { (origin : Origin) × IsThere origin (enc.old, board.old.slots.items) }
    requires actions { actions ≡ length enc.old.actions }
    ensures { (origin : Origin) → IsThere origin (enc.old, board.old.slots.items)
        → Leaves origin (enc.new, board.new.slots.items)
        (BeginsRound origin (enc.old, board.old.slots.items) (enc.new, board.new.slots.items))
        result }
{
    make(
        enc,
        board,
        &[
            Step::Copy(LAST, LEFT),
            Step::Combine(STAY, Operation::Minus, LAST, LAST),
        ],
    )?;
    pair_all(enc, board, actions)
}

/// What is asked of a largest set: whether one has to be able to stay in it, and the place of the first
/// of so many targets that have to be come to.
#[derive(Clone, Copy)]
pub(crate) struct Wanted {
    pub(crate) stays: bool,
    pub(crate) first: usize,
    pub(crate) count: u32,
}

/// Makes a round: of the states that are left, leaves those from which what is asked for can be had by
/// actions that stay among them.
fn keep_round(enc: &mut Enc, board: &mut Board, actions: u32, wanted: Wanted) -> Result<(), SetErr>
    requires ready { (origin : Origin) × IsThere origin (enc.old, board.old.slots.items) }
    requires actions { actions ≡ length enc.old.actions }
    requires targets { wanted.first + wanted.count ≤ length board.old.slots.items }
    requires high { 8 + actions ≤ wanted.first }
    ensures { (origin : Origin) (asked : Asked)
        → IsThere origin (enc.old, board.old.slots.items)
        → asked.stays ≡ wanted.stays → length asked.targets ≡ wanted.count
        → GoesOn origin asked wanted.first (enc.old, board.old.slots.items)
        → Leaves origin (enc.new, board.new.slots.items)
        ((set_in (enc.new, board.new.slots.items) 4 ≡ set_in (enc.old, board.old.slots.items) 5)
        × HasRound origin asked wanted.first (enc.new, board.new.slots.items)) result }
{
    begin_round(enc, board, actions)?;
    keep_staying(enc, board, wanted.stays)?;
    come_to_all(enc, board, actions, wanted.first, wanted.count)
}

/// Finds the largest set of states from which what is asked for can be had by actions that stay in
/// the set. It begins with the states that are left; the guard stands at its place.
pub(crate) fn find_largest(
    enc: &mut Enc,
    board: &mut Board,
    actions: u32,
    wanted: Wanted,
) -> Result<(), SetErr>
    requires ready { (origin : Origin) × (asked : Asked)
        × IsThere origin (enc.old, board.old.slots.items)
        × Begins origin asked wanted.stays wanted.first wanted.count (enc.old, board.old.slots.items) }
    requires actions { actions ≡ length enc.old.actions }
    requires targets { wanted.first + wanted.count ≤ length board.old.slots.items }
    requires high { 8 + actions ≤ wanted.first }
    ensures { (origin : Origin) (asked : Asked)
        → IsThere origin (enc.old, board.old.slots.items)
        → Begins origin asked wanted.stays wanted.first wanted.count (enc.old, board.old.slots.items)
        → Leaves origin (enc.new, board.new.slots.items)
        (IsLargestFairSet (sys_of origin) asked (states_in (enc.new, board.new.slots.items) 5))
        result }
{
    keep_round(enc, board, actions, wanted)?;
    while !board.is_same(enc, LEFT, LAST) {
        keep_round(enc, board, actions, wanted)?;
    }
    Ok(())
}
