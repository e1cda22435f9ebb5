//! Which states take which action. A plan is judged after it is made, so that nothing is proved of
//! which ones do.

ghost use Rattle.std.specs.Prelude.{◌≡◌, ◌+◌, ◌<◌, ◌≤◌, ⊤, length};
ghost use Rattle.ctl_syntax.specs.GoalValues.{EachInStage};
ghost use Rattle.fair_plan.specs.Boards.{IsThere, Leaves, Origin};
ghost use Rattle.fair_plan.specs.Goals.{IsChainOver, IsFairGoalOver};
ghost use Rattle.fair_plan.specs.Rounds.{Climbs, ClimbsOnce};
ghost use Rattle.ctl_syntax.specs.GoalSizes.{count_of, most_stages};
ghost use Rattle.task_core.specs.Conditions.{IsConditionOver};

use crate::fixpoints::{has_rest, pair_all};
use crate::places::{
    BEFORE, GUARD, LAST, NEAR, PART, REST, StagePlaces, met_at, pairs_at, stage_places, takers_at,
    win_at,
};
use crate::steps::{make, put_condition};
use board_steps::Step;
use ctl_syntax::{ContextGoal, UntilChain, UntilStage};
use dd_sets::SetErr;
use encode_task::Enc;
use slot_board::{Board, Operation, Outcomes};
use task_core::ActionId;

/// Has an action taken by those states without one in which it may be.
fn share_by(enc: &mut Enc, board: &mut Board, takers: usize, a: ActionId) -> Result<(), SetErr>
    requires ready { (origin : Origin) × IsThere origin (enc.old, board.old.slots.items) }
    requires action { a.0 < length enc.old.actions }
    requires places { takers + length enc.old.actions ≤ length board.old.slots.items }
    ensures { (origin : Origin) → IsThere origin (enc.old, board.old.slots.items)
        → Leaves origin (enc.new, board.new.slots.items) ⊤ result }
{
    let place = takers + a.0 as usize;
    let pairs = pairs_at(a);
    make(
        enc,
        board,
        &[
            Step::Combine(place, Operation::Meet, REST, pairs),
            Step::Combine(REST, Operation::Minus, REST, place),
        ],
    )
}

/// Gives each of the states without an action the least-numbered one that may be taken.
fn share(enc: &mut Enc, board: &mut Board, actions: u32, takers: usize) -> Result<(), SetErr>
    requires ready { (origin : Origin) × IsThere origin (enc.old, board.old.slots.items) }
    requires actions { actions ≡ length enc.old.actions }
    requires places { takers + actions ≤ length board.old.slots.items }
    ensures { (origin : Origin) → IsThere origin (enc.old, board.old.slots.items)
        → Leaves origin (enc.new, board.new.slots.items) ⊤ result }
{
    for a in 0..actions {
        share_by(enc, board, takers, ActionId(a))?;
    }
    Ok(())
}

/// Has an action taken by the states that aren't near yet, in which it may be taken, and from which it
/// may lead to one that was near before.
fn climb_hits(enc: &mut Enc, board: &mut Board, takers: usize, a: ActionId) -> Result<(), SetErr>
    requires ready { (origin : Origin) × IsThere origin (enc.old, board.old.slots.items) }
    requires action { a.0 < length enc.old.actions }
    requires places { takers + length enc.old.actions ≤ length board.old.slots.items }
    requires high { 8 ≤ takers }
    ensures { (origin : Origin) → IsThere origin (enc.old, board.old.slots.items)
        → Leaves origin (enc.new, board.new.slots.items)
        (Climbs (enc.old, board.old.slots.items) (enc.new, board.new.slots.items)) result }
{
    let place = takers + a.0 as usize;
    let pairs = pairs_at(a);
    make(
        enc,
        board,
        &[
            Step::Lead(PART, Outcomes::Some, a, BEFORE),
            Step::Combine(PART, Operation::Meet, PART, pairs),
            Step::Combine(PART, Operation::Minus, PART, NEAR),
            Step::Combine(place, Operation::Join, place, PART),
            Step::Combine(NEAR, Operation::Join, NEAR, PART),
        ],
    )
}

/// The same, with no preimage where no state would be new.
fn climb_by(enc: &mut Enc, board: &mut Board, takers: usize, a: ActionId) -> Result<(), SetErr>
    requires ready { (origin : Origin) × IsThere origin (enc.old, board.old.slots.items) }
    requires action { a.0 < length enc.old.actions }
    requires places { takers + length enc.old.actions ≤ length board.old.slots.items }
    requires high { 8 ≤ takers }
    ensures { (origin : Origin) → IsThere origin (enc.old, board.old.slots.items)
        → Leaves origin (enc.new, board.new.slots.items)
        (Climbs (enc.old, board.old.slots.items) (enc.new, board.new.slots.items)) result }
{
    if !has_rest(enc, board, a)? {
        return Ok(());
    }
    climb_hits(enc, board, takers, a)
}

fn climb_once(enc: &mut Enc, board: &mut Board, actions: u32, takers: usize) -> Result<(), SetErr>
    requires ready { (origin : Origin) × IsThere origin (enc.old, board.old.slots.items) }
    requires actions { actions ≡ length enc.old.actions }
    requires places { takers + actions ≤ length board.old.slots.items }
    requires high { 8 ≤ takers }
    ensures { (origin : Origin) → IsThere origin (enc.old, board.old.slots.items)
        → Leaves origin (enc.new, board.new.slots.items)
        (ClimbsOnce (enc.old, board.old.slots.items) (enc.new, board.new.slots.items)) result }
{
    make(enc, board, &[Step::Copy(BEFORE, NEAR)])?;
    for a in 0..actions {
        climb_by(enc, board, takers, ActionId(a))?;
    }
    Ok(())
}

/// Has each state from which a target at a place can be come to take an action that may lead to one
/// from which the way is shorter.
fn climb(
    enc: &mut Enc,
    board: &mut Board,
    actions: u32,
    target: usize,
    takers: usize,
) -> Result<(), SetErr>
    requires ready { (origin : Origin) × IsThere origin (enc.old, board.old.slots.items) }
    requires actions { actions ≡ length enc.old.actions }
    requires places { takers + actions ≤ length board.old.slots.items }
    requires high { 8 ≤ takers }
    requires target { target < length board.old.slots.items }
    ensures { (origin : Origin) → IsThere origin (enc.old, board.old.slots.items)
        → Leaves origin (enc.new, board.new.slots.items) ⊤ result }
{
    make(enc, board, &[Step::Copy(NEAR, target)])?;
    climb_once(enc, board, actions, takers)?;
    while !board.is_same(enc, BEFORE, NEAR) {
        climb_once(enc, board, actions, takers)?;
    }
    Ok(())
}

/// Finds the states in which each action may be taken, with every outcome in the states at a place.
fn pair_within(enc: &mut Enc, board: &mut Board, actions: u32, win: usize) -> Result<(), SetErr>
    requires ready { (origin : Origin) × IsThere origin (enc.old, board.old.slots.items) }
    requires actions { actions ≡ length enc.old.actions }
    requires place { win < length board.old.slots.items }
    ensures { (origin : Origin) → IsThere origin (enc.old, board.old.slots.items)
        → Leaves origin (enc.new, board.new.slots.items) ⊤ result }
{
    make(enc, board, &[Step::Copy(LAST, win)])?;
    pair_all(enc, board, actions)
}

/// Has the actions taken that keep the condition at the end of an until-chain.
fn take_end(
    enc: &mut Enc,
    board: &mut Board,
    actions: u32,
    win: usize,
    takers: usize,
) -> Result<(), SetErr>
    requires ready { (origin : Origin) × IsThere origin (enc.old, board.old.slots.items) }
    requires actions { actions ≡ length enc.old.actions }
    requires places { takers + actions ≤ length board.old.slots.items }
    requires place { win < length board.old.slots.items }
    ensures { (origin : Origin) → IsThere origin (enc.old, board.old.slots.items)
        → Leaves origin (enc.new, board.new.slots.items) ⊤ result }
{
    make(enc, board, &[Step::Whole(GUARD), Step::Copy(REST, win)])?;
    pair_within(enc, board, actions, win)?;
    share(enc, board, actions, takers)
}

/// Has the actions towards a stage taken.
fn take_stage(
    enc: &mut Enc,
    board: &mut Board,
    actions: u32,
    stage: &UntilStage,
    at: StagePlaces,
) -> Result<(), SetErr>
    requires ready { (origin : Origin) × IsThere origin (enc.old, board.old.slots.items) }
    requires actions { actions ≡ length enc.old.actions }
    requires stage { EachInStage (IsConditionOver enc.old.sets.vars) stage.now }
    requires places { at.takers + actions ≤ length board.old.slots.items }
    requires high { 8 ≤ at.takers }
    requires win { at.win < length board.old.slots.items }
    requires met { at.met < length board.old.slots.items }
    ensures { (origin : Origin) → IsThere origin (enc.old, board.old.slots.items)
        → Leaves origin (enc.new, board.new.slots.items) ⊤ result }
{
    put_condition(enc, board, GUARD, &stage.guard)?;
    pair_within(enc, board, actions, at.win)?;
    climb(enc, board, actions, at.met, at.takers)
}

/// Has the actions towards all stages of an until-chain taken, and those at its end.
fn take_chain(
    enc: &mut Enc,
    board: &mut Board,
    actions: u32,
    chain: &UntilChain,
    count: u32,
) -> Result<(), SetErr>
    requires ready { (origin : Origin) × IsThere origin (enc.old, board.old.slots.items)
        × (origin.count ≡ count) }
    requires actions { actions ≡ length enc.old.actions }
    requires chain { IsChainOver enc.old.sets.vars chain.now }
    requires count { count ≡ length chain.now.stages.items }
    ensures { (origin : Origin) → IsThere origin (enc.old, board.old.slots.items)
        → Leaves origin (enc.new, board.new.slots.items) ⊤ result }
{
    for i in 0..count {
        let at = stage_places(actions, count, i);
        take_stage(enc, board, actions, &chain.stages[i as usize], at)?;
    }
    take_end(
        enc,
        board,
        actions,
        win_at(actions, count),
        takers_at(actions, count, count),
    )
}

/// Has the actions towards a visit taken, and where it is made those that go on among the states of
/// the plan.
fn take_visit(
    enc: &mut Enc,
    board: &mut Board,
    actions: u32,
    met: usize,
    takers: usize,
) -> Result<(), SetErr>
    requires ready { (origin : Origin) × IsThere origin (enc.old, board.old.slots.items) }
    requires actions { actions ≡ length enc.old.actions }
    requires places { takers + actions ≤ length board.old.slots.items }
    requires high { 8 ≤ takers }
    requires met { met < length board.old.slots.items }
    ensures { (origin : Origin) → IsThere origin (enc.old, board.old.slots.items)
        → Leaves origin (enc.new, board.new.slots.items) ⊤ result }
{
    make(enc, board, &[Step::Copy(REST, met)])?;
    share(enc, board, actions, takers)?;
    climb(enc, board, actions, met, takers)
}

/// Has the actions towards all visits of a patrol taken.
fn take_patrol(enc: &mut Enc, board: &mut Board, actions: u32, count: u32) -> Result<(), SetErr>
    requires ready { (origin : Origin) × IsThere origin (enc.old, board.old.slots.items)
        × (origin.count ≡ count) }
    requires actions { actions ≡ length enc.old.actions }
    requires count { count ≤ most_stages }
    ensures { (origin : Origin) → IsThere origin (enc.old, board.old.slots.items)
        → Leaves origin (enc.new, board.new.slots.items) ⊤ result }
{
    make(enc, board, &[Step::Whole(GUARD)])?;
    pair_within(enc, board, actions, win_at(actions, 0))?;
    for i in 0..count {
        take_visit(
            enc,
            board,
            actions,
            met_at(actions, count, i),
            takers_at(actions, count, i),
        )?;
    }
    Ok(())
}

/// Has all actions of a plan for a goal taken.
pub(crate) fn take_goal(
    enc: &mut Enc,
    board: &mut Board,
    actions: u32,
    goal: &ContextGoal,
    count: u32,
) -> Result<(), SetErr>
    requires ready { (origin : Origin) × IsThere origin (enc.old, board.old.slots.items)
        × (origin.count ≡ count) }
    requires actions { actions ≡ length enc.old.actions }
    requires goal { IsFairGoalOver enc.old.sets.vars goal.now }
    requires count { count ≡ count_of goal.now }
    ensures { (origin : Origin) → IsThere origin (enc.old, board.old.slots.items)
        → Leaves origin (enc.new, board.new.slots.items) ⊤ result }
{
    match goal {
        ContextGoal::Until(chain) => take_chain(enc, board, actions, chain, count),
        ContextGoal::Patrol(_) => take_patrol(enc, board, actions, count),
    }
}
