//! The states from which the stages of an until-chain can be met, one after another from the last one
//! back, and those from which the visits of a patrol can be made again and again.

ghost use Rattle.std.specs.Prelude.{◌≡◌, ◌+◌, ◌<◌, ◌≤◌, [], ◌∷◌, All, List, length, map};
ghost use Rattle.ctl_syntax.specs.Conditions.{states_of};
ghost use Rattle.ctl_syntax.specs.GoalValues.{EachInStage, stage_sets};
ghost use Rattle.fair_theory.specs.FairPlans.{sets_of_goal};
ghost use Rattle.fair_theory.specs.FairSets.{IsChainWin, IsFairWin, IsLargestFairSet, patrol_asks};
ghost use Rattle.plan_theory.specs.UntilChains.{SetStage};
ghost use Rattle.task_core.specs.Cubes.{SetOfVectors};
ghost use Rattle.fair_plan.specs.Boards.{IsThere, Leaves, Origin, actions_of, states_in, sys_of};
ghost use Rattle.fair_plan.specs.Goals.{IsChainOver, IsFairGoalOver, IsPatrolOver};
ghost use Rattle.fair_plan.specs.Places.{win_place};
ghost use Rattle.fair_plan.specs.Rounds.{AimsAt, HasVisits};
ghost use Rattle.ctl_syntax.specs.GoalSizes.{count_of};
ghost use Rattle.task_core.specs.Conditions.{IsConditionOver};

use crate::fixpoints::{Wanted, find_largest};
use crate::places::{GUARD, LEFT, StagePlaces, met_at, stage_places, win_at};
use crate::steps::{make, put_condition};
use board_steps::Step;
use ctl_syntax::{ContextGoal, UntilChain, UntilStage};
use dd_sets::SetErr;
use encode_task::Enc;
use slot_board::{Board, Operation};
use task_core::Cond;

/// Finds the states from which a condition can be kept.
fn win_end(
    enc: &mut Enc,
    board: &mut Board,
    actions: u32,
    keep: &Cond,
    win: usize,
) -> Result<(), SetErr>
    requires ready { (origin : Origin) × IsThere origin (enc.old, board.old.slots.items) }
    requires actions { actions ≡ length enc.old.actions }
    requires keep { IsConditionOver enc.old.sets.vars keep.now }
    requires place { win < length board.old.slots.items }
    requires high { 8 + actions ≤ win }
    ensures { (origin : Origin) → IsThere origin (enc.old, board.old.slots.items)
        → Leaves origin (enc.new, board.new.slots.items)
        (IsChainWin (sys_of origin) (states_of keep.now) []
        (states_in (enc.new, board.new.slots.items) win)) result }
{
    put_condition(enc, board, LEFT, keep)?;
    make(enc, board, &[Step::Whole(GUARD)])?;
    let wanted = Wanted {
        stays: true,
        first: win,
        count: 0,
    };
    find_largest(enc, board, actions, wanted)?;
    make(enc, board, &[Step::Copy(win, LEFT)])
}

/// Puts the guard of a stage at its place, and where the stage is met: where its target holds and the
/// stages after it can be met.
fn aim_at(
    enc: &mut Enc,
    board: &mut Board,
    stage: &UntilStage,
    at: StagePlaces,
) -> Result<(), SetErr>
    requires ready { (origin : Origin) × IsThere origin (enc.old, board.old.slots.items) }
    requires stage { EachInStage (IsConditionOver enc.old.sets.vars) stage.now }
    requires place { at.met < length board.old.slots.items }
    requires later { at.next < at.met }
    requires high { 8 < at.next }
    ensures { (origin : Origin) → IsThere origin (enc.old, board.old.slots.items)
        → Leaves origin (enc.new, board.new.slots.items)
        (AimsAt origin (stage_sets stage.now) (enc.old, board.old.slots.items)
        (enc.new, board.new.slots.items) at.next at.met) result }
{
    put_condition(enc, board, GUARD, &stage.guard)?;
    put_condition(enc, board, at.met, &stage.target)?;
    make(
        enc,
        board,
        &[
            Step::Combine(at.met, Operation::Meet, at.met, at.next),
            Step::Whole(LEFT),
        ],
    )
}

/// Finds the states from which a stage can be met.
fn win_stage(
    enc: &mut Enc,
    board: &mut Board,
    actions: u32,
    stage: &UntilStage,
    at: StagePlaces,
) -> Result<(), SetErr>
    requires ready { (origin : Origin) × IsThere origin (enc.old, board.old.slots.items) }
    requires actions { actions ≡ length enc.old.actions }
    requires stage { EachInStage (IsConditionOver enc.old.sets.vars) stage.now }
    requires place { at.met < length board.old.slots.items }
    requires later { at.next < at.met }
    requires own { at.win < at.next }
    requires high { 8 + actions ≤ at.win }
    ensures { (origin : Origin) (keep : SetOfVectors) (rest : List SetStage)
        → IsThere origin (enc.old, board.old.slots.items)
        → IsChainWin (sys_of origin) keep rest
        (states_in (enc.old, board.old.slots.items) at.next)
        → Leaves origin (enc.new, board.new.slots.items)
        (IsChainWin (sys_of origin) keep (stage_sets stage.now ∷ rest)
        (states_in (enc.new, board.new.slots.items) at.win)) result }
{
    aim_at(enc, board, stage, at)?;
    let wanted = Wanted {
        stays: false,
        first: at.met,
        count: 1,
    };
    find_largest(enc, board, actions, wanted)?;
    make(enc, board, &[Step::Copy(at.win, LEFT)])
}

/// Finds the states of all contexts of an until-chain.
fn win_chain(
    enc: &mut Enc,
    board: &mut Board,
    actions: u32,
    chain: &UntilChain,
    count: u32,
) -> Result<(), SetErr>
    requires ready { (origin : Origin) × IsThere origin (enc.old, board.old.slots.items)
        × (origin.count ≡ count) }
    requires actions { actions ≡ length enc.old.actions }
    requires chain { IsChainOver enc.old.sets.vars chain.now }
    requires count { count ≡ length chain.now.stages.items }
    ensures { (origin : Origin) → IsThere origin (enc.old, board.old.slots.items)
        → origin.count ≡ count → Leaves origin (enc.new, board.new.slots.items)
        (IsChainWin (sys_of origin) (states_of chain.now.keep)
        (map stage_sets chain.now.stages.items) (states_in (enc.new, board.new.slots.items)
        (win_place (actions_of origin) 0))) result }
{
    win_end(enc, board, actions, &chain.keep, win_at(actions, count))?;
    for i in (0..count).rev() {
        let at = stage_places(actions, count, i);
        win_stage(enc, board, actions, &chain.stages[i as usize], at)?;
    }
    Ok(())
}

/// Puts the states of each visit at its place.
fn put_visits(enc: &mut Enc, board: &mut Board, visits: &[Cond], first: usize) -> Result<(), SetErr>
    requires ready { (origin : Origin) × IsThere origin (enc.old, board.old.slots.items) }
    requires visits { All (IsConditionOver enc.old.sets.vars) visits.now }
    requires places { first + length visits.now ≤ length board.old.slots.items }
    ensures { (origin : Origin) → IsThere origin (enc.old, board.old.slots.items)
        → Leaves origin (enc.new, board.new.slots.items)
        (HasVisits origin visits.now first (enc.new, board.new.slots.items) (length visits.now))
        result }
{
    for i in 0..visits.len() {
        put_condition(enc, board, first + i, &visits[i])?;
    }
    Ok(())
}

/// Finds the states from which the visits of a patrol can be made again and again.
fn win_patrol(
    enc: &mut Enc,
    board: &mut Board,
    actions: u32,
    visits: &[Cond],
    count: u32,
) -> Result<(), SetErr>
    requires ready { (origin : Origin) × IsThere origin (enc.old, board.old.slots.items)
        × (origin.count ≡ count) }
    requires actions { actions ≡ length enc.old.actions }
    requires visits { IsPatrolOver enc.old.sets.vars visits.now }
    requires count { count ≡ length visits.now }
    ensures { (origin : Origin) → IsThere origin (enc.old, board.old.slots.items)
        → origin.count ≡ count → Leaves origin (enc.new, board.new.slots.items)
        (IsLargestFairSet (sys_of origin) (patrol_asks (map states_of visits.now))
        (states_in (enc.new, board.new.slots.items) (win_place (actions_of origin) 0))) result }
{
    let first = met_at(actions, count, 0);
    put_visits(enc, board, visits, first)?;
    make(enc, board, &[Step::Whole(GUARD), Step::Whole(LEFT)])?;
    let wanted = Wanted {
        stays: true,
        first,
        count,
    };
    find_largest(enc, board, actions, wanted)?;
    make(enc, board, &[Step::Copy(win_at(actions, 0), LEFT)])
}

/// Finds the states from which a goal can be had.
pub(crate) fn win_goal(
    enc: &mut Enc,
    board: &mut Board,
    actions: u32,
    goal: &ContextGoal,
    count: u32,
) -> Result<(), SetErr>
    requires ready { (origin : Origin) × IsThere origin (enc.old, board.old.slots.items)
        × (origin.count ≡ count) }
    requires actions { actions ≡ length enc.old.actions }
    requires goal { IsFairGoalOver enc.old.sets.vars goal.now }
    requires count { count ≡ count_of goal.now }
    ensures { (origin : Origin) → IsThere origin (enc.old, board.old.slots.items)
        → origin.count ≡ count → Leaves origin (enc.new, board.new.slots.items)
        (IsFairWin (sys_of origin) (sets_of_goal goal.now)
        (states_in (enc.new, board.new.slots.items) (win_place (actions_of origin) 0))) result }
{
    match goal {
        ContextGoal::Until(chain) => win_chain(enc, board, actions, chain, count),
        ContextGoal::Patrol(visits) => win_patrol(enc, board, actions, visits.as_slice(), count),
    }
}
