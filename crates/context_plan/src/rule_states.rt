//! The states of the rules for one context and one next context.

ghost use Rattle.std.specs.Prelude.{◌≡◌, ◌+◌, ◌≤◌, length};
ghost use Rattle.plan_theory.specs.UntilChains.{UntilSets};
ghost use Rattle.context_plan.specs.Scenes.{IsReady, Left, Start};
ghost use Rattle.context_plan.specs.Sizes.{EverySetIsSmall};
ghost use Rattle.context_plan.specs.Steps.{Chooses};
ghost use Rattle.context_plan.specs.Tables.{HasRuleStates, HasTable};
ghost use Rattle.ctl_syntax.specs.GoalSizes.{most_stages};

use crate::places::{NEW, takers_at};
use crate::rules::{Advance, Chain, turn_states};
use dd_sets::SetErr;
use encode_task::Enc;
use slot_board::{Board, Operation};

/// Puts at its place, for each action, the states in which the printed plan takes it in a context
/// and goes on in a next one, which is not before the context.
///
/// `rule_place` tells the place of an action. The board is that of `until_takers`, and stays it. The
/// sets are the meets of two, and as many as there are actions: the width of the search has to be one
/// by which every set is small.
pub fn rule_sets(
    enc: &mut Enc,
    board: &mut Board,
    counts: Chain,
    advance: Advance,
) -> Result<(), SetErr>
    requires ready { (start : Start) × (chain : UntilSets) × (start.stages ≡ counts.stages)
        × HasTable start (enc.old, board.old.slots.items) chain × EverySetIsSmall start }
    requires actions { counts.actions ≡ length enc.old.actions }
    requires few { counts.stages ≤ most_stages }
    requires context { advance.stage ≤ advance.next }
    requires next { advance.next ≤ counts.stages }
    ensures { (start : Start) (chain : UntilSets) → start.stages ≡ counts.stages
        → HasTable start (enc.old, board.old.slots.items) chain → EverySetIsSmall start
        → Left start (enc.new, board.new.slots.items)
        (HasRuleStates start (enc.new, board.new.slots.items) chain advance.stage advance.next)
        result }
{
    let takers = takers_at(counts.actions, counts.stages, advance.next);
    let place = takers_at(counts.actions, counts.stages, counts.stages + 1);
    turn_states(enc, board, counts.stages, advance.stage, advance.next)?;
    choose_all(enc, board, counts.actions, takers, place)
}

/// Puts at a place, for each action, the chosen states that take it.
fn choose_all(
    enc: &mut Enc,
    board: &mut Board,
    actions: u32,
    takers: usize,
    place: usize,
) -> Result<(), SetErr>
    requires ready { (start : Start) × IsReady start (enc.old, board.old.slots.items)
        × EverySetIsSmall start }
    requires actions { actions ≡ length enc.old.actions }
    requires places { place + actions ≤ length board.old.slots.items }
    requires apart { takers + actions ≤ place }
    requires high { 8 ≤ takers }
    ensures { (start : Start) → IsReady start (enc.old, board.old.slots.items)
        → EverySetIsSmall start
        → Left start (enc.new, board.new.slots.items)
        (Chooses start (enc.old, board.old.slots.items) (enc.new, board.new.slots.items) takers
        place actions) result }
{
    for a in 0..actions {
        let here = a as usize;
        board.combine(enc, place + here, Operation::Meet, NEW, takers + here)?;
    }
    Ok(())
}
