//! The rules of a plan, from the sets in which the actions are taken.

ghost use Rattle.std.specs.Prelude.{◌≡◌, [], IfErr, IfOk, length, map};
ghost use Rattle.std.specs.List.{flat_map, range_with_len};
ghost use Rattle.dd_sets.specs.Frames.{Owns};
ghost use Rattle.dd_sets.specs.LiveSets.{LiveSets};
ghost use Rattle.plan_rules.specs.Rules.{rule_of};
ghost use Rattle.slot_board.specs.Board.{IsWorking, Working};
ghost use Rattle.reach_plan.specs.SetRules.{rules_of_place};

use dd_sets::{Listing, SetErr};
use encode_task::Enc;
use plan_rules::Rule;
use slot_board::{Board, add_rules};
use std::alloc::Global;
use task_core::ActionId;

/// The actions in rising number, and for each the cubes of the set at its place.
fn rules_of_board(
    alloc: Global,
    enc: &Enc,
    board: &Board,
    actions: u32,
) -> Result<Vec<Rule>, SetErr>
    requires working { IsWorking enc.now board.now.slots.items }
    requires places { length board.now.slots.items ≡ actions }
    ensures rules { IfOk result (λ rules. map rule_of rules.items
        ≡ flat_map (rules_of_place enc.now.sets board.now.slots.items)
        (range_with_len 0 (length board.now.slots.items))) }
    ensures never_full { IfErr result (λ e. e ≡ SetErr.Memory) }
{
    let mut rules = Vec::new(alloc);
    let mut listing = Listing::new();
    for a in 0..actions {
        let cubes = board.cubes(enc, a as usize, &mut listing)?;
        add_rules(&mut rules, ActionId(a), cubes)?;
    }
    Ok(rules)
}

/// The rules for the sets of a board, whose slots are ended.
pub(crate) fn write_rules(
    alloc: Global,
    enc: &mut Enc,
    board: Board,
    actions: u32,
) -> Result<Vec<Rule>, SetErr>
    requires working { IsWorking enc.old board.slots.items }
    requires places { length board.slots.items ≡ actions }
    ensures rules { IfOk result (λ rules. map rule_of rules.items
        ≡ flat_map (rules_of_place enc.old.sets board.slots.items)
        (range_with_len 0 (length board.slots.items))) }
    ensures slots { (before : LiveSets) → Working before enc.old.sets board.slots.items
        → Owns before enc.new.sets [] }
    ensures never_full { IfErr result (λ e. e ≡ SetErr.Memory) }
    ensures same_slots { enc.new ≡ record enc.old { sets = enc.new.sets } }
{
    let mut board = board;
    let rules = rules_of_board(alloc, enc, &board, actions);
    board.close(enc);
    Ok(rules?)
}
