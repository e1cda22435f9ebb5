//! Certificates that there is no strong cyclic plan.

ghost use Rattle.std.specs.Prelude.{◌≡◌, ℕ, List, suc, ◌+◌, ◌*◌, ◌++◌, [], ◌∷◌, map, length, Some};
ghost use Rattle.std.specs.Prelude.{IsErrOf, IsSome, IfErr, IfNone, IfOk, IfSome, OnOk};
ghost use Rattle.dd_sets.specs.Frames.{Owns};
ghost use Rattle.dd_sets.specs.Rooms.{NoRoom};
ghost use Rattle.dd_sets.specs.declared.slots.SetId.{SetId as SlotId};
ghost use Rattle.encode_task.specs.Made.{MadeOf};
ghost use Rattle.encode_task.specs.Slots.{Encoded};
ghost use Rattle.plan_certs.specs.Named.{plain_certificate, set_of};
ghost use Rattle.plan_theory.specs.PairRounds.{round as round_of};
ghost use Rattle.slot_board.specs.Board.{Left, Start};
ghost use Rattle.task_core.specs.Cubes.{cubes_of};
ghost use Rattle.task_core.specs.Solutions.{HasNoSolution};
ghost use Rattle.task_core.specs.Tasks.{action_count, fluent_count, system_of};
ghost use Rattle.task_core.specs.declared.classes.Class.TheVariants.{Cyclic};
ghost use Rattle.task_core.specs.declared.tasks.Task.{Task as TaskOf};
ghost use Rattle.cyclic_plan.specs.Certificates.{CertificateEnds, Certifies, HasAllSets};
ghost use Rattle.cyclic_plan.specs.Certificates.{HasLost, HasSolution};
ghost use Rattle.plan_certs.specs.Printed.{IsPrinted, lost_set};
ghost use Rattle.cyclic_plan.specs.Stages.{HasNothing, HasRounds};
ghost use Rattle.cyclic_plan.specs.WorkingSets.{BoundsCyclicSets};

use crate::plan::{begin, places};
use crate::rounds::{LEFT, NEAR, NEW, next_round, round};
use dd_sets::{SetErr, SetId};
use encode_task::Enc;
use plan_certs::{Certificate, StateSet};
use plan_rules::Class;
use slot_board::{Board, Operation, Step};
use std::alloc::Global;
use task_core::Task;

/// Finds the states that the first round loses.
fn first_lost(enc: &mut Enc, board: &mut Board) -> Result<(), SetErr>
    requires ready { (start : Start) × HasRounds start enc.old board.old.slots.items 0 }
    ensures { (start : Start) → HasRounds start enc.old board.old.slots.items 0
        → Left start enc.new board.new.slots.items
        (HasLost start enc.new board.new.slots.items 0) result }
{
    let space = enc.space();
    board.copy(enc, NEW, space)?;
    board.combine(enc, NEW, Operation::Minus, NEW, NEAR)
}

/// Finds the states that a later round loses.
fn later_lost(enc: &mut Enc, board: &mut Board) -> Result<(), SetErr>
    requires ready { (start : Start) × (r : ℕ)
        × HasRounds start enc.old board.old.slots.items (suc r) }
    ensures { (start : Start) (r : ℕ) → HasRounds start enc.old board.old.slots.items (suc r)
        → Left start enc.new board.new.slots.items
        (HasLost start enc.new board.new.slots.items (suc r)) result }
{
    board.combine(enc, NEW, Operation::Minus, LEFT, NEAR)
}

/// One round more, and the states that it loses.
fn lose_more(
    alloc: Global,
    enc: &mut Enc,
    board: &mut Board,
    steps: &mut Vec<Step>,
    actions: u32,
) -> Result<(), SetErr>
    requires ready { (start : Start) × (r : ℕ)
        × HasLost start enc.old board.old.slots.items r }
    requires actions { actions ≡ length enc.old.actions }
    ensures { (start : Start) (r : ℕ) → HasLost start enc.old board.old.slots.items r
        → Left start enc.new board.new.slots.items
        (HasLost start enc.new board.new.slots.items (suc r)) result }
{
    next_round(alloc, enc, board, steps, actions)?;
    later_lost(enc, board)
}

/// The first round, and the states that it loses.
fn lose_first(
    alloc: Global,
    enc: &mut Enc,
    board: &mut Board,
    goal: SetId,
    actions: u32,
) -> Result<(), SetErr>
    requires ready { (start : Start) × HasNothing start enc.old board.old.slots.items }
    requires goal { enc.old.goal ≡ Some goal }
    requires actions { actions ≡ length enc.old.actions }
    ensures { (start : Start) → HasNothing start enc.old board.old.slots.items
        → Left start enc.new board.new.slots.items
        (HasLost start enc.new board.new.slots.items 0) result }
{
    begin(enc, board, goal)?;
    let mut steps = Vec::new(alloc);
    round(alloc, enc, board, &mut steps, actions)?;
    first_lost(enc, board)
}

/// Adds the cubes of what a round lost.
fn add_set(enc: &Enc, board: &Board, sets: &mut Vec<StateSet>) -> Result<(), SetErr>
    requires ready { (start : Start) × (r : ℕ)
        × HasLost start enc.now board.now.slots.items r }
    ensures added { (start : Start) (r : ℕ) → HasLost start enc.now board.now.slots.items r
        → OnOk result (map set_of sets.new.items ≡ map set_of sets.old.items
        ++ cubes_of (fluent_count start.task) (lost_set (system_of start.task) r) ∷ []) }
    ensures never_full { IfErr result (λ e. e ≡ SetErr.Memory) }
{
    let cubes = board.only_cubes(enc, NEW)?;
    push_set(sets, StateSet { cubes })?;
    Ok(())
}

/// Adds a set behind the others.
fn push_set(sets: &mut Vec<StateSet>, set: StateSet) -> Result<(), SetErr>
    ensures pushed { OnOk result (sets.new.items ≡ sets.old.items ++ set ∷ []) }
    ensures never_full { IfErr result (λ e. e ≡ SetErr.Memory) }
{
    match sets.push(set) {
        Ok(()) => Ok(()),
        Err(_) => Err(SetErr::Memory),
    }
}

/// The sets of states that the rounds lose, until one loses none.
fn all_sets(
    alloc: Global,
    enc: &mut Enc,
    board: &mut Board,
    actions: u32,
    sets: &mut Vec<StateSet>,
) -> Result<(), SetErr>
    requires ready { (start : Start) × HasLost start enc.old board.old.slots.items 0 }
    requires actions { actions ≡ length enc.old.actions }
    requires sets { sets.old.items ≡ [] }
    ensures { (start : Start) → HasLost start enc.old board.old.slots.items 0
        → Left start enc.new board.new.slots.items
        (HasAllSets start enc.new board.new.slots.items sets.new.items) result }
{
    let mut steps = Vec::new(alloc);
    while !board.is_empty(enc, NEW) {
        add_set(enc, board, sets)?;
        lose_more(alloc, enc, board, &mut steps, actions)?;
    }
    Ok(())
}

/// Searches with the slots of a board, which stay: the sets of the certificate, or none where there
/// is a plan.
fn find_sets(
    alloc: Global,
    enc: &mut Enc,
    board: &mut Board,
    goal: SetId,
    actions: u32,
) -> Result<Option<Vec<StateSet>>, SetErr>
    requires ready { (start : Start) × HasNothing start enc.old board.old.slots.items }
    requires goal { enc.old.goal ≡ Some goal }
    requires actions { actions ≡ length enc.old.actions }
    ensures { (start : Start) → HasNothing start enc.old board.old.slots.items
        → CertificateEnds start enc.new board.new.slots.items result }
{
    lose_first(alloc, enc, board, goal, actions)?;
    let mut sets = Vec::new(alloc);
    all_sets(alloc, enc, board, actions, &mut sets)?;
    if board.covers_initial(enc, NEAR)? {
        Ok(None)
    } else {
        Ok(Some(sets))
    }
}

/// The certificate that has these sets. A refusal is passed on.
fn with_sets(answer: Result<Option<Vec<StateSet>>, SetErr>) -> Result<Option<Certificate>, SetErr>
    ensures { (start : Start) (now : Encoded) (slots : List SlotId)
        → CertificateEnds start now slots answer → Certifies start now slots result }
{
    match answer? {
        Some(sets) => Ok(Some(Certificate {
            class: Class::Cyclic,
            sets,
        })),
        None => Ok(None),
    }
}

/// The certificate that there is no strong cyclic plan. Or none, where some table is a strong cyclic
/// solution.
///
/// Its sets are what each round of `cyclic_takers` loses, the states from which the goal is no more
/// reached, until a round loses none; so rounds are made also where some initial state is lost
/// already. A set that is found is kept as cubes, and its slot is used again.
///
/// Of `Full` the same holds as there. All slots of the search are ended on every exit.
pub fn cert_cyclic(alloc: Global, task: &Task, enc: &mut Enc) -> Result<Option<Certificate>, SetErr>
    requires made { MadeOf task.now enc.old }
    requires goal { IsSome task.now.goal }
    ensures printed { IfOk result (λ found. IfSome found (λ certificate.
        IsPrinted Cyclic (system_of task.now) (plain_certificate certificate))) }
    ensures no_plan { IfOk result (λ found. IfSome found (λ certificate.
        HasNoSolution Cyclic (system_of task.now))) }
    ensures plan { IfOk result (λ found. IfNone found (HasSolution (system_of task.now))) }
    ensures full { IsErrOf result SetErr.Full → (width : ℕ) → BoundsCyclicSets width task.now
        → NoRoom width (3 * action_count task.now + 32) 16 enc.old.sets enc.new.sets }
    ensures slots { Owns enc.old.sets enc.new.sets [] }
    ensures same_slots { enc.new ≡ record enc.old { sets = enc.new.sets } }
    ensures made { (task : TaskOf) → MadeOf task enc.old → MadeOf task enc.new }
{
    let goal = enc.goal().unwrap();
    let actions = task.actions.len() as u32;
    let mut board = Board::new(alloc, enc, places(actions))?;
    let answer = find_sets(alloc, enc, &mut board, goal, actions);
    board.close(enc);
    with_sets(answer)
}
