//! Rounds on sets of states: what can be kept for one step more, or met in one step more.

ghost use Rattle.std.specs.Prelude.{◌≡◌, ◌<◌, ◌||◌, length, true, IfOk, OnOk};
ghost use Rattle.slot_board.specs.Board as board_specs;
ghost use Rattle.slot_board.specs.Board.{Ends};
ghost use Rattle.context_plan.specs.Noted.{AreNoted, IsNoted, NotesRound, Widened};
ghost use Rattle.slot_board.specs.declared.board.Outcomes.TheVariants as Every;
ghost use Rattle.task_core.specs.Tasks.{action_count};
ghost use Rattle.context_plan.specs.Rounds.{turn_by};
ghost use Rattle.context_plan.specs.Scenes.{IsGuarded, Left, Moved, Start, board_of, led_inside};
ghost use Rattle.context_plan.specs.Scenes.{states_at, sys_in};
ghost use Rattle.context_plan.specs.Sizes.{ExecFits, HitFits, IsSmall, RoundFits, TurnsFit};
ghost use Rattle.context_plan.specs.Steps.{AddsHits, AreSpent, HasLast, HitsAmong, IsSpent, KeepsHits};
ghost use Rattle.context_plan.specs.Steps.{Leads, OnlyHits, TurnedFrom};
ghost use Rattle.context_plan.specs.declared.rounds.Way.TheVariants.{Growing};

use crate::means::Means;
use crate::places::{GUARD, HITS, NEAR, NEW, NEXT};
use dd_sets::SetErr;
use encode_task::Enc;
use slot_board::{Board, Operation, Outcomes, Step, is_spent, none_spent, note, note_spent};
use task_core::ActionId;

/// What rounds do to a set of states.
#[derive(Clone, Copy, Debug)]
pub(crate) enum Way {
    /// They keep the states with an action that leads into the set.
    Shrinking,
    /// They add the states with an action that leads into the set.
    Growing,
}

/// How many actions a round goes through, what it does to the set, and the place of this.
#[derive(Clone, Copy, Debug)]
pub(crate) struct Turning {
    actions: u32,
    way: Way,
    place: usize,
}

/// An action, and what rounds do to the set that it leads into.
#[derive(Clone, Copy, Debug)]
struct Leading {
    way: Way,
    action: ActionId,
}

/// Finds where an action can be executed in the guard and leads into the first states.
pub(crate) fn lead_inside(enc: &mut Enc, board: &mut Board, a: ActionId) -> Result<(), SetErr>
    requires ready { (start : Start) × IsGuarded start (enc.old, board.old.slots.items)
        × board_specs.LeadFits (board_of start) Every.Every a.0
        (board_specs.set_at enc.old.sets board.old.slots.items 0) }
    requires action { a.0 < length enc.old.actions }
    ensures { (start : Start) → IsGuarded start (enc.old, board.old.slots.items)
        → board_specs.LeadFits (board_of start) Every.Every a.0
        (board_specs.set_at enc.old.sets board.old.slots.items 0)
        → Left start (enc.new, board.new.slots.items)
        (Moved start (enc.old, board.old.slots.items) (enc.new, board.new.slots.items) 2
        (led_inside start (enc.old, board.old.slots.items) a.0)) result }
{
    board.lead(enc, HITS, Outcomes::Every, a, NEAR)?;
    board.combine(enc, HITS, Operation::Meet, GUARD, HITS)
}

/// Where rounds shrink, leaves of the states from which an action leads into the first ones those
/// that are among these.
fn keep_hits(enc: &mut Enc, board: &mut Board, way: Way) -> Result<(), SetErr>
    requires ready { (start : Start) × IsGuarded start (enc.old, board.old.slots.items) }
    ensures { (start : Start) → IsGuarded start (enc.old, board.old.slots.items)
        → IsSmall start (states_at (enc.old, board.old.slots.items) 2)
        → Left start (enc.new, board.new.slots.items)
        (KeepsHits way start (enc.old, board.old.slots.items) (enc.new, board.new.slots.items))
        result }
{
    match way {
        Way::Shrinking => board.combine(enc, HITS, Operation::Meet, NEAR, HITS),
        Way::Growing => Ok(()),
    }
}

/// Whether the states in which an action can be executed are all among the next ones already.
pub(crate) fn is_joined(enc: &mut Enc, board: &mut Board, a: ActionId) -> Result<bool, SetErr>
    requires ready { (start : Start) × IsGuarded start (enc.old, board.old.slots.items)
        × ExecFits start a.0 }
    requires action { a.0 < length enc.old.actions }
    ensures left { (start : Start) → IsGuarded start (enc.old, board.old.slots.items)
        → ExecFits start a.0
        → Left start (enc.new, board.new.slots.items)
        (OnlyHits start (enc.old, board.old.slots.items) (enc.new, board.new.slots.items))
        result }
    ensures joined { (start : Start) → IsGuarded start (enc.old, board.old.slots.items)
        → ExecFits start a.0
        → IfOk result (λ joined. joined ≡ true
        → IsSpent Growing start (states_at (enc.old, board.old.slots.items) 1) a.0) }
{
    let executable = enc.exec(a);
    board.copy(enc, HITS, executable)?;
    board.combine(enc, NEW, Operation::Meet, HITS, NEXT)?;
    Ok(board.is_same(enc, NEW, HITS))
}

/// Whether an action is spent: noted as such, or from now on.
pub(crate) fn find_spent(
    enc: &mut Enc,
    board: &mut Board,
    spent: &mut Vec<bool>,
    a: ActionId,
) -> Result<bool, SetErr>
    requires ready { (start : Start) × IsGuarded start (enc.old, board.old.slots.items)
        × ExecFits start a.0 × AreSpent Growing start
        (states_at (enc.old, board.old.slots.items) 1) spent.old.items }
    requires action { a.0 < length enc.old.actions }
    requires long { length spent.old.items ≡ length enc.old.actions }
    ensures left { (start : Start) → IsGuarded start (enc.old, board.old.slots.items)
        → ExecFits start a.0
        → Left start (enc.new, board.new.slots.items)
        (OnlyHits start (enc.old, board.old.slots.items) (enc.new, board.new.slots.items))
        result }
    ensures spent { (start : Start) → IsGuarded start (enc.old, board.old.slots.items)
        → ExecFits start a.0
        → AreSpent Growing start (states_at (enc.old, board.old.slots.items) 1) spent.old.items
        → OnOk result (AreSpent Growing start (states_at (enc.old, board.old.slots.items) 1)
        spent.new.items) }
    ensures joined { (start : Start) → IsGuarded start (enc.old, board.old.slots.items)
        → ExecFits start a.0
        → AreSpent Growing start (states_at (enc.old, board.old.slots.items) 1) spent.old.items
        → IfOk result (λ joined. joined ≡ true
        → IsSpent Growing start (states_at (enc.old, board.old.slots.items) 1) a.0) }
{
    if is_spent(spent, a) {
        return Ok(true);
    }
    let joined = is_joined(enc, board, a)?;
    note_spent(spent, a, joined);
    Ok(joined)
}

/// Whether the states that a round adds by an action are all among the next ones already, as far as
/// that can be seen without a preimage.
fn adds_none(
    enc: &mut Enc,
    board: &mut Board,
    spent: &mut Vec<bool>,
    way: Way,
    a: ActionId,
) -> Result<bool, SetErr>
    requires ready { (start : Start) × IsGuarded start (enc.old, board.old.slots.items)
        × ExecFits start a.0 × AreSpent way start
        (states_at (enc.old, board.old.slots.items) 1) spent.old.items }
    requires action { a.0 < length enc.old.actions }
    requires long { length spent.old.items ≡ length enc.old.actions }
    ensures left { (start : Start) → IsGuarded start (enc.old, board.old.slots.items)
        → ExecFits start a.0
        → Left start (enc.new, board.new.slots.items)
        (OnlyHits start (enc.old, board.old.slots.items) (enc.new, board.new.slots.items))
        result }
    ensures spent { (start : Start) → IsGuarded start (enc.old, board.old.slots.items)
        → ExecFits start a.0
        → AreSpent way start (states_at (enc.old, board.old.slots.items) 1) spent.old.items
        → OnOk result (AreSpent way start (states_at (enc.old, board.old.slots.items) 1)
        spent.new.items) }
    ensures none { (start : Start) → IsGuarded start (enc.old, board.old.slots.items)
        → ExecFits start a.0
        → AreSpent way start (states_at (enc.old, board.old.slots.items) 1) spent.old.items
        → IfOk result (λ none. none ≡ true
        → HitsAmong way start (enc.old, board.old.slots.items) a.0) }
{
    match way {
        Way::Shrinking => Ok(board.is_same(enc, NEXT, NEAR)),
        Way::Growing => find_spent(enc, board, spent, a),
    }
}

/// Joins what was found to the next states, and notes the step unless these had all of it already.
fn widen(enc: &mut Enc, board: &mut Board, steps: &mut Vec<Step>, a: ActionId) -> Result<(), SetErr>
    requires ready { (start : Start) × IsGuarded start (enc.old, board.old.slots.items)
        × IsSmall start (λ v. states_at (enc.old, board.old.slots.items) 1 v
        || states_at (enc.old, board.old.slots.items) 2 v) }
    ensures { (start : Start) → IsGuarded start (enc.old, board.old.slots.items)
        → IsSmall start (λ v. states_at (enc.old, board.old.slots.items) 1 v
        || states_at (enc.old, board.old.slots.items) 2 v)
        → Left start (enc.new, board.new.slots.items)
        (Widened start (enc.old, board.old.slots.items) (enc.new, board.new.slots.items) a
        steps.old.items steps.new.items) result }
{
    board.combine(enc, HITS, Operation::Join, NEXT, HITS)?;
    if board.is_same(enc, HITS, NEXT) {
        return Ok(());
    }
    board.copy_of(enc, NEXT, HITS)?;
    note(steps, Step::Grow(a))
}

/// Adds the states from which an action leads into the first states to the next ones, where rounds
/// shrink those of the first states alone, and notes the step unless that adds nothing.
fn join_hits(
    enc: &mut Enc,
    board: &mut Board,
    steps: &mut Vec<Step>,
    leading: Leading,
) -> Result<(), SetErr>
    requires ready { (start : Start) × IsGuarded start (enc.old, board.old.slots.items)
        × HitFits leading.way start (states_at (enc.old, board.old.slots.items) 0)
        (states_at (enc.old, board.old.slots.items) 1) leading.action.0 }
    requires action { leading.action.0 < length enc.old.actions }
    ensures { (start : Start) → IsGuarded start (enc.old, board.old.slots.items)
        → HitFits leading.way start (states_at (enc.old, board.old.slots.items) 0)
        (states_at (enc.old, board.old.slots.items) 1) leading.action.0
        → Left start (enc.new, board.new.slots.items)
        (AddsHits leading.way start (enc.old, board.old.slots.items)
        (enc.new, board.new.slots.items) leading.action.0
        × IsNoted leading.way start (enc.old, board.old.slots.items) leading.action
        steps.old.items steps.new.items) result }
{
    lead_inside(enc, board, leading.action)?;
    keep_hits(enc, board, leading.way)?;
    widen(enc, board, steps, leading.action)
}

/// The same, with no preimage where it would add nothing.
fn add_hits(
    enc: &mut Enc,
    board: &mut Board,
    spent: &mut Vec<bool>,
    steps: &mut Vec<Step>,
    leading: Leading,
) -> Result<(), SetErr>
    requires ready { (start : Start) × IsGuarded start (enc.old, board.old.slots.items)
        × HitFits leading.way start (states_at (enc.old, board.old.slots.items) 0)
        (states_at (enc.old, board.old.slots.items) 1) leading.action.0 × AreSpent leading.way start
        (states_at (enc.old, board.old.slots.items) 1) spent.old.items }
    requires action { leading.action.0 < length enc.old.actions }
    requires long { length spent.old.items ≡ length enc.old.actions }
    ensures { (start : Start) → IsGuarded start (enc.old, board.old.slots.items)
        → HitFits leading.way start (states_at (enc.old, board.old.slots.items) 0)
        (states_at (enc.old, board.old.slots.items) 1) leading.action.0
        → AreSpent leading.way start (states_at (enc.old, board.old.slots.items) 1) spent.old.items
        → Left start (enc.new, board.new.slots.items)
        (AddsHits leading.way start (enc.old, board.old.slots.items) (enc.new, board.new.slots.items)
        leading.action.0 × AreSpent leading.way start (states_at (enc.new, board.new.slots.items) 1)
        spent.new.items
        × IsNoted leading.way start (enc.old, board.old.slots.items) leading.action
        steps.old.items steps.new.items) result }
{
    if adds_none(enc, board, spent, leading.way, leading.action)? {
        return Ok(());
    }
    join_hits(enc, board, steps, leading)
}

/// Puts the states that a round begins with to the next ones where rounds grow, and none where they
/// shrink.
fn begin_next(enc: &mut Enc, board: &mut Board, way: Way) -> Result<(), SetErr>
    requires ready { (start : Start) × IsGuarded start (enc.old, board.old.slots.items) }
    ensures { (start : Start) → IsGuarded start (enc.old, board.old.slots.items)
        → IsSmall start (turn_by way (sys_in start)
        (states_at (enc.old, board.old.slots.items) 0) 0)
        → Left start (enc.new, board.new.slots.items)
        (Leads way start (enc.old, board.old.slots.items) (enc.new, board.new.slots.items) 0)
        result }
{
    match way {
        Way::Shrinking => board.combine(enc, NEXT, Operation::Minus, NEAR, NEAR),
        Way::Growing => board.copy_of(enc, NEXT, NEAR),
    }
}

/// Makes a round on the first states. Each set that it makes is the first states with some from
/// which an action leads into them, or a part of that.
fn lead_all(
    enc: &mut Enc,
    board: &mut Board,
    spent: &mut Vec<bool>,
    steps: &mut Vec<Step>,
    turning: Turning,
) -> Result<(), SetErr>
    requires ready { (start : Start) × IsGuarded start (enc.old, board.old.slots.items)
        × RoundFits start (states_at (enc.old, board.old.slots.items) 0)
        × AreSpent turning.way start (states_at (enc.old, board.old.slots.items) 0)
        spent.old.items }
    requires actions { turning.actions ≡ length enc.old.actions }
    ensures { (start : Start) → IsGuarded start (enc.old, board.old.slots.items)
        → RoundFits start (states_at (enc.old, board.old.slots.items) 0)
        → AreSpent turning.way start (states_at (enc.old, board.old.slots.items) 0)
        spent.old.items
        → Left start (enc.new, board.new.slots.items)
        (Leads turning.way start (enc.old, board.old.slots.items)
        (enc.new, board.new.slots.items) (action_count start.task)
        × AreSpent turning.way start (states_at (enc.new, board.new.slots.items) 1)
        spent.new.items
        × NotesRound turning.way start (states_at (enc.old, board.old.slots.items) 0)
        steps.old.items steps.new.items) result }
{
    begin_next(enc, board, turning.way)?;
    for a in 0..turning.actions {
        let leading = Leading {
            way: turning.way,
            action: ActionId(a),
        };
        add_hits(enc, board, spent, steps, leading)?;
    }
    Ok(())
}

/// Makes a round on the states at a place.
fn turn_from(
    enc: &mut Enc,
    board: &mut Board,
    spent: &mut Vec<bool>,
    steps: &mut Vec<Step>,
    turning: Turning,
) -> Result<(), SetErr>
    requires ready { (start : Start) × IsGuarded start (enc.old, board.old.slots.items)
        × RoundFits start (states_at (enc.old, board.old.slots.items) turning.place)
        × AreSpent turning.way start (states_at (enc.old, board.old.slots.items) turning.place)
        spent.old.items }
    requires actions { turning.actions ≡ length enc.old.actions }
    requires place { turning.place < length board.old.slots.items }
    ensures { (start : Start) → IsGuarded start (enc.old, board.old.slots.items)
        → RoundFits start (states_at (enc.old, board.old.slots.items) turning.place)
        → AreSpent turning.way start (states_at (enc.old, board.old.slots.items) turning.place)
        spent.old.items
        → Left start (enc.new, board.new.slots.items)
        (TurnedFrom turning.way start (enc.old, board.old.slots.items)
        (enc.new, board.new.slots.items) turning.place
        × AreSpent turning.way start (states_at (enc.new, board.new.slots.items) 1)
        spent.new.items
        × NotesRound turning.way start (states_at (enc.old, board.old.slots.items) turning.place)
        steps.old.items steps.new.items) result }
{
    board.copy_of(enc, NEAR, turning.place)?;
    lead_all(enc, board, spent, steps, turning)
}

/// Makes a single round on the states at a place.
pub(crate) fn turn_once(
    enc: &mut Enc,
    board: &mut Board,
    means: Means,
    way: Way,
    place: usize,
) -> Result<(), SetErr>
    requires ready { (start : Start) × IsGuarded start (enc.old, board.old.slots.items)
        × RoundFits start (states_at (enc.old, board.old.slots.items) place) }
    requires actions { means.actions ≡ length enc.old.actions }
    requires place { place < length board.old.slots.items }
    ensures { (start : Start) → IsGuarded start (enc.old, board.old.slots.items)
        → RoundFits start (states_at (enc.old, board.old.slots.items) place)
        → Left start (enc.new, board.new.slots.items)
        (TurnedFrom way start (enc.old, board.old.slots.items) (enc.new, board.new.slots.items)
        place) result }
{
    let mut spent = none_spent(means.alloc, means.actions)?;
    let mut steps = Vec::new(means.alloc);
    let turning = Turning {
        actions: means.actions,
        way,
        place,
    };
    turn_from(enc, board, &mut spent, &mut steps, turning)
}

/// Makes rounds, from the states at a place on, until nothing changes: the steps that changed
/// something. An action is not looked at again once it is spent.
pub(crate) fn turn_all(
    enc: &mut Enc,
    board: &mut Board,
    means: Means,
    way: Way,
    place: usize,
) -> Result<Vec<Step>, SetErr>
    requires ready { (start : Start) × IsGuarded start (enc.old, board.old.slots.items)
        × TurnsFit way start (states_at (enc.old, board.old.slots.items) place) }
    requires actions { means.actions ≡ length enc.old.actions }
    requires place { place < length board.old.slots.items }
    ensures { (start : Start) → IsGuarded start (enc.old, board.old.slots.items)
        → TurnsFit way start (states_at (enc.old, board.old.slots.items) place)
        → Ends (board_of start) enc.new board.new.slots.items
        (λ steps. HasLast way start (enc.old, board.old.slots.items)
        (enc.new, board.new.slots.items) (states_at (enc.old, board.old.slots.items) place)
        × AreNoted way start (states_at (enc.old, board.old.slots.items) place) steps.items)
        result }
{
    let mut spent = none_spent(means.alloc, means.actions)?;
    let mut steps = Vec::new(means.alloc);
    let first = Turning {
        actions: means.actions,
        way,
        place,
    };
    turn_from(enc, board, &mut spent, &mut steps, first)?;
    while !board.is_same(enc, NEXT, NEAR) {
        note(&mut steps, Step::Advance)?;
        let more = Turning {
            place: NEXT,
            ..first
        };
        turn_from(enc, board, &mut spent, &mut steps, more)?;
    }
    note(&mut steps, Step::Advance)?;
    Ok(steps)
}
