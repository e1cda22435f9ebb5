//! Makes steps on a board.

ghost use Rattle.std.specs.Prelude.{◌≡◌, ◌≢◌, ℕ, ◌<◌, [], ◌∷◌, IsErrOf, OnErr, OnOk, length};
ghost use Rattle.dd_nodes.specs.Subfunctions.{Function};
ghost use Rattle.dd_ops.specs.Operations.{cofactor_of, variable};
ghost use Rattle.dd_sets.specs.Calls.{Releases};
ghost use Rattle.dd_sets.specs.Frames.{OwnsAnswer};
ghost use Rattle.dd_sets.specs.LiveSets.{LiveSets, IsLive, IsSets, set_of};
ghost use Rattle.dd_sets.specs.Rooms.{NoRoom, Rough};
ghost use Rattle.slot_board.specs.Board.{At, Fits, IsWorking, Left, Moved, Start, Working};
ghost use Rattle.slot_board.specs.Board.{set_at, slot_at};
ghost use Rattle.board_steps.specs.Steps.{CanMake, CanMakeAll, Placed, Shows, after_step};
ghost use Rattle.board_steps.specs.Steps.{after_steps};

use crate::steps::Step;
use dd_sets::{SetErr, SetId};
use encode_task::Enc;
use slot_board::Board;
use task_core::FluentId;

fn end(enc: &mut Enc, slot: SetId)
    requires { IsLive enc.old.sets slot.0 }
    ensures released { Releases enc.old.sets enc.new.sets slot.0 }
    ensures same_slots { enc.new ≡ record enc.old { sets = enc.new.sets } }
    ensures sound { IsSets enc.new.sets }
{
    enc.sets_mut().release(slot);
}

/// Ends the slot at a place, and puts there the one that was answered. A refusal is passed on.
pub fn put(
    enc: &mut Enc,
    board: &mut Board,
    place: usize,
    answer: Result<SetId, SetErr>,
) -> Result<(), SetErr>
    requires place { place < length board.old.slots.items }
    requires live { IsLive enc.old.sets (slot_at board.old.slots.items place) }
    ensures frame { (before mid : LiveSets) (set : Function)
        → Working before mid board.old.slots.items → OwnsAnswer mid enc.old.sets set answer
        → Working before enc.new.sets board.new.slots.items }
    ensures here { (before mid : LiveSets) (set : Function)
        → Working before mid board.old.slots.items → OwnsAnswer mid enc.old.sets set answer
        → OnOk result (set_at enc.new.sets board.new.slots.items place ≡ set) }
    ensures others { (before mid : LiveSets) (set : Function)
        → Working before mid board.old.slots.items → OwnsAnswer mid enc.old.sets set answer
        → OnOk result ((other : ℕ) → other < length board.old.slots.items → other ≢ place
        → set_at enc.new.sets board.new.slots.items other
        ≡ set_at mid board.old.slots.items other) }
    ensures long { length board.new.slots.items ≡ length board.old.slots.items }
    ensures full { IsErrOf result SetErr.Full → IsErrOf answer SetErr.Full }
    ensures refused { OnErr result (enc.new ≡ enc.old) }
    ensures stays { OnErr result (board.new.slots.items ≡ board.old.slots.items) }
    ensures sound { OnOk result (IsSets enc.new.sets) }
    ensures same_slots { enc.new ≡ record enc.old { sets = enc.new.sets } }
{
    let new = answer?;
    let old = board.at(place);
    board.slots[place] = new;
    end(enc, old);
    Ok(())
}

/// The lists of truth values in which a fluent is true, in a new slot.
fn where_true(enc: &mut Enc, f: FluentId) -> Result<SetId, SetErr>
    requires { f.0 < enc.old.sets.vars }
    ensures answer { OwnsAnswer enc.old.sets enc.new.sets (variable f.0) result }
    ensures same_slots { enc.new ≡ record enc.old { sets = enc.new.sets } }
    ensures full { IsErrOf result SetErr.Full → (width : ℕ)
        → Rough enc.old.sets.vars width (variable f.0)
        → NoRoom width 0 0 enc.old.sets enc.new.sets }
{
    enc.sets_mut().of_fluent(f)
}

/// A set once a fluent has the value, in a new slot.
fn once_fixed(enc: &mut Enc, a: SetId, f: FluentId, value: bool) -> Result<SetId, SetErr>
    requires live { IsLive enc.old.sets a.0 }
    requires in_range { f.0 < enc.old.sets.vars }
    ensures answer { OwnsAnswer enc.old.sets enc.new.sets
        (cofactor_of (set_of enc.old.sets a.0) f.0 value) result }
    ensures same_slots { enc.new ≡ record enc.old { sets = enc.new.sets } }
    ensures full { IsErrOf result SetErr.Full → (width : ℕ)
        → Rough enc.old.sets.vars width (cofactor_of (set_of enc.old.sets a.0) f.0 value)
        → NoRoom width 0 0 enc.old.sets enc.new.sets }
{
    enc.sets_mut().cofactor(a, f, value)
}

/// Puts at a place the lists of truth values in which a fluent is true.
fn put_fluent(enc: &mut Enc, board: &mut Board, place: usize, f: FluentId) -> Result<(), SetErr>
    requires working { IsWorking enc.old board.old.slots.items }
    requires place { place < length board.old.slots.items }
    requires in_range { f.0 < enc.old.sets.vars }
    ensures { (start : Start) → At start enc.old board.old.slots.items
        → Fits start place (variable f.0)
        → Left start enc.new board.new.slots.items
        (Moved start enc.old.sets board.old.slots.items enc.new board.new.slots.items place
        (variable f.0)) result }
{
    let answer = where_true(enc, f);
    put(enc, board, place, answer)
}

fn put_fixed(
    enc: &mut Enc,
    board: &mut Board,
    place: usize,
    f: FluentId,
    value: bool,
) -> Result<(), SetErr>
    requires working { IsWorking enc.old board.old.slots.items }
    requires place { place < length board.old.slots.items }
    requires in_range { f.0 < enc.old.sets.vars }
    ensures { (start : Start) → At start enc.old board.old.slots.items
        → Fits start place
        (cofactor_of (set_at enc.old.sets board.old.slots.items place) f.0 value)
        → Left start enc.new board.new.slots.items
        (Moved start enc.old.sets board.old.slots.items enc.new board.new.slots.items place
        (cofactor_of (set_at enc.old.sets board.old.slots.items place) f.0 value)) result }
{
    let answer = once_fixed(enc, board.at(place), f, value);
    put(enc, board, place, answer)
}

fn make(enc: &mut Enc, board: &mut Board, step: Step) -> Result<(), SetErr>
    requires { (start : Start) × (placed : Placed)
        × Shows start enc.old board.old.slots.items placed × CanMake start placed step }
    ensures { (start : Start) (placed : Placed)
        → Shows start enc.old board.old.slots.items placed → CanMake start placed step
        → Left start enc.new board.new.slots.items
        (Shows start enc.new board.new.slots.items (after_step start placed step)) result }
{
    match step {
        Step::Whole(place) => board.whole(enc, place),
        Step::Fluent(place, f) => put_fluent(enc, board, place, f),
        Step::Fix(place, f, value) => put_fixed(enc, board, place, f, value),
        Step::Kept(place, slot) => board.copy(enc, place, slot),
        Step::Copy(place, from) => board.copy_of(enc, place, from),
        Step::Combine(place, operation, a, b) => board.combine(enc, place, operation, a, b),
        Step::Lead(place, outcomes, action, from) => {
            board.lead(enc, place, outcomes, action, from)
        },
    }
}

/// Makes steps in turn.
pub fn make_all(enc: &mut Enc, board: &mut Board, steps: &[Step]) -> Result<(), SetErr>
    requires { (start : Start) × (placed : Placed)
        × Shows start enc.old board.old.slots.items placed × CanMakeAll start placed steps.now }
    ensures { (start : Start) (placed : Placed)
        → Shows start enc.old board.old.slots.items placed → CanMakeAll start placed steps.now
        → Left start enc.new board.new.slots.items
        (Shows start enc.new board.new.slots.items (after_steps start placed steps.now)) result }
{
    for step in steps {
        make(enc, board, *step)?;
    }
    Ok(())
}
