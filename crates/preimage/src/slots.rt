//! Sets in the place of slots, on the sets of a task.
ghost use Rattle.std.specs.Prelude.{◌≡◌, ◌⊎◌, ◌↔◌, ℕ, [], ◌∷◌, IfErr, IfOk, IsErrOf, IsTrue};
ghost use Rattle.dd_nodes.specs.Subfunctions.{Function};
ghost use Rattle.dd_ops.specs.Operations.{and_of, minus_of};
ghost use Rattle.dd_sets.specs.Calls.{Releases};
ghost use Rattle.dd_sets.specs.Frames.{AreTwo, Owns, OwnsAnswer, OwnsBoth, piece_of};
ghost use Rattle.dd_sets.specs.LiveSets.{IsSets, LiveSets, IsLive};
ghost use Rattle.dd_sets.specs.LiveSets.{everything, nothing, set_of};
ghost use Rattle.dd_sets.specs.Rooms.{AreRough, NoRoom, Rough, Small};
ghost use Rattle.encode_task.specs.Made.{HoldsLands};
ghost use Rattle.preimage.specs.Sides.{AreOwned, PartFits, off_side, on_side};

use dd_sets::{SetErr, SetId, Sets};
use encode_task::Enc;

/// The two sides of a set.
#[derive(Clone, Copy, Debug)]
pub enum Side {
    /// What is in it.
    Inside,
    /// What is not.
    Outside,
}

/// The same set in a new slot.
pub fn copied(enc: &mut Enc, a: SetId) -> Result<SetId, SetErr>
    requires { IsLive enc.old.sets a.0 }
    ensures answer { OwnsAnswer enc.old.sets enc.new.sets (set_of enc.old.sets a.0) result }
    ensures same_slots { enc.new ≡ record enc.old { sets = enc.new.sets } }
    ensures never_full { IfErr result (λ e. e ≡ SetErr.Memory) }
    ensures sound { IsSets enc.new.sets }
{
    enc.sets_mut().copy(a)
}

/// Whether a slot holds the empty set.
pub fn is_none(enc: &Enc, a: SetId) -> bool
    requires { IsLive enc.now.sets a.0 }
    ensures { IsTrue result ↔ (set_of enc.now.sets a.0 ≡ nothing) }
{
    enc.sets().is_none(a)
}

/// What of a set an outcome leads to no state or to one on a side, by what it leads to states, where
/// that is asked, and an answer of what it leads into the other set, in the place of the slots of the
/// set and the answer; a refusal where one was answered.
pub fn part_of(
    enc: &mut Enc,
    side: Side,
    lands: Option<SetId>,
    a: SetId,
    b: Result<SetId, SetErr>,
) -> Result<SetId, SetErr>
    requires owned { AreOwned enc.old.sets a b }
    requires lands { (landing : Function) × HoldsLands enc.old.sets lands landing }
    ensures answer { (before now : LiveSets) (landing f g : Function)
        → HoldsLands enc.old.sets lands landing
        → Owns before now ((a.0, f) ∷ []) → OwnsAnswer now enc.old.sets g b
        → OwnsAnswer before enc.new.sets (on_side side landing f g) result }
    ensures same_slots { enc.new ≡ record enc.old { sets = enc.new.sets } }
    ensures full { IsErrOf result SetErr.Full → (before now : LiveSets) (landing f g : Function)
        → HoldsLands enc.old.sets lands landing
        → Owns before now ((a.0, f) ∷ []) → OwnsAnswer now enc.old.sets g b
        → (width : ℕ) → PartFits before.vars width side landing f g
        → (IsErrOf b SetErr.Full → NoRoom width 0 0 now enc.old.sets)
        → NoRoom width 3 2 before enc.new.sets }
    ensures sound { IsSets enc.new.sets }
{
    match lands {
        Some(lands) => part_landing(enc, side, lands, a, b),
        None => part_led(enc, side, a, b),
    }
}

/// The same where the outcome leads to a state from everywhere: the lists of a set on one side of an
/// answer.
fn part_led(enc: &mut Enc, side: Side, a: SetId, b: Result<SetId, SetErr>) -> Result<SetId, SetErr>
    requires { AreTwo enc.old.sets a b }
    ensures answer { (before : LiveSets) (f g : Function)
        → OwnsBoth before enc.old.sets a f b g
        → OwnsAnswer before enc.new.sets (on_side side everything f g) result }
    ensures same_slots { enc.new ≡ record enc.old { sets = enc.new.sets } }
    ensures full { IsErrOf result SetErr.Full → (width : ℕ)
        → AreRough enc.old.sets.vars width (piece_of (on_side side everything) enc.old.sets a b)
        → (IsErrOf b SetErr.Full × Releases enc.old.sets enc.new.sets a.0)
        ⊎ NoRoom width 0 0 enc.old.sets enc.new.sets }
    ensures sound { IsSets enc.new.sets }
{
    match side {
        Side::Inside => in_both(enc, a, b),
        Side::Outside => without(enc, a, b),
    }
}

/// The same by the slot of what the outcome leads to states: the lists of a set without those that the
/// outcome leads to states on the other side.
fn part_landing(
    enc: &mut Enc,
    side: Side,
    lands: SetId,
    a: SetId,
    b: Result<SetId, SetErr>,
) -> Result<SetId, SetErr>
    requires owned { AreOwned enc.old.sets a b }
    requires lands { IsLive enc.old.sets lands.0 }
    ensures answer { (before now : LiveSets) (f g : Function)
        → Owns before now ((a.0, f) ∷ []) → OwnsAnswer now enc.old.sets g b
        → OwnsAnswer before enc.new.sets
        (on_side side (set_of enc.old.sets lands.0) f g) result }
    ensures same_slots { enc.new ≡ record enc.old { sets = enc.new.sets } }
    ensures full { IsErrOf result SetErr.Full → (before now : LiveSets) (f g : Function)
        → Owns before now ((a.0, f) ∷ []) → OwnsAnswer now enc.old.sets g b
        → (width : ℕ) → PartFits before.vars width side (set_of enc.old.sets lands.0) f g
        → (IsErrOf b SetErr.Full → NoRoom width 0 0 now enc.old.sets)
        → NoRoom width 3 2 before enc.new.sets }
    ensures sound { IsSets enc.new.sets }
{
    let other = other_side(enc, side, lands, b);
    without(enc, a, other)
}

/// What an outcome leads to states on the other side of a set, by what it leads to states and an
/// answer of what it leads into the set, in the place of the answer's slot; a refusal where one was
/// answered.
fn other_side(
    enc: &mut Enc,
    side: Side,
    lands: SetId,
    b: Result<SetId, SetErr>,
) -> Result<SetId, SetErr>
    requires lands { IsLive enc.old.sets lands.0 }
    requires live { IfOk b (λ slot. IsLive enc.old.sets slot.0) }
    ensures answer { (before : LiveSets) (g : Function) → OwnsAnswer before enc.old.sets g b
        → OwnsAnswer before enc.new.sets (off_side side (set_of enc.old.sets lands.0) g) result }
    ensures same_slots { enc.new ≡ record enc.old { sets = enc.new.sets } }
    ensures full { IsErrOf result SetErr.Full → (before : LiveSets) (g : Function)
        → OwnsAnswer before enc.old.sets g b
        → (width : ℕ) → Small before.vars width g
        → Rough before.vars width (off_side side (set_of enc.old.sets lands.0) g)
        → (IsErrOf b SetErr.Full → NoRoom width 0 0 before enc.old.sets)
        → NoRoom width 1 0 before enc.new.sets }
    ensures sound { IsSets enc.new.sets }
{
    match b {
        Ok(led) => other_led(enc, side, lands, led),
        Err(refusal) => {
            enc.sets().sound();
            Err(refusal)
        }
    }
}

/// The same by the slot of what the outcome leads into the set.
fn other_led(enc: &mut Enc, side: Side, lands: SetId, led: SetId) -> Result<SetId, SetErr>
    requires lands { IsLive enc.old.sets lands.0 }
    requires live { IsLive enc.old.sets led.0 }
    ensures answer { (before : LiveSets) (g : Function)
        → Owns before enc.old.sets ((led.0, g) ∷ [])
        → OwnsAnswer before enc.new.sets (off_side side (set_of enc.old.sets lands.0) g) result }
    ensures same_slots { enc.new ≡ record enc.old { sets = enc.new.sets } }
    ensures full { IsErrOf result SetErr.Full → (width : ℕ)
        → Rough enc.old.sets.vars width
        (off_side side (set_of enc.old.sets lands.0) (set_of enc.old.sets led.0))
        → NoRoom width 0 0 enc.old.sets enc.new.sets }
    ensures sound { IsSets enc.new.sets }
{
    match side {
        Side::Inside => rest_of(enc, lands, led),
        Side::Outside => met_with(enc, lands, led),
    }
}

/// The lists of a set that are in an answer, in the place of their slots; a refusal where one was
/// answered.
fn in_both(enc: &mut Enc, a: SetId, b: Result<SetId, SetErr>) -> Result<SetId, SetErr>
    requires { AreTwo enc.old.sets a b }
    ensures answer { (before : LiveSets) (f g : Function)
        → OwnsBoth before enc.old.sets a f b g
        → OwnsAnswer before enc.new.sets (and_of f g) result }
    ensures same_slots { enc.new ≡ record enc.old { sets = enc.new.sets } }
    ensures full { IsErrOf result SetErr.Full → (width : ℕ)
        → AreRough enc.old.sets.vars width (piece_of and_of enc.old.sets a b)
        → (IsErrOf b SetErr.Full × Releases enc.old.sets enc.new.sets a.0)
        ⊎ NoRoom width 0 0 enc.old.sets enc.new.sets }
    ensures sound { IsSets enc.new.sets }
{
    enc.sets_mut().in_both(a, b)
}

/// The lists of a set that are not in an answer, in the place of their slots; a refusal where one was
/// answered.
fn without(enc: &mut Enc, a: SetId, b: Result<SetId, SetErr>) -> Result<SetId, SetErr>
    requires { AreTwo enc.old.sets a b }
    ensures answer { (before : LiveSets) (f g : Function)
        → OwnsBoth before enc.old.sets a f b g
        → OwnsAnswer before enc.new.sets (minus_of f g) result }
    ensures same_slots { enc.new ≡ record enc.old { sets = enc.new.sets } }
    ensures full { IsErrOf result SetErr.Full → (width : ℕ)
        → AreRough enc.old.sets.vars width (piece_of minus_of enc.old.sets a b)
        → (IsErrOf b SetErr.Full × Releases enc.old.sets enc.new.sets a.0)
        ⊎ NoRoom width 0 0 enc.old.sets enc.new.sets }
    ensures sound { IsSets enc.new.sets }
{
    enc.sets_mut().without(a, b)
}

/// The lists of `b` that are in `a`, in the place of the slot of `b`.
fn met_with(enc: &mut Enc, a: SetId, b: SetId) -> Result<SetId, SetErr>
    requires a_live { IsLive enc.old.sets a.0 }
    requires b_live { IsLive enc.old.sets b.0 }
    ensures answer { (before : LiveSets) (f : Function)
        → Owns before enc.old.sets ((b.0, f) ∷ [])
        → OwnsAnswer before enc.new.sets (and_of f (set_of enc.old.sets a.0)) result }
    ensures same_slots { enc.new ≡ record enc.old { sets = enc.new.sets } }
    ensures full { IsErrOf result SetErr.Full → (width : ℕ)
        → Rough enc.old.sets.vars width
        (and_of (set_of enc.old.sets b.0) (set_of enc.old.sets a.0))
        → NoRoom width 0 0 enc.old.sets enc.new.sets }
    ensures sound { IsSets enc.new.sets }
{
    meet_of(enc.sets_mut(), a, b)
}

/// The same on the sets alone.
fn meet_of(sets: &mut Sets, a: SetId, b: SetId) -> Result<SetId, SetErr>
    requires a_live { IsLive sets.old a.0 }
    requires b_live { IsLive sets.old b.0 }
    ensures answer { (before : LiveSets) (f : Function)
        → Owns before sets.old ((b.0, f) ∷ [])
        → OwnsAnswer before sets.new (and_of f (set_of sets.old a.0)) result }
    ensures full { IsErrOf result SetErr.Full → (width : ℕ)
        → Rough sets.old.vars width (and_of (set_of sets.old b.0) (set_of sets.old a.0))
        → NoRoom width 0 0 sets.old sets.new }
    ensures sound { IsSets sets.new }
{
    let met = sets.meet(b, a);
    sets.release(b);
    met
}

/// The lists of a set `a` that are not in `b`, in the place of the slot of `b`.
pub fn rest_of(enc: &mut Enc, a: SetId, b: SetId) -> Result<SetId, SetErr>
    requires a_live { IsLive enc.old.sets a.0 }
    requires b_live { IsLive enc.old.sets b.0 }
    ensures answer { (before : LiveSets) (f : Function)
        → Owns before enc.old.sets ((b.0, f) ∷ [])
        → OwnsAnswer before enc.new.sets (minus_of (set_of enc.old.sets a.0) f) result }
    ensures same_slots { enc.new ≡ record enc.old { sets = enc.new.sets } }
    ensures full { IsErrOf result SetErr.Full → (width : ℕ)
        → Rough enc.old.sets.vars width
        (minus_of (set_of enc.old.sets a.0) (set_of enc.old.sets b.0))
        → NoRoom width 0 0 enc.old.sets enc.new.sets }
    ensures sound { IsSets enc.new.sets }
{
    enc.sets_mut().rest_of(a, b)
}
