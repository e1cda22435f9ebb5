//! The states of a task, and those of a set.
ghost use Rattle.std.specs.Prelude.{◌≡◌, ℕ, [], ◌∷◌, true, IsErrOf, IsTrue};
ghost use Rattle.dd_nodes.specs.Subfunctions.{Function};
ghost use Rattle.dd_ops.specs.Operations.{and_of};
ghost use Rattle.dd_sets.specs.Frames.{Owns, OwnsAnswer};
ghost use Rattle.dd_sets.specs.LiveSets.{LiveSets, IsLive, set_of};
ghost use Rattle.dd_sets.specs.Rooms.{NoRoom, Rough};
ghost use Rattle.task_core.specs.Conditions.{AlwaysHolds, holds, ids_below, is_shallow};
ghost use Rattle.encode_task.specs.Made.{Holds};
ghost use Rattle.encode_task.specs.WorkingSets.{AreSmall, IsPartOf};

use crate::conditions::set_where;
use dd_sets::{SetErr, SetId, Sets};
use task_core::Cond;

/// Whether an invariant is seen to hold always, without a look at its parts: it is `Yes`, or an
/// `All` without parts. Then no set need be met with the states.
pub fn always_holds(invariant: &Cond) -> bool
    ensures { IsTrue result → AlwaysHolds invariant.now }
{
    match invariant {
        Cond::Yes => true,
        Cond::All(parts) => parts.is_empty(),
        _ => false,
    }
}

/// The states of a set, in the place of its slot.
pub fn states_of(sets: &mut Sets, invariant: &Cond, space: SetId, a: SetId) -> Result<SetId, SetErr>
    requires space { Holds sets.old space (holds invariant.now) }
    requires live { IsLive sets.old a.0 }
    ensures answer { (before : LiveSets) (f : Function)
        → Owns before sets.old ((a.0, f) ∷ [])
        → OwnsAnswer before sets.new (and_of (holds invariant.now) f) result }
    ensures full { IsErrOf result SetErr.Full → (w : ℕ)
        → Rough sets.old.vars w (and_of (holds invariant.now) (set_of sets.old a.0))
        → NoRoom w 0 0 sets.old sets.new }
{
    if always_holds(invariant) {
        return Ok(a);
    }
    let states = sets.meet(space, a);
    sets.release(a);
    states
}

/// The states in which a condition holds, in a new slot.
pub fn states_where(
    sets: &mut Sets,
    invariant: &Cond,
    space: SetId,
    cond: &Cond,
) -> Result<SetId, SetErr>
    requires space { Holds sets.old space (holds invariant.now) }
    requires within { ids_below sets.old.vars cond.now ≡ true }
    requires shallow { is_shallow cond.now ≡ true }
    ensures answer { OwnsAnswer sets.old sets.new
        (and_of (holds invariant.now) (holds cond.now)) result }
    ensures full { IsErrOf result SetErr.Full → (w : ℕ)
        → AreSmall sets.old.vars w (IsPartOf cond.now)
        → Rough sets.old.vars w (and_of (holds invariant.now) (holds cond.now))
        → NoRoom w 204 0 sets.old sets.new }
{
    let vectors = set_where(sets, cond)?;
    states_of(sets, invariant, space, vectors)
}
