//! What outcomes lead to states, and where some outcome does.
ghost use Rattle.std.specs.Prelude.{◌≡◌, ℕ, ◌+◌, ◌≤◌, ◌&&◌, true, length, map, take, IfOk, OnOk};
ghost use Rattle.std.specs.Prelude.{IsErrOf, Contains};
ghost use Rattle.std.specs.List.{All, list_any};
ghost use Rattle.dd_ops.specs.Operations.{and_of};
ghost use Rattle.dd_sets.specs.Calls.{KeepsSets};
ghost use Rattle.dd_sets.specs.Frames.{OwnsAnswer};
ghost use Rattle.dd_sets.specs.LiveSets.{IsLive, live_count, set_of};
ghost use Rattle.dd_sets.specs.Rooms.{NoRoom, Rough, Small};
ghost use Rattle.task_core.specs.Conditions.{holds};
ghost use Rattle.task_core.specs.Actions.{action_is_shallow, action_within};
ghost use Rattle.encode_task.specs.Made.{Holds};
ghost use Rattle.encode_task.specs.Slots.{is_one_of};
ghost use Rattle.encode_task.specs.KeptRooms.{AddsSets, NoRoomKept};
ghost use Rattle.encode_task.specs.Tables.{AddsOnly, AllPaired, LandsMade, OutcomeMade};
ghost use Rattle.encode_task.specs.WorkingSets.{AreSmall, IsMadeForAction};
ghost use Rattle.encode_task.specs.TaskSets.{exec_of, lands_of};

use crate::actions::Changed;
use crate::slots::put;
use crate::space::{always_holds, states_where};
use dd_sets::{SetErr, SetId, Sets};
use std::alloc::Global;
use task_core::{Cond, GroundAction};

/// An invariant, and the set of the states, in which it holds.
#[derive(Clone, Copy)]
pub struct States<'a> {
    pub invariant: &'a Cond,
    pub space: SetId,
}

/// The slots of what the outcomes of an action lead to states, given the fluents that they change;
/// none where the invariant always holds.
pub fn encode_lands(
    alloc: Global,
    sets: &mut Sets,
    states: &States,
    action: &GroundAction,
    outcomes: &[Changed],
) -> Result<Vec<SetId>, SetErr>
    requires space { Holds sets.old states.now.space (holds states.now.invariant.now) }
    requires made { AllPaired (OutcomeMade sets.old)
        (map (λ changed. changed.items) outcomes.now) action.now.outcomes.items }
    ensures made { IfOk result (λ lands.
        LandsMade sets.new states.now.invariant.now lands.items action.now.outcomes.items) }
    ensures kept { KeepsSets sets.old sets.new }
    ensures only { IfOk result (λ lands.
        AddsOnly sets.old sets.new (λ slot. is_one_of slot lands.items)) }
    ensures few { IfOk result (λ lands.
        live_count sets.new ≤ live_count sets.old + length action.now.outcomes.items) }
    ensures adds { OnOk result (AddsSets
        (Contains (map (lands_of states.now.invariant.now) action.now.outcomes.items)) sets.old sets.new) }
    ensures full { IsErrOf result SetErr.Full → (w : ℕ) → sets.old.vars + 2 ≤ w
        → Small sets.old.vars w (holds states.now.invariant.now)
        → AreSmall sets.old.vars w (IsMadeForAction sets.old.vars states.now.invariant.now action.now)
        → NoRoomKept (Contains (map (lands_of states.now.invariant.now) action.now.outcomes.items))
        (length action.now.outcomes.items) w sets.old sets.new }
{
    let mut lands = Vec::new(alloc);
    if always_holds(states.invariant) {
        return Ok(lands);
    }
    for changed in outcomes {
        let slot = sets.subst(states.space, changed)?;
        put(&mut lands, slot)?;
    }
    Ok(lands)
}

/// Where an action can be executed, given what its outcomes lead to states, in a new slot.
pub fn exec_states(
    sets: &mut Sets,
    invariant: &Cond,
    space: SetId,
    action: &GroundAction,
    lands: &[SetId],
) -> Result<SetId, SetErr>
    requires space { Holds sets.old space (holds invariant.now) }
    requires within { action_within sets.old.vars action.now ≡ true }
    requires shallow { action_is_shallow action.now ≡ true }
    requires lands { LandsMade sets.old invariant.now lands.now action.now.outcomes.items }
    ensures answer { OwnsAnswer sets.old sets.new (exec_of invariant.now action.now) result }
    ensures full { IsErrOf result SetErr.Full → (w : ℕ)
        → AreSmall sets.old.vars w (IsMadeForAction sets.old.vars invariant.now action.now)
        → NoRoom w 204 1 sets.old sets.new }
{
    let allowed = states_where(sets, invariant, space, &action.exec)?;
    if lands.is_empty() {
        return Ok(allowed);
    }
    let exec = some_landing(sets, allowed, lands);
    sets.release(allowed);
    exec
}

/// The lists of a set that are in some of other sets, in a new slot.
fn some_landing(sets: &mut Sets, allowed: SetId, lands: &[SetId]) -> Result<SetId, SetErr>
    requires live { IsLive sets.old allowed.0 }
    requires all_live { All (λ slot. IsLive sets.old slot.0) lands.now }
    ensures answer { OwnsAnswer sets.old sets.new (λ values. list_any
        (λ slot. set_of sets.old allowed.0 values && set_of sets.old slot.0 values) lands.now)
        result }
    ensures full { IsErrOf result SetErr.Full → (w : ℕ)
        → ((j : ℕ) → Small sets.old.vars w (λ values. list_any
        (λ slot. set_of sets.old allowed.0 values && set_of sets.old slot.0 values)
        (take j lands.now)))
        → ((slot : SetId) → Contains lands.now slot
        → Rough sets.old.vars w (and_of (set_of sets.old allowed.0) (set_of sets.old slot.0)))
        → NoRoom w 2 1 sets.old sets.new }
{
    let mut some = sets.none()?;
    for slot in lands {
        let landing = sets.meet(allowed, *slot);
        some = sets.in_some(some, landing)?;
    }
    Ok(some)
}
