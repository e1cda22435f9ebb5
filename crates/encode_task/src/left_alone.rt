//! The slots of fluents that some outcome leaves alone, which all such outcomes share.
ghost use Rattle.std.specs.Prelude.{◌≡◌, ℕ, ◌+◌, ◌<◌, ◌≤◌, map, IfOk, OnOk, IsErrOf};
ghost use Rattle.std.specs.List.{list_any};
ghost use Rattle.dd_sets.specs.Calls.{KeepsSets};
ghost use Rattle.dd_sets.specs.LiveSets.{live_count};
ghost use Rattle.dd_sets.specs.Rooms.{NoRoom};
ghost use Rattle.encode_task.specs.Counts.{
  IsLeftAlone,
  leaves as is_left_by_outcome,
  left_in_actions,
  some_leaves as is_left,
};
ghost use Rattle.encode_task.specs.KeptRooms.{AddsSets, NoRoomKept};
ghost use Rattle.encode_task.specs.Seen.{slots_of};
ghost use Rattle.encode_task.specs.Slots.{is_slot};
ghost use Rattle.encode_task.specs.Tables.{AddsOnly, IsShared, IsSharedSlot, SharesLeft};

use crate::action_sets::ActionSets;
use crate::slots::{put, slot_for};
use dd_sets::{SetErr, SetId, Sets};
use std::alloc::Global;
use task_core::FluentId;

/// For each fluent the slot that holds its own value, where some outcome leaves the fluent alone.
pub type Shared = Vec<Option<SetId>>;

/// New slots for the fluents that some outcome leaves alone.
///
/// The outcomes that change a fluent are passed over up to the first that leaves it alone, so the
/// time grows with the fluents that outcomes change.
pub fn share(
    alloc: Global,
    sets: &mut Sets,
    actions: &[ActionSets],
    fluents: u32,
) -> Result<Shared, SetErr>
    requires { fluents ≡ sets.old.vars }
    ensures holds { IfOk result (λ shared. IsShared sets.new shared.items) }
    ensures all { IfOk result (λ shared.
        SharesLeft sets.old.vars (map slots_of actions.now) shared.items) }
    ensures kept { KeepsSets sets.old sets.new }
    ensures only { IfOk result (λ shared.
        AddsOnly sets.old sets.new (λ slot. list_any (is_slot slot) shared.items)) }
    ensures few { IfOk result (λ _. live_count sets.new
        ≤ live_count sets.old + left_in_actions sets.old.vars (map slots_of actions.now)) }
    ensures adds { OnOk result (AddsSets
        (IsLeftAlone sets.old.vars (map slots_of actions.now)) sets.old sets.new) }
    ensures full { IsErrOf result SetErr.Full → (w : ℕ) → sets.old.vars + 2 ≤ w
        → NoRoomKept (IsLeftAlone sets.old.vars (map slots_of actions.now))
        (left_in_actions sets.old.vars (map slots_of actions.now)) w sets.old sets.new }
{
    let mut shared = Vec::new(alloc);
    for f in 0..fluents {
        let slot = share_fluent(sets, actions, FluentId(f))?;
        put(&mut shared, slot)?;
    }
    Ok(shared)
}

/// A new slot for a fluent's own value, if some outcome leaves the fluent alone.
fn share_fluent(
    sets: &mut Sets,
    actions: &[ActionSets],
    f: FluentId,
) -> Result<Option<SetId>, SetErr>
    requires { f.0 < sets.old.vars }
    ensures answer { IfOk result (λ slot.
        IsSharedSlot sets.old sets.new (is_left (map slots_of actions.now) f.0) f.0 slot) }
    ensures kept { KeepsSets sets.old sets.new }
    ensures full { IsErrOf result SetErr.Full → (w : ℕ) → sets.old.vars + 2 ≤ w
        → NoRoom w 0 0 sets.old sets.new }
{
    if some_leaves(actions, f) {
        Ok(Some(sets.of_fluent(f)?))
    } else {
        Ok(None)
    }
}

/// Whether some outcome of some action leaves a fluent alone.
fn some_leaves(actions: &[ActionSets], f: FluentId) -> bool
    ensures { result ≡ list_any (λ action.
        list_any (λ changed. is_left_by_outcome f.0 changed.items) action.outcomes.items)
        actions.now }
{
    actions.iter().any(|action| action_leaves(action, f))
}

/// Whether some outcome of an action leaves a fluent alone.
fn action_leaves(action: &ActionSets, f: FluentId) -> bool
    ensures { result
        ≡ list_any (λ changed. is_left_by_outcome f.0 changed.items) action.now.outcomes.items }
{
    action.outcomes.iter().any(|changed| leaves(changed, f))
}

/// Whether an outcome with these changes leaves a fluent alone.
fn leaves(changed: &[(FluentId, SetId)], f: FluentId) -> bool
    ensures { result ≡ is_left_by_outcome f.0 changed.now }
{
    slot_for(changed, f).is_none()
}
