//! The slots that are kept for outcomes.
ghost use Rattle.std.specs.Prelude.{◌≡◌, ◌<◌, [], ◌∷◌, ◌++◌, length, map, OnOk};
ghost use Rattle.dd_sets.specs.LiveSets.{listed_set};
ghost use Rattle.encode_task.specs.Slots.{changed_in, lands_in, outcomes_in};
ghost use Rattle.encode_task.specs.Seen.{slots_of};

use crate::action_sets::ActionSets;
use dd_sets::SetId;
use std::alloc::AllocError;
use task_core::{ActionId, FluentId};

/// The fluents that an outcome of an action changes, each with the slot of its next value.
pub fn changed_by(actions: &[ActionSets], a: ActionId, outcome: u32) -> &[(FluentId, SetId)]
    requires action { a.0 < length actions.now }
    requires outcome { outcome < length (outcomes_in (map slots_of actions.now) a.0) }
    ensures { result.now ≡ changed_in (map slots_of actions.now) a.0 outcome }
{
    &actions[a.0 as usize].outcomes[outcome as usize]
}

/// The slot of what an outcome of an action leads to states, where one is kept.
pub fn lands_by(actions: &[ActionSets], a: ActionId, outcome: u32) -> Option<SetId>
    requires { a.0 < length actions.now }
    ensures { result ≡ lands_in (map slots_of actions.now) a.0 outcome }
{
    actions[a.0 as usize].lands.get(outcome as usize).copied()
}

/// The slot that a list gives a fluent, if it lists the fluent.
pub fn slot_for(changed: &[(FluentId, SetId)], f: FluentId) -> Option<SetId>
    ensures { result ≡ listed_set changed.now f.0 }
{
    for entry in changed {
        if entry.0 == f {
            return Some(entry.1);
        }
    }
    None
}

/// Puts an item at the end of a list.
pub fn put<T: Drop>(list: &mut Vec<T>, item: T) -> Result<(), AllocError>
    ensures { OnOk result (list.new.items ≡ list.old.items ++ item ∷ []) }
{
    list.push(item)?;
    Ok(())
}
