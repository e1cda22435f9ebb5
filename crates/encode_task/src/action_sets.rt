//! The slots that are kept for an action.
ghost use Rattle.std.specs.Prelude.{◌<◌, ◌^◌, length};

use dd_sets::SetId;
use task_core::FluentId;

/// The slots of an action: where it can be executed, for each outcome the fluents that it changes,
/// each with the slot of its next value, and for each outcome the slot of what it leads to states,
/// or for none where the invariant always holds.
#[derive(Drop)]
pub struct ActionSets {
    pub exec: SetId,
    pub outcomes: Vec<Vec<(FluentId, SetId)>>,
    pub lands: Vec<SetId>,
    pub ghost few_outcomes: { length outcomes.items < 2 ^ 32 },
}
