//! What does something in configurations: plans for the states that they reach, plans with contexts, and
//! sets of states in which actions are taken.

ghost use Rattle.control_command.specs.Followed.{AreSlotsLive};
ghost use Rattle.std.specs.Prelude.{◌<◌, IfSome};
ghost use Rattle.task_core.specs.Tasks.{action_count};

use crate::followed::{Move, Mover, Place};
use crate::state_plans::StatePlan;
use dd_sets::SetId;
use encode_task::Enc;
use rule_lookup::{Guide, GuideNext};
use task_core::{ActionId, State, Task};

/// A plan for states that can be reached, all in one context.
impl Mover for StatePlan {
    ghost use Rattle.std.specs.Prelude.{⊤};

    ghost fits = { λ self task. ⊤ };

    fn move_in(&self, task: &Task, place: &Place) -> Option<Move> {
        let action = self.action_in(&place.state)?;
        if (action.0 as usize) < task.actions.len() {
            Some(Move { action, next: 0 })
        } else {
            None
        }
    }
}

/// A plan with contexts. The guide counts contexts from 1.
impl Mover for Guide<'_> {
    ghost use Rattle.rule_lookup.specs.Guides.{IsGuideOf};
    ghost use Rattle.task_core.specs.Tasks.{action_count, fluent_count};

    ghost fits = { λ self task. IsGuideOf (fluent_count task) (action_count task) self };

    fn move_in(&self, task: &Task, place: &Place) -> Option<Move> {
        let context = place.context.saturating_add(1);
        let rule = self.rule_in(task, &place.state, context)?;
        match rule.onward {
            GuideNext::Always(next) => Some(Move {
                action: rule.action,
                next: next.saturating_sub(1),
            }),
            GuideNext::ByCases(_) => None,
        }
    }
}

/// The sets of states in which a plan takes the actions: in the slots from the first place on, in the order
/// of the actions' numbers.
#[derive(Clone, Copy)]
pub(crate) struct TakerSets<'a> {
    pub(crate) enc: &'a Enc,
    pub(crate) slots: &'a [SetId],
    pub(crate) first: usize,
}

/// What a plan does in the configurations of a context in which it goes on in a next one.
#[derive(Clone, Copy)]
pub(crate) struct ContextTakers<'a> {
    pub(crate) sets: TakerSets<'a>,
    pub(crate) context: u32,
    pub(crate) next: u32,
}

impl Mover for ContextTakers<'_> {
    ghost use Rattle.control_command.specs.Followed.{AreSlotsLive};

    ghost fits = { λ self task. AreSlotsLive self.sets.enc.now.sets self.sets.slots.now };

    fn move_in(&self, task: &Task, place: &Place) -> Option<Move> {
        if place.context != self.context {
            return None;
        }
        let action = action_in(task, &self.sets, &place.state)?;
        Some(Move {
            action,
            next: self.next,
        })
    }
}

/// The least-numbered action in whose set the state is.
fn action_in(task: &Task, sets: &TakerSets<'_>, state: &State) -> Option<ActionId>
    requires live { AreSlotsLive sets.now.enc.now.sets sets.now.slots.now }
    ensures { IfSome result (λ action. action.0 < action_count task.now) }
{
    for number in 0..task.actions.len() {
        if is_taken_in(sets, number, state) {
            return Some(ActionId(number as u32));
        }
    }
    None
}

/// Whether the state is in the set of the slot that stands so many places after the first one.
fn is_taken_in(sets: &TakerSets<'_>, after: usize, state: &State) -> bool
    requires live { AreSlotsLive sets.now.enc.now.sets sets.now.slots.now }
{
    match sets.first.checked_add(after) {
        Some(place) => {
            if place >= sets.slots.len() {
                return false;
            }
            sets.enc.sets().holds(sets.slots[place], state)
        }
        None => false,
    }
}
