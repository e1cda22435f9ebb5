//! What a plan does where it comes: along the best branches from the initial states.

use crate::marks::Marks;
use crate::numbers::{NONE, at};
use crate::outlooks::Outlook;
use crate::stops::Stop;
use crate::world::World;
use indexmap::IndexSet;
use task_core::ActionId;

/// A state, and the stage that was next before it.
#[derive(Clone, Copy, PartialEq, Eq, Hash)]
struct Place {
    state: u32,
    stage: usize,
}

/// What a plan does in a state, where a stage was next before it: it takes an action, and another stage is
/// next then.
#[derive(Clone, Copy)]
pub(crate) struct Act {
    pub(crate) state: u32,
    pub(crate) stage: usize,
    pub(crate) action: ActionId,
    pub(crate) next: usize,
}

/// A state that the search hasn't gone on from, and the stage that is next there.
#[derive(Clone, Copy)]
pub(crate) struct Leaf {
    pub(crate) state: u32,
    pub(crate) stage: usize,
}

/// What a plan does, and where the search hasn't gone on.
#[derive(Drop)]
pub(crate) struct Trace {
    pub(crate) acts: Vec<Act>,
    pub(crate) leaves: Vec<Leaf>,
    places: IndexSet<Place>,
}

impl Trace {
    /// Along the best branches from the initial states; `None` where the stages can't be met from one of
    /// them, and where there are none.
    pub(crate) fn new(
        world: &World<'_>,
        marks: &Marks,
        outlook: &Outlook,
    ) -> Result<Option<Trace>, Stop> {
        if world.initial == 0 || !are_all_had(world, outlook) {
            return Ok(None);
        }
        let mut trace = Trace {
            acts: Vec::new(world.alloc),
            leaves: Vec::new(world.alloc),
            places: IndexSet::new(world.alloc),
        };
        for state in 0..world.initial {
            trace.places.insert(Place { state, stage: 0 })?;
        }
        for number in 0..usize::MAX {
            let Some(place) = trace.place(number) else {
                break;
            };
            trace.go_on(world, marks, outlook, place)?;
        }
        Ok(Some(trace))
    }

    fn place(&self, number: usize) -> Option<Place> {
        self.places.get_index(number).copied()
    }

    /// Goes on from a place.
    fn go_on(
        &mut self,
        world: &World<'_>,
        marks: &Marks,
        outlook: &Outlook,
        place: Place,
    ) -> Result<(), Stop> {
        let state = place.state;
        let stage = outlook.next_stage(place.stage, state);
        if !world.is_expanded(state) {
            self.leaves.push(Leaf { state, stage })?;
            return Ok(());
        }
        let Some(branch) = outlook.best_branch(world, marks, stage, state) else {
            return Ok(());
        };
        self.acts.push(Act {
            state,
            stage: place.stage,
            action: branch.action,
            next: stage,
        })?;
        for after in &branch.after {
            self.places.insert(Place {
                state: *after,
                stage,
            })?;
        }
        Ok(())
    }
}

/// Whether the stages can be met from each initial state.
fn are_all_had(world: &World<'_>, outlook: &Outlook) -> bool {
    let Some(list) = outlook.lists.first() else {
        return false;
    };
    for state in 0..world.initial {
        if at(list, state) == NONE {
            return false;
        }
    }
    true
}
