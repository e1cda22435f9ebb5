//! The number of an initial state.

ghost use Rattle.counterexamples.specs.Places.{place_in};
ghost use Rattle.std.specs.Prelude.{◌≡◌, All, IfOk, Some, map, slice_get, ℕ};
ghost use Rattle.std.specs.List.{Contains};
ghost use Rattle.task_core.specs.States.{IsWithin, vector};
ghost use Rattle.task_core.specs.Tasks.{fluent_count, initial_states};

use std::alloc::{AllocError, Global};
use task_core::{InitErr, State, Task, init_states};

/// How many initial states a plan is followed from at most.
const MOST_INITIAL: usize = 262_144;

/// The number of an initial state among all, counted from 0. There are no more than are followed.
pub(crate) fn initial_number(alloc: Global, task: &Task, state: &State) -> Result<usize, AllocError>
    requires within { IsWithin (fluent_count task.now) state.now }
    requires initial { Contains (initial_states task.now) (vector (fluent_count task.now) state.now) }
    ensures { IfOk result (λ number. slice_get (initial_states task.now) number
        ≡ Some (vector (fluent_count task.now) state.now)) }
{
    match init_states(alloc, task, MOST_INITIAL) {
        Ok(states) => Ok(place_of(&states, state)),
        Err(InitErr::TooMany) => Err(AllocError),
        Err(InitErr::Memory) => Err(AllocError),
    }
}

/// The first place of a state among some; how many there are, where it isn't among them.
fn place_of(states: &[State], state: &State) -> usize
    ensures { (n : ℕ) → All (IsWithin n) states.now → IsWithin n state.now
        → result ≡ place_in (map (vector n) states.now) (vector n state.now) }
{
    for place in 0..states.len() {
        if states[place] == *state {
            return place;
        }
    }
    states.len()
}
