//! The vector of a choice of alternatives by its number.

ghost use Rattle.std.specs.Prelude.{◌≡◌, ◌<◌, [], slice_index_or};
ghost use Rattle.task_core.specs.States.{IsWithin, vector};
ghost use Rattle.task_core.specs.Tasks.{fluent_count, initial_vectors};
ghost use Rattle.initial_number.specs.Choices.{AreChoices};

use task_core::{State, Task, with_literals};

// The vector with a number among so many: the number's digits choose the alternatives, the lowest
// digit that of the last entry.
pub(crate) fn chosen(task: &Task, count: usize, number: usize) -> State
    requires choices { AreChoices task.now count }
    requires below { number < count }
    ensures is { slice_index_or (initial_vectors task.now) number []
        ≡ vector (fluent_count task.now) result }
    ensures within { IsWithin (fluent_count task.now) result }
{
    let mut state = task.init.facts;
    let mut weight = count;
    for entry in &task.init.entries {
        weight /= entry.len();
        let digit = number / weight % entry.len();
        state = with_literals(&state, &entry[digit].lits);
    }
    state
}
