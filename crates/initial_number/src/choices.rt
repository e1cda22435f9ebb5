//! How many choices of alternatives there are, where each gives a vector of its own.

ghost use Rattle.std.specs.Prelude.{
  ◌≡◌,
  ℕ,
  ◌*◌,
  ◌<◌,
  ◌≤◌,
  IfOk,
  IfSome,
  IsErrOf,
  OnSome,
  SomeIff,
  length,
};
ghost use Rattle.task_core.specs.Initial.{entries_of};
ghost use Rattle.task_core.specs.Tasks.{states_after_entries};
ghost use Rattle.initial_number.specs.Choices.{AreChoices};

use crate::alternatives::are_apart;
use crate::fluents::{names_marked, with_marks};
use std::alloc::Global;
use task_core::{InitErr, State, Task};

// The number of choices of an alternative for each entry, where it is seen that each gives a vector
// of its own: no fluent is named by two entries, and no two alternatives of an entry make the same
// of the facts.
pub(crate) fn count_choices(
    alloc: Global,
    task: &Task,
    limit: usize,
) -> Result<Option<usize>, InitErr>
    ensures choices { IfOk result (λ found. IfSome found (AreChoices task.now)) }
    ensures too_many { IsErrOf result InitErr.TooMany
        → (k : ℕ) × (k ≤ length (entries_of task.now.init))
        × (limit < length (states_after_entries task.now k)) }
    ensures few { IfOk result (λ found. OnSome found
        ((k : ℕ) → k ≤ length (entries_of task.now.init)
        → length (states_after_entries task.now k) ≤ limit)) }
{
    if limit == 0 {
        return Err(InitErr::TooMany);
    }
    let mut marks = State::none();
    let mut count = 1;
    for entry in &task.init.entries {
        if names_marked(entry, &marks) || !are_apart(alloc, &task.init.facts, entry)? {
            return Ok(None);
        }
        marks = with_marks(marks, entry);
        match times(count, entry.len(), limit) {
            Some(more) => count = more,
            None => return Err(InitErr::TooMany),
        }
    }
    Ok(Some(count))
}

// The product of two numbers, where it isn't above a limit.
fn times(count: usize, more: usize, limit: usize) -> Option<usize>
    ensures { SomeIff result (count * more ≤ limit) (count * more) }
{
    match count.checked_mul(more) {
        Some(product) if product <= limit => Some(product),
        _ => None,
    }
}
