//! The initial state with a number.

ghost use Rattle.std.specs.Prelude.{
  ◌≡◌,
  ℕ,
  ◌<◌,
  ◌≤◌,
  List,
  length,
  IfOk,
  IfSome,
  IsErrOf,
  IsTrue,
  OnOk,
  OnSome,
};
ghost use Rattle.task_core.specs.Vectors.{Vector};
ghost use Rattle.task_core.specs.States.{ShowsVectors};
ghost use Rattle.task_core.specs.Conditions.{AlwaysHolds};
ghost use Rattle.task_core.specs.Initial.{entries_of};
ghost use Rattle.task_core.specs.Tasks.{
  fluent_count,
  initial_states,
  initial_vectors,
  states_after_entries,
};
ghost use Rattle.initial_number.specs.Choices.{AreChoices};
ghost use Rattle.initial_number.specs.Numbered.{IsNumbered};

use crate::choices::count_choices;
use crate::chosen::chosen;
use std::alloc::Global;
use task_core::{
    InitErr, State, Task, always_holds, init_states, without_invariant_each_vector_is_a_state,
};

/// What a number names in the list of a task's initial states, which are counted from 0.
#[derive(Clone, Copy, Debug, PartialEq, Eq)]
pub enum Numbered {
    /// The state with this number.
    Found(State),
    /// There are states, but none with this number.
    Beyond,
    /// There is no initial state.
    NoInitial,
}

/// What a number names in the list that `init_states` makes of a task, with the same limit.
///
/// Where the invariant always holds, no fluent is named by two entries, and no two alternatives of
/// an entry make the same of the facts, only that state is made, in a time that grows with the size
/// of the entries. Elsewhere all are listed.
pub fn numbered_initial(
    alloc: Global,
    task: &Task,
    number: usize,
    limit: usize,
) -> Result<Numbered, InitErr>
    ensures number { let n = fluent_count task.now in
        IfOk result (IsNumbered n (initial_states task.now) number) }
    ensures too_many { IsErrOf result InitErr.TooMany
        → (k : ℕ) × (k ≤ length (entries_of task.now.init))
        × (limit < length (states_after_entries task.now k)) }
    ensures few { OnOk result ((k : ℕ) → k ≤ length (entries_of task.now.init)
        → length (states_after_entries task.now k) ≤ limit) }
{
    match by_choice(alloc, task, number, limit)? {
        Some(found) => Ok(found),
        None => from_list(alloc, task, number, limit),
    }
}

// What the number names, out of the list of all initial states.
fn from_list(alloc: Global, task: &Task, number: usize, limit: usize) -> Result<Numbered, InitErr>
    ensures number { let n = fluent_count task.now in
        IfOk result (IsNumbered n (initial_states task.now) number) }
    ensures too_many { IsErrOf result InitErr.TooMany
        → (k : ℕ) × (k ≤ length (entries_of task.now.init))
        × (limit < length (states_after_entries task.now k)) }
    ensures few { OnOk result ((k : ℕ) → k ≤ length (entries_of task.now.init)
        → length (states_after_entries task.now k) ≤ limit) }
{
    let states = init_states(alloc, task, limit)?;
    Ok(numbered_of(&states, number))
}

// What a number names in a list of states.
fn numbered_of(states: &[State], number: usize) -> Numbered
    ensures { (n : ℕ) (vectors : List Vector) → ShowsVectors n states.now vectors
        → IsNumbered n vectors number result }
{
    if states.is_empty() {
        return Numbered::NoInitial;
    }
    match states.get(number) {
        Some(state) => Numbered::Found(*state),
        None => Numbered::Beyond,
    }
}

// What the number names, where each choice of alternatives gives an initial state of its own;
// `None` where it isn't seen that they do.
pub(crate) fn by_choice(
    alloc: Global,
    task: &Task,
    number: usize,
    limit: usize,
) -> Result<Option<Numbered>, InitErr>
    ensures number { let n = fluent_count task.now in IfOk result (λ found.
        IfSome found (IsNumbered n (initial_states task.now) number)) }
    ensures too_many { IsErrOf result InitErr.TooMany
        → (k : ℕ) × (k ≤ length (entries_of task.now.init))
        × (limit < length (states_after_entries task.now k)) }
    ensures few { IfOk result (λ found. OnSome found
        ((k : ℕ) → k ≤ length (entries_of task.now.init)
        → length (states_after_entries task.now k) ≤ limit)) }
{
    if !always_holds(&task.invariant) {
        return Ok(None);
    }
    without_invariant_each_vector_is_a_state(task);
    match count_choices(alloc, task, limit)? {
        Some(count) => Ok(Some(choice_at(task, count, number))),
        None => Ok(None),
    }
}

// What a number names among so many choices of alternatives.
fn choice_at(task: &Task, count: usize, number: usize) -> Numbered
    requires choices { AreChoices task.now count }
    ensures { IsNumbered (fluent_count task.now) (initial_vectors task.now) number result }
{
    if number < count {
        Numbered::Found(chosen(task, count, number))
    } else {
        Numbered::Beyond
    }
}
