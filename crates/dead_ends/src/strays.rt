//! The outcomes that leave a run.

ghost use Rattle.dead_ends.specs.Strays.{
  leaves as is_left,
  run_states,
  run_strays,
  stray_by as stray_of,
  stray_to,
  strays_at,
  strays_from,
};
ghost use Rattle.dead_ends.specs.Values.{AreWithin, listed_if, same_state, stray_value};
ghost use Rattle.plan_witness.specs.Values.{run_value, step_value, steps_value};
ghost use Rattle.plan_witness.specs.Within.{HasStepsWithin, IsRunWithin};
ghost use Rattle.std.specs.List.{All, list_any};
ghost use Rattle.std.specs.Option.{option_map};
ghost use Rattle.std.specs.Prelude.{
  ◌≡◌,
  ◌<◌,
  ◌++◌,
  IfOk,
  IfSome,
  OnOk,
  length,
  map,
  ℕ,
};
ghost use Rattle.task_core.specs.States.{IsWithin, vector};
ghost use Rattle.task_core.specs.Tasks.{fluent_count, outcomes_at, system_of};
ghost use Rattle.task_core.specs.Vectors.{same_vector};

use plan_witness::{Run, RunStep};
use std::alloc::{AllocError, Global};
use task_core::{ActionId, State, Task, in_space, is_exec, outcome_count, step};

/// An outcome that leaves a run: the number of the step, the number of the outcome among all outcomes of
/// the step's action, both counted from 0, and the state to which it leads.
#[derive(Clone, Copy)]
pub(crate) struct Stray {
    pub(crate) step: usize,
    pub(crate) outcome: u32,
    pub(crate) state: State,
}

/// How outcomes are to leave a run that comes to these states: back to one of them, or away from them.
#[derive(Clone, Copy)]
struct Leaving<'a> {
    states: &'a [State],
    back: bool,
}

/// The outcomes that leave a run: those that lead away from its states, step by step and those of a step
/// by their numbers, and then those that lead back to them.
pub(crate) fn strays_of(alloc: Global, task: &Task, run: &Run) -> Result<Vec<Stray>, AllocError>
    requires { IsRunWithin (fluent_count task.now) run.now }
    ensures strays { let n = fluent_count task.now in IfOk result (λ strays.
        map (stray_value n) strays.items
        ≡ run_strays (system_of task.now) (run_value n run.now)) }
    ensures within { IfOk result (λ strays. AreWithin (fluent_count task.now) strays.items) }
{
    let states = states_on(alloc, run)?;
    let mut strays = Vec::new(alloc);
    let away = Leaving {
        states: &states,
        back: false,
    };
    push_all(&mut strays, task, &run.start, &run.steps, &away)?;
    let back = Leaving {
        states: &states,
        back: true,
    };
    push_all(&mut strays, task, &run.start, &run.steps, &back)?;
    Ok(strays)
}

/// The states to which a run comes, the one in which it begins among them.
fn states_on(alloc: Global, run: &Run) -> Result<Vec<State>, AllocError>
    ensures states { (n : ℕ) → IfOk result (λ states.
        map (vector n) states.items ≡ run_states (run_value n run.now)) }
    ensures within { (n : ℕ) → IsRunWithin n run.now
        → IfOk result (λ states. All (IsWithin n) states.items) }
{
    let mut states = Vec::from_slice(alloc, &[run.start])?;
    for step in &run.steps {
        states.push(step.state)?;
    }
    Ok(states)
}

/// Adds the outcomes of steps from a state that leave a run so.
fn push_all(
    strays: &mut Vec<Stray>,
    task: &Task,
    start: &State,
    steps: &[RunStep],
    leaving: &Leaving<'_>,
) -> Result<(), AllocError>
    requires start { IsWithin (fluent_count task.now) start.now }
    requires steps { HasStepsWithin (fluent_count task.now) steps.now }
    requires states { All (IsWithin (fluent_count task.now)) leaving.now.states.now }
    ensures strays { let n = fluent_count task.now in OnOk result (map (stray_value n) strays.new.items
        ≡ map (stray_value n) strays.old.items
        ++ strays_from (system_of task.now) (map (vector n) leaving.now.states.now) leaving.now.back 0
        (vector n start.now) (steps_value n steps.now)) }
    ensures within { AreWithin (fluent_count task.now) strays.old.items
        → OnOk result (AreWithin (fluent_count task.now) strays.new.items) }
{
    let mut before = *start;
    for number in 0..steps.len() {
        let step = &steps[number];
        let taken = Taken {
            number,
            before: &before,
            step,
        };
        push_strays(strays, task, leaving, &taken)?;
        before = step.state;
    }
    Ok(())
}

/// A step of a run: its number, counted from 0, and the state before it.
#[derive(Clone, Copy)]
struct Taken<'a> {
    number: usize,
    before: &'a State,
    step: &'a RunStep,
}

/// Adds the outcomes of a step that leave a run so.
fn push_strays(
    strays: &mut Vec<Stray>,
    task: &Task,
    leaving: &Leaving<'_>,
    taken: &Taken<'_>,
) -> Result<(), AllocError>
    requires before { IsWithin (fluent_count task.now) taken.now.before.now }
    requires after { IsWithin (fluent_count task.now) taken.now.step.now.state }
    requires states { All (IsWithin (fluent_count task.now)) leaving.now.states.now }
    ensures strays { let n = fluent_count task.now in OnOk result (map (stray_value n) strays.new.items
        ≡ map (stray_value n) strays.old.items
        ++ strays_at (system_of task.now) (map (vector n) leaving.now.states.now) leaving.now.back
        taken.now.number (vector n taken.now.before.now) (step_value n taken.now.step.now)) }
    ensures within { AreWithin (fluent_count task.now) strays.old.items
        → OnOk result (AreWithin (fluent_count task.now) strays.new.items) }
{
    for outcome in 0..outcomes_of(task, taken.step.action) {
        push_found(strays, stray_by(task, leaving, taken, outcome))?;
    }
    Ok(())
}

/// How many outcomes an action has; none past the last action.
fn outcomes_of(task: &Task, action: ActionId) -> u32
    ensures { result ≡ length (outcomes_at task.now action.0) }
{
    if action.0 as usize >= task.actions.len() {
        return 0;
    }
    outcome_count(task, action)
}

/// Adds an outcome, if there is one.
fn push_found(strays: &mut Vec<Stray>, found: Option<Stray>) -> Result<(), AllocError>
    ensures { OnOk result (strays.new.items ≡ strays.old.items ++ listed_if found) }
{
    match found {
        Some(stray) => Ok(strays.push(stray)?),
        None => Ok(()),
    }
}

/// The outcome of a number of a step, if it leads to a state and leaves a run so.
fn stray_by(task: &Task, leaving: &Leaving<'_>, taken: &Taken<'_>, outcome: u32) -> Option<Stray>
    requires listed { outcome < length (outcomes_at task.now taken.now.step.now.action.0) }
    requires before { IsWithin (fluent_count task.now) taken.now.before.now }
    requires after { IsWithin (fluent_count task.now) taken.now.step.now.state }
    requires states { All (IsWithin (fluent_count task.now)) leaving.now.states.now }
    ensures value { let n = fluent_count task.now in option_map (stray_value n) result
        ≡ stray_of (system_of task.now) (map (vector n) leaving.now.states.now) leaving.now.back
        taken.now.number (vector n taken.now.before.now) (step_value n taken.now.step.now) outcome }
    ensures within { IfSome result (λ stray. IsWithin (fluent_count task.now) stray.state) }
{
    match state_by(task, taken.before, taken.step.action, outcome) {
        Some(state) => left_to(leaving, taken, outcome, state),
        None => None,
    }
}

/// An outcome of a step to a state, if it leaves a run so.
fn left_to(leaving: &Leaving<'_>, taken: &Taken<'_>, outcome: u32, state: State) -> Option<Stray>
    ensures value { (n : ℕ) → IsWithin n state → IsWithin n taken.now.step.now.state
        → All (IsWithin n) leaving.now.states.now
        → option_map (stray_value n) result
        ≡ stray_to (map (vector n) leaving.now.states.now) leaving.now.back taken.now.number
        (step_value n taken.now.step.now) outcome (vector n state) }
    ensures same { IfSome result (λ stray. stray.state ≡ state) }
{
    if !leaves(leaving, taken.step, &state) {
        return None;
    }
    Some(Stray {
        step: taken.number,
        outcome,
        state,
    })
}

fn leaves(leaving: &Leaving<'_>, step: &RunStep, state: &State) -> bool
    ensures { (n : ℕ) → IsWithin n state.now → IsWithin n step.now.state
        → All (IsWithin n) leaving.now.states.now
        → result ≡ is_left (map (vector n) leaving.now.states.now) leaving.now.back
        (step_value n step.now) (vector n state.now) }
{
    if leaving.back {
        is_among(leaving.states, state) && !is_same(state, &step.state)
    } else {
        !is_among(leaving.states, state)
    }
}

fn is_among(states: &[State], state: &State) -> bool
    ensures { (n : ℕ) → IsWithin n state.now → All (IsWithin n) states.now
        → result ≡ list_any (same_vector (vector n state.now)) (map (vector n) states.now) }
{
    is_listed(states, state)
}

fn is_listed(states: &[State], state: &State) -> bool
    ensures { result ≡ list_any (λ other. same_state state.now other) states.now }
{
    states.iter().any(|other| is_equal(state, other))
}

fn is_same(state: &State, other: &State) -> bool
    ensures { (n : ℕ) → IsWithin n state.now → IsWithin n other.now
        → result ≡ same_vector (vector n state.now) (vector n other.now) }
{
    is_equal(state, other)
}

fn is_equal(state: &State, other: &State) -> bool
    ensures { result ≡ same_state state.now other.now }
{
    *state == *other
}

/// The state to which an outcome of an action leads; `None` where it leads to none.
fn state_by(task: &Task, before: &State, action: ActionId, outcome: u32) -> Option<State>
    requires listed { outcome < length (outcomes_at task.now action.0) }
    requires before { IsWithin (fluent_count task.now) before.now }
    ensures value { let n = fluent_count task.now in option_map (vector n) result
        ≡ (system_of task.now).after (vector n before.now) action.0 outcome }
    ensures within { IfSome result (IsWithin (fluent_count task.now)) }
{
    if !is_exec(task, before, action) {
        return None;
    }
    let after = step(task, before, action, outcome);
    if in_space(task, &after) {
        Some(after)
    } else {
        None
    }
}
