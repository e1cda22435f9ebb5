//! What is told beside that there is no plan of a class.

ghost use Rattle.dead_ends.specs.Texts.{run_text as text_of_run};
ghost use Rattle.dead_ends.specs.Values.{stray_value};
ghost use Rattle.plan_witness.specs.Values.{run_value};
ghost use Rattle.plan_witness.specs.Within.{IsRunWithin};
ghost use Rattle.std.specs.List.{All};
ghost use Rattle.std.specs.Option.{option_map};
ghost use Rattle.std.specs.Prelude.{
  ◌≡◌,
  ◌++◌,
  IfOk,
  IfSome,
  IsSome,
  OnOk,
  map,
  string_bytes,
};
ghost use Rattle.task_core.specs.States.{IsWithin, vector};
ghost use Rattle.task_core.specs.Tasks.{
  action_names,
  fluent_count,
  fluent_names,
  initial_states,
  system_of,
};
ghost use Rattle.dead_ends.specs.ToldRuns.{
  IsLostIf,
  IsRunTold,
  IsTold,
  note_text,
};
ghost use Rattle.dead_ends.specs.Started.{IsFirstStart, IsFrontOf, IsLike};
ghost use Rattle.dead_ends.specs.ToldFrom.{IsToldFrom};

use crate::outlooks::{Wanted, first_dead_end, start_at};
use crate::planners::Planner;
use crate::strays::{Stray, strays_of};
use crate::texts::{push_dead_end, push_run};
use crate::weak_runs::weak_run;
use plan_rules::Class;
use plan_witness::Run;
use std::alloc::{AllocError, Global};
use task_core::{InitErr, State, Task, init_states};

/// How many initial states are listed at most, and from how many a plan is looked for.
const MOST_LISTED: usize = 262_144;

const MOST_TRIED: usize = 64;

/// A run that is told: the number of the initial state in which it begins, the run, and the first outcome
/// that leaves it to a dead end, if one is known.
#[derive(Drop)]
struct Told {
    number: usize,
    run: Run,
    lost: Option<Stray>,
}

/// The text of a run from the first initial state from which there is no plan of the class: a shortest
/// run of a weak plan to the goal, and the first outcome that leaves it to a dead end, if one is known.
/// `None` where no such run is known. Only the first 64 initial states are tried. The task goes on with
/// another initial state.
pub fn run_to_goal<P: Planner>(
    alloc: Global,
    planner: &P,
    class: Class,
    task: &mut Task,
) -> Result<Option<String>, AllocError>
    requires { P.fits planner.now }
    ensures { IfOk result (λ found. IfSome found (λ text.
        IsRunTold class (system_of task.old) (fluent_names task.old) (action_names task.old)
        (string_bytes text))) }
{
    let wanted = Wanted { class, planner };
    match told_run(alloc, &wanted, task)? {
        Some(told) => Ok(Some(text_of(alloc, class, task, &told)?)),
        None => Ok(None),
    }
}

fn text_of(alloc: Global, class: Class, task: &Task, told: &Told) -> Result<String, AllocError>
    ensures { let n = fluent_count task.now in IfOk result (λ text. string_bytes text
        ≡ text_of_run (fluent_names task.now) (action_names task.now) told.now.number
        (run_value n told.now.run)
        ++ note_text (fluent_names task.now) class (option_map (stray_value n) told.now.lost)) }
{
    let mut out = String::new(alloc);
    push_run(&mut out, task, told.number, &told.run)?;
    push_note(&mut out, task, class, &told.lost)?;
    Ok(out)
}

/// Appends the line of a dead end, if there is one.
fn push_note(
    out: &mut String,
    task: &Task,
    class: Class,
    lost: &Option<Stray>,
) -> Result<(), AllocError>
    ensures { let n = fluent_count task.now in
        OnOk result (string_bytes out.new ≡ string_bytes out.old
        ++ note_text (fluent_names task.now) class (option_map (stray_value n) lost.now)) }
{
    match lost {
        Some(stray) => push_dead_end(out, task, class, stray),
        None => Ok(()),
    }
}

/// The run that is told of a class, if one is. The task goes on with another initial state.
fn told_run<P: Planner>(
    alloc: Global,
    wanted: &Wanted<'_, P>,
    task: &mut Task,
) -> Result<Option<Told>, AllocError>
    requires { P.fits wanted.now.planner.now }
    ensures told { let n = fluent_count task.old in IfOk result (λ found. IfSome found (λ told.
        IsTold wanted.now.class (system_of task.old) told.number (run_value n told.run)
        × IsLostIf wanted.now.class (system_of task.old) (run_value n told.run)
        (option_map (stray_value n) told.lost))) }
    ensures like { IsLike task.old task.new }
{
    match first_initial(alloc, wanted, task)? {
        Some(number) => told_from(alloc, wanted, task, number),
        None => Ok(None),
    }
}

/// The run that is told of a class from the initial state of this number, with which the task begins, if
/// one is. The task goes on with another initial state.
fn told_from<P: Planner>(
    alloc: Global,
    wanted: &Wanted<'_, P>,
    task: &mut Task,
    number: usize,
) -> Result<Option<Told>, AllocError>
    requires fits { P.fits wanted.now.planner.now }
    requires goal { IsSome task.old.goal }
    ensures told { IfOk result (λ found. IfSome found
        (IsToldFrom wanted.now.class task.old number)) }
    ensures like { IsLike task.old task.new }
{
    match weak_run(alloc, wanted.planner, task)? {
        Some(run) => {
            let lost = lost_outcome(alloc, wanted, task, &run)?;
            Ok(Some(Told { number, run, lost }))
        }
        None => Ok(None),
    }
}

/// The number of the first initial state from which there is no plan of the class, with which the task
/// goes on alone; `None` where none is known.
fn first_initial<P: Planner>(
    alloc: Global,
    wanted: &Wanted<'_, P>,
    task: &mut Task,
) -> Result<Option<usize>, AllocError>
    requires { P.fits wanted.now.planner.now }
    ensures first { IfOk result (λ found. IfSome found (λ number.
        IsFirstStart wanted.now.class task.old number task.new)) }
    ensures goal { IfOk result (λ found. IfSome found (λ _. IsSome task.old.goal)) }
    ensures like { IsLike task.old task.new }
{
    if task.goal.is_none() {
        return Ok(None);
    }
    let states = first_states(alloc, task)?;
    match first_dead_end(alloc, wanted, task, &states)? {
        Some(number) => {
            start_at(alloc, task, &states[number]);
            Ok(Some(number))
        }
        None => Ok(None),
    }
}

/// The first initial states of a task; none where they are too many to be listed.
fn first_states(alloc: Global, task: &Task) -> Result<Vec<State>, AllocError>
    ensures states { let n = fluent_count task.now in IfOk result (λ states.
        IsFrontOf (initial_states task.now) (map (vector n) states.items)) }
    ensures within { IfOk result (λ states.
        All (IsWithin (fluent_count task.now)) states.items) }
{
    match init_states(alloc, task, MOST_LISTED) {
        Ok(states) => {
            let mut states = states;
            states.truncate(MOST_TRIED);
            Ok(states)
        }
        Err(InitErr::TooMany) => Ok(Vec::new(alloc)),
        Err(InitErr::Memory) => Err(AllocError),
    }
}

/// The first outcome that leaves a run to a state from which there is no plan of the class, if one is
/// known. The task goes on with another initial state.
fn lost_outcome<P: Planner>(
    alloc: Global,
    wanted: &Wanted<'_, P>,
    task: &mut Task,
    run: &Run,
) -> Result<Option<Stray>, AllocError>
    requires fits { P.fits wanted.now.planner.now }
    requires goal { IsSome task.old.goal }
    requires within { IsRunWithin (fluent_count task.old) run.now }
    ensures lost { let n = fluent_count task.old in IfOk result (λ found.
        IsLostIf wanted.now.class (system_of task.old) (run_value n run.now)
        (option_map (stray_value n) found)) }
    ensures like { IsLike task.old task.new }
{
    let strays = strays_of(alloc, task, run)?;
    let states = states_of(alloc, &strays)?;
    match first_dead_end(alloc, wanted, task, &states)? {
        Some(place) => Ok(Some(strays[place])),
        None => Ok(None),
    }
}

/// The states to which outcomes lead.
fn states_of(alloc: Global, strays: &[Stray]) -> Result<Vec<State>, AllocError>
    ensures { IfOk result (λ states. states.items ≡ map (λ stray. stray.state) strays.now) }
{
    strays.iter().map(|stray| stray.state).collect(alloc)
}
