//! What is shown of a run.

ghost use Rattle.command_base.specs.Answers.{no_memory, refused};
ghost use Rattle.command_base.specs.Following.{most_followed};
ghost use Rattle.command_base.specs.InitialStates.{empty_init};
ghost use Rattle.command_base.specs.Values.{answer_of, shown_of};
ghost use Rattle.trace_command.specs.Told.{IsRunTold};
ghost use Rattle.explain_command.specs.Values.{lined_of};
ghost use Rattle.trace_command.specs.Values.{answer_at};
ghost use Rattle.pddl_ast.specs.Values.{problem_value};
ghost use Rattle.plan_rules.specs.Plans.{IsPlanOf};
ghost use Rattle.trace.specs.Values.{stop_value};
ghost use Rattle.replay_command.specs.ReplayCommand.{FirstThen};
ghost use Rattle.run_replay.specs.Records.{record_value};
ghost use Rattle.std.specs.Prelude.{◌≡◌, ◌⊎◌, IfOk};
ghost use Rattle.task_core.specs.States.{IsWithin, vector};
ghost use Rattle.task_core.specs.Tasks.{action_count, fluent_count, initial_states};
ghost use Rattle.task_core.specs.Initials.{HasTooManyInitial};

use crate::commands::RunRequest;
use command_base::{Refusal, Shown, Text};
use counterexamples::Source;
use replay_command::{ReplayRequest, first_state};
use run_replay::Recorded;
use std::alloc::{AllocError, Global};
use task_core::State;
use trace::{Stop, recorded_run, recorded_text};

/// The run of a plan of the task, told, under a record that was read out of its file.
pub(crate) fn show_record(
    alloc: Global,
    request: &RunRequest<'_>,
    recorded: &Recorded,
) -> Result<Shown, Refusal>
    requires in_task { let task = request.now.task.now in
        IsPlanOf (fluent_count task) (action_count task) request.now.lined.now.read.plan }
    ensures { let task = request.now.task.now in
        let asked = request.now.asked.now in
        let record_is = record_value recorded.now in
        (answer_of result ≡ refused no_memory)
        ⊎ FirstThen (HasTooManyInitial task most_followed)
        (empty_init asked.problem.now (problem_value request.now.problem.now))
        (initial_states task) asked.recorded.now record_is
        (IsRunTold task (lined_of request.now.lined.now) record_is) (answer_of result) }
{
    let named = ReplayRequest {
        asked: request.asked,
        problem: request.problem,
        task: request.task,
    };
    let first = first_state(alloc, &named, recorded)?;
    show_run(alloc, request, recorded, &first)
}

/// The run of a plan of the task from a state, told, or want of memory.
fn show_run(
    alloc: Global,
    request: &RunRequest<'_>,
    recorded: &Recorded,
    first: &State,
) -> Result<Shown, Refusal>
    requires in_task { let task = request.now.task.now in
        IsPlanOf (fluent_count task) (action_count task) request.now.lined.now.read.plan }
    requires within { IsWithin (fluent_count request.now.task.now) first.now }
    ensures { let task = request.now.task.now in (answer_of result ≡ refused no_memory)
        ⊎ IsRunTold task (lined_of request.now.lined.now) (record_value recorded.now)
        (vector (fluent_count task) first.now) (answer_of result) }
{
    Ok(told_run(alloc, request, recorded, first)?)
}

/// The run of a plan of the task from a state, told.
fn told_run(
    alloc: Global,
    request: &RunRequest<'_>,
    recorded: &Recorded,
    first: &State,
) -> Result<Shown, AllocError>
    requires in_task { let task = request.now.task.now in
        IsPlanOf (fluent_count task) (action_count task) request.now.lined.now.read.plan }
    requires within { IsWithin (fluent_count request.now.task.now) first.now }
    ensures { let task = request.now.task.now in IfOk result (λ shown.
        IsRunTold task (lined_of request.now.lined.now) (record_value recorded.now)
        (vector (fluent_count task) first.now) (shown_of shown)) }
{
    let plan = &request.lined.read.plan;
    let made = recorded_run(alloc, request.task, plan, first, &recorded.words)?;
    let source = Source {
        task: request.task,
        plan,
        lines: &request.lined.lines,
    };
    let text = recorded_text(alloc, &source, recorded.first, first, &made)?;
    Ok(answer_with(&made.stop, text.into_bytes()))
}

/// The answer with this text: yes where `replay` shows a run that stops so.
fn answer_with(stop: &Stop<'_>, text: Vec<u8>) -> Shown
    ensures { shown_of result ≡ answer_at text.items (stop_value stop.now) }
{
    match stop {
        Stop::PlanEnds(None) => Shown::Affirmed(Text::Made(text)),
        Stop::PlanEnds(Some(_)) => Shown::Affirmed(Text::Made(text)),
        Stop::RecordEnds(_) => Shown::Affirmed(Text::Made(text)),
        Stop::MostMade => Shown::Affirmed(Text::Made(text)),
        Stop::NoOutcome(_, _, _) => Shown::Denied(Text::Made(text)),
        Stop::NotExecutable(_, _) => Shown::Denied(Text::Made(text)),
    }
}
