//! From what is asked to the answer.

ghost use Rattle.command_base.specs.Answers.{no_memory, refused};
ghost use Rattle.command_base.specs.Fetching.{HoldsSomePlan, RefusesPlan, Stops};
ghost use Rattle.command_base.specs.Grounding.{GroundThen};
ghost use Rattle.command_base.specs.InitialStates.{empty_init};
ghost use Rattle.command_base.specs.Shelves.{KeepsShelf};
ghost use Rattle.command_base.specs.Values.{answer_of, replay_words_of};
ghost use Rattle.explain_command.specs.Values.{lined_of};
ghost use Rattle.trace_command.specs.Told.{IsTold, IsToldAnswer, RecordThen, TaskThen};
ghost use Rattle.pddl_ast.specs.Fits.{FitsDomain, FitsProblem};
ghost use Rattle.pddl_ast.specs.Values.{domain_value, problem_value};
ghost use Rattle.pddl_system.specs.Names.{NamesAreWords};
ghost use Rattle.pddl_system.specs.Sizes.{first_passed};
ghost use Rattle.pddl_system.specs.Systems.{
  action_names as names_of_actions,
  fluent_names as names_of_fluents,
};
ghost use Rattle.plan_io.specs.Fetches.{FailedLast, Fetches};
ghost use Rattle.plan_rules.specs.Plans.{IsPlanOf};
ghost use Rattle.replay_command.specs.RunFetches.{FetchRecord, FetchesToReplay};
ghost use Rattle.std.specs.Prelude.{◌≡◌, ◌⊎◌, [], ◌∷◌, None};
ghost use Rattle.task_core.specs.Tasks.{action_count, action_names, fluent_count, fluent_names};

use crate::shown::show_record;
use command_base::{Refusal, ReplayWords, Shown, grounded, read_both};
use explain_command::{Lined, read_lined};
use pddl_ast::Problem;
use plan_io::Shelf;
use replay_command::{ReplayProblem, ReplayRequest, read_record_file};
use std::alloc::Global;
use task_core::Task;

/// What was asked for, the problem, the task that it is grounded to, and the plan that its file holds.
#[derive(Clone, Copy)]
pub(crate) struct RunRequest<'a> {
    pub(crate) asked: &'a ReplayWords<'a>,
    pub(crate) problem: &'a Problem,
    pub(crate) task: &'a Task,
    pub(crate) lined: &'a Lined,
}

/// The run of the plan under the record, told, for the domain and the problem, all in files.
///
/// The answer is yes where `replay` shows the run, and no where it refuses it.
pub fn trace_files<S: Shelf>(
    alloc: Global,
    shelf: &mut S,
    asked: &ReplayWords,
) -> Result<Shown, Refusal>
    ensures answer { let failed = FailedLast S.fetched S.faults shelf.old shelf.new in
        (answer_of result ≡ refused no_memory)
        ⊎ IsToldAnswer (S.held shelf.old) failed (replay_words_of asked.now) (answer_of result) }
    ensures fetches { let failed = FailedLast S.fetched S.faults shelf.old shelf.new in
        FetchesToReplay (S.held shelf.old) failed S.fetched (replay_words_of asked.now)
        (answer_of result) shelf.old shelf.new }
    ensures shelf { KeepsShelf S.held S.faults (answer_of result) shelf.old shelf.new }
{
    let (domain, problem) = read_both(alloc, shelf, asked.domain, asked.problem)?;
    let sought = ReplayProblem {
        asked,
        domain: &domain,
        problem: &problem,
    };
    trace_problem(alloc, shelf, &sought)
}

/// The run, told, for a domain and a problem.
fn trace_problem<S: Shelf>(
    alloc: Global,
    shelf: &mut S,
    sought: &ReplayProblem<'_>,
) -> Result<Shown, Refusal>
    requires fits_domain { FitsDomain (domain_value sought.now.domain.now) }
    requires fits_problem { FitsProblem (domain_value sought.now.domain.now)
        (problem_value sought.now.problem.now) }
    requires names { NamesAreWords (domain_value sought.now.domain.now)
        (problem_value sought.now.problem.now) }
    ensures answer { let failed = FailedLast S.fetched S.faults shelf.old shelf.new in
        (answer_of result ≡ refused no_memory)
        ⊎ IsTold (S.held shelf.old) failed (replay_words_of sought.now.asked.now)
        (domain_value sought.now.domain.now) (problem_value sought.now.problem.now)
        (answer_of result) }
    ensures fetches { let failed = FailedLast S.fetched S.faults shelf.old shelf.new in
        let domain = domain_value sought.now.domain.now in
        let problem = problem_value sought.now.problem.now in
        let fluents = names_of_fluents domain problem in
        let actions = names_of_actions domain problem in
        (Stops (GroundThen domain problem (λ answer. ⊥)) (answer_of result)
        × (shelf.new ≡ shelf.old))
        ⊎ ((first_passed domain problem ≡ None)
        × FetchRecord S.fetched (replay_words_of sought.now.asked.now)
        (RefusesPlan (S.held shelf.old) failed fluents actions sought.now.asked.now.plan.now)
        (HoldsSomePlan (S.held shelf.old) fluents actions sought.now.asked.now.plan.now)
        (answer_of result) shelf.old shelf.new) }
    ensures shelf { KeepsShelf S.held S.faults (answer_of result) shelf.old shelf.new }
{
    let ReplayProblem {
        asked,
        domain,
        problem,
    } = *sought;
    let task = grounded(alloc, domain, problem)?;
    let request = ReplayRequest {
        asked,
        problem,
        task: &task,
    };
    trace_task(alloc, shelf, &request)
}

/// The run, told, for a task.
fn trace_task<S: Shelf>(
    alloc: Global,
    shelf: &mut S,
    request: &ReplayRequest<'_>,
) -> Result<Shown, Refusal>
    ensures answer { let failed = FailedLast S.fetched S.faults shelf.old shelf.new in
        let asked = request.now.asked.now in
        (answer_of result ≡ refused no_memory)
        ⊎ TaskThen (S.held shelf.old) failed (replay_words_of asked)
        (empty_init asked.problem.now (problem_value request.now.problem.now))
        request.now.task.now (answer_of result) }
    ensures fetches { let failed = FailedLast S.fetched S.faults shelf.old shelf.new in
        let task = request.now.task.now in
        let asked = request.now.asked.now in
        FetchRecord S.fetched (replay_words_of asked)
        (RefusesPlan (S.held shelf.old) failed (fluent_names task) (action_names task)
        asked.plan.now)
        (HoldsSomePlan (S.held shelf.old) (fluent_names task) (action_names task) asked.plan.now)
        (answer_of result) shelf.old shelf.new }
    ensures shelf { KeepsShelf S.held S.faults (answer_of result) shelf.old shelf.new }
{
    let lined = read_lined(alloc, shelf, request.asked.plan, request.task)?;
    let run = RunRequest {
        asked: request.asked,
        problem: request.problem,
        task: request.task,
        lined: &lined,
    };
    trace_plan(alloc, shelf, &run)
}

/// The run of a plan of the task, told, under the record in its file.
fn trace_plan<S: Shelf>(
    alloc: Global,
    shelf: &mut S,
    request: &RunRequest<'_>,
) -> Result<Shown, Refusal>
    requires in_task { let task = request.now.task.now in
        IsPlanOf (fluent_count task) (action_count task) request.now.lined.now.read.plan }
    ensures answer { let failed = FailedLast S.fetched S.faults shelf.old shelf.new in
        let asked = request.now.asked.now in
        (answer_of result ≡ refused no_memory)
        ⊎ RecordThen (S.held shelf.old) failed asked.recorded.now
        (empty_init asked.problem.now (problem_value request.now.problem.now))
        request.now.task.now (lined_of request.now.lined.now) (answer_of result) }
    ensures fetches { Fetches S.fetched (request.now.asked.now.recorded.now ∷ []) shelf.old shelf.new }
    ensures shelf { KeepsShelf S.held S.faults (answer_of result) shelf.old shelf.new }
{
    let recorded = read_record_file(alloc, shelf, request.asked.recorded)?;
    show_record(alloc, request, &recorded)
}
