//! The verdict on a plan that was read, and the run that shows it.

ghost use Rattle.check_command.specs.CheckCommand.{ExploreThen};
ghost use Rattle.check_command.specs.Judged.{HasGoalIn};
ghost use Rattle.command_base.specs.Answers.{no_memory, refused};
ghost use Rattle.command_base.specs.Following.{most_followed};
ghost use Rattle.command_base.specs.InitialStates.{InitialThen, empty_init};
ghost use Rattle.command_base.specs.PlanFiles.{KindThen, is_of_kind};
ghost use Rattle.command_base.specs.Values.{answer_of, kind_of, shown_of};
ghost use Rattle.command_base.specs.Words.{with_contexts};
ghost use Rattle.ctl_syntax.specs.Values.{NamesBelow, ctl_value};
ghost use Rattle.exec_graph.specs.Graphs.{IsGraphOf};
ghost use Rattle.exec_graph.specs.Values.{IsWithinFluents, graph_size};
ghost use Rattle.explain_command.specs.Explained.{ExplainsIn, JudgesIn, ShowsIn};
ghost use Rattle.explain_command.specs.Fairly.{GoalForThen};
ghost use Rattle.explain_command.specs.Values.{explain_words_of, lined_of};
ghost use Rattle.pddl_ast.specs.Values.{problem_value};
ghost use Rattle.plan_rules.specs.Plans.{IsPlanOf};
ghost use Rattle.plan_rules.specs.Rules.{plain_of};
ghost use Rattle.plan_witness.specs.Marked.{IsGraphIn};
ghost use Rattle.std.specs.Prelude.{
  ◌≡◌,
  ◌≢◌,
  ◌⊎◌,
  IfOk,
  IfSome,
  true,
};
ghost use Rattle.task_core.specs.Tasks.{action_count, fluent_count, initial_states, system_of};
ghost use Rattle.task_core.specs.Initials.{HasTooManyInitial};

use crate::fairly::goal_for;
use crate::findings::{Followed, Judge, finding_for};
use crate::lined::Lined;
use crate::shown::shown_as;
use crate::words::{ExplainWords, ShownAs, is_document};
use check_command::{show_verdict, verdict_on};
use command_base::{Limit, PlanKind, Refusal, Shown, no_initial};
use counterexamples::{Source, context_plans_never_end, failures_are_shown};
use exec_graph::{Graph, GraphErr, explore};
use ground_task::Grounded;
use pddl_ast::Problem;
use plan_rules::Plan;
use sexpr_text::{FaultKind, InputFault};
use std::alloc::{AllocError, Global};

/// The verdict on a plan that was read, explained.
pub(crate) fn explain_read(
    alloc: Global,
    asked: &ExplainWords,
    problem: &Problem,
    grounded: Grounded,
    lined: &Lined,
) -> Result<Shown, Refusal>
    requires goal { HasGoalIn (kind_of asked.now.check.kind) grounded.task grounded.ctl }
    requires fair { asked.now.fair ≡ true → kind_of asked.now.check.kind ≡ with_contexts }
    requires goal_names { IfSome grounded.ctl
        (λ goal. NamesBelow (fluent_count grounded.task) (ctl_value goal)) }
    requires in_task { IsPlanOf (fluent_count grounded.task) (action_count grounded.task)
        lined.now.read.plan }
    ensures { let words = explain_words_of asked.now in
        let placed = (lined_of lined.now).placed in
        let place = (problem_value problem.now).ctl_place in
        (answer_of result ≡ refused no_memory)
        ⊎ KindThen words.check.kind words.check.plan placed.place placed.plan
        (GoalForThen words.fair words.check.problem place grounded.ctl (λ judged.
        ExploreThen (HasTooManyInitial grounded.task most_followed) (system_of grounded.task)
        placed.plan
        (InitialThen (empty_init words.check.problem (problem_value problem.now))
        (initial_states grounded.task)
        (ShowsIn words.shown words grounded.task (lined_of lined.now) judged))))
        (answer_of result) }
{
    if !is_plan_of_kind(asked.check.kind, &lined.read.plan) {
        return Err(Refusal::TextFault(
            String::from_str(alloc, asked.check.plan)?,
            InputFault {
                kind: FaultKind::WrongPlanKind,
                place: lined.read.place,
            },
        ));
    }
    let judged_by = goal_for(alloc, asked, problem, grounded)?;
    explain_followed(alloc, asked, problem, &judged_by, lined)
}

/// Whether the plan is of the kind.
fn is_plan_of_kind(kind: PlanKind, plan: &Plan) -> bool
    ensures { result ≡ is_of_kind (kind_of kind) (plain_of plan.now) }
{
    match (kind, plan) {
        (PlanKind::Class(_), Plan::Table(_)) => true,
        (PlanKind::Contexts, Plan::Auto(_)) => true,
        _ => false,
    }
}

/// The verdict on a plan of the kind, explained, for the goal by which it is judged.
fn explain_followed(
    alloc: Global,
    asked: &ExplainWords,
    problem: &Problem,
    grounded: &Grounded,
    lined: &Lined,
) -> Result<Shown, Refusal>
    requires goal { HasGoalIn (kind_of asked.now.check.kind) grounded.now.task grounded.now.ctl }
    requires goal_names { IfSome grounded.now.ctl
        (λ goal. NamesBelow (fluent_count grounded.now.task) (ctl_value goal)) }
    requires in_task { IsPlanOf (fluent_count grounded.now.task) (action_count grounded.now.task)
        lined.now.read.plan }
    requires of_kind { is_of_kind (kind_of asked.now.check.kind) (plain_of lined.now.read.plan)
        ≡ true }
    ensures { let task = grounded.now.task in
        let words = explain_words_of asked.now in
        (answer_of result ≡ refused no_memory)
        ⊎ ExploreThen (HasTooManyInitial task most_followed)
        (system_of task) (plain_of lined.now.read.plan)
        (InitialThen (empty_init words.check.problem (problem_value problem.now))
        (initial_states task)
        (ShowsIn words.shown words task (lined_of lined.now) grounded.now.ctl))
        (answer_of result) }
{
    match explore(alloc, &grounded.task, &lined.read.plan) {
        Ok(graph) => {
            if graph.len() == 0 {
                return Err(no_initial(alloc, asked.check.problem, problem)?);
            }
            Ok(shown_graph(alloc, asked, grounded, lined, &graph)?)
        }
        Err(GraphErr::Initial) => Err(Refusal::OverLimit(Limit::Initial)),
        Err(GraphErr::TooLarge) => Err(Refusal::OverLimit(Limit::Configurations)),
        Err(GraphErr::Memory) => Err(Refusal::NoMemory),
    }
}

/// What is shown of the verdict on a plan of the kind with this graph.
fn shown_graph(
    alloc: Global,
    asked: &ExplainWords,
    grounded: &Grounded,
    lined: &Lined,
    graph: &Graph,
) -> Result<Shown, AllocError>
    requires goal { HasGoalIn (kind_of asked.now.check.kind) grounded.now.task grounded.now.ctl }
    requires goal_names { IfSome grounded.now.ctl
        (λ goal. NamesBelow (fluent_count grounded.now.task) (ctl_value goal)) }
    requires in_task { IsPlanOf (fluent_count grounded.now.task) (action_count grounded.now.task)
        lined.now.read.plan }
    requires of_kind { is_of_kind (kind_of asked.now.check.kind) (plain_of lined.now.read.plan)
        ≡ true }
    requires graph { IsGraphIn grounded.now.task lined.now.read.plan graph.now }
    requires some { graph_size graph.now ≢ 0 }
    requires inside { IsWithinFluents (fluent_count grounded.now.task) graph.now }
    ensures { let words = explain_words_of asked.now in IfOk result (λ shown.
        ShowsIn words.shown words grounded.now.task (lined_of lined.now) grounded.now.ctl
        (shown_of shown)) }
{
    match asked.shown {
        ShownAs::Verdict => judge_graph(alloc, asked, grounded, lined, graph),
        ShownAs::Run => explain_graph(alloc, asked, grounded, lined, graph),
        ShownAs::Document => explain_graph(alloc, asked, grounded, lined, graph),
    }
}

/// The verdict on a plan of the kind with this graph.
fn judge_graph(
    alloc: Global,
    asked: &ExplainWords,
    grounded: &Grounded,
    lined: &Lined,
    graph: &Graph,
) -> Result<Shown, AllocError>
    requires goal { HasGoalIn (kind_of asked.now.check.kind) grounded.now.task grounded.now.ctl }
    requires goal_names { IfSome grounded.now.ctl
        (λ goal. NamesBelow (fluent_count grounded.now.task) (ctl_value goal)) }
    requires in_task { IsPlanOf (fluent_count grounded.now.task) (action_count grounded.now.task)
        lined.now.read.plan }
    requires of_kind { is_of_kind (kind_of asked.now.check.kind) (plain_of lined.now.read.plan)
        ≡ true }
    requires graph { IsGraphIn grounded.now.task lined.now.read.plan graph.now }
    requires some { graph_size graph.now ≢ 0 }
    requires inside { IsWithinFluents (fluent_count grounded.now.task) graph.now }
    ensures { IfOk result (λ shown. JudgesIn (explain_words_of asked.now) grounded.now.task
        (lined_of lined.now) grounded.now.ctl (shown_of shown)) }
{
    let verdict = verdict_on(alloc, asked.check.kind, grounded, graph)?;
    show_verdict(alloc, &verdict)
}

/// The verdict on a plan of the kind with this graph, explained.
fn explain_graph(
    alloc: Global,
    asked: &ExplainWords,
    grounded: &Grounded,
    lined: &Lined,
    graph: &Graph,
) -> Result<Shown, AllocError>
    requires goal { HasGoalIn (kind_of asked.now.check.kind) grounded.now.task grounded.now.ctl }
    requires goal_names { IfSome grounded.now.ctl
        (λ goal. NamesBelow (fluent_count grounded.now.task) (ctl_value goal)) }
    requires in_task { IsPlanOf (fluent_count grounded.now.task) (action_count grounded.now.task)
        lined.now.read.plan }
    requires of_kind { is_of_kind (kind_of asked.now.check.kind) (plain_of lined.now.read.plan)
        ≡ true }
    requires graph { IsGraphIn grounded.now.task lined.now.read.plan graph.now }
    requires some { graph_size graph.now ≢ 0 }
    requires inside { IsWithinFluents (fluent_count grounded.now.task) graph.now }
    ensures { IfOk result (λ shown. ExplainsIn (explain_words_of asked.now) grounded.now.task
        (lined_of lined.now) grounded.now.ctl (shown_of shown)) }
{
    // These do nothing: that a run shows each verdict rests on what they promise.
    failures_are_shown();
    context_plans_never_end();
    let verdict = verdict_on(alloc, asked.check.kind, grounded, graph)?;
    let judge = Judge {
        kind: asked.check.kind,
        fair: asked.fair,
    };
    let followed = Followed {
        grounded,
        plan: &lined.read.plan,
        graph,
    };
    let finding = finding_for(alloc, judge, &followed, &verdict)?;
    let source = Source {
        task: &grounded.task,
        plan: &lined.read.plan,
        lines: &lined.lines,
    };
    shown_as(alloc, is_document(asked.shown), &source, &verdict, &finding)
}
