//! What is told of a verdict on a plan.

ghost use Rattle.check_command.specs.Judged.{HasGoalIn, IsTaskVerdict};
ghost use Rattle.command_base.specs.Values.{kind_of};
ghost use Rattle.command_base.specs.Words.{with_contexts};
ghost use Rattle.ctl_syntax.specs.Values.{NamesBelow, ctl_value};
ghost use Rattle.exec_graph.specs.Values.{IsWithinFluents};
ghost use Rattle.explain_command.specs.Findings.{
  IsFindingFor,
  IsMissing,
  IsTold,
  misses_goal as is_missed,
};
ghost use Rattle.counterexamples.specs.Values.{finding_value};
ghost use Rattle.plan_rules.specs.Plans.{IsPlanOf};
ghost use Rattle.plan_rules.specs.Rules.{plain_of};
ghost use Rattle.plan_witness.specs.Marked.{IsGraphIn};
ghost use Rattle.std.specs.Prelude.{◌≡◌, IfOk, IfSome, IsSome};
ghost use Rattle.task_core.specs.Tasks.{action_count, fluent_count};

use command_base::{PlanKind, goal_in};
use counterexamples::{Finding, JudgedBy, find_for_class, find_for_contexts, find_miss, with_run};
use exec_graph::Graph;
use ground_task::Grounded;
use plan_check::{Reason, Verdict};
use plan_rules::Plan;
use plan_witness::Scene;
use std::alloc::{AllocError, Global};

/// By what a plan is judged: its kind, and whether its actions may be tried again.
#[derive(Clone, Copy)]
pub(crate) struct Judge {
    pub(crate) kind: PlanKind,
    pub(crate) fair: bool,
}

/// A plan that was followed in a task, with its graph.
#[derive(Clone, Copy)]
pub(crate) struct Followed<'a> {
    pub(crate) grounded: &'a Grounded,
    pub(crate) plan: &'a Plan,
    pub(crate) graph: &'a Graph,
}

/// What is told of the verdict on a plan of the kind.
pub(crate) fn finding_for<'a>(
    alloc: Global,
    judge: Judge,
    followed: &Followed<'a>,
    verdict: &Verdict,
) -> Result<Finding<'a>, AllocError>
    requires goal { HasGoalIn (kind_of judge.kind) followed.now.grounded.now.task
        followed.now.grounded.now.ctl }
    requires names { IfSome followed.now.grounded.now.ctl
        (λ goal. NamesBelow (fluent_count followed.now.grounded.now.task) (ctl_value goal)) }
    requires plan { let task = followed.now.grounded.now.task in
        IsPlanOf (fluent_count task) (action_count task) followed.now.plan.now }
    requires graph { IsGraphIn followed.now.grounded.now.task followed.now.plan.now
        followed.now.graph.now }
    requires inside { IsWithinFluents (fluent_count followed.now.grounded.now.task)
        followed.now.graph.now }
    requires verdict { let task = followed.now.grounded.now.task in
        IsTaskVerdict (kind_of judge.kind) task followed.now.grounded.now.ctl
        (plain_of followed.now.plan.now) verdict.now }
    ensures { let task = followed.now.grounded.now.task in IfOk result (λ finding.
        IsFindingFor judge.fair (kind_of judge.kind) task followed.now.grounded.now.ctl
        (plain_of followed.now.plan.now) verdict.now (finding_value (fluent_count task) finding)) }
{
    if misses_goal(judge.kind, verdict) {
        return missed(alloc, judge.fair, followed);
    }
    told(alloc, judge.kind, followed, verdict)
}

/// Whether the verdict is that a plan with contexts misses its goal.
fn misses_goal(kind: PlanKind, verdict: &Verdict) -> bool
    ensures { result ≡ is_missed (kind_of kind) verdict.now }
{
    match kind {
        PlanKind::Class(_) => false,
        PlanKind::Contexts => is_formula(verdict),
    }
}

/// Whether the verdict is that a goal is missed.
fn is_formula(verdict: &Verdict) -> bool
    ensures { result ≡ is_missed with_contexts verdict.now }
{
    match verdict {
        Verdict::Yes { bound: _ } => false,
        Verdict::No(Reason::Unexecutable) => false,
        Verdict::No(Reason::Stuck) => false,
        Verdict::No(Reason::Terminal) => false,
        Verdict::No(Reason::Cycle) => false,
        Verdict::No(Reason::Unreachable) => false,
        Verdict::No(Reason::Formula) => true,
    }
}

/// A run that shows why a plan with contexts misses the goal by which it is judged.
fn missed<'a>(alloc: Global, fair: bool, followed: &Followed<'a>) -> Result<Finding<'a>, AllocError>
    requires goal { IsSome followed.now.grounded.now.ctl }
    requires names { IfSome followed.now.grounded.now.ctl
        (λ goal. NamesBelow (fluent_count followed.now.grounded.now.task) (ctl_value goal)) }
    requires plan { let task = followed.now.grounded.now.task in
        IsPlanOf (fluent_count task) (action_count task) followed.now.plan.now }
    requires graph { IsGraphIn followed.now.grounded.now.task followed.now.plan.now
        followed.now.graph.now }
    requires inside { IsWithinFluents (fluent_count followed.now.grounded.now.task)
        followed.now.graph.now }
    ensures { let task = followed.now.grounded.now.task in IfOk result (λ finding.
        IsMissing fair task followed.now.grounded.now.ctl (plain_of followed.now.plan.now)
        (finding_value (fluent_count task) finding)) }
{
    let by = JudgedBy {
        goal: goal_in(followed.grounded),
        fair,
    };
    let run = find_miss(
        alloc,
        &followed.grounded.task,
        followed.plan,
        followed.graph,
        by,
    )?;
    Ok(with_run(run))
}

/// What is told of any other verdict on a plan of the kind.
fn told<'a>(
    alloc: Global,
    kind: PlanKind,
    followed: &Followed<'a>,
    verdict: &Verdict,
) -> Result<Finding<'a>, AllocError>
    requires goal { HasGoalIn (kind_of kind) followed.now.grounded.now.task
        followed.now.grounded.now.ctl }
    requires plan { let task = followed.now.grounded.now.task in
        IsPlanOf (fluent_count task) (action_count task) followed.now.plan.now }
    requires graph { IsGraphIn followed.now.grounded.now.task followed.now.plan.now
        followed.now.graph.now }
    requires inside { IsWithinFluents (fluent_count followed.now.grounded.now.task)
        followed.now.graph.now }
    requires verdict { let task = followed.now.grounded.now.task in
        IsTaskVerdict (kind_of kind) task followed.now.grounded.now.ctl
        (plain_of followed.now.plan.now) verdict.now }
    ensures { let task = followed.now.grounded.now.task in IfOk result (λ finding.
        IsTold (kind_of kind) verdict.now task (plain_of followed.now.plan.now)
        (finding_value (fluent_count task) finding)) }
{
    let scene = Scene {
        task: &followed.grounded.task,
        plan: followed.plan,
        graph: followed.graph,
    };
    match kind {
        PlanKind::Class(class) => find_for_class(alloc, &scene, class, verdict),
        PlanKind::Contexts => find_for_contexts(alloc, &scene, verdict),
    }
}
