//! Judging a plan: nothing is shown that isn't a controller.

ghost use Rattle.control_command.specs.Judged.{
  HasNoGraph,
  IsFoundGood,
  IsGoodAlong,
  IsJudged,
  IsTableGoodOnSets,
  IsYesFor,
};
ghost use Rattle.command_base.specs.Words.{IsNodeLimit};
ghost use Rattle.ctl_syntax.specs.Values.{NamesBelow, ctl_value};
ghost use Rattle.exec_graph.specs.Graphs.{IsGraphOf};
ghost use Rattle.exec_graph.specs.Values.{plain_graph};
ghost use Rattle.check_command.specs.Judged.{HasGoalIn};
ghost use Rattle.plan_command.specs.PlanCommand.{IsWrittenFor};
ghost use Rattle.command_base.specs.PlanFiles.{is_of_kind};
ghost use Rattle.command_base.specs.Values.{kind_of};
ghost use Rattle.plan_check.specs.Verdicts.{SaysYes};
ghost use Rattle.plan_rules.specs.Plans.{IsPlanOf};
ghost use Rattle.plan_rules.specs.Rules.{PlainPlan, plain_of};
ghost use Rattle.std.specs.Prelude.{
  ◌≡◌,
  ◌↔◌,
  IfNone,
  IfOk,
  IfSome,
  IsTrue,
  true,
};
ghost use Rattle.task_core.specs.Tasks.{action_count, fluent_count, system_of};

use crate::set_judge::are_good_rules;
use check_command::verdict_on;
use command_base::PlanKind;
use controller_rules::{is_plan_of, names_last_context, rules_serve};
use exec_graph::{Graph, GraphErr, explore};
use ground_task::Grounded;
use plan_check::Verdict;
use plan_document::is_told_in_full;
use plan_rules::{Class, Plan};
use std::alloc::{AllocError, Global};

/// Whether a plan is a controller for a task and its goals. It isn't where there is no initial state. A
/// plan that reaches more than may be followed is judged on sets of states, as far as so many nodes are
/// enough for that.
pub(crate) fn is_controller(
    alloc: Global,
    kind: PlanKind,
    nodes: u32,
    grounded: &Grounded,
    plan: &Plan,
) -> Result<bool, AllocError>
    requires room { IsNodeLimit nodes }
    requires goal { HasGoalIn (kind_of kind) grounded.now.task grounded.now.ctl }
    requires goal_names { IfSome grounded.now.ctl
        (λ goal. NamesBelow (fluent_count grounded.now.task) (ctl_value goal)) }
    ensures yes { IfOk result (λ is. IsTrue is
        → IsJudged (kind_of kind) grounded.now.task grounded.now.ctl (plain_of plan.now)) }
    ensures in_task { IfOk result (λ is. IsTrue is
        → IsPlanOf (fluent_count grounded.now.task) (action_count grounded.now.task) plan.now) }
{
    let task = &grounded.task;
    if !is_plan_of(task.fluents.len(), task.actions.len(), plan) {
        return Ok(false);
    }
    if !is_written_for(kind, plan) || !names_last_context(plan) || !is_told_in_full(plan) {
        return Ok(false);
    }
    is_found_good(alloc, kind, nodes, grounded, plan)
}

/// Whether a plan of the kind is found good: along its graph, or where it has none, on sets.
fn is_found_good(
    alloc: Global,
    kind: PlanKind,
    nodes: u32,
    grounded: &Grounded,
    plan: &Plan,
) -> Result<bool, AllocError>
    requires room { IsNodeLimit nodes }
    requires goal { HasGoalIn (kind_of kind) grounded.now.task grounded.now.ctl }
    requires goal_names { IfSome grounded.now.ctl
        (λ goal. NamesBelow (fluent_count grounded.now.task) (ctl_value goal)) }
    requires in_task { IsPlanOf (fluent_count grounded.now.task) (action_count grounded.now.task)
        plan.now }
    requires of_kind { is_of_kind (kind_of kind) (plain_of plan.now) ≡ true }
    ensures { IfOk result (λ is. IsTrue is
        → IsFoundGood (kind_of kind) grounded.now.task grounded.now.ctl (plain_of plan.now)) }
{
    match is_good_along(alloc, kind, grounded, plan)? {
        Some(is) => Ok(is),
        None => is_good_on_sets(alloc, kind, nodes, grounded, plan),
    }
}

/// Whether a plan of the kind begins somewhere, has the verdict yes, and has rules that serve. `None`
/// where it has no graph.
fn is_good_along(
    alloc: Global,
    kind: PlanKind,
    grounded: &Grounded,
    plan: &Plan,
) -> Result<Option<bool>, AllocError>
    requires goal { HasGoalIn (kind_of kind) grounded.now.task grounded.now.ctl }
    requires goal_names { IfSome grounded.now.ctl
        (λ goal. NamesBelow (fluent_count grounded.now.task) (ctl_value goal)) }
    requires in_task { IsPlanOf (fluent_count grounded.now.task) (action_count grounded.now.task)
        plan.now }
    requires of_kind { is_of_kind (kind_of kind) (plain_of plan.now) ≡ true }
    ensures yes { IfOk result (λ found. IfSome found (λ is. IsTrue is
        → IsGoodAlong (kind_of kind) grounded.now.task grounded.now.ctl (plain_of plan.now))) }
    ensures none { IfOk result (λ found. IfNone found
        (HasNoGraph grounded.now.task (plain_of plan.now))) }
{
    match explore(alloc, &grounded.task, plan) {
        Ok(graph) => {
            if graph.len() == 0 || !is_yes(alloc, kind, grounded, &graph)? {
                return Ok(Some(false));
            }
            let serve = rules_serve(alloc, &grounded.task, plan, &graph)?;
            Ok(Some(serve))
        }
        Err(GraphErr::Initial) => Ok(None),
        Err(GraphErr::TooLarge) => Ok(None),
        Err(GraphErr::Memory) => Err(AllocError),
    }
}

/// Whether a plan of the kind is a table that is found good on sets, with so many nodes.
fn is_good_on_sets(
    alloc: Global,
    kind: PlanKind,
    nodes: u32,
    grounded: &Grounded,
    plan: &Plan,
) -> Result<bool, AllocError>
    requires room { IsNodeLimit nodes }
    requires goal { HasGoalIn (kind_of kind) grounded.now.task grounded.now.ctl }
    requires in_task { IsPlanOf (fluent_count grounded.now.task) (action_count grounded.now.task)
        plan.now }
    ensures { IfOk result (λ is. IsTrue is
        → IsTableGoodOnSets (kind_of kind) grounded.now.task (plain_of plan.now)) }
{
    match (kind, plan) {
        (PlanKind::Class(class), Plan::Table(table)) => {
            are_good_rules(alloc, nodes, &grounded.task, class, &table.rules)
        }
        _ => Ok(false),
    }
}

/// Whether the verdict on the plan of the kind whose graph this is is yes.
fn is_yes(
    alloc: Global,
    kind: PlanKind,
    grounded: &Grounded,
    graph: &Graph,
) -> Result<bool, AllocError>
    requires goal { HasGoalIn (kind_of kind) grounded.now.task grounded.now.ctl }
    requires goal_names { IfSome grounded.now.ctl
        (λ goal. NamesBelow (fluent_count grounded.now.task) (ctl_value goal)) }
    requires graph { (plan : PlainPlan) × ((is_of_kind (kind_of kind) plan ≡ true)
        × IsGraphOf (system_of grounded.now.task) plan
        (plain_graph (fluent_count grounded.now.task) graph.now)) }
    ensures { (plan : PlainPlan) → is_of_kind (kind_of kind) plan ≡ true
        → IsGraphOf (system_of grounded.now.task) plan
        (plain_graph (fluent_count grounded.now.task) graph.now)
        → IfOk result (λ is. IsTrue is
        → IsYesFor (kind_of kind) grounded.now.task grounded.now.ctl plan) }
{
    let verdict = verdict_on(alloc, kind, grounded, graph)?;
    Ok(says_yes(&verdict))
}

/// Whether a verdict is yes.
fn says_yes(verdict: &Verdict) -> bool
    ensures { IsTrue result → SaysYes verdict.now }
{
    match verdict {
        Verdict::Yes { .. } => true,
        Verdict::No(_) => false,
    }
}

/// Whether the plan is written for the kind.
fn is_written_for(kind: PlanKind, plan: &Plan) -> bool
    ensures written { IsTrue result ↔ IsWrittenFor (kind_of kind) (plain_of plan.now) }
    ensures of_kind { IsTrue result → is_of_kind (kind_of kind) (plain_of plan.now) ≡ true }
{
    match (kind, plan) {
        (PlanKind::Class(class), Plan::Table(table)) => is_same_class(class, table.class),
        (PlanKind::Contexts, Plan::Auto(_)) => true,
        _ => false,
    }
}

/// Whether two classes are the same.
fn is_same_class(class: Class, other: Class) -> bool
    ensures { IsTrue result ↔ (other ≡ class) }
{
    match (class, other) {
        (Class::Weak, Class::Weak) => true,
        (Class::Strong, Class::Strong) => true,
        (Class::Cyclic, Class::Cyclic) => true,
        _ => false,
    }
}
