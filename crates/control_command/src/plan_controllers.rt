//! The controller for the plan that `plan` finds, where no search made one.

ghost use Rattle.command_base.specs.Answers.{no_memory};
ghost use Rattle.command_base.specs.Reading.{file_limit};
ghost use Rattle.command_base.specs.Values.{answer_of, limit_of, refusal_of};
ghost use Rattle.control_command.specs.Judged.{IsTooLarge};
ghost use Rattle.control_command.specs.Sought.{
  FollowsFor,
  IsAnswerFor,
  IsAnswerFound,
  IsControllerFor,
  IsFoundFor,
  IsReady,
  IsRefusedFor,
  IsShownFor,
  IsTextFound,
  text_found,
};
ghost use Rattle.exec_graph.specs.Graphs.{IsGraphOf};
ghost use Rattle.exec_graph.specs.Values.{plain_graph};
ghost use Rattle.plan_command.specs.Plannings.{IsPlannedFor, shown_planned};
ghost use Rattle.plan_rules.specs.Plans.{IsPlanOf};
ghost use Rattle.plan_rules.specs.Rules.{plain_of};
ghost use Rattle.std.specs.Prelude.{◌≡◌, ◌<◌, IfErr, IfOk, IfSome, length};
ghost use Rattle.task_core.specs.Tasks.{action_count, fluent_count, system_of};

use crate::made::shown_text;
use crate::search_controllers::{followed_controller, shown_sought, table_controller};
use crate::searches::{Effort, follow_found};
use crate::sought::{Found, Sought};
use command_base::{Limit, PlanKind, Refusal, Shown};
use controller_rules::{serving_part, write_controller};
use exec_graph::{Graph, GraphErr, explore};
use plan_command::{Planned, find_grounded};
use plan_rules::Plan;
use rule_shortening::shorter_rules;
use sexpr_text::MAX_BYTES;
use std::alloc::Global;

/// The answer of `plan` where no controller was shown; if it is a plan, what is made of that.
pub(crate) fn without_controller(alloc: Global, sought: &Sought<'_>) -> Result<Shown, Refusal>
    requires { IsReady sought.now }
    ensures { IsAnswerFor sought.now (answer_of result) }
{
    let asked = &sought.asked.plan;
    match find_grounded(alloc, asked, sought.domain, sought.problem, sought.grounded) {
        Ok(planned) => controller_of_planned(alloc, sought, planned),
        Err(refusal) => Err(refusal),
    }
}

/// What is made of what `plan` finds.
fn controller_of_planned(
    alloc: Global,
    sought: &Sought<'_>,
    planned: Planned,
) -> Result<Shown, Refusal>
    requires ready { IsReady sought.now }
    requires in_task { IsPlannedFor sought.now.grounded.now.task planned }
    requires found { IsAnswerFound sought.now
        (shown_planned sought.now.grounded.now.task planned) }
    ensures { IsAnswerFor sought.now (answer_of result) }
{
    match planned {
        Planned::Plan(plan) => controller_of_found(alloc, sought, &plan),
        Planned::Missing(text) => Ok(Shown::Denied(text)),
    }
}

/// The controller for the plan that `plan` finds; or where its text is longer than a plan's file may be,
/// what much work finds, or that limit. Of a text that is too long not much more than so much is made.
fn controller_of_found(alloc: Global, sought: &Sought<'_>, plan: &Plan) -> Result<Shown, Refusal>
    requires ready { IsReady sought.now }
    requires in_task { IsPlanOf (fluent_count sought.now.grounded.now.task)
        (action_count sought.now.grounded.now.task) plan.now }
    requires found { IsTextFound sought.now (text_found sought.now plan.now) }
    ensures shown { IfOk result (FollowsFor sought.now) }
    ensures refused { IfErr result (IsRefusedFor sought.now) }
{
    match write_controller(alloc, plan, &[], &sought.grounded.task, MAX_BYTES)? {
        Some(text) => {
            let found = Found { text: &text, plan };
            controller_of_plan(alloc, sought, &found)
        }
        None => at_last(alloc, sought, plan),
    }
}

/// What much work finds, where the text of the plan that `plan` finds is too long; or that limit.
fn at_last(alloc: Global, sought: &Sought<'_>, plan: &Plan) -> Result<Shown, Refusal>
    requires ready { IsReady sought.now }
    requires found { IsTextFound sought.now (text_found sought.now plan.now) }
    requires long { file_limit < length (text_found sought.now plan.now) }
    ensures shown { IfOk result (FollowsFor sought.now) }
    ensures refused { IfErr result (IsRefusedFor sought.now) }
{
    match shown_sought(alloc, sought, Effort::Much)? {
        Some(shown) => Ok(shown),
        None => Err(Refusal::OverLimit(Limit::File)),
    }
}

/// The controller for a plan that `plan` finds: for what it does where it reaches, or where that is too
/// much to be followed, with its rules made shorter; or else with its own rules.
fn controller_of_plan(
    alloc: Global,
    sought: &Sought<'_>,
    found: &Found<'_>,
) -> Result<Shown, Refusal>
    requires ready { IsReady sought.now }
    requires found { IsFoundFor sought.now found.now }
    ensures shown { IfOk result (IsShownFor sought.now) }
    ensures refused { IfErr result (IsRefusedFor sought.now) }
{
    match made_of_plan(alloc, sought, found)? {
        Some(shown) => Ok(shown),
        None => shown_as_found(alloc, sought, found),
    }
}

/// The controller for what a plan that `plan` finds does where it reaches; or where that is too much to be
/// followed, with its rules made shorter. `None` where that makes none.
fn made_of_plan(
    alloc: Global,
    sought: &Sought<'_>,
    found: &Found<'_>,
) -> Result<Option<Shown>, Refusal>
    requires ready { IsReady sought.now }
    requires found { IsFoundFor sought.now found.now }
    ensures shown { IfOk result (λ found. IfSome found (IsShownFor sought.now)) }
    ensures refused { IfErr result (λ refusal. refusal_of refusal ≡ no_memory) }
{
    match follow_found(alloc, &sought.grounded.task, found.plan)? {
        Some(followed) => followed_controller(alloc, sought, &followed),
        None => shorter_controller(alloc, sought, found.plan),
    }
}

/// The controller with the rules of a table made shorter, if they make one.
fn shorter_controller(
    alloc: Global,
    sought: &Sought<'_>,
    plan: &Plan,
) -> Result<Option<Shown>, Refusal>
    requires { IsReady sought.now }
    ensures shown { IfOk result (λ found. IfSome found (IsShownFor sought.now)) }
    ensures refused { IfErr result (λ refusal. refusal_of refusal ≡ no_memory) }
{
    match plan {
        Plan::Table(table) => {
            let rules = shorter_rules(alloc, &sought.grounded.task, &table.rules)?;
            table_controller(alloc, sought, rules)
        }
        Plan::Auto(_) => Ok(None),
    }
}

/// The controller with the rules that a plan that `plan` finds has: with those of them that serve, or
/// where what it reaches is too much to be listed, with all. It isn't judged: that it is a controller is
/// proved of every plan that `plan` finds.
fn shown_as_found(alloc: Global, sought: &Sought<'_>, found: &Found<'_>) -> Result<Shown, Refusal>
    requires ready { IsReady sought.now }
    requires found { IsFoundFor sought.now found.now }
    ensures shown { IfOk result (IsShownFor sought.now) }
    ensures refused { IfErr result (IsRefusedFor sought.now) }
{
    match explore(alloc, &sought.grounded.task, found.plan) {
        Ok(graph) => shown_serving(alloc, sought, found, &graph),
        Err(GraphErr::Initial) => shown_unlisted(alloc, sought, found, Limit::Initial),
        Err(GraphErr::TooLarge) => shown_unlisted(alloc, sought, found, Limit::Configurations),
        Err(GraphErr::Memory) => Err(Refusal::NoMemory),
    }
}

/// The controller with those rules of a plan that `plan` finds that serve in its graph.
fn shown_serving(
    alloc: Global,
    sought: &Sought<'_>,
    found: &Found<'_>,
    graph: &Graph,
) -> Result<Shown, Refusal>
    requires ready { IsReady sought.now }
    requires found { IsFoundFor sought.now found.now }
    requires graph { let task = sought.now.grounded.now.task in
        IsGraphOf (system_of task) (plain_of found.now.plan.now)
        (plain_graph (fluent_count task) graph.now) }
    ensures shown { IfOk result (IsShownFor sought.now) }
    ensures refused { IfErr result (IsRefusedFor sought.now) }
{
    match serving_part(alloc, &sought.grounded.task, found.plan, graph)? {
        Some(part) => shown_proved(alloc, sought, &part),
        None => unreachable!(),
    }
}

/// The controller with all rules of a plan that `plan` finds, where what it reaches is too much to be
/// listed; of a plan with contexts the limit that it passes.
fn shown_unlisted(
    alloc: Global,
    sought: &Sought<'_>,
    found: &Found<'_>,
    limit: Limit,
) -> Result<Shown, Refusal>
    requires ready { IsReady sought.now }
    requires found { IsFoundFor sought.now found.now }
    requires large { IsTooLarge sought.now.grounded.now.task (plain_of found.now.plan.now)
        (limit_of limit) }
    ensures shown { IfOk result (IsShownFor sought.now) }
    ensures refused { IfErr result (IsRefusedFor sought.now) }
{
    match sought.asked.plan.kind {
        PlanKind::Class(_) => shown_proved(alloc, sought, found.plan),
        PlanKind::Contexts => Err(Refusal::OverLimit(limit)),
    }
}

/// A plan that is proved to be a controller, as it is shown.
fn shown_proved(alloc: Global, sought: &Sought<'_>, plan: &Plan) -> Result<Shown, Refusal>
    requires ready { IsReady sought.now }
    requires control { IsControllerFor sought.now plan.now }
    ensures shown { IfOk result (IsShownFor sought.now) }
    ensures refused { IfErr result (IsRefusedFor sought.now) }
{
    match shown_text(alloc, &sought.wanted(), plan, &[]) {
        Ok(shown) => Ok(shown),
        Err(refusal) => Err(refusal),
    }
}
