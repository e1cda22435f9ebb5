//! What a search finds, as an answer: a controller, or that there is no plan.

ghost use Rattle.command_base.specs.Answers.{no_memory};
ghost use Rattle.command_base.specs.Values.{kind_of, refusal_of};
ghost use Rattle.command_base.specs.Words.{of_class};
ghost use Rattle.control_command.specs.Sought.{
  FollowsFor,
  IsReady,
  IsRefutedFor,
  IsShownFor,
};
ghost use Rattle.std.specs.Prelude.{◌≡◌, IfErr, IfOk, IfSome, IsSome};

use crate::followed::Followed;
use crate::made::{shown_controller, shown_table};
use crate::refuted::{certificate_of, is_accepted, is_certificate_of, text_of_no_plan};
use crate::searches::{Effort, Searched, seek};
use crate::sought::{Sought, judged_plans_control};
use command_base::{PlanKind, Refusal, Shown};
use plan_certs::{Certificate, accepted_certificates_mean_no_plan};
use plan_rules::Rule;
use std::alloc::{AllocError, Global};
use task_core::Lit;

/// What is shown of what a search finds with this effort, if it finds anything.
pub(crate) fn shown_sought(
    alloc: Global,
    sought: &Sought<'_>,
    effort: Effort,
) -> Result<Option<Shown>, Refusal>
    requires { IsReady sought.now }
    ensures shown { IfOk result (λ found. IfSome found (FollowsFor sought.now)) }
    ensures refused { IfErr result (λ refusal. refusal_of refusal ≡ no_memory) }
{
    match seek(alloc, &sought.asked.plan, sought.grounded, effort)? {
        Searched::Followed(followed) => followed_controller(alloc, sought, &followed),
        Searched::Rules(rules) => table_controller(alloc, sought, rules),
        Searched::NoPlan(sets) => shown_refuted(alloc, sought, sets),
        Searched::Nothing => Ok(None),
    }
}

/// The controller for what a plan does where it reaches, if rules for that make one whose text isn't too
/// long.
pub(crate) fn followed_controller(
    alloc: Global,
    sought: &Sought<'_>,
    followed: &Followed,
) -> Result<Option<Shown>, Refusal>
    requires { IsReady sought.now }
    ensures shown { IfOk result (λ found. IfSome found (IsShownFor sought.now)) }
    ensures refused { IfErr result (λ refusal. refusal_of refusal ≡ no_memory) }
{
    judged_plans_control();
    match shown_controller(alloc, &sought.wanted(), followed) {
        Ok(found) => Ok(found),
        Err(Refusal::NoMemory) => Err(Refusal::NoMemory),
        Err(_) => Ok(None),
    }
}

/// The controller with the rules of a table, of which the first that matches counts, if they make one whose
/// text isn't too long.
pub(crate) fn table_controller(
    alloc: Global,
    sought: &Sought<'_>,
    rules: Vec<Rule>,
) -> Result<Option<Shown>, Refusal>
    requires { IsReady sought.now }
    ensures shown { IfOk result (λ found. IfSome found (IsShownFor sought.now)) }
    ensures refused { IfErr result (λ refusal. refusal_of refusal ≡ no_memory) }
{
    judged_plans_control();
    match shown_table(alloc, &sought.wanted(), rules) {
        Ok(found) => Ok(found),
        Err(Refusal::NoMemory) => Err(Refusal::NoMemory),
        Err(_) => Ok(None),
    }
}

/// That there is no plan, where these sets of cubes are a certificate of that for the class.
fn shown_refuted(
    alloc: Global,
    sought: &Sought<'_>,
    sets: Vec<Vec<Vec<Lit>>>,
) -> Result<Option<Shown>, Refusal>
    requires { IsReady sought.now }
    ensures shown { IfOk result (λ found. IfSome found (IsRefutedFor sought.now)) }
    ensures refused { IfErr result (λ refusal. refusal_of refusal ≡ no_memory) }
{
    match sought.asked.plan.kind {
        PlanKind::Class(class) => {
            let certificate = certificate_of(alloc, class, sets)?;
            let shown = shown_no_plan(alloc, sought, &certificate)?;
            Ok(shown)
        }
        PlanKind::Contexts => Ok(None),
    }
}

/// That there is no plan of a class, where a certificate of it is accepted.
fn shown_no_plan(
    alloc: Global,
    sought: &Sought<'_>,
    certificate: &Certificate,
) -> Result<Option<Shown>, AllocError>
    requires ready { IsReady sought.now }
    requires goal { IsSome sought.now.grounded.now.task.goal }
    requires of_class { kind_of sought.now.asked.now.plan.kind
        ≡ of_class certificate.now.class }
    ensures { IfOk result (λ found. IfSome found (IsRefutedFor sought.now)) }
{
    // This does nothing: that there is no plan where a certificate is accepted rests on what it
    // promises.
    accepted_certificates_mean_no_plan();
    let task = &sought.grounded.task;
    if !is_certificate_of(task.fluents.len(), certificate) {
        return Ok(None);
    }
    if !is_accepted(alloc, sought.asked.plan.options.nodes, task, certificate) {
        return Ok(None);
    }
    let text = text_of_no_plan(alloc, sought.asked.plan.certified, certificate, task)?;
    Ok(Some(Shown::Denied(text)))
}
