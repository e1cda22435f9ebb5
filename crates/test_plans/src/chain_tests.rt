//! Small tasks, and the plans worked out for them by hand.

ghost use Rattle.std.specs.Prelude.{◌≡◌, ◌≤◌, ◌<◌, All, IfOk, length, true};
ghost use Rattle.ctl_syntax.specs.GoalValues.{EachInStage};
ghost use Rattle.context_plan.specs.Chains.{IsUntilOver};
ghost use Rattle.task_core.specs.Conditions.{IsConditionOver, ids_below, is_shallow};
ghost use Rattle.task_core.specs.Tasks.{fluent_count};

use context_plan::{FoundAuto, plan_until};
use ctl_syntax::{UntilChain, UntilStage};
use dd_sets::SetErr;
use encode_task::encode;
use plan_rules::{AutoRule, Next};
use std::alloc::{AllocError, Global};
use std::rc::RcStr;
use std::test::Fail;
use task_core::{
    ActionId, Change, Cond, FluentId, GroundAction, InitSpec, Lit, Outcome, State, Task,
};

fn sets(alloc: Global, fluent: u32, positive: bool) -> Result<Outcome, AllocError> {
    let lit = Lit {
        fluent: FluentId(fluent),
        positive,
    };
    let change = Change {
        cond: Cond::Yes,
        lits: vec![in alloc; lit]?,
    };
    Ok(Outcome {
        changes: vec![in alloc; change]?,
    })
}

fn name(alloc: Global, word: &str) -> Result<Vec<RcStr>, AllocError> {
    Ok(vec![in alloc; RcStr::from_str(alloc, word)?]?)
}

/// A task of one fluent, on, which is off at first; one action switches it on, one off.
fn lamp(alloc: Global) -> Result<Task, Fail>
    ensures { IfOk result (λ task. fluent_count task ≡ 1) }
{
    let on = GroundAction {
        name: name(alloc, "on")?,
        exec: Cond::Yes,
        outcomes: vec![in alloc; sets(alloc, 0, true)?]?,
    };
    let off = GroundAction {
        name: name(alloc, "off")?,
        exec: Cond::Yes,
        outcomes: vec![in alloc; sets(alloc, 0, false)?]?,
    };
    let init = InitSpec {
        facts: State::none(),
        entries: Vec::new(alloc),
    };
    let task = Task::try_new(
        vec![in alloc; name(alloc, "on")?]?,
        vec![in alloc; on, off]?,
        init,
        None,
        Cond::Yes,
    );
    Ok(task.ok_or("these are the parts of a task")?)
}

fn lamp_is(alloc: Global, on: bool) -> Result<Cond, AllocError>
    ensures { IfOk result (IsConditionOver 1) }
{
    if on {
        Ok(Cond::Is(FluentId(0)))
    } else {
        Ok(Cond::Not(Box::new(alloc, Cond::Is(FluentId(0)))?))
    }
}

/// A stage with the lamp on, or with the lamp off, and nothing asked until then.
fn lamp_stage(alloc: Global, on: bool) -> Result<UntilStage, AllocError>
    ensures names { IfOk result (EachInStage (λ cond. ids_below 1 cond ≡ true)) }
    ensures shallow { IfOk result (EachInStage (λ cond. is_shallow cond ≡ true)) }
{
    let target = lamp_is(alloc, on)?;
    Ok(UntilStage {
        guard: Cond::Yes,
        target,
    })
}

/// So many stages, the lamp on in the first one, off in the next, and so on.
fn by_turns(alloc: Global, count: u32) -> Result<Vec<UntilStage>, AllocError>
    ensures long { IfOk result (λ stages. length stages.items ≡ count) }
    ensures names { IfOk result
        (λ stages. All (EachInStage (λ cond. ids_below 1 cond ≡ true)) stages.items) }
    ensures shallow { IfOk result
        (λ stages. All (EachInStage (λ cond. is_shallow cond ≡ true)) stages.items) }
{
    let mut stages = Vec::new(alloc);
    for i in 0..count {
        stages.push(lamp_stage(alloc, i % 2 == 0)?)?;
    }
    Ok(stages)
}

/// The chain of these stages, and of what is kept.
fn chain_of(alloc: Global, count: u32, keep: Cond) -> Result<UntilChain, AllocError>
    requires few { count ≤ 32 }
    requires keep { IsConditionOver 1 keep }
    ensures { IfOk result (IsUntilOver 1) }
{
    let stages = by_turns(alloc, count)?;
    Ok(UntilChain { stages, keep })
}

/// The rules of the plan that is found in a table of so many nodes; none where there is no plan.
fn rules_found(
    alloc: Global,
    task: &Task,
    chain: &UntilChain,
    limit: u32,
) -> Result<Option<Vec<AutoRule>>, SetErr>
    requires one { fluent_count task.now ≡ 1 }
    requires chain { IsUntilOver 1 chain.now }
    requires some_room { 0 < limit }
    requires small_limit { limit ≤ 16777216 }
{
    let mut enc = encode(alloc, task, limit)?;
    match plan_until(alloc, task, &mut enc, chain)? {
        FoundAuto::Plan(plan) => Ok(Some(plan.rules)),
        FoundAuto::NoPlan => Ok(None),
    }
}

/// The rules for stages by turns, after which a condition is kept.
fn rules_by_turns(
    alloc: Global,
    count: u32,
    keep: Cond,
    limit: u32,
) -> Result<Option<Vec<AutoRule>>, Fail>
    requires few { count ≤ 32 }
    requires keep { IsConditionOver 1 keep }
    requires some_room { 0 < limit }
    requires small_limit { limit ≤ 16777216 }
{
    let lamp = lamp(alloc)?;
    let chain = chain_of(alloc, count, keep)?;
    Ok(rules_found(alloc, &lamp, &chain, limit)?)
}

/// What a rule should have: its context, a cube that asks for the lamp to be on or off or for
/// nothing, its action and its next context.
type Wanted = (u32, Option<bool>, u32, u32);

fn is_rule(rule: &AutoRule, (context, lit, action, next): Wanted) -> bool {
    let same_next = match rule.next {
        Next::One(context) => context == next,
        Next::Cases(_) => false,
    };
    let same_cube = match lit {
        None => rule.cube.is_empty(),
        Some(on) => rule.cube.len() == 1 && rule.cube[0].positive == on,
    };
    rule.context == context && rule.action == ActionId(action) && same_next && same_cube
}

/// Whether the last of so many rules are as wanted, in this order.
fn end_as(rules: &[AutoRule], count: usize, wanted: &[Wanted]) -> bool {
    if rules.len() != count || wanted.len() > count {
        return false;
    }
    for (i, want) in wanted.iter().enumerate() {
        match rules.get(count - wanted.len() + i) {
            Some(rule) if is_rule(rule, *want) => {}
            _ => return false,
        }
    }
    true
}

/// Whether the plan for stages by turns has so many rules, of which the last are as wanted.
fn plan_ends_as(
    alloc: Global,
    stages: u32,
    keep: Cond,
    count: usize,
    wanted: &[Wanted],
) -> Result<bool, Fail>
    requires few { stages ≤ 32 }
    requires keep { IsConditionOver 1 keep }
{
    match rules_by_turns(alloc, stages, keep, 1000)? {
        Some(rules) => Ok(end_as(&rules, count, wanted)),
        None => Ok(false),
    }
}

// Without stages, the first action that keeps what always holds.
#[test]
fn keeps_what_always_holds(rt: HostRuntime) -> Result<(), Fail> {
    assert!(rt; plan_ends_as(rt.alloc(), 0, Cond::Yes, 1, &[(1, None, 0, 1)])?);
    Ok(())
}

// The lamp is off at first, so that it can't be kept on from the beginning; but after a stage.
#[test]
fn keeps_the_lamp_on_after_a_stage(rt: HostRuntime) -> Result<(), Fail> {
    let alloc = rt.alloc();
    assert!(rt; rules_by_turns(alloc, 0, lamp_is(alloc, true)?, 1000)?.is_none());
    let wanted = [
        (1, Some(false), 0, 1),
        (1, Some(true), 0, 2),
        (2, Some(true), 0, 2),
    ];
    assert!(rt; plan_ends_as(alloc, 1, lamp_is(alloc, true)?, 3, &wanted)?);
    Ok(())
}

// On, then off: where the lamp is on, the first context turns to the second stage.
#[test]
fn meets_two_stages(rt: HostRuntime) -> Result<(), Fail> {
    let wanted = [
        (1, Some(false), 0, 1),
        (1, Some(true), 1, 2),
        (2, Some(true), 1, 2),
        (2, Some(false), 0, 3),
        (3, None, 0, 3),
    ];
    assert!(rt; plan_ends_as(rt.alloc(), 2, Cond::Yes, 5, &wanted)?);
    Ok(())
}

// As many stages as there may be: two rules a stage, and one for the end.
#[test]
fn meets_thirty_two_stages(rt: HostRuntime) -> Result<(), Fail> {
    let wanted = [(32, Some(false), 0, 33), (33, None, 0, 33)];
    assert!(rt; plan_ends_as(rt.alloc(), 32, Cond::Yes, 65, &wanted)?);
    Ok(())
}

/// Whether a table without room for the lamp's one fluent beside another set is too small, and one
/// with it is not.
fn only_the_smallest_is_full(alloc: Global) -> Result<bool, Fail> {
    let lamp = lamp(alloc)?;
    let chain = chain_of(alloc, 2, Cond::Yes)?;
    let is_full = matches!(rules_found(alloc, &lamp, &chain, 1), Err(SetErr::Full));
    Ok(is_full && rules_found(alloc, &lamp, &chain, 2)?.is_some())
}

#[test]
fn is_full_in_the_smallest_table_alone(rt: HostRuntime) -> Result<(), Fail> {
    assert!(rt; only_the_smallest_is_full(rt.alloc())?);
    Ok(())
}
