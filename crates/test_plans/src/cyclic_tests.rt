//! Small tasks, and the plans worked out for them by hand.

ghost use Rattle.std.specs.Prelude.{◌≡◌, ◌≤◌, ◌<◌, IfOk, IsSome, Some};

use cyclic_plan::plan_cyclic;
use dd_sets::SetErr;
use encode_task::encode;
use plan_rules::{Rule, TablePlan};
use plan_theory::Found;
use std::alloc::{AllocError, Global};
use std::rc::RcStr;
use std::test::Fail;
use task_core::{
    ActionId, Change, Cond, FluentId, GroundAction, InitSpec, Lit, Outcome, State, Task,
};

/// The fluent of the goal, and that of states in which nothing can be executed.
const DONE: u32 = 0;

const DEAD: u32 = 1;

fn adds(alloc: Global, fluent: u32) -> Result<Outcome, AllocError> {
    let lit = Lit {
        fluent: FluentId(fluent),
        positive: true,
    };
    let change = Change {
        cond: Cond::Yes,
        lits: vec![in alloc; lit]?,
    };
    Ok(Outcome {
        changes: vec![in alloc; change]?,
    })
}

fn nothing(alloc: Global) -> Outcome {
    Outcome {
        changes: Vec::new(alloc),
    }
}

fn name(alloc: Global, word: &str) -> Result<Vec<RcStr>, AllocError> {
    Ok(vec![in alloc; RcStr::from_str(alloc, word)?]?)
}

/// An action that can be executed in states that aren't dead.
fn action(alloc: Global, word: &str, outcomes: Vec<Outcome>) -> Result<GroundAction, AllocError> {
    Ok(GroundAction {
        name: name(alloc, word)?,
        exec: Cond::Not(Box::new(alloc, Cond::Is(FluentId(DEAD)))?),
        outcomes,
    })
}

/// A task that is to be done, and is neither done nor dead at first.
fn task(alloc: Global, actions: Vec<GroundAction>) -> Result<Task, Fail>
    ensures goal { IfOk result (λ t. IsSome t.goal) }
{
    let fluents = vec![in alloc; name(alloc, "done")?, name(alloc, "dead")?]?;
    let init = InitSpec {
        facts: State::none(),
        entries: Vec::new(alloc),
    };
    let goal = Some(Cond::Is(FluentId(DONE)));
    let task = Task::try_new(fluents, actions, init, goal, Cond::Yes);
    Ok(task.ok_or("these are the parts of a task")?)
}

/// The rules of the plan that is found in a table of so many nodes; none where there is no plan.
fn rules_found(alloc: Global, task: &Task, limit: u32) -> Result<Option<Vec<Rule>>, SetErr>
    requires goal { IsSome task.now.goal }
    requires some_room { 0 < limit }
    requires small_limit { limit ≤ 16777216 }
{
    let mut enc = encode(alloc, task, limit)?;
    match plan_cyclic(alloc, task, &mut enc)? {
        Found::Plan(TablePlan { class: _, rules }) => Ok(Some(rules)),
        Found::NoPlan => Ok(None),
    }
}

/// Waits, or takes a risk, or tries on and on.
fn hazard(alloc: Global) -> Result<Task, Fail>
    ensures goal { IfOk result (λ t. IsSome t.goal) }
{
    let wait = action(alloc, "wait", vec![in alloc; nothing(alloc)]?)?;
    let risk = action(
        alloc,
        "risk",
        vec![in alloc; adds(alloc, DONE)?, adds(alloc, DEAD)?]?,
    )?;
    let retry = action(
        alloc,
        "try",
        vec![in alloc; adds(alloc, DONE)?, nothing(alloc)]?,
    )?;
    task(alloc, vec![in alloc; wait, risk, retry]?)
}

/// Whether the plan of the hazard is to try, where it is neither done nor dead.
fn plan_is_to_try(alloc: Global) -> Result<bool, Fail> {
    match rules_found(alloc, &hazard(alloc)?, 1000)? {
        Some(rules) => Ok(rules.len() == 1 && is_to_try(&rules[0])),
        None => Ok(false),
    }
}

/// Whether a rule is to try, where it is neither done nor dead.
fn is_to_try(rule: &Rule) -> bool {
    rule.action == ActionId(2)
        && rule.cube.len() == 2
        && !rule.cube[0].positive
        && !rule.cube[1].positive
}

// Waiting makes no progress, and who takes the risk may be dead.
#[test]
fn tries_until_it_is_done(rt: HostRuntime) -> Result<(), Fail> {
    assert!(rt; plan_is_to_try(rt.alloc())?);
    Ok(())
}

/// Whether there is a plan where the one action is to wait.
fn waiting_has_a_plan(alloc: Global) -> Result<bool, Fail> {
    let wait = action(alloc, "wait", vec![in alloc; nothing(alloc)]?)?;
    let wheel = task(alloc, vec![in alloc; wait]?)?;
    Ok(rules_found(alloc, &wheel, 1000)?.is_some())
}

#[test]
fn has_no_plan_without_progress(rt: HostRuntime) -> Result<(), Fail> {
    assert!(rt; !waiting_has_a_plan(rt.alloc())?);
    Ok(())
}

/// The greatest limit below 16 with which there is no room for the plan of the hazard; each greater
/// one finds it.
fn last_full(alloc: Global) -> Result<u32, Fail> {
    let hazard = hazard(alloc)?;
    let mut full = 0;
    for limit in 1..16u32 {
        match rules_found(alloc, &hazard, limit) {
            Ok(Some(_)) => {}
            Ok(None) => return Err("no plan".into()),
            Err(SetErr::Full) => full = limit,
            Err(e) => return Err(Fail::from(e)),
        }
    }
    Ok(full)
}

// Tables too small for the task's sets, for the search, and large enough.
#[test]
fn is_full_in_small_tables_alone(rt: HostRuntime) -> Result<(), Fail> {
    let full = last_full(rt.alloc())?;
    assert!(rt; 0 < full && full < 15);
    Ok(())
}
