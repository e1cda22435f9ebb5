//! The plans.

ghost use Rattle.plan_rules.specs.Plans.{IsAutomatonOf, IsContextRuleOf, IsCubeOf};
ghost use Rattle.plan_rules.specs.Rules.{context_rule_of, context_rules_of};
ghost use Rattle.std.specs.Prelude.{IfOk, IfSome};
ghost use Rattle.task_core.specs.Tasks.{action_count, fluent_count};

use crate::distances::Way;
use crate::goals::Goal;
use crate::searches::{search_forward, search_listed};
use crate::stops::{Effort, Stop};
use crate::traces::{Act, Trace};
use crate::world::World;
use ctl_syntax::ContextGoal;
use plan_rules::{AutoPlan, AutoRule, MAX_CONTEXTS, Next};
use std::alloc::{AllocError, Global};
use task_core::{FluentId, Lit, State, Task};

/// How much a search may do: counts, never clocks.
#[derive(Clone, Copy)]
pub struct Allowance {
    /// How many states may be met.
    pub states: u32,
    /// How often it may be tried whether an action can be executed in a state, an outcome be gone
    /// through, and a state or an outcome be looked at once more.
    pub work: u64,
}

/// A plan with contexts for a goal, found among all states that can be reached from the initial ones by
/// any actions: where these can be met, in each context what is on a shortest way to the next stage or
/// visit, of these the least-numbered action; after the last stage rather what leaves the state as it
/// is. `None` where there is no plan, no initial state, or not allowance enough.
///
/// The plan has a rule for each state and context that it reaches, and speaks of the task. Nothing
/// else is promised of it: it is to be judged before it is used.
pub fn plan_listed(
    alloc: Global,
    task: &Task,
    goal: &ContextGoal,
    way: Way,
    allowance: &Allowance,
) -> Result<Option<AutoPlan>, AllocError>
    ensures in_task { IfOk result (λ found. IfSome found (λ plan.
        IsAutomatonOf (fluent_count task.now) (action_count task.now) plan.contexts
        (context_rules_of plan))) }
{
    match listed(alloc, task, goal, way, allowance) {
        Ok(plan) => Ok(plan),
        Err(Stop::TooMany) => Ok(None),
        Err(Stop::Memory) => Err(AllocError),
    }
}

/// The same, found by a heuristic search forward from the initial states, for tasks whose states can't be
/// listed. The ways needn't be shortest.
pub fn plan_forward(
    alloc: Global,
    task: &Task,
    goal: &ContextGoal,
    way: Way,
    allowance: &Allowance,
) -> Result<Option<AutoPlan>, AllocError>
    ensures in_task { IfOk result (λ found. IfSome found (λ plan.
        IsAutomatonOf (fluent_count task.now) (action_count task.now) plan.contexts
        (context_rules_of plan))) }
{
    match sought(alloc, task, goal, way, allowance) {
        Ok(plan) => Ok(plan),
        Err(Stop::TooMany) => Ok(None),
        Err(Stop::Memory) => Err(AllocError),
    }
}

/// The plan that is found among all states.
fn listed(
    alloc: Global,
    task: &Task,
    goal: &ContextGoal,
    way: Way,
    allowance: &Allowance,
) -> Result<Option<AutoPlan>, Stop>
    ensures { IfOk result (λ found. IfSome found (λ plan.
        IsAutomatonOf (fluent_count task.now) (action_count task.now) plan.contexts
        (context_rules_of plan))) }
{
    let goal = Goal::new(alloc, goal)?;
    let mut world = begun(alloc, task, allowance)?;
    let trace = search_listed(&mut world, &goal, way)?;
    planned(task, &world, goal.contexts(), trace)
}

/// The plan that is found forward.
fn sought(
    alloc: Global,
    task: &Task,
    goal: &ContextGoal,
    way: Way,
    allowance: &Allowance,
) -> Result<Option<AutoPlan>, Stop>
    ensures { IfOk result (λ found. IfSome found (λ plan.
        IsAutomatonOf (fluent_count task.now) (action_count task.now) plan.contexts
        (context_rules_of plan))) }
{
    let goal = Goal::new(alloc, goal)?;
    let mut world = begun(alloc, task, allowance)?;
    let trace = search_forward(&mut world, &goal, way)?;
    planned(task, &world, goal.contexts(), trace)
}

/// The initial states.
fn begun<'a>(alloc: Global, task: &'a Task, allowance: &Allowance) -> Result<World<'a>, Stop> {
    World::new(alloc, task, allowance.states, Effort::new(allowance.work))
}

/// The plan that does what was found, if something was.
fn planned(
    task: &Task,
    world: &World<'_>,
    contexts: usize,
    trace: Option<Trace>,
) -> Result<Option<AutoPlan>, Stop>
    ensures { IfOk result (λ found. IfSome found (λ plan.
        IsAutomatonOf (fluent_count task.now) (action_count task.now) plan.contexts
        (context_rules_of plan))) }
{
    match trace {
        Some(trace) => plan_of(task, world, contexts, &trace.acts),
        None => Ok(None),
    }
}

/// The plan with so many contexts that does this.
fn plan_of(
    task: &Task,
    world: &World<'_>,
    contexts: usize,
    acts: &[Act],
) -> Result<Option<AutoPlan>, Stop>
    ensures { IfOk result (λ found. IfSome found (λ plan.
        IsAutomatonOf (fluent_count task.now) (action_count task.now) plan.contexts
        (context_rules_of plan))) }
{
    if contexts == 0 || contexts > MAX_CONTEXTS as usize {
        return Ok(None);
    }
    let count = contexts as u32;
    let mut rules = Vec::new(world.alloc);
    for act in acts {
        match rule_of(task, world, count, act)? {
            Some(rule) => rules.push(rule)?,
            None => return Ok(None),
        }
    }
    Ok(Some(AutoPlan {
        contexts: count,
        rules,
    }))
}

/// The rule that does this, if the task has the action and the plan the contexts.
fn rule_of(
    task: &Task,
    world: &World<'_>,
    contexts: u32,
    act: &Act,
) -> Result<Option<AutoRule>, AllocError>
    ensures { IfOk result (λ found. IfSome found (λ rule.
        IsContextRuleOf (fluent_count task.now) (action_count task.now) contexts
        (context_rule_of rule))) }
{
    let count = contexts as usize;
    if act.stage >= count || act.next >= count || act.action.0 as usize >= task.actions.len() {
        return Ok(None);
    }
    Ok(Some(AutoRule {
        context: act.stage as u32 + 1,
        cube: full_cube(world.alloc, task, &world.state(act.state))?,
        action: act.action,
        next: Next::One(act.next as u32 + 1),
    }))
}

/// The literals of all fluents in a state.
fn full_cube(alloc: Global, task: &Task, state: &State) -> Result<Vec<Lit>, AllocError>
    ensures { IfOk result (λ cube. IsCubeOf (fluent_count task.now) cube.items) }
{
    let mut cube = Vec::new(alloc);
    for number in 0..task.fluents.len() {
        let fluent = FluentId(number as u32);
        cube.push(Lit {
            fluent,
            positive: state.get(fluent),
        })?;
    }
    Ok(cube)
}
