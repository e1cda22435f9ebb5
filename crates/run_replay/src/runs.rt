//! Whole runs of a plan.

ghost use Rattle.plan_rules.specs.Plans.{IsPlanOf};
ghost use Rattle.plan_rules.specs.Denoted.{denoted_contexts};
ghost use Rattle.rule_lookup.specs.Guides.{IsGuideOf, rules_of};
ghost use Rattle.run_replay.specs.declared.worlds.Step.{Step};
ghost use Rattle.run_replay.specs.Running.{next_turn_of};
ghost use Rattle.run_replay.specs.Runs.{IsRefused, IsStepOf, trace_by, trace_in, trace_value};
ghost use Rattle.run_replay.specs.TraceTexts.{tallies_of, tally_lines};
ghost use Rattle.run_replay.specs.Turns.{IsTurn, MakesStepOf};
ghost use Rattle.run_replay.specs.Watching.{AreTold};
ghost use Rattle.std.specs.Prelude.{
  ◌≡◌,
  ◌≤◌,
  ◌^◌,
  ◌++◌,
  ◌∷◌,
  [],
  All,
  IfErr,
  IfOk,
  List,
  OnOk,
  map,
};
ghost use Rattle.task_core.specs.States.{IsWithin};
ghost use Rattle.task_core.specs.Tasks.{action_count, fluent_count, system_of};

use crate::monitors::Monitor;
use crate::traces::{RunErr, Trace};
use crate::turns::{Standing, Turn, take_turn};
use crate::watch::tell;
use crate::worlds::{Step, World};
use plan_rules::{FIRST_CONTEXT, Plan};
use rule_lookup::Guide;
use std::alloc::{AllocFailed, Global};
use task_core::{State, Task};

/// How many steps a run makes at most.
pub const MOST_STEPS: usize = 1_000_000;

/// A run that is to be made: of a plan of a task, from a state.
#[derive(Clone, Copy)]
pub struct Start<'a> {
    pub task: &'a Task,
    pub plan: &'a Plan,
    pub first: State,
}

/// A run on its way: its steps so far, and the state and the context that they led to.
#[derive(Drop)]
struct Run {
    steps: Vec<Step>,
    state: State,
    context: Option<u32>,
}

/// Runs a plan from a state, in context 1, with the outcomes that the world chooses, and tells each
/// monitor of each step.
///
/// Each turn goes in this order. Where no rule matches, the run ends. Where the rule that counts,
/// the first that matches, has an action that can't be executed, the run is refused. Where
/// `MOST_STEPS` steps were made, and where the world has no number left, it ends. A number that is
/// none of the action's outcomes, or whose outcome leads to no state, has been taken then, and the run
/// is refused. Otherwise the step is made, the monitors are told of it, and the next context is read
/// on the new state. A table is run in context 1 throughout.
///
/// Want of memory may stop the run after any step. Whatever the answer, the monitors were told of
/// the steps that were made and of nothing else, and the list has the same monitors in the same
/// order, each with its title and its weights. So what is told of the monitors after a run are the
/// sums of their weights over its steps.
///
/// The plan's numbers are those of the task's fluents and actions, the state has no true fluent
/// past the task's, and no monitor has counted anything yet.
pub fn execute(
    alloc: Global,
    start: &Start<'_>,
    world: &mut Box<dyn World>,
    monitors: &mut Vec<Box<dyn Monitor>>,
) -> Result<Trace, RunErr>
    requires plan_of_task { IsPlanOf (fluent_count start.now.task.now) (action_count start.now.task.now)
        start.now.plan.now }
    requires within { IsWithin (fluent_count start.now.task.now) start.now.first }
    requires untold { All (λ monitor. (shown monitor).counted ≡ 0) monitors.old.items }
    ensures first_state { IfOk result (λ trace. trace.first ≡ start.now.first) }
    ensures trace { IfOk result (λ trace. trace_value (fluent_count start.now.task.now) trace (left world.new)
        ≡ trace_in start.now.task.now start.now.plan.now start.now.first (left world.old)) }
    ensures in_task { IfOk result (λ trace.
        All (IsStepOf (fluent_count start.now.task.now) (action_count start.now.task.now))
        trace.steps.items) }
    ensures told { IfOk result (λ trace. AreTold trace.steps.items
        (map (λ monitor. shown monitor) monitors.old.items)
        (map (λ monitor. shown monitor) monitors.new.items)) }
    ensures tallies { IfOk result (λ trace.
        tally_lines (map (λ monitor. shown monitor) monitors.new.items)
        ≡ tallies_of (map (λ monitor. shown monitor) monitors.old.items) trace.steps.items) }
    ensures refused { IfErr result (λ refusal. (steps : List Step) ×
        IsRefused (fluent_count start.now.task.now) refusal
        (trace_in start.now.task.now start.now.plan.now start.now.first (left world.old))
        (left world.old) steps (left world.new)
        × All (IsStepOf (fluent_count start.now.task.now) (action_count start.now.task.now)) steps
        × AreTold steps
        (map (λ monitor. shown monitor) monitors.old.items)
        (map (λ monitor. shown monitor) monitors.new.items)) }
{
    let guide = Guide::new(alloc, start.task, start.plan)?;
    run_guide(alloc, start, &guide, world, monitors)
}

fn run_guide(
    alloc: Global,
    start: &Start<'_>,
    guide: &Guide<'_>,
    world: &mut Box<dyn World>,
    monitors: &mut Vec<Box<dyn Monitor>>,
) -> Result<Trace, RunErr>
    requires guide { IsGuideOf (fluent_count start.now.task.now) (action_count start.now.task.now) guide.now }
    requires within { IsWithin (fluent_count start.now.task.now) start.now.first }
    requires untold { All (λ monitor. (shown monitor).counted ≡ 0) monitors.old.items }
    ensures first_state { IfOk result (λ trace. trace.first ≡ start.now.first) }
    ensures trace { IfOk result (λ trace. trace_value (fluent_count start.now.task.now) trace (left world.new)
        ≡ trace_by start.now.task.now (denoted_contexts (rules_of guide.now)) start.now.first
        (left world.old)) }
    ensures in_task { IfOk result (λ trace.
        All (IsStepOf (fluent_count start.now.task.now) (action_count start.now.task.now))
        trace.steps.items) }
    ensures told { IfOk result (λ trace. AreTold trace.steps.items
        (map (λ monitor. shown monitor) monitors.old.items)
        (map (λ monitor. shown monitor) monitors.new.items)) }
    ensures tallies { IfOk result (λ trace.
        tally_lines (map (λ monitor. shown monitor) monitors.new.items)
        ≡ tallies_of (map (λ monitor. shown monitor) monitors.old.items) trace.steps.items) }
    ensures refused { IfErr result (λ refusal. (steps : List Step) ×
        IsRefused (fluent_count start.now.task.now) refusal
        (trace_by start.now.task.now (denoted_contexts (rules_of guide.now)) start.now.first
        (left world.old))
        (left world.old) steps (left world.new)
        × All (IsStepOf (fluent_count start.now.task.now) (action_count start.now.task.now)) steps
        × AreTold steps
        (map (λ monitor. shown monitor) monitors.old.items)
        (map (λ monitor. shown monitor) monitors.new.items)) }
{
    let mut run = Run {
        steps: Vec::new(alloc),
        state: start.first,
        context: Some(FIRST_CONTEXT),
    };
    loop {
        match next_turn(start.task, guide, &run, world) {
            Turn::Ends(end) => {
                return Ok(Trace {
                    first: start.first,
                    steps: run.steps,
                    end,
                });
            }
            Turn::Refuses(refusal) => return Err(refusal),
            Turn::Goes(step, context) => run.go_on(step, context, monitors)?,
        }
    }
}

fn next_turn(task: &Task, guide: &Guide<'_>, run: &Run, world: &mut Box<dyn World>) -> Turn
    requires guide { IsGuideOf (fluent_count task.now) (action_count task.now) guide.now }
    requires within { IsWithin (fluent_count task.now) run.now.state }
    ensures turn { IsTurn (fluent_count task.now) result (left world.new)
        (next_turn_of (system_of task.now) (denoted_contexts (rules_of guide.now))
        (fluent_count task.now)
        run.now.steps.items run.now.state run.now.context (left world.old)) }
    ensures in_task { MakesStepOf (fluent_count task.now) (action_count task.now) result }
{
    let made = run.steps.len();
    let at = Standing {
        state: &run.state,
        context: run.context,
        number: made as u64 + 1,
        full: made == MOST_STEPS,
    };
    take_turn(task, guide, &at, world)
}

impl Run {
    /// Tells the monitors of a step, and adds it to the run, which goes on in a context or in none.
    fn go_on(
        &mut self,
        step: Step,
        context: Option<u32>,
        monitors: &mut Vec<Box<dyn Monitor>>,
    ) -> Result<(), AllocFailed<Step>>
        requires small { All (λ monitor. (shown monitor).counted ≤ 2 ^ 127) monitors.old.items }
        ensures told { AreTold (step ∷ [])
            (map (λ monitor. shown monitor) monitors.old.items)
            (map (λ monitor. shown monitor) monitors.new.items) }
        ensures steps { OnOk result (self.new.steps.items ≡ self.old.steps.items ++ step ∷ []) }
        ensures state { OnOk result (self.new.state ≡ step.after) }
        ensures context { OnOk result (self.new.context ≡ context) }
    {
        tell(monitors, &step);
        self.state = step.after;
        self.context = context;
        self.steps.push(step)
    }
}
