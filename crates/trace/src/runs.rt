//! Whole runs.

ghost use Rattle.std.specs.Prelude.{
  ◌≡◌,
  ◌+◌,
  ◌++◌,
  ◌∷◌,
  [],
  ℕ,
  IfOk,
  List,
  OnOk,
  drop,
  length,
  slice_get,
};
ghost use Rattle.rule_lookup.specs.RunRules.{run_rules};
ghost use Rattle.plan_rules.specs.Denoted.{denoted_contexts};
ghost use Rattle.plan_rules.specs.Plans.{IsPlanOf};
ghost use Rattle.plan_rules.specs.Rules.{PlainPlan, plain_of};
ghost use Rattle.run_replay.specs.Running.{next_turn_of};
ghost use Rattle.task_core.specs.States.{IsWithin, vector};
ghost use Rattle.task_core.specs.Tasks.{action_count, fluent_count, system_of};
ghost use Rattle.task_core.specs.Vectors.{Vector};
ghost use Rattle.trace.specs.Indexed.{AreIndexedFor, rules_in};
ghost use Rattle.trace.specs.RecordedRuns.{IsRecordedRun};
ghost use Rattle.trace.specs.Turns.{
  HasHalted,
  IsHaltOf,
  IsRuledTurn,
  IsTurn,
  IsTurnOf,
  plain_steps,
};
ghost use Rattle.trace.specs.Values.{run_value};

use crate::rules::IndexedRules;
use crate::stops::{Stop, stop_at};
use crate::turns::{Halt, Standing, Turn, take_turn};
use plan_rules::{FIRST_CONTEXT, Plan};
use run_replay::{MOST_STEPS, Step};
use std::alloc::{AllocError, Global};
use task_core::{State, Task};

/// A step: the number of the rule that counts in the plan's text, counted from 0, the step, and the
/// context to which it leads, where there is one.
#[derive(Clone, Copy)]
pub struct MadeStep {
    pub rule: usize,
    pub step: Step,
    pub context: Option<u32>,
}

/// A run: its steps, and why it stops.
#[derive(Drop)]
pub struct RecordedRun<'a> {
    pub steps: Vec<MadeStep>,
    pub stop: Stop<'a>,
}

/// A run on its way: its steps so far, and the state and the context that they led to.
#[derive(Drop)]
pub(crate) struct Course {
    steps: Vec<MadeStep>,
    state: State,
    context: Option<u32>,
}

/// A run that makes no further step, and why.
#[derive(Drop)]
pub(crate) struct Halted {
    course: Course,
    halt: Halt,
}

/// The run of a plan from a state, in context 1, with these outcome numbers: the steps that `execute` makes
/// with them, up to the first that it doesn't, and why it doesn't.
///
/// The plan's numbers are those of the task's fluents and actions, and the state has no true fluent past
/// the task's. Fails only where memory runs out.
pub fn recorded_run<'a>(
    alloc: Global,
    task: &'a Task,
    plan: &Plan,
    first: &State,
    words: &[u32],
) -> Result<RecordedRun<'a>, AllocError>
    requires plan { IsPlanOf (fluent_count task.now) (action_count task.now) plan.now }
    requires within { IsWithin (fluent_count task.now) first.now }
    ensures { let n = fluent_count task.now in IfOk result (λ run.
        IsRecordedRun task.now (plain_of plan.now) (vector n first.now) words.now (run_value n run)) }
{
    let rules = IndexedRules::new(alloc, task, plan)?;
    let halted = run_rules(alloc, task, &rules, first, words)?;
    stopped(alloc, task, halted)
}

/// The run by these rules, up to where it makes no further step.
fn run_rules(
    alloc: Global,
    task: &Task,
    rules: &IndexedRules<'_>,
    first: &State,
    words: &[u32],
) -> Result<Halted, AllocError>
    requires rules { AreIndexedFor (fluent_count task.now) (action_count task.now) rules.now }
    requires within { IsWithin (fluent_count task.now) first.now }
    ensures { let n = fluent_count task.now in IfOk result (λ halted.
        HasHalted task.now (rules_in rules.now) (vector n first.now) words.now halted) }
{
    let mut course = Course {
        steps: Vec::new(alloc),
        state: *first,
        context: Some(FIRST_CONTEXT),
    };
    loop {
        match course.next_turn(task, rules, words) {
            Turn::Halts(halt) => return Ok(Halted { course, halt }),
            Turn::Makes(made) => course.go_on(made)?,
        }
    }
}

impl Course {
    fn next_turn(&self, task: &Task, rules: &IndexedRules<'_>, words: &[u32]) -> Turn
        requires rules { AreIndexedFor (fluent_count task.now) (action_count task.now) rules.now }
        requires within { IsWithin (fluent_count task.now) self.now.state }
        ensures turn { let n = fluent_count task.now in let made = length self.now.steps.items in
            IsTurn n (made + 1) result (drop (made + 1) words.now)
            (next_turn_of (system_of task.now) (denoted_contexts (rules_in rules.now)) n
            (plain_steps self.now.steps.items) self.now.state self.now.context
            (drop made words.now)) }
        ensures in_task { IsTurnOf (fluent_count task.now) (action_count task.now) result }
        ensures ruled { let n = fluent_count task.now in
            IsRuledTurn n (rules_in rules.now) (vector n self.now.state) self.now.context result }
    {
        let made = self.steps.len();
        let at = Standing {
            state: &self.state,
            context: self.context,
            number: made as u64 + 1,
            full: made == MOST_STEPS,
            word: next_word(words, made),
        };
        take_turn(task, rules, &at)
    }

    /// Adds a step, and goes on from where it leads.
    fn go_on(&mut self, made: MadeStep) -> Result<(), AllocError>
        ensures steps { OnOk result (self.new.steps.items ≡ self.old.steps.items ++ made ∷ []) }
        ensures state { OnOk result (self.new.state ≡ made.step.after) }
        ensures context { OnOk result (self.new.context ≡ made.context) }
    {
        self.state = made.step.after;
        self.context = made.context;
        self.steps.push(made)?;
        Ok(())
    }
}

/// The outcome number of this place, if there is one.
fn next_word(words: &[u32], place: usize) -> Option<u32>
    ensures { result ≡ slice_get words.now place }
{
    words.get(place).copied()
}

/// The run with what is false where it stops.
fn stopped<'a>(alloc: Global, task: &'a Task, halted: Halted) -> Result<RecordedRun<'a>, AllocError>
    requires { IsHaltOf (action_count task.now) halted.halt }
    ensures { let n = fluent_count task.now in IfOk result (λ run. (plan : PlainPlan) (first : Vector)
        (words : List ℕ) → HasHalted task.now (run_rules plan) first words halted
        → IsRecordedRun task.now plan first words (run_value n run)) }
{
    let Halted { course, halt } = halted;
    let stop = stop_at(alloc, task, &course.state, halt)?;
    Ok(RecordedRun {
        steps: course.steps,
        stop,
    })
}
