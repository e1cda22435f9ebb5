//! Why a run stops.

ghost use Rattle.std.specs.Prelude.{◌≡◌, ℕ, IfOk, List, MatchOption, None, Option, map};
ghost use Rattle.counterexamples.specs.Findings.{HasFalseGoal};
ghost use Rattle.plan_rules.specs.Rules.{ContextRule};
ghost use Rattle.task_core.specs.States.{vector};
ghost use Rattle.task_core.specs.Tasks.{action_count, fluent_count};
ghost use Rattle.trace.specs.RecordedRuns.{IsStop};
ghost use Rattle.trace.specs.Turns.{IsHaltOf, IsRuledHalt, halt_ending};
ghost use Rattle.trace.specs.Values.{stop_value};

use crate::rules::Counting;
use crate::turns::Halt;
use counterexamples::{false_goal, false_precondition};
use std::alloc::{AllocError, Global};
use task_core::{Cond, State, Task};

/// Why a run stops.
#[derive(Drop)]
pub enum Stop<'a> {
    /// The plan ends there: no rule matches. These parts of the goal by reachability are false, if the
    /// task has one.
    PlanEnds(Option<Vec<&'a Cond>>),
    /// The record has no outcome left, though this rule counts there.
    RecordEnds(Counting),
    /// No run makes more steps.
    MostMade,
    /// This rule counts there, and the record's outcome, the first number, is none of the so many, the
    /// second, that its action has, or leads to no state.
    NoOutcome(Counting, u32, u32),
    /// This rule counts there, and its action can't be executed: these parts of its precondition are
    /// false.
    NotExecutable(Counting, Vec<&'a Cond>),
}

/// Why a run stops that makes no further step in a state.
pub(crate) fn stop_at<'a>(
    alloc: Global,
    task: &'a Task,
    state: &State,
    halt: Halt,
) -> Result<Stop<'a>, AllocError>
    requires { IsHaltOf (action_count task.now) halt }
    ensures { let v = vector (fluent_count task.now) state.now in IfOk result (λ stop.
        (rules : List ContextRule) (context : Option ℕ) (number : ℕ)
        → IsRuledHalt rules v context halt
        → IsStop task.now rules v context (halt_ending number halt) (stop_value stop)) }
{
    match halt {
        Halt::PlanEnds => Ok(Stop::PlanEnds(goal_parts(alloc, task, state)?)),
        Halt::RecordEnds(counting) => Ok(Stop::RecordEnds(counting)),
        Halt::MostMade => Ok(Stop::MostMade),
        Halt::NoOutcome(counting, word, outcomes) => Ok(Stop::NoOutcome(counting, word, outcomes)),
        Halt::NotExecutable(counting) => {
            let parts = false_precondition(alloc, task, counting.action, state)?;
            Ok(Stop::NotExecutable(counting, parts))
        }
    }
}

/// The parts of the goal by reachability that are false in a state, if the task has one.
fn goal_parts<'a>(
    alloc: Global,
    task: &'a Task,
    state: &State,
) -> Result<Option<Vec<&'a Cond>>, AllocError>
    ensures { let v = vector (fluent_count task.now) state.now in IfOk result (λ found.
        MatchOption found (task.now.goal ≡ None)
        (λ parts. HasFalseGoal task.now v (map (λ part. part.now) parts.items))) }
{
    match &task.goal {
        None => Ok(None),
        Some(_goal) => Ok(Some(false_goal(alloc, task, state)?)),
    }
}
