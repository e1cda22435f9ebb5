//! The text of a run.

ghost use Rattle.std.specs.Prelude.{◌≡◌, ◌++◌, ℕ, IfOk, OnOk, map, string_bytes};
ghost use Rattle.counterexamples.specs.Values.{source_value};
ghost use Rattle.plan_rules.specs.Rules.{plain_of};
ghost use Rattle.task_core.specs.States.{vector};
ghost use Rattle.task_core.specs.Tasks.{action_names, fluent_count, fluent_names};
ghost use Rattle.trace.specs.RecordedRuns.{not_executable};
ghost use Rattle.trace.specs.Texts.{
  act_text,
  beyond_text,
  counts_text,
  excluded_text,
  goal_text,
  made_lines,
  mades_text,
  move_text,
  next_note,
  onward_note,
  recorded_text as text_of,
  stop_text,
  word_text,
};
ghost use Rattle.trace.specs.Values.{made_value, mades_value, run_value, stop_value};
ghost use Rattle.trace.specs.declared.stops.Stop.TheVariants.{
  MostMade,
  NoOutcome,
  PlanEnds,
  RecordEnds,
};

use crate::rules::Counting;
use crate::runs::{MadeStep, RecordedRun};
use crate::stops::Stop;
use counterexamples::{Source, push_initial, push_refusal, push_rule};
use plan_rules::{Plan, push_number};
use state_text::{push_action, push_changes, push_parts, push_step_number};
use std::alloc::{AllocError, Global};
use task_core::{ActionId, Cond, State, Task};

/// The text of a run from the initial state of this number: a line for the initial state, lines for each
/// step, and why the run stops.
pub fn recorded_text(
    alloc: Global,
    source: &Source<'_>,
    number: u32,
    first: &State,
    run: &RecordedRun<'_>,
) -> Result<String, AllocError>
    ensures { let n = fluent_count source.now.task.now in IfOk result (λ text. string_bytes text
        ≡ text_of (source_value source.now) number (vector n first.now) (run_value n run.now)) }
{
    let mut out = String::new(alloc);
    push_initial(&mut out, source.task, number as usize, first)?;
    push_mades(&mut out, source, &run.steps)?;
    push_stop(&mut out, source, &run.stop)?;
    out.push('\n')?;
    Ok(out)
}

/// Appends the lines of steps.
fn push_mades(out: &mut String, source: &Source<'_>, steps: &[MadeStep]) -> Result<(), AllocError>
    ensures { let n = fluent_count source.now.task.now in
        OnOk result (string_bytes out.new ≡ string_bytes out.old
        ++ mades_text (source_value source.now) (mades_value n steps.now)) }
{
    for made in steps {
        push_made(out, source, made)?;
    }
    Ok(())
}

/// Appends the lines of a step.
fn push_made(out: &mut String, source: &Source<'_>, made: &MadeStep) -> Result<(), AllocError>
    ensures { let n = fluent_count source.now.task.now in
        OnOk result (string_bytes out.new ≡ string_bytes out.old
        ++ made_lines (source_value source.now) (made_value n made.now)) }
{
    push_step_number(out, made.step.number as usize)?;
    push_move(out, source, made)?;
    push_next(out, source.plan, made.context)?;
    out.push_str("\n")?;
    push_changes(out, source.task, &made.step.before, &made.step.after)
}

/// Appends the rule, the action and the outcome of a step.
fn push_move(out: &mut String, source: &Source<'_>, made: &MadeStep) -> Result<(), AllocError>
    ensures { (n : ℕ) → OnOk result (string_bytes out.new ≡ string_bytes out.old
        ++ move_text (source_value source.now) (made_value n made.now)) }
{
    push_act(out, source, made.rule, made.step.action)?;
    out.push_str(", outcome ")?;
    push_number(out, made.step.outcome)
}

fn push_act(
    out: &mut String,
    source: &Source<'_>,
    rule: usize,
    action: ActionId,
) -> Result<(), AllocError>
    ensures { OnOk result (string_bytes out.new ≡ string_bytes out.old
        ++ act_text (source_value source.now) rule action.0) }
{
    push_rule(out, source, rule)?;
    out.push_str(": ")?;
    push_action(out, source.task, action)
}

/// Appends the context to which a step leads, or that there is none, where the plan has contexts.
fn push_next(out: &mut String, plan: &Plan, context: Option<u32>) -> Result<(), AllocError>
    ensures { OnOk result (string_bytes out.new ≡ string_bytes out.old
        ++ next_note (plain_of plan.now) context) }
{
    match plan {
        Plan::Table(_) => Ok(()),
        Plan::Auto(_) => push_context(out, context),
    }
}

/// Appends the context to which a step of a plan with contexts leads, or that there is none.
fn push_context(out: &mut String, context: Option<u32>) -> Result<(), AllocError>
    ensures { OnOk result (string_bytes out.new ≡ string_bytes out.old ++ onward_note context) }
{
    match context {
        None => out.push_str(", no next context"),
        Some(context) => {
            out.push_str(", context ")?;
            push_number(out, context)
        }
    }
}

/// Appends why a run stops.
fn push_stop(out: &mut String, source: &Source<'_>, stop: &Stop<'_>) -> Result<(), AllocError>
    ensures { OnOk result (string_bytes out.new ≡ string_bytes out.old
        ++ stop_text (source_value source.now) (stop_value stop.now)) }
{
    match stop {
        Stop::PlanEnds(found) => push_plan_ends(out, source, found),
        Stop::RecordEnds(counting) => push_record_ends(out, source, counting),
        Stop::MostMade => push_most_made(out, source),
        Stop::NoOutcome(counting, word, outcomes) => {
            push_no_outcome(out, source, counting, *word, *outcomes)
        }
        Stop::NotExecutable(counting, parts) => push_not_executable(out, source, counting, parts),
    }
}

/// Appends that the plan ends, and which parts of the goal are false, if there is one.
fn push_plan_ends(
    out: &mut String,
    source: &Source<'_>,
    found: &Option<Vec<&Cond>>,
) -> Result<(), AllocError>
    ensures { OnOk result (string_bytes out.new ≡ string_bytes out.old
        ++ stop_text (source_value source.now) (stop_value (PlanEnds found.now))) }
{
    match found {
        None => out.push_str("the plan ends here: no rule matches"),
        Some(parts) => push_goal(out, source.task, parts),
    }
}

/// Appends that the record ends, and what comes next.
fn push_record_ends(
    out: &mut String,
    source: &Source<'_>,
    counting: &Counting,
) -> Result<(), AllocError>
    ensures { OnOk result (string_bytes out.new ≡ string_bytes out.old
        ++ stop_text (source_value source.now) (stop_value (RecordEnds counting.now))) }
{
    out.push_str("the record ends here: next is ")?;
    push_act(out, source, counting.rule, counting.action)
}

/// Appends that no run has more steps.
fn push_most_made(out: &mut String, source: &Source<'_>) -> Result<(), AllocError>
    ensures { OnOk result (string_bytes out.new ≡ string_bytes out.old
        ++ stop_text (source_value source.now) (stop_value MostMade)) }
{
    out.push_str("the run stops here: no run has more steps")
}

/// Appends which rule counts, and that the record's outcome is none of its action's, or leads to no state.
fn push_no_outcome(
    out: &mut String,
    source: &Source<'_>,
    counting: &Counting,
    word: u32,
    outcomes: u32,
) -> Result<(), AllocError>
    ensures { OnOk result (string_bytes out.new ≡ string_bytes out.old
        ++ stop_text (source_value source.now) (stop_value (NoOutcome counting.now word outcomes))) }
{
    push_counts(out, source, counting.rule)?;
    push_word(out, source.task, counting.action, word, outcomes)
}

/// Appends which rule counts, and that its action can't be executed.
fn push_not_executable(
    out: &mut String,
    source: &Source<'_>,
    counting: &Counting,
    parts: &[&Cond],
) -> Result<(), AllocError>
    ensures { OnOk result (string_bytes out.new ≡ string_bytes out.old
        ++ stop_text (source_value source.now)
        (not_executable counting.now.rule counting.now.action.0 (map (λ part. part.now) parts.now))) }
{
    push_counts(out, source, counting.rule)?;
    push_action(out, source.task, counting.action)?;
    out.push_str(" can't be executed: ")?;
    push_refusal(out, source.task, parts)
}

/// Appends that a rule counts, but.
fn push_counts(out: &mut String, source: &Source<'_>, rule: usize) -> Result<(), AllocError>
    ensures { OnOk result (string_bytes out.new ≡ string_bytes out.old
        ++ counts_text (source_value source.now) rule) }
{
    push_rule(out, source, rule)?;
    out.push_str(" counts here, but ")
}

/// Appends where the plan ends: in the goal, or outside it.
fn push_goal(out: &mut String, task: &Task, parts: &[&Cond]) -> Result<(), AllocError>
    ensures { OnOk result (string_bytes out.new ≡ string_bytes out.old
        ++ goal_text (fluent_names task.now) (map (λ part. part.now) parts.now)) }
{
    if parts.is_empty() {
        return out.push_str("the plan ends here, in the goal");
    }
    out.push_str("the plan ends here, outside the goal: false is")?;
    push_parts(out, task, parts)
}

/// Appends the record's outcome, which is none of the action's, or leads to no state.
fn push_word(
    out: &mut String,
    task: &Task,
    action: ActionId,
    word: u32,
    outcomes: u32,
) -> Result<(), AllocError>
    ensures { OnOk result (string_bytes out.new ≡ string_bytes out.old
        ++ word_text (action_names task.now) action.0 word outcomes) }
{
    if word < outcomes {
        return push_excluded(out, task, action, word);
    }
    push_beyond(out, task, action, word, outcomes)
}

/// Appends that an outcome leads to no state.
fn push_excluded(
    out: &mut String,
    task: &Task,
    action: ActionId,
    word: u32,
) -> Result<(), AllocError>
    ensures { OnOk result (string_bytes out.new ≡ string_bytes out.old
        ++ excluded_text (action_names task.now) action.0 word) }
{
    out.push_str("outcome ")?;
    push_number(out, word)?;
    out.push_str(" of ")?;
    push_action(out, task, action)?;
    out.push_str(" leads to a state that the invariant excludes")
}

/// Appends that a number is none of an action's outcomes, and how many it has.
fn push_beyond(
    out: &mut String,
    task: &Task,
    action: ActionId,
    word: u32,
    outcomes: u32,
) -> Result<(), AllocError>
    ensures { OnOk result (string_bytes out.new ≡ string_bytes out.old
        ++ beyond_text (action_names task.now) action.0 word outcomes) }
{
    push_action(out, task, action)?;
    out.push_str(" has no outcome ")?;
    push_number(out, word)?;
    out.push_str(": it has ")?;
    push_number(out, outcomes)?;
    out.push_str(", counted from 0")
}
