//! The text of a run and what is the matter at its end.

ghost use Rattle.goal_witness.specs.Lines.{line_value};
ghost use Rattle.goal_witness.specs.Texts.{false_lines};
ghost use Rattle.counterexamples.specs.Findings.{again_from as again_of};
ghost use Rattle.counterexamples.specs.Texts.{
  back_text,
  context_note,
  ending_text,
  first_match as first_match_of,
  finding_text as text_of,
  found_text,
  gap_text,
  initial_line,
  is_recorded as is_recorded_run,
  length_line,
  longest_text,
  missed_text,
  more_text,
  move_text,
  numbers_text,
  outcomes_text,
  record_line,
  refusal_note,
  round_text,
  rule_text,
  run_text,
  sentence,
  stays_line,
  step_lines,
  steps_text,
  takes_first as takes_first_of,
  word_for,
};
ghost use Rattle.counterexamples.specs.Values.{
  ending_value,
  finding_value,
  found_value,
  run_found_value,
  source_value,
  stays_value,
};
ghost use Rattle.plan_rules.specs.Plans.{IsPlanOf, IsRuleOf};
ghost use Rattle.plan_rules.specs.Rules.{plain_of, rule_of};
ghost use Rattle.plan_witness.specs.Values.{run_value, step_value, steps_value};
ghost use Rattle.std.specs.Option.{option_map};
ghost use Rattle.std.specs.Prelude.{◌≡◌, ◌++◌, All, IfOk, OnOk, Some, map, string_bytes, ℕ};
ghost use Rattle.task_core.specs.States.{vector};
ghost use Rattle.task_core.specs.Tasks.{action_count, fluent_count, fluent_names};

use crate::endings::Ending;
use crate::findings::Found;
use crate::sources::{Source, line_at};
use crate::stays::Stays;
use crate::verdicts::Finding;
use goal_witness::{Line, push_lines};
use plan_rules::{Plan, Rule, has_all, push_number};
use plan_witness::{Run, RunStep};
use state_text::{push_action, push_changes, push_parts, push_step_number, push_true};
use std::alloc::{AllocError, Global};
use task_core::{Cond, State, Task};

/// The text of what is told of a verdict: the run that shows it, and a longest run.
pub fn finding_text(
    alloc: Global,
    source: &Source<'_>,
    finding: &Finding<'_>,
) -> Result<String, AllocError>
    requires { let task = source.now.task.now in
        IsPlanOf (fluent_count task) (action_count task) source.now.plan.now }
    ensures { let n = fluent_count source.now.task.now in IfOk result (λ text.
        string_bytes text ≡ text_of (source_value source.now) (finding_value n finding.now)) }
{
    let mut out = String::new(alloc);
    push_run(&mut out, source, &finding.stays, &finding.run)?;
    push_longest(&mut out, source, &finding.longest)?;
    Ok(out)
}

/// Appends the text of a run that shows a verdict, where there is one.
fn push_run(
    out: &mut String,
    source: &Source<'_>,
    stays: &Option<Stays>,
    run: &Option<Found<'_>>,
) -> Result<(), AllocError>
    requires { let task = source.now.task.now in
        IsPlanOf (fluent_count task) (action_count task) source.now.plan.now }
    ensures { let n = fluent_count source.now.task.now in
        OnOk result (string_bytes out.new ≡ string_bytes out.old
        ++ run_text (source_value source.now) (option_map stays_value stays.now)
        (run_found_value n run.now)) }
{
    match run {
        Some(found) => push_found(out, source, stays, found),
        None => Ok(()),
    }
}

/// Appends the text of a longest run, where there is one.
fn push_longest(
    out: &mut String,
    source: &Source<'_>,
    longest: &Option<Found<'_>>,
) -> Result<(), AllocError>
    requires { let task = source.now.task.now in
        IsPlanOf (fluent_count task) (action_count task) source.now.plan.now }
    ensures { let n = fluent_count source.now.task.now in
        OnOk result (string_bytes out.new ≡ string_bytes out.old
        ++ longest_text (source_value source.now) (run_found_value n longest.now)) }
{
    match longest {
        Some(found) => {
            push_length(out, found.run.steps.len())?;
            push_found(out, source, &None, found)
        }
        None => Ok(()),
    }
}

/// Appends how many steps a longest run has.
fn push_length(out: &mut String, steps: usize) -> Result<(), AllocError>
    ensures { OnOk result (string_bytes out.new ≡ string_bytes out.old ++ length_line steps) }
{
    out.push_str("a longest run has ")?;
    push_number(out, steps)?;
    out.push_str(" ")?;
    push_word(out, steps, "step")?;
    out.push_str(":")?;
    out.push_str("\n")
}

/// Appends a word for so many, with an s at its end unless it is one.
fn push_word(out: &mut String, count: usize, word: &str) -> Result<(), AllocError>
    ensures { OnOk result (string_bytes out.new ≡ string_bytes out.old ++ word_for count word.now) }
{
    out.push_str(word)?;
    if count == 1 {
        return Ok(());
    }
    out.push_str("s")
}

/// Appends the text of a run with what is the matter at its end: a line for the initial state, lines for
/// each step, a sentence, where the plan stays, and the record.
fn push_found(
    out: &mut String,
    source: &Source<'_>,
    stays: &Option<Stays>,
    found: &Found<'_>,
) -> Result<(), AllocError>
    requires { let task = source.now.task.now in
        IsPlanOf (fluent_count task) (action_count task) source.now.plan.now }
    ensures { let n = fluent_count source.now.task.now in
        OnOk result (string_bytes out.new ≡ string_bytes out.old
        ++ found_text (source_value source.now) (option_map stays_value stays.now)
        (found_value n found.now)) }
{
    push_initial(out, source.task, found.number, &found.run.start)?;
    push_steps(out, source, &found.run)?;
    push_sentence(out, source, found)?;
    out.push_str("\n")?;
    push_stays(out, stays)?;
    push_record(out, source, found.number, &found.run)
}

/// Appends in which states the plan stays, if that is told.
fn push_stays(out: &mut String, stays: &Option<Stays>) -> Result<(), AllocError>
    ensures { OnOk result (string_bytes out.new ≡ string_bytes out.old
        ++ stays_line (option_map stays_value stays.now)) }
{
    match stays {
        Some(stays) => push_states(out, stays),
        None => Ok(()),
    }
}

/// Appends in which states the plan stays.
fn push_states(out: &mut String, stays: &Stays) -> Result<(), AllocError>
    ensures { OnOk result (string_bytes out.new ≡ string_bytes out.old
        ++ stays_line (Some (stays_value stays.now))) }
{
    out.push_str("from here the plan stays in ")?;
    push_word(out, stays.numbers.len(), "state")?;
    out.push_str(" ")?;
    push_numbers(out, &stays.numbers)?;
    push_more(out, stays.more)?;
    out.push_str("\n")
}

/// Appends numbers, each after a comma but the first.
fn push_numbers(out: &mut String, numbers: &[u32]) -> Result<(), AllocError>
    ensures { OnOk result (string_bytes out.new ≡ string_bytes out.old ++ numbers_text numbers.now) }
{
    for place in 0..numbers.len() {
        push_gap(out, place)?;
        push_number(out, numbers[place])?;
    }
    Ok(())
}

/// Appends a comma and a space before each place but the first.
fn push_gap(out: &mut String, place: usize) -> Result<(), AllocError>
    ensures { OnOk result (string_bytes out.new ≡ string_bytes out.old ++ gap_text place) }
{
    if place == 0 {
        return Ok(());
    }
    out.push_str(", ")
}

/// Appends how many numbers are left, where some are.
fn push_more(out: &mut String, more: usize) -> Result<(), AllocError>
    ensures { OnOk result (string_bytes out.new ≡ string_bytes out.old ++ more_text more) }
{
    if more == 0 {
        return Ok(());
    }
    out.push_str(" and ")?;
    push_number(out, more)?;
    out.push_str(" more")
}

/// What is the matter at the end of a run, as a sentence.
pub fn ending_sentence(
    alloc: Global,
    source: &Source<'_>,
    found: &Found<'_>,
) -> Result<String, AllocError>
    ensures { let n = fluent_count source.now.task.now in IfOk result (λ text.
        string_bytes text ≡ sentence (source_value source.now) (found_value n found.now)) }
{
    let mut out = String::new(alloc);
    push_sentence(&mut out, source, found)?;
    Ok(out)
}

/// Appends the line of the initial state.
pub fn push_initial(
    out: &mut String,
    task: &Task,
    number: usize,
    state: &State,
) -> Result<(), AllocError>
    ensures { OnOk result (string_bytes out.new ≡ string_bytes out.old
        ++ initial_line (fluent_names task.now) number
        (vector (fluent_count task.now) state.now)) }
{
    out.push_str("initial ")?;
    push_number(out, number)?;
    out.push(':')?;
    push_true(out, task, state)?;
    out.push('\n')
}

/// Appends the lines of all steps.
fn push_steps(out: &mut String, source: &Source<'_>, run: &Run) -> Result<(), AllocError>
    ensures { let n = fluent_count source.now.task.now in
        OnOk result (string_bytes out.new ≡ string_bytes out.old
        ++ steps_text (source_value source.now) 1 (vector n run.now.start)
        (steps_value n run.now.steps.items)) }
{
    let mut before = run.start;
    for index in 0..run.steps.len() {
        let step = &run.steps[index];
        push_step(out, source, index + 1, &before, step)?;
        before = step.state;
    }
    Ok(())
}

/// Appends the lines of the step of a number from a state.
fn push_step(
    out: &mut String,
    source: &Source<'_>,
    number: usize,
    before: &State,
    step: &RunStep,
) -> Result<(), AllocError>
    ensures { let n = fluent_count source.now.task.now in
        OnOk result (string_bytes out.new ≡ string_bytes out.old
        ++ step_lines (source_value source.now) number (vector n before.now)
        (step_value n step.now)) }
{
    push_step_number(out, number)?;
    push_move(out, source, step)?;
    push_context(out, source.plan, step.context)?;
    out.push_str("\n")?;
    push_changes(out, source.task, before, &step.state)
}

/// Appends the rule, the action and the outcome of a step.
fn push_move(out: &mut String, source: &Source<'_>, step: &RunStep) -> Result<(), AllocError>
    ensures { (n : ℕ) → OnOk result (string_bytes out.new ≡ string_bytes out.old
        ++ move_text (source_value source.now) (step_value n step.now)) }
{
    push_rule(out, source, step.rule)?;
    out.push_str(": ")?;
    push_action(out, source.task, step.action)?;
    out.push_str(", outcome ")?;
    push_number(out, step.outcome)
}

/// Appends a rule, with its line.
pub fn push_rule(out: &mut String, source: &Source<'_>, rule: usize) -> Result<(), AllocError>
    ensures { OnOk result (string_bytes out.new ≡ string_bytes out.old
        ++ rule_text (source_value source.now) rule) }
{
    out.push_str("rule ")?;
    push_number(out, rule)?;
    out.push_str(" (line ")?;
    push_number(out, line_at(source, rule))?;
    out.push_str(")")
}

/// Appends a context, where the plan has contexts.
fn push_context(out: &mut String, plan: &Plan, context: u32) -> Result<(), AllocError>
    ensures { OnOk result (string_bytes out.new ≡ string_bytes out.old
        ++ context_note (plain_of plan.now) context) }
{
    match plan {
        Plan::Table(_) => Ok(()),
        Plan::Auto(_) => {
            out.push_str(", context ")?;
            push_number(out, context)
        }
    }
}

/// Appends what is the matter at the end of a run.
fn push_sentence(out: &mut String, source: &Source<'_>, found: &Found<'_>) -> Result<(), AllocError>
    ensures { (n : ℕ) → OnOk result (string_bytes out.new ≡ string_bytes out.old
        ++ sentence (source_value source.now) (found_value n found.now)) }
{
    push_ending(out, source, again_from(found), &found.ending)
}

/// The number of the step, counted from 1, from which on a run leads back to where it was before that step.
fn again_from(found: &Found<'_>) -> Option<usize>
    ensures { (n : ℕ) → result ≡ again_of (found_value n found.now) }
{
    if found.stem < found.run.steps.len() {
        return Some(found.stem + 1);
    }
    None
}

/// Appends what is the matter at the end of a run that repeats itself from this step on, if from one.
fn push_ending(
    out: &mut String,
    source: &Source<'_>,
    again: Option<usize>,
    ending: &Ending<'_>,
) -> Result<(), AllocError>
    ensures { OnOk result (string_bytes out.new ≡ string_bytes out.old
        ++ ending_text (source_value source.now) again (ending_value ending.now)) }
{
    match ending {
        Ending::InGoal => out.push_str("the plan ends here, in the goal"),
        Ending::OutsideGoal(parts) => {
            out.push_str("the plan ends here, outside the goal: false is")?;
            push_parts(out, source.task, parts)
        }
        Ending::NotExecutable(rule, action, parts) => {
            push_rule(out, source, *rule)?;
            out.push_str(" counts here, but ")?;
            push_action(out, source.task, *action)?;
            out.push_str(" can't be executed: ")?;
            push_refusal(out, source.task, parts)
        }
        Ending::WithoutRule => out.push_str("the context has no rule for this state"),
        Ending::WithoutNext(rule, action, outcome) => {
            push_rule(out, source, *rule)?;
            out.push_str(" counts here, but has no next context for outcome ")?;
            push_number(out, *outcome)?;
            out.push_str(" of ")?;
            push_action(out, source.task, *action)
        }
        Ending::ComesBack => push_back(out, again),
        Ending::NeverInGoal => out.push_str("no run from here ends in the goal"),
        Ending::NeverEnding => out.push_str("no run from here ends"),
        Ending::GoalMissed(fair, lines) => push_missed(out, source.task, *fair, lines, again),
    }
}

/// Appends which goal is false, where its parts are, and where the run comes round.
fn push_missed(
    out: &mut String,
    task: &Task,
    fair: bool,
    lines: &[Line<'_>],
    again: Option<usize>,
) -> Result<(), AllocError>
    ensures { OnOk result (string_bytes out.new ≡ string_bytes out.old ++ (missed_text fair
        ++ false_lines (fluent_names task.now) (map line_value lines.now) ++ round_text again)) }
{
    out.push_str(missed_sentence(fair))?;
    push_lines(out, &task.fluents, lines)?;
    push_round(out, again)
}

/// Which goal is false.
fn missed_sentence(fair: bool) -> &'static str
    ensures { result.now ≡ missed_text fair }
{
    if fair {
        return "the problem's goal, rewritten for actions that may be tried again, is false in the initial state:";
    }
    "the problem's goal is false in the initial state:"
}

/// Appends a new line for a run that comes round.
fn push_round(out: &mut String, again: Option<usize>) -> Result<(), AllocError>
    ensures { OnOk result (string_bytes out.new ≡ string_bytes out.old ++ round_text again) }
{
    match again {
        None => Ok(()),
        Some(number) => {
            out.push('\n')?;
            push_again(out, number)
        }
    }
}

/// Appends that a run is back where it was before the step of this number.
fn push_back(out: &mut String, again: Option<usize>) -> Result<(), AllocError>
    ensures { OnOk result (string_bytes out.new ≡ string_bytes out.old ++ back_text again) }
{
    match again {
        None => out.push_str("some run from here comes back here"),
        Some(number) => push_again(out, number),
    }
}

fn push_again(out: &mut String, number: usize) -> Result<(), AllocError>
    ensures { OnOk result
        (string_bytes out.new ≡ string_bytes out.old ++ back_text (Some number)) }
{
    out.push_str("the run is back where it was before step ")?;
    push_number(out, number)?;
    out.push_str(", and may go on so for ever")
}

/// Appends which parts of a precondition are false.
pub fn push_refusal(out: &mut String, task: &Task, parts: &[&Cond]) -> Result<(), AllocError>
    ensures { OnOk result (string_bytes out.new ≡ string_bytes out.old
        ++ refusal_note (fluent_names task.now) (map (λ part. part.now) parts.now)) }
{
    if parts.is_empty() {
        return out.push_str("though its precondition holds");
    }
    out.push_str("false is")?;
    push_parts(out, task, parts)
}

/// Appends the record of a run, or that there is none.
fn push_record(
    out: &mut String,
    source: &Source<'_>,
    number: usize,
    run: &Run,
) -> Result<(), AllocError>
    requires { let task = source.now.task.now in
        IsPlanOf (fluent_count task) (action_count task) source.now.plan.now }
    ensures { OnOk result (string_bytes out.new ≡ string_bytes out.old
        ++ record_line (plain_of source.now.plan.now) number
        (run_value (fluent_count source.now.task.now) run.now)) }
{
    if !is_recorded(source.task, source.plan, run) {
        return out.push_str(
            "no record: some step takes a rule that isn't the first that matches\n",
        );
    }
    out.push_str("(record ")?;
    push_number(out, number)?;
    push_outcomes(out, &run.steps)?;
    out.push_str(")\n")
}

/// Appends the outcome numbers of steps, each after a space.
fn push_outcomes(out: &mut String, steps: &[RunStep]) -> Result<(), AllocError>
    ensures { (n : ℕ) → OnOk result (string_bytes out.new ≡ string_bytes out.old
        ++ outcomes_text (steps_value n steps.now)) }
{
    for step in steps {
        out.push(' ')?;
        push_number(out, step.outcome)?;
    }
    Ok(())
}

/// Whether a run takes the rules that a replay of its record takes.
fn is_recorded(task: &Task, plan: &Plan, run: &Run) -> bool
    requires { IsPlanOf (fluent_count task.now) (action_count task.now) plan.now }
    ensures { result ≡ is_recorded_run (plain_of plan.now)
        (run_value (fluent_count task.now) run.now) }
{
    match plan {
        Plan::Table(table) => takes_first(task, &table.rules, run),
        Plan::Auto(_) => true,
    }
}

/// Whether each step of a run takes the first rule that matches.
fn takes_first(task: &Task, rules: &[Rule], run: &Run) -> bool
    requires { let n = fluent_count task.now in let m = action_count task.now in
        All (λ rule. IsRuleOf n m (rule_of rule)) rules.now }
    ensures { let n = fluent_count task.now in result
        ≡ takes_first_of (map rule_of rules.now) (vector n run.now.start)
        (steps_value n run.now.steps.items) }
{
    let mut before = run.start;
    for step in &run.steps {
        if first_match(task, rules, &before) != step.rule {
            return false;
        }
        before = step.state;
    }
    true
}

fn first_match(task: &Task, rules: &[Rule], state: &State) -> usize
    requires { let n = fluent_count task.now in let m = action_count task.now in
        All (λ rule. IsRuleOf n m (rule_of rule)) rules.now }
    ensures { result ≡ first_match_of (map rule_of rules.now)
        (vector (fluent_count task.now) state.now) }
{
    for number in 0..rules.len() {
        if has_all(task, &rules[number].cube, state) {
            return number;
        }
    }
    rules.len()
}
