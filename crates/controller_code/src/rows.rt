//! The rows of a program's tables.

ghost use Rattle.controller_code.specs.FirstMoves.{next_number};
ghost use Rattle.controller_code.specs.Rows.{
  action_rows,
  change_row as row_of_change,
  goal_words as words_of_goal,
  literal_number as number_of_literal,
  outcome_rows,
  rule_row as row_of_rule,
  rows_of_outcome,
  step_row as row_of_step,
};
ghost use Rattle.controller_code.specs.Tables.{row_line};
ghost use Rattle.controller_code.specs.Texts.{counted_line};
ghost use Rattle.rule_lookup.specs.RunRules.{in_one_context, run_rules};
ghost use Rattle.plan_rules.specs.Rules.{context_rule_of, next_of, plain_of, rule_of};
ghost use Rattle.std.specs.List.{flat_map};
ghost use Rattle.std.specs.Prelude.{◌≡◌, ◌++◌, ◌∷◌, IfOk, OnOk, [], drop, map, take};

use crate::left_rules::number_of;
use crate::numbers::{push_counted, push_row};
use crate::steps::Step;
use crate::words::{FALSE, push_words};
use plan_rules::{AutoRule, FIRST_CONTEXT, Next, Plan, Rule};
use std::alloc::{AllocError, Global};
use task_core::{Change, GroundAction, Lit, Outcome, Task};

/// Appends the line of the goal's words.
pub(crate) fn push_goal(
    out: &mut Vec<u8>,
    alloc: Global,
    task: &Task,
    plan: &Plan,
) -> Result<(), AllocError>
    ensures { OnOk result (out.new.items ≡ out.old.items
        ++ counted_line (words_of_goal task.now (plain_of plan.now))) }
{
    let words = goal_words(alloc, task, plan)?;
    push_counted(out, &words)
}

fn goal_words(alloc: Global, task: &Task, plan: &Plan) -> Result<Vec<usize>, AllocError>
    ensures { IfOk result (λ words. words.items ≡ words_of_goal task.now (plain_of plan.now)) }
{
    let mut words = Vec::new(alloc);
    match (plan, &task.goal) {
        (Plan::Table(_), Some(goal)) => push_words(&mut words, goal)?,
        _ => words.push(FALSE)?,
    }
    Ok(words)
}

/// Appends the lines of a plan's rules.
pub(crate) fn push_rules(out: &mut Vec<u8>, alloc: Global, plan: &Plan) -> Result<(), AllocError>
    ensures { OnOk result (out.new.items ≡ out.old.items
        ++ flat_map counted_line (map row_of_rule (run_rules (plain_of plan.now)))) }
{
    match plan {
        Plan::Table(table) => push_table(out, alloc, &table.rules),
        Plan::Auto(automaton) => push_automaton(out, alloc, &automaton.rules),
    }
}

/// Appends the lines of a table's rules.
fn push_table(out: &mut Vec<u8>, alloc: Global, rules: &[Rule]) -> Result<(), AllocError>
    ensures { OnOk result (out.new.items ≡ out.old.items
        ++ flat_map counted_line (map row_of_rule (map in_one_context (map rule_of rules.now)))) }
{
    for rule in rules {
        push_rule(out, alloc, rule)?;
    }
    Ok(())
}

/// Appends the line of a table's rule.
fn push_rule(out: &mut Vec<u8>, alloc: Global, rule: &Rule) -> Result<(), AllocError>
    ensures { OnOk result (out.new.items ≡ out.old.items
        ++ counted_line (row_of_rule (in_one_context (rule_of rule.now)))) }
{
    let mut row = Vec::new(alloc);
    row.push(FIRST_CONTEXT as usize)?;
    row.push(rule.action.0 as usize)?;
    row.push(FIRST_CONTEXT as usize)?;
    push_literals(&mut row, &rule.cube)?;
    push_counted(out, &row)
}

/// Appends the lines of an automaton's rules.
fn push_automaton(out: &mut Vec<u8>, alloc: Global, rules: &[AutoRule]) -> Result<(), AllocError>
    ensures { OnOk result (out.new.items ≡ out.old.items
        ++ flat_map counted_line (map row_of_rule (map context_rule_of rules.now))) }
{
    for rule in rules {
        push_auto_rule(out, alloc, rule)?;
    }
    Ok(())
}

/// Appends the line of an automaton's rule.
fn push_auto_rule(out: &mut Vec<u8>, alloc: Global, rule: &AutoRule) -> Result<(), AllocError>
    ensures { OnOk result (out.new.items ≡ out.old.items
        ++ counted_line (row_of_rule (context_rule_of rule.now))) }
{
    let mut row = Vec::new(alloc);
    row.push(rule.context as usize)?;
    row.push(rule.action.0 as usize)?;
    row.push(number_of(&rule.next) as usize)?;
    push_literals(&mut row, &rule.cube)?;
    push_counted(out, &row)
}

/// Appends the numbers of literals.
fn push_literals(row: &mut Vec<usize>, literals: &[Lit]) -> Result<(), AllocError>
    ensures { OnOk result (row.new.items ≡ row.old.items ++ map number_of_literal literals.now) }
{
    for literal in literals {
        row.push(literal_number(*literal))?;
    }
    Ok(())
}

fn literal_number(literal: Lit) -> usize
    ensures { result ≡ number_of_literal literal }
{
    2 * literal.fluent.0 as usize + if literal.positive { 1 } else { 0 }
}

/// Appends the lines of the actions' outcomes.
pub(crate) fn push_actions(
    out: &mut Vec<u8>,
    alloc: Global,
    actions: &[GroundAction],
) -> Result<(), AllocError>
    ensures { OnOk result (out.new.items ≡ out.old.items
        ++ flat_map counted_line (action_rows 0 actions.now)) }
{
    for place in 0..actions.len() {
        push_outcomes(out, alloc, place, &actions[place].outcomes)?;
    }
    Ok(())
}

/// Appends the lines of an action's outcomes.
fn push_outcomes(
    out: &mut Vec<u8>,
    alloc: Global,
    action: usize,
    outcomes: &[Outcome],
) -> Result<(), AllocError>
    ensures { OnOk result (out.new.items ≡ out.old.items
        ++ flat_map counted_line (outcome_rows action 0 outcomes.now)) }
{
    for place in 0..outcomes.len() {
        push_outcome(out, alloc, action, place, &outcomes[place])?;
    }
    Ok(())
}

/// Appends the lines of an outcome.
fn push_outcome(
    out: &mut Vec<u8>,
    alloc: Global,
    action: usize,
    number: usize,
    outcome: &Outcome,
) -> Result<(), AllocError>
    ensures { OnOk result (out.new.items ≡ out.old.items
        ++ flat_map counted_line (rows_of_outcome action number outcome.now)) }
{
    push_counted(out, &[action, number, 0])?;
    push_changes(out, alloc, action, number, &outcome.changes)
}

/// Appends the lines of an outcome's changes.
fn push_changes(
    out: &mut Vec<u8>,
    alloc: Global,
    action: usize,
    number: usize,
    changes: &[Change],
) -> Result<(), AllocError>
    ensures { OnOk result (out.new.items ≡ out.old.items
        ++ flat_map counted_line (map (row_of_change action number) changes.now)) }
{
    for change in changes {
        push_change(out, alloc, action, number, change)?;
    }
    Ok(())
}

/// Appends the line of a change.
fn push_change(
    out: &mut Vec<u8>,
    alloc: Global,
    action: usize,
    number: usize,
    change: &Change,
) -> Result<(), AllocError>
    ensures { OnOk result (out.new.items ≡ out.old.items
        ++ counted_line (row_of_change action number change.now)) }
{
    let mut row = Vec::new(alloc);
    row.push(action)?;
    row.push(number)?;
    row.push(change.lits.len())?;
    push_literals(&mut row, &change.lits)?;
    push_words(&mut row, &change.cond)?;
    push_counted(out, &row)
}

/// Appends the lines of steps.
pub(crate) fn push_steps(out: &mut Vec<u8>, steps: &[Step]) -> Result<(), AllocError>
    ensures { OnOk result (out.new.items ≡ out.old.items
        ++ flat_map row_line (map row_of_step steps.now)) }
{
    for step in steps {
        push_row(out, &row_of(step))?;
    }
    Ok(())
}

fn row_of(step: &Step) -> [usize; 4]
    ensures { result ≡ row_of_step step.now }
{
    match step {
        Step::Stop => [0, 0, 0, 0],
        Step::Ask(test) => [1, test.fluent.0 as usize, test.if_true, test.if_false],
        Step::Take(chosen) => [2, chosen.action.0 as usize, chosen.next as usize, 0],
    }
}

/// Appends the lines of the numbers of steps.
pub(crate) fn push_starts(out: &mut Vec<u8>, starts: &[usize]) -> Result<(), AllocError>
    ensures { OnOk result (out.new.items ≡ out.old.items
        ++ flat_map row_line (map (λ start. start ∷ []) starts.now)) }
{
    for start in starts {
        push_row(out, &[*start])?;
    }
    Ok(())
}
