//! The text of a controller.

ghost use Rattle.controller_rules.specs.Texts.{
  IsTextWithin,
  comment_text,
  controller_text,
  latest,
  note_before,
  noted_text,
  remark,
};
ghost use Rattle.plan_document.specs.Faithful.{IsOneNext, IsToldInFull, IsToldRule};
ghost use Rattle.plan_rules.specs.Plans.{IsContextRuleOf, IsCubeOf, IsPlanOf, IsRuleOf};
ghost use Rattle.plan_rules.specs.Readings.{SpellsPlain};
ghost use Rattle.plan_rules.specs.Rules.{
  automaton as automaton_data,
  context_rule_of,
  context_rules_of,
  next_of,
  plain_of,
  rule_of,
  rules_of,
  table as table_data,
};
ghost use Rattle.plan_rules.specs.Texts.{context_rule_text, next_text, rule_text};
ghost use Rattle.std.specs.Prelude.{
  ◌≡◌,
  ◌<◌,
  ◌++◌,
  All,
  IfOk,
  IsTrue,
  None,
  OnOk,
  Some,
  codes,
  decimal,
  false,
  length,
  map,
  slice_get,
  string_bytes,
  ℕ,
};
ghost use Rattle.task_core.specs.Tasks.{action_count, action_names, fluent_count, fluent_names};

use plan_rules::{
    AutoPlan, AutoRule, Next, Plan, Rule, TablePlan, push_cube, push_name, push_number, word_of,
};
use std::alloc::{AllocError, Global};
use task_core::Task;

/// The text of a plan, told in full, whose rules are first wanted after these numbers of steps; `None`
/// where it would have more than `most` bytes. Not much more is made of it then. The text spells the
/// plan.
pub fn write_controller(
    alloc: Global,
    plan: &Plan,
    steps: &[u32],
    task: &Task,
    most: usize,
) -> Result<Option<Vec<u8>>, AllocError>
    requires in_task { IsPlanOf (fluent_count task.now) (action_count task.now) plan.now }
    requires told { IsToldInFull (plain_of plan.now) }
    ensures text { IfOk result (IsTextWithin most
        (controller_text (fluent_names task.now) (action_names task.now) (plain_of plan.now)
        steps.now)) }
    ensures spells { SpellsPlain (fluent_names task.now) (action_names task.now)
        (controller_text (fluent_names task.now) (action_names task.now) (plain_of plan.now)
        steps.now) (plain_of plan.now) }
{
    match plan {
        Plan::Table(table) => write_table(alloc, table, steps, task, most),
        Plan::Auto(automaton) => write_automaton(alloc, automaton, steps, task, most),
    }
}

fn write_table(
    alloc: Global,
    plan: &TablePlan,
    steps: &[u32],
    task: &Task,
    most: usize,
) -> Result<Option<Vec<u8>>, AllocError>
    requires { All (IsRuleOf (fluent_count task.now) (action_count task.now)) (rules_of plan.now) }
    ensures { IfOk result (IsTextWithin most
        (controller_text (fluent_names task.now) (action_names task.now)
        (table_data plan.now.class (rules_of plan.now)) steps.now)) }
{
    let mut out = String::new(alloc);
    out.push_str("(plan table ")?;
    out.push_str(word_of(plan.class))?;
    out.push('\n')?;
    if push_rules(&mut out, &plan.rules, steps, task, most)? {
        out.push_str(")\n")?;
        return Ok(text_within(out, most));
    }
    Ok(None)
}

fn write_automaton(
    alloc: Global,
    plan: &AutoPlan,
    steps: &[u32],
    task: &Task,
    most: usize,
) -> Result<Option<Vec<u8>>, AllocError>
    requires in_task { All (IsContextRuleOf (fluent_count task.now) (action_count task.now)
        plan.now.contexts) (context_rules_of plan.now) }
    requires told { All IsToldRule (context_rules_of plan.now) }
    ensures { IfOk result (IsTextWithin most
        (controller_text (fluent_names task.now) (action_names task.now)
        (automaton_data plan.now.contexts (context_rules_of plan.now)) steps.now)) }
{
    let mut out = String::new(alloc);
    out.push_str("(plan automaton ")?;
    push_number(&mut out, plan.contexts)?;
    out.push('\n')?;
    if push_context_rules(&mut out, &plan.rules, steps, task, most)? {
        out.push_str(")\n")?;
        return Ok(text_within(out, most));
    }
    Ok(None)
}

/// A whole text, unless it has more than `most` bytes.
fn text_within(text: String, most: usize) -> Option<Vec<u8>>
    ensures { IsTextWithin most (string_bytes text) result }
{
    if text.len() > most {
        return None;
    }
    Some(text.into_bytes())
}

/// Appends the lines of a table's rules with their comments, and says that all are there; or that they
/// are too many bytes, and only some are.
fn push_rules(
    out: &mut String,
    rules: &[Rule],
    steps: &[u32],
    task: &Task,
    most: usize,
) -> Result<bool, AllocError>
    requires { All (IsRuleOf (fluent_count task.now) (action_count task.now))
        (map rule_of rules.now) }
    ensures all { IfOk result (λ all. IsTrue all → string_bytes out.new ≡ string_bytes out.old
        ++ noted_text (rule_text (fluent_names task.now) (action_names task.now)) None
        (map rule_of rules.now) steps.now) }
    ensures too_many { IfOk result (λ all. all ≡ false → most < length (string_bytes out.old
        ++ noted_text (rule_text (fluent_names task.now) (action_names task.now)) None
        (map rule_of rules.now) steps.now)) }
{
    let mut before = None;
    for (place, rule) in rules.iter().enumerate() {
        if out.len() > most {
            return Ok(false);
        }
        before = push_note(out, before, note_at(steps, place))?;
        push_rule(out, rule, task)?;
    }
    Ok(true)
}

/// The same of an automaton's rules.
fn push_context_rules(
    out: &mut String,
    rules: &[AutoRule],
    steps: &[u32],
    task: &Task,
    most: usize,
) -> Result<bool, AllocError>
    requires in_task { (contexts : ℕ) × All (IsContextRuleOf (fluent_count task.now)
        (action_count task.now) contexts) (map context_rule_of rules.now) }
    requires told { All IsToldRule (map context_rule_of rules.now) }
    ensures all { IfOk result (λ all. IsTrue all → string_bytes out.new ≡ string_bytes out.old
        ++ noted_text (context_rule_text (fluent_names task.now) (action_names task.now)) None
        (map context_rule_of rules.now) steps.now) }
    ensures too_many { IfOk result (λ all. all ≡ false → most < length (string_bytes out.old
        ++ noted_text (context_rule_text (fluent_names task.now) (action_names task.now)) None
        (map context_rule_of rules.now) steps.now)) }
{
    let mut before = None;
    for (place, rule) in rules.iter().enumerate() {
        if out.len() > most {
            return Ok(false);
        }
        before = push_note(out, before, note_at(steps, place))?;
        push_context_rule(out, rule, task)?;
    }
    Ok(true)
}

/// The number of steps at a place; none past the last.
fn note_at(steps: &[u32], place: usize) -> Option<u32>
    ensures { result ≡ slice_get steps.now place }
{
    if place < steps.len() {
        Some(steps[place])
    } else {
        None
    }
}

/// Appends the comment before a rule, where one is wanted, and gives the number of the last comment.
fn push_note(
    out: &mut String,
    before: Option<u32>,
    steps: Option<u32>,
) -> Result<Option<u32>, AllocError>
    ensures written { OnOk result (string_bytes out.new
        ≡ string_bytes out.old ++ note_before before steps) }
    ensures last { IfOk result (λ last. last ≡ latest before steps) }
{
    match steps {
        Some(number) => {
            push_new(out, before, number)?;
            Ok(Some(number))
        }
        None => Ok(before),
    }
}

/// Appends a comment, unless it is that of the rule before.
fn push_new(out: &mut String, before: Option<u32>, steps: u32) -> Result<(), AllocError>
    ensures { OnOk result (string_bytes out.new
        ≡ string_bytes out.old ++ note_before before (Some steps)) }
{
    match before {
        Some(last) => {
            if last == steps {
                return Ok(());
            }
            push_comment(out, steps)
        }
        None => push_comment(out, steps),
    }
}

fn push_comment(out: &mut String, steps: u32) -> Result<(), AllocError>
    ensures { OnOk result (string_bytes out.new ≡ string_bytes out.old ++ comment_text steps) }
{
    out.push_str("  ;")?;
    push_remark(out, steps)?;
    out.push('\n')?;
    Ok(())
}

/// Appends what stands after the semicolon.
fn push_remark(out: &mut String, steps: u32) -> Result<(), AllocError>
    ensures { OnOk result (string_bytes out.new ≡ string_bytes out.old ++ remark steps) }
{
    if steps == 0 {
        out.push_str(" at the beginning")?;
        return Ok(());
    }
    push_later(out, steps)
}

/// Appends it where it isn't for the beginning.
fn push_later(out: &mut String, steps: u32) -> Result<(), AllocError>
    ensures { OnOk result (string_bytes out.new
        ≡ string_bytes out.old ++ codes " steps before: " ++ decimal steps) }
{
    out.push_str(" steps before: ")?;
    push_number(out, steps)?;
    Ok(())
}

/// Appends the line of a table's rule.
fn push_rule(out: &mut String, rule: &Rule, task: &Task) -> Result<(), AllocError>
    requires { IsRuleOf (fluent_count task.now) (action_count task.now) (rule_of rule.now) }
    ensures { OnOk result (string_bytes out.new ≡ string_bytes out.old
        ++ rule_text (fluent_names task.now) (action_names task.now) (rule_of rule.now)) }
{
    out.push_str("  (rule ")?;
    push_cube(out, &task.fluents, &rule.cube)?;
    out.push(' ')?;
    push_name(out, &task.actions[rule.action.0 as usize].name)?;
    out.push_str(")\n")?;
    Ok(())
}

/// Appends the line of an automaton's rule.
fn push_context_rule(out: &mut String, rule: &AutoRule, task: &Task) -> Result<(), AllocError>
    requires cube { IsCubeOf (fluent_count task.now) rule.now.cube.items }
    requires action { rule.now.action.0 < action_count task.now }
    requires next { IsOneNext (next_of rule.now.next) }
    ensures { OnOk result (string_bytes out.new ≡ string_bytes out.old
        ++ context_rule_text (fluent_names task.now) (action_names task.now)
        (context_rule_of rule.now)) }
{
    out.push_str("  (rule ")?;
    push_number(out, rule.context)?;
    out.push(' ')?;
    push_cube(out, &task.fluents, &rule.cube)?;
    out.push(' ')?;
    push_name(out, &task.actions[rule.action.0 as usize].name)?;
    out.push(' ')?;
    push_next(out, task, &rule.next)?;
    out.push_str(")\n")?;
    Ok(())
}

/// Appends the next context, which is one number.
fn push_next(out: &mut String, task: &Task, next: &Next) -> Result<(), AllocError>
    requires { IsOneNext (next_of next.now) }
    ensures { OnOk result (string_bytes out.new ≡ string_bytes out.old
        ++ next_text (fluent_names task.now) (next_of next.now)) }
{
    // The task is read for the names alone that the clause speaks of.
    let _bound = task.fluents.len();
    match next {
        Next::One(context) => push_number(out, *context),
        Next::Cases(_) => Ok(()),
    }
}
