//! The text of a plan.

ghost use Rattle.std.specs.Prelude.{
  ◌≡◌,
  ◌<◌,
  ◌++◌,
  map,
  length,
  IfOk,
  OnOk,
  codes,
  string_bytes,
  All,
};
ghost use Rattle.std.specs.Rc.{rc_str_bytes};
ghost use Rattle.std.specs.List.{flat_map};
ghost use Rattle.task_core.specs.Names.{name_bytes, name_of};
ghost use Rattle.task_core.specs.Tasks.{action_count, action_names, fluent_count, fluent_names};
ghost use Rattle.plan_rules.specs.Named.{NamesNext, NamesRule};
ghost use Rattle.plan_rules.specs.Plans.{IsCubeOf, IsPlanOf, IsRuleOf, plan_text};
ghost use Rattle.plan_rules.specs.Readings.{SpellsPlan};
ghost use Rattle.plan_rules.specs.Rules.{
  by_cases,
  case_of,
  context_rule_of,
  context_rules_of,
  next_of,
  rule_of,
  rules_of,
};
ghost use Rattle.plan_rules.specs.Texts.{
  atom_text,
  automaton_text,
  case_text,
  class_word,
  context_rule_text,
  cube_text,
  gap,
  in_parentheses,
  literal_text,
  name_at,
  next_text,
  rule_text,
  spaced,
  table_text,
};

use crate::rules::{AutoPlan, AutoRule, Case, Class, Next, Plan, Rule, TablePlan};
use itoa::{Buffer, Integer};
use std::alloc::{AllocError, Global};
use std::rc::RcStr;
use task_core::{GroundAction, Lit, Task};

/// The word for a class in a text.
pub fn word_of(class: Class) -> &'static str
    ensures { result.now ≡ class_word class }
{
    match class {
        Class::Weak => "weak",
        Class::Strong => "strong",
        Class::Cyclic => "cyclic",
    }
}

// The space before a part, unless it is the first.
fn push_gap(out: &mut String, place: usize) -> Result<(), AllocError>
    ensures { OnOk result (string_bytes out.new ≡ string_bytes out.old ++ gap place) }
{
    if place > 0 {
        out.push(' ')?;
    }
    Ok(())
}

// The words of a name with one space between them.
fn push_words(out: &mut String, words: &[RcStr]) -> Result<(), AllocError>
    ensures { OnOk result
        (string_bytes out.new ≡ string_bytes out.old ++ spaced (map rc_str_bytes words.now)) }
{
    for (i, word) in words.iter().enumerate() {
        push_gap(out, i)?;
        out.push_str(word)?;
    }
    Ok(())
}

/// Appends a name in parentheses, with one space between its words: as `(at a)`.
pub fn push_name(out: &mut String, words: &[RcStr]) -> Result<(), AllocError>
    ensures { OnOk result
        (string_bytes out.new ≡ string_bytes out.old ++ atom_text (map rc_str_bytes words.now)) }
{
    out.push('(')?;
    push_words(out, words)?;
    out.push(')')?;
    Ok(())
}

// A literal, as `(at a)` or `(not (at a))`.
fn push_literal(out: &mut String, fluents: &[Vec<RcStr>], lit: &Lit) -> Result<(), AllocError>
    requires { lit.now.fluent.0 < length fluents.now }
    ensures { OnOk result
        (string_bytes out.new
        ≡ string_bytes out.old ++ literal_text (map name_bytes fluents.now) lit.now) }
{
    let name = &fluents[lit.fluent.0 as usize];
    if lit.positive {
        push_name(out, name)
    } else {
        out.push_str("(not ")?;
        push_name(out, name)?;
        out.push(')')?;
        Ok(())
    }
}

/// Appends the literals of a cube in parentheses, with a space between them.
pub fn push_cube(out: &mut String, fluents: &[Vec<RcStr>], cube: &[Lit]) -> Result<(), AllocError>
    requires { All (λ lit. lit.fluent.0 < length fluents.now) cube.now }
    ensures { OnOk result
        (string_bytes out.new
        ≡ string_bytes out.old ++ cube_text (map name_bytes fluents.now) cube.now) }
{
    out.push('(')?;
    push_literals(out, fluents, cube)?;
    out.push(')')?;
    Ok(())
}

fn push_literals(out: &mut String, fluents: &[Vec<RcStr>], cube: &[Lit]) -> Result<(), AllocError>
    requires { All (λ lit. lit.fluent.0 < length fluents.now) cube.now }
    ensures { OnOk result
        (string_bytes out.new
        ≡ string_bytes out.old
        ++ spaced (map (literal_text (map name_bytes fluents.now)) cube.now)) }
{
    for (i, lit) in cube.iter().enumerate() {
        push_gap(out, i)?;
        push_literal(out, fluents, lit)?;
    }
    Ok(())
}

// The line of a rule.
fn push_rule(
    out: &mut String,
    fluents: &[Vec<RcStr>],
    actions: &[GroundAction],
    rule: &Rule,
) -> Result<(), AllocError>
    requires cube { All (λ lit. lit.fluent.0 < length fluents.now) rule.now.cube.items }
    requires action { rule.now.action.0 < length actions.now }
    ensures { OnOk result (string_bytes out.new ≡ string_bytes out.old
        ++ rule_text (map name_bytes fluents.now) (map name_of actions.now) (rule_of rule.now)) }
{
    out.push_str("  (rule ")?;
    push_cube(out, fluents, &rule.cube)?;
    out.push(' ')?;
    push_name(out, &actions[rule.action.0 as usize].name)?;
    out.push_str(")\n")?;
    Ok(())
}

// The lines of all rules.
fn push_rules(
    out: &mut String,
    fluents: &[Vec<RcStr>],
    actions: &[GroundAction],
    rules: &[Rule],
) -> Result<(), AllocError>
    requires { All (IsRuleOf (length fluents.now) (length actions.now)) (map rule_of rules.now) }
    ensures { OnOk result (string_bytes out.new ≡ string_bytes out.old
        ++ flat_map (rule_text (map name_bytes fluents.now) (map name_of actions.now))
        (map rule_of rules.now)) }
{
    for rule in rules {
        push_rule(out, fluents, actions, rule)?;
    }
    Ok(())
}

/// Appends a number in decimal.
pub fn push_number<I: Integer>(out: &mut String, number: I) -> Result<(), AllocError>
    ensures { OnOk result (string_bytes out.new ≡ string_bytes out.old ++ I.text number) }
{
    let mut buffer = Buffer::new();
    out.push_str(buffer.format(number))?;
    Ok(())
}

// A case, as `(((at a)) 3)`.
fn push_case(out: &mut String, fluents: &[Vec<RcStr>], case: &Case) -> Result<(), AllocError>
    requires { IsCubeOf (length fluents.now) case.now.cube.items }
    ensures { OnOk result (string_bytes out.new
        ≡ string_bytes out.old ++ case_text (map name_bytes fluents.now) (case_of case.now)) }
{
    out.push('(')?;
    push_cube(out, fluents, &case.cube)?;
    out.push(' ')?;
    push_number(out, case.context)?;
    out.push(')')?;
    Ok(())
}

// Cases, with one space between them.
fn push_cases(out: &mut String, fluents: &[Vec<RcStr>], cases: &[Case]) -> Result<(), AllocError>
    requires { NamesNext (length fluents.now) (by_cases (map case_of cases.now)) }
    ensures { OnOk result (string_bytes out.new
        ≡ string_bytes out.old
        ++ spaced (map (case_text (map name_bytes fluents.now)) (map case_of cases.now))) }
{
    for (i, case) in cases.iter().enumerate() {
        push_gap(out, i)?;
        push_case(out, fluents, case)?;
    }
    Ok(())
}

// The next context.
fn push_next(out: &mut String, fluents: &[Vec<RcStr>], next: &Next) -> Result<(), AllocError>
    requires { NamesNext (length fluents.now) (next_of next.now) }
    ensures { OnOk result (string_bytes out.new
        ≡ string_bytes out.old ++ next_text (map name_bytes fluents.now) (next_of next.now)) }
{
    match next {
        Next::One(context) => push_number(out, *context),
        Next::Cases(cases) => {
            out.push('(')?;
            push_cases(out, fluents, cases)?;
            out.push(')')?;
            Ok(())
        }
    }
}

// The line of an automaton's rule.
fn push_context_rule(
    out: &mut String,
    fluents: &[Vec<RcStr>],
    actions: &[GroundAction],
    rule: &AutoRule,
) -> Result<(), AllocError>
    requires { NamesRule (length fluents.now) (length actions.now) (context_rule_of rule.now) }
    ensures { OnOk result (string_bytes out.new ≡ string_bytes out.old
        ++ context_rule_text (map name_bytes fluents.now) (map name_of actions.now)
        (context_rule_of rule.now)) }
{
    out.push_str("  (rule ")?;
    push_number(out, rule.context)?;
    out.push(' ')?;
    push_cube(out, fluents, &rule.cube)?;
    out.push(' ')?;
    push_name(out, &actions[rule.action.0 as usize].name)?;
    out.push(' ')?;
    push_next(out, fluents, &rule.next)?;
    out.push_str(")\n")?;
    Ok(())
}

// The lines of all of an automaton's rules.
fn push_context_rules(
    out: &mut String,
    fluents: &[Vec<RcStr>],
    actions: &[GroundAction],
    rules: &[AutoRule],
) -> Result<(), AllocError>
    requires { All (NamesRule (length fluents.now) (length actions.now))
        (map context_rule_of rules.now) }
    ensures { OnOk result (string_bytes out.new ≡ string_bytes out.old
        ++ flat_map (context_rule_text (map name_bytes fluents.now) (map name_of actions.now))
        (map context_rule_of rules.now)) }
{
    for rule in rules {
        push_context_rule(out, fluents, actions, rule)?;
    }
    Ok(())
}

// The text of a table plan.
fn write_table(alloc: Global, plan: &TablePlan, task: &Task) -> Result<Vec<u8>, AllocError>
    requires { All (IsRuleOf (fluent_count task.now) (action_count task.now)) (rules_of plan.now) }
    ensures { IfOk result (λ text.
        text.items ≡ table_text (fluent_names task.now) (action_names task.now) plan.now.class
        (rules_of plan.now)) }
{
    let mut out = String::new(alloc);
    out.push_str("(plan table ")?;
    out.push_str(word_of(plan.class))?;
    out.push('\n')?;
    push_rules(&mut out, &task.fluents, &task.actions, &plan.rules)?;
    out.push_str(")\n")?;
    Ok(out.into_bytes())
}

// The text of an automaton.
fn write_automaton(alloc: Global, plan: &AutoPlan, task: &Task) -> Result<Vec<u8>, AllocError>
    requires { All (NamesRule (fluent_count task.now) (action_count task.now))
        (context_rules_of plan.now) }
    ensures { IfOk result (λ text.
        text.items ≡ automaton_text (fluent_names task.now) (action_names task.now)
        plan.now.contexts (context_rules_of plan.now)) }
{
    let mut out = String::new(alloc);
    out.push_str("(plan automaton ")?;
    push_number(&mut out, plan.contexts)?;
    out.push('\n')?;
    push_context_rules(&mut out, &task.fluents, &task.actions, &plan.rules)?;
    out.push_str(")\n")?;
    Ok(out.into_bytes())
}

/// The text of a plan, in lines that each end with a line feed: its kind with its class or its
/// number of contexts, a line a rule in the plan's order, and a closing parenthesis. `task` gives
/// the fluents' and the actions' names. The text spells this plan, and no other (`one_plan`);
/// `read_plan` reads it back where it has at most `MAX_BYTES` bytes. Fails only where memory runs
/// out.
///
/// The fluents and actions of the plan are the task's, and its contexts are numbered from 1 up to
/// their number, which is at most `MAX_CONTEXTS`.
pub fn write_plan(alloc: Global, plan: &Plan, task: &Task) -> Result<Vec<u8>, AllocError>
    requires in_task { IsPlanOf (fluent_count task.now) (action_count task.now) plan.now }
    ensures text { IfOk result (λ text.
        text.items ≡ plan_text (fluent_names task.now) (action_names task.now) plan.now) }
    ensures spells { IfOk result (λ text.
        SpellsPlan (fluent_names task.now) (action_names task.now) text.items plan.now) }
{
    match plan {
        Plan::Table(table) => write_table(alloc, table, task),
        Plan::Auto(automaton) => write_automaton(alloc, automaton, task),
    }
}
