//! The part of a plan that serves: it does the same, with no rule that is for nothing.

ghost use Rattle.controller_rules.specs.AsRun.{IsFirstAt};
ghost use Rattle.controller_rules.specs.Checks.{
  AreIndexed,
  place_of,
  plain_rules,
  run_value,
};
ghost use Rattle.controller_rules.specs.Serving.{
  IsServingPart,
  MarkServing,
  greatest_named,
  marked,
  marked_part,
  next_named,
};
ghost use Rattle.exec_graph.specs.Values.{plain_graph};
ghost use Rattle.plan_document.specs.Faithful.{IsToldInFull};
ghost use Rattle.rule_lookup.specs.RunRules.{run_rules};
ghost use Rattle.plan_rules.specs.Plans.{IsPlanOf};
ghost use Rattle.plan_rules.specs.Rules.{
  context_rule_of,
  next_of,
  plain_of,
  rule_of,
};
ghost use Rattle.std.specs.Prelude.{
  ◌≡◌,
  ◌++◌,
  ◌∷◌,
  ◌⊎◌,
  [],
  ℕ,
  IfNone,
  IfOk,
  IfSome,
  false,
  if◌then◌else◌,
  length,
  map,
  max,
  slice_index_or,
  true,
};
ghost use Rattle.task_core.specs.Tasks.{action_count, fluent_count};

use crate::run_rules::{RunRule, RunRules};
use exec_graph::Graph;
use plan_rules::{AutoPlan, AutoRule, FIRST_CONTEXT, Next, Plan, Rule, TablePlan};
use std::alloc::{AllocError, Global};
use task_core::{Lit, State, Task};

/// The part of a plan that serves: its rules each of which is the first that counts in some configuration
/// of its graph. `None` where a next context depends on the state.
pub fn serving_part(
    alloc: Global,
    task: &Task,
    plan: &Plan,
    graph: &Graph,
) -> Result<Option<Plan>, AllocError>
    requires { IsPlanOf (fluent_count task.now) (action_count task.now) plan.now }
    ensures part { IfOk result (λ found. IfSome found (λ part.
        IsServingPart (plain_graph (fluent_count task.now) graph.now)
        (plain_of plan.now) (plain_of part))) }
    ensures in_task { IfOk result (λ found. IfSome found (λ part.
        IsPlanOf (fluent_count task.now) (action_count task.now) part)) }
    ensures none { IfOk result (λ found. IfNone found (IsToldInFull (plain_of plan.now) → ⊥)) }
{
    match RunRules::of_plan(alloc, task, plan)? {
        Some(run) => {
            let marks = serving_marks(alloc, task, &run, graph)?;
            let part = part_of(alloc, plan, &run, &marks)?;
            Ok(Some(part))
        }
        None => Ok(None),
    }
}

fn serving_marks(
    alloc: Global,
    task: &Task,
    run: &RunRules<'_>,
    graph: &Graph,
) -> Result<Vec<bool>, AllocError>
    requires { AreIndexed (fluent_count task.now) run.now }
    ensures { IfOk result (λ marks. MarkServing (plain_rules run.now)
        (plain_graph (fluent_count task.now) graph.now) marks.items) }
{
    let mut marks = vec![in alloc; false; run.rules.len()]?;
    mark_serving(task, run, graph, &mut marks);
    Ok(marks)
}

fn mark_serving(task: &Task, run: &RunRules<'_>, graph: &Graph, marks: &mut [bool])
    requires indexed { AreIndexed (fluent_count task.now) run.now }
    requires one_each { length marks.old ≡ length run.now.rules.items }
    requires none { (k : ℕ) → slice_index_or marks.old k false ≡ true → ⊥ }
    ensures { MarkServing (plain_rules run.now)
        (plain_graph (fluent_count task.now) graph.now) marks.new }
{
    for number in 0..graph.len() {
        let state = graph.state(number);
        let context = graph.context(number);
        mark_first(task, run, state, context, marks);
    }
}

/// Marks the rule that is the first to count in a state and a context, if there is one.
fn mark_first(task: &Task, run: &RunRules<'_>, state: &State, context: u32, marks: &mut [bool])
    requires indexed { AreIndexed (fluent_count task.now) run.now }
    requires one_each { length marks.old ≡ length run.now.rules.items }
    ensures one_each { length marks.new ≡ length run.now.rules.items }
    ensures only { (k : ℕ) → slice_index_or marks.new k false ≡ true
        → (slice_index_or marks.old k false ≡ true)
        ⊎ IsFirstAt (plain_rules run.now)
        (place_of (fluent_count task.now) state.now context) k }
    ensures kept { (k : ℕ) → slice_index_or marks.old k false ≡ true
        → slice_index_or marks.new k false ≡ true }
    ensures first { (k : ℕ) → IsFirstAt (plain_rules run.now)
        (place_of (fluent_count task.now) state.now context) k
        → slice_index_or marks.new k false ≡ true }
{
    match run.next_counting(task, state, context, 0) {
        Some(first) => marks[first] = true,
        None => {}
    }
}

fn part_of(
    alloc: Global,
    plan: &Plan,
    run: &RunRules<'_>,
    marks: &[bool],
) -> Result<Plan, AllocError>
    requires { plain_rules run.now ≡ run_rules (plain_of plan.now) }
    ensures { IfOk result (λ part. plain_of part ≡ marked_part marks.now (plain_of plan.now)) }
{
    match plan {
        Plan::Table(table) => {
            let rules = marked_rules(alloc, &table.rules, marks)?;
            Ok(Plan::Table(TablePlan {
                class: table.class,
                rules,
            }))
        }
        Plan::Auto(_) => {
            let rules = marked_context_rules(alloc, &run.rules, marks)?;
            let contexts = greatest_named(&rules);
            Ok(Plan::Auto(AutoPlan { contexts, rules }))
        }
    }
}

fn marked_rules(alloc: Global, rules: &[Rule], marks: &[bool]) -> Result<Vec<Rule>, AllocError>
    ensures { IfOk result (λ kept.
        map rule_of kept.items ≡ marked marks.now (map rule_of rules.now)) }
{
    let mut kept = Vec::new(alloc);
    for number in 0..rules.len() {
        keep_if(alloc, &mut kept, &rules[number], is_marked(marks, number))?;
    }
    Ok(kept)
}

/// Puts a copy of a rule at the end, if that is so.
fn keep_if(alloc: Global, kept: &mut Vec<Rule>, rule: &Rule, is: bool) -> Result<(), AllocError>
    ensures { IfOk result (λ _. map rule_of kept.new.items
        ≡ (if is then map rule_of kept.old.items ++ rule_of rule.now ∷ []
        else map rule_of kept.old.items)) }
{
    if !is {
        return Ok(());
    }
    kept.push(copy_of(alloc, rule)?)?;
    Ok(())
}

fn marked_context_rules(
    alloc: Global,
    rules: &[RunRule<'_>],
    marks: &[bool],
) -> Result<Vec<AutoRule>, AllocError>
    ensures { IfOk result (λ kept.
        map context_rule_of kept.items ≡ marked marks.now (map run_value rules.now)) }
{
    let mut kept = Vec::new(alloc);
    for number in 0..rules.len() {
        keep_context_if(alloc, &mut kept, &rules[number], is_marked(marks, number))?;
    }
    Ok(kept)
}

fn keep_context_if(
    alloc: Global,
    kept: &mut Vec<AutoRule>,
    rule: &RunRule<'_>,
    is: bool,
) -> Result<(), AllocError>
    ensures { IfOk result (λ _. map context_rule_of kept.new.items
        ≡ (if is then map context_rule_of kept.old.items ++ run_value rule.now ∷ []
        else map context_rule_of kept.old.items)) }
{
    if !is {
        return Ok(());
    }
    kept.push(context_copy_of(alloc, rule)?)?;
    Ok(())
}

fn is_marked(marks: &[bool], number: usize) -> bool
    ensures { result ≡ slice_index_or marks.now number false }
{
    match marks.get(number) {
        Some(mark) => *mark,
        None => false,
    }
}

fn copy_of(alloc: Global, rule: &Rule) -> Result<Rule, AllocError>
    ensures { IfOk result (λ copy. rule_of copy ≡ rule_of rule.now) }
{
    Ok(Rule {
        cube: Vec::from_slice(alloc, &rule.cube)?,
        action: rule.action,
    })
}

fn context_copy_of(alloc: Global, rule: &RunRule<'_>) -> Result<AutoRule, AllocError>
    ensures { IfOk result (λ copy. context_rule_of copy ≡ run_value rule.now) }
{
    Ok(AutoRule {
        context: rule.context,
        cube: Vec::from_slice(alloc, rule.cube)?,
        action: rule.action,
        next: Next::One(rule.next),
    })
}

fn greatest_named(rules: &[AutoRule]) -> u32
    ensures { result ≡ greatest_named (map context_rule_of rules.now) }
{
    let mut greatest = FIRST_CONTEXT;
    for rule in rules {
        let named = max_of(rule.context, next_named(&rule.next));
        greatest = max_of(greatest, named);
    }
    greatest
}

/// The context in which to go on.
fn next_named(next: &Next) -> u32
    ensures { result ≡ next_named (next_of next.now) }
{
    match next {
        Next::One(context) => *context,
        Next::Cases(_) => FIRST_CONTEXT,
    }
}

/// The greater of two contexts.
fn max_of(one: u32, other: u32) -> u32
    ensures { result ≡ max one other }
{
    if one < other { other } else { one }
}
