//! The steps of a plan from one configuration.

ghost use Rattle.exec_graph.specs.Moves.{configuration_of};
ghost use Rattle.plan_picture.specs.Places.{
  AreWithin,
  configurations_of,
  outcome_steps,
  place_after,
  plan_steps,
  steps_by,
  steps_if,
  table_steps_below,
};
ghost use Rattle.plan_picture.specs.Values.{step_value};
ghost use Rattle.plan_rules.specs.Advices.{AreCasesOf, IsAdviceOf, advice_value, advised_by, onward_value};
ghost use Rattle.plan_rules.specs.Denoted.{advises, rule_at};
ghost use Rattle.plan_rules.specs.Named.{NamesRule};
ghost use Rattle.plan_rules.specs.Plans.{IsPlanOf, IsRuleOf};
ghost use Rattle.plan_rules.specs.Rules.{context_rule_of, plain_of, rule_of};
ghost use Rattle.std.specs.Option.{option_map};
ghost use Rattle.std.specs.Prelude.{
  ◌≡◌,
  ◌==◌,
  ◌<◌,
  ◌++◌,
  ◌&&◌,
  ◌||◌,
  All,
  IfOk,
  IfSome,
  OnOk,
  Some,
  false,
  length,
  map,
  slice_index_or,
  ℕ,
};
ghost use Rattle.task_core.specs.Cubes.{matches};
ghost use Rattle.task_core.specs.States.{IsWithin, vector};
ghost use Rattle.task_core.specs.Systems.{Exec};
ghost use Rattle.task_core.specs.Tasks.{action_count, fluent_count, if_state, outcomes_at, system_of};

use crate::pictures::Step;
use crate::places::number_of;
use exec_graph::Place;
use plan_rules::{
    Advice, AutoRule, FIRST_CONTEXT, Onward, Plan, Rule, context_in, has_all, onward_of,
};
use std::alloc::{AllocError, Global};
use task_core::{ActionId, State, Task, in_space, is_exec, outcome_count, step};

/// The steps of a plan from a configuration to others, in the order of actions and outcomes.
pub(crate) fn steps_from(
    alloc: Global,
    task: &Task,
    plan: &Plan,
    places: &[Place],
    place: &Place,
) -> Result<Vec<Step>, AllocError>
    requires plan_of_task { IsPlanOf (fluent_count task.now) (action_count task.now) plan.now }
    requires few { length places.now < 4294967296 }
    requires within { AreWithin (fluent_count task.now) places.now }
    requires from_within { IsWithin (fluent_count task.now) place.now.state }
    ensures steps { let n = fluent_count task.now in IfOk result (λ steps.
        map step_value steps.items ≡ plan_steps (system_of task.now) (plain_of plan.now)
        (configurations_of n places.now) (configuration_of n place.now)) }
{
    match plan {
        Plan::Table(table) => table_steps(alloc, task, &table.rules, places, &place.state),
        Plan::Auto(automaton) => {
            let advice = advice_at(task, &automaton.rules, place);
            advised_steps(alloc, task, places, &place.state, &advice)
        }
    }
}

/// The steps of a table: by each action that some rule has which matches the state.
fn table_steps(
    alloc: Global,
    task: &Task,
    rules: &[Rule],
    places: &[Place],
    state: &State,
) -> Result<Vec<Step>, AllocError>
    requires in_task { let n = fluent_count task.now in let m = action_count task.now in
        All (λ rule. IsRuleOf n m (rule_of rule)) rules.now }
    requires few { length places.now < 4294967296 }
    requires within { AreWithin (fluent_count task.now) places.now }
    requires from_within { IsWithin (fluent_count task.now) state.now }
    ensures steps { let n = fluent_count task.now in IfOk result (λ steps.
        map step_value steps.items ≡ table_steps_below (system_of task.now)
        (configurations_of n places.now) (map rule_of rules.now) (vector n state.now)
        (action_count task.now)) }
{
    let marks = marks_at(alloc, task, rules, state)?;
    let mut steps = Vec::new(alloc);
    for number in 0..task.actions.len() as u32 {
        if is_marked(&marks, number) {
            let advice = Advice {
                action: ActionId(number),
                onward: Onward::Always(FIRST_CONTEXT),
            };
            add_steps(task, places, state, &advice, &mut steps)?;
        }
    }
    Ok(steps)
}

/// Marks of the actions that some rule has which matches the state.
fn marks_at(
    alloc: Global,
    task: &Task,
    rules: &[Rule],
    state: &State,
) -> Result<Vec<bool>, AllocError>
    requires in_task { let n = fluent_count task.now in let m = action_count task.now in
        All (λ rule. IsRuleOf n m (rule_of rule)) rules.now }
    ensures count { IfOk result (λ marks. length marks.items ≡ action_count task.now) }
    ensures marks { IfOk result (λ marks. (a : ℕ) → a < action_count task.now
        → slice_index_or marks.items a false
        ≡ advises (map rule_of rules.now) (vector (fluent_count task.now) state.now) a) }
{
    let mut marks = no_marks(alloc, task)?;
    for rule in rules {
        mark_action(&mut marks, task, rule, state);
    }
    Ok(marks)
}

fn no_marks(alloc: Global, task: &Task) -> Result<Vec<bool>, AllocError>
    ensures count { IfOk result (λ marks. length marks.items ≡ action_count task.now) }
    ensures none { IfOk result (λ marks. (a : ℕ) → a < action_count task.now
        → slice_index_or marks.items a false ≡ false) }
{
    vec![in alloc; false; task.actions.len()]
}

/// Marks the action of the rule, if it matches the state.
fn mark_action(marks: &mut Vec<bool>, task: &Task, rule: &Rule, state: &State)
    requires in_task { IsRuleOf (fluent_count task.now) (action_count task.now) (rule_of rule.now) }
    requires count { length marks.old.items ≡ action_count task.now }
    ensures count { length marks.new.items ≡ action_count task.now }
    ensures marks { (a : ℕ) → a < action_count task.now → slice_index_or marks.new.items a false
        ≡ (slice_index_or marks.old.items a false || ((rule.now.action.0 == a)
        && matches (rule_of rule.now).cube (vector (fluent_count task.now) state.now))) }
{
    if has_all(task, &rule.cube, state) {
        marks[rule.action.0 as usize] = true;
    }
}

fn is_marked(marks: &[bool], action: u32) -> bool
    requires { action < length marks.now }
    ensures { result ≡ slice_index_or marks.now action false }
{
    marks[action as usize]
}

/// What the rule of an automaton says that counts in a configuration: the first of the context that
/// matches the state.
fn advice_at<'a>(task: &Task, rules: &'a [AutoRule], place: &Place) -> Option<Advice<'a>>
    requires in_task { let n = fluent_count task.now in let m = action_count task.now in
        All (λ rule. NamesRule n m (context_rule_of rule)) rules.now }
    ensures counts { option_map advice_value result ≡ option_map advised_by
        (rule_at (map context_rule_of rules.now) (vector (fluent_count task.now) place.now.state)
        place.now.context) }
    ensures in_task { IfSome result (IsAdviceOf (fluent_count task.now) (action_count task.now)) }
{
    for rule in rules {
        if rule.context == place.context && has_all(task, &rule.cube, &place.state) {
            return Some(Advice {
                action: rule.action,
                onward: onward_of(&rule.next),
            });
        }
    }
    None
}

fn advised_steps(
    alloc: Global,
    task: &Task,
    places: &[Place],
    state: &State,
    advice: &Option<Advice<'_>>,
) -> Result<Vec<Step>, AllocError>
    requires in_task { IfSome advice.now
        (IsAdviceOf (fluent_count task.now) (action_count task.now)) }
    requires few { length places.now < 4294967296 }
    requires within { AreWithin (fluent_count task.now) places.now }
    requires from_within { IsWithin (fluent_count task.now) state.now }
    ensures steps { let n = fluent_count task.now in IfOk result (λ steps.
        map step_value steps.items ≡ steps_if (system_of task.now)
        (configurations_of n places.now) (vector n state.now)
        (option_map advice_value advice.now)) }
{
    let mut steps = Vec::new(alloc);
    if let Some(advice) = advice {
        add_steps(task, places, state, advice, &mut steps)?;
    }
    Ok(steps)
}

/// Adds the steps by what is advised, one for each outcome that leads to one of the places.
fn add_steps(
    task: &Task,
    places: &[Place],
    state: &State,
    advice: &Advice<'_>,
    steps: &mut Vec<Step>,
) -> Result<(), AllocError>
    requires in_task { IsAdviceOf (fluent_count task.now) (action_count task.now) advice.now }
    requires few { length places.now < 4294967296 }
    requires within { AreWithin (fluent_count task.now) places.now }
    requires from_within { IsWithin (fluent_count task.now) state.now }
    ensures steps { let n = fluent_count task.now in OnOk result (map step_value steps.new.items
        ≡ map step_value steps.old.items ++ steps_by (system_of task.now)
        (configurations_of n places.now) (vector n state.now) (advice_value advice.now)) }
{
    if !is_exec(task, state, advice.action) {
        return Ok(());
    }
    for outcome in 0..outcome_count(task, advice.action) {
        let after = step(task, state, advice.action, outcome);
        let led = Led { outcome, after };
        add_step(task, places, advice, led, steps)?;
    }
    Ok(())
}

/// An outcome of an action, and the vector to which it leads.
#[derive(Clone, Copy)]
struct Led {
    outcome: u32,
    after: State,
}

/// Adds the step by one outcome of what is advised, if it leads to a state that stands among the
/// places with the next context.
fn add_step(
    task: &Task,
    places: &[Place],
    advice: &Advice<'_>,
    led: Led,
    steps: &mut Vec<Step>,
) -> Result<(), AllocError>
    requires in_task { IsAdviceOf (fluent_count task.now) (action_count task.now) advice.now }
    requires few { length places.now < 4294967296 }
    requires within { AreWithin (fluent_count task.now) places.now }
    requires after_within { IsWithin (fluent_count task.now) led.after }
    ensures steps { let n = fluent_count task.now in OnOk result (map step_value steps.new.items
        ≡ map step_value steps.old.items ++ outcome_steps (configurations_of n places.now)
        (advice_value advice.now) led.outcome (if_state task.now (vector n led.after))) }
{
    if !in_space(task, &led.after) {
        return Ok(());
    }
    if let Some(target) = target_of(task, places, &led.after, &advice.onward) {
        steps.push(Step {
            action: advice.action,
            outcome: led.outcome,
            target,
        })?;
    }
    Ok(())
}

/// Where a state stands among the places with the context in which to go on there.
fn target_of(task: &Task, places: &[Place], after: &State, onward: &Onward<'_>) -> Option<u32>
    requires cases { AreCasesOf (fluent_count task.now) (onward_value onward.now) }
    requires few { length places.now < 4294967296 }
    requires within { AreWithin (fluent_count task.now) places.now }
    requires after_within { IsWithin (fluent_count task.now) after.now }
    ensures { let n = fluent_count task.now in result
        ≡ place_after (configurations_of n places.now) (onward_value onward.now)
        (vector n after.now) }
{
    let context = context_in(task, onward, after)?;
    number_of(
        places,
        &Place {
            state: *after,
            context,
        },
    )
}
