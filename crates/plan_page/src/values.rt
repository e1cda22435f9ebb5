//! Numbers, literals and steps as JSON.

ghost use Rattle.plan_document.specs.Data.{count_data, list_data};
ghost use Rattle.plan_page.specs.Pages.{
  cube_data,
  literal_data,
  node_data,
  outcomes_below,
  step_data,
  true_below,
};
ghost use Rattle.plan_picture.specs.Values.{node_value, step_value};
ghost use Rattle.serde_json.specs.Data.{array, boolean, item, no_items};
ghost use Rattle.serde_json.specs.View.{view};
ghost use Rattle.std.specs.Prelude.{
  ◌≡◌,
  ◌<◌,
  ◌++◌,
  ◌∷◌,
  [],
  IfOk,
  OnOk,
  if◌then◌else◌,
  map,
};
ghost use Rattle.task_core.specs.States.{vector};
ghost use Rattle.task_core.specs.Tasks.{action_count, fluent_count, system_of};

use plan_document::count_value;
use plan_picture::{Node, Step};
use serde_json::{Map, Value, put};
use std::alloc::{AllocError, Global};
use task_core::{ActionId, FluentId, Lit, State, Task, outcome_count};

/// How many outcomes each action has.
pub(crate) fn outcome_counts(alloc: Global, task: &Task) -> Result<Value, AllocError>
    ensures { IfOk result (λ value. view value
        ≡ list_data count_data (outcomes_below (system_of task.now) (action_count task.now))) }
{
    let mut counts = Vec::new(alloc);
    for number in 0..task.actions.len() as u32 {
        counts.push(count_value(outcome_count(task, ActionId(number))))?;
    }
    Ok(Value::from(counts))
}

/// A list of literals.
pub(crate) fn cube_value(alloc: Global, cube: &[Lit]) -> Result<Value, AllocError>
    ensures { IfOk result (λ value. view value ≡ cube_data cube.now) }
{
    let mut literals = Vec::new(alloc);
    for literal in cube {
        literals.push(literal_value(alloc, literal)?)?;
    }
    Ok(Value::from(literals))
}

fn literal_value(alloc: Global, literal: &Lit) -> Result<Value, AllocError>
    ensures { IfOk result (λ value. view value ≡ literal_data literal.now) }
{
    let wanted = Value::from(literal.positive);
    pair_value(alloc, count_value(literal.fluent.0), wanted)
}

/// Two values as an array.
pub(crate) fn pair_value(alloc: Global, first: Value, second: Value) -> Result<Value, AllocError>
    ensures { IfOk result (λ value. view value
        ≡ array (item (view first) (item (view second) no_items))) }
{
    let mut pair = Vec::new(alloc);
    pair.push(first)?;
    pair.push(second)?;
    Ok(Value::from(pair))
}

pub(crate) fn node_values(alloc: Global, task: &Task, nodes: &[Node]) -> Result<Value, AllocError>
    ensures { let n = fluent_count task.now in IfOk result (λ value. view value
        ≡ list_data (node_data n) (map (node_value n) nodes.now)) }
{
    let mut values = Vec::new(alloc);
    for node in nodes {
        values.push(one_node(alloc, task, node)?)?;
    }
    Ok(Value::from(values))
}

fn one_node(alloc: Global, task: &Task, node: &Node) -> Result<Value, AllocError>
    ensures { let n = fluent_count task.now in IfOk result (λ value. view value
        ≡ node_data n (node_value n node.now)) }
{
    let fluents = true_fluents(alloc, task, &node.state)?;
    let steps = step_values(alloc, &node.steps)?;
    let mut members = Map::new(alloc);
    put(&mut members, alloc, "true", fluents)?;
    put(&mut members, alloc, "steps", steps)?;
    put(&mut members, alloc, "initial", Value::from(node.is_initial))?;
    put(&mut members, alloc, "goal", Value::from(node.is_goal))?;
    put(&mut members, alloc, "context", count_value(node.context))?;
    Ok(Value::from(members))
}

fn true_fluents(alloc: Global, task: &Task, state: &State) -> Result<Value, AllocError>
    ensures { let n = fluent_count task.now in IfOk result (λ value. view value
        ≡ list_data count_data (true_below (vector n state.now) n)) }
{
    let mut numbers = Vec::new(alloc);
    for number in 0..task.fluents.len() as u32 {
        push_if(&mut numbers, number, state.get(FluentId(number)))?;
    }
    Ok(Value::from(numbers))
}

fn push_if(numbers: &mut Vec<Value>, number: u32, is_wanted: bool) -> Result<(), AllocError>
    ensures { OnOk result (map view numbers.new.items
        ≡ map view numbers.old.items ++ map count_data (if is_wanted then number ∷ [] else [])) }
{
    if is_wanted {
        numbers.push(count_value(number))?;
    }
    Ok(())
}

fn step_values(alloc: Global, steps: &[Step]) -> Result<Value, AllocError>
    ensures { IfOk result (λ value. view value ≡ list_data step_data (map step_value steps.now)) }
{
    let mut values = Vec::new(alloc);
    for step in steps {
        values.push(one_step(alloc, step)?)?;
    }
    Ok(Value::from(values))
}

fn one_step(alloc: Global, step: &Step) -> Result<Value, AllocError>
    ensures { IfOk result (λ value. view value ≡ step_data (step_value step.now)) }
{
    let mut numbers = Vec::new(alloc);
    numbers.push(count_value(step.action.0))?;
    numbers.push(count_value(step.outcome))?;
    numbers.push(count_value(step.target))?;
    Ok(Value::from(numbers))
}
