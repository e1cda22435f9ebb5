//! A longest run, and where a plan stays, as JSON.

ghost use Rattle.explain_command.specs.Documents.{
  besides_of as besides_data,
  longest_data,
  stays_data,
};
ghost use Rattle.explain_command.specs.FindingValues.{besides_value};
ghost use Rattle.plan_document.specs.Data.{count_data, list_data};
ghost use Rattle.counterexamples.specs.Values.{
  finding_value,
  found_value,
  run_found_value,
  source_value,
  stays_value,
};
ghost use Rattle.serde_json.specs.Data.{null};
ghost use Rattle.serde_json.specs.View.{view};
ghost use Rattle.std.specs.Option.{option_map, option_map_or};
ghost use Rattle.std.specs.Prelude.{◌≡◌, IfOk};
ghost use Rattle.task_core.specs.Tasks.{fluent_count};

use crate::steps::{number_value, outcome_values, rule_values, step_values};
use counterexamples::{Finding, Found, Source, Stays};
use plan_document::count_value;
use serde_json::{Map, Value, put};
use std::alloc::{AllocError, Global};

/// What is told of a verdict besides the run that shows it.
#[derive(Drop)]
pub(crate) struct Besides {
    pub(crate) longest: Value,
    pub(crate) stays: Value,
}

/// What is told besides the run.
pub(crate) fn besides_of(
    alloc: Global,
    source: &Source<'_>,
    finding: &Finding<'_>,
) -> Result<Besides, AllocError>
    ensures { let n = fluent_count source.now.task.now in IfOk result (λ besides.
        besides_value besides
        ≡ besides_data (source_value source.now) (finding_value n finding.now)) }
{
    let longest = longest_if_found(alloc, source, &finding.longest)?;
    let stays = stays_if_told(alloc, &finding.stays)?;
    Ok(Besides { longest, stays })
}

/// A longest run, where there is one.
fn longest_if_found(
    alloc: Global,
    source: &Source<'_>,
    longest: &Option<Found<'_>>,
) -> Result<Value, AllocError>
    ensures { let n = fluent_count source.now.task.now in IfOk result (λ value. view value
        ≡ option_map_or (longest_data (source_value source.now)) (run_found_value n longest.now) null) }
{
    match longest {
        Some(found) => longest_value(alloc, source, found),
        None => Ok(Value::Null),
    }
}

/// A longest run.
fn longest_value(alloc: Global, source: &Source<'_>, found: &Found<'_>) -> Result<Value, AllocError>
    ensures { let n = fluent_count source.now.task.now in IfOk result (λ value. view value
        ≡ longest_data (source_value source.now) (found_value n found.now)) }
{
    let outcomes = outcome_values(alloc, &found.run.steps)?;
    let rules = rule_values(alloc, &found.run.steps)?;
    let steps = step_values(alloc, source, &found.run)?;
    let mut members = Map::new(alloc);
    put(&mut members, alloc, "steps", steps)?;
    put(&mut members, alloc, "rules", rules)?;
    put(&mut members, alloc, "outcomes", outcomes)?;
    put(&mut members, alloc, "initial", number_value(found.number))?;
    Ok(Value::from(members))
}

/// Where a plan stays, if that is told.
fn stays_if_told(alloc: Global, stays: &Option<Stays>) -> Result<Value, AllocError>
    ensures { IfOk result (λ value.
        view value ≡ option_map_or stays_data (option_map stays_value stays.now) null) }
{
    match stays {
        Some(stays) => states_value(alloc, stays),
        None => Ok(Value::Null),
    }
}

/// In which states a plan stays.
fn states_value(alloc: Global, stays: &Stays) -> Result<Value, AllocError>
    ensures { IfOk result (λ value. view value ≡ stays_data (stays_value stays.now)) }
{
    let states = number_values(alloc, &stays.numbers)?;
    let mut members = Map::new(alloc);
    put(&mut members, alloc, "states", states)?;
    put(&mut members, alloc, "more", number_value(stays.more))?;
    Ok(Value::from(members))
}

/// Some numbers.
fn number_values(alloc: Global, numbers: &[u32]) -> Result<Value, AllocError>
    ensures { IfOk result (λ value. view value ≡ list_data count_data numbers.now) }
{
    let mut values = Vec::new(alloc);
    for number in numbers {
        values.push(count_value(*number))?;
    }
    Ok(Value::from(values))
}
