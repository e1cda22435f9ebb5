//! Explanations as JSON.

ghost use Rattle.plan_document.specs.Data.{count_data};
ghost use Rattle.plan_page.specs.ExplanationValues.{explanation_value, shown_value};
ghost use Rattle.plan_page.specs.Explanations.{
  count_or_null as count_or_null_data,
  explanation_data,
  explanation_object as object_of,
  handed_data,
  outcome_counts as outcome_data,
  rule_counts as rule_data,
  told,
};
ghost use Rattle.plan_picture.specs.Values.{move_value};
ghost use Rattle.serde_json.specs.Data.{array, no_items, null, string};
ghost use Rattle.serde_json.specs.View.{view};
ghost use Rattle.std.specs.Option.{option_map};
ghost use Rattle.std.specs.Prelude.{◌≡◌, IfOk, Some, map, string_bytes};

use crate::explanations::{Explanation, ShownRun};
use plan_picture::Move;
use serde_json::{Map, Value, put};
use std::alloc::{AllocError, Global};

/// What a page is handed: an explanation, or null.
pub(crate) fn handed_value(
    alloc: Global,
    explanation: Option<&Explanation>,
) -> Result<Value, AllocError>
    ensures { IfOk result (λ value. view value
        ≡ handed_data (option_map (λ some. explanation_value some.now) explanation.entry)) }
{
    match explanation {
        Some(explanation) => told_value(alloc, explanation),
        None => Ok(Value::Null),
    }
}

fn told_value(alloc: Global, explanation: &Explanation) -> Result<Value, AllocError>
    ensures { IfOk result (λ value. view value ≡ explanation_data (explanation_value explanation.now)) }
{
    match &explanation.shown {
        Some(shown) => shown_value_of(alloc, &explanation.verdict, shown),
        None => verdict_value(alloc, &explanation.verdict),
    }
}

/// The data of a verdict that no run shows.
fn verdict_value(alloc: Global, verdict: &str) -> Result<Value, AllocError>
    ensures { IfOk result (λ value. view value ≡ object_of null null (array no_items)
        (array no_items) null (string verdict.now)) }
{
    let members = Members {
        cycle_from: Value::Null,
        initial: Value::Null,
        outcomes: rule_counts(alloc, &[])?,
        rules: rule_counts(alloc, &[])?,
        sentence: Value::Null,
    };
    object(alloc, members, verdict)
}

/// The data of a verdict, and of the run that shows it.
fn shown_value_of(alloc: Global, verdict: &str, shown: &ShownRun) -> Result<Value, AllocError>
    ensures { IfOk result (λ value. view value ≡ told verdict.now (Some (shown_value shown.now))) }
{
    let members = Members {
        cycle_from: count_or_null(shown.run.cycle_from),
        initial: Value::from(shown.run.initial),
        outcomes: outcome_counts(alloc, &shown.run.moves)?,
        rules: rule_counts(alloc, &shown.run.moves)?,
        sentence: Value::try_from_str(alloc, &shown.sentence)?,
    };
    object(alloc, members, verdict)
}

/// The members of the data of an explanation, but for the verdict.
#[derive(Drop)]
struct Members {
    cycle_from: Value,
    initial: Value,
    outcomes: Value,
    rules: Value,
    sentence: Value,
}

fn object(alloc: Global, members: Members, verdict: &str) -> Result<Value, AllocError>
    ensures { IfOk result (λ value. view value ≡ object_of (view members.cycle_from)
        (view members.initial) (view members.outcomes) (view members.rules) (view members.sentence)
        (string verdict.now)) }
{
    let mut map = Map::new(alloc);
    put(
        &mut map,
        alloc,
        "verdict",
        Value::try_from_str(alloc, verdict)?,
    )?;
    put(&mut map, alloc, "sentence", members.sentence)?;
    put(&mut map, alloc, "rules", members.rules)?;
    put(&mut map, alloc, "outcomes", members.outcomes)?;
    put(&mut map, alloc, "initial", members.initial)?;
    put(&mut map, alloc, "cycle_from", members.cycle_from)?;
    Ok(Value::from(map))
}

fn count_or_null(count: Option<u64>) -> Value
    ensures { view result ≡ count_or_null_data count }
{
    match count {
        Some(count) => Value::from(count),
        None => Value::Null,
    }
}

fn rule_counts(alloc: Global, moves: &[Move]) -> Result<Value, AllocError>
    ensures { IfOk result (λ value. view value ≡ rule_data (map move_value moves.now)) }
{
    let mut counts = Vec::new(alloc);
    for next in moves {
        counts.push(Value::from(next.rule))?;
    }
    Ok(Value::from(counts))
}

fn outcome_counts(alloc: Global, moves: &[Move]) -> Result<Value, AllocError>
    ensures { IfOk result (λ value. view value ≡ outcome_data (map move_value moves.now)) }
{
    let mut counts = Vec::new(alloc);
    for next in moves {
        counts.push(Value::from(next.outcome))?;
    }
    Ok(Value::from(counts))
}
