//! The document of a verdict and the run that shows it.

ghost use Rattle.explain_command.specs.Documents.{
  document,
  document_text,
  told_object as object_of,
  told_of as told_data,
};
ghost use Rattle.explain_command.specs.FindingValues.{besides_value, told_value};
ghost use Rattle.plan_document.specs.Data.{count_data};
ghost use Rattle.counterexamples.specs.Texts.{Source as PlainSource};
ghost use Rattle.counterexamples.specs.Values.{
  finding_value,
  found_value,
  run_found_value,
  source_value,
};
ghost use Rattle.serde_json.specs.Data.{null};
ghost use Rattle.serde_json.specs.View.{view};
ghost use Rattle.std.specs.Option.{option_map_or};
ghost use Rattle.std.specs.Prelude.{◌≡◌, IfOk, None, Some};
ghost use Rattle.task_core.specs.Tasks.{fluent_count};

use crate::besides::{Besides, besides_of};
use crate::parts::part_values;
use crate::steps::{number_value, outcome_values, rule_values, step_values};
use counterexamples::{Finding, Found, Source, cycle_from, ending_sentence};
use plan_document::value_text;
use serde_json::{Map, Value, put};
use std::alloc::{AllocError, Global};

/// The document of a verdict in these words, and of what is told of it, as JSON in one line with a line
/// feed at its end. It is an object with the members `cycle_from`, `initial`, `longest`, `outcomes`, `parts`,
/// `rules`, `sentence`, `stays`, `steps` and `verdict`. Where there is no run, the lists are empty; what isn't
/// told is null.
pub fn finding_document(
    alloc: Global,
    source: &Source<'_>,
    verdict: &str,
    finding: &Finding<'_>,
) -> Result<Vec<u8>, AllocError>
    ensures { let n = fluent_count source.now.task.now in IfOk result (λ text. text.items
        ≡ document_text (source_value source.now) verdict.now (finding_value n finding.now)) }
{
    let value = document_value(alloc, source, verdict, finding)?;
    value_text(alloc, &value)
}

/// The document as a value.
fn document_value(
    alloc: Global,
    source: &Source<'_>,
    verdict: &str,
    finding: &Finding<'_>,
) -> Result<Value, AllocError>
    ensures { let n = fluent_count source.now.task.now in IfOk result (λ value. view value
        ≡ document (source_value source.now) verdict.now (finding_value n finding.now)) }
{
    let told = told_if_found(alloc, source, &finding.run)?;
    let besides = besides_of(alloc, source, finding)?;
    told_object(alloc, verdict, told, besides)
}

/// What is told of the run that shows a verdict.
#[derive(Drop)]
struct Told {
    cycle_from: Value,
    initial: Value,
    outcomes: Value,
    parts: Value,
    rules: Value,
    sentence: Value,
    steps: Value,
}

/// The object of a verdict and what is told besides.
fn told_object(
    alloc: Global,
    verdict: &str,
    told: Told,
    besides: Besides,
) -> Result<Value, AllocError>
    ensures { IfOk result (λ value. view value
        ≡ object_of verdict.now (told_value told) (besides_value besides)) }
{
    let Told {
        cycle_from,
        initial,
        outcomes,
        parts,
        rules,
        sentence,
        steps,
    } = told;
    let Besides { longest, stays } = besides;
    let mut members = Map::new(alloc);
    put(
        &mut members,
        alloc,
        "verdict",
        Value::try_from_str(alloc, verdict)?,
    )?;
    put(&mut members, alloc, "steps", steps)?;
    put(&mut members, alloc, "stays", stays)?;
    put(&mut members, alloc, "sentence", sentence)?;
    put(&mut members, alloc, "rules", rules)?;
    put(&mut members, alloc, "parts", parts)?;
    put(&mut members, alloc, "outcomes", outcomes)?;
    put(&mut members, alloc, "longest", longest)?;
    put(&mut members, alloc, "initial", initial)?;
    put(&mut members, alloc, "cycle_from", cycle_from)?;
    Ok(Value::from(members))
}

/// What is told of a run, where there is one.
fn told_if_found(
    alloc: Global,
    source: &Source<'_>,
    found: &Option<Found<'_>>,
) -> Result<Told, AllocError>
    ensures { let n = fluent_count source.now.task.now in IfOk result (λ told. told_value told
        ≡ told_data (source_value source.now) (run_found_value n found.now)) }
{
    match found {
        Some(found) => told_of(alloc, source, found),
        None => Ok(nothing_told(alloc)),
    }
}

/// What is told where there is no run.
fn nothing_told(alloc: Global) -> Told
    ensures { (source : PlainSource) → told_value result ≡ told_data source None }
{
    Told {
        cycle_from: Value::Null,
        initial: Value::Null,
        outcomes: Value::from(Vec::new(alloc)),
        parts: Value::from(Vec::new(alloc)),
        rules: Value::from(Vec::new(alloc)),
        sentence: Value::Null,
        steps: Value::from(Vec::new(alloc)),
    }
}

/// What is told of a run.
fn told_of(alloc: Global, source: &Source<'_>, found: &Found<'_>) -> Result<Told, AllocError>
    ensures { let n = fluent_count source.now.task.now in IfOk result (λ told. told_value told
        ≡ told_data (source_value source.now) (Some (found_value n found.now))) }
{
    let sentence = ending_sentence(alloc, source, found)?;
    let outcomes = outcome_values(alloc, &found.run.steps)?;
    let parts = part_values(alloc, source.task, &found.ending)?;
    let rules = rule_values(alloc, &found.run.steps)?;
    let steps = step_values(alloc, source, &found.run)?;
    Ok(Told {
        cycle_from: place_value(cycle_from(found)),
        initial: number_value(found.number),
        outcomes,
        parts,
        rules,
        sentence: Value::from(sentence),
        steps,
    })
}

/// A number, where there is one.
fn place_value(place: Option<usize>) -> Value
    ensures { view result ≡ option_map_or count_data place null }
{
    match place {
        Some(place) => number_value(place),
        None => Value::Null,
    }
}
