//! Explanations of verdicts, as `pulgazer explain --json` prints them: read from bytes.

ghost use Rattle.plan_page.specs.ExplanationValues.{explanation_value, shown_value};
ghost use Rattle.plan_page.specs.Explanations.{
  HasExplanationFault,
  IsBadForm,
  PlainExplanation,
  TellsExplanation,
  count_at as count_of_member,
  count_in,
  count_or_null_at as count_or_null_of_member,
  counts_at as counts_of_member,
  counts_in as counts_of_items,
  explanation_in as explanation_told,
  is_null_at as is_null_member,
  moves_at as moves_told,
  moves_of as moves_by,
  run_in as run_told,
  shown_in as shown_told,
  shown_run_in as shown_run_told,
  text_at as text_of_member,
};
ghost use Rattle.plan_picture.specs.Values.{move_value, run_value};
ghost use Rattle.serde_json.specs.Errors.{IsMemory};
ghost use Rattle.serde_json.specs.View.{items_view, view};
ghost use Rattle.sexpr_text.specs.Passes.{IfFault};
ghost use Rattle.std.specs.Option.{option_map};
ghost use Rattle.std.specs.Prelude.{
  ◌≡◌,
  ◌⊎◌,
  None,
  IfErr,
  IfOk,
  Some,
  map,
  string_bytes,
};

use plan_picture::{Move, Run};
use serde_json::{Category, Error, Value};
use sexpr_text::{FaultKind, InputFault, Place, ReadErr};
use std::alloc::Global;

/// A verdict on a plan, and a run that shows it, where there is one.
#[derive(Debug, Drop)]
pub struct Explanation {
    pub verdict: String,
    pub shown: Option<ShownRun>,
}

/// A run that is shown, and a sentence on what is the matter at its end.
#[derive(Debug, Drop)]
pub struct ShownRun {
    pub run: Run,
    pub sentence: String,
}

/// Reads bytes as an explanation: JSON that is an object with the members `verdict` (a text),
/// `initial` (a number, or null where no run is shown), `rules` and `outcomes` (lists of as many
/// numbers), `cycle_from` (a number or null) and `sentence` (a text). Other members are passed over.
pub fn read_explanation(alloc: Global, bytes: &[u8]) -> Result<Explanation, ReadErr>
    ensures tells { IfOk result
        (λ explanation. TellsExplanation bytes.now (explanation_value explanation)) }
    ensures fault { IfErr result (λ error. IfFault error (HasExplanationFault bytes.now)) }
{
    match Value::from_slice(alloc, bytes) {
        Ok(value) => explanation_in(alloc, &value),
        Err(error) => Err(misread(&error)),
    }
}

fn explanation_in(alloc: Global, value: &Value) -> Result<Explanation, ReadErr>
    ensures told { IfOk result (λ explanation.
        explanation_told (view value.now) ≡ Some (explanation_value explanation)) }
    ensures form { IfErr result IsBadForm }
    ensures none { IfErr result (λ error. IfFault error
        (λ fault. explanation_told (view value.now) ≡ None)) }
{
    let verdict = text_at(alloc, value, "verdict")?;
    let shown = shown_in(alloc, value)?;
    Ok(Explanation { verdict, shown })
}

/// The run that shows a verdict; there is none where no initial state is named.
fn shown_in(alloc: Global, value: &Value) -> Result<Option<ShownRun>, ReadErr>
    ensures told { IfOk result (λ shown. shown_told (view value.now) ≡ Some (option_map shown_value shown)) }
    ensures form { IfErr result IsBadForm }
    ensures none { IfErr result (λ error. IfFault error (λ fault. shown_told (view value.now) ≡ None)) }
{
    if is_null_at(value, "initial") {
        return Ok(None);
    }
    Ok(Some(shown_run_in(alloc, value)?))
}

fn shown_run_in(alloc: Global, value: &Value) -> Result<ShownRun, ReadErr>
    ensures told { IfOk result (λ shown. shown_run_told (view value.now) ≡ Some (shown_value shown)) }
    ensures form { IfErr result IsBadForm }
    ensures none { IfErr result (λ error. IfFault error (λ fault. shown_run_told (view value.now) ≡ None)) }
{
    let run = run_in(alloc, value)?;
    let sentence = text_at(alloc, value, "sentence")?;
    Ok(ShownRun { run, sentence })
}

fn run_in(alloc: Global, value: &Value) -> Result<Run, ReadErr>
    ensures told { IfOk result (λ run. run_told (view value.now) ≡ Some (run_value run)) }
    ensures form { IfErr result IsBadForm }
    ensures none { IfErr result (λ error. IfFault error (λ fault. run_told (view value.now) ≡ None)) }
{
    let initial = count_at(value, "initial")?;
    let moves = moves_at(alloc, value)?;
    let cycle_from = count_or_null_at(value, "cycle_from")?;
    Ok(Run {
        initial,
        moves,
        cycle_from,
    })
}

fn moves_at(alloc: Global, value: &Value) -> Result<Vec<Move>, ReadErr>
    ensures told { IfOk result (λ moves. moves_told (view value.now) ≡ Some (map move_value moves.items)) }
    ensures form { IfErr result IsBadForm }
    ensures none { IfErr result (λ error. IfFault error (λ fault. moves_told (view value.now) ≡ None)) }
{
    let rules = counts_at(alloc, value, "rules")?;
    let outcomes = counts_at(alloc, value, "outcomes")?;
    moves_of(alloc, &rules, &outcomes)
}

fn moves_of(alloc: Global, rules: &[u64], outcomes: &[u64]) -> Result<Vec<Move>, ReadErr>
    ensures told { IfOk result (λ moves. moves_by rules.now outcomes.now ≡ Some (map move_value moves.items)) }
    ensures form { IfErr result IsBadForm }
    ensures none { IfErr result (λ error. IfFault error (λ fault. moves_by rules.now outcomes.now ≡ None)) }
{
    if rules.len() != outcomes.len() {
        return Err(no_explanation(1, 1));
    }
    let mut moves = Vec::new(alloc);
    for number in 0..rules.len() {
        moves.push(Move {
            rule: rules[number],
            outcome: outcomes[number],
        })?;
    }
    Ok(moves)
}

fn text_at(alloc: Global, value: &Value, key: &str) -> Result<String, ReadErr>
    ensures told { IfOk result (λ text. text_of_member key.now (view value.now) ≡ Some (string_bytes text)) }
    ensures form { IfErr result IsBadForm }
    ensures none { IfErr result (λ error. IfFault error (λ fault. text_of_member key.now (view value.now) ≡ None)) }
{
    match value.get(key).and_then(Value::as_str) {
        Some(text) => Ok(String::from_str(alloc, text)?),
        None => Err(no_explanation(1, 1)),
    }
}

fn is_null_at(value: &Value, key: &str) -> bool
    ensures { result ≡ is_null_member key.now (view value.now) }
{
    value.get(key).and_then(Value::as_null).is_some()
}

/// The number of a member.
fn count_at(value: &Value, key: &str) -> Result<u64, ReadErr>
    ensures told { IfOk result (λ count. count_of_member key.now (view value.now) ≡ Some count) }
    ensures form { IfErr result IsBadForm }
    ensures none { IfErr result (λ error. IfFault error (λ fault. count_of_member key.now (view value.now) ≡ None)) }
{
    match value.get(key).and_then(Value::as_u64) {
        Some(count) => Ok(count),
        None => Err(no_explanation(1, 1)),
    }
}

/// The number of a member, which may be null.
fn count_or_null_at(value: &Value, key: &str) -> Result<Option<u64>, ReadErr>
    ensures told { IfOk result (λ count. count_or_null_of_member key.now (view value.now) ≡ Some count) }
    ensures form { IfErr result IsBadForm }
    ensures none { IfErr result (λ error. IfFault error (λ fault. count_or_null_of_member key.now (view value.now) ≡ None)) }
{
    if is_null_at(value, key) {
        return Ok(None);
    }
    Ok(Some(count_at(value, key)?))
}

/// The numbers of a member.
fn counts_at(alloc: Global, value: &Value, key: &str) -> Result<Vec<u64>, ReadErr>
    ensures told { IfOk result (λ counts. counts_of_member key.now (view value.now) ≡ Some counts.items) }
    ensures form { IfErr result IsBadForm }
    ensures none { IfErr result (λ error. IfFault error (λ fault. counts_of_member key.now (view value.now) ≡ None)) }
{
    match value.get(key).and_then(Value::as_array) {
        Some(items) => counts_in(alloc, items),
        None => Err(no_explanation(1, 1)),
    }
}

fn counts_in(alloc: Global, items: &[Value]) -> Result<Vec<u64>, ReadErr>
    ensures told { IfOk result (λ counts. counts_of_items (items_view items.now) ≡ Some counts.items) }
    ensures form { IfErr result IsBadForm }
    ensures none { IfErr result (λ error. IfFault error (λ fault. counts_of_items (items_view items.now) ≡ None)) }
{
    let mut counts = Vec::new(alloc);
    for value in items {
        match value.as_u64() {
            Some(count) => counts.push(count)?,
            None => return Err(no_explanation(1, 1)),
        }
    }
    Ok(counts)
}

/// The fault of a text that is no JSON, or want of memory.
fn misread(error: &Error) -> ReadErr
    ensures { (result ≡ ReadErr.Memory) ⊎ ((IsMemory error.now → ⊥) × IsBadForm result) }
{
    if error.classify() == Category::Memory {
        return ReadErr::Memory;
    }
    no_explanation(error.line(), error.column())
}

/// The fault of a text that tells no explanation, at a place in it.
fn no_explanation(line: usize, column: usize) -> ReadErr
    ensures { IsBadForm result }
{
    ReadErr::Fault(InputFault {
        kind: FaultKind::BadForm,
        place: Place {
            line: counted(line),
            column: counted(column),
        },
    })
}

/// A number of a line or a column, which is counted from 1.
fn counted(number: usize) -> u32 {
    match u32::try_from(number) {
        Ok(number) => number.max(1),
        Err(_) => 1,
    }
}
