//! Records of runs, as they are read.

ghost use Rattle.std.specs.Prelude.{◌≡◌, ◌≤◌, [], Some, IfErr, IfOk, length};
ghost use Rattle.sexpr_text.specs.Flaws.{first_listed};
ghost use Rattle.sexpr_text.specs.Forest.{forest_of};
ghost use Rattle.sexpr_text.specs.Parts.{after_first};
ghost use Rattle.sexpr_text.specs.Passes.{IfFault};
ghost use Rattle.run_replay.specs.Records.{
  HasRecordFault,
  SpellsRecord,
  flaws_of_found,
  is_record,
  numbers_flaws,
  numbers_of,
  record_flaws,
  no_record as no_record_flaw,
  record_value,
  recorded_in,
  recorded_row,
};

use sexpr_text::{
    FaultKind, Form, Head, InputFault, MAX_BYTES, Place, ReadErr, Span, View, fault_at,
    first_group, head_of, numeral, passes_in_order, read_forms,
};
use std::alloc::Global;

/// What a record says: the number of an initial state, counted from 0, the place of that number in
/// the text, and the outcome numbers of the steps.
#[derive(Debug, Drop)]
pub struct Recorded {
    pub first: u32,
    pub first_place: Place,
    pub words: Vec<u32>,
}

/// The record that the bytes spell, `(record NUMBER NUMBER ..)`, or their first fault with its
/// place, or want of memory. There are at most 1,048,576 bytes.
pub fn read_words(alloc: Global, bytes: &[u8]) -> Result<Recorded, ReadErr>
    requires few_bytes { length bytes.now ≤ MAX_BYTES }
    ensures read { IfOk result (λ recorded. SpellsRecord bytes.now (record_value recorded)) }
    ensures fault { IfErr result (λ e. IfFault e (λ fault. HasRecordFault bytes.now fault)) }
{
    // This does nothing: the clause `fault` rests on what it promises.
    passes_in_order();
    let forms = read_forms(alloc, bytes)?;
    read_found(alloc, &forms)
}

/// What the first record of a row says.
fn read_found(alloc: Global, row: &[Form]) -> Result<Recorded, ReadErr>
    ensures sound { IfOk result (λ _. flaws_of_found (is_record (forest_of row.now)) ≡ []) }
    ensures read { IfOk result
        (λ recorded. record_value recorded ≡ recorded_in (forest_of row.now)) }
    ensures fault { IfErr result (λ e. IfFault e (λ fault.
        first_listed (flaws_of_found (is_record (forest_of row.now))) ≡ Some fault)) }
{
    match first_group(row, b"record") {
        Some((span, parts)) => read_record(alloc, span, after_head(parts)),
        None => Err(no_record()),
    }
}

/// The refusal of a text that has no record.
fn no_record() -> ReadErr
    ensures { result ≡ ReadErr.Fault no_record_flaw.fault }
{
    ReadErr::Fault(InputFault {
        kind: FaultKind::NoDefine,
        place: Place { line: 1, column: 1 },
    })
}

/// What follows the first form of a row.
fn after_head(row: &[Form]) -> &[Form]
    ensures { forest_of result.now ≡ after_first (forest_of row.now) }
{
    match head_of(row) {
        Head::Nothing => row,
        Head::Word(_, _, rest) | Head::Group(_, _, rest) => rest,
    }
}

/// What the numbers of a record's list say.
fn read_record(alloc: Global, span: Span, row: &[Form]) -> Result<Recorded, ReadErr>
    ensures sound { IfOk result (λ _. record_flaws span (forest_of row.now) ≡ []) }
    ensures read { IfOk result (λ r. record_value r ≡ recorded_row (forest_of row.now)) }
    ensures fault { IfErr result (λ e. IfFault e (λ fault.
        first_listed (record_flaws span (forest_of row.now)) ≡ Some fault)) }
{
    match head_of(row) {
        Head::Nothing => Err(fault_at(span, FaultKind::BadForm)),
        Head::Group(first, _, _) => Err(fault_at(first, FaultKind::BadForm)),
        Head::Word(first, text, rest) => match numeral(text) {
            None => Err(fault_at(first, FaultKind::BadNumber)),
            Some(number) => Ok(Recorded {
                first: number,
                first_place: first.place,
                words: read_numbers(alloc, rest)?,
            }),
        },
    }
}

fn read_numbers(alloc: Global, row: &[Form]) -> Result<Vec<u32>, ReadErr>
    ensures sound { IfOk result (λ _. numbers_flaws (forest_of row.now) ≡ []) }
    ensures read { IfOk result (λ numbers. numbers.items ≡ numbers_of (forest_of row.now)) }
    ensures fault { IfErr result (λ e. IfFault e (λ fault.
        first_listed (numbers_flaws (forest_of row.now)) ≡ Some fault)) }
{
    let mut numbers = Vec::new(alloc);
    for form in row {
        match form.view() {
            View::Group(span, _) => return Err(fault_at(span, FaultKind::BadForm)),
            View::Word(span, text) => match numeral(text) {
                None => return Err(fault_at(span, FaultKind::BadNumber)),
                Some(number) => numbers.push(number)?,
            },
        }
    }
    Ok(numbers)
}
