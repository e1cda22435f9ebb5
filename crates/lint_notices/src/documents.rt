//! The JSON document.

ghost use Rattle.lint_notices.specs.Texts.{
  document_text,
  limit_data,
  notice_data,
  notices_data,
  report_data,
};
ghost use Rattle.lint_notices.specs.Values.{name_of, names_value, notice_value, report_value};
ghost use Rattle.serde_json.specs.View.{view};
ghost use Rattle.std.specs.Option.{option_map};
ghost use Rattle.std.specs.Prelude.{◌≡◌, IfOk, map};

use crate::notices::{FileNames, LimitName, Notice, Report};
use crate::texts::file_of;
use plan_document::{count_value, value_text};
use serde_json::{Map, Value, put};
use std::alloc::{AllocError, Global};

/// The document of all that is told: JSON in one line with a line feed at its end. It is an object with the
/// members `hints`, `limit`, a name or null, and `mistakes`. Hints and mistakes are lists of objects with the
/// members `column`, `file`, `kind`, `line` and `message`.
pub fn report_document(
    alloc: Global,
    names: &FileNames<'_>,
    report: &Report,
) -> Result<Vec<u8>, AllocError>
    ensures { IfOk result (λ text. text.items
        ≡ document_text (names_value names.now) (report_value report.now)) }
{
    let value = document_value(alloc, names, report)?;
    value_text(alloc, &value)
}

fn document_value(
    alloc: Global,
    names: &FileNames<'_>,
    report: &Report,
) -> Result<Value, AllocError>
    ensures { IfOk result (λ value. view value
        ≡ report_data (names_value names.now) (report_value report.now)) }
{
    let mistakes = notice_values(alloc, names, &report.notices)?;
    let limit = limit_value(alloc, report.limit)?;
    let hints = notice_values(alloc, names, &report.hints)?;
    let mut members = Map::new(alloc);
    put(&mut members, alloc, "mistakes", mistakes)?;
    put(&mut members, alloc, "limit", limit)?;
    put(&mut members, alloc, "hints", hints)?;
    Ok(Value::from(members))
}

fn limit_value(alloc: Global, limit: Option<LimitName>) -> Result<Value, AllocError>
    ensures { IfOk result (λ value.
        view value ≡ limit_data (option_map name_of limit)) }
{
    match limit {
        Some(limit) => Value::try_from_str(alloc, limit.name),
        None => Ok(Value::Null),
    }
}

/// A list of mistakes, or of hints.
fn notice_values(
    alloc: Global,
    names: &FileNames<'_>,
    notices: &[Notice],
) -> Result<Value, AllocError>
    ensures { IfOk result (λ value. view value
        ≡ notices_data (names_value names.now) (map notice_value notices.now)) }
{
    let mut values = Vec::new(alloc);
    for notice in notices {
        values.push(notice_object(alloc, names, notice)?)?;
    }
    Ok(Value::from(values))
}

fn notice_object(alloc: Global, names: &FileNames<'_>, notice: &Notice) -> Result<Value, AllocError>
    ensures { IfOk result (λ value.
        view value ≡ notice_data (names_value names.now) (notice_value notice.now)) }
{
    let message = Value::try_from_str(alloc, &notice.message)?;
    let kind = Value::try_from_str(alloc, notice.kind)?;
    let file = Value::try_from_str(alloc, file_of(names, notice))?;
    let mut members = Map::new(alloc);
    put(&mut members, alloc, "message", message)?;
    put(&mut members, alloc, "line", count_value(notice.place.line))?;
    put(&mut members, alloc, "kind", kind)?;
    put(&mut members, alloc, "file", file)?;
    put(
        &mut members,
        alloc,
        "column",
        count_value(notice.place.column),
    )?;
    Ok(Value::from(members))
}
