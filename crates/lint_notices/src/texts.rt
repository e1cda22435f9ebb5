//! The lines.

ghost use Rattle.lint_notices.specs.Texts.{
  file_of as file_for,
  hint_line,
  limit_line,
  limit_text as text_of_limit,
  notice_line,
  notices_text as text_of,
  place_text,
  report_text as text_of_report,
};
ghost use Rattle.lint_notices.specs.Values.{name_of, names_value, notice_value, report_value};
ghost use Rattle.std.specs.List.{flat_map};
ghost use Rattle.std.specs.Option.{option_map};
ghost use Rattle.std.specs.Prelude.{◌≡◌, ◌++◌, IfOk, OnOk, map, string_bytes};

use crate::notices::{FileNames, LimitName, Notice, Report};
use plan_rules::push_number;
use std::alloc::{AllocError, Global};

/// The lines of all that is told.
pub fn report_text(
    alloc: Global,
    names: &FileNames<'_>,
    report: &Report,
) -> Result<String, AllocError>
    ensures { IfOk result (λ text. string_bytes text
        ≡ text_of_report (names_value names.now) (report_value report.now)) }
{
    let mut out = String::new(alloc);
    push_notices(&mut out, names, &report.notices)?;
    push_hints(&mut out, names, &report.hints)?;
    push_limit(&mut out, report.limit)?;
    Ok(out)
}

/// Appends a line for each mistake, or that there are none.
fn push_notices(
    out: &mut String,
    names: &FileNames<'_>,
    notices: &[Notice],
) -> Result<(), AllocError>
    ensures { OnOk result (string_bytes out.new ≡ string_bytes out.old
        ++ text_of (names_value names.now) (map notice_value notices.now)) }
{
    if notices.is_empty() {
        return out.push_str("nothing found\n");
    }
    push_each(out, names, notices)
}

/// Appends a line for each mistake.
fn push_each(out: &mut String, names: &FileNames<'_>, notices: &[Notice]) -> Result<(), AllocError>
    ensures { OnOk result (string_bytes out.new ≡ string_bytes out.old
        ++ flat_map (notice_line (names_value names.now)) (map notice_value notices.now)) }
{
    for notice in notices {
        push_notice(out, names, notice)?;
    }
    Ok(())
}

/// Appends a line for each hint.
fn push_hints(out: &mut String, names: &FileNames<'_>, hints: &[Notice]) -> Result<(), AllocError>
    ensures { OnOk result (string_bytes out.new ≡ string_bytes out.old
        ++ flat_map (hint_line (names_value names.now)) (map notice_value hints.now)) }
{
    for hint in hints {
        push_hint(out, names, hint)?;
    }
    Ok(())
}

/// Appends that some mistakes were not looked for, since a limit is passed.
fn push_limit(out: &mut String, limit: Option<LimitName>) -> Result<(), AllocError>
    ensures { OnOk result (string_bytes out.new ≡ string_bytes out.old
        ++ text_of_limit (option_map name_of limit)) }
{
    match limit {
        Some(limit) => push_limit_line(out, limit.name),
        None => Ok(()),
    }
}

/// Appends that some mistakes were not looked for, since the limit of this name is passed.
fn push_limit_line(out: &mut String, name: &str) -> Result<(), AllocError>
    ensures { OnOk result (string_bytes out.new ≡ string_bytes out.old ++ limit_line name.now) }
{
    out.push_str("limit ")?;
    out.push_str(name)?;
    out.push_str(": not grounded, so preconditions and the goal were not looked at")?;
    out.push_str("\n")
}

/// Appends the line of a mistake.
fn push_notice(out: &mut String, names: &FileNames<'_>, notice: &Notice) -> Result<(), AllocError>
    ensures { OnOk result (string_bytes out.new ≡ string_bytes out.old
        ++ notice_line (names_value names.now) (notice_value notice.now)) }
{
    push_place(out, names, notice)?;
    out.push_str(&notice.message)?;
    out.push_str("\n")
}

/// Appends the line of a hint.
fn push_hint(out: &mut String, names: &FileNames<'_>, hint: &Notice) -> Result<(), AllocError>
    ensures { OnOk result (string_bytes out.new ≡ string_bytes out.old
        ++ hint_line (names_value names.now) (notice_value hint.now)) }
{
    push_place(out, names, hint)?;
    out.push_str("hint: ")?;
    out.push_str(&hint.message)?;
    out.push_str("\n")
}

fn push_place(out: &mut String, names: &FileNames<'_>, notice: &Notice) -> Result<(), AllocError>
    ensures { OnOk result (string_bytes out.new ≡ string_bytes out.old
        ++ place_text (names_value names.now) (notice_value notice.now)) }
{
    out.push_str(file_of(names, notice))?;
    out.push_str(":")?;
    push_number(out, notice.place.line)?;
    out.push_str(":")?;
    push_number(out, notice.place.column)?;
    out.push_str(": ")
}

pub(crate) fn file_of<'a>(names: &FileNames<'a>, notice: &Notice) -> &'a str
    ensures { result.now ≡ file_for (names_value names.now) (notice_value notice.now) }
{
    if notice.in_problem {
        names.problem
    } else {
        names.domain
    }
}
