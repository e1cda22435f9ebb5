//! Rows of numbers as text.

ghost use Rattle.controller_code.specs.Tables.{number_text, row_line};
ghost use Rattle.controller_code.specs.Texts.{counted_line};
ghost use Rattle.std.specs.List.{flat_map};
ghost use Rattle.std.specs.Prelude.{◌≡◌, ◌++◌, OnOk, decimal};

use itoa::{Buffer, Integer};
use std::alloc::AllocError;

/// Appends the line of a row, with its length before it.
pub(crate) fn push_counted(out: &mut Vec<u8>, row: &[usize]) -> Result<(), AllocError>
    ensures { OnOk result (out.new.items ≡ out.old.items ++ counted_line row.now) }
{
    push_text(out, "   ")?;
    push_entry(out, row.len())?;
    push_entries(out, row)?;
    push_text(out, "\n")
}

/// Appends the line of a row.
pub(crate) fn push_row(out: &mut Vec<u8>, row: &[usize]) -> Result<(), AllocError>
    ensures { OnOk result (out.new.items ≡ out.old.items ++ row_line row.now) }
{
    push_text(out, "   ")?;
    push_entries(out, row)?;
    push_text(out, "\n")
}

/// Appends the numbers of a row.
fn push_entries(out: &mut Vec<u8>, row: &[usize]) -> Result<(), AllocError>
    ensures { OnOk result (out.new.items ≡ out.old.items ++ flat_map number_text row.now) }
{
    for number in row {
        push_entry(out, *number)?;
    }
    Ok(())
}

/// Appends a number of a row.
fn push_entry(out: &mut Vec<u8>, number: usize) -> Result<(), AllocError>
    ensures { OnOk result (out.new.items ≡ out.old.items ++ number_text number) }
{
    push_text(out, " ")?;
    push_number(out, number)?;
    push_text(out, ",")
}

/// Appends a number in decimal.
pub(crate) fn push_number<I: Integer>(out: &mut Vec<u8>, number: I) -> Result<(), AllocError>
    ensures { OnOk result (out.new.items ≡ out.old.items ++ I.text number) }
{
    let mut buffer = Buffer::new();
    push_text(out, buffer.format(number))
}

pub(crate) fn push_text(out: &mut Vec<u8>, text: &str) -> Result<(), AllocError>
    ensures { OnOk result (out.new.items ≡ out.old.items ++ text.now) }
{
    out.extend_from_slice(text.as_bytes())
}
