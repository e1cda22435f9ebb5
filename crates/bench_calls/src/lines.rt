//! What is said of a file.

use sexpr_text::{InputFault, ReadErr, Text};
use std::alloc::AllocError;
use std::fmt::Write;

/// Adds `FILE: ok`, or with a refusal `FILE:LINE:COLUMN: CODE NAME` and the word that the fault
/// has, or `FILE: out of memory`; and a line feed.
pub fn push_line(
    lines: &mut String,
    file: &str,
    refusal: Option<&ReadErr>,
) -> Result<(), AllocError> {
    lines.push_str(file)?;
    match refusal {
        None => lines.push_str(": ok")?,
        Some(ReadErr::Memory) => lines.push_str(": out of memory")?,
        Some(ReadErr::Fault(fault)) => push_fault(lines, fault)?,
    }
    lines.push('\n')
}

fn push_fault(line: &mut String, fault: &InputFault) -> Result<(), AllocError> {
    let (place, kind) = (fault.place, &fault.kind);
    let (code, name) = (kind.code(), kind.name());
    write!(line, ":{}:{}: {code} {name}", place.line, place.column)?;
    match kind.word() {
        Some(word) => push_word(line, word),
        None => Ok(()),
    }
}

fn push_word(line: &mut String, word: &Text) -> Result<(), AllocError> {
    line.push(' ')?;
    for byte in word.as_bytes() {
        line.push(char::from(*byte))?;
    }
    Ok(())
}
