//! Lines, each once.

ghost use Rattle.indexmap.specs.IndexSet.{insert_key};
ghost use Rattle.std.specs.List.{list_any};
ghost use Rattle.std.specs.Prelude.{◌≡◌, ◌++◌, IfOk, List, OnOk, map, ℕ};
ghost use Rattle.std.specs.List.{flat_map};
ghost use Rattle.std.specs.Str.{bytes_eq};
ghost use Rattle.rule_picture.specs.Values.{bytes_of};

use std::alloc::{AllocError, Global};

/// Puts a line after some, unless it is one of them.
pub(crate) fn add_line(lines: &mut Vec<Vec<u8>>, line: Vec<u8>) -> Result<(), AllocError>
    ensures { IfOk result (λ _. bytes_of lines.new.items
        ≡ insert_key bytes_eq (bytes_of lines.old.items) line.items) }
{
    if has_line(lines, &line) {
        return Ok(());
    }
    lines.push(line)?;
    Ok(())
}

fn has_line(lines: &[Vec<u8>], line: &[u8]) -> bool
    ensures { result ≡ list_any (bytes_eq line.now) (bytes_of lines.now) }
{
    for other in lines {
        if is_same(line, other) {
            return true;
        }
    }
    false
}

fn is_same(line: &[u8], other: &[u8]) -> bool
    ensures { result ≡ bytes_eq line.now other.now }
{
    line == other
}

pub(crate) fn push_lines(out: &mut Vec<u8>, lines: &[Vec<u8>]) -> Result<(), AllocError>
    ensures { OnOk result (out.new.items
        ≡ out.old.items ++ flat_map (λ (line : List ℕ). line) (bytes_of lines.now)) }
{
    for line in lines {
        out.extend_from_slice(line)?;
    }
    Ok(())
}
