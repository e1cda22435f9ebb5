//! A line that counts.

ghost use Rattle.command_base.specs.CountLines.{count_line};
ghost use Rattle.std.specs.Prelude.{◌≡◌, ◌++◌, OnOk, string_bytes};

use std::alloc::AllocError;

/// Appends a line with a word and a number.
pub fn push_count(out: &mut String, word: &str, count: usize) -> Result<(), AllocError>
    ensures { OnOk result
        (string_bytes out.new ≡ string_bytes out.old ++ count_line word.now count) }
{
    out.push_str(word)?;
    out.push(' ')?;
    out.push_str(itoa::Buffer::new().format(count))?;
    out.push('\n')
}
