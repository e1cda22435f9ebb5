//! The text of a domain with a line more.

ghost use Rattle.lint_hints.specs.Hints.{first_action as action_in, with_line as text_with};
ghost use Rattle.sexpr_text.specs.Forest.{forest_of};
ghost use Rattle.std.specs.Prelude.{◌≡◌, ◌≤◌, IfOk, drop, length, take};

use lint_mistakes::sections_of;
use sexpr_text::{Form, Span, first_group};
use std::alloc::{AllocError, Global};

/// A text with a line put in before this byte.
pub(crate) fn with_line(
    alloc: Global,
    text: &[u8],
    start: usize,
    line: &[u8],
) -> Result<Vec<u8>, AllocError>
    requires { start ≤ length text.now }
    ensures { IfOk result (λ out. out.items ≡ text_with text.now start line.now) }
{
    let mut out = Vec::new(alloc);
    out.extend_from_slice(before(text, start))?;
    out.extend_from_slice(line)?;
    out.extend_from_slice(b"\n")?;
    out.extend_from_slice(after(text, start))?;
    Ok(out)
}

/// What comes before this byte.
fn before(text: &[u8], start: usize) -> &[u8]
    requires { start ≤ length text.now }
    ensures { result.now ≡ take start text.now }
{
    &text[..start]
}

/// What comes from this byte on.
fn after(text: &[u8], start: usize) -> &[u8]
    requires { start ≤ length text.now }
    ensures { result.now ≡ drop start text.now }
{
    &text[start..]
}

pub(crate) fn first_action(forms: &[Form]) -> Option<Span>
    ensures { result ≡ action_in (forest_of forms.now) }
{
    match first_group(sections_of(forms, b"domain"), b":action") {
        Some((span, _parts)) => Some(span),
        None => None,
    }
}
