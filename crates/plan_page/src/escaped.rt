//! JSON without bytes that HTML gives a meaning.

ghost use Rattle.plan_page.specs.Pages.{escaped as escaped_text, escaped_byte};
ghost use Rattle.std.specs.Prelude.{◌≡◌, ◌++◌, OnOk};

use plan_picture::push_text;
use std::alloc::AllocError;

/// Appends JSON, with `<`, `>` and `&` as their escapes.
pub(crate) fn push_escaped(out: &mut Vec<u8>, bytes: &[u8]) -> Result<(), AllocError>
    ensures { OnOk result (out.new.items ≡ out.old.items ++ escaped_text bytes.now) }
{
    for byte in bytes {
        push_byte(out, *byte)?;
    }
    Ok(())
}

/// Appends a byte of JSON, or its escape.
fn push_byte(out: &mut Vec<u8>, byte: u8) -> Result<(), AllocError>
    ensures { OnOk result (out.new.items ≡ out.old.items ++ escaped_byte byte) }
{
    match byte {
        b'<' => push_text(out, "\\u003c")?,
        b'>' => push_text(out, "\\u003e")?,
        b'&' => push_text(out, "\\u0026")?,
        _ => out.push(byte)?,
    }
    Ok(())
}
