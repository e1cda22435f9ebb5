//! The number of a step.

ghost use Rattle.state_text.specs.Texts.{number_text};
ghost use Rattle.std.specs.Prelude.{◌≡◌, ◌++◌, OnOk, string_bytes};

use plan_rules::push_number;
use std::alloc::AllocError;

/// Appends the number of a step.
pub fn push_step_number(out: &mut String, number: usize) -> Result<(), AllocError>
    ensures { OnOk result (string_bytes out.new ≡ string_bytes out.old ++ number_text number) }
{
    out.push_str("step ")?;
    push_number(out, number)?;
    out.push_str(", ")
}
