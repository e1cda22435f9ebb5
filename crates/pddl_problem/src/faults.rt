//! Refusals.

ghost use Rattle.std.specs.Prelude.{◌≡◌};
ghost use Rattle.sexpr_text.specs.Passes.{IfFault};

use sexpr_text::{FaultKind, ReadErr, Span, Text, fault_at};
use std::alloc::Global;

/// The refusal of a list with this word at its head, which is left out.
pub(crate) fn left_out(alloc: Global, span: Span, head: &Text) -> ReadErr
    ensures { IfFault result (λ f. f ≡ record {
      kind = FaultKind.LeftOut head.now;
      place =
          span.place;
    }) }
{
    match Text::new(alloc, head.as_bytes()) {
        Ok(word) => fault_at(span, FaultKind::LeftOut(word)),
        Err(_) => ReadErr::Memory,
    }
}
