//! Rows of groups, each of which stands for an item.

ghost use Rattle.std.specs.Prelude.{◌≡◌, List, [], map, IfOk, IfErr, Some};
ghost use Rattle.sexpr_text.specs.declared.forms.Span.{Span};
ghost use Rattle.sexpr_text.specs.Forest.{Forest, forest_of};
ghost use Rattle.sexpr_text.specs.Flaws.{Flaw, flaw_at, first_listed};
ghost use Rattle.sexpr_text.specs.Parts.{each_group, flaws_of_groups};
ghost use Rattle.sexpr_text.specs.Passes.{IfFault};

use crate::faults::{FaultKind, InputFault, ReadErr};
use crate::forms::{Form, Span};
use crate::parts::View;
use std::alloc::Global;

/// The fault of this kind at a form, which is placed where the form begins.
pub fn fault_at(span: Span, kind: FaultKind) -> ReadErr
    ensures { result ≡ ReadErr.Fault (flaw_at span kind).fault }
{
    ReadErr::Fault(InputFault {
        kind,
        place: span.place,
    })
}

/// A reader of one group. `Tree` is the plain tree of an item; `tree` says what a group's parts
/// stand for, and `flaws` what is wrong in a group with this span and these parts, in the order of
/// the text.
pub trait GroupReader {
    type Item: Drop;

    ghost Tree: { Type 0 };

    ghost plain: { Self.Item → Tree };

    ghost tree: { Self → Forest → Tree };

    ghost flaws: { Self → Span → Forest → List Flaw };

    /// The item that the group stands for, or the first of its flaws.
    fn read(&self, alloc: Global, span: Span, parts: &[Form]) -> Result<Self::Item, ReadErr>
        ensures sound { IfOk result (λ item. flaws self.now span (forest_of parts.now) ≡ []) }
        ensures read { IfOk result (λ item. plain item ≡ tree self.now (forest_of parts.now)) }
        ensures fault { IfErr result (λ e. IfFault e (λ fault.
            first_listed (flaws self.now span (forest_of parts.now)) ≡ Some fault)) };
}

/// The items that the groups of a row stand for, in order, or the first flaw: a word in the row, or
/// one of a group.
pub fn read_groups<R: GroupReader>(
    alloc: Global,
    reader: &R,
    row: &[Form],
) -> Result<Vec<R::Item>, ReadErr>
    ensures sound { IfOk result
        (λ items. flaws_of_groups (R.flaws reader.now) (forest_of row.now) ≡ []) }
    ensures read { IfOk result (λ items.
        map R.plain items.items ≡ each_group (R.tree reader.now) (forest_of row.now)) }
    ensures fault { IfErr result (λ e. IfFault e (λ fault.
        first_listed (flaws_of_groups (R.flaws reader.now) (forest_of row.now)) ≡ Some fault)) }
{
    let mut items = Vec::new(alloc);
    for form in row {
        match form.view() {
            View::Word(span, _) => return Err(fault_at(span, FaultKind::BadForm)),
            View::Group(span, parts) => items.push(reader.read(alloc, span, parts)?)?,
        }
    }
    Ok(items)
}
