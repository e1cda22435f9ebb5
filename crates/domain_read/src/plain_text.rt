//! Plain texts.

ghost use Rattle.std.specs.Prelude.{◌≡◌, ◌≤◌, ◌++◌, [], IfOk, IfErr, Some, length};
ghost use Rattle.sexpr_text.specs.Forest.{forest_of};
ghost use Rattle.sexpr_text.specs.Flaws.{first_listed};
ghost use Rattle.sexpr_text.specs.Passes.{IfFault};
ghost use Rattle.domain_read.specs.Edits as edits;
ghost use Rattle.domain_read.specs.Faults as faults;
ghost use Rattle.domain_read.specs.Plain as plain;
ghost use Rattle.domain_read.specs.Plain.{IsPlainOf, HasPlainFault};

use crate::checks::check_row;
use crate::edits::edit_row;
use crate::roles::text_role;
use sexpr_text::{
    FaultKind, Form, InputFault, MAX_BYTES, MAX_DEPTH, Place, ReadErr, first_definition, read_forms,
};
use std::alloc::Global;

// Finds that no list defines a domain.
fn check_definition(forms: &[Form]) -> Result<(), ReadErr>
    ensures sound { IfOk result (λ _. plain.definition_flaws (forest_of forms.now) ≡ []) }
    ensures fault { IfErr result
        (λ e. IfFault e (λ f. first_listed (plain.definition_flaws (forest_of forms.now))
        ≡ Some f)) }
{
    match first_definition(forms, b"domain") {
        Some(_) => Ok(()),
        None => Err(ReadErr::Fault(InputFault {
            kind: FaultKind::NoDefine,
            place: Place { line: 1, column: 1 },
        })),
    }
}

// The plain text of bytes with these forms, or the first flaw of the forms.
fn edited_text(alloc: Global, bytes: &[u8], forms: &[Form]) -> Result<Vec<u8>, ReadErr>
    ensures sound { IfOk result
        (λ _. plain.definition_flaws (forest_of forms.now) ++ faults.text_flaws
        (forest_of forms.now) ≡ []) }
    ensures exact { IfOk result
        (λ text. text.items ≡ edits.plain_text (forest_of forms.now) bytes.now) }
    ensures fault { IfErr result
        (λ e. IfFault e (λ f. first_listed
        (plain.definition_flaws (forest_of forms.now) ++ faults.text_flaws (forest_of forms.now))
        ≡ Some f)) }
{
    check_definition(forms)?;
    let role = text_role(forms);
    check_row(MAX_DEPTH, role, forms)?;
    let mut text = Vec::from_slice(alloc, bytes)?;
    edit_row(&mut text, role, forms);
    Ok(text)
}

/// The plain text of a domain's text, or the first fault of the lexis, of the list that defines the
/// domain, or of the recognised lists, or want of memory. It has the same length, and every form
/// that stays has its place, so that a later fault of it stands where it does in the original. The
/// time that this takes grows with the length alone.
pub fn plain(alloc: Global, bytes: &[u8]) -> Result<Vec<u8>, ReadErr>
    requires { length bytes.now ≤ MAX_BYTES }
    ensures length { IfOk result (λ text. length text.items ≡ length bytes.now) }
    ensures plain { IfOk result (λ text. IsPlainOf bytes.now text.items) }
    ensures fault { IfErr result (λ e. IfFault e (λ f. HasPlainFault bytes.now f)) }
{
    match read_forms(alloc, bytes) {
        Ok(forms) => edited_text(alloc, bytes, &forms),
        Err(error) => Err(error),
    }
}
