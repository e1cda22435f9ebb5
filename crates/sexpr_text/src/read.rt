//! Reads the forms of a text.

ghost use Rattle.std.specs.Prelude.{◌≡◌, ◌≤◌, length, IfOk};
ghost use Rattle.sexpr_text.specs.declared.faults.InputFault.{InputFault};
ghost use Rattle.sexpr_text.specs.Spelling.{Spells};
ghost use Rattle.sexpr_text.specs.Faults.{HasFault};
ghost use Rattle.sexpr_text.specs.Formed.{IsFormed};

use crate::bytes::{Class, class_of};
use crate::faults::{FaultKind, InputFault, ReadErr};
use crate::forms::{Form, Place, Span};
use crate::nest::Nest;
use crate::scan::{comment_end, word_end};
use crate::texts::Text;
use std::alloc::Global;

/// The length of the longest text that is read.
pub const MAX_BYTES: usize = 1_048_576;

/// How many parentheses may be open at once.
pub const MAX_DEPTH: usize = 200;

/// The forms that the text spells, all of them and in order, or its first lexical fault, or want of
/// memory. A text either spells exactly one list of forms or has exactly one fault (`one_spelling`,
/// `one_fault`, `spelled_or_faulty`). The time that this takes grows with the length alone.
pub fn read_forms(alloc: Global, bytes: &[u8]) -> Result<Vec<Form>, ReadErr>
    requires { length bytes.now ≤ MAX_BYTES }
    ensures forms { IfOk result (λ forms. Spells bytes.now forms.items) }
    ensures formed { IfOk result (λ forms. IsFormed (length bytes.now) forms.items) }
    ensures fault { (f : InputFault) → result ≡ Err (ReadErr.Fault f) → HasFault bytes.now f }
{
    let mut nest = Nest::new(alloc);
    let mut at = 0;
    let mut line: u32 = 1;
    let mut line_start = 0;
    while at < bytes.len() {
        let place = Place {
            line,
            column: (at - line_start + 1) as u32,
        };
        match class_of(bytes[at]) {
            Class::LineFeed => {
                at += 1;
                line += 1;
                line_start = at;
            }
            Class::Space => at += 1,
            Class::Semicolon => at = comment_end(bytes, at),
            Class::Open => {
                if nest.depth() == MAX_DEPTH {
                    return fault(FaultKind::TooDeep, place);
                }
                nest.open(alloc, at as u32, place)?;
                at += 1;
            }
            Class::Close => {
                if nest.depth() == 0 {
                    return fault(FaultKind::StrayClose, place);
                }
                at += 1;
                nest.close(at as u32)?;
            }
            Class::OfWord => {
                let end = word_end(bytes, at);
                let span = Span {
                    start: at as u32,
                    end: end as u32,
                    place,
                };
                let text = Text::in_lower_case(alloc, &bytes[at..end])?;
                nest.add_word(span, text)?;
                at = end;
            }
            Class::Bad => return fault(FaultKind::BadByte, place),
        }
    }
    match nest.first_open() {
        Some(place) => fault(FaultKind::OpenAtEnd, place),
        None => Ok(nest.parts),
    }
}

// The refusal for this fault.
fn fault(kind: FaultKind, place: Place) -> Result<Vec<Form>, ReadErr>
    ensures { result ≡ Err (ReadErr.Fault (record { kind = kind; place = place })) }
{
    Err(ReadErr::Fault(InputFault { kind, place }))
}
