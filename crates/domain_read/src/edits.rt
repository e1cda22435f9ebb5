//! The edits that make a plain text.

ghost use Rattle.std.specs.Prelude.{◌≡◌};
ghost use Rattle.sexpr_text.specs.Forest.{forest_of};
ghost use Rattle.domain_read.specs.Edits as edits;
ghost use Rattle.domain_read.specs.Edits.{Edit};

use crate::roles::Role;
use sexpr_text::{Form, Span, View};

// A byte that becomes a space, but for a line feed.
fn blank(byte: u8) -> u8
    ensures { result ≡ edits.blank byte }
{
    if byte == b'\n' { b'\n' } else { b' ' }
}

// What a byte becomes that stands so far into the span over which these bytes are written.
fn byte_within(bytes: &[u8], place: usize, byte: u8) -> u8
    ensures { result ≡ edits.byte_within bytes.now place byte }
{
    if place < bytes.len() {
        bytes[place]
    } else {
        blank(byte)
    }
}

// Writes these bytes over those of the span, and spaces after them; line feeds there stay.
fn overwrite(text: &mut [u8], span: Span, bytes: &[u8])
    ensures { text.new ≡ edits.edited (record { span = span; text = bytes.now }) text.old }
{
    let start = span.start as usize;
    let end = (span.end as usize).min(text.len());
    for place in start..end {
        text[place] = byte_within(bytes, place - start, text[place]);
    }
}

// Edits a word of this role.
fn edit_word(text: &mut [u8], role: Role, span: Span)
    ensures { text.new ≡ edits.all_edited (edits.word_edits role span) text.old }
{
    match role {
        Role::Choice(true) => overwrite(text, span, b"oneof ()"),
        Role::Choice(false) => overwrite(text, span, b"oneof"),
        Role::Weight | Role::Dropped => overwrite(text, span, b""),
        _ => {}
    }
}

// Edits a group of this role.
#[cycle(editing)]
fn edit_group(text: &mut [u8], role: Role, span: Span, parts: &[Form])
    ensures { text.new ≡ edits.all_edited (edits.group_edits role span (forest_of parts.now))
        text.old }
{
    if role.is_left_out() {
        overwrite(text, span, b"");
    } else {
        edit_row(text, role.inner(parts), parts);
    }
}

/// Edits the forms of a row, of which the first has this role.
#[cycle(editing)]
pub fn edit_row(text: &mut [u8], role: Role, row: &[Form])
    ensures { text.new ≡ edits.all_edited (edits.edits role (forest_of row.now)) text.old }
{
    let mut current = role;
    for form in row {
        match form.view() {
            View::Word(span, word) => {
                edit_word(text, current, span);
                current = current.after_word(word);
            }
            View::Group(span, parts) => {
                edit_group(text, current, span, parts);
                current = current.after_group(parts);
            }
        }
    }
}
