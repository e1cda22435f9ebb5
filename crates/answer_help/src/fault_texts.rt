//! What is printed below the line of a fault: the line of the file, a caret, the word there and
//! what the kind of fault means.

ghost use Rattle.answer_help.specs.FaultHelp.{
  after_line as text_after_line,
  after_lines as text_after_lines,
  below_mark as mark_below,
  blank_below as below,
  caret_line as caret_below,
  cut_mark as mark_of_cut,
  end_mark as mark_at_end,
  fault_help as help_of,
  first_line as line_at_front,
  length_before,
  quoted_word as word_quoted,
  shown_byte as byte_shown,
  shown_from as first_shown,
  shown_line as line_shown,
  shown_part as part_shown,
  word_at as word_at_front,
};
ghost use Rattle.sexpr_text.specs.Lexis.{is_line_feed, is_word_byte};
ghost use Rattle.std.specs.Prelude.{
  ◌≡◌,
  ◌≤◌,
  ◌-◌,
  ◌++◌,
  ◌<◌,
  IfOk,
  IfSome,
  map,
  position,
  drop,
  length,
  not,
  take,
};

use crate::fault_kinds::meaning_of;
use sexpr_text::InputFault;
use std::alloc::{AllocError, Global};

/// The most bytes of a line that are shown.
const MOST_OF_LINE: usize = 120;

/// How many of them stand before the column.
const MOST_BEFORE: usize = 60;

/// What is printed below the line of a fault of a file with these bytes.
pub fn fault_help(alloc: Global, bytes: &[u8], fault: &InputFault) -> Result<Vec<u8>, AllocError>
    ensures { IfOk result (λ help. help.items ≡ help_of bytes.now fault.now) }
{
    let line = first_line(after_lines(bytes, fault.place.line.saturating_sub(1)));
    let before = fault.place.column.saturating_sub(1) as usize;
    let mut help = shown_line(alloc, line, before)?;
    help.extend_from_slice(&caret_line(alloc, line, before)?)?;
    help.extend_from_slice(&quoted_word(alloc, word_at(from(line, before)))?)?;
    help.extend_from_slice(meaning_of(&fault.kind).as_bytes())?;
    help.push(b'\n')?;
    Ok(help)
}

/// The text after so many lines.
fn after_lines(text: &[u8], lines: u32) -> &[u8]
    ensures { result.now ≡ text_after_lines lines text.now }
{
    let mut rest = text;
    for _line in 0..lines {
        rest = after_line(rest);
    }
    rest
}

/// The text after its first line.
fn after_line(text: &[u8]) -> &[u8]
    ensures { result.now ≡ text_after_line text.now }
{
    from(text, line_length(text) + 1)
}

/// The first line of a text, without its end.
fn first_line(text: &[u8]) -> &[u8]
    ensures { result.now ≡ line_at_front text.now }
{
    &text[..line_length(text)]
}

/// How many bytes the first line of a text has.
fn line_length(text: &[u8]) -> usize
    ensures length { result ≡ length_before is_line_feed text.now }
    ensures within { result ≤ length text.now }
{
    match line_feed_in(text) {
        Some(end) => end,
        None => text.len(),
    }
}

/// Where the first line feed of a text is.
fn line_feed_in(text: &[u8]) -> Option<usize>
    ensures place { result ≡ position is_line_feed text.now }
    ensures within { IfSome result (λ end. end < length text.now) }
{
    text.iter().position(|byte| *byte == b'\n')
}

/// What is left of a text after so many bytes.
fn from(text: &[u8], count: usize) -> &[u8]
    ensures { result.now ≡ drop count text.now }
{
    if count < text.len() {
        &text[count..]
    } else {
        &text[text.len()..]
    }
}

/// The word at the front of a text: its first byte, and the bytes of words that follow.
fn word_at(text: &[u8]) -> &[u8]
    ensures { result.now ≡ word_at_front text.now }
{
    front(text, 1 + word_length(from(text, 1)))
}

/// How many bytes of words are at the front of a text.
fn word_length(text: &[u8]) -> usize
    ensures length { result ≡ length_before (λ byte. not (is_word_byte byte)) text.now }
    ensures within { result ≤ length text.now }
{
    match word_end_in(text) {
        Some(end) => end,
        None => text.len(),
    }
}

/// Where the first byte of a text is that is none of a word.
fn word_end_in(text: &[u8]) -> Option<usize>
    ensures place { result ≡ position (λ byte. not (is_word_byte byte)) text.now }
    ensures within { IfSome result (λ end. end < length text.now) }
{
    text.iter().position(|byte| !is_in_word(*byte))
}

/// At most so many bytes from the front of a text.
fn front(text: &[u8], count: usize) -> &[u8]
    ensures { result.now ≡ take count text.now }
{
    &text[..count.min(text.len())]
}

/// Whether a byte is one of a word.
fn is_in_word(byte: u8) -> bool
    ensures { result ≡ is_word_byte byte }
{
    33 <= byte && byte <= 126 && byte != b'(' && byte != b')' && byte != b';'
}

/// Where the part of a line begins that is shown, for a fault after so many bytes of the line.
fn shown_from(line: &[u8], before: usize) -> usize
    ensures { result ≡ first_shown line.now before }
{
    if line.len() <= MOST_OF_LINE {
        return 0;
    }
    before.saturating_sub(MOST_BEFORE).min(line.len())
}

/// The part of a line from there on that is shown.
fn shown_part(line: &[u8], start: usize) -> &[u8]
    ensures { result.now ≡ part_shown line.now start }
{
    front(from(line, start), MOST_OF_LINE)
}

/// A byte as it is shown.
fn shown_byte(byte: u8) -> u8
    ensures { result ≡ byte_shown byte }
{
    if byte == b'\t' || (32 <= byte && byte <= 126) {
        byte
    } else {
        b'?'
    }
}

/// What stands below a byte before the caret.
fn blank_below(byte: u8) -> u8
    ensures { result ≡ below byte }
{
    if byte == b'\t' { b'\t' } else { b' ' }
}

/// What stands for the part that is left out before the part that is shown.
fn cut_mark(start: usize) -> &'static [u8]
    ensures { result.now ≡ mark_of_cut start }
{
    if start == 0 { b"" } else { b".. " }
}

/// What stands below that.
fn below_mark(start: usize) -> &'static [u8]
    ensures { result.now ≡ mark_below start }
{
    if start == 0 { b"" } else { b"   " }
}

/// What stands for the part that is left out after the part that is shown.
fn end_mark(line: &[u8], start: usize) -> &'static [u8]
    ensures { result.now ≡ mark_at_end line.now start }
{
    if line.len() <= start.saturating_add(MOST_OF_LINE) {
        b""
    } else {
        b" .."
    }
}

/// The line of a fault, as far as it is shown, with its end.
fn shown_line(alloc: Global, line: &[u8], before: usize) -> Result<Vec<u8>, AllocError>
    ensures { IfOk result (λ shown. shown.items ≡ line_shown line.now before) }
{
    let start = shown_from(line, before);
    let part = shown_bytes(alloc, shown_part(line, start))?;
    let mut shown = Vec::from_slice(alloc, cut_mark(start))?;
    shown.extend_from_slice(&part)?;
    shown.extend_from_slice(end_mark(line, start))?;
    shown.push(b'\n')?;
    Ok(shown)
}

/// The bytes as they are shown.
fn shown_bytes(alloc: Global, bytes: &[u8]) -> Result<Vec<u8>, AllocError>
    ensures { IfOk result (λ shown. shown.items ≡ map byte_shown bytes.now) }
{
    bytes.iter().map(|byte| shown_byte(*byte)).collect(alloc)
}

/// The line with the caret, with its end.
fn caret_line(alloc: Global, line: &[u8], before: usize) -> Result<Vec<u8>, AllocError>
    ensures { IfOk result (λ shown. shown.items ≡ caret_below line.now before) }
{
    let start = shown_from(line, before);
    let part = front(shown_part(line, start), before.saturating_sub(start));
    let blanks = blanks_below(alloc, part)?;
    let mut shown = Vec::from_slice(alloc, below_mark(start))?;
    shown.extend_from_slice(&blanks)?;
    shown.push(b'^')?;
    shown.push(b'\n')?;
    Ok(shown)
}

/// What stands below the bytes before the caret.
fn blanks_below(alloc: Global, bytes: &[u8]) -> Result<Vec<u8>, AllocError>
    ensures { IfOk result (λ blanks. blanks.items ≡ map below bytes.now) }
{
    bytes.iter().map(|byte| blank_below(*byte)).collect(alloc)
}

/// The word between quotes; nothing where there is none.
fn quoted_word(alloc: Global, word: &[u8]) -> Result<Vec<u8>, AllocError>
    ensures { IfOk result (λ quoted. quoted.items ≡ word_quoted word.now) }
{
    if word.is_empty() {
        return Ok(Vec::new(alloc));
    }
    let shown = shown_bytes(alloc, front(word, MOST_BEFORE))?;
    let mut quoted = Vec::from_slice(alloc, b"`")?;
    quoted.extend_from_slice(&shown)?;
    quoted.extend_from_slice(b"`: ")?;
    Ok(quoted)
}
