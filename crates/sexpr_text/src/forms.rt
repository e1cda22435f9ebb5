//! Forms: words and groups, each with its span.

ghost use Rattle.std.specs.Prelude.{◌≡◌};
ghost use Rattle.sexpr_text.specs.Forest.{span_of};

use crate::texts::Text;

/// Where a byte stands. The line is 1 plus the number of line feeds before it; the column is 1 plus
/// the number of bytes since the last of them, or since the start of the text.
#[derive(Clone, Copy, Debug, PartialEq, Eq)]
pub struct Place {
    pub line: u32,
    pub column: u32,
}

/// What a form takes up of its text: the offset of its first byte, the offset after its last byte,
/// and the place of its first byte.
#[derive(Clone, Copy, Debug, PartialEq, Eq)]
pub struct Span {
    pub start: u32,
    pub end: u32,
    pub place: Place,
}

/// A word with its text in lower case, or a parenthesized group with its parts in order.
#[derive(Debug, Drop)]
pub enum Form {
    Word(Span, Text),
    Group(Span, Vec<Form>),
}

impl Form {
    /// What the form takes up of its text.
    pub fn span(&self) -> Span
        ensures { result ≡ span_of self.now }
    {
        match self {
            Form::Word(span, _) => *span,
            Form::Group(span, _) => *span,
        }
    }
}
