//! Lists with a word at their head.

use sexpr_text::{Form, Span, Text};

/// A list with a word at its head: its span, the span of the word, the word, and what follows it.
#[derive(Clone, Copy, Debug)]
pub struct HeadedList<'a> {
    pub span: Span,
    pub head_span: Span,
    pub head: &'a Text,
    pub rest: &'a [Form],
}
