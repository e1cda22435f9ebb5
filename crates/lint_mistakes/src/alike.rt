//! Rows that are the same where two words count as one.

ghost use Rattle.lint_mistakes.specs.Equal as equal;
ghost use Rattle.lint_mistakes.specs.Values.{pair_value};
ghost use Rattle.sexpr_text.specs.Forest.{forest_of};
ghost use Rattle.std.specs.Option.{option_map};
ghost use Rattle.std.specs.Prelude.{◌≡◌};

use crate::rows::after_first;
use sexpr_text::{Form, Head, Span, Text, View, begins_with, head_of, is_nothing};

/// Two words, each with its span.
#[derive(Clone, Copy)]
pub(crate) struct Pair<'a> {
    pub(crate) kept: &'a Text,
    pub(crate) other: &'a Text,
    pub(crate) kept_span: Span,
    pub(crate) other_span: Span,
}

impl Pair<'_> {
    /// Whether two words are the same, or the two words of the pair.
    fn is_same(&self, text: &Text, other: &Text) -> bool
        ensures { result ≡ equal.is_same_under (pair_value self.now) text.now other.now }
    {
        text.is(other.as_bytes()) || self.are_words(text, other) || self.are_words(other, text)
    }

    /// Whether these are the words of the pair, in their order.
    fn are_words(&self, text: &Text, other: &Text) -> bool
        ensures { result ≡ equal.are_words (pair_value self.now) text.now other.now }
    {
        text.is(self.kept.as_bytes()) && other.is(self.other.as_bytes())
    }

    /// Whether two rows have the same words in the same lists, where the pair counts as one word.
    pub(crate) fn same_under(&self, row: &[Form], other: &[Form]) -> bool
        ensures { result ≡ equal.same_under (pair_value self.now) (forest_of row.now)
            (forest_of other.now) }
    {
        let mut rest = row;
        let mut others = other;
        loop {
            match head_of(rest) {
                Head::Nothing => return is_nothing(others),
                Head::Word(_span, text, after) => match head_of(others) {
                    Head::Word(_place, word, next) => {
                        if !self.is_same(text, word) {
                            return false;
                        }
                        rest = after;
                        others = next;
                    }
                    _ => return false,
                },
                Head::Group(_span, parts, after) => match head_of(others) {
                    Head::Group(_place, inner, next) => {
                        if !self.same_under(parts, inner) {
                            return false;
                        }
                        rest = after;
                        others = next;
                    }
                    _ => return false,
                },
            }
        }
    }

    /// Whether a list of the row has the same words as these parts, and doesn't name the second word.
    fn has_alike(&self, parts: &[Form], row: &[Form]) -> bool
        ensures { result
            ≡ equal.has_alike (pair_value self.now) (forest_of parts.now) (forest_of row.now) }
    {
        for form in row {
            if let View::Group(_span, other) = form.view() {
                if self.is_alike(parts, other) {
                    return true;
                }
            }
        }
        false
    }

    /// The same of a list with these parts.
    fn is_alike(&self, parts: &[Form], other: &[Form]) -> bool
        ensures { result
            ≡ equal.is_alike (pair_value self.now) (forest_of parts.now) (forest_of other.now) }
    {
        !has_word(self.other, other) && self.same_under(parts, other)
    }

    /// Whether the part of a condition says nothing of the second word that the condition doesn't say
    /// of the first.
    fn says_no_more(&self, parts: &[Form], row: &[Form]) -> bool
        ensures { result ≡ equal.says_no_more (pair_value self.now) (forest_of parts.now)
            (forest_of row.now) }
    {
        !has_word(self.other, parts) || self.has_alike(parts, row)
    }

    fn each_says_no_more(&self, parts: &[Form], row: &[Form]) -> bool
        ensures { result ≡ equal.each_says_no_more (pair_value self.now) (forest_of parts.now)
            (forest_of row.now) }
    {
        for form in parts {
            if let View::Group(_span, part) = form.view() {
                if !self.says_no_more(part, row) {
                    return false;
                }
            }
        }
        true
    }

    /// Whether the condition with these parts holds with one object for both words, wherever it holds of
    /// the first.
    pub(crate) fn leaves_equal(&self, condition: &[Form]) -> bool
        ensures { result ≡ equal.leaves_equal (pair_value self.now) (forest_of condition.now) }
    {
        if begins_with(condition, b"and") {
            let parts = after_first(condition);
            self.each_says_no_more(parts, parts)
        } else {
            !has_word(self.other, condition)
        }
    }
}

/// Whether a word stands in the row, at any depth.
fn has_word(name: &Text, row: &[Form]) -> bool
    ensures { result ≡ equal.has_word name.now (forest_of row.now) }
{
    let mut rest = row;
    loop {
        match head_of(rest) {
            Head::Nothing => return false,
            Head::Word(_span, text, after) => {
                if text.is(name.as_bytes()) {
                    return true;
                }
                rest = after;
            }
            Head::Group(_span, parts, after) => {
                if has_word(name, parts) {
                    return true;
                }
                rest = after;
            }
        }
    }
}

/// The first words in which two rows of words differ.
pub(crate) fn difference<'a>(row: &'a [Form], other: &'a [Form]) -> Option<Pair<'a>>
    ensures { option_map pair_value result
        ≡ equal.difference (forest_of row.now) (forest_of other.now) }
{
    let mut rest = row;
    let mut others = other;
    loop {
        match head_of(rest) {
            Head::Word(kept_span, kept, after) => match head_of(others) {
                Head::Word(other_span, other, next) => {
                    if !kept.is(other.as_bytes()) {
                        return Some(Pair {
                            kept,
                            other,
                            kept_span,
                            other_span,
                        });
                    }
                    rest = after;
                    others = next;
                }
                _ => return None,
            },
            _ => return None,
        }
    }
}
