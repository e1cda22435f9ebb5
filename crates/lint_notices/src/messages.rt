//! What is told of each mistake.

ghost use Rattle.lint_notices.specs.Notices.{
  equal_text,
  kind_word as word_of_kind,
  message,
  never_true_text,
  never_used_text,
  notice_of as notice_for,
  quoted,
  text_at as bytes_at,
  type_name as name_of_type,
  word_at as word_of_span,
  wrong_type_text,
};
ghost use Rattle.lint_notices.specs.Values.{notice_value, source_value};
ghost use Rattle.std.specs.Prelude.{◌≡◌, ◌++◌, IfOk, OnOk, map, string_bytes};

use crate::notices::Notice;
use lint_mistakes::{Mistake, MistakeKind};
use pddl_ast::TypeId;
use sexpr_text::{Span, Text};
use std::alloc::{AllocError, Global};

/// A file, and the names of the domain's types.
#[derive(Clone, Copy)]
pub struct Source<'a> {
    /// Whether it is the file of the problem.
    pub in_problem: bool,
    pub text: &'a [u8],
    pub types: &'a [Text],
}

/// Adds what is told of the mistakes in a file.
pub fn add_notices(
    alloc: Global,
    notices: &mut Vec<Notice>,
    source: &Source<'_>,
    mistakes: &[Mistake],
) -> Result<(), AllocError>
    ensures { OnOk result (map notice_value notices.new.items
        ≡ map notice_value notices.old.items
        ++ map (notice_for (source_value source.now)) mistakes.now) }
{
    for mistake in mistakes {
        notices.push(notice_of(alloc, source, mistake)?)?;
    }
    Ok(())
}

fn notice_of(alloc: Global, source: &Source<'_>, mistake: &Mistake) -> Result<Notice, AllocError>
    ensures { IfOk result
        (λ notice. notice_value notice ≡ notice_for (source_value source.now) mistake.now) }
{
    Ok(Notice {
        in_problem: source.in_problem,
        place: mistake.span.place,
        kind: kind_word(mistake.kind),
        message: message_of(alloc, source, mistake)?,
    })
}

fn kind_word(kind: MistakeKind) -> &'static str
    ensures { result.now ≡ word_of_kind kind }
{
    match kind {
        MistakeKind::WrongType(_, _) => "wrong-type",
        MistakeKind::NeverUsed => "never-used",
        MistakeKind::Copied => "copied-outcome",
        MistakeKind::Idle => "idle-effect",
        MistakeKind::NeverTrue => "never-true",
        MistakeKind::MayBeEqual(_, _) => "equal-parameters",
    }
}

/// What is the matter, in a sentence.
fn message_of(alloc: Global, source: &Source<'_>, mistake: &Mistake) -> Result<String, AllocError>
    ensures { IfOk result
        (λ text. string_bytes text ≡ message (source_value source.now) mistake.now) }
{
    let word = word_at(alloc, source.text, mistake.span)?;
    match mistake.kind {
        MistakeKind::WrongType(found, declared) => {
            wrong_type(alloc, source.types, &word, found, declared)
        }
        MistakeKind::NeverUsed => never_used(alloc, &word),
        MistakeKind::Copied => String::from_str(alloc, "this outcome stands twice in its choice"),
        MistakeKind::Idle => String::from_str(
            alloc,
            "this effect changes nothing: the precondition already demands it",
        ),
        MistakeKind::NeverTrue => never_true(alloc, &word),
        MistakeKind::MayBeEqual(kept, other) => may_be_equal(alloc, source.text, kept, other),
    }
}

/// The word with this span, as a message names it.
pub(crate) fn word_at(alloc: Global, text: &[u8], span: Span) -> Result<String, AllocError>
    ensures { IfOk result (λ word. string_bytes word ≡ word_of_span text.now span) }
{
    String::from_utf8_lossy(alloc, text_at(text, span))
}

/// That two words with these spans may be one object.
fn may_be_equal(alloc: Global, text: &[u8], kept: Span, other: Span) -> Result<String, AllocError>
    ensures { IfOk result (λ message. string_bytes message
        ≡ equal_text (word_of_span text.now kept) (word_of_span text.now other)) }
{
    let word = word_at(alloc, text, kept)?;
    equal_to(alloc, &word, text, other)
}

/// That a word and the one with this span may be one object.
fn equal_to(alloc: Global, word: &str, text: &[u8], other: Span) -> Result<String, AllocError>
    ensures { IfOk result (λ message. string_bytes message
        ≡ equal_text word.now (word_of_span text.now other)) }
{
    let other = word_at(alloc, text, other)?;
    let mut out = sentence(alloc, word, "` and `")?;
    out.push_str(&other)?;
    out.push_str("` may be the same object: then the effect deletes this atom and adds it again")?;
    Ok(out)
}

fn never_used(alloc: Global, word: &str) -> Result<String, AllocError>
    ensures { IfOk result (λ text. string_bytes text ≡ never_used_text word.now) }
{
    sentence(
        alloc,
        word,
        "` is never used: no action, invariant or goal names it",
    )
}

fn never_true(alloc: Global, word: &str) -> Result<String, AllocError>
    ensures { IfOk result (λ text. string_bytes text ≡ never_true_text word.now) }
{
    sentence(
        alloc,
        word,
        "` is never true: `:init` does not name it, and no effect makes it true",
    )
}

/// A sentence about a word, which begins with it between quotes.
pub(crate) fn sentence(alloc: Global, word: &str, end: &str) -> Result<String, AllocError>
    ensures { IfOk result (λ text. string_bytes text ≡ quoted word.now end.now) }
{
    let mut out = String::from_str(alloc, "`")?;
    out.push_str(word)?;
    out.push_str(end)?;
    Ok(out)
}

/// That an object or a variable is of another type than the predicate declares.
fn wrong_type(
    alloc: Global,
    types: &[Text],
    word: &str,
    found: TypeId,
    declared: TypeId,
) -> Result<String, AllocError>
    ensures { IfOk result
        (λ text. string_bytes text ≡ wrong_type_text types.now word.now found declared) }
{
    let found = type_name(alloc, types, found)?;
    let declared = type_name(alloc, types, declared)?;
    let mut out = sentence(alloc, word, "` is of type `")?;
    out.push_str(&found)?;
    out.push_str("`, and the predicate takes type `")?;
    out.push_str(&declared)?;
    out.push_str("` here")?;
    Ok(out)
}

fn type_name(alloc: Global, types: &[Text], number: TypeId) -> Result<String, AllocError>
    ensures { IfOk result (λ text. string_bytes text ≡ name_of_type types.now number) }
{
    match types.get(number) {
        Some(name) => String::from_utf8_lossy(alloc, name.as_bytes()),
        None => Ok(String::new(alloc)),
    }
}

/// What a form takes up of its text; nothing where the text ends before.
pub fn text_at(text: &[u8], span: Span) -> &[u8]
    ensures { result.now ≡ bytes_at text.now span }
{
    let start = span.start as usize;
    let end = span.end as usize;
    if start <= end && end <= text.len() {
        &text[start..end]
    } else {
        &[]
    }
}
