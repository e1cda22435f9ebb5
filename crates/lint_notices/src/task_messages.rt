//! What is told of actions that can never be executed, of a goal that never holds, and of groups.

ghost use Rattle.lint_mistakes.specs.Places.{part_span as span_of_part};
ghost use Rattle.lint_notices.specs.TaskNotices.{
  cause_span as span_for,
  cause_text,
  condition_span as span_of_condition,
  goal_end,
  goal_notice as notice_for_goal,
  goal_part_span,
  goal_span as span_of_goal,
  group_notice as notice_for_group,
  has_lines as are_lines,
  invariant_notice as notice_for_invariant,
  name_span as span_of_name,
  never_notice as notice_for_never,
  never_text,
  part_text,
  start_span as first_span,
};
ghost use Rattle.lint_notices.specs.Notices.{word_at as word_of_span};
ghost use Rattle.lint_notices.specs.Values.{never_value, notice_value, written_value};
ghost use Rattle.sexpr_text.specs.Forest.{forest_of};
ghost use Rattle.std.specs.Prelude.{◌≡◌, ◌++◌, IfOk, OnOk, codes, map, string_bytes};
ghost use Rattle.std.specs.Str.Lossy.{utf8_lossy};

use crate::messages::{sentence, text_at, word_at};
use crate::notices::Notice;
use lint_mistakes::{
    action_named, after_first, first_list, list_after, part_span, section_named, span_or,
};
use never_executed::{Cause, GoalNever, NeverRun};
use sexpr_text::{Form, Place, Span};
use std::alloc::{AllocError, Global};

/// The text of a file, and the forms of its sections.
#[derive(Clone, Copy)]
pub struct Written<'a> {
    pub text: &'a [u8],
    pub sections: &'a [Form],
}

/// Adds what is told of actions that can never be executed, by the file of the domain.
pub fn add_never(
    alloc: Global,
    notices: &mut Vec<Notice>,
    domain: &Written<'_>,
    found: &[NeverRun<'_>],
) -> Result<(), AllocError>
    ensures { OnOk result (map notice_value notices.new.items
        ≡ map notice_value notices.old.items
        ++ map (notice_for_never (written_value domain.now)) (map never_value found.now)) }
{
    for never in found {
        notices.push(never_notice(alloc, domain, never)?)?;
    }
    Ok(())
}

/// What is told of an action that can never be executed.
fn never_notice(
    alloc: Global,
    domain: &Written<'_>,
    never: &NeverRun<'_>,
) -> Result<Notice, AllocError>
    ensures { IfOk result (λ notice. notice_value notice
        ≡ notice_for_never (written_value domain.now) (never_value never.now)) }
{
    let name = never.schema.name.as_bytes();
    let span = cause_span(action_named(domain.sections, name), never.cause);
    let name = String::from_utf8_lossy(alloc, name)?;
    Ok(Notice {
        in_problem: false,
        place: span.place,
        kind: "never-executed",
        message: never_message(alloc, domain.text, &name, span, never.cause)?,
    })
}

/// Where the cause stands: the part of the precondition, or the name of the action.
fn cause_span(parts: &[Form], cause: Cause) -> Span
    ensures { result ≡ span_for (forest_of parts.now) cause }
{
    match cause {
        Cause::Part(part) => condition_span(parts, part),
        Cause::InEach(part) => condition_span(parts, part),
        Cause::NoObjects => name_span(parts),
        Cause::Together => name_span(parts),
    }
}

/// Where the part with this number of the precondition of an action stands that has these parts.
fn condition_span(parts: &[Form], part: usize) -> Span
    ensures { result ≡ span_of_condition (forest_of parts.now) part }
{
    match list_after(parts, b":precondition") {
        Some((span, parts)) => part_span(span, parts, part),
        None => name_span(parts),
    }
}

/// Where the name of an action stands that has these parts.
fn name_span(parts: &[Form]) -> Span
    ensures { result ≡ span_of_name (forest_of parts.now) }
{
    span_or(after_first(parts), start_span())
}

fn start_span() -> Span
    ensures { result ≡ first_span }
{
    Span {
        start: 0,
        end: 0,
        place: Place { line: 1, column: 1 },
    }
}

/// That an action can never be executed.
fn never_message(
    alloc: Global,
    text: &[u8],
    name: &str,
    span: Span,
    cause: Cause,
) -> Result<String, AllocError>
    ensures { IfOk result
        (λ message. string_bytes message ≡ never_text text.now name.now span cause) }
{
    let mut out = sentence(alloc, name, "` can never be executed: ")?;
    push_cause(alloc, &mut out, text, span, cause)?;
    Ok(out)
}

fn push_cause(
    alloc: Global,
    out: &mut String,
    text: &[u8],
    span: Span,
    cause: Cause,
) -> Result<(), AllocError>
    ensures { OnOk result
        (string_bytes out.new ≡ string_bytes out.old ++ cause_text text.now span cause) }
{
    match cause {
        Cause::Part(_part) => push_part(alloc, out, text, span),
        Cause::InEach(_part) => push_in_each(alloc, out, text, span),
        Cause::NoObjects => push_words(out, "there are no objects for its parameters"),
        Cause::Together => push_words(out, "its precondition never holds"),
    }
}

/// Appends some words.
fn push_words(out: &mut String, words: &str) -> Result<(), AllocError>
    ensures { OnOk result (string_bytes out.new ≡ string_bytes out.old ++ words.now) }
{
    out.push_str(words)
}

/// Appends that the part of a condition with this span never holds where the facts allow the action.
fn push_in_each(alloc: Global, out: &mut String, text: &[u8], span: Span) -> Result<(), AllocError>
    ensures { OnOk result (string_bytes out.new ≡ string_bytes out.old
        ++ (codes "in each instance that the facts allow, " ++ part_text text.now span)) }
{
    out.push_str("in each instance that the facts allow, ")?;
    push_part(alloc, out, text, span)
}

/// Appends that the part of a condition with this span never holds.
fn push_part(alloc: Global, out: &mut String, text: &[u8], span: Span) -> Result<(), AllocError>
    ensures { OnOk result
        (string_bytes out.new ≡ string_bytes out.old ++ part_text text.now span) }
{
    if has_lines(text_at(text, span)) {
        return out.push_str("this part never holds");
    }
    let part = word_at(alloc, text, span)?;
    out.push_str("`")?;
    out.push_str(&part)?;
    out.push_str("` never holds")
}

fn has_lines(text: &[u8]) -> bool
    ensures { result ≡ are_lines text.now }
{
    for byte in text {
        if *byte == b'\n' {
            return true;
        }
    }
    false
}

/// What is told of a goal that never holds, by the file of the problem.
pub fn goal_notice(
    alloc: Global,
    problem: &Written<'_>,
    never: GoalNever,
) -> Result<Notice, AllocError>
    ensures { IfOk result (λ notice.
        notice_value notice ≡ notice_for_goal (written_value problem.now) never.part) }
{
    let span = goal_span(problem.sections, never.part);
    Ok(Notice {
        in_problem: true,
        place: span.place,
        kind: "goal-never",
        message: goal_message(alloc, problem.text, span, never.part)?,
    })
}

/// Where a part of the goal stands; the whole goal where none is named.
fn goal_span(sections: &[Form], part: Option<usize>) -> Span
    ensures { result ≡ span_of_goal (forest_of sections.now) part }
{
    match first_list(section_named(sections, b":goal")) {
        Some((span, parts)) => part_or_whole(span, parts, part),
        None => start_span(),
    }
}

/// The same of a goal with this span and these parts.
fn part_or_whole(span: Span, parts: &[Form], part: Option<usize>) -> Span
    ensures { result ≡ goal_part_span part span (forest_of parts.now) }
{
    match part {
        Some(part) => part_span(span, parts, part),
        None => span,
    }
}

/// That the goal never holds.
fn goal_message(
    alloc: Global,
    text: &[u8],
    span: Span,
    part: Option<usize>,
) -> Result<String, AllocError>
    ensures { IfOk result (λ message. string_bytes message
        ≡ codes "the goal is false whatever is done" ++ goal_end text.now span part) }
{
    let mut out = String::from_str(alloc, "the goal is false whatever is done")?;
    push_goal_end(alloc, &mut out, text, span, part)?;
    Ok(out)
}

/// Appends the part of the goal that never holds, where one is named.
fn push_goal_end(
    alloc: Global,
    out: &mut String,
    text: &[u8],
    span: Span,
    part: Option<usize>,
) -> Result<(), AllocError>
    ensures { OnOk result
        (string_bytes out.new ≡ string_bytes out.old ++ goal_end text.now span part) }
{
    match part {
        Some(_part) => {
            out.push_str(": ")?;
            push_part(alloc, out, text, span)
        }
        None => Ok(()),
    }
}

/// Adds sentences about groups, at the place before which the invariant can be put.
pub fn add_groups(
    alloc: Global,
    notices: &mut Vec<Notice>,
    place: Place,
    sentences: &[String],
) -> Result<(), AllocError>
    ensures { OnOk result (map notice_value notices.new.items
        ≡ map notice_value notices.old.items
        ++ map (notice_for_group place) (map string_bytes sentences.now)) }
{
    for sentence in sentences {
        notices.push(group_notice(alloc, place, sentence)?)?;
    }
    Ok(())
}

/// A sentence about groups, at the place before which the invariant can be put.
fn group_notice(alloc: Global, place: Place, sentence: &str) -> Result<Notice, AllocError>
    ensures { IfOk result
        (λ notice. notice_value notice ≡ notice_for_group place sentence.now) }
{
    Ok(Notice {
        in_problem: false,
        place,
        kind: "one-of",
        message: String::from_str(alloc, sentence)?,
    })
}

/// The invariant that says so, at that place.
pub fn invariant_notice(alloc: Global, place: Place, invariant: &[u8]) -> Result<Notice, AllocError>
    ensures { IfOk result
        (λ notice. notice_value notice ≡ notice_for_invariant place invariant.now) }
{
    let invariant = String::from_utf8_lossy(alloc, invariant)?;
    Ok(Notice {
        in_problem: false,
        place,
        kind: "invariant",
        message: sentence_with(alloc, "to say so, add here: ", &invariant)?,
    })
}

/// Two texts, one after the other.
fn sentence_with(alloc: Global, start: &str, end: &str) -> Result<String, AllocError>
    ensures { IfOk result (λ message. string_bytes message ≡ start.now ++ end.now) }
{
    let mut out = String::from_str(alloc, start)?;
    out.push_str(end)?;
    Ok(out)
}
