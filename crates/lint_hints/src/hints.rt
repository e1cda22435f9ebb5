//! What is told of groups.

ghost use Rattle.lint_hints.specs.Hints.{
  AreHints,
  AreJudged,
  IsTaskOfTexts,
  LeavesNothingOut,
  with_line as text_with,
};
ghost use Rattle.lint_hints.specs.Values.{hints_value, texts_value};
ghost use Rattle.lint_shapes.specs.Found.{AreFound};
ghost use Rattle.std.specs.Prelude.{◌≤◌, IfOk, IfSome, IsTrue, length};

use crate::chosen::chosen;
use crate::pasting::{first_action, with_line};
use crate::sentences::sentences;
use crate::tasks::task_of_texts;
use lint_mistakes::forms_of;
use lint_shapes::{OneOf, find_groups, push_invariant};
use mutex_groups::excludes_nothing;
use pddl_ast::{Domain, Formula, Problem};
use sexpr_text::{MAX_BYTES, Place, Span};
use std::alloc::{AllocError, Global};
use task_core::{State, Task};

/// A domain and a problem of it, and the texts that spell them.
#[derive(Clone, Copy)]
pub struct Texts<'a> {
    pub domain: &'a Domain,
    pub problem: &'a Problem,
    pub domain_text: &'a [u8],
    pub problem_text: &'a [u8],
}

/// That exactly one fluent of each of some groups is true in every reachable state.
#[derive(Drop)]
pub struct GroupHints {
    /// The place in the domain before which the invariant can be put.
    pub place: Place,
    /// A sentence about each shape of groups.
    pub sentences: Vec<String>,
    /// The text of the invariant, which says so of all of them.
    pub invariant: Vec<u8>,
}

/// What is told of groups of a domain and a problem, whose task this is: of at most ten shapes, those with
/// the largest groups. `None` where no groups are found, where the domain has an invariant already, and
/// where the text with the invariant in it isn't judged to leave nothing out.
pub fn lint_hints(
    alloc: Global,
    texts: &Texts<'_>,
    task: &Task,
) -> Result<Option<GroupHints>, AllocError>
    requires domain_text { length texts.now.domain_text.now ≤ MAX_BYTES }
    requires problem_text { length texts.now.problem_text.now ≤ MAX_BYTES }
    ensures { IfOk result (λ told. IfSome told
        (λ hints. AreHints (texts_value texts.now) task.now (hints_value hints))) }
{
    if has_invariant(texts.domain) {
        return Ok(None);
    }
    let found = find_groups(alloc, texts.domain, texts.problem, task)?;
    let found = chosen(alloc, task, found)?;
    if found.is_empty() {
        return Ok(None);
    }
    let forms = forms_of(alloc, texts.domain_text)?;
    match first_action(&forms) {
        Some(span) => hints_at(alloc, texts, task, &found, span),
        None => Ok(None),
    }
}

fn has_invariant(domain: &Domain) -> bool {
    match &domain.invariant {
        Formula::All(parts) => !parts.is_empty(),
        _ => true,
    }
}

/// What is told of these shapes: the invariant can be put before the form with this span.
fn hints_at(
    alloc: Global,
    texts: &Texts<'_>,
    task: &Task,
    found: &[OneOf],
    span: Span,
) -> Result<Option<GroupHints>, AllocError>
    requires { length texts.now.problem_text.now ≤ MAX_BYTES }
    ensures { IfOk result (λ told. IfSome told
        (λ hints. AreJudged (texts_value texts.now) task.now found.now span (hints_value hints))) }
{
    let mut invariant = Vec::new(alloc);
    push_invariant(alloc, &mut invariant, texts.domain, found)?;
    if !is_judged(alloc, texts, found, span, &invariant)? {
        return Ok(None);
    }
    Ok(Some(GroupHints {
        place: span.place,
        sentences: sentences(alloc, task, found)?,
        invariant,
    }))
}

/// Whether the text with the invariant in it is judged to leave nothing out.
fn is_judged(
    alloc: Global,
    texts: &Texts<'_>,
    found: &[OneOf],
    span: Span,
    invariant: &[u8],
) -> Result<bool, AllocError>
    requires { length texts.now.problem_text.now ≤ MAX_BYTES }
    ensures { IfOk result (λ judged. IsTrue judged → LeavesNothingOut
        (text_with texts.now.domain_text.now span.start invariant.now) texts.now.problem_text.now) }
{
    let start = span.start as usize;
    if start > texts.domain_text.len() {
        return Ok(false);
    }
    let text = with_line(alloc, texts.domain_text, start, invariant)?;
    let groups = groups_of(alloc, found)?;
    leaves_nothing_out(alloc, &text, texts.problem_text, &groups)
}

/// The groups of some shapes.
fn groups_of(alloc: Global, found: &[OneOf]) -> Result<Vec<State>, AllocError> {
    let mut groups = Vec::new(alloc);
    for one in found {
        groups.extend_from_slice(&one.groups)?;
    }
    Ok(groups)
}

/// Whether the invariant of the task that two texts spell leaves nothing out. The groups are those from
/// which it may follow.
fn leaves_nothing_out(
    alloc: Global,
    domain_text: &[u8],
    problem_text: &[u8],
    groups: &[State],
) -> Result<bool, AllocError>
    requires { length problem_text.now ≤ MAX_BYTES }
    ensures { IfOk result (λ judged. IsTrue judged
        → LeavesNothingOut domain_text.now problem_text.now) }
{
    if domain_text.len() > MAX_BYTES {
        return Ok(false);
    }
    match task_of_texts(alloc, domain_text, problem_text)? {
        Some(task) => Ok(is_whole(domain_text, problem_text, &task, groups)),
        None => Ok(false),
    }
}

/// Whether the invariant of the task of two texts leaves nothing out.
fn is_whole(domain_text: &[u8], problem_text: &[u8], task: &Task, groups: &[State]) -> bool
    requires { IsTaskOfTexts domain_text.now problem_text.now task.now }
    ensures { IsTrue result → LeavesNothingOut domain_text.now problem_text.now }
{
    excludes_nothing(task, groups)
}
