//! The sections of a problem.

ghost use Rattle.std.specs.Prelude.{◌≡◌, [], IfOk, OnOk, IfErr, Some};
ghost use Rattle.std.specs.Option.{option_map};
ghost use Rattle.sexpr_text.specs.Flaws.{first_listed};
ghost use Rattle.sexpr_text.specs.Forest.{forest_of};
ghost use Rattle.sexpr_text.specs.Passes.{IfFault};
ghost use Rattle.pddl_problem.specs.Sections as sections;

use crate::faults::left_out;
use sexpr_text::{
    FaultKind, Form, Head, ReadErr, Span, Text, View, after_word, fault_at, first_group, head_of,
    is_name, is_nothing, is_one,
};
use std::alloc::Global;

/// What the word at a section's head says that the section is.
#[derive(Clone, Copy)]
pub(crate) enum Heading {
    Domain,
    Objects,
    Init,
    Goal,
    CtlGoal,
    PassedOver,
    Other,
}

/// Which sections have come.
#[derive(Clone, Copy)]
pub(crate) struct Seen {
    pub(crate) domain: bool,
    pub(crate) objects: bool,
    pub(crate) init: bool,
    pub(crate) goal: bool,
    pub(crate) ctl: bool,
}

/// What the word says that a section is.
pub(crate) fn heading_of(word: &Text) -> Heading
    ensures { result ≡ sections.heading_of word.now }
{
    if word.is(b":domain") {
        Heading::Domain
    } else if word.is(b":objects") {
        Heading::Objects
    } else if word.is(b":init") {
        Heading::Init
    } else if word.is(b":goal") {
        Heading::Goal
    } else if word.is(b":ctl-goal") {
        Heading::CtlGoal
    } else if word.is(b":requirements") || word.is(b":metric") || word.is(b":goal-reward") {
        Heading::PassedOver
    } else {
        Heading::Other
    }
}

fn is_one_name(row: &[Form]) -> bool
    ensures { result ≡ sections.is_one_name (forest_of row.now) }
{
    match head_of(row) {
        Head::Word(_, text, rest) => is_name(text) && is_nothing(rest),
        _ => false,
    }
}

/// Whether a section of this heading is right, given which sections have come before it.
fn check_heading(
    alloc: Global,
    seen: Seen,
    span: Span,
    head: &Text,
    rest: &[Form],
) -> Result<(), ReadErr>
    ensures clean { OnOk result (sections.section_flaws seen span
        (sections.heading_of head.now) head.now (forest_of rest.now) ≡ []) }
    ensures fault { IfErr result (λ e. IfFault e (λ f. first_listed
        (sections.section_flaws seen span (sections.heading_of head.now) head.now
        (forest_of rest.now)) ≡ Some f)) }
{
    match heading_of(head) {
        Heading::Domain if seen.domain || !is_one_name(rest) => {
            Err(fault_at(span, FaultKind::BadForm))
        }
        Heading::Objects if seen.objects => Err(fault_at(span, FaultKind::BadForm)),
        Heading::Init if seen.init => Err(fault_at(span, FaultKind::BadForm)),
        Heading::Goal if !is_one(rest) => Err(fault_at(span, FaultKind::BadForm)),
        Heading::Goal if seen.goal => Err(fault_at(span, FaultKind::GoalTwice)),
        Heading::CtlGoal if !is_one(rest) => Err(fault_at(span, FaultKind::BadForm)),
        Heading::CtlGoal if seen.ctl => Err(fault_at(span, FaultKind::GoalTwice)),
        Heading::Other => Err(left_out(alloc, span, head)),
        _ => Ok(()),
    }
}

/// The sections that have come after one more of this heading.
fn saw(seen: Seen, heading: Heading) -> Seen
    ensures { result ≡ sections.saw seen heading }
{
    match heading {
        Heading::Domain => Seen {
            domain: true,
            ..seen
        },
        Heading::Objects => Seen {
            objects: true,
            ..seen
        },
        Heading::Init => Seen { init: true, ..seen },
        Heading::Goal => Seen { goal: true, ..seen },
        Heading::CtlGoal => Seen { ctl: true, ..seen },
        Heading::PassedOver | Heading::Other => seen,
    }
}

/// Whether a list with these parts is right as a section, and which sections have come with it.
fn check_list(alloc: Global, seen: Seen, span: Span, parts: &[Form]) -> Result<Seen, ReadErr>
    ensures clean { OnOk result (sections.list_flaws seen span (forest_of parts.now) ≡ []) }
    ensures seen { IfOk result (λ now. now ≡ sections.saw_list seen (forest_of parts.now)) }
    ensures fault { IfErr result (λ e. IfFault e (λ f. first_listed (sections.list_flaws seen span
        (forest_of parts.now)) ≡ Some f)) }
{
    let Head::Word(_, head, rest) = head_of(parts) else {
        return Err(fault_at(span, FaultKind::BadForm));
    };
    check_heading(alloc, seen, span, head, rest)?;
    Ok(saw(seen, heading_of(head)))
}

/// Whether these items are right as sections of a problem.
pub(crate) fn check_sections(alloc: Global, items: &[Form]) -> Result<(), ReadErr>
    ensures clean { OnOk result (sections.sections_flaws sections.none_seen
        (forest_of items.now) ≡ []) }
    ensures fault { IfErr result (λ e. IfFault e (λ f. first_listed
        (sections.sections_flaws sections.none_seen (forest_of items.now)) ≡ Some f)) }
{
    let mut seen = Seen {
        domain: false,
        objects: false,
        init: false,
        goal: false,
        ctl: false,
    };
    for item in items {
        match item.view() {
            View::Word(span, _) => return Err(fault_at(span, FaultKind::BadForm)),
            View::Group(span, parts) => seen = check_list(alloc, seen, span, parts)?,
        }
    }
    Ok(())
}

/// The items of the first section with this word at its head.
pub(crate) fn section<'a>(items: &'a [Form], head: &[u8]) -> Option<&'a [Form]>
    ensures { option_map (λ rest. forest_of rest.now) result
        ≡ sections.section head.now (forest_of items.now) }
{
    let (_, parts) = first_group(items, head)?;
    after_word(parts, head)
}

/// The items of that section, none where there is no such section.
pub(crate) fn items_of<'a>(items: &'a [Form], head: &[u8]) -> &'a [Form]
    ensures { forest_of result.now ≡ sections.items_of head.now (forest_of items.now) }
{
    match section(items, head) {
        Some(rest) => rest,
        None => &[],
    }
}
