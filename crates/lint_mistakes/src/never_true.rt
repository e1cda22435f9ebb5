//! Predicates that are needed, and that nothing makes true.

ghost use Rattle.lint_mistakes.specs.NeverTrue as never;
ghost use Rattle.sexpr_text.specs.Forest.{forest_of};
ghost use Rattle.std.specs.Prelude.{◌≡◌, ◌++◌, IfOk, OnOk};

use crate::mistakes::{Mistake, MistakeKind};
use crate::rows::{parts_after, section_named, sections_of};
use crate::uses::mentions;
use sexpr_text::{Form, Head, Text, View, begins_with, head_of};
use std::alloc::{AllocError, Global};

/// The predicates of a domain that are needed, and that nothing makes true, in the order in which they
/// are declared.
pub(crate) fn unmade_predicates(
    alloc: Global,
    domain: &[Form],
    problem: &[Form],
) -> Result<Vec<Mistake>, AllocError>
    ensures { IfOk result (λ found. found.items
        ≡ never.unmade_predicates (forest_of domain.now) (forest_of problem.now)) }
{
    let domain = sections_of(domain, b"domain");
    let problem = sections_of(problem, b"problem");
    let declared = section_named(domain, b":predicates");
    let mut found = Vec::new(alloc);
    for form in declared {
        if let View::Group(_span, parts) = form.view() {
            add_unmade(domain, problem, parts, &mut found)?;
        }
    }
    Ok(found)
}

/// Adds the predicate that a list with these parts declares, if it is needed and nothing makes it true.
fn add_unmade(
    domain: &[Form],
    problem: &[Form],
    parts: &[Form],
    found: &mut Vec<Mistake>,
) -> Result<(), AllocError>
    ensures { OnOk result (found.new.items ≡ found.old.items
        ++ never.unmade_in_list (forest_of domain.now) (forest_of problem.now)
        (forest_of parts.now)) }
{
    let Head::Word(span, name, _rest) = head_of(parts) else {
        return Ok(());
    };
    if is_needed(name, domain, problem) && !is_made(name, domain, problem) {
        found.push(Mistake {
            span,
            kind: MistakeKind::NeverTrue,
        })?;
    }
    Ok(())
}

/// Whether a section of the domain or a goal needs the predicate.
fn is_needed(name: &Text, domain: &[Form], problem: &[Form]) -> bool
    ensures { result ≡ never.is_needed name.now (forest_of domain.now) (forest_of problem.now) }
{
    domain_asserts(name, domain)
        || asserts(name, section_named(problem, b":goal"))
        || asserts(name, section_named(problem, b":ctl-goal"))
}

/// Whether anything makes an atom of the predicate true.
fn is_made(name: &Text, domain: &[Form], problem: &[Form]) -> bool
    ensures { result ≡ never.is_made name.now (forest_of domain.now) (forest_of problem.now) }
{
    mentions(name, section_named(problem, b":init")) || domain_adds(name, domain)
}

fn domain_asserts(name: &Text, sections: &[Form]) -> bool
    ensures { result ≡ never.domain_asserts name.now (forest_of sections.now) }
{
    for form in sections {
        if let View::Group(_span, parts) = form.view() {
            if section_asserts(name, parts) {
                return true;
            }
        }
    }
    false
}

fn section_asserts(name: &Text, parts: &[Form]) -> bool
    ensures { result ≡ never.section_asserts name.now (forest_of parts.now) }
{
    !begins_with(parts, b":predicates") && asserts(name, parts)
}

/// Whether a list of the row, at any depth and outside of `not`, begins with the word.
#[cycle(asserting)]
fn asserts(name: &Text, row: &[Form]) -> bool
    ensures { result ≡ never.asserts name.now (forest_of row.now) }
{
    for form in row {
        if let View::Group(_span, parts) = form.view() {
            if list_asserts(name, parts) {
                return true;
            }
        }
    }
    false
}

#[cycle(asserting)]
fn list_asserts(name: &Text, parts: &[Form]) -> bool
    ensures { result ≡ never.list_asserts name.now (forest_of parts.now) }
{
    match head_of(parts) {
        Head::Nothing => false,
        Head::Group(_span, inner, rest) => list_asserts(name, inner) || asserts(name, rest),
        Head::Word(_span, head, rest) => {
            !head.is(b"not") && (head.is(name.as_bytes()) || asserts(name, rest))
        }
    }
}

/// Whether a section of a domain has an effect that adds an atom of the predicate.
fn domain_adds(name: &Text, sections: &[Form]) -> bool
    ensures { result ≡ never.domain_adds name.now (forest_of sections.now) }
{
    for form in sections {
        if let View::Group(_span, parts) = form.view() {
            if section_adds(name, parts) {
                return true;
            }
        }
    }
    false
}

fn section_adds(name: &Text, parts: &[Form]) -> bool
    ensures { result ≡ never.section_adds name.now (forest_of parts.now) }
{
    effect_adds(name, parts_after(parts, b":effect"))
}

/// Whether an effect of the row adds an atom of the predicate.
#[cycle(adding)]
fn adds(name: &Text, row: &[Form]) -> bool
    ensures { result ≡ never.adds name.now (forest_of row.now) }
{
    for form in row {
        if let View::Group(_span, parts) = form.view() {
            if effect_adds(name, parts) {
                return true;
            }
        }
    }
    false
}

#[cycle(adding)]
fn effect_adds(name: &Text, parts: &[Form]) -> bool
    ensures { result ≡ never.effect_adds name.now (forest_of parts.now) }
{
    let Head::Word(_span, head, rest) = head_of(parts) else {
        return false;
    };
    if head.is(b"not") {
        return false;
    }
    if head.is(b"when") {
        return adds_after(name, rest);
    }
    head.is(name.as_bytes()) || adds(name, rest)
}

/// The same of the effects after the first form.
#[cycle(adding)]
fn adds_after(name: &Text, row: &[Form]) -> bool
    ensures { result ≡ never.adds_after name.now (forest_of row.now) }
{
    match head_of(row) {
        Head::Nothing => false,
        Head::Word(_span, _text, rest) => adds(name, rest),
        Head::Group(_span, _parts, rest) => adds(name, rest),
    }
}
