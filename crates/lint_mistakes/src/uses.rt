//! Predicates that are declared and then never used.

ghost use Rattle.lint_mistakes.specs.NeverUsed as uses;
ghost use Rattle.sexpr_text.specs.Forest.{forest_of};
ghost use Rattle.std.specs.Prelude.{◌≡◌, ◌++◌, IfOk, OnOk};

use crate::mistakes::{Mistake, MistakeKind};
use crate::rows::{section_named, sections_of};
use sexpr_text::{Form, Head, Text, View, begins_with, head_of};
use std::alloc::{AllocError, Global};

/// The predicates of a domain that no action, invariant or goal names, in the order in which they are
/// declared.
pub(crate) fn unused_predicates(
    alloc: Global,
    domain: &[Form],
    problem: &[Form],
) -> Result<Vec<Mistake>, AllocError>
    ensures { IfOk result (λ found. found.items
        ≡ uses.unused_predicates (forest_of domain.now) (forest_of problem.now)) }
{
    let domain = sections_of(domain, b"domain");
    let problem = sections_of(problem, b"problem");
    let declared = section_named(domain, b":predicates");
    let mut found = Vec::new(alloc);
    for form in declared {
        if let View::Group(_span, parts) = form.view() {
            add_unused(domain, problem, parts, &mut found)?;
        }
    }
    Ok(found)
}

/// Adds the predicate that a list with these parts declares, if it is never used.
fn add_unused(
    domain: &[Form],
    problem: &[Form],
    parts: &[Form],
    found: &mut Vec<Mistake>,
) -> Result<(), AllocError>
    ensures { OnOk result (found.new.items ≡ found.old.items
        ++ uses.unused_in_list (forest_of domain.now) (forest_of problem.now)
        (forest_of parts.now)) }
{
    let Head::Word(span, name, _rest) = head_of(parts) else {
        return Ok(());
    };
    if !is_used(name, domain, problem) {
        found.push(Mistake {
            span,
            kind: MistakeKind::NeverUsed,
        })?;
    }
    Ok(())
}

/// Whether an action, the invariant or a goal names the predicate.
fn is_used(name: &Text, domain: &[Form], problem: &[Form]) -> bool
    ensures { result ≡ uses.is_used name.now (forest_of domain.now) (forest_of problem.now) }
{
    domain_uses(name, domain) || goal_uses(name, problem)
}

/// Whether a section of a domain other than `:predicates` has a list that begins with the word.
fn domain_uses(name: &Text, sections: &[Form]) -> bool
    ensures { result ≡ uses.domain_uses name.now (forest_of sections.now) }
{
    for form in sections {
        if let View::Group(_span, parts) = form.view() {
            if is_used_in(name, parts) {
                return true;
            }
        }
    }
    false
}

/// Whether a section of a domain with these parts is another than `:predicates`, and has such a list.
fn is_used_in(name: &Text, parts: &[Form]) -> bool
    ensures { result ≡ uses.section_uses name.now (forest_of parts.now) }
{
    !begins_with(parts, b":predicates") && mentions(name, parts)
}

/// Whether a goal of a problem has a list that begins with the word.
fn goal_uses(name: &Text, sections: &[Form]) -> bool
    ensures { result ≡ uses.goal_uses name.now (forest_of sections.now) }
{
    mentions(name, section_named(sections, b":goal"))
        || mentions(name, section_named(sections, b":ctl-goal"))
}

/// Whether a list of the row, at any depth, begins with the word.
pub fn mentions(name: &Text, row: &[Form]) -> bool
    ensures { result ≡ uses.mentions name.now (forest_of row.now) }
{
    for form in row {
        if let View::Group(_span, parts) = form.view() {
            if begins_with(parts, name.as_bytes()) || mentions(name, parts) {
                return true;
            }
        }
    }
    false
}
