//! What can be wrong with recognised lists.

ghost use Rattle.std.specs.Prelude.{◌≡◌, ◌≤◌, ◌-◌, [], IfOk, IfErr, Some, None};
ghost use Rattle.sexpr_text.specs.Forest.{forest_of};
ghost use Rattle.sexpr_text.specs.Flaws.{first_listed};
ghost use Rattle.sexpr_text.specs.Passes.{IfFault};
ghost use Rattle.domain_read.specs.Faults as faults;
ghost use Rattle.domain_read.specs.Weights as weights;

use crate::roles::Role;
use crate::weights::{Mass, common_with, mass_of, weight};
use sexpr_text::{FaultKind, Form, Head, ReadErr, Span, Text, View, fault_at, head_of};

// Whether the number of forms is even.
#[tactic(auto, using(pddl_ast::proofs::Forests::count_length))]
fn is_even(row: &[Form]) -> bool
    ensures { result ≡ faults.is_even (forest_of row.now) }
{
    row.len() % 2 == 0
}

// The fault of a recognised list, by what follows its head, where so many more parentheses may be
// open.
fn choice_fault(room: usize, row: &[Form]) -> Option<FaultKind>
    ensures { result ≡ faults.choice_fault room (forest_of row.now) }
{
    if room <= 1 {
        return Some(FaultKind::TooDeep);
    }
    if !is_even(row) {
        return Some(FaultKind::BadForm);
    }
    match mass_of(row) {
        Some(Mass::Over) => Some(FaultKind::MassOver),
        Some(Mass::Missing) | Some(Mass::Whole) | None => None,
    }
}

// The fault of a group of which the parts have this role.
fn list_fault(room: usize, role: Role, parts: &[Form]) -> Option<FaultKind>
    ensures { result ≡ faults.list_fault room role (forest_of parts.now) }
{
    let Role::Choice(_) = role else {
        return None;
    };
    match head_of(parts) {
        Head::Word(_, _, rest) => choice_fault(room, rest),
        Head::Group(_, _, _) | Head::Nothing => None,
    }
}

// The least common multiple of `multiple` and the weight's denominator.
fn check_weight(multiple: u64, span: Span, text: &Text) -> Result<u64, ReadErr>
    requires some { 1 ≤ multiple }
    requires bound { multiple ≤ weights.most_under }
    ensures some { IfOk result (λ m. 1 ≤ m) }
    ensures bound { IfOk result (λ m. m ≤ weights.most_under) }
    ensures multiple { IfOk result
        (λ m. m ≡ faults.multiple_with multiple (weights.weight text.now)) }
    ensures sound { IfOk result (λ _. faults.weight_flaws multiple span text.now ≡ []) }
    ensures fault { IfErr result
        (λ e. IfFault e (λ f. first_listed (faults.weight_flaws multiple span text.now)
        ≡ Some f)) }
{
    match common_with(multiple, weight(text.as_bytes())) {
        Some(multiple) => Ok(multiple),
        None => Err(fault_at(span, FaultKind::BadWeight)),
    }
}

// The least common multiple of the denominators up to a word of this role.
fn check_word(multiple: u64, role: Role, span: Span, text: &Text) -> Result<u64, ReadErr>
    requires some { 1 ≤ multiple }
    requires bound { multiple ≤ weights.most_under }
    ensures some { IfOk result (λ m. 1 ≤ m) }
    ensures bound { IfOk result (λ m. m ≤ weights.most_under) }
    ensures multiple { IfOk result (λ m. m ≡ faults.multiple_after multiple role text.now) }
    ensures sound { IfOk result (λ _. faults.word_flaws multiple role span text.now ≡ []) }
    ensures fault { IfErr result
        (λ e. IfFault e (λ f. first_listed (faults.word_flaws multiple role span text.now)
        ≡ Some f)) }
{
    match role {
        Role::Weight => check_weight(multiple, span, text),
        _ => Ok(multiple),
    }
}

// Finds the flaw of a group that is left out: it stands in the place of a weight.
fn check_left_out(role: Role, span: Span) -> Result<(), ReadErr>
    ensures sound { IfOk result (λ _. faults.group_flaws role span ≡ []) }
    ensures fault { IfErr result
        (λ e. IfFault e (λ f. first_listed (faults.group_flaws role span) ≡ Some f)) }
{
    match role {
        Role::Weight => Err(fault_at(span, FaultKind::BadWeight)),
        _ => Ok(()),
    }
}

// Finds the flaw that stands at a list.
fn check_list(room: usize, role: Role, span: Span, parts: &[Form]) -> Result<(), ReadErr>
    ensures sound { IfOk result
        (λ _. faults.list_fault room role (forest_of parts.now) ≡ None) }
    ensures fault { IfErr result
        (λ e. IfFault e (λ f. first_listed
        (faults.flaw_of span (faults.list_fault room role (forest_of parts.now))) ≡ Some f)) }
{
    match list_fault(room, role, parts) {
        Some(kind) => Err(fault_at(span, kind)),
        None => Ok(()),
    }
}

/// Finds the first flaw of a row's recognised lists, where its first form has this role and so many
/// more parentheses may be open.
pub fn check_row(room: usize, role: Role, row: &[Form]) -> Result<(), ReadErr>
    ensures sound { IfOk result
        (λ _. faults.choice_flaws room 1 role (forest_of row.now) ≡ []) }
    ensures fault { IfErr result
        (λ e. IfFault e (λ f. first_listed
        (faults.choice_flaws room 1 role (forest_of row.now)) ≡ Some f)) }
{
    let mut current = role;
    let mut multiple = 1;
    for form in row {
        match form.view() {
            View::Word(span, text) => {
                multiple = check_word(multiple, current, span, text)?;
                current = current.after_word(text);
            }
            View::Group(span, parts) => {
                if current.is_left_out() {
                    check_left_out(current, span)?;
                } else {
                    let inner = current.inner(parts);
                    check_list(room, inner, span, parts)?;
                    check_row(room.saturating_sub(1), inner, parts)?;
                }
                current = current.after_group(parts);
            }
        }
    }
    Ok(())
}
