//! Reads literals and cubes, the words of actions, and numbers.

ghost use Rattle.std.specs.Prelude.{◌≡◌, ◌≤◌, ℕ, [], Some, IfOk, IfErr, IsSome, is_some};
ghost use Rattle.std.specs.Option.{option_map};
ghost use Rattle.sexpr_text.specs.declared.forms.Span.{Span};
ghost use Rattle.sexpr_text.specs.Flaws.{first_listed};
ghost use Rattle.sexpr_text.specs.Forest.{forest_of};
ghost use Rattle.sexpr_text.specs.Passes.{IfFault};
ghost use Rattle.plan_rules.specs.Items.{item_of};
ghost use Rattle.plan_rules.specs.Readings.{
  action_flaws,
  atom_flaws,
  cube_flaws,
  cube_tree,
  number_of_words,
  number_flaws,
  number_tree,
  number_within,
};

use crate::names::{NameTable, are_words};
use sexpr_text::{
    FaultKind, Form, GroupReader, ReadErr, Span, Text, View, begins_with, fault_at, group_after,
    numeral, read_groups,
};
use std::alloc::Global;
use task_core::{ActionId, FluentId, Lit};

/// Reads the literals over fluents.
#[derive(Clone, Copy)]
pub(crate) struct LiteralReader<'a> {
    pub(crate) fluents: &'a NameTable,
}

impl GroupReader for LiteralReader<'_> {
    ghost use Rattle.task_core.specs.declared.literals.Lit.{Lit};
    ghost use Rattle.plan_rules.specs.Readings.{literal_flaws, literal_tree};

    type Item = Lit;

    ghost Tree = { Lit };

    ghost plain = { λ lit. lit };

    ghost tree = { λ self parts. literal_tree self.fluents.now parts };

    ghost flaws = { λ self span parts. literal_flaws self.fluents.now span parts };

    fn read(&self, alloc: Global, span: Span, parts: &[Form]) -> Result<Lit, ReadErr> {
        match group_after(parts, b"not") {
            Some((inner, atom)) => Ok(Lit {
                fluent: read_atom(alloc, self.fluents, span, inner, atom)?,
                positive: false,
            }),
            None => Ok(Lit {
                fluent: read_atom(alloc, self.fluents, span, span, parts)?,
                positive: true,
            }),
        }
    }
}

// The fluent with the words of the list at `span`, which stands in the literal at `outer`.
fn read_atom(
    alloc: Global,
    fluents: &NameTable,
    outer: Span,
    span: Span,
    row: &[Form],
) -> Result<FluentId, ReadErr>
    ensures sound { IfOk result
        (λ fluent. atom_flaws fluents.now outer span (forest_of row.now) ≡ []) }
    ensures read { IfOk result
        (λ fluent. fluent.0 ≡ number_of_words fluents.now (forest_of row.now)) }
    ensures fault { IfErr result (λ e. IfFault e (λ fault.
        first_listed (atom_flaws fluents.now outer span (forest_of row.now))
        ≡ Some fault)) }
{
    if !are_words(row) {
        return Err(fault_at(outer, FaultKind::BadForm));
    }
    if begins_with(row, b"not") {
        return Err(fault_at(span, FaultKind::BadForm));
    }
    match fluents.number(alloc, row)? {
        Some(number) => Ok(FluentId(number)),
        None => Err(fault_at(span, FaultKind::UnknownName)),
    }
}

/// The literals of a cube.
pub fn read_cube(alloc: Global, fluents: &NameTable, row: &[Form]) -> Result<Vec<Lit>, ReadErr>
    ensures sound { IfOk result
        (λ cube. cube_flaws fluents.now (forest_of row.now) ≡ []) }
    ensures read { IfOk result
        (λ cube. cube.items ≡ cube_tree fluents.now (forest_of row.now)) }
    ensures fault { IfErr result (λ e. IfFault e (λ fault.
        first_listed (cube_flaws fluents.now (forest_of row.now)) ≡ Some fault)) }
{
    read_groups(alloc, &LiteralReader { fluents }, row)
}

/// The action with the words of the list at `span`.
pub(crate) fn read_action(
    alloc: Global,
    actions: &NameTable,
    span: Span,
    row: &[Form],
) -> Result<ActionId, ReadErr>
    ensures sound { IfOk result
        (λ action. action_flaws actions.now span (forest_of row.now) ≡ []) }
    ensures read { IfOk result
        (λ action. action.0 ≡ number_of_words actions.now (forest_of row.now)) }
    ensures fault { IfErr result (λ e. IfFault e (λ fault.
        first_listed (action_flaws actions.now span (forest_of row.now)) ≡ Some fault)) }
{
    match actions.number(alloc, row)? {
        Some(number) => Ok(ActionId(number)),
        None => Err(fault_at(span, FaultKind::UnknownAction)),
    }
}

/// The number from 1 up to `most` that the word writes.
pub(crate) fn number_within(most: u32, text: &Text) -> Option<u32>
    ensures { result ≡ number_within most text.now }
{
    numeral(text).filter(|number| 1 <= *number && *number <= most)
}

/// The number from 1 up to `most` that the form is.
pub(crate) fn read_number(most: u32, form: View<'_>) -> Result<u32, ReadErr>
    ensures sound { IfOk result (λ number. number_flaws most (item_of form.entry) ≡ []) }
    ensures read { IfOk result (λ number. number ≡ number_tree most (item_of form.entry)) }
    ensures fault { IfErr result (λ e. IfFault e (λ fault.
        first_listed (number_flaws most (item_of form.entry)) ≡ Some fault)) }
{
    match form {
        View::Word(span, text) => match number_within(most, text) {
            Some(number) => Ok(number),
            None => Err(fault_at(span, FaultKind::BadNumber)),
        },
        View::Group(span, _) => Err(fault_at(span, FaultKind::BadForm)),
    }
}
