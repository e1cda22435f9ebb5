//! The predicates of a domain.

ghost use Rattle.std.specs.Prelude.{◌≡◌, ◌≤◌, ◌+◌, ◌^◌, ◌<◌, ◌∷◌, ◌++◌, [], not, IfOk, IfErr, OnOk};
ghost use Rattle.std.specs.Prelude.{Some, map, length};
ghost use Rattle.sexpr_text.specs.Forest.{forest_of};
ghost use Rattle.sexpr_text.specs.Flaws.{first_listed};
ghost use Rattle.sexpr_text.specs.Passes.{IfFault};
ghost use Rattle.pddl_ast.specs.Environment.{group_value};
ghost use Rattle.pddl_ast.specs.TypedLists.{names_of, typed_groups};
ghost use Rattle.pddl_domain.specs.Constants as specs;

use pddl_ast::{
    Declares, NameTable, Predicate, arities_of, is_reserved, read_typed_list, types_fit, types_of,
};
use sexpr_text::{FaultKind, Form, Head, ReadErr, Span, Text, View, fault_at, head_of, is_name};
use std::alloc::Global;

/// The predicates of a domain by their numbers: the names, and how many terms each takes.
#[derive(Drop)]
pub struct Predicates {
    pub list: Vec<Predicate>,
    pub names: NameTable,
    pub arities: Vec<usize>,
}

/// Declares a predicate, where its name is no reserved word and none of the earlier ones.
fn add_name(alloc: Global, names: &mut NameTable, span: Span, name: &Text) -> Result<(), ReadErr>
    ensures sound { OnOk result (specs.predicate_name_flaws names.old span name.now ≡ []) }
    ensures names { OnOk result (names.new ≡ names.old ++ name.now ∷ []) }
    ensures fault { IfErr result
        (λ e. IfFault e (λ f. first_listed (specs.predicate_name_flaws names.old span name.now)
        ≡ Some f)) }
{
    if names.contains(name) {
        return Err(fault_at(span, FaultKind::DoubleName));
    }
    if is_reserved(name) {
        return Err(fault_at(span, FaultKind::ReservedName));
    }
    names.add(alloc, name)?;
    Ok(())
}

/// The number of variables of a predicate.
fn read_arity(alloc: Global, types: &NameTable, variables: &[Form]) -> Result<usize, ReadErr>
    ensures sound { OnOk result (specs.variables_flaws types.now (forest_of variables.now) ≡ []) }
    ensures read { IfOk result
        (λ n. n ≡ length (names_of (typed_groups (forest_of variables.now)))) }
    ensures fault { IfErr result
        (λ e. IfFault e (λ f. first_listed
        (specs.variables_flaws types.now (forest_of variables.now)) ≡ Some f)) }
{
    let mut seen = NameTable::new(alloc);
    let groups = read_typed_list(
        alloc,
        Declares::PredicateVariables,
        types,
        &mut seen,
        variables,
    )?;
    types_fit();
    Ok(types_of(alloc, types, &groups)?.len())
}

/// The predicate that the list with this span and these parts declares.
fn read_predicate(
    alloc: Global,
    types: &NameTable,
    names: &mut NameTable,
    span: Span,
    parts: &[Form],
) -> Result<Predicate, ReadErr>
    ensures sound { OnOk result
        (specs.predicate_flaws types.now names.old span (forest_of parts.now) ≡ []) }
    ensures read { IfOk result
        (λ predicate. specs.predicate_of (forest_of parts.now) ≡ predicate ∷ []) }
    ensures first_word { OnOk result
        (names.new ≡ specs.with_first_word names.old (forest_of parts.now)) }
    ensures name { IfOk result (λ predicate. names.new ≡ names.old ++ predicate.name ∷ []) }
    ensures fault { IfErr result
        (λ e. IfFault e (λ f. first_listed
        (specs.predicate_flaws types.now names.old span (forest_of parts.now)) ≡ Some f)) }
{
    match head_of(parts) {
        Head::Word(word, name, variables) => {
            if !is_name(name) {
                return Err(fault_at(span, FaultKind::BadForm));
            }
            add_name(alloc, names, word, name)?;
            let arity = read_arity(alloc, types, variables)?;
            Ok(Predicate {
                name: Text::new(alloc, name.as_bytes())?,
                arity,
            })
        }
        _ => Err(fault_at(span, FaultKind::BadForm)),
    }
}

/// The predicates of a `:predicates` section with these forms after its word.
pub fn read_predicates(
    alloc: Global,
    types: &NameTable,
    list: &[Form],
) -> Result<Predicates, ReadErr>
    ensures sound { OnOk result (specs.predicates_flaws types.now [] (forest_of list.now) ≡ []) }
    ensures read { IfOk result (λ p. p.list.items ≡ specs.predicates_of (forest_of list.now)) }
    ensures names { IfOk result (λ p. p.names ≡ map (λ q. q.name) p.list.items) }
    ensures arities { IfOk result (λ p. p.arities.items ≡ map (λ q. q.arity) p.list.items) }
    ensures fault { IfErr result
        (λ e. IfFault e (λ f. first_listed
        (specs.predicates_flaws types.now [] (forest_of list.now)) ≡ Some f)) }
{
    let mut predicates = Vec::new(alloc);
    let mut names = NameTable::new(alloc);
    for form in list {
        match form.view() {
            View::Word(span, _) => return Err(fault_at(span, FaultKind::BadForm)),
            View::Group(span, parts) => {
                let predicate = read_predicate(alloc, types, &mut names, span, parts)?;
                predicates.push(predicate)?;
            }
        }
    }
    let arities = arities_of(alloc, &predicates)?;
    Ok(Predicates {
        list: predicates,
        names,
        arities,
    })
}
