//! The constants of a domain.

ghost use Rattle.std.specs.Prelude.{◌≡◌, [], IfOk, IfErr, OnOk, Some};
ghost use Rattle.sexpr_text.specs.Forest.{forest_of};
ghost use Rattle.sexpr_text.specs.Flaws.{first_listed};
ghost use Rattle.sexpr_text.specs.Passes.{IfFault};
ghost use Rattle.pddl_ast.specs.TypedLists.{names_of, typed_groups};
ghost use Rattle.pddl_domain.specs.Constants as specs;

use pddl_ast::{Declares, NameTable, Named, objects_of, read_typed_list};
use sexpr_text::{Form, ReadErr};
use std::alloc::Global;

/// The constants of a `:constants` section with these forms after its word, and their names by
/// number.
#[tactic(auto, using(crate::proofs::ListLemmas::all_objects))]
pub fn read_constants(
    alloc: Global,
    types: &NameTable,
    list: &[Form],
) -> Result<(Vec<Named>, NameTable), ReadErr>
    ensures sound { OnOk result (specs.constants_flaws types.now (forest_of list.now) ≡ []) }
    ensures read { IfOk result
        (λ p. p.0.items ≡ specs.constants_of types.now (forest_of list.now)) }
    ensures names { IfOk result (λ p. p.1 ≡ names_of (typed_groups (forest_of list.now))) }
    ensures fault { IfErr result
        (λ e. IfFault e (λ f. first_listed (specs.constants_flaws types.now (forest_of list.now))
        ≡ Some f)) }
{
    let mut names = NameTable::new(alloc);
    let groups = read_typed_list(alloc, Declares::Objects, types, &mut names, list)?;
    Ok((objects_of(alloc, types, groups)?, names))
}
