//! The objects of a problem.

ghost use Rattle.std.specs.Prelude.{◌≡◌, [], Some, IfOk, OnOk, IfErr};
ghost use Rattle.sexpr_text.specs.Flaws.{first_listed};
ghost use Rattle.sexpr_text.specs.Forest.{forest_of};
ghost use Rattle.sexpr_text.specs.Passes.{IfFault};
ghost use Rattle.pddl_ast.specs.Environment.{known_value};
ghost use Rattle.pddl_ast.specs.TypedLists as lists;
ghost use Rattle.pddl_problem.specs.Problems as problems;

use pddl_ast::{Declares, Known, Named, objects_of, read_typed_list};
use sexpr_text::{Form, ReadErr};
use std::alloc::Global;

/// The objects of a typed list, of which the names are known afterwards.
pub(crate) fn read_objects(
    alloc: Global,
    known: &mut Known,
    list: &[Form],
) -> Result<Vec<Named>, ReadErr>
    ensures sound { OnOk result (lists.typed_list_flaws Declares.Objects
        (known_value known.old).types (known_value known.old).objects (forest_of list.now) ≡ []) }
    ensures read { IfOk result (λ objects. objects.items
        ≡ lists.objects_of (known_value known.old).types (lists.typed_groups
        (forest_of list.now))) }
    ensures known { OnOk result (known_value known.new
        ≡ problems.with_objects (known_value known.old) (forest_of list.now)) }
    ensures fault { IfErr result (λ e. IfFault e (λ f.
        first_listed (lists.typed_list_flaws Declares.Objects (known_value known.old).types
        (known_value known.old).objects (forest_of list.now)) ≡ Some f)) }
{
    let groups = read_typed_list(
        alloc,
        Declares::Objects,
        &known.types,
        &mut known.objects,
        list,
    )?;
    Ok(objects_of(alloc, &known.types, groups)?)
}
