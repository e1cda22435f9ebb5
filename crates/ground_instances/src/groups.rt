//! Types that have the same objects, found on the ways from the objects' types up.

ghost use Rattle.std.specs.Prelude.{◌≡◌, ℕ, ◌<◌, ◌≤◌, All, IfOk, length, map, slice_index};
ghost use Rattle.ground_instances.specs.Groups.{AreFar, AreGroups, AreSteps, AreWays, Begins};
ghost use Rattle.ground_instances.specs.Groups.{HasWays};
ghost use Rattle.pddl_ast.specs.Fits.{ancestor};

use pddl_ast::TypeId;
use std::alloc::{AllocError, Global};

/// Types in groups of those that have the same objects. The types of a group stand in a row, each
/// but the topmost below its parent.
#[derive(Drop)]
pub struct Groups {
    /// The topmost type of each type's group.
    pub tops: Vec<TypeId>,
    /// The topmost type of the group of each type's parent.
    pub parents: Vec<TypeId>,
}

/// The groups of types where objects have these types. Takes `n log n` steps for `n` types, and one
/// for each object.
pub fn groups_of(alloc: Global, parents: &[TypeId], types: &[TypeId]) -> Result<Groups, AllocError>
    requires parents { All (λ t. t < length parents.now) parents.now }
    requires rooted { (t : ℕ) → t < length parents.now
        → ancestor parents.now (length parents.now) t ≡ 0 }
    requires types { All (λ t. t < length parents.now) types.now }
    ensures { IfOk result
        (λ groups. AreGroups parents.now types.now groups.tops.items groups.parents.items) }
{
    let below = types_below(alloc, parents, types)?;
    let steps = steps_in_groups(alloc, parents, &below)?;
    let tops = far_steps(alloc, &steps)?;
    let above = at_all(alloc, &tops, parents)?;
    Ok(Groups {
        tops,
        parents: above,
    })
}

/// Goes up from some types, and says of each type that a way came to from which one type below it
/// the way came; the type itself where a way begins there or ways came to it from two types.
fn types_below(
    alloc: Global,
    parents: &[TypeId],
    types: &[TypeId],
) -> Result<Vec<TypeId>, AllocError>
    requires parents { All (λ t. t < length parents.now) parents.now }
    requires types { All (λ t. t < length parents.now) types.now }
    ensures { IfOk result (λ below. HasWays parents.now types.now below.items) }
{
    let mut seen = vec![in alloc; false; parents.len()]?;
    let mut below = Vec::from_slice(alloc, parents)?;
    go_up_from_all(&mut seen, &mut below, parents, types);
    Ok(below)
}

/// Goes up from each of some types.
fn go_up_from_all(seen: &mut [bool], below: &mut [TypeId], parents: &[TypeId], types: &[TypeId])
    requires parents { All (λ t. t < length parents.now) parents.now }
    requires types { All (λ t. t < length parents.now) types.now }
    requires ways { AreWays parents.now seen.old below.old }
    ensures ways { AreWays parents.now seen.new below.new }
    ensures begun { All (Begins seen.new below.new) types.now }
{
    for type_id in types {
        go_up(seen, below, parents, *type_id);
    }
}

/// Goes up from a type, where a way begins, to the first type that a way came to before.
fn go_up(seen: &mut [bool], below: &mut [TypeId], parents: &[TypeId], type_id: TypeId)
    requires parents { All (λ t. t < length parents.now) parents.now }
    requires type_id { type_id < length parents.now }
    requires ways { AreWays parents.now seen.old below.old }
    ensures ways { AreWays parents.now seen.new below.new }
    ensures begun { Begins seen.new below.new type_id }
    ensures kept { (t : ℕ) → Begins seen.old below.old t → Begins seen.new below.new t }
{
    let mut kind = type_id;
    let mut before = type_id;
    while !seen[kind] {
        seen[kind] = true;
        below[kind] = before;
        before = kind;
        kind = parents[kind];
    }
    below[kind] = kind;
}

/// For each type its parent where that has the same objects, and the type itself otherwise.
fn steps_in_groups(
    alloc: Global,
    parents: &[TypeId],
    below: &[TypeId],
) -> Result<Vec<TypeId>, AllocError>
    requires parents { All (λ t. t < length parents.now) parents.now }
    requires below { length below.now ≡ length parents.now }
    ensures { IfOk result (λ steps. AreSteps parents.now below.now steps.items) }
{
    let mut steps = Vec::new(alloc);
    for (kind, parent) in parents.iter().enumerate() {
        let is_lone = below[*parent] == kind;
        steps.push(if is_lone { *parent } else { kind })?;
    }
    Ok(steps)
}

/// Where as many steps as there are types, or more, lead from each type.
fn far_steps(alloc: Global, steps: &[TypeId]) -> Result<Vec<TypeId>, AllocError>
    requires { All (λ t. t < length steps.now) steps.now }
    ensures { IfOk result (λ far. AreFar steps.now far.items) }
{
    let mut far = Vec::from_slice(alloc, steps)?;
    let mut count = 1;
    while count < steps.len() {
        far = at_all(alloc, &far, &far)?;
        count *= 2;
    }
    Ok(far)
}

/// What a list has at each of some places.
fn at_all(alloc: Global, list: &[TypeId], places: &[TypeId]) -> Result<Vec<TypeId>, AllocError>
    requires { All (λ t. t < length list.now) places.now }
    ensures { IfOk result (λ found. found.items ≡ map (slice_index list.now) places.now) }
{
    places.iter().map(|place| list[*place]).collect(alloc)
}
