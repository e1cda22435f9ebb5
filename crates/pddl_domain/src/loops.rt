//! Types that are their own ancestors.

ghost use Rattle.std.specs.Prelude.{◌≡◌, ℕ, ◌<◌, ◌≤◌, ◌^◌, All, map, length, slice_index, IfOk};
ghost use Rattle.std.specs.List.{range_with_len};
ghost use Rattle.pddl_domain.specs.Ancestors.{ancestors, is_own_ancestor, which_of};

use pddl_ast::TypeId;
use std::alloc::{AllocError, Global};

/// The ancestor of each type twice as many steps up.
fn twice(alloc: Global, far: &[TypeId]) -> Result<Vec<TypeId>, AllocError>
    requires { All (λ t. t < length far.now) far.now }
    ensures { IfOk result (λ v. v.items ≡ map (slice_index far.now) far.now) }
{
    far.iter().map(|t| far[*t]).collect(alloc)
}

/// The ancestor of each type, as many steps up as there are types or more.
fn far_ancestors(alloc: Global, parents: &[TypeId]) -> Result<Vec<TypeId>, AllocError>
    requires { All (λ t. t < length parents.now) parents.now }
    ensures { IfOk result
        (λ v. (n : ℕ) × (length parents.now ≤ n) × (v.items ≡ ancestors parents.now n)) }
{
    let mut far = Vec::from_slice(alloc, parents)?;
    let mut steps = 1;
    while steps < parents.len() {
        far = twice(alloc, &far)?;
        steps *= 2;
    }
    Ok(far)
}

/// For each number below the length, whether it stands in the list.
fn which_stand(alloc: Global, list: &[TypeId]) -> Result<Vec<bool>, AllocError>
    requires { All (λ t. t < length list.now) list.now }
    ensures { IfOk result (λ v. v.items ≡ which_of (length list.now) list.now) }
{
    let mut stands = vec![in alloc; false; list.len()]?;
    for t in list {
        stands[*t] = true;
    }
    Ok(stands)
}

/// For each type whether its chain of parents comes back to it. Takes `n log n` steps for `n`
/// types: where a chain has gone on for as many steps as there are types, it is in its loop.
pub fn types_on_loops(alloc: Global, parents: &[TypeId]) -> Result<Vec<bool>, AllocError>
    requires { All (λ t. t < length parents.now) parents.now }
    ensures { IfOk result
        (λ v. v.items ≡ map (is_own_ancestor parents.now) (range_with_len 0 (length parents.now))) }
{
    which_stand(alloc, &far_ancestors(alloc, parents)?)
}
