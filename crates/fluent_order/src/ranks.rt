//! Ranks of a list's elements.

ghost use Rattle.fluent_order.specs.Orders.{IsOrderOf};
ghost use Rattle.std.specs.List.{range_with_len};
ghost use Rattle.std.specs.Prelude.{◌≡◌, IfOk, length};

use std::alloc::{AllocError, Global};

/// For each key how many keys stand before it once they are sorted: those that are less, and those
/// of its size before it.
#[tactic(auto, using(crate::proofs::Ranges::order_of_order))]
pub(crate) fn ranks(alloc: Global, keys: &[usize]) -> Result<Vec<usize>, AllocError>
    ensures { IfOk result (λ ranks. IsOrderOf (length keys.now) ranks.items) }
{
    let sorted = sorted_places(alloc, keys)?;
    sorted_places(alloc, &sorted)
}

/// The places of the keys, those of lesser keys first, and those of equal keys in their order.
#[tactic(auto, using(crate::proofs::Ranges::order_of))]
fn sorted_places(alloc: Global, keys: &[usize]) -> Result<Vec<usize>, AllocError>
    ensures { IfOk result (λ places. IsOrderOf (length keys.now) places.items) }
{
    let mut places = first_numbers(alloc, keys.len())?;
    places.sort_by_key(|&place| keys.get(place).copied().unwrap_or(0))?;
    Ok(places)
}

/// The numbers below a count, in rising order.
#[tactic(auto, using(crate::proofs::Ranges::range_more))]
fn first_numbers(alloc: Global, count: usize) -> Result<Vec<usize>, AllocError>
    ensures { IfOk result (λ numbers. numbers.items ≡ range_with_len 0 count) }
{
    let mut numbers = Vec::with_capacity(alloc, count)?;
    for number in 0..count {
        numbers.push(number)?;
    }
    Ok(numbers)
}
