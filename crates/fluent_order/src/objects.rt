//! Which object a fluent is told of.

ghost use Rattle.std.specs.Prelude.{◌≡◌, IfOk, length};

use indexmap::IndexSet;
use std::alloc::{AllocError, Global};
use std::rc::RcStr;

/// For each name the number of its first object, counted from 1 in the order in which the names
/// first have them; 0 for a name that has none. The object is the word after the first one.
pub(crate) fn object_numbers(alloc: Global, names: &[Vec<RcStr>]) -> Result<Vec<usize>, AllocError>
    ensures { IfOk result (λ numbers. length numbers.items ≡ length names.now) }
{
    let mut objects = IndexSet::new(alloc);
    let mut numbers = Vec::new(alloc);
    for name in names {
        let number = match name.get(1) {
            Some(object) => number_in(&mut objects, object.as_str())?,
            None => 0,
        };
        numbers.push(number)?;
    }
    Ok(numbers)
}

/// The number of an object among these, counted from 1; it becomes the last one if it isn't there.
fn number_in<'a>(objects: &mut IndexSet<&'a str>, object: &'a str) -> Result<usize, AllocError> {
    let (place, _) = objects.insert_full(object)?;
    Ok(place.saturating_add(1))
}
