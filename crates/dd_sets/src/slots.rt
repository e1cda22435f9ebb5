//! Slots, and the numbers that they hold.
ghost use Rattle.std.specs.Prelude.{◌≡◌, IfOk, Some, map, length, slice_set};
ghost use Rattle.slab.specs.Slab.{ContainsKey, entries};
ghost use Rattle.dd_sets.specs.Stores.{Stored, renumbered};

use crate::SetErr;
use dd_nodes::Ref;
use slab::Slab;
use std::alloc::{AllocError, Global};

/// A slot: it holds a set from the call that answers it up to its release, and may then come again.
#[derive(Clone, Copy, Debug, PartialEq, Eq)]
pub struct SetId(pub usize);

/// A new slot for a number.
pub fn store(slots: &mut Slab<Ref>, number: Ref) -> Result<SetId, SetErr>
    ensures { Stored slots.old.slots slots.new.slots number result }
{
    match slots.insert(number) {
        Ok(slot) => Ok(SetId(slot)),
        Err(_) => Err(SetErr::Memory),
    }
}

/// The slots that hold a number, in their order.
pub fn live_slots(alloc: Global, slots: &Slab<Ref>) -> Result<Vec<usize>, AllocError>
    ensures { IfOk result (λ keys. keys.items ≡ map (λ entry. entry.0) (entries slots.now)) }
{
    let mut keys = Vec::new(alloc);
    for (key, _) in slots.iter() {
        keys.push(key)?;
    }
    Ok(keys)
}

/// The numbers that slots hold, in the order of the slots.
pub fn live_numbers(alloc: Global, slots: &Slab<Ref>) -> Result<Vec<Ref>, AllocError>
    ensures { IfOk result (λ numbers. numbers.items ≡ map (λ entry. entry.1) (entries slots.now)) }
{
    let mut numbers = Vec::new(alloc);
    for (_, number) in slots.iter() {
        numbers.push(*number)?;
    }
    Ok(numbers)
}

/// Gives a slot that holds a number another one.
fn put(slots: &mut Slab<Ref>, key: usize, number: Ref)
    requires { ContainsKey slots.old key }
    ensures { slots.new.slots ≡ slice_set slots.old.slots key (Some number) }
{
    slots[key] = number;
}

/// Gives the slots that hold a number new ones, in their order.
pub fn renumber(slots: &mut Slab<Ref>, keys: &[usize], numbers: &[Ref])
    requires keys { keys.now ≡ map (λ entry. entry.0) (entries slots.old) }
    requires count { length numbers.now ≡ length keys.now }
    ensures { slots.new.slots ≡ renumbered slots.old.slots numbers.now }
{
    for (place, key) in keys.iter().enumerate() {
        put(slots, *key, numbers[place]);
    }
}
