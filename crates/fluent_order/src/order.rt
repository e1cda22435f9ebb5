//! The order of a task's fluents.

ghost use Rattle.fluent_order.specs.Orders.{IsOrderOf};
ghost use Rattle.std.specs.Prelude.{◌≡◌, IfOk, length};
ghost use Rattle.task_core.specs.Tasks.{fluent_count};

use crate::drawing::drawn_together;
use crate::groups::groups_of;
use crate::objects::object_numbers;
use crate::ranks::ranks;
use std::alloc::{AllocError, Global};
use task_core::Task;

/// The place of each fluent, counted from 0, in an order in which diagrams over the fluents are
/// often small: fluents that the same actions speak of stand near each other.
///
/// The time and the memory grow with the size of the task. That the diagrams are smaller is not
/// promised: they may also be larger than in the order of the fluents' numbers.
pub fn fluent_order(alloc: Global, task: &Task) -> Result<Vec<usize>, AllocError>
    ensures permutation { IfOk result (λ places. IsOrderOf (fluent_count task.now) places.items) }
    ensures count { IfOk result (λ places. length places.items ≡ fluent_count task.now) }
{
    let begun = by_object(alloc, task)?;
    let groups = groups_of(alloc, task)?;
    drawn_together(alloc, &groups, &begun)
}

/// The order object by object: the fluents of an object stand together, in the order of their
/// numbers, and objects in the order in which the fluents' names first have them.
#[tactic(auto, using(crate::proofs::Ranges::order_length))]
fn by_object(alloc: Global, task: &Task) -> Result<Vec<usize>, AllocError>
    ensures permutation { IfOk result (λ places. IsOrderOf (fluent_count task.now) places.items) }
    ensures count { IfOk result (λ places. length places.items ≡ fluent_count task.now) }
{
    let objects = object_numbers(alloc, &task.fluents)?;
    ranks(alloc, &objects)
}
