//! The sets of a task over variables in an order of their own.

ghost use Rattle.command_base.specs.Words.{IsNodeLimit};
ghost use Rattle.dd_sets.specs.Orders.{IsOwnOrder};
ghost use Rattle.encode_task.specs.Made.{MadeOf};
ghost use Rattle.std.specs.Prelude.{◌≡◌, IfOk, IfSome, length};
ghost use Rattle.task_core.specs.Tasks.{fluent_count};

use dd_sets::{Order, SetErr};
use encode_task::{Enc, encode, encode_in_order};
use fluent_order::fluent_order;
use std::alloc::{AllocError, Global};
use task_core::Task;

/// The order that is chosen for the fluents of a task; `None` where that is the order of their numbers.
pub(crate) fn chosen_order(alloc: Global, task: &Task) -> Result<Option<Order>, AllocError>
    ensures of_task { IfOk result (λ found. IfSome found
        (λ order. length order.fluents ≡ fluent_count task.now)) }
    ensures another { IfOk result (λ found. IfSome found
        (λ order. ¬ IsOwnOrder order.fluents)) }
{
    let places = fluent_order(alloc, task)?;
    match Order::of_places(alloc, &places)? {
        Some(order) => Ok(if order.is_of_fluents() {
            None
        } else {
            Some(order)
        }),
        None => Ok(None),
    }
}

/// The sets of a task, in a table for so many nodes, over variables in the order that is chosen for
/// the task. Nothing is said of why it fails.
pub fn encode_ordered(alloc: Global, task: &Task, nodes: u32) -> Result<Enc, SetErr>
    requires room { IsNodeLimit nodes }
    ensures made { IfOk result (λ enc. MadeOf task.now enc) }
    ensures limit { IfOk result (λ enc. enc.sets.limit ≡ nodes) }
{
    match chosen_order(alloc, task)? {
        Some(order) => encode_in_order(alloc, task, order, nodes),
        None => encode(alloc, task, nodes),
    }
}
