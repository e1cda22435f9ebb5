//! Which shapes are told.

ghost use Rattle.lint_shapes.specs.Found.{AreFound};
ghost use Rattle.std.specs.Prelude.{IfOk, OnOk};

use lint_shapes::OneOf;
use std::alloc::{AllocError, Global};
use task_core::{FluentId, State, Task};

/// The most shapes that are told.
const MOST_TOLD: usize = 10;

/// At most ten of some shapes, those with the largest groups first.
pub(crate) fn chosen(
    alloc: Global,
    task: &Task,
    found: Vec<OneOf>,
) -> Result<Vec<OneOf>, AllocError>
    requires { AreFound task.now found.items }
    ensures { IfOk result (λ chosen. AreFound task.now chosen.items) }
{
    let mut left = found;
    let mut chosen = Vec::new(alloc);
    for _ in 0..MOST_TOLD {
        take_largest(task, &mut left, &mut chosen)?;
    }
    Ok(chosen)
}

/// Takes the shape with the largest group.
fn take_largest(
    task: &Task,
    left: &mut Vec<OneOf>,
    chosen: &mut Vec<OneOf>,
) -> Result<(), AllocError>
    requires left { AreFound task.now left.old.items }
    requires chosen { AreFound task.now chosen.old.items }
    ensures left { OnOk result (AreFound task.now left.new.items) }
    ensures chosen { OnOk result (AreFound task.now chosen.new.items) }
{
    let place = largest(task, left);
    if place >= left.len() {
        return Ok(());
    }
    let one = left.remove(place);
    chosen.push(one)?;
    Ok(())
}

/// The place of the first of the shapes with the largest group.
fn largest(task: &Task, shapes: &[OneOf]) -> usize {
    let mut place = 0;
    let mut most = 0;
    for (number, one) in shapes.iter().enumerate() {
        let size = largest_size(task, &one.groups);
        if size > most {
            place = number;
            most = size;
        }
    }
    place
}

/// How many members the largest of some groups has.
fn largest_size(task: &Task, groups: &[State]) -> u32 {
    let mut most = 0;
    for group in groups {
        most = most.max(size_of(task, group));
    }
    most
}

/// How many members a group has.
fn size_of(task: &Task, group: &State) -> u32 {
    let mut size: u32 = 0;
    for number in 0..task.fluents.len() as u32 {
        if group.get(FluentId(number)) {
            size = size.saturating_add(1);
        }
    }
    size
}
