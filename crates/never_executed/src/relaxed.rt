//! A task with the literals that can come true in it.

use relaxed_reach::Literals;
use task_core::Task;

/// A task, and a set of literals.
#[derive(Clone, Copy)]
pub struct Relaxed<'a> {
    pub task: &'a Task,
    pub literals: &'a Literals,
}
