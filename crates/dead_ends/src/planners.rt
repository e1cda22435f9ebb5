//! What looks for plans.

ghost use Rattle.dead_ends.specs.Planners.{IsFoundFor};
ghost use Rattle.std.specs.Prelude.{IfOk, IfSome, IsSome};

use plan_rules::Class;
use plan_theory::Found;
use std::alloc::{AllocError, Global};
use task_core::Task;

/// What looks for plans. `fits` says what it asks of itself.
pub trait Planner {
    ghost fits: { Self → Type 0 };

    /// The plan of a class for a task, or that there is none; `None` where it can't tell, and where the
    /// task has no initial state.
    fn find(&self, alloc: Global, class: Class, task: &Task) -> Result<Option<Found>, AllocError>
        requires fits { fits self.now }
        requires goal { IsSome task.now.goal }
        ensures { IfOk result (λ found. IfSome found (IsFoundFor class task.now)) };
}
