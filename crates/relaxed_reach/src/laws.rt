//! Laws of the definitions, each as the contract of a function that does nothing.

ghost use Rattle.std.specs.Prelude.{◌≡◌, ℕ, Some, false, true};
ghost use Rattle.std.specs.List.{Contains};
ghost use Rattle.task_core.specs.Conditions.{holds};
ghost use Rattle.task_core.specs.Systems.{goal_states};
ghost use Rattle.task_core.specs.Tasks.{system_of};
ghost use Rattle.task_core.specs.Vectors.{Vector, value_of};
ghost use Rattle.task_core.specs.declared.conditions.Cond.{Cond};
ghost use Rattle.relaxed_reach.specs.Literals.{LiteralSet, can_be};
ghost use Rattle.relaxed_reach.specs.Reached.{IsReachable};
ghost use Rattle.relaxed_reach.specs.Relaxed.{IsRelaxed};

use task_core::Task;

/// In each reachable state the value of each fluent is in a relaxed set, and a condition has only a
/// truth value that it can have.
pub fn relaxed_sets_hold_what_is_reached(task: &Task)
    ensures literals { (set : LiteralSet) → IsRelaxed task.now set
        → (state : Vector) → IsReachable (system_of task.now) state
        → (f : ℕ) → set f (value_of state f) ≡ true }
    ensures conditions { (set : LiteralSet) → IsRelaxed task.now set
        → (state : Vector) → IsReachable (system_of task.now) state
        → (cond : Cond) → can_be cond set (holds cond (value_of state)) ≡ true }
{}

/// Where the goal can't hold, no reachable state is a goal state.
pub fn goals_that_cannot_hold_are_never_reached(task: &Task)
    ensures { (set : LiteralSet) → IsRelaxed task.now set
        → (goal : Cond) → task.now.goal ≡ Some goal → can_be goal set true ≡ false
        → (state : Vector) → IsReachable (system_of task.now) state
        → Contains (goal_states (system_of task.now)) state → ⊥ }
{}
