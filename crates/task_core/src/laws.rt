//! Laws of the definitions, each as the contract of a function that does nothing.

ghost use Rattle.std.specs.Prelude.{◌≡◌, ◌≢◌, ℕ, Bool, List, ◌++◌, length};
ghost use Rattle.std.specs.List.{AllPairs, list_any};
ghost use Rattle.task_core.specs.Initial.{Entry, after_entries};
ghost use Rattle.task_core.specs.Vectors.{Vector};
ghost use Rattle.task_core.specs.Conditions.{AlwaysHolds};
ghost use Rattle.task_core.specs.Systems.{AreNumbered, IsSystem};
ghost use Rattle.task_core.specs.Cubes.{matches, cubes_from, cubes_of};
ghost use Rattle.task_core.specs.Tasks.{EachVectorIsAState, system_of};

use crate::Task;

/// The cubes of a set of states match exactly the states in it. The cubes over the fluents from
/// `first` on do so behind the values of the fluents before.
pub fn cubes_match_their_set()
    ensures all_fluents { (n : ℕ) (set : Vector → Bool) (v : Vector) → length v ≡ n
        → list_any (λ cube. matches cube v) (cubes_of n set) ≡ set v }
    ensures later_fluents { (first : ℕ) (n : ℕ) (set : Vector → Bool) (before : Vector) (v : Vector)
        → length before ≡ first → length v ≡ n
        → list_any (λ cube. matches cube (before ++ v)) (cubes_from first n set) ≡ set v }
{}

/// The parts of a task's system fit together: its initial and goal states and its outcomes are
/// states, only its actions can be executed, and only in states; and the states to which an action
/// leads are those of its outcomes by their numbers.
pub fn tasks_have_systems(task: &Task)
    ensures system { IsSystem (system_of task.now) }
    ensures numbered { AreNumbered (system_of task.now) }
{}

/// Where the invariant always holds, as it does where a domain has none, each vector is a state, an
/// action can be executed where its precondition holds, and every outcome of it takes place.
pub fn without_invariant_each_vector_is_a_state(task: &Task)
    ensures { AlwaysHolds task.now.invariant → EachVectorIsAState task.now }
{}

/// No state is listed twice among those after some uncertain entries.
pub fn initial_states_differ()
    ensures { (n : ℕ) (facts : Vector) (entries : List Entry)
        → AllPairs (λ v w. v ≢ w) (after_entries n facts entries) }
{}
