//! Whether a task has an initial state, by its sets.

ghost use Rattle.encode_task.specs.Made.{MadeOf};
ghost use Rattle.std.specs.Prelude.{◌≡◌, ◌↔◌, [], IsTrue};
ghost use Rattle.task_core.specs.Tasks.{initial_states};

use encode_task::Enc;
use task_core::{Task, tasks_have_systems};

/// Whether a task has no initial state, by its sets.
pub fn has_no_initial(task: &Task, enc: &Enc) -> bool
    requires made { MadeOf task.now enc.now }
    ensures { IsTrue result ↔ (initial_states task.now ≡ []) }
{
    // This does nothing: that initial states are states rests on what it promises.
    tasks_have_systems(task);
    enc.sets().is_none(enc.initial())
}
