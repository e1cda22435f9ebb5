//! The name of an action.

ghost use Rattle.plan_rules.specs.Texts.{atom_text, name_at};
ghost use Rattle.std.specs.Prelude.{◌≡◌, ◌++◌, OnOk, map, string_bytes};
ghost use Rattle.std.specs.Rc.{rc_str_bytes};
ghost use Rattle.task_core.specs.Tasks.{action_names};

use plan_rules::push_name;
use std::alloc::AllocError;
use std::rc::RcStr;
use task_core::{ActionId, Task};

/// Appends the name of an action, as `(go a b)`; `()` past the last.
pub fn push_action(out: &mut String, task: &Task, action: ActionId) -> Result<(), AllocError>
    ensures { OnOk result (string_bytes out.new ≡ string_bytes out.old
        ++ atom_text (name_at (action_names task.now) action.0)) }
{
    push_name(out, action_name(task, action))
}

/// The name of an action; the empty one past the last.
fn action_name(task: &Task, action: ActionId) -> &[RcStr]
    ensures { map rc_str_bytes result.now ≡ name_at (action_names task.now) action.0 }
{
    match task.actions.get(action.0 as usize) {
        Some(action) => &action.name,
        None => &[],
    }
}
