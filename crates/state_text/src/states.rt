//! The texts of states, and of what changes.

ghost use Rattle.plan_rules.specs.Texts.{atom_text};
ghost use Rattle.state_text.specs.Texts.{
  change_line,
  changes_text,
  true_text,
  true_word,
};
ghost use Rattle.std.specs.Prelude.{◌≡◌, ◌++◌, OnOk, map, string_bytes};
ghost use Rattle.std.specs.Rc.{rc_str_bytes};
ghost use Rattle.task_core.specs.States.{vector};
ghost use Rattle.task_core.specs.Tasks.{fluent_count, fluent_names};

use crate::conditions::name_of;
use plan_rules::push_name;
use std::alloc::AllocError;
use std::rc::RcStr;
use task_core::{FluentId, State, Task};

/// Appends the true fluents of a state, each after a space.
pub fn push_true(out: &mut String, task: &Task, state: &State) -> Result<(), AllocError>
    ensures { OnOk result (string_bytes out.new ≡ string_bytes out.old
        ++ true_text (fluent_names task.now) (vector (fluent_count task.now) state.now)) }
{
    for number in 0..task.fluents.len() as u32 {
        let fluent = FluentId(number);
        push_true_word(out, name_of(&task.fluents, fluent), state.get(fluent))?;
    }
    Ok(())
}

/// Appends a name after a space, if it is wanted.
fn push_true_word(out: &mut String, name: &[RcStr], is_true: bool) -> Result<(), AllocError>
    ensures { OnOk result (string_bytes out.new ≡ string_bytes out.old
        ++ true_word (map rc_str_bytes name.now) is_true) }
{
    if !is_true {
        return Ok(());
    }
    out.push(' ')?;
    push_name(out, name)
}

/// Appends a line for each fluent that has another value after a step: `+` and its name where it
/// became true, `-` and its name where it became false.
pub fn push_changes(
    out: &mut String,
    task: &Task,
    before: &State,
    after: &State,
) -> Result<(), AllocError>
    ensures { let n = fluent_count task.now in
        OnOk result (string_bytes out.new ≡ string_bytes out.old
        ++ changes_text (fluent_names task.now) (vector n before.now) (vector n after.now)) }
{
    for number in 0..task.fluents.len() as u32 {
        let fluent = FluentId(number);
        let name = name_of(&task.fluents, fluent);
        push_change(out, name, before.get(fluent), after.get(fluent))?;
    }
    Ok(())
}

/// Appends the line of a fluent, if its value changed.
fn push_change(
    out: &mut String,
    name: &[RcStr],
    before: bool,
    after: bool,
) -> Result<(), AllocError>
    ensures { OnOk result (string_bytes out.new ≡ string_bytes out.old
        ++ change_line (map rc_str_bytes name.now) before after) }
{
    if before == after {
        return Ok(());
    }
    out.push_str(if after { "  + " } else { "  - " })?;
    push_name(out, name)?;
    out.push('\n')
}
