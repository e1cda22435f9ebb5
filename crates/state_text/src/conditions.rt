//! The text of a condition.

ghost use Rattle.plan_rules.specs.Texts.{atom_text, name_at};
ghost use Rattle.state_text.specs.Texts.{after_space, condition_text, conditions_text};
ghost use Rattle.std.specs.List.{flat_map};
ghost use Rattle.std.specs.Prelude.{◌≡◌, ◌++◌, OnOk, codes, map, string_bytes};
ghost use Rattle.std.specs.Rc.{rc_str_bytes};
ghost use Rattle.task_core.specs.Names.{name_bytes};
ghost use Rattle.task_core.specs.Tasks.{fluent_names};

use plan_rules::push_name;
use std::alloc::AllocError;
use std::rc::RcStr;
use task_core::{Cond, FluentId, Task};

/// The name of a fluent; the empty one past the last.
pub(crate) fn name_of(fluents: &[Vec<RcStr>], fluent: FluentId) -> &[RcStr]
    ensures { map rc_str_bytes result.now ≡ name_at (map name_bytes fluents.now) fluent.0 }
{
    match fluents.get(fluent.0 as usize) {
        Some(name) => name,
        None => &[],
    }
}

/// Appends conditions, each after a space.
#[cycle(printing)]
pub fn push_conditions(
    out: &mut String,
    fluents: &[Vec<RcStr>],
    conds: &[Cond],
) -> Result<(), AllocError>
    ensures { OnOk result (string_bytes out.new ≡ string_bytes out.old
        ++ flat_map after_space (map (condition_text (map name_bytes fluents.now)) conds.now)) }
{
    for cond in conds {
        out.push(' ')?;
        push_condition(out, fluents, cond)?;
    }
    Ok(())
}

/// Appends a condition, as `(at a)`, `(not (at a))`, `(and (at a) (at b))` or `(or (at a) (at b))`.
#[cycle(printing)]
pub fn push_condition(
    out: &mut String,
    fluents: &[Vec<RcStr>],
    cond: &Cond,
) -> Result<(), AllocError>
    ensures { OnOk result (string_bytes out.new ≡ string_bytes out.old
        ++ condition_text (map name_bytes fluents.now) cond.now) }
{
    match cond {
        Cond::Yes => out.push_str("(and)"),
        Cond::No => out.push_str("(or)"),
        Cond::Is(fluent) => push_name(out, name_of(fluents, *fluent)),
        Cond::Not(part) => {
            out.push_str("(not ")?;
            push_condition(out, fluents, part)?;
            out.push(')')
        }
        Cond::All(parts) => {
            out.push_str("(and")?;
            push_conditions(out, fluents, parts)?;
            out.push(')')
        }
        Cond::Any(parts) => {
            out.push_str("(or")?;
            push_conditions(out, fluents, parts)?;
            out.push(')')
        }
    }
}

/// Appends conditions, each after a space.
pub fn push_parts(out: &mut String, task: &Task, parts: &[&Cond]) -> Result<(), AllocError>
    ensures { OnOk result (string_bytes out.new ≡ string_bytes out.old
        ++ conditions_text (fluent_names task.now) (map (λ part. part.now) parts.now)) }
{
    for part in parts {
        out.push(' ')?;
        push_condition(out, &task.fluents, part)?;
    }
    Ok(())
}
