//! Copies of conditions.

ghost use Rattle.std.specs.Prelude.{◌≡◌, IfOk, map};
ghost use Rattle.ctl_syntax.specs.Conditions.{condition_value};

use std::alloc::{AllocError, Global};
use task_core::Cond;

/// Copies of conditions. Fails only where memory runs out.
#[cycle(copying)]
pub fn copied_conditions(alloc: Global, conds: &[Cond]) -> Result<Vec<Cond>, AllocError>
    ensures { IfOk result (λ copies.
        map condition_value copies.items ≡ map condition_value conds.now) }
{
    let mut copies = Vec::new(alloc);
    for cond in conds {
        copies.push(copied_condition(alloc, cond)?)?;
    }
    Ok(copies)
}

/// A copy of a condition. Fails only where memory runs out.
#[cycle(copying)]
pub fn copied_condition(alloc: Global, cond: &Cond) -> Result<Cond, AllocError>
    ensures { IfOk result (λ copy. condition_value copy ≡ condition_value cond.now) }
{
    match cond {
        Cond::Yes => Ok(Cond::Yes),
        Cond::No => Ok(Cond::No),
        Cond::Is(fluent) => Ok(Cond::Is(*fluent)),
        Cond::Not(part) => {
            let copy = copied_condition(alloc, part)?;
            Ok(Cond::Not(Box::new(alloc, copy)?))
        }
        Cond::All(parts) => Ok(Cond::All(copied_conditions(alloc, parts)?)),
        Cond::Any(parts) => Ok(Cond::Any(copied_conditions(alloc, parts)?)),
    }
}
