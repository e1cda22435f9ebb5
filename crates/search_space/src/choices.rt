//! A condition as a choice of partial states.

use crate::bits::Part;
use std::alloc::{AllocError, Global};
use task_core::Cond;

/// The most partial states of such a choice.
const MOST_CHOICES: usize = 256;

/// Partial states such that a condition has a value exactly where one of them is had; some of them
/// alone where they would be too many.
pub fn choices_of(alloc: Global, cond: &Cond, value: bool) -> Result<Vec<Part>, AllocError> {
    match cond {
        Cond::Yes => always(alloc, value),
        Cond::No => always(alloc, !value),
        Cond::Is(fluent) => {
            let mut part = Part::none();
            part.add(fluent.0, value);
            one(alloc, part)
        }
        Cond::Not(of) => choices_of(alloc, of, !value),
        Cond::All(parts) => {
            let mut choices = always(alloc, value)?;
            for part in parts {
                let others = choices_of(alloc, part, value)?;
                choices = joined(alloc, &choices, &others, value)?;
            }
            Ok(choices)
        }
        Cond::Any(parts) => {
            let mut choices = always(alloc, !value)?;
            for part in parts {
                let others = choices_of(alloc, part, value)?;
                choices = joined(alloc, &choices, &others, !value)?;
            }
            Ok(choices)
        }
    }
}

/// The choice of any state, or of none.
fn always(alloc: Global, is_any: bool) -> Result<Vec<Part>, AllocError> {
    if is_any {
        return one(alloc, Part::none());
    }
    Ok(Vec::new(alloc))
}

fn one(alloc: Global, part: Part) -> Result<Vec<Part>, AllocError> {
    let mut parts = Vec::new(alloc);
    parts.push(part)?;
    Ok(parts)
}

/// The choice where both are had, or one of them.
fn joined(
    alloc: Global,
    parts: &[Part],
    others: &[Part],
    both: bool,
) -> Result<Vec<Part>, AllocError> {
    let mut choices = Vec::new(alloc);
    if !both {
        push_few(parts, &mut choices)?;
        push_few(others, &mut choices)?;
        return Ok(choices);
    }
    for part in parts {
        for other in others {
            if part.agrees(other) && choices.len() < MOST_CHOICES {
                choices.push(part.joined(other))?;
            }
        }
    }
    Ok(choices)
}

/// Adds partial states, as long as they are few.
fn push_few(parts: &[Part], choices: &mut Vec<Part>) -> Result<(), AllocError> {
    for part in parts {
        if choices.len() < MOST_CHOICES {
            choices.push(*part)?;
        }
    }
    Ok(())
}
