//! How much there is to look at where the actions of a task are tested in a state.

use task_core::{Cond, GroundAction, Task};

/// How many parts conditions have that count as one test.
const PARTS_OF_TEST: usize = 256;

/// How many tests it counts for that all actions of a task are tested in a state: one for each action, or
/// where the conditions are large one for each 256 of their parts.
pub fn tests_in_state(task: &Task) -> usize {
    task.actions.len().max(parts_of_task(task) / PARTS_OF_TEST)
}

/// How many parts the conditions of a task have.
fn parts_of_task(task: &Task) -> usize {
    let mut parts = parts_of(&task.invariant);
    if let Some(goal) = &task.goal {
        parts = parts.saturating_add(parts_of(goal));
    }
    for action in &task.actions {
        parts = parts.saturating_add(parts_of_action(action));
    }
    parts
}

/// How many parts the conditions of an action have.
fn parts_of_action(action: &GroundAction) -> usize {
    let mut parts = parts_of(&action.exec);
    for outcome in &action.outcomes {
        for change in &outcome.changes {
            parts = parts.saturating_add(parts_of(&change.cond));
        }
    }
    parts
}

/// How many parts a condition has, with itself.
fn parts_of(cond: &Cond) -> usize {
    let mut count: usize = 1;
    match cond {
        Cond::Yes | Cond::No | Cond::Is(_) => {}
        Cond::Not(part) => count = parts_of(part).saturating_add(1),
        Cond::All(parts) => {
            for part in parts {
                count = count.saturating_add(parts_of(part));
            }
        }
        Cond::Any(parts) => {
            for part in parts {
                count = count.saturating_add(parts_of(part));
            }
        }
    }
    count
}
