//! Which actions of rules may be taken right after which: a guess by literals alone.

use plan_rules::Rule;
use std::alloc::{AllocError, Global};
use task_core::{ActionId, Cond, FluentId, Lit, Outcome, Task};

/// How many literals of cubes are looked at for one verdict, at most.
const MOST_LOOKED_AT: u64 = 50_000_000;

/// What an outcome writes into a fluent: this value, in each state or in some.
#[derive(Clone, Copy)]
struct Written {
    value: bool,
    always: bool,
}

/// A task with a table of rules, and how many literals may still be looked at.
#[derive(Drop)]
pub(crate) struct Followers<'a> {
    task: &'a Task,
    rules: &'a [Rule],
    left: u64,
}

impl<'a> Followers<'a> {
    pub(crate) fn new(task: &'a Task, rules: &'a [Rule]) -> Followers<'a> {
        Followers {
            task,
            rules,
            left: MOST_LOOKED_AT,
        }
    }

    /// The actions of the rules that may match a state right after an action, and ask for something that
    /// it writes.
    pub(crate) fn of(
        &mut self,
        alloc: Global,
        action: ActionId,
    ) -> Result<Vec<ActionId>, AllocError> {
        let mut list = Vec::new(alloc);
        let task = self.task;
        if let Some(of) = task.actions.get(action.0 as usize) {
            for outcome in &of.outcomes {
                self.add(alloc, outcome, &mut list)?;
            }
        }
        Ok(list)
    }

    /// Adds those that may come after one of its outcomes.
    fn add(
        &mut self,
        alloc: Global,
        outcome: &Outcome,
        list: &mut Vec<ActionId>,
    ) -> Result<(), AllocError> {
        let written = written_by(alloc, self.task.fluents.len(), outcome)?;
        for rule in self.rules {
            if self.left == 0 {
                break;
            }
            self.left = self.left.saturating_sub(1 + rule.cube.len() as u64);
            if asks_for(&rule.cube, &written) {
                list.push(rule.action)?;
            }
        }
        Ok(())
    }
}

/// What an outcome writes into each of so many fluents.
fn written_by(
    alloc: Global,
    fluents: usize,
    outcome: &Outcome,
) -> Result<Vec<Option<Written>>, AllocError> {
    let mut written = vec![in alloc; None; fluents]?;
    for change in &outcome.changes {
        let always = matches!(change.cond, Cond::Yes);
        for lit in &change.lits {
            write(&mut written, *lit, always);
        }
    }
    Ok(written)
}

/// Notes what a literal of a change writes.
fn write(written: &mut Vec<Option<Written>>, lit: Lit, always: bool) {
    if let Some(place) = written.get_mut(lit.fluent.0 as usize) {
        *place = Some(Written {
            value: lit.positive,
            always,
        });
    }
}

fn written_at(written: &[Option<Written>], fluent: FluentId) -> Option<Written> {
    match written.get(fluent.0 as usize) {
        Some(place) => *place,
        None => None,
    }
}

/// Whether a cube has a literal that was written, and none of which the opposite surely was.
fn asks_for(cube: &[Lit], written: &[Option<Written>]) -> bool {
    let mut asks = false;
    for lit in cube {
        if let Some(of) = written_at(written, lit.fluent) {
            if of.value == lit.positive {
                asks = true;
            } else if of.always {
                return false;
            }
        }
    }
    asks
}
