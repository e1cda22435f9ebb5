//! Which actions can help to come to a target: those that make a literal so which it asks for, or which
//! what makes it so asks for.

use crate::numbers::{is_marked, small};
use std::alloc::{AllocError, Global};
use task_core::{Cond, GroundAction, Outcome, Task};

/// The literals that are asked for, and the actions that can help.
#[derive(Drop)]
struct Wanted {
    yes: Vec<bool>,
    no: Vec<bool>,
    helps: Vec<bool>,
}

/// For each action whether it can help to come to a target.
pub(crate) fn helping(alloc: Global, task: &Task, target: &Cond) -> Result<Vec<bool>, AllocError> {
    let mut wanted = Wanted {
        yes: vec![in alloc; false; 256]?,
        no: vec![in alloc; false; 256]?,
        helps: vec![in alloc; false; task.actions.len()]?,
    };
    wanted.ask(target, true);
    for _ in &task.actions {
        if !wanted.sweep(task) {
            break;
        }
    }
    Ok(wanted.helps)
}

impl Wanted {
    /// Asks for the literals by which a condition may come to have a value.
    fn ask(&mut self, cond: &Cond, value: bool) {
        match cond {
            Cond::Yes | Cond::No => {}
            Cond::Is(fluent) => mark(
                if value { &mut self.yes } else { &mut self.no },
                fluent.0 as usize,
            ),
            Cond::Not(part) => self.ask(part, !value),
            Cond::All(parts) | Cond::Any(parts) => {
                for part in parts {
                    self.ask(part, value);
                }
            }
        }
    }

    /// Goes through the actions that didn't help so far. Tells whether one does now.
    fn sweep(&mut self, task: &Task) -> bool {
        let mut is_more = false;
        for (number, action) in task.actions.iter().enumerate() {
            if !is_marked(&self.helps, small(number)) && self.use_action(action) {
                mark(&mut self.helps, number);
                is_more = true;
            }
        }
        is_more
    }

    /// Whether an action makes something so that is asked for; then asks for what it needs.
    fn use_action(&mut self, action: &GroundAction) -> bool {
        let mut is_used = false;
        for outcome in &action.outcomes {
            if self.use_outcome(outcome) {
                is_used = true;
            }
        }
        if is_used {
            self.ask(&action.exec, true);
        }
        is_used
    }

    /// The same for an outcome.
    fn use_outcome(&mut self, outcome: &Outcome) -> bool {
        let mut is_used = false;
        for change in &outcome.changes {
            for lit in &change.lits {
                let asked = if lit.positive { &self.yes } else { &self.no };
                if is_marked(asked, lit.fluent.0) {
                    is_used = true;
                    self.ask(&change.cond, true);
                }
            }
        }
        is_used
    }
}

/// Marks a place, if there is one.
fn mark(marks: &mut [bool], place: usize) {
    if place < marks.len() {
        marks[place] = true;
    }
}
