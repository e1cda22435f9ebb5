//! The actions of a task, made ready for many steps.

use crate::bits::{Bits, Part};
use crate::conditions::{holds, literals_of};
use std::alloc::{AllocError, Global};
use task_core::{Change, Cond, GroundAction, Outcome, Task};

/// A condition, and the values that it asks where it is a conjunction of literals.
#[derive(Drop)]
pub struct Test<'a> {
    pub cond: &'a Cond,
    pub part: Option<Part>,
}

impl<'a> Test<'a> {
    /// Of a condition.
    pub fn new(cond: &'a Cond) -> Test<'a> {
        Test {
            cond,
            part: literals_of(cond),
        }
    }

    /// Whether it holds in a state.
    pub fn holds(&self, state: &Bits) -> bool {
        match &self.part {
            Some(part) => part.matches(state),
            None => holds(self.cond, state),
        }
    }
}

/// What an outcome does: fluents that become false, and fluents that become true, which wins.
#[derive(Clone, Copy)]
pub struct Write {
    pub falses: Bits,
    pub trues: Bits,
}

impl Write {
    fn none() -> Write {
        Write {
            falses: Bits::none(),
            trues: Bits::none(),
        }
    }

    fn add(&mut self, change: &Change) {
        for literal in &change.lits {
            if literal.positive {
                self.trues.set(literal.fluent.0, true);
            } else {
                self.falses.set(literal.fluent.0, true);
            }
        }
    }

    fn join(&mut self, other: &Write) {
        self.falses = self.falses.or(&other.falses);
        self.trues = self.trues.or(&other.trues);
    }
}

/// What an outcome does where a condition holds.
#[derive(Drop)]
pub struct Conditional<'a> {
    pub test: Test<'a>,
    pub write: Write,
}

/// An outcome: what it does always, and what it does under conditions.
#[derive(Drop)]
pub struct Effect<'a> {
    pub always: Write,
    pub conditionals: Vec<Conditional<'a>>,
}

impl<'a> Effect<'a> {
    fn new(alloc: Global, outcome: &'a Outcome) -> Result<Effect<'a>, AllocError> {
        let mut effect = Effect {
            always: Write::none(),
            conditionals: Vec::new(alloc),
        };
        for change in &outcome.changes {
            effect.add(change)?;
        }
        Ok(effect)
    }

    fn add(&mut self, change: &'a Change) -> Result<(), AllocError> {
        if change.lits.is_empty() {
            return Ok(());
        }
        match &change.cond {
            Cond::Yes => self.always.add(change),
            Cond::No => {}
            cond => {
                let mut write = Write::none();
                write.add(change);
                self.conditionals.push(Conditional {
                    test: Test::new(cond),
                    write,
                })?;
            }
        }
        Ok(())
    }

    /// The state after it.
    pub fn after(&self, state: &Bits) -> Bits {
        let mut write = self.always;
        for conditional in &self.conditionals {
            if conditional.test.holds(state) {
                write.join(&conditional.write);
            }
        }
        state.without(&write.falses).or(&write.trues)
    }
}

/// An action: where it can be executed, and its outcomes.
#[derive(Drop)]
pub struct Move<'a> {
    pub test: Test<'a>,
    pub effects: Vec<Effect<'a>>,
}

impl<'a> Move<'a> {
    fn new(alloc: Global, action: &'a GroundAction) -> Result<Move<'a>, AllocError> {
        let mut effects = Vec::new(alloc);
        for outcome in &action.outcomes {
            effects.push(Effect::new(alloc, outcome)?)?;
        }
        Ok(Move {
            test: Test::new(&action.exec),
            effects,
        })
    }
}

/// The actions of a task.
pub fn moves_of<'a>(alloc: Global, task: &'a Task) -> Result<Vec<Move<'a>>, AllocError> {
    let mut moves = Vec::new(alloc);
    for action in &task.actions {
        moves.push(Move::new(alloc, action)?)?;
    }
    Ok(moves)
}
