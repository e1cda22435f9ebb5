//! The actions of a task, and the numbers of their outcomes.

use crate::moves::{Effect, Move, moves_of};
use crate::numbers::{at, small};
use std::alloc::{AllocError, Global};
use task_core::Task;

/// The actions, and the numbers of their outcomes.
#[derive(Drop)]
pub struct Actions<'a> {
    pub moves: Vec<Move<'a>>,
    /// The label of each action's first outcome, and for each label its action.
    firsts: Vec<u32>,
    of_labels: Vec<u32>,
}

impl<'a> Actions<'a> {
    /// Of a task.
    pub fn new(alloc: Global, task: &'a Task) -> Result<Actions<'a>, AllocError> {
        let moves = moves_of(alloc, task)?;
        let mut firsts = Vec::new(alloc);
        let mut of_labels = Vec::new(alloc);
        for (number, action) in moves.iter().enumerate() {
            firsts.push(small(of_labels.len()))?;
            for _ in &action.effects {
                of_labels.push(small(number))?;
            }
        }
        Ok(Actions {
            moves,
            firsts,
            of_labels,
        })
    }

    /// How many actions there are.
    pub fn count(&self) -> u32 {
        small(self.moves.len())
    }

    /// How many outcomes all actions have.
    pub fn label_count(&self) -> u32 {
        small(self.of_labels.len())
    }

    /// The label of an action's first outcome.
    pub fn first_label(&self, action: u32) -> u32 {
        at(&self.firsts, action)
    }

    /// The action of an outcome.
    pub fn action_of(&self, label: u32) -> u32 {
        at(&self.of_labels, label)
    }

    /// The place of an outcome among those of its action.
    pub fn place_of(&self, label: u32) -> u32 {
        label.saturating_sub(self.first_label(self.action_of(label)))
    }

    /// An action by its number.
    pub fn get(&self, action: u32) -> Option<&Move<'a>> {
        self.moves.get(action as usize)
    }

    /// The outcome at a place of an action.
    pub fn effect(&self, action: u32, place: u32) -> Option<&Effect<'a>> {
        let of = self.get(action)?;
        of.effects.get(place as usize)
    }
}
