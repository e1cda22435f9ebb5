//! The states that are left where the others are lost, and the branches that lead to them alone.

use crate::numbers::{NONE, at, is_marked, put, small, unmark};
use crate::world::World;
use std::alloc::AllocError;

/// The states that are left. Where they are to be stayed in, each that was gone on from has a branch that
/// is left.
#[derive(Drop)]
pub(crate) struct Field {
    inside: Vec<bool>,
    /// Whether all outcomes of each branch are left.
    alive: Vec<bool>,
    /// How many branches of each state are left.
    exits: Vec<u32>,
    stays: bool,
}

impl Field {
    /// All states, but those in which nothing can be done where they are to be stayed in.
    pub(crate) fn new(world: &World<'_>, stays: bool) -> Result<Field, AllocError> {
        let alloc = world.alloc;
        let mut field = Field {
            inside: vec![in alloc; true; world.len() as usize]?,
            alive: vec![in alloc; true; world.branches().len()]?,
            exits: Vec::new(alloc),
            stays,
        };
        for number in 0..world.len() {
            field.exits.push(small(world.branches_of(number).len()))?;
        }
        for number in 0..world.len() {
            if stays && world.is_expanded(number) && at(&field.exits, number) == 0 {
                field.remove(world, number)?;
            }
        }
        Ok(field)
    }

    pub(crate) fn is_inside(&self, number: u32) -> bool {
        is_marked(&self.inside, number)
    }

    pub(crate) fn is_alive(&self, branch: u32) -> bool {
        is_marked(&self.alive, branch)
    }

    /// Takes a state out, the branches that may lead to it, and, where the field is to be stayed in, each
    /// state that has no branch then.
    pub(crate) fn remove(&mut self, world: &World<'_>, number: u32) -> Result<(), AllocError> {
        let mut todo = Vec::new(world.alloc);
        todo.push(number)?;
        for _ in 0..u64::MAX {
            let Some(state) = todo.pop() else {
                break;
            };
            if self.is_inside(state) {
                unmark(&mut self.inside, state);
                self.cut_before(world, state, &mut todo)?;
            }
        }
        Ok(())
    }

    /// Takes out the branches that may lead to a state.
    fn cut_before(
        &mut self,
        world: &World<'_>,
        number: u32,
        todo: &mut Vec<u32>,
    ) -> Result<(), AllocError> {
        for branch in world.before(number) {
            if self.is_alive(*branch) {
                unmark(&mut self.alive, *branch);
                let state = state_of(world, *branch);
                let exits = at(&self.exits, state).saturating_sub(1);
                put(&mut self.exits, state, exits);
                if self.stays && exits == 0 {
                    todo.push(state)?;
                }
            }
        }
        Ok(())
    }

    /// Takes out each state that some list has no number for. Tells whether there was one.
    pub(crate) fn shrink(
        &mut self,
        world: &World<'_>,
        lists: &[Vec<u32>],
    ) -> Result<bool, AllocError> {
        let mut is_smaller = false;
        for number in 0..world.len() {
            if self.is_inside(number) && lacks_some(lists, number) {
                self.remove(world, number)?;
                is_smaller = true;
            }
        }
        Ok(is_smaller)
    }
}

/// The state of a branch.
fn state_of(world: &World<'_>, branch: u32) -> u32 {
    match world.branch(branch) {
        Some(branch) => branch.state,
        None => NONE,
    }
}

/// Whether some list has no number for a state.
fn lacks_some(lists: &[Vec<u32>], state: u32) -> bool {
    for list in lists {
        if at(list, state) == NONE {
            return true;
        }
    }
    false
}
