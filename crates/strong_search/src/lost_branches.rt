//! Branches and states that are of no use in the search for strong plans.

use crate::strong::AndOrGraph;
use search_space::{Hope, Stop};
use search_world::World;
use std::alloc::AllocError;

impl AndOrGraph {
    /// Notes that a branch is of no use, and what follows.
    pub(crate) fn kill(&mut self, world: &mut World<'_>, branch: u32) -> Result<(), Stop> {
        let mut todo = Vec::new(self.alloc);
        todo.push(branch)?;
        for _ in 0..u64::MAX {
            let Some(branch) = todo.pop() else {
                break;
            };
            let state = self.branches.get(branch).state;
            if self.branches.kill(branch) && self.vertices.lose_branch(state) {
                self.bury_one(world, state)?;
                self.push_before(state, &mut todo)?;
            }
        }
        Ok(())
    }

    /// Adds the branches that lead to a state.
    fn push_before(&self, state: u32, list: &mut Vec<u32>) -> Result<(), AllocError> {
        for place in 0..self.vertices.before_count(state) {
            list.push(self.vertices.before_at(state, place))?;
        }
        Ok(())
    }

    /// Takes the branches out that lead to a state.
    pub(crate) fn kill_before(&mut self, world: &mut World<'_>, state: u32) -> Result<(), Stop> {
        for place in 0..self.vertices.before_count(state) {
            let branch = self.vertices.before_at(state, place);
            self.kill(world, branch)?;
        }
        Ok(())
    }

    /// Notes that a state has no way to the goal, and what follows.
    pub(crate) fn bury(&mut self, world: &mut World<'_>, state: u32) -> Result<(), Stop> {
        self.bury_one(world, state)?;
        self.kill_before(world, state)
    }

    /// Notes that a state has no way to the goal.
    fn bury_one(&mut self, world: &mut World<'_>, state: u32) -> Result<(), Stop> {
        if world.hope(state) == Hope::Dead {
            return Ok(());
        }
        if !world.space.is_all() || !world.generalise_stuck(state)? {
            world.add_bare(state)?;
        }
        Ok(())
    }
}
