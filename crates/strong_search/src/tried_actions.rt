//! The actions of a state that are tried in the search for strong plans.

use crate::branches::Branch;
use crate::strong::{AndOrGraph, STEP};
use crate::views::Phase;
use search_space::{Hope, NONE, Stop, at, put};
use search_world::World;
use std::alloc::{AllocError, Global};

/// How many branches are made at once, if there are so many, before the cheapest is taken.
const FEW_BRANCHES: u32 = 8;

impl AndOrGraph {
    /// Marks the actions that are helpful by the last estimate.
    fn mark_helpful(&mut self, world: &World<'_>) {
        self.mark = self.mark.wrapping_add(1);
        for label in world.helpful() {
            let action = world.actions.action_of(*label);
            put(&mut self.helpful, action, self.mark);
        }
    }

    /// Tries actions of a state until one leads nearer to the goal, the helpful ones first.
    pub(crate) fn try_actions(&mut self, world: &mut World<'_>, state: u32) -> Result<(), Stop> {
        if world.estimate(state, true)?.is_none() {
            return world.generalise_hopeless(state);
        }
        self.mark_helpful(world);
        for _ in 0..2 {
            let is_helpful = self.phase(state) == Phase::Helpful;
            if self.phase(state) != Phase::Done && self.try_phase(world, state, is_helpful)? {
                return Ok(());
            }
            self.vertices.end_phase(state);
        }
        if self.is_open(state) && self.vertices.view(state).live == 0 {
            self.bury(world, state)?;
        }
        Ok(())
    }

    /// Tries the actions of a phase from the next one on. Tells whether one was enough.
    fn try_phase(
        &mut self,
        world: &mut World<'_>,
        state: u32,
        is_helpful: bool,
    ) -> Result<bool, Stop> {
        let first = self.vertices.view(state).next_action;
        let before = self.vertices.branch_count(state);
        let mut is_nearer = false;
        for action in first..world.actions.count() {
            if (at(&self.helpful, action) == self.mark) == is_helpful {
                self.vertices
                    .put_next_action(state, action.saturating_add(1));
                is_nearer = self.try_action(world, state, action, is_helpful)? || is_nearer;
                let count = self.vertices.branch_count(state).saturating_sub(before);
                if !self.is_open(state) || is_nearer && count >= FEW_BRANCHES {
                    return Ok(true);
                }
            }
        }
        Ok(is_nearer)
    }

    /// Makes a branch of an action, if it may be of use. Tells whether it leads nearer to the goal.
    fn try_action(
        &mut self,
        world: &mut World<'_>,
        state: u32,
        action: u32,
        is_helpful: bool,
    ) -> Result<bool, Stop> {
        let mut list = Vec::new(self.alloc);
        if !world.outcomes(state, action, &mut list)? {
            return Ok(false);
        }
        let outcomes = distinct(self.alloc, &list)?;
        for next in &outcomes {
            if *next == state || world.hope(*next) != Hope::Open {
                return Ok(false);
            }
        }
        for next in &outcomes {
            self.meet(world, *next)?;
            if world.hope(*next) != Hope::Open {
                return Ok(false);
            }
        }
        let branch = Branch {
            state,
            action,
            unsolved: 0,
            is_alive: true,
            is_helpful,
        };
        let branch = self.add_branch(world, branch, outcomes)?;
        if !self.is_open(state) {
            return Ok(true);
        }
        let limit = self.cost(state);
        match self.branch_cost(world, branch)? {
            Some(cost) => Ok(cost.saturating_add(STEP / 2) <= limit),
            None => Ok(false),
        }
    }

    /// Adds a branch, once its outcomes are counted that aren't solved, and tells its number.
    fn add_branch(
        &mut self,
        world: &World<'_>,
        mut branch: Branch,
        outcomes: Vec<u32>,
    ) -> Result<u32, Stop> {
        let state = branch.state;
        let number = self.branches.len();
        for next in &outcomes {
            self.look(world, *next)?;
            if self.is_open(*next) {
                branch.unsolved = branch.unsolved.saturating_add(1);
                self.vertices.add_before(*next, number)?;
            }
        }
        self.vertices.add_branch(state, number)?;
        self.branches.push(branch, outcomes)?;
        if branch.unsolved == 0 && self.is_open(state) {
            let pair = self.add_pair(world, number)?;
            self.solve_state(world, state, pair)?;
        }
        Ok(number)
    }
}

/// The states of a list, each once.
fn distinct(alloc: Global, states: &[u32]) -> Result<Vec<u32>, AllocError> {
    let mut list = Vec::new(alloc);
    for state in states {
        if *state != NONE && !list.contains(state) {
            list.push(*state)?;
        }
    }
    Ok(list)
}
