//! What branches cost in the search for strong plans.

use crate::strong::AndOrGraph;
use search_space::{Hope, NONE, Stop};
use search_world::World;

/// How much less an action counts that is helpful.
const BONUS: u64 = 512;

impl AndOrGraph {
    /// The cheapest branch of a state that doesn't lead back to the path, and what it costs.
    pub(crate) fn cheapest(
        &mut self,
        world: &mut World<'_>,
        state: u32,
    ) -> Result<(u32, u64), Stop> {
        let mut best = NONE;
        let mut least = u64::MAX;
        for place in 0..self.vertices.branch_count(state) {
            let branch = self.vertices.branch_at(state, place);
            if let Some(cost) = self.branch_cost(world, branch)? {
                if cost < least {
                    least = cost;
                    best = branch;
                }
            }
        }
        Ok((best, least))
    }

    /// What a branch costs: its dearest outcome, and a little of all. `None` where it isn't of use.
    pub(crate) fn branch_cost(
        &mut self,
        world: &mut World<'_>,
        branch: u32,
    ) -> Result<Option<u64>, Stop> {
        if !self.branches.get(branch).is_alive {
            return Ok(None);
        }
        let mut worst = 0u64;
        let mut sum = 0u64;
        let mut goes_round = false;
        for place in 0..self.branches.outcome_count(branch) {
            let next = self.branches.outcome_at(branch, place);
            self.look(world, next)?;
            if self.is_open(next) {
                if world.hope(next) != Hope::Open {
                    self.kill(world, branch)?;
                    return Ok(None);
                }
                goes_round = goes_round || self.vertices.view(next).on_path;
                worst = worst.max(self.cost(next));
                sum = sum.saturating_add(self.cost(next));
            }
        }
        if goes_round {
            return Ok(None);
        }
        let cost = worst.saturating_add(sum / 8192);
        Ok(Some(cost.saturating_sub(self.bonus(branch))))
    }

    fn bonus(&self, branch: u32) -> u64 {
        if self.branches.get(branch).is_helpful {
            BONUS
        } else {
            0
        }
    }

    /// The cheapest open outcome of a branch.
    pub(crate) fn next_of(&self, branch: u32) -> u32 {
        let mut best = NONE;
        let mut least = u64::MAX;
        for place in 0..self.branches.outcome_count(branch) {
            let next = self.branches.outcome_at(branch, place);
            if self.is_open(next) && self.cost(next) < least {
                least = self.cost(next);
                best = next;
            }
        }
        best
    }
}
