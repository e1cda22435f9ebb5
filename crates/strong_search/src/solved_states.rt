//! Which states are solved in the search for strong plans, and by which partial states.

use crate::strong::{AndOrGraph, STEP};
use crate::views::Solved;
use search_space::{Bits, Hope, NONE, Part, Stop, regress, support};
use search_world::{Pair, World};

impl AndOrGraph {
    /// Meets a state: notes what it costs.
    pub(crate) fn meet(&mut self, world: &mut World<'_>, state: u32) -> Result<(), Stop> {
        self.vertices.make_room(world.states.len())?;
        let mut view = self.vertices.view(state);
        if view.is_known {
            return Ok(());
        }
        view.is_known = true;
        if world.is_goal(state) {
            view.solved = Solved::Goal;
        }
        self.vertices.put(state, view);
        if view.solved == Solved::Goal || world.hope(state) != Hope::Open {
            return Ok(());
        }
        self.look(world, state)?;
        if !self.is_open(state) {
            return Ok(());
        }
        match world.estimate(state, true)? {
            Some(estimate) => self.note_cost(state, estimate),
            None => world.generalise_hopeless(state),
        }
    }

    /// Notes what a state costs that wasn't tried.
    fn note_cost(&mut self, state: u32, estimate: u32) -> Result<(), Stop> {
        self.vertices.raise(state, estimate as u64 * STEP);
        self.frontier.push(estimate, state)?;
        Ok(())
    }

    /// Whether a pair that wasn't looked at solves an open state.
    pub(crate) fn look(&mut self, world: &World<'_>, state: u32) -> Result<(), Stop> {
        let count = self.policy.len();
        let mut view = self.vertices.view(state);
        let first = view.looked;
        if !view.is_known || view.solved != Solved::Open || first == count {
            return Ok(());
        }
        view.looked = count;
        self.vertices.put(state, view);
        let bits = world.bits_of(state);
        for pair in first..count {
            if self.policy.patterns.part(pair).matches(&bits) {
                return self.solve_state(world, state, pair);
            }
        }
        Ok(())
    }

    /// Notes that a pair solves a state, and what follows.
    pub(crate) fn solve_state(
        &mut self,
        world: &World<'_>,
        state: u32,
        pair: u32,
    ) -> Result<(), Stop> {
        let mut todo = Vec::new(self.alloc);
        todo.push((state, pair))?;
        for _ in 0..u64::MAX {
            let Some((state, pair)) = todo.pop() else {
                break;
            };
            if self.is_open(state) {
                self.vertices.put_solved(state, Solved::Pair(pair));
                self.count_before(world, state, &mut todo)?;
            }
        }
        Ok(())
    }

    /// Counts a state as solved for the branches that lead to it.
    fn count_before(
        &mut self,
        world: &World<'_>,
        state: u32,
        todo: &mut Vec<(u32, u32)>,
    ) -> Result<(), Stop> {
        for place in 0..self.vertices.before_count(state) {
            let branch = self.vertices.before_at(state, place);
            let before = self.branches.get(branch).state;
            if self.branches.count_down(branch) && self.is_open(before) {
                let pair = self.add_pair(world, branch)?;
                todo.push((before, pair))?;
            }
        }
        Ok(())
    }

    /// Adds the pair of a branch whose outcomes are solved, and tells its number.
    pub(crate) fn add_pair(&mut self, world: &World<'_>, branch: u32) -> Result<u32, Stop> {
        let number = self.policy.len();
        let of = self.branches.get(branch);
        let (state, action) = (of.state, of.action);
        let part = self.part_of(world, state, action);
        let pair = Pair {
            action,
            label: world.actions.first_label(action),
            distance: number,
            state,
        };
        self.policy.add_part(pair, part)?;
        Ok(number)
    }

    /// The partial state in which an action can be executed and each outcome is solved as from a
    /// state.
    fn part_of(&self, world: &World<'_>, state: u32, action: u32) -> Part {
        let mut part = Part::none();
        let bits = world.bits_of(state);
        let Some(of) = world.actions.get(action) else {
            return part;
        };
        if !world.space.is_all() {
            return Part {
                care: world.all,
                value: bits,
            };
        }
        support(of.test.cond, &bits, true, &mut part);
        for effect in &of.effects {
            let wanted = self.solved_part(world, &effect.after(&bits));
            regress(effect, &bits, &wanted, &mut part);
        }
        part
    }

    /// The partial state by which a state is solved.
    fn solved_part(&self, world: &World<'_>, bits: &Bits) -> Part {
        let mut wanted = Part::none();
        if world.goal.holds(bits) {
            support(world.goal.cond, bits, true, &mut wanted);
            return wanted;
        }
        let number = match world.states.find(bits) {
            Some(number) => number,
            None => NONE,
        };
        match self.vertices.view(number).solved {
            Solved::Pair(pair) => self.policy.patterns.part(pair),
            Solved::Goal | Solved::Open => Part {
                care: world.all,
                value: *bits,
            },
        }
    }
}
