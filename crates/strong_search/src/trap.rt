//! Why there is no strong plan: states among which the outcomes of each action may keep.

use crate::vertices::Vertices;
use search_space::{Hope, NONE, Part, Stop};
use search_world::World;
use std::alloc::{AllocError, Global};

/// States that are taken in one after another.
#[derive(Drop)]
struct Trap {
    states: Vec<u32>,
    /// For each state whether it is taken in.
    is_in: Vec<bool>,
}

impl Trap {
    fn new(alloc: Global, states: u32) -> Result<Trap, AllocError> {
        Ok(Trap {
            states: Vec::new(alloc),
            is_in: vec![in alloc; false; states as usize]?,
        })
    }

    fn has(&self, state: u32) -> bool {
        match self.is_in.get(state as usize) {
            Some(is_in) => *is_in,
            None => false,
        }
    }

    fn enter(&mut self, state: u32) -> Result<(), AllocError> {
        if let Some(is_in) = self.is_in.get_mut(state as usize) {
            *is_in = true;
            self.states.push(state)?;
        }
        Ok(())
    }

    /// Whether some state of a list is taken in, or a dead end.
    fn holds_some(&self, world: &mut World<'_>, list: &[u32]) -> bool {
        for state in list {
            if *state != NONE && (self.has(*state) || world.hope(*state) == Hope::Dead) {
                return true;
            }
        }
        false
    }

    /// Takes in an outcome of each action of a state, unless one is there. False where that can't be.
    fn go_on(
        &mut self,
        world: &mut World<'_>,
        vertices: &Vertices,
        state: u32,
    ) -> Result<bool, Stop> {
        let mut list = Vec::new(world.alloc);
        for action in 0..world.actions.count() {
            if world.outcomes(state, action, &mut list)? && !self.holds_some(world, &list) {
                match farthest_open(vertices, &list) {
                    Some(next) => self.enter(next)?,
                    None => return Ok(false),
                }
            }
        }
        Ok(true)
    }
}

/// The state of a list that seems the farthest from the goal, of those that the search met and didn't
/// solve.
fn farthest_open(vertices: &Vertices, list: &[u32]) -> Option<u32> {
    let mut best = None;
    let mut most = 0;
    for state in list {
        let view = vertices.view(*state);
        if view.is_known && vertices.is_open(*state) && (best.is_none() || view.cost > most) {
            most = view.cost;
            best = Some(*state);
        }
    }
    best
}

/// Open states, this one among them, such that each action may lead from one to another or to a dead
/// end; none where these weren't all met.
pub(crate) fn trap_from(
    world: &mut World<'_>,
    vertices: &Vertices,
    first: u32,
) -> Result<Vec<Part>, Stop> {
    let mut trap = Trap::new(world.alloc, world.states.len())?;
    trap.enter(first)?;
    let mut set = Vec::new(world.alloc);
    for place in 0..u32::MAX as usize {
        let Some(state) = trap.states.get(place).copied() else {
            break;
        };
        if !trap.go_on(world, vertices, state)? {
            return Ok(Vec::new(world.alloc));
        }
        set.push(world.whole(state))?;
    }
    Ok(set)
}
