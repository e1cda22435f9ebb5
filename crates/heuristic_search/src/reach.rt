//! What a policy reaches.

use search_space::{NONE, Stop, at, put};
use search_world::{Policy, World};
use std::alloc::{AllocError, Global};

/// What a policy reaches.
#[derive(Drop)]
pub(crate) struct Reach {
    /// For each state that is reached the action that is taken there.
    pub(crate) taken: Vec<u32>,
    /// In how many states something is taken, and whether these are all.
    count: u32,
    pub(crate) is_whole: bool,
    open: Vec<u32>,
    outcomes: Vec<u32>,
}

impl Reach {
    pub(crate) fn new(alloc: Global) -> Reach {
        Reach {
            taken: Vec::new(alloc),
            count: 0,
            is_whole: true,
            open: Vec::new(alloc),
            outcomes: Vec::new(alloc),
        }
    }

    /// Goes through the states that a policy reaches, unless something is taken in more than so many.
    pub(crate) fn follow(
        &mut self,
        world: &mut World<'_>,
        policy: &mut Policy,
        most: u32,
    ) -> Result<(), Stop> {
        self.open.extend_from_slice(&world.initial)?;
        for _ in 0..u64::MAX {
            let Some(state) = self.open.pop() else {
                break;
            };
            self.make_room(world)?;
            if at(&self.taken, state) == NONE && !world.is_goal(state) {
                let pair = policy.pair_at(world, state)?;
                self.take(world, state, policy.action(pair))?;
            }
            if self.count > most {
                self.is_whole = false;
                break;
            }
        }
        Ok(())
    }

    /// Has a place for each state.
    fn make_room(&mut self, world: &World<'_>) -> Result<(), AllocError> {
        for _ in self.taken.len()..world.states.len() as usize {
            self.taken.push(NONE)?;
        }
        Ok(())
    }

    /// Notes what is taken in a state, if anything is, and goes on to the outcomes.
    fn take(&mut self, world: &mut World<'_>, state: u32, action: u32) -> Result<(), Stop> {
        if action == NONE {
            return Ok(());
        }
        self.count = self.count.saturating_add(1);
        put(&mut self.taken, state, action);
        world.outcomes(state, action, &mut self.outcomes)?;
        for next in &self.outcomes {
            if *next != NONE {
                self.open.push(*next)?;
            }
        }
        Ok(())
    }
}
