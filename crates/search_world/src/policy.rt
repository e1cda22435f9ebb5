//! A policy in the making: what is taken in which states.

use crate::patterns::Patterns;
use crate::world::World;
use search_space::{NONE, Part, Stop, at, put, small};
use std::alloc::{AllocError, Global};

/// An action to be taken, the outcome that is hoped for, by its label, and after how many such
/// outcomes the goal is had.
#[derive(Clone, Copy)]
pub struct Pair {
    pub action: u32,
    pub label: u32,
    pub distance: u32,
    /// A state for which it was made.
    pub state: u32,
}

/// The pairs, and where each is taken: in one state, or wherever a partial state is had.
#[derive(Drop)]
pub struct Policy {
    pub(crate) pairs: Vec<Pair>,
    /// Whether they are taken wherever a partial state is had.
    pub by_part: bool,
    pub patterns: Patterns,
    /// For each state its pair.
    own: Vec<u32>,
    matching: Vec<u32>,
    outcomes: Vec<u32>,
}

impl Policy {
    /// No pairs.
    pub fn new(alloc: Global, by_part: bool) -> Result<Policy, AllocError> {
        Ok(Policy {
            pairs: Vec::new(alloc),
            by_part,
            patterns: Patterns::new(alloc)?,
            own: Vec::new(alloc),
            matching: Vec::new(alloc),
            outcomes: Vec::new(alloc),
        })
    }

    /// Whether there is no pair.
    pub fn is_empty(&self) -> bool {
        self.pairs.is_empty()
    }

    /// How many pairs there are.
    pub fn len(&self) -> u32 {
        small(self.pairs.len())
    }

    /// A pair by its number.
    pub fn pair(&self, number: u32) -> Option<Pair> {
        self.pairs.get(number as usize).copied()
    }

    /// The distance of a pair; none where there is no such pair.
    pub fn distance(&self, number: u32) -> u32 {
        match self.pairs.get(number as usize) {
            Some(pair) => pair.distance,
            None => NONE,
        }
    }

    /// Gives a pair another distance.
    pub fn put_distance(&mut self, number: u32, distance: u32) {
        if let Some(pair) = self.pairs.get_mut(number as usize) {
            pair.distance = distance;
        }
    }

    /// The action of a pair; none where there is no such pair.
    pub fn action(&self, number: u32) -> u32 {
        match self.pairs.get(number as usize) {
            Some(pair) => pair.action,
            None => NONE,
        }
    }

    /// Adds a pair that is taken in its state alone.
    pub fn add_own(&mut self, pair: Pair) -> Result<(), AllocError> {
        let number = self.len();
        self.pairs.push(pair)?;
        for _ in self.own.len()..(pair.state as usize).saturating_add(1) {
            self.own.push(NONE)?;
        }
        put(&mut self.own, pair.state, number);
        Ok(())
    }

    /// Adds a pair that is taken wherever a partial state is had.
    pub fn add_part(&mut self, pair: Pair, part: Part) -> Result<(), AllocError> {
        self.pairs.push(pair)?;
        self.patterns.add(part)?;
        Ok(())
    }

    /// The pair that is taken in a state, or none: the one of least distance that isn't forbidden.
    pub fn pair_at(&mut self, world: &mut World<'_>, state: u32) -> Result<u32, Stop> {
        if self.by_part {
            return self.part_at(world, state);
        }
        let number = at(&self.own, state);
        if number == NONE || self.is_allowed(world, state, number)? {
            return Ok(number);
        }
        Ok(NONE)
    }

    /// Whether a pair doesn't lead from a state to a known dead end.
    fn is_allowed(&mut self, world: &mut World<'_>, state: u32, number: u32) -> Result<bool, Stop> {
        if !world.has_deads() {
            return Ok(true);
        }
        let action = self.action(number);
        Ok(!world.is_forbidden(state, action, &mut self.outcomes)?)
    }

    /// The same of pairs that are taken wherever a partial state is had.
    fn part_at(&mut self, world: &mut World<'_>, state: u32) -> Result<u32, Stop> {
        self.matching.clear();
        self.patterns
            .matching(&world.bits_of(state), &mut self.matching)?;
        for _ in 0..self.matching.len() {
            let place = self.nearest();
            let number = at(&self.matching, place);
            if number == NONE || self.is_allowed(world, state, number)? {
                return Ok(number);
            }
            put(&mut self.matching, place, NONE);
        }
        Ok(NONE)
    }

    /// The place of the matching pair of least distance, and of these the first.
    fn nearest(&self) -> u32 {
        let mut best = NONE;
        let mut least = (NONE, NONE);
        for (place, number) in self.matching.iter().enumerate() {
            if *number != NONE {
                let distance = self.distance(*number);
                if distance < least.0 || distance == least.0 && *number < least.1 {
                    least = (distance, *number);
                    best = small(place);
                }
            }
        }
        best
    }

    /// Whether a state is in the goal, or something is taken in it.
    pub fn is_target(&mut self, world: &mut World<'_>, state: u32) -> Result<bool, Stop> {
        if world.is_goal(state) {
            return Ok(true);
        }
        if self.is_empty() {
            return Ok(false);
        }
        Ok(self.pair_at(world, state)? != NONE)
    }
}
