//! How many steps it takes to come to some states, level by level backward from them.

use crate::fields::Field;
use crate::marks::Marks;
use crate::numbers::{NONE, at, is_marked, put, small};
use crate::world::World;
use std::alloc::{AllocError, Global};

/// Which outcomes a plan is to be good for.
#[derive(Clone, Copy, PartialEq, Eq)]
pub enum Way {
    /// For each: in a bounded number of steps.
    Strong,
    /// For each under fair outcomes: it may be tried again and again (strong cyclic).
    Fair,
}

/// States by level.
#[derive(Drop)]
pub(crate) struct Levels {
    alloc: Global,
    levels: Vec<Vec<u32>>,
}

impl Levels {
    pub(crate) fn new(alloc: Global) -> Levels {
        Levels {
            alloc,
            levels: Vec::new(alloc),
        }
    }

    /// Adds a state at a level.
    pub(crate) fn add(&mut self, level: u32, state: u32) -> Result<(), AllocError> {
        let place = level as usize;
        for _ in self.levels.len()..place.saturating_add(1) {
            self.levels.push(Vec::new(self.alloc))?;
        }
        if let Some(states) = self.levels.get_mut(place) {
            states.push(state)?;
        }
        Ok(())
    }

    /// The states of a level.
    fn states(&self, level: u32) -> &[u32] {
        match self.levels.get(level as usize) {
            Some(states) => states,
            None => &[],
        }
    }

    /// Whether there are no states from a level on.
    fn ends_before(&self, level: u32) -> bool {
        level as usize >= self.levels.len()
    }
}

/// What is asked for: the states from which the way back begins, by level, the states that may be passed,
/// and the stage that it is for.
#[derive(Clone, Copy)]
pub(crate) struct Quest<'a> {
    pub(crate) starts: &'a Levels,
    pub(crate) guard: &'a [bool],
    pub(crate) stage: usize,
    pub(crate) way: Way,
}

/// The way back so far.
#[derive(Drop)]
struct Tide {
    /// The level of each state, where it has one.
    found: Vec<u32>,
    /// For each branch how many outcomes aren't found.
    left: Vec<u32>,
    /// The states that are to be found, by level.
    next: Levels,
}

impl Tide {
    /// Finds a state at a level, and notes from which states one comes to it.
    fn enter(
        &mut self,
        world: &World<'_>,
        views: &Views<'_>,
        number: u32,
        level: u32,
    ) -> Result<(), AllocError> {
        if !views.field.is_inside(number) || at(&self.found, number) != NONE {
            return Ok(());
        }
        put(&mut self.found, number, level);
        for branch in world.before(number) {
            let left = at(&self.left, *branch).saturating_sub(1);
            put(&mut self.left, *branch, left);
            let is_enough = views.quest.way == Way::Fair || left == 0;
            if is_enough && views.field.is_alive(*branch) {
                self.note(world, views, *branch, level)?;
            }
        }
        Ok(())
    }

    /// Notes that one comes by a branch to a state of a level.
    fn note(
        &mut self,
        world: &World<'_>,
        views: &Views<'_>,
        branch: u32,
        level: u32,
    ) -> Result<(), AllocError> {
        let Some(of) = world.branch(branch) else {
            return Ok(());
        };
        if is_marked(views.quest.guard, of.state) && at(&self.found, of.state) == NONE {
            let step = views.marks.step(views.quest.stage, of.action);
            self.next.add(level.saturating_add(step), of.state)?;
        }
        Ok(())
    }
}

/// What a way back looks at.
#[derive(Clone, Copy)]
struct Views<'a> {
    field: &'a Field,
    marks: &'a Marks,
    quest: Quest<'a>,
}

/// For each state inside a field the least number of steps, as the way counts them, in which the states
/// are come to from which the way back begins, through states of the guard; no number where they can't
/// be.
pub(crate) fn distances(
    world: &World<'_>,
    field: &Field,
    marks: &Marks,
    quest: Quest<'_>,
) -> Result<Vec<u32>, AllocError> {
    let alloc = world.alloc;
    let views = Views {
        field,
        marks,
        quest,
    };
    let mut tide = Tide {
        found: vec![in alloc; NONE; world.len() as usize]?,
        left: outcome_counts(world)?,
        next: Levels::new(alloc),
    };
    for level in 0..NONE {
        if tide.next.ends_before(level) && quest.starts.ends_before(level) {
            break;
        }
        let mut layer = Vec::new(alloc);
        layer.extend_from_slice(tide.next.states(level))?;
        layer.extend_from_slice(quest.starts.states(level))?;
        for number in &layer {
            tide.enter(world, &views, *number, level)?;
        }
    }
    Ok(tide.found)
}

/// How many outcomes each branch has.
fn outcome_counts(world: &World<'_>) -> Result<Vec<u32>, AllocError> {
    let mut counts = Vec::new(world.alloc);
    for branch in world.branches() {
        counts.push(small(branch.after.len()))?;
    }
    Ok(counts)
}
