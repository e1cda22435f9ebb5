//! From which states the stages can be met, and in how many steps the next one.

use crate::distances::{Levels, Quest, Way, distances};
use crate::fields::Field;
use crate::goals::{End, Goal};
use crate::marks::Marks;
use crate::numbers::{NONE, at, is_marked};
use crate::stops::Stop;
use crate::world::{Branch, World};

/// What an outcome costs that the search hasn't gone on from, after the last stage.
const UNKNOWN: u32 = 1_024;

/// For each stage in how many steps its target is come to from each state, where the stages after it can
/// be met then; for what is kept 0; no number where they can't be. A state that the search hasn't gone on
/// from is taken to be as far as it seems.
#[derive(Drop)]
pub(crate) struct Outlook {
    pub(crate) lists: Vec<Vec<u32>>,
    way: Way,
    /// Whether the first stage comes again after the last one.
    is_patrol: bool,
}

impl Outlook {
    pub(crate) fn new(
        world: &mut World<'_>,
        goal: &Goal<'_>,
        marks: &Marks,
        way: Way,
    ) -> Result<Outlook, Stop> {
        match goal.end {
            End::Keep(_) => Ok(Outlook {
                lists: chain_lists(world, goal, marks, way)?,
                way,
                is_patrol: false,
            }),
            End::Again => Ok(Outlook {
                lists: patrol_lists(world, goal, marks, way)?,
                way,
                is_patrol: true,
            }),
        }
    }

    /// In how many steps a stage's target is come to from a state.
    pub(crate) fn distance(&self, stage: usize, state: u32) -> u32 {
        match self.lists.get(stage) {
            Some(list) => at(list, state),
            None => NONE,
        }
    }

    /// Whether what is kept comes after a stage.
    fn is_end(&self, stage: usize) -> bool {
        !self.is_patrol && stage.saturating_add(1) >= self.lists.len()
    }

    /// The stage that comes after one.
    fn stage_after(&self, stage: usize) -> usize {
        let next = stage.saturating_add(1);
        if self.is_patrol && next >= self.lists.len() {
            return 0;
        }
        next
    }

    /// The stage that is next in a state, where a stage was next before it.
    pub(crate) fn next_stage(&self, stage: usize, state: u32) -> usize {
        let mut next = stage;
        for _ in 0..self.lists.len() {
            if self.is_end(next) || self.distance(next, state) != 0 {
                break;
            }
            next = self.stage_after(next);
        }
        next
    }

    /// The branch of a state that is taken in a stage: one that keeps all possible, the nearest to the
    /// stage's target, of these the least-numbered.
    pub(crate) fn best_branch<'a>(
        &self,
        world: &'a World<'_>,
        marks: &Marks,
        stage: usize,
        state: u32,
    ) -> Option<&'a Branch> {
        let mut best = None;
        let mut least = NONE;
        for branch in world.branches_of(state) {
            let step = marks.step(stage, branch.action);
            let cost = self.cost(world, stage, branch).saturating_add(step);
            if cost < least {
                least = cost;
                best = Some(branch);
            }
        }
        best
    }

    /// What a branch costs in a stage; no number where an outcome is lost.
    fn cost(&self, world: &World<'_>, stage: usize, branch: &Branch) -> u32 {
        if self.is_end(stage) {
            return self.cost_to_keep(world, stage, branch);
        }
        let mut cost = match self.way {
            Way::Strong => 0,
            Way::Fair => NONE,
        };
        for state in &branch.after {
            let distance = self.distance(stage, *state);
            if distance == NONE {
                return NONE;
            }
            cost = match self.way {
                Way::Strong => cost.max(distance),
                Way::Fair => cost.min(distance),
            };
        }
        cost
    }

    /// The same after the last stage: best is what leaves the state as it is.
    fn cost_to_keep(&self, world: &World<'_>, stage: usize, branch: &Branch) -> u32 {
        let mut cost = 0u32;
        for state in &branch.after {
            if self.distance(stage, *state) == NONE {
                return NONE;
            }
            if !world.is_expanded(*state) {
                cost = cost.saturating_add(UNKNOWN);
            } else if *state != branch.state {
                cost = cost.saturating_add(1);
            }
        }
        cost.min(NONE - 1)
    }
}

/// The lists of an until-chain, from the last stage back.
fn chain_lists(
    world: &mut World<'_>,
    goal: &Goal<'_>,
    marks: &Marks,
    way: Way,
) -> Result<Vec<Vec<u32>>, Stop> {
    let mut lists = Vec::new(world.alloc);
    lists.push(kept_list(world, marks)?)?;
    for stage in (0..goal.stages.len()).rev() {
        let starts = stage_starts(world, marks, stage, lists.last())?;
        let mut quests = Vec::new(world.alloc);
        quests.push(Quest {
            starts: &starts,
            guard: marks.guard(stage),
            stage,
            way,
        })?;
        let field = Field::new(world, false)?;
        let mut found = settled(world, field, marks, &quests)?;
        if let Some(list) = found.pop() {
            lists.push(list)?;
        }
    }
    lists.reverse();
    Ok(lists)
}

/// From which states what is kept can be kept for ever.
fn kept_list(world: &mut World<'_>, marks: &Marks) -> Result<Vec<u32>, Stop> {
    world.look_at_all()?;
    let mut field = Field::new(world, true)?;
    for number in 0..world.len() {
        if !marks.is_kept(number) {
            field.remove(world, number)?;
        }
    }
    let mut list = Vec::new(world.alloc);
    for number in 0..world.len() {
        list.push(if field.is_inside(number) { 0 } else { NONE })?;
    }
    Ok(list)
}

/// Where a stage is met: where its target holds and the stages after it can be met. Where the search hasn't
/// gone on from a state, it is as far as it seems.
fn stage_starts(
    world: &World<'_>,
    marks: &Marks,
    stage: usize,
    later: Option<&Vec<u32>>,
) -> Result<Levels, Stop> {
    let mut starts = Levels::new(world.alloc);
    for number in 0..world.len() {
        let can_go_on = match later {
            Some(list) => at(list, number) != NONE,
            None => true,
        };
        if marks.is_met(stage, number) && can_go_on {
            starts.add(0, number)?;
        } else if !world.is_expanded(number) && is_marked(marks.guard(stage), number) {
            let hope = marks.hope(stage, stage, number);
            if hope != NONE {
                starts.add(hope, number)?;
            }
        }
    }
    Ok(starts)
}

/// The lists of a patrol.
fn patrol_lists(
    world: &mut World<'_>,
    goal: &Goal<'_>,
    marks: &Marks,
    way: Way,
) -> Result<Vec<Vec<u32>>, Stop> {
    let mut starts = Vec::new(world.alloc);
    for visit in 0..goal.stages.len() {
        starts.push(visit_starts(world, marks, visit)?)?;
    }
    let mut quests = Vec::new(world.alloc);
    for (visit, each) in starts.iter().enumerate() {
        quests.push(Quest {
            starts: each,
            guard: marks.guard(visit),
            stage: visit,
            way,
        })?;
    }
    let field = Field::new(world, true)?;
    settled(world, field, marks, &quests)
}

/// Where a visit is made. Where the search hasn't gone on from a state, it is as far as it seems.
fn visit_starts(world: &World<'_>, marks: &Marks, visit: usize) -> Result<Levels, Stop> {
    let mut starts = Levels::new(world.alloc);
    for number in 0..world.len() {
        if marks.is_met(visit, number) {
            starts.add(0, number)?;
        } else if !world.is_expanded(number) {
            let hope = marks.hope(0, visit, number);
            if hope != NONE {
                starts.add(hope, number)?;
            }
        }
    }
    Ok(starts)
}

/// The distances of the quests, once all states are lost from which one can't be come to.
fn settled(
    world: &mut World<'_>,
    field: Field,
    marks: &Marks,
    quests: &[Quest<'_>],
) -> Result<Vec<Vec<u32>>, Stop> {
    let mut field = field;
    for _ in 0..u64::MAX {
        let mut lists = Vec::new(world.alloc);
        for quest in quests {
            world.look_at_all()?;
            lists.push(distances(world, &field, marks, *quest)?)?;
        }
        if !field.shrink(world, &lists)? {
            return Ok(lists);
        }
    }
    Err(Stop::TooMany)
}
