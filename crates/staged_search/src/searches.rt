//! The two searches: among all states that can be reached, and forward from the initial ones.

use crate::distances::Way;
use crate::goals::Goal;
use crate::marks::Marks;
use crate::outlooks::Outlook;
use crate::stops::Stop;
use crate::traces::{Leaf, Trace};
use crate::world::{Branch, World};

/// How many states are gone on from at once below a state, as long as the target seems to come nearer.
const MOST_DIVE: usize = 64;

/// What a plan does that is found among all states that can be reached; `None` where there is none.
pub(crate) fn search_listed(
    world: &mut World<'_>,
    goal: &Goal<'_>,
    way: Way,
) -> Result<Option<Trace>, Stop> {
    world.expand_all()?;
    let mut marks = Marks::new(world.alloc, goal)?;
    marks.update(world, goal)?;
    let outlook = Outlook::new(world, goal, &marks, way)?;
    Trace::new(world, &marks, &outlook)
}

/// What a plan does that is found by going on, again and again, from the states to which the plan comes
/// that is best as far as it seems; `None` where there is none. (After Hansen and Zilberstein, LAO*: A
/// heuristic search algorithm that finds solutions with loops, 2001.)
pub(crate) fn search_forward(
    world: &mut World<'_>,
    goal: &Goal<'_>,
    way: Way,
) -> Result<Option<Trace>, Stop> {
    let mut marks = Marks::with_estimates(world.alloc, world.task(), goal)?;
    for _ in 0..u64::MAX {
        marks.update(world, goal)?;
        let outlook = Outlook::new(world, goal, &marks, way)?;
        let Some(trace) = Trace::new(world, &marks, &outlook)? else {
            return Ok(None);
        };
        if trace.leaves.is_empty() {
            return Ok(Some(trace));
        }
        for leaf in &trace.leaves {
            dive(world, goal, &mut marks, *leaf)?;
        }
    }
    Err(Stop::TooMany)
}

/// Goes on from a state, and then from those to which the action leads that seems the best, as long as the
/// target seems to come nearer.
fn dive(world: &mut World<'_>, goal: &Goal<'_>, marks: &mut Marks, leaf: Leaf) -> Result<(), Stop> {
    let mut todo = Vec::new(world.alloc);
    todo.push(leaf)?;
    for _ in 0..MOST_DIVE {
        let Some(leaf) = todo.pop() else {
            break;
        };
        if !world.is_expanded(leaf.state) {
            world.expand(leaf.state)?;
            marks.update(world, goal)?;
            push_nearest(world, marks, leaf, &mut todo)?;
        }
    }
    Ok(())
}

/// Adds the states to which the action of a state leads that seems the best, if they seem nearer.
fn push_nearest(
    world: &World<'_>,
    marks: &Marks,
    leaf: Leaf,
    todo: &mut Vec<Leaf>,
) -> Result<(), Stop> {
    let mut best = None;
    let mut least = seems(marks, leaf.stage, leaf.state);
    for branch in world.branches_of(leaf.state) {
        let far = farthest(marks, leaf.stage, branch);
        if far < least {
            least = far;
            best = Some(branch);
        }
    }
    let Some(branch) = best else {
        return Ok(());
    };
    for state in &branch.after {
        if !marks.is_met(leaf.stage, *state) {
            todo.push(Leaf {
                state: *state,
                stage: leaf.stage,
            })?;
        }
    }
    Ok(())
}

/// How far the target seems from the farthest outcome.
fn farthest(marks: &Marks, stage: usize, branch: &Branch) -> u32 {
    let mut far = 0;
    for state in &branch.after {
        far = far.max(seems(marks, stage, *state));
    }
    far
}

/// How far a stage's target seems from a state.
fn seems(marks: &Marks, stage: usize, state: u32) -> u32 {
    if marks.is_met(stage, state) {
        return 0;
    }
    marks.hope(stage, stage, state)
}
