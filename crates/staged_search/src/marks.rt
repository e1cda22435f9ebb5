//! In which of the states that were met the conditions of the stages hold, and how far their targets seem.

use crate::estimates::Costs;
use crate::goals::{End, Goal};
use crate::numbers::{NONE, at, is_marked, small};
use crate::relevance::helping;
use crate::steps::holds;
use crate::stops::Stop;
use crate::world::World;
use std::alloc::{AllocError, Global};
use task_core::{ActionId, Cond, State, Task};

/// The largest estimate; larger ones count as this.
const MOST_HOPE: u32 = 4_095;

/// How many steps an action counts for that can't help to come to the target of a stage.
const DETOUR: u32 = 64;

/// What is known of a stage in each state.
#[derive(Drop)]
struct StageMarks {
    guard: Vec<bool>,
    target: Vec<bool>,
    /// How far the target seems; nothing is asked where all states are listed.
    hope: Vec<u32>,
    /// For each action whether it can help; for none where all states are listed.
    helps: Vec<bool>,
}

/// What is known of each stage, and of what is kept after the last one.
#[derive(Drop)]
pub(crate) struct Marks {
    stages: Vec<StageMarks>,
    keep: Vec<bool>,
    /// What makes estimates, where not all states are listed.
    costs: Option<Costs>,
}

impl Marks {
    /// Nothing, before a state was met, and no estimates.
    pub(crate) fn new(alloc: Global, goal: &Goal<'_>) -> Result<Marks, AllocError> {
        let mut stages = Vec::new(alloc);
        for _ in &goal.stages {
            stages.push(StageMarks {
                guard: Vec::new(alloc),
                target: Vec::new(alloc),
                hope: Vec::new(alloc),
                helps: Vec::new(alloc),
            })?;
        }
        Ok(Marks {
            stages,
            keep: Vec::new(alloc),
            costs: None,
        })
    }

    /// The same with estimates.
    pub(crate) fn with_estimates(
        alloc: Global,
        task: &Task,
        goal: &Goal<'_>,
    ) -> Result<Marks, AllocError> {
        let mut marks = Marks::new(alloc, goal)?;
        marks.costs = Some(Costs::new(alloc)?);
        for (marks, stage) in marks.stages.iter_mut().zip(&goal.stages) {
            marks.helps = helping(alloc, task, stage.target)?;
        }
        Ok(marks)
    }

    /// Looks at the states that were met since the last time.
    pub(crate) fn update(&mut self, world: &mut World<'_>, goal: &Goal<'_>) -> Result<(), Stop> {
        for number in small(self.keep.len())..world.len() {
            let state = world.state(number);
            self.keep.push(is_kept(goal, &state))?;
            self.mark_stages(world, goal, &state)?;
        }
        Ok(())
    }

    /// Looks at the stages in a state.
    fn mark_stages(
        &mut self,
        world: &mut World<'_>,
        goal: &Goal<'_>,
        state: &State,
    ) -> Result<(), Stop> {
        if let Some(costs) = &mut self.costs {
            let sweeps = costs.spread(world.task(), state);
            let actions = world.task().actions.len() as u64;
            world.effort.spend(sweeps.saturating_mul(actions))?;
        }
        for (marks, stage) in self.stages.iter_mut().zip(&goal.stages) {
            marks.guard.push(is_guarded(stage.guard, state))?;
            marks.target.push(holds(stage.target, state))?;
            marks.hope.push(hope_of(&self.costs, stage.target))?;
        }
        Ok(())
    }

    pub(crate) fn is_kept(&self, state: u32) -> bool {
        is_marked(&self.keep, state)
    }

    /// Whether the target of a stage holds in a state.
    pub(crate) fn is_met(&self, stage: usize, state: u32) -> bool {
        match self.stages.get(stage) {
            Some(marks) => is_marked(&marks.target, state),
            None => false,
        }
    }

    /// The states in which the guard of a stage holds.
    pub(crate) fn guard(&self, stage: usize) -> &[bool] {
        match self.stages.get(stage) {
            Some(marks) => &marks.guard,
            None => &[],
        }
    }

    /// How many steps an action counts for in a stage: many where it can't help.
    pub(crate) fn step(&self, stage: usize, action: ActionId) -> u32 {
        let Some(marks) = self.stages.get(stage) else {
            return 1;
        };
        if self.costs.is_none() || is_marked(&marks.helps, action.0) {
            return 1;
        }
        DETOUR
    }

    /// How far the target of a stage seems from a state in which it doesn't hold; no number where some
    /// target from a stage on can't be had.
    pub(crate) fn hope(&self, first: usize, stage: usize, state: u32) -> u32 {
        for later in first..self.stages.len() {
            if self.hope_at(later, state) == NONE {
                return NONE;
            }
        }
        self.hope_at(stage, state).clamp(1, MOST_HOPE)
    }

    fn hope_at(&self, stage: usize, state: u32) -> u32 {
        match self.stages.get(stage) {
            Some(marks) => at(&marks.hope, state),
            None => NONE,
        }
    }
}

/// Whether what is kept after the last stage holds in a state.
fn is_kept(goal: &Goal<'_>, state: &State) -> bool {
    match goal.end {
        End::Keep(cond) => holds(cond, state),
        End::Again => true,
    }
}

/// Whether a guard holds in a state, if there is one.
fn is_guarded(guard: Option<&Cond>, state: &State) -> bool {
    match guard {
        Some(cond) => holds(cond, state),
        None => true,
    }
}

/// What a target costs, if there are costs.
fn hope_of(costs: &Option<Costs>, target: &Cond) -> u32 {
    match costs {
        Some(costs) => costs.cost_of(target, true),
        None => NONE,
    }
}
