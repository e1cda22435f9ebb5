//! Strong plans: a search of the graph of states and actions from the initial states, along the
//! cheapest action of each state, until a state is solved: it is in the goal, a pair is taken in it,
//! or some action leads to solved states alone. The solved are found backward, so that no run can
//! go round; each becomes a pair with a pattern, which solves other states too. `solved_states` notes
//! these, `tried_actions` makes branches, `branch_costs` says what they cost, and `lost_branches` takes
//! those out that are of no use.

use crate::branches::Branches;
use crate::trap::trap_from;
use crate::vertices::Vertices;
use crate::views::Phase;
use relaxed_task::Queue;
use search_space::{Hope, NONE, Part, Stop, at, small};
use search_world::{Lessons, Policy, World};
use std::alloc::{AllocError, Global};

/// What one step costs.
pub(crate) const STEP: u64 = 1024;

/// By how much a state may become dearer before more of its actions are tried.
const SLACK: u64 = STEP;

/// How much more a state costs from which every way goes round.
const DETOUR: u64 = 5 * STEP;

/// How often states are looked at in vain before the best of all open states is taken.
const MOST_IDLE: usize = 200;

/// The most open states that are then taken at once.
const MOST_BURST: u32 = 8;

/// The way from an initial state down to where the search is, and how often it looked in vain.
#[derive(Drop)]
pub(crate) struct Path {
    pub(crate) states: Vec<u32>,
    pub(crate) idle: usize,
}

impl Path {
    /// Whether too many states were looked at in vain.
    fn is_stuck(&self) -> bool {
        self.idle >= MOST_IDLE.saturating_add(self.states.len().saturating_mul(2))
    }

    /// The last state, or none.
    fn last(&self) -> u32 {
        match self.states.last() {
            Some(state) => *state,
            None => NONE,
        }
    }
}

/// The search for a strong plan.
#[derive(Drop)]
pub struct AndOrGraph {
    pub(crate) alloc: Global,
    pub policy: Policy,
    pub(crate) lessons: Lessons,
    pub(crate) vertices: Vertices,
    pub(crate) branches: Branches,
    /// The states that aren't tried, by estimate.
    pub(crate) frontier: Queue,
    pub(crate) path: Path,
    /// How many open states were taken the last time, and how many pairs there were.
    pub(crate) burst: u32,
    pub(crate) solved: u32,
    /// The actions that are helpful where the search is: those that have this mark.
    pub(crate) helpful: Vec<u32>,
    pub(crate) mark: u32,
    /// Whether all actions were tried in each state that was met.
    pub(crate) is_exhausted: bool,
}

impl AndOrGraph {
    /// Of so many actions, without a state.
    pub fn new(alloc: Global, actions: u32) -> Result<AndOrGraph, AllocError> {
        Ok(AndOrGraph {
            alloc,
            policy: Policy::new(alloc, true)?,
            lessons: Lessons::new(alloc),
            vertices: Vertices::new(alloc),
            branches: Branches::new(alloc),
            frontier: Queue::new(alloc),
            path: Path {
                states: Vec::new(alloc),
                idle: 0,
            },
            burst: 1,
            solved: NONE,
            helpful: vec![in alloc; 0; actions as usize]?,
            mark: 0,
            is_exhausted: false,
        })
    }

    pub(crate) fn is_open(&self, state: u32) -> bool {
        self.vertices.is_open(state)
    }

    pub(crate) fn cost(&self, state: u32) -> u64 {
        self.vertices.view(state).cost
    }

    pub(crate) fn phase(&self, state: u32) -> Phase {
        self.vertices.view(state).phase
    }

    /// Finds a strong plan. False where there is none.
    pub fn solve(&mut self, world: &mut World<'_>) -> Result<bool, Stop> {
        for place in 0..small(world.initial.len()) {
            let state = at(&world.initial, place);
            self.meet(world, state)?;
        }
        for _ in 0..u32::MAX {
            self.lessons.learn(world)?;
            let Some(root) = self.first_open(world)? else {
                return Ok(true);
            };
            if world.hope(root) != Hope::Open {
                return Ok(false);
            }
            self.descend(world, root)?;
            if self.path.is_stuck() && !self.take_some(world)? {
                self.is_exhausted = true;
                return Ok(self.first_open(world)?.is_none());
            }
        }
        Err(Stop::GaveUp)
    }

    /// The first initial state that isn't solved.
    fn first_open(&mut self, world: &World<'_>) -> Result<Option<u32>, Stop> {
        for state in &world.initial {
            self.look(world, *state)?;
            if self.is_open(*state) {
                return Ok(Some(*state));
            }
        }
        Ok(None)
    }

    /// Goes down from an initial state along the cheapest branches until it is solved or nothing
    /// leads on.
    fn descend(&mut self, world: &mut World<'_>, root: u32) -> Result<(), Stop> {
        self.path.states.clear();
        self.push_path(root)?;
        for _ in 0..u64::MAX {
            let state = self.path.last();
            if state == NONE || self.path.is_stuck() {
                break;
            }
            self.step_from(world, state)?;
        }
        for state in &self.path.states {
            self.vertices.put_on_path(*state, false);
        }
        Ok(())
    }

    fn push_path(&mut self, state: u32) -> Result<(), AllocError> {
        self.path.states.push(state)?;
        self.vertices.put_on_path(state, true);
        Ok(())
    }

    fn pop_path(&mut self, state: u32) {
        self.vertices.put_on_path(state, false);
        let _ = self.path.states.pop();
    }

    /// Looks at the last state of the path.
    fn step_from(&mut self, world: &mut World<'_>, state: u32) -> Result<(), Stop> {
        world.effort.spend(1)?;
        self.look(world, state)?;
        if !self.is_open(state) {
            self.pop_path(state);
            return Ok(());
        }
        if world.hope(state) != Hope::Open {
            self.kill_before(world, state)?;
            self.pop_path(state);
            return Ok(());
        }
        if !self.is_tried(state) {
            self.path.idle = 0;
            return self.try_actions(world, state);
        }
        self.path.idle = self.path.idle.saturating_add(1);
        self.go_on(world, state)
    }

    /// Whether some branch was made, or all actions were tried.
    fn is_tried(&self, state: u32) -> bool {
        let view = self.vertices.view(state);
        view.live > 0 || view.phase == Phase::Done
    }

    /// Goes on along the cheapest branch of a state, or tries more of its actions, or turns back.
    fn go_on(&mut self, world: &mut World<'_>, state: u32) -> Result<(), Stop> {
        let (best, cost) = self.cheapest(world, state)?;
        if !self.is_open(state) || world.hope(state) != Hope::Open {
            return Ok(());
        }
        let limit = self.cost(state);
        if (best == NONE || cost > limit.saturating_add(SLACK))
            && self.phase(state) != Phase::Done
        {
            return self.try_actions(world, state);
        }
        if best == NONE {
            self.vertices.raise(state, limit.saturating_add(DETOUR));
            self.pop_path(state);
            return Ok(());
        }
        self.vertices.raise(state, cost.saturating_add(STEP));
        match self.next_of(best) {
            NONE => {
                self.pop_path(state);
                Ok(())
            }
            next => Ok(self.push_path(next)?),
        }
    }

    /// Tries the actions of the open states with the best estimates: of one after something was solved,
    /// and else of twice as many as the last time. False where there are no more.
    fn take_some(&mut self, world: &mut World<'_>) -> Result<bool, Stop> {
        let solved = self.policy.len();
        self.burst = if solved == self.solved {
            self.burst.saturating_mul(2).min(MOST_BURST)
        } else {
            1
        };
        self.solved = solved;
        for _ in 0..self.burst {
            if !self.take_best(world)? {
                return Ok(false);
            }
        }
        Ok(true)
    }

    /// Tries the actions of the open state with the best estimate. False where there is none.
    fn take_best(&mut self, world: &mut World<'_>) -> Result<bool, Stop> {
        for _ in 0..u64::MAX {
            let Some(state) = self.frontier.pop() else {
                return Ok(false);
            };
            self.look(world, state)?;
            if self.is_open(state)
                && self.phase(state) != Phase::Done
                && world.hope(state) == Hope::Open
            {
                self.path.idle = 0;
                self.try_all(world, state)?;
                return Ok(true);
            }
        }
        Ok(false)
    }

    /// Tries all actions of a state.
    fn try_all(&mut self, world: &mut World<'_>, state: u32) -> Result<(), Stop> {
        for _ in 0..world.actions.count().saturating_add(2) {
            if !self.is_open(state)
                || self.phase(state) == Phase::Done
                || world.hope(state) != Hope::Open
            {
                break;
            }
            self.try_actions(world, state)?;
        }
        Ok(())
    }

    /// Where all actions were tried: some open states, an initial one among them, such that each
    /// action may lead from one to another, or to a dead end.
    pub fn unsolved(&mut self, world: &mut World<'_>) -> Result<Vec<Part>, Stop> {
        if self.is_exhausted {
            if let Some(first) = self.first_open(world)? {
                return trap_from(world, &self.vertices, first);
            }
        }
        Ok(Vec::new(self.alloc))
    }
}
