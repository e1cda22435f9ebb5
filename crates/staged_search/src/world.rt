//! The states that a search has met, and where the actions lead from those that it has gone on from.

use crate::numbers::{NONE, small};
use crate::steps::{holds, vector_after};
use crate::stops::{Effort, Stop};
use indexmap::IndexSet;
use std::alloc::Global;
use task_core::{ActionId, GroundAction, State, Task, in_space, init_states};

/// An action that can be executed in a state, and the states to which it may lead, each once.
#[derive(Drop)]
pub(crate) struct Branch {
    pub(crate) state: u32,
    pub(crate) action: ActionId,
    pub(crate) after: Vec<u32>,
}

/// The branches of a state lie from `first` up to `end`; there is no first one where the search hasn't
/// gone on from the state.
#[derive(Clone, Copy)]
struct Row {
    first: u32,
    end: u32,
}

/// The states, numbered in the order in which they were met, the initial ones first.
#[derive(Drop)]
pub(crate) struct World<'a> {
    pub(crate) alloc: Global,
    task: &'a Task,
    numbers: IndexSet<State>,
    rows: Vec<Row>,
    /// For each state the branches that may lead to it.
    before: Vec<Vec<u32>>,
    branches: Vec<Branch>,
    /// How many outcomes the branches have.
    outcomes: u64,
    /// How many states are initial, and how many may be met.
    pub(crate) initial: u32,
    most: u32,
    pub(crate) effort: Effort,
}

impl<'a> World<'a> {
    /// The initial states.
    pub(crate) fn new(
        alloc: Global,
        task: &'a Task,
        most: u32,
        effort: Effort,
    ) -> Result<World<'a>, Stop> {
        let mut world = World {
            alloc,
            task,
            numbers: IndexSet::new(alloc),
            rows: Vec::new(alloc),
            before: Vec::new(alloc),
            branches: Vec::new(alloc),
            outcomes: 0,
            initial: 0,
            most,
            effort,
        };
        let states = init_states(alloc, task, most as usize)?;
        for state in &states {
            world.number_of(*state)?;
        }
        world.initial = world.len();
        Ok(world)
    }

    pub(crate) fn task(&self) -> &'a Task {
        self.task
    }

    pub(crate) fn len(&self) -> u32 {
        small(self.rows.len())
    }

    /// All branches.
    pub(crate) fn branches(&self) -> &[Branch] {
        &self.branches
    }

    /// Counts the work of looking at each state and each outcome.
    pub(crate) fn look_at_all(&mut self) -> Result<(), Stop> {
        let work = self.outcomes.saturating_add(self.rows.len() as u64);
        self.effort.spend(work)
    }

    /// The state of a number.
    pub(crate) fn state(&self, number: u32) -> State {
        match self.numbers.get_index(number as usize) {
            Some(state) => *state,
            None => State::none(),
        }
    }

    /// Whether the search has gone on from a state.
    pub(crate) fn is_expanded(&self, number: u32) -> bool {
        match self.rows.get(number as usize) {
            Some(row) => row.first != NONE,
            None => false,
        }
    }

    /// What can be done in a state, actions in rising order.
    pub(crate) fn branches_of(&self, number: u32) -> &[Branch] {
        let Some(row) = self.rows.get(number as usize) else {
            return &[];
        };
        match self.branches.get(row.first as usize..row.end as usize) {
            Some(branches) => branches,
            None => &[],
        }
    }

    /// The branch of a number.
    pub(crate) fn branch(&self, number: u32) -> Option<&Branch> {
        self.branches.get(number as usize)
    }

    /// The branches that may lead to a state.
    pub(crate) fn before(&self, number: u32) -> &[u32] {
        match self.before.get(number as usize) {
            Some(branches) => branches,
            None => &[],
        }
    }

    /// Goes on from all states that are met.
    pub(crate) fn expand_all(&mut self) -> Result<(), Stop> {
        for number in 0..NONE {
            if number >= self.len() {
                break;
            }
            self.expand(number)?;
        }
        Ok(())
    }

    /// Finds what can be done in a state, and where it leads.
    pub(crate) fn expand(&mut self, number: u32) -> Result<(), Stop> {
        if self.is_expanded(number) {
            return Ok(());
        }
        let state = self.state(number);
        let first = small(self.branches.len());
        let task = self.task;
        for (place, action) in task.actions.iter().enumerate() {
            self.effort.spend(1)?;
            if holds(&action.exec, &state) {
                self.add_branch(number, &state, ActionId(small(place)), action)?;
            }
        }
        let end = small(self.branches.len());
        if let Some(row) = self.rows.get_mut(number as usize) {
            *row = Row { first, end };
        }
        Ok(())
    }

    /// Adds what an action does in a state, if some outcome takes place.
    fn add_branch(
        &mut self,
        number: u32,
        state: &State,
        action: ActionId,
        of: &GroundAction,
    ) -> Result<(), Stop> {
        let after = self.states_after(state, of)?;
        if after.is_empty() {
            return Ok(());
        }
        let branch = small(self.branches.len());
        for next in &after {
            if let Some(before) = self.before.get_mut(*next as usize) {
                before.push(branch)?;
            }
        }
        self.outcomes = self.outcomes.saturating_add(after.len() as u64);
        self.branches.push(Branch {
            state: number,
            action,
            after,
        })?;
        Ok(())
    }

    /// The states to which an action may lead, each once; an outcome that leads to no state doesn't take
    /// place.
    fn states_after(&mut self, state: &State, of: &GroundAction) -> Result<Vec<u32>, Stop> {
        let mut after = Vec::new(self.alloc);
        for outcome in &of.outcomes {
            self.effort.spend(1)?;
            let vector = vector_after(outcome, state);
            if in_space(self.task, &vector) {
                let next = self.number_of(vector)?;
                if !after.contains(&next) {
                    after.push(next)?;
                }
            }
        }
        Ok(after)
    }

    /// The number of a state, which is added where it wasn't met.
    fn number_of(&mut self, state: State) -> Result<u32, Stop> {
        let (number, is_new) = self.numbers.insert_full(state)?;
        if is_new {
            if self.len() >= self.most {
                return Err(Stop::TooMany);
            }
            self.rows.push(Row {
                first: NONE,
                end: NONE,
            })?;
            self.before.push(Vec::new(self.alloc))?;
        }
        Ok(small(number))
    }
}
