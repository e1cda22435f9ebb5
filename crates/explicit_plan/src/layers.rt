//! The way back from the goal, layer by layer: of a state it is asked whether it is in the next one
//! only where something has come about that may lead there.

use crate::graph::{Move, StepGraph, Stop};
use std::alloc::{AllocError, Global};
use task_core::{ActionId, Class};

/// How often a state is looked at at most.
const MOST_LOOKS: usize = 67_108_864;

/// What layers are made for: a plan of a class in a graph, in which one may come to each state from
/// those before it, and which a strong cyclic plan leaves for none but states that stay.
#[derive(Clone, Copy)]
pub(crate) struct Wanted<'a> {
    pub(crate) graph: &'a StepGraph,
    pub(crate) before: &'a [Vec<usize>],
    pub(crate) class: Class,
    pub(crate) stays: &'a [bool],
}

/// The states from which the goal is had so far, each with the action that it takes; and how often
/// states were looked at.
#[derive(Drop)]
pub(crate) struct Layers {
    /// Whether each state is among them.
    pub(crate) inside: Vec<bool>,
    /// What each takes; nothing in a state of the goal, and in one that isn't among them.
    pub(crate) taken: Vec<Option<ActionId>>,
    /// The states that may be in the next layer: first all that aren't among them, and from then on
    /// those of them in which some action may lead to a state of the last one.
    open: Vec<usize>,
    /// The layer for which each state was last put there.
    asked: Vec<usize>,
    /// How many layers there were.
    count: usize,
    /// How many initial states there are, and how many of them aren't among these.
    initial: usize,
    missing: usize,
    looks: usize,
}

impl Layers {
    pub(crate) fn of_goal(
        alloc: Global,
        graph: &StepGraph,
        stays: &[bool],
        looks: usize,
    ) -> Result<Layers, AllocError> {
        let mut layers = Layers {
            inside: Vec::new(alloc),
            taken: Vec::new(alloc),
            open: Vec::new(alloc),
            asked: Vec::new(alloc),
            count: 0,
            initial: graph.initial,
            missing: 0,
            looks,
        };
        for (number, in_goal) in graph.goal.iter().enumerate() {
            let is_inside = *in_goal && is_in(stays, number);
            layers.inside.push(is_inside)?;
            layers.taken.push(None)?;
            layers.asked.push(0)?;
            if !is_inside {
                layers.open.push(number)?;
                layers.miss(number);
            }
        }
        Ok(layers)
    }

    /// Notes that a state isn't among them.
    fn miss(&mut self, number: usize) {
        if number < self.initial {
            self.missing = self.missing.saturating_add(1);
        }
    }

    /// How often states were looked at.
    pub(crate) fn looks(&self) -> usize {
        self.looks
    }

    /// Whether all initial states are among them.
    pub(crate) fn are_enough(&self) -> bool {
        self.missing == 0
    }

    /// Adds layers until there is no other or, where it isn't for a strong cyclic plan, all initial
    /// states are among them.
    pub(crate) fn grow(&mut self, alloc: Global, wanted: &Wanted<'_>) -> Result<(), Stop> {
        for _ in 0..wanted.graph.states.len() {
            if wanted.class != Class::Cyclic && self.are_enough() {
                return Ok(());
            }
            if !self.add_layer(alloc, wanted)? {
                return Ok(());
            }
        }
        Ok(())
    }

    /// Adds the next layer, and tells whether it has a state.
    fn add_layer(&mut self, alloc: Global, wanted: &Wanted<'_>) -> Result<bool, Stop> {
        self.looks = self.looks.saturating_add(self.open.len());
        if self.looks > MOST_LOOKS {
            return Err(Stop::TooMany);
        }
        let mut fresh = Vec::new(alloc);
        for number in &self.open {
            if let Some(action) = self.action_at(wanted, *number) {
                fresh.push((*number, action))?;
            }
        }
        self.count = self.count.saturating_add(1);
        self.take_all(&fresh);
        self.open_before(alloc, wanted.before, &fresh)?;
        Ok(!fresh.is_empty())
    }

    /// Makes those the next to be asked that aren't among them and from which one may come to one of
    /// these states.
    fn open_before(
        &mut self,
        alloc: Global,
        before: &[Vec<usize>],
        fresh: &[(usize, ActionId)],
    ) -> Result<(), AllocError> {
        self.open = Vec::new(alloc);
        for (number, _) in fresh {
            if let Some(states) = before.get(*number) {
                for state in states {
                    self.ask(*state)?;
                }
            }
        }
        Ok(())
    }

    /// Puts a state among the next to be asked, unless it is among them or was put there.
    fn ask(&mut self, state: usize) -> Result<(), AllocError> {
        if is_in(&self.inside, state) || state >= self.asked.len() {
            return Ok(());
        }
        if self.asked[state] < self.count {
            self.asked[state] = self.count;
            self.open.push(state)?;
        }
        Ok(())
    }

    /// Adds states with the actions that they take.
    fn take_all(&mut self, fresh: &[(usize, ActionId)]) {
        for (number, action) in fresh {
            self.take(*number, *action);
        }
    }

    /// Adds a state with the action that it takes.
    fn take(&mut self, number: usize, action: ActionId) {
        if number < self.inside.len() {
            self.inside[number] = true;
        }
        if number < self.taken.len() {
            self.taken[number] = Some(action);
        }
        if number < self.initial {
            self.missing = self.missing.saturating_sub(1);
        }
    }

    /// The least-numbered action that leads from a state among these, as the class wants it.
    fn action_at(&self, wanted: &Wanted<'_>, number: usize) -> Option<ActionId> {
        let moves = wanted.graph.moves.get(number)?;
        for step in moves {
            if self.leads_in(wanted, step) {
                return Some(step.action);
            }
        }
        None
    }

    /// Whether an action leads among these, as the class wants it: for a weak plan by some outcome,
    /// for a strong one by each, and for a strong cyclic one by some while each leads to a state
    /// that stays.
    fn leads_in(&self, wanted: &Wanted<'_>, step: &Move) -> bool {
        match wanted.class {
            Class::Weak => has_some(&self.inside, &step.after),
            Class::Strong => has_each(&self.inside, &step.after),
            Class::Cyclic => {
                has_each(wanted.stays, &step.after) && has_some(&self.inside, &step.after)
            }
        }
    }
}

/// Whether a state is among those that are marked.
fn is_in(marks: &[bool], number: usize) -> bool {
    marks.get(number).copied().unwrap_or(false)
}

/// Whether some state of a list is among those that are marked.
fn has_some(marks: &[bool], states: &[usize]) -> bool {
    for state in states {
        if is_in(marks, *state) {
            return true;
        }
    }
    false
}

/// Whether each state of a list is among those that are marked.
fn has_each(marks: &[bool], states: &[usize]) -> bool {
    for state in states {
        if !is_in(marks, *state) {
            return false;
        }
    }
    true
}
