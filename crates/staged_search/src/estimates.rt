//! How far a condition seems from a state: what it costs where what becomes false is passed over, and
//! each outcome may be picked (the additive heuristic of Bonet and Geffner, Planning as heuristic
//! search, 2001).

use crate::numbers::{NONE, at, put, small};
use std::alloc::{AllocError, Global};
use task_core::{Cond, GroundAction, Lit, Outcome, State, Task};

/// How often all actions are gone through at most: each fluent has two values.
const MOST_SWEEPS: usize = 512;

/// What it costs to make each fluent true, and to make it false; no number where it can't be.
#[derive(Drop)]
pub(crate) struct Costs {
    yes: Vec<u32>,
    no: Vec<u32>,
}

impl Costs {
    pub(crate) fn new(alloc: Global) -> Result<Costs, AllocError> {
        Ok(Costs {
            yes: vec![in alloc; NONE; 256]?,
            no: vec![in alloc; NONE; 256]?,
        })
    }

    /// Finds the costs from a state, and tells how often the actions were gone through.
    pub(crate) fn spread(&mut self, task: &Task, state: &State) -> u64 {
        self.begin(task, state);
        let mut sweeps = 0u64;
        for _ in 0..MOST_SWEEPS {
            sweeps = sweeps.saturating_add(1);
            if !self.sweep(task) {
                break;
            }
        }
        sweeps
    }

    /// What holds in a state costs nothing.
    fn begin(&mut self, task: &Task, state: &State) {
        for fluent in 0..small(task.fluents.len()).min(256) {
            let value = state.get(task_core::FluentId(fluent));
            put(&mut self.yes, fluent, if value { 0 } else { NONE });
            put(&mut self.no, fluent, if value { NONE } else { 0 });
        }
    }

    /// Goes through all actions. Tells whether something became cheaper.
    fn sweep(&mut self, task: &Task) -> bool {
        let mut is_cheaper = false;
        for action in &task.actions {
            if self.use_action(action) {
                is_cheaper = true;
            }
        }
        is_cheaper
    }

    /// Makes cheaper what an action gives, and tells whether something became so.
    fn use_action(&mut self, action: &GroundAction) -> bool {
        let cost = self.cost_of(&action.exec, true);
        if cost == NONE {
            return false;
        }
        let mut is_cheaper = false;
        for outcome in &action.outcomes {
            if self.use_outcome(outcome, cost) {
                is_cheaper = true;
            }
        }
        is_cheaper
    }

    /// The same for an outcome of an action whose precondition costs so much.
    fn use_outcome(&mut self, outcome: &Outcome, cost: u32) -> bool {
        let mut is_cheaper = false;
        for change in &outcome.changes {
            let total = sum(cost, self.cost_of(&change.cond, true));
            if total != NONE && self.use_lits(&change.lits, sum(total, 1)) {
                is_cheaper = true;
            }
        }
        is_cheaper
    }

    /// The same for literals that cost so much.
    fn use_lits(&mut self, lits: &[Lit], cost: u32) -> bool {
        let mut is_cheaper = false;
        for lit in lits {
            let costs = if lit.positive {
                &mut self.yes
            } else {
                &mut self.no
            };
            if cost < at(costs, lit.fluent.0) {
                put(costs, lit.fluent.0, cost);
                is_cheaper = true;
            }
        }
        is_cheaper
    }

    /// What it costs that a condition has a value; no number where it can't have it.
    pub(crate) fn cost_of(&self, cond: &Cond, value: bool) -> u32 {
        match cond {
            Cond::Yes => cost_if(value),
            Cond::No => cost_if(!value),
            Cond::Is(fluent) => {
                if value {
                    at(&self.yes, fluent.0)
                } else {
                    at(&self.no, fluent.0)
                }
            }
            Cond::Not(part) => self.cost_of(part, !value),
            Cond::All(parts) => {
                let mut cost = cost_if(value);
                for part in parts {
                    cost = joined(cost, self.cost_of(part, value), value);
                }
                cost
            }
            Cond::Any(parts) => {
                let mut cost = cost_if(!value);
                for part in parts {
                    cost = joined(cost, self.cost_of(part, value), !value);
                }
                cost
            }
        }
    }
}

/// Nothing, or no number.
fn cost_if(is_had: bool) -> u32 {
    if is_had { 0 } else { NONE }
}

/// What both cost, or the cheaper of them.
fn joined(cost: u32, other: u32, both: bool) -> u32 {
    if both {
        sum(cost, other)
    } else {
        cost.min(other)
    }
}

/// What both cost.
fn sum(cost: u32, other: u32) -> u32 {
    cost.saturating_add(other)
}
