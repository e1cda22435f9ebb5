//! What a plan reaches, and what it does there.

ghost use Rattle.control_command.specs.Followed.{AreReachedWithin};
ghost use Rattle.std.specs.Prelude.{◌≡◌, ◌<◌, ℕ, All, IfOk, IfSome, OnOk};
ghost use Rattle.task_core.specs.States.{IsWithin};
ghost use Rattle.task_core.specs.Tasks.{action_count, fluent_count};
ghost use Rattle.task_core.specs.declared.tasks.Task.{Task as TaskOf};

use crate::searches::Stop;
use exec_graph::MAX_CONFIGURATIONS;
use indexmap::IndexSet;
use std::alloc::Global;
use task_core::{ActionId, State, Task, in_space, outcome_count, step};

/// A configuration: a state, and the context that the plan is in, counted from 0.
#[derive(Clone, Copy, PartialEq, Eq, Hash)]
pub(crate) struct Place {
    pub(crate) state: State,
    pub(crate) context: u32,
}

/// What a plan does in a configuration: it takes the action, and goes on in the next context.
#[derive(Clone, Copy, PartialEq, Eq)]
pub(crate) struct Move {
    pub(crate) action: ActionId,
    pub(crate) next: u32,
}

/// The configurations that a plan reaches, in the order in which they were found, the initial ones
/// first; after how many steps each was found; and what the plan does in each, if it does anything.
#[derive(Drop)]
pub(crate) struct Followed {
    pub(crate) places: Vec<Place>,
    pub(crate) steps: Vec<u32>,
    pub(crate) moves: Vec<Option<Move>>,
    seen: IndexSet<Place>,
}

/// What does something in configurations. `fits` says what it asks of itself for a task.
pub(crate) trait Mover {
    ghost fits: { Self → TaskOf → Type 0 };

    /// What it does in a configuration, if it does anything.
    fn move_in(&self, task: &Task, place: &Place) -> Option<Move>
        requires { fits self.now task.now }
        ensures { IfSome result (λ taken. taken.action.0 < action_count task.now) };
}

impl Followed {
    /// The initial configurations.
    pub(crate) fn begin(alloc: Global, states: &[State]) -> Result<Followed, Stop>
        ensures { IfOk result (λ followed. (n : ℕ) → All (IsWithin n) states.now
            → AreReachedWithin n followed.places.items) }
    {
        let mut followed = Followed {
            places: Vec::new(alloc),
            steps: Vec::new(alloc),
            moves: Vec::new(alloc),
            seen: IndexSet::new(alloc),
        };
        for state in states {
            followed.add(
                Place {
                    state: *state,
                    context: 0,
                },
                0,
            )?;
        }
        Ok(followed)
    }

    /// Adds a configuration that is found after so many steps, if it isn't there.
    fn add(&mut self, place: Place, steps: u32) -> Result<(), Stop>
        ensures { OnOk result ((n : ℕ) → IsWithin n place.state
            → AreReachedWithin n self.old.places.items
            → AreReachedWithin n self.new.places.items) }
    {
        let (_, is_new) = self.seen.insert_full(place)?;
        if !is_new {
            return Ok(());
        }
        if self.places.len() >= MAX_CONFIGURATIONS {
            return Err(Stop::TooMany);
        }
        self.steps.push(steps)?;
        self.moves.push(None)?;
        self.places.push(place)?;
        Ok(())
    }

    /// Notes what is done in the configurations in which nothing is known to be done, and adds what follows
    /// them.
    pub(crate) fn visit<M: Mover>(&mut self, task: &Task, mover: &M) -> Result<(), Stop>
        requires fits { M.fits mover.now task.now }
        requires within { AreReachedWithin (fluent_count task.now) self.old.places.items }
        ensures within { OnOk result
            (AreReachedWithin (fluent_count task.now) self.new.places.items) }
    {
        for number in 0..MAX_CONFIGURATIONS {
            if number >= self.places.len() {
                return Ok(());
            }
            if self.is_idle(number) {
                let place = self.places[number];
                if let Some(taken) = mover.move_in(task, &place) {
                    self.take(task, number, &place.state, taken)?;
                }
            }
        }
        Ok(())
    }

    /// Whether it isn't known of the configuration of a number what the plan does there.
    fn is_idle(&self, number: usize) -> bool {
        match self.moves.get(number) {
            Some(None) => true,
            _ => false,
        }
    }

    /// Notes that the plan makes a move in the state of a configuration, and adds what follows.
    fn take(&mut self, task: &Task, number: usize, state: &State, taken: Move) -> Result<(), Stop>
        requires action { taken.action.0 < action_count task.now }
        requires state { IsWithin (fluent_count task.now) state.now }
        requires within { AreReachedWithin (fluent_count task.now) self.old.places.items }
        ensures within { OnOk result
            (AreReachedWithin (fluent_count task.now) self.new.places.items) }
    {
        self.decide(number, taken);
        let steps = self.steps_after(number);
        self.add_outcomes(task, state, taken, steps)
    }

    /// Notes what the plan does in the configuration of a number.
    fn decide(&mut self, number: usize, taken: Move)
        ensures { self.new.places ≡ self.old.places }
    {
        if number < self.moves.len() {
            self.moves[number] = Some(taken);
        }
    }

    /// How many steps it takes up to what follows the configuration of a number.
    fn steps_after(&self, number: usize) -> u32 {
        match self.steps.get(number) {
            Some(steps) => steps.saturating_add(1),
            None => 0,
        }
    }

    /// Adds the configurations that follow a state by a move.
    fn add_outcomes(
        &mut self,
        task: &Task,
        state: &State,
        taken: Move,
        steps: u32,
    ) -> Result<(), Stop>
        requires action { taken.action.0 < action_count task.now }
        requires state { IsWithin (fluent_count task.now) state.now }
        requires within { AreReachedWithin (fluent_count task.now) self.old.places.items }
        ensures within { OnOk result
            (AreReachedWithin (fluent_count task.now) self.new.places.items) }
    {
        let Move { action, next } = taken;
        for outcome in 0..outcome_count(task, action) {
            let after = step(task, state, action, outcome);
            // An outcome that leads to no state doesn't take place.
            if in_space(task, &after) {
                self.add(
                    Place {
                        state: after,
                        context: next,
                    },
                    steps,
                )?;
            }
        }
        Ok(())
    }
}

/// What is known to be done in these configurations, where it is an action of the task.
impl Mover for Followed {
    ghost use Rattle.std.specs.Prelude.{⊤};

    ghost fits = { λ self task. ⊤ };

    fn move_in(&self, task: &Task, place: &Place) -> Option<Move> {
        let number = self.seen.get_index_of(place)?;
        let taken = self.moves.get(number).copied()??;
        if (taken.action.0 as usize) < task.actions.len() {
            Some(taken)
        } else {
            None
        }
    }
}
