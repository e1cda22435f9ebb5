//! Traces of runs.

ghost use Rattle.run_replay.specs.declared.traces.RunErr.TheVariants.{Memory};
ghost use Rattle.std.specs.Prelude.{◌≡◌};

use crate::worlds::Step;
use std::alloc::{AllocError, AllocFailed};
use task_core::State;

/// How a run ended.
#[derive(Clone, Copy, Debug, PartialEq, Eq)]
pub enum End {
    /// No rule matches the state and the context.
    Terminal,
    /// The world has no more outcomes.
    Ended,
    /// The greatest number of steps was made.
    Capped,
}

/// A run: its first state, its steps in order, and how it ended.
#[derive(Debug, Drop)]
pub struct Trace {
    pub first: State,
    pub steps: Vec<Step>,
    pub end: End,
}

/// Why a run was refused, at the step of this number, counted from 1; or want of memory.
#[derive(Clone, Copy, Debug, PartialEq, Eq)]
pub enum RunErr {
    /// The world gave a number that is none of the action's outcomes, or one whose outcome leads to
    /// no state.
    StrayOutcome { step: u64, word: u32, outcomes: u32 },
    /// The rule that counts has an action that can't be executed.
    Unexecutable { step: u64 },
    /// There is not enough memory.
    Memory,
}

impl From<AllocError> for RunErr {
    ghost from_gives = { λ _ e. e ≡ Memory };

    fn from(_: AllocError) -> RunErr {
        RunErr::Memory
    }
}

impl<T: Drop> From<AllocFailed<T>> for RunErr {
    ghost from_gives = { λ _ e. e ≡ Memory };

    fn from(_: AllocFailed<T>) -> RunErr {
        RunErr::Memory
    }
}
