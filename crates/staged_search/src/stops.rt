//! Why a search ends early, and how much work it has done: counts, and no clock, so that the same call
//! has the same answer.

use std::alloc::{AllocError, AllocFailed};
use task_core::InitErr;

/// Why a search ends before it has an answer.
#[derive(Clone, Copy)]
pub(crate) enum Stop {
    /// There are too many states, or it has done as much as it may.
    TooMany,
    Memory,
}

impl From<AllocError> for Stop {
    fn from(_: AllocError) -> Stop {
        Stop::Memory
    }
}

impl<T: Drop> From<AllocFailed<T>> for Stop {
    fn from(_: AllocFailed<T>) -> Stop {
        Stop::Memory
    }
}

impl From<InitErr> for Stop {
    fn from(error: InitErr) -> Stop {
        match error {
            InitErr::TooMany => Stop::TooMany,
            InitErr::Memory => Stop::Memory,
        }
    }
}

/// How much work may still be done.
#[derive(Clone, Copy)]
pub(crate) struct Effort {
    left: u64,
}

impl Effort {
    pub(crate) fn new(most: u64) -> Effort {
        Effort { left: most }
    }

    /// Counts so much work.
    pub(crate) fn spend(&mut self, work: u64) -> Result<(), Stop> {
        if work > self.left {
            return Err(Stop::TooMany);
        }
        self.left -= work;
        Ok(())
    }
}
