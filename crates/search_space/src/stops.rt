//! Why a search ends early.

use std::alloc::{AllocError, AllocFailed};
use task_core::InitErr;

/// Why a search ends before it has an answer.
#[derive(Clone, Copy, Debug, PartialEq, Eq)]
pub enum Stop {
    /// It has done as much as it may.
    GaveUp,
    /// A policy reaches too many states for this way.
    TooMany,
    Memory,
}

impl From<AllocError> for Stop {
    fn from(_: AllocError) -> Stop {
        Stop::Memory
    }
}

impl<T: Drop> From<AllocFailed<T>> for Stop {
    fn from(_: AllocFailed<T>) -> Stop {
        Stop::Memory
    }
}

impl From<InitErr> for Stop {
    fn from(error: InitErr) -> Stop {
        match error {
            InitErr::TooMany => Stop::GaveUp,
            InitErr::Memory => Stop::Memory,
        }
    }
}
