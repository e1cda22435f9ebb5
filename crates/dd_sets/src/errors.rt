//! Why a call made no set, and why it gave no cubes.

use dd_nodes::DdErr;
use std::alloc::AllocError;
use thiserror::Error;

/// Why a call made no set.
#[derive(Clone, Copy, Debug, PartialEq, Eq, Error)]
pub enum SetErr {
    /// The table holds as many nodes as it may.
    #[error("the table of diagram nodes is full")]
    Full,
    /// There was no memory.
    #[error("out of memory")]
    Memory,
}

impl From<AllocError> for SetErr {
    ghost use Rattle.std.specs.Prelude.{◌≡◌};
    ghost use Rattle.dd_sets.specs.declared.errors.SetErr.TheVariants.{Memory};

    ghost from_gives = { λ _ error. error ≡ Memory };

    fn from(_: AllocError) -> SetErr {
        SetErr::Memory
    }
}

/// Why a set's cubes were not listed.
#[derive(Clone, Copy, Debug, PartialEq, Eq, Error)]
pub enum ListErr {
    /// The table in which the set was built in the order of the fluents holds as many nodes as it may.
    #[error("the table in which cubes are listed is full")]
    Full,
    /// There was no memory.
    #[error("out of memory")]
    Memory,
}

impl From<AllocError> for ListErr {
    ghost use Rattle.std.specs.Prelude.{◌≡◌};
    ghost use Rattle.dd_sets.specs.declared.errors.ListErr.TheVariants.{Memory};

    ghost from_gives = { λ _ error. error ≡ Memory };

    fn from(_: AllocError) -> ListErr {
        ListErr::Memory
    }
}
