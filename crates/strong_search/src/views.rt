//! What the search for strong plans knows of a state.

/// How a state is solved.
#[derive(Clone, Copy, PartialEq, Eq)]
pub(crate) enum Solved {
    Open,
    Goal,
    Pair(u32),
}

/// Which actions of a state are tried next: the helpful ones, the others, or none.
#[derive(Clone, Copy, PartialEq, Eq)]
pub(crate) enum Phase {
    Helpful,
    Others,
    Done,
}

/// A state as the search sees it.
#[derive(Clone, Copy)]
pub(crate) struct View {
    pub(crate) is_known: bool,
    pub(crate) solved: Solved,
    /// How many pairs were looked at.
    pub(crate) looked: u32,
    pub(crate) cost: u64,
    pub(crate) phase: Phase,
    pub(crate) next_action: u32,
    /// How many branches may still be of use.
    pub(crate) live: u32,
    pub(crate) on_path: bool,
}

impl View {
    /// Of a state that wasn't met.
    pub(crate) fn new() -> View {
        View {
            is_known: false,
            solved: Solved::Open,
            looked: 0,
            cost: 0,
            phase: Phase::Helpful,
            next_action: 0,
            live: 0,
            on_path: false,
        }
    }
}
