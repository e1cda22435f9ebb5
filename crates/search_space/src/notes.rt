//! What is noted of a state.

use crate::numbers::NONE;

/// What is known of a state's way to the goal.
#[derive(Clone, Copy, Debug, PartialEq, Eq)]
pub enum Hope {
    /// It may have one.
    Open,
    /// It has none even where what becomes false is passed over, and no pattern says so yet.
    Hopeless,
    /// It has none.
    Dead,
}

/// What a search notes of a state.
#[derive(Clone, Copy)]
pub struct Note {
    /// The state from which the search came here last, and by which outcome.
    pub parent: u32,
    pub label: u32,
    /// The search that met it last, and the one that went on from it last.
    pub(crate) met: u32,
    pub(crate) closed: u32,
    /// How many patterns of dead ends were looked at.
    pub looked: u32,
    pub hope: Hope,
}

impl Note {
    /// Of a state that no search has met.
    pub(crate) fn new() -> Note {
        Note {
            parent: NONE,
            label: NONE,
            met: 0,
            closed: 0,
            looked: 0,
            hope: Hope::Open,
        }
    }
}
