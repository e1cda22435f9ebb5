//! How much work a search has done. Counts, and no clock, so that the same call has the same answer.

use search_space::Stop;

/// How much a search may do: counts, never clocks.
#[derive(Clone, Copy, Debug)]
pub struct Allowance {
    /// How many states may be gone on from or estimated.
    pub expanded: u32,
    /// How many states may be kept.
    pub states: u32,
}

/// How much was done, and how much may be.
#[derive(Clone, Copy)]
pub struct Effort {
    done: u64,
    most: u64,
}

impl Effort {
    /// None so far, of at most so much.
    pub(crate) fn new(most: u32) -> Effort {
        Effort {
            done: 0,
            most: most as u64,
        }
    }

    /// Counts so much work.
    pub fn spend(&mut self, work: u64) -> Result<(), Stop> {
        self.done = self.done.saturating_add(work);
        if self.done > self.most {
            return Err(Stop::GaveUp);
        }
        Ok(())
    }
}
