//! Sets of dead ends, kept for a certificate that there is no plan.

use search_space::Part;
use std::alloc::{AllocError, Global};

/// The most partial states of a certificate.
const MOST_PARTS: usize = 16_384;

/// Sets of dead ends in the order in which they were found, as long as they are few.
#[derive(Drop)]
pub(crate) struct Buried {
    sets: Vec<Vec<Part>>,
    count: usize,
}

impl Buried {
    pub(crate) fn new(alloc: Global) -> Buried {
        Buried {
            sets: Vec::new(alloc),
            count: 0,
        }
    }

    /// Keeps a set, unless these become too many.
    pub(crate) fn push(&mut self, set: Vec<Part>) -> Result<(), AllocError> {
        self.count = self.count.saturating_add(set.len());
        if self.count <= MOST_PARTS {
            self.sets.push(set)?;
        }
        Ok(())
    }

    /// The sets; `None` where they became too many.
    pub(crate) fn sets(&self) -> Option<&[Vec<Part>]> {
        if self.count > MOST_PARTS {
            return None;
        }
        Some(&self.sets)
    }
}
