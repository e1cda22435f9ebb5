//! Places that an object shares with the user who hands it in.

use std::alloc::Global;
use std::cell::{Cell, RefCell};

/// What was done to an object, and what it saw.
#[derive(Drop)]
pub struct Place {
    /// How often it was called.
    pub uses: Cell<u32>,
    /// How often it was dropped.
    pub drops: Cell<u32>,
    /// The numbers of the steps that it was told of, in their order.
    pub steps: RefCell<Vec<u64>>,
}

impl Place {
    /// A place of an object to which nothing was done. It takes no memory.
    pub fn new(alloc: Global) -> Place {
        Place {
            uses: Cell::new(0),
            drops: Cell::new(0),
            steps: RefCell::new(Vec::new(alloc)),
        }
    }

    /// Counts a call.
    pub fn count_use(&self) {
        self.uses.set(self.uses.get().wrapping_add(1));
    }

    /// Counts a drop.
    pub fn count_drop(&self) {
        self.drops.set(self.drops.get().wrapping_add(1));
    }

    /// Adds the number of a step to the list, if there is memory for it.
    pub fn list(&self, number: u64) {
        if let Ok(mut steps) = self.steps.try_borrow_mut() {
            let _ = steps.push(number);
        }
    }
}
