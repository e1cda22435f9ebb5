//! States in the order of their estimates.

use std::alloc::{AllocError, Global};

/// States with one estimate, in the order in which they came.
#[derive(Drop)]
struct Bucket {
    states: Vec<u32>,
    taken: usize,
}

/// States by estimate, those with the least first.
#[derive(Drop)]
pub struct Queue {
    alloc: Global,
    buckets: Vec<Bucket>,
    least: usize,
    count: u64,
}

impl Queue {
    /// Without states.
    pub fn new(alloc: Global) -> Queue {
        Queue {
            alloc,
            buckets: Vec::new(alloc),
            least: 0,
            count: 0,
        }
    }

    /// Whether there is no state in it.
    pub fn is_empty(&self) -> bool {
        self.count == 0
    }

    /// Takes everything out.
    pub fn clear(&mut self) {
        self.buckets = Vec::new(self.alloc);
        self.least = 0;
        self.count = 0;
    }

    /// Adds a state with an estimate.
    pub fn push(&mut self, estimate: u32, state: u32) -> Result<(), AllocError> {
        let place = estimate as usize;
        for _ in self.buckets.len()..place.saturating_add(1) {
            self.buckets.push(Bucket {
                states: Vec::new(self.alloc),
                taken: 0,
            })?;
        }
        if let Some(bucket) = self.buckets.get_mut(place) {
            bucket.states.push(state)?;
            self.count = self.count.saturating_add(1);
            self.least = self.least.min(place);
        }
        Ok(())
    }

    /// Takes the first of those with the least estimate.
    pub fn pop(&mut self) -> Option<u32> {
        for place in self.least..self.buckets.len() {
            if let Some(state) = self.pop_at(place) {
                self.least = place;
                self.count = self.count.saturating_sub(1);
                return Some(state);
            }
        }
        None
    }

    /// Takes the first of those at a place.
    fn pop_at(&mut self, place: usize) -> Option<u32> {
        let bucket = self.buckets.get_mut(place)?;
        let state = bucket.states.get(bucket.taken).copied();
        match state {
            Some(_) => bucket.taken = bucket.taken.saturating_add(1),
            None => {
                bucket.states.clear();
                bucket.taken = 0;
            }
        }
        state
    }
}
