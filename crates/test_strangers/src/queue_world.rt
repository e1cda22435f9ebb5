//! A world that draws from a queue.

use run_replay::World;
use std::alloc::{AllocError, Global};
use std::collections::VecDeque;

/// A world that takes outcome numbers from the front of a queue. A simulator would compute the
/// queue from what it was given; here it is just that.
#[derive(Drop)]
pub struct QueueWorld {
    /// The numbers that are left, the next one first.
    pub numbers: VecDeque<u32>,
}

impl World for QueueWorld {
    ghost left = { λ world. world.numbers.items };

    fn load(&mut self, _: Global, words: Vec<u32>) -> Result<(), AllocError> {
        self.numbers = VecDeque::from(words);
        Ok(())
    }

    fn choose(&mut self) -> Option<u32> {
        self.numbers.pop_front()
    }
}
