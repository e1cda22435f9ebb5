//! A world that keeps its words in reverse.

ghost use Rattle.std.specs.Prelude.{reverse};

use crate::places::Place;
use run_replay::World;
use std::alloc::{AllocError, Global};
use std::rc::Rc;

/// A world that keeps the numbers that it has yet to give in reverse: the next one stands last. Its
/// calls and its drops are counted in a place that it shares.
pub struct ReverseWorld {
    /// The numbers, the next one last.
    pub words: Vec<u32>,
    /// The shared place.
    pub place: Rc<Place>,
}

impl Drop for ReverseWorld {
    fn drop(self) {
        let ReverseWorld { words: _, place } = self;
        place.count_drop();
    }
}

impl World for ReverseWorld {
    ghost left = { λ world. reverse world.words.items };

    fn load(&mut self, _: Global, words: Vec<u32>) -> Result<(), AllocError> {
        self.place.count_use();
        let mut words = words;
        words.reverse();
        self.words = words;
        Ok(())
    }

    fn choose(&mut self) -> Option<u32> {
        self.place.count_use();
        self.words.pop()
    }
}
