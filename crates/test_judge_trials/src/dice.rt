//! Random numbers from a seed.

ghost use Rattle.std.specs.Prelude.{◌<◌, IfSome};

use rand_core::utils::NextWord;
use rand_pcg::Pcg32;

/// What random choices are made with: the same from the same seed.
#[derive(Drop)]
pub(crate) struct Dice {
    words: Pcg32,
}

impl Dice {
    pub(crate) fn new(seed: u64) -> Dice {
        Dice {
            words: Pcg32::new(seed, 54),
        }
    }

    pub(crate) fn below(&mut self, count: u32) -> u32
        requires { 0 < count }
        ensures { result < count }
    {
        self.words.next_word() % count
    }

    /// A place in a list of so many; none in an empty list, nor in one of 2^32 and more.
    pub(crate) fn place(&mut self, count: usize) -> Option<usize>
        ensures { IfSome result (λ place. place < count) }
    {
        match u32::try_from(count) {
            Ok(count) if count > 0 => Some(self.below(count) as usize),
            _ => None,
        }
    }

    /// True once in so many times.
    pub(crate) fn once_in(&mut self, count: u32) -> bool
        requires { 0 < count }
    {
        self.below(count) == 0
    }
}
