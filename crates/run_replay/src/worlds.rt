//! Worlds: where the outcomes of a run come from.

ghost use Rattle.std.specs.Prelude.{◌≡◌, ◌∷◌, [], List, ℕ, MatchOption, OnErr, OnOk};

use std::alloc::{AllocError, Global};
use std::marker::Model;
use task_core::{ActionId, State};

/// One step of a run: its number, counted from 1; the action that was taken; the number of the
/// outcome that came, counted from 0; and the states before and after it.
#[derive(Clone, Copy, Debug, PartialEq, Eq)]
pub struct Step {
    pub number: u64,
    pub action: ActionId,
    pub outcome: u32,
    pub before: State,
    pub after: State,
}

/// What chooses the outcomes of a run.
///
/// Its contract speaks of one meaning: `left` is the list of the outcome numbers that it has yet to
/// give, the next one first. A run takes them one by one, and ends where there are none.
pub trait World: Drop {
    ghost left: { Self → List ℕ };

    /// Gives the world the outcome numbers to choose. Fails only where memory runs out, and then
    /// leaves those from before.
    fn load(&mut self, alloc: Global, words: Vec<u32>) -> Result<(), AllocError>
        ensures loaded { OnOk result (left self.new ≡ words.items) }
        ensures unchanged { OnErr result (left self.new ≡ left self.old) };

    /// Takes the next outcome number; `None` exactly where none is left.
    fn choose(&mut self) -> Option<u32>
        ensures next { MatchOption result (left self.old ≡ [])
            (λ word. left self.old ≡ word ∷ left self.new) }
        ensures none { left self.old ≡ [] → left self.new ≡ [] };
}

/// The world that gives exactly the numbers of a record: a list, and a place in it.
#[derive(Drop)]
pub struct RecordWorld {
    words: Vec<u32>,
    place: usize,
}

impl Model for RecordWorld {
    ghost use Rattle.std.specs.Prelude.{◌≤◌, drop, length, List, ℕ};

    ghost Value = { List ℕ };

    ghost view = { λ world. drop world.place world.words.items };

    ghost invariant = { λ world. world.place ≤ length world.words.items };
}

impl RecordWorld {
    /// A world with nothing to give. It takes no memory.
    pub fn new(alloc: Global) -> RecordWorld
        ensures { result ≡ [] }
    {
        RecordWorld {
            words: Vec::new(alloc),
            place: 0,
        }
    }
}

impl World for RecordWorld {
    ghost left = { λ world. world };

    fn load(&mut self, _: Global, words: Vec<u32>) -> Result<(), AllocError> {
        self.words = words;
        self.place = 0;
        Ok(())
    }

    fn choose(&mut self) -> Option<u32> {
        if self.place == self.words.len() {
            return None;
        }
        let word = self.words[self.place];
        self.place += 1;
        Some(word)
    }
}
