//! States.

ghost use Rattle.std.specs.Prelude.{◌≡◌, ℕ, ◌<◌, Bool, true, false, if◌then◌else◌, ◌==◌};
ghost use Rattle.std.proofs.Props.{props};
ghost use Rattle.task_core.specs.FourWords.{IsFourWords};

use crate::FluentId;

/// A truth value for each of 256 fluents.
#[derive(Clone, Copy, Debug, PartialEq, Eq, Hash)]
pub struct State {
    bits: [u64; 4],
    ghost four_words: { IsFourWords bits } by { Prim.hlevel props },
}

impl State {
    ghost use Rattle.task_core.specs.States.{truth, words};

    /// The state in which every fluent is false.
    pub fn none() -> State
        ensures all_false { (f : ℕ) → truth result f ≡ false }
    {
        State { bits: [0; 4] }
    }

    /// The value of a fluent.
    pub fn get(&self, f: FluentId) -> bool
        requires { f.0 < 256 }
        ensures value { result ≡ truth self.now f.0 }
    {
        let word = self.bits[f.0 as usize / 64];
        word >> (f.0 % 64) & 1 == 1
    }

    /// The state with one value in place of the fluent's, and each other value as it is.
    pub fn with(&self, f: FluentId, value: bool) -> State
        requires { f.0 < 256 }
        ensures changed { truth result f.0 ≡ value }
        ensures others { (g : ℕ) → (g ≡ f.0 → ⊥) → truth result g ≡ truth self.now g }
    {
        if value { self.set(f) } else { self.cleared(f) }
    }

    // The state with the fluent true.
    fn set(&self, f: FluentId) -> State
        requires { f.0 < 256 }
        ensures changed { truth result f.0 ≡ true }
        ensures others { (g : ℕ) → (g ≡ f.0 → ⊥) → truth result g ≡ truth self.now g }
    {
        let mut bits = self.bits;
        let at = f.0 as usize / 64;
        bits[at] = bits[at] | 1 << (f.0 % 64);
        State { bits }
    }

    // The state with the fluent false.
    fn cleared(&self, f: FluentId) -> State
        requires { f.0 < 256 }
        ensures changed { truth result f.0 ≡ false }
        ensures others { (g : ℕ) → (g ≡ f.0 → ⊥) → truth result g ≡ truth self.now g }
    {
        let mut bits = self.bits;
        let at = f.0 as usize / 64;
        bits[at] = bits[at] & !(1 << (f.0 % 64));
        State { bits }
    }

    /// The four words that hold the values: fluent `f` is bit `f % 64` of word `f / 64`.
    pub fn bits(&self) -> &[u64; 4]
        ensures value { result.now ≡ words self.now }
    {
        &self.bits
    }
}
