//! Blocks of 64 cubes.

ghost use Rattle.std.specs.List.{HoldsAt, list_all};
ghost use Rattle.std.specs.Prelude.{
  ◌≡◌,
  ◌<◌,
  ◌≤◌,
  ◌&&◌,
  ◌==◌,
  ℕ,
  [],
  All,
  IfOk,
  IfSome,
  OnOk,
  length,
  map,
  nat_le,
  nat_lt,
  slice_index_or,
  true,
};
ghost use Rattle.task_core.specs.Cubes.{matches};
ghost use Rattle.task_core.specs.States.{vector};
ghost use Rattle.task_core.specs.Vectors.{Vector, same_value, value_of};
ghost use Rattle.task_core.specs.Limits.{most_fluents};
ghost use Rattle.cube_index.specs.Agreement.{
  AreTests,
  agrees,
  agrees_with_all,
  has_bit,
  wanted_at,
  word_for,
};
ghost use Rattle.cube_index.specs.Index.{AreLits, values_of};

use std::alloc::{AllocError, AllocFailed, Global};
use task_core::{FluentId, Lit, State};

/// How many cubes a block has room for: one a bit of a machine word.
pub(crate) const ROOM: usize = 64;

/// What the cubes of a block say of one fluent: which of them agree where it is true, and which
/// where it is false. A cube that doesn't name the fluent agrees either way.
#[derive(Clone, Copy, Debug)]
pub(crate) struct Test {
    pub fluent: FluentId,
    pub if_true: u64,
    pub if_false: u64,
}

impl Test {
    /// The test with which each cube agrees either way.
    fn any(fluent: FluentId) -> Test
        ensures fluent { result.fluent ≡ fluent }
        ensures all { (v : Vector) (k : ℕ) → k < 64 → agrees v k result ≡ true }
    {
        Test {
            fluent,
            if_true: u64::MAX,
            if_false: u64::MAX,
        }
    }

    /// The test with which, besides, the cube at a place agrees only where the fluent has this
    /// value.
    fn wanting(self, value: bool, place: usize) -> Test
        requires { place < 64 }
        ensures fluent { result.fluent ≡ self.fluent }
        ensures narrowed { (v : Vector) (k : ℕ) → k < 64 → agrees v k result
            ≡ (agrees v k self && wanted_at place k (same_value (value_of v self.fluent.0) value)) }
    {
        let others = !(1 << place);
        if value {
            Test {
                fluent: self.fluent,
                if_true: self.if_true,
                if_false: self.if_false & others,
            }
        } else {
            Test {
                fluent: self.fluent,
                if_true: self.if_true & others,
                if_false: self.if_false,
            }
        }
    }

    /// The cubes that agree where the fluent has this value.
    fn word(&self, value: bool) -> u64
        ensures { result ≡ word_for self.now value }
    {
        if value { self.if_true } else { self.if_false }
    }
}

/// At most 64 cubes, each at a place, as tests of the fluents that they name.
#[derive(Debug, Drop)]
pub(crate) struct Block {
    pub tests: Vec<Test>,
}

impl Block {
    /// The block of these cubes, in order.
    pub(crate) fn new(alloc: Global, cubes: &[&[Lit]]) -> Result<Block, AllocError>
        requires room { length cubes.now ≤ 64 }
        requires lits { All (λ cube. AreLits cube.now) cubes.now }
        ensures tests { IfOk result (λ block. AreTests block.tests.items) }
        ensures answers { IfOk result (λ block. (v : Vector) (k : ℕ) → k < length cubes.now
            → agrees_with_all v k block.tests.items
            ≡ matches (slice_index_or (map (λ cube. cube.now) cubes.now) k []) v) }
    {
        let mut block = Block {
            tests: Vec::new(alloc),
        };
        for (place, cube) in cubes.iter().enumerate() {
            block.add(cube, place)?;
        }
        Ok(block)
    }

    /// Has the cube at a place agree only where it matches, besides.
    fn add(&mut self, cube: &[Lit], place: usize) -> Result<(), AllocFailed<Test>>
        requires place { place < 64 }
        requires lits { AreLits cube.now }
        requires tests { AreTests self.old.tests.items }
        ensures tests { OnOk result (AreTests self.new.tests.items) }
        ensures narrowed { OnOk result ((v : Vector) (k : ℕ) → k < 64
            → agrees_with_all v k self.new.tests.items
            ≡ (agrees_with_all v k self.old.tests.items && wanted_at place k (matches cube.now v))) }
    {
        for lit in cube {
            self.want(*lit, place)?;
        }
        Ok(())
    }

    /// Has the cube at a place agree only where the literal holds, besides.
    fn want(&mut self, lit: Lit, place: usize) -> Result<(), AllocFailed<Test>>
        requires place { place < 64 }
        requires lit { lit.fluent.0 < most_fluents }
        requires tests { AreTests self.old.tests.items }
        ensures tests { OnOk result (AreTests self.new.tests.items) }
        ensures narrowed { OnOk result ((v : Vector) (k : ℕ) → k < 64
            → agrees_with_all v k self.new.tests.items
            ≡ (agrees_with_all v k self.old.tests.items
            && wanted_at place k (same_value (value_of v lit.fluent.0) lit.positive))) }
    {
        match self.test_of(lit.fluent) {
            Some(number) => {
                self.tests[number] = self.tests[number].wanting(lit.positive, place);
                Ok(())
            }
            None => self
                .tests
                .push(Test::any(lit.fluent).wanting(lit.positive, place)),
        }
    }

    fn test_of(&self, fluent: FluentId) -> Option<usize>
        ensures within { IfSome result (λ number. number < length self.now.tests.items) }
        ensures fluent { IfSome result (λ number.
            HoldsAt (λ test. test.fluent ≡ fluent) self.now.tests.items number) }
    {
        for (number, test) in self.tests.iter().enumerate() {
            if test.fluent == fluent {
                return Some(number);
            }
        }
        None
    }

    /// Which of the cubes at these places match a state, each as a bit.
    pub(crate) fn matching(&self, state: &State, places: u64) -> u64
        requires { AreTests self.now.tests.items }
        ensures { (k : ℕ) → k < 64 → has_bit result k
            ≡ (has_bit places k && agrees_with_all (values_of state.now) k self.now.tests.items) }
    {
        let mut left = places;
        for test in &self.tests {
            if left == 0 {
                return 0;
            }
            left &= test.word(state.get(test.fluent));
        }
        left
    }
}

/// The word with the bits from `from` on and before `to`.
pub(crate) fn bits_between(from: usize, to: usize) -> u64
    requires from { from < to }
    requires to { to ≤ 64 }
    ensures { (k : ℕ) → k < 64 → has_bit result k ≡ (nat_le from k && nat_lt k to) }
{
    (u64::MAX << from) & (u64::MAX >> (ROOM - to))
}
