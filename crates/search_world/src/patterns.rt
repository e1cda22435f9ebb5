//! Sets of partial states, found by a literal of theirs.

use relaxed_task::literal;
use search_space::{Bits, Part, small};
use std::alloc::{AllocError, Global};

/// Partial states, numbered in the order in which they were added.
#[derive(Drop)]
pub struct Patterns {
    pub(crate) parts: Vec<Part>,
    /// For each literal the partial states that are found by it.
    rows: Vec<Vec<u32>>,
    /// The fluents by whose being false some are found.
    negatives: Bits,
    /// Those without a literal.
    always: Vec<u32>,
}

impl Patterns {
    /// No partial state yet.
    pub(crate) fn new(alloc: Global) -> Result<Patterns, AllocError> {
        let mut rows = Vec::new(alloc);
        for _ in 0..512 {
            rows.push(Vec::new(alloc))?;
        }
        Ok(Patterns {
            parts: Vec::new(alloc),
            rows,
            negatives: Bits::none(),
            always: Vec::new(alloc),
        })
    }

    /// How many there are.
    pub fn len(&self) -> u32 {
        small(self.parts.len())
    }

    /// A partial state by its number.
    pub fn part(&self, number: u32) -> Part {
        match self.parts.get(number as usize) {
            Some(part) => *part,
            None => Part::none(),
        }
    }

    /// Puts another partial state in the place of one, which it entails.
    pub fn put(&mut self, number: u32, part: Part) {
        if let Some(own) = self.parts.get_mut(number as usize) {
            *own = part;
        }
    }

    /// Adds a partial state, and tells its number.
    pub(crate) fn add(&mut self, part: Part) -> Result<u32, AllocError> {
        let number = self.len();
        self.parts.push(part)?;
        match self.key_of(&part) {
            Some((fluent, value)) => self.file(number, fluent, value)?,
            None => self.always.push(number)?,
        }
        Ok(number)
    }

    /// Has a partial state found by a literal.
    fn file(&mut self, number: u32, fluent: u32, value: bool) -> Result<(), AllocError> {
        if !value {
            self.negatives.set(fluent, true);
        }
        if let Some(row) = self.rows.get_mut(literal(fluent, value) as usize) {
            row.push(number)?;
        }
        Ok(())
    }

    /// The literal by which the fewest are found, a positive one where there is one.
    fn key_of(&self, part: &Part) -> Option<(u32, bool)> {
        let mut left = if part.value.is_none() {
            part.care
        } else {
            part.value
        };
        let mut best = None;
        let mut least = usize::MAX;
        for _ in 0..256 {
            let Some(fluent) = left.take_first() else {
                break;
            };
            let value = part.value.get(fluent);
            let count = self.row(fluent, value).len();
            if count < least {
                least = count;
                best = Some((fluent, value));
            }
        }
        best
    }

    /// Those that are found by a literal.
    fn row(&self, fluent: u32, value: bool) -> &[u32] {
        match self.rows.get(literal(fluent, value) as usize) {
            Some(row) => row,
            None => &[],
        }
    }

    /// Adds to a list those that a state has.
    pub(crate) fn matching(&self, state: &Bits, list: &mut Vec<u32>) -> Result<(), AllocError> {
        for number in &self.always {
            list.push(*number)?;
        }
        self.matching_at(state, state, true, list)?;
        self.matching_at(state, &self.negatives.without(state), false, list)
    }

    /// The same of those that are found by these fluents.
    fn matching_at(
        &self,
        state: &Bits,
        fluents: &Bits,
        value: bool,
        list: &mut Vec<u32>,
    ) -> Result<(), AllocError> {
        let mut left = *fluents;
        for _ in 0..256 {
            let Some(fluent) = left.take_first() else {
                break;
            };
            for number in self.row(fluent, value) {
                if self.part(*number).matches(state) {
                    list.push(*number)?;
                }
            }
        }
        Ok(())
    }

    /// Whether a state has one of those from a number on.
    pub(crate) fn some_from(&self, first: u32, state: &Bits) -> bool {
        for number in first..self.len() {
            if self.part(number).matches(state) {
                return true;
            }
        }
        false
    }
}
