//! Lists of numbers that lie one behind another in one list.

use crate::numbers::small;
use std::alloc::{AllocError, Global};

/// Rows of numbers: row `k` lies from `starts[k]` to `starts[k + 1]`.
#[derive(Drop)]
pub struct Rows {
    starts: Vec<u32>,
    numbers: Vec<u32>,
}

impl Rows {
    /// No rows.
    pub fn new(alloc: Global) -> Rows {
        Rows {
            starts: Vec::new(alloc),
            numbers: Vec::new(alloc),
        }
    }

    /// Rows that have one place each for each of these numbers, counted by number.
    pub fn of_counts(alloc: Global, counts: &[u32]) -> Result<Rows, AllocError> {
        let mut rows = Rows::new(alloc);
        let mut start = 0u32;
        for count in counts {
            rows.starts.push(start)?;
            start = start.saturating_add(*count);
        }
        rows.starts.push(start)?;
        rows.numbers = vec![in alloc; 0; start as usize]?;
        Ok(rows)
    }

    /// Writes a number at a place of a row.
    pub fn put(&mut self, row: u32, place: u32, number: u32) {
        if let Some(start) = self.starts.get(row as usize) {
            let at = start.saturating_add(place) as usize;
            if at < self.numbers.len() {
                self.numbers[at] = number;
            }
        }
    }

    /// Adds a row.
    pub fn push(&mut self, row: &[u32]) -> Result<(), AllocError> {
        if self.starts.is_empty() {
            self.starts.push(0)?;
        }
        self.numbers.extend_from_slice(row)?;
        self.starts.push(small(self.numbers.len()))?;
        Ok(())
    }

    /// The numbers of a row.
    pub fn row(&self, row: u32) -> &[u32] {
        let place = row as usize;
        let (start, end) = match self.starts.get(place..) {
            Some([start, end, ..]) => (*start as usize, *end as usize),
            _ => return &[],
        };
        match self.numbers.get(start..end) {
            Some(numbers) => numbers,
            None => &[],
        }
    }
}
