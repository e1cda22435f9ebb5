//! The parts of a graph whose configurations lead to one another: Tarjan's search (Tarjan 1972), with a
//! stack of its own. What it finds is a guess, which others look at: these functions promise nothing.

use exec_graph::{Graph, Steps};
use std::alloc::{AllocError, Global};
use std::sync::ledger::Ledger;

/// The search. A number has its place in each list.
#[derive(Drop)]
pub(crate) struct Components {
    /// When a number was met, counted from 1; 0 where it wasn't yet.
    met: Vec<u32>,
    /// When the earliest number was met that it is known to lead to, and whose part isn't complete.
    low: Vec<u32>,
    /// How many of its followers were looked at.
    tried: Vec<u32>,
    /// The part to which it belongs, counted from 1 in the order in which they are complete; 0 where that
    /// isn't known yet. No number leads to a later part than its own.
    pub(crate) ranks: Vec<u32>,
    /// The numbers that were met and whose parts aren't complete.
    open: Vec<u32>,
    /// The numbers on the path that the search is on.
    path: Vec<u32>,
    /// All numbers, part by part: none leads to one of a part behind it.
    pub(crate) order: Vec<u32>,
    /// How many numbers were met.
    clock: u32,
    /// How many parts are complete.
    parts: u32,
}

pub(crate) fn find_components<L: Ledger>(
    alloc: Global,
    graph: &Graph,
    steps: &mut Steps<L>,
) -> Result<Components, AllocError> {
    let mut search = nothing_met(alloc, graph)?;
    for root in 0..graph.len() {
        if get(&search.met, root) == 0 {
            search.enter(root)?;
            search.follow(graph, steps)?;
        }
    }
    Ok(search)
}

fn nothing_met(alloc: Global, graph: &Graph) -> Result<Components, AllocError> {
    Ok(Components {
        met: zeros(alloc, graph)?,
        low: zeros(alloc, graph)?,
        tried: zeros(alloc, graph)?,
        ranks: zeros(alloc, graph)?,
        open: Vec::new(alloc),
        path: Vec::new(alloc),
        order: Vec::new(alloc),
        clock: 0,
        parts: 0,
    })
}

fn zeros(alloc: Global, graph: &Graph) -> Result<Vec<u32>, AllocError> {
    let mut numbers = Vec::new(alloc);
    for _i in 0..graph.len() {
        numbers.push(0)?;
    }
    Ok(numbers)
}

impl Components {
    /// Goes on until the path is empty.
    fn follow<L: Ledger>(&mut self, graph: &Graph, steps: &mut Steps<L>) -> Result<(), AllocError> {
        for _step in 0..u64::MAX {
            match last(&self.path) {
                Some(top) => self.advance(graph, top, steps)?,
                None => return Ok(()),
            }
        }
        Ok(())
    }

    /// Looks at the next follower of the last number of the path, or leaves that number.
    fn advance<L: Ledger>(
        &mut self,
        graph: &Graph,
        top: u32,
        steps: &mut Steps<L>,
    ) -> Result<(), AllocError> {
        let tried = get(&self.tried, top);
        match follower_at(graph, top, tried, steps) {
            Some(follower) => {
                set(&mut self.tried, top, tried.saturating_add(1));
                self.look(top, follower)
            }
            None => self.leave(top),
        }
    }

    /// Looks at a follower of the last number of the path.
    fn look(&mut self, top: u32, follower: u32) -> Result<(), AllocError> {
        if get(&self.met, follower) == 0 {
            return self.enter(follower);
        }
        if get(&self.ranks, follower) == 0 {
            let met = get(&self.met, follower);
            self.lower(top, met);
        }
        Ok(())
    }

    /// Puts a number on the path.
    fn enter(&mut self, number: u32) -> Result<(), AllocError> {
        self.clock = self.clock.saturating_add(1);
        set(&mut self.met, number, self.clock);
        set(&mut self.low, number, self.clock);
        self.open.push(number)?;
        self.path.push(number)?;
        Ok(())
    }

    /// Takes the last number off the path. Its part is complete, if it leads to none that was met before.
    fn leave(&mut self, top: u32) -> Result<(), AllocError> {
        self.path.pop();
        let low = get(&self.low, top);
        if low == get(&self.met, top) {
            self.complete(top)?;
        }
        match last(&self.path) {
            Some(before) => self.lower(before, low),
            None => {}
        }
        Ok(())
    }

    /// Makes a part of the open numbers from this one on.
    fn complete(&mut self, first: u32) -> Result<(), AllocError> {
        self.parts = self.parts.saturating_add(1);
        for _step in 0..self.open.len() {
            match self.open.pop() {
                Some(number) => {
                    set(&mut self.ranks, number, self.parts);
                    self.order.push(number)?;
                    if number == first {
                        return Ok(());
                    }
                }
                None => return Ok(()),
            }
        }
        Ok(())
    }

    /// Notes that a number leads to one that was met then.
    fn lower(&mut self, number: u32, met: u32) {
        if met < get(&self.low, number) {
            set(&mut self.low, number, met);
        }
    }
}

fn last(numbers: &[u32]) -> Option<u32> {
    match numbers.last() {
        Some(number) => Some(*number),
        None => None,
    }
}

fn follower_at<L: Ledger>(
    graph: &Graph,
    number: u32,
    place: u32,
    steps: &mut Steps<L>,
) -> Option<u32> {
    if number >= graph.len() {
        return None;
    }
    if place >= graph.next_len(number) {
        return None;
    }
    Some(graph.next_at(number, place, steps))
}

/// The number at a place; 0 past the last.
pub(crate) fn get(numbers: &[u32], place: u32) -> u32 {
    match numbers.get(place as usize) {
        Some(number) => *number,
        None => 0,
    }
}

/// Puts a number at a place, if there is that place.
fn set(numbers: &mut Vec<u32>, place: u32, number: u32) {
    if (place as usize) < numbers.len() {
        numbers[place as usize] = number;
    }
}
