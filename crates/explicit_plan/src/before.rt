//! From which states one may come to a state.

use crate::graph::StepGraph;
use std::alloc::{AllocError, Global};

/// For each state the numbers of those in which some action may lead to it, each once.
pub(crate) fn before_each(alloc: Global, graph: &StepGraph) -> Result<Vec<Vec<usize>>, AllocError> {
    let mut before = Vec::new(alloc);
    for _ in &graph.states {
        before.push(Vec::new(alloc))?;
    }
    for (number, moves) in graph.moves.iter().enumerate() {
        for step in moves {
            for after in &step.after {
                note(&mut before, *after, number)?;
            }
        }
    }
    Ok(before)
}

/// Notes that some action may lead from the state of a number to another. All that lead from one
/// state are noted one after another.
fn note(before: &mut Vec<Vec<usize>>, after: usize, number: usize) -> Result<(), AllocError> {
    if after >= before.len() {
        return Ok(());
    }
    if before[after].last() == Some(&number) {
        return Ok(());
    }
    before[after].push(number)?;
    Ok(())
}
