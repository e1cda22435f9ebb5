//! What `bench` and `checks` measure and try of single crates; it is no part of `mbp`.
//!
//! - `bench_calls diagrams PROBLEM COUNT ..`: the diagrams on problems of known size (`bench/run`).
//! - `bench_calls readers DOMAIN PROBLEM ..`: the readers of whole PDDL (`bench/readers`, `checks/run`).
//! - `bench_calls staged listed|forward strong|fair`: plans with contexts, found state by state
//!   (`checks/stages`).
//!
//! Without a word it does a little of each.
#![tactic(auto)]

mod chains;
mod clauses;
mod diagrams;
mod extent;
mod grounded;
mod lines;
mod queens;
mod random;
mod readers;
mod sets;
mod staged;
mod tasks;

use crate::diagrams::measure;
use crate::readers::report;
use crate::staged::search;
use anyhow::{Result, bail};
use std::alloc::{AllocError, Global};
use std::env;

/// The most nodes in a table.
const LIMIT: u32 = 16_777_216;

/// What it does without a word.
const LITTLE: [&str; 3] = [
    "diagrams nodes 1000 clauses 20 queens 4 tasks 100",
    "readers domain.pddl problem.pddl problem-faulty.pddl",
    "staged listed strong",
];

fn main(rt: HostRuntime) -> Result<()> {
    let words: Vec<String> = env::args(&rt)?.skip(1).collect(rt.alloc())?;
    if !words.is_empty() {
        return call(&rt, &words);
    }
    for line in LITTLE {
        call(&rt, &split(rt.alloc(), line)?)?;
    }
    Ok(())
}

fn call(rt: &HostRuntime, words: &[String]) -> Result<()> {
    let Some((part, words)) = words.split_first() else {
        bail!("no words");
    };
    match part.as_str() {
        "diagrams" => measure(rt, words),
        "readers" => report(rt, words),
        "staged" => search(rt, words),
        part => bail!("there is no part {part}"),
    }
}

/// The words of a line, which are separated by one space.
fn split(alloc: Global, line: &str) -> Result<Vec<String>, AllocError> {
    let mut words = Vec::new(alloc);
    for word in line.split(' ') {
        words.push(String::from_str(alloc, word)?)?;
    }
    Ok(words)
}
