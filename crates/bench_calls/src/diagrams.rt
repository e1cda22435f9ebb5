//! The diagrams on problems of known size: `PROBLEM COUNT ..`, with any number of pairs.
//!
//! The problems are `nodes` (a table of so many nodes), `clauses` (the conjunction of so many
//! random clauses), `queens` (the placings of so many queens on a board of that size), `variables`
//! (so many substitutions of two variables in one large set), `constants` (so many of four
//! constants in small sets), `algebra` (so many rounds of meet, difference and join) and `tasks` (a
//! task with 256 fluents and so many actions, made and put into sets) and `made` (the same task,
//! not put into sets). A line for each pair has counts alone, so the same words always give the
//! same output; `bench/run` at the top of the repository takes the time.

use crate::extent::Extent;
use crate::{chains, clauses, queens, sets, tasks};
use anyhow::{Result, bail};
use std::alloc::Global;
use std::{fmt, io};

pub(crate) fn measure(rt: &HostRuntime, words: &[String]) -> Result<()> {
    for pair in words.chunks(2) {
        match pair {
            [problem, count] => {
                let count = count.as_str().parse::<u32>()?;
                let counts = solve(rt.alloc(), problem.as_str(), count)?;
                println!(rt; "{} {count}: {counts}", problem.as_str())?;
            }
            _ => bail!("use: bench_calls diagrams [PROBLEM COUNT] .."),
        }
    }
    Ok(())
}

fn solve(alloc: Global, problem: &str, count: u32) -> Result<String> {
    match problem {
        "tasks" => shown(alloc, tasks::put_in_sets(alloc, count)?),
        "made" => shown(alloc, tasks::make(alloc, count)?),
        _ => shown(alloc, extent_of(alloc, problem, count)?),
    }
}

fn shown<T: fmt::Display + Drop>(alloc: Global, counts: T) -> Result<String> {
    Ok(format!(in alloc; "{counts}")?)
}

fn extent_of(alloc: Global, problem: &str, count: u32) -> Result<Extent> {
    match problem {
        "nodes" => Ok(chains::make_nodes(alloc, count)?),
        "clauses" => Ok(clauses::conjunction(alloc, count)?),
        "variables" => Ok(sets::replace_variables(alloc, count)?),
        "constants" => Ok(sets::replace_by_constants(alloc, count)?),
        "algebra" => Ok(sets::combine(alloc, count)?),
        "queens" if count <= queens::LARGEST => Ok(queens::placings(alloc, count)?),
        _ => bail!("there is no problem {problem} {count}"),
    }
}
