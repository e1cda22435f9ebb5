//! The library, layer by layer, on the files `domain.pddl`, `problem.pddl` and `plan`:
//! `example_calls list|find|judge|run`. Without a word it does all four.
#![tactic(auto)]

mod find_plan;
mod judge_plan;
mod list_task;
mod read_task;
mod run_plan;

use crate::find_plan::find_plan;
use crate::judge_plan::judge_plan;
use crate::list_task::list_task;
use crate::run_plan::run_plan;
use anyhow::{Result, bail};
use std::{env, io};

fn main(rt: HostRuntime) -> Result<()> {
    match env::args(&rt)?.nth(1) {
        None => do_all(&rt),
        Some(word) => do_one(&rt, word.as_str()),
    }
}

fn do_all(rt: &HostRuntime) -> Result<()> {
    for word in ["list", "find", "judge", "run"] {
        do_one(rt, word)?;
    }
    Ok(())
}

fn do_one(rt: &HostRuntime, word: &str) -> Result<()> {
    match word {
        "list" => list_task(rt),
        "find" => find_plan(rt),
        "judge" => judge_plan(rt),
        "run" => run_plan(rt),
        _ => bail!("use: example_calls list|find|judge|run"),
    }
}
