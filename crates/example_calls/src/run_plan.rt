//! Layer 4: runs a plan in a world: the move slips twice, and then arrives.

use crate::read_task::task_in_files;
use anyhow::{Result, bail, ensure};
use plan_rules::read_plan;
use run_replay::{Monitor, RecordWorld, Start, World, execute, write_trace};
use std::fs;
use std::io::Write;
use task_core::init_states;

pub(crate) fn run_plan(rt: &HostRuntime) -> Result<()> {
    let (alloc, task) = (rt.alloc(), task_in_files(rt)?);
    let text = fs::read(rt, "plan")?;
    ensure!(text.len() <= 1_048_576, "too long a plan");
    let Ok(read) = read_plan(alloc, &text, &task) else {
        bail!("the file spells no plan");
    };
    let states = init_states(alloc, &task, 1)?;
    ensure!(!states.is_empty(), "no initial state");
    let mut world: Box<dyn World> = Box::new(alloc, RecordWorld::new(alloc))?;
    world.load(alloc, vec![in alloc; 1, 1, 0]?)?;
    let mut told: Vec<Box<dyn Monitor>> = Vec::new(alloc);
    let start = Start {
        task: &task,
        plan: &read.plan,
        first: states[0],
    };
    let Ok(run) = execute(alloc, &start, &mut world, &mut told) else {
        bail!("the run was refused");
    };
    let text = write_trace(alloc, &task, &run, &told)?;
    rt.stdout().write_all(&text)?;
    Ok(())
}
