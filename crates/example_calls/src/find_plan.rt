//! Layer 2: looks for a strong cyclic plan.

use crate::read_task::task_in_files;
use anyhow::{Result, ensure};
use cyclic_plan::plan_cyclic;
use encode_task::encode;
use plan_rules::{Plan, write_plan};
use plan_theory::Found;
use std::io::Write;

pub(crate) fn find_plan(rt: &HostRuntime) -> Result<()> {
    let (alloc, task) = (rt.alloc(), task_in_files(rt)?);
    ensure!(task.goal.is_some(), "the problem has no :goal");
    let mut sets = encode(alloc, &task, 1_048_576)?;
    match plan_cyclic(alloc, &task, &mut sets)? {
        Found::Plan(table) => {
            let text = write_plan(alloc, &Plan::Table(table), &task)?;
            rt.stdout().write_all(&text)?;
        }
        Found::NoPlan => println!(rt; "no plan")?,
    }
    Ok(())
}
