//! Layer 3: judges a table as a strong cyclic plan.

use crate::read_task::task_in_files;
use anyhow::{Result, bail, ensure};
use exec_graph::explore;
use plan_check::judge_class;
use plan_rules::{Class, Plan, read_plan};
use sexpr_text::MAX_BYTES;
use std::fs;

pub(crate) fn judge_plan(rt: &HostRuntime) -> Result<()> {
    let (alloc, task) = (rt.alloc(), task_in_files(rt)?);
    let text = fs::read(rt, "plan")?;
    ensure!(task.goal.is_some(), "the problem has no :goal");
    ensure!(text.len() <= MAX_BYTES, "too long a plan");
    let Ok(read) = read_plan(alloc, &text, &task) else {
        bail!("the file spells no plan");
    };
    let Plan::Table(_) = &read.plan else {
        bail!("a plan with contexts");
    };
    let graph = explore(alloc, &task, &read.plan)?;
    let verdict = judge_class(alloc, &task, &graph, Class::Cyclic)?;
    println!(rt; "{verdict:?}")?;
    Ok(())
}
