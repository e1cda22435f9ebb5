//! Layer 1: reads and grounds a task.

use crate::read_task::task_in_files;
use anyhow::Result;
use std::io;

pub(crate) fn list_task(rt: &HostRuntime) -> Result<()> {
    let task = task_in_files(rt)?;
    let (fluents, actions) = (task.fluents.len(), task.actions.len());
    println!(rt; "{fluents} fluents, {actions} actions")?;
    Ok(())
}
