//! Two judges beside one another: 3,000 random small tasks, each with a table of rules, judged for each
//! class on sets of states, and by a list of what is reached.
//!
//! `tasks` makes tasks and `tables` rules: plans of the planners, with rules changed, dropped, hidden or
//! shortened, and rules at random. `listed` judges them state by state: it takes the first rule that
//! matches each vector, and asks the judge on graphs. `tally` counts the verdicts.
#![tactic(auto)]

mod dice;
mod listed;
mod tables;
mod tally;
mod tasks;

use crate::dice::Dice;
use crate::listed::listed_verdict;
use crate::tables::random_table;
use crate::tally::Tally;
use crate::tasks::random_task;
use anyhow::{Result, bail, ensure};
use controller_rules::is_plan_of;
use encode_task::encode;
use judge_sets::{TableVerdict, judge_table};
use plan_rules::{Plan, TablePlan};
use std::alloc::Global;
use task_core::{Class, Task};

/// How many tables are tried.
const TABLES: u64 = 3000;

/// The verdict on sets, in a table of 100,000 nodes.
fn verdict_on_sets(alloc: Global, task: &Task, class: Class, plan: &Plan) -> Result<TableVerdict> {
    ensure!(task.goal.is_some(), "a task without a goal");
    ensure!(
        is_plan_of(task.fluents.len(), task.actions.len(), plan),
        "not a plan of the task"
    );
    let Plan::Table(table) = plan else {
        bail!("a plan with contexts");
    };
    let mut sets = encode(alloc, task, 100_000)?;
    Ok(judge_table(alloc, task, &mut sets, class, &table.rules)?)
}

/// Judges the table of a number both ways, for each class.
fn try_table(alloc: Global, number: u64, tally: &mut Tally) -> Result<()> {
    let mut dice = Dice::new(number);
    let Some(task) = random_task(alloc, &mut dice)? else {
        bail!("table {number}: the parts make no task");
    };
    let rules = random_table(alloc, &task, &mut dice)?;
    let plan = Plan::Table(TablePlan {
        class: Class::Weak,
        rules,
    });
    for class in [Class::Weak, Class::Strong, Class::Cyclic] {
        let on_sets = verdict_on_sets(alloc, &task, class, &plan)?;
        let listed = listed_verdict(alloc, &task, class, &plan)?;
        ensure!(
            on_sets == listed,
            "table {number}, {class:?}: {on_sets:?} on sets, {listed:?} by a list"
        );
        tally.count(class, &on_sets);
    }
    Ok(())
}

/// Judges all tables.
fn try_all(alloc: Global) -> Result<Tally> {
    let mut tally = Tally::default();
    for number in 0..TABLES {
        try_table(alloc, number, &mut tally)?;
    }
    Ok(tally)
}

fn main(rt: HostRuntime) -> Result<()> {
    let tally = try_all(rt.alloc())?;
    println!(rt; "{} tables, the same verdicts both ways", tally.tables)?;
    println!(rt; "{} are weak solutions", tally.weak)?;
    println!(rt; "{} are strong solutions", tally.strong)?;
    println!(rt; "{} are strong cyclic solutions", tally.cyclic)?;
    println!(rt; "{} have rules that agree", tally.agree)?;
    println!(rt; "{} have no dead rule", tally.each_counts)?;
    Ok(())
}
