//! Decision trees.

ghost use Rattle.controller_code.specs.FirstMoves.{DecidesAs};
ghost use Rattle.plan_rules.specs.Rules.{plain_of};
ghost use Rattle.std.specs.Prelude.{IfOk};

use crate::growing::{Growth, grow_rules};
use crate::left_rules::{of_context, of_table};
use crate::steps::Step;
use plan_rules::{AutoPlan, Plan, TablePlan};
use std::alloc::{AllocError, Global};

/// A decision tree whose equal parts are shared: its steps, and for each context the number of the
/// step where its decision begins.
#[derive(Drop)]
pub struct Tree {
    pub steps: Vec<Step>,
    pub starts: Vec<usize>,
}

/// The decision tree of a plan. Past 100,000 steps, or where very many rules were looked at, the rules
/// that are left are tested one after another.
pub fn tree_of(alloc: Global, plan: &Plan) -> Result<Tree, AllocError>
    ensures { IfOk result (λ tree. DecidesAs tree (plain_of plan.now)) }
{
    match plan {
        Plan::Table(table) => tree_of_table(alloc, table),
        Plan::Auto(automaton) => tree_of_contexts(alloc, automaton),
    }
}

/// The decision tree of a table, with one context.
fn tree_of_table(alloc: Global, table: &TablePlan) -> Result<Tree, AllocError>
    ensures { IfOk result (λ tree. DecidesAs tree (plain_of (Plan.Table table.now))) }
{
    let mut growth = Growth::new(alloc);
    let rules = of_table(alloc, &table.rules)?;
    let start = grow_rules(&mut growth, alloc, rules)?;
    let mut starts = Vec::new(alloc);
    starts.push(start)?;
    Ok(Tree {
        steps: growth.steps.list,
        starts,
    })
}

fn tree_of_contexts(alloc: Global, automaton: &AutoPlan) -> Result<Tree, AllocError>
    ensures { IfOk result (λ tree. DecidesAs tree (plain_of (Plan.Auto automaton.now))) }
{
    let mut growth = Growth::new(alloc);
    let mut starts = Vec::new(alloc);
    for place in 0..automaton.contexts {
        let rules = of_context(alloc, &automaton.rules, place + 1)?;
        let start = grow_rules(&mut growth, alloc, rules)?;
        starts.push(start)?;
    }
    Ok(Tree {
        steps: growth.steps.list,
        starts,
    })
}
