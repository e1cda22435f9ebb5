//! A run that shows why a plan with contexts misses its goal.

ghost use Rattle.ctl_syntax.specs.Goals.{CtlTree};
ghost use Rattle.ctl_syntax.specs.Values.{NamesBelow, ctl_value};
ghost use Rattle.exec_graph.specs.Values.{IsWithinFluents};
ghost use Rattle.goal_witness.specs.Links.{back_steps, links_value, stem_steps};
ghost use Rattle.goal_witness.specs.Witnesses.{IsWitness, MissesGoal, witness_value};
ghost use Rattle.counterexamples.specs.Misses.{IsMiss};
ghost use Rattle.counterexamples.specs.Values.{found_value};
ghost use Rattle.plan_rules.specs.Plans.{IsPlanOf};
ghost use Rattle.plan_rules.specs.Rules.{PlainPlan, plain_of};
ghost use Rattle.plan_witness.specs.Marked.{IsGraphIn};
ghost use Rattle.std.specs.List.{Contains};
ghost use Rattle.std.specs.Prelude.{◌+◌, ◌<◌, ◌^◌, IfNone, IfOk, IfSome, length, ℕ};
ghost use Rattle.task_core.specs.States.{IsWithin, vector};
ghost use Rattle.task_core.specs.Tasks.{action_count, fluent_count, initial_states, system_of};
ghost use Rattle.task_core.specs.declared.conditions.Cond.{Cond};

use crate::endings::Ending;
use crate::findings::Found;
use crate::numbers::initial_number;
use ctl_syntax::Ctl;
use exec_graph::Graph;
use goal_witness::{Witness, goal_witness, lines_of};
use plan_rules::Plan;
use std::alloc::{AllocError, Global};
use task_core::Task;

/// The goal by which a plan with contexts is judged: the problem's, or the one that stands for it where
/// actions may be tried again.
#[derive(Clone, Copy)]
pub struct JudgedBy<'a> {
    pub goal: &'a Ctl,
    pub fair: bool,
}

/// A run that shows why a plan with contexts misses the goal by which it is judged, read off its graph;
/// `None` where it meets the goal, where it can't be followed or doesn't go on, and for a table.
pub fn find_miss<'a>(
    alloc: Global,
    task: &Task,
    plan: &Plan,
    graph: &Graph,
    by: JudgedBy<'a>,
) -> Result<Option<Found<'a>>, AllocError>
    requires plan { IsPlanOf (fluent_count task.now) (action_count task.now) plan.now }
    requires graph { IsGraphIn task.now plan.now graph.now }
    requires inside { IsWithinFluents (fluent_count task.now) graph.now }
    requires names { NamesBelow (fluent_count task.now) (ctl_value by.goal.now) }
    ensures found { IfOk result (λ found. IfSome found (λ found.
        IsMiss task.now (plain_of plan.now) by.entry.fair (ctl_value by.entry.goal.now)
        (found_value (fluent_count task.now) found))) }
    ensures none { IfOk result (λ found. IfNone found
        (MissesGoal (system_of task.now) (plain_of plan.now) (ctl_value by.entry.goal.now) → ⊥)) }
{
    match goal_witness(alloc, task, plan, graph, by.goal)? {
        Some(witness) => {
            let found = told(alloc, task, by.fair, witness)?;
            Ok(Some(found))
        }
        None => Ok(None),
    }
}

/// The run of a witness, with the number of its initial state and what is false along it.
fn told<'a>(
    alloc: Global,
    task: &Task,
    fair: bool,
    witness: Witness<'a>,
) -> Result<Found<'a>, AllocError>
    requires within { IsWithin (fluent_count task.now) witness.run.start }
    requires initial { Contains (initial_states task.now)
        (vector (fluent_count task.now) witness.run.start) }
    requires few { (n : ℕ) → length (stem_steps (links_value n witness.links.items))
        + length (back_steps (links_value n witness.links.items)) < 2 ^ 64 }
    ensures { (plan : PlainPlan) (goal : CtlTree Cond)
        → IsWitness (system_of task.now) plan goal (witness_value (fluent_count task.now) witness.entry)
        → IfOk result (λ found.
        IsMiss task.now plan fair goal (found_value (fluent_count task.now) found)) }
{
    let number = initial_number(alloc, task, &witness.run.start)?;
    let lines = lines_of(alloc, &witness.links)?;
    let Witness {
        run,
        stem,
        links: _,
    } = witness;
    Ok(Found {
        number,
        run,
        stem,
        ending: Ending::GoalMissed(fair, lines),
    })
}
