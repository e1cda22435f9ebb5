//! The check of a plan with contexts against a goal in computation tree logic.

ghost use Rattle.std.specs.Prelude.{◌≤◌, ◌+◌, ◌*◌, IfOk, List, ℕ};
ghost use Rattle.task_core.specs.Tasks.{fluent_count, system_of};
ghost use Rattle.ctl_syntax.specs.Values.{NamesBelow, ctl_value};
ghost use Rattle.plan_rules.specs.Denoted.{denoted_contexts};
ghost use Rattle.plan_rules.specs.Rules.{ContextRule, automaton};
ghost use Rattle.exec_graph.specs.Graphs.{IsGraphOf};
ghost use Rattle.exec_graph.specs.Values.{edge_count, plain_graph};
ghost use Rattle.plan_check.specs.ContextVerdicts.{IsContextVerdict, IsTrueAt};
ghost use Rattle.plan_check.specs.Operators.{operator_count};

use crate::ends::has_marked_starts;
use crate::goals::labels;
use crate::{Reason, Verdict};
use ctl_syntax::Ctl;
use exec_graph::{Graph, Steps};
use std::alloc::{AllocError, Global};
use std::sync::ledger::Ledger;
use task_core::Task;

/// The verdict on a plan with contexts for a goal in computation tree logic, read off the plan's
/// graph in the task.
///
/// It is yes exactly where the plan is complete and each initial configuration has the goal. The
/// plan itself isn't asked for: whatever plan with contexts the graph is the graph of, the verdict
/// is that of the context plan that its rules denote. The goal names fluents of the task alone. For
/// each operator of the goal each configuration that gets the label looks at those that it follows,
/// once: so it takes at most as many steps as there are edges, for each operator. An `Err` says that
/// memory ran out.
pub fn check_ctl<L: Ledger>(
    alloc: Global,
    task: &Task,
    graph: &Graph,
    goal: &Ctl,
    steps: &mut Steps<L>,
) -> Result<Verdict, AllocError>
    requires names { NamesBelow (fluent_count task.now) (ctl_value goal.now) }
    requires graph { (contexts : ℕ) × ((rules : List ContextRule)
        × IsGraphOf (system_of task.now) (automaton contexts rules)
        (plain_graph (fluent_count task.now) graph.now)) }
    ensures verdict { (contexts : ℕ) (rules : List ContextRule)
        → IsGraphOf (system_of task.now) (automaton contexts rules)
        (plain_graph (fluent_count task.now) graph.now)
        → IfOk result (IsContextVerdict (system_of task.now) (denoted_contexts rules)
        (IsTrueAt (system_of task.now) (denoted_contexts rules) (ctl_value goal.now))) }
    ensures steps { steps.new
        ≤ steps.old + operator_count (ctl_value goal.now) * edge_count graph.now }
{
    if graph.unexecutable() {
        return Ok(Verdict::No(Reason::Unexecutable));
    }
    if graph.stuck() {
        return Ok(Verdict::No(Reason::Stuck));
    }
    let marks = labels(alloc, graph, goal, steps)?;
    if has_marked_starts(graph, &marks) {
        Ok(Verdict::Yes { bound: None })
    } else {
        Ok(Verdict::No(Reason::Formula))
    }
}
