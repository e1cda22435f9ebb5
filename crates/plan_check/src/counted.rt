//! The checks with a counter of their own, for callers that don't ask how many steps were taken.

ghost use Rattle.std.specs.Prelude.{◌≡◌, ◌<◌, IfOk, IsSome, List, ℕ};
ghost use Rattle.task_core.specs.Tasks.{fluent_count, system_of};
ghost use Rattle.task_core.specs.declared.classes.Class.{Class};
ghost use Rattle.ctl_syntax.specs.Values.{NamesBelow, ctl_value};
ghost use Rattle.plan_rules.specs.Denoted.{denoted_contexts};
ghost use Rattle.plan_rules.specs.Rules.{ContextRule, PlanRule, automaton, table};
ghost use Rattle.exec_graph.specs.Graphs.{IsGraphOf};
ghost use Rattle.exec_graph.specs.Values.{plain_graph};
ghost use Rattle.plan_check.specs.ContextVerdicts.{IsContextVerdict, IsTrueAt};
ghost use Rattle.plan_check.specs.Verdicts.{IsVerdict};

use crate::{Verdict, check_class, check_ctl};
use ctl_syntax::Ctl;
use exec_graph::{Graph, Steps};
use std::alloc::{AllocError, Global};
use std::marker::Brand;
use std::sync::ledger::{Blank, Ledger};
use task_core::{Class, Task};

/// The verdict of [`check_class`], with a counter of its own.
pub fn judge_class(
    alloc: Global,
    task: &Task,
    graph: &Graph,
    class: Class,
) -> Result<Verdict, AllocError>
    requires goal { IsSome task.now.goal }
    requires graph { (word : Class) × ((rules : List PlanRule)
        × IsGraphOf (system_of task.now) (table word rules)
        (plain_graph (fluent_count task.now) graph.now)) }
    ensures { (word : Class) (rules : List PlanRule)
        → IsGraphOf (system_of task.now) (table word rules)
        (plain_graph (fluent_count task.now) graph.now)
        → IfOk result (IsVerdict (system_of task.now) rules class) }
{
    class_in::<Brand>(alloc, task, graph, class, Blank::new(1))
}

/// The verdict of [`check_class`], counted in a new ledger.
fn class_in<L: Ledger>(
    alloc: Global,
    task: &Task,
    graph: &Graph,
    class: Class,
    blank: Blank,
) -> Result<Verdict, AllocError>
    requires goal { IsSome task.now.goal }
    requires graph { (word : Class) × ((rules : List PlanRule)
        × IsGraphOf (system_of task.now) (table word rules)
        (plain_graph (fluent_count task.now) graph.now)) }
    requires name { blank.name ≡ L.name }
    requires parts { blank.parts ≡ L.parts }
    requires some { 0 < blank.parts }
    ensures { (word : Class) (rules : List PlanRule)
        → IsGraphOf (system_of task.now) (table word rules)
        (plain_graph (fluent_count task.now) graph.now)
        → IfOk result (IsVerdict (system_of task.now) rules class) }
{
    let mut steps = Steps::<L>::new(blank);
    check_class(alloc, task, graph, class, &mut steps)
}

/// The verdict of [`check_ctl`], with a counter of its own.
pub fn judge_ctl(
    alloc: Global,
    task: &Task,
    graph: &Graph,
    goal: &Ctl,
) -> Result<Verdict, AllocError>
    requires names { NamesBelow (fluent_count task.now) (ctl_value goal.now) }
    requires graph { (contexts : ℕ) × ((rules : List ContextRule)
        × IsGraphOf (system_of task.now) (automaton contexts rules)
        (plain_graph (fluent_count task.now) graph.now)) }
    ensures verdict { (contexts : ℕ) (rules : List ContextRule)
        → IsGraphOf (system_of task.now) (automaton contexts rules)
        (plain_graph (fluent_count task.now) graph.now)
        → IfOk result (IsContextVerdict (system_of task.now) (denoted_contexts rules)
        (IsTrueAt (system_of task.now) (denoted_contexts rules) (ctl_value goal.now))) }
{
    ctl_in::<Brand>(alloc, task, graph, goal, Blank::new(1))
}

/// The verdict of [`check_ctl`], counted in a new ledger.
fn ctl_in<L: Ledger>(
    alloc: Global,
    task: &Task,
    graph: &Graph,
    goal: &Ctl,
    blank: Blank,
) -> Result<Verdict, AllocError>
    requires names { NamesBelow (fluent_count task.now) (ctl_value goal.now) }
    requires graph { (contexts : ℕ) × ((rules : List ContextRule)
        × IsGraphOf (system_of task.now) (automaton contexts rules)
        (plain_graph (fluent_count task.now) graph.now)) }
    requires name { blank.name ≡ L.name }
    requires parts { blank.parts ≡ L.parts }
    requires some { 0 < blank.parts }
    ensures verdict { (contexts : ℕ) (rules : List ContextRule)
        → IsGraphOf (system_of task.now) (automaton contexts rules)
        (plain_graph (fluent_count task.now) graph.now)
        → IfOk result (IsContextVerdict (system_of task.now) (denoted_contexts rules)
        (IsTrueAt (system_of task.now) (denoted_contexts rules) (ctl_value goal.now))) }
{
    let mut steps = Steps::<L>::new(blank);
    check_ctl(alloc, task, graph, goal, &mut steps)
}
