//! The document of a plan.

ghost use Rattle.plan_document.specs.Documents.{document, document_text, plan_object as plan_data};
ghost use Rattle.plan_document.specs.Faithful.{IsToldInFull};
ghost use Rattle.plan_rules.specs.Plans.{IsPlanOf};
ghost use Rattle.plan_rules.specs.Rules.{plain_of};
ghost use Rattle.serde_json.specs.Data.{Data, array};
ghost use Rattle.serde_json.specs.View.{items_of, view};
ghost use Rattle.std.specs.Prelude.{◌≡◌, IfOk, List};
ghost use Rattle.task_core.specs.Tasks.{action_count, fluent_count, fluent_names};

use crate::names::{action_array, fluent_array};
use crate::rules::{context_rules, table_rules};
use crate::values::{count_value, value_text};
use plan_rules::{Plan, word_of};
use serde_json::{Map, Value, put};
use std::alloc::{AllocError, Global};
use task_core::Task;

/// The document of a plan for a task, as JSON in one line with a line feed at its end: an object with
/// the members `actions`, `class`, `contexts`, `fluents` and `rules`, and of each rule `action`,
/// `context`, `literals`, `next`, `outcomes` and `precondition`. A table has one context, whose number
/// is 1. The plan is one that is told in full (`is_told_in_full`).
pub fn plan_document(alloc: Global, plan: &Plan, task: &Task) -> Result<Vec<u8>, AllocError>
    requires in_task { IsPlanOf (fluent_count task.now) (action_count task.now) plan.now }
    requires told { IsToldInFull (plain_of plan.now) }
    ensures { IfOk result (λ text. text.items
        ≡ document_text task.now (plain_of plan.now)) }
{
    let value = plan_value(alloc, plan, task)?;
    value_text(alloc, &value)
}

fn plan_value(alloc: Global, plan: &Plan, task: &Task) -> Result<Value, AllocError>
    requires in_task { IsPlanOf (fluent_count task.now) (action_count task.now) plan.now }
    ensures { IfOk result (λ value. view value
        ≡ document (fluent_names task.now) task.now.actions.items (plain_of plan.now)) }
{
    match plan {
        Plan::Table(table) => {
            let rules = table_rules(alloc, &task.fluents, &task.actions, &table.rules)?;
            plan_object(alloc, task, word_of(table.class), 1, rules)
        }
        Plan::Auto(automaton) => {
            let rules = context_rules(alloc, &task.fluents, &task.actions, &automaton.rules)?;
            plan_object(alloc, task, "ctl", automaton.contexts, rules)
        }
    }
}

/// The object with these members, and the names of the task.
fn plan_object(
    alloc: Global,
    task: &Task,
    class: &str,
    contexts: u32,
    rules: Value,
) -> Result<Value, AllocError>
    ensures { IfOk result (λ value. (listed : List Data) → view rules ≡ array (items_of listed)
        → view value
        ≡ plan_data (fluent_names task.now) task.now.actions.items class.now contexts listed) }
{
    let mut members = Map::new(alloc);
    put(&mut members, alloc, "rules", rules)?;
    put(
        &mut members,
        alloc,
        "fluents",
        fluent_array(alloc, &task.fluents)?,
    )?;
    put(&mut members, alloc, "contexts", count_value(contexts))?;
    put(
        &mut members,
        alloc,
        "class",
        Value::try_from_str(alloc, class)?,
    )?;
    put(
        &mut members,
        alloc,
        "actions",
        action_array(alloc, &task.actions)?,
    )?;
    Ok(Value::from(members))
}
