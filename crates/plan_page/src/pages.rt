//! The text of a page.

ghost use Rattle.plan_page.specs.ExplanationValues.{explanation_value};
ghost use Rattle.plan_page.specs.Explanations.{handed_data};
ghost use Rattle.plan_page.specs.Pages.{data_object as data_of, framed_text, page_data, page_of};
ghost use Rattle.plan_picture.specs.Values.{nodes_of};
ghost use Rattle.plan_rules.specs.Rules.{plain_of};
ghost use Rattle.serde_json.specs.View.{view};
ghost use Rattle.serde_json.specs.Written.{compact_text};
ghost use Rattle.std.specs.Option.{option_map};
ghost use Rattle.std.specs.Prelude.{◌≡◌, IfOk, string_bytes};
ghost use Rattle.task_core.specs.Tasks.{action_names, fluent_count, fluent_names, system_of};

use crate::escaped::push_escaped;
use crate::explanations::Explanation;
use crate::frame::{page_head, page_middle, page_tail};
use crate::plans::plan_values;
use crate::told::handed_value;
use crate::values::{node_values, outcome_counts};
use plan_document::{action_array, fluent_array};
use plan_picture::{Picture, push_text};
use plan_rules::Plan;
use serde_json::{Map, Value, put};
use std::alloc::{AllocError, Global};
use task_core::Task;

/// The page of a plan for a task, with the plan's picture: the text of an HTML file. It plays the
/// explanation that it is handed, if there is one, when it opens.
///
/// The page takes the first nodes of the picture for the initial states in the order of the task's.
pub fn page_text(
    alloc: Global,
    task: &Task,
    plan: &Plan,
    picture: &Picture,
    explanation: Option<&Explanation>,
) -> Result<Vec<u8>, AllocError>
    ensures { IfOk result (λ text. text.items
        ≡ page_of (fluent_names task.now) (action_names task.now) (system_of task.now)
        (plain_of plan.now) (nodes_of (fluent_count task.now) picture.now)
        (option_map (λ some. explanation_value some.now) explanation.entry)) }
{
    let data = page_text_of_data(alloc, task, plan, picture)?;
    let handed = handed_text(alloc, explanation)?;
    framed(alloc, data.as_bytes(), handed.as_bytes())
}

fn page_text_of_data(
    alloc: Global,
    task: &Task,
    plan: &Plan,
    picture: &Picture,
) -> Result<String, AllocError>
    ensures { IfOk result (λ text. string_bytes text
        ≡ compact_text (page_data (fluent_names task.now) (action_names task.now)
        (system_of task.now) (plain_of plan.now) (nodes_of (fluent_count task.now) picture.now))) }
{
    let value = page_value(alloc, task, plan, picture)?;
    value.to_string(alloc)
}

fn handed_text(alloc: Global, explanation: Option<&Explanation>) -> Result<String, AllocError>
    ensures { IfOk result (λ text. string_bytes text
        ≡ compact_text (handed_data (option_map (λ some. explanation_value some.now) explanation.entry))) }
{
    let value = handed_value(alloc, explanation)?;
    value.to_string(alloc)
}

/// A page with these data, and with what it is handed.
fn framed(alloc: Global, json: &[u8], handed: &[u8]) -> Result<Vec<u8>, AllocError>
    ensures { IfOk result (λ text. text.items ≡ framed_text json.now handed.now) }
{
    let mut out = Vec::new(alloc);
    push_text(&mut out, page_head())?;
    push_escaped(&mut out, json)?;
    push_text(&mut out, page_middle())?;
    push_escaped(&mut out, handed)?;
    push_text(&mut out, page_tail())?;
    Ok(out)
}

fn page_value(
    alloc: Global,
    task: &Task,
    plan: &Plan,
    picture: &Picture,
) -> Result<Value, AllocError>
    ensures { IfOk result (λ value. view value
        ≡ page_data (fluent_names task.now) (action_names task.now) (system_of task.now)
        (plain_of plan.now) (nodes_of (fluent_count task.now) picture.now)) }
{
    let values = plan_values(alloc, plan)?;
    let mut members = Map::new(alloc);
    put(&mut members, alloc, "rules", values.rules)?;
    put(
        &mut members,
        alloc,
        "outcomes",
        outcome_counts(alloc, task)?,
    )?;
    put(
        &mut members,
        alloc,
        "nodes",
        node_values(alloc, task, &picture.nodes)?,
    )?;
    put(
        &mut members,
        alloc,
        "fluents",
        fluent_array(alloc, &task.fluents)?,
    )?;
    put(&mut members, alloc, "contexts", values.contexts)?;
    put(&mut members, alloc, "class", values.class)?;
    put(
        &mut members,
        alloc,
        "actions",
        action_array(alloc, &task.actions)?,
    )?;
    Ok(Value::from(members))
}
